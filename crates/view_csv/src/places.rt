//! Where the fields of the columns stand, and the rows of records.
ghost use Rattle.std.specs.Prelude.{◌≡◌, IfOk, IfSome, Some, is_some, length, option_map};
ghost use Rattle.std.specs.List.{list_any, zip};
ghost use Rattle.std.specs.FinMap as finmap;
ghost use Rattle.csv.specs.Records.{field_at, fields_of};
ghost use Rattle.plain_values.specs.SortedSet as set;
ghost use Rattle.csv_specs.specs.Fields.{is_same};
ghost use Rattle.csv_specs.specs.Sheets.{field_under, is_header};
ghost use Rattle.view_csv.specs.Places.{ArePlaces, is_name_at, value_at, values_at};

use crate::fields::value_of;
use csv::ByteRecord;
use lens_values::{Columns, Kind, Name, Names, NoMemory, Row, Value};
use std::alloc::Global;

/// The place of each column under the header, or `None` where that is not the names of the columns.
pub fn places_under(
    alloc: Global,
    columns: &Columns,
    header: &ByteRecord,
) -> Result<Option<Vec<(usize, Kind)>>, NoMemory>
    ensures is { IfOk result (λ found. is_some found ≡ is_header columns.now (fields_of header.now)) }
    ensures places { IfOk result (λ found.
        IfSome found (λ places. ArePlaces columns.now (fields_of header.now) places.items)) }
{
    let pairs = columns.pairs();
    if header.len() != pairs.len() {
        return Ok(None);
    }
    let mut places = Vec::with_capacity(alloc, pairs.len())?;
    for column in pairs {
        match place_of(&column.0, header) {
            Some(place) => places.push((place, column.1))?,
            None => return Ok(None),
        }
    }
    Ok(Some(places))
}

// The first place where the header has the name.
fn place_of(name: &Name, header: &ByteRecord) -> Option<usize>
    ensures is { is_some result ≡ list_any (is_same name.now) (fields_of header.now) }
    ensures place { IfSome result (λ place.
        (fields : _) → field_under name.now (fields_of header.now) fields ≡ field_at fields place) }
{
    for place in 0..header.len() {
        if has_at(name, header, place) {
            return Some(place);
        }
    }
    None
}

// Whether the header has the name at the place.
fn has_at(name: &Name, header: &ByteRecord, place: usize) -> bool
    ensures { result ≡ is_name_at name.now (field_at (fields_of header.now) place) }
{
    match header.get(place) {
        Some(field) => name.as_str().as_bytes() == field,
        None => false,
    }
}

/// The row of the record, if it is one.
pub fn row_of_record(
    alloc: Global,
    names: &Names,
    places: &[(usize, Kind)],
    fields: &ByteRecord,
) -> Result<Option<Row>, NoMemory>
    requires { length places.now ≡ length (set.items names.now) }
    ensures { IfOk result (λ found. found
        ≡ option_map (λ values. finmap.from_entries (zip (set.items names.now) values)) (values_at places.now (fields_of fields.now))) }
{
    match values_of(alloc, places, fields)? {
        Some(values) => Ok(Some(Row::from_values(alloc, names.copy(alloc)?, values)?)),
        None => Ok(None),
    }
}

// The values at the places, if each is there.
fn values_of(
    alloc: Global,
    places: &[(usize, Kind)],
    fields: &ByteRecord,
) -> Result<Option<Vec<Value>>, NoMemory>
    ensures values { IfOk result (λ found. option_map (λ v. v.items) found ≡ values_at places.now (fields_of fields.now)) }
    ensures length { IfOk result (λ found. IfSome found (λ values. length values.items ≡ length places.now)) }
{
    let mut values = Vec::with_capacity(alloc, places.len())?;
    for place in places {
        match value_of_place(alloc, fields, place)? {
            Some(value) => values.push(value)?,
            None => return Ok(None),
        }
    }
    Ok(Some(values))
}

fn value_of_place(
    alloc: Global,
    fields: &ByteRecord,
    place: &(usize, Kind),
) -> Result<Option<Value>, NoMemory>
    ensures { IfOk result (λ found. found ≡ value_at (fields_of fields.now) place.now) }
{
    match fields.get(place.0) {
        Some(field) => value_of(alloc, place.1, field),
        None => Ok(None),
    }
}

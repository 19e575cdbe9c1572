//! Reads the rows of a text as CSV.
ghost use Rattle.std.specs.Prelude.{◌≡◌, [], ◌∷◌, IfOk, length, true};
ghost use Rattle.std.specs.FinMap as finmap;
ghost use Rattle.no_memory.specs.Gives.{Gives, GivesBy};
ghost use Rattle.plain_values.specs.SortedSet as set;
ghost use Rattle.lens_specs.specs.Columns.{Fits};
ghost use Rattle.csv_specs.specs.Sheets.{rows_from, unsheet};
ghost use Rattle.view_csv.specs.Places.{ArePlaces};
ghost use Rattle.view_csv.specs.Records.{HasRead, records_in};
ghost use Rattle.view_csv.specs.Told.{told};
ghost use Rattle.view_csv.specs.declared.fault.CsvFault.TheVariants as fault;

use crate::fault::CsvFault;
use crate::places::{places_under, row_of_record};
use crate::records::{read_next, reader_of};
use csv::{ByteRecord, Reader};
use lens_values::{Columns, Kind, Row};
use row_sets::RowSet;
use std::alloc::Global;

/// The rows of a text as CSV. `BadRecord` with the number of the first wrong record, from 0.
pub fn from_csv(alloc: Global, columns: &Columns, text: &str) -> Result<RowSet, CsvFault>
    ensures gives { Gives fault.NoMemory result (told (unsheet columns.now text.now)) }
    ensures fit { IfOk result (λ rows.
        (row : _) → set.contains rows row ≡ true → Fits columns.now row) }
{
    let mut reader = reader_of(alloc, text);
    let mut fields = ByteRecord::new(alloc);
    if !read_next(&mut reader, &mut fields)? {
        return Err(CsvFault::BadRecord { place: 0 });
    }
    match places_under(alloc, columns, &fields)? {
        Some(places) => match rows_under(alloc, columns, &places, &mut reader, &mut fields) {
            Ok(rows) => Ok(RowSet::new(alloc, rows)?),
            Err(fault) => Err(fault),
        },
        None => Err(CsvFault::BadRecord { place: 0 }),
    }
}

// The rows of the records that follow the header. There are never as many as `usize` counts.
fn rows_under(
    alloc: Global,
    columns: &Columns,
    places: &[(usize, Kind)],
    reader: &mut Reader<&[u8]>,
    fields: &mut ByteRecord,
) -> Result<Vec<Row>, CsvFault>
    requires { length places.now ≡ length (finmap.keys columns.now) }
    ensures { (text : _) (header : _) (rs : _) → HasRead reader.old text (header ∷ [])
        → ArePlaces columns.now header places.now → records_in text ≡ header ∷ rs
        → GivesBy (λ rows. rows.items) fault.NoMemory result (told (rows_from 1 columns.now header rs)) }
{
    let names = columns.names(alloc)?;
    let mut rows = Vec::new(alloc);
    for place in 1..usize::MAX {
        if !read_next(reader, fields)? {
            return Ok(rows);
        }
        if fields.len() != places.len() {
            return Err(CsvFault::BadRecord { place });
        }
        match row_of_record(alloc, &names, places, fields)? {
            Some(row) => rows.push(row)?,
            None => return Err(CsvFault::BadRecord { place }),
        }
    }
    Err(CsvFault::NoMemory)
}

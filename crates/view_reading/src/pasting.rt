//! Parts of pairs of rows by the places of their values, which are found once: rows of one side have
//! the same columns.
ghost use Rattle.std.specs.Prelude.{◌≡◌, ◌++◌, [], IfOk, OnOk, option_copied};
ghost use Rattle.std.specs.List.{cons_option, filter_map, list_all, slice_get};
ghost use Rattle.plain_values.specs.SortedSet as set;
ghost use Rattle.plain_values.specs.Value.{same_value};
ghost use Rattle.view_reading.specs.Pasting.{part_at, own_place, place_in, value_at};

use lens_values::{Name, Names, NoMemory, Row, Value};
use std::alloc::Global;

/// Where a value of a pair of rows stands: at this place of the left row, or of the right one.
#[derive(Clone, Copy)]
pub(crate) enum Place {
    Left(usize),
    Right(usize),
}

/// The places of these columns in rows with the others, of those that are among them.
pub(crate) fn own_places(alloc: Global, cols: &Names, all: &Names) -> Result<Vec<usize>, NoMemory>
    ensures { IfOk result (λ places.
        places.items ≡ filter_map (own_place all.now) (set.items cols.now)) }
{
    let mut places = Vec::with_capacity(alloc, cols.len())?;
    for name in cols.as_slice() {
        if let Some(place) = all.place_of(name) {
            places.push(place)?;
        }
    }
    Ok(places)
}

/// The places of these columns in pairs of rows with the columns of the left and of the right side,
/// of those that are among them. A column of both is taken from the right row.
pub(crate) fn places_in(
    alloc: Global,
    cols: &Names,
    left: &Names,
    right: &Names,
) -> Result<Vec<Place>, NoMemory>
    ensures { IfOk result (λ places.
        places.items ≡ filter_map (place_in left.now right.now) (set.items cols.now)) }
{
    let mut places = Vec::with_capacity(alloc, cols.len())?;
    for name in cols.as_slice() {
        if let Some(place) = place_in(name, left, right) {
            places.push(place)?;
        }
    }
    Ok(places)
}

// The place of the column.
fn place_in(name: &Name, left: &Names, right: &Names) -> Option<Place>
    ensures { result ≡ place_in left.now right.now name.now }
{
    match right.place_of(name) {
        Some(place) => Some(Place::Right(place)),
        None => match left.place_of(name) {
            Some(place) => Some(Place::Left(place)),
            None => None,
        },
    }
}

/// The part in these columns of the left row with the right one pasted over it. The columns stand at
/// the places.
pub(crate) fn part_at(
    alloc: Global,
    cols: &Names,
    places: &[Place],
    left: &Row,
    right: &Row,
) -> Result<Row, NoMemory>
    ensures { IfOk result (λ part. part ≡ part_at cols.now places.now left.now right.now) }
{
    let values = values_at(alloc, places, left.values(), right.values())?;
    if values.len() == cols.len() {
        return Row::from_values(alloc, cols.copy(alloc)?, values);
    }
    left.paste(alloc, right)?.project(alloc, cols)
}

// The values at the places.
fn values_at(
    alloc: Global,
    places: &[Place],
    left: &[Value],
    right: &[Value],
) -> Result<Vec<Value>, NoMemory>
    ensures { IfOk result (λ found.
        found.items ≡ filter_map (value_at left.now right.now) places.now) }
{
    let mut found = Vec::with_capacity(alloc, places.len())?;
    for place in places {
        add_value(&mut found, alloc, value_at(*place, left, right))?;
    }
    Ok(found)
}

// Adds a copy of the value, if there is one.
fn add_value(found: &mut Vec<Value>, alloc: Global, value: Option<&Value>) -> Result<(), NoMemory>
    ensures { OnOk result (found.new.items
        ≡ found.old.items ++ cons_option (option_copied value.entry) []) }
{
    if let Some(value) = value {
        found.push(value.copy(alloc)?)?;
    }
    Ok(())
}

// The value at the place.
#[inline]
fn value_at<'a>(place: Place, left: &'a [Value], right: &'a [Value]) -> Option<&'a Value>
    ensures { option_copied result ≡ value_at left.now right.now place }
{
    match place {
        Place::Left(place) => left.get(place),
        Place::Right(place) => right.get(place),
    }
}

/// Whether both lists have the same values at the places.
pub(crate) fn same_at(places: &[usize], values: &[Value], others: &[Value]) -> bool
    ensures { result
        ≡ list_all (λ p. same_value (slice_get values.now p) (slice_get others.now p)) places.now }
{
    places
        .iter()
        .all(|place| is_same_at(*place, values, others))
}

// Whether both lists have the same value at the place, or none.
#[inline]
fn is_same_at(place: usize, values: &[Value], others: &[Value]) -> bool
    ensures { result ≡ same_value (slice_get values.now place) (slice_get others.now place) }
{
    is_same(values.get(place), others.get(place))
}

// Whether both are the same value, or none.
#[inline]
fn is_same(value: Option<&Value>, other: Option<&Value>) -> bool
    ensures { result ≡ same_value (option_copied value.entry) (option_copied other.entry) }
{
    match (value, other) {
        (Some(value), Some(other)) => value == other,
        (None, None) => true,
        _ => false,
    }
}

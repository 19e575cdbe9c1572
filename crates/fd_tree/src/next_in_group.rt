//! For each row the next one of its group: the rows that agree on some columns.
ghost use Rattle.std.specs.Prelude.{◌≡◌, ◌<◌, IfOk, IfSome, length};
ghost use Rattle.lens_specs.specs.Rows.{agree};
ghost use Rattle.fd_tree.specs.ClashPlaces.{IsAlike, later_places};

use crate::hashing::hash_row;
use lens_values::{Names, NoMemory, Row};
use std::alloc::Global;
use std::collections::BTreeMap;

/// For each row the place of the next row that agrees with it on the columns. The rows are grouped
/// by hashing, and only where two rows that differ have one hash, by their values themselves.
pub fn next_places(
    alloc: Global,
    rows: &[Row],
    cols: &Names,
) -> Result<Vec<Option<usize>>, NoMemory>
    ensures { IfOk result (λ places. places.items ≡ later_places (agree cols.now) 0 rows.now) }
{
    let found = next_by_hash(alloc, rows, cols)?;
    match found {
        Some(places) => Ok(places),
        None => next_by_part(alloc, rows, cols),
    }
}

// The places that `next_places` returns, found by hashing, or `None` if two rows that differ on the
// columns have one hash.
fn next_by_hash(
    alloc: Global,
    rows: &[Row],
    cols: &Names,
) -> Result<Option<Vec<Option<usize>>>, NoMemory>
    ensures { IfOk result (λ found.
        IfSome found (λ places. places.items ≡ later_places (agree cols.now) 0 rows.now)) }
{
    let mut latest = BTreeMap::new(alloc);
    let mut next_in_group = vec![in alloc; None; rows.len()]?;
    for place in (0..rows.len()).rev() {
        let next = latest.insert(hash_row(&rows[place], cols), place)?;
        if !is_alike(rows, cols, place, next) {
            return Ok(None);
        }
        next_in_group[place] = next;
    }
    Ok(Some(next_in_group))
}

// Whether the row at the next place, if there is one, agrees with the row at the place.
fn is_alike(rows: &[Row], cols: &Names, place: usize, next: Option<usize>) -> bool
    requires place { place < length rows.now }
    requires next { IfSome next (λ n. n < length rows.now) }
    ensures { IsAlike cols.now rows.now place next result }
{
    match next {
        None => true,
        Some(next) => rows[place].agree_on(&rows[next], cols),
    }
}

// The places that `next_places` returns, found by the values that the rows have in the columns.
fn next_by_part(alloc: Global, rows: &[Row], cols: &Names) -> Result<Vec<Option<usize>>, NoMemory>
    ensures { IfOk result (λ places. places.items ≡ later_places (agree cols.now) 0 rows.now) }
{
    let mut latest = BTreeMap::new(alloc);
    let mut next_in_group = vec![in alloc; None; rows.len()]?;
    for place in (0..rows.len()).rev() {
        let part = rows[place].project(alloc, cols)?;
        next_in_group[place] = latest.insert(part, place)?;
    }
    Ok(next_in_group)
}

//! Indexes of rows by some columns, and the entries with one part in these.
ghost use Rattle.std.specs.Prelude.{◌≡◌, ◌≤◌, IfOk, false, filter, length, map, true};
ghost use Rattle.std.specs.List.{list_any};
ghost use Rattle.std.specs.List.Sorted.{IsPartitionPoint, IsPartitionedBy, IsStrictlySortedBy};
ghost use Rattle.std.specs.Ordering.{eq_by_cmp, is_eq, is_le, is_lt};
ghost use Rattle.plain_values.specs.Row.{row_cmp};
ghost use Rattle.row_sets.specs.Joins.{entry_cmp, with_key};

use lens_values::{Names, NoMemory, Row, into_sorted};
use std::alloc::Global;

/// The index of the rows by these columns: each row after its part in the columns, in rising order
/// of the parts and then of the rows.
pub fn indexed(alloc: Global, rows: &[Row], cols: &Names) -> Result<Vec<(Row, Row)>, NoMemory>
    ensures order { IfOk result (λ index. IsStrictlySortedBy entry_cmp index.items) }
    ensures members { IfOk result (λ index. (e : _)
        → list_any (eq_by_cmp entry_cmp e) index.items
        ≡ list_any (eq_by_cmp entry_cmp e) (map (with_key cols.now) rows.now)) }
{
    Ok(into_sorted(entries(alloc, rows, cols)?))
}

// Each row after its part in the columns, in the order of the rows.
fn entries(alloc: Global, rows: &[Row], cols: &Names) -> Result<Vec<(Row, Row)>, NoMemory>
    ensures { IfOk result (λ list. list.items ≡ map (with_key cols.now) rows.now) }
{
    let mut list = Vec::with_capacity(alloc, rows.len())?;
    for row in rows {
        let key = row.project(alloc, cols)?;
        list.push((key, row.copy(alloc)?))?;
    }
    Ok(list)
}

/// Entries of an index that are neighbours, and the place after them.
#[derive(Clone, Copy)]
pub struct Group<'a> {
    pub entries: &'a [(Row, Row)],
    pub end: usize,
}

/// The entries with this part, which are neighbours and perhaps begin at the guess.
pub fn with_part<'a>(entries: &'a [(Row, Row)], part: &Row, guess: usize) -> Group<'a>
    requires { IsStrictlySortedBy entry_cmp entries.now }
    ensures { result.entries.now ≡ filter (λ e. is_eq (row_cmp e.0 part.now)) entries.now }
{
    let start = start_of(entries, part, guess);
    let rest = &entries[start..];
    let count = not_above(rest, part);
    Group {
        entries: &rest[..count],
        end: start + count,
    }
}

// The place of the first entry whose part is not below this one. It is mostly the guess, since parts
// are often sought in their order.
fn start_of(entries: &[(Row, Row)], part: &Row, guess: usize) -> usize
    requires { IsPartitionedBy (λ e. is_lt (row_cmp e.0 part.now)) entries.now }
    ensures bound { result ≤ length entries.now }
    ensures partitioned { IsPartitionPoint (λ e. is_lt (row_cmp e.0 part.now) ≡ true)
        (λ e. is_lt (row_cmp e.0 part.now) ≡ false) entries.now result }
{
    if 0 < guess
        && guess < entries.len()
        && entries[guess - 1].0 < *part
        && entries[guess].0 >= *part
    {
        return guess;
    }
    entries.partition_point(|entry| entry.0.cmp(part).is_lt())
}

// How many entries at the front have a part that is not above this one. The caller begins at the
// first entry with this part, so these are all entries that have it. Mostly they are few, and are
// counted in turn.
fn not_above(entries: &[(Row, Row)], part: &Row) -> usize
    requires { IsPartitionedBy (λ e. is_le (row_cmp e.0 part.now)) entries.now }
    ensures bound { result ≤ length entries.now }
    ensures partitioned { IsPartitionPoint (λ e. is_le (row_cmp e.0 part.now) ≡ true)
        (λ e. is_le (row_cmp e.0 part.now) ≡ false) entries.now result }
{
    for place in 0..entries.len() {
        if entries[place].0 > *part {
            return place;
        }
    }
    entries.len()
}

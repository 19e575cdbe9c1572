//! Whether two sets share a row, and the union of both. If all rows of one set come behind those of
//! the other, this takes few comparisons.
ghost use Rattle.std.specs.Prelude.{◌≡◌, ◌++◌, false, true, IfOk};
ghost use Rattle.std.specs.List.Sorted.{IsStrictlySortedBy};
ghost use Rattle.plain_values.specs.Row.{row_cmp};
ghost use Rattle.plain_values.specs.SortedSet as set;
ghost use Rattle.signed_delta.specs.Disjoint.{AreApart};

use lens_values::{NoMemory, Row, append};
use row_sets::RowSet;
use std::alloc::Global;
use std::cmp::Ordering;

/// Whether the sets may share a row. If this is false, they share none.
pub fn meet(one: &RowSet, other: &RowSet) -> bool
    ensures { result ≡ false → AreApart one.now other.now }
{
    let ones = one.rows();
    let others = other.rows();
    if rise_on(ones, others) || rise_on(others, ones) {
        return false;
    }
    let mut i = 0;
    let mut j = 0;
    while i < ones.len() && j < others.len() {
        match ones[i].cmp(&others[j]) {
            Ordering::Less => i += 1,
            Ordering::Greater => j += 1,
            Ordering::Equal => return true,
        }
    }
    false
}

/// The rows of either set.
pub fn joined(alloc: Global, one: &RowSet, other: &RowSet) -> Result<RowSet, NoMemory>
    ensures { IfOk result (λ all. all ≡ set.union one.now other.now) }
{
    let ones = one.rows();
    let others = other.rows();
    if !rise_on(ones, others) {
        return one.union(alloc, other);
    }
    let mut all = Vec::with_capacity(alloc, ones.len().saturating_add(others.len()))?;
    append(&mut all, alloc, ones)?;
    append(&mut all, alloc, others)?;
    Ok(RowSet::from_rising(all))
}

// Whether the rows of both rise, one list after the other.
fn rise_on(ones: &[Row], others: &[Row]) -> bool
    requires ones { IsStrictlySortedBy row_cmp ones.now }
    requires others { IsStrictlySortedBy row_cmp others.now }
    ensures { result ≡ true → IsStrictlySortedBy row_cmp (ones.now ++ others.now) }
{
    match (ones.last(), others.first()) {
        (Some(last), Some(first)) => last < first,
        _ => true,
    }
}

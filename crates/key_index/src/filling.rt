//! Fills indexes by a scan of rows.
ghost use Rattle.std.specs.Prelude.{◌≡◌, ◌+◌, ◌≤◌, [], length, IfOk, OnOk};
ghost use Rattle.key_index.specs.Lists.{AreKeyed, IsTableOf, SameCols, rows_of, set_of};

use crate::index::Index;
use crate::keyed::{Keyed, put_each, with_keys};
use lens_values::{NoMemory, Row};
use std::alloc::Global;
use std::sync::ledger::Ledger;
use step_counter::Steps;

/// Puts the rows into each index, a step a row.
pub fn fill<L: Ledger>(
    alloc: Global,
    indexes: &mut Vec<Index>,
    rows: &[Row],
    walked: &mut Steps<L>,
) -> Result<(), NoMemory>
    requires { IsTableOf (set_of []) indexes.old.items }
    ensures ok { OnOk result (IsTableOf (set_of rows.now) indexes.new.items) }
    ensures cols { SameCols indexes.old.items indexes.new.items }
    ensures walked { OnOk result (walked.new ≡ walked.old + length rows.now) }
    ensures walked_at_most { walked.new ≤ walked.old + length rows.now }
    ensures walks_on { walked.old ≤ walked.new }
{
    for row in rows {
        walked.tick();
        let keyed = with_keys(alloc, indexes, row)?;
        put_each(alloc, indexes, &keyed)?;
    }
    Ok(())
}

/// Indexes of the listed rows by the same columns as these ones.
pub fn indexes_of(alloc: Global, indexes: &[Index], list: &[Keyed]) -> Result<Vec<Index>, NoMemory>
    requires { AreKeyed indexes.now list.now }
    ensures table { IfOk result (λ made. IsTableOf (rows_of list.now) made.items) }
    ensures cols { IfOk result (λ made. SameCols indexes.now made.items) }
{
    let mut made = empty_indexes(alloc, indexes)?;
    for keyed in list {
        put_each(alloc, &mut made, keyed)?;
    }
    Ok(made)
}

// Indexes of no row by the same columns as these ones.
fn empty_indexes(alloc: Global, indexes: &[Index]) -> Result<Vec<Index>, NoMemory>
    ensures table { IfOk result (λ made. IsTableOf (rows_of []) made.items) }
    ensures cols { IfOk result (λ made. SameCols indexes.now made.items) }
{
    let mut made = Vec::with_capacity(alloc, indexes.len())?;
    for index in indexes {
        made.push(Index::new(alloc, index.cols.copy(alloc)?))?;
    }
    Ok(made)
}

//! New indexes of a table, filled by one walk along its rows.
ghost use Rattle.std.specs.Prelude.{◌≡◌, ◌++◌, ◌+◌, ◌≤◌, [], length, take, IfOk, OnOk, OnErr};
ghost use Rattle.key_index.specs.Lists.{IsTableOf, cols_of, set_of};
ghost use Rattle.base_index.specs.Need.{is_fresh, rows_walked, with_need, with_needs};

use crate::need::Need;
use key_index::{Index, fill, has_index};
use lens_values::{Name, NoMemory};
use row_sets::RowTree;
use std::alloc::Global;
use std::sync::ledger::Ledger;
use step_counter::Steps;

/// Adds the indexes that the needs ask of this table and that it lacks. Where there are any, the
/// rows are walked once, a step a row. After `NoMemory` the indexes are as they were.
pub fn add_indexes<L: Ledger>(
    alloc: Global,
    table: &Name,
    rows: &RowTree,
    indexes: &mut Vec<Index>,
    needs: &[Need],
    walked: &mut Steps<L>,
) -> Result<(), NoMemory>
    requires table { IsTableOf rows.now indexes.old.items }
    ensures cols { OnOk result (
        cols_of indexes.new.items ≡ with_needs table.now needs.now (cols_of indexes.old.items)) }
    ensures err { OnErr result (indexes.new.items ≡ indexes.old.items) }
    ensures front { take (length indexes.old.items) indexes.new.items ≡ indexes.old.items }
    ensures table { IsTableOf rows.now indexes.new.items }
    ensures walked { OnOk result (walked.new
        ≡ walked.old + rows_walked table.now needs.now (cols_of indexes.old.items) rows.now) }
    ensures walked_at_most { walked.new
        ≤ walked.old + rows_walked table.now needs.now (cols_of indexes.old.items) rows.now }
    ensures walks_on { walked.old ≤ walked.new }
{
    let mut fresh = fresh_indexes(alloc, table, indexes, needs)?;
    if fresh.is_empty() {
        return Ok(());
    }
    let all = rows.rows(alloc)?;
    fill(alloc, &mut fresh, all.rows(), walked)?;
    indexes.append(&mut fresh)?;
    Ok(())
}

// An empty index for each need that asks this table for columns by which it has none.
fn fresh_indexes(
    alloc: Global,
    table: &Name,
    indexes: &[Index],
    needs: &[Need],
) -> Result<Vec<Index>, NoMemory>
    ensures cols { IfOk result (λ fresh. cols_of indexes.now ++ cols_of fresh.items
        ≡ with_needs table.now needs.now (cols_of indexes.now)) }
    ensures empty { IfOk result (λ fresh. IsTableOf (set_of []) fresh.items) }
{
    let mut fresh = Vec::new(alloc);
    for need in needs {
        add_fresh(alloc, table, indexes, &mut fresh, need)?;
    }
    Ok(fresh)
}

// Adds an empty index, where the need asks this table for columns by which there is none.
fn add_fresh(
    alloc: Global,
    table: &Name,
    indexes: &[Index],
    fresh: &mut Vec<Index>,
    need: &Need,
) -> Result<(), NoMemory>
    requires { IsTableOf (set_of []) fresh.old.items }
    ensures cols { OnOk result (cols_of indexes.now ++ cols_of fresh.new.items
        ≡ with_need table.now need.now (cols_of indexes.now ++ cols_of fresh.old.items)) }
    ensures empty { OnOk result (IsTableOf (set_of []) fresh.new.items) }
{
    if is_wanted(table, indexes, fresh, need) {
        fresh.push(Index::new(alloc, need.cols.copy(alloc)?))?;
    }
    Ok(())
}

// Whether the need asks this table for columns by which there is no index yet.
fn is_wanted(table: &Name, indexes: &[Index], fresh: &[Index], need: &Need) -> bool
    ensures { result ≡ is_fresh table.now (cols_of indexes.now ++ cols_of fresh.now) need.now }
{
    need.table == *table && !has_index(indexes, &need.cols) && !has_index(fresh, &need.cols)
}

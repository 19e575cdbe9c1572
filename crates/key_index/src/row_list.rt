//! Few rows, in rising order.
ghost use Rattle.std.specs.Prelude.{◌≡◌, ◌++◌, ◌∷◌, [], IfOk, IsTrue, OnOk, OnErr, length};
ghost use Rattle.std.specs.List.Sorted.{IsStrictlySortedBy};
ghost use Rattle.plain_values.specs.Row.{row_cmp};
ghost use Rattle.plain_values.specs.SortedSet as set;

use lens_values::{NoMemory, Row, copied};
use row_sets::RowSet;
use std::alloc::Global;
use std::marker::Model;

/// A set of few rows, kept as their rising list. It takes less room than a tree.
#[derive(Drop)]
pub struct RowList {
    rows: Vec<Row>,
}

impl Model for RowList {
    ghost use Rattle.std.specs.List.Sorted.{IsStrictlySortedBy};
    ghost use Rattle.plain_values.specs.Row.{row_cmp};
    ghost use Rattle.plain_values.specs.SortedSet as set;
    ghost use Rattle.lens_values.specs.contracts.row.Row as contract;

    ghost Value = { set.SortedSet row_cmp };

    ghost coded = { set.code contract.the_row.coded };

    ghost view = { λ l. set.from_list l.rows.items };

    ghost invariant = { λ l. IsStrictlySortedBy row_cmp l.rows.items };
}

impl RowList {
    /// The list of a set's rows.
    pub fn of(rows: RowSet) -> RowList
        ensures { result ≡ rows }
    {
        RowList {
            rows: rows.into_rows(),
        }
    }

    /// How many rows there are.
    pub fn count(&self) -> usize
        ensures { result ≡ length (set.items self.now) }
    {
        self.rows.len()
    }

    /// Copies of all rows, as a set that is kept in rising order.
    pub fn rows(&self, alloc: Global) -> Result<RowSet, NoMemory>
        ensures { IfOk result (λ all. all ≡ self.now) }
    {
        Ok(RowSet::from_rising(copied(alloc, &self.rows)?))
    }

    /// Adds a row. After `NoMemory` the set is as it was.
    pub fn insert(&mut self, row: Row) -> Result<(), NoMemory>
        ensures ok { OnOk result (self.new ≡ set.insert self.old row) }
        ensures err { OnErr result (self.new ≡ self.old) }
    {
        if is_above(&self.rows, &row) {
            self.rows.push(row)?;
            return Ok(());
        }
        if let Err(place) = self.rows.binary_search(&row) {
            self.rows.insert(place, row)?;
        }
        Ok(())
    }

    /// Removes the row, if it is there. It takes no memory.
    pub fn remove(&mut self, row: &Row)
        ensures { self.new ≡ set.remove self.old row.now }
    {
        if let Ok(place) = self.rows.binary_search(row) {
            let _was = self.rows.remove(place);
        }
    }
}

// Whether the row is above the last of the rows, as it mostly is where rows come in order.
fn is_above(rows: &[Row], row: &Row) -> bool
    requires { IsStrictlySortedBy row_cmp rows.now }
    ensures { IsTrue result → IsStrictlySortedBy row_cmp (rows.now ++ row.now ∷ []) }
{
    match rows.last() {
        Some(last) => last < row,
        None => true,
    }
}

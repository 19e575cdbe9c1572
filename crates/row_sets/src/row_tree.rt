//! A finite set of rows with quick insertion and removal.
ghost use Rattle.std.specs.Prelude.{◌≡◌, IfOk, OnOk, OnErr, length};
ghost use Rattle.std.specs.BTreeSet.{IsFromIterResult};
ghost use Rattle.plain_values.specs.Row.{row_cmp};
ghost use Rattle.plain_values.specs.SortedSet as set;

use crate::row_set::RowSet;
use lens_values::{NoMemory, Row};
use std::alloc::{AllocError, Global};
use std::collections::BTreeSet;
use std::marker::Model;

/// A finite set of rows, kept as a tree.
#[derive(Drop)]
pub struct RowTree {
    rows: BTreeSet<Row>,
}

impl Model for RowTree {
    ghost use Rattle.plain_values.specs.Row.{row_cmp};
    ghost use Rattle.plain_values.specs.SortedSet as set;
    ghost use Rattle.lens_values.specs.contracts.row.Row as contract;

    ghost Value = { set.SortedSet row_cmp };

    ghost coded = { set.code contract.the_row.coded };

    ghost view = { λ t. set.from_list t.rows.keys };
}

impl RowTree {
    /// The empty set.
    pub fn new(alloc: Global) -> RowTree
        ensures { result ≡ set.empty }
    {
        RowTree {
            rows: BTreeSet::new(alloc),
        }
    }

    /// The tree of the rows of a set, which is made in one walk along them.
    pub fn of(alloc: Global, rows: RowSet) -> Result<RowTree, NoMemory>
        ensures { IfOk result (λ tree. tree ≡ rows) }
    {
        Ok(RowTree {
            rows: tree_of(alloc, rows.into_rows())?,
        })
    }

    /// The number of rows.
    pub fn count(&self) -> usize
        ensures { result ≡ length (set.items self.now) }
    {
        self.rows.len()
    }

    /// Whether the row is in the set.
    pub fn has(&self, row: &Row) -> bool
        ensures { result ≡ set.contains self.now row.now }
    {
        self.rows.contains(row)
    }

    /// Adds a row. After `NoMemory` the set is as it was.
    pub fn insert(&mut self, row: Row) -> Result<(), NoMemory>
        ensures ok { OnOk result (self.new ≡ set.insert self.old row) }
        ensures err { OnErr result (self.new ≡ self.old) }
    {
        let _new = self.rows.insert(row)?;
        Ok(())
    }

    /// Removes the row, if it is there. It allocates nothing.
    pub fn remove(&mut self, row: &Row)
        ensures { self.new ≡ set.remove self.old row.now }
    {
        let _was = self.rows.remove(row);
    }

    /// Copies of all rows, as a set that is kept in rising order.
    pub fn rows(&self, alloc: Global) -> Result<RowSet, NoMemory>
        ensures { IfOk result (λ all. all ≡ self.now) }
    {
        let mut rows = Vec::with_capacity(alloc, self.rows.len())?;
        for row in self.rows.iter() {
            rows.push(row.copy(alloc)?)?;
        }
        Ok(RowSet::from_rising(rows))
    }
}

// The tree of these rows.
fn tree_of(alloc: Global, rows: Vec<Row>) -> Result<BTreeSet<Row>, AllocError>
    ensures { IfOk result (IsFromIterResult row_cmp rows.items) }
{
    rows.into_iter().collect(alloc)
}

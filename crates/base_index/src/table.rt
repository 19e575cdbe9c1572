//! A table, and the change of it that is staged.
ghost use Rattle.std.specs.Prelude.{◌≡◌, ◌+◌, ◌≤◌, length, true, IfOk, OnOk, OnErr, IsTrue, None, Some};
ghost use Rattle.plain_values.specs.SortedSet as set;
ghost use Rattle.lens_specs.specs.Delta.{AppliesTo, new_view};
ghost use Rattle.lens_specs.specs.Relation.{IsRelation};
ghost use Rattle.lens_specs.specs.Rows.{agree};
ghost use Rattle.base_index.specs.Need.{has_cols, rows_walked, with_needs};
ghost use Rattle.base_index.specs.Stored.{IsQuiet, new_table, settled, shown_of, unstaged};

use crate::body::Body;
use crate::need::Need;
use key_index::has_index;
use lens_values::{Columns, Name, Names, NoMemory, Row};
use row_sets::RowSet;
use signed_delta::Delta;
use std::alloc::Global;
use std::marker::Model;
use std::sync::ledger::Ledger;
use step_counter::Steps;

/// A table: what readers see, what `settle` makes of it, and what it was at `hold`.
#[derive(Drop)]
pub struct Table {
    name: Name,
    body: Body,
    // How many rows readers see.
    count: usize,
    // How many indexes readers see.
    shown: usize,
}

impl Model for Table {
    ghost use Rattle.base_index.specs.Stored as spec;

    ghost Value = { spec.Stored };

    ghost coded = { spec.coded_stored };

    ghost use Rattle.base_index.specs.StoredFields.{IsWhole, stored_of};

    ghost view = { stored_of };

    ghost invariant = { IsWhole };
}

impl Table {
    /// The table with no row and no index.
    pub fn new(alloc: Global, name: Name, columns: Columns) -> Table
        ensures { result ≡ new_table name columns }
    {
        Table {
            name,
            body: Body::new(alloc, columns),
            count: 0,
            shown: 0,
        }
    }

    /// The name of the table.
    pub fn name(&self) -> &Name
        ensures { result.now ≡ self.now.name }
    {
        &self.name
    }

    /// The columns of the table.
    pub fn columns(&self) -> &Columns
        ensures { result.now ≡ self.now.columns }
    {
        &self.body.columns
    }

    /// How many rows readers see.
    pub fn count(&self) -> usize
        ensures { result ≡ length (set.items self.now.rows) }
    {
        self.count
    }

    /// Whether readers see the row.
    pub fn has(&self, row: &Row) -> bool
        ensures { result ≡ set.contains self.now.rows row.now }
    {
        self.body.has(row)
    }

    /// Whether readers see an index by these columns.
    pub fn has_index(&self, cols: &Names) -> bool
        ensures { result ≡ has_cols self.now.indexes cols.now }
    {
        has_index(&self.body.indexes[..self.shown], cols)
    }

    /// The rows that agree with the key in the columns of one of the indexes.
    pub fn find(&self, alloc: Global, cols: &Names, key: &Row) -> Result<RowSet, NoMemory>
        requires { IsTrue (has_cols self.now.indexes cols.now) }
        ensures { IfOk result (λ found.
            found ≡ set.filter (agree cols.now key.now) self.now.rows) }
    {
        self.body.find(alloc, cols, key)
    }

    /// All rows that readers see, each with the columns.
    pub fn all_rows(&self, alloc: Global) -> Result<RowSet, NoMemory>
        ensures rows { IfOk result (λ rows. rows ≡ self.now.rows) }
        ensures fit { IsRelation (shown_of self.now) }
    {
        self.body.all_rows(alloc)
    }

    /// Makes what is staged present. It takes no memory.
    pub fn settle(&mut self, alloc: Global)
        ensures { self.new ≡ settled self.old }
    {
        self.body.settle(alloc);
        self.count = self.body.count();
        self.shown = self.body.indexes.len();
    }

    /// Drops what is staged. It takes no memory.
    pub fn unstage(&mut self)
        ensures { self.new ≡ unstaged self.old }
    {
        self.body.unstage();
        self.body.truncate(self.shown);
    }

    /// Stages a difference, and takes all the memory that `settle` and `unstage` need. After
    /// `NoMemory` nothing is staged.
    pub fn stage(&mut self, alloc: Global, delta: &Delta) -> Result<(), NoMemory>
        requires quiet { IsQuiet self.old }
        requires applies { AppliesTo delta.now (shown_of self.old) }
        ensures ok { OnOk result (
            self.new ≡ record self.old { next_rows = new_view self.old.rows delta.now }) }
        ensures err { OnErr result (self.new ≡ self.old) }
    {
        self.body.stage(alloc, delta)
    }

    /// Stages the indexes that the needs ask of this table and that it lacks. Where there are any,
    /// the table is walked once, a step a row. After `NoMemory` nothing is staged.
    pub fn stage_indexes<L: Ledger>(
        &mut self,
        alloc: Global,
        needs: &[Need],
        walked: &mut Steps<L>,
    ) -> Result<(), NoMemory>
        requires quiet { IsQuiet self.old }
        requires free { self.old.held ≡ None }
        ensures ok { OnOk result (self.new ≡ record self.old {
          next_indexes = with_needs self.old.name needs.now self.old.indexes;
        }) }
        ensures err { OnErr result (self.new ≡ self.old) }
        ensures walked { OnOk result (walked.new ≡ walked.old
            + rows_walked self.old.name needs.now self.old.indexes self.old.rows) }
        ensures walked_at_most { walked.new ≤ walked.old
            + rows_walked self.old.name needs.now self.old.indexes self.old.rows }
        ensures walks_on { walked.old ≤ walked.new }
    {
        self.body.unstage();
        self.body.add_indexes(alloc, &self.name, needs, walked)
    }

    /// Remembers the rows as they are, until `keep` or `back`. It takes no memory.
    pub fn hold(&mut self)
        requires quiet { IsQuiet self.old }
        requires free { self.old.held ≡ None }
        ensures { self.new ≡ record self.old { held = Some self.old.rows } }
    {
        self.body.hold();
    }

    /// Lets the rows stand as they are. It takes no memory.
    pub fn keep(&mut self)
        requires { IsQuiet self.old }
        ensures { self.new ≡ record self.old { held = None } }
    {
        self.body.keep();
    }

    /// Makes the rows what they were at `hold`. It takes no memory.
    pub fn back(&mut self, alloc: Global)
        ensures { (rows : _) → self.old.held ≡ Some rows
            → self.new ≡ record self.old { rows = rows; next_rows = rows; held = None } }
    {
        self.body.back(alloc);
        self.count = self.body.count();
    }
}

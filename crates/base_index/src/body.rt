//! The rows of a table with its indexes, a change of them that is staged, and what can be taken back.
ghost use Rattle.std.specs.Prelude.{◌≡◌, ◌≤◌, ◌+◌, IfOk, OnOk, OnErr, IsTrue, true, false, not, [], length, take};
ghost use Rattle.plain_values.specs.SortedSet as set;
ghost use Rattle.lens_specs.specs.Relation.{has};
ghost use Rattle.lens_specs.specs.Rows.{agree};
ghost use Rattle.key_index.specs.Lists.{cols_of, rows_of};
ghost use Rattle.base_index.specs.Need.{has_cols, rows_walked, with_needs};
ghost use Rattle.base_index.specs.Parts.{IsCalm, IsWhole, parts_of};
ghost use Rattle.base_index.specs.Parts.{rows_next, rows_seen, to_come, to_go};

use crate::filling::add_indexes;
use crate::need::Need;
use key_index::{Index, Key, Keyed, Marks, find_by, is_listed, listed};
use lens_values::{Columns, Name, Names, NoMemory, Row};
use row_sets::{RowSet, RowTree};
use std::alloc::Global;
use std::sync::ledger::Ledger;
use step_counter::Steps;

/// The rows of a table, with its indexes. While they are held, a row that is removed stays in the
/// tree and in the indexes, and is hidden.
#[derive(Drop)]
pub struct Body {
    pub(crate) columns: Columns,
    // The rows that readers see, those to be added, and the hidden ones.
    pub(crate) rows: RowTree,
    pub(crate) hidden: RowTree,
    // The key of each hidden row in each index is marked. Others may be too.
    pub(crate) marks: Marks,
    pub(crate) indexes: Vec<Index>,
    // The rows that were added since `hold`, and behind these those to be added.
    pub(crate) add: Vec<Keyed>,
    pub(crate) added: usize,
    // The rows that were removed since `hold`, and behind these those to be removed.
    pub(crate) remove: Vec<Keyed>,
    pub(crate) removed: usize,
    // The hidden rows to be added.
    pub(crate) revive: Vec<Row>,
    pub(crate) held: bool,
}

impl Body {
    /// No row and no index.
    pub fn new(alloc: Global, columns: Columns) -> Body
        ensures body { IsWhole (parts_of result) }
        ensures columns { result.columns ≡ columns }
        ensures seen { rows_seen (parts_of result) ≡ set.empty }
        ensures next { rows_next (parts_of result) ≡ set.empty }
        ensures held { result.held ≡ false }
        ensures indexes { result.indexes.items ≡ [] }
    {
        Body {
            columns,
            rows: RowTree::new(alloc),
            hidden: RowTree::new(alloc),
            marks: Marks::new(alloc),
            indexes: Vec::new(alloc),
            add: Vec::new(alloc),
            added: 0,
            remove: Vec::new(alloc),
            removed: 0,
            revive: Vec::new(alloc),
            held: false,
        }
    }

    /// Whether readers see the row.
    pub fn has(&self, row: &Row) -> bool
        requires { IsWhole (parts_of self.now) }
        ensures { result ≡ has (rows_seen (parts_of self.now)) row.now }
    {
        self.is_there(row) && self.is_not_gone(row)
    }

    // Whether the row is there, and not only to be added.
    fn is_there(&self, row: &Row) -> bool
        requires { IsWhole (parts_of self.now) }
        ensures { result ≡ has (set.difference self.now.rows (to_come (parts_of self.now))) row.now }
    {
        self.rows.has(row) && !is_listed(&self.add[self.added..], row)
    }

    /// Whether the row is not gone. A hidden row is gone, unless the staged change is to remove it.
    pub fn is_not_gone(&self, row: &Row) -> bool
        requires { IsWhole (parts_of self.now) }
        ensures { result ≡ not (has (set.difference self.now.hidden (to_go (parts_of self.now))) row.now) }
    {
        !self.hidden.has(row) || is_listed(&self.remove[self.removed..], row)
    }

    /// The rows that readers see which agree with the key in the columns of one of the indexes.
    pub fn find(&self, alloc: Global, cols: &Names, key: &Row) -> Result<RowSet, NoMemory>
        requires whole { IsWhole (parts_of self.now) }
        requires index { IsTrue (has_cols (cols_of self.now.indexes.items) cols.now) }
        ensures { IfOk result (λ found.
            found ≡ set.filter (agree cols.now key.now) (rows_seen (parts_of self.now))) }
    {
        let key = Key::of(key.copy(alloc)?, cols.copy(alloc)?);
        let found = find_by(alloc, &self.indexes, cols, &key)?;
        let old = without(alloc, found, &self.add[self.added..])?;
        if !self.marks.has(key.hash()) {
            return Ok(old);
        }
        self.shown_of(alloc, &old)
    }

    /// All rows that readers see.
    pub fn all_rows(&self, alloc: Global) -> Result<RowSet, NoMemory>
        requires { IsWhole (parts_of self.now) }
        ensures { IfOk result (λ all. all ≡ rows_seen (parts_of self.now)) }
    {
        let rows = self.rows.rows(alloc)?;
        let old = without(alloc, rows, &self.add[self.added..])?;
        if self.hidden.count() == 0 {
            return Ok(old);
        }
        let hidden = self.hidden.rows(alloc)?;
        let gone = without(alloc, hidden, &self.remove[self.removed..])?;
        old.minus(alloc, &gone)
    }

    // Those of the rows that are not gone. A hidden row is gone, unless the staged change is to
    // remove it.
    fn shown_of(&self, alloc: Global, rows: &RowSet) -> Result<RowSet, NoMemory>
        requires { IsWhole (parts_of self.now) }
        ensures { IfOk result (λ shown. shown
            ≡ set.difference rows.now (set.difference self.now.hidden (to_go (parts_of self.now)))) }
    {
        let mut some = Vec::new(alloc);
        for row in rows.rows() {
            if self.is_not_gone(row) {
                some.push(row.copy(alloc)?)?;
            }
        }
        Ok(RowSet::from_rising(some))
    }

    /// How many rows readers see, where nothing is staged.
    pub fn count(&self) -> usize
        requires whole { IsWhole (parts_of self.now) }
        requires calm { IsCalm (parts_of self.now) }
        ensures { result ≡ length (set.items (rows_seen (parts_of self.now))) }
    {
        self.rows.count() - self.hidden.count()
    }

    /// Drops all indexes behind the first ones, where nothing is staged. It takes no memory.
    pub fn truncate(&mut self, shown: usize)
        requires whole { IsWhole (parts_of self.old) }
        requires calm { IsCalm (parts_of self.old) }
        requires shown { shown ≤ length self.old.indexes.items }
        requires held { self.old.held ≡ true → shown ≡ length self.old.indexes.items }
        ensures whole { IsWhole (parts_of self.new) }
        ensures parts { parts_of self.new
            ≡ record (parts_of self.old) { indexes = take shown self.old.indexes.items } }
    {
        self.indexes.truncate(shown);
    }

    /// Adds the indexes that the needs ask of the table and that it lacks. Where there are any, the
    /// rows are walked once, a step a row. After `NoMemory` the indexes are as they were.
    pub fn add_indexes<L: Ledger>(
        &mut self,
        alloc: Global,
        table: &Name,
        needs: &[Need],
        walked: &mut Steps<L>,
    ) -> Result<(), NoMemory>
        requires whole { IsWhole (parts_of self.old) }
        requires calm { IsCalm (parts_of self.old) }
        requires free { self.old.held ≡ false }
        ensures whole { IsWhole (parts_of self.new) }
        ensures parts { parts_of self.new
            ≡ record (parts_of self.old) { indexes = self.new.indexes.items } }
        ensures cols { OnOk result (cols_of self.new.indexes.items
            ≡ with_needs table.now needs.now (cols_of self.old.indexes.items)) }
        ensures err { OnErr result (self.new.indexes.items ≡ self.old.indexes.items) }
        ensures front { take (length self.old.indexes.items) self.new.indexes.items
            ≡ self.old.indexes.items }
        ensures walked { OnOk result (walked.new ≡ walked.old + rows_walked table.now needs.now
            (cols_of self.old.indexes.items) (rows_seen (parts_of self.old))) }
        ensures walked_at_most { walked.new ≤ walked.old + rows_walked table.now needs.now
            (cols_of self.old.indexes.items) (rows_seen (parts_of self.old)) }
        ensures walks_on { walked.old ≤ walked.new }
    {
        add_indexes(alloc, table, &self.rows, &mut self.indexes, needs, walked)
    }
}

// The rows without those of the list.
fn without(alloc: Global, rows: RowSet, list: &[Keyed]) -> Result<RowSet, NoMemory>
    ensures { IfOk result (λ rest. rest ≡ set.difference rows (rows_of list.now)) }
{
    if list.is_empty() {
        return Ok(rows);
    }
    rows.minus(alloc, &listed(alloc, list)?)
}

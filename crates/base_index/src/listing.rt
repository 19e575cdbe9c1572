//! Rows of a table that are listed to be removed or added, before they are settled.
ghost use Rattle.std.specs.Prelude.{◌≡◌, ◌≤◌, ◌++◌, OnOk, OnErr, true, false, length, take, drop};
ghost use Rattle.std.specs.Prelude.{if◌then◌else◌};
ghost use Rattle.std.specs.List.Sorted.{IsStrictlySortedBy};
ghost use Rattle.plain_values.specs.Row.{row_cmp};
ghost use Rattle.plain_values.specs.SortedSet as set;
ghost use Rattle.lens_specs.specs.Delta.{Applies, new_view};
ghost use Rattle.lens_specs.specs.Relation.{Fits, has};
ghost use Rattle.key_index.specs.Lists.{rows_of, set_of};
ghost use Rattle.key_index.specs.Marks.{AreMarked, StayMarked};
ghost use Rattle.base_index.specs.Parts.{IsCalm, IsWhole, Keeps, parts_of};
ghost use Rattle.base_index.specs.Parts.{rows_next, rows_seen};

use crate::body::Body;
use key_index::{Keyed, Marks, add_row, all_with_keys, indexes_of, take_behind, with_keys};
use lens_values::{NoMemory, Row};
use row_sets::{RowSet, RowTree};
use signed_delta::Delta;
use std::alloc::Global;

impl Body {
    /// Stages a difference, and takes all the memory that `settle` and `unstage` need. After
    /// `NoMemory` nothing is staged.
    pub fn stage(&mut self, alloc: Global, delta: &Delta) -> Result<(), NoMemory>
        requires whole { IsWhole (parts_of self.old) }
        requires applies { Applies delta.now (rows_seen (parts_of self.old)) }
        requires fits { (row : _) → has delta.now.add row ≡ true → Fits self.old.columns row }
        ensures whole { IsWhole (parts_of self.new) }
        ensures ok { OnOk result (rows_next (parts_of self.new)
            ≡ new_view (rows_seen (parts_of self.old)) delta.now) }
        ensures err { OnErr result (rows_next (parts_of self.new) ≡ rows_seen (parts_of self.old)) }
        ensures kept { Keeps (parts_of self.old) (parts_of self.new) }
    {
        self.unstage();
        let staged = self.list(alloc, delta);
        if staged.is_err() {
            self.unstage();
        }
        staged
    }

    /// Drops what is staged. It takes no memory.
    pub fn unstage(&mut self)
        requires { IsWhole (parts_of self.old) }
        ensures whole { IsWhole (parts_of self.new) }
        ensures calm { IsCalm (parts_of self.new) }
        ensures next { rows_next (parts_of self.new) ≡ rows_seen (parts_of self.old) }
        ensures kept { Keeps (parts_of self.old) (parts_of self.new) }
    {
        take_behind(&mut self.rows, &mut self.indexes, &mut self.add, self.added);
        show_behind(&mut self.hidden, &mut self.remove, self.removed);
        self.revive.clear();
    }

    // Lists the rows of a difference, where nothing is staged. After `NoMemory` some of them may be
    // listed.
    fn list(&mut self, alloc: Global, delta: &Delta) -> Result<(), NoMemory>
        requires whole { IsWhole (parts_of self.old) }
        requires quiet { rows_next (parts_of self.old) ≡ rows_seen (parts_of self.old) }
        requires applies { Applies delta.now (rows_seen (parts_of self.old)) }
        requires fits { (row : _) → has delta.now.add row ≡ true → Fits self.old.columns row }
        ensures whole { IsWhole (parts_of self.new) }
        ensures next { OnOk result (rows_next (parts_of self.new)
            ≡ new_view (rows_seen (parts_of self.old)) delta.now) }
        ensures kept { Keeps (parts_of self.old) (parts_of self.new) }
    {
        self.reserve(delta.remove().rows().len(), delta.add().rows().len())?;
        self.list_rows(alloc, delta)
    }

    // Makes room for so many rows to be removed and to be added.
    fn reserve(&mut self, remove: usize, add: usize) -> Result<(), NoMemory>
        ensures { parts_of self.new ≡ parts_of self.old }
    {
        self.remove.reserve(remove)?;
        self.add.reserve(add)?;
        Ok(())
    }

    // What `list` does, after `reserve` has made room for the rows.
    fn list_rows(&mut self, alloc: Global, delta: &Delta) -> Result<(), NoMemory>
        requires whole { IsWhole (parts_of self.old) }
        requires quiet { rows_next (parts_of self.old) ≡ rows_seen (parts_of self.old) }
        requires applies { Applies delta.now (rows_seen (parts_of self.old)) }
        requires fits { (row : _) → has delta.now.add row ≡ true → Fits self.old.columns row }
        ensures whole { IsWhole (parts_of self.new) }
        ensures next { OnOk result (rows_next (parts_of self.new)
            ≡ new_view (rows_seen (parts_of self.old)) delta.now) }
        ensures kept { Keeps (parts_of self.old) (parts_of self.new) }
    {
        let remove = delta.remove().rows();
        let add = delta.add().rows();
        self.hide_each(alloc, remove)?;
        if self.rows.count() == 0 {
            return self.add_first(alloc, delta.add());
        }
        self.add_each(alloc, add)
    }

    /// Lists rows to be added where there is no row, and makes the tree and the indexes of them.
    /// After `NoMemory` all is as it was.
    fn add_first(&mut self, alloc: Global, rows: &RowSet) -> Result<(), NoMemory>
        requires whole { IsWhole (parts_of self.old) }
        requires empty { length (set.items self.old.rows) ≡ 0 }
        requires fits { (row : _) → has rows.now row ≡ true → Fits self.old.columns row }
        ensures whole { IsWhole (parts_of self.new) }
        ensures next { OnOk result (rows_next (parts_of self.new)
            ≡ set.union (rows_next (parts_of self.old)) rows.now) }
        ensures kept { Keeps (parts_of self.old) (parts_of self.new) }
    {
        let list = all_with_keys(alloc, &self.indexes, rows.rows())?;
        let indexes = indexes_of(alloc, &self.indexes, &list)?;
        let tree = RowTree::of(alloc, rows.copy(alloc)?)?;
        put_behind(&mut self.add, list)?;
        self.rows = tree;
        self.indexes = indexes;
        Ok(())
    }

    /// Lists rows to be removed. After `NoMemory` some of them may be listed.
    fn hide_each(&mut self, alloc: Global, list: &[Row]) -> Result<(), NoMemory>
        requires whole { IsWhole (parts_of self.old) }
        requires seen { (row : _) → has (set_of list.now) row ≡ true
            → has (rows_seen (parts_of self.old)) row ≡ true }
        ensures whole { IsWhole (parts_of self.new) }
        ensures next { OnOk result (rows_next (parts_of self.new)
            ≡ set.difference (rows_next (parts_of self.old)) (set_of list.now)) }
        ensures kept { Keeps (parts_of self.old) (parts_of self.new) }
    {
        for row in list {
            self.hide(alloc, row)?;
        }
        Ok(())
    }

    /// Lists a row to be removed, with its keys. After `NoMemory` all is as it was.
    fn hide(&mut self, alloc: Global, row: &Row) -> Result<(), NoMemory>
        requires whole { IsWhole (parts_of self.old) }
        requires seen { has (rows_seen (parts_of self.old)) row.now ≡ true }
        ensures whole { IsWhole (parts_of self.new) }
        ensures next { OnOk result (rows_next (parts_of self.new)
            ≡ set.remove (rows_next (parts_of self.old)) row.now) }
        ensures kept { Keeps (parts_of self.old) (parts_of self.new) }
    {
        let keyed = with_keys(alloc, &self.indexes, row)?;
        self.remove.reserve(1)?;
        hide_in(alloc, &mut self.hidden, &mut self.marks, self.held, &keyed)?;
        self.remove.push_reserved(keyed);
        Ok(())
    }

    /// Lists rows to be added, each once. After `NoMemory` some of them may be listed.
    fn add_each(&mut self, alloc: Global, list: &[Row]) -> Result<(), NoMemory>
        requires whole { IsWhole (parts_of self.old) }
        requires apart { IsStrictlySortedBy row_cmp list.now }
        requires unseen { (row : _) → has (set_of list.now) row ≡ true
            → has (rows_seen (parts_of self.old)) row ≡ false }
        requires absent { (row : _) → has (set_of list.now) row ≡ true
            → has (rows_next (parts_of self.old)) row ≡ false }
        requires fits { (row : _) → has (set_of list.now) row ≡ true → Fits self.old.columns row }
        ensures whole { IsWhole (parts_of self.new) }
        ensures next { OnOk result (rows_next (parts_of self.new)
            ≡ set.union (rows_next (parts_of self.old)) (set_of list.now)) }
        ensures kept { Keeps (parts_of self.old) (parts_of self.new) }
    {
        for row in list {
            self.add(alloc, row)?;
        }
        Ok(())
    }

    /// Lists a row to be added, and puts it into the tree and the indexes, where it is not hidden
    /// there. After `NoMemory` what readers see is as it was.
    fn add(&mut self, alloc: Global, row: &Row) -> Result<(), NoMemory>
        requires whole { IsWhole (parts_of self.old) }
        requires unseen { has (rows_seen (parts_of self.old)) row.now ≡ false }
        requires absent { has (rows_next (parts_of self.old)) row.now ≡ false }
        requires fits { Fits self.old.columns row.now }
        ensures whole { IsWhole (parts_of self.new) }
        ensures next { OnOk result (rows_next (parts_of self.new)
            ≡ set.insert (rows_next (parts_of self.old)) row.now) }
        ensures kept { Keeps (parts_of self.old) (parts_of self.new) }
    {
        if self.hidden.has(row) {
            self.revive.push(row.copy(alloc)?)?;
            return Ok(());
        }
        add_row(alloc, &mut self.rows, &mut self.indexes, &mut self.add, row)
    }
}

// Puts the rows behind those of a list, which takes the rows' own memory if it is empty.
fn put_behind(list: &mut Vec<Keyed>, mut rows: Vec<Keyed>) -> Result<(), NoMemory>
    ensures items { OnOk result (list.new.items ≡ list.old.items ++ rows.items) }
    ensures stay { OnErr result (list.new.items ≡ list.old.items) }
{
    if list.is_empty() {
        *list = rows;
        return Ok(());
    }
    Ok(list.append(&mut rows)?)
}

// Hides the row and marks its keys, if rows are to be hidden. After `NoMemory` it is not hidden.
fn hide_in(
    alloc: Global,
    hidden: &mut RowTree,
    marks: &mut Marks,
    held: bool,
    keyed: &Keyed,
) -> Result<(), NoMemory>
    ensures ok { OnOk result (
        hidden.new ≡ (if held then set.insert hidden.old keyed.now.row else hidden.old)) }
    ensures err { OnErr result (hidden.new ≡ hidden.old) }
    ensures marks { OnOk result (held ≡ true → AreMarked marks.new keyed.now.keys.items) }
    ensures stay { StayMarked marks.old marks.new }
{
    if !held {
        return Ok(());
    }
    keyed.mark(marks)?;
    hidden.insert(keyed.row.copy(alloc)?)
}

// Shows the rows again that are listed behind the first ones, and takes them off the list. It takes
// no memory.
fn show_behind(hidden: &mut RowTree, remove: &mut Vec<Keyed>, first: usize)
    requires { first ≤ length remove.old.items }
    ensures hidden { hidden.new ≡ set.difference hidden.old (rows_of (drop first remove.old.items)) }
    ensures remove { remove.new.items ≡ take first remove.old.items }
{
    for _ in first..remove.len() {
        if let Some(keyed) = remove.pop() {
            hidden.remove(&keyed.row);
        }
    }
}

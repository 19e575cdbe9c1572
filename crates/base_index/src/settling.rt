//! Settles what is staged in a table, and keeps or takes back what changed since `hold`.
ghost use Rattle.std.specs.Prelude.{◌≡◌, Some, true, false, []};
ghost use Rattle.std.specs.Prelude.{if◌then◌else◌};
ghost use Rattle.plain_values.specs.SortedSet as set;
ghost use Rattle.key_index.specs.Lists.{AreKeyed, HasKeys, IsTableOf, SameCols};
ghost use Rattle.key_index.specs.Lists.{rows_of, set_of};
ghost use Rattle.base_index.specs.Parts.{IsCalm, IsWhole, parts_of};
ghost use Rattle.base_index.specs.Parts.{rows_held, rows_next, rows_seen};

use crate::body::Body;
use key_index::{Index, Keyed, shrink, take_behind, take_row};
use lens_values::Row;
use row_sets::RowTree;
use std::alloc::Global;

impl Body {
    /// Makes what is staged present. It takes no memory.
    pub fn settle(&mut self, alloc: Global)
        requires { IsWhole (parts_of self.old) }
        ensures whole { IsWhole (parts_of self.new) }
        ensures calm { IsCalm (parts_of self.new) }
        ensures seen { rows_seen (parts_of self.new) ≡ rows_next (parts_of self.old) }
        ensures next { rows_next (parts_of self.new) ≡ rows_next (parts_of self.old) }
        ensures held { rows_held (parts_of self.new) ≡ rows_held (parts_of self.old) }
        ensures is_held { self.new.held ≡ self.old.held }
        ensures columns { self.new.columns ≡ self.old.columns }
        ensures cols { SameCols self.old.indexes.items self.new.indexes.items }
    {
        if self.held {
            self.mark();
        } else {
            self.take_out(alloc);
        }
    }

    // Hides what is to be removed, and shows what is to be added. It takes no memory.
    fn mark(&mut self)
        requires whole { IsWhole (parts_of self.old) }
        requires held { self.old.held ≡ true }
        ensures whole { IsWhole (parts_of self.new) }
        ensures calm { IsCalm (parts_of self.new) }
        ensures seen { rows_seen (parts_of self.new) ≡ rows_next (parts_of self.old) }
        ensures next { rows_next (parts_of self.new) ≡ rows_next (parts_of self.old) }
        ensures held { rows_held (parts_of self.new) ≡ rows_held (parts_of self.old) }
        ensures is_held { self.new.held ≡ self.old.held }
        ensures columns { self.new.columns ≡ self.old.columns }
        ensures cols { SameCols self.old.indexes.items self.new.indexes.items }
    {
        show_each(&mut self.hidden, &self.revive);
        self.added = self.add.len();
        self.removed = self.remove.len();
        self.revive.clear();
    }

    // Takes out what is to be removed. It takes no memory.
    fn take_out(&mut self, alloc: Global)
        requires whole { IsWhole (parts_of self.old) }
        requires free { self.old.held ≡ false }
        ensures whole { IsWhole (parts_of self.new) }
        ensures calm { IsCalm (parts_of self.new) }
        ensures seen { rows_seen (parts_of self.new) ≡ rows_next (parts_of self.old) }
        ensures next { rows_next (parts_of self.new) ≡ rows_next (parts_of self.old) }
        ensures held { rows_held (parts_of self.new) ≡ rows_held (parts_of self.old) }
        ensures is_held { self.new.held ≡ self.old.held }
        ensures columns { self.new.columns ≡ self.old.columns }
        ensures cols { SameCols self.old.indexes.items self.new.indexes.items }
    {
        take_behind(
            &mut self.rows,
            &mut self.indexes,
            &mut self.remove,
            self.removed,
        );
        self.add.clear();
        self.revive.clear();
        shrink(alloc, &mut self.add);
        shrink(alloc, &mut self.remove);
    }

    /// Remembers the rows as they are. It takes no memory.
    pub fn hold(&mut self)
        requires whole { IsWhole (parts_of self.old) }
        requires free { self.old.held ≡ false }
        ensures whole { IsWhole (parts_of self.new) }
        ensures calm { IsCalm (parts_of self.new) }
        ensures seen { rows_seen (parts_of self.new) ≡ rows_seen (parts_of self.old) }
        ensures next { rows_next (parts_of self.new) ≡ rows_seen (parts_of self.old) }
        ensures held { rows_held (parts_of self.new) ≡ Some (rows_seen (parts_of self.old)) }
        ensures is_held { self.new.held ≡ true }
        ensures columns { self.new.columns ≡ self.old.columns }
        ensures cols { SameCols self.old.indexes.items self.new.indexes.items }
    {
        self.unstage();
        self.held = true;
    }

    /// Lets the rows stand as they are, and drops what is staged. It takes no memory.
    pub fn keep(&mut self)
        requires { IsWhole (parts_of self.old) }
        ensures whole { IsWhole (parts_of self.new) }
        ensures calm { IsCalm (parts_of self.new) }
        ensures seen { rows_seen (parts_of self.new) ≡ rows_seen (parts_of self.old) }
        ensures next { rows_next (parts_of self.new) ≡ rows_seen (parts_of self.old) }
        ensures is_held { self.new.held ≡ false }
        ensures columns { self.new.columns ≡ self.old.columns }
        ensures cols { SameCols self.old.indexes.items self.new.indexes.items }
    {
        self.unstage();
        take_hidden(
            &mut self.rows,
            &mut self.hidden,
            &mut self.indexes,
            &mut self.remove,
        );
        self.add.clear();
        self.marks.clear();
        self.added = 0;
        self.removed = 0;
        self.held = false;
    }

    /// Makes the rows what they were at `hold`. It takes no memory.
    pub fn back(&mut self, alloc: Global)
        requires { IsWhole (parts_of self.old) }
        ensures whole { IsWhole (parts_of self.new) }
        ensures calm { IsCalm (parts_of self.new) }
        ensures seen { rows_seen (parts_of self.new)
            ≡ set.difference self.old.rows (rows_of self.old.add.items) }
        ensures next { rows_next (parts_of self.new)
            ≡ set.difference self.old.rows (rows_of self.old.add.items) }
        ensures is_held { self.new.held ≡ false }
        ensures columns { self.new.columns ≡ self.old.columns }
        ensures cols { SameCols self.old.indexes.items self.new.indexes.items }
    {
        take_behind(&mut self.rows, &mut self.indexes, &mut self.add, 0);
        self.remove.clear();
        self.revive.clear();
        self.hidden = RowTree::new(alloc);
        self.marks.clear();
        self.added = 0;
        self.removed = 0;
        self.held = false;
    }
}

// Shows the rows again. It takes no memory.
fn show_each(hidden: &mut RowTree, list: &[Row])
    ensures { hidden.new ≡ set.difference hidden.old (set_of list.now) }
{
    for row in list {
        hidden.remove(row);
    }
}

// Takes the listed rows that are hidden out of the table, and empties the list. It takes no memory.
fn take_hidden(
    rows: &mut RowTree,
    hidden: &mut RowTree,
    indexes: &mut Vec<Index>,
    remove: &mut Vec<Keyed>,
)
    requires keys { AreKeyed indexes.old.items remove.old.items }
    ensures rows { rows.new
        ≡ set.difference rows.old (set.intersection hidden.old (rows_of remove.old.items)) }
    ensures hidden { hidden.new ≡ set.difference hidden.old (rows_of remove.old.items) }
    ensures indexes { IsTableOf rows.old indexes.old.items → IsTableOf rows.new indexes.new.items }
    ensures cols { SameCols indexes.old.items indexes.new.items }
    ensures remove { remove.new.items ≡ [] }
{
    for _ in 0..remove.len() {
        if let Some(keyed) = remove.pop() {
            take_if_hidden(rows, hidden, indexes, &keyed);
        }
    }
}

// Takes the row out of the table, if it is hidden.
fn take_if_hidden(rows: &mut RowTree, hidden: &mut RowTree, indexes: &mut Vec<Index>, keyed: &Keyed)
    requires keys { HasKeys indexes.old.items keyed.now }
    ensures rows { rows.new ≡ (if set.contains hidden.old keyed.now.row
        then set.remove rows.old keyed.now.row else rows.old) }
    ensures hidden { hidden.new ≡ set.remove hidden.old keyed.now.row }
    ensures indexes { IsTableOf rows.old indexes.old.items → IsTableOf rows.new indexes.new.items }
    ensures cols { SameCols indexes.old.items indexes.new.items }
{
    if hidden.has(&keyed.row) {
        take_row(rows, indexes, keyed);
        hidden.remove(&keyed.row);
    }
}

//! The rows of one key of an index.
ghost use Rattle.std.specs.Prelude.{◌≡◌, ◌==◌, IfOk, OnOk, OnErr, length};
ghost use Rattle.std.specs.declared.cmp.Ordering.TheVariants.{Less};
ghost use Rattle.plain_values.specs.Row.{row_cmp};
ghost use Rattle.plain_values.specs.SortedSet as set;
ghost use Rattle.lens_values.specs.contracts.row.Row as contract;
ghost use Rattle.key_index.specs.Group.{pair, rows_in, singleton};

use crate::row_list::RowList;
use lens_values::{NoMemory, Row};
use row_sets::{RowSet, RowTree};
use std::alloc::Global;
use std::cmp::Ordering;
use std::marker::Model;
use std::mem;

// So many rows are kept as a list, and more as a tree.
const MOST_LISTED: usize = 32;

/// The rows of one key. Mostly there is one, or two while a change of it is staged, and then no list
/// is made for them.
#[derive(Drop)]
pub struct Group {
    rows: Members,
}

// The rows themselves, where they are at most two, or a list or a tree of them.
#[derive(Drop)]
enum Members {
    Empty,
    One(Row),
    Two(Row, Row),
    Few(RowList),
    Several(RowTree),
}

impl Model for Group {
    ghost Value = { set.SortedSet row_cmp };

    ghost coded = { set.code contract.the_row.coded };

    ghost view = { λ g. rows_in g.rows };
}

impl Group {
    /// The set of no row.
    pub fn empty() -> Group
        ensures { result ≡ set.empty }
    {
        Group {
            rows: Members::Empty,
        }
    }

    /// Whether it has no row.
    pub fn is_empty(&self) -> bool
        ensures { result ≡ (length (set.items self.now) == 0) }
    {
        match &self.rows {
            Members::Empty => true,
            Members::One(_) | Members::Two(_, _) => false,
            Members::Few(list) => list.count() == 0,
            Members::Several(tree) => tree.count() == 0,
        }
    }

    /// Copies of all rows, as a set that is kept in rising order.
    pub fn rows(&self, alloc: Global) -> Result<RowSet, NoMemory>
        ensures { IfOk result (λ all. all ≡ self.now) }
    {
        match &self.rows {
            Members::Empty => Ok(RowSet::empty(alloc)),
            Members::One(one) => set_of_one(alloc, one),
            Members::Two(one, other) => set_of_two(alloc, one, other),
            Members::Few(list) => list.rows(alloc),
            Members::Several(tree) => tree.rows(alloc),
        }
    }

    /// Adds a row. After `NoMemory` the set is as it was.
    pub fn insert(&mut self, alloc: Global, row: Row) -> Result<(), NoMemory>
        ensures ok { OnOk result (self.new ≡ set.insert self.old row) }
        ensures err { OnErr result (self.new ≡ self.old) }
    {
        match &mut self.rows {
            Members::Empty => self.rows = Members::One(row),
            Members::One(one) => self.rows = with_second(alloc, one, row)?,
            Members::Two(one, other) => self.rows = with_third(alloc, one, other, row)?,
            Members::Few(list) if list.count() < MOST_LISTED => list.insert(row)?,
            Members::Few(list) => self.rows = with_more(alloc, list, row)?,
            Members::Several(tree) => tree.insert(row)?,
        }
        Ok(())
    }

    /// Removes the row, if it is there. It takes no memory.
    pub fn remove(&mut self, row: &Row)
        ensures { self.new ≡ set.remove self.old row.now }
    {
        let rows = mem::replace(&mut self.rows, Members::Empty);
        self.rows = rows.without(row);
    }
}

impl Members {
    // These rows without `row`.
    fn without(self, row: &Row) -> Members
        ensures { rows_in result ≡ set.remove (rows_in self) row.now }
    {
        match self {
            Members::Empty => Members::Empty,
            Members::One(one) => one_without(one, row),
            Members::Two(one, other) => two_without(one, other, row),
            Members::Few(list) => {
                let mut list = list;
                list.remove(row);
                Members::Few(list)
            }
            Members::Several(tree) => {
                let mut tree = tree;
                tree.remove(row);
                Members::Several(tree)
            }
        }
    }
}

// What is left of `one` without `row`.
fn one_without(one: Row, row: &Row) -> Members
    ensures { rows_in result ≡ set.remove (singleton one) row.now }
{
    if one == *row {
        Members::Empty
    } else {
        Members::One(one)
    }
}

// What is left of two rows without `row`.
fn two_without(one: Row, other: Row, row: &Row) -> Members
    ensures { rows_in result ≡ set.remove (pair one other) row.now }
{
    if one == *row {
        one_without(other, row)
    } else if other == *row {
        Members::One(one)
    } else {
        Members::Two(one, other)
    }
}

// One row and another, which may be the same.
fn with_second(alloc: Global, one: &Row, row: Row) -> Result<Members, NoMemory>
    ensures { IfOk result (λ rows. rows_in rows ≡ set.insert (singleton one.now) row) }
{
    let one = one.copy(alloc)?;
    if one == row {
        return Ok(Members::One(one));
    }
    Ok(Members::Two(one, row))
}

// Two rows and another, which may be one of them.
fn with_third(alloc: Global, one: &Row, other: &Row, row: Row) -> Result<Members, NoMemory>
    ensures { IfOk result (λ rows. rows_in rows ≡ set.insert (pair one.now other.now) row) }
{
    let mut list = RowList::of(set_of_two(alloc, one, other)?);
    list.insert(row)?;
    Ok(Members::Few(list))
}

// As many rows as a list has room for, and another, as a tree.
fn with_more(alloc: Global, list: &RowList, row: Row) -> Result<Members, NoMemory>
    ensures { IfOk result (λ rows. rows_in rows ≡ set.insert list.now row) }
{
    let mut tree = RowTree::of(alloc, list.rows(alloc)?)?;
    tree.insert(row)?;
    Ok(Members::Several(tree))
}

// The set of a copy of one row.
fn set_of_one(alloc: Global, one: &Row) -> Result<RowSet, NoMemory>
    ensures { IfOk result (λ all. all ≡ singleton one.now) }
{
    let mut rows = Vec::with_capacity(alloc, 1)?;
    rows.push(one.copy(alloc)?)?;
    Ok(RowSet::from_rising(rows))
}

// The set of copies of two rows.
fn set_of_two(alloc: Global, one: &Row, other: &Row) -> Result<RowSet, NoMemory>
    ensures { IfOk result (λ all. all ≡ pair one.now other.now) }
{
    match one.cmp(other) {
        Ordering::Less => rising_set(alloc, one, other),
        Ordering::Equal => set_of_one(alloc, one),
        Ordering::Greater => rising_set(alloc, other, one),
    }
}

// The set of copies of two rows, of which the first is less.
fn rising_set(alloc: Global, first: &Row, second: &Row) -> Result<RowSet, NoMemory>
    requires { row_cmp first.now second.now ≡ Less }
    ensures { IfOk result (λ all. all ≡ pair second.now first.now) }
{
    let mut rows = Vec::with_capacity(alloc, 2)?;
    rows.push(first.copy(alloc)?)?;
    rows.push(second.copy(alloc)?)?;
    Ok(RowSet::from_rising(rows))
}

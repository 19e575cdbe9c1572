//! Rows with their keys, put into the indexes of a table and taken out again.
ghost use Rattle.std.specs.Prelude.{◌≡◌, ◌≤◌, false, IfOk, OnOk, OnErr, length, take, drop};
ghost use Rattle.plain_values.specs.SortedSet as set;
ghost use Rattle.key_index.specs.Lists.{AreKeyed, HasKeys, IsListed, IsMixed, IsTableOf, SameCols};
ghost use Rattle.key_index.specs.Lists.{rows_of, set_of};
ghost use Rattle.key_index.specs.Marks.{AreMarked, StayMarked};

use crate::index::Index;
use crate::key::Key;
use crate::marks::Marks;
use lens_values::{NoMemory, Row};
use row_sets::{RowSet, RowTree};
use std::alloc::Global;

// For how many rows an empty list may keep room.
const MOST_ROOM: usize = 1_024;

/// A row and its key in each index.
#[derive(Drop)]
pub struct Keyed {
    /// The row.
    pub row: Row,
    keys: Vec<Key>,
}

impl Keyed {
    /// Marks the row's keys. After `NoMemory` some of them are marked.
    pub fn mark(&self, marks: &mut Marks) -> Result<(), NoMemory>
        ensures ok { OnOk result (AreMarked marks.new self.now.keys.items) }
        ensures stay { StayMarked marks.old marks.new }
    {
        for key in &self.keys {
            marks.add(key.hash())?;
        }
        Ok(())
    }
}

/// A row with its keys.
pub fn with_keys(alloc: Global, indexes: &[Index], row: &Row) -> Result<Keyed, NoMemory>
    ensures row { IfOk result (λ keyed. keyed.row ≡ row.now) }
    ensures keys { IfOk result (λ keyed. HasKeys indexes.now keyed) }
{
    let mut keys = Vec::with_capacity(alloc, indexes.len())?;
    for index in indexes {
        keys.push(index.key(alloc, row)?)?;
    }
    Ok(Keyed {
        row: row.copy(alloc)?,
        keys,
    })
}

/// Rows with their keys, each of them listed.
pub fn all_with_keys(alloc: Global, indexes: &[Index], rows: &[Row]) -> Result<Vec<Keyed>, NoMemory>
    ensures rows { IfOk result (λ list. rows_of list.items ≡ set_of rows.now) }
    ensures keys { IfOk result (λ list. AreKeyed indexes.now list.items) }
{
    let mut list = Vec::with_capacity(alloc, rows.len())?;
    for row in rows {
        list.push(with_keys(alloc, indexes, row)?)?;
    }
    Ok(list)
}

/// Puts a row into each index. A fault leaves it in some of them.
pub fn put_each(alloc: Global, indexes: &mut Vec<Index>, keyed: &Keyed) -> Result<(), NoMemory>
    requires keys { HasKeys indexes.old.items keyed.now }
    ensures ok { OnOk result ((rows : _) → IsTableOf rows indexes.old.items
        → IsTableOf (set.insert rows keyed.now.row) indexes.new.items) }
    ensures err { OnErr result ((rows : _) → IsTableOf rows indexes.old.items
        → IsMixed rows keyed.now.row indexes.new.items) }
    ensures cols { SameCols indexes.old.items indexes.new.items }
{
    for i in 0..indexes.len() {
        let copy = keyed.row.copy(alloc)?;
        indexes[i].put(alloc, &keyed.keys[i], copy)?;
    }
    Ok(())
}

// Takes a row out of each index. It takes no memory.
fn take_each(indexes: &mut Vec<Index>, keyed: &Keyed)
    requires keys { HasKeys indexes.old.items keyed.now }
    ensures taken { (rows : _) → IsMixed rows keyed.now.row indexes.old.items
        → IsTableOf (set.remove rows keyed.now.row) indexes.new.items }
    ensures cols { SameCols indexes.old.items indexes.new.items }
{
    for i in 0..indexes.len() {
        indexes[i].take(&keyed.keys[i], &keyed.row);
    }
}

// Puts a row into the tree and into each index. A fault leaves it in some of them.
fn put_row(
    alloc: Global,
    rows: &mut RowTree,
    indexes: &mut Vec<Index>,
    keyed: &Keyed,
) -> Result<(), NoMemory>
    requires keys { HasKeys indexes.old.items keyed.now }
    ensures rows { OnOk result (rows.new ≡ set.insert rows.old keyed.now.row) }
    ensures indexes { OnOk result ((all : _) → IsTableOf all indexes.old.items
        → IsTableOf (set.insert all keyed.now.row) indexes.new.items) }
    ensures rows_stay { OnErr result (rows.new ≡ rows.old) }
    ensures mixed { OnErr result ((all : _) → IsTableOf all indexes.old.items
        → IsMixed all keyed.now.row indexes.new.items) }
    ensures cols { SameCols indexes.old.items indexes.new.items }
{
    let copy = keyed.row.copy(alloc)?;
    put_each(alloc, indexes, keyed)?;
    rows.insert(copy)
}

/// Takes a row out of the tree and out of each index. It takes no memory.
pub fn take_row(rows: &mut RowTree, indexes: &mut Vec<Index>, keyed: &Keyed)
    requires keys { HasKeys indexes.old.items keyed.now }
    ensures rows { rows.new ≡ set.remove rows.old keyed.now.row }
    ensures indexes { (all : _) → IsMixed all keyed.now.row indexes.old.items
        → IsTableOf (set.remove all keyed.now.row) indexes.new.items }
    ensures cols { SameCols indexes.old.items indexes.new.items }
{
    take_each(indexes, keyed);
    rows.remove(&keyed.row);
}

/// Takes the rows that are listed behind the first ones out of the table and off the list. It takes
/// no memory.
pub fn take_behind(
    rows: &mut RowTree,
    indexes: &mut Vec<Index>,
    gone: &mut Vec<Keyed>,
    first: usize,
)
    requires keys { AreKeyed indexes.old.items gone.old.items }
    requires first { first ≤ length gone.old.items }
    ensures rows { rows.new ≡ set.difference rows.old (rows_of (drop first gone.old.items)) }
    ensures indexes { IsTableOf rows.old indexes.old.items → IsTableOf rows.new indexes.new.items }
    ensures cols { SameCols indexes.old.items indexes.new.items }
    ensures gone { gone.new.items ≡ take first gone.old.items }
{
    for _ in first..gone.len() {
        if let Some(keyed) = gone.pop() {
            take_row(rows, indexes, &keyed);
        }
    }
}

/// Puts a row that is not there into the table, and lists it. After `NoMemory` it is not there.
pub fn add_row(
    alloc: Global,
    rows: &mut RowTree,
    indexes: &mut Vec<Index>,
    added: &mut Vec<Keyed>,
    row: &Row,
) -> Result<(), NoMemory>
    requires table { IsTableOf rows.old indexes.old.items }
    requires absent { set.contains rows.old row.now ≡ false }
    ensures ok { OnOk result (rows.new ≡ set.insert rows.old row.now) }
    ensures listed { OnOk result (IsListed indexes.new.items row.now added.old.items added.new.items) }
    ensures err { OnErr result (rows.new ≡ rows.old) }
    ensures unlisted { OnErr result (added.new.items ≡ added.old.items) }
    ensures table { IsTableOf rows.new indexes.new.items }
    ensures cols { SameCols indexes.old.items indexes.new.items }
{
    let keyed = with_keys(alloc, indexes, row)?;
    added.reserve(1)?;
    let put = put_row(alloc, rows, indexes, &keyed);
    if put.is_err() {
        take_row(rows, indexes, &keyed);
        return put;
    }
    added.push_reserved(keyed);
    Ok(())
}

/// Lets the room of an empty list go, where it is for many rows. It takes no memory.
pub fn shrink(alloc: Global, list: &mut Vec<Keyed>)
    ensures { list.new.items ≡ list.old.items }
{
    if list.is_empty() && list.capacity() > MOST_ROOM {
        *list = Vec::new(alloc);
    }
}

/// Whether the row is listed.
pub fn is_listed(list: &[Keyed], row: &Row) -> bool
    ensures { result ≡ set.contains (rows_of list.now) row.now }
{
    for keyed in list {
        if *row == keyed.row {
            return true;
        }
    }
    false
}

/// The listed rows as a set.
pub fn listed(alloc: Global, list: &[Keyed]) -> Result<RowSet, NoMemory>
    ensures { IfOk result (λ rows. rows ≡ rows_of list.now) }
{
    let mut rows = Vec::with_capacity(alloc, list.len())?;
    for keyed in list {
        rows.push(keyed.row.copy(alloc)?)?;
    }
    RowSet::new(alloc, rows)
}

//! An index: the rows of a table by their values in some columns.
ghost use Rattle.std.specs.Prelude.{◌≡◌, IfOk, OnOk, OnErr, IsTrue};
ghost use Rattle.plain_values.specs.SortedSet as set;
ghost use Rattle.key_index.specs.Index.{IsPut, IsTaken, group_at, has_key};
ghost use Rattle.key_index.specs.Key.{key_of};
ghost use Rattle.key_index.specs.Lists.{IsTableOf, cols_of};
ghost use Rattle.key_index.specs.Cols.{has_cols, same_names};

use crate::group::Group;
use crate::key::Key;
use lens_values::{Names, NoMemory, Row};
use row_sets::RowSet;
use std::alloc::Global;
use std::collections::BTreeMap;

/// The rows of each key. A key with no row is not there.
#[derive(Drop)]
pub struct Index {
    /// The columns.
    pub cols: Names,
    groups: BTreeMap<Key, Group>,
}

impl Index {
    /// The index of no row.
    pub fn new(alloc: Global, cols: Names) -> Index
        ensures cols { result.cols ≡ cols }
        ensures groups { (key : _) → group_at result key ≡ set.empty }
    {
        Index {
            cols,
            groups: BTreeMap::new(alloc),
        }
    }

    /// Whether it is by these columns.
    pub fn is_by(&self, cols: &Names) -> bool
        ensures { result ≡ same_names self.now.cols cols.now }
    {
        self.cols.as_slice() == cols.as_slice()
    }

    /// The key of a row.
    pub fn key(&self, alloc: Global, row: &Row) -> Result<Key, NoMemory>
        ensures { IfOk result (λ key. key ≡ key_of self.now.cols row.now) }
    {
        Ok(Key::of(row.copy(alloc)?, self.cols.copy(alloc)?))
    }

    /// The rows of a key.
    pub fn find(&self, alloc: Global, key: &Key) -> Result<RowSet, NoMemory>
        ensures { IfOk result (λ found. found ≡ group_at self.now key.now) }
    {
        match self.groups.get(key) {
            Some(group) => group.rows(alloc),
            None => Ok(RowSet::empty(alloc)),
        }
    }

    /// Adds a row under a key.
    pub fn put(&mut self, alloc: Global, key: &Key, row: Row) -> Result<(), NoMemory>
        ensures ok { OnOk result (IsPut key.now row self.old self.new) }
        ensures err { OnErr result ((q : _) → group_at self.new q ≡ group_at self.old q) }
        ensures cols { self.new.cols ≡ self.old.cols }
    {
        let group = self
            .groups
            .entry(key.copy(alloc)?)?
            .or_insert(Group::empty());
        group.insert(alloc, row)
    }

    /// Takes a row out from under a key. It takes no memory.
    pub fn take(&mut self, key: &Key, row: &Row)
        ensures taken { IsTaken key.now row.now self.old self.new }
        ensures cols { self.new.cols ≡ self.old.cols }
    {
        if let Some(group) = self.groups.get_mut(key) {
            group.remove(row);
            if group.is_empty() {
                let _empty = self.groups.remove(key);
            }
        }
    }
}

/// Whether one of the indexes is by these columns.
pub fn has_index(indexes: &[Index], cols: &Names) -> bool
    ensures { result ≡ has_cols (cols_of indexes.now) cols.now }
{
    for index in indexes {
        if index.is_by(cols) {
            return true;
        }
    }
    false
}

/// The rows with this key in the first index that is by these columns.
pub fn find_by(
    alloc: Global,
    indexes: &[Index],
    cols: &Names,
    key: &Key,
) -> Result<RowSet, NoMemory>
    requires { IsTrue (has_cols (cols_of indexes.now) cols.now) }
    ensures { IfOk result (λ found. (rows : _) → IsTableOf rows indexes.now
        → found ≡ set.filter (has_key cols.now key.now) rows) }
{
    for index in indexes {
        if index.is_by(cols) {
            return index.find(alloc, key);
        }
    }
    unreachable!()
}

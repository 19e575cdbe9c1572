//! Columns: a finite map from names to kinds.
ghost use Rattle.std.specs.Prelude.{◌≡◌, ◌≢◌, ◌↔◌, IsTrue, IfOk, OnOk, find, position, option_map, None};
ghost use Rattle.std.specs.FinMap as map;
ghost use Rattle.std.specs.List.{list_all};
ghost use Rattle.std.specs.List.Sorted.{IsStrictlySortedBy};
ghost use Rattle.std.specs.Ordering.{eq_by_cmp};
ghost use Rattle.plain_values.specs.Columns.{ColumnsWithin, is_kind, is_other_kind, kinds_differ, names};
ghost use Rattle.lens_values.specs.Unions.{union_of};
ghost use Rattle.no_memory.specs.Gives.{Gives};
ghost use Rattle.plain_values.specs.Order.{bytes_cmp};
ghost use Rattle.plain_values.specs.Part.{override, restrict, exclude};
ghost use Rattle.lens_values.specs.Repeats.{AreDistinct, IsLeastRepeated};
ghost use Rattle.plain_values.specs.SortedMap.{keys_of};
ghost use Rattle.lens_values.specs.declared.columns.ColumnsFault.TheVariants.{NoMemory};

use crate::merging::{difference, intersection, union};
use crate::names::Names;
use crate::sorting::{first_repeated, sorted_by_name};
use no_memory::NoMemory;
use plain_values::{Kind, Name};
use std::alloc::{AllocError, Global};
use std::marker::Model;
use std::rc::Rc;

/// The kind of each column, kept as pairs in rising order of names. Copies share them.
#[derive(Drop)]
pub struct Columns {
    listed: Rc<Listed>,
}

// The pairs, and their names as a set, which rows of these columns share.
#[derive(Drop)]
struct Listed {
    names: Names,
    pairs: Vec<(Name, Kind)>,
}

impl Model for Columns {
    ghost use Rattle.std.specs.Prelude.{◌≡◌};
    ghost use Rattle.std.specs.Coded.{coded_list, coded_ℕ};
    ghost use Rattle.std.specs.FinMap as map;
    ghost use Rattle.std.specs.List.Sorted.{IsStrictlySortedBy};
    ghost use Rattle.plain_values.specs.Order.{bytes_cmp};
    ghost use Rattle.plain_values.specs.SortedMap.{keys_of};
    ghost use Rattle.plain_values.specs.SortedSet as set;
    ghost use Rattle.plain_values.specs.contracts.value.Kind as contract;
    ghost use Rattle.plain_values.specs.declared.value.Kind as declared;

    ghost Value = { map.FinMap bytes_cmp declared.Kind };

    ghost coded = { map.code (coded_list coded_ℕ) contract.the_row.coded };

    ghost view = { λ c. map.from_entries c.listed.value.pairs.items };

    ghost invariant = { λ c. IsStrictlySortedBy bytes_cmp (keys_of c.listed.value.pairs.items)
        × (c.listed.value.names ≡ set.from_list (keys_of c.listed.value.pairs.items)) };
}

/// Why pairs are not columns, or why there is no union.
#[derive(Debug, PartialEq, Eq, Drop)]
pub enum ColumnsFault {
    /// Two pairs have the name.
    Twice { name: Name },
    /// The name has two kinds.
    KindClash { name: Name },
    /// Out of memory.
    NoMemory,
}

impl From<AllocError> for ColumnsFault {
    ghost from_gives = { λ _ e. e ≡ NoMemory };

    fn from(_: AllocError) -> ColumnsFault {
        ColumnsFault::NoMemory
    }
}

impl From<NoMemory> for ColumnsFault {
    ghost from_gives = { λ _ e. e ≡ NoMemory };

    fn from(_: NoMemory) -> ColumnsFault {
        ColumnsFault::NoMemory
    }
}

impl Columns {
    /// The columns of these pairs. `Twice` with the least name that two of them have.
    pub fn new(alloc: Global, pairs: Vec<(Name, Kind)>) -> Result<Columns, ColumnsFault>
        ensures ok { IfOk result (λ columns. columns ≡ map.from_entries pairs.items) }
        ensures distinct { OnOk result (AreDistinct (keys_of pairs.items)) }
        ensures twice { (name : _) → result ≡ Err (ColumnsFault.Twice name)
            → IsLeastRepeated name (keys_of pairs.items) }
        ensures no_clash { (name : _) → result ≢ Err (ColumnsFault.KindClash name) }
    {
        let pairs = sorted_by_name(pairs)?;
        match first_repeated(&pairs) {
            Some(name) => Err(ColumnsFault::Twice { name }),
            None => Ok(Columns::of_rising(alloc, pairs)?),
        }
    }

    /// The pairs in rising order of names.
    pub fn pairs(&self) -> &[(Name, Kind)]
        ensures { result.now ≡ map.entries self.now }
    {
        self.listed.pairs.as_slice()
    }

    /// The place of the column among the pairs, from 0, or `None` where it is not there.
    pub fn place_of(&self, name: &Name) -> Option<usize>
        ensures { result ≡ position (eq_by_cmp bytes_cmp name.now) (map.keys self.now) }
    {
        place_in(self.pairs(), name)
    }

    /// The kind of the column, or `None` where it is not there.
    pub fn kind(&self, name: &Name) -> Option<Kind>
        ensures { result ≡ map.get self.now name.now }
    {
        kind_in(self.pairs(), name)
    }

    /// The names of the columns, borrowed from them.
    pub fn name_set(&self) -> &Names
        ensures { result.now ≡ names self.now }
    {
        &self.listed.names
    }

    /// The names of the columns, as a set of its own.
    pub fn names(&self, alloc: Global) -> Result<Names, NoMemory>
        ensures { IfOk result (λ all. all ≡ names self.now) }
    {
        self.name_set().copy(alloc)
    }

    /// Whether each of these columns is among the others, with the same kind.
    pub fn within(&self, other: &Columns) -> bool
        ensures { IsTrue result ↔ ColumnsWithin self.now other.now }
    {
        all_in(self.pairs(), other)
    }

    /// The columns of both. `KindClash` with the least shared name that has another kind in each.
    pub fn union(&self, alloc: Global, other: &Columns) -> Result<Columns, ColumnsFault>
        ensures gives { Gives ColumnsFault.NoMemory result (union_of self.now other.now) }
        ensures alike { OnOk result (kinds_differ self.now other.now ≡ None) }
    {
        match first_clash(self.pairs(), other) {
            Some(name) => Err(ColumnsFault::KindClash { name }),
            None => Ok(self.put_over(alloc, other)?),
        }
    }

    /// The columns that are not among the names.
    pub fn minus(&self, alloc: Global, cols: &Names) -> Result<Columns, NoMemory>
        ensures { IfOk result (λ rest. rest ≡ exclude cols.now self.now) }
    {
        Columns::of_rising(alloc, difference(alloc, self.pairs(), cols.as_slice())?)
    }

    /// The columns that are among the names.
    pub fn meet(&self, alloc: Global, cols: &Names) -> Result<Columns, NoMemory>
        ensures { IfOk result (λ part. part ≡ restrict cols.now self.now) }
    {
        Columns::of_rising(alloc, intersection(alloc, self.pairs(), cols.as_slice())?)
    }

    /// Equal columns.
    pub fn copy(&self, _alloc: Global) -> Result<Columns, NoMemory>
        ensures { IfOk result (λ copy. copy ≡ self.now) }
    {
        Ok(Columns {
            listed: self.listed.clone()?,
        })
    }

    // The columns of these pairs, whose names rise strictly.
    fn of_rising(alloc: Global, pairs: Vec<(Name, Kind)>) -> Result<Columns, NoMemory>
        requires { IsStrictlySortedBy bytes_cmp (keys_of pairs.items) }
        ensures { IfOk result (λ columns. columns ≡ map.from_entries pairs.items) }
    {
        let names = Names::from_rising(alloc, names_in(alloc, pairs.as_slice())?)?;
        let listed = Listed { names, pairs };
        Ok(Columns {
            listed: Rc::new(alloc, listed)?,
        })
    }

    // Whether this column is there with this kind.
    fn has(&self, column: &(Name, Kind)) -> bool
        ensures { result ≡ is_kind (map.get self.now column.now.0) column.now.1 }
    {
        match self.kind(&column.0) {
            Some(kind) => kind.same(column.1),
            None => false,
        }
    }

    // Whether this column is there with another kind.
    fn clashes(&self, column: &(Name, Kind)) -> bool
        ensures { result ≡ is_other_kind (map.get self.now column.now.0) column.now.1 }
    {
        match self.kind(&column.0) {
            Some(kind) => !column.1.same(kind),
            None => false,
        }
    }

    // The columns of both, with this one's kind where both have one.
    fn put_over(&self, alloc: Global, other: &Columns) -> Result<Columns, NoMemory>
        ensures { IfOk result (λ both. both ≡ override self.now other.now) }
    {
        Columns::of_rising(alloc, union(alloc, self.pairs(), other.pairs())?)
    }
}

// The names of the pairs, in their order.
fn names_in(alloc: Global, pairs: &[(Name, Kind)]) -> Result<Vec<Name>, NoMemory>
    ensures { IfOk result (λ list. list.items ≡ keys_of pairs.now) }
{
    let mut list = Vec::with_capacity(alloc, pairs.len())?;
    for pair in pairs {
        list.push(pair.0)?;
    }
    Ok(list)
}

// Whether each of the pairs is among the columns.
fn all_in(pairs: &[(Name, Kind)], columns: &Columns) -> bool
    ensures { result ≡ list_all (λ e. is_kind (map.get columns.now e.0) e.1) pairs.now }
{
    pairs.iter().all(|pair| columns.has(pair))
}

// The place of the pair with this name.
fn place_in(pairs: &[(Name, Kind)], name: &Name) -> Option<usize>
    requires { IsStrictlySortedBy bytes_cmp (keys_of pairs.now) }
    ensures { result ≡ position (eq_by_cmp bytes_cmp name.now) (keys_of pairs.now) }
{
    pairs.binary_search_by_key(name, |pair| pair.0).ok()
}

// The kind that the pair with this name has.
fn kind_in(pairs: &[(Name, Kind)], name: &Name) -> Option<Kind>
    requires { IsStrictlySortedBy bytes_cmp (keys_of pairs.now) }
    ensures { result ≡ map.find bytes_cmp name.now pairs.now }
{
    match pairs.binary_search_by_key(name, |pair| pair.0) {
        Ok(place) => Some(pairs[place].1),
        Err(_) => None,
    }
}

// The first name that has another kind in the columns.
fn first_clash(pairs: &[(Name, Kind)], columns: &Columns) -> Option<Name>
    ensures { result ≡ option_map (λ e. e.0)
        (find (λ e. is_other_kind (map.get columns.now e.0) e.1) pairs.now) }
{
    for pair in pairs {
        if columns.clashes(pair) {
            return Some(pair.0);
        }
    }
    None
}

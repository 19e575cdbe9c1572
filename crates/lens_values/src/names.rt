//! A finite set of names.
ghost use Rattle.std.specs.Prelude.{◌≡◌, ◌<◌, ◌≤◌, ◌-◌, IfErr, IfOk, IsTrue, length, position};
ghost use Rattle.std.specs.List.{HoldsAt, list_all};
ghost use Rattle.std.specs.List.Sorted.{IsStrictlySortedBy};
ghost use Rattle.std.specs.Ordering.{eq_by_cmp};
ghost use Rattle.std.specs.declared.cmp.Ordering.TheVariants.{Equal, Greater, Less};
ghost use Rattle.plain_values.specs.Keys.{is_among};
ghost use Rattle.plain_values.specs.Names.{one, same_names, share};
ghost use Rattle.plain_values.specs.Order.{bytes_cmp};
ghost use Rattle.plain_values.specs.SortedSet as set;

use crate::merging::{difference, intersection, union};
use crate::sorting::into_sorted;
use no_memory::NoMemory;
use plain_values::Name;
use std::alloc::Global;
use std::cmp::Ordering;
use std::marker::Model;
use std::rc::Rc;

// Up to so many names are compared one after another, which takes less time than a binary search.
const MOST_IN_TURN: usize = 8;

/// A finite set of names, kept as their rising list. Copies share it.
#[derive(Debug, Drop)]
pub struct Names {
    names: Rc<Vec<Name>>,
}

impl Model for Names {
    ghost use Rattle.std.specs.Coded.{coded_list, coded_ℕ};
    ghost use Rattle.std.specs.List.Sorted.{IsStrictlySortedBy};
    ghost use Rattle.plain_values.specs.Order.{bytes_cmp};
    ghost use Rattle.plain_values.specs.SortedSet as set;

    ghost Value = { set.SortedSet bytes_cmp };

    ghost coded = { set.code (coded_list coded_ℕ) };

    ghost view = { λ s. set.from_list s.names.value.items };

    ghost invariant = { λ s. IsStrictlySortedBy bytes_cmp s.names.value.items };
}

impl Names {
    /// The set of these names, which may be in any order and repeat.
    pub fn new(alloc: Global, list: Vec<Name>) -> Result<Names, NoMemory>
        ensures { IfOk result (λ names. names ≡ set.from_list list.items) }
    {
        Ok(Names {
            names: Rc::new(alloc, into_sorted(list))?,
        })
    }

    /// The set of these names, which rise strictly.
    pub fn from_rising(alloc: Global, list: Vec<Name>) -> Result<Names, NoMemory>
        requires { IsStrictlySortedBy bytes_cmp list.items }
        ensures { IfOk result (λ names. names ≡ set.from_list list.items) }
    {
        Ok(Names {
            names: Rc::new(alloc, list)?,
        })
    }

    /// The set of one name.
    pub fn single(alloc: Global, name: &Name) -> Result<Names, NoMemory>
        ensures { IfOk result (λ single. single ≡ one name.now) }
    {
        let mut list = Vec::with_capacity(alloc, 1)?;
        list.push(*name)?;
        Names::new(alloc, list)
    }

    /// The names in rising order.
    pub fn as_slice(&self) -> &[Name]
        ensures { result.now ≡ set.items self.now }
    {
        self.names.as_slice()
    }

    /// How many names there are.
    pub fn len(&self) -> usize
        ensures { result ≡ length (set.items self.now) }
    {
        self.as_slice().len()
    }

    /// Whether the name is in the set.
    pub fn has(&self, name: &Name) -> bool
        ensures { result ≡ set.contains self.now name.now }
    {
        let own = self.as_slice();
        if own.len() <= MOST_IN_TURN {
            return is_one_of(own, name);
        }
        own.binary_search(name).is_ok()
    }

    /// The place of the name among the names, from 0, or `None` where it is not there.
    pub fn place_of(&self, name: &Name) -> Option<usize>
        ensures { result ≡ position (eq_by_cmp bytes_cmp name.now) (set.items self.now) }
    {
        place_in(self.as_slice(), name)
    }

    // What `place_of` returns. The name may stand at the place `near` or behind it, so that a walk
    // that takes rising names one after another finds each with few steps.
    #[inline]
    pub(crate) fn place_near(&self, name: &Name, near: usize) -> Option<usize>
        ensures { result ≡ position (eq_by_cmp bytes_cmp name.now) (set.items self.now) }
    {
        let own = self.as_slice();
        match place_from(own, name, near) {
            Ok(place) => Some(place),
            Err(place) if is_above_before(own, name, place) => None,
            Err(_) => self.place_of(name),
        }
    }

    /// Whether both sets have the same names.
    pub fn same(&self, other: &Names) -> bool
        ensures { result ≡ same_names self.now other.now }
    {
        self.as_slice() == other.as_slice()
    }

    /// Whether each name of this set is in the other.
    pub fn within(&self, other: &Names) -> bool
        ensures { result ≡ set.is_subset self.now other.now }
    {
        are_among(self.as_slice(), other.as_slice())
    }

    /// Whether a name is in both sets.
    pub fn meets(&self, other: &Names) -> bool
        ensures { result ≡ share self.now other.now }
    {
        self.as_slice().iter().any(|name| other.has(name))
    }

    /// The names of either set.
    pub fn union(&self, alloc: Global, other: &Names) -> Result<Names, NoMemory>
        ensures { IfOk result (λ union. union ≡ set.union self.now other.now) }
    {
        Names::from_rising(alloc, union(alloc, self.as_slice(), other.as_slice())?)
    }

    /// The names of this set that are not in the other.
    pub fn minus(&self, alloc: Global, other: &Names) -> Result<Names, NoMemory>
        ensures { IfOk result (λ rest. rest ≡ set.difference self.now other.now) }
    {
        Names::from_rising(alloc, difference(alloc, self.as_slice(), other.as_slice())?)
    }

    /// The names of both sets.
    pub fn meet(&self, alloc: Global, other: &Names) -> Result<Names, NoMemory>
        ensures { IfOk result (λ shared. shared ≡ set.intersection self.now other.now) }
    {
        Names::from_rising(
            alloc,
            intersection(alloc, self.as_slice(), other.as_slice())?,
        )
    }

    /// An equal set.
    pub fn copy(&self, _alloc: Global) -> Result<Names, NoMemory>
        ensures { IfOk result (λ copy. copy ≡ self.now) }
    {
        Ok(Names {
            names: self.names.clone()?,
        })
    }
}

// Whether the name is in the list.
fn is_one_of(list: &[Name], name: &Name) -> bool
    ensures { result ≡ is_among bytes_cmp list.now name.now }
{
    list.iter().any(|own| name.cmp(own).is_eq())
}

// The place of the name in the list.
fn place_in(list: &[Name], name: &Name) -> Option<usize>
    requires { IsStrictlySortedBy bytes_cmp list.now }
    ensures { result ≡ position (eq_by_cmp bytes_cmp name.now) list.now }
{
    if list.len() <= MOST_IN_TURN {
        return list.iter().position(|own| name.cmp(own).is_eq());
    }
    list.binary_search(name).ok()
}

// The place of the name from `near` on, or the first place there that has no lesser name.
#[inline]
fn place_from(list: &[Name], name: &Name, near: usize) -> Result<usize, usize>
    ensures found { IfOk result (λ place.
        (place < length list.now) × HoldsAt (λ own. bytes_cmp own name.now ≡ Equal) list.now place) }
    ensures above { IfErr result (λ place.
        place < length list.now → HoldsAt (λ own. bytes_cmp own name.now ≡ Greater) list.now place) }
{
    for place in near..list.len() {
        match list[place].cmp(name) {
            Ordering::Less => (),
            Ordering::Equal => return Ok(place),
            Ordering::Greater => return Err(place),
        }
    }
    Err(list.len().max(near))
}

// Whether the name is above the one before the place, if there is one.
fn is_above_before(list: &[Name], name: &Name, place: usize) -> bool
    ensures { IsTrue result → 0 < place
        → (place ≤ length list.now) × HoldsAt (λ own. bytes_cmp own name.now ≡ Less) list.now (place - 1) }
{
    if place == 0 {
        return true;
    }
    match list.get(place - 1) {
        Some(before) => before.cmp(name).is_lt(),
        None => false,
    }
}

// Whether each of the names is among the others. Both rise, so one walk along the others meets them.
fn are_among(names: &[Name], others: &[Name]) -> bool
    requires names { IsStrictlySortedBy bytes_cmp names.now }
    requires others { IsStrictlySortedBy bytes_cmp others.now }
    ensures { result ≡ list_all (is_among bytes_cmp others.now) names.now }
{
    let mut met = 0;
    for other in others {
        if met == names.len() {
            return true;
        }
        if names[met] == *other {
            met += 1;
        }
    }
    met == names.len()
}

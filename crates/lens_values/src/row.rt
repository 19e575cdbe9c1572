//! A row: a finite map from names to values.
ghost use Rattle.std.specs.Prelude.{◌≡◌, ◌↔◌, [], ◌∷◌, IsTrue, IfOk, OnOk, option_copied, refl};
ghost use Rattle.std.specs.Cmp.{eq_by_cmp_equiv, partial_equiv_from_equiv, partial_order_from_agreeing_total};
ghost use Rattle.std.specs.FinMap as map;
ghost use Rattle.std.specs.List.Sorted.{IsStrictlySortedBy};
ghost use Rattle.std.specs.List.{filter_map};
ghost use Rattle.std.specs.Ordering.{as_partial_cmp, eq_by_cmp};
ghost use Rattle.plain_values.specs.Columns.{Fits};
ghost use Rattle.plain_values.specs.Order.{bytes_cmp};
ghost use Rattle.lens_values.specs.Paired.{AreAsMany, paired};
ghost use Rattle.plain_values.specs.Part.{override, restrict};
ghost use Rattle.lens_values.specs.Repeats.{AreDistinct, IsLeastRepeated};
ghost use Rattle.plain_values.specs.Row.{agree, row_cmp};
ghost use Rattle.plain_values.specs.RowOrder.{row_cmp_total};
ghost use Rattle.plain_values.specs.SortedMap.{keys_of, values_of};
ghost use Rattle.plain_values.specs.SortedSet as set;
ghost use Rattle.plain_values.specs.Value.{same_value};
ghost use Rattle.lens_values.specs.declared.row.RowFault.TheVariants.{NoMemory};

use crate::columns::Columns;
use crate::merging::{Keyed, add_copy};
use crate::names::Names;
use crate::pairs::{all_fit, pairs_cmp};
use crate::sorting::{first_repeated, sorted_by_name};
use no_memory::NoMemory;
use plain_values::{Name, TryClone, Value};
use std::alloc::{AllocError, Global};
use std::cmp::Ordering;
use std::marker::Model;
use std::rc::Rc;

/// A finite map from names to values, kept as the values in rising order of names. Copies share
/// them, and rows that are made with the same set of names share that.
#[derive(Debug, Drop)]
pub struct Row {
    cells: Rc<Cells>,
}

// Names, and a value for each of them in their order.
#[derive(Debug, Drop)]
struct Cells {
    names: Names,
    values: Vec<Value>,
}

impl Model for Row {
    ghost use Rattle.std.specs.Coded.{coded_list, coded_ℕ};
    ghost use Rattle.std.specs.FinMap as map;
    ghost use Rattle.plain_values.specs.Order.{bytes_cmp};
    ghost use Rattle.lens_values.specs.Paired.{AreAsMany, paired};
    ghost use Rattle.plain_values.specs.contracts.value.Value as contract;
    ghost use Rattle.plain_values.specs.declared.value.Value as declared;

    ghost Value = { map.FinMap bytes_cmp declared.Value };

    ghost coded = { map.code (coded_list coded_ℕ) contract.the_row.coded };

    ghost view = { λ r. map.from_entries (paired r.cells.value.names r.cells.value.values.items) };

    ghost invariant = { λ r. AreAsMany r.cells.value.names r.cells.value.values.items };
}

/// Why pairs are not a row.
#[derive(Debug, PartialEq, Eq, Drop)]
pub enum RowFault {
    /// Two pairs have the name.
    Twice { name: Name },
    /// Out of memory.
    NoMemory,
}

impl From<AllocError> for RowFault {
    ghost from_gives = { λ _ e. e ≡ NoMemory };

    fn from(_: AllocError) -> RowFault {
        RowFault::NoMemory
    }
}

impl From<NoMemory> for RowFault {
    ghost from_gives = { λ _ e. e ≡ NoMemory };

    fn from(_: NoMemory) -> RowFault {
        RowFault::NoMemory
    }
}

impl Row {
    /// The row of these pairs. `Twice` with the least name that two of them have.
    pub fn new(alloc: Global, pairs: Vec<(Name, Value)>) -> Result<Row, RowFault>
        ensures ok { IfOk result (λ row. row ≡ map.from_entries pairs.items) }
        ensures distinct { OnOk result (AreDistinct (keys_of pairs.items)) }
        ensures twice { (name : _) → result ≡ Err (RowFault.Twice name)
            → IsLeastRepeated name (keys_of pairs.items) }
    {
        let pairs = sorted_by_name(pairs)?;
        match first_repeated(&pairs) {
            Some(name) => Err(RowFault::Twice { name }),
            None => Ok(Row::from_rising(alloc, pairs)?),
        }
    }

    /// The row of these pairs, whose names rise strictly.
    pub fn from_rising(alloc: Global, pairs: Vec<(Name, Value)>) -> Result<Row, NoMemory>
        requires { IsStrictlySortedBy bytes_cmp (keys_of pairs.items) }
        ensures { IfOk result (λ row. row ≡ map.from_entries pairs.items) }
    {
        let (names, values) = names_and_values(alloc, pairs)?;
        Row::from_values(alloc, Names::from_rising(alloc, names)?, values)
    }

    /// The row of these names with a value for each, in rising order of names.
    pub fn from_values(alloc: Global, names: Names, values: Vec<Value>) -> Result<Row, NoMemory>
        requires { AreAsMany names values.items }
        ensures { IfOk result (λ row. row ≡ map.from_entries (paired names values.items)) }
    {
        let cells = Cells { names, values };
        Ok(Row {
            cells: Rc::new(alloc, cells)?,
        })
    }

    /// The row that has this value in one column.
    pub fn single(alloc: Global, name: &Name, value: &Value) -> Result<Row, NoMemory>
        ensures { IfOk result (λ row. row ≡ map.from_entries ((name.now, value.now) ∷ [])) }
    {
        let mut values = Vec::with_capacity(alloc, 1)?;
        values.push(value.copy(alloc)?)?;
        Row::from_values(alloc, Names::single(alloc, name)?, values)
    }

    /// The names of the columns.
    pub fn names(&self) -> &Names
        ensures { set.items result.now ≡ map.keys self.now }
    {
        &self.cells.names
    }

    /// The values in rising order of names.
    pub fn values(&self) -> &[Value]
        ensures { result.now ≡ values_of (map.entries self.now) }
    {
        self.cells.values.as_slice()
    }

    /// The value under a name, or `None` where the row has none.
    pub fn value(&self, name: &Name) -> Option<&Value>
        ensures { option_copied result ≡ map.get self.now name.now }
    {
        match self.names().place_of(name) {
            Some(place) => self.values().get(place),
            None => None,
        }
    }

    /// The part of the row in these columns.
    pub fn project(&self, alloc: Global, cols: &Names) -> Result<Row, NoMemory>
        ensures { IfOk result (λ part. part ≡ restrict cols.now self.now) }
    {
        let values = self.values_at(alloc, cols)?;
        if values.len() == cols.len() {
            return Row::from_values(alloc, cols.copy(alloc)?, values);
        }
        Row::from_values(alloc, cols.meet(alloc, self.names())?, values)
    }

    /// The row with the columns of both, and with the other's value where both have one.
    pub fn paste(&self, alloc: Global, over: &Row) -> Result<Row, NoMemory>
        ensures { IfOk result (λ both. both ≡ override over.now self.now) }
    {
        let own = self.names();
        let all = if over.names().within(own) {
            own.copy(alloc)?
        } else {
            over.names().union(alloc, own)?
        };
        let values = self.values_with(alloc, over, &all)?;
        Row::from_values(alloc, all, values)
    }

    /// As `paste`. The row shares the names `like`, where they are its own.
    pub fn paste_like(&self, alloc: Global, over: &Row, like: &Names) -> Result<Row, NoMemory>
        ensures { IfOk result (λ both. both ≡ override over.now self.now) }
    {
        let values = self.values_with(alloc, over, like)?;
        if values.len() == like.len() && over.names().within(like) && self.names().within(like) {
            return Row::from_values(alloc, like.copy(alloc)?, values);
        }
        self.paste(alloc, over)
    }

    /// Whether both rows have the same value, or none, in each of these columns.
    #[tactic(auto, unfolding(plain_values::specs::Row::agree))]
    pub fn agree_on(&self, other: &Row, cols: &Names) -> bool
        ensures { result ≡ agree cols.now self.now other.now }
    {
        let names = cols.as_slice();
        let mut near = 0;
        let mut others_near = 0;
        for name in names {
            if !self.agrees_at(other, name, &mut near, &mut others_near) {
                return false;
            }
        }
        true
    }

    /// Whether the row has exactly these columns, with a value that fits in each.
    pub fn fits(&self, columns: &Columns) -> bool
        ensures { IsTrue result ↔ Fits columns.now self.now }
    {
        all_fit(self.names().as_slice(), self.values(), columns.pairs())
    }

    /// An equal row.
    pub fn copy(&self, _alloc: Global) -> Result<Row, NoMemory>
        ensures { IfOk result (λ copy. copy ≡ self.now) }
    {
        Ok(Row {
            cells: self.cells.clone()?,
        })
    }

    // Whether both rows have the same value, or none, in this column, whose places `value_near` knows.
    fn agrees_at(&self, other: &Row, name: &Name, near: &mut usize, others_near: &mut usize) -> bool
        ensures { result ≡ same_value (map.get self.now name.now) (map.get other.now name.now) }
    {
        match (
            self.value_near(name, near),
            other.value_near(name, others_near),
        ) {
            (Some(mine), Some(others)) => mine == others,
            (None, None) => true,
            _ => false,
        }
    }

    // The value under a name, which may stand at the place `near`. Then `near` is the next place.
    #[inline]
    fn value_near(&self, name: &Name, near: &mut usize) -> Option<&Value>
        ensures { option_copied result ≡ map.get self.now name.now }
    {
        match self.names().place_near(name, *near) {
            Some(place) => {
                *near = place.saturating_add(1);
                self.values().get(place)
            }
            None => None,
        }
    }

    // The values that the row has under the names, in the order of the names.
    fn values_at(&self, alloc: Global, names: &Names) -> Result<Vec<Value>, NoMemory>
        ensures { IfOk result (λ found.
            found.items ≡ filter_map (map.get self.now) (set.items names.now)) }
    {
        let mut found = Vec::with_capacity(alloc, names.len())?;
        let mut near = 0;
        for name in names.as_slice() {
            if let Some(value) = self.value_near(name, &mut near) {
                add_copy(&mut found, alloc, value)?;
            }
        }
        Ok(found)
    }

    /// The values that the row with the other pasted over it has under the names, in their order.
    pub fn values_with(
        &self,
        alloc: Global,
        over: &Row,
        names: &Names,
    ) -> Result<Vec<Value>, NoMemory>
        ensures { IfOk result (λ found.
            found.items ≡ filter_map (map.get (override over.now self.now)) (set.items names.now)) }
    {
        let mut found = Vec::with_capacity(alloc, names.len())?;
        let mut near = 0;
        let mut over_near = 0;
        for name in names.as_slice() {
            let value = match over.value_near(name, &mut over_near) {
                Some(value) => Some(value),
                None => self.value_near(name, &mut near),
            };
            if let Some(value) = value {
                add_copy(&mut found, alloc, value)?;
            }
        }
        Ok(found)
    }
}

// The names of the pairs, and their values.
fn names_and_values(
    alloc: Global,
    pairs: Vec<(Name, Value)>,
) -> Result<(Vec<Name>, Vec<Value>), NoMemory>
    ensures names { IfOk result (λ lists. lists.0.items ≡ keys_of pairs.items) }
    ensures values { IfOk result (λ lists. lists.1.items ≡ values_of pairs.items) }
{
    let mut names = Vec::with_capacity(alloc, pairs.len())?;
    let mut values = Vec::with_capacity(alloc, pairs.len())?;
    for (name, value) in pairs {
        names.push(name)?;
        values.push(value)?;
    }
    Ok((names, values))
}

impl PartialEq for Row {
    ghost eq = { eq_by_cmp row_cmp };

    ghost laws = { partial_equiv_from_equiv (eq_by_cmp_equiv row_cmp_total) };

    fn eq(&self, other: &Row) -> bool {
        self.cmp(other) == Ordering::Equal
    }
}

impl Eq for Row {
    ghost laws = { eq_by_cmp_equiv row_cmp_total };
}

impl PartialOrd for Row {
    ghost partial_cmp = { as_partial_cmp row_cmp };

    ghost laws = { partial_order_from_agreeing_total row_cmp row_cmp_total (λ _ _. refl) (λ _ _. refl) };

    fn partial_cmp(&self, other: &Row) -> Option<Ordering> {
        Some(self.cmp(other))
    }
}

impl Ord for Row {
    ghost cmp = { row_cmp };

    ghost total = { row_cmp_total };

    ghost matches_partial_cmp = { λ _ _. refl };

    ghost matches_eq = { λ _ _. refl };

    fn cmp(&self, other: &Row) -> Ordering {
        pairs_cmp(
            self.names().as_slice(),
            self.values(),
            other.names().as_slice(),
            other.values(),
        )
    }
}

impl TryClone for Row {
    fn try_clone(&self, alloc: Global) -> Result<Row, NoMemory> {
        self.copy(alloc)
    }
}

impl Keyed<Row> for Row {
    ghost key = { λ row. row };

    fn key(&self) -> &Row {
        self
    }
}

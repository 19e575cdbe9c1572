//! Differences of sets of rows.
ghost use Rattle.std.specs.Prelude.{◌≡◌, ◌≤◌, ◌+◌, ◌*◌, ℕ, true, length, IfOk};
ghost use Rattle.plain_values.specs.SortedSet as set;
ghost use Rattle.lens_specs.specs.Delta as spec;
ghost use Rattle.lens_specs.specs.Delta.{AppliesTo};
ghost use Rattle.lens_laws.specs.Work.{rows_of};
ghost use Rattle.signed_delta.specs.Disjoint.{AreApart};
ghost use Rattle.lens_specs.specs.Relation.{Fits};

use crate::asking::{absent, present};
use crate::look::Look;
use crate::sides::both_sides;
use lens_values::{Name, NoMemory, TryClone};
use row_sets::{Relation, RowSet};
use std::alloc::Global;
use std::marker::Model;
use std::sync::ledger::Ledger;
use step_counter::Steps;

/// Rows to remove and rows to add, with no row in both. A contract sees the two sets.
#[derive(Drop)]
pub struct Delta {
    remove: RowSet,
    add: RowSet,
}

impl Model for Delta {
    ghost use Rattle.lens_specs.specs.Delta as spec;
    ghost use Rattle.signed_delta.specs.Disjoint.{AreApart};
    ghost use Rattle.signed_delta.specs.DeltaCode.{coded_delta};

    ghost Value = { spec.Delta };

    ghost coded = { coded_delta };

    ghost view = { λ d. record { remove = d.remove; add = d.add } };

    ghost invariant = { λ d. AreApart d.remove d.add };
}

impl Delta {
    /// The difference that removes and adds these rows.
    pub fn new(remove: RowSet, add: RowSet) -> Delta
        requires { AreApart remove add }
        ensures { result ≡ record { remove = remove; add = add } }
    {
        Delta { remove, add }
    }

    /// The rows to remove.
    pub fn remove(&self) -> &RowSet
        ensures { result.now ≡ self.now.remove }
    {
        &self.remove
    }

    /// The rows to add.
    pub fn add(&self) -> &RowSet
        ensures { result.now ≡ self.now.add }
    {
        &self.add
    }

    /// The rows to remove and those to add. No row is in both.
    pub fn sides(&self) -> (&RowSet, &RowSet)
        ensures remove { result.0.now ≡ self.now.remove }
        ensures add { result.1.now ≡ self.now.add }
        ensures apart { AreApart self.now.remove self.now.add }
    {
        (&self.remove, &self.add)
    }

    /// Whether it changes nothing.
    pub fn is_empty(&self) -> bool
        ensures { result ≡ spec.is_empty self.now }
    {
        self.remove.rows().is_empty() && self.add.rows().is_empty()
    }

    /// Copies the difference.
    pub fn copy(&self, alloc: Global) -> Result<Delta, NoMemory>
        ensures { IfOk result (λ copy. copy ≡ self.now) }
    {
        let remove = self.remove.copy(alloc)?;
        let add = self.add.copy(alloc)?;
        Ok(Delta { remove, add })
    }

    /// The inverse: it removes what this one adds, and adds what this one removes.
    pub fn invert(self) -> Delta
        ensures { result ≡ record { remove = self.add; add = self.remove } }
    {
        Delta {
            remove: self.add,
            add: self.remove,
        }
    }

    /// Applies the difference: the rows without those to remove, and with those to add.
    pub fn apply_to(&self, alloc: Global, rows: &RowSet) -> Result<RowSet, NoMemory>
        ensures { IfOk result (λ after. after ≡ spec.new_view rows.now self.now) }
    {
        let rest = rows.minus(alloc, &self.remove)?;
        let after = rest.union(alloc, &self.add)?;
        Ok(after)
    }

    /// Applies the difference to a relation, over the same columns.
    pub fn apply(&self, alloc: Global, relation: &Relation) -> Result<Relation, NoMemory>
        requires { AppliesTo self.now relation.now }
        ensures { IfOk result (λ after.
            after ≡ record relation.now { rows = spec.new_view relation.now.rows self.now }) }
    {
        let columns = relation.columns().copy(alloc)?;
        let rows = self.apply_to(alloc, relation.rows())?;
        Ok(Relation::with_rows(columns, rows))
    }
}

/// The difference of one table.
#[derive(Drop)]
pub struct TableDelta {
    /// The table's name.
    pub table: Name,
    /// The difference of its rows.
    pub delta: Delta,
}

impl TableDelta {
    /// Copies the difference of the table.
    pub fn copy(&self, alloc: Global) -> Result<TableDelta, NoMemory>
        ensures { IfOk result (λ copy. copy ≡ self.now) }
    {
        let delta = self.delta.copy(alloc)?;
        Ok(TableDelta {
            table: self.table,
            delta,
        })
    }
}

impl TryClone for TableDelta {
    fn try_clone(&self, alloc: Global) -> Result<TableDelta, NoMemory> {
        self.copy(alloc)
    }
}

/// The difference from the old rows to the new ones, found by one walk along both.
pub fn diff(alloc: Global, old: &Relation, new: &Relation) -> Result<Delta, NoMemory>
    requires { new.now.columns ≡ old.now.columns }
    ensures { IfOk result (λ delta. delta ≡ spec.diff old.now.rows new.now.rows) }
{
    let sides = both_sides(alloc, old.rows().rows(), new.rows().rows())?;
    let remove = RowSet::from_rising(sides.remove);
    let add = RowSet::from_rising(sides.add);
    Ok(Delta::new(remove, add))
}

/// The difference that deletes the rows to remove from the look's rows and then inserts the rows to
/// add. A row that is in both stays, or is added.
pub fn of_touched<K: Look, L: Ledger>(
    alloc: Global,
    remove: &RowSet,
    add: &RowSet,
    look: &K,
    looked: &mut Steps<L>,
) -> Result<Delta, NoMemory>
    requires remove { (row : _) → set.contains remove.now row ≡ true
        → Fits (K.relation look.now).columns row }
    requires add { (row : _) → set.contains add.now row ≡ true
        → Fits (K.relation look.now).columns row }
    ensures delta { IfOk result (λ delta. let V = (K.relation look.now).rows in delta
        ≡ spec.diff V (spec.new_view V (record { remove = remove.now; add = add.now }))) }
    ensures looks { (n : ℕ) → K.within look.now n → looked.new ≤ looked.old
        + n * (length (set.items remove.now) + length (set.items add.now)) }
    ensures few { IfOk result (λ delta. rows_of delta
        ≤ length (set.items remove.now) + length (set.items add.now)) }
{
    let rest = remove.minus(alloc, add)?;
    let gone = present(alloc, &rest, look, looked)?;
    let new = absent(alloc, add, look, looked)?;
    Ok(Delta::new(gone, new))
}

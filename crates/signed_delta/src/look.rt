//! Questions to a relation that nobody may walk.
ghost use Rattle.std.specs.Prelude.{◌≡◌, ◌≢◌, ◌≤◌, ◌+◌, ℕ, List, length, Contains, IfOk};
ghost use Rattle.plain_values.specs.SortedSet as set;
ghost use Rattle.lens_specs.specs.Names as names;
ghost use Rattle.lens_specs.specs.Relation as spec;
ghost use Rattle.lens_laws.specs.KeyedDeltas.{find_by};
ghost use Rattle.lens_laws.specs.Work.{GivesAtMost};
ghost use Rattle.signed_delta.specs.Keys.{HasColumns};

use lens_values::{Columns, Names, NoMemory, Row};
use row_sets::RowSet;
use std::alloc::Global;
use std::sync::ledger::Ledger;
use step_counter::Steps;

/// A relation that answers whether it has a row, and which of its rows have given values in given
/// columns. It offers no way to go over its rows, and each answer is counted.
pub trait Look {
    // The relation that it answers of.
    ghost relation: { Self → spec.Relation };

    // The sets of columns by which it may be asked.
    ghost asked: { Self → List names.Names };

    // One question looks at no more than so many rows, at least one, and finds no more.
    ghost within: { Self → ℕ → Type 0 };

    /// The columns that each row of the relation has.
    fn columns(&self) -> &Columns
        ensures columns { result.now ≡ (relation self.now).columns }
        ensures fit { spec.IsRelation (relation self.now) }
        ensures some { (n : ℕ) → within self.now n → 1 ≤ n }
        ensures gives { (n : ℕ) → within self.now n
            → GivesAtMost n (asked self.now) (relation self.now).rows };

    /// Whether the row is in the relation.
    fn has<L: Ledger>(
        &self,
        alloc: Global,
        row: &Row,
        looked: &mut Steps<L>,
    ) -> Result<bool, NoMemory>
        requires { spec.Fits (relation self.now).columns row.now }
        ensures there { IfOk result (λ there. there ≡ spec.has (relation self.now).rows row.now) }
        ensures looks { (n : ℕ) → within self.now n → looked.new ≤ looked.old + n };

    /// The rows of the relation that agree with the key on these columns. The key may have further
    /// columns, so that a whole row can be the key.
    fn find<L: Ledger>(
        &self,
        alloc: Global,
        cols: &Names,
        key: &Row,
        looked: &mut Steps<L>,
    ) -> Result<RowSet, NoMemory>
        requires some { length (set.items cols.now) ≢ 0 }
        requires asked { Contains (asked self.now) cols.now }
        requires key { HasColumns cols.now key.now }
        ensures found { IfOk result (λ found. found
            ≡ find_by cols.now key.now (relation self.now).rows) }
        ensures looks { (n : ℕ) → within self.now n → looked.new ≤ looked.old + n }
        ensures few { IfOk result (λ found. (n : ℕ) → within self.now n
            → length (set.items found) ≤ n) };
}

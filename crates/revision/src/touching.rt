//! The rows that revision changes, found by key.
ghost use Rattle.std.specs.Prelude.{◌≡◌, ◌≤◌, ◌+◌, ◌*◌, ℕ, length, map, IfOk, OnOk};
ghost use Rattle.plain_values.specs.SortedSet as set;
ghost use Rattle.lens_specs.specs.Relation.{Rows, minus};
ghost use Rattle.fd_laws.specs.Trees.{IsTree};
ghost use Rattle.revision.specs.Near.{CanRevise, HasChanged, near_work};
ghost use Rattle.revision.specs.Touching.{all_touched, differing};

use crate::nearing::near_rows;
use crate::revising::revised_rows;
use fd_tree::Tree;
use lens_values::{NoMemory, Row};
use row_sets::RowSet;
use signed_delta::{Look, absent};
use std::alloc::Global;
use std::sync::ledger::Ledger;
use step_counter::Steps;

/// A row, and what it becomes.
#[derive(Drop)]
pub struct Touched {
    /// The row as it was.
    pub before: Row,
    /// The row as it becomes.
    pub after: Row,
}

/// Rows of a relation near new ones, and those of the new rows that it lacks.
#[derive(Drop)]
pub struct NearRows {
    /// Rows of the relation, among them each that revision by the new rows changes.
    pub rows: RowSet,
    /// The new rows that the relation lacks.
    pub new: RowSet,
}

/// The rows of the look's relation near the new rows, and those of these that it lacks. Each new row
/// that it has is found as a row near itself, so that no question is asked for it alone, unless the
/// tree has no edge.
pub fn near_and_new<K: Look, L: Ledger>(
    alloc: Global,
    tree: &Tree,
    look: &K,
    plus: &RowSet,
    looked: &mut Steps<L>,
) -> Result<NearRows, NoMemory>
    requires { CanRevise (K.asked look.now) (K.relation look.now) tree.now plus.now }
    ensures rows { let M = (K.relation look.now).rows in
        IfOk result (λ near. HasChanged tree.now M plus.now near.rows) }
    ensures new { IfOk result (λ near. near.new ≡ minus plus.now (K.relation look.now).rows) }
    ensures looks { (n : ℕ) → K.within look.now n → looked.new ≤ looked.old
        + n * length (set.items plus.now) * (length tree.now + 1) }
{
    if tree.edges().is_empty() {
        let rows = RowSet::empty(alloc);
        let new = absent(alloc, plus, look, looked)?;
        return Ok(NearRows { rows, new });
    }
    let rows = near_rows(alloc, tree, look, plus, looked)?;
    let new = plus.minus(alloc, &rows)?;
    Ok(NearRows { rows, new })
}

/// Those of the near rows that revision by the new rows changes, in rising order, each with what it
/// becomes.
pub fn touched_among(
    alloc: Global,
    tree: &Tree,
    near: &RowSet,
    plus: &RowSet,
) -> Result<Vec<Touched>, NoMemory>
    ensures touched { IfOk result (λ touched. (M : Rows) → HasChanged tree.now M plus.now near.now
        → touched.items ≡ all_touched tree.now M plus.now) }
    ensures few { IfOk result (λ touched. length touched.items ≤ length (set.items near.now)) }
    ensures tree { IsTree tree.now }
{
    let revised = revised_rows(alloc, tree.edges(), near.rows(), plus)?;
    let touched = changed(alloc, near.rows(), &revised)?;
    Ok(touched)
}

/// The rows of the look's relation that revision by the new rows changes, in rising order, each
/// with what it becomes. They are found by what the new rows have on the left side of an edge
/// (Horn, Perera, Cheney, ICFP 2018).
pub fn revise_touched<K: Look, L: Ledger>(
    alloc: Global,
    tree: &Tree,
    look: &K,
    plus: &RowSet,
    looked: &mut Steps<L>,
) -> Result<Vec<Touched>, NoMemory>
    requires { CanRevise (K.asked look.now) (K.relation look.now) tree.now plus.now }
    ensures touched { IfOk result (λ touched. touched.items
        ≡ all_touched tree.now (K.relation look.now).rows plus.now) }
    ensures looks { (n : ℕ) → K.within look.now n
        → looked.new ≤ looked.old + near_work tree.now plus.now n }
    ensures few { IfOk result (λ touched. (n : ℕ) → K.within look.now n
        → length touched.items ≤ near_work tree.now plus.now n) }
    ensures tree { OnOk result (IsTree tree.now) }
{
    let near = near_rows(alloc, tree, look, plus, looked)?;
    let touched = touched_among(alloc, tree, &near, plus)?;
    Ok(touched)
}

/// The set of the rows as they were.
pub fn befores(alloc: Global, touched: &[Touched]) -> Result<RowSet, NoMemory>
    ensures { IfOk result (λ rows. rows ≡ set.from_list (map (λ t. t.before) touched.now)) }
{
    let mut rows = Vec::with_capacity(alloc, touched.len())?;
    for change in touched {
        rows.push(change.before.copy(alloc)?)?;
    }
    RowSet::new(alloc, rows)
}

/// The set of what the rows become.
pub fn afters(alloc: Global, touched: &[Touched]) -> Result<RowSet, NoMemory>
    ensures { IfOk result (λ rows. rows ≡ set.from_list (map (λ t. t.after) touched.now)) }
{
    let mut rows = Vec::with_capacity(alloc, touched.len())?;
    for change in touched {
        rows.push(change.after.copy(alloc)?)?;
    }
    RowSet::new(alloc, rows)
}

// Each row that differs from the row at its place in `revised`, together with that row.
fn changed(alloc: Global, rows: &[Row], revised: &[Row]) -> Result<Vec<Touched>, NoMemory>
    requires { length revised.now ≡ length rows.now }
    ensures differing { IfOk result (λ touched. touched.items ≡ differing rows.now revised.now) }
    ensures few { IfOk result (λ touched. length touched.items ≤ length rows.now) }
{
    let mut touched = Vec::new(alloc);
    for place in 0..rows.len() {
        if revised[place] != rows[place] {
            let before = rows[place].copy(alloc)?;
            let after = revised[place].copy(alloc)?;
            touched.push(Touched { before, after })?;
        }
    }
    Ok(touched)
}

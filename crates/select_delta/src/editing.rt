//! Carries an edit of a selection down to its source.
ghost use Rattle.std.specs.Prelude.{◌≡◌, ◌≤◌, ◌+◌, ℕ, Contains, IfOk, length, not};
ghost use Rattle.lens_specs.specs.Columns.{names};
ghost use Rattle.lens_specs.specs.Delta.{Applies, diff};
ghost use Rattle.lens_specs.specs.Dependencies.{AllEdges, MeetsTree};
ghost use Rattle.lens_specs.specs.Names.{Within};
ghost use Rattle.lens_specs.specs.Nodes.{select_get};
ghost use Rattle.lens_specs.specs.Predicate.{holds};
ghost use Rattle.lens_specs.specs.Relation.{those};
ghost use Rattle.lens_laws.specs.Work.{node_work, rows_down, rows_of};
ghost use Rattle.signed_delta.specs.Disjoint.{AreApart};
ghost use Rattle.select_delta.specs.Selected.{AreSelected, edited, edited_source, with_touched};

use fd_tree::Tree;
use lens_pred::Pred;
use lens_values::NoMemory;
use revision::{Touched, afters, befores, near_rows, touched_among};
use row_sets::RowSet;
use signed_delta::{Delta, Look};
use std::alloc::Global;
use std::sync::ledger::Ledger;
use step_counter::Steps;

/// The change that an edit of a selection makes to its source, by rows found by key: the
/// incremental `select` of Horn, Perera and Cheney (Incremental Relational Lenses, ICFP 2018).
///
/// The source takes the edit as it is. The added rows also revise the rows that the predicate hides
/// from the view: each that changes is removed, and what it becomes is added if the predicate
/// still hides it. One that would enter the view is only removed, since nobody added it there.
pub fn select_delta<S: Look, L: Ledger>(
    alloc: Global,
    source: &S,
    tree: &Tree,
    pred: &Pred,
    delta: Delta,
    looked: &mut Steps<L>,
) -> Result<Delta, NoMemory>
    requires asked { AllEdges (λ e. Contains (S.asked source.now) e.left) tree.now }
    requires columns { let U = names (S.relation source.now).columns in
        AllEdges (λ e. Within e.left U) tree.now }
    requires meets { MeetsTree (S.relation source.now).rows tree.now }
    requires applies { let M = (S.relation source.now).rows in
        Applies delta (select_get (holds pred.now) M) }
    requires view { let R = S.relation source.now in
        AreSelected R.columns tree.now pred.now (edited pred.now R.rows delta) }
    ensures delta { let M = (S.relation source.now).rows in
        IfOk result (λ change. change ≡ diff M (edited_source tree.now pred.now M delta)) }
    ensures looks { (n : ℕ) → S.within source.now n → length tree.now ≤ 64
        → looked.new ≤ looked.old + node_work (rows_of delta) n }
    ensures few { IfOk result (λ change. (n : ℕ) → S.within source.now n → length tree.now ≤ 64
        → rows_of change ≤ rows_down (rows_of delta) n) }
{
    // Called for its contract: each row has these columns, and a question looks at one row or more.
    let _columns = source.columns();
    let near = near_rows(alloc, tree, source, delta.add(), looked)?;
    let hidden = refused(near, pred);
    let touched = touched_among(alloc, tree, &hidden, delta.add())?;
    if touched.is_empty() {
        return Ok(delta);
    }
    with_touched(alloc, pred, touched, &delta)
}

// The edit, with these rows that the predicate hides: each is removed, and what it becomes is added
// if the predicate still hides it.
fn with_touched(
    alloc: Global,
    pred: &Pred,
    touched: Vec<Touched>,
    delta: &Delta,
) -> Result<Delta, NoMemory>
    requires { let change = with_touched pred.now touched.items delta.now in
        AreApart change.remove change.add }
    ensures { IfOk result (λ change. change ≡ with_touched pred.now touched.items delta.now) }
{
    let gone = befores(alloc, &touched)?;
    let revised = afters(alloc, &touched)?;
    let new = refused(revised, pred);
    let remove = delta.remove().union(alloc, &gone)?;
    let add = delta.add().union(alloc, &new)?;
    Ok(Delta::new(remove, add))
}

// Those of the rows that the predicate rejects.
fn refused(rows: RowSet, pred: &Pred) -> RowSet
    ensures { result ≡ those (λ row. not (holds pred.now row)) rows }
{
    let mut refused = rows.into_rows();
    refused.retain(|row| !pred.holds(row));
    RowSet::from_rising(refused)
}

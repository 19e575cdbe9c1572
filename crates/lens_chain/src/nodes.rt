//! What an edit of a node's view does to its source, or to both.
ghost use Rattle.std.specs.Prelude.{◌≡◌, ◌≤◌, ◌+◌, ℕ, IfOk, Contains};
ghost use Rattle.plain_values.specs.SortedSet as set;
ghost use Rattle.lens_specs.specs.Lens as spec;
ghost use Rattle.lens_specs.specs.Lens.{get, sort_of, view_names};
ghost use Rattle.lens_specs.specs.Predicate.{holds};
ghost use Rattle.lens_laws.specs.JoinKinds.{left_delta, right_delta};
ghost use Rattle.lens_laws.specs.KeyedDeltas as keyed;
ghost use Rattle.lens_laws.specs.Lenses.{IsTyped};
ghost use Rattle.lens_laws.specs.Rename.{rename_delta};
ghost use Rattle.lens_laws.specs.Work.{node_work, rows_down, rows_of, size};
ghost use Rattle.lens_probe.specs.Viewed.{FindsAtMost, IsViewed, asked_by};
ghost use Rattle.lens_chain.specs.Edits.{IsEdit, edited, over};

use drop_delta::drop_delta;
use join_delta::{Source, join_change};
use lens_pred::Pred;
use lens_probe::View;
use lens_types::rename_set;
use lens_values::{JoinKind, Name, Names, NoMemory, Value};
use select_delta::select_delta;
use signed_delta::{Delta, Look};
use std::alloc::Global;
use std::sync::ledger::Ledger;
use step_counter::Steps;

/// What an edit of the rows that a predicate selects does to all rows.
pub fn under_select<L: Ledger>(
    alloc: Global,
    pred: &Pred,
    source: &View<'_>,
    delta: Delta,
    looked: &mut Steps<L>,
) -> Result<Delta, NoMemory>
    requires typed { IsTyped (spec.select pred.now source.now.lens) }
    requires edit { IsEdit (spec.select pred.now source.now.lens) (over source.now) delta }
    ensures change { let C = source.now.lens in let M = get C (over source.now) in
        IfOk result (λ change. change
        ≡ keyed.select_delta (sort_of C).tree (holds pred.now) M delta) }
    ensures edit { IfOk result (λ change. IsEdit source.now.lens (over source.now) change) }
    ensures looks { (w : ℕ) → FindsAtMost source.now w → looked.new
        ≤ looked.old + node_work (rows_of delta) (size source.now.lens w) }
    ensures few { IfOk result (λ change. (w : ℕ) → FindsAtMost source.now w
        → rows_of change ≤ rows_down (rows_of delta) (size source.now.lens w)) }
{
    let tree = source.lens().sort().tree();
    select_delta(alloc, source, tree, pred, delta, looked)
}

/// What an edit of the rows without a column does to the rows with it.
pub fn under_drop<L: Ledger>(
    alloc: Global,
    col: &Name,
    by: &Names,
    fill: &Value,
    source: &View<'_>,
    delta: &Delta,
    looked: &mut Steps<L>,
) -> Result<Delta, NoMemory>
    requires viewed { IsViewed source.now }
    requires typed { IsTyped (spec.drop col.now by.now fill.now source.now.lens) }
    requires asked { Contains (asked_by source.now) by.now }
    requires edit { let C = source.now.lens in
        IsEdit (spec.drop col.now by.now fill.now C) (over source.now) delta.now }
    ensures change { let M = get source.now.lens (over source.now) in
        IfOk result (λ change. change
        ≡ keyed.drop_delta col.now by.now fill.now M delta.now) }
    ensures edit { IfOk result (λ change. IsEdit source.now.lens (over source.now) change) }
    ensures looks { (w : ℕ) → FindsAtMost source.now w → looked.new
        ≤ looked.old + node_work (rows_of delta.now) (size source.now.lens w) }
    ensures few { IfOk result (λ change. (w : ℕ) → FindsAtMost source.now w
        → rows_of change ≤ rows_down (rows_of delta.now) (size source.now.lens w)) }
{
    drop_delta(alloc, source, col, by, fill, delta, looked)
}

/// What an edit of the rows with a new name for a column does to the rows with the old one.
pub fn under_rename(
    alloc: Global,
    col: &Name,
    to: &Name,
    source: &View<'_>,
    delta: &Delta,
) -> Result<Delta, NoMemory>
    requires viewed { IsViewed source.now }
    requires typed { IsTyped (spec.rename col.now to.now source.now.lens) }
    requires edit { let C = source.now.lens in
        IsEdit (spec.rename col.now to.now C) (over source.now) delta.now }
    ensures change { IfOk result (λ change. change ≡ rename_delta col.now to.now delta.now) }
    ensures edit { IfOk result (λ change. IsEdit source.now.lens (over source.now) change) }
{
    let names = source.columns().names(alloc)?;
    let shown = names.rename(alloc, col, to)?;
    let remove = rename_set(alloc, delta.remove(), &shown, to, col)?;
    let add = rename_set(alloc, delta.add(), &shown, to, col)?;
    Ok(Delta::new(remove, add))
}

/// What an edit of a join does to its left and to its right side.
pub fn under_join<L: Ledger>(
    alloc: Global,
    kind: JoinKind,
    left: &View<'_>,
    right: &View<'_>,
    delta: &Delta,
    looked: &mut Steps<L>,
) -> Result<(Delta, Delta), NoMemory>
    requires same { over right.now ≡ over left.now }
    requires typed { IsTyped (spec.join kind left.now.lens right.now.lens) }
    requires left_asked { let U = view_names left.now.lens in
        Contains (asked_by left.now) (set.intersection U (view_names right.now.lens)) }
    requires right_asked { let U = view_names left.now.lens in
        Contains (asked_by right.now) (set.intersection U (view_names right.now.lens)) }
    requires edit { IsEdit (spec.join kind left.now.lens right.now.lens) (over left.now) delta.now }
    ensures left { let A = left.now.lens in let B = right.now.lens in let db = over left.now in
        let O = edited (spec.join kind A B) db delta.now in
        IfOk result (λ changes. changes.0
        ≡ left_delta kind (view_names A) (view_names B) (sort_of A).tree (sort_of B).tree
        (get A db) (get B db) O delta.now) }
    ensures right { let A = left.now.lens in let B = right.now.lens in let db = over left.now in
        let O = edited (spec.join kind A B) db delta.now in
        IfOk result (λ changes. changes.1
        ≡ right_delta kind (view_names A) (view_names B) (sort_of A).tree (sort_of B).tree
        (get A db) (get B db) O delta.now) }
    ensures left_edit { IfOk result (λ changes. IsEdit left.now.lens (over left.now) changes.0) }
    ensures right_edit { IfOk result (λ changes. IsEdit right.now.lens (over left.now) changes.1) }
    ensures looks { (w : ℕ) → FindsAtMost left.now w → FindsAtMost right.now w
        → let n = size (spec.join kind left.now.lens right.now.lens) w in
        looked.new ≤ looked.old + node_work (rows_of delta.now) n }
    ensures left_few { IfOk result (λ changes.
        (w : ℕ) → FindsAtMost left.now w → FindsAtMost right.now w
        → let n = size (spec.join kind left.now.lens right.now.lens) w in
        rows_of changes.0 ≤ rows_down (rows_of delta.now) n) }
    ensures right_few { IfOk result (λ changes.
        (w : ℕ) → FindsAtMost left.now w → FindsAtMost right.now w
        → let n = size (spec.join kind left.now.lens right.now.lens) w in
        rows_of changes.1 ≤ rows_down (rows_of delta.now) n) }
{
    let left = Source {
        look: left,
        tree: left.lens().sort().tree(),
    };
    let right = Source {
        look: right,
        tree: right.lens().sort().tree(),
    };
    join_change(alloc, kind, &left, &right, delta, looked)
}

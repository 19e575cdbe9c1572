//! An edit of a view, carried down to its tables.
ghost use Rattle.std.specs.Prelude.{◌≡◌, ◌≤◌, ◌+◌, ℕ, IfOk, OnOk, map};
ghost use Rattle.lens_specs.specs.Delta.{changes};
ghost use Rattle.lens_laws.specs.Edits.{table_deltas};
ghost use Rattle.lens_laws.specs.Work.{rows_of, work};
ghost use Rattle.signed_delta.specs.Tables.{table_delta};
ghost use Rattle.lens_probe.specs.Viewed.{FindsAtMost, IsViewed};
ghost use Rattle.lens_chain.specs.Changed.{with_changes};
ghost use Rattle.lens_chain.specs.Edits.{IsEdit, edited, over};

use crate::changes::Changes;
use crate::nodes::{under_drop, under_join, under_rename, under_select};
use lens_probe::View;
use lens_types::Node;
use lens_values::NoMemory;
use signed_delta::{Delta, TableDelta};
use std::alloc::Global;
use std::sync::ledger::Ledger;
use step_counter::Steps;

/// What an edit of the view changes in its tables, in rising order of their names. Each node turns
/// a difference of its view into one of each source (Horn, Perera and Cheney, ICFP 2018).
pub fn put_delta<L: Ledger>(
    alloc: Global,
    view: &View<'_>,
    delta: Delta,
    looked: &mut Steps<L>,
) -> Result<Vec<TableDelta>, NoMemory>
    requires edit { IsEdit view.now.lens (over view.now) delta }
    ensures changes { let db = over view.now in let rows = edited view.now.lens db delta in
        IfOk result (λ found. map table_delta found.items ≡ changes view.now.lens rows db) }
    ensures looks { (w : ℕ) → FindsAtMost view.now w
        → looked.new ≤ looked.old + work view.now.lens (rows_of delta) w }
{
    let mut changes = Changes::new(alloc);
    carry_down(alloc, view, delta, &mut changes, looked)?;
    changes.in_order(alloc)
}

// Adds what an edit of the view changes in its tables.
fn carry_down<L: Ledger>(
    alloc: Global,
    view: &View<'_>,
    delta: Delta,
    changes: &mut Changes,
    looked: &mut Steps<L>,
) -> Result<(), NoMemory>
    requires { IsEdit view.now.lens (over view.now) delta }
    ensures changes { OnOk result (changes.new
        ≡ with_changes (table_deltas view.now.lens delta (over view.now)) changes.old) }
    ensures looks { (w : ℕ) → FindsAtMost view.now w
        → looked.new ≤ looked.old + work view.now.lens (rows_of delta) w }
    ensures viewed { IsViewed view.now }
{
    match view.lens().node() {
        Node::Base { table, .. } => changes.add(*table, delta),
        Node::Select { pred, of } => {
            let source = view.over(of);
            let change = under_select(alloc, pred, &source, delta, looked)?;
            carry_down(alloc, &source, change, changes, looked)
        }
        Node::Drop { col, by, fill, of } => {
            let source = view.over(of);
            let filled = under_drop(alloc, col, by, fill, &source, &delta, looked)?;
            carry_down(alloc, &source, filled, changes, looked)
        }
        Node::Rename { col, to, of } => {
            let source = view.over(of);
            let renamed = under_rename(alloc, col, to, &source, &delta)?;
            carry_down(alloc, &source, renamed, changes, looked)
        }
        Node::Join { kind, left, right } => {
            let (left, right) = view.over_sides(left, right);
            let (to_left, to_right) = under_join(alloc, kind, &left, &right, &delta, looked)?;
            carry_down(alloc, &left, to_left, changes, looked)?;
            carry_down(alloc, &right, to_right, changes, looked)
        }
    }
}

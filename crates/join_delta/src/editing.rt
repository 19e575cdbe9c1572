//! Carries an edit of a join down to both sources, by the side on which the join deletes.
ghost use Rattle.std.specs.Prelude.{◌≤◌, ◌+◌, IfOk};
ghost use Rattle.plain_values.specs.declared.join_kind.JoinKind.TheVariants.{DeleteBoth, DeleteLeft, DeleteRight};
ghost use Rattle.lens_laws.specs.Work.{node_work, rows_of};
ghost use Rattle.join_delta.specs.Joined.{AtSizes, CanEdit, IsJoinChange};

use crate::merging::without;
use crate::parts::{left_parts, right_parts};
use crate::source::Source;
use crate::sources::merge_sources;
use fd_tree::Tree;
use lens_values::{JoinKind, NoMemory};
use signed_delta::{Delta, Look};
use std::alloc::Global;
use std::sync::ledger::Ledger;
use step_counter::Steps;

/// The changes that an edit of a join makes to its left and its right source, by rows found by key:
/// the incremental `join` of Horn, Perera and Cheney (Incremental Relational Lenses, ICFP 2018),
/// which deletes on the left.
pub fn join_delta<A: Look, B: Look, L: Ledger>(
    alloc: Global,
    left: &A,
    left_tree: &Tree,
    right: &B,
    right_tree: &Tree,
    delta: &Delta,
    looked: &mut Steps<L>,
) -> Result<(Delta, Delta), NoMemory>
    requires { let a = left.now in let b = right.now in
        CanEdit (A.asked a) (B.asked b) (A.relation a) (B.relation b)
        left_tree.now right_tree.now delta.now }
    ensures changes { let a = left.now in let b = right.now in
        IfOk result (IsJoinChange DeleteLeft (A.within a) (B.within b) (A.relation a) (B.relation b)
        left_tree.now right_tree.now delta.now) }
    ensures looks { let a = left.now in let b = right.now in
        AtSizes (A.within a) (B.within b) left_tree.now right_tree.now (λ n.
        looked.new ≤ looked.old + node_work (rows_of delta.now) n) }
{
    let left = Source {
        look: left,
        tree: left_tree,
    };
    let right = Source {
        look: right,
        tree: right_tree,
    };
    join_change(alloc, JoinKind::DeleteLeft, &left, &right, delta, looked)
}

/// What `join_delta` returns, for a join that deletes on the right if it can, and else on the left.
pub fn join_dr_delta<A: Look, B: Look, L: Ledger>(
    alloc: Global,
    left: &A,
    left_tree: &Tree,
    right: &B,
    right_tree: &Tree,
    delta: &Delta,
    looked: &mut Steps<L>,
) -> Result<(Delta, Delta), NoMemory>
    requires { let a = left.now in let b = right.now in
        CanEdit (A.asked a) (B.asked b) (A.relation a) (B.relation b)
        left_tree.now right_tree.now delta.now }
    ensures changes { let a = left.now in let b = right.now in
        IfOk result (IsJoinChange DeleteRight (A.within a) (B.within b) (A.relation a) (B.relation b)
        left_tree.now right_tree.now delta.now) }
    ensures looks { let a = left.now in let b = right.now in
        AtSizes (A.within a) (B.within b) left_tree.now right_tree.now (λ n.
        looked.new ≤ looked.old + node_work (rows_of delta.now) n) }
{
    let left = Source {
        look: left,
        tree: left_tree,
    };
    let right = Source {
        look: right,
        tree: right_tree,
    };
    join_change(alloc, JoinKind::DeleteRight, &left, &right, delta, looked)
}

/// What `join_delta` returns, for a join that deletes on the left, and on the right if it can.
pub fn join_both_delta<A: Look, B: Look, L: Ledger>(
    alloc: Global,
    left: &A,
    left_tree: &Tree,
    right: &B,
    right_tree: &Tree,
    delta: &Delta,
    looked: &mut Steps<L>,
) -> Result<(Delta, Delta), NoMemory>
    requires { let a = left.now in let b = right.now in
        CanEdit (A.asked a) (B.asked b) (A.relation a) (B.relation b)
        left_tree.now right_tree.now delta.now }
    ensures changes { let a = left.now in let b = right.now in
        IfOk result (IsJoinChange DeleteBoth (A.within a) (B.within b) (A.relation a) (B.relation b)
        left_tree.now right_tree.now delta.now) }
    ensures looks { let a = left.now in let b = right.now in
        AtSizes (A.within a) (B.within b) left_tree.now right_tree.now (λ n.
        looked.new ≤ looked.old + node_work (rows_of delta.now) n) }
{
    let left = Source {
        look: left,
        tree: left_tree,
    };
    let right = Source {
        look: right,
        tree: right_tree,
    };
    join_change(alloc, JoinKind::DeleteBoth, &left, &right, delta, looked)
}

/// The changes that an edit of a join makes to its left and its right source, by the side on which
/// the join deletes.
///
/// Each source is merged with its part of the added rows. Then of each row that would still be
/// joined and that the edited view lacks a part goes, on the side on which the join deletes.
pub fn join_change<A: Look, B: Look, L: Ledger>(
    alloc: Global,
    kind: JoinKind,
    left: &Source<'_, A>,
    right: &Source<'_, B>,
    delta: &Delta,
    looked: &mut Steps<L>,
) -> Result<(Delta, Delta), NoMemory>
    requires { let a = left.now.look.now in let b = right.now.look.now in
        CanEdit (A.asked a) (B.asked b) (A.relation a) (B.relation b)
        left.now.tree.now right.now.tree.now delta.now }
    ensures changes { let a = left.now.look.now in let b = right.now.look.now in
        IfOk result (IsJoinChange kind (A.within a) (B.within b) (A.relation a) (B.relation b)
        left.now.tree.now right.now.tree.now delta.now) }
    ensures looks { let a = left.now.look.now in let b = right.now.look.now in
        AtSizes (A.within a) (B.within b) left.now.tree.now right.now.tree.now (λ n.
        looked.new ≤ looked.old + node_work (rows_of delta.now) n) }
{
    let merged = merge_sources(alloc, left, right, delta, looked)?;
    let from_right = right_parts(alloc, kind, &merged, left.look, delta.remove(), looked)?;
    let from_left = left_parts(alloc, kind, &merged, &from_right)?;
    let left_change = without(alloc, merged.left, &from_left)?;
    let right_change = without(alloc, merged.right, &from_right)?;
    Ok((left_change, right_change))
}

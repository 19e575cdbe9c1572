//! Both sources of a join, merged with an edit of it.
ghost use Rattle.std.specs.Prelude.{◌≡◌, ◌≢◌, ◌≤◌, ◌+◌, ◌*◌, ℕ, true, [], ◌∷◌, length, Contains, IfOk, IfSome, OnOk, is_some};
ghost use Rattle.plain_values.specs.SortedSet as set;
ghost use Rattle.lens_specs.specs.Relation.{IsRelation, minus, union};
ghost use Rattle.lens_specs.specs.Rows.{at};
ghost use Rattle.lens_laws.specs.KeyedDeltas.{suspects as suspects_of};
ghost use Rattle.lens_laws.specs.Work.{rows_of};
ghost use Rattle.join_delta.specs.Joined.{AreExchanged, CanEdit, IsSource};
ghost use Rattle.join_delta.specs.Pairs.{AreSides};
ghost use Rattle.join_delta.specs.Surplus.{AreMerges, IsMerged};

use crate::merging::{Change, merge_change, merge_known};
use crate::over::over_pairs;
use crate::sides::{Sides, sides_of};
use crate::source::Source;
use lens_values::{Names, NoMemory, Row};
use row_sets::RowSet;
use signed_delta::{Delta, Look, find_each};
use std::alloc::Global;
use std::sync::ledger::Ledger;
use step_counter::Steps;

/// What an edit of a join makes of its sources before rows are deleted.
#[derive(Drop)]
pub struct Merged {
    /// The names of the sources' columns.
    pub sides: Sides,
    /// What merging changes in the left source.
    pub left: Delta,
    /// What merging changes in the right source.
    pub right: Delta,
    /// The right parts of the added rows.
    pub parts: RowSet,
    /// The rows that the merged sources join, and that the edited view lacks.
    pub over: RowSet,
}

/// Merges each source with its part of the added rows, and finds what they then join too much.
///
/// Only the parts of removed rows, the rows that agree with a new or revised right row, and the
/// merged rows can be left parts of such rows, so these alone are tested: not those that the merge
/// removes, nor the parts of added rows, which join to the added rows alone.
pub fn merge_sources<A: Look, B: Look, L: Ledger>(
    alloc: Global,
    left: &Source<'_, A>,
    right: &Source<'_, B>,
    delta: &Delta,
    looked: &mut Steps<L>,
) -> Result<Merged, NoMemory>
    requires { let a = left.now.look.now in let b = right.now.look.now in
        CanEdit (A.asked a) (B.asked b) (A.relation a) (B.relation b)
        left.now.tree.now right.now.tree.now delta.now }
    ensures merged { let R = A.relation left.now.look.now in
        IfOk result (IsMerged R (B.relation right.now.look.now)
        left.now.tree.now right.now.tree.now delta.now) }
    ensures left { let a = left.now.look.now in
        OnOk result (IsSource (A.asked a) (A.within a) (A.relation a) left.now.tree.now) }
    ensures right { let b = right.now.look.now in
        OnOk result (IsSource (B.asked b) (B.within b) (B.relation b) right.now.tree.now) }
    ensures looks { (a b : ℕ) → A.within left.now.look.now a → B.within right.now.look.now b
        → length left.now.tree.now ≤ 64 → length right.now.tree.now ≤ 64
        → looked.new ≤ looked.old + 582 * (rows_of delta.now * (a * b) * (a * b)) }
    ensures few { IfOk result (λ merged.
        (a b : ℕ) → A.within left.now.look.now a → B.within right.now.look.now b
        → length left.now.tree.now ≤ 64 → length right.now.tree.now ≤ 64
        → length (set.items merged.over) ≤ 129 * (rows_of delta.now * (a * b))) }
{
    let sides = sides_of(alloc, left.look.columns(), right.look.columns())?;
    let merges = merge_parts(alloc, &sides, left, right, delta, looked)?;
    let suspects = suspects(alloc, &sides, left.look, &merges.right, delta, looked)?;
    let tested = tested(alloc, &suspects, &merges.left, &merges.left_rows)?;
    let over = over_pairs(
        alloc,
        &tested,
        &sides,
        left.look,
        right.look,
        &merges.right,
        delta,
        looked,
    )?;
    let left_change = Delta::new(merges.left.remove, merges.left.add);
    Ok(Merged {
        sides,
        left: left_change,
        right: merges.right,
        parts: merges.right_rows,
        over,
    })
}

// What merging changes in each source, and the parts of the added rows that it is merged with.
#[derive(Drop)]
struct Merges {
    left: Change,
    right: Delta,
    left_rows: RowSet,
    right_rows: RowSet,
}

// Merges each source with its part of the added rows.
fn merge_parts<A: Look, B: Look, L: Ledger>(
    alloc: Global,
    sides: &Sides,
    left: &Source<'_, A>,
    right: &Source<'_, B>,
    delta: &Delta,
    looked: &mut Steps<L>,
) -> Result<Merges, NoMemory>
    requires can { let a = left.now.look.now in let b = right.now.look.now in
        CanEdit (A.asked a) (B.asked b) (A.relation a) (B.relation b)
        left.now.tree.now right.now.tree.now delta.now }
    requires sides { let U = (A.relation left.now.look.now).columns in
        AreSides U (B.relation right.now.look.now).columns sides.now }
    requires left { IsRelation (A.relation left.now.look.now) }
    requires right { IsRelation (B.relation right.now.look.now) }
    ensures merges { let R = A.relation left.now.look.now in
        IfOk result (AreMerges R (B.relation right.now.look.now)
        left.now.tree.now right.now.tree.now delta.now) }
    ensures looks { (a b : ℕ) → A.within left.now.look.now a → B.within right.now.look.now b
        → 1 ≤ a → 1 ≤ b → length left.now.tree.now ≤ 64 → length right.now.tree.now ≤ 64
        → looked.new ≤ looked.old + 130 * (rows_of delta.now * (a * b)) }
{
    let right_rows = delta.add().project(alloc, &sides.right)?;
    let stay = exchanges(delta, &sides.right);
    let change = merge_known(alloc, right, &right_rows, stay, looked)?;
    let left_rows = delta.add().project(alloc, &sides.left)?;
    let merged = merge_change(alloc, left, &left_rows, looked)?;
    let right_change = Delta::new(change.remove, change.add);
    Ok(Merges {
        left: merged,
        right: right_change,
        left_rows,
        right_rows,
    })
}

// Whether the edit exchanges one row for another that agrees with it on the columns.
fn exchanges(delta: &Delta, cols: &Names) -> bool
    ensures { result ≡ true → AreExchanged cols.now delta.now }
{
    match (only_row(delta.remove()), only_row(delta.add())) {
        (Some(gone), Some(row)) => gone.agree_on(row, cols),
        _ => false,
    }
}

// The row of a set that has one row alone.
fn only_row(rows: &RowSet) -> Option<&Row>
    ensures { IfSome result (λ row. set.items rows.now ≡ row.now ∷ []) }
{
    match rows.rows() {
        [row] => Some(row),
        _ => None,
    }
}

// The left rows that may have to go: the parts of removed rows, and those that agree with a new
// right row.
fn suspects<A: Look, L: Ledger>(
    alloc: Global,
    sides: &Sides,
    left: &A,
    change: &Delta,
    delta: &Delta,
    looked: &mut Steps<L>,
) -> Result<RowSet, NoMemory>
    requires some { length (set.items sides.now.shared) ≢ 0 }
    requires asked { Contains (A.asked left.now) sides.now.shared }
    requires have { (row : _) → set.contains change.now.add row ≡ true
        → (c : _) → set.contains sides.now.shared c ≡ true → is_some (at row c) ≡ true }
    ensures suspects { let S = sides.now.shared in let M = (A.relation left.now).rows in
        IfOk result (λ rows. rows ≡ suspects_of S sides.now.left M delta.now change.now.add) }
    ensures looks { (n : ℕ) → A.within left.now n → looked.new
        ≤ looked.old + n * length (set.items change.now.add) }
{
    let parts = delta.remove().project(alloc, &sides.left)?;
    if change.add().rows().is_empty() {
        return Ok(parts);
    }
    let near = find_each(alloc, &sides.shared, change.add(), left, looked)?;
    parts.union(alloc, &near)
}

// The suspects that the merge leaves, and the rows that it adds beside the parts of added rows.
fn tested(
    alloc: Global,
    suspects: &RowSet,
    merged: &Change,
    parts: &RowSet,
) -> Result<RowSet, NoMemory>
    ensures { IfOk result (λ tested. tested
        ≡ union (minus suspects.now merged.now.remove) (minus merged.now.add parts.now)) }
{
    let left = suspects.minus(alloc, &merged.remove)?;
    let revised = merged.add.minus(alloc, parts)?;
    left.union(alloc, &revised)
}

//! Rows that are joined and that the view lacks.
ghost use Rattle.std.specs.Prelude.{◌≡◌, ◌≢◌, ◌≤◌, ◌+◌, ◌*◌, ℕ, true, length, not, Contains, IfOk};
ghost use Rattle.plain_values.specs.Part.{restrict};
ghost use Rattle.plain_values.specs.SortedSet as set;
ghost use Rattle.lens_specs.specs.Columns.{Fits, names};
ghost use Rattle.lens_specs.specs.Delta.{new_view};
ghost use Rattle.lens_specs.specs.Nodes.{join_get};
ghost use Rattle.lens_specs.specs.Relation.{IsRelation, minus, those};
ghost use Rattle.join_delta.specs.Joined.{AreKeyed, edited, shared_names};
ghost use Rattle.join_delta.specs.Pairs.{AreSides, has_parts, shows};

use crate::sides::Sides;
use lens_values::{NoMemory, Row};
use row_sets::RowSet;
use signed_delta::{Delta, Look, find_each};
use std::alloc::Global;
use std::sync::ledger::Ledger;
use step_counter::Steps;

/// Joins these rows, which have the left columns, with the right source as it is after its change,
/// and returns the joined rows that the edited view lacks.
pub fn over_pairs<A: Look, B: Look, L: Ledger>(
    alloc: Global,
    rows: &RowSet,
    sides: &Sides,
    left: &A,
    right: &B,
    change: &Delta,
    delta: &Delta,
    looked: &mut Steps<L>,
) -> Result<RowSet, NoMemory>
    requires left { IsRelation (A.relation left.now) }
    requires right { IsRelation (B.relation right.now) }
    requires sides { let U = (A.relation left.now).columns in
        AreSides U (B.relation right.now).columns sides.now }
    requires shared { let U = (A.relation left.now).columns in
        length (set.items (shared_names U (B.relation right.now).columns)) ≢ 0 }
    requires asked { let U = (A.relation left.now).columns in
        Contains (B.asked right.now) (shared_names U (B.relation right.now).columns) }
    requires rows { (row : _) → set.contains rows.now row ≡ true
        → Fits (A.relation left.now).columns row }
    requires change { (row : _) → set.contains change.now.add row ≡ true
        → Fits (B.relation right.now).columns row }
    ensures over { let R = A.relation left.now in let Q = B.relation right.now in
        let new_right = new_view Q.rows change.now in
        let pairs = join_get (names R.columns) (names Q.columns) rows.now new_right in
        IfOk result (λ over. over ≡ minus pairs (edited R Q delta.now)) }
    ensures looks { (a b : ℕ) → A.within left.now a → B.within right.now b
        → let N = (B.relation right.now).rows in AreKeyed sides.now.shared (new_view N change.now)
        → looked.new ≤ looked.old + (a + 2 * b) * length (set.items rows.now) }
    ensures few { let N = (B.relation right.now).rows in
        IfOk result (λ over. AreKeyed sides.now.shared (new_view N change.now)
        → length (set.items over) ≤ length (set.items rows.now)) }
{
    if rows.rows().is_empty() {
        return Ok(RowSet::empty(alloc));
    }
    let found = find_each(alloc, &sides.shared, rows, right, looked)?;
    let near = changed(alloc, found, change)?;
    let pairs = rows.join(alloc, &near, &sides.shared)?;
    lacking(alloc, &pairs, sides, left, right, delta, looked)
}

// The rows after the change. Mostly nothing is changed, and then nothing is copied.
fn changed(alloc: Global, rows: RowSet, change: &Delta) -> Result<RowSet, NoMemory>
    ensures { IfOk result (λ after. after ≡ new_view rows change.now) }
{
    if change.is_empty() {
        return Ok(rows);
    }
    change.apply_to(alloc, &rows)
}

// Those of the rows that the edited view lacks.
fn lacking<A: Look, B: Look, L: Ledger>(
    alloc: Global,
    rows: &RowSet,
    sides: &Sides,
    left: &A,
    right: &B,
    delta: &Delta,
    looked: &mut Steps<L>,
) -> Result<RowSet, NoMemory>
    requires left { (row : _) → set.contains rows.now row ≡ true
        → Fits (A.relation left.now).columns (restrict sides.now.left row) }
    requires right { (row : _) → set.contains rows.now row ≡ true
        → Fits (B.relation right.now).columns (restrict sides.now.right row) }
    ensures rows { let M = (A.relation left.now).rows in let N = (B.relation right.now).rows in
        let shown = shows sides.now.left sides.now.right M N delta.now in
        IfOk result (λ some. some ≡ those (λ row. not (shown row)) rows.now) }
    ensures looks { (a b : ℕ) → A.within left.now a → B.within right.now b
        → looked.new ≤ looked.old + (a + b) * length (set.items rows.now) }
{
    let mut some = Vec::new(alloc);
    for row in rows.rows() {
        if !is_shown(alloc, row, sides, left, right, delta, looked)? {
            some.push(row.copy(alloc)?)?;
        }
    }
    Ok(RowSet::from_rising(some))
}

// Whether the edited view has the row. The sources are asked only where the edit does not say.
fn is_shown<A: Look, B: Look, L: Ledger>(
    alloc: Global,
    row: &Row,
    sides: &Sides,
    left: &A,
    right: &B,
    delta: &Delta,
    looked: &mut Steps<L>,
) -> Result<bool, NoMemory>
    requires left { Fits (A.relation left.now).columns (restrict sides.now.left row.now) }
    requires right { Fits (B.relation right.now).columns (restrict sides.now.right row.now) }
    ensures shown { let M = (A.relation left.now).rows in let N = (B.relation right.now).rows in
        let S = sides.now in
        IfOk result (λ shown. shown ≡ shows S.left S.right M N delta.now row.now) }
    ensures looks { (a b : ℕ) → A.within left.now a → B.within right.now b
        → looked.new ≤ looked.old + (a + b) }
{
    if delta.add().has(row) {
        return Ok(true);
    }
    if delta.remove().has(row) {
        return Ok(false);
    }
    is_joined(alloc, row, sides, left, right, looked)
}

// Whether the parts of the row are in the sources.
fn is_joined<A: Look, B: Look, L: Ledger>(
    alloc: Global,
    row: &Row,
    sides: &Sides,
    left: &A,
    right: &B,
    looked: &mut Steps<L>,
) -> Result<bool, NoMemory>
    requires left { Fits (A.relation left.now).columns (restrict sides.now.left row.now) }
    requires right { Fits (B.relation right.now).columns (restrict sides.now.right row.now) }
    ensures there { let M = (A.relation left.now).rows in let N = (B.relation right.now).rows in
        IfOk result (λ there. there ≡ has_parts sides.now.left sides.now.right M N row.now) }
    ensures looks { (a b : ℕ) → A.within left.now a → B.within right.now b
        → looked.new ≤ looked.old + (a + b) }
{
    let left_part = row.project(alloc, &sides.left)?;
    if !left.has(alloc, &left_part, looked)? {
        return Ok(false);
    }
    let right_part = row.project(alloc, &sides.right)?;
    let there = right.has(alloc, &right_part, looked)?;
    Ok(there)
}

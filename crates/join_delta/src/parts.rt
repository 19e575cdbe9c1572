//! The parts of rows that are joined too much, by the side on which the join deletes.
ghost use Rattle.std.specs.Prelude.{◌≡◌, ◌≢◌, ◌≤◌, ◌+◌, ◌*◌, ℕ, true, length, not, Contains, IfOk, is_some};
ghost use Rattle.plain_values.specs.Part.{restrict};
ghost use Rattle.plain_values.specs.SortedSet as set;
ghost use Rattle.lens_specs.specs.Relation.{has, project, those};
ghost use Rattle.lens_specs.specs.Rows.{at};
ghost use Rattle.join_delta.specs.Deleted.{CanAsk, free_of, left_deleted, right_deleted};
ghost use Rattle.join_delta.specs.Shown as spec;

use crate::sources::Merged;
use lens_values::{JoinKind, Names, NoMemory, Row};
use row_sets::RowSet;
use signed_delta::Look;
use std::alloc::Global;
use std::sync::ledger::Ledger;
use step_counter::Steps;

/// The right parts that the join deletes. If it deletes on the right, these are the right parts of
/// the rows that are joined too much, but not those that the edited view has.
pub fn right_parts<A: Look, L: Ledger>(
    alloc: Global,
    kind: JoinKind,
    merged: &Merged,
    left: &A,
    removed: &RowSet,
    looked: &mut Steps<L>,
) -> Result<RowSet, NoMemory>
    requires { CanAsk (A.asked left.now) merged.now }
    ensures parts { let M = (A.relation left.now).rows in
        IfOk result (λ parts. parts ≡ right_deleted kind (free_of merged.now M removed.now)) }
    ensures looks { (n : ℕ) → A.within left.now n → looked.new
        ≤ looked.old + n * length (set.items merged.now.over) }
{
    match kind {
        JoinKind::DeleteLeft => Ok(RowSet::empty(alloc)),
        JoinKind::DeleteRight => free_parts(alloc, merged, left, removed, looked),
        JoinKind::DeleteBoth => free_parts(alloc, merged, left, removed, looked),
    }
}

// The right parts of the rows that are joined too much, those that the edited view lacks.
//
// The view has the parts of the added rows. Of the others it has those that stood in the right
// source and that join a left row to a row that is not removed.
fn free_parts<A: Look, L: Ledger>(
    alloc: Global,
    merged: &Merged,
    left: &A,
    removed: &RowSet,
    looked: &mut Steps<L>,
) -> Result<RowSet, NoMemory>
    requires { CanAsk (A.asked left.now) merged.now }
    ensures free { let M = (A.relation left.now).rows in
        IfOk result (λ free. free ≡ free_of merged.now M removed.now) }
    ensures looks { (n : ℕ) → A.within left.now n → looked.new
        ≤ looked.old + n * length (set.items merged.now.over) }
{
    let parts = merged.over.project(alloc, &merged.sides.right)?;
    let others = parts.minus(alloc, &merged.parts)?;
    let old = others.minus(alloc, merged.right.add())?;
    let shown = shown_parts(alloc, &merged.sides.shared, &old, left, removed, looked)?;
    others.minus(alloc, &shown)
}

/// The left parts that are deleted beside these right parts: where the join deletes on the right
/// alone, those of the rows whose right part is kept, and else all of them.
pub fn left_parts(
    alloc: Global,
    kind: JoinKind,
    merged: &Merged,
    gone: &RowSet,
) -> Result<RowSet, NoMemory>
    ensures { let S = merged.now.sides in
        IfOk result (λ parts. parts ≡ left_deleted kind S.left S.right merged.now.over gone.now) }
{
    match kind {
        JoinKind::DeleteRight => kept_parts(alloc, merged, gone),
        JoinKind::DeleteLeft => merged.over.project(alloc, &merged.sides.left),
        JoinKind::DeleteBoth => merged.over.project(alloc, &merged.sides.left),
    }
}

// Those of the right parts that the view still shows.
fn shown_parts<A: Look, L: Ledger>(
    alloc: Global,
    shared: &Names,
    parts: &RowSet,
    left: &A,
    removed: &RowSet,
    looked: &mut Steps<L>,
) -> Result<RowSet, NoMemory>
    requires some { length (set.items shared.now) ≢ 0 }
    requires asked { Contains (A.asked left.now) shared.now }
    requires have { (row : _) → has parts.now row ≡ true → (c : _)
        → set.contains shared.now c ≡ true → is_some (at row c) ≡ true }
    ensures shown { let R = (A.relation left.now).rows in IfOk result (λ shown. shown
        ≡ those (spec.is_shown shared.now R removed.now) parts.now) }
    ensures looks { (n : ℕ) → A.within left.now n → looked.new
        ≤ looked.old + n * length (set.items parts.now) }
{
    let mut shown = Vec::new(alloc);
    for part in parts.rows() {
        if is_shown(alloc, shared, part, left, removed, looked)? {
            shown.push(part.copy(alloc)?)?;
        }
    }
    Ok(RowSet::from_rising(shown))
}

// Whether a left row joins the right part in a row that is not removed. The first one is enough.
fn is_shown<A: Look, L: Ledger>(
    alloc: Global,
    shared: &Names,
    part: &Row,
    left: &A,
    removed: &RowSet,
    looked: &mut Steps<L>,
) -> Result<bool, NoMemory>
    requires some { length (set.items shared.now) ≢ 0 }
    requires asked { Contains (A.asked left.now) shared.now }
    requires have { (c : _) → set.contains shared.now c ≡ true → is_some (at part.now c) ≡ true }
    ensures shown { let R = (A.relation left.now).rows in IfOk result (λ shown. shown
        ≡ spec.is_shown shared.now R removed.now part.now) }
    ensures looks { (n : ℕ) → A.within left.now n → looked.new ≤ looked.old + n }
{
    let near = left.find(alloc, shared, part, looked)?;
    one_stays(alloc, near.rows(), part, removed)
}

// Whether one of the rows, pasted with the right part, is not removed.
fn one_stays(alloc: Global, rows: &[Row], part: &Row, removed: &RowSet) -> Result<bool, NoMemory>
    ensures { IfOk result (λ stays. stays ≡ spec.one_stays removed.now part.now rows.now) }
{
    // A removed row has the columns of each pair.
    let like = match removed.rows().first() {
        Some(gone) => gone.names(),
        None => part.names(),
    };
    for row in rows {
        let pair = row.paste_like(alloc, part, like)?;
        if !removed.has(&pair) {
            return Ok(true);
        }
    }
    Ok(false)
}

// The left parts of those rows joined too much whose right part is not in `free`.
fn kept_parts(alloc: Global, merged: &Merged, free: &RowSet) -> Result<RowSet, NoMemory>
    ensures { let C = merged.now.sides.right in
        let pairs = those (λ row. not (has free.now (restrict C row))) merged.now.over in
        IfOk result (λ kept. kept ≡ project merged.now.sides.left pairs) }
{
    let pairs = with_other_parts(alloc, &merged.over, &merged.sides.right, free)?;
    pairs.project(alloc, &merged.sides.left)
}

// Those of the rows whose part in the columns is not among `parts`.
fn with_other_parts(
    alloc: Global,
    rows: &RowSet,
    columns: &Names,
    parts: &RowSet,
) -> Result<RowSet, NoMemory>
    ensures { IfOk result (λ some. some
        ≡ those (λ row. not (has parts.now (restrict columns.now row))) rows.now) }
{
    let mut some = Vec::new(alloc);
    for row in rows.rows() {
        let part = row.project(alloc, columns)?;
        if !parts.has(&part) {
            some.push(row.copy(alloc)?)?;
        }
    }
    Ok(RowSet::from_rising(some))
}

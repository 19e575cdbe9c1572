//! The rows that revision by new rows may change, found by key.
ghost use Rattle.std.specs.Prelude.{◌≡◌, ◌≢◌, ◌≤◌, ◌+◌, ◌*◌, [], ℕ, true, length, Contains, IfOk, is_some};
ghost use Rattle.std.specs.List.{list_any};
ghost use Rattle.plain_values.specs.SortedSet as set;
ghost use Rattle.lens_specs.specs.Columns.{Fits, names};
ghost use Rattle.lens_specs.specs.Dependencies.{AllEdges};
ghost use Rattle.lens_specs.specs.Names.{Within};
ghost use Rattle.lens_specs.specs.Rows.{at};
ghost use Rattle.revision.specs.Near.{CanRevise, HasChanged, is_like, near_along, near_from, near_work};

use crate::unlike::unlike_rows;
use fd_tree::{Edge, Tree};
use lens_values::{NoMemory, Row, append};
use row_sets::RowSet;
use signed_delta::{Look, find_each};
use std::alloc::Global;
use std::sync::ledger::Ledger;
use step_counter::Steps;

// So many new rows are looked up one by one. Many may share what they have on the left side of an
// edge, which is then better asked for once.
const FEW: usize = 8;

/// Rows of the look's relation, among them each that revision by the new rows changes.
pub fn near_rows<K: Look, L: Ledger>(
    alloc: Global,
    tree: &Tree,
    look: &K,
    plus: &RowSet,
    looked: &mut Steps<L>,
) -> Result<RowSet, NoMemory>
    requires { CanRevise (K.asked look.now) (K.relation look.now) tree.now plus.now }
    ensures near { IfOk result (HasChanged tree.now (K.relation look.now).rows plus.now) }
    ensures looks { (n : ℕ) → K.within look.now n
        → looked.new ≤ looked.old + near_work tree.now plus.now n }
    ensures few { IfOk result (λ near. (n : ℕ) → K.within look.now n
        → length (set.items near) ≤ near_work tree.now plus.now n) }
{
    if plus.rows().len() <= FEW {
        near_by_rows(alloc, tree, look, plus, looked)
    } else {
        near_by_edges(alloc, tree, look, plus, looked)
    }
}

// What `near_rows` returns, found row by row: an edge is not asked for a row by which it can change
// nothing.
fn near_by_rows<K: Look, L: Ledger>(
    alloc: Global,
    tree: &Tree,
    look: &K,
    plus: &RowSet,
    looked: &mut Steps<L>,
) -> Result<RowSet, NoMemory>
    requires { CanRevise (K.asked look.now) (K.relation look.now) tree.now plus.now }
    ensures near { IfOk result (HasChanged tree.now (K.relation look.now).rows plus.now) }
    ensures looks { (n : ℕ) → K.within look.now n
        → looked.new ≤ looked.old + near_work tree.now plus.now n }
    ensures few { IfOk result (λ near. (n : ℕ) → K.within look.now n
        → length (set.items near) ≤ near_work tree.now plus.now n) }
{
    let mut near = Vec::new(alloc);
    for row in plus.rows() {
        let some = near_row(alloc, tree, look, row, looked)?;
        append(&mut near, alloc, &some)?;
    }
    let union = RowSet::new(alloc, near)?;
    Ok(union)
}

// What `near_rows` returns, found edge by edge: rows that agree on the left side of an edge ask for
// it once, and rows by which the edge can change nothing do not ask.
fn near_by_edges<K: Look, L: Ledger>(
    alloc: Global,
    tree: &Tree,
    look: &K,
    plus: &RowSet,
    looked: &mut Steps<L>,
) -> Result<RowSet, NoMemory>
    requires { CanRevise (K.asked look.now) (K.relation look.now) tree.now plus.now }
    ensures near { IfOk result (HasChanged tree.now (K.relation look.now).rows plus.now) }
    ensures looks { (n : ℕ) → K.within look.now n
        → looked.new ≤ looked.old + near_work tree.now plus.now n }
    ensures few { IfOk result (λ near. (n : ℕ) → K.within look.now n
        → length (set.items near) ≤ near_work tree.now plus.now n) }
{
    let mut near = RowSet::empty(alloc);
    for edge in tree.edges() {
        let unlike = unlike_rows(alloc, edge, &near, plus)?;
        let some = find_each(alloc, &edge.left, &unlike, look, looked)?;
        near = near.union(alloc, &some)?;
    }
    Ok(near)
}

// The rows of the look's relation that agree with the new row on the left side of an edge. Most
// edges need no search: where a row found before agrees with the new row on both sides, so do all
// that agree with it on the left side, as the relation meets the tree, and the edge changes none.
fn near_row<K: Look, L: Ledger>(
    alloc: Global,
    tree: &Tree,
    look: &K,
    row: &Row,
    looked: &mut Steps<L>,
) -> Result<Vec<Row>, NoMemory>
    requires asked { AllEdges (λ e. Contains (K.asked look.now) e.left) tree.now }
    requires columns { AllEdges (λ e.
        Within e.left (names (K.relation look.now).columns)) tree.now }
    requires fit { Fits (K.relation look.now).columns row.now }
    ensures near { IfOk result (λ near.
        near.items ≡ near_from tree.now (K.relation look.now).rows row.now []) }
    ensures looks { (n : ℕ) → K.within look.now n
        → looked.new ≤ looked.old + n * length tree.now }
    ensures few { IfOk result (λ near. (n : ℕ) → K.within look.now n
        → length near.items ≤ n * length tree.now) }
{
    let mut near = Vec::new(alloc);
    for edge in tree.edges() {
        near = with_near(alloc, edge, look, row, near, looked)?;
    }
    Ok(near)
}

// The rows, and, if none of them agrees with the new row on both sides of the edge, also those of
// the look's relation that agree with the new row on the left side.
fn with_near<K: Look, L: Ledger>(
    alloc: Global,
    edge: &Edge,
    look: &K,
    row: &Row,
    rows: Vec<Row>,
    looked: &mut Steps<L>,
) -> Result<Vec<Row>, NoMemory>
    requires some { length (set.items edge.now.left) ≢ 0 }
    requires asked { Contains (K.asked look.now) edge.now.left }
    requires have { (c : _) → set.contains edge.now.left c ≡ true → is_some (at row.now c) ≡ true }
    ensures near { IfOk result (λ near.
        near.items ≡ near_along edge.now (K.relation look.now).rows row.now rows.items) }
    ensures looks { (n : ℕ) → K.within look.now n → looked.new ≤ looked.old + n }
    ensures few { IfOk result (λ near. (n : ℕ) → K.within look.now n
        → length near.items ≤ length rows.items + n) }
{
    if has_like(edge, row, &rows) {
        return Ok(rows);
    }
    let found = look.find(alloc, &edge.left, row, looked)?;
    let mut near = rows;
    append(&mut near, alloc, found.rows())?;
    Ok(near)
}

// Whether one of the rows agrees with this one on both sides of the edge.
fn has_like(edge: &Edge, row: &Row, rows: &[Row]) -> bool
    ensures { result ≡ list_any (is_like edge.now row.now) rows.now }
{
    rows.iter().any(|other| edge.alike(other, row))
}

//! The check of an edit against the sort of its view.
ghost use Rattle.std.specs.Prelude.{◌≡◌, ◌≢◌, ◌≤◌, ◌+◌, ◌*◌, ◌&&◌, ◌||◌, ℕ, [], ◌∷◌, find, length, not};
ghost use Rattle.std.specs.Prelude.{true, Contains, IfOk, IfSome, is_some, option_copied};
ghost use Rattle.std.specs.List.{list_all, list_any};
ghost use Rattle.plain_values.specs.Part.{restrict};
ghost use Rattle.plain_values.specs.SortedSet as set;
ghost use Rattle.lens_specs.specs.Columns.{Fits, names};
ghost use Rattle.lens_specs.specs.Delta.{AppliesTo, new_view};
ghost use Rattle.lens_specs.specs.Dependencies.{AllEdges, Meets, MeetsTree};
ghost use Rattle.lens_specs.specs.Names.{Within};
ghost use Rattle.lens_specs.specs.Predicate.{holds};
ghost use Rattle.lens_specs.specs.Relation.{has, minus, project, union};
ghost use Rattle.lens_specs.specs.Rows.{agree, at};
ghost use Rattle.lens_specs.specs.Sort.{IsOfSort, first_pair, violating_row};
ghost use Rattle.lens_laws.specs.Checks.{edit_clash, near};
ghost use Rattle.fd_tree.specs.ClashView.{shown_clash};
ghost use Rattle.edit_check.specs.Checked.{IsChecked};
ghost use Rattle.edit_check.specs.Replaced.{AreReplaced};

use crate::edit_fault::EditFault;
use fd_tree::{Clash, Edge, Tree, first_clash};
use lens_pred::Pred;
use lens_types::Sort;
use lens_values::{Names, NoMemory, Row};
use row_sets::RowSet;
use signed_delta::{Delta, Look, find_each};
use std::alloc::Global;
use std::slice;
use std::sync::ledger::Ledger;
use step_counter::Steps;

/// Whether the view is of its sort after the edit. `OffPredicate` has the least row that the
/// predicate refuses; `Clash`, where it refuses none, the first edge that the new view violates,
/// with the least pair of its rows.
pub fn check_edit<K: Look, L: Ledger>(
    alloc: Global,
    sort: &Sort,
    view: &K,
    delta: &Delta,
    looked: &mut Steps<L>,
) -> Result<(), EditFault>
    requires sort { IsOfSort (K.relation view.now) sort.now }
    requires asked { AllEdges (λ e. Contains (K.asked view.now) e.left) sort.now.tree }
    requires applies { AppliesTo delta.now (K.relation view.now) }
    ensures checked { IsChecked sort.now (new_view (K.relation view.now).rows delta.now) result }
    ensures looks { (n : ℕ) → K.within view.now n
        → looked.new
        ≤ looked.old + n * length (set.items delta.now.add) * length sort.now.tree }
{
    if let Some(row) = least_refused(sort.pred(), delta.add()) {
        let row = row.copy(alloc)?;
        return Err(EditFault::OffPredicate { row });
    }
    match violating_pair_of_edit(alloc, sort.tree(), view, delta, looked)? {
        Some(clash) => Err(EditFault::Clash { clash }),
        None => Ok(()),
    }
}

// The least row that the predicate refuses.
fn least_refused<'a>(pred: &Pred, rows: &'a RowSet) -> Option<&'a Row>
    ensures { option_copied result ≡ violating_row pred.now rows.now }
{
    first_refused(pred, rows.rows())
}

// The first row that the predicate refuses.
fn first_refused<'a>(pred: &Pred, rows: &'a [Row]) -> Option<&'a Row>
    ensures { option_copied result ≡ find (λ row. not (holds pred.now row)) rows.now }
{
    rows.iter().find(|row| !pred.holds(row))
}

// The first edge that the added rows and the rows near them do not satisfy, with the first two rows
// that violate it.
fn violating_pair_of_edit<K: Look, L: Ledger>(
    alloc: Global,
    tree: &Tree,
    view: &K,
    delta: &Delta,
    looked: &mut Steps<L>,
) -> Result<Option<Clash>, NoMemory>
    requires asked { AllEdges (λ e. Contains (K.asked view.now) e.left) tree.now }
    requires columns { AllEdges (λ e. Within e.left (names (K.relation view.now).columns))
        tree.now }
    requires fit { (row : _) → set.contains delta.now.add row ≡ true
        → Fits (K.relation view.now).columns row }
    requires removed { (row : _) → set.contains delta.now.remove row ≡ true
        → has (K.relation view.now).rows row ≡ true }
    requires meets { MeetsTree (K.relation view.now).rows tree.now }
    ensures clash { IfOk result (λ found.
        found ≡ shown_clash (edit_clash tree.now (K.relation view.now).rows delta.now)) }
    ensures looks { (n : ℕ) → K.within view.now n
        → looked.new ≤ looked.old + n * length (set.items delta.now.add) * length tree.now }
{
    for (place, edge) in tree.edges().iter().enumerate() {
        let pair = pair_of_edit(alloc, edge, view, delta, looked)?;
        if let Some((first, second)) = pair {
            return Ok(Some(Clash {
                edge: place,
                first,
                second,
            }));
        }
    }
    Ok(None)
}

// The first two rows that violate the edge, of the added rows and the rows near them.
fn pair_of_edit<K: Look, L: Ledger>(
    alloc: Global,
    edge: &Edge,
    view: &K,
    delta: &Delta,
    looked: &mut Steps<L>,
) -> Result<Option<(Row, Row)>, NoMemory>
    requires some { length (set.items edge.now.left) ≢ 0 }
    requires asked { Contains (K.asked view.now) edge.now.left }
    requires have { (row : _) → set.contains delta.now.add row ≡ true
        → (c : _) → set.contains edge.now.left c ≡ true → is_some (at row c) ≡ true }
    requires removed { (row : _) → set.contains delta.now.remove row ≡ true
        → has (K.relation view.now).rows row ≡ true }
    requires meets { Meets (K.relation view.now).rows edge.now.left edge.now.right }
    ensures pair { IfOk result (λ pair.
        pair
        ≡ first_pair edge.now (set.items (near edge.now (K.relation view.now).rows delta.now))) }
    ensures looks { (n : ℕ) → K.within view.now n
        → looked.new ≤ looked.old + n * length (set.items delta.now.add) }
{
    if all_replaced(alloc, edge, delta)? {
        return Ok(None);
    }
    let found = find_each(alloc, &edge.left, delta.add(), view, looked)?;
    match only_row(delta.add()) {
        // Mostly they agree, and no set is built.
        Some(row) if kept_agree(edge, row, &found, delta.remove()) => Ok(None),
        _ => pair_near(alloc, edge, delta, &found),
    }
}

// Whether each added row agrees with a removed one on both sides of the edge. The view satisfied
// the edge with the removed rows, so the added rows bring no violating pair.
fn all_replaced(alloc: Global, edge: &Edge, delta: &Delta) -> Result<bool, NoMemory>
    ensures { IfOk result (λ all. all ≡ true → AreReplaced edge.now delta.now) }
{
    match only_row(delta.add()) {
        Some(row) => Ok(replaces_alike(edge, row, delta.remove())),
        None => all_replace_alike(alloc, edge, delta),
    }
}

// The row of a set that has one row alone.
fn only_row(rows: &RowSet) -> Option<&Row>
    ensures { IfSome result (λ row. set.items rows.now ≡ row.now ∷ []) }
{
    match rows.rows() {
        [row] => Some(row),
        _ => None,
    }
}

// Whether one of the removed rows agrees with the row on both sides of the edge.
fn replaces_alike(edge: &Edge, row: &Row, removed: &RowSet) -> bool
    ensures { result
        ≡ list_any (λ other.
        agree edge.now.left row.now other && agree edge.now.right row.now other)
        (set.items removed.now) }
{
    removed.rows().iter().any(|other| edge.alike(row, other))
}

// Whether each found row that is not removed agrees with the row on the right side of the edge.
fn kept_agree(edge: &Edge, row: &Row, found: &RowSet, removed: &RowSet) -> bool
    ensures { result
        ≡ list_all (λ other.
        agree edge.now.right row.now other || set.contains removed.now other)
        (set.items found.now) }
{
    found.rows().iter().all(|other| row.agree_on(other, &edge.right) || removed.has(other))
}

// What `all_replaced` tests, for any number of added rows.
fn all_replace_alike(alloc: Global, edge: &Edge, delta: &Delta) -> Result<bool, NoMemory>
    ensures { let C = set.union edge.now.left edge.now.right in
        IfOk result (λ all. all
        ≡ list_all (λ row. has (project C delta.now.remove) (restrict C row))
        (set.items delta.now.add)) }
{
    let sides = edge.left.union(alloc, &edge.right)?;
    let removed = delta.remove().project(alloc, &sides)?;
    all_parts_in(alloc, delta.add().rows(), &sides, &removed)
}

// Whether each row's part in the columns is among these.
fn all_parts_in(alloc: Global, rows: &[Row], cols: &Names, parts: &RowSet) -> Result<bool, NoMemory>
    ensures { IfOk result (λ all.
        all ≡ list_all (λ row. has parts.now (restrict cols.now row)) rows.now) }
{
    for row in rows {
        let part = row.project(alloc, cols)?;
        if !parts.has(&part) {
            return Ok(false);
        }
    }
    Ok(true)
}

// The first two rows that violate the edge, of the added rows and the found ones that are not
// removed.
fn pair_near(
    alloc: Global,
    edge: &Edge,
    delta: &Delta,
    found: &RowSet,
) -> Result<Option<(Row, Row)>, NoMemory>
    ensures { IfOk result (λ pair.
        pair
        ≡ first_pair edge.now
        (set.items (union delta.now.add (minus found.now delta.now.remove)))) }
{
    let kept = found.minus(alloc, delta.remove())?;
    let rows = delta.add().union(alloc, &kept)?;
    first_pair(alloc, edge, &rows)
}

// The first two of the rows that violate the edge.
fn first_pair(alloc: Global, edge: &Edge, rows: &RowSet) -> Result<Option<(Row, Row)>, NoMemory>
    ensures { IfOk result (λ pair. pair ≡ first_pair edge.now (set.items rows.now)) }
{
    match first_clash(alloc, slice::from_ref(edge), rows)? {
        Some(clash) => Ok(Some((clash.first, clash.second))),
        None => Ok(None),
    }
}

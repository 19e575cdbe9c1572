//! Changes of a view, carried down to its tables.
ghost use Rattle.std.specs.Prelude.{◌≡◌, ◌<◌, ◌+◌, ◌*◌, ◌≤◌, ℕ, IfOk, Ok, length, slice_index_or};
ghost use Rattle.request_text.specs.Answers.{edit_refusal_view, list_view};
ghost use Rattle.server_specs.specs.EditRefusal as refusals;
ghost use Rattle.server_specs.specs.Changing as spec;
ghost use Rattle.lens_specs.specs.Delta.{AppliesTo, new_view};
ghost use Rattle.lens_specs.specs.Lens.{get, sort_of};
ghost use Rattle.lens_laws.specs.Finds.{AllFit};
ghost use Rattle.lens_laws.specs.Work.{count_of, rows_of, size, work};
ghost use Rattle.lens_probe.specs.Reading.{rows_under};
ghost use Rattle.lens_probe.specs.Viewed.{FindsAtMost, IsViewed, shown};
ghost use Rattle.lens_chain.specs.Edits.{edited, over};
ghost use Rattle.opened_view.specs.Counters.{RisesBy};
ghost use Rattle.opened_view.specs.Seen.{lens_of, seen, tables_under};
ghost use Rattle.view_changes.specs.Puts.{IsFresh, IsPut, IsSet, IsTested, is_outside};
ghost use Rattle.view_changes.specs.Sizes.{changed_by, differs_by, sent_by};

use crate::refusal::Refusal;
use edit_check::{EditFault, check_edit};
use fd_tree::{Clash, Edge};
use lens_chain::put_delta;
use lens_probe::View;
use lens_values::NoMemory;
use opened_view::Opened;
use request_text::{EditRefusal, JsonRows, RowList, RowsFault, rows_of};
use row_sets::RowSet;
use signed_delta::{Delta, TableDelta, of_touched};
use std::alloc::Global;
use std::sync::ledger::Ledger;
use step_counter::Steps;

/// What changes in the tables when the rows that are sent become all rows of the view, or the
/// first refusal: a bad row, the version on which it rests, a row that the predicate refuses, two
/// rows that clash. The tables are walked.
pub fn put<L: Ledger, M: Ledger>(
    alloc: Global,
    opened: &Opened<'_>,
    rows: JsonRows<'_>,
    on: Option<u64>,
    walked: &mut Steps<L>,
    looked: &mut Steps<M>,
) -> Result<Vec<TableDelta>, Refusal>
    ensures put { let L = lens_of opened.now in IsPut L (tables_under opened.now) result
        (spec.asked_view (seen opened.now) L (spec.whole rows.entry) on) }
    ensures walked { RisesBy (rows_under (lens_of opened.now) (tables_under opened.now))
        walked.old walked.new }
    ensures looks { let L = lens_of opened.now in (w : ℕ) → FindsAtMost opened.now.view w
        → looked.new ≤ looked.old + 2 * work L (changed_by (tables_under opened.now) L rows.entry) w }
{
    let rows = set_in(alloc, opened, RowList::Rows, rows)?;
    put_rows(alloc, opened, &rows, on, walked, looked)
}

/// What changes in the tables if these rows, which fit, become all rows of the view, or the first
/// reason to reject them: the version on which the put is based, a row that the predicate rejects,
/// two rows that violate a dependency. The tables are scanned.
pub fn put_rows<L: Ledger, M: Ledger>(
    alloc: Global,
    opened: &Opened<'_>,
    rows: &RowSet,
    on: Option<u64>,
    walked: &mut Steps<L>,
    looked: &mut Steps<M>,
) -> Result<Vec<TableDelta>, Refusal>
    requires { AllFit (sort_of (lens_of opened.now)).columns rows.now }
    ensures put { let L = lens_of opened.now in IsPut L (tables_under opened.now) result
        (spec.tested (seen opened.now) L on (Ok rows.now)) }
    ensures walked { RisesBy (rows_under (lens_of opened.now) (tables_under opened.now))
        walked.old walked.new }
    ensures looks { let L = lens_of opened.now in (w : ℕ) → FindsAtMost opened.now.view w
        → looked.new ≤ looked.old + 2 * work L (differs_by (tables_under opened.now) L rows.now) w }
{
    not_stale(alloc, opened, on)?;
    let delta = opened.view.difference(alloc, rows, walked)?;
    carried(alloc, &opened.view, delta, looked)
}

/// What changes in the tables if rows of the view are removed and others added, or the first reason
/// to reject the edit: a bad row to remove, a bad row to add, and then the reasons of `put_rows`.
/// Rows are found by key alone.
pub fn edit<M: Ledger>(
    alloc: Global,
    opened: &Opened<'_>,
    remove: JsonRows<'_>,
    add: JsonRows<'_>,
    on: Option<u64>,
    looked: &mut Steps<M>,
) -> Result<Vec<TableDelta>, Refusal>
    ensures put { let L = lens_of opened.now in IsPut L (tables_under opened.now) result
        (spec.asked_view (seen opened.now) L (spec.edited remove.entry add.entry) on) }
    ensures looks { let L = lens_of opened.now in (w : ℕ) → FindsAtMost opened.now.view w
        → looked.new ≤ looked.old + 3 * work L (sent_by L remove.entry add.entry) w }
{
    let removed = set_in(alloc, opened, RowList::Remove, remove)?;
    let added = set_in(alloc, opened, RowList::Add, add)?;
    not_stale(alloc, opened, on)?;
    let near = opened.view.near(alloc, &removed, &added, looked)?;
    let view = opened.view.knowing(&near);
    carried_rows(alloc, &view, &removed, &added, looked)
}

/// The set of the rows that a list says, or its first bad row.
fn set_in(
    alloc: Global,
    opened: &Opened<'_>,
    list: RowList,
    rows: JsonRows<'_>,
) -> Result<RowSet, Refusal>
    ensures set { let U = (sort_of (lens_of opened.now)).columns in
        IsSet U result (spec.set_in (list_view list) U rows.entry) }
    ensures viewed { IsViewed opened.now.view }
{
    match rows_of(alloc, opened.sort().cols(), rows) {
        Ok(rows) => Ok(rows),
        Err(RowsFault::BadRow { index, col }) => Err(Refusal::Rejected {
            refusal: EditRefusal::BadRow { list, index, col },
        }),
        Err(RowsFault::NoMemory) => Err(Refusal::NoMemory),
    }
}

/// `Ok` if the change is based on no version, or on one that is not stale.
fn not_stale(alloc: Global, opened: &Opened<'_>, on: Option<u64>) -> Result<(), Refusal>
    ensures { IsFresh (seen opened.now) (lens_of opened.now) on result }
{
    let Some(on) = on else {
        return Ok(());
    };
    let changed_at = opened.changed_at(alloc)?;
    let version = opened.version;
    if is_outside(on, changed_at, version) {
        return Err(Refusal::Rejected {
            refusal: EditRefusal::Stale {
                changed_at,
                version,
            },
        });
    }
    Ok(())
}

/// Whether the version on which a change is based is before the last change or yet to come.
fn is_outside(on: u64, changed_at: u64, version: u64) -> bool
    ensures { result ≡ is_outside on changed_at version }
{
    on < changed_at || version < on
}

/// What changes in the tables if these rows, which fit, are removed and added, or why the view
/// would not be of its sort after that.
fn carried_rows<M: Ledger>(
    alloc: Global,
    view: &View<'_>,
    removed: &RowSet,
    added: &RowSet,
    looked: &mut Steps<M>,
) -> Result<Vec<TableDelta>, Refusal>
    requires viewed { IsViewed view.now }
    requires removed { AllFit (sort_of view.now.lens).columns removed.now }
    requires added { AllFit (sort_of view.now.lens).columns added.now }
    ensures put { let L = view.now.lens in let db = over view.now in
        let rows = new_view (get L db) (record { remove = removed.now; add = added.now }) in
        IsPut L db result (spec.of_sort (sort_of L) rows) }
    ensures looks { (w : ℕ) → FindsAtMost view.now w
        → let sent = count_of removed.now + count_of added.now in let L = view.now.lens in
        looked.new ≤ looked.old + (size L w * sent + 2 * work L sent w) }
{
    let delta = of_touched(alloc, removed, added, view, looked)?;
    carried(alloc, view, delta, looked)
}

/// What the difference changes in the tables, or why the view would not be of its sort after it.
fn carried<M: Ledger>(
    alloc: Global,
    view: &View<'_>,
    delta: Delta,
    looked: &mut Steps<M>,
) -> Result<Vec<TableDelta>, Refusal>
    requires { AppliesTo delta (shown view.now) }
    ensures put { let L = view.now.lens in let db = over view.now in
        IsPut L db result (spec.of_sort (sort_of L) (edited L db delta)) }
    ensures looks { (w : ℕ) → FindsAtMost view.now w
        → looked.new ≤ looked.old + 2 * work view.now.lens (rows_of delta) w }
{
    checked(alloc, view, &delta, looked)?;
    let deltas = put_delta(alloc, view, delta, looked)?;
    Ok(deltas)
}

/// `Ok` if the view is of its sort after the difference.
fn checked<M: Ledger>(
    alloc: Global,
    view: &View<'_>,
    delta: &Delta,
    looked: &mut Steps<M>,
) -> Result<(), Refusal>
    requires { AppliesTo delta.now (shown view.now) }
    ensures tested { let L = view.now.lens in
        IsTested L (edited L (over view.now) delta.now) result }
    ensures looks { (w : ℕ) → FindsAtMost view.now w
        → looked.new ≤ looked.old + work view.now.lens (rows_of delta.now) w }
{
    let sort = view.lens().sort();
    let edges = sort.tree().edges();
    match check_edit(alloc, sort, view, delta, looked) {
        Ok(()) => Ok(()),
        Err(EditFault::OffPredicate { row }) => Err(Refusal::Rejected {
            refusal: EditRefusal::OffPredicate { row },
        }),
        Err(EditFault::Clash { clash }) => Err(Refusal::Rejected {
            refusal: clash_refusal(alloc, edges, clash)?,
        }),
        Err(EditFault::NoMemory) => Err(Refusal::NoMemory),
    }
}

/// The refusal for two rows that clash on the edge at the place.
fn clash_refusal(alloc: Global, edges: &[Edge], found: Clash) -> Result<EditRefusal, NoMemory>
    requires { found.edge < length edges.now }
    ensures { IfOk result (λ refusal.
        (edge : _) → edge ≡ slice_index_or edges.now found.edge edge
        → edit_refusal_view refusal ≡ refusals.clash edge found.first found.second) }
{
    Ok(EditRefusal::Clash {
        edge: edges[found.edge].copy(alloc)?,
        first: found.first,
        second: found.second,
    })
}

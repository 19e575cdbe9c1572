//! What a merge changes, by rows found by key.
ghost use Rattle.std.specs.Prelude.{◌≡◌, ◌≤◌, ◌+◌, ◌*◌, ℕ, true, length, Contains, IfOk, OnOk};
ghost use Rattle.plain_values.specs.SortedSet as set;
ghost use Rattle.lens_specs.specs.Delta.{diff};
ghost use Rattle.lens_specs.specs.Relation.{Rows, has, minus};
ghost use Rattle.fd_laws.specs.Trees.{IsTree};
ghost use Rattle.lens_laws.specs.KeyedDeltas.{merge_delta};
ghost use Rattle.signed_delta.specs.Disjoint.{AreApart};
ghost use Rattle.revision.specs.Near.{CanRevise};

use crate::source::Source;
use lens_values::NoMemory;
use revision::{afters, befores, near_and_new, touched_among};
use row_sets::RowSet;
use signed_delta::{Delta, Look};
use std::alloc::Global;
use std::sync::ledger::Ledger;
use step_counter::Steps;

/// Rows that go, and rows that come.
#[derive(Drop)]
pub struct Change {
    /// The rows that go.
    pub remove: RowSet,
    /// The rows that come.
    pub add: RowSet,
}

/// What a merge with these rows changes in the source: the rows that they revise become what
/// they are revised to, and those of them that are new come.
pub fn merge_change<K: Look, L: Ledger>(
    alloc: Global,
    source: &Source<'_, K>,
    rows: &RowSet,
    looked: &mut Steps<L>,
) -> Result<Change, NoMemory>
    requires { let a = source.now.look.now in
        CanRevise (K.asked a) (K.relation a) source.now.tree.now rows.now }
    ensures change { let M = (K.relation source.now.look.now).rows in
        IfOk result (λ change. record { remove = change.remove; add = change.add }
        ≡ merge_delta source.now.tree.now M rows.now) }
    ensures looks { (n : ℕ) → K.within source.now.look.now n → looked.new ≤ looked.old
        + n * length (set.items rows.now) * (length source.now.tree.now + 1) }
    ensures tree { OnOk result (IsTree source.now.tree.now) }
{
    let tree = source.tree;
    let near = near_and_new(alloc, tree, source.look, rows, looked)?;
    // Without dependencies no row is revised, nor is one by rows that are all there.
    if tree.edges().is_empty() || near.new.rows().is_empty() {
        let remove = RowSet::empty(alloc);
        return Ok(Change {
            remove,
            add: near.new,
        });
    }
    let touched = touched_among(alloc, tree, &near.rows, rows)?;
    let remove = befores(alloc, &touched)?;
    let revised = afters(alloc, &touched)?;
    let add = revised.union(alloc, &near.new)?;
    Ok(Change { remove, add })
}

/// What `merge_change` returns. The caller may know that the source has all of the rows: then this
/// function looks for nothing.
pub fn merge_known<K: Look, L: Ledger>(
    alloc: Global,
    source: &Source<'_, K>,
    rows: &RowSet,
    all_there: bool,
    looked: &mut Steps<L>,
) -> Result<Change, NoMemory>
    requires can { let a = source.now.look.now in
        CanRevise (K.asked a) (K.relation a) source.now.tree.now rows.now }
    requires there { all_there ≡ true → (row : _) → has rows.now row ≡ true
        → has (K.relation source.now.look.now).rows row ≡ true }
    ensures change { let M = (K.relation source.now.look.now).rows in
        IfOk result (λ change. record { remove = change.remove; add = change.add }
        ≡ merge_delta source.now.tree.now M rows.now) }
    ensures looks { (n : ℕ) → K.within source.now.look.now n → looked.new ≤ looked.old
        + n * length (set.items rows.now) * (length source.now.tree.now + 1) }
    ensures tree { OnOk result (IsTree source.now.tree.now) }
{
    if !all_there {
        return merge_change(alloc, source, rows, looked);
    }
    // Called for its contract: the edges are a tree.
    let _edges = source.tree.edges();
    let remove = RowSet::empty(alloc);
    let add = RowSet::empty(alloc);
    Ok(Change { remove, add })
}

/// The change that leads to the rows without these: those of them that it adds are not added, and
/// the others go too.
pub fn without(alloc: Global, change: Delta, rows: &RowSet) -> Result<Delta, NoMemory>
    requires { AreApart change.remove change.add }
    ensures { IfOk result (λ less. (M N : Rows) → change ≡ diff M N
        → ((row : _) → has rows.now row ≡ true → has N row ≡ true)
        → less ≡ diff M (minus N rows.now)) }
{
    if rows.rows().is_empty() {
        return Ok(change);
    }
    let gone = rows.minus(alloc, change.add())?;
    let remove = change.remove().union(alloc, &gone)?;
    let add = change.add().minus(alloc, rows)?;
    Ok(Delta::new(remove, add))
}

//! Batches: edits that are made one after another, or none of them.
ghost use Rattle.std.specs.Prelude.{◌≡◌, ◌+◌, ◌≤◌, IfOk, IsSome, None, Ok, Some, map};
ghost use Rattle.std.specs.FinMap as finmap;
ghost use Rattle.lens_specs.specs.Lens as lenses;
ghost use Rattle.request_text.specs.Edits.{edit_view};
ghost use Rattle.server_specs.specs.Batching.{batch_answer, batch_settled};
ghost use Rattle.lens_server.specs.Batches.{AreMade, AreStored, CanEdit, Chain, Gives, IsHolding, IsMade, deltas_of, fault_at};
ghost use Rattle.lens_server.specs.Counting.{batch_looks, edit_looks, of_lens};
ghost use Rattle.lens_server.specs.Databases.{CanAnswer, IsPlan, IsSame, catalogue, state_of};
ghost use Rattle.lens_server.specs.declared.batches.BatchFault.TheVariants as variant;

use base_index::Tables;
use database::{Database, Plan, plan_changes};
use edit_batches::{Deltas, Entry, compose_all};
use lens_values::NoMemory;
use request_text::{Answer, BatchEdit, BatchEdits, EditRefusal};
use signed_delta::TableDelta;
use std::alloc::{AllocFailed, Global};
use std::sync::ledger::Ledger;
use step_counter::Steps;
use view_changes::Refusal;

/// Why the edits of a batch were not made.
#[derive(Drop)]
pub enum BatchFault {
    /// The edit at this place is refused.
    Refused {
        /// The place, from 0.
        edit: usize,
        /// Why.
        refusal: EditRefusal,
    },
    /// Memory ran out.
    NoMemory,
}

impl<T: Drop> From<AllocFailed<T>> for BatchFault {
    ghost from_gives = { λ _ why. why ≡ variant.NoMemory };

    fn from(_: AllocFailed<T>) -> BatchFault {
        BatchFault::NoMemory
    }
}

/// Plans what `batch` is answered. The edits are made in the tables while these are held, and are
/// taken back before the plan is given.
pub fn plan_batch<M: Ledger>(
    alloc: Global,
    database: &mut Database,
    edits: BatchEdits<'_>,
    on: Option<u64>,
    looked: &mut Steps<M>,
) -> Result<Plan, NoMemory>
    requires { CanAnswer database.old }
    ensures same { IsSame database.old database.new }
    ensures plan { IfOk result (λ plan.
        IsPlan plan (batch_answer edits.entry on (state_of database.old)) database.new) }
    ensures looked { let s = state_of database.old in
        looked.new ≤ looked.old + batch_looks on s edits.entry s.tables }
{
    database.tables.hold();
    let made = make_edits(alloc, database, edits, on, looked);
    take_back(&mut database.tables);
    match made {
        Ok(entries) => plan_all(alloc, database, &entries),
        Err(BatchFault::Refused { edit, refusal }) => {
            Ok(Plan::unchanged(Answer::InEdit { edit, refusal }))
        }
        Err(BatchFault::NoMemory) => Err(NoMemory),
    }
}

/// Makes the tables what they were when they were held. It takes no memory.
fn take_back(tables: &mut Tables)
    requires { IsSome tables.old.held }
    ensures { (st : _) → tables.old.held ≡ Some st
        → tables.new ≡ record { present = st; next = st; held = None } }
{
    tables.back();
}

/// Makes the edits one after another in tables that are held, and gives what each made of them.
fn make_edits<M: Ledger>(
    alloc: Global,
    database: &mut Database,
    edits: BatchEdits<'_>,
    on: Option<u64>,
    looked: &mut Steps<M>,
) -> Result<Vec<Entry>, BatchFault>
    requires { CanEdit database.old }
    ensures holding { IsHolding database.old database.new }
    ensures made { AreMade database.old database.new on edits.entry result }
    ensures looked { let s = state_of database.old in
        looked.new ≤ looked.old + batch_looks on s edits.entry s.tables }
{
    let mut entries = Vec::new(alloc);
    for edit in edits.into_list() {
        match make_edit(alloc, database, edit, on, looked) {
            Ok(entry) => entries.push(entry)?,
            Err(refusal) => return Err(fault_at(entries.len(), refusal)),
        }
    }
    Ok(entries)
}

/// Why a batch is not made whose edit at this place is not.
fn fault_at(edit: usize, refusal: Refusal) -> BatchFault
    ensures { result ≡ fault_at edit refusal }
{
    match refusal {
        Refusal::Rejected { refusal } => BatchFault::Refused { edit, refusal },
        Refusal::NoMemory => BatchFault::NoMemory,
    }
}

/// Makes one edit in the tables, and gives what it made of them.
fn make_edit<M: Ledger>(
    alloc: Global,
    database: &mut Database,
    edit: BatchEdit<'_>,
    on: Option<u64>,
    looked: &mut Steps<M>,
) -> Result<Entry, Refusal>
    requires { CanEdit database.old }
    ensures holding { IsHolding database.old database.new }
    ensures made { IsMade database.old database.new on (edit_view edit.entry) result }
    ensures looked { let s = state_of database.old in looked.new ≤ looked.old
        + of_lens (edit_looks s.tables edit.entry.remove edit.entry.add)
        (finmap.get (catalogue s.texts) edit.entry.view) }
{
    let deltas = edit_deltas(alloc, database, edit, on, looked)?;
    database.tables.stage(&deltas)?;
    database.tables.settle();
    Ok(Entry {
        deltas: Deltas::new(deltas),
    })
}

/// The differences of tables that one edit makes, or its refusal.
fn edit_deltas<M: Ledger>(
    alloc: Global,
    database: &Database,
    edit: BatchEdit<'_>,
    on: Option<u64>,
    looked: &mut Steps<M>,
) -> Result<Vec<TableDelta>, Refusal>
    requires { CanEdit database.now }
    ensures gives { Gives database.now on (edit_view edit.entry) result }
    ensures looked { let s = state_of database.now in looked.new ≤ looked.old
        + of_lens (edit_looks s.tables edit.entry.remove edit.entry.add)
        (finmap.get (catalogue s.texts) edit.entry.view) }
{
    let BatchEdit { view, remove, add } = edit;
    match database.open_view(&view) {
        Some(opened) => view_changes::edit(alloc, &opened, remove, add, on, looked),
        None => Err(Refusal::Rejected {
            refusal: EditRefusal::UnknownName { name: view },
        }),
    }
}

/// Plans what all edits made of the tables. If no table differs, the plan changes nothing.
fn plan_all(alloc: Global, database: &Database, entries: &[Entry]) -> Result<Plan, NoMemory>
    requires { CanAnswer database.now }
    ensures { (db : lenses.Tables) → AreStored (catalogue database.now.catalog.texts) db
        → Chain (map deltas_of entries.now) database.now.tables.present.relations db
        → IfOk result (λ plan.
        IsPlan plan (batch_settled (Ok db) (state_of database.now)) database.now) }
{
    let deltas = compose_all(alloc, entries)?;
    plan_changes(alloc, database, deltas)
}

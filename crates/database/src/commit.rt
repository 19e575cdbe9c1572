//! Plans are settled: `settle` prints the answer, stages the change in the tables, has the keeper
//! commit it, and then makes it.
ghost use Rattle.std.specs.Prelude.{◌≡◌, ◌<◌, ◌+◌, ◌-◌, ◌^◌, ◌≤◌, IfOk, None, OnErr, OnOk, Some};
ghost use Rattle.base_index.specs.Held.{IsQuiet};
ghost use Rattle.server_specs.specs.Answer as spec;
ghost use Rattle.server_specs.specs.Answer.{text};
ghost use Rattle.server_specs.specs.State.{State};
ghost use Rattle.database.specs.Keyed.{IsKeyed};
ghost use Rattle.database.specs.Outcomes.{IsReady, NotKept, Outcome};
ghost use Rattle.database.specs.Plans.{CanMove, CanStage, CanTake, IsFree, IsPlan, IsPlanned, IsStaged, Leads, last_after, past_after, texts_with};
ghost use Rattle.database.specs.Staging.{defined_by, next_state, steps_in, steps_of, table_of, walked_by};
ghost use Rattle.database.specs.States.{state_of};

use crate::database::Database;
use crate::plan::{PastStep, Plan, Staged, StagedChange};
use base_index::Tables;
use edit_batches::{Deltas, Entry, History};
use lens_probe::needs;
use lens_types::TypedLens;
use lens_values::{Columns, Name, NoMemory};
use opened_view::LastChanges;
use reply_printing::{Reply, reply_text, store_fault_reply};
use std::alloc::Global;
use std::sync::ledger::Ledger;
use step_counter::Steps;
use table_keeper::{Change, KeepFault, Keeper};
use view_catalog::{Catalog, Prepared};

/// Prints the answer of the plan, and then makes its change.
pub fn settle<K: Keeper, L: Ledger>(
    alloc: Global,
    database: &mut Database,
    keeper: &mut K,
    plan: Plan,
    walked: &mut Steps<L>,
) -> Result<Reply, NoMemory>
    requires ready { IsReady database.old (K.contents keeper.old) }
    requires planned { IsPlanned plan database.old }
    ensures outcome { (answer : spec.Answer × State) → IsPlan plan answer database.old
        → Outcome answer (state_of database.old) (state_of database.new)
        (K.faults keeper.old) (K.faults keeper.new)
        (K.contents keeper.old) (K.contents keeper.new) (K.calls keeper.old) (K.calls keeper.new)
        result }
    ensures untouched { (answer : spec.Answer × State) → IsPlan plan answer database.old
        → answer.1 ≡ state_of database.old → keeper.new ≡ keeper.old }
    ensures keyed { IsKeyed database.new }
    ensures place { K.place keeper.new ≡ K.place keeper.old }
    ensures walked { walked.new ≤ walked.old + steps_of plan.staged database.old }
    ensures walks_on { walked.old ≤ walked.new }
{
    let Plan { answer, staged } = plan;
    let printed = reply_text(alloc, &answer);
    // To prove a call of `drop` takes one step. A drop at the end of a scope takes a step for each
    // part of the value.
    drop(answer);
    let Ok(reply) = printed else {
        drop(staged);
        return Err(NoMemory);
    };
    match staged {
        Some(staged) => commit(alloc, database, keeper, staged, reply, walked),
        None => Ok(reply),
    }
}

/// Stages the change, commits it and makes it, and gives the reply.
fn commit<K: Keeper, L: Ledger>(
    alloc: Global,
    database: &mut Database,
    keeper: &mut K,
    staged: Staged,
    reply: Reply,
    walked: &mut Steps<L>,
) -> Result<Reply, NoMemory>
    requires ready { IsReady database.old (K.contents keeper.old) }
    requires staged { IsStaged staged database.old }
    ensures outcome { (answer : spec.Answer × State) → Leads (Some staged) answer.1 database.old
        → reply ≡ text answer.0
        → Outcome answer (state_of database.old) (state_of database.new)
        (K.faults keeper.old) (K.faults keeper.new)
        (K.contents keeper.old) (K.contents keeper.new) (K.calls keeper.old) (K.calls keeper.new)
        result }
    ensures keyed { IsKeyed database.new }
    ensures place { K.place keeper.new ≡ K.place keeper.old }
    ensures walked { walked.new ≤ walked.old + steps_of (Some staged) database.old }
    ensures walks_on { walked.old ≤ walked.new }
{
    stage(alloc, &mut database.tables, &staged.change, walked)?;
    let Staged { change, last, past } = staged;
    let (change, definition) = change.into_parts();
    match keeper.commit(alloc, &change) {
        Ok(()) => {
            make(database, change, definition, last, past);
            Ok(reply)
        }
        Err(fault) => {
            database.tables.unstage();
            drop((change, definition, last));
            not_kept(fault)
        }
    }
}

/// The reply if the keeper failed. `NoMemory`: the keeper only lacked memory.
fn not_kept(fault: KeepFault) -> Result<Reply, NoMemory>
    ensures { NotKept fault result }
{
    match fault {
        KeepFault::Failed => Ok(store_fault_reply()),
        KeepFault::NoMemory => Err(NoMemory),
    }
}

/// Stages what the change makes of the tables. After `NoMemory` nothing is staged.
fn stage<L: Ledger>(
    alloc: Global,
    tables: &mut Tables,
    change: &StagedChange,
    walked: &mut Steps<L>,
) -> Result<(), NoMemory>
    requires quiet { IsQuiet tables.old }
    requires free { tables.old.held ≡ None }
    requires can { CanStage change.now tables.old.present.relations }
    ensures ok { OnOk result (tables.new
        ≡ record tables.old { next = next_state change.now tables.old.present }) }
    ensures err { OnErr result (tables.new ≡ tables.old) }
    ensures walked { walked.new ≤ walked.old + steps_in change.now tables.old.present }
    ensures walks_on { walked.old ≤ walked.new }
{
    match change {
        StagedChange::Define {
            table,
            prepared,
            ..
        } => stage_definition(alloc, tables, table, prepared.lens(), walked),
        StagedChange::Rows { deltas } => tables.stage(deltas.as_slice()),
    }
}

/// Stages the table that a definition makes, if it makes one, and the indexes that its lens needs.
pub fn stage_definition<L: Ledger>(
    alloc: Global,
    tables: &mut Tables,
    table: &Option<Name>,
    lens: &TypedLens,
    walked: &mut Steps<L>,
) -> Result<(), NoMemory>
    requires quiet { IsQuiet tables.old }
    requires free { tables.old.held ≡ None }
    requires new { IsFree table.now tables.old.present.relations }
    ensures ok { OnOk result (tables.new
        ≡ record tables.old { next = defined_by table.now lens.now tables.old.present }) }
    ensures err { OnErr result (tables.new ≡ tables.old) }
    ensures walked { walked.new ≤ walked.old + walked_by lens.now tables.old.present }
    ensures walks_on { walked.old ≤ walked.new }
{
    let needs = needs(alloc, lens)?;
    let new = new_table(alloc, table, lens)?;
    tables.stage_definition(new, &needs, walked)
}

/// The table that a definition makes, with the columns of its lens.
fn new_table(
    alloc: Global,
    table: &Option<Name>,
    lens: &TypedLens,
) -> Result<Option<(Name, Columns)>, NoMemory>
    ensures { IfOk result (λ new. new ≡ table_of table.now lens.now) }
{
    match table {
        Some(name) => {
            let columns = lens.sort().cols().copy(alloc)?;
            Ok(Some((*name, columns)))
        }
        None => Ok(None),
    }
}

/// Makes the change. It takes no memory.
fn make(
    database: &mut Database,
    change: Change,
    definition: Option<Prepared>,
    last: Option<LastChanges>,
    past: PastStep,
)
    requires definition { CanTake definition database.old.catalog }
    requires last { CanMove change database.old.last }
    requires room { database.old.version < 2 ^ 64 - 1 }
    ensures catalog { database.new.catalog.texts
        ≡ texts_with definition database.old.catalog.texts }
    ensures tables { database.new.tables
        ≡ record database.old.tables { present = database.old.tables.next } }
    ensures version { database.new.version ≡ database.old.version + 1 }
    ensures last { database.new.last
        ≡ last_after last change (database.old.version + 1) database.old.last }
    ensures past { database.new.past ≡ past_after past change database.old.past }
{
    admit(&mut database.catalog, definition);
    database.tables.settle();
    database.version += 1;
    move_last(&mut database.last, last, &change, database.version);
    remember(&mut database.past, past, change);
}

/// Sets the last changes to those that a definition brings. If rows change, sets the last change of
/// each changed table to the version. It takes no memory.
fn move_last(last: &mut LastChanges, defined: Option<LastChanges>, change: &Change, version: u64)
    requires { CanMove change.now last.old }
    ensures { last.new ≡ last_after defined change.now version last.old }
{
    match defined {
        Some(defined) => *last = defined,
        None => match change {
            Change::Rows { deltas } => last.move_on(deltas.as_slice(), version),
            Change::Define { .. } => {}
        },
    }
}

/// Remembers the change, or forgets the last one. It takes no memory.
fn remember(past: &mut History, step: PastStep, change: Change)
    ensures { past.new ≡ past_after step change past.old }
{
    match step {
        PastStep::Stays => {}
        PastStep::Gains => gain(past, change),
        PastStep::Loses => {
            let _undone = past.pop();
        }
    }
}

/// Remembers the change, if it is one of rows. It takes no memory.
fn gain(past: &mut History, change: Change)
    ensures { past.new ≡ past_after PastStep.Gains change past.old }
{
    match change {
        Change::Rows { deltas } => {
            let _oldest = past.push(Entry {
                deltas: Deltas::new(deltas),
            });
        }
        Change::Define { .. } => {}
    }
}

/// The catalogue takes the definition, if there is one.
fn admit(catalog: &mut Catalog, definition: Option<Prepared>)
    requires { CanTake definition catalog.old }
    ensures { catalog.new.texts ≡ texts_with definition catalog.old.texts }
{
    match definition {
        Some(prepared) => catalog.admit(prepared),
        None => {}
    }
}

//! Plans of changes of tables.
ghost use Rattle.std.specs.Prelude.{◌<◌, ◌+◌, ◌-◌, ◌^◌, IfOk, map};
ghost use Rattle.lens_specs.specs.Lens.{Tables};
ghost use Rattle.server_specs.specs.Changing.{accept};
ghost use Rattle.server_specs.specs.Validity.{Valid};
ghost use Rattle.signed_delta.specs.Tables.{table_delta};
ghost use Rattle.database.specs.Databases.{CanAccept, IsChange, IsPlan, state_of};

use crate::database::Database;
use crate::plan::{PastStep, Plan, Staged, StagedChange};
use lens_values::{NoMemory, copied};
use reply_printing::{Answer, Changes};
use signed_delta::TableDelta;
use std::alloc::Global;

/// Plans that the tables change by these differences, and that `undo` can take the change back. If
/// no table differs, the plan changes nothing.
pub fn plan_changes(
    alloc: Global,
    database: &Database,
    deltas: Vec<TableDelta>,
) -> Result<Plan, NoMemory>
    requires valid { Valid (state_of database.now) }
    requires room { database.now.version < 2 ^ 64 - 1 }
    ensures { (db : Tables) → CanAccept (map table_delta deltas.items) database.now db
        → IfOk result (λ plan. IsPlan plan
        (accept db (map table_delta deltas.items) (state_of database.now)) database.now) }
{
    if deltas.as_slice().is_empty() {
        return Ok(Plan::unchanged(Answer::Changed {
            changed: Changes::new(deltas),
            version: database.version,
        }));
    }
    plan_tables(alloc, database, deltas, PastStep::Gains)
}

/// Plans that the tables change by these differences. `past` says whether the changes that can be
/// undone gain this one or lose their last one.
pub fn plan_tables(
    alloc: Global,
    database: &Database,
    deltas: Vec<TableDelta>,
    past: PastStep,
) -> Result<Plan, NoMemory>
    requires room { database.now.version < 2 ^ 64 - 1 }
    ensures { IfOk result (IsChange (map table_delta deltas.items) past database.now) }
{
    let version = database.version + 1;
    let kept = copied(alloc, deltas.as_slice())?;
    Ok(Plan {
        answer: Answer::Changed {
            changed: Changes::new(deltas),
            version,
        },
        staged: Some(Staged {
            change: StagedChange::Rows { deltas: kept },
            last: None,
            past,
        }),
    })
}

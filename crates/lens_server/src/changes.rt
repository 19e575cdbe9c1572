//! Changes of views: the server plans them, or says for a preview what they would change.
ghost use Rattle.std.specs.Prelude.{◌≡◌, IfOk, Result};
ghost use Rattle.lens_specs.specs.Lens.{Lens};
ghost use Rattle.lens_specs.specs.Relation.{Rows};
ghost use Rattle.request_text.specs.Answers.{answer_view};
ghost use Rattle.server_specs.specs.EditRefusal.{EditRefusal};
ghost use Rattle.server_specs.specs.Changing.{foretold, settled};
ghost use Rattle.server_specs.specs.State.{State};
ghost use Rattle.server_laws.specs.Known.{IsHere};
ghost use Rattle.view_changes.specs.Puts.{IsPut};
ghost use Rattle.lens_server.specs.Databases.{CanAnswer, IsPlan, state_of};

use crate::answers::plan_answer;
use database::{Database, Plan, plan_changes};
use lens_values::NoMemory;
use request_text::{Answer, Changes};
use signed_delta::TableDelta;
use std::alloc::Global;
use view_changes::Refusal;

/// Plans a change of a view of the database, or its refusal.
pub fn plan_change(
    alloc: Global,
    database: &Database,
    change: Result<Vec<TableDelta>, Refusal>,
) -> Result<Plan, NoMemory>
    requires { CanAnswer database.now }
    ensures { let s = state_of database.now in (L : Lens) (expected : Result Rows EditRefusal)
        → IsHere s L → IsPut L s.tables change expected
        → IfOk result (λ plan. IsPlan plan (settled expected L s) database.now) }
{
    match change {
        Ok(deltas) => plan_changes(alloc, database, deltas),
        Err(refusal) => plan_answer(refusal.into_answer()),
    }
}

/// What a change of a view would change at this version, or its refusal.
pub fn foretold(version: u64, change: Result<Vec<TableDelta>, Refusal>) -> Result<Answer, NoMemory>
    ensures { (s : State) (L : Lens) (expected : Result Rows EditRefusal)
        → version ≡ s.version → IsPut L s.tables change expected
        → IfOk result (λ answer. answer_view answer ≡ foretold expected L s) }
{
    match change {
        Ok(deltas) => Ok(Answer::Changed {
            changed: Changes::new(deltas),
            version,
        }),
        Err(refusal) => refusal.into_answer(),
    }
}

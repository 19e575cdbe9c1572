//! The last change is taken back.
ghost use Rattle.std.specs.Prelude.{IfOk};
ghost use Rattle.server_specs.specs.Undoing.{undo_answer};
ghost use Rattle.lens_server.specs.Databases.{CanAnswer, IsPlan, state_of};

use database::{Database, PastStep, Plan, plan_tables};
use edit_batches::inverted;
use lens_values::NoMemory;
use request_text::Answer;
use std::alloc::Global;

/// Plans what `undo` is answered.
pub fn plan_undo(alloc: Global, database: &Database) -> Result<Plan, NoMemory>
    requires { CanAnswer database.now }
    ensures { IfOk result (λ plan. IsPlan plan (undo_answer (state_of database.now)) database.now) }
{
    match database.past.last() {
        Some(entry) => plan_tables(alloc, database, inverted(alloc, entry)?, PastStep::Loses),
        None => Ok(Plan::unchanged(Answer::NothingToUndo)),
    }
}

//! Definitions of tables and views.
ghost use Rattle.std.specs.Prelude.{◌≡◌, ◌<◌, ◌-◌, ◌^◌, IfOk, length};
ghost use Rattle.request_text.specs.Answers.{answer_view};
ghost use Rattle.server_specs.specs.Defining.{define_answer};
ghost use Rattle.server_specs.specs.Questions.{list_answer};
ghost use Rattle.server_specs.specs.Validity.{Valid};
ghost use Rattle.view_catalog.specs.Admissions.{IsAdmissible, table_in};
ghost use Rattle.database.specs.Defining.{last_with};
ghost use Rattle.lens_server.specs.Databases.{IsPlan, IsSame, state_of};

use crate::refusals::refusal;
use database::{Database, PastStep, Plan, Staged, StagedChange};
use lens_values::{Name, NoMemory, Text, copied};
use opened_view::LastChanges;
use request_text::{Answer, Texts};
use std::alloc::Global;
use view_catalog::Prepared;

/// Plans what `define` is answered. The catalogue reserves the memory for the definition.
pub fn plan_definition(alloc: Global, database: &mut Database, text: Text) -> Result<Plan, NoMemory>
    requires valid { Valid (state_of database.old) }
    requires room { database.old.version < 2 ^ 64 - 1 }
    ensures same { IsSame database.old database.new }
    ensures plan { IfOk result (λ plan.
        IsPlan plan (define_answer text (state_of database.old)) database.new) }
{
    match database.catalog.prepare(alloc, text) {
        Ok(prepared) => plan_prepared(alloc, database, prepared),
        Err(fault) => Ok(Plan::unchanged(refusal(fault)?)),
    }
}

/// Plans that the catalogue takes the definition.
fn plan_prepared(alloc: Global, database: &Database, prepared: Prepared) -> Result<Plan, NoMemory>
    requires valid { Valid (state_of database.now) }
    requires room { 0 < database.now.catalog.room }
    requires versions { database.now.version < 2 ^ 64 - 1 }
    requires admissible { IsAdmissible database.now.catalog.texts prepared }
    requires short { length prepared.text < 2 ^ 64 }
    ensures { IfOk result (λ plan.
        IsPlan plan (define_answer prepared.text (state_of database.now)) database.now) }
{
    let version = database.version + 1;
    let (last, text) = copies(alloc, database, &prepared, version)?;
    let table = prepared.table();
    Ok(Plan {
        answer: Answer::Defined { version },
        staged: Some(Staged {
            change: StagedChange::Define {
                text,
                table,
                prepared,
            },
            last: Some(last),
            past: PastStep::Stays,
        }),
    })
}

/// The last changes once the version made the definition, and the text for the keeper.
fn copies(
    alloc: Global,
    database: &Database,
    prepared: &Prepared,
    version: u64,
) -> Result<(LastChanges, Text), NoMemory>
    ensures { let p = prepared.now in IfOk result (λ copies. copies
        ≡ (last_with (table_in p.name p.lens) version database.now.last, p.text)) }
{
    let last = last_with(alloc, &database.last, &prepared.table(), version)?;
    let text = prepared.text().copy(alloc)?;
    Ok((last, text))
}

/// The last changes once the version made the table, if there is one.
fn last_with(
    alloc: Global,
    last: &LastChanges,
    table: &Option<Name>,
    version: u64,
) -> Result<LastChanges, NoMemory>
    ensures { IfOk result (λ after. after ≡ last_with table.now version last.now) }
{
    match table {
        Some(name) => last.with(alloc, name, version),
        None => last.copy(alloc),
    }
}

/// What `list` is answered.
pub fn list_answer(alloc: Global, database: &Database) -> Result<Answer, NoMemory>
    ensures { IfOk result (λ answer. answer_view answer ≡ list_answer (state_of database.now)) }
{
    Ok(Answer::Listed {
        definitions: Texts::new(copied(alloc, database.catalog.definitions())?),
        version: database.version,
    })
}

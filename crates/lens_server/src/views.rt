//! Requests that name a view: `plan_view` opens it once, for all that the request asks of it.
ghost use Rattle.std.specs.Prelude.{◌+◌, ◌≤◌, IfOk, Ok};
ghost use Rattle.lens_specs.specs.Lens.{sort_of};
ghost use Rattle.server_specs.specs.Exporting.{first_nullable, import_settled};
ghost use Rattle.lens_server.specs.Counting.{RisesBy, import_looks, row_count};
ghost use Rattle.lens_server.specs.Databases.{CanAnswer, IsOpened, IsPlan, lens_of, state_of};
ghost use Rattle.lens_server.specs.Planning.{PlansFor, PlansView};
ghost use Rattle.lens_server.specs.ViewRequests.{request_of};

use crate::answers::plan_answer;
use crate::changes::{foretold, plan_change};
use crate::refusals::sheet_refusal;
use database::{Database, Plan};
use lens_values::{Name, NoMemory};
use opened_view::Opened;
use request_text::{Answer, CsvText, JsonRows, JsonValue};
use std::alloc::Global;
use std::sync::ledger::Ledger;
use step_counter::Steps;
use view_answers::{export_answer, find_answer, read_answer, type_answer};
use view_changes::{edit, put, put_rows, sheet_rows};

/// What a request asks of a view.
#[derive(Drop)]
pub enum ViewRequest<'a> {
    /// Its rows.
    Read,
    /// Those with the value in the column.
    Find {
        column: Name,
        value: JsonValue<'a>,
    },
    /// That these become all of its rows.
    Put {
        rows: JsonRows<'a>,
        on: Option<u64>,
    },
    /// That rows are removed and others added.
    Edit {
        remove: JsonRows<'a>,
        add: JsonRows<'a>,
        on: Option<u64>,
    },
    /// What that would change.
    Preview {
        remove: JsonRows<'a>,
        add: JsonRows<'a>,
        on: Option<u64>,
    },
    /// Its sort and its tables.
    Describe,
    /// Its rows as CSV.
    Export,
    /// That the rows of the text become all of its rows.
    Import {
        csv: CsvText,
        on: Option<u64>,
    },
}

/// Plans the answer to what the request asks of the view of this name.
pub fn plan_view<L: Ledger, M: Ledger>(
    alloc: Global,
    database: &Database,
    name: &Name,
    asked: ViewRequest<'_>,
    walked: &mut Steps<L>,
    looked: &mut Steps<M>,
) -> Result<Plan, NoMemory>
    requires { CanAnswer database.now }
    ensures { PlansFor (Ok (request_of name.now asked.entry)) (state_of database.now) database.now
        result walked.old walked.new looked.old looked.new }
{
    match database.open_view(name) {
        Some(opened) => plan_opened(alloc, database, &opened, asked, walked, looked),
        None => Ok(Plan::unchanged(Answer::UnknownName { name: *name })),
    }
}

/// Plans the answer to what the request asks of an opened view of the database.
fn plan_opened<L: Ledger, M: Ledger>(
    alloc: Global,
    database: &Database,
    opened: &Opened<'_>,
    asked: ViewRequest<'_>,
    walked: &mut Steps<L>,
    looked: &mut Steps<M>,
) -> Result<Plan, NoMemory>
    requires can { CanAnswer database.now }
    requires opened { IsOpened opened.now database.now }
    ensures { PlansView asked.entry (lens_of opened.now) database.now
        result walked.old walked.new looked.old looked.new }
{
    match asked {
        ViewRequest::Read => plan_answer(read_answer(alloc, opened, walked)),
        ViewRequest::Find { column, value } => {
            plan_answer(find_answer(alloc, opened, &column, &value, walked, looked))
        }
        ViewRequest::Put { rows, on } => {
            let change = put(alloc, opened, rows, on, walked, looked);
            plan_change(alloc, database, change)
        }
        ViewRequest::Edit { remove, add, on } => {
            let change = edit(alloc, opened, remove, add, on, looked);
            plan_change(alloc, database, change)
        }
        ViewRequest::Preview { remove, add, on } => {
            let change = edit(alloc, opened, remove, add, on, looked);
            plan_answer(foretold(opened.version, change))
        }
        ViewRequest::Describe => plan_answer(type_answer(alloc, opened)),
        ViewRequest::Export => plan_answer(export_answer(alloc, opened, walked)),
        ViewRequest::Import { csv, on } => {
            plan_import(alloc, database, opened, &csv, on, walked, looked)
        }
    }
}

/// Plans that the rows of the text become those of the view, unless a column may be null or a
/// record is wrong.
fn plan_import<L: Ledger, M: Ledger>(
    alloc: Global,
    database: &Database,
    opened: &Opened<'_>,
    csv: &CsvText,
    on: Option<u64>,
    walked: &mut Steps<L>,
    looked: &mut Steps<M>,
) -> Result<Plan, NoMemory>
    requires can { CanAnswer database.now }
    requires opened { IsOpened opened.now database.now }
    ensures plan { let L = lens_of opened.now in IfOk result (λ plan. IsPlan plan
        (import_settled (first_nullable (sort_of L).columns) csv.now on L (state_of database.now))
        database.now) }
    ensures walked { let s = state_of database.now in
        RisesBy (row_count s.tables) walked.old walked.new }
    ensures looked { let s = state_of database.now in
        looked.new ≤ looked.old + import_looks s.tables csv.now (lens_of opened.now) }
{
    match sheet_rows(alloc, opened, csv) {
        Ok(rows) => {
            let change = put_rows(alloc, opened, &rows, on, walked, looked);
            plan_change(alloc, database, change)
        }
        Err(fault) => plan_answer(sheet_refusal(fault)),
    }
}

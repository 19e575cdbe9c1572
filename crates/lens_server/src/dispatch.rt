//! One line, one answer: the line is read as a request, planned by what it asks, and settled.
ghost use Rattle.std.specs.Prelude.{◌≡◌, ◌+◌, ◌≤◌, IfOk, Ok};
ghost use Rattle.io_specs.specs.Lines.{line as short};
ghost use Rattle.request_text.specs.Requests.{request_view};
ghost use Rattle.server_specs.specs.Answering.{answer_request};
ghost use Rattle.server_specs.specs.Request.{request};
ghost use Rattle.lens_server.specs.Counting.{most_looked, most_walked};
ghost use Rattle.lens_server.specs.Databases.{CanAnswer, IsKeyed, IsSame, state_of};
ghost use Rattle.lens_server.specs.Exports.{ExportReadsBack};
ghost use Rattle.lens_server.specs.Planning.{PlansFor};
ghost use Rattle.database.specs.Outcomes.{IsReady, Outcome};

use crate::answers::plan_answer;
use crate::batches::plan_batch;
use crate::definitions::{list_answer, plan_definition};
use crate::undo::plan_undo;
use crate::views::{ViewRequest, plan_view};
use database::{Database, Plan, settle};
use json::Scratch;
use lens_values::NoMemory;
use request_text::{Answer, Reply, Request, RequestFault, read_request};
use std::alloc::Global;
use std::sync::ledger::Ledger;
use step_counter::Steps;
use table_keeper::Keeper;

// For how long a line, in bytes, the room to read it is kept.
const LONG_LINE: usize = 65_536;

/// Answers a line that is not too long. An edit, a preview, a batch, an undo and a find by the left
/// side of a dependency scan no table. `scratch` is the room that reading a line needs, which stays
/// from line to line.
pub fn answer_line<K: Keeper, L: Ledger, M: Ledger>(
    alloc: Global,
    database: &mut Database,
    scratch: &mut Scratch,
    keeper: &mut K,
    line: &[u8],
    walked: &mut Steps<L>,
    looked: &mut Steps<M>,
) -> Result<Reply, NoMemory>
    requires { IsReady database.old (K.contents keeper.old) }
    ensures outcome { Outcome (answer_request (request (short line.now)) (state_of database.old))
        (state_of database.old) (state_of database.new) (K.faults keeper.old) (K.faults keeper.new)
        (K.contents keeper.old) (K.contents keeper.new) (K.calls keeper.old) (K.calls keeper.new)
        result }
    ensures untouched { (answer_request (request (short line.now)) (state_of database.old)).1
        ≡ state_of database.old → keeper.new ≡ keeper.old }
    ensures back { IfOk result (λ _.
        ExportReadsBack (request (short line.now)) (state_of database.old)) }
    ensures keyed { IsKeyed database.new }
    ensures place { K.place keeper.new ≡ K.place keeper.old }
    ensures walked { walked.new
        ≤ walked.old + most_walked (request (short line.now)) (state_of database.old) }
    ensures looked { looked.new
        ≤ looked.old + most_looked (request (short line.now)) (state_of database.old) }
    ensures walks_on { walked.old ≤ walked.new }
{
    let plan = plan_line(alloc, database, scratch, line, walked, looked)?;
    shrink(alloc, scratch, line);
    settle(alloc, database, keeper, plan, walked)
}

// Lets the room for a long line go, since the change of its rows needs memory next.
fn shrink(alloc: Global, scratch: &mut Scratch, line: &[u8]) {
    if line.len() > LONG_LINE {
        *scratch = Scratch::new(alloc);
    }
}

/// Plans the answer to a line.
fn plan_line<L: Ledger, M: Ledger>(
    alloc: Global,
    database: &mut Database,
    scratch: &mut Scratch,
    line: &[u8],
    walked: &mut Steps<L>,
    looked: &mut Steps<M>,
) -> Result<Plan, NoMemory>
    requires { CanAnswer database.old }
    ensures same { IsSame database.old database.new }
    ensures plans { PlansFor (request (short line.now)) (state_of database.old) database.new result
        walked.old walked.new looked.old looked.new }
{
    match read_request(alloc, line, scratch) {
        Ok(request) => plan_request(alloc, database, request, walked, looked),
        Err(RequestFault::NotJson) => Ok(Plan::unchanged(Answer::NotJson)),
        Err(RequestFault::BadRequest { member }) => {
            Ok(Plan::unchanged(Answer::BadRequest { member }))
        }
        Err(RequestFault::NoMemory) => Err(NoMemory),
    }
}

/// Plans the answer to a request.
fn plan_request<L: Ledger, M: Ledger>(
    alloc: Global,
    database: &mut Database,
    request: Request<'_>,
    walked: &mut Steps<L>,
    looked: &mut Steps<M>,
) -> Result<Plan, NoMemory>
    requires { CanAnswer database.old }
    ensures same { IsSame database.old database.new }
    ensures plans { PlansFor (Ok (request_view request.entry)) (state_of database.old) database.new
        result walked.old walked.new looked.old looked.new }
{
    match request {
        Request::Define { text } => plan_definition(alloc, database, text),
        Request::List => plan_answer(list_answer(alloc, database)),
        Request::Batch { edits, on } => plan_batch(alloc, database, edits, on, looked),
        Request::Undo => plan_undo(alloc, database),
        Request::Read { view } => {
            plan_view(alloc, database, &view, ViewRequest::Read, walked, looked)
        }
        Request::Find {
            view,
            column,
            value,
        } => {
            let asked = ViewRequest::Find { column, value };
            plan_view(alloc, database, &view, asked, walked, looked)
        }
        Request::Put { view, rows, on } => {
            let asked = ViewRequest::Put { rows, on };
            plan_view(alloc, database, &view, asked, walked, looked)
        }
        Request::Edit {
            view,
            remove,
            add,
            on,
        } => {
            let asked = ViewRequest::Edit { remove, add, on };
            plan_view(alloc, database, &view, asked, walked, looked)
        }
        Request::Preview {
            view,
            remove,
            add,
            on,
        } => {
            let asked = ViewRequest::Preview { remove, add, on };
            plan_view(alloc, database, &view, asked, walked, looked)
        }
        Request::Describe { view } => {
            plan_view(
                alloc,
                database,
                &view,
                ViewRequest::Describe,
                walked,
                looked,
            )
        }
        Request::Export { view } => {
            plan_view(alloc, database, &view, ViewRequest::Export, walked, looked)
        }
        Request::Import { view, csv, on } => {
            let asked = ViewRequest::Import { csv, on };
            plan_view(alloc, database, &view, asked, walked, looked)
        }
    }
}

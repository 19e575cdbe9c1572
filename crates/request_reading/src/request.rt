//! Requests, and how a line is read as one.
ghost use Rattle.std.specs.Prelude.{◌≡◌, Err, Some, option_map};
ghost use Rattle.borrowed_json.specs.Meaning.{value_data, members_data};
ghost use Rattle.io_specs.specs.Lines as lines;
ghost use Rattle.server_specs.specs.Answer.{bad_request};
ghost use Rattle.server_specs.specs.Request as spec;
ghost use Rattle.request_reading.specs.Requests.{Reads, Tells};
ghost use Rattle.request_reading.specs.RequestKinds.{kind_view};
ghost use Rattle.request_reading.specs.declared.request.RequestFault.TheVariants as fault;

use crate::batch_edits::BatchEdits;
use crate::by_kind::request_of_kind;
use crate::member_fault::{MemberFault, least_of};
use crate::request_kind::{RequestKind, first_unknown};
use crate::sent::{JsonRows, JsonValue};
use borrowed_json::{Entry, Value as Json, as_str, member, read_line};
use json::Scratch;
use lens_values::{Name, NoMemory, Text};
use line_texts::{CsvText, Member};
use std::alloc::Global;

/// One of the twelve requests. Its rows and its value borrow the texts of its line.
#[derive(Drop)]
pub enum Request<'a> {
    /// To make the table or the view that the text defines.
    Define {
        text: Text,
    },
    /// To show the rows of a view.
    Read {
        view: Name,
    },
    /// To show the rows of a view whose value in a column is this one.
    Find {
        view: Name,
        column: Name,
        value: JsonValue<'a>,
    },
    /// To make these rows the rows of a view. The change may rest on a version.
    Put {
        view: Name,
        rows: JsonRows<'a>,
        on: Option<u64>,
    },
    /// To remove rows of a view and to add others. The change may rest on a version.
    Edit {
        view: Name,
        remove: JsonRows<'a>,
        add: JsonRows<'a>,
        on: Option<u64>,
    },
    /// To show what an edit would change.
    Preview {
        view: Name,
        remove: JsonRows<'a>,
        add: JsonRows<'a>,
        on: Option<u64>,
    },
    /// To show the columns of a view and what holds of its rows.
    Describe {
        view: Name,
    },
    /// To show the definitions.
    List,
    /// To make these edits one after another, or none of them. The change may rest on a version.
    Batch {
        edits: BatchEdits<'a>,
        on: Option<u64>,
    },
    /// To undo the last change.
    Undo,
    /// To show the rows of a view as CSV.
    Export {
        view: Name,
    },
    /// To make the rows of this CSV the rows of a view. The change may rest on a version.
    Import {
        view: Name,
        csv: CsvText,
        on: Option<u64>,
    },
}

/// Why a line is no request.
#[derive(Drop)]
pub enum RequestFault {
    /// The line is no JSON.
    NotJson,
    /// The least member that is missing, unknown or of the wrong shape.
    BadRequest {
        /// The member.
        member: Member,
    },
    /// Memory ran out.
    NoMemory,
}

impl From<NoMemory> for RequestFault {
    ghost from_gives = { λ _ e. e ≡ fault.NoMemory };

    fn from(_: NoMemory) -> RequestFault {
        RequestFault::NoMemory
    }
}

impl RequestFault {
    fn bad_request(alloc: Global, name: &str) -> RequestFault
        ensures { Tells result (Err (bad_request name.now)) }
    {
        match Member::copy_of(alloc, name) {
            Ok(member) => RequestFault::BadRequest { member },
            Err(_) => RequestFault::NoMemory,
        }
    }
}

/// What a line asks for. The scratch holds texts that are sent with escapes.
pub fn read_request<'a>(
    alloc: Global,
    line: &'a [u8],
    scratch: &'a mut Scratch,
) -> Result<Request<'a>, RequestFault>
    ensures { Reads result (spec.request (lines.line line.now)) }
{
    match read_line(alloc, line, scratch)? {
        Some(json) => request_of(alloc, json),
        None => Err(RequestFault::NotJson),
    }
}

fn request_of<'a>(alloc: Global, json: Json<'a>) -> Result<Request<'a>, RequestFault>
    ensures { Reads result (spec.request_of (value_data json.entry)) }
{
    match json {
        Json::Object(members) => request_in(alloc, members),
        _ => Err(RequestFault::bad_request(alloc, "do")),
    }
}

fn request_in<'a>(alloc: Global, members: Vec<Entry<'a>>) -> Result<Request<'a>, RequestFault>
    ensures { Reads result
        (spec.request_in (spec.asked_in (members_data members.entry.items))
        (members_data members.entry.items)) }
{
    match kind_in(&members) {
        Some(kind) => request_for(alloc, kind, members),
        None => Err(RequestFault::bad_request(alloc, "do")),
    }
}

fn kind_in(members: &[Entry<'_>]) -> Option<RequestKind>
    ensures { option_map kind_view result ≡ spec.asked_in (members_data members.now) }
{
    RequestKind::by_word(as_str(member(members, "do")?)?)
}

// Makes the request, unless a member is wrong or unknown.
fn request_for<'a>(
    alloc: Global,
    kind: RequestKind,
    members: Vec<Entry<'a>>,
) -> Result<Request<'a>, RequestFault>
    requires { spec.asked_in (members_data members.items) ≡ Some (kind_view kind) }
    ensures { Reads result
        (spec.unless_wrong (spec.least_wrong (kind_view kind) (members_data members.entry.items))
        (kind_view kind) (members_data members.entry.items)) }
{
    let unknown = first_unknown(kind.member_names(), &members);
    match request_of_kind(alloc, kind, members) {
        Ok(request) => match unknown {
            None => Ok(request),
            Some(name) => Err(RequestFault::bad_request(alloc, name)),
        },
        Err(MemberFault::Wrong { member }) => {
            Err(RequestFault::bad_request(alloc, least_of(member, unknown)))
        }
        Err(MemberFault::NoMemory) => Err(RequestFault::NoMemory),
    }
}

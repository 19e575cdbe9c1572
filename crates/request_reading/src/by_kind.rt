//! Requests of each kind, read from their members.
ghost use Rattle.borrowed_json.specs.Meaning.{members_data};
ghost use Rattle.server_specs.specs.Request as spec;
ghost use Rattle.request_reading.specs.Blames.{Finds};
ghost use Rattle.request_reading.specs.Edits.{edit_view};
ghost use Rattle.request_reading.specs.RequestKinds.{kind_view};
ghost use Rattle.request_reading.specs.Requests.{edit_sent, request_view, said_in};

use crate::batch_edits::BatchEdit;
use crate::batches::batch_in;
use crate::member_fault::MemberFault;
use crate::request::Request;
use crate::request_kind::RequestKind;
use crate::request_members::{csv_in, name_in, on_in, take_rows, text_in};
use crate::sent::JsonValue;
use borrowed_json::{Entry, take_member};
use line_texts::CsvText;
use std::alloc::Global;

/// A request of this kind, unless a member is missing or of the wrong shape. The fault names the
/// first that is.
pub(crate) fn request_of_kind<'a>(
    alloc: Global,
    kind: RequestKind,
    members: Vec<Entry<'a>>,
) -> Result<Request<'a>, MemberFault<'static>>
    ensures { Finds request_view result (said_in (kind_view kind) (members_data members.entry.items)) }
{
    match kind {
        RequestKind::Define => define_in(alloc, &members),
        RequestKind::Read => read_in(&members),
        RequestKind::Find => find_in(members),
        RequestKind::Put => put_in(members),
        RequestKind::Edit => edit_in(members),
        RequestKind::Preview => preview_in(members),
        RequestKind::Describe => describe_in(&members),
        RequestKind::List => Ok(Request::List),
        RequestKind::Batch => batch_in(alloc, members),
        RequestKind::Undo => Ok(Request::Undo),
        RequestKind::Export => export_in(&members),
        RequestKind::Import => import_in(alloc, &members),
    }
}

// A request to define.
fn define_in<'a>(alloc: Global, members: &[Entry<'a>]) -> Result<Request<'a>, MemberFault<'static>>
    ensures { Finds request_view result (said_in spec.to_define (members_data members.now)) }
{
    let text = text_in(alloc, members)?;
    Ok(Request::Define { text })
}

// A request to read.
fn read_in<'a>(members: &[Entry<'a>]) -> Result<Request<'a>, MemberFault<'static>>
    ensures { Finds request_view result (said_in spec.to_read (members_data members.now)) }
{
    let view = name_in(members, "view")?;
    Ok(Request::Read { view })
}

// A request to find.
fn find_in<'a>(mut members: Vec<Entry<'a>>) -> Result<Request<'a>, MemberFault<'static>>
    ensures { Finds request_view result (said_in spec.to_find (members_data members.entry.items)) }
{
    let column = name_in(&members, "column")?;
    let Some(json) = take_member(&mut members, "value") else {
        return Err(MemberFault::Wrong { member: "value" });
    };
    let view = name_in(&members, "view")?;
    Ok(Request::Find {
        view,
        column,
        value: JsonValue::new(json),
    })
}

// A put.
fn put_in<'a>(mut members: Vec<Entry<'a>>) -> Result<Request<'a>, MemberFault<'static>>
    ensures { Finds request_view result (said_in spec.to_put (members_data members.entry.items)) }
{
    let on = on_in(&members)?;
    let rows = take_rows(&mut members, "rows")?;
    let view = name_in(&members, "view")?;
    Ok(Request::Put { view, rows, on })
}

// An edit.
fn edit_in<'a>(members: Vec<Entry<'a>>) -> Result<Request<'a>, MemberFault<'static>>
    ensures { Finds request_view result (said_in spec.to_edit (members_data members.entry.items)) }
{
    let (BatchEdit { view, remove, add }, on) = edit_sent(members)?;
    Ok(Request::Edit {
        view,
        remove,
        add,
        on,
    })
}

// The preview of an edit.
fn preview_in<'a>(members: Vec<Entry<'a>>) -> Result<Request<'a>, MemberFault<'static>>
    ensures { Finds request_view result (said_in spec.to_preview (members_data members.entry.items)) }
{
    let (BatchEdit { view, remove, add }, on) = edit_sent(members)?;
    Ok(Request::Preview {
        view,
        remove,
        add,
        on,
    })
}

// An edit, and the version that it rests on.
fn edit_sent<'a>(
    mut members: Vec<Entry<'a>>,
) -> Result<(BatchEdit<'a>, Option<u64>), MemberFault<'static>>
    ensures { Finds (λ sent. (edit_view sent.0, sent.1)) result
        (edit_sent (members_data members.entry.items)) }
{
    let add = take_rows(&mut members, "add")?;
    let on = on_in(&members)?;
    let remove = take_rows(&mut members, "remove")?;
    let view = name_in(&members, "view")?;
    Ok((BatchEdit { view, remove, add }, on))
}

// A request to describe.
fn describe_in<'a>(members: &[Entry<'a>]) -> Result<Request<'a>, MemberFault<'static>>
    ensures { Finds request_view result (said_in spec.to_describe (members_data members.now)) }
{
    let view = name_in(members, "view")?;
    Ok(Request::Describe { view })
}

// A request to export.
fn export_in<'a>(members: &[Entry<'a>]) -> Result<Request<'a>, MemberFault<'static>>
    ensures { Finds request_view result (said_in spec.to_export (members_data members.now)) }
{
    let view = name_in(members, "view")?;
    Ok(Request::Export { view })
}

// An import. The CSV is copied, because the JSON of a line borrows its texts.
fn import_in<'a>(alloc: Global, members: &[Entry<'a>]) -> Result<Request<'a>, MemberFault<'static>>
    ensures { Finds request_view result (said_in spec.to_import (members_data members.now)) }
{
    let text = csv_in(members)?;
    let on = on_in(members)?;
    let view = name_in(members, "view")?;
    let csv = CsvText::copy_of(alloc, text)?;
    Ok(Request::Import { view, csv, on })
}

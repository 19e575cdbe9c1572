//! Batches of edits: the members of their requests.
ghost use Rattle.std.specs.Prelude.{◌≡◌, ℕ, List, IfOk, codes, option_map};
ghost use Rattle.serde_json.specs.Find.{get_member};
ghost use Rattle.borrowed_json.specs.Meaning.{value_data, items_data, members_data};
ghost use Rattle.server_specs.specs.Request as spec;
ghost use Rattle.request_reading.specs.Blames.{Finds};
ghost use Rattle.request_reading.specs.Edits.{edit_view};
ghost use Rattle.request_reading.specs.Requests.{batch_in, edits_in, request_view};

use crate::batch_edits::{BatchEdit, BatchEdits};
use crate::member_fault::MemberFault;
use crate::request::Request;
use crate::request_kind::first_unknown;
use crate::request_members::{name_at, on_in, rows_at};
use borrowed_json::{Entry, Value as Json, take_member};
use lens_values::NoMemory;
use std::alloc::Global;

/// A batch.
pub(crate) fn batch_in<'a>(
    alloc: Global,
    mut members: Vec<Entry<'a>>,
) -> Result<Request<'a>, MemberFault<'static>>
    ensures { Finds request_view result (batch_in (members_data members.entry.items)) }
{
    let edits = take_edits(alloc, &mut members)?;
    let on = on_in(&members)?;
    Ok(Request::Batch { edits, on })
}

// The edits, moved out of their object.
fn take_edits<'a>(
    alloc: Global,
    members: &mut Vec<Entry<'a>>,
) -> Result<BatchEdits<'a>, MemberFault<'static>>
    ensures edits { Finds (λ edits. edits) result (edits_in (members_data members.old.items)) }
    ensures others { (other : List ℕ) → (other ≡ codes "edits" → ⊥)
        → get_member other (members_data members.new.items)
        ≡ get_member other (members_data members.old.items) }
{
    match take_member(members, "edits") {
        Some(json) => edits_in(alloc, json)?.ok_or(MemberFault::Wrong { member: "edits" }),
        None => Err(MemberFault::Wrong { member: "edits" }),
    }
}

fn edits_in<'a>(alloc: Global, json: Json<'a>) -> Result<Option<BatchEdits<'a>>, NoMemory>
    ensures { IfOk result (λ found. found ≡ spec.edits_in (value_data json.entry)) }
{
    match json {
        Json::Array(list) => edits_of(alloc, list),
        _ => Ok(None),
    }
}

// The edits, in the order of the elements, if each is one.
fn edits_of<'a>(alloc: Global, list: Vec<Json<'a>>) -> Result<Option<BatchEdits<'a>>, NoMemory>
    ensures { IfOk result (λ found. found ≡ spec.each_edit (items_data list.entry.items)) }
{
    let mut edits = Vec::with_capacity(alloc, list.len())?;
    for json in list {
        match edit_of(json) {
            Some(edit) => edits.push(edit)?,
            None => return Ok(None),
        }
    }
    Ok(Some(BatchEdits::new(edits)))
}

fn edit_of<'a>(json: Json<'a>) -> Option<BatchEdit<'a>>
    ensures { option_map edit_view result ≡ spec.batch_edit_in (value_data json.entry) }
{
    match json {
        Json::Object(members) => edit_of_members(members),
        _ => None,
    }
}

// The edit, if its members are exactly those of one, each of its shape.
fn edit_of_members<'a>(mut members: Vec<Entry<'a>>) -> Option<BatchEdit<'a>>
    ensures { option_map edit_view result
        ≡ spec.edit_of_members (members_data members.entry.items) }
{
    if first_unknown(&["add", "remove", "view"], &members).is_some() {
        return None;
    }
    let view = name_at(&members, "view")?;
    let remove = rows_at(&mut members, "remove")?;
    let add = rows_at(&mut members, "add")?;
    Some(BatchEdit { view, remove, add })
}

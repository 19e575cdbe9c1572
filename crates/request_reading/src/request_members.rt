//! The members of requests, each read by its name.
ghost use Rattle.std.specs.Prelude.{◌≡◌, ℕ, List, option_map};
ghost use Rattle.serde_json.specs.Find.{as_array, get_member};
ghost use Rattle.borrowed_json.specs.Meaning.{value_data, items_data, members_data};
ghost use Rattle.request_reading.specs.Blames.{Finds};
ghost use Rattle.request_reading.specs.Requests.{csv_in, name_at, name_in, on_in, rows_at, rows_in, text_in};

use crate::member_fault::MemberFault;
use crate::member_values::{name_member, text_member};
use crate::sent::JsonRows;
use borrowed_json::{Entry, Value as Json, as_str, as_u64, member, take_member};
use lens_values::{Name, Text};
use std::alloc::Global;

/// The name that a member holds.
pub(crate) fn name_in<'n>(members: &[Entry<'_>], name: &'n str) -> Result<Name, MemberFault<'n>>
    ensures { Finds (λ held. held) result (name_in name.now (members_data members.now)) }
{
    name_at(members, name).ok_or(MemberFault::Wrong { member: name })
}

/// The name that a member holds, if it holds one.
pub(crate) fn name_at(members: &[Entry<'_>], name: &str) -> Option<Name>
    ensures { result ≡ name_at name.now (members_data members.now) }
{
    name_member(member(members, name)?)
}

/// The text of a definition.
pub(crate) fn text_in(alloc: Global, members: &[Entry<'_>]) -> Result<Text, MemberFault<'static>>
    ensures { Finds (λ text. text) result (text_in (members_data members.now)) }
{
    match member(members, "text") {
        Some(json) => text_member(alloc, json)?.ok_or(MemberFault::Wrong { member: "text" }),
        None => Err(MemberFault::Wrong { member: "text" }),
    }
}

/// The CSV of an import.
pub(crate) fn csv_in<'a>(members: &[Entry<'a>]) -> Result<&'a str, MemberFault<'static>>
    ensures { Finds (λ text. text.now) result (csv_in (members_data members.now)) }
{
    match member(members, "csv") {
        Some(json) => as_str(json).ok_or(MemberFault::Wrong { member: "csv" }),
        None => Err(MemberFault::Wrong { member: "csv" }),
    }
}

/// The version on which a change rests, if one is sent.
pub(crate) fn on_in(members: &[Entry<'_>]) -> Result<Option<u64>, MemberFault<'static>>
    ensures { Finds (λ on. on) result (on_in (members_data members.now)) }
{
    match member(members, "on") {
        Some(json) => match as_u64(json) {
            Some(version) => Ok(Some(version)),
            None => Err(MemberFault::Wrong { member: "on" }),
        },
        None => Ok(None),
    }
}

/// The rows of a member, moved out of its object.
pub(crate) fn take_rows<'a, 'n>(
    members: &mut Vec<Entry<'a>>,
    name: &'n str,
) -> Result<JsonRows<'a>, MemberFault<'n>>
    ensures rows { Finds (λ rows. rows) result (rows_in name.now (members_data members.old.items)) }
    ensures others { (other : List ℕ) → (other ≡ name.now → ⊥)
        → get_member other (members_data members.new.items)
        ≡ get_member other (members_data members.old.items) }
{
    rows_at(members, name).ok_or(MemberFault::Wrong { member: name })
}

/// The rows of a member, moved out of its object, if it holds some.
pub(crate) fn rows_at<'a>(members: &mut Vec<Entry<'a>>, name: &str) -> Option<JsonRows<'a>>
    ensures rows { result ≡ rows_at name.now (members_data members.old.items) }
    ensures others { (other : List ℕ) → (other ≡ name.now → ⊥)
        → get_member other (members_data members.new.items)
        ≡ get_member other (members_data members.old.items) }
{
    let json = take_member(members, name)?;
    Some(JsonRows::new(into_array(json)?))
}

// The elements of an array, moved out of it.
fn into_array<'a>(json: Json<'a>) -> Option<Vec<Json<'a>>>
    ensures { option_map (λ list. items_data list.items) result ≡ as_array (value_data json.entry) }
{
    match json {
        Json::Array(list) => Some(list),
        _ => None,
    }
}

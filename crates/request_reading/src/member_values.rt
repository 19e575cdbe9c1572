//! The texts, names and values that members hold.
ghost use Rattle.std.specs.Prelude.{◌≡◌, IfOk};
ghost use Rattle.borrowed_json.specs.Meaning.{value_data};
ghost use Rattle.server_specs.specs.Request.{text_in, name_in};
ghost use Rattle.server_specs.specs.Sending as spec;

use borrowed_json::{Value as Json, as_i64, as_str};
use lens_values::{Kind, Name, NoMemory, Text, TextFault, Value};
use std::alloc::Global;

/// The text that a member holds.
pub(crate) fn text_member(alloc: Global, json: &Json<'_>) -> Result<Option<Text>, NoMemory>
    ensures { IfOk result (λ text. text ≡ text_in (value_data json.now)) }
{
    let Some(bytes) = as_str(json) else {
        return Ok(None);
    };
    match Text::new(alloc, bytes) {
        Ok(text) => Ok(Some(text)),
        Err(TextFault::NoMemory) => Err(NoMemory),
        Err(_) => Ok(None),
    }
}

/// The name that a member holds.
pub(crate) fn name_member(json: &Json<'_>) -> Option<Name>
    ensures { result ≡ name_in (value_data json.now) }
{
    let Some(bytes) = as_str(json) else {
        return None;
    };
    Name::new(bytes).ok()
}

/// The value that the JSON says, if it fits the kind.
pub(crate) fn value_in(
    alloc: Global,
    kind: Kind,
    json: &Json<'_>,
) -> Result<Option<Value>, NoMemory>
    ensures { IfOk result (λ found. found ≡ spec.value_in kind (value_data json.now)) }
{
    match value_of(alloc, json)? {
        Some(value) if value.fits(kind) => Ok(Some(value)),
        _ => Ok(None),
    }
}

// The value that the JSON says: null, a number of 64 bits, a text or a truth value.
fn value_of(alloc: Global, json: &Json<'_>) -> Result<Option<Value>, NoMemory>
    ensures { IfOk result (λ found. found ≡ spec.value_of (value_data json.now)) }
{
    match json {
        Json::Bool(flag) => Ok(Some(Value::Flag(*flag))),
        Json::Number(_) => Ok(as_i64(json).map(Value::Int)),
        Json::String(_) => Ok(text_member(alloc, json)?.map(Value::Text)),
        Json::Null => Ok(Some(Value::Null)),
        Json::Array(_) | Json::Object(_) => Ok(None),
    }
}

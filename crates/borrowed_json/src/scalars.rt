//! Values that hold no others.
ghost use Rattle.std.specs.Prelude.{◌≡◌, option_map, option_and_then};
ghost use Rattle.serde_json.specs.Find as find;
ghost use Rattle.borrowed_json.specs.Meaning.{value_data};

use crate::value::Value;

/// The text of a string.
pub fn as_str<'a>(value: &Value<'a>) -> Option<&'a str>
    ensures { option_map (λ text. text.now) result ≡ find.as_str (value_data value.now) }
{
    match value {
        Value::String(text) => Some(*text),
        _ => None,
    }
}

/// The number, if it is an integer that fits.
pub fn as_i64(value: &Value<'_>) -> Option<i64>
    ensures { result ≡ option_and_then find.as_i64 (find.as_number (value_data value.now)) }
{
    match value {
        Value::Number(number) => number.as_i64(),
        _ => None,
    }
}

/// The number, if it is an integer that fits and is not below 0.
pub fn as_u64(value: &Value<'_>) -> Option<u64>
    ensures { result ≡ option_and_then find.as_u64 (find.as_number (value_data value.now)) }
{
    match value {
        Value::Number(number) => number.as_u64(),
        _ => None,
    }
}

//! The values that fields stand for.
ghost use Rattle.std.specs.Prelude.{◌≡◌, IfOk, option_map};
ghost use Rattle.plain_values.specs.declared.value.Value.TheVariants as value;
ghost use Rattle.csv_specs.specs.Fields.{flag_in, number_in, text_in, value_in};

use lens_values::{Kind, NoMemory, Text, TextFault, Value};
use std::alloc::Global;
use std::str;

/// The value of the kind that the field stands for, if it does. No field stands for null.
pub fn value_of(alloc: Global, kind: Kind, field: &[u8]) -> Result<Option<Value>, NoMemory>
    ensures { IfOk result (λ found. found ≡ value_in kind field.now) }
{
    match kind {
        Kind::Int | Kind::IntOrNull => Ok(number_value(field)),
        Kind::Text | Kind::TextOrNull => text_value(alloc, field),
        Kind::Flag | Kind::FlagOrNull => Ok(flag_value(field)),
    }
}

fn number_value(field: &[u8]) -> Option<Value>
    ensures { result ≡ option_map value.Int (number_in field.now) }
{
    match number_of(field) {
        Some(number) => Some(Value::Int(number)),
        None => None,
    }
}

// The number of the field: digits, or a minus sign and digits. A plus sign is none of them.
fn number_of(field: &[u8]) -> Option<i64>
    ensures { result ≡ number_in field.now }
{
    if field.is_empty() || field[0] == b'+' {
        return None;
    }
    match str::from_utf8(field) {
        Ok(text) => text.parse().ok(),
        Err(_) => None,
    }
}

// The field as a text value. `None`: the field is no UTF-8, or no text that a column may hold.
fn text_value(alloc: Global, field: &[u8]) -> Result<Option<Value>, NoMemory>
    ensures { IfOk result (λ found. found ≡ option_map value.Text (text_in field.now)) }
{
    match str::from_utf8(field) {
        Ok(text) => match Text::new(alloc, text) {
            Ok(text) => Ok(Some(Value::Text(text))),
            Err(TextFault::NoMemory) => Err(NoMemory),
            Err(_) => Ok(None),
        },
        Err(_) => Ok(None),
    }
}

fn flag_value(field: &[u8]) -> Option<Value>
    ensures { result ≡ option_map value.Flag (flag_in field.now) }
{
    if field == b"true".as_slice() {
        Some(Value::Flag(true))
    } else if field == b"false".as_slice() {
        Some(Value::Flag(false))
    } else {
        None
    }
}

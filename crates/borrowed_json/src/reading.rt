//! Lines read as JSON.
ghost use Rattle.std.specs.Prelude.{◌≡◌, ◌<◌, Err, None, Some, IfOk, OnOk, MatchResult, if◌then◌else◌, length, option_map};
ghost use Rattle.std.specs.Str.{is_utf8};
ghost use Rattle.json.specs.Json.{items, members, value};
ghost use Rattle.serde_json.specs.Data.{no_members};
ghost use Rattle.serde_json.specs.Read.{converted, of_items, of_json, of_members, read};
ghost use Rattle.borrowed_json.specs.Meaning.{value_data, items_data, members_data};

use crate::fault::Fault;
use crate::numbers::number_in;
use crate::value::{Entry, Value};
use json::{Reader, Scratch, Token};
use no_memory::NoMemory;
use std::alloc::Global;

// Arrays and objects nest so deep at most, as in serde_json.
const MAX_DEPTH: usize = 127;

/// Reads a line as JSON, which borrows its texts from the line, and from the scratch where they
/// have escapes. `None` where it is no JSON: no UTF-8, no text of the grammar, one that nests
/// deeper than 127, or one with a number that is too large for a float. `NoMemory` where memory
/// runs out.
pub fn read_line<'a>(
    alloc: Global,
    line: &'a [u8],
    scratch: &'a mut Scratch,
) -> Result<Option<Value<'a>>, NoMemory>
    ensures { IfOk result (λ found. option_map value_data found
        ≡ (if is_utf8 line.now then read line.now else None)) }
{
    match simdutf8::basic::from_utf8(line) {
        Ok(text) => read_text(alloc, text, scratch),
        Err(_) => Ok(None),
    }
}

// Reads a text that is one value. It is no JSON if something stands behind the value.
fn read_text<'a>(
    alloc: Global,
    text: &'a str,
    scratch: &'a mut Scratch,
) -> Result<Option<Value<'a>>, NoMemory>
    ensures { IfOk result (λ found. option_map value_data found ≡ read text.now) }
{
    let mut reader = Reader::new(text, scratch)?;
    match read_value(alloc, &mut reader, MAX_DEPTH) {
        Ok(_) if reader.next().is_some() => Ok(None),
        Ok(value) => Ok(Some(value)),
        Err(Fault::NotJson) => Ok(None),
        Err(Fault::NoMemory) => Err(NoMemory),
    }
}

// Reads the next value. Arrays and objects may nest `depth` deep in it.
#[cycle(reading)]
#[inline(always)]
fn read_value<'a>(alloc: Global, reader: &mut Reader<'a>, depth: usize) -> Result<Value<'a>, Fault>
    ensures ok { IfOk result (λ found.
        converted of_json (value depth reader.old) ≡ Some (value_data found, reader.new)) }
    ensures shorter { OnOk result (length reader.new < length reader.old) }
    ensures err { result ≡ Err Fault.NotJson → converted of_json (value depth reader.old) ≡ None }
{
    let token = reader.next().ok_or(Fault::NotJson)?;
    match token {
        Token::Null => Ok(Value::Null),
        Token::Bool(flag) => Ok(Value::Bool(flag)),
        Token::Number(text) => match number_in(text) {
            Some(number) => Ok(Value::Number(number)),
            None => Err(Fault::NotJson),
        },
        Token::String(text) => Ok(Value::String(text)),
        Token::BeginArray => {
            if depth == 0 {
                return Err(Fault::NotJson);
            }
            Ok(Value::Array(read_items(alloc, reader, depth - 1)?))
        }
        Token::BeginObject => {
            if depth == 0 {
                return Err(Fault::NotJson);
            }
            Ok(Value::Object(read_members(alloc, reader, depth - 1)?))
        }
        Token::EndArray | Token::EndObject | Token::Key(_) | Token::Bad => Err(Fault::NotJson),
    }
}

// The values of an array, behind its bracket.
#[cycle(reading)]
#[inline(never)]
fn read_items<'a>(
    alloc: Global,
    reader: &mut Reader<'a>,
    depth: usize,
) -> Result<Vec<Value<'a>>, Fault>
    ensures ok { IfOk result (λ list.
        converted of_items (items (value depth) (length reader.old) reader.old)
        ≡ Some (items_data list.items, reader.new)) }
    ensures shorter { OnOk result (length reader.new < length reader.old) }
    ensures err { result ≡ Err Fault.NotJson
        → converted of_items (items (value depth) (length reader.old) reader.old) ≡ None }
{
    let mut list = Vec::new(alloc);
    'items: while !reader.take_end_array() {
        let item = read_value(alloc, reader, depth)?;
        list.push(item)?;
    }
    Ok(fitted(alloc, list)?)
}

// Reads the members of an object, whose opening brace is read already.
#[cycle(reading)]
#[inline(never)]
fn read_members<'a>(
    alloc: Global,
    reader: &mut Reader<'a>,
    depth: usize,
) -> Result<Vec<Entry<'a>>, Fault>
    ensures ok { IfOk result (λ list.
        converted (λ ms. of_members ms no_members)
        (members (value depth) (length reader.old) reader.old)
        ≡ Some (members_data list.items, reader.new)) }
    ensures shorter { OnOk result (length reader.new < length reader.old) }
    ensures err { result ≡ Err Fault.NotJson
        → converted (λ ms. of_members ms no_members)
        (members (value depth) (length reader.old) reader.old) ≡ None }
{
    let mut list = Vec::new(alloc);
    'members: while let Some(name) = reader.next_key()? {
        let member = read_value(alloc, reader, depth)?;
        list.push((name, member))?;
    }
    Ok(fitted(alloc, list)?)
}

// The list, in no more memory than it needs where it has one element: else lists of one in one
// another would take three times as much.
fn fitted<T: Drop>(alloc: Global, mut list: Vec<T>) -> Result<Vec<T>, NoMemory>
    ensures { IfOk result (λ fitted. fitted.items ≡ list.items) }
{
    if list.len() != 1 {
        return Ok(list);
    }
    let mut one = Vec::with_capacity(alloc, 1)?;
    one.append(&mut list)?;
    Ok(one)
}

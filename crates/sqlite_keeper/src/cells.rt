//! Values as they stand in a database, and back.
ghost use Rattle.std.specs.Prelude.{◌≡◌, ◌&&◌, ◌++◌, true, false, Some, None, IfOk, OnOk, Err, map, flat_map};
ghost use Rattle.std.specs.List.{zip};
ghost use Rattle.std.specs.Str.{is_utf8};
ghost use Rattle.plain_values.specs.Bytes.{is_text};
ghost use Rattle.sqlite_value.specs.Value.{owned};
ghost use Rattle.sqlite_keeper.specs.Cells.{ReadsBack, cell_of, cells_at, empty_cell, is_empty, mark_of, marked_in};
ghost use Rattle.sqlite_keeper.specs.Cells.{flag_of, number_in, text_in, value_in};

use crate::refusal::Refusal;
use lens_values::{Kind, Name, Text, Value};
use sqlite::types::ValueRef;
use std::alloc::{AllocError, Global};

/// What stands for the value in a column of this kind.
pub fn cell_of<'a>(kind: Kind, value: &'a Value) -> ValueRef<'a>
    ensures same { owned result ≡ cell_of kind value.now }
    ensures back { ReadsBack kind value.now (owned result) }
{
    match value {
        Value::Null => empty_cell(kind),
        Value::Int(number) => ValueRef::Int(*number),
        Value::Text(text) => ValueRef::Text(text.as_str().as_bytes()),
        Value::Flag(flag) => ValueRef::Int(if *flag { 1 } else { 0 }),
    }
}

// What stands for null in a column of this kind.
fn empty_cell<'a>(kind: Kind) -> ValueRef<'a>
    ensures { owned result ≡ empty_cell kind }
{
    match kind {
        Kind::Int | Kind::IntOrNull | Kind::Flag | Kind::FlagOrNull => ValueRef::Int(0),
        Kind::Text | Kind::TextOrNull => ValueRef::Text("".as_bytes()),
    }
}

// The mark of the value.
fn mark_of<'a>(value: &Value) -> ValueRef<'a>
    ensures { owned result ≡ mark_of value.now }
{
    ValueRef::Int(if value.is_null() { 1 } else { 0 })
}

/// What stands for the values in these columns, in their order, each with its mark where the column
/// takes null.
pub fn cells_of<'a>(
    alloc: Global,
    columns: &[(Name, Kind)],
    values: &'a [Value],
) -> Result<Vec<ValueRef<'a>>, AllocError>
    ensures { IfOk result (λ cells. map owned cells.items
        ≡ flat_map (λ e. cells_at e.0.1 e.1) (zip columns.now values.now)) }
{
    let mut cells = Vec::with_capacity(alloc, values.len())?;
    for (column, value) in columns.iter().zip(values) {
        push_cells(&mut cells, column.1, value)?;
    }
    Ok(cells)
}

// Adds what stands for the value, and its mark where the kind takes null.
fn push_cells<'a>(
    cells: &mut Vec<ValueRef<'a>>,
    kind: Kind,
    value: &'a Value,
) -> Result<(), AllocError>
    ensures { OnOk result (map owned cells.new.items
        ≡ map owned cells.old.items ++ cells_at kind value.now) }
{
    cells.push(cell_of(kind, value))?;
    if kind.is_nullable() {
        cells.push(mark_of(value))?;
    }
    Ok(())
}

/// What stands with its mark for a value of this kind.
pub fn marked_in(
    alloc: Global,
    kind: Kind,
    cell: ValueRef<'_>,
    mark: ValueRef<'_>,
) -> Result<Value, Refusal>
    ensures ok { IfOk result (λ value.
        marked_in kind (owned cell.entry) (owned mark.entry) ≡ Some value) }
    ensures refused { result ≡ Err Refusal.Failed
        → marked_in kind (owned cell.entry) (owned mark.entry) ≡ None }
{
    match mark {
        ValueRef::Int(0) => value_in(alloc, kind, cell),
        ValueRef::Int(1) if is_empty(&cell) => Ok(Value::Null),
        ValueRef::Int(_) => Err(Refusal::Failed),
        ValueRef::Null | ValueRef::Text(_) | ValueRef::Real(_) | ValueRef::Blob(_) => {
            Err(Refusal::Failed)
        }
    }
}

// Whether it is 0 or the empty text.
fn is_empty(cell: &ValueRef<'_>) -> bool
    ensures { result ≡ is_empty (owned cell.now) }
{
    match cell {
        ValueRef::Int(number) => *number == 0,
        ValueRef::Text(bytes) => bytes.is_empty(),
        ValueRef::Null | ValueRef::Real(_) | ValueRef::Blob(_) => false,
    }
}

/// What stands for a value of this kind.
pub fn value_in(alloc: Global, kind: Kind, cell: ValueRef<'_>) -> Result<Value, Refusal>
    ensures ok { IfOk result (λ value. value_in kind (owned cell.entry) ≡ Some value) }
    ensures refused { result ≡ Err Refusal.Failed → value_in kind (owned cell.entry) ≡ None }
{
    match cell {
        ValueRef::Int(number) => number_in(kind, number),
        ValueRef::Text(bytes) => text_in(alloc, kind, bytes),
        ValueRef::Null | ValueRef::Real(_) | ValueRef::Blob(_) => Err(Refusal::Failed),
    }
}

// What a number stands for in a column of this kind.
fn number_in(kind: Kind, number: i64) -> Result<Value, Refusal>
    ensures ok { IfOk result (λ value. number_in kind number ≡ Some value) }
    ensures refused { result ≡ Err Refusal.Failed → number_in kind number ≡ None }
{
    match kind {
        Kind::Int | Kind::IntOrNull => Ok(Value::Int(number)),
        Kind::Flag | Kind::FlagOrNull => Ok(flag_of(number)),
        Kind::Text | Kind::TextOrNull => Err(Refusal::Failed),
    }
}

// What a number stands for in a column of truth values: another one than 0 and 1 for itself.
fn flag_of(number: i64) -> Value
    ensures { result ≡ flag_of number }
{
    if number == 0 {
        Value::Flag(false)
    } else if number == 1 {
        Value::Flag(true)
    } else {
        Value::Int(number)
    }
}

// What bytes of text stand for in a column of this kind.
fn text_in(alloc: Global, kind: Kind, bytes: &[u8]) -> Result<Value, Refusal>
    ensures ok { IfOk result (λ value. text_in kind bytes.now ≡ Some value) }
    ensures refused { result ≡ Err Refusal.Failed → text_in kind bytes.now ≡ None }
{
    match kind {
        Kind::Text | Kind::TextOrNull => {
            let text = text_of(alloc, bytes)?;
            Ok(Value::Text(text))
        }
        Kind::Int | Kind::IntOrNull | Kind::Flag | Kind::FlagOrNull => Err(Refusal::Failed),
    }
}

/// The text of these bytes.
pub fn text_of(alloc: Global, bytes: &[u8]) -> Result<Text, Refusal>
    ensures same { IfOk result (λ text. text ≡ bytes.now) }
    ensures readable { IfOk result (λ text. (is_utf8 bytes.now && is_text bytes.now) ≡ true) }
    ensures refused { result ≡ Err Refusal.Failed
        → (is_utf8 bytes.now && is_text bytes.now) ≡ false }
{
    match str::from_utf8(bytes) {
        Ok(text) => checked_text(alloc, text),
        Err(_) => Err(Refusal::Failed),
    }
}

fn checked_text(alloc: Global, text: &str) -> Result<Text, Refusal>
    ensures same { IfOk result (λ made. made ≡ text.now) }
    ensures checked { IfOk result (λ made. is_text text.now ≡ true) }
    ensures refused { result ≡ Err Refusal.Failed → is_text text.now ≡ false }
{
    let made = Text::new(alloc, text)?;
    Ok(made)
}

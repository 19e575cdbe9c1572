//! Replies printed token by token.
ghost use Rattle.std.specs.Prelude.{◌≡◌, [], ◌∷◌, ◌++◌, IfOk, OnOk, false, map, decimal};
ghost use Rattle.std.specs.FinMap as finmap;
ghost use Rattle.plain_values.specs.SortedSet as set;
ghost use Rattle.server_specs.specs.Answer.{value_data, row_data, rows_data, pair_data, names_data, set_data, edge_data, change_data, changes_data};
ghost use Rattle.signed_delta.specs.Tables.{table_delta};
ghost use Rattle.reply_printing.specs.Printing.{Adds, array, boolean, data_tokens, key, number, string};

use crate::reply::Reply;
use fd_tree::Edge;
use json_text::JsonText;
use lens_values::{Name, Names, NoMemory, Row, Value};
use row_sets::RowSet;
use signed_delta::TableDelta;
use std::alloc::Global;

// How many bytes a reply has room for at first: as many as most replies need.
const FIRST_ROOM: usize = 512;

/// An object that is begun.
pub(crate) fn begun(alloc: Global) -> Result<JsonText, NoMemory>
    ensures bytes { IfOk result (λ out. out.bytes ≡ 123 ∷ []) }
    ensures after_value { IfOk result (λ out. out.after_value ≡ false) }
{
    begun_beside(alloc, 0)
}

/// An object that is begun, with room for so many bytes beside a few members.
pub(crate) fn begun_beside(alloc: Global, bytes: usize) -> Result<JsonText, NoMemory>
    ensures bytes { IfOk result (λ out. out.bytes ≡ 123 ∷ []) }
    ensures after_value { IfOk result (λ out. out.after_value ≡ false) }
{
    let mut out = JsonText::new(alloc, bytes.saturating_add(FIRST_ROOM))?;
    out.begin_object()?;
    Ok(out)
}

/// The line of an object that is ended here.
pub(crate) fn ended(mut out: JsonText) -> Result<Reply, NoMemory>
    ensures { IfOk result (λ reply. reply ≡ (out.bytes ++ 125 ∷ []) ++ 10 ∷ []) }
{
    out.end_object()?;
    let mut bytes = out.into_bytes()?;
    bytes.push(b'\n')?;
    Ok(Reply::made(bytes))
}

/// A member that is true or false.
pub(crate) fn print_flag(out: &mut JsonText, name: &str, flag: bool) -> Result<(), NoMemory>
    ensures { OnOk result (Adds out.old out.new (key name.now ∷ boolean flag ∷ [])) }
{
    out.key(name)?;
    out.boolean(flag)?;
    Ok(())
}

/// A member that is a number.
pub(crate) fn print_number(out: &mut JsonText, name: &str, n: u64) -> Result<(), NoMemory>
    ensures { OnOk result (Adds out.old out.new (key name.now ∷ number (decimal n) ∷ [])) }
{
    out.key(name)?;
    out.u64(n)?;
    Ok(())
}

/// A member that is a text.
pub(crate) fn print_text(out: &mut JsonText, name: &str, value: &str) -> Result<(), NoMemory>
    ensures { OnOk result (Adds out.old out.new (key name.now ∷ string value.now ∷ [])) }
{
    out.key(name)?;
    out.string(value)?;
    Ok(())
}

/// A member that is a name.
pub(crate) fn print_name(out: &mut JsonText, name: &str, value: &Name) -> Result<(), NoMemory>
    ensures { OnOk result (Adds out.old out.new (key name.now ∷ string value.now ∷ [])) }
{
    print_text(out, name, value.as_str())
}

/// A member that is an array of names.
pub(crate) fn print_names(out: &mut JsonText, name: &str, names: &Names) -> Result<(), NoMemory>
    ensures { OnOk result (Adds out.old out.new (key name.now ∷ data_tokens (set_data names.now))) }
{
    out.key(name)?;
    print_name_list(out, names.as_slice())?;
    Ok(())
}

fn print_name_list(out: &mut JsonText, names: &[Name]) -> Result<(), NoMemory>
    ensures { OnOk result (Adds out.old out.new (data_tokens (array (names_data names.now)))) }
{
    out.begin_array()?;
    for name in names {
        out.string(name.as_str())?;
    }
    out.end_array()?;
    Ok(())
}

/// A member that is the two sides of an edge.
pub(crate) fn print_edge(out: &mut JsonText, name: &str, edge: &Edge) -> Result<(), NoMemory>
    ensures { OnOk result (Adds out.old out.new (key name.now ∷ data_tokens (edge_data edge.now))) }
{
    out.key(name)?;
    print_sides(out, edge)?;
    Ok(())
}

/// The two sides of an edge.
pub(crate) fn print_sides(out: &mut JsonText, edge: &Edge) -> Result<(), NoMemory>
    ensures { OnOk result (Adds out.old out.new (data_tokens (edge_data edge.now))) }
{
    out.begin_object()?;
    print_names(out, "left", &edge.left)?;
    print_names(out, "right", &edge.right)?;
    out.end_object()?;
    Ok(())
}

/// A member that is an array of two rows.
pub(crate) fn print_pair(
    out: &mut JsonText,
    name: &str,
    first: &Row,
    second: &Row,
) -> Result<(), NoMemory>
    ensures { OnOk result (Adds out.old out.new
        (key name.now ∷ data_tokens (pair_data first.now second.now))) }
{
    out.key(name)?;
    out.begin_array()?;
    print_object(out, first)?;
    print_object(out, second)?;
    out.end_array()?;
    Ok(())
}

/// A member that is an array of differences of tables.
pub(crate) fn print_changes(
    out: &mut JsonText,
    name: &str,
    changes: &[TableDelta],
) -> Result<(), NoMemory>
    ensures { OnOk result (Adds out.old out.new
        (key name.now ∷ data_tokens (array (changes_data (map table_delta changes.now))))) }
{
    out.key(name)?;
    print_list(out, changes)?;
    Ok(())
}

fn print_list(out: &mut JsonText, changes: &[TableDelta]) -> Result<(), NoMemory>
    ensures { OnOk result (Adds out.old out.new
        (data_tokens (array (changes_data (map table_delta changes.now))))) }
{
    out.begin_array()?;
    for change in changes {
        print_change(out, change)?;
    }
    out.end_array()?;
    Ok(())
}

fn print_change(out: &mut JsonText, change: &TableDelta) -> Result<(), NoMemory>
    ensures { OnOk result (Adds out.old out.new
        (data_tokens (change_data (table_delta change.now)))) }
{
    out.begin_object()?;
    print_set(out, "add", change.delta.add())?;
    print_set(out, "remove", change.delta.remove())?;
    print_name(out, "table", &change.table)?;
    out.end_object()?;
    Ok(())
}

/// A member that is an array of rows.
pub(crate) fn print_set(out: &mut JsonText, name: &str, rows: &RowSet) -> Result<(), NoMemory>
    ensures { OnOk result (Adds out.old out.new
        (key name.now ∷ data_tokens (array (rows_data (set.items rows.now))))) }
{
    out.key(name)?;
    print_rows(out, rows)?;
    Ok(())
}

fn print_rows(out: &mut JsonText, rows: &RowSet) -> Result<(), NoMemory>
    ensures { OnOk result (Adds out.old out.new
        (data_tokens (array (rows_data (set.items rows.now))))) }
{
    out.begin_array()?;
    for row in rows.rows() {
        print_object(out, row)?;
    }
    out.end_array()?;
    Ok(())
}

/// A member that is a row.
pub(crate) fn print_row(out: &mut JsonText, name: &str, row: &Row) -> Result<(), NoMemory>
    ensures { OnOk result (Adds out.old out.new (key name.now ∷ data_tokens (row_data row.now))) }
{
    out.key(name)?;
    print_object(out, row)?;
    Ok(())
}

fn print_object(out: &mut JsonText, row: &Row) -> Result<(), NoMemory>
    ensures { OnOk result (Adds out.old out.new (data_tokens (row_data row.now))) }
{
    out.begin_object()?;
    for (name, value) in row.names().as_slice().iter().zip(row.values()) {
        out.name_key(name)?;
        print_value(out, value)?;
    }
    out.end_object()?;
    Ok(())
}

fn print_value(out: &mut JsonText, value: &Value) -> Result<(), NoMemory>
    ensures { OnOk result (Adds out.old out.new (data_tokens (value_data value.now))) }
{
    match value {
        Value::Null => out.null()?,
        Value::Int(number) => out.i64(*number)?,
        Value::Text(text) => out.string(text.as_str())?,
        Value::Flag(flag) => out.boolean(*flag)?,
    }
    Ok(())
}

//! What a database holds.
ghost use Rattle.std.specs.Prelude.{◌≡◌, ◌↔◌, ◌++◌, IfOk, IsTrue, OnOk, codes};
ghost use Rattle.table_keeper.specs.Places.{Rise};

use crate::cells::text_of;
use crate::format::table_names;
use crate::placing::put;
use crate::refusal::Refusal;
use crate::tables::rows_of;
use lens_values::{Name, Text};
use sqlite::types::ValueRef;
use sqlite::{Alter, Connection, Rows};
use std::alloc::Global;
use table_keeper::{Kept, KeptTable};
use view_lang::{Definition, LangFault, parse};

/// The definitions, and the rows of the tables that are there.
pub fn load<S: Alter>(alloc: Global, conn: &mut Connection<S>) -> Result<Kept, Refusal>
    ensures { IfOk result (λ kept. Rise kept.tables.items) }
{
    let definitions = definition_texts(alloc, conn)?;
    let tables = tables_of(alloc, conn, &definitions)?;
    Ok(Kept {
        definitions,
        tables,
    })
}

// The tables that the texts define, if they are there.
fn tables_of<S: Alter>(
    alloc: Global,
    conn: &mut Connection<S>,
    definitions: &[Text],
) -> Result<Vec<KeptTable>, Refusal>
    ensures { IfOk result (λ tables. Rise tables.items) }
{
    let names = table_names(alloc, conn)?;
    let mut tables = Vec::new(alloc);
    for text in definitions {
        load_table(alloc, conn, &names, text, &mut tables)?;
    }
    Ok(tables)
}

/// The texts of the definitions, in order of their places.
pub fn definition_texts<S: Alter>(
    alloc: Global,
    conn: &mut Connection<S>,
) -> Result<Vec<Text>, Refusal> {
    let mut texts = Vec::new(alloc);
    let mut rows = conn.query("SELECT text FROM lens_defs ORDER BY place", &[])?;
    for _ in 0..u64::MAX {
        if !push_definition(alloc, &mut rows, &mut texts)? {
            break;
        }
    }
    Ok(texts)
}

// Adds the text in the next row, or tells that there is none.
fn push_definition<S: Alter>(
    alloc: Global,
    rows: &mut Rows<'_, S>,
    texts: &mut Vec<Text>,
) -> Result<bool, Refusal> {
    rows.advance()?;
    match rows.get() {
        None => Ok(false),
        Some(row) => {
            texts.push(definition_text(alloc, row)?)?;
            Ok(true)
        }
    }
}

fn definition_text(alloc: Global, row: &sqlite::Row) -> Result<Text, Refusal> {
    match row.get_ref(0)? {
        ValueRef::Text(bytes) => text_of(alloc, bytes),
        _ => Err(Refusal::Failed),
    }
}

// Adds the table that the text defines, if it defines one that is there.
fn load_table<S: Alter>(
    alloc: Global,
    conn: &mut Connection<S>,
    names: &[String],
    text: &Text,
    tables: &mut Vec<KeptTable>,
) -> Result<(), Refusal>
    requires { Rise tables.old.items }
    ensures { OnOk result (Rise tables.new.items) }
{
    match parse(alloc, text) {
        Ok(definition) => load_defined(alloc, conn, names, &definition, tables),
        Err(LangFault::NoMemory) => Err(Refusal::NoMemory),
        Err(_) => Ok(()),
    }
}

// Adds the table that is defined, if it is one that is there.
fn load_defined<S: Alter>(
    alloc: Global,
    conn: &mut Connection<S>,
    names: &[String],
    definition: &Definition,
    tables: &mut Vec<KeptTable>,
) -> Result<(), Refusal>
    requires { Rise tables.old.items }
    ensures { OnOk result (Rise tables.new.items) }
{
    match definition {
        Definition::Table { name, cols, .. } => {
            if !has_table(names, name) {
                return Ok(());
            }
            let rows = rows_of(alloc, conn, name, cols)?;
            put(tables, *name, rows)
        }
        Definition::View { .. } => Ok(()),
    }
}

// Whether the table of this name is there.
fn has_table(names: &[String], table: &Name) -> bool {
    names.iter().any(|name| is_named(name.as_str(), table))
}

// Whether this is the name that the table has in the database.
fn is_named(name: &str, table: &Name) -> bool
    ensures { IsTrue result ↔ (name.now ≡ codes "t_" ++ table.now) }
{
    name.strip_prefix("t_") == Some(table.as_str())
}

//! One change, made in one transaction.
ghost use Rattle.std.specs.Prelude.{IfOk, string_bytes};
ghost use Rattle.plain_values.specs.Columns.{Fits};
ghost use Rattle.sqlite_keeper.specs.Making.{MakesTable};

use crate::cells::cells_of;
use crate::known::KnownColumns;
use crate::refusal::Refusal;
use lens_values::{Columns, Name, Row, Text};
use signed_delta::TableDelta;
use sqlite::{Alter, Connection, Statement, Transaction, params};
use std::alloc::Global;
use store_statements::{create_text, delete_text, insert_text};
use table_keeper::Change;
use view_lang::{Definition, parse};

// A change of so many rows leaves a long log.
const MANY_ROWS: usize = 1_000;

/// Makes the change in one transaction, or leaves the database.
pub fn change<S: Alter>(
    alloc: Global,
    conn: &mut Connection<S>,
    known: &mut KnownColumns,
    change: &Change,
) -> Result<(), Refusal> {
    if let Change::Rows { deltas } = change {
        known.learn(alloc, conn, deltas)?;
    }
    if !conn.is_autocommit() {
        return Err(Refusal::Failed);
    }
    let mut transaction = conn.transaction();
    make(alloc, &mut transaction, known, change)?;
    transaction.commit()?;
    if has_many_rows(change) {
        copy_log(conn);
    }
    Ok(())
}

// Makes the change in the transaction.
fn make<S: Alter>(
    alloc: Global,
    transaction: &mut Transaction<'_, S>,
    known: &KnownColumns,
    change: &Change,
) -> Result<(), Refusal> {
    match change {
        Change::Define { text, table } => define(alloc, transaction, text, *table),
        Change::Rows { deltas } => change_tables(alloc, transaction, known, deltas),
    }
}

// Whether the change adds or removes many rows of some table.
fn has_many_rows(change: &Change) -> bool {
    match change {
        Change::Define { .. } => false,
        Change::Rows { deltas } => deltas.iter().any(|change| {
            change.delta.remove().rows().len() >= MANY_ROWS
                || change.delta.add().rows().len() >= MANY_ROWS
        }),
    }
}

// Has SQLite copy its log into the file now. Else the next change would copy the long log before
// its own commit, and the client that sent it would wait. If the copy fails, this change is made
// all the same, and the next change copies the log.
fn copy_log<S: Alter>(conn: &mut Connection<S>) {
    let _ = conn.execute("UPDATE lens_format SET number = 2", &[]);
}

// Adds a definition, and the table that it makes, if any.
fn define<S: Alter>(
    alloc: Global,
    transaction: &mut Transaction<'_, S>,
    text: &Text,
    table: Option<Name>,
) -> Result<(), Refusal> {
    let place = next_place(transaction)?;
    transaction.execute(
        "INSERT INTO lens_defs (place, text) VALUES (?, ?)",
        params![place, text.as_str()],
    )?;
    match table {
        None => Ok(()),
        Some(name) => create_table(alloc, transaction, text, name),
    }
}

// The place behind the last definition.
fn next_place<S: Alter>(transaction: &mut Transaction<'_, S>) -> Result<i64, Refusal> {
    let last = transaction.query_all(
        "SELECT place FROM lens_defs ORDER BY place DESC LIMIT 1",
        &[],
    )?;
    match last.first() {
        None => Ok(0),
        Some(row) => row.get::<i64>(0)?.checked_add(1).ok_or(Refusal::Failed),
    }
}

// Makes the table that the text defines.
fn create_table<S: Alter>(
    alloc: Global,
    transaction: &mut Transaction<'_, S>,
    text: &Text,
    table: Name,
) -> Result<(), Refusal> {
    let create = create_by(alloc, text, &table)?;
    transaction.execute(create.as_str(), &[])?;
    Ok(())
}

// The text that makes the table of this name, which the definition in this text defines.
fn create_by(alloc: Global, text: &Text, table: &Name) -> Result<String, Refusal> {
    let definition = parse(alloc, text)?;
    create_of(alloc, &definition, table)
}

// The text that makes the table of this name, as it is defined.
fn create_of(alloc: Global, definition: &Definition, table: &Name) -> Result<String, Refusal>
    ensures { IfOk result (λ text. MakesTable definition.now table.now (string_bytes text)) }
{
    match definition {
        Definition::Table { name, cols, .. } => {
            if *name == *table {
                Ok(create_text(alloc, name, cols.pairs())?)
            } else {
                Err(Refusal::Failed)
            }
        }
        Definition::View { .. } => Err(Refusal::Failed),
    }
}

// Makes the differences of the tables, whose columns are known.
fn change_tables<S: Alter>(
    alloc: Global,
    transaction: &mut Transaction<'_, S>,
    known: &KnownColumns,
    deltas: &[TableDelta],
) -> Result<(), Refusal> {
    for change in deltas {
        match known.of(&change.table) {
            Some(columns) => change_table(alloc, transaction, columns, change)?,
            None => return Err(Refusal::Failed),
        }
    }
    Ok(())
}

// Makes the difference of a table with these columns. A side with no row needs no statement.
fn change_table<S: Alter>(
    alloc: Global,
    transaction: &mut Transaction<'_, S>,
    columns: &Columns,
    change: &TableDelta,
) -> Result<(), Refusal> {
    let remove = change.delta.remove().rows();
    if !remove.is_empty() {
        let text = delete_text(alloc, &change.table, columns.pairs())?;
        run_for_each(alloc, transaction, text.as_str(), columns, remove)?;
    }
    let add = change.delta.add().rows();
    if !add.is_empty() {
        let text = insert_text(alloc, &change.table, columns.pairs())?;
        run_for_each(alloc, transaction, text.as_str(), columns, add)?;
    }
    Ok(())
}

// Runs the statement for each of the rows, which are to fit the columns. Each time it is to change
// one row.
fn run_for_each<S: Alter>(
    alloc: Global,
    transaction: &mut Transaction<'_, S>,
    text: &str,
    columns: &Columns,
    rows: &[Row],
) -> Result<(), Refusal> {
    let statement = transaction.prepare(text)?;
    for row in rows {
        if !row.fits(columns) {
            return Err(Refusal::Failed);
        }
        run_once(alloc, transaction, &statement, columns, row)?;
    }
    Ok(())
}

// Runs the statement for one row, which it is to change alone.
fn run_once<S: Alter>(
    alloc: Global,
    transaction: &mut Transaction<'_, S>,
    statement: &Statement,
    columns: &Columns,
    row: &Row,
) -> Result<(), Refusal>
    requires { Fits columns.now row.now }
{
    let cells = cells_of(alloc, columns.pairs(), row.values())?;
    if transaction.execute_prepared(statement, &cells)? == 1 {
        Ok(())
    } else {
        Err(Refusal::Failed)
    }
}

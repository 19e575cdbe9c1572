//! The first two tables: the format's number, and the texts of the definitions.
ghost use Rattle.std.specs.Prelude.{◌≡◌, ◌⊎◌, [], IsOk, Ok, OnOk, codes, pos};
ghost use Rattle.sqlite.specs.Held.{state};
ghost use Rattle.sqlite.specs.State.{Executes, HasCleanDisk};
ghost use Rattle.sqlite_keeper.specs.TableNames.{is_of_store};

use crate::refusal::Refusal;
use sqlite::{Alter, Connection, Rows};
use std::alloc::Global;

const MAKE: &str = "BEGIN;
CREATE TABLE lens_format (number INTEGER NOT NULL) STRICT;
CREATE TABLE lens_defs (place INTEGER PRIMARY KEY, text TEXT NOT NULL) STRICT;
INSERT INTO lens_format (number) VALUES (2);
COMMIT";

/// Makes the first two tables where there is no table of a store, and else tests the format's
/// number. A store of format 1 is taken to format 2, which holds each of its tables as it is.
pub fn prepare<S: Alter>(alloc: Global, conn: &mut Connection<S>) -> Result<(), Refusal> {
    let tables = table_names(alloc, conn)?;
    if !tables.iter().any(|name| is_of_store(name.as_str())) {
        conn.execute_batch(MAKE)?;
        return Ok(());
    }
    take_format(conn)
}

// Whether a table of this name is one of a store's.
fn is_of_store(name: &str) -> bool
    ensures { result ≡ is_of_store name.now }
{
    name == "lens_format" || name == "lens_defs" || name.starts_with("t_")
}

// Tests that the store has definitions and one number, and takes a store of format 1 to format 2.
fn take_format<S: Alter>(conn: &mut Connection<S>) -> Result<(), Refusal> {
    let _ = conn.prepare("SELECT place, text FROM lens_defs")?;
    let numbers = conn.query_all("SELECT number FROM lens_format", &[])?;
    match numbers.as_slice() {
        [row] => take_number(conn, row.get::<i64>(0)?),
        _ => Err(Refusal::Failed),
    }
}

// Takes a store with this number to format 2.
fn take_number<S: Alter>(conn: &mut Connection<S>, number: i64) -> Result<(), Refusal>
    ensures known { OnOk result ((number ≡ pos 1) ⊎ (number ≡ pos 2)) }
    ensures stays { number ≡ pos 2 → IsOk result × (conn.new ≡ conn.old) }
{
    match number {
        2 => Ok(()),
        1 => raise_number(conn),
        _ => Err(Refusal::Failed),
    }
}

// Writes 2 in place of 1, which is to change the one row.
fn raise_number<S: Alter>(conn: &mut Connection<S>) -> Result<(), Refusal>
    ensures { HasCleanDisk (state S.Store conn.new)
        → OnOk result (Executes (codes "UPDATE lens_format SET number = 2") []
        (state S.Store conn.old) (state S.Store conn.new) (Ok 1)) }
{
    if conn.execute("UPDATE lens_format SET number = 2", &[])? == 1 {
        Ok(())
    } else {
        Err(Refusal::Failed)
    }
}

/// The names of the tables.
pub fn table_names<S: Alter>(
    alloc: Global,
    conn: &mut Connection<S>,
) -> Result<Vec<String>, Refusal> {
    let mut names = Vec::new(alloc);
    let mut rows = conn.query("SELECT name FROM sqlite_schema WHERE type = 'table'", &[])?;
    for _ in 0..u64::MAX {
        if !push_name(&mut rows, &mut names)? {
            break;
        }
    }
    Ok(names)
}

// Adds the name in the next row, or tells that there is none.
fn push_name<S: Alter>(rows: &mut Rows<'_, S>, names: &mut Vec<String>) -> Result<bool, Refusal> {
    rows.advance()?;
    match rows.get() {
        None => Ok(false),
        Some(row) => {
            names.push(row.get(0)?)?;
            Ok(true)
        }
    }
}

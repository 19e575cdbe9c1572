//! The texts of the statements over a table.
ghost use Rattle.std.specs.Prelude.{◌≡◌, ◌++◌, IfOk, OnOk, flat_map, string_bytes};
ghost use Rattle.store_statements.specs.Statements.{create_text, delete_text, insert_text, select_text};
ghost use Rattle.store_statements.specs.Statements.{column_text, first_marks, listed, marks_text, more_marks, names_text};
ghost use Rattle.store_statements.specs.Statements.{mark_piece, piece, pieces, type_text};

use lens_values::{Kind, Name};
use std::alloc::{AllocError, Global};

/// The statement that makes the table of these columns.
pub fn create_text(
    alloc: Global,
    table: &Name,
    columns: &[(Name, Kind)],
) -> Result<String, AllocError>
    ensures { IfOk result (λ text. string_bytes text ≡ create_text table.now columns.now) }
{
    let mut text = String::from_str(alloc, "CREATE TABLE t_")?;
    text.push_str(table.as_str())?;
    text.push_str(" (")?;
    push_columns(&mut text, columns)?;
    text.push_str("UNIQUE (")?;
    push_names(&mut text, columns)?;
    text.push_str(")) STRICT")?;
    Ok(text)
}

/// The statement that reads these columns of each row.
pub fn select_text(
    alloc: Global,
    table: &Name,
    columns: &[(Name, Kind)],
) -> Result<String, AllocError>
    ensures { IfOk result (λ text. string_bytes text ≡ select_text table.now columns.now) }
{
    let mut text = String::from_str(alloc, "SELECT ")?;
    push_names(&mut text, columns)?;
    text.push_str(" FROM t_")?;
    text.push_str(table.as_str())?;
    Ok(text)
}

/// The statement that adds a row with these columns.
pub fn insert_text(
    alloc: Global,
    table: &Name,
    columns: &[(Name, Kind)],
) -> Result<String, AllocError>
    ensures { IfOk result (λ text. string_bytes text ≡ insert_text table.now columns.now) }
{
    let mut text = String::from_str(alloc, "INSERT INTO t_")?;
    text.push_str(table.as_str())?;
    text.push_str(" (")?;
    push_names(&mut text, columns)?;
    text.push_str(") VALUES (")?;
    push_marks(&mut text, columns)?;
    text.push_str(")")?;
    Ok(text)
}

/// The statement that removes the row that has given values in these columns.
pub fn delete_text(
    alloc: Global,
    table: &Name,
    columns: &[(Name, Kind)],
) -> Result<String, AllocError>
    ensures { IfOk result (λ text. string_bytes text ≡ delete_text table.now columns.now) }
{
    let mut text = String::from_str(alloc, "DELETE FROM t_")?;
    text.push_str(table.as_str())?;
    text.push_str(" WHERE ")?;
    push_listed(&mut text, columns, "c_", " AND c_", " AND n_", " = ?")?;
    Ok(text)
}

// Adds the columns' names and types, and those of their marks.
fn push_columns(text: &mut String, columns: &[(Name, Kind)]) -> Result<(), AllocError>
    ensures { OnOk result (string_bytes text.new
        ≡ string_bytes text.old ++ flat_map column_text columns.now) }
{
    for column in columns {
        push_column(text, column)?;
    }
    Ok(())
}

// Adds a column's name and type, and those of its mark.
fn push_column(text: &mut String, column: &(Name, Kind)) -> Result<(), AllocError>
    ensures { OnOk result (string_bytes text.new
        ≡ string_bytes text.old ++ column_text column.now) }
{
    push_pieces(
        text,
        column,
        "c_",
        type_text(column.1),
        "n_",
        " INTEGER NOT NULL, ",
    )
}

// What stands behind the name of a column. A column that may be null is `NOT NULL` too: its mark
// says which of its values are null.
fn type_text(kind: Kind) -> &'static str
    ensures { result.now ≡ type_text kind }
{
    match kind {
        Kind::Int | Kind::IntOrNull | Kind::Flag | Kind::FlagOrNull => " INTEGER NOT NULL, ",
        Kind::Text | Kind::TextOrNull => " TEXT NOT NULL, ",
    }
}

// Adds the names with commas between them.
fn push_names(text: &mut String, columns: &[(Name, Kind)]) -> Result<(), AllocError>
    ensures { OnOk result (string_bytes text.new
        ≡ string_bytes text.old ++ names_text columns.now) }
{
    push_listed(text, columns, "c_", ", c_", ", n_", "")
}

// Adds the columns' names and those of their marks, each with `back` behind it. Before the first
// name stands `first`, before each other name `value`, and before a mark's name `mark`.
fn push_listed(
    text: &mut String,
    columns: &[(Name, Kind)],
    first: &str,
    value: &str,
    mark: &str,
    back: &str,
) -> Result<(), AllocError>
    ensures { OnOk result (string_bytes text.new
        ≡ string_bytes text.old ++ listed first.now value.now mark.now back.now columns.now) }
{
    match columns {
        [] => Ok(()),
        [column, rest @ ..] => {
            push_pieces(text, column, first, back, mark, back)?;
            push_each(text, rest, value, mark, back)
        }
    }
}

// Adds the columns' names and those of their marks, each with `back` behind it. Before a name
// stands `value`, and before a mark's name `mark`.
fn push_each(
    text: &mut String,
    columns: &[(Name, Kind)],
    value: &str,
    mark: &str,
    back: &str,
) -> Result<(), AllocError>
    ensures { OnOk result (string_bytes text.new
        ≡ string_bytes text.old ++ flat_map (pieces value.now back.now mark.now back.now) columns.now) }
{
    for column in columns {
        push_pieces(text, column, value, back, mark, back)?;
    }
    Ok(())
}

// Adds a column's name between two texts, and that of its mark between two more.
fn push_pieces(
    text: &mut String,
    column: &(Name, Kind),
    value: &str,
    back: &str,
    mark: &str,
    end: &str,
) -> Result<(), AllocError>
    ensures { OnOk result (string_bytes text.new
        ≡ string_bytes text.old ++ pieces value.now back.now mark.now end.now column.now) }
{
    push_piece(text, value, &column.0, back)?;
    push_mark(text, column, mark, end)
}

// Adds the name of a column's mark between two texts, if the column may be null.
fn push_mark(
    text: &mut String,
    column: &(Name, Kind),
    front: &str,
    back: &str,
) -> Result<(), AllocError>
    ensures { OnOk result (string_bytes text.new
        ≡ string_bytes text.old ++ mark_piece front.now back.now column.now) }
{
    if column.1.is_nullable() {
        push_piece(text, front, &column.0, back)
    } else {
        Ok(())
    }
}

// Adds a name between two texts.
fn push_piece(text: &mut String, front: &str, name: &Name, back: &str) -> Result<(), AllocError>
    ensures { OnOk result (string_bytes text.new
        ≡ string_bytes text.old ++ piece front.now back.now name.now) }
{
    text.push_str(front)?;
    text.push_str(name.as_str())?;
    text.push_str(back)
}

// Adds a parameter for each column, and for each mark.
fn push_marks(text: &mut String, columns: &[(Name, Kind)]) -> Result<(), AllocError>
    ensures { OnOk result (string_bytes text.new
        ≡ string_bytes text.old ++ marks_text columns.now) }
{
    match columns {
        [] => Ok(()),
        [column, rest @ ..] => {
            text.push_str(first_marks(column.1))?;
            push_more_marks(text, rest)
        }
    }
}

// Adds a parameter for each further column, and for each mark.
fn push_more_marks(text: &mut String, columns: &[(Name, Kind)]) -> Result<(), AllocError>
    ensures { OnOk result (string_bytes text.new
        ≡ string_bytes text.old ++ flat_map (λ c. more_marks c.1) columns.now) }
{
    for column in columns {
        text.push_str(more_marks(column.1))?;
    }
    Ok(())
}

// A parameter for a column of this kind, and one for its mark.
fn first_marks(kind: Kind) -> &'static str
    ensures { result.now ≡ first_marks kind }
{
    if kind.is_nullable() { "?, ?" } else { "?" }
}

// The parameters of `first_marks` after a comma, for a column that is not the first.
fn more_marks(kind: Kind) -> &'static str
    ensures { result.now ≡ more_marks kind }
{
    if kind.is_nullable() { ", ?, ?" } else { ", ?" }
}

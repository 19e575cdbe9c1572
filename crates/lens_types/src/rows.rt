//! Rows with a new name for one of their columns.
ghost use Rattle.std.specs.Prelude.{◌≡◌, IfOk, is_some, map, true, false};
ghost use Rattle.std.specs.List.{Contains, filter_map};
ghost use Rattle.plain_values.specs.SortedSet as set;
ghost use Rattle.lens_values.specs.declared.row.Row as spec;
ghost use Rattle.lens_specs.specs.Relation.{has, image};
ghost use Rattle.lens_specs.specs.Rename.{renamed, renamed_row};
ghost use Rattle.lens_specs.specs.Rows.{at};
ghost use Rattle.lens_laws.specs.Finds.{IsOver};

use lens_values::{Name, Names, NoMemory, Row, Value};
use row_sets::RowSet;
use std::alloc::Global;

/// The row with its value under `col` under `to`, which is none of its columns.
pub fn rename_row(alloc: Global, row: &Row, col: &Name, to: &Name) -> Result<Row, NoMemory>
    requires free { is_some (at row.now to.now) ≡ false }
    ensures { IfOk result (λ renamed. renamed ≡ renamed_row col.now to.now row.now) }
{
    let names = row.names().rename(alloc, col, to)?;
    named(alloc, row, col, to, names)
}

/// Each of the rows with its value under `col` under `to`. All have these columns, and share their
/// new names.
pub fn rename_rows(
    alloc: Global,
    rows: &[Row],
    cols: &Names,
    col: &Name,
    to: &Name,
) -> Result<Vec<Row>, NoMemory>
    requires over { (row : spec.Row) → Contains rows.now row → IsOver cols.now row }
    requires free { set.contains cols.now to.now ≡ false }
    ensures { IfOk result (λ list. list.items ≡ map (renamed_row col.now to.now) rows.now) }
{
    let names = cols.rename(alloc, col, to)?;
    let mut list = Vec::with_capacity(alloc, rows.len())?;
    for row in rows {
        list.push(named(alloc, row, col, to, names.copy(alloc)?)?)?;
    }
    Ok(list)
}

/// The rows that `rename_rows` returns, for a set of rows and as a set.
pub fn rename_set(
    alloc: Global,
    rows: &RowSet,
    cols: &Names,
    col: &Name,
    to: &Name,
) -> Result<RowSet, NoMemory>
    requires over { (row : spec.Row) → has rows.now row ≡ true → IsOver cols.now row }
    requires free { set.contains cols.now to.now ≡ false }
    ensures { IfOk result (λ set. set ≡ image (renamed_row col.now to.now) rows.now) }
{
    let list = rename_rows(alloc, rows.rows(), cols, col, to)?;
    RowSet::new(alloc, list)
}

// The row with its value under `col` under `to`, where these are its new names.
fn named(alloc: Global, row: &Row, col: &Name, to: &Name, names: Names) -> Result<Row, NoMemory>
    requires { IsOver names (renamed_row col.now to.now row.now) }
    ensures { IfOk result (λ renamed. renamed ≡ renamed_row col.now to.now row.now) }
{
    let values = old_values(alloc, row, col, to, &names)?;
    Row::from_values(alloc, names, values)
}

// The values that the row has under the names, with `col` for `to`, in their order.
fn old_values(
    alloc: Global,
    row: &Row,
    col: &Name,
    to: &Name,
    names: &Names,
) -> Result<Vec<Value>, NoMemory>
    ensures { IfOk result (λ values. values.items
        ≡ filter_map (λ c. at row.now (renamed to.now col.now c)) (set.items names.now)) }
{
    let mut found = Vec::with_capacity(alloc, names.len())?;
    for name in names.as_slice() {
        if let Some(value) = row.value(&name.rename(to, col)) {
            found.push(value.copy(alloc)?)?;
        }
    }
    Ok(found)
}

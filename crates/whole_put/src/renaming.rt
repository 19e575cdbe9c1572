//! Renames: the rows of a source with a new name for one of its columns.
ghost use Rattle.std.specs.Prelude.{◌≡◌, IfOk, false, true};
ghost use Rattle.plain_values.specs.SortedSet as set;
ghost use Rattle.lens_specs.specs.Columns.{names};
ghost use Rattle.lens_specs.specs.Nodes.{rename_get, rename_put};
ghost use Rattle.lens_specs.specs.Rename.{renamed_columns};

use crate::relations::columns_and_rows;
use lens_types::{rename_columns, rename_set};
use lens_values::{Name, NoMemory};
use row_sets::Relation;
use std::alloc::Global;

/// The rows of the source with the new name `to`, which no column has, for the column.
pub fn get_rename(
    alloc: Global,
    col: &Name,
    to: &Name,
    source: &Relation,
) -> Result<Relation, NoMemory>
    requires { set.contains (names source.now.columns) to.now ≡ false }
    ensures { let U = source.now.columns in
        IfOk result (λ view. view ≡ record {
          columns = renamed_columns col.now to.now U;
          rows = rename_get col.now to.now source.now.rows;
        }) }
{
    let (old, rows) = columns_and_rows(source);
    let names = old.names(alloc)?;
    let columns = rename_columns(alloc, old, col, to)?;
    let rows = rename_set(alloc, rows, &names, col, to)?;
    Ok(Relation::with_rows(columns, rows))
}

/// The source after a put of the view: its rows with the old name. The view is read again, and to
/// put back what is read changes nothing.
pub fn put_rename(
    alloc: Global,
    col: &Name,
    to: &Name,
    view: &Relation,
    source: &Relation,
) -> Result<Relation, NoMemory>
    requires has { set.contains (names source.now.columns) col.now ≡ true }
    requires free { set.contains (names source.now.columns) to.now ≡ false }
    requires columns { view.now.columns ≡ renamed_columns col.now to.now source.now.columns }
    ensures value { IfOk result (λ after.
        after ≡ record source.now { rows = rename_put col.now to.now view.now.rows }) }
    ensures put_get { IfOk result (λ after.
        rename_get col.now to.now after.rows ≡ view.now.rows) }
    ensures get_put { let shown = rename_get col.now to.now source.now.rows in
        IfOk result (λ after. view.now.rows ≡ shown → after ≡ source.now) }
{
    let (columns, _) = columns_and_rows(source);
    let names = view.columns().names(alloc)?;
    let rows = rename_set(alloc, view.rows(), &names, to, col)?;
    Ok(Relation::with_rows(columns.copy(alloc)?, rows))
}

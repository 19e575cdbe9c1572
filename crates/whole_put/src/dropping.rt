//! Projections: the rows of a source without one of its columns.
ghost use Rattle.std.specs.Prelude.{◌≡◌, false, true, IfOk, Some, map};
ghost use Rattle.std.specs.FinMap as finmap;
ghost use Rattle.plain_values.specs.Part.{override};
ghost use Rattle.plain_values.specs.SortedSet as set;
ghost use Rattle.lens_specs.specs.Columns.{fits_at, names, without_column};
ghost use Rattle.lens_specs.specs.Dependencies.{Meets, edge};
ghost use Rattle.lens_specs.specs.Names.{one};
ghost use Rattle.lens_specs.specs.Nodes.{drop_get, drop_put};

use fd_tree::Edge;
use lens_values::{Name, Names, NoMemory, Row, Value};
use revision::all_along;
use row_sets::{Relation, RowSet};
use std::alloc::Global;

/// The rows of the source without the column.
pub fn get_drop(alloc: Global, col: &Name, source: &Relation) -> Result<Relation, NoMemory>
    ensures { let U = source.now.columns in
        IfOk result (λ view. view ≡ record { columns = without_column U col.now; rows = drop_get (names U) col.now source.now.rows }) }
{
    let all = source.columns().names(alloc)?;
    let kept = all.minus(alloc, &Names::single(alloc, col)?)?;
    source.project(alloc, &kept)
}

/// The source after a put of the view (Bohannon, Pierce and Vaughan, PODS 2006), where the columns
/// of `by` determine the column: each row of the view, with the column's value on the source rows
/// that agree with it on `by`, and with `fill` where none does. The view is read again, and to put
/// back what is read changes nothing.
pub fn put_drop(
    alloc: Global,
    col: &Name,
    by: &Names,
    fill: &Value,
    view: &Relation,
    source: &Relation,
) -> Result<Relation, NoMemory>
    requires column { fits_at (Some fill.now) (finmap.get source.now.columns col.now) ≡ true }
    requires apart { set.contains by.now col.now ≡ false }
    requires determined { Meets source.now.rows by.now (one col.now) }
    requires columns { view.now.columns ≡ without_column source.now.columns col.now }
    ensures value { let rows = drop_put col.now by.now fill.now view.now.rows source.now.rows in
        IfOk result (λ after. after ≡ record source.now { rows = rows }) }
    ensures put_get { IfOk result (λ after.
        drop_get (names source.now.columns) col.now after.rows ≡ view.now.rows) }
    ensures get_put { let shown = drop_get (names source.now.columns) col.now source.now.rows in
        IfOk result (λ after. view.now.rows ≡ shown → after ≡ source.now) }
{
    let rows = rows_after(alloc, col, by, fill, view.rows(), source.rows())?;
    let columns = source.columns().copy(alloc)?;
    Ok(Relation::with_rows(columns, rows))
}

// The rows of the source after a put of the view.
fn rows_after(
    alloc: Global,
    col: &Name,
    by: &Names,
    fill: &Value,
    view: &RowSet,
    source: &RowSet,
) -> Result<RowSet, NoMemory>
    ensures { IfOk result (λ rows. rows ≡ drop_put col.now by.now fill.now view.now source.now) }
{
    let filled = with_default(alloc, &Row::single(alloc, col, fill)?, view.rows())?;
    let moved = all_along(alloc, &edge_to(alloc, by, col)?, &filled, source)?;
    let rows = RowSet::new(alloc, moved)?;
    Ok(rows)
}

// The edge by which these columns determine the column.
fn edge_to(alloc: Global, by: &Names, col: &Name) -> Result<Edge, NoMemory>
    ensures { IfOk result (λ made. made ≡ edge by.now (one col.now)) }
{
    let left = by.copy(alloc)?;
    let right = Names::single(alloc, col)?;
    let edge = Edge { left, right };
    Ok(edge)
}

// Each of the rows, with the value of the default in its column. All get the same columns, so each
// shares the names of the one before it.
fn with_default(alloc: Global, default: &Row, rows: &[Row]) -> Result<Vec<Row>, NoMemory>
    ensures { IfOk result (λ filled. filled.items ≡ map (override default.now) rows.now) }
{
    let mut filled: Vec<Row> = Vec::with_capacity(alloc, rows.len())?;
    for row in rows {
        let whole = match filled.last() {
            Some(before) => row.paste_like(alloc, default, before.names())?,
            None => row.paste(alloc, default)?,
        };
        filled.push(whole)?;
    }
    Ok(filled)
}

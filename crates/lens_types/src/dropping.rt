//! Tests of a drop: the columns that determine the dropped column, and the value that fills it.
ghost use Rattle.std.specs.Prelude.{◌≡◌, IfOk, Some, option_map, not};
ghost use Rattle.std.specs.FinMap as map;
ghost use Rattle.std.specs.List.{list_any};
ghost use Rattle.plain_values.specs.SortedSet as set;
ghost use Rattle.lens_specs.specs.Columns as spec;
ghost use Rattle.lens_specs.specs.Names as names;
ghost use Rattle.lens_specs.specs.Predicate.{holds};
ghost use Rattle.lens_specs.specs.Rows.{with_at};
ghost use Rattle.lens_specs.specs.TreeForm.{tree_without};
ghost use Rattle.lens_specs.specs.Typing.{is_determined, is_from};
ghost use Rattle.lens_types.specs.Drops.{column_fault, unfilled};
ghost use Rattle.lens_types.specs.Faults.{Decides, fault_view};
ghost use Rattle.lens_types.specs.Sorts.{sort_from, projection};

use crate::fault::{Refused, TypeFault};
use crate::sizes::size_fault;
use crate::sort::Sort;
use crate::unknowns::{has_column, unknown_among};
use fd_tree::{Edge, Tree};
use lens_pred::Pred;
use lens_values::{Columns, Kind, Name, Names, NoMemory, Row, Value};
use std::alloc::Global;

/// The columns and the predicate of the sort without the column, where `by` determines the column
/// and `fill` is its value on new rows, or the first refusal. The lens has `nodes` nodes.
pub fn dropped_parts(
    alloc: Global,
    source: &Sort,
    nodes: usize,
    col: &Name,
    by: &Names,
    fill: &Value,
) -> Result<(Columns, Pred), Refused<()>>
    ensures { Decides (λ p.
        sort_from p.0 p.1 (tree_without (names.one col.now) source.now.tree)) result tt
        (projection nodes source.now col.now by.now fill.now) }
{
    if let Some(fault) = column_fault(source.cols(), source.tree(), col, by, fill) {
        return Err(Refused::from(fault));
    }
    let rest = unfilled_pred(alloc, source.pred(), col, fill)?;
    let cols = columns_without(alloc, source.cols(), col)?;
    match size_fault(nodes, &cols, &rest) {
        Some(fault) => Err(Refused::from(fault)),
        None => Ok((cols, rest)),
    }
}

/// The conjuncts that do not mention the column. The others must mention it alone, and hold on the
/// value that fills it.
fn unfilled_pred(alloc: Global, pred: &Pred, col: &Name, fill: &Value) -> Result<Pred, Refused<()>>
    ensures { Decides (λ p. p) result tt (unfilled col.now fill.now pred.now) }
{
    let (with, without) = pred.split_on(alloc, col)?;
    if holds_alone(alloc, &with, col, fill)? {
        Ok(without)
    } else {
        Err(Refused::from(TypeFault::DefaultRefused))
    }
}

/// The first reason, from the columns and the tree, why the column cannot be dropped.
fn column_fault(
    cols: &Columns,
    tree: &Tree,
    col: &Name,
    by: &Names,
    fill: &Value,
) -> Option<TypeFault>
    ensures { option_map fault_view result
        ≡ column_fault cols.now tree.now col.now by.now fill.now }
{
    if !has_column(cols, col) {
        return Some(TypeFault::UnknownColumn { name: *col });
    }
    if let Some(name) = unknown_among(cols, by) {
        return Some(TypeFault::UnknownColumn { name });
    }
    if !fill.fits_at(cols.kind(col)) {
        return Some(TypeFault::KindClash { name: *col });
    }
    if !is_determined(tree.edges(), col, by) {
        return Some(TypeFault::NoSuchDependency { col: *col });
    }
    None
}

/// Whether an edge from exactly these columns writes the column, and none reads it.
fn is_determined(edges: &[Edge], col: &Name, by: &Names) -> bool
    ensures { result ≡ is_determined by.now col.now edges.now }
{
    is_written(edges, col, by) && !is_read(edges, col)
}

/// Whether an edge from exactly these columns writes the column.
fn is_written(edges: &[Edge], col: &Name, by: &Names) -> bool
    ensures { result ≡ list_any (is_from by.now col.now) edges.now }
{
    edges
        .iter()
        .any(|edge| edge.left.same(by) && edge.right.has(col))
}

/// Whether an edge reads the column.
fn is_read(edges: &[Edge], col: &Name) -> bool
    ensures { result ≡ list_any (λ e. set.contains e.left col.now) edges.now }
{
    edges.iter().any(|edge| edge.left.has(col))
}

/// Whether the predicate holds on the row that has the value in the column, and nothing else.
fn holds_alone(alloc: Global, pred: &Pred, col: &Name, value: &Value) -> Result<bool, NoMemory>
    ensures { IfOk result (λ met.
        met ≡ holds pred.now (with_at map.empty col.now (Some value.now))) }
{
    let row = Row::single(alloc, col, value)?;
    Ok(pred.holds(&row))
}

/// The columns without one of them.
fn columns_without(alloc: Global, cols: &Columns, col: &Name) -> Result<Columns, NoMemory>
    ensures { IfOk result (λ rest. rest ≡ spec.without_column cols.now col.now) }
{
    cols.minus(alloc, &Names::single(alloc, col)?)
}

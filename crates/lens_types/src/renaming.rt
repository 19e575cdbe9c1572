//! Tests of a rename, and the parts of its sort.
ghost use Rattle.std.specs.Prelude.{◌≡◌, ◌≤◌, IfOk, None, map, option_map};
ghost use Rattle.std.specs.FinMap as finmap;
ghost use Rattle.lens_specs.specs.Rename.{renamed, renamed_columns, renamed_predicate};
ghost use Rattle.lens_specs.specs.Typing.{rename_fault};
ghost use Rattle.lens_laws.specs.Passes.{IsSound};
ghost use Rattle.lens_types.specs.Faults.{Decides, fault_view};
ghost use Rattle.lens_types.specs.Sorts.{sort_from, renaming};

use crate::fault::{Refused, TypeFault};
use crate::sizes::size_fault;
use crate::sort::Sort;
use crate::unknowns::has_column;
use fd_tree::Tree;
use lens_pred::Pred;
use lens_values::{Columns, Kind, Name, NoMemory};
use std::alloc::Global;

/// The columns, the predicate and the tree with the new name `to` for the column, or the first
/// refusal. The lens has `nodes` nodes.
pub fn renamed_parts(
    alloc: Global,
    source: &Sort,
    nodes: usize,
    col: &Name,
    to: &Name,
) -> Result<(Columns, Pred, Tree), Refused<()>>
    ensures sort { Decides (λ p. sort_from p.0 p.1 p.2) result tt
        (renaming nodes source.now col.now to.now) }
    ensures sound { IfOk result (λ p. IsSound (sort_from p.0 p.1 p.2)) }
    ensures small { IfOk result (λ p. finmap.len p.0 ≤ 64) }
{
    if let Some(fault) = rename_fault(source, nodes, col, to) {
        return Err(Refused::from(fault));
    }
    let cols = rename_columns(alloc, source.cols(), col, to)?;
    let pred = rename_pred(alloc, source.pred(), col, to)?;
    let tree = source.tree().rename(alloc, col, to)?;
    Ok((cols, pred, tree))
}

/// The first reason why the column is not renamed so.
fn rename_fault(source: &Sort, nodes: usize, col: &Name, to: &Name) -> Option<TypeFault>
    ensures { option_map fault_view result ≡ rename_fault nodes source.now col.now to.now }
{
    if !has_column(source.cols(), col) {
        return Some(TypeFault::UnknownColumn { name: *col });
    }
    if let Some(fault) = size_fault(nodes, source.cols(), source.pred()) {
        return Some(fault);
    }
    if has_column(source.cols(), to) {
        return Some(TypeFault::ColumnTaken { name: *to });
    }
    None
}

/// The columns with the new name, which none of them has.
pub fn rename_columns(
    alloc: Global,
    cols: &Columns,
    col: &Name,
    to: &Name,
) -> Result<Columns, NoMemory>
    requires { finmap.get cols.now to.now ≡ None }
    ensures { IfOk result (λ columns. columns ≡ renamed_columns col.now to.now cols.now) }
{
    // The names stay distinct, so only memory can be wanting.
    match Columns::new(alloc, renamed_pairs(alloc, cols.pairs(), col, to)?) {
        Ok(columns) => Ok(columns),
        Err(_) => Err(NoMemory),
    }
}

/// The predicate with the new name, which it does not mention.
pub fn rename_pred(alloc: Global, pred: &Pred, col: &Name, to: &Name) -> Result<Pred, NoMemory>
    ensures { IfOk result (λ renamed. renamed ≡ renamed_predicate col.now to.now pred.now) }
{
    pred.rename(alloc, col, to)
}

/// The pairs with the new name, in their order.
fn renamed_pairs(
    alloc: Global,
    pairs: &[(Name, Kind)],
    col: &Name,
    to: &Name,
) -> Result<Vec<(Name, Kind)>, NoMemory>
    ensures { IfOk result (λ list. list.items
        ≡ map (λ e. (renamed col.now to.now e.0, e.1)) pairs.now) }
{
    let mut list = Vec::with_capacity(alloc, pairs.len())?;
    for pair in pairs {
        list.push((pair.0.rename(col, to), pair.1))?;
    }
    Ok(list)
}

//! The sort of a table or of a view: its columns, a predicate on its rows and a tree of
//! dependencies.
ghost use Rattle.std.specs.Prelude.{◌≡◌, ◌≤◌, IfOk};
ghost use Rattle.std.specs.FinMap as finmap;
ghost use Rattle.lens_specs.specs.Typing.{table_sort};
ghost use Rattle.lens_laws.specs.Passes.{IsSound};
ghost use Rattle.lens_types.specs.Faults.{Decides};
ghost use Rattle.lens_types.specs.Sorts.{sort_from, selection, projection, renaming, natural_join};

use crate::dropping::dropped_parts;
use crate::fault::{Refused, TypeFault};
use crate::joining::joined_parts;
use crate::lens::Lens;
use crate::renaming::renamed_parts;
use crate::selecting::selected_pred;
use crate::sizes::size_fault;
use crate::unknowns::unknown_column;
use fd_closure::Dep;
use fd_tree::Tree;
use lens_pred::Pred;
use lens_values::{Columns, Name, Names, NoMemory, Value};
use std::alloc::Global;
use std::marker::Model;

/// At most 64 columns, a predicate that holds on each row, and a tree of dependencies that the rows
/// meet. The predicate and the tree name these columns alone.
#[derive(Drop)]
pub struct Sort {
    cols: Columns,
    pred: Pred,
    tree: Tree,
}

impl Model for Sort {
    ghost use Rattle.std.specs.Prelude.{◌≤◌};
    ghost use Rattle.std.specs.FinMap as finmap;
    ghost use Rattle.lens_specs.specs.Sort as spec;
    ghost use Rattle.lens_laws.specs.Passes.{IsSound};
    ghost use Rattle.lens_types.specs.SortCode.{sort_code};
    ghost use Rattle.lens_types.specs.Sorts.{sort_from};

    ghost Value = { spec.Sort };

    ghost coded = { sort_code };

    ghost view = { λ s. sort_from s.cols s.pred s.tree };

    ghost invariant = { λ s.
        IsSound (sort_from s.cols s.pred s.tree) × (finmap.len s.cols ≤ 64) };
}

impl Sort {
    /// The sort of a table with these columns and dependencies, on whose rows the predicate holds,
    /// or the first refusal.
    pub fn table(
        alloc: Global,
        cols: Columns,
        deps: &[Dep],
        pred: Pred,
    ) -> Result<Sort, Refused<(Columns, Pred)>>
        ensures { Decides (λ s. s) result (cols, pred) (table_sort cols deps.now pred) }
    {
        match table_tree(alloc, &cols, deps, &pred) {
            Ok(tree) => Ok(Sort { cols, pred, tree }),
            Err(why) => Err(why.with((cols, pred))),
        }
    }

    /// The columns.
    pub fn cols(&self) -> &Columns
        ensures value { result.now ≡ self.now.columns }
        ensures sound { IsSound self.now }
        ensures small { finmap.len self.now.columns ≤ 64 }
    {
        &self.cols
    }

    /// The predicate, which holds on each row.
    pub fn pred(&self) -> &Pred
        ensures value { result.now ≡ self.now.predicate }
        ensures sound { IsSound self.now }
    {
        &self.pred
    }

    /// The tree of dependencies that the rows meet.
    pub fn tree(&self) -> &Tree
        ensures value { result.now ≡ self.now.tree }
        ensures sound { IsSound self.now }
        ensures small { finmap.len self.now.columns ≤ 64 }
    {
        &self.tree
    }

    /// The sort of the rows that the predicate selects, or the first refusal. The lens has `nodes`
    /// nodes.
    pub fn selected(&self, alloc: Global, nodes: usize, pred: &Pred) -> Result<Sort, Refused<()>>
        ensures { Decides (λ s. s) result tt (selection nodes self.now pred.now) }
    {
        let pred = selected_pred(alloc, self, nodes, pred)?;
        Ok(Sort {
            cols: self.cols().copy(alloc)?,
            pred,
            tree: self.tree().copy(alloc)?,
        })
    }

    /// The sort without the column, where `by` determines it and `fill` is its value on new rows,
    /// or the first refusal. The lens has `nodes` nodes.
    pub fn dropped(
        &self,
        alloc: Global,
        nodes: usize,
        col: &Name,
        by: &Names,
        fill: &Value,
    ) -> Result<Sort, Refused<()>>
        ensures { Decides (λ s. s) result tt (projection nodes self.now col.now by.now fill.now) }
    {
        let (cols, pred) = dropped_parts(alloc, self, nodes, col, by, fill)?;
        Ok(Sort {
            cols,
            pred,
            tree: self.tree().without(alloc, col)?,
        })
    }

    /// The sort with the new name `to` for the column, or the first refusal. The lens has `nodes`
    /// nodes.
    pub fn renamed(
        &self,
        alloc: Global,
        nodes: usize,
        col: &Name,
        to: &Name,
    ) -> Result<Sort, Refused<()>>
        ensures { Decides (λ s. s) result tt (renaming nodes self.now col.now to.now) }
    {
        let (cols, pred, tree) = renamed_parts(alloc, self, nodes, col, to)?;
        Ok(Sort { cols, pred, tree })
    }

    /// The sort of the natural join with rows of the other sort, or the first refusal. The lens has
    /// `nodes` nodes, and `twice` is the least table that both sides are over.
    pub fn joined(
        &self,
        alloc: Global,
        nodes: usize,
        other: &Sort,
        twice: Option<Name>,
    ) -> Result<Sort, Refused<()>>
        ensures { Decides (λ s. s) result tt (natural_join nodes self.now other.now twice) }
    {
        let (cols, pred, tree) = joined_parts(alloc, self, other, nodes, twice)?;
        Ok(Sort { cols, pred, tree })
    }

    /// The root of the lens of a table of this sort.
    pub(crate) fn of_table(self, table: Name) -> Lens
        ensures lens { result ≡ Lens.Base table self }
        ensures sound { IsSound self }
    {
        Lens::Base { table, sort: self }
    }

    /// An equal sort.
    pub fn copy(&self, alloc: Global) -> Result<Sort, NoMemory>
        ensures { IfOk result (λ copy. copy ≡ self.now) }
    {
        Ok(Sort {
            cols: self.cols.copy(alloc)?,
            pred: self.pred.copy(alloc)?,
            tree: self.tree.copy(alloc)?,
        })
    }
}

// The tree of a table's dependencies. Refused first are unknown columns, then sides that overlap,
// unlike kinds, and sizes.
fn table_tree(alloc: Global, cols: &Columns, deps: &[Dep], pred: &Pred) -> Result<Tree, Refused<()>>
    ensures { Decides (sort_from cols.now pred.now) result tt
        (table_sort cols.now deps.now pred.now) }
{
    let suits = pred.check(cols);
    if let Some(name) = unknown_column(cols, deps, &suits) {
        return Err(Refused::from(TypeFault::UnknownColumn { name }));
    }
    let tree = Tree::of(alloc, deps)?;
    suits?;
    match size_fault(1, cols, pred) {
        Some(fault) => Err(Refused::from(fault)),
        None => Ok(tree),
    }
}

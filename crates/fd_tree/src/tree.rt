//! Trees of functional dependencies.
ghost use Rattle.std.specs.Prelude.{◌≡◌, ◌++◌, List, IfOk, false};
ghost use Rattle.std.specs.Coded.{coded_list};
ghost use Rattle.no_memory.specs.Gives.{Gives};
ghost use Rattle.plain_values.specs.SortedSet as set;
ghost use Rattle.lens_specs.specs.Names.{one};
ghost use Rattle.lens_specs.specs.Dependencies as dependencies;
ghost use Rattle.lens_specs.specs.Dependencies.{AllEdges, Edge as EdgeOf};
ghost use Rattle.lens_specs.specs.Rename.{renamed_tree};
ghost use Rattle.lens_specs.specs.TreeForm as spec;
ghost use Rattle.lens_specs.specs.TreeForm.{tree_of, tree_without};
ghost use Rattle.lens_specs.specs.Sort.{violating_pair};
ghost use Rattle.fd_laws.specs.Trees.{IsTree};
ghost use Rattle.fd_closure.specs.Sides.{coded_edge};
ghost use Rattle.fd_tree.specs.ClashView.{shown_clash};
ghost use Rattle.fd_tree.specs.Form.{form_of};
ghost use Rattle.fd_tree.specs.Sides.{HasLeft};
ghost use Rattle.fd_tree.specs.declared.fault.TreeFault.TheVariants as fault;

use crate::checking::first_fault;
use crate::clash::{Clash, first_clash};
use crate::cleaning::grouped;
use crate::edge::{Edge, edges_of};
use crate::fault::TreeFault;
use crate::ordering::ordered;
use crate::reducing::{full, reduced};
use fd_closure::{Dep, closure};
use lens_values::{Name, Names, NoMemory, append, copied};
use row_sets::Relation;
use std::alloc::Global;
use std::marker::Model;

/// An ordered list of edges in tree form. A contract sees the edges.
#[derive(Drop)]
pub struct Tree {
    edges: Vec<Edge>,
    outputs: Names,
}

impl Model for Tree {
    ghost Value = { List EdgeOf };

    ghost coded = { coded_list coded_edge };

    ghost view = { λ t. t.edges.items };

    ghost invariant = { λ t. (t.outputs ≡ spec.outputs t.edges.items) × AllEdges HasLeft t.edges.items × IsTree t.edges.items };
}

impl Tree {
    /// The tree form of the dependencies (Bohannon, Pierce and Vaughan, PODS 2006), in the normal
    /// form of this server. `NotTree` where they have none.
    pub fn of(alloc: Global, deps: &[Dep]) -> Result<Tree, TreeFault>
        ensures { Gives fault.NoMemory result (form_of (tree_of deps.now)) }
    {
        Tree::form(alloc, edges_of(alloc, deps)?)
    }

    /// The edges in their order. They are in tree form, and each has a column on its left side.
    pub fn edges(&self) -> &[Edge]
        ensures edges { result.now ≡ self.now }
        ensures tree { IsTree self.now }
        ensures lefts { AllEdges HasLeft self.now }
    {
        &self.edges
    }

    /// The columns that the edges write: the union of their right sides.
    pub fn outputs(&self) -> &Names
        ensures { result.now ≡ spec.outputs self.now }
    {
        &self.outputs
    }

    /// The least set of columns that has these, and with the left side of an edge its right side.
    pub fn closure(&self, alloc: Global, cols: &Names) -> Result<Names, NoMemory>
        ensures { IfOk result (λ found. found ≡ dependencies.closure cols.now self.now) }
    {
        let deps = full(alloc, copied(alloc, &self.edges)?)?;
        closure(alloc, cols, &deps)
    }

    /// An equal tree.
    pub fn copy(&self, alloc: Global) -> Result<Tree, NoMemory>
        ensures { IfOk result (λ copy. copy ≡ self.now) }
    {
        Ok(Tree {
            edges: copied(alloc, &self.edges)?,
            outputs: self.outputs.copy(alloc)?,
        })
    }

    /// The tree without the column, which no left side may have. An edge with no right column left
    /// is dropped.
    pub fn without(&self, alloc: Global, col: &Name) -> Result<Tree, NoMemory>
        requires { AllEdges (λ e. set.contains e.left col.now ≡ false) self.now }
        ensures { IfOk result (λ rest. rest ≡ tree_without (one col.now) self.now) }
    {
        let edges = edges_without(alloc, &self.edges, &Names::single(alloc, col)?)?;
        let outputs = outputs(alloc, &edges)?;
        Ok(Tree { edges, outputs })
    }

    /// The tree with `to` for `col`. No edge may have `to`.
    pub fn rename(&self, alloc: Global, col: &Name, to: &Name) -> Result<Tree, NoMemory>
        requires { AllEdges (λ e. (set.contains e.left to.now ≡ false)
            × (set.contains e.right to.now ≡ false)) self.now }
        ensures { IfOk result (λ tree. tree ≡ renamed_tree col.now to.now self.now) }
    {
        let edges = edges_renamed(alloc, &self.edges, col, to)?;
        let outputs = outputs(alloc, &edges)?;
        Ok(Tree { edges, outputs })
    }

    /// The tree form of the edges of both, those of this tree first. `NotTree` where they have
    /// none.
    pub fn join(&self, alloc: Global, other: &Tree) -> Result<Tree, TreeFault>
        ensures { Gives fault.NoMemory result (form_of (tree_of (self.now ++ other.now))) }
    {
        let mut edges = copied(alloc, &self.edges)?;
        append(&mut edges, alloc, &other.edges)?;
        Tree::form(alloc, edges)
    }

    /// The first of the edges that the relation violates, with the least pair of its rows; `None`
    /// where it meets all.
    pub fn meets(&self, alloc: Global, relation: &Relation) -> Result<Option<Clash>, NoMemory>
        ensures { IfOk result (λ found. found ≡ shown_clash (violating_pair self.now relation.now.rows)) }
    {
        first_clash(alloc, &self.edges, relation.rows())
    }

    // The tree form of the edges.
    fn form(alloc: Global, edges: Vec<Edge>) -> Result<Tree, TreeFault>
        requires { AllEdges HasLeft edges.items }
        ensures { Gives fault.NoMemory result (form_of (tree_of edges.items)) }
    {
        let edges = reduced(alloc, grouped(alloc, edges)?)?;
        if let Some((a, b)) = first_fault(&edges) {
            return Err(TreeFault::of_sides(alloc, a, b));
        }
        let edges = ordered(alloc, edges)?;
        let outputs = outputs(alloc, &edges)?;
        Ok(Tree { edges, outputs })
    }
}

// The union of the right sides.
fn outputs(alloc: Global, edges: &[Edge]) -> Result<Names, NoMemory>
    ensures { IfOk result (λ names. names ≡ spec.outputs edges.now) }
{
    let mut list = Vec::new(alloc);
    for edge in edges {
        list.extend_from_slice(edge.right.as_slice())?;
    }
    Names::new(alloc, list)
}

// The edges without these columns on the right. An edge with no right column left is dropped.
fn edges_without(alloc: Global, edges: &[Edge], cols: &Names) -> Result<Vec<Edge>, NoMemory>
    ensures { IfOk result (λ rest. rest.items ≡ tree_without cols.now edges.now) }
{
    let mut rest = Vec::new(alloc);
    for edge in edges {
        let right = edge.right.minus(alloc, cols)?;
        if !right.as_slice().is_empty() {
            let left = edge.left.copy(alloc)?;
            rest.push(Edge { left, right })?;
        }
    }
    Ok(rest)
}

// The edges with `to` for `col` on both sides.
fn edges_renamed(
    alloc: Global,
    edges: &[Edge],
    col: &Name,
    to: &Name,
) -> Result<Vec<Edge>, NoMemory>
    ensures { IfOk result (λ list. list.items ≡ renamed_tree col.now to.now edges.now) }
{
    let mut list = Vec::with_capacity(alloc, edges.len())?;
    for edge in edges {
        list.push(edge.rename(alloc, col, to)?)?;
    }
    Ok(list)
}

//! Revision of rows and of relations, and merges.
ghost use Rattle.std.specs.Prelude.{◌≡◌, IfOk, map, true};
ghost use Rattle.plain_values.specs.SortedSet as set;
ghost use Rattle.lens_specs.specs.Dependencies.{MeetsTree};
ghost use Rattle.lens_specs.specs.Predicate.{Predicate, holds};
ghost use Rattle.lens_specs.specs.Relation.{Fits, IsRelation};
ghost use Rattle.lens_specs.specs.Revision as spec;
ghost use Rattle.lens_specs.specs.TreeForm.{outputs};
ghost use Rattle.fd_laws.specs.Trees.{IsTree};
ghost use Rattle.lens_laws.specs.Passes.{AllFormulas, IsSteady};
ghost use Rattle.lens_laws.specs.Shapes.{HoldsOn};
ghost use Rattle.revision.specs.Changes.{ChangesOnly, SameOutside};

use crate::steps::{all_along, one_along};
use fd_tree::{Edge, Tree};
use lens_values::{NoMemory, Row, copied};
use row_sets::{Relation, RowSet};
use std::alloc::Global;

// So few rows are revised one by one, without a map of the revising rows for each edge.
const FEW: usize = 8;

/// The row revised along each edge in turn: where a revising row agrees with it on the left side,
/// it takes the right side of the first such row. No column outside the outputs changes.
pub fn revise_row(alloc: Global, tree: &Tree, row: &Row, by: &RowSet) -> Result<Row, NoMemory>
    ensures value { IfOk result (λ revised. revised ≡ spec.revise_row tree.now row.now by.now) }
    ensures keeps { IfOk result (λ revised. SameOutside (outputs tree.now) revised row.now) }
{
    one_revised(alloc, tree.edges(), row, by)
}

// What `revise_row` returns, for any edges: they need not be those of a tree.
fn one_revised(alloc: Global, edges: &[Edge], row: &Row, by: &RowSet) -> Result<Row, NoMemory>
    ensures { IfOk result (λ revised. revised ≡ spec.revise_row edges.now row.now by.now) }
{
    let mut revised = row.copy(alloc)?;
    for edge in edges {
        revised = one_along(alloc, edge, &revised, by)?;
    }
    Ok(revised)
}

/// Each of the rows revised along each edge in turn, in their order.
pub fn revised_rows(
    alloc: Global,
    edges: &[Edge],
    rows: &[Row],
    by: &RowSet,
) -> Result<Vec<Row>, NoMemory>
    ensures { IfOk result (λ revised. revised.items ≡ map (λ m.
        spec.revise_row edges.now m by.now) rows.now) }
{
    if rows.len() <= FEW {
        each_revised(alloc, edges, rows, by)
    } else {
        all_revised(alloc, edges, rows, by)
    }
}

// What `revised_rows` returns, computed row by row.
fn each_revised(
    alloc: Global,
    edges: &[Edge],
    rows: &[Row],
    by: &RowSet,
) -> Result<Vec<Row>, NoMemory>
    ensures { IfOk result (λ revised. revised.items ≡ map (λ m.
        spec.revise_row edges.now m by.now) rows.now) }
{
    let mut revised = Vec::with_capacity(alloc, rows.len())?;
    for row in rows {
        revised.push(one_revised(alloc, edges, row, by)?)?;
    }
    Ok(revised)
}

// What `revised_rows` returns, computed edge by edge: along an edge, all rows share one map of the
// revising rows.
fn all_revised(
    alloc: Global,
    edges: &[Edge],
    rows: &[Row],
    by: &RowSet,
) -> Result<Vec<Row>, NoMemory>
    ensures { IfOk result (λ revised. revised.items ≡ map (λ m.
        spec.revise_row edges.now m by.now) rows.now) }
{
    let mut revised = copied(alloc, rows)?;
    for edge in edges {
        revised = all_along(alloc, edge, &revised, by)?;
    }
    Ok(revised)
}

/// Each row of the relation revised by rows over its columns. Where the relation meets the tree, no
/// two of its rows become one, so the result has as many rows.
pub fn revise(
    alloc: Global,
    tree: &Tree,
    relation: &Relation,
    by: &RowSet,
) -> Result<Relation, NoMemory>
    requires { (row : _) → set.contains by.now row ≡ true → Fits relation.now.columns row }
    ensures value { IfOk result (λ revised.
        revised ≡ record relation.now { rows = spec.revise tree.now relation.now.rows by.now }) }
    ensures keeps { IfOk result (λ revised.
        ChangesOnly (outputs tree.now) relation.now.rows revised.rows) }
    ensures as_many { IfOk result (λ revised. MeetsTree relation.now.rows tree.now
        → set.len revised.rows ≡ set.len relation.now.rows) }
    ensures fit { IsRelation relation.now }
    ensures tree { IsTree tree.now }
{
    let rows = revised_rows(alloc, tree.edges(), relation.rows().rows(), by)?;
    let columns = relation.columns().copy(alloc)?;
    Ok(Relation::with_rows(columns, RowSet::new(alloc, rows)?))
}

/// The relation revised by the rows of another with the same columns, together with those rows. If
/// both relations satisfy the tree, so does the merge. If a predicate of steady conjuncts (those
/// that are stable under revision) holds on both, it holds on the merge.
pub fn merge(
    alloc: Global,
    tree: &Tree,
    relation: &Relation,
    by: &Relation,
) -> Result<Relation, NoMemory>
    requires { by.now.columns ≡ relation.now.columns }
    ensures value { IfOk result (λ merged.
        merged ≡ record relation.now { rows = spec.merge tree.now relation.now.rows by.now.rows }) }
    ensures meets { IfOk result (λ merged. MeetsTree relation.now.rows tree.now
        → MeetsTree by.now.rows tree.now → MeetsTree merged.rows tree.now) }
    ensures steady { IfOk result (λ merged. (pred : Predicate) → AllFormulas (IsSteady tree.now) pred
        → HoldsOn (holds pred) relation.now.rows → HoldsOn (holds pred) by.now.rows
        → HoldsOn (holds pred) merged.rows) }
    ensures fit { IsRelation relation.now }
    ensures tree { IsTree tree.now }
{
    let revised = revise(alloc, tree, relation, by.rows())?;
    revised.union(alloc, by)
}

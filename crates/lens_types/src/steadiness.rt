//! Conjuncts that a merge along a tree keeps: they are stable under revision, or *steady*.
ghost use Rattle.std.specs.Prelude.{◌≡◌, ◌++◌, IfOk, OnOk, filter, find, not};
ghost use Rattle.std.specs.List.{list_all, list_any};
ghost use Rattle.plain_values.specs.SortedSet as set;
ghost use Rattle.lens_specs.specs.Predicate.{names_in, names_of};
ghost use Rattle.lens_specs.specs.Refusal.{is_steady, unsteady};
ghost use Rattle.lens_specs.specs.TreeForm.{outputs};
ghost use Rattle.lens_pred.specs.View.{formula_view, predicate_view};

use crate::among::first_among;
use fd_tree::{Edge, Tree};
use lens_pred::{Formula, Pred};
use lens_values::{Name, Names, NoMemory};
use std::alloc::Global;

/// The first column, by name, that an edge writes and that a conjunct mentions, if that conjunct is
/// not steady for the tree. `None` if each conjunct is steady.
pub fn unsteady(alloc: Global, pred: &Pred, tree: &Tree) -> Result<Option<Name>, NoMemory>
    ensures { IfOk result (λ col. col ≡ unsteady pred.now tree.now) }
{
    let mut names = Vec::new(alloc);
    append_unsteady(pred.conjuncts(), tree, &mut names)?;
    let mentioned = Names::new(alloc, names)?;
    Ok(least_output(tree, &mentioned))
}

// The least column that an edge writes among the names.
fn least_output(tree: &Tree, names: &Names) -> Option<Name>
    ensures { result ≡ find (set.contains names.now) (set.items (outputs tree.now)) }
{
    first_among(tree.outputs().as_slice(), names).copied()
}

// Adds the names in the conjuncts that are not steady at the end.
fn append_unsteady(
    conjuncts: &[Formula],
    tree: &Tree,
    names: &mut Vec<Name>,
) -> Result<(), NoMemory>
    ensures { OnOk result (names.new.items ≡ names.old.items
        ++ names_of (filter (λ f. not (is_steady tree.now f)) (predicate_view conjuncts.now))) }
{
    for conjunct in conjuncts {
        if !is_steady(conjunct, tree) {
            conjunct.append_names(names)?;
        }
    }
    Ok(())
}

// Whether the conjunct is steady for the tree.
fn is_steady(conjunct: &Formula, tree: &Tree) -> bool
    ensures { result ≡ is_steady tree.now (formula_view conjunct.now) }
{
    !conjunct.mentions_one_of(tree.outputs()) || is_within_right(conjunct, tree.edges())
}

// Whether an edge writes each column in the conjunct.
fn is_within_right(conjunct: &Formula, edges: &[Edge]) -> bool
    ensures { result ≡ list_any (λ e. list_all (set.contains e.right)
        (names_in (formula_view conjunct.now))) edges.now }
{
    edges.iter().any(|edge| conjunct.mentions_only(&edge.right))
}

//! Tests of a join: the kinds of the shared columns, the tree of both sides, what the shared
//! columns determine, what each side's predicate mentions, and the tables.
ghost use Rattle.std.specs.Prelude.{◌≡◌, ◌≤◌, IfOk, find, not, option_copied, option_map};
ghost use Rattle.std.specs.FinMap as finmap;
ghost use Rattle.plain_values.specs.SortedSet as set;
ghost use Rattle.lens_specs.specs.Columns.{least_outside};
ghost use Rattle.lens_specs.specs.Typing.{undetermined};
ghost use Rattle.lens_laws.specs.Passes.{IsSound};
ghost use Rattle.lens_types.specs.Faults.{Decides, fault_view};
ghost use Rattle.lens_types.specs.Joins.{joined_columns, mention_fault, sides_fault};
ghost use Rattle.lens_types.specs.Sorts.{sort_from, natural_join};

use crate::fault::{Refused, TypeFault};
use crate::sizes::size_fault;
use crate::sort::Sort;
use crate::steadiness::unsteady;
use fd_tree::Tree;
use lens_pred::Pred;
use lens_values::{Columns, Name, Names, NoMemory};
use std::alloc::Global;
use view_limits::Side;

/// The columns, the predicate and the tree of the join, or the first refusal. The join has `nodes`
/// nodes, and `twice` is the first table, by name, that both sides are over.
pub fn joined_parts(
    alloc: Global,
    left: &Sort,
    right: &Sort,
    nodes: usize,
    twice: Option<Name>,
) -> Result<(Columns, Pred, Tree), Refused<()>>
    ensures sort { Decides (λ p. sort_from p.0 p.1 p.2) result tt
        (natural_join nodes left.now right.now twice) }
    ensures sound { IfOk result (λ p. IsSound (sort_from p.0 p.1 p.2)) }
    ensures small { IfOk result (λ p. finmap.len p.0 ≤ 64) }
{
    let cols = joined_columns(alloc, left.cols(), right.cols())?;
    let tree = left.tree().join(alloc, right.tree())?;
    if let Some(fault) = sides_fault(alloc, left, right, twice)? {
        return Err(Refused::from(fault));
    }
    let pred = left.pred().join(alloc, right.pred())?;
    match size_fault(nodes, &cols, &pred) {
        Some(fault) => Err(Refused::from(fault)),
        None => Ok((cols, pred, tree)),
    }
}

/// The columns of both. A shared column has to have one kind.
fn joined_columns(alloc: Global, left: &Columns, right: &Columns) -> Result<Columns, Refused<()>>
    ensures { Decides (λ cols. cols) result tt (joined_columns left.now right.now) }
{
    Ok(left.union(alloc, right)?)
}

/// The first reason, from the sides alone and not from their sizes, why they are not joined.
fn sides_fault(
    alloc: Global,
    left: &Sort,
    right: &Sort,
    twice: Option<Name>,
) -> Result<Option<TypeFault>, NoMemory>
    ensures { IfOk result (λ fault.
        option_map fault_view fault ≡ sides_fault left.now right.now twice) }
{
    match undetermined(alloc, left, right)? {
        Some(col) => Ok(Some(TypeFault::NotDetermined { col })),
        None => mention_fault(alloc, left, right, twice),
    }
}

/// The least column of the right side that the shared columns do not determine.
fn undetermined(alloc: Global, left: &Sort, right: &Sort) -> Result<Option<Name>, NoMemory>
    ensures { IfOk result (λ col. col ≡ undetermined left.now right.now) }
{
    let names = right.cols().names(alloc)?;
    let shared = left.cols().names(alloc)?.meet(alloc, &names)?;
    let determined = right.tree().closure(alloc, &shared)?;
    Ok(least_outside(&names, &determined))
}

/// The least of the names that is not among the others.
fn least_outside(names: &Names, others: &Names) -> Option<Name>
    ensures { result ≡ least_outside names.now others.now }
{
    first_outside(names.as_slice(), others).copied()
}

/// The first of the names that is not among the others.
fn first_outside<'a>(names: &'a [Name], others: &Names) -> Option<&'a Name>
    ensures { option_copied result ≡ find (λ c. not (set.contains others.now c)) names.now }
{
    names.iter().find(|name| !others.has(name))
}

/// The fault of a side with a conjunct that is not steady, or of a table under both sides.
fn mention_fault(
    alloc: Global,
    left: &Sort,
    right: &Sort,
    twice: Option<Name>,
) -> Result<Option<TypeFault>, NoMemory>
    ensures { IfOk result (λ fault.
        option_map fault_view fault ≡ mention_fault left.now right.now twice) }
{
    if let Some(col) = unsteady(alloc, left.pred(), left.tree())? {
        let side = Side::Left;
        return Ok(Some(TypeFault::SideMentionsOutput { side, col }));
    }
    if let Some(col) = unsteady(alloc, right.pred(), right.tree())? {
        let side = Side::Right;
        return Ok(Some(TypeFault::SideMentionsOutput { side, col }));
    }
    Ok(twice.map(|name| TypeFault::TableTwice { name }))
}

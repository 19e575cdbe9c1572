//! Tests of a selection.
ghost use Rattle.lens_types.specs.Faults.{Decides};
ghost use Rattle.lens_types.specs.Sorts.{sort_from, selection};

use crate::fault::{Refused, TypeFault};
use crate::sizes::size_fault;
use crate::sort::Sort;
use crate::steadiness::unsteady;
use lens_pred::Pred;
use std::alloc::Global;

/// The predicate of the selected rows: the conjuncts of the source and of the selection, or the
/// first refusal. The lens has `nodes` nodes.
pub fn selected_pred(
    alloc: Global,
    source: &Sort,
    nodes: usize,
    pred: &Pred,
) -> Result<Pred, Refused<()>>
    ensures { Decides (λ both. sort_from source.now.columns both source.now.tree) result tt
        (selection nodes source.now pred.now) }
{
    pred.check(source.cols())?;
    if let Some(col) = unsteady(alloc, source.pred(), source.tree())? {
        return Err(Refused::from(TypeFault::SourceMentionsOutput { col }));
    }
    let both = source.pred().join(alloc, pred)?;
    match size_fault(nodes, source.cols(), &both) {
        Some(fault) => Err(Refused::from(fault)),
        None => Ok(both),
    }
}

//! How large a formula is.
ghost use Rattle.std.specs.Prelude.{◌≡◌, ◌-◌, ◌^◌, min};
ghost use Rattle.lens_specs.specs.Predicate.{formula_nodes, nodes_of_all};
ghost use Rattle.lens_pred.specs.View.{formula_view, list_view, predicate_view};

use crate::formula::Formula;

impl Formula {
    /// Counts the nodes of the formula, up to `usize::MAX`.
    #[cycle(nodes)]
    pub fn nodes(&self) -> usize
        ensures { result ≡ min (formula_nodes (formula_view self.now)) (2 ^ 64 - 1) }
    {
        match self {
            Formula::True | Formula::False => 1,
            Formula::Compare { .. } | Formula::CompareCols { .. } | Formula::IsNull { .. } => 1,
            Formula::OneOf { values, .. } => values.as_slice().len().saturating_add(1),
            Formula::Not(inner) => inner.nodes().saturating_add(1),
            Formula::And(members) | Formula::Or(members) => {
                nodes_in(members.as_slice()).saturating_add(1)
            }
        }
    }
}

// The nodes of all the formulas.
#[cycle(nodes)]
pub(crate) fn nodes_in(members: &[Formula]) -> usize
    ensures { result ≡ min (nodes_of_all (list_view (predicate_view members.now))) (2 ^ 64 - 1) }
{
    let mut sum: usize = 0;
    for member in members {
        sum = sum.saturating_add(member.nodes());
    }
    sum
}

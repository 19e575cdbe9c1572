//! Splits a predicate by a column.
ghost use Rattle.std.specs.Prelude.{◌≡◌, IfOk, position};
ghost use Rattle.lens_specs.specs.Predicate.{with_name, without_name};
ghost use Rattle.lens_specs.specs.Refusal.{is_mixed};
ghost use Rattle.no_memory.specs.Gives.{Gives};
ghost use Rattle.lens_pred.specs.Split.{split_of};
ghost use Rattle.lens_pred.specs.View.{formula_view, predicate_view};

use crate::formula::Formula;
use crate::pred::Pred;
use lens_values::{Name, NoMemory};
use std::alloc::Global;

/// Why a predicate cannot be split.
#[derive(Clone, Copy, PartialEq, Eq)]
pub enum SplitFault {
    /// The conjunct at this place, from 0, is the first that mentions the column and another.
    Mixed { index: usize },
    /// Memory ran out.
    NoMemory,
}

impl From<NoMemory> for SplitFault {
    ghost use Rattle.std.specs.Prelude.{◌≡◌};
    ghost use Rattle.lens_pred.specs.declared.splitting.SplitFault.TheVariants.{NoMemory};

    ghost from_gives = { λ _ e. e ≡ NoMemory };

    fn from(_: NoMemory) -> SplitFault {
        SplitFault::NoMemory
    }
}

impl Pred {
    /// The conjuncts that mention the column alone, and those that do not mention it, in their
    /// order.
    pub fn split_on(&self, alloc: Global, col: &Name) -> Result<(Pred, Pred), SplitFault>
        ensures { Gives SplitFault.NoMemory result (split_of col.now self.now) }
    {
        let all = self.conjuncts();
        if let Some(index) = first_mixed(all, col) {
            return Err(SplitFault::Mixed { index });
        }
        let (with, without) = parted(alloc, all, col)?;
        Ok((Pred::from_normal(with), Pred::from_normal(without)))
    }
}

// The place of the first formula that mentions the column and another.
fn first_mixed(conjuncts: &[Formula], col: &Name) -> Option<usize>
    ensures { result ≡ position (λ f. is_mixed col.now (formula_view f)) conjuncts.now }
{
    conjuncts.iter().position(|conjunct| conjunct.is_mixed(col))
}

// Copies of the formulas that mention the column, and of the others.
fn parted(
    alloc: Global,
    conjuncts: &[Formula],
    col: &Name,
) -> Result<(Vec<Formula>, Vec<Formula>), NoMemory>
    ensures with { IfOk result (λ parts.
        predicate_view parts.0.items ≡ with_name col.now (predicate_view conjuncts.now)) }
    ensures without { IfOk result (λ parts.
        predicate_view parts.1.items ≡ without_name col.now (predicate_view conjuncts.now)) }
{
    let mut with = Vec::new(alloc);
    let mut without = Vec::new(alloc);
    for conjunct in conjuncts {
        let copy = conjunct.copy(alloc)?;
        if conjunct.mentions(col) {
            with.push(copy)?;
        } else {
            without.push(copy)?;
        }
    }
    Ok((with, without))
}

//! Formulas joined by "and" and by "or".
ghost use Rattle.std.specs.Prelude.{◌≡◌, ◌++◌, OnOk};
ghost use Rattle.grammar_specs.specs.Meaning as meaning;
ghost use Rattle.lens_pred.specs.View.{formula_view, predicate_view};

use lens_pred::{Formula, Formulas};
use lens_values::NoMemory;

/// Adds the conjuncts of the formula at the end.
#[tactic(auto, using(crate::proofs::Members::conjunct_pushed, crate::proofs::Members::conjuncts_pushed))]
pub fn push_conjuncts(ands: &mut Vec<Formula>, part: Formula) -> Result<(), NoMemory>
    ensures { OnOk result (predicate_view ands.new.items
        ≡ predicate_view ands.old.items ++ meaning.conjuncts (formula_view part)) }
{
    match part {
        Formula::And(members) => Ok(ands.append(&mut members.into_list())?),
        _ => Ok(ands.push(part)?),
    }
}

/// Adds the disjuncts of the formula at the end.
#[tactic(auto, using(crate::proofs::Members::disjunct_pushed, crate::proofs::Members::disjuncts_pushed))]
pub fn push_disjuncts(ors: &mut Vec<Formula>, all: Formula) -> Result<(), NoMemory>
    ensures { OnOk result (predicate_view ors.new.items
        ≡ predicate_view ors.old.items ++ meaning.disjuncts (formula_view all)) }
{
    match all {
        Formula::Or(members) => Ok(ors.append(&mut members.into_list())?),
        _ => Ok(ors.push(all)?),
    }
}

/// The one formula, or the conjunction of several.
pub fn conjunction(mut list: Vec<Formula>) -> Formula
    ensures { formula_view result ≡ meaning.conjunction (predicate_view list.items) }
{
    if list.len() > 1 {
        return Formula::And(Formulas::new(list));
    }
    list.pop().unwrap_or(Formula::True)
}

/// The one formula, or the disjunction of several.
pub fn disjunction(mut list: Vec<Formula>) -> Formula
    ensures { formula_view result ≡ meaning.disjunction (predicate_view list.items) }
{
    if list.len() > 1 {
        return Formula::Or(Formulas::new(list));
    }
    list.pop().unwrap_or(Formula::False)
}

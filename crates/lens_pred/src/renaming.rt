//! Predicates with a new name for a column.
ghost use Rattle.std.specs.Prelude.{◌≡◌, ◌++◌, IfOk, OnOk};
ghost use Rattle.lens_specs.specs.Rename.{renamed_formula, renamed_formulas, renamed_predicate};
ghost use Rattle.lens_pred.specs.View.{formula_view, formulas_view, predicate_view};

use crate::copying::{compare, negation, one_of};
use crate::formula::{Formula, Formulas};
use crate::pred::Pred;
use lens_values::{Name, NoMemory};
use std::alloc::Global;

impl Formula {
    /// The formula with `to` for `from`.
    #[cycle(rename)]
    pub fn rename(&self, alloc: Global, from: &Name, to: &Name) -> Result<Formula, NoMemory>
        ensures { IfOk result (λ formula. formula_view formula
            ≡ renamed_formula from.now to.now (formula_view self.now)) }
    {
        match self {
            Formula::True => Ok(Formula::True),
            Formula::False => Ok(Formula::False),
            Formula::Compare { col, op, value } => {
                compare(alloc, col.rename(from, to), *op, value)
            }
            Formula::CompareCols { col, op, other } => Ok(Formula::CompareCols {
                col: col.rename(from, to),
                op: *op,
                other: other.rename(from, to),
            }),
            Formula::OneOf { col, values } => one_of(alloc, col.rename(from, to), values),
            Formula::IsNull { col } => Ok(Formula::IsNull {
                col: col.rename(from, to),
            }),
            Formula::Not(inner) => negation(alloc, inner.rename(alloc, from, to)?),
            Formula::And(members) => Ok(Formula::And(members.rename(alloc, from, to)?)),
            Formula::Or(members) => Ok(Formula::Or(members.rename(alloc, from, to)?)),
        }
    }
}

impl Formulas {
    /// The formulas with `to` for `from`.
    #[cycle(rename)]
    pub fn rename(&self, alloc: Global, from: &Name, to: &Name) -> Result<Formulas, NoMemory>
        ensures { IfOk result (λ formulas. formulas_view formulas
            ≡ renamed_formulas from.now to.now (formulas_view self.now)) }
    {
        let mut list = Vec::new(alloc);
        append_renamed(alloc, self.as_slice(), from, to, &mut list)?;
        Ok(Formulas::new(list))
    }
}

// Adds the formulas with `to` for `from` at the end. After an `Err` some of them may be there.
#[cycle(rename)]
fn append_renamed(
    alloc: Global,
    members: &[Formula],
    from: &Name,
    to: &Name,
    list: &mut Vec<Formula>,
) -> Result<(), NoMemory>
    ensures { OnOk result (predicate_view list.new.items
        ≡ predicate_view list.old.items ++ renamed_predicate from.now to.now (predicate_view members.now)) }
{
    list.reserve(members.len())?;
    for member in members {
        list.push(member.rename(alloc, from, to)?)?;
    }
    Ok(())
}

impl Pred {
    /// The predicate with `to` for `from`.
    pub fn rename(&self, alloc: Global, from: &Name, to: &Name) -> Result<Pred, NoMemory>
        ensures { IfOk result (λ pred. pred ≡ renamed_predicate from.now to.now self.now) }
    {
        let mut conjuncts = Vec::new(alloc);
        append_renamed(alloc, self.conjuncts(), from, to, &mut conjuncts)?;
        Ok(Pred::from_normal(conjuncts))
    }
}

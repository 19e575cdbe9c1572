//! Copies of formulas.
ghost use Rattle.std.specs.Prelude.{◌≡◌, ◌++◌, IfOk, OnOk};
ghost use Rattle.lens_specs.specs.Predicate.{compare, negation, one_of};
ghost use Rattle.lens_pred.specs.Op.{op_view};
ghost use Rattle.lens_pred.specs.View.{formula_view, formulas_view, predicate_view};

use crate::formula::{Formula, Formulas, Values};
use crate::op::Op;
use lens_values::{Name, NoMemory, Value, copied};
use std::alloc::Global;

impl Values {
    /// Copies the values.
    pub fn copy(&self, alloc: Global) -> Result<Values, NoMemory>
        ensures { IfOk result (λ copy. copy ≡ self.now) }
    {
        Ok(Values::new(copied(alloc, self.as_slice())?))
    }
}

impl Formula {
    /// Copies the formula.
    #[cycle(copy)]
    pub fn copy(&self, alloc: Global) -> Result<Formula, NoMemory>
        ensures { IfOk result (λ copy. formula_view copy ≡ formula_view self.now) }
    {
        match self {
            Formula::True => Ok(Formula::True),
            Formula::False => Ok(Formula::False),
            Formula::Compare { col, op, value } => compare(alloc, *col, *op, value),
            Formula::CompareCols { col, op, other } => Ok(Formula::CompareCols {
                col: *col,
                op: *op,
                other: *other,
            }),
            Formula::OneOf { col, values } => one_of(alloc, *col, values),
            Formula::IsNull { col } => Ok(Formula::IsNull { col: *col }),
            Formula::Not(inner) => negation(alloc, inner.copy(alloc)?),
            Formula::And(members) => Ok(Formula::And(members.copy(alloc)?)),
            Formula::Or(members) => Ok(Formula::Or(members.copy(alloc)?)),
        }
    }
}

impl Formulas {
    /// Copies the formulas.
    #[cycle(copy)]
    pub fn copy(&self, alloc: Global) -> Result<Formulas, NoMemory>
        ensures { IfOk result (λ copy. formulas_view copy ≡ formulas_view self.now) }
    {
        let mut copies = Vec::new(alloc);
        append_copies(alloc, self.as_slice(), &mut copies)?;
        Ok(Formulas::new(copies))
    }
}

/// Compares the column with a copy of the value.
pub(crate) fn compare(alloc: Global, col: Name, op: Op, value: &Value) -> Result<Formula, NoMemory>
    ensures { IfOk result (λ made. formula_view made ≡ compare col (op_view op) value.now) }
{
    let value = value.copy(alloc)?;
    Ok(Formula::Compare { col, op, value })
}

/// The value of the column is one of copies of these.
pub(crate) fn one_of(alloc: Global, col: Name, values: &Values) -> Result<Formula, NoMemory>
    ensures { IfOk result (λ made. formula_view made ≡ one_of col values.now) }
{
    let values = values.copy(alloc)?;
    Ok(Formula::OneOf { col, values })
}

/// The formula does not hold.
pub(crate) fn negation(alloc: Global, formula: Formula) -> Result<Formula, NoMemory>
    ensures { IfOk result (λ made. formula_view made ≡ negation (formula_view formula)) }
{
    Ok(Formula::Not(Box::new(alloc, formula)?))
}

// Adds copies of the formulas at the end. After an `Err` some of them may be there.
#[cycle(copy)]
pub(crate) fn append_copies(
    alloc: Global,
    members: &[Formula],
    list: &mut Vec<Formula>,
) -> Result<(), NoMemory>
    ensures { OnOk result (predicate_view list.new.items
        ≡ predicate_view list.old.items ++ predicate_view members.now) }
{
    list.reserve(members.len())?;
    for member in members {
        list.push(member.copy(alloc)?)?;
    }
    Ok(())
}

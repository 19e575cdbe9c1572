//! A condition on a row.
ghost use Rattle.std.specs.Prelude.{◌≡◌, ◌↔◌, IsTrue};
ghost use Rattle.lens_pred.specs.NormalForm.{is_all_of, is_any_of};
ghost use Rattle.lens_pred.specs.View.{formula_view, formulas_view, list_view, predicate_view};

use crate::op::Op;
use lens_values::{Name, Value};
use std::marker::Model;

/// Values, in order. A contract sees their list.
#[derive(Drop)]
pub struct Values {
    list: Vec<Value>,
}

impl Model for Values {
    ghost use Rattle.std.specs.Prelude.{List};
    ghost use Rattle.plain_values.specs.declared.value.Value as declared;

    ghost Value = { List declared.Value };

    ghost view = { λ v. v.list.items };
}

/// A condition on a row. A contract sees it through `formula_view`.
#[cycle(formula)]
#[derive(Drop)]
pub enum Formula {
    /// Holds of each row.
    True,
    /// Holds of no row.
    False,
    /// Compares a column with a value.
    Compare { col: Name, op: Op, value: Value },
    /// Compares two columns.
    CompareCols { col: Name, op: Op, other: Name },
    /// The value of a column is one of these.
    OneOf { col: Name, values: Values },
    /// The value of a column is null.
    IsNull { col: Name },
    /// The condition does not hold.
    Not(Box<Formula>),
    /// Each of the conditions holds.
    And(Formulas),
    /// One of the conditions holds.
    Or(Formulas),
}

/// Conditions, in order. A contract sees them through `formulas_view`.
#[cycle(formula)]
#[derive(Drop)]
pub struct Formulas {
    list: Vec<Formula>,
}

impl Values {
    /// These values.
    pub fn new(list: Vec<Value>) -> Values
        ensures { result ≡ list.items }
    {
        Values { list }
    }

    /// The values in their order.
    pub fn as_slice(&self) -> &[Value]
        ensures { result.now ≡ self.now }
    {
        self.list.as_slice()
    }

    /// The list that they hold.
    pub fn into_list(self) -> Vec<Value>
        ensures { result.items ≡ self }
    {
        let Values { list } = self;
        list
    }
}

impl Formulas {
    ghost use Rattle.lens_pred.specs.declared.formula.Formulas.{out-Formulas};

    /// These conditions.
    pub fn new(list: Vec<Formula>) -> Formulas
        ensures { formulas_view result ≡ list_view (predicate_view list.items) }
    {
        Formulas { list }
    }

    /// The conditions in their order.
    pub fn as_slice(&self) -> &[Formula]
        ensures list { result.now ≡ (out-Formulas self.now).list.items }
        ensures view { list_view (predicate_view result.now) ≡ formulas_view self.now }
    {
        self.list.as_slice()
    }

    /// The list that they hold.
    pub fn into_list(self) -> Vec<Formula>
        ensures { list_view (predicate_view result.items) ≡ formulas_view self }
    {
        let Formulas { list } = self;
        list
    }
}

impl Formula {
    /// Whether the formula is an `And`.
    pub(crate) fn is_and(&self) -> bool
        ensures { result ≡ is_all_of (formula_view self.now) }
    {
        matches!(self, Formula::And(_))
    }

    /// Whether the formula is an `Or`.
    pub(crate) fn is_or(&self) -> bool
        ensures { result ≡ is_any_of (formula_view self.now) }
    {
        matches!(self, Formula::Or(_))
    }
}

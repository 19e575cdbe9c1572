//! Which rows meet a formula.
ghost use Rattle.std.specs.Prelude.{◌≡◌, not, ◌&&◌, ◌||◌, option_copied};
ghost use Rattle.std.specs.List.{list_any};
ghost use Rattle.std.specs.Ordering.{is_eq};
ghost use Rattle.plain_values.specs.Value.{is_null, value_cmp};
ghost use Rattle.lens_specs.specs.Predicate as spec;
ghost use Rattle.lens_pred.specs.Op.{op_view};
ghost use Rattle.lens_pred.specs.View.{formula_view, list_view, predicate_view};

use crate::formula::Formula;
use crate::op::Op;
use lens_values::{Row, Value};

impl Formula {
    /// Whether the row meets the formula. A comparison with a missing value does not hold.
    #[cycle(holds)]
    pub fn holds(&self, row: &Row) -> bool
        ensures { result ≡ spec.formula_holds (formula_view self.now) row.now }
    {
        match self {
            Formula::True => true,
            Formula::False => false,
            Formula::Compare { col, op, value } => compares(row.value(col), *op, Some(value)),
            Formula::CompareCols { col, op, other } => {
                compares(row.value(col), *op, row.value(other))
            }
            Formula::OneOf { col, values } => is_one_of(row.value(col), values.as_slice()),
            Formula::IsNull { col } => has_null(row.value(col)),
            Formula::Not(inner) => !inner.holds(row),
            Formula::And(members) => all_hold(members.as_slice(), row),
            Formula::Or(members) => any_holds(members.as_slice(), row),
        }
    }
}

// Whether the row meets each of the formulas.
#[cycle(holds)]
pub(crate) fn all_hold(members: &[Formula], row: &Row) -> bool
    ensures { result ≡ spec.all_hold (list_view (predicate_view members.now)) row.now }
{
    for member in members {
        if !member.holds(row) {
            return false;
        }
    }
    true
}

// Whether the row meets one of the formulas.
#[cycle(holds)]
fn any_holds(members: &[Formula], row: &Row) -> bool
    ensures { result ≡ spec.any_holds (list_view (predicate_view members.now)) row.now }
{
    for member in members {
        if member.holds(row) {
            return true;
        }
    }
    false
}

// Whether both values are present and not null, in an order that passes the comparison.
fn compares(left: Option<&Value>, op: Op, right: Option<&Value>) -> bool
    ensures { result ≡ spec.compared (op_view op) (option_copied left.entry)
        (option_copied right.entry) }
{
    match (left, right) {
        (Some(left), Some(right)) => are_compared(left, op, right),
        _ => false,
    }
}

// Whether neither is null, and they are in an order that passes the comparison.
fn are_compared(left: &Value, op: Op, right: &Value) -> bool
    ensures { result ≡ (not (is_null left.now || is_null right.now)
        && spec.test_of (op_view op) (value_cmp left.now right.now)) }
{
    !(left.is_null() || right.is_null()) && op.allows(left.cmp(right))
}

// Whether the value is present, is not null, and is one of these.
fn is_one_of(value: Option<&Value>, values: &[Value]) -> bool
    ensures { result ≡ spec.is_one_of values.now (option_copied value.entry) }
{
    match value {
        Some(value) => !value.is_null() && is_among(value, values),
        None => false,
    }
}

// Whether the value is present, and is null.
fn has_null(value: Option<&Value>) -> bool
    ensures { result ≡ spec.has_null (option_copied value.entry) }
{
    match value {
        Some(value) => value.is_null(),
        None => false,
    }
}

// Whether the value is one of these.
fn is_among(value: &Value, values: &[Value]) -> bool
    ensures { result ≡ list_any (λ one. is_eq (value_cmp value.now one)) values.now }
{
    values.iter().any(|one| is_same(value, one))
}

// Whether the values are equal.
fn is_same(value: &Value, one: &Value) -> bool
    ensures { result ≡ is_eq (value_cmp value.now one.now) }
{
    value == one
}

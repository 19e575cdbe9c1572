//! Whether a predicate suits columns.
ghost use Rattle.std.specs.Prelude.{◌≡◌};
ghost use Rattle.std.specs.List.{list_all};
ghost use Rattle.lens_specs.specs.Refusal.{is_like, like_bases, unless as unless_of, unlike, unlike_all};
ghost use Rattle.lens_pred.specs.Checked.{checked};
ghost use Rattle.lens_pred.specs.View.{formula_view, list_view, predicate_view};

use crate::formula::Formula;
use crate::naming::Sought;
use crate::pred::Pred;
use lens_values::{Columns, Kind, Name, Value};

/// Why a predicate does not fit the columns.
#[derive(Clone, Copy, PartialEq, Eq)]
pub enum PredFault {
    /// The first name in text order that is no column.
    UnknownColumn { name: Name },
    /// The (left) column of the first comparison with a value of another base, or of two bases.
    PredKind { name: Name },
}

impl Pred {
    /// Whether each name is a column, and each comparison is with a value of the column's base or
    /// null, or of two columns of one base. `UnknownColumn` comes before `PredKind`.
    pub fn check(&self, columns: &Columns) -> Result<(), PredFault>
        ensures { result ≡ checked columns.now self.now }
    {
        if let Some(name) = self.first_name(Sought::IsOutside(columns)) {
            return Err(PredFault::UnknownColumn { name });
        }
        match first_unlike(self.conjuncts(), columns) {
            Some(name) => Err(PredFault::PredKind { name }),
            None => Ok(()),
        }
    }
}

impl Formula {
    // The (left) column of the first comparison of two bases.
    #[cycle(first_unlike)]
    fn first_unlike(&self, columns: &Columns) -> Option<Name>
        ensures { result ≡ unlike columns.now (formula_view self.now) }
    {
        match self {
            Formula::True | Formula::False | Formula::IsNull { .. } => None,
            Formula::Compare { col, value, .. } => unless(is_like(value, columns.kind(col)), col),
            Formula::CompareCols { col, other, .. } => {
                unless(are_like(columns.kind(col), columns.kind(other)), col)
            }
            Formula::OneOf { col, values } => {
                unless(all_like(columns.kind(col), values.as_slice()), col)
            }
            Formula::Not(inner) => inner.first_unlike(columns),
            Formula::And(members) | Formula::Or(members) => {
                first_unlike(members.as_slice(), columns)
            }
        }
    }
}

// The first such column in the formulas.
#[cycle(first_unlike)]
fn first_unlike(members: &[Formula], columns: &Columns) -> Option<Name>
    ensures { result ≡ unlike_all columns.now (list_view (predicate_view members.now)) }
{
    for member in members {
        if let Some(name) = member.first_unlike(columns) {
            return Some(name);
        }
    }
    None
}

// The name, where the test fails.
fn unless(holds: bool, name: &Name) -> Option<Name>
    ensures { result ≡ unless_of holds name.now }
{
    if holds { None } else { Some(*name) }
}

// Whether both kinds are there, with one base.
fn are_like(left: Option<Kind>, right: Option<Kind>) -> bool
    ensures { result ≡ like_bases left right }
{
    match (left, right) {
        (Some(left), Some(right)) => left.base().same(right.base()),
        _ => false,
    }
}

// Whether the column is there, with this kind, and the value is null or fits the kind.
fn is_like(value: &Value, kind: Option<Kind>) -> bool
    ensures { result ≡ is_like value.now kind }
{
    match kind {
        Some(kind) => value.is_null() || value.fits(kind),
        None => false,
    }
}

// Whether the column is there, with this kind, and each of the values is null or fits the kind.
fn all_like(kind: Option<Kind>, values: &[Value]) -> bool
    ensures { result ≡ list_all (λ v. is_like v kind) values.now }
{
    values.iter().all(|value| is_like(value, kind))
}

//! The normal form of formulas.
ghost use Rattle.std.specs.Prelude.{◌≡◌, not};
ghost use Rattle.std.specs.List.{list_all};
ghost use Rattle.lens_pred.specs.NormalForm as spec;
ghost use Rattle.lens_pred.specs.View.{formula_view, list_view, predicate_view};

use crate::formula::Formula;

impl Formula {
    /// Whether each `And` and `Or` in it has two members or more and none of its own variant, and
    /// no list of values is empty.
    #[cycle(normal)]
    pub fn is_normal(&self) -> bool
        ensures { result ≡ spec.is_normal (formula_view self.now) }
    {
        match self {
            Formula::True | Formula::False => true,
            Formula::Compare { .. } | Formula::CompareCols { .. } | Formula::IsNull { .. } => true,
            Formula::OneOf { values, .. } => !values.as_slice().is_empty(),
            Formula::Not(inner) => inner.is_normal(),
            Formula::And(members) => {
                let members = members.as_slice();
                has_two(members) && none_is_and(members) && are_normal(members)
            }
            Formula::Or(members) => {
                let members = members.as_slice();
                has_two(members) && none_is_or(members) && are_normal(members)
            }
        }
    }

    /// Whether it is in normal form and no `And`.
    pub fn is_conjunct(&self) -> bool
        ensures { result ≡ spec.is_conjunct (formula_view self.now) }
    {
        self.is_normal() && !self.is_and()
    }
}

// Whether each of the formulas is in normal form.
#[cycle(normal)]
fn are_normal(members: &[Formula]) -> bool
    ensures { result ≡ spec.are_normal (list_view (predicate_view members.now)) }
{
    for member in members {
        if !member.is_normal() {
            return false;
        }
    }
    true
}

// Whether there are two formulas or more.
fn has_two(members: &[Formula]) -> bool
    ensures { result ≡ spec.has_two (list_view (predicate_view members.now)) }
{
    matches!(members, [_, _, ..])
}

// Whether no formula is an `And`.
fn none_is_and(members: &[Formula]) -> bool
    ensures { result ≡ list_all (λ f. not (spec.is_all_of (formula_view f))) members.now }
{
    members.iter().all(|member| !member.is_and())
}

// Whether no formula is an `Or`.
fn none_is_or(members: &[Formula]) -> bool
    ensures { result ≡ list_all (λ f. not (spec.is_any_of (formula_view f))) members.now }
{
    members.iter().all(|member| !member.is_or())
}

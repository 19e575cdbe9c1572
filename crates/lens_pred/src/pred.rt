//! A predicate: conditions that all have to hold.
ghost use Rattle.std.specs.Prelude.{◌≡◌, ◌-◌, ◌^◌, ◌++◌, IfOk, IfErr, OnOk, IsTrue, None, Some, min, not, position};
ghost use Rattle.std.specs.List.{list_all};
ghost use Rattle.lens_specs.specs.Predicate.{predicate_nodes, holds as holds_of};
ghost use Rattle.lens_pred.specs.NormalForm.{first_not_normal, is_conjunct};
ghost use Rattle.lens_pred.specs.View.{formula_view, predicate_view};

use crate::copying::append_copies;
use crate::formula::Formula;
use crate::holding::all_hold;
use crate::nodes::nodes_in;
use lens_values::{NoMemory, Row};
use std::alloc::Global;
use std::marker::Model;

/// Conditions that all have to hold, each in normal form and none of them an `And`.
#[derive(Drop)]
pub struct Pred {
    conjuncts: Vec<Formula>,
}

impl Model for Pred {
    ghost use Rattle.std.specs.Prelude.{IsTrue};
    ghost use Rattle.std.specs.Coded.{coded_list};
    ghost use Rattle.std.specs.List.{list_all};
    ghost use Rattle.lens_specs.specs.Predicate.{Predicate};
    ghost use Rattle.lens_pred.specs.Code.{formula_code};
    ghost use Rattle.lens_pred.specs.NormalForm.{is_conjunct};
    ghost use Rattle.lens_pred.specs.View.{predicate_view};

    ghost Value = { Predicate };

    ghost coded = { coded_list formula_code };

    ghost view = { λ p. predicate_view p.conjuncts.items };

    ghost invariant = { λ p. IsTrue (list_all is_conjunct (predicate_view p.conjuncts.items)) };
}

/// The conjunct at this place, from 0, is not in normal form.
#[derive(Clone, Copy, Debug, PartialEq, Eq)]
pub struct NotNormal {
    pub index: usize,
}

impl Pred {
    /// Makes a predicate of these conjuncts, or gives the place of the first that is not in normal
    /// form.
    pub fn new(conjuncts: Vec<Formula>) -> Result<Pred, NotNormal>
        ensures ok { IfOk result (λ pred. pred ≡ predicate_view conjuncts.items) }
        ensures normal { OnOk result (first_not_normal (predicate_view conjuncts.items) ≡ None) }
        ensures err { IfErr result (λ fault.
            first_not_normal (predicate_view conjuncts.items) ≡ Some fault.index) }
    {
        match first_fault(&conjuncts) {
            Some(index) => Err(NotNormal { index }),
            None => Ok(Pred { conjuncts }),
        }
    }

    /// The conjuncts in their order.
    pub fn conjuncts(&self) -> &[Formula]
        ensures list { predicate_view result.now ≡ self.now }
        ensures normal { IsTrue (list_all is_conjunct self.now) }
    {
        self.conjuncts.as_slice()
    }

    /// Counts the nodes of the conjuncts, up to `usize::MAX`.
    pub fn nodes(&self) -> usize
        ensures { result ≡ min (predicate_nodes self.now) (2 ^ 64 - 1) }
    {
        nodes_in(self.conjuncts())
    }

    /// Whether the row meets the predicate. A comparison with a missing value does not hold.
    pub fn holds(&self, row: &Row) -> bool
        ensures { result ≡ holds_of self.now row.now }
    {
        all_hold(self.conjuncts(), row)
    }

    /// The conjunction of both predicates: this one's conjuncts, then the other's.
    pub fn join(&self, alloc: Global, other: &Pred) -> Result<Pred, NoMemory>
        ensures { IfOk result (λ both. both ≡ self.now ++ other.now) }
    {
        let mut conjuncts = Vec::new(alloc);
        append_copies(alloc, self.conjuncts(), &mut conjuncts)?;
        append_copies(alloc, other.conjuncts(), &mut conjuncts)?;
        Ok(Pred { conjuncts })
    }

    /// Copies the predicate.
    pub fn copy(&self, alloc: Global) -> Result<Pred, NoMemory>
        ensures { IfOk result (λ copy. copy ≡ self.now) }
    {
        let mut conjuncts = Vec::new(alloc);
        append_copies(alloc, self.conjuncts(), &mut conjuncts)?;
        Ok(Pred { conjuncts })
    }

    /// The predicate of these conjuncts.
    pub(crate) fn from_normal(conjuncts: Vec<Formula>) -> Pred
        requires { IsTrue (list_all is_conjunct (predicate_view conjuncts.items)) }
        ensures { result ≡ predicate_view conjuncts.items }
    {
        Pred { conjuncts }
    }
}

// The place of the first formula that is no conjunct.
fn first_fault(conjuncts: &[Formula]) -> Option<usize>
    ensures { result ≡ position (λ f. not (is_conjunct (formula_view f))) conjuncts.now }
{
    conjuncts
        .iter()
        .position(|conjunct| !conjunct.is_conjunct())
}

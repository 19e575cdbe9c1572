//! How large a definition may be.
ghost use Rattle.std.specs.Prelude.{◌≡◌};
ghost use Rattle.grammar_specs.specs.Faults as faults;
ghost use Rattle.grammar_laws.specs.Reading.{limited as limited_of};
ghost use Rattle.view_lang.specs.DefViews.{definition_view};
ghost use Rattle.view_lang.specs.ExprViews.{expr_view};
ghost use Rattle.view_lang.specs.Reads.{Reads};

use crate::definition::{Definition, LangFault};
use crate::expr::Expr;
use lens_pred::Pred;
use view_limits::Limit;

const MAX_COLUMNS: usize = 64;

/// The most nodes of a predicate.
const MAX_NODES: usize = 256;

#[tactic(auto, using(crate::proofs::Small::small_nodes))]
fn is_small(pred: &Pred) -> bool
    ensures { result ≡ faults.is_small pred.now }
{
    pred.nodes() <= MAX_NODES
}

impl Expr {
    fn has_small_predicates(&self) -> bool
        ensures { result ≡ faults.has_small_predicates (expr_view self.now) }
    {
        match self {
            Expr::Named { .. } => true,
            Expr::Select { pred, of } => is_small(pred) && of.has_small_predicates(),
            Expr::Drop { of, .. } | Expr::Rename { of, .. } => of.has_small_predicates(),
            Expr::Join { left, right, .. } => {
                left.has_small_predicates() && right.has_small_predicates()
            }
        }
    }
}

/// The definition, or what in it is too large.
pub fn limited(definition: Definition) -> Result<Definition, LangFault>
    ensures { Reads result (limited_of (definition_view definition)) }
{
    let what = match &definition {
        Definition::Table { cols, .. } if cols.pairs().len() > MAX_COLUMNS => Limit::Columns,
        Definition::Table { pred, .. } if !is_small(pred) => Limit::Predicate,
        Definition::View { expr, .. } if !expr.has_small_predicates() => Limit::Predicate,
        _ => return Ok(definition),
    };
    Err(LangFault::TooLarge { what })
}

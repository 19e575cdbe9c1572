//! The comparisons.
ghost use Rattle.std.specs.Prelude.{◌≡◌};
ghost use Rattle.lens_specs.specs.Predicate.{test_of};
ghost use Rattle.lens_pred.specs.Op.{op_view};

use std::cmp::Ordering;

/// How two values are compared.
#[derive(Clone, Copy, PartialEq, Eq)]
pub enum Op {
    Eq,
    Ne,
    Lt,
    Le,
    Gt,
    Ge,
}

impl Op {
    /// Whether two values in this order pass the comparison.
    pub fn allows(self, ordering: Ordering) -> bool
        ensures { result ≡ test_of (op_view self) ordering }
    {
        match self {
            Op::Eq => ordering.is_eq(),
            Op::Ne => ordering.is_ne(),
            Op::Lt => ordering.is_lt(),
            Op::Le => ordering.is_le(),
            Op::Gt => ordering.is_gt(),
            Op::Ge => ordering.is_ge(),
        }
    }
}

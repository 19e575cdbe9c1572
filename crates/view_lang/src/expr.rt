//! Expressions: what a view is made of.

use lens_pred::Pred;
use lens_values::{JoinKind, Name, Names, Value};

/// The rows that a view shows.
#[derive(Drop)]
pub enum Expr {
    /// A table or a view by its name.
    Named {
        name: Name,
    },
    /// The rows of an expression on which a predicate holds.
    Select {
        pred: Pred,
        of: Box<Expr>,
    },
    /// A drop of the column `col`, which the columns `by` determine. `fill` is its value on a row for
    /// which they determine none.
    Drop {
        col: Name,
        by: Names,
        fill: Value,
        of: Box<Expr>,
    },
    /// The column `col` under the name `to`.
    Rename {
        col: Name,
        to: Name,
        of: Box<Expr>,
    },
    /// A join, which deletes on the side that its kind says.
    Join {
        kind: JoinKind,
        left: Box<Expr>,
        right: Box<Expr>,
    },
}

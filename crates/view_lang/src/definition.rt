//! Definitions of tables and views, and why a text gives none.
ghost use Rattle.std.specs.Prelude.{◌≡◌};
ghost use Rattle.view_lang.specs.declared.definition.LangFault.TheVariants as faults;

use crate::expr::Expr;
use fd_closure::Dep;
use lens_pred::Pred;
use lens_values::{Columns, Name, NoMemory};
use std::marker::Model;
use thiserror::Error;
use view_limits::Limit;

/// Dependencies, in order. A contract sees the list of their edges.
#[derive(Drop)]
pub struct Deps {
    list: Vec<Dep>,
}

impl Model for Deps {
    ghost use Rattle.std.specs.Prelude.{List};
    ghost use Rattle.std.specs.Coded.{coded_list};
    ghost use Rattle.lens_specs.specs.Dependencies.{Edge};
    ghost use Rattle.fd_closure.specs.Sides.{coded_edge};

    ghost Value = { List Edge };

    ghost coded = { coded_list coded_edge };

    ghost view = { λ d. d.list.items };
}

impl Deps {
    pub fn new(list: Vec<Dep>) -> Deps
        ensures { result ≡ list.items }
    {
        Deps { list }
    }

    pub fn as_slice(&self) -> &[Dep]
        ensures { result.now ≡ self.now }
    {
        self.list.as_slice()
    }
}

/// What a text defines.
#[derive(Drop)]
pub enum Definition {
    /// A table. Its dependencies are in the order of the text.
    Table {
        name: Name,
        cols: Columns,
        deps: Deps,
        pred: Pred,
    },
    /// A view, which shows the rows of an expression.
    View {
        name: Name,
        expr: Expr,
    },
}

/// Why a text gives no definition.
#[derive(Debug, PartialEq, Eq, Drop, Error)]
pub enum LangFault {
    /// The text goes wrong at this offset.
    #[error("the text goes wrong at offset {at}")]
    Syntax {
        /// Where the first wrong token begins, or the length of the text where it ends too early.
        at: usize,
    },
    /// This is too large.
    #[error("{}", .what.sentence())]
    TooLarge {
        what: Limit,
    },
    #[error("memory ran out")]
    NoMemory,
}

impl From<NoMemory> for LangFault {
    ghost from_gives = { λ _ why. why ≡ faults.NoMemory };

    fn from(_: NoMemory) -> LangFault {
        LangFault::NoMemory
    }
}

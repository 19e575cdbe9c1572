//! The definition language: definitions read from texts, and printed.
#![tactic(auto)]

pub mod definition;
pub mod expr;
pub mod parsing;
pub mod printing;
mod words;

pub use definition::{Definition, Deps, LangFault};
pub use expr::Expr;
pub use lens_values::JoinKind;
pub use parsing::parse;
pub use printing::{print, print_formula};
pub use view_limits::{Limit, Side};

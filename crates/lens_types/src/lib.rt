//! Sorts of tables and of views, and lenses that have one.
#![tactic(auto)]

mod among;
mod dropping;
pub mod fault;
mod joining;
pub mod lens;
pub mod node;
pub mod renaming;
pub mod rows;
mod selecting;
mod sizes;
pub mod sort;
pub mod steadiness;
mod unknowns;

pub use fault::{Refused, TypeFault};
pub use lens::{Lens, TypedLens};
pub use lens_values::JoinKind;
pub use node::Node;
pub use renaming::{rename_columns, rename_pred};
pub use rows::{rename_row, rename_rows, rename_set};
pub use sort::Sort;
pub use steadiness::unsteady;

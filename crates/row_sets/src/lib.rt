//! Finite sets of rows, as lists and as trees, and relations.
#![tactic(auto)]

mod index;
mod joining;
mod moving;
mod ranking;
pub mod relation;
pub mod row_set;
pub mod row_tree;

pub use index::{Group, indexed, with_part};
pub use joining::pasted_part;
pub use relation::Relation;
pub use row_set::RowSet;
pub use row_tree::RowTree;

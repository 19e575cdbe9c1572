//! Definitions and rows in memory.
#![tactic(auto)]

mod contents;
mod row_trees;
mod size;
pub mod store;
mod tree_rows;

pub use store::MemoryStore;

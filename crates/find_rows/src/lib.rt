//! The rows of a view whose value in one column is a given one, found by key where that can be.
#![tactic(auto)]

mod finding;

pub use finding::find_rows;

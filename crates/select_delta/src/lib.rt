//! What an edit of a selection changes in its source, by rows found by key.
#![tactic(auto)]

pub mod editing;

pub use editing::select_delta;

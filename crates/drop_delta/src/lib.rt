//! What an edit of a relation without one of its columns changes in the relation, by rows found by
//! key.
#![tactic(auto)]

pub mod editing;

pub use editing::drop_delta;

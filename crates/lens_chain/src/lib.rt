//! What an edit of a view changes in the tables, by differences carried down its lens.
#![tactic(auto)]

mod changes;
mod nodes;
mod putting;

pub use putting::put_delta;

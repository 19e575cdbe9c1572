//! Whole views: what a lens shows of tables, by one scan of each, and its difference from known
//! rows.
#![tactic(auto)]

mod columns;
mod differing;
mod joining;
mod known;
mod pasting;
mod reading;
mod unfiltered;

pub use columns::{names_of, shared_names};
pub use differing::difference_in;
pub use reading::read_in;

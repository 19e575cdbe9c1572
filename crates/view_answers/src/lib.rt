//! Answers about an opened view: its rows, those with a value, its sort, its rows as CSV.
#![tactic(auto)]

mod exports;
mod questions;

pub use exports::export_answer;
pub use questions::{find_answer, read_answer, type_answer};

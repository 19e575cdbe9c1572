//! Rows and columns that tests write as texts.
#![tactic(auto)]

mod samples;

pub use samples::{are_rows, columns, expect, names, relation, row, rows, value};

//! The texts of the statements over the tables of a store.
#![tactic(auto)]

mod statements;

pub use statements::{create_text, delete_text, insert_text, select_text};

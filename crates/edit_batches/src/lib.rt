//! Differences of tables, one after another and taken back.
#![tactic(auto)]

pub mod composing;
pub mod entries;
pub mod history;
pub mod laws;
mod uniting;

pub use composing::compose;
pub use entries::{Deltas, Entry, compose_all, inverted};
pub use history::History;
pub use laws::{composed_leads, differences_are_alone};

//! Differences of sets of rows, and questions to a relation that nobody may walk.
#![tactic(auto)]

pub mod asking;
pub mod delta;
pub mod look;
mod sides;

pub use asking::{absent, find_each, present};
pub use delta::{Delta, TableDelta, diff, of_touched};
pub use look::Look;

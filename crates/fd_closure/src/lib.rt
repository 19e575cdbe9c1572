//! Functional dependencies between columns: closures, and what they imply.
#![tactic(auto)]

pub mod closing;
pub mod dep;
mod found;
mod index;

pub use closing::{closure, implies};
pub use dep::{Dep, EmptySide};

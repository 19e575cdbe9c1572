//! Rows revised by other rows along a tree of functional dependencies, merges, and the rows that
//! revision changes.
#![tactic(auto)]

mod first_by_key;
mod nearing;
mod pasting;
pub mod revising;
pub mod steps;
pub mod touching;
mod unlike;

pub use nearing::near_rows;
pub use revising::{merge, revise, revise_row};
pub use steps::{all_along, one_along};
pub use touching::{
    NearRows, Touched, afters, befores, near_and_new, revise_touched, touched_among,
};

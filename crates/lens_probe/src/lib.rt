//! A lens over tables by key: a view that answers whether it has a row, and which of its rows have
//! given values in given columns.
#![tactic(auto)]

mod finding;
mod handed;
mod having;
mod near;
mod needed;
mod pairing;
mod selecting;
pub mod view;

pub use near::Near;
pub use needed::needs;
pub use view::View;

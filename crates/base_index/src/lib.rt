//! Tables by key: their rows, and indexes by columns.
#![tactic(auto)]

mod body;
mod filling;
mod listing;
pub mod need;
mod settling;
mod several;
mod table;
pub mod tables;

pub use need::Need;
pub use tables::Tables;

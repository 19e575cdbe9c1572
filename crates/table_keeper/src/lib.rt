//! Keepers of definitions and rows: the trait, and keepers in memory.
#![tactic(auto)]

pub mod calls;
mod contents;
pub mod keeper;
pub mod memory;
mod store;
mod tables;

pub use calls::{Asked, Call};
pub use keeper::{Change, KeepFault, Keeper, Kept, KeptTable};
pub use memory::{MemoryKeeper, SureKeeper};
pub use tables::search;

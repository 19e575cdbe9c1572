//! The whole program but for its devices.
#![tactic(auto)]

mod giving;
mod input;
mod opening;
mod rehearsals;
pub mod running;

pub use opening::open;
pub use running::run;

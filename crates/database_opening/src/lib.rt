//! A database is opened over what is kept, or its first damage is told.
#![tactic(auto)]

pub mod damage;
mod definitions;
mod fault;
mod opening;
mod tables;

pub use damage::{Damage, damage_line};
pub use fault::OpenFault;
pub use opening::database_of;

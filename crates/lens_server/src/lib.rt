//! The server: requests are answered one line at a time.
#![tactic(auto)]

mod answers;
mod batches;
mod changes;
mod definitions;
mod dispatch;
mod refusals;
pub mod server;
pub mod startup;
mod undo;
mod views;

pub use database_opening::{Damage, damage_line};
pub use server::Server;
pub use startup::fault::StartFault;

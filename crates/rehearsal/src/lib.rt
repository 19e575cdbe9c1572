//! The rehearsal: lines that the program makes, answered by the server one after another, and the
//! summary of what they were answered.
#![tactic(auto)]

mod lines;
pub mod rehearsing;
mod replies;
mod requests;
mod summary;
mod tally;
mod text;

pub use rehearsing::rehearse;

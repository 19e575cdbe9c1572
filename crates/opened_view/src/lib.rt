//! A view that is opened for a request: over which tables, at which version, and when each changed.
#![tactic(auto)]

mod last_changes;
mod opened;

pub use last_changes::LastChanges;
pub use opened::Opened;

//! How a server starts.
pub mod fault;

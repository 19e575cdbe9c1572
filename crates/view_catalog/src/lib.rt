//! The catalogue of the definitions that were taken, and the lens of each name.
#![tactic(auto)]

pub mod catalog;
pub mod fault;
mod judging;
mod key;
pub mod prepared;

pub use catalog::Catalog;
pub use fault::CatalogFault;
pub use prepared::Prepared;

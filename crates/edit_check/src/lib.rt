//! The check of an edit near its rows, against the sort of its view.
#![tactic(auto)]

pub mod checking;
pub mod edit_fault;

pub use checking::check_edit;
pub use edit_fault::EditFault;

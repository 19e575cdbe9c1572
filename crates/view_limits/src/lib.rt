//! What a refusal of a table or a view names beside columns: a limit, and a side of a join.
#![tactic(auto)]

pub mod limit;
pub mod side;

pub use limit::Limit;
pub use side::Side;

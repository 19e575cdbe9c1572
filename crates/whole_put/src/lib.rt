//! The nodes of a lens over whole relations: the view that each shows of its sources, and the
//! sources after a put of it; and the same of whole lenses over tables.
#![tactic(auto)]

pub mod db;
pub mod dropping;
pub mod getting;
pub mod joining;
pub mod putting;
mod relations;
pub mod renaming;
pub mod selecting;
mod sources;

pub use db::Db;
pub use dropping::{get_drop, put_drop};
pub use getting::get;
pub use joining::{get_join, put_join};
pub use putting::put;
pub use renaming::{get_rename, put_rename};
pub use selecting::{get_select, put_select};

//! What an edit of a join changes in its two sources, by rows found by key and by the side on which
//! the join deletes.
#![tactic(auto)]

pub mod editing;
mod merging;
mod over;
mod parts;
pub mod sides;
pub mod source;
pub mod sources;

pub use editing::{join_both_delta, join_change, join_delta, join_dr_delta};
pub use merging::without;
pub use source::Source;
pub use sources::{Merged, merge_sources};

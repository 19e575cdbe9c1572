//! Answers printed as lines.
#![tactic(auto)]

pub mod answer;
mod describing;
mod edit_refusals;
pub mod json_values;
pub mod lists;
mod printing;
mod refusals;
pub mod reply;
mod results;

pub use answer::{Answer, EditRefusal, RowList, reply_text};
pub use json_values::row_value;
pub use lists::{Changes, Edges, Texts};
pub use reply::{Reply, long_reply, memory_reply, store_fault_reply};

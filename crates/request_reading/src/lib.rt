//! Requests read from lines, and their rows.
#![tactic(auto)]

pub mod batch_edits;
mod batches;
mod by_kind;
mod member_fault;
mod member_values;
pub mod request;
mod request_kind;
mod request_members;
pub mod rows;
pub mod sent;

pub use batch_edits::{BatchEdit, BatchEdits};
pub use request::{Request, RequestFault, read_request};
pub use rows::{RowsFault, rows_of};
pub use sent::{JsonRows, JsonValue};

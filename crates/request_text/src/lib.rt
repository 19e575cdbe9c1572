//! Requests and replies: the public names of the crates that read the ones and print the others.
#![tactic(auto)]

pub use line_texts::{CsvText, Member};
pub use reply_printing::{
    Answer, Changes, Edges, EditRefusal, Reply, RowList, Texts, long_reply, memory_reply,
    reply_text, row_value, store_fault_reply,
};
pub use request_reading::{
    BatchEdit, BatchEdits, JsonRows, JsonValue, Request, RequestFault, RowsFault, read_request,
    rows_of,
};

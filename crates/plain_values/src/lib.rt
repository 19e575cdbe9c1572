//! Values, texts, names and kinds, and what columns and rows are, as finite maps.
#![tactic(auto)]

pub mod copying;
pub mod join_kind;
pub mod name;
mod short_text;
pub mod text;
pub mod value;

pub use copying::{TryClone, append, copied};
pub use join_kind::JoinKind;
pub use name::{BadName, Name};
pub use no_memory::NoMemory;
pub use text::{Text, TextFault};
pub use value::{Kind, Value};

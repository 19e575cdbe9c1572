//! JSON over borrowed text: read token by token by the kit's `json` with no copy of the text, and
//! meant as `serde_json` means it.
#![tactic(auto)]

mod fault;
mod members;
mod numbers;
mod reading;
mod scalars;
mod value;

pub use members::{member, take_member};
pub use reading::read_line;
pub use scalars::{as_i64, as_str, as_u64};
pub use value::{Entry, Value};

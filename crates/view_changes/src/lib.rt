//! What a put, an edit or an import of an opened view changes in its tables, or why it is refused.
#![tactic(auto)]

mod changes;
mod refusal;
mod sheets;

pub use changes::{edit, put, put_rows};
pub use refusal::Refusal;
pub use sheets::{SheetFault, sheet_rows};

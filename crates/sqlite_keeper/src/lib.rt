//! A keeper of definitions and rows, in a file that sqlite3 reads or in memory.
#![tactic(auto)]

mod cells;
mod changing;
mod database;
mod format;
pub mod keeper;
mod known;
mod laws;
mod loading;
mod logs;
mod placing;
mod refusal;
mod short_files;
mod store;
mod tables;

pub use keeper::SqliteKeeper;
pub use laws::memory_keeps_the_last_state;

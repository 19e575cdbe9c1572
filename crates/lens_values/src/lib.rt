//! Names, columns and rows as rising lists that their copies share, and their merging, sorting and
//! hash. It hands on what it is made of: values, texts, names and kinds.
#![tactic(auto)]

pub mod columns;
pub mod hash;
pub mod merging;
pub mod names;
mod pairs;
mod renaming;
pub mod row;
pub mod sorting;

pub use columns::{Columns, ColumnsFault};
pub use hash::{hash_number, hash_value};
pub use merging::{Keyed, difference, intersection, union};
pub use names::Names;
pub use plain_values::{
    BadName, JoinKind, Kind, Name, NoMemory, Text, TextFault, TryClone, Value, append, copied,
};
pub use row::{Row, RowFault};
pub use sorting::{into_sorted, sort_dedup};

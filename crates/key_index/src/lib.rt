//! Indexes of rows by the values of some columns, and rows with their keys in each index.
#![tactic(auto)]

mod cells;
mod filling;
mod group;
pub mod index;
mod key;
pub mod keyed;
pub mod marks;
mod row_list;

pub use filling::{fill, indexes_of};
pub use index::{Index, find_by, has_index};
pub use key::Key;
pub use keyed::{
    Keyed, add_row, all_with_keys, is_listed, listed, shrink, take_behind, take_row, with_keys,
};
pub use marks::Marks;

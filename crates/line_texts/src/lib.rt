//! Texts of any length that requests and replies share: the name of a member, and rows as CSV.
#![tactic(auto)]

pub mod csv_text;
pub mod member;

pub use csv_text::CsvText;
pub use member::Member;

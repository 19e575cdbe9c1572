//! Rows as CSV: what is written of them and what a text reads as, as definitions in `specs/`, and
//! the law that one undoes the other.
#![tactic(auto)]

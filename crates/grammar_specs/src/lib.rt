//! The definition language: its tokens, its grammar, what a text means, and which fault a wrong
//! text has.
#![tactic(auto)]

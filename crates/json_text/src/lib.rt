//! JSON text that grows at its end, token by token.
#![tactic(auto)]

pub mod json_text;
mod placing;

pub use json_text::JsonText;

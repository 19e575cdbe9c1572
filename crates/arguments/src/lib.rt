//! The words of the command line.
#![tactic(auto)]

mod parsing;
mod ranges;
pub mod reading;
pub mod settings;

pub use reading::read_settings;
pub use settings::{ArgumentsFault, Settings};

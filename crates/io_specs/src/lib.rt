//! Definitions of the lines of an input, and of the faults and calls of the devices that a caller
//! hands in.
#![tactic(auto)]

/// How many bytes a line has at most, without its newline.
pub const LONGEST_LINE: usize = 16_777_216;

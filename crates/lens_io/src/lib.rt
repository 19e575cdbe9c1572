//! Bytes in and out: sources and sinks that count their faults, and lines cut from a source.
#![tactic(auto)]

pub mod cutting;
pub mod in_memory;
pub mod input_output;
pub mod laws;
pub mod streams;
pub mod told;

pub use cutting::{Cut, LineCutter, ROOM};
pub use in_memory::{MemorySink, MemorySource, SureSource};
pub use input_output::{Failed, Sink, Source, give_all};
pub use streams::{StreamSink, StreamSource};
pub use told::{Offer, Take};

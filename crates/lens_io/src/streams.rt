//! Sources and sinks over std's readers and writers.
ghost use Rattle.std.specs.Prelude.{◌≡◌, None};

use crate::input_output::{Failed, Sink, Source};
use std::io::{Read, Write};

/// A source over a reader of std. Each error of the reader is a fault.
#[derive(Drop)]
pub struct StreamSource<R> {
    reader: R,
    faults: u64,
}

impl<R: Read> StreamSource<R> {
    /// A source of the bytes that the reader has left.
    pub fn new(reader: R) -> StreamSource<R>
        ensures bytes { ⟦<StreamSource<R> as Source>⟧.left result ≡ R.remaining reader }
        ensures faults { ⟦<StreamSource<R> as Source>⟧.faults result ≡ 0 }
    {
        StreamSource { reader, faults: 0 }
    }
}

impl<R: Read> Source for StreamSource<R> {
    ghost left = { λ s. R.remaining s.reader };

    ghost faults = { λ s. s.faults };

    ghost asked = { λ _. None };

    fn take(&mut self, into: &mut [u8]) -> Result<usize, Failed> {
        match self.reader.read(into) {
            Ok(count) => Ok(count),
            Err(_) => {
                self.faults = self.faults.saturating_add(1);
                Err(Failed)
            }
        }
    }
}

/// A sink over a writer of std. Each error of the writer is a fault, and so is a write that takes
/// nothing.
#[derive(Drop)]
pub struct StreamSink<W> {
    writer: W,
    faults: u64,
}

impl<W: Write> StreamSink<W> {
    /// A sink that gives its bytes to the writer.
    pub fn new(writer: W) -> StreamSink<W>
        ensures bytes { ⟦<StreamSink<W> as Sink>⟧.taken result ≡ W.contents writer }
        ensures faults { ⟦<StreamSink<W> as Sink>⟧.faults result ≡ 0 }
    {
        StreamSink { writer, faults: 0 }
    }
}

impl<W: Write> Sink for StreamSink<W> {
    ghost taken = { λ s. W.contents s.writer };

    ghost faults = { λ s. s.faults };

    ghost offered = { λ _. None };

    fn give(&mut self, piece: &[u8]) -> Result<usize, Failed> {
        match self.writer.write(piece) {
            Ok(count) if count > 0 => Ok(count),
            _ => {
                self.faults = self.faults.saturating_add(1);
                Err(Failed)
            }
        }
    }
}

//! Lines of a source.
ghost use Rattle.std.specs.Prelude.{◌≡◌, ◌≤◌, ◌^◌, false, [], IfOk, slice_range};
ghost use Rattle.lens_io.specs.Calls.{Rose};
ghost use Rattle.lens_io.specs.CutterCode.{coded_cutter};
ghost use Rattle.lens_io.specs.Cutting as spec;
ghost use Rattle.lens_io.specs.Cutting.{Cuts, NeedsNone, is_last};
ghost use Rattle.lens_io.specs.Within.{Holds};

mod found;
mod gathering;

use crate::input_output::Source;
use found::{Found, stopped};
use gathering::find;
use io_specs::LONGEST_LINE;
use no_memory::NoMemory;
use std::alloc::Global;
use std::marker::Model;

/// The answer to `LineCutter::next`. Only `Line` and `TooLong` are followed by another answer.
#[derive(Clone, Copy, PartialEq, Eq)]
pub enum Cut {
    /// A line, which `LineCutter::line` reads.
    Line,
    /// A line of more than `LONGEST_LINE` bytes, which was passed over.
    TooLong,
    /// The input has ended, and all its lines were given.
    End,
    /// The source failed. Bytes after the last newline are dropped.
    Failed,
    /// The input has more bytes than the limit. Bytes after the last newline are dropped.
    Spent,
}

/// The greatest room that one call of a source is given, in bytes.
pub const ROOM: usize = 65_536;

/// Cuts the bytes of a source into lines. A last line without a newline counts where it is not
/// empty.
#[derive(Drop)]
pub struct LineCutter {
    bytes: Vec<u8>,
    found: Found,
    limit: u64,
    done: bool,
}

impl Model for LineCutter {
    ghost Value = { spec.Cutter };

    ghost coded = { coded_cutter };

    ghost view = { λ c. record { pending = slice_range c.bytes.items c.found.start c.found.end; line = slice_range c.bytes.items c.found.line_start c.found.line_end; taken = c.found.taken; limit = c.limit; ended = c.found.ended; done = c.done } };

    ghost invariant = { Holds };
}

impl LineCutter {
    /// A cutter of an input of at most `max_input` bytes. It takes memory for the longest line, and
    /// none later. `NoMemory`: there is no memory for it.
    pub fn new(alloc: Global, max_input: u64) -> Result<LineCutter, NoMemory>
        requires least { 1 ≤ max_input }
        requires most { max_input ≤ 2 ^ 40 }
        ensures { IfOk result (λ cutter.
            cutter ≡ record {
              pending = [];
              line = [];
              taken = 0;
              limit = max_input;
              ended = false;
              done = false;
            }) }
    {
        Ok(LineCutter {
            bytes: Vec::with_capacity(alloc, LONGEST_LINE + ROOM)?,
            found: stopped(Cut::Line, 0, false),
            limit: max_input,
            done: false,
        })
    }

    /// Finds the next line. It asks the source only if no whole line waits.
    pub fn next<S: Source>(&mut self, source: &mut S) -> Cut
        requires { self.old.done ≡ false }
        ensures cuts { Cuts result self.old.pending self.new.line self.new.pending self.old.taken self.new.taken
            self.old.limit self.old.ended self.new.ended (S.left source.old) (S.left source.new)
            (S.asked source.old) (S.asked source.new) }

        // The cutter does not ask the source if a whole line waits.
        ensures asks { NeedsNone self.old.pending self.old.taken self.old.limit self.old.ended
            → source.new ≡ source.old }

        ensures limit { self.new.limit ≡ self.old.limit }
        ensures done { self.new.done ≡ is_last result }
        ensures later { S.faults source.old ≤ S.faults source.new }
        ensures failed { result ≡ Cut.Failed → Rose (S.faults source.old) (S.faults source.new) }
    {
        self.found = find(source, &mut self.bytes, self.found, self.limit);
        self.done = ends(self.found.cut);
        self.found.cut
    }

    /// The line, without its newline, after `Cut::Line`.
    pub fn line(&self) -> &[u8]
        ensures { result.now ≡ self.now.line }
    {
        &self.bytes[self.found.line_start..self.found.line_end]
    }

    /// Whether the last answer was the last of all.
    pub fn done(&self) -> bool
        ensures { result ≡ self.now.done }
    {
        self.done
    }
}

fn ends(cut: Cut) -> bool
    ensures { result ≡ is_last cut }
{
    match cut {
        Cut::Line | Cut::TooLong => false,
        Cut::End | Cut::Failed | Cut::Spent => true,
    }
}

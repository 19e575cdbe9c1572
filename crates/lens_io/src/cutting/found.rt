//! What a call of a cutter found, by places in its buffer.
ghost use Rattle.std.specs.Prelude.{◌≡◌, ◌≤◌, ◌<◌, ◌+◌, ◌-◌, false, true};
ghost use Rattle.lens_io.specs.Cutting.{sized, unended};

use crate::cutting::Cut;
use io_specs::LONGEST_LINE;

/// The result of a call, by places in the buffer: the line is at `line_start..line_end`, and the
/// bytes that wait for the next call are at `start..end`.
#[derive(Clone, Copy, Drop)]
pub(crate) struct Found {
    pub(super) cut: Cut,
    pub(super) line_start: usize,
    pub(super) line_end: usize,
    pub(super) start: usize,
    pub(super) end: usize,
    pub(super) taken: u64,
    pub(super) ended: bool,
}

/// No line, and no byte waits.
pub(super) fn stopped(cut: Cut, taken: u64, ended: bool) -> Found
    ensures { result ≡ record {
      cut = cut;
      line_start = 0;
      line_end = 0;
      start = 0;
      end = 0;
      taken = taken;
      ended = ended;
    } }
{
    Found {
        cut,
        line_start: 0,
        line_end: 0,
        start: 0,
        end: 0,
        taken,
        ended,
    }
}

/// The answer to a line of that length.
pub(super) fn sized(size: usize) -> Cut
    ensures { result ≡ sized size }
{
    if size > LONGEST_LINE {
        Cut::TooLong
    } else {
        Cut::Line
    }
}

/// A line that ends at the newline `at`.
pub(super) fn cut_at(start: usize, at: usize, end: usize, taken: u64) -> Found
    requires order { start ≤ at }
    requires within { at < end }
    ensures { result ≡ record {
      cut = sized (at - start);
      line_start = start;
      line_end = at;
      start = at + 1;
      end = end;
      taken = taken;
      ended = false;
    } }
{
    Found {
        cut: sized(at - start),
        line_start: start,
        line_end: at,
        start: at + 1,
        end,
        taken,
        ended: false,
    }
}

/// The input is longer than the limit. Only the byte beyond it still waits.
pub(super) fn spent(end: usize, taken: u64) -> Found
    requires { 1 ≤ end }
    ensures { result ≡ record {
      cut = Cut.Spent;
      line_start = 0;
      line_end = 0;
      start = end - 1;
      end = end;
      taken = taken;
      ended = false;
    } }
{
    Found {
        cut: Cut::Spent,
        line_start: 0,
        line_end: 0,
        start: end - 1,
        end,
        taken,
        ended: false,
    }
}

/// The answer to so many bytes without a newline at the end of the input.
pub(super) fn unended(size: usize) -> Cut
    ensures { result ≡ unended size }
{
    if size == 0 { Cut::End } else { Cut::Line }
}

/// The input ended, and the first `end` bytes are its last line, if any.
pub(super) fn last_line(end: usize, taken: u64) -> Found
    ensures { result ≡ record {
      cut = unended end;
      line_start = 0;
      line_end = end;
      start = end;
      end = end;
      taken = taken;
      ended = true;
    } }
{
    Found {
        cut: unended(end),
        line_start: 0,
        line_end: end,
        start: end,
        end,
        taken,
        ended: true,
    }
}

//! Sources and sinks of bytes, which count their faults.
ghost use Rattle.std.specs.Prelude.{◌≡◌, ◌≤◌, ◌<◌, ℕ, List, length, OnOk, OnErr, IfOk};
ghost use Rattle.std.specs.declared.option.Option.{Option};
ghost use Rattle.std.specs.Io.KnownBytes.{Appends, Keeps};
ghost use Rattle.lens_io.specs.Bytes.{AppendsFront};
ghost use Rattle.lens_io.specs.Calls.{Adds, AddsGive, AddsTake, Call, Offer, OffersAll, OffersRest, ReadConsumes, ReadsAtMost, Rose, WriteAppends};

/// A source or a sink failed, and has counted it.
#[derive(Clone, Copy, PartialEq, Eq)]
pub struct Failed;

/// A source of bytes.
pub trait Source {
    /// The bytes that are left, where it tells them.
    ghost left: { Self → Option (List ℕ) };

    /// How often it has failed.
    ghost faults: { Self → ℕ };

    /// The calls of `take` so far, where it tells them.
    ghost asked: { Self → Option (List Call) };

    /// Gives some of the bytes that are left, and answers how many; 0 is the end of the input.
    /// `Failed`: it gave none.
    fn take(&mut self, into: &mut [u8]) -> Result<usize, Failed>
        requires { 0 < length into.old }
        ensures bound { ReadsAtMost result into.new }
        ensures bytes { ReadConsumes (left self.old) (left self.new) result into.new }
        ensures call { AddsTake (asked self.old) (asked self.new) result into.new }
        ensures later { faults self.old ≤ faults self.new }
        ensures failed { OnErr result (Rose (faults self.old) (faults self.new)) };
}

/// A sink of bytes.
pub trait Sink {
    /// The bytes that it has taken, where it tells them.
    ghost taken: { Self → Option (List ℕ) };

    /// How often it has failed.
    ghost faults: { Self → ℕ };

    /// The calls of `give` so far, where it tells them.
    ghost offered: { Self → Option (List Offer) };

    /// Takes some first bytes of the piece, at least one, and answers how many. `Failed`: it took
    /// none.
    fn give(&mut self, piece: &[u8]) -> Result<usize, Failed>
        requires { 0 < length piece.now }
        ensures some { IfOk result (λ n. 0 < n) }
        ensures bound { IfOk result (λ n. n ≤ length piece.now) }
        ensures bytes { WriteAppends (taken self.old) (taken self.new) result piece.now }
        ensures call { AddsGive (offered self.old) (offered self.new) result piece.now }
        ensures later { faults self.old ≤ faults self.new }
        ensures failed { OnErr result (Rose (faults self.old) (faults self.new)) };
}

/// Gives all the bytes to the sink, in as many calls as it needs. `Failed`: the sink failed, and
/// took only the first of them.
pub fn give_all<W: Sink>(sink: &mut W, bytes: &[u8]) -> Result<(), Failed>
    ensures ok { OnOk result (Appends (W.taken sink.old) (W.taken sink.new) bytes.now) }
    ensures front { OnErr result (AppendsFront (W.taken sink.old) (W.taken sink.new) bytes.now) }
    // Each call is handed all bytes that are left, and no call follows one that failed.
    ensures calls { Adds (OffersRest (length bytes.now)) (W.offered sink.old) (W.offered sink.new) }
    ensures all { OnOk result (Adds (OffersAll (length bytes.now))
        (W.offered sink.old) (W.offered sink.new)) }
    ensures later { W.faults sink.old ≤ W.faults sink.new }
    ensures failed { OnErr result (Rose (W.faults sink.old) (W.faults sink.new)) }
{
    let mut at = 0;
    while at < bytes.len() {
        at += sink.give(&bytes[at..])?;
    }
    Ok(())
}

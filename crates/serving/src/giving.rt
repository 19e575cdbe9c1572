//! What a run gives to its sink.
ghost use Rattle.std.specs.Prelude.{◌≡◌, ◌≤◌, ◌⊎◌, length, OnOk, OnErr};
ghost use Rattle.std.specs.Io.KnownBytes.{Appends};
ghost use Rattle.io_specs.specs.Calls.{Adds};
ghost use Rattle.io_specs.specs.Faults.{Rose};
ghost use Rattle.lens_io.specs.Bytes.{AppendsFront, GivesUnlessFailed};
ghost use Rattle.lens_io.specs.Calls.{OffersAll, OffersRest};
ghost use Rattle.serving.specs.Running.{usage};

use lens_io::{Failed, Sink, give_all};
use reply_printing::Reply;

const USAGE: &[u8; 66] = b"usage: view_program [--store PATH] [--max-input N] [--rehearse N]\n";

/// Gives all of a reply.
pub fn give_reply<W: Sink>(sink: &mut W, reply: Reply) -> Result<(), Failed>
    ensures ok { OnOk result (Appends (W.taken sink.old) (W.taken sink.new) reply) }
    ensures front { OnErr result (AppendsFront (W.taken sink.old) (W.taken sink.new) reply) }
    ensures offers { OnOk result (Adds (OffersAll (length reply))
        (W.offered sink.old) (W.offered sink.new)) }
    ensures offers_until { Adds (OffersRest (length reply))
        (W.offered sink.old) (W.offered sink.new) }
    ensures later { W.faults sink.old ≤ W.faults sink.new }
    ensures failed { OnErr result (Rose (W.faults sink.old) (W.faults sink.new)) }
{
    give_all(sink, reply.bytes())
}

/// Gives the summary of a rehearsal, and returns the status of the program.
pub fn give_summary<W: Sink>(sink: &mut W, summary: &[u8]) -> u8
    ensures all { result ≡ 0 → Appends (W.taken sink.old) (W.taken sink.new) summary.now }
    ensures front { result ≡ 5
        → AppendsFront (W.taken sink.old) (W.taken sink.new) summary.now }
    ensures offers { Adds (OffersRest (length summary.now))
        (W.offered sink.old) (W.offered sink.new) }
    ensures ends { (result ≡ 0) ⊎ (result ≡ 5) }
    ensures write { result ≡ 5 → Rose (W.faults sink.old) (W.faults sink.new) }
    ensures later { W.faults sink.old ≤ W.faults sink.new }
{
    match give_all(sink, summary) {
        Ok(()) => 0,
        Err(Failed) => 5,
    }
}

/// Gives the usage line, or the front of it that a failing sink takes.
pub fn give_usage<W: Sink>(sink: &mut W)
    ensures told { GivesUnlessFailed (W.taken sink.old) (W.taken sink.new)
        (W.faults sink.old) (W.faults sink.new) usage }
    ensures offers { Adds (OffersRest (length usage)) (W.offered sink.old) (W.offered sink.new) }
    ensures later { W.faults sink.old ≤ W.faults sink.new }
{
    give_or_fail(sink, USAGE);
}

/// Gives the line, or the front of it that a failing sink takes.
pub fn give_or_fail<W: Sink>(sink: &mut W, line: &[u8])
    ensures told { GivesUnlessFailed (W.taken sink.old) (W.taken sink.new)
        (W.faults sink.old) (W.faults sink.new) line.now }
    ensures offers { Adds (OffersRest (length line.now)) (W.offered sink.old) (W.offered sink.new) }
    ensures later { W.faults sink.old ≤ W.faults sink.new }
{
    match give_all(sink, line) {
        Ok(()) => {}
        Err(Failed) => {}
    }
}

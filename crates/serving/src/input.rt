//! Answers the lines of the source, one after another.
ghost use Rattle.std.specs.Prelude.{◌≡◌, ◌≤◌, ◌<◌, ◌⊎◌, ◌+◌, ◌-◌, ◌^◌, [], false, true, length, None, Some};
ghost use Rattle.lens_specs.specs.Keeping.{Follows, IfObserved};
ghost use Rattle.server_specs.specs.Answer.{memory, text};
ghost use Rattle.server_specs.specs.Answering.{answer};
ghost use Rattle.server_specs.specs.Request.{request};
ghost use Rattle.server_specs.specs.Session.{Step};
ghost use Rattle.server_specs.specs.State as state;
ghost use Rattle.server_laws.specs.SheetLaws.{IsExportLine, ReadsBack};
ghost use Rattle.lens_io.specs.Cutting.{is_last};
ghost use Rattle.lens_server.specs.Committing.{CommitsFor};
ghost use Rattle.lens_server.specs.Counting.{most_walked};
ghost use Rattle.arguments.specs.Views.{settings_view};
ghost use Rattle.serving.specs.Promises.{Adds, IsServed, IsUnserved, Promises, Rose};
ghost use Rattle.serving.specs.Running.{Serves, line_of, status_of};

use crate::giving::give_reply;
use crate::opening::{open, refuse};
use arguments::Settings;
use lens_io::{Cut, Failed, LineCutter, Sink, Source};
use lens_server::Server;
use reply_printing::{Reply, long_reply};
use std::alloc::Global;
use std::sync::ledger::{Blank, Ledger};
use step_counter::Steps;
use table_keeper::Keeper;

/// Serves the lines of the source over the store, if no rehearsal is asked for.
pub fn serve_input<S: Source, W: Sink, K: Keeper, L: Ledger, M: Ledger>(
    alloc: Global,
    settings: &Settings<'_>,
    source: &mut S,
    sink: &mut W,
    keeper: &mut K,
    walked: &mut Steps<L>,
    blank: Blank,
) -> u8
    requires name { blank.name ≡ M.name }
    requires parts { blank.parts ≡ M.parts }
    requires one { blank.parts ≡ 1 }
    requires asked { (settings_view settings.now).rehearse ≡ None }
    ensures promises { Promises (Some (settings_view settings.now)) K.stays result
        (record {
          left = S.left source.old;
          asked = S.asked source.old;
          given = W.taken sink.old;
          offered = W.offered sink.old;
          contents = K.contents keeper.old;
          calls = K.calls keeper.old;
          place = K.place keeper.old;
          source_faults = S.faults source.old;
          sink_faults = W.faults sink.old;
          keeper_faults = K.faults keeper.old;
          walked = walked.old;
        })
        (record {
          left = S.left source.new;
          asked = S.asked source.new;
          given = W.taken sink.new;
          offered = W.offered sink.new;
          contents = K.contents keeper.new;
          calls = K.calls keeper.new;
          place = K.place keeper.new;
          source_faults = S.faults source.new;
          sink_faults = W.faults sink.new;
          keeper_faults = K.faults keeper.new;
          walked = walked.new;
        }) }
    ensures ends { IsServed result ⊎ IsUnserved result }
    ensures takes_nothing { IsUnserved result → source.new ≡ source.old }
    ensures gives_nothing { (result ≡ 3) ⊎ (result ≡ 6) → sink.new ≡ sink.old }
{
    let Ok(mut cutter) = LineCutter::new(alloc, settings.max_input) else {
        return 3;
    };
    match open(alloc, settings.store, keeper) {
        Ok(mut server) => {
            let mut looked = Steps::<M>::new(blank);
            serve(
                alloc,
                &mut cutter,
                &mut server,
                source,
                sink,
                keeper,
                walked,
                &mut looked,
            )
        }
        Err(fault) => refuse(alloc, sink, fault),
    }
}

/// Answers the lines of the source, one after another, to its end, to the limit or to a fault.
fn serve<S: Source, W: Sink, K: Keeper, L: Ledger, M: Ledger>(
    alloc: Global,
    cutter: &mut LineCutter,
    server: &mut Server,
    source: &mut S,
    sink: &mut W,
    keeper: &mut K,
    walked: &mut Steps<L>,
    looked: &mut Steps<M>,
) -> u8
    requires cutter { cutter.old ≡ record {
      pending = [];
      line = [];
      taken = 0;
      limit = cutter.old.limit;
      ended = false;
      done = false;
    } }
    requires room { server.old.version + cutter.old.limit + 1 < 2 ^ 64 - 1 }
    requires told { IfObserved (K.contents keeper.old) (state.kept server.old) }
    ensures serves { Serves server.old cutter.old.limit result (S.left source.old) (S.left source.new)
        (W.taken sink.old) (W.taken sink.new) (S.asked source.old) (S.asked source.new)
        (W.offered sink.old) (W.offered sink.new) (K.faults keeper.old) (K.faults keeper.new)
        (K.contents keeper.old) (K.contents keeper.new) (K.calls keeper.old) (K.calls keeper.new)
        walked.old walked.new }
    ensures ends { (result ≡ 0) ⊎ ((result ≡ 4) ⊎ ((result ≡ 5) ⊎ (result ≡ 8))) }
    ensures read { result ≡ 4 → Rose (S.faults source.old) (S.faults source.new) }
    ensures write { result ≡ 5 → Rose (W.faults sink.old) (W.faults sink.new) }
    ensures source_later { S.faults source.old ≤ S.faults source.new }
    ensures sink_later { W.faults sink.old ≤ W.faults sink.new }
    ensures keeper_later { K.faults keeper.old ≤ K.faults keeper.new }
    ensures place { K.place keeper.new ≡ K.place keeper.old }
{
    'lines: loop {
        let cut = cutter.next(source);
        if cutter.done() {
            return status_of(cut);
        }
        let reply = reply_to(alloc, server, keeper, cut, cutter.line(), walked, looked);
        match give_reply(sink, reply) {
            Ok(()) => {}
            Err(Failed) => return 5,
        }
    }
}

/// The status after the last answer of a cutter.
fn status_of(cut: Cut) -> u8
    requires { is_last cut ≡ true }
    ensures { status_of cut ≡ Some result }
{
    match cut {
        Cut::Failed => 4,
        Cut::Spent => 8,
        _ => 0,
    }
}

/// Replies to a line, or to one that was too long.
fn reply_to<K: Keeper, L: Ledger, M: Ledger>(
    alloc: Global,
    server: &mut Server,
    keeper: &mut K,
    cut: Cut,
    line: &[u8],
    walked: &mut Steps<L>,
    looked: &mut Steps<M>,
) -> Reply
    requires room { server.old.version < 2 ^ 64 - 1 }
    requires told { IfObserved (K.contents keeper.old) (state.kept server.old) }
    requires line { is_last cut ≡ false }
    requires short { cut ≡ Cut.Line → length line.now ≤ 16777216 }
    ensures step { Step server.old (K.faults keeper.old) (line_of cut line.now) result
        server.new (K.faults keeper.new) }
    ensures told { Follows (λ _ now. now ≡ state.kept server.new)
        (K.contents keeper.old) (K.contents keeper.new) }
    ensures place { K.place keeper.new ≡ K.place keeper.old }
    ensures back { (name : _) (L : _) → IsExportLine server.old (line_of cut line.now) name L
        → (result ≡ text memory) ⊎ ReadsBack L server.old.tables }
    ensures untouched { (answer server.old (line_of cut line.now)).1 ≡ server.old
        → keeper.new ≡ keeper.old }
    ensures commits { Adds (CommitsFor server.old (K.faults keeper.old)
        (record {
          line = line_of cut line.now;
          reply = result;
          state = server.new;
          count = K.faults keeper.new;
        })) (K.calls keeper.old) (K.calls keeper.new) }
    ensures walked { walked.new
        ≤ walked.old + most_walked (request (line_of cut line.now)) server.old }
{
    match cut {
        Cut::Line => server.answer(alloc, keeper, line, walked, looked),
        _ => long_reply(),
    }
}

//! The whole program but for its devices: lines in, replies out.
ghost use Rattle.std.specs.Prelude.{◌≡◌, ◌⊎◌, map, string_bytes, None, IfSome};
ghost use Rattle.arguments.specs.Settings.{settings};
ghost use Rattle.serving.specs.Opening.{IsUnserved};
ghost use Rattle.serving.specs.Promises.{Promises};

use crate::giving::give_usage;
use crate::input::serve_input;
use crate::rehearsals::rehearse_over;
use arguments::{ArgumentsFault, read_settings};
use lens_io::{Sink, Source};
use std::alloc::Global;
use std::marker::Brand;
use std::sync::ledger::{Blank, Ledger};
use step_counter::Steps;
use table_keeper::Keeper;

/// Serves the lines of the source, one reply a line, over what the keeper has. The words are those
/// of the command line, the program's name first: `--store PATH` chooses the keeper's place, and
/// `--max-input N` how many bytes of the input are served. With `--rehearse N` the program answers
/// lines that it makes itself, in place of the source's, and gives their summary.
///
/// It returns the status of the program:
///
/// - 0: the input ended, or the summary was given.
/// - 2: the words were rejected, and the usage line was given.
/// - 3: memory ran out at the start, or in a rehearsal.
/// - 4: the source failed.
/// - 5: the sink failed.
/// - 6: the keeper failed at the start.
/// - 7: what is stored is damaged, and the line that reports the damage was given.
/// - 8: the input has more bytes than are served.
pub fn run<S: Source, W: Sink, K: Keeper, L: Ledger>(
    alloc: Global,
    words: &[String],
    source: &mut S,
    sink: &mut W,
    keeper: &mut K,
    walked: &mut Steps<L>,
) -> u8
    // What each status promises of what is observed of the devices.
    ensures promises { Promises (settings (map string_bytes words.now)) K.stays result
        (record {
          left = S.left source.old;
          asked = S.asked source.old;
          given = W.taken sink.old;
          offered = W.offered sink.old;
          contents = K.contents keeper.old;
          calls = K.calls keeper.old;
          place = K.place keeper.old;
          source_faults = S.faults source.old;
          sink_faults = W.faults sink.old;
          keeper_faults = K.faults keeper.old;
          walked = walked.old;
        })
        (record {
          left = S.left source.new;
          asked = S.asked source.new;
          given = W.taken sink.new;
          offered = W.offered sink.new;
          contents = K.contents keeper.new;
          calls = K.calls keeper.new;
          place = K.place keeper.new;
          source_faults = S.faults source.new;
          sink_faults = W.faults sink.new;
          keeper_faults = K.faults keeper.new;
          walked = walked.new;
        }) }

    // The devices that a status leaves alone.
    ensures takes_nothing { (result ≡ 2) ⊎ IsUnserved result → source.new ≡ source.old }
    ensures rehearsal_takes_nothing { IfSome (settings (map string_bytes words.now)) (λ s.
        IfSome s.rehearse (λ _. source.new ≡ source.old)) }
    ensures gives_nothing { (result ≡ 3) ⊎ (result ≡ 6) → sink.new ≡ sink.old }
    ensures words_change_nothing { result ≡ 2 → keeper.new ≡ keeper.old }
    ensures memory_at_words { result ≡ 3 → settings (map string_bytes words.now) ≡ None
        → keeper.new ≡ keeper.old }
{
    match read_settings(alloc, words) {
        Ok(settings) => match settings.rehearse {
            Some(number) => rehearse_over::<W, K, L, Brand>(
                alloc,
                &settings,
                number,
                sink,
                keeper,
                walked,
                Blank::new(1),
            ),
            None => serve_input::<S, W, K, L, Brand>(
                alloc,
                &settings,
                source,
                sink,
                keeper,
                walked,
                Blank::new(1),
            ),
        },
        Err(ArgumentsFault::Refused) => {
            give_usage(sink);
            2
        }
        Err(ArgumentsFault::NoMemory) => 3,
    }
}

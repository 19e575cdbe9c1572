//! The lines of a rehearsal are answered in place of the source's.
ghost use Rattle.std.specs.Prelude.{◌≡◌, ◌≤◌, ◌⊎◌, Some};
ghost use Rattle.arguments.specs.Views.{settings_view};
ghost use Rattle.serving.specs.Promises.{IsServed, IsUnserved, Promises};

use crate::giving::give_summary;
use crate::opening::{open, refuse};
use arguments::Settings;
use lens_io::Sink;
use rehearsal::rehearse;
use std::alloc::Global;
use std::sync::ledger::{Blank, Ledger};
use step_counter::Steps;
use table_keeper::Keeper;

/// Answers the lines of the rehearsal of this number over the store, with a counter of look-ups of
/// its own, and gives their summary.
pub fn rehearse_over<W: Sink, K: Keeper, L: Ledger, M: Ledger>(
    alloc: Global,
    settings: &Settings<'_>,
    number: u64,
    sink: &mut W,
    keeper: &mut K,
    walked: &mut Steps<L>,
    blank: Blank,
) -> u8
    requires name { blank.name ≡ M.name }
    requires parts { blank.parts ≡ M.parts }
    requires one { blank.parts ≡ 1 }
    requires few { number ≤ 100000 }
    requires asked { (settings_view settings.now).rehearse ≡ Some number }
    // Whatever the source has left and was asked, and however often it has failed.
    ensures promises { (left : _) (asked : _) (faults : _) → Promises (Some (settings_view settings.now)) K.stays
        result
        (record {
          left = left;
          asked = asked;
          given = W.taken sink.old;
          offered = W.offered sink.old;
          contents = K.contents keeper.old;
          calls = K.calls keeper.old;
          place = K.place keeper.old;
          source_faults = faults;
          sink_faults = W.faults sink.old;
          keeper_faults = K.faults keeper.old;
          walked = walked.old;
        })
        (record {
          left = left;
          asked = asked;
          given = W.taken sink.new;
          offered = W.offered sink.new;
          contents = K.contents keeper.new;
          calls = K.calls keeper.new;
          place = K.place keeper.new;
          source_faults = faults;
          sink_faults = W.faults sink.new;
          keeper_faults = K.faults keeper.new;
          walked = walked.new;
        }) }
    ensures ends { IsServed result ⊎ IsUnserved result }
    ensures gives_nothing { (result ≡ 3) ⊎ (result ≡ 6) → sink.new ≡ sink.old }
{
    match open(alloc, settings.store, keeper) {
        Ok(mut server) => {
            let mut looked = Steps::<M>::new(blank);
            match rehearse(alloc, &mut server, keeper, number, walked, &mut looked) {
                Ok(summary) => give_summary(sink, &summary),
                Err(_) => 3,
            }
        }
        Err(fault) => refuse(alloc, sink, fault),
    }
}

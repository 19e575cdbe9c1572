//! The store of a run: a server is started over it, or the run is refused.
ghost use Rattle.std.specs.Prelude.{◌≡◌, ◌≢◌, ◌≤◌, ◌↔◌, is_some, length, Err, IfOk, None, OnErr, OnOk};
ghost use Rattle.std.specs.Option.{option_copied};
ghost use Rattle.io_specs.specs.Calls.{Adds};
ghost use Rattle.io_specs.specs.Faults.{Rose};
ghost use Rattle.lens_specs.specs.Keeping.{IfObserved};
ghost use Rattle.server_specs.specs.State.{kept};
ghost use Rattle.opening_specs.specs.Opening.{damage_text};
ghost use Rattle.lens_io.specs.Bytes.{GivesUnlessFailed};
ghost use Rattle.lens_io.specs.Calls.{OffersRest};
ghost use Rattle.serving.specs.Running.{StaysAtEntry, place_after};
ghost use Rattle.serving.specs.Opening.{IsAttach, IsDamage, IsOpening, IsUnserved, OpensTo};

use crate::giving::give_or_fail;
use lens_io::Sink;
use lens_server::{Server, StartFault, damage_line};
use std::alloc::Global;
use table_keeper::{KeepFault, Keeper};

/// Starts a server over the contents at the place, if one is given, and else over those that the
/// keeper has.
pub fn open<K: Keeper>(
    alloc: Global,
    place: Option<&str>,
    keeper: &mut K,
) -> Result<Server, StartFault>
    ensures opens { OpensTo (option_copied place.entry) K.stays (K.contents keeper.old)
        (K.contents keeper.new) (K.faults keeper.old) (K.faults keeper.new) result }
    ensures first { IfOk result (λ server. server.version ≡ 0) }
    ensures told { IfOk result (λ server. IfObserved (K.contents keeper.new) (kept server)) }
    ensures as_told { is_some (K.contents keeper.new) ≡ is_some (K.contents keeper.old) }
    ensures stays { StaysAtEntry (option_copied place.entry) K.stays (K.contents keeper.old)
        (K.contents keeper.new) }
    ensures place { result ≢ Err StartFault.StoreFault → result ≢ Err StartFault.NoMemory
        → K.place keeper.new ≡ place_after (option_copied place.entry) (K.place keeper.old) }
    ensures place_stays { option_copied place.entry ≡ None
        → K.place keeper.new ≡ K.place keeper.old }

    // The keeper is asked for an attach where a place is given, then for one load, and for nothing
    // else.
    ensures calls { Adds (IsOpening (option_copied place.entry) result (K.faults keeper.new))
        (K.calls keeper.old) (K.calls keeper.new) }

    ensures later { K.faults keeper.old ≤ K.faults keeper.new }
    ensures failed { result ≡ Err StartFault.StoreFault
        → Rose (K.faults keeper.old) (K.faults keeper.new) }
{
    match choose_place(alloc, place, keeper) {
        Ok(()) => Server::start(alloc, keeper),
        Err(KeepFault::Failed) => Err(StartFault::StoreFault),
        Err(KeepFault::NoMemory) => Err(StartFault::NoMemory),
    }
}

/// Attaches the place, if one is given.
fn choose_place<K: Keeper>(
    alloc: Global,
    place: Option<&str>,
    keeper: &mut K,
) -> Result<(), KeepFault>
    ensures chosen { OnOk result (K.place keeper.new
        ≡ place_after (option_copied place.entry) (K.place keeper.old)) }
    ensures place_stays { option_copied place.entry ≡ None
        → K.place keeper.new ≡ K.place keeper.old }
    ensures stays { StaysAtEntry (option_copied place.entry) K.stays (K.contents keeper.old)
        (K.contents keeper.new) }
    ensures as_told { is_some (K.contents keeper.new) ≡ is_some (K.contents keeper.old) }
    ensures some { OnErr result (option_copied place.entry ≢ None) }
    ensures calls { Adds (IsAttach (option_copied place.entry) result (K.faults keeper.new))
        (K.calls keeper.old) (K.calls keeper.new) }
    ensures later { K.faults keeper.old ≤ K.faults keeper.new }
    ensures failed { result ≡ Err KeepFault.Failed
        → Rose (K.faults keeper.old) (K.faults keeper.new) }
{
    match place {
        Some(place) => keeper.attach(alloc, place),
        None => Ok(()),
    }
}

/// IfObserved why no server was started: the status, and the line of a damage.
pub fn refuse<W: Sink>(alloc: Global, sink: &mut W, fault: StartFault) -> u8
    ensures damaged { result ≡ 7 → IsDamage fault (λ damage.
        GivesUnlessFailed (W.taken sink.old) (W.taken sink.new) (W.faults sink.old)
        (W.faults sink.new) (damage_text damage)
        × Adds (OffersRest (length (damage_text damage))) (W.offered sink.old) (W.offered sink.new)) }
    ensures store { (result ≡ 6) ↔ (fault ≡ StartFault.StoreFault) }
    ensures gives_nothing { result ≢ 7 → sink.new ≡ sink.old }
    ensures ends { IsUnserved result }
    ensures later { W.faults sink.old ≤ W.faults sink.new }
{
    match fault {
        StartFault::StoreFault => 6,
        StartFault::NoMemory => 3,
        StartFault::Damaged { damage } => match damage_line(alloc, &damage) {
            Ok(line) => {
                give_or_fail(sink, &line);
                7
            }
            Err(_) => 3,
        },
    }
}

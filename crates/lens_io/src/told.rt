//! The calls of devices in memory, kept as long as there is memory for their list.
ghost use Rattle.std.specs.Prelude.{◌≡◌, ◌++◌, ◌∷◌, [], map, OnOk};
ghost use Rattle.lens_io.specs.Calls.{AddsCall, AddsOffer, call_of, calls_kept, offers_kept};

use no_memory::NoMemory;

/// One call of a source: the room that it was given, and the bytes that came.
#[derive(Drop)]
pub struct Take {
    /// How many bytes there was room for.
    pub room: usize,
    /// The bytes that came; none at the end of the input and at a fault.
    pub came: Vec<u8>,
}

/// One call of a sink.
#[derive(Clone, Copy, PartialEq, Eq)]
pub struct Offer {
    /// How many bytes it was handed.
    pub size: usize,
    /// How many of them it took; none at a fault.
    pub took: usize,
}

/// Adds a call of a source. Where there is no memory for it, no calls are kept any longer.
pub(crate) fn add_take(kept: &mut Option<Vec<Take>>, room: usize, came: &[u8])
    ensures { AddsCall (calls_kept kept.old) (calls_kept kept.new) room came.now }
{
    if let Some(takes) = kept {
        if push_take(takes, room, came).is_err() {
            *kept = None;
        }
    }
}

fn push_take(takes: &mut Vec<Take>, room: usize, came: &[u8]) -> Result<(), NoMemory>
    ensures { OnOk result (map call_of takes.new.items
        ≡ map call_of takes.old.items ++ record { room = room; came = came.now } ∷ []) }
{
    let came = Vec::from_slice(*takes.allocator(), came)?;
    takes.push(Take { room, came })?;
    Ok(())
}

/// Adds a call of a sink. Where there is no memory for it, no calls are kept any longer.
pub(crate) fn add_offer(kept: &mut Option<Vec<Offer>>, size: usize, took: usize)
    ensures { AddsOffer (offers_kept kept.old) (offers_kept kept.new) size took }
{
    if let Some(offers) = kept {
        if offers.push(Offer { size, took }).is_err() {
            *kept = None;
        }
    }
}

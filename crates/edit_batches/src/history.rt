//! The last changes, which can be taken back.
ghost use Rattle.std.specs.Prelude.{◌≡◌, ◌-◌, ◌++◌, ◌∷◌, [], IfOk, None, take, length, nat_lt, slice_get, if◌then◌else◌};
ghost use Rattle.std.specs.Option.{option_map};
ghost use Rattle.circular_buffer.specs.Buffer.{keep_last, last_item};
ghost use Rattle.edit_batches.specs.Histories.{deltas_of};

use crate::entries::Entry;
use circular_buffer::HeapCircularBuffer;
use lens_values::NoMemory;
use std::alloc::Global;
use std::marker::Model;

const LIMIT: usize = 16;

/// The last 16 changes, the oldest first. A contract sees the list of their differences.
#[derive(Drop)]
pub struct History {
    ring: HeapCircularBuffer<Entry, Global>,
}

impl Model for History {
    ghost use Rattle.std.specs.Prelude.{◌≡◌, List, map};
    ghost use Rattle.std.specs.Coded.{coded_list};
    ghost use Rattle.lens_specs.specs.Delta as spec;
    ghost use Rattle.edit_batches.specs.DeltasCode.{coded_deltas};

    ghost Value = { List (List spec.TableDelta) };

    ghost coded = { coded_list coded_deltas };

    ghost use Rattle.edit_batches.specs.Histories.{deltas_of};

    ghost view = { λ h. map deltas_of h.ring.items };

    ghost invariant = { λ h. h.ring.capacity ≡ 16 };
}

impl History {
    /// No change.
    pub fn new(alloc: Global) -> Result<History, NoMemory>
        ensures { IfOk result (λ history. history ≡ []) }
    {
        let ring = HeapCircularBuffer::with_capacity(alloc, LIMIT)?;
        Ok(History { ring })
    }

    /// Adds a change, and returns the oldest change if the history was full. It takes no memory.
    pub fn push(&mut self, entry: Entry) -> Option<Entry>
        ensures list { self.new ≡ keep_last 16 (self.old ++ entry.deltas ∷ []) }
        ensures oldest { option_map deltas_of result
            ≡ (if nat_lt (length self.old) 16 then None else slice_get self.old 0) }
    {
        self.ring.push_back(entry)
    }

    /// The last change.
    pub fn last(&self) -> Option<&Entry>
        ensures { option_map (λ e. deltas_of e.now) result ≡ last_item self.now }
    {
        self.ring.back()
    }

    /// Takes the last change out. It takes no memory.
    pub fn pop(&mut self) -> Option<Entry>
        ensures last { option_map deltas_of result ≡ last_item self.old }
        ensures list { self.new ≡ take (length self.old - 1) self.old }
    {
        self.ring.pop_back()
    }
}

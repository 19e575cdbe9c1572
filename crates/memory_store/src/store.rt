//! Definitions and rows in memory, and the changes to them.
ghost use Rattle.std.specs.Prelude.{◌≡◌, IfOk, OnErr, OnOk, map};
ghost use Rattle.lens_specs.specs.Keeping as keeping;
ghost use Rattle.lens_specs.specs.Keeping.{changed};
ghost use Rattle.table_keeper.specs.Changes.{change_view, kept_view};
ghost use Rattle.table_keeper.specs.Holding.{coded_kept};
ghost use Rattle.table_keeper.specs.Places.{Rise};
ghost use Rattle.memory_store.specs.InMemory.{after};

use crate::contents::Contents;
use crate::size::Size;
use lens_values::{NoMemory, copied};
use std::alloc::Global;
use std::marker::Model;
use table_keeper::{Change, Kept};

/// Definitions and rows in memory: contents, and the changes that were made to them since. A change
/// costs a copy of itself, which shares its rows, and no look at other rows: whether what is kept
/// allows the change is the caller's to know. Once the list of changes is long, it is folded into
/// the contents. A contract sees what is kept after all changes.
#[derive(Drop)]
pub struct MemoryStore {
    folded: Kept,
    changes: Vec<Change>,
    size: Size,
}

impl Model for MemoryStore {
    ghost Value = { keeping.Kept };

    ghost coded = { coded_kept };

    ghost view = { λ m. after (map change_view m.changes.items) (kept_view m.folded) };

    ghost invariant = { λ m. Rise m.folded.tables.items };
}

impl MemoryStore {
    /// Nothing is kept. It takes no memory.
    pub fn new(alloc: Global) -> MemoryStore
        ensures { result ≡ keeping.nothing }
    {
        let folded = Kept::nothing(alloc);
        let size = Size::of(&folded);
        MemoryStore {
            folded,
            changes: Vec::new(alloc),
            size,
        }
    }

    /// A copy of what is kept.
    pub fn kept(&self, alloc: Global) -> Result<Kept, NoMemory>
        ensures is { IfOk result (λ kept. kept_view kept ≡ self.now) }
        ensures rising { IfOk result (λ kept. Rise kept.tables.items) }
    {
        let mut contents = Contents::of(alloc, &self.folded)?;
        contents.make_all(alloc, &self.changes)?;
        contents.into_kept(alloc)
    }

    /// Makes a change, whole or not at all. Rows to remove that are not there, rows to add that are
    /// there, and a table that is not there are no faults: the change says what is there after it.
    pub fn change(&mut self, alloc: Global, change: &Change) -> Result<(), NoMemory>
        ensures ok { OnOk result (self.new ≡ changed (change_view change.now) self.old) }
        ensures err { OnErr result (self.new ≡ self.old) }
    {
        let copy = copy_of(alloc, change)?;
        self.changes.push(copy)?;
        self.size = self.size.with(change);
        if self.size.is_long() {
            self.fold(alloc);
        }
        Ok(())
    }

    // Folds the list, if there is memory for it. What is kept stays.
    fn fold(&mut self, alloc: Global)
        ensures { self.new ≡ self.old }
    {
        if let Ok(kept) = self.kept(alloc) {
            self.size = Size::of(&kept);
            self.folded = kept;
            self.changes = Vec::new(alloc);
        }
    }
}

// An equal change. It shares the rows.
fn copy_of(alloc: Global, change: &Change) -> Result<Change, NoMemory>
    ensures { IfOk result (λ copy. change_view copy ≡ change_view change.now) }
{
    match change {
        Change::Define { text, table } => {
            let text = text.copy(alloc)?;
            Ok(Change::Define {
                text,
                table: *table,
            })
        }
        Change::Rows { deltas } => {
            let deltas = copied(alloc, deltas)?;
            Ok(Change::Rows { deltas })
        }
    }
}

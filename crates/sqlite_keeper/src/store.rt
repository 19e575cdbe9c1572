//! Where definitions and rows are kept.
ghost use Rattle.std.specs.Prelude.{◌≡◌, Err, IfOk, IsSome, OnErr, OnOk};
ghost use Rattle.lens_specs.specs.Keeping.{Follows, IfObserved, changed};
ghost use Rattle.table_keeper.specs.Changes.{change_view, kept_view};
ghost use Rattle.table_keeper.specs.Places.{Rise};
ghost use Rattle.sqlite_keeper.specs.Unattached.{in_memory};

use crate::database::{Answer, Database, Request};
use crate::refusal::Refusal;
use memory_store::MemoryStore;
use std::alloc::Global;
use table_keeper::{Change, Kept};

/// Where definitions and rows are kept.
pub enum Store<'a> {
    /// In memory.
    Memory(MemoryStore),
    /// In a file.
    File(Database<'a>),
}

// By hand, so that to let a store go is one call, and no proof above has a case for each kind.
impl Drop for Store<'_> {
    fn drop(self) {
        match self {
            Store::Memory(memory) => drop(memory),
            Store::File(database) => drop(database),
        }
    }
}

impl Store<'_> {
    /// What is kept, with its tables in rising order of names.
    pub fn load(&mut self, alloc: Global) -> Result<Kept, Refusal>
        ensures ok { IfOk result (λ kept. IfObserved (in_memory self.old) (kept_view kept)) }
        ensures rising { IfOk result (λ kept. Rise kept.tables.items) }
        ensures kept { in_memory self.new ≡ in_memory self.old }
        // Memory has no other fault than to run out.
        ensures faultless { IsSome (in_memory self.old) → result ≡ Err Refusal.Failed → ⊥ }
    {
        match self {
            Store::Memory(memory) => Ok(memory.kept(alloc)?),
            Store::File(database) => load_file(database, alloc),
        }
    }

    /// Makes a change, whole or not at all.
    pub fn commit(&mut self, alloc: Global, change: &Change) -> Result<(), Refusal>
        ensures ok { OnOk result (Follows (λ old new. new ≡ changed (change_view change.now) old)
            (in_memory self.old) (in_memory self.new)) }
        ensures err { OnErr result (in_memory self.new ≡ in_memory self.old) }
        ensures faultless { IsSome (in_memory self.old) → result ≡ Err Refusal.Failed → ⊥ }
    {
        match self {
            Store::Memory(memory) => Ok(memory.change(alloc, change)?),
            Store::File(database) => {
                let _done = database.serve(alloc, Request::Change(change))?;
                Ok(())
            }
        }
    }
}

fn load_file(database: &mut Database<'_>, alloc: Global) -> Result<Kept, Refusal>
    ensures { IfOk result (λ kept. Rise kept.tables.items) }
{
    match database.serve(alloc, Request::Load)? {
        Answer::Kept(kept) => Ok(kept),
        Answer::Done => unreachable!(),
    }
}

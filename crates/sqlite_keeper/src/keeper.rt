//! The keeper.
ghost use Rattle.std.specs.Prelude.{◌≡◌, ◌≤◌, Err, IfOk, IsSome, None, OnErr, OnOk, Some, false};
ghost use Rattle.io_specs.specs.Faults.{Rose};
ghost use Rattle.lens_specs.specs.Keeping as keeping;
ghost use Rattle.lens_specs.specs.Keeping.{Follows, Stays, IfObserved, changed};
ghost use Rattle.table_keeper.specs.Changes.{change_view, kept_view};
ghost use Rattle.table_keeper.specs.Places.{Rise};
ghost use Rattle.sqlite_keeper.specs.Refusals.{fault_of};
ghost use Rattle.sqlite_keeper.specs.Shown.{faults_of, place_of, told_by};
ghost use Rattle.sqlite_keeper.specs.Unattached.{held};

use crate::database::Database;
use crate::refusal::Refusal;
use crate::store::Store;
use memory_store::MemoryStore;
use std::alloc::Global;
use std::rt::HostRuntime;
use table_keeper::{Change, KeepFault, Keeper, Kept};

/// Keeps in a file that is attached, or else in memory. What was kept in memory is let go when a file
/// is attached. A contract over any keeper sees the place and the count of faults, and nothing of
/// what is kept, since a file tells nothing. The contracts of these methods see what is kept in memory.
#[derive(Drop)]
pub struct SqliteKeeper<'a> {
    rt: &'a HostRuntime,
    store: Store<'a>,
    place: Option<String>,
    faults: u64,
}

impl<'a> SqliteKeeper<'a> {
    /// A keeper with nothing attached. It opens nothing, and takes no memory.
    pub fn new(rt: &'a HostRuntime) -> SqliteKeeper<'a>
        ensures nowhere { place_of result ≡ None }
        ensures empty { held result ≡ Some keeping.nothing }
        ensures faultless { faults_of result ≡ 0 }
    {
        SqliteKeeper {
            rt,
            store: Store::Memory(MemoryStore::new(rt.alloc())),
            place: None,
            faults: 0,
        }
    }

    // Counts a refusal, where it is not for memory.
    fn count(&mut self, refusal: Refusal) -> KeepFault
        ensures fault { result ≡ fault_of refusal }
        ensures uncounted { refusal ≡ Refusal.NoMemory → self.new.faults ≡ self.old.faults }
        ensures failed { result ≡ KeepFault.Failed → Rose self.old.faults self.new.faults }
        ensures later { self.old.faults ≤ self.new.faults }
        ensures place { self.new.place ≡ self.old.place }
        ensures held { held self.new ≡ held self.old }
    {
        match refusal {
            Refusal::Failed => {
                self.faults = self.faults.saturating_add(1);
                KeepFault::Failed
            }
            Refusal::NoMemory => KeepFault::NoMemory,
        }
    }
}

impl Keeper for SqliteKeeper<'_> {
    ghost contents = { told_by };

    ghost place = { place_of };

    ghost stays = { false };

    ghost faults = { faults_of };

    ghost calls = { λ _. None };

    fn attach(&mut self, alloc: Global, new_place: &str) -> Result<(), KeepFault>
        ensures chosen { OnOk result (place_of self.new ≡ Some new_place.now) }
        ensures let_go { OnOk result (held self.new ≡ None) }
        ensures err { OnErr result (place_of self.new ≡ place_of self.old) }
        ensures told { OnErr result (Stays (told_by self.old) (told_by self.new)) }
        ensures held { OnErr result (held self.new ≡ held self.old) }
        ensures later { faults_of self.old ≤ faults_of self.new }
        ensures failed { result ≡ Err KeepFault.Failed
            → Rose (faults_of self.old) (faults_of self.new) }
    {
        let Ok(place) = String::from_str(alloc, new_place) else {
            return Err(KeepFault::NoMemory);
        };
        match Database::open(self.rt, alloc, new_place) {
            Ok(database) => {
                self.store = Store::File(database);
                self.place = Some(place);
                Ok(())
            }
            Err(refusal) => Err(self.count(refusal)),
        }
    }

    fn load(&mut self, alloc: Global) -> Result<Kept, KeepFault>
        ensures ok { IfOk result (λ kept. IfObserved (held self.old) (kept_view kept)) }
        ensures told { IfOk result (λ kept. IfObserved (told_by self.old) (kept_view kept)) }
        ensures rising { IfOk result (λ kept. Rise kept.tables.items) }
        ensures held { held self.new ≡ held self.old }
        ensures place { place_of self.new ≡ place_of self.old }
        ensures later { faults_of self.old ≤ faults_of self.new }
        ensures failed { result ≡ Err KeepFault.Failed
            → Rose (faults_of self.old) (faults_of self.new) }
        ensures faultless { IsSome (held self.old) → result ≡ Err KeepFault.Failed → ⊥ }
    {
        match self.store.load(alloc) {
            Ok(kept) => Ok(kept),
            Err(refusal) => Err(self.count(refusal)),
        }
    }

    fn commit(&mut self, alloc: Global, change: &Change) -> Result<(), KeepFault>
        ensures ok { OnOk result (Follows (λ old new. new ≡ changed (change_view change.now) old)
            (held self.old) (held self.new)) }
        ensures err { OnErr result (held self.new ≡ held self.old) }
        ensures told { OnOk result (Follows (λ old new. new ≡ changed (change_view change.now) old)
            (told_by self.old) (told_by self.new)) }
        ensures told_at_fault { OnErr result (Stays (told_by self.old) (told_by self.new)) }
        ensures place { place_of self.new ≡ place_of self.old }
        ensures later { faults_of self.old ≤ faults_of self.new }
        ensures failed { result ≡ Err KeepFault.Failed
            → Rose (faults_of self.old) (faults_of self.new) }
        ensures faultless { IsSome (held self.old) → result ≡ Err KeepFault.Failed → ⊥ }
    {
        match self.store.commit(alloc, change) {
            Ok(()) => Ok(()),
            Err(refusal) => Err(self.count(refusal)),
        }
    }
}

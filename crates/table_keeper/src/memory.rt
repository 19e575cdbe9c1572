//! Keepers in memory.
ghost use Rattle.std.specs.Prelude.{◌≡◌, ◌≤◌, [], IfOk, OnOk, OnErr, MatchOption, None, Some, false, true, is_some};
ghost use Rattle.io_specs.specs.Faults.{Rose};
ghost use Rattle.lens_specs.specs.Keeping.{CanChange, changed};
ghost use Rattle.table_keeper.specs.Asking.{AddsCall, AddsEnded, calls_kept};
ghost use Rattle.table_keeper.specs.Calls.{after_call, calls_of, calls_told, calls_told_surely, fails, held, held_surely};
ghost use Rattle.table_keeper.specs.Changes.{change_view, kept_view};
ghost use Rattle.table_keeper.specs.Places.{Rise};
ghost use Rattle.table_keeper.specs.declared.calls.Asked.TheVariants.{Attach, Commit, Load};

use crate::calls::{Asked, Call, add_call, fault_of};
use crate::keeper::{Change, KeepFault, Keeper, Kept};
use crate::store::Store;
use std::alloc::Global;

/// Keeps its contents in memory, and its calls as long as there is memory for their list. Its calls
/// fail only where memory runs out, so it counts no faults.
#[derive(Drop)]
pub struct SureKeeper {
    store: Store,
    call_list: Option<Vec<Call>>,
}

impl SureKeeper {
    /// A keeper with these contents and no place. It takes no memory.
    pub fn holding(kept: Kept) -> SureKeeper
        requires { Rise kept.tables.items }
        ensures held { held_surely result ≡ record { kept = kept_view kept; place = None } }
        ensures told { calls_told_surely result ≡ Some [] }
    {
        let call_list = Vec::new(*kept.definitions.allocator());
        SureKeeper {
            store: Store::holding(kept),
            call_list: Some(call_list),
        }
    }

    /// The calls so far, as long as there was memory for their list.
    pub fn calls(&self) -> Option<&[Call]>
        ensures { MatchOption result (calls_told_surely self.now ≡ None)
            (λ calls. calls_told_surely self.now ≡ Some calls.now) }
    {
        match &self.call_list {
            Some(calls) => Some(calls.as_slice()),
            None => None,
        }
    }

    // Records a call, and the fault that it ended with, if any.
    fn record_call(&mut self, asked: Asked, fault: Option<KeepFault>)
        ensures told { AddsEnded (calls_told_surely self.old) (calls_told_surely self.new) asked fault 0 }
        ensures held { held_surely self.new ≡ held_surely self.old }
    {
        let call = Call {
            asked,
            fault,
            faults: 0,
        };
        add_call(&mut self.call_list, call);
    }

    /// What is kept.
    pub fn kept(&self) -> &Kept
        ensures is { kept_view result.now ≡ (held_surely self.now).kept }
        ensures rising { Rise result.now.tables.items }
    {
        self.store.kept()
    }
}

impl Keeper for SureKeeper {
    ghost contents = { λ k. Some k.store.kept };

    ghost place = { λ k. k.store.place };

    ghost stays = { true };

    ghost faults = { λ k. 0 };

    ghost calls = { λ k. calls_kept k.call_list };

    fn attach(&mut self, alloc: Global, new_place: &str) -> Result<(), KeepFault> {
        let answer = self.store.attach(alloc, new_place);
        self.record_call(Asked::Attach, fault_of(&answer));
        answer
    }

    fn load(&mut self, alloc: Global) -> Result<Kept, KeepFault> {
        let answer = self.store.copy(alloc);
        self.record_call(Asked::Load, fault_of(&answer));
        answer
    }

    fn commit(&mut self, alloc: Global, change: &Change) -> Result<(), KeepFault> {
        let answer = self.store.change(alloc, change);
        self.record_call(Asked::Commit, fault_of(&answer));
        answer
    }
}

/// Keeps its contents in memory, for tests, and its calls as long as there is memory for their list.
/// Its calls to attach, load and commit are numbered from 1, and the listed ones fail.
#[derive(Drop)]
pub struct MemoryKeeper {
    store: Store,
    failing: Vec<u64>,
    calls: u64,
    faults: u64,
    call_list: Option<Vec<Call>>,
}

impl MemoryKeeper {
    /// A keeper with these contents and no place, whose calls with these numbers fail. It takes no
    /// memory.
    pub fn holding(kept: Kept, failing: Vec<u64>) -> MemoryKeeper
        requires { Rise kept.tables.items }
        ensures held { held result ≡ record { kept = kept_view kept; place = None } }
        ensures calls { calls_of result
            ≡ record { calls = 0; faults = 0; failing = failing.items } }
        ensures told { calls_told result ≡ Some [] }
    {
        let call_list = Vec::new(*failing.allocator());
        MemoryKeeper {
            store: Store::holding(kept),
            failing,
            calls: 0,
            faults: 0,
            call_list: Some(call_list),
        }
    }

    /// The calls so far, as long as there was memory for their list.
    pub fn calls(&self) -> Option<&[Call]>
        ensures { MatchOption result (calls_told self.now ≡ None)
            (λ calls. calls_told self.now ≡ Some calls.now) }
    {
        match &self.call_list {
            Some(calls) => Some(calls.as_slice()),
            None => None,
        }
    }

    /// What is kept.
    pub fn kept(&self) -> &Kept
        ensures is { kept_view result.now ≡ (held self.now).kept }
        ensures rising { Rise result.now.tables.items }
    {
        self.store.kept()
    }

    // Counts a call, which fails if its number is listed.
    fn count_call(&mut self) -> Result<(), KeepFault>
        ensures ok { OnOk result (fails (calls_of self.old) ≡ false) }
        ensures err { OnErr result (fails (calls_of self.old) ≡ true) }
        ensures fault { OnErr result (result ≡ Err KeepFault.Failed) }
        ensures calls { calls_of self.new ≡ after_call (calls_of self.old) }
        ensures later { (calls_of self.old).faults ≤ (calls_of self.new).faults }
        ensures held { held self.new ≡ held self.old }
        ensures told { calls_told self.new ≡ calls_told self.old }
    {
        self.calls = self.calls.saturating_add(1);
        if self.failing.contains(&self.calls) {
            self.faults = self.faults.saturating_add(1);
            return Err(KeepFault::Failed);
        }
        Ok(())
    }

    // Records a call, and the fault that it ended with, if any.
    fn record_call(&mut self, asked: Asked, fault: Option<KeepFault>)
        ensures told { AddsEnded (calls_told self.old) (calls_told self.new) asked fault
            (calls_of self.old).faults }
        ensures calls { calls_of self.new ≡ calls_of self.old }
        ensures held { held self.new ≡ held self.old }
    {
        let call = Call {
            asked,
            fault,
            faults: self.faults,
        };
        add_call(&mut self.call_list, call);
    }

    // The place is chosen, unless the call is a listed one.
    fn choose(&mut self, alloc: Global, new_place: &str) -> Result<(), KeepFault>
        ensures ok { OnOk result (held self.new
            ≡ record (held self.old) { place = Some new_place.now }) }
        ensures err { OnErr result (held self.new ≡ held self.old) }
        ensures listed { fails (calls_of self.old) ≡ true → result ≡ Err KeepFault.Failed }
        ensures only_listed { result ≡ Err KeepFault.Failed → fails (calls_of self.old) ≡ true }
        ensures calls { calls_of self.new ≡ after_call (calls_of self.old) }
        ensures later { (calls_of self.old).faults ≤ (calls_of self.new).faults }
        ensures told { calls_told self.new ≡ calls_told self.old }
    {
        self.count_call()?;
        self.store.attach(alloc, new_place)
    }

    // A copy of what is kept, unless the call is a listed one.
    fn copy(&mut self, alloc: Global) -> Result<Kept, KeepFault>
        ensures ok { IfOk result (λ kept. kept_view kept ≡ (held self.old).kept) }
        ensures rising { IfOk result (λ kept. Rise kept.tables.items) }
        ensures held { held self.new ≡ held self.old }
        ensures listed { fails (calls_of self.old) ≡ true → result ≡ Err KeepFault.Failed }
        ensures only_listed { result ≡ Err KeepFault.Failed → fails (calls_of self.old) ≡ true }
        ensures calls { calls_of self.new ≡ after_call (calls_of self.old) }
        ensures later { (calls_of self.old).faults ≤ (calls_of self.new).faults }
        ensures told { calls_told self.new ≡ calls_told self.old }
    {
        self.count_call()?;
        self.store.copy(alloc)
    }

    // The change is made, unless the call is a listed one.
    fn make(&mut self, alloc: Global, change: &Change) -> Result<(), KeepFault>
        requires { CanChange (change_view change.now) (held self.old).kept }
        ensures ok { OnOk result (held self.new
            ≡ record (held self.old) {
              kept = changed (change_view change.now)
                  (held self.old).kept;
            }) }
        ensures err { OnErr result (held self.new ≡ held self.old) }
        ensures listed { fails (calls_of self.old) ≡ true → result ≡ Err KeepFault.Failed }
        ensures only_listed { result ≡ Err KeepFault.Failed → fails (calls_of self.old) ≡ true }
        ensures calls { calls_of self.new ≡ after_call (calls_of self.old) }
        ensures later { (calls_of self.old).faults ≤ (calls_of self.new).faults }
        ensures told { calls_told self.new ≡ calls_told self.old }
    {
        self.count_call()?;
        self.store.change(alloc, change)
    }
}

impl Keeper for MemoryKeeper {
    ghost contents = { λ k. Some k.store.kept };

    ghost place = { λ k. k.store.place };

    ghost stays = { true };

    ghost faults = { λ k. k.faults };

    ghost calls = { λ k. calls_kept k.call_list };

    fn attach(&mut self, alloc: Global, new_place: &str) -> Result<(), KeepFault>
        ensures ok { OnOk result (held self.new
            ≡ record (held self.old) { place = Some new_place.now }) }
        ensures err { OnErr result (held self.new ≡ held self.old) }
        ensures later { (calls_of self.old).faults ≤ (calls_of self.new).faults }
        ensures failed { result ≡ Err KeepFault.Failed
            → Rose (calls_of self.old).faults (calls_of self.new).faults }
        ensures call { AddsCall (calls_told self.old) (calls_told self.new) Attach result
            (calls_of self.new).faults }

        // Exactly the listed calls fail.
        ensures listed { fails (calls_of self.old) ≡ true → result ≡ Err KeepFault.Failed }
        ensures only_listed { result ≡ Err KeepFault.Failed → fails (calls_of self.old) ≡ true }
        ensures calls { calls_of self.new ≡ after_call (calls_of self.old) }
    {
        let answer = self.choose(alloc, new_place);
        self.record_call(Asked::Attach, fault_of(&answer));
        answer
    }

    fn load(&mut self, alloc: Global) -> Result<Kept, KeepFault>
        ensures ok { IfOk result (λ kept. kept_view kept ≡ (held self.old).kept) }
        ensures rising { IfOk result (λ kept. Rise kept.tables.items) }
        ensures held { held self.new ≡ held self.old }
        ensures later { (calls_of self.old).faults ≤ (calls_of self.new).faults }
        ensures failed { result ≡ Err KeepFault.Failed
            → Rose (calls_of self.old).faults (calls_of self.new).faults }
        ensures call { AddsCall (calls_told self.old) (calls_told self.new) Load result
            (calls_of self.new).faults }

        // Exactly the listed calls fail.
        ensures listed { fails (calls_of self.old) ≡ true → result ≡ Err KeepFault.Failed }
        ensures only_listed { result ≡ Err KeepFault.Failed → fails (calls_of self.old) ≡ true }
        ensures calls { calls_of self.new ≡ after_call (calls_of self.old) }
    {
        let answer = self.copy(alloc);
        self.record_call(Asked::Load, fault_of(&answer));
        answer
    }

    fn commit(&mut self, alloc: Global, change: &Change) -> Result<(), KeepFault>
        requires { CanChange (change_view change.now) (held self.old).kept }
        ensures ok { OnOk result (held self.new
            ≡ record (held self.old) {
              kept = changed (change_view change.now)
                  (held self.old).kept;
            }) }
        ensures err { OnErr result (held self.new ≡ held self.old) }
        ensures later { (calls_of self.old).faults ≤ (calls_of self.new).faults }
        ensures failed { result ≡ Err KeepFault.Failed
            → Rose (calls_of self.old).faults (calls_of self.new).faults }
        ensures call { AddsCall (calls_told self.old) (calls_told self.new) Commit result
            (calls_of self.new).faults }

        // Exactly the listed calls fail.
        ensures listed { fails (calls_of self.old) ≡ true → result ≡ Err KeepFault.Failed }
        ensures only_listed { result ≡ Err KeepFault.Failed → fails (calls_of self.old) ≡ true }
        ensures calls { calls_of self.new ≡ after_call (calls_of self.old) }
    {
        let answer = self.make(alloc, change);
        self.record_call(Asked::Commit, fault_of(&answer));
        answer
    }
}

//! What a keeper in memory holds.
ghost use Rattle.std.specs.Prelude.{◌≡◌, Err, IfOk, OnOk, OnErr, None, Some, option_map, string_bytes};
ghost use Rattle.lens_specs.specs.Keeping.{CanChange, changed};
ghost use Rattle.table_keeper.specs.Changes.{change_view, kept_view};
ghost use Rattle.table_keeper.specs.Holding.{Holding, coded_holding};
ghost use Rattle.table_keeper.specs.Places.{Rise};

use crate::contents::{copied_contents, make};
use crate::keeper::{Change, KeepFault, Kept};
use std::alloc::Global;
use std::marker::Model;

/// The definitions, the tables in rising order of names, and the place. A contract sees the
/// contents and the place.
#[derive(Drop)]
pub struct Store {
    kept: Kept,
    place: Option<String>,
}

impl Model for Store {
    ghost Value = { Holding };

    ghost coded = { coded_holding };

    ghost view = { λ s. record { kept = kept_view s.kept; place = option_map string_bytes s.place } };

    ghost invariant = { λ s. Rise s.kept.tables.items };
}

impl Store {
    /// Holds these contents, at no place. It takes no memory.
    pub fn holding(kept: Kept) -> Store
        requires { Rise kept.tables.items }
        ensures { result ≡ record { kept = kept_view kept; place = None } }
    {
        Store { kept, place: None }
    }

    /// What is kept.
    pub fn kept(&self) -> &Kept
        ensures is { kept_view result.now ≡ self.now.kept }
        ensures rising { Rise result.now.tables.items }
    {
        &self.kept
    }

    /// Chooses the place.
    pub fn attach(&mut self, alloc: Global, new_place: &str) -> Result<(), KeepFault>
        ensures ok { OnOk result (self.new ≡ record self.old { place = Some new_place.now }) }
        ensures err { OnErr result (self.new ≡ self.old) }
        ensures memory { OnErr result (result ≡ Err KeepFault.NoMemory) }
    {
        let Ok(place) = String::from_str(alloc, new_place) else {
            return Err(KeepFault::NoMemory);
        };
        self.place = Some(place);
        Ok(())
    }

    /// A copy of what is kept.
    pub fn copy(&self, alloc: Global) -> Result<Kept, KeepFault>
        ensures ok { IfOk result (λ copy. kept_view copy ≡ self.now.kept) }
        ensures rising { IfOk result (λ copy. Rise copy.tables.items) }
        ensures memory { OnErr result (result ≡ Err KeepFault.NoMemory) }
    {
        let copy = copied_contents(alloc, &self.kept)?;
        Ok(copy)
    }

    /// Makes a change, whole or not at all.
    pub fn change(&mut self, alloc: Global, change: &Change) -> Result<(), KeepFault>
        requires { CanChange (change_view change.now) self.old.kept }
        ensures ok { OnOk result (self.new
            ≡ record self.old { kept = changed (change_view change.now) self.old.kept }) }
        ensures err { OnErr result (self.new ≡ self.old) }
        ensures memory { OnErr result (result ≡ Err KeepFault.NoMemory) }
    {
        make(&mut self.kept, alloc, change)?;
        Ok(())
    }
}

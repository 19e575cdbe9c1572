//! Names in the order in which they come in.
ghost use Rattle.std.specs.Prelude.{◌≡◌, ◌||◌, ◌<◌, IfOk, OnOk, [], length, slice_index_or, take};
ghost use Rattle.plain_values.specs.SortedSet as set;
ghost use Rattle.lens_specs.specs.Names.{is_among};
ghost use Rattle.fd_closure.specs.Arrival.{IsKept, with_name};

use lens_values::{Name, Names, NoMemory};
use std::alloc::Global;
use std::collections::BTreeSet;

/// Names in the order in which they came in, each once, and the same names as a tree.
#[derive(Drop)]
pub struct Found {
    order: Vec<Name>,
    members: BTreeSet<Name>,
}

impl Found {
    /// No name.
    pub fn new(alloc: Global) -> Found
        ensures kept { IsKept result }
        ensures none { result.order.items ≡ [] }
    {
        Found {
            order: Vec::new(alloc),
            members: BTreeSet::new(alloc),
        }
    }

    /// How many names came in.
    pub fn len(&self) -> usize
        ensures { result ≡ length self.now.order.items }
    {
        self.order.len()
    }

    /// The name that came in at the place.
    pub fn name(&self, place: usize) -> Name
        requires { place < length self.now.order.items }
        ensures { result ≡ slice_index_or self.now.order.items place result }
    {
        self.order[place]
    }

    // Adds a name, if it is new.
    fn add(&mut self, name: Name) -> Result<(), NoMemory>
        requires { IsKept self.old }
        ensures kept { OnOk result (IsKept self.new) }
        ensures names { OnOk result (self.new.order.items ≡ with_name self.old.order.items name) }
    {
        if self.members.insert(name)? {
            self.order.push(name)?;
        }
        Ok(())
    }

    /// Adds those of the names that are new.
    pub fn add_all(&mut self, names: &[Name]) -> Result<(), NoMemory>
        requires { IsKept self.old }
        ensures kept { OnOk result (IsKept self.new) }
        ensures front { OnOk result (take (length self.old.order.items) self.new.order.items
            ≡ self.old.order.items) }
        ensures members { OnOk result ((c : _)
            → is_among c self.new.order.items
            ≡ (is_among c self.old.order.items || is_among c names.now)) }
    {
        for name in names {
            self.add(*name)?;
        }
        Ok(())
    }

    /// The names, as a set.
    pub fn into_names(self, alloc: Global) -> Result<Names, NoMemory>
        ensures { IfOk result (λ names. names ≡ set.from_list self.order.items) }
    {
        Names::new(alloc, self.order)
    }
}

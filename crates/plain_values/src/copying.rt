//! Copies, which may run out of memory.
ghost use Rattle.std.specs.Prelude.{◌≡◌, ◌++◌, IfOk, OnOk};

use crate::name::Name;
use no_memory::NoMemory;
use std::alloc::Global;

/// A value that can be copied, unless memory runs out.
pub trait TryClone {
    /// An equal value.
    fn try_clone(&self, alloc: Global) -> Result<Self, NoMemory>
        ensures { IfOk result (λ copy. copy ≡ self.now) };
}

impl<V: TryClone> TryClone for (Name, V) {
    fn try_clone(&self, alloc: Global) -> Result<(Name, V), NoMemory> {
        let value = self.1.try_clone(alloc)?;
        Ok((self.0, value))
    }
}

/// Copies of the members, in their order.
pub fn copied<T: TryClone + Drop>(alloc: Global, members: &[T]) -> Result<Vec<T>, NoMemory>
    ensures { IfOk result (λ copies. copies.items ≡ members.now) }
{
    let mut copies = Vec::with_capacity(alloc, members.len())?;
    append(&mut copies, alloc, members)?;
    Ok(copies)
}

/// Adds copies of the members at the end. After an `Err` some of them may be there.
pub fn append<T: TryClone + Drop>(
    list: &mut Vec<T>,
    alloc: Global,
    members: &[T],
) -> Result<(), NoMemory>
    ensures { OnOk result (list.new.items ≡ list.old.items ++ members.now) }
{
    for member in members {
        list.push(member.try_clone(alloc)?)?;
    }
    Ok(())
}

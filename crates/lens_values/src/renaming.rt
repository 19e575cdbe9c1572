//! Names with one of them exchanged for another.
ghost use Rattle.std.specs.Prelude.{◌≡◌, IfOk, map};
ghost use Rattle.plain_values.specs.Name.{renamed};
ghost use Rattle.plain_values.specs.SortedSet as set;

use crate::names::Names;
use no_memory::NoMemory;
use plain_values::Name;
use std::alloc::Global;

impl Names {
    /// The names with `to` for `from`.
    pub fn rename(&self, alloc: Global, from: &Name, to: &Name) -> Result<Names, NoMemory>
        ensures { IfOk result (λ names. names ≡ set.image (renamed from.now to.now) self.now) }
    {
        if !self.has(from) {
            return self.copy(alloc);
        }
        Names::new(alloc, renamed_list(alloc, self.as_slice(), from, to)?)
    }
}

// The list with `to` for `from`.
fn renamed_list(
    alloc: Global,
    names: &[Name],
    from: &Name,
    to: &Name,
) -> Result<Vec<Name>, NoMemory>
    ensures { IfOk result (λ list. list.items ≡ map (renamed from.now to.now) names.now) }
{
    let mut list = Vec::with_capacity(alloc, names.len())?;
    for name in names {
        list.push(name.rename(from, to))?;
    }
    Ok(list)
}

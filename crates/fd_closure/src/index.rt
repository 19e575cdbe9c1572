//! Which dependencies have a name on the left.
ghost use Rattle.std.specs.Prelude.{◌≡◌, ℕ, ◌++◌, ◌<◌, IfOk, OnOk, filter, length, map, slice_index_or};
ghost use Rattle.std.specs.List.{list_any};
ghost use Rattle.std.specs.List.Sorted.{IsStrictlySortedBy};
ghost use Rattle.std.specs.Ordering.{eq_by_cmp, is_eq};
ghost use Rattle.plain_values.specs.Order.{bytes_cmp};
ghost use Rattle.lens_specs.specs.Dependencies.{Edge};
ghost use Rattle.fd_closure.specs.Entries.{entries_from, entry_cmp};
ghost use Rattle.fd_closure.specs.Sides.{IsFull};

use crate::dep::Dep;
use lens_values::{Name, NoMemory, into_sorted};
use std::alloc::Global;

/// Each name of a left side with the place of its dependency, in rising order.
pub fn indexed(alloc: Global, deps: &[Dep]) -> Result<Vec<(Name, usize)>, NoMemory>
    ensures order { IfOk result (λ index. IsStrictlySortedBy entry_cmp index.items) }
    ensures members { IfOk result (λ index. (e : _)
        → list_any (eq_by_cmp entry_cmp e) index.items
        ≡ list_any (eq_by_cmp entry_cmp e) (entries_from 0 deps.now)) }
    ensures full { OnOk result ((k : ℕ) (d : Edge) → k < length deps.now
        → IsFull (slice_index_or deps.now k d)) }
{
    Ok(into_sorted(entries(alloc, deps)?))
}

// Each name of a left side with the place of its dependency.
fn entries(alloc: Global, deps: &[Dep]) -> Result<Vec<(Name, usize)>, NoMemory>
    ensures list { IfOk result (λ list. list.items ≡ entries_from 0 deps.now) }
    ensures full { OnOk result ((k : ℕ) (d : Edge) → k < length deps.now
        → IsFull (slice_index_or deps.now k d)) }
{
    let mut list = Vec::new(alloc);
    for (place, dep) in deps.iter().enumerate() {
        append_entries(&mut list, dep.left().as_slice(), place)?;
    }
    Ok(list)
}

// Adds each name with the place.
fn append_entries(
    list: &mut Vec<(Name, usize)>,
    names: &[Name],
    place: usize,
) -> Result<(), NoMemory>
    ensures { OnOk result (list.new.items ≡ list.old.items ++ map (λ c. (c, place)) names.now) }
{
    for name in names {
        list.push((*name, place))?;
    }
    Ok(())
}

/// The entries of the name, which stand beside each other.
pub fn entries_of<'a>(index: &'a [(Name, usize)], name: &Name) -> &'a [(Name, usize)]
    requires { IsStrictlySortedBy entry_cmp index.now }
    ensures { result.now ≡ filter (λ e. is_eq (bytes_cmp e.0 name.now)) index.now }
{
    let start = index.partition_point(|entry| entry.0.cmp(name).is_lt());
    let rest = &index[start..];
    let count = rest.partition_point(|entry| entry.0.cmp(name).is_le());
    &rest[..count]
}

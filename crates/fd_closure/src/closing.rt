//! Closures under dependencies, by counting what each dependency still lacks (Beeri and Bernstein,
//! TODS 1979).
ghost use Rattle.std.specs.Prelude.{◌≡◌, ◌≤◌, ◌<◌, ◌+◌, ◌-◌, ◌||◌, ◌&&◌, ℕ, IfOk, OnOk, length, nat_eq, slice_index, slice_index_or, slice_set, take};
ghost use Rattle.plain_values.specs.SortedSet as set;
ghost use Rattle.lens_specs.specs.Dependencies as spec;
ghost use Rattle.lens_specs.specs.Dependencies.{Edge};
ghost use Rattle.lens_specs.specs.Names.{Names as NameSet, is_among};
ghost use Rattle.fd_closure.specs.Arrival.{AllIn, IsKept};
ghost use Rattle.fd_closure.specs.Entries.{PlacesBelow};
ghost use Rattle.fd_closure.specs.Lacks.{ReadyAmong, ReadyWithin, uses};

use crate::dep::Dep;
use crate::found::Found;
use crate::index::{entries_of, indexed};
use lens_values::{Name, Names, NoMemory};
use std::alloc::Global;

/// The least set of columns that has these columns, and that has the right side of each dependency
/// whose left side it has. The work grows with the size of the dependencies.
pub fn closure(alloc: Global, cols: &Names, deps: &[Dep]) -> Result<Names, NoMemory>
    ensures { IfOk result (λ found. found ≡ spec.closure cols.now deps.now) }
{
    let index = indexed(alloc, deps)?;
    let mut lacks = counted(alloc, &index, deps.len())?;
    let mut found = Found::new(alloc);
    found.add_all(cols.as_slice())?;
    let mut place = 0;
    while place < found.len() {
        let name = found.name(place);
        place += 1;
        count_down(&mut found, &mut lacks, entries_of(&index, &name), deps)?;
    }
    found.into_names(alloc)
}

/// Whether the dependencies imply the other: its right side lies in the closure of its left side.
pub fn implies(alloc: Global, deps: &[Dep], dep: &Dep) -> Result<bool, NoMemory>
    ensures { IfOk result (λ implied. implied ≡ spec.implies deps.now dep.now) }
{
    let found = closure(alloc, dep.left(), deps)?;
    Ok(dep.right().within(&found))
}

// How many of the entries each place has.
fn counted(alloc: Global, entries: &[(Name, usize)], count: usize) -> Result<Vec<usize>, NoMemory>
    requires { PlacesBelow count entries.now }
    ensures len { IfOk result (λ lacks. length lacks.items ≡ count) }
    ensures counts { IfOk result (λ lacks. (d : ℕ) → d < count
        → slice_index lacks.items d ≡ uses entries.now d) }
{
    let mut lacks = vec![in alloc; 0; count]?;
    for (_, place) in entries {
        lacks[*place] += 1;
    }
    Ok(lacks)
}

// Counts down what the dependencies of these entries lack, and adds the right sides of those that
// lack nothing any more.
fn count_down(
    found: &mut Found,
    lacks: &mut [usize],
    entries: &[(Name, usize)],
    deps: &[Dep],
) -> Result<(), NoMemory>
    requires kept { IsKept found.old }
    requires len { length lacks.old ≡ length deps.now }
    requires places { PlacesBelow (length deps.now) entries.now }
    requires counts { (d : ℕ) → d < length deps.now → uses entries.now d ≤ slice_index lacks.old d }
    ensures kept { OnOk result (IsKept found.new) }
    ensures front { OnOk result (take (length found.old.order.items) found.new.order.items
        ≡ found.old.order.items) }
    ensures counts { OnOk result ((d : ℕ) → d < length deps.now
        → slice_index lacks.new d + uses entries.now d ≡ slice_index lacks.old d) }
    ensures within { OnOk result ((D : NameSet) → AllIn found.old.order.items D
        → ReadyWithin deps.now lacks.new D → AllIn found.new.order.items D) }
    ensures among { OnOk result (ReadyAmong deps.now lacks.old found.old.order.items
        → ReadyAmong deps.now lacks.new found.new.order.items) }
{
    for (_, place) in entries {
        lessen(found, lacks, *place, deps)?;
    }
    Ok(())
}

// Counts down what the dependency at the place lacks, and adds its right side where it lacks
// nothing any more.
fn lessen(
    found: &mut Found,
    lacks: &mut [usize],
    place: usize,
    deps: &[Dep],
) -> Result<(), NoMemory>
    requires kept { IsKept found.old }
    requires len { length lacks.old ≡ length deps.now }
    requires place { place < length deps.now }
    requires some { 0 < slice_index lacks.old place }
    ensures kept { OnOk result (IsKept found.new) }
    ensures front { OnOk result (take (length found.old.order.items) found.new.order.items
        ≡ found.old.order.items) }
    ensures lacks { lacks.new ≡ slice_set lacks.old place (slice_index lacks.old place - 1) }
    ensures members { OnOk result ((c : _) (e : Edge)
        → is_among c found.new.order.items
        ≡ (is_among c found.old.order.items ||
        (nat_eq (slice_index lacks.new place) 0 && set.contains
        (slice_index_or deps.now place e).right c))) }
{
    lacks[place] -= 1;
    if lacks[place] == 0 {
        found.add_all(deps[place].right().as_slice())?;
    }
    Ok(())
}

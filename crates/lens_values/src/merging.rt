//! Merges of strictly rising lists, each by one walk along the two.
ghost use Rattle.std.specs.Prelude.{◌≡◌, ◌++◌, [], ◌∷◌, IfOk, OnOk, filter, not};
ghost use Rattle.std.specs.List.Sorted.{IsStrictlySortedBy};
ghost use Rattle.plain_values.specs.Keys.{KeysRise, first_with, is_among};

use no_memory::NoMemory;
use plain_values::{Name, TryClone, append};
use std::alloc::Global;
use std::cmp::Ordering;

/// A member of a list, with a key.
pub trait Keyed<K> {
    // The key that the member is ordered by.
    ghost key: { Self → K };

    /// The key.
    fn key(&self) -> &K
        ensures { result.now ≡ key self.now };
}

impl Keyed<Name> for Name {
    ghost key = { λ name. name };

    fn key(&self) -> &Name {
        self
    }
}

impl<V> Keyed<Name> for (Name, V) {
    ghost key = { λ pair. pair.0 };

    fn key(&self) -> &Name {
        &self.0
    }
}

/// Copies of the members of both lists in rising order of keys. If both lists have a key, the
/// result has the left list's member.
pub fn union<K: Ord, T: Keyed<K> + TryClone + Drop>(
    alloc: Global,
    left: &[T],
    right: &[T],
) -> Result<Vec<T>, NoMemory>
    requires left { KeysRise K.cmp T.key left.now }
    requires right { KeysRise K.cmp T.key right.now }
    ensures order { IfOk result (λ all. KeysRise K.cmp T.key all.items) }
    ensures members { IfOk result (λ all. (key : K)
        → first_with K.cmp T.key all.items key
        ≡ first_with K.cmp T.key (left.now ++ right.now) key) }
{
    let mut all = Vec::with_capacity(alloc, left.len().saturating_add(right.len()))?;
    let mut i = 0;
    let mut j = 0;
    while i < left.len() && j < right.len() {
        match left[i].key().cmp(right[j].key()) {
            Ordering::Less => {
                add_copy(&mut all, alloc, &left[i])?;
                i += 1;
            }
            Ordering::Greater => {
                add_copy(&mut all, alloc, &right[j])?;
                j += 1;
            }
            Ordering::Equal => {
                add_copy(&mut all, alloc, &left[i])?;
                i += 1;
                j += 1;
            }
        }
    }
    append(&mut all, alloc, &left[i..])?;
    append(&mut all, alloc, &right[j..])?;
    Ok(all)
}

/// Copies of the members of the list whose keys are not among the others.
pub fn difference<K: Ord, T: Keyed<K> + TryClone + Drop>(
    alloc: Global,
    list: &[T],
    keys: &[K],
) -> Result<Vec<T>, NoMemory>
    requires list { KeysRise K.cmp T.key list.now }
    requires keys { IsStrictlySortedBy K.cmp keys.now }
    ensures { IfOk result (λ rest.
        rest.items ≡ filter (λ x. not (is_among K.cmp keys.now (T.key x))) list.now) }
{
    let mut rest = Vec::new(alloc);
    let mut i = 0;
    let mut j = 0;
    while i < list.len() && j < keys.len() {
        match list[i].key().cmp(&keys[j]) {
            Ordering::Less => {
                add_copy(&mut rest, alloc, &list[i])?;
                i += 1;
            }
            Ordering::Greater => j += 1,
            Ordering::Equal => {
                i += 1;
                j += 1;
            }
        }
    }
    append(&mut rest, alloc, &list[i..])?;
    Ok(rest)
}

/// Copies of the members of the list whose keys are among the others.
pub fn intersection<K: Ord, T: Keyed<K> + TryClone + Drop>(
    alloc: Global,
    list: &[T],
    keys: &[K],
) -> Result<Vec<T>, NoMemory>
    requires list { KeysRise K.cmp T.key list.now }
    requires keys { IsStrictlySortedBy K.cmp keys.now }
    ensures { IfOk result (λ kept.
        kept.items ≡ filter (λ x. is_among K.cmp keys.now (T.key x)) list.now) }
{
    let mut kept = Vec::with_capacity(alloc, list.len().min(keys.len()))?;
    let mut i = 0;
    let mut j = 0;
    while i < list.len() && j < keys.len() {
        match list[i].key().cmp(&keys[j]) {
            Ordering::Less => i += 1,
            Ordering::Greater => j += 1,
            Ordering::Equal => {
                add_copy(&mut kept, alloc, &list[i])?;
                i += 1;
                j += 1;
            }
        }
    }
    Ok(kept)
}

/// Adds a copy of the member to the list.
pub(crate) fn add_copy<T: TryClone + Drop>(
    list: &mut Vec<T>,
    alloc: Global,
    member: &T,
) -> Result<(), NoMemory>
    ensures { OnOk result (list.new.items ≡ list.old.items ++ member.now ∷ []) }
{
    list.push(member.try_clone(alloc)?)?;
    Ok(())
}

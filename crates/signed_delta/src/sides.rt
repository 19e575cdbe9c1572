//! The rows that only one of two lists has.
ghost use Rattle.std.specs.Prelude.{◌≡◌, IfOk, filter, not};
ghost use Rattle.std.specs.List.Sorted.{IsStrictlySortedBy};
ghost use Rattle.plain_values.specs.Row.{row_cmp};
ghost use Rattle.row_sets.specs.Members.{is_in};

use lens_values::{NoMemory, Row, append};
use std::alloc::Global;
use std::cmp::Ordering;

/// The difference of two lists of rows.
#[derive(Drop)]
pub struct Sides {
    /// The rows of the old list that the new one lacks.
    pub remove: Vec<Row>,
    /// The rows of the new list that the old one lacks.
    pub add: Vec<Row>,
}

/// Copies of the rows that only one of two rising lists has, by one walk along both.
pub fn both_sides(alloc: Global, old: &[Row], new: &[Row]) -> Result<Sides, NoMemory>
    requires old { IsStrictlySortedBy row_cmp old.now }
    requires new { IsStrictlySortedBy row_cmp new.now }
    ensures remove { IfOk result (λ sides.
        sides.remove.items ≡ filter (λ row. not (is_in new.now row)) old.now) }
    ensures add { IfOk result (λ sides.
        sides.add.items ≡ filter (λ row. not (is_in old.now row)) new.now) }
{
    let mut remove = Vec::new(alloc);
    let mut add = Vec::new(alloc);
    let mut i = 0;
    let mut j = 0;
    while i < old.len() && j < new.len() {
        match old[i].cmp(&new[j]) {
            Ordering::Less => {
                remove.push(old[i].copy(alloc)?)?;
                i += 1;
            }
            Ordering::Greater => {
                add.push(new[j].copy(alloc)?)?;
                j += 1;
            }
            Ordering::Equal => {
                i += 1;
                j += 1;
            }
        }
    }
    append(&mut remove, alloc, &old[i..])?;
    append(&mut add, alloc, &new[j..])?;
    Ok(Sides { remove, add })
}

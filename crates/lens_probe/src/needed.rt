//! What a lens needs its tables to be asked by.
ghost use Rattle.std.specs.Prelude.{◌≡◌, ◌++◌, ◌∷◌, [], map, IfOk, OnOk};
ghost use Rattle.plain_values.specs.SortedSet as set;
ghost use Rattle.lens_specs.specs.Lens.{view_names};
ghost use Rattle.lens_specs.specs.Rename.{renamed_names};
ghost use Rattle.lens_laws.specs.Asked.{asked, keys_at, side_keys};
ghost use Rattle.lens_probe.specs.Needs.{pair_of};

use base_index::Need;
use lens_types::{Node, TypedLens};
use lens_values::{Name, Names, NoMemory};
use std::alloc::Global;
use view_reading::{names_of, shared_names};

/// The indexes that a view of the lens needs: the tables, and the columns by which they may be
/// asked.
pub fn needs(alloc: Global, lens: &TypedLens) -> Result<Vec<Need>, NoMemory>
    ensures { IfOk result (λ needs. map pair_of needs.items ≡ asked lens.now []) }
{
    let mut all = Vec::new(alloc);
    add_needs(alloc, lens, Vec::new(alloc), &mut all)?;
    Ok(all)
}

// Adds what a view of the lens needs to which these sets were handed down.
fn add_needs(
    alloc: Global,
    lens: &TypedLens,
    handed: Vec<Names>,
    all: &mut Vec<Need>,
) -> Result<(), NoMemory>
    ensures { let before = map pair_of all.old.items in
        OnOk result (map pair_of all.new.items ≡ before ++ asked lens.now handed.items) }
{
    let keys = with_left_sides(alloc, handed, lens)?;
    match lens.node() {
        Node::Base { table, .. } => add_each(table, keys, all),
        Node::Select { of, .. } => add_needs(alloc, of, keys, all),
        Node::Drop { by, of, .. } => {
            let under = before(alloc, by.copy(alloc)?, &keys)?;
            add_needs(alloc, of, under, all)
        }
        Node::Rename { col, to, of } => {
            let under = renamed_each(alloc, &keys, to, col)?;
            add_needs(alloc, of, under, all)
        }
        Node::Join { left, right, .. } => {
            let (under_left, under_right) = handed_to_sides(alloc, left, right, &keys)?;
            add_needs(alloc, left, under_left, all)?;
            add_needs(alloc, right, under_right, all)
        }
    }
}

// The sets, and the left sides of the edges of the lens's tree.
fn with_left_sides(
    alloc: Global,
    mut sets: Vec<Names>,
    lens: &TypedLens,
) -> Result<Vec<Names>, NoMemory>
    ensures { IfOk result (λ keys. keys.items ≡ keys_at lens.now sets.items) }
{
    for edge in lens.sort().tree().edges() {
        sets.push(edge.left.copy(alloc)?)?;
    }
    Ok(sets)
}

// The set, and then the others.
fn before(alloc: Global, set: Names, others: &[Names]) -> Result<Vec<Names>, NoMemory>
    ensures { IfOk result (λ all. all.items ≡ set ∷ others.now) }
{
    let mut all = Vec::with_capacity(alloc, others.len() + 1)?;
    all.push(set)?;
    for other in others {
        all.push(other.copy(alloc)?)?;
    }
    Ok(all)
}

// Each of the sets with the name `to` for `from`.
fn renamed_each(
    alloc: Global,
    sets: &[Names],
    from: &Name,
    to: &Name,
) -> Result<Vec<Names>, NoMemory>
    ensures { IfOk result (λ renamed.
        renamed.items ≡ map (renamed_names from.now to.now) sets.now) }
{
    let mut renamed = Vec::with_capacity(alloc, sets.len())?;
    for set in sets {
        renamed.push(set.rename(alloc, from, to)?)?;
    }
    Ok(renamed)
}

// What the join hands down to its left and to its right side.
fn handed_to_sides(
    alloc: Global,
    left: &TypedLens,
    right: &TypedLens,
    sets: &[Names],
) -> Result<(Vec<Names>, Vec<Names>), NoMemory>
    ensures left { let S = set.intersection (view_names left.now) (view_names right.now) in
        IfOk result (λ handed. handed.0.items ≡ side_keys S (view_names left.now) sets.now) }
    ensures right { let S = set.intersection (view_names left.now) (view_names right.now) in
        IfOk result (λ handed. handed.1.items ≡ side_keys S (view_names right.now) sets.now) }
{
    let shared = shared_names(alloc, left, right)?;
    let under_left = handed_to(alloc, shared.copy(alloc)?, names_of(left), sets)?;
    let under_right = handed_to(alloc, shared, names_of(right), sets)?;
    Ok((under_left, under_right))
}

// What a join with these shared columns hands down to its side of these columns.
fn handed_to(
    alloc: Global,
    shared: Names,
    side: &Names,
    sets: &[Names],
) -> Result<Vec<Names>, NoMemory>
    ensures { IfOk result (λ handed. handed.items ≡ side_keys shared side.now sets.now) }
{
    let mut handed = Vec::new(alloc);
    handed.push(shared)?;
    for set in sets {
        if set.meets(side) {
            handed.push(set.meet(alloc, side)?)?;
        }
    }
    Ok(handed)
}

// Adds the table with each of the sets.
fn add_each(table: &Name, sets: Vec<Names>, all: &mut Vec<Need>) -> Result<(), NoMemory>
    ensures { let pairs = map (λ C. (table.now, C)) sets.items in
        OnOk result (map pair_of all.new.items ≡ map pair_of all.old.items ++ pairs) }
{
    for cols in sets {
        all.push(Need {
            table: *table,
            cols,
        })?;
    }
    Ok(())
}

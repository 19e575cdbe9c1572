//! What two differences of tables do, the one after the other.
ghost use Rattle.std.specs.Prelude.{◌≡◌, ◌++◌, IfOk, map, option_copied, unwrap_or};
ghost use Rattle.plain_values.specs.SortedSet as set;
ghost use Rattle.lens_laws.specs.Edits.{delta_for};
ghost use Rattle.signed_delta.specs.Tables.{table_delta};
ghost use Rattle.lens_specs.specs.TableDeltas.{AreDeltas, compose_delta, composed};
ghost use Rattle.lens_specs.specs.TableDeltas.{names_of_both};
ghost use Rattle.edit_batches.specs.Chains.{no_change};

use crate::uniting::{joined, meet};
use lens_values::{Name, Names, NoMemory};
use row_sets::RowSet;
use signed_delta::{Delta, TableDelta};
use std::alloc::Global;

/// What two differences do, the one after the other, by rising names and without an empty one.
pub fn compose(
    alloc: Global,
    first: &[TableDelta],
    second: &[TableDelta],
) -> Result<Vec<TableDelta>, NoMemory>
    ensures composed { IfOk result (λ both. map table_delta both.items
        ≡ composed (map table_delta first.now) (map table_delta second.now)) }
    ensures deltas { IfOk result (λ both. AreDeltas (map table_delta both.items)) }
{
    let names = both_names(alloc, first, second)?;
    let mut both = Vec::new(alloc);
    for name in names.as_slice() {
        let delta = composed_of(alloc, name, first, second)?;
        if !delta.is_empty() {
            both.push(TableDelta {
                table: *name,
                delta,
            })?;
        }
    }
    Ok(both)
}

// The names of both, in rising order.
fn both_names(alloc: Global, first: &[TableDelta], second: &[TableDelta]) -> Result<Names, NoMemory>
    ensures { IfOk result (λ names. set.items names
        ≡ names_of_both (map table_delta first.now) (map table_delta second.now)) }
{
    let mut names = Vec::with_capacity(alloc, first.len())?;
    add_names(&mut names, first)?;
    add_names(&mut names, second)?;
    Names::new(alloc, names)
}

// Adds the names of the tables.
fn add_names(names: &mut Vec<Name>, list: &[TableDelta]) -> Result<(), NoMemory>
    ensures { IfOk result (λ _. names.new.items
        ≡ names.old.items ++ map (λ c. c.table) (map table_delta list.now)) }
{
    for change in list {
        names.push(change.table)?;
    }
    Ok(())
}

// What both do to one table.
fn composed_of(
    alloc: Global,
    name: &Name,
    first: &[TableDelta],
    second: &[TableDelta],
) -> Result<Delta, NoMemory>
    ensures { IfOk result (λ both. both ≡ compose_delta (delta_for name.now (map table_delta first.now))
        (delta_for name.now (map table_delta second.now))) }
{
    match (delta_of(name, first), delta_of(name, second)) {
        (Some(before), Some(later)) => compose_pair(alloc, before, later),
        (Some(before), None) => before.copy(alloc),
        (None, Some(later)) => later.copy(alloc),
        (None, None) => Ok(Delta::new(RowSet::empty(alloc), RowSet::empty(alloc))),
    }
}

// The difference of the table in the list, if it is there.
fn delta_of<'a>(name: &Name, list: &'a [TableDelta]) -> Option<&'a Delta>
    ensures { unwrap_or (option_copied result) no_change
        ≡ delta_for name.now (map table_delta list.now) }
{
    for change in list {
        if change.table == *name {
            return Some(&change.delta);
        }
    }
    None
}

// What two differences of one table do, the one after the other.
fn compose_pair(alloc: Global, before: &Delta, later: &Delta) -> Result<Delta, NoMemory>
    ensures { IfOk result (λ both. both ≡ compose_delta before.now later.now) }
{
    let (removed, added) = before.sides();
    let (removed_later, added_later) = later.sides();
    if meet(removed, added_later) || meet(added, removed_later) {
        return compose_meeting(alloc, before, later);
    }
    let gone = joined(alloc, removed, removed_later)?;
    let come = joined(alloc, added, added_later)?;
    Ok(Delta::new(gone, come))
}

// What `compose_pair` returns, if the later one may take back some of what the one before does.
fn compose_meeting(alloc: Global, before: &Delta, later: &Delta) -> Result<Delta, NoMemory>
    ensures { IfOk result (λ both. both ≡ compose_delta before.now later.now) }
{
    let (removed, added) = before.sides();
    let (removed_later, added_later) = later.sides();
    let gone = removed.minus(alloc, added_later)?;
    let gone_later = removed_later.minus(alloc, added)?;
    let come = added.minus(alloc, removed_later)?;
    let come_later = added_later.minus(alloc, removed)?;
    let remove = gone.union(alloc, &gone_later)?;
    let add = come.union(alloc, &come_later)?;
    Ok(Delta::new(remove, add))
}

//! Lists of tables in rising order of names.
ghost use Rattle.std.specs.Prelude.{◌≡◌, ◌<◌, ◌≤◌, IfOk, OnOk, OnErr, true, false, length, map, is_some};
ghost use Rattle.std.specs.FinMap as finmap;
ghost use Rattle.std.specs.List.{AllByRecursion, HoldsAt, insert};
ghost use Rattle.std.specs.List.Sorted.{IsBinarySearchResult, IsSearchInRange, IsStrictlySortedBy};
ghost use Rattle.plain_values.specs.Order.{bytes_cmp};
ghost use Rattle.plain_values.specs.SortedSet as set;
ghost use Rattle.lens_specs.specs.Keeping.{AllApply, with_deltas};
ghost use Rattle.signed_delta.specs.Tables.{table_delta};
ghost use Rattle.table_keeper.specs.Changes.{names_of, rows_of};
ghost use Rattle.table_keeper.specs.Places.{FitsAt, IsThere, Rise, entry_after, entry_of, is_named, rows_in, with_entries};

use crate::keeper::KeptTable;
use lens_values::{Name, NoMemory};
use row_sets::RowSet;
use signed_delta::TableDelta;
use std::alloc::Global;

/// A table, and its place in the list.
#[derive(Drop)]
pub struct Placed {
    /// Its place.
    pub place: usize,
    /// The table.
    pub table: KeptTable,
}

/// The place of the table with this name, or the place for a new one.
pub fn search(tables: &[KeptTable], name: &Name) -> Result<usize, usize>
    ensures bound { IsSearchInRange result (length tables.now) }
    ensures position { IsBinarySearchResult (λ other. bytes_cmp other name.now)
        (names_of tables.now) result }
{
    tables.binary_search_by_key(name, |kept| kept.table)
}

// The place of the table with this name.
fn place_of(tables: &[KeptTable], name: &Name) -> usize
    requires rising { Rise tables.now }
    requires there { is_named (names_of tables.now) name.now ≡ true }
    ensures within { result < length tables.now }
    ensures named { HoldsAt (λ other. other ≡ name.now) (names_of tables.now) result }
{
    match search(tables, name) {
        Ok(place) => place,
        Err(_) => unreachable!(),
    }
}

// The place for a new table with this name.
fn free_place(tables: &[KeptTable], name: &Name) -> usize
    requires rising { Rise tables.now }
    requires absent { is_named (names_of tables.now) name.now ≡ false }
    ensures within { result ≤ length tables.now }
    ensures rising { IsStrictlySortedBy bytes_cmp (insert (names_of tables.now) result name.now) }
{
    match search(tables, name) {
        Ok(_) => unreachable!(),
        Err(place) => place,
    }
}

/// Adds an empty table under a new name.
pub fn add_table(tables: &mut Vec<KeptTable>, alloc: Global, name: Name) -> Result<(), NoMemory>
    requires rising { Rise tables.old.items }
    requires absent { is_named (names_of tables.old.items) name ≡ false }
    ensures rising { Rise tables.new.items }
    ensures ok { OnOk result (rows_in tables.new.items
        ≡ finmap.insert (rows_in tables.old.items) name set.empty) }
    ensures err { OnErr result (tables.new.items ≡ tables.old.items) }
{
    let place = free_place(tables, &name);
    let table = KeptTable {
        table: name,
        rows: RowSet::empty(alloc),
    };
    tables.insert(place, table)?;
    Ok(())
}

// The table that the difference changes, as it is after that.
fn table_after(alloc: Global, tables: &[KeptTable], change: &TableDelta) -> Result<Placed, NoMemory>
    requires rising { Rise tables.now }
    requires there { IsThere (rows_in tables.now) (table_delta change.now) }
    ensures fits { IfOk result (FitsAt (names_of tables.now)) }
    ensures entry { IfOk result (λ placed.
        entry_of placed ≡ entry_after (rows_in tables.now) (table_delta change.now)) }
{
    let place = place_of(tables, &change.table);
    let rows = change.delta.apply_to(alloc, &tables[place].rows)?;
    let table = KeptTable {
        table: change.table,
        rows,
    };
    Ok(Placed { place, table })
}

/// The tables that the differences change, as they are after that.
pub fn tables_after(
    alloc: Global,
    tables: &[KeptTable],
    changes: &[TableDelta],
) -> Result<Vec<Placed>, NoMemory>
    requires rising { Rise tables.now }
    requires there { AllByRecursion
        (λ change. IsThere (rows_in tables.now) (table_delta change)) changes.now }
    ensures fits { IfOk result (λ all. AllByRecursion (FitsAt (names_of tables.now)) all.items) }
    ensures entries { IfOk result (λ all.
        map entry_of all.items
        ≡ map (λ change. entry_after (rows_in tables.now) (table_delta change)) changes.now) }
{
    let mut all = Vec::with_capacity(alloc, changes.len())?;
    for change in changes {
        all.push(table_after(alloc, tables, change)?)?;
    }
    Ok(all)
}

// Puts a table in its place.
fn put(tables: &mut [KeptTable], placed: Placed)
    requires rising { Rise tables.old }
    requires fits { FitsAt (names_of tables.old) placed }
    ensures names { names_of tables.new ≡ names_of tables.old }
    ensures rows { rows_in tables.new
        ≡ finmap.insert (rows_in tables.old) placed.table.table placed.table.rows }
{
    tables[placed.place] = placed.table;
}

/// Puts the tables in their places. It takes no memory.
pub fn put_all(tables: &mut [KeptTable], all: Vec<Placed>)
    requires rising { Rise tables.old }
    requires fits { AllByRecursion (FitsAt (names_of tables.old)) all.items }
    ensures names { names_of tables.new ≡ names_of tables.old }
    ensures rows { rows_in tables.new ≡ with_entries (map entry_of all.items) (rows_in tables.old) }
{
    for placed in all {
        put(tables, placed);
    }
}

/// Applies the differences, all or none.
pub fn change_tables(
    tables: &mut [KeptTable],
    alloc: Global,
    changes: &[TableDelta],
) -> Result<(), NoMemory>
    requires rising { Rise tables.old }
    requires apply { AllApply (map table_delta changes.now) (rows_in tables.old) }
    ensures names { names_of tables.new ≡ names_of tables.old }
    ensures ok { OnOk result (rows_in tables.new
        ≡ with_deltas (map table_delta changes.now) (rows_in tables.old)) }
    ensures err { OnErr result (tables.new ≡ tables.old) }
{
    let all = tables_after(alloc, tables, changes)?;
    put_all(tables, all);
    Ok(())
}

//! The damage of the stored tables.
ghost use Rattle.std.specs.Prelude.{◌≡◌, ◌&&◌, ◌++◌, IfOk, find, not, option_copied, option_map};
ghost use Rattle.std.specs.FinMap as finmap;
ghost use Rattle.plain_values.specs.SortedSet as set;
ghost use Rattle.lens_specs.specs.Predicate.{holds};
ghost use Rattle.lens_specs.specs.Sort.{violating_pair};
ghost use Rattle.catalog_specs.specs.Catalogue.{catalogue};
ghost use Rattle.opening_specs.specs.Opening.{clash_of_table, damage_among, damage_at, damage_of_rows, first_bad, is_fit, table_sort_of};
ghost use Rattle.table_keeper.specs.Changes.{names_of};
ghost use Rattle.table_keeper.specs.Places.{Rise, rows_in};
ghost use Rattle.database_opening.specs.Openings.{HasTables, damage_of_tables, damage_view};

use crate::damage::Damage;
use fd_tree::{Edge, first_clash};
use lens_types::{Lens, Sort};
use lens_values::{Name, Names, NoMemory, Row};
use row_sets::RowSet;
use std::alloc::Global;
use table_keeper::{KeptTable, search};
use view_catalog::Catalog;

/// The first damage of the tables, by rising name. The definitions make tables of no other names
/// than these.
pub fn damage_of_tables(
    alloc: Global,
    catalog: &Catalog,
    defined: &[Name],
    tables: &[KeptTable],
) -> Result<Option<Damage>, NoMemory>
    requires defined { HasTables (catalogue catalog.now.texts) defined.now }
    requires rising { Rise tables.now }
    ensures { IfOk result (λ damage. option_map damage_view damage
        ≡ damage_of_tables (catalogue catalog.now.texts) (rows_in tables.now)) }
{
    let names = with_kept(alloc, defined, tables)?;
    first_damage(alloc, catalog, tables, names.as_slice())
}

/// These names, and those of the tables that are kept.
fn with_kept(alloc: Global, defined: &[Name], tables: &[KeptTable]) -> Result<Names, NoMemory>
    ensures { IfOk result (λ names.
        names ≡ set.from_list (defined.now ++ names_of tables.now)) }
{
    let mut names = Vec::from_slice(alloc, defined)?;
    for kept in tables {
        names.push(kept.table)?;
    }
    Names::new(alloc, names)
}

/// The first damage of the tables of these names.
fn first_damage(
    alloc: Global,
    catalog: &Catalog,
    tables: &[KeptTable],
    names: &[Name],
) -> Result<Option<Damage>, NoMemory>
    requires { Rise tables.now }
    ensures { IfOk result (λ damage. option_map damage_view damage
        ≡ damage_among (catalogue catalog.now.texts) (rows_in tables.now) names.now) }
{
    for name in names {
        let damage = damage_at(alloc, catalog, tables, name)?;
        if damage.is_some() {
            return Ok(damage);
        }
    }
    Ok(None)
}

/// The damage of the table of this name: it is missing, it is not defined, or its rows are wrong.
fn damage_at(
    alloc: Global,
    catalog: &Catalog,
    tables: &[KeptTable],
    name: &Name,
) -> Result<Option<Damage>, NoMemory>
    requires { Rise tables.now }
    ensures { IfOk result (λ damage. option_map damage_view damage
        ≡ damage_at name.now
        (table_sort_of name.now (finmap.get (catalogue catalog.now.texts) name.now))
        (finmap.get (rows_in tables.now) name.now)) }
{
    match (table_sort(catalog, name), kept_rows(tables, name)) {
        (Some(sort), Some(rows)) => damage_of_rows(alloc, name, sort, rows),
        (Some(_), None) => Ok(Some(Damage::Missing { table: *name })),
        (None, Some(_)) => Ok(Some(Damage::Strange { table: *name })),
        (None, None) => Ok(None),
    }
}

/// The sort of the table of the name.
fn table_sort<'a>(catalog: &'a Catalog, name: &Name) -> Option<&'a Sort>
    ensures { option_copied result
        ≡ table_sort_of name.now (finmap.get (catalogue catalog.now.texts) name.now) }
{
    match catalog.lens(name)?.lens() {
        Lens::Base { table, sort } if table == name => Some(sort),
        _ => None,
    }
}

/// The rows that are kept of the table of the name.
fn kept_rows<'a>(tables: &'a [KeptTable], name: &Name) -> Option<&'a RowSet>
    requires { Rise tables.now }
    ensures { option_copied result ≡ finmap.get (rows_in tables.now) name.now }
{
    match search(tables, name) {
        Ok(place) => Some(&tables[place].rows),
        Err(_) => None,
    }
}

/// The damage of a table with this sort: its least bad row, or else its first clash.
fn damage_of_rows(
    alloc: Global,
    table: &Name,
    sort: &Sort,
    rows: &RowSet,
) -> Result<Option<Damage>, NoMemory>
    ensures { IfOk result (λ damage. option_map damage_view damage
        ≡ damage_of_rows table.now sort.now rows.now) }
{
    match first_bad(sort, rows) {
        Some(row) => Ok(Some(Damage::BadRow {
            table: *table,
            row: row.copy(alloc)?,
        })),
        None => clash_in(alloc, table, sort.tree().edges(), rows),
    }
}

/// The first row in row order that does not fit the columns, or that the predicate rejects.
fn first_bad<'a>(sort: &Sort, rows: &'a RowSet) -> Option<&'a Row>
    ensures { option_copied result ≡ first_bad sort.now rows.now }
{
    first_bad_of(sort, rows.rows())
}

/// The first of the rows that does not fit the columns, or that the predicate refuses.
fn first_bad_of<'a>(sort: &Sort, rows: &'a [Row]) -> Option<&'a Row>
    ensures { option_copied result ≡ find
        (λ row. not (is_fit sort.now.columns row && holds sort.now.predicate row)) rows.now }
{
    rows.iter().find(|row| !is_good(sort, row))
}

/// Whether the row fits the columns and the predicate holds on it.
fn is_good(sort: &Sort, row: &Row) -> bool
    ensures { result ≡ (is_fit sort.now.columns row.now && holds sort.now.predicate row.now) }
{
    row.fits(sort.cols()) && sort.pred().holds(row)
}

/// The first clash of the rows on one of the edges.
fn clash_in(
    alloc: Global,
    table: &Name,
    edges: &[Edge],
    rows: &RowSet,
) -> Result<Option<Damage>, NoMemory>
    ensures { IfOk result (λ damage. option_map damage_view damage
        ≡ option_map (clash_of_table table.now) (violating_pair edges.now rows.now)) }
{
    match first_clash(alloc, edges, rows)? {
        Some(found) => Ok(Some(Damage::ClashIn {
            table: *table,
            first: found.first,
            second: found.second,
        })),
        None => Ok(None),
    }
}

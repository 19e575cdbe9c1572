//! Opens a database over what a store holds.
ghost use Rattle.std.specs.Prelude.{◌≡◌, IfOk, None, map};
ghost use Rattle.opening_specs.specs.Opening as opening;
ghost use Rattle.opening_specs.specs.Opening.{mapped};
ghost use Rattle.signed_delta.specs.Tables.{table_delta};
ghost use Rattle.table_keeper.specs.Changes.{kept_view};
ghost use Rattle.table_keeper.specs.Places.{Rise, rows_in};
ghost use Rattle.database.specs.Databases.{IsKeyed, catalogue, state_of};
ghost use Rattle.database_opening.specs.Openings.{HasEmptyTables, IsDatabaseOf, damage_of_tables, filling};

use crate::definitions::{Admitted, admit_all};
use crate::fault::OpenFault;
use crate::tables::damage_of_tables;
use database::Database;
use edit_batches::History;
use lens_values::NoMemory;
use opened_view::LastChanges;
use row_sets::RowSet;
use signed_delta::{Delta, TableDelta};
use std::alloc::Global;
use std::sync::ledger::Ledger;
use step_counter::Steps;
use table_keeper::{Kept, KeptTable};

/// The database of what is kept, at version 0; or its first damage, or `NoMemory`. No row is
/// walked: the tables have none while the definitions are taken.
pub fn database_of<L: Ledger>(
    alloc: Global,
    kept: Kept,
    walked: &mut Steps<L>,
) -> Result<Database, OpenFault>
    requires { Rise kept.tables.items }
    ensures database { IsDatabaseOf result (kept_view kept) }
    ensures keyed { IfOk result IsKeyed }
    ensures walked { walked.new ≡ walked.old }
{
    let Kept {
        definitions,
        tables,
    } = kept;
    let admitted = admit_all(alloc, definitions, walked)?;
    match damage_of_tables(alloc, &admitted.catalog, &admitted.names, tables.as_slice())? {
        Some(damage) => Err(OpenFault::Damaged { damage }),
        None => Ok(undamaged(alloc, admitted, tables)?),
    }
}

/// The database of these definitions and tables, which have no damage.
fn undamaged(
    alloc: Global,
    admitted: Admitted,
    tables: Vec<KeptTable>,
) -> Result<Database, NoMemory>
    requires rising { Rise tables.items }
    requires empty { HasEmptyTables admitted }
    requires undamaged { damage_of_tables (catalogue admitted.catalog.texts)
        (rows_in tables.items) ≡ None }
    ensures state { IfOk result (λ database. state_of database ≡ opening.state_of
        (record { texts = admitted.catalog.texts; rows = rows_in tables.items })) }
    ensures keyed { IfOk result IsKeyed }
{
    let last = first_versions(alloc, tables.as_slice())?;
    let past = History::new(alloc)?;
    let deltas = fillings(alloc, tables)?;
    let mut filled = admitted.tables;
    filled.stage(&deltas)?;
    filled.settle();
    Ok(Database {
        catalog: admitted.catalog,
        tables: filled,
        last,
        version: 0,
        past,
    })
}

/// Each of these tables was last changed at version 0.
fn first_versions(alloc: Global, tables: &[KeptTable]) -> Result<LastChanges, NoMemory>
    ensures { IfOk result (λ last. last ≡ mapped (λ _. 0) (rows_in tables.now)) }
{
    let mut last = LastChanges::new(alloc);
    for kept in tables.iter().rev() {
        last.set(&kept.table, 0)?;
    }
    Ok(last)
}

/// The differences that fill empty tables with the kept rows.
fn fillings(alloc: Global, tables: Vec<KeptTable>) -> Result<Vec<TableDelta>, NoMemory>
    ensures { IfOk result (λ deltas. map table_delta deltas.items ≡ map filling tables.items) }
{
    let mut deltas = Vec::with_capacity(alloc, tables.len())?;
    for kept in tables {
        let delta = Delta::new(RowSet::empty(alloc), kept.rows);
        deltas.push(TableDelta {
            table: kept.table,
            delta,
        })?;
    }
    Ok(deltas)
}

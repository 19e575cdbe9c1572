//! Tables in rising order of names.
ghost use Rattle.std.specs.Prelude.{◌≡◌, OnErr, OnOk};
ghost use Rattle.table_keeper.specs.Places.{Rise, rows_in};
ghost use Rattle.sqlite_keeper.specs.Placing.{with_new};

use crate::refusal::Refusal;
use lens_values::Name;
use row_sets::RowSet;
use table_keeper::{KeptTable, search};

/// Puts the rows of a table in their place. Rows that are there under the name stay.
pub fn put(tables: &mut Vec<KeptTable>, table: Name, rows: RowSet) -> Result<(), Refusal>
    requires { Rise tables.old.items }
    ensures rising { Rise tables.new.items }
    ensures ok { OnOk result (rows_in tables.new.items
        ≡ with_new (rows_in tables.old.items) table rows) }
    ensures err { OnErr result (tables.new.items ≡ tables.old.items) }
{
    match search(tables, &table) {
        Ok(_) => Ok(()),
        Err(place) => {
            tables.insert(place, KeptTable { table, rows })?;
            Ok(())
        }
    }
}

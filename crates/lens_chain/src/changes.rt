//! The differences of tables, gathered by name.
ghost use Rattle.std.specs.Prelude.{◌≡◌, IfOk, OnOk, map};
ghost use Rattle.std.specs.FinMap as finmap;
ghost use Rattle.signed_delta.specs.Tables.{table_delta};
ghost use Rattle.lens_chain.specs.Changed.{in_order, with_change};

use lens_values::{Name, NoMemory};
use signed_delta::{Delta, TableDelta};
use std::alloc::Global;
use std::collections::BTreeMap;
use std::marker::Model;

/// A difference for each of some tables. A contract sees them by name.
#[derive(Drop)]
pub struct Changes {
    deltas: BTreeMap<Name, Delta>,
}

impl Model for Changes {
    ghost use Rattle.std.specs.Coded.{coded_list, coded_ℕ};
    ghost use Rattle.std.specs.FinMap as finmap;
    ghost use Rattle.signed_delta.specs.DeltaCode.{coded_delta};
    ghost use Rattle.lens_chain.specs.Changed.{Changed};

    ghost Value = { Changed };

    ghost coded = { finmap.code (coded_list coded_ℕ) coded_delta };

    ghost view = { λ c. finmap.from_entries c.deltas.entries };
}

impl Changes {
    /// No differences.
    pub fn new(alloc: Global) -> Changes
        ensures { result ≡ finmap.empty }
    {
        Changes {
            deltas: BTreeMap::new(alloc),
        }
    }

    /// Adds the difference of the table, unless it is empty.
    pub fn add(&mut self, table: Name, delta: Delta) -> Result<(), NoMemory>
        ensures { OnOk result (self.new ≡ with_change (record { table = table; delta = delta }) self.old) }
    {
        if delta.is_empty() {
            return Ok(());
        }
        self.set(table, delta)
    }

    // Puts the difference at the table's name, in place of one that is there.
    fn set(&mut self, table: Name, delta: Delta) -> Result<(), NoMemory>
        ensures { OnOk result (self.new ≡ finmap.insert self.old table delta) }
    {
        self.deltas.insert(table, delta)?;
        Ok(())
    }

    /// The differences in rising order of names.
    pub fn in_order(self, alloc: Global) -> Result<Vec<TableDelta>, NoMemory>
        ensures { IfOk result (λ list. map table_delta list.items ≡ in_order self) }
    {
        let mut list = Vec::with_capacity(alloc, self.deltas.len())?;
        for (table, delta) in self.deltas {
            list.push(TableDelta { table, delta })?;
        }
        Ok(list)
    }
}

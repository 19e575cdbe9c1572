//! The version that changed each table last.
ghost use Rattle.std.specs.Prelude.{◌≡◌, ℕ, IfOk, OnErr, OnOk, is_some, map, true};
ghost use Rattle.std.specs.Coded.{coded_list, coded_ℕ};
ghost use Rattle.std.specs.FinMap as finmap;
ghost use Rattle.plain_values.specs.Order.{bytes_cmp};
ghost use Rattle.server_specs.specs.Changing.{last_change, latest, with_last};
ghost use Rattle.signed_delta.specs.Tables.{table_delta};
ghost use Rattle.opened_view.specs.Moving.{AreThere};

use lens_values::{Name, NoMemory};
use signed_delta::TableDelta;
use std::alloc::Global;
use std::collections::BTreeMap;
use std::marker::Model;

/// A version for each table. A contract sees the map of the definition.
#[derive(Drop)]
pub struct LastChanges {
    versions: BTreeMap<Name, u64>,
}

impl Model for LastChanges {
    ghost Value = { finmap.FinMap bytes_cmp ℕ };

    ghost coded = { finmap.code (coded_list coded_ℕ) coded_ℕ };

    ghost view = { λ l. finmap.from_entries l.versions.entries };
}

impl LastChanges {
    /// No table was changed.
    pub fn new(alloc: Global) -> LastChanges
        ensures { result ≡ finmap.empty }
    {
        LastChanges {
            versions: BTreeMap::new(alloc),
        }
    }

    /// These last changes, but with the version as the last change of this table.
    pub fn with(&self, alloc: Global, table: &Name, version: u64) -> Result<LastChanges, NoMemory>
        ensures { IfOk result (λ after. after ≡ finmap.insert self.now table.now version) }
    {
        let mut after = self.copy(alloc)?;
        after.set(table, version)?;
        Ok(after)
    }

    /// Sets the last change of each of these tables to the version. The tables are there already,
    /// so it takes no memory.
    pub fn move_on(&mut self, changes: &[TableDelta], version: u64)
        requires { AreThere self.old (map table_delta changes.now) }
        ensures { self.new ≡ with_last version (map table_delta changes.now) self.old }
    {
        for change in changes {
            self.move_one(&change.table, version);
        }
    }

    // Sets the last change of the table, which is there already, to the version.
    fn move_one(&mut self, table: &Name, version: u64)
        requires { is_some (finmap.get self.old table.now) ≡ true }
        ensures { self.new ≡ finmap.insert self.old table.now version }
    {
        if let Some(last) = self.versions.get_mut(table) {
            *last = version;
        }
    }

    /// A copy.
    pub fn copy(&self, alloc: Global) -> Result<LastChanges, NoMemory>
        ensures { IfOk result (λ copy. copy ≡ self.now) }
    {
        let mut copy = LastChanges::new(alloc);
        for (table, version) in self.versions.iter().rev() {
            copy.set(table, *version)?;
        }
        Ok(copy)
    }

    /// The greatest version that changed one of these tables last, or 0.
    pub fn latest(&self, tables: &[Name]) -> u64
        ensures { result ≡ latest self.now tables.now }
    {
        let mut latest = 0;
        for table in tables {
            latest = latest.max(self.last_change(table));
        }
        latest
    }

    // The version that changed the table last, or 0.
    fn last_change(&self, table: &Name) -> u64
        ensures { result ≡ last_change self.now table.now }
    {
        self.versions.get(table).copied().unwrap_or(0)
    }

    /// Sets the last change of the table to the version.
    pub fn set(&mut self, table: &Name, version: u64) -> Result<(), NoMemory>
        ensures ok { OnOk result (self.new ≡ finmap.insert self.old table.now version) }
        ensures err { OnErr result (self.new ≡ self.old) }
    {
        self.versions.insert(*table, version)?;
        Ok(())
    }
}

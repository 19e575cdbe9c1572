//! The rows of tables in memory.
ghost use Rattle.std.specs.Prelude.{◌≡◌, IfOk, OnOk, map};
ghost use Rattle.std.specs.FinMap as finmap;
ghost use Rattle.plain_values.specs.SortedSet as set;
ghost use Rattle.table_keeper.specs.Places.{Rise, rows_in};
ghost use Rattle.lens_specs.specs.Keeping.{rows_at};
ghost use Rattle.lens_specs.specs.Relation.{Rows};
ghost use Rattle.memory_store.specs.InMemory.{Tables, coded_tables, table_after, table_delta, with_deltas};

use crate::tree_rows::make;
use lens_values::{Name, NoMemory};
use row_sets::RowTree;
use signed_delta::TableDelta;
use std::alloc::Global;
use std::collections::BTreeMap;
use std::marker::Model;
use table_keeper::KeptTable;

/// The rows of each table. A contract sees the sets of rows by the tables' names.
#[derive(Drop)]
pub struct RowTrees {
    trees: BTreeMap<Name, RowTree>,
}

impl Model for RowTrees {
    ghost Value = { Tables };

    ghost coded = { coded_tables };

    ghost view = { λ r. finmap.from_entries r.trees.entries };
}

impl RowTrees {
    /// The rows of these tables.
    pub fn of(alloc: Global, tables: &[KeptTable]) -> Result<RowTrees, NoMemory>
        requires { Rise tables.now }
        ensures { IfOk result (λ trees. trees ≡ rows_in tables.now) }
    {
        let mut trees = RowTrees::new(alloc);
        for kept in tables {
            let tree = RowTree::of(alloc, kept.rows.copy(alloc)?)?;
            trees.put(kept.table, tree)?;
        }
        Ok(trees)
    }

    // No table.
    fn new(alloc: Global) -> RowTrees
        ensures { result ≡ finmap.empty }
    {
        RowTrees {
            trees: BTreeMap::new(alloc),
        }
    }

    // Puts a table under a name, in place of the one that is there, if any.
    fn put(&mut self, table: Name, tree: RowTree) -> Result<(), NoMemory>
        ensures { OnOk result (self.new ≡ finmap.insert self.old table tree) }
    {
        let _old = self.trees.insert(table, tree)?;
        Ok(())
    }

    /// Puts an empty table under a name.
    pub fn put_empty(&mut self, alloc: Global, table: Name) -> Result<(), NoMemory>
        ensures { OnOk result (self.new ≡ finmap.insert self.old table set.empty) }
    {
        self.put(table, RowTree::new(alloc))
    }

    /// Makes the differences, one after another. After `NoMemory` some of them are made.
    pub fn change(&mut self, alloc: Global, changes: &[TableDelta]) -> Result<(), NoMemory>
        ensures { OnOk result (self.new ≡ with_deltas (map table_delta changes.now) self.old) }
    {
        for change in changes {
            self.change_table(alloc, change)?;
        }
        Ok(())
    }

    // Makes the difference of one table. A table that is not there is as one without rows.
    fn change_table(&mut self, alloc: Global, change: &TableDelta) -> Result<(), NoMemory>
        ensures { OnOk result (self.new ≡ table_after (table_delta change.now) self.old) }
    {
        let mut tree = self.take(alloc, &change.table);
        make(&mut tree, alloc, &change.delta)?;
        self.put(change.table, tree)
    }

    // Takes out the rows of a table, if it is there. The others stay.
    fn take(&mut self, alloc: Global, table: &Name) -> RowTree
        ensures rows { result ≡ rows_at self.old table.now }
        ensures others { (rows : Rows) → finmap.insert self.new table.now rows
            ≡ finmap.insert self.old table.now rows }
    {
        match self.trees.remove(table) {
            Some(tree) => tree,
            None => RowTree::new(alloc),
        }
    }

    /// The tables in rising order of names.
    pub fn tables(&self, alloc: Global) -> Result<Vec<KeptTable>, NoMemory>
        ensures is { IfOk result (λ tables. rows_in tables.items ≡ self.now) }
        ensures rising { IfOk result (λ tables. Rise tables.items) }
    {
        let mut tables = Vec::with_capacity(alloc, self.trees.len())?;
        for (table, tree) in self.trees.iter() {
            let rows = tree.rows(alloc)?;
            tables.push(KeptTable {
                table: *table,
                rows,
            })?;
        }
        Ok(tables)
    }
}

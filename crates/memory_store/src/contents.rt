//! Contents while changes are made to them.
ghost use Rattle.std.specs.Prelude.{◌≡◌, IfOk, OnOk, map};
ghost use Rattle.lens_specs.specs.Keeping as keeping;
ghost use Rattle.lens_specs.specs.Keeping.{changed};
ghost use Rattle.table_keeper.specs.Changes.{change_view, kept_view};
ghost use Rattle.table_keeper.specs.Holding.{coded_kept};
ghost use Rattle.table_keeper.specs.Places.{Rise};
ghost use Rattle.memory_store.specs.InMemory.{after};

use crate::row_trees::RowTrees;
use lens_values::{Name, NoMemory, Text, copied};
use std::alloc::Global;
use std::marker::Model;
use table_keeper::{Change, Kept};

/// The definitions, and the rows of each table in a tree, since a change goes to few of them. A
/// contract sees the contents.
#[derive(Drop)]
pub struct Contents {
    definitions: Vec<Text>,
    tables: RowTrees,
}

impl Model for Contents {
    ghost Value = { keeping.Kept };

    ghost coded = { coded_kept };

    ghost view = { λ c. record { texts = c.definitions.items; rows = c.tables } };
}

impl Contents {
    /// A copy of what is kept.
    pub fn of(alloc: Global, kept: &Kept) -> Result<Contents, NoMemory>
        requires { Rise kept.now.tables.items }
        ensures { IfOk result (λ contents. contents ≡ kept_view kept.now) }
    {
        let definitions = copied(alloc, &kept.definitions)?;
        let tables = RowTrees::of(alloc, &kept.tables)?;
        Ok(Contents {
            definitions,
            tables,
        })
    }

    /// Makes the changes, one after another. After `NoMemory` some of them are made.
    pub fn make_all(&mut self, alloc: Global, changes: &[Change]) -> Result<(), NoMemory>
        ensures { OnOk result (self.new ≡ after (map change_view changes.now) self.old) }
    {
        for change in changes {
            self.make(alloc, change)?;
        }
        Ok(())
    }

    // Makes a change. After `NoMemory` it may be made in part.
    fn make(&mut self, alloc: Global, change: &Change) -> Result<(), NoMemory>
        ensures { OnOk result (self.new ≡ changed (change_view change.now) self.old) }
    {
        match change {
            Change::Define { text, table } => self.define(alloc, text, *table),
            Change::Rows { deltas } => self.tables.change(alloc, deltas),
        }
    }

    // Adds a definition, and the table that it makes, if any.
    fn define(&mut self, alloc: Global, text: &Text, table: Option<Name>) -> Result<(), NoMemory>
        ensures { OnOk result (self.new ≡ changed (keeping.define text.now table) self.old) }
    {
        self.definitions.push(text.copy(alloc)?)?;
        match table {
            None => Ok(()),
            Some(name) => self.tables.put_empty(alloc, name),
        }
    }

    /// The contents as a keeper gives them.
    pub fn into_kept(self, alloc: Global) -> Result<Kept, NoMemory>
        ensures is { IfOk result (λ kept. kept_view kept ≡ self) }
        ensures rising { IfOk result (λ kept. Rise kept.tables.items) }
    {
        let tables = self.tables.tables(alloc)?;
        Ok(Kept {
            definitions: self.definitions,
            tables,
        })
    }
}

//! The columns of the tables of a store.
ghost use Rattle.std.specs.Prelude.{◌≡◌, [], IsOk, OnErr, OnOk, is_some, option_copied, true};
ghost use Rattle.sqlite_keeper.specs.Knowing.{Extends, are_known, columns_at, known_in, with_defined};

use crate::loading::definition_texts;
use crate::refusal::Refusal;
use lens_values::{Columns, Name, Text};
use signed_delta::TableDelta;
use sqlite::{Alter, Connection};
use std::alloc::Global;
use view_lang::{Definition, LangFault, parse};

/// The columns of tables of a store, as far as they are known. The columns of a table never change.
#[derive(Drop)]
pub struct KnownColumns {
    tables: Vec<Known>,
}

// A table and its columns.
#[derive(Drop)]
struct Known {
    table: Name,
    columns: Columns,
}

impl KnownColumns {
    /// None yet.
    pub fn new(alloc: Global) -> KnownColumns
        ensures { known_in result ≡ [] }
    {
        KnownColumns {
            tables: Vec::new(alloc),
        }
    }

    /// The columns of the table, where they are known.
    pub fn of(&self, table: &Name) -> Option<&Columns>
        ensures { option_copied result ≡ columns_at (known_in self.now) table.now }
    {
        for known in &self.tables {
            if known.table == *table {
                return Some(&known.columns);
            }
        }
        None
    }

    /// Reads the definitions, unless the columns of each of these tables are known.
    pub fn learn<S: Alter>(
        &mut self,
        alloc: Global,
        conn: &mut Connection<S>,
        deltas: &[TableDelta],
    ) -> Result<(), Refusal>
        ensures extends { Extends (known_in self.old) (known_in self.new) }
        ensures known { are_known (known_in self.old) deltas.now ≡ true
            → IsOk result × (known_in self.new ≡ known_in self.old) × (conn.new ≡ conn.old) }
    {
        if self.has_all(deltas) {
            return Ok(());
        }
        let texts = definition_texts(alloc, conn)?;
        self.add_texts(alloc, &texts)
    }

    // Adds the columns of the tables that the texts define.
    fn add_texts(&mut self, alloc: Global, texts: &[Text]) -> Result<(), Refusal>
        ensures { Extends (known_in self.old) (known_in self.new) }
    {
        for text in texts {
            self.add_text(alloc, text)?;
        }
        Ok(())
    }

    // Whether the columns of each of these tables are known.
    fn has_all(&self, deltas: &[TableDelta]) -> bool
        ensures { result ≡ are_known (known_in self.now) deltas.now }
    {
        deltas.iter().all(|delta| self.has(&delta.table))
    }

    // Whether the columns of the table are known.
    fn has(&self, table: &Name) -> bool
        ensures { result ≡ is_some (columns_at (known_in self.now) table.now) }
    {
        self.of(table).is_some()
    }

    // Adds the columns of the table that the text defines, if it defines one.
    fn add_text(&mut self, alloc: Global, text: &Text) -> Result<(), Refusal>
        ensures { Extends (known_in self.old) (known_in self.new) }
    {
        match parse(alloc, text) {
            Ok(definition) => self.add(alloc, &definition),
            Err(LangFault::NoMemory) => Err(Refusal::NoMemory),
            Err(_) => Ok(()),
        }
    }

    // Adds the columns of the table that is defined, where they are not known.
    fn add(&mut self, alloc: Global, definition: &Definition) -> Result<(), Refusal>
        ensures ok { OnOk result (known_in self.new ≡ with_defined definition.now (known_in self.old)) }
        ensures err { OnErr result (known_in self.new ≡ known_in self.old) }
    {
        match definition {
            Definition::Table { name, cols, .. } => {
                if self.has(name) {
                    return Ok(());
                }
                let columns = cols.copy(alloc)?;
                self.tables.push(Known {
                    table: *name,
                    columns,
                })?;
                Ok(())
            }
            Definition::View { .. } => Ok(()),
        }
    }
}

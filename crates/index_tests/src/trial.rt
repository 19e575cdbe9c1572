//! A table, changed and asked.
ghost use Rattle.std.specs.Prelude.{◌≡◌, IfOk};
ghost use Rattle.base_index.specs.Held.{IsThere, relation_in};

use base_index::{Need, Tables};
use lens_values::Name;
use row_sets::{Relation, RowSet};
use sample_rows::{are_rows, columns, relation, row};
use signed_delta::{TableDelta, diff};
use std::alloc::Global;
use std::marker::Model;
use std::process::Abort;
use std::sync::ledger::Ledger;
use std::test::Fail;
use step_counter::Steps;

/// A table that is there, and whether it is held.
#[derive(Drop)]
pub(crate) struct Trial {
    alloc: Global,
    tables: Tables,
    name: Name,
    held: bool,
}

impl Model for Trial {
    ghost use Rattle.base_index.specs.Held as spec;

    ghost Value = { spec.Held };

    ghost coded = { spec.coded_held };

    ghost view = { λ t. t.tables };

    ghost use Rattle.index_tests.specs.Trials.{Stays};

    ghost invariant = { λ t. Stays t.tables t.name t.held };
}

impl Trial {
    /// A table of this name and these columns with no row and no index.
    pub(crate) fn new<L: Ledger>(
        alloc: Global,
        table: &str,
        listed: &str,
        steps: &mut Steps<L>,
    ) -> Result<Trial, Fail> {
        let name = Name::new(table)?;
        let columns = columns(alloc, listed)?;
        let mut tables = Tables::new(alloc);
        tables.stage_definition(Some((name, columns)), &[], steps)?;
        tables.settle();
        Ok(Trial {
            alloc,
            tables,
            name,
            held: false,
        })
    }

    /// Stages nothing but an index by the columns, unless the table is held.
    pub(crate) fn stages_index<L: Ledger>(
        &mut self,
        rt: &impl Abort,
        listed: &str,
        steps: &mut Steps<L>,
    ) -> bool {
        if self.held {
            return false;
        }
        let needs = [need(rt, self.alloc, self.name, listed)];
        self.tables.unstage();
        let staged = self.tables.stage_definition(None, &needs, steps);
        staged.expect(rt, "memory");
        true
    }

    /// Stages nothing but the change that makes these all rows of the table.
    pub(crate) fn stages<L: Ledger>(
        &mut self,
        rows: &str,
        steps: &mut Steps<L>,
    ) -> Result<(), Fail> {
        let old = shown(self.alloc, &self.tables, &self.name, steps)?;
        let new = relation(self.alloc, old.columns(), rows)?;
        let delta = diff(self.alloc, &old, &new)?;
        self.tables.unstage();
        self.tables.stage(&[TableDelta {
            table: self.name,
            delta,
        }])?;
        Ok(())
    }

    /// Makes what is staged present.
    pub(crate) fn settles(&mut self) {
        self.tables.settle();
    }

    /// Drops what is staged.
    pub(crate) fn drops(&mut self) {
        self.tables.unstage();
    }

    /// Remembers the table as it is, unless it is held.
    pub(crate) fn holds(&mut self) -> bool {
        if self.held {
            return false;
        }
        self.tables.unstage();
        self.tables.hold();
        self.held = true;
        true
    }

    /// Gives up what was remembered when the table was held, if it is. The table stays as it is.
    pub(crate) fn keeps(&mut self) -> bool {
        if !self.held {
            return false;
        }
        self.tables.unstage();
        self.tables.keep();
        self.held = false;
        true
    }

    /// Makes the table what it was when it was held, if it is.
    pub(crate) fn goes_back(&mut self) -> bool {
        if !self.held {
            return false;
        }
        self.tables.back();
        self.held = false;
        true
    }

    /// Whether a scan finds just these rows, in a step a row, and they are counted.
    pub(crate) fn shows<L: Ledger>(
        &self,
        rt: &impl Abort,
        rows: &str,
        steps: &mut Steps<L>,
    ) -> bool {
        let before = steps.number();
        let walked = self.tables.walk(&self.name, steps).expect(rt, "memory");
        let taken = steps.number().saturating_sub(before);
        let count = walked.rows().len();
        let counted = self.tables.count(&self.name) == count && taken == count as u64;
        counted && sure(rt, are_rows(self.alloc, &walked, rows), rows)
    }

    /// Whether the table has the row.
    pub(crate) fn has<L: Ledger>(&self, rt: &impl Abort, text: &str, steps: &mut Steps<L>) -> bool {
        let row = sure(rt, row(self.alloc, text), text);
        self.tables.has(&self.name, &row, steps)
    }

    /// Whether the table may be asked by the columns.
    pub(crate) fn may_be_asked(&self, rt: &impl Abort, listed: &str) -> bool {
        let need = need(rt, self.alloc, self.name, listed);
        self.tables.has_index(&need)
    }

    /// Whether just the rows are found by the key, as `a:int | a=1 | a=1 b=1; a=1 b=2`. The key may
    /// have more columns than the index.
    pub(crate) fn finds<L: Ledger>(
        &self,
        rt: &impl Abort,
        text: &str,
        steps: &mut Steps<L>,
    ) -> bool {
        let (listed, rest) = text.split_once('|').expect(rt, text);
        let (key, rows) = rest.split_once('|').expect(rt, text);
        let found = self.found(rt, listed, key, steps);
        sure(rt, are_rows(self.alloc, &found, rows), rows)
    }

    // The rows that are found by the columns and the key.
    fn found<L: Ledger>(
        &self,
        rt: &impl Abort,
        listed: &str,
        key: &str,
        steps: &mut Steps<L>,
    ) -> RowSet {
        let key = sure(rt, row(self.alloc, key), key);
        let need = need(rt, self.alloc, self.name, listed);
        assert!(rt;
            self.tables.has_index(&need),
            "no index has the columns {listed}"
        );
        let found = self.tables.find(&self.name, &need.cols, &key, steps);
        found.expect(rt, "memory")
    }
}

/// What was made of the text. It stops the test, with the text, if nothing was.
pub(crate) fn sure<T>(rt: &impl Abort, made: Result<T, Fail>, text: &str) -> T
    ensures { made ≡ Ok result }
{
    match made {
        Ok(value) => value,
        Err(_fail) => panic!(rt; "{text}"),
    }
}

// The need to ask the table by the columns.
fn need(rt: &impl Abort, alloc: Global, table: Name, listed: &str) -> Need
    ensures { result.table ≡ table }
{
    let columns = sure(rt, columns(alloc, listed), listed);
    Need {
        table,
        cols: columns.names(alloc).expect(rt, listed),
    }
}

// The columns and the rows of the table.
fn shown<L: Ledger>(
    alloc: Global,
    tables: &Tables,
    table: &Name,
    steps: &mut Steps<L>,
) -> Result<Relation, Fail>
    requires { IsThere tables.now.present table.now }
    ensures { IfOk result (λ found. found ≡ relation_in tables.now.present.relations table.now) }
{
    let columns = tables.columns(table).copy(alloc)?;
    let rows = tables.walk(table, steps)?;
    Ok(Relation::with_rows(columns, rows))
}

//! Tables by name, with a change that is staged, and then settled or dropped.
ghost use Rattle.std.specs.Prelude.{◌≡◌, ◌+◌, ◌≤◌, map, length, IfOk, OnOk, OnErr, IsTrue, IsSome};
ghost use Rattle.std.specs.Prelude.{Some, None};
ghost use Rattle.std.specs.FinMap as finmap;
ghost use Rattle.plain_values.specs.SortedSet as set;
ghost use Rattle.base_index.specs.Held.{AllApply, IsNew, IsQuiet, IsRelation, IsThere, agree, defined, has};
ghost use Rattle.base_index.specs.Held.{is_indexed, no_tables, relation_in, table_delta, those, walked_for, with_deltas};
ghost use Rattle.base_index.specs.Stored.{shown_of};

use crate::need::Need;
use crate::several::{
    back_each, define_each, hold_each, keep_each, named, settle_each, stage_each, unstage_each,
};
use crate::table::Table;
use lens_values::{Columns, Name, Names, NoMemory, Row};
use row_sets::RowSet;
use signed_delta::TableDelta;
use std::alloc::Global;
use std::marker::Model;
use std::sync::ledger::Ledger;
use step_counter::Steps;

/// All tables. A contract sees them as readers do, as `settle` makes them, and as they were at
/// `hold`.
#[derive(Drop)]
pub struct Tables {
    alloc: Global,
    tables: Vec<Table>,
    // How many tables readers see.
    shown: usize,
    // Whether the tables are held.
    held: bool,
}

impl Model for Tables {
    ghost use Rattle.base_index.specs.Held as spec;

    ghost Value = { spec.Held };

    ghost coded = { spec.coded_held };

    ghost use Rattle.base_index.specs.HeldFields.{IsWhole, held_of};

    ghost view = { held_of };

    ghost invariant = { IsWhole };
}

impl Tables {
    /// No table.
    pub fn new(alloc: Global) -> Tables
        ensures { result ≡ record { present = no_tables; next = no_tables; held = None } }
    {
        Tables {
            alloc,
            tables: Vec::new(alloc),
            shown: 0,
            held: false,
        }
    }

    /// Stages a new table, if one is given, and the indexes that the needs ask for. Each table with
    /// a new index is walked once, a step a row. After `NoMemory` nothing is staged.
    pub fn stage_definition<L: Ledger>(
        &mut self,
        table: Option<(Name, Columns)>,
        needs: &[Need],
        walked: &mut Steps<L>,
    ) -> Result<(), NoMemory>
        requires quiet { IsQuiet self.old }
        requires held { self.old.held ≡ None }
        requires new { IsNew table self.old.present }
        ensures ok { OnOk result (
            self.new ≡ record self.old { next = defined table needs.now self.old.present }) }
        ensures err { OnErr result (self.new ≡ self.old) }
        ensures walked { OnOk result (
            walked.new ≡ walked.old + walked_for needs.now self.old.present) }
        ensures walked_at_most { walked.new ≤ walked.old + walked_for needs.now self.old.present }
        ensures walks_on { walked.old ≤ walked.new }
    {
        unstage_each(&mut self.tables, self.shown);
        let staged = define_each(self.alloc, &mut self.tables, table, needs, walked);
        if staged.is_err() {
            unstage_each(&mut self.tables, self.shown);
        }
        staged
    }

    /// Stages the differences of tables. After `NoMemory` nothing is staged.
    pub fn stage(&mut self, deltas: &[TableDelta]) -> Result<(), NoMemory>
        requires quiet { IsQuiet self.old }
        requires apply { AllApply (map table_delta deltas.now) self.old.present.relations }
        ensures ok { OnOk result (self.new ≡ record self.old {
          next = record self.old.present {
            relations =
                with_deltas (map table_delta deltas.now) self.old.present.relations;
          };
        }) }
        ensures err { OnErr result (self.new ≡ self.old) }
    {
        unstage_each(&mut self.tables, self.shown);
        let staged = stage_each(self.alloc, &mut self.tables, deltas);
        if staged.is_err() {
            unstage_each(&mut self.tables, self.shown);
        }
        staged
    }

    /// Makes what is staged present. It takes no memory.
    pub fn settle(&mut self)
        ensures { self.new ≡ record self.old { present = self.old.next } }
    {
        settle_each(self.alloc, &mut self.tables);
        self.shown = self.tables.len();
    }

    /// Drops what is staged. It takes no memory.
    pub fn unstage(&mut self)
        ensures { self.new ≡ record self.old { next = self.old.present } }
    {
        unstage_each(&mut self.tables, self.shown);
    }

    /// Remembers the tables as they are, until `keep` or `back`. It takes no memory.
    pub fn hold(&mut self)
        requires quiet { IsQuiet self.old }
        requires free { self.old.held ≡ None }
        ensures { self.new ≡ record self.old { held = Some self.old.present } }
    {
        unstage_each(&mut self.tables, self.shown);
        hold_each(&mut self.tables);
        self.held = true;
    }

    /// Lets the tables stand as they are. It takes no memory.
    pub fn keep(&mut self)
        requires quiet { IsQuiet self.old }
        requires held { IsSome self.old.held }
        ensures { self.new ≡ record self.old { held = None } }
    {
        unstage_each(&mut self.tables, self.shown);
        keep_each(&mut self.tables);
        self.held = false;
    }

    /// Makes the tables what they were at `hold`. It takes no memory.
    pub fn back(&mut self)
        requires { IsSome self.old.held }
        ensures { (st : _) → self.old.held ≡ Some st
            → self.new ≡ record { present = st; next = st; held = None } }
    {
        unstage_each(&mut self.tables, self.shown);
        back_each(self.alloc, &mut self.tables);
        self.held = false;
    }

    /// Whether the table has the row, in one step.
    pub fn has<L: Ledger>(&self, table: &Name, row: &Row, looked: &mut Steps<L>) -> bool
        requires { IsThere self.now.present table.now }
        ensures there { result ≡ has (relation_in self.now.present.relations table.now).rows row.now }
        ensures looked { looked.new ≡ looked.old + 1 }
    {
        looked.tick();
        self.table(table).has(row)
    }

    /// The columns of the table.
    pub fn columns(&self, table: &Name) -> &Columns
        requires { IsThere self.now.present table.now }
        ensures { result.now ≡ (relation_in self.now.present.relations table.now).columns }
    {
        self.table(table).columns()
    }

    /// How many rows the table has.
    pub fn count(&self, table: &Name) -> usize
        requires { IsThere self.now.present table.now }
        ensures { result ≡ length (set.items (relation_in self.now.present.relations table.now).rows) }
    {
        self.table(table).count()
    }

    /// Whether the table may be asked by the columns of the need.
    pub fn has_index(&self, need: &Need) -> bool
        requires { IsThere self.now.present need.now.table }
        ensures { result ≡ is_indexed self.now.present need.now.table need.now.cols }
    {
        self.table(&need.table).has_index(&need.cols)
    }

    /// The rows of the table that agree with the key in the columns of one of its indexes. The key may
    /// have other columns too. It is one step, and one more for each row that is handed out.
    pub fn find<L: Ledger>(
        &self,
        table: &Name,
        cols: &Names,
        key: &Row,
        looked: &mut Steps<L>,
    ) -> Result<RowSet, NoMemory>
        requires there { IsThere self.now.present table.now }
        requires index { IsTrue (is_indexed self.now.present table.now cols.now) }
        ensures ok { IfOk result (λ found. found ≡ those (agree cols.now key.now)
            (relation_in self.now.present.relations table.now).rows) }
        ensures looked { IfOk result (λ found.
            looked.new ≡ looked.old + 1 + length (set.items found)) }
        ensures looked_in_vain { OnErr result (looked.new ≡ looked.old + 1) }
    {
        looked.tick(); // Counted even where memory runs out.
        let found = self.table(table).find(self.alloc, cols, key)?;
        tick_each(found.rows(), looked);
        Ok(found)
    }

    /// All rows of the table, each with its columns, in a step a row.
    pub fn walk<L: Ledger>(&self, table: &Name, walked: &mut Steps<L>) -> Result<RowSet, NoMemory>
        requires { IsThere self.now.present table.now }
        ensures ok { IfOk result (λ rows.
            rows ≡ (relation_in self.now.present.relations table.now).rows) }
        ensures fit { IsRelation (relation_in self.now.present.relations table.now) }
        ensures walked { IfOk result (λ rows. walked.new ≡ walked.old + length (set.items rows)) }
        ensures walked_in_vain { OnErr result (walked.new ≡ walked.old) }
        ensures walks_on { walked.old ≤ walked.new }
    {
        let rows = self.table(table).all_rows(self.alloc)?;
        tick_each(rows.rows(), walked);
        Ok(rows)
    }

    // The table of this name.
    fn table(&self, name: &Name) -> &Table
        requires { IsThere self.now.present name.now }
        ensures relation { finmap.get self.now.present.relations name.now ≡ Some (shown_of result.now) }
        ensures indexes { finmap.get self.now.present.indexes name.now ≡ Some result.now.indexes }
    {
        match named(&self.tables[..self.shown], name) {
            Some(table) => table,
            None => unreachable!(),
        }
    }
}

// One step for each of the rows.
fn tick_each<L: Ledger>(rows: &[Row], steps: &mut Steps<L>)
    ensures { steps.new ≡ steps.old + length rows.now }
{
    for _row in rows {
        steps.tick();
    }
}

//! A list of tables: how one is found by its name, and what is done to each of them in turn.
ghost use Rattle.std.specs.Prelude.{◌≡◌, ◌+◌, ◌≤◌, length, map, sum_by, take, option_copied};
ghost use Rattle.std.specs.Prelude.{OnOk, OnErr, true, false};
ghost use Rattle.base_index.specs.Several.{AreHeld, AreQuiet, CanStage, CanStageAll, first};
ghost use Rattle.base_index.specs.Several.{holding, kept, needed, taken_back};
ghost use Rattle.base_index.specs.Several.{staged_all, staged_in, walked_of, with_new};
ghost use Rattle.base_index.specs.Stored.{Stored, settled, unstaged};

use crate::need::Need;
use crate::table::Table;
use lens_values::{Columns, Name, NoMemory};
use signed_delta::TableDelta;
use std::alloc::Global;
use std::sync::ledger::Ledger;
use step_counter::Steps;

/// The table of this name.
pub fn named<'a>(tables: &'a [Table], name: &Name) -> Option<&'a Table>
    ensures { option_copied result ≡ first name.now tables.now }
{
    for table in tables {
        if table.name() == name {
            return Some(table);
        }
    }
    None
}

/// Makes present what is staged in any of them. It takes no memory.
pub fn settle_each(alloc: Global, tables: &mut Vec<Table>)
    ensures { tables.new.items ≡ map settled tables.old.items }
{
    for table in tables.as_mut_slice() {
        table.settle(alloc);
    }
}

/// Drops what is staged, and all tables behind the first ones. It takes no memory.
pub fn unstage_each(tables: &mut Vec<Table>, shown: usize)
    ensures { tables.new.items ≡ map unstaged (take shown tables.old.items) }
{
    tables.truncate(shown);
    for table in tables.as_mut_slice() {
        table.unstage();
    }
}

/// Remembers the rows of each as they are. It takes no memory.
pub fn hold_each(tables: &mut Vec<Table>)
    requires quiet { AreQuiet tables.old.items }
    requires free { AreHeld false tables.old.items }
    ensures { tables.new.items ≡ map holding tables.old.items }
{
    for i in 0..tables.len() {
        tables[i].hold();
    }
}

/// Lets the rows of each stand as they are. It takes no memory.
pub fn keep_each(tables: &mut Vec<Table>)
    requires { AreQuiet tables.old.items }
    ensures { tables.new.items ≡ map kept tables.old.items }
{
    for i in 0..tables.len() {
        tables[i].keep();
    }
}

/// Makes the rows of each what they were. It takes no memory.
pub fn back_each(alloc: Global, tables: &mut Vec<Table>)
    requires { AreHeld true tables.old.items }
    ensures { tables.new.items ≡ map taken_back tables.old.items }
{
    for i in 0..tables.len() {
        tables[i].back(alloc);
    }
}

// Stages a difference of one of the tables.
fn stage_in(alloc: Global, tables: &mut Vec<Table>, change: &TableDelta) -> Result<(), NoMemory>
    requires { (s : Stored) × CanStage change.now tables.old.items s }
    ensures ok { OnOk result (tables.new.items ≡ staged_in change.now tables.old.items) }
    ensures err { OnErr result (tables.new.items ≡ tables.old.items) }
{
    for i in 0..tables.len() {
        if *tables[i].name() == change.table {
            return tables[i].stage(alloc, &change.delta);
        }
    }
    unreachable!()
}

/// Stages the differences. After `NoMemory` some of them may be staged.
pub fn stage_each(
    alloc: Global,
    tables: &mut Vec<Table>,
    changes: &[TableDelta],
) -> Result<(), NoMemory>
    requires { CanStageAll changes.now tables.old.items }
    ensures ok { OnOk result (tables.new.items ≡ staged_all changes.now tables.old.items) }
    ensures rest { map unstaged tables.new.items ≡ map unstaged tables.old.items }
{
    for change in changes {
        stage_in(alloc, tables, change)?;
    }
    Ok(())
}

/// Adds a table, if one is given, and stages the indexes that the needs ask for. Each table with a
/// new index is walked once, a step a row. After `NoMemory` some of it may be done.
pub fn define_each<L: Ledger>(
    alloc: Global,
    tables: &mut Vec<Table>,
    table: Option<(Name, Columns)>,
    needs: &[Need],
    walked: &mut Steps<L>,
) -> Result<(), NoMemory>
    requires quiet { AreQuiet tables.old.items }
    requires free { AreHeld false tables.old.items }
    ensures ok { OnOk result (
        tables.new.items ≡ map (needed needs.now) (with_new table tables.old.items)) }
    ensures front { take (length tables.old.items) (map unstaged tables.new.items)
        ≡ map unstaged tables.old.items }
    ensures walked { OnOk result (walked.new
        ≡ walked.old + sum_by (walked_of needs.now) (with_new table tables.old.items)) }
    ensures walked_at_most { walked.new
        ≤ walked.old + sum_by (walked_of needs.now) (with_new table tables.old.items) }
    ensures walks_on { walked.old ≤ walked.new }
{
    add_table(alloc, tables, table)?;
    need_each(alloc, tables, needs, walked)
}

// Adds a table with no row and no index, if one is given. After `NoMemory` the tables are as they
// were.
fn add_table(
    alloc: Global,
    tables: &mut Vec<Table>,
    table: Option<(Name, Columns)>,
) -> Result<(), NoMemory>
    ensures ok { OnOk result (tables.new.items ≡ with_new table tables.old.items) }
    ensures err { OnErr result (tables.new.items ≡ tables.old.items) }
{
    if let Some((name, columns)) = table {
        tables.push(Table::new(alloc, name, columns))?;
    }
    Ok(())
}

// Stages the indexes that the needs ask for. After `NoMemory` some of them may be staged.
fn need_each<L: Ledger>(
    alloc: Global,
    tables: &mut Vec<Table>,
    needs: &[Need],
    walked: &mut Steps<L>,
) -> Result<(), NoMemory>
    requires quiet { AreQuiet tables.old.items }
    requires free { AreHeld false tables.old.items }
    ensures ok { OnOk result (tables.new.items ≡ map (needed needs.now) tables.old.items) }
    ensures rest { map unstaged tables.new.items ≡ map unstaged tables.old.items }
    ensures walked { OnOk result (
        walked.new ≡ walked.old + sum_by (walked_of needs.now) tables.old.items) }
    ensures walked_at_most { walked.new ≤ walked.old + sum_by (walked_of needs.now) tables.old.items }
    ensures walks_on { walked.old ≤ walked.new }
{
    for i in 0..tables.len() {
        tables[i].stage_indexes(alloc, needs, walked)?;
    }
    Ok(())
}

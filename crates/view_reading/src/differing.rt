//! What a whole view differs by from rows that are known, with no list of what the view shows.
ghost use Rattle.std.specs.Prelude.{◌≡◌, ◌+◌, ◌≤◌, IfOk, OnOk, length, map};
ghost use Rattle.plain_values.specs.Part.{restrict};
ghost use Rattle.plain_values.specs.SortedSet as set;
ghost use Rattle.lens_specs.specs.Delta.{diff};
ghost use Rattle.lens_specs.specs.Lens.{get, view_names};
ghost use Rattle.lens_specs.specs.Relation.{minus};
ghost use Rattle.lens_laws.specs.Lenses.{AreOf};
ghost use Rattle.view_reading.specs.KnownRows.{AreOver, AreParts, IsPartToo, parts_in, unmarked};
ghost use Rattle.view_reading.specs.Reading.{rows_under};
ghost use Rattle.view_reading.specs.Unfiltered.{passing};

use crate::columns::names_of;
use crate::known::Cursor;
use crate::reading::into_part;
use crate::unfiltered::{Unfiltered, passes, unfiltered_rows};
use base_index::Tables;
use lens_types::TypedLens;
use lens_values::{Names, NoMemory, Row};
use row_sets::RowSet;
use signed_delta::Delta;
use std::alloc::Global;
use std::sync::ledger::Ledger;
use step_counter::Steps;

/// The parts of some rows: which of the known rows are among them, and those that are others.
#[derive(Drop)]
pub(crate) struct Parts {
    // For each known row, whether it is a part.
    are_parts: Vec<bool>,
    // Some of them may be known too.
    others: Vec<Row>,
}

/// The difference from what the lens shows of the tables to the known rows, which have its columns.
/// Each table is walked once.
pub fn difference_in<L: Ledger>(
    alloc: Global,
    lens: &TypedLens,
    tables: &Tables,
    known: &RowSet,
    walked: &mut Steps<L>,
) -> Result<Delta, NoMemory>
    requires tables { AreOf lens.now tables.now.present.relations }
    requires known { AreOver (view_names lens.now) (set.items known.now) }
    ensures delta { IfOk result (λ delta.
        delta ≡ diff (get lens.now tables.now.present.relations) known.now) }
    ensures walked { walked.new ≤ walked.old + rows_under lens.now tables.now.present.relations }
    ensures walks_on { walked.old ≤ walked.new }
{
    let unfiltered = unfiltered_rows(alloc, lens, tables, walked)?;
    let parts = Parts::of(alloc, names_of(lens), unfiltered, known.rows())?;
    parts.difference(alloc, known)
}

impl Parts {
    // The parts of the rows that pass the test, in these columns, which are those of the known rows.
    fn of(
        alloc: Global,
        cols: &Names,
        unfiltered: Unfiltered<'_>,
        known: &[Row],
    ) -> Result<Parts, NoMemory>
        requires { AreOver cols.now known.now }
        ensures { IfOk result (λ parts.
            AreParts known.now parts (map (restrict cols.now) (passing unfiltered.entry))) }
    {
        let Unfiltered { rows, pred } = unfiltered;
        let mut parts = Parts {
            are_parts: vec![in alloc; false; known.len()]?,
            others: Vec::new(alloc),
        };
        let mut cursor = Cursor::new();
        for row in rows {
            if passes(pred, &row) {
                parts.add(alloc, cols, row, known, &mut cursor)?;
            }
        }
        Ok(parts)
    }

    // Adds the part of one more row.
    fn add(
        &mut self,
        alloc: Global,
        cols: &Names,
        row: Row,
        known: &[Row],
        cursor: &mut Cursor,
    ) -> Result<(), NoMemory>
        requires over { AreOver cols.now known.now }
        requires places { length self.old.are_parts.items ≡ length known.now }
        ensures { OnOk result (IsPartToo known.now self.old self.new (restrict cols.now row)) }
    {
        match cursor.find(&row, known) {
            Some(place) => self.are_parts[place] = true,
            None => self.others.push(into_part(alloc, cols, row)?)?,
        }
        Ok(())
    }

    // The difference from the parts to the known rows.
    fn difference(self, alloc: Global, known: &RowSet) -> Result<Delta, NoMemory>
        requires { length self.are_parts.items ≡ length (set.items known.now) }
        ensures { IfOk result (λ delta.
            delta ≡ diff (set.from_list (parts_in self (set.items known.now))) known.now) }
    {
        let list = rest(alloc, known.rows(), &self.are_parts)?;
        let rest = RowSet::from_rising(list);
        let others = RowSet::new(alloc, self.others)?;
        let add = rest.minus(alloc, &others)?;
        let remove = without(alloc, others, known)?;
        Ok(Delta::new(remove, add))
    }
}

// The known rows that are no parts.
fn rest(alloc: Global, known: &[Row], are_parts: &[bool]) -> Result<Vec<Row>, NoMemory>
    requires { length are_parts.now ≡ length known.now }
    ensures { IfOk result (λ rest. rest.items ≡ unmarked are_parts.now known.now) }
{
    let mut rest = Vec::new(alloc);
    for place in 0..known.len() {
        if !are_parts[place] {
            rest.push(known[place].copy(alloc)?)?;
        }
    }
    Ok(rest)
}

// Fewer than a sixteenth of the known rows are looked up one by one.
const FEW: usize = 16;

// The rows that are not known. Few rows are each looked up, and many are found by one walk.
fn without(alloc: Global, rows: RowSet, known: &RowSet) -> Result<RowSet, NoMemory>
    ensures { IfOk result (λ rest. rest ≡ minus rows known.now) }
{
    if rows.rows().len() > known.rows().len() / FEW {
        return rows.minus(alloc, known);
    }
    let mut list = rows.into_rows();
    list.retain(|row| !known.has(row));
    RowSet::new(alloc, list)
}

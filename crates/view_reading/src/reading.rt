//! Whole views.
ghost use Rattle.std.specs.Prelude.{◌≡◌, ◌+◌, ◌≤◌, ◌||◌, IfOk, filter, map};
ghost use Rattle.plain_values.specs.Part.{restrict};
ghost use Rattle.plain_values.specs.SortedSet as set;
ghost use Rattle.lens_specs.specs.Lens as spec;
ghost use Rattle.lens_specs.specs.Lens.{get, select, view_names};
ghost use Rattle.lens_specs.specs.Predicate.{holds, mentioned};
ghost use Rattle.lens_specs.specs.Relation.{project, those};
ghost use Rattle.lens_laws.specs.Lenses.{AreOf, IsTyped};
ghost use Rattle.lens_laws.specs.Passes.{PredWithin};
ghost use Rattle.row_sets.specs.Joins.{pairs_on};
ghost use Rattle.view_reading.specs.Reading.{rows_for, rows_under};

use crate::columns::names_of;
use crate::joining::{Side, joined_parts};
use base_index::Tables;
use lens_pred::Pred;
use lens_types::{Node, TypedLens, rename_rows};
use lens_values::{Names, NoMemory, Row};
use row_sets::{Relation, RowSet};
use std::alloc::Global;
use std::sync::ledger::Ledger;
use step_counter::Steps;

/// The view that the lens shows of the tables, each of which is walked once.
pub fn read_in<L: Ledger>(
    alloc: Global,
    lens: &TypedLens,
    tables: &Tables,
    walked: &mut Steps<L>,
) -> Result<Relation, NoMemory>
    requires { AreOf lens.now tables.now.present.relations }
    ensures value { let db = tables.now.present.relations in
        IfOk result (λ shown. shown ≡ spec.view lens.now db) }
    ensures walked { walked.new ≤ walked.old + rows_under lens.now tables.now.present.relations }
    ensures walks_on { walked.old ≤ walked.new }
{
    let rows = row_set_in(alloc, lens, tables, walked)?;
    let columns = lens.sort().cols().copy(alloc)?;
    Ok(Relation::with_rows(columns, rows))
}

// The rows that the lens shows, as a set.
#[cycle(rows)]
fn row_set_in<L: Ledger>(
    alloc: Global,
    lens: &TypedLens,
    tables: &Tables,
    walked: &mut Steps<L>,
) -> Result<RowSet, NoMemory>
    requires { AreOf lens.now tables.now.present.relations }
    ensures value { let shown = get lens.now tables.now.present.relations in
        IfOk result (λ rows. rows ≡ shown) }
    ensures walked { walked.new ≤ walked.old + rows_under lens.now tables.now.present.relations }
    ensures walks_on { walked.old ≤ walked.new }
{
    match lens.node() {
        Node::Base { table, .. } => tables.walk(table, walked),
        Node::Select { .. } | Node::Drop { .. } | Node::Rename { .. } | Node::Join { .. } => {
            RowSet::new(alloc, rows_in(alloc, lens, tables, walked)?)
        }
    }
}

/// The rows that the lens shows, in no certain order and perhaps more than once, so that only the
/// view itself and the sides of joins are put in order.
#[cycle(rows)]
pub(crate) fn rows_in<L: Ledger>(
    alloc: Global,
    lens: &TypedLens,
    tables: &Tables,
    walked: &mut Steps<L>,
) -> Result<Vec<Row>, NoMemory>
    requires { AreOf lens.now tables.now.present.relations }
    ensures value { let shown = get lens.now tables.now.present.relations in
        IfOk result (λ rows. set.from_list rows.items ≡ shown) }
    ensures walked { walked.new ≤ walked.old + rows_under lens.now tables.now.present.relations }
    ensures walks_on { walked.old ≤ walked.new }
{
    match lens.node() {
        Node::Base { table, .. } => Ok(tables.walk(table, walked)?.into_rows()),
        Node::Select { pred, of } => selected_in(alloc, pred, of, tables, walked),
        Node::Drop { of, .. } => parts_in(alloc, names_of(lens), of, tables, walked),
        Node::Rename { col, to, of } => {
            let rows = rows_in(alloc, of, tables, walked)?;
            rename_rows(alloc, &rows, names_of(of), col, to)
        }
        Node::Join { left, right, .. } => {
            pair_parts_in(alloc, names_of(lens), left, right, tables, walked)
        }
    }
}

// The parts in these columns of the rows that the lens shows, in no certain order and perhaps more
// than once. Nothing else is made of the pairs of a join.
#[cycle(rows)]
fn parts_in<L: Ledger>(
    alloc: Global,
    kept: &Names,
    lens: &TypedLens,
    tables: &Tables,
    walked: &mut Steps<L>,
) -> Result<Vec<Row>, NoMemory>
    requires { AreOf lens.now tables.now.present.relations }
    ensures value { let shown = get lens.now tables.now.present.relations in
        IfOk result (λ parts. set.from_list parts.items ≡ project kept.now shown) }
    ensures walked { walked.new ≤ walked.old + rows_under lens.now tables.now.present.relations }
    ensures walks_on { walked.old ≤ walked.new }
{
    match lens.node() {
        Node::Join { left, right, .. } => {
            pair_parts_in(alloc, kept, left, right, tables, walked)
        }
        Node::Base { .. } | Node::Select { .. } | Node::Drop { .. } | Node::Rename { .. } => {
            let rows = rows_in(alloc, lens, tables, walked)?;
            parts(alloc, kept, rows)
        }
    }
}

// The parts in these columns of the pairs of rows of both lenses that agree on the columns that both
// show, pasted.
#[cycle(rows)]
fn pair_parts_in<L: Ledger>(
    alloc: Global,
    kept: &Names,
    left: &TypedLens,
    right: &TypedLens,
    tables: &Tables,
    walked: &mut Steps<L>,
) -> Result<Vec<Row>, NoMemory>
    requires left { AreOf left.now tables.now.present.relations }
    requires right { AreOf right.now tables.now.present.relations }
    ensures value { let db = tables.now.present.relations in
        let shared = set.intersection (view_names left.now) (view_names right.now) in
        let pairs = pairs_on shared (get left.now db) (get right.now db) in
        IfOk result (λ parts. set.from_list parts.items ≡ project kept.now pairs) }
    ensures walked { let db = tables.now.present.relations in
        walked.new ≤ walked.old + (rows_under left.now db + rows_under right.now db) }
    ensures walks_on { walked.old ≤ walked.new }
{
    let left_rows = row_set_in(alloc, left, tables, walked)?;
    let right_rows = row_set_in(alloc, right, tables, walked)?;
    let left_side = side(left, &left_rows);
    let right_side = side(right, &right_rows);
    joined_parts(alloc, &left_side, &right_side, kept)
}

/// The rows of the lens on which the predicate holds, in no certain order and perhaps more than
/// once. It is tested before a column is dropped and before rows are joined, so that few are made
/// only to be left out, and on the pairs, since perhaps neither side shows all of its columns.
#[cycle(rows)]
pub(crate) fn selected_in<L: Ledger>(
    alloc: Global,
    pred: &Pred,
    of: &TypedLens,
    tables: &Tables,
    walked: &mut Steps<L>,
) -> Result<Vec<Row>, NoMemory>
    requires columns { PredWithin pred.now (view_names of.now) }
    requires tables { AreOf of.now tables.now.present.relations }
    ensures value { let shown = get (select pred.now of.now) tables.now.present.relations in
        IfOk result (λ rows. set.from_list rows.items ≡ shown) }
    ensures walked { walked.new ≤ walked.old + rows_under of.now tables.now.present.relations }
    ensures walks_on { walked.old ≤ walked.new }
{
    match of.node() {
        Node::Drop { of: source, .. } => {
            selected_parts_in(alloc, pred, names_of(of), source, tables, walked)
        }
        Node::Join { left, right, .. } => {
            selected_pairs_in(alloc, pred, names_of(of), left, right, tables, walked)
        }
        Node::Base { .. } | Node::Select { .. } | Node::Rename { .. } => {
            Ok(selected(pred, rows_in(alloc, of, tables, walked)?))
        }
    }
}

// The parts in these columns of the rows of the lens on which the predicate holds, which mentions
// none but these columns.
#[cycle(rows)]
fn selected_parts_in<L: Ledger>(
    alloc: Global,
    pred: &Pred,
    kept: &Names,
    lens: &TypedLens,
    tables: &Tables,
    walked: &mut Steps<L>,
) -> Result<Vec<Row>, NoMemory>
    requires kept { PredWithin pred.now kept.now }
    requires shown { PredWithin pred.now (view_names lens.now) }
    requires tables { AreOf lens.now tables.now.present.relations }
    ensures value { let some = get (select pred.now lens.now) tables.now.present.relations in
        IfOk result (λ parts. set.from_list parts.items ≡ project kept.now some) }
    ensures walked { walked.new ≤ walked.old + rows_under lens.now tables.now.present.relations }
    ensures walks_on { walked.old ≤ walked.new }
{
    match lens.node() {
        Node::Join { left, right, .. } => {
            selected_pairs_in(alloc, pred, kept, left, right, tables, walked)
        }
        Node::Base { .. } | Node::Select { .. } | Node::Drop { .. } | Node::Rename { .. } => {
            let rows = selected_in(alloc, pred, lens, tables, walked)?;
            parts(alloc, kept, rows)
        }
    }
}

// The parts in these columns on which the predicate holds, of the pairs of those rows of both lenses
// that it needs. It mentions none but these columns.
#[cycle(rows)]
fn selected_pairs_in<L: Ledger>(
    alloc: Global,
    pred: &Pred,
    kept: &Names,
    left: &TypedLens,
    right: &TypedLens,
    tables: &Tables,
    walked: &mut Steps<L>,
) -> Result<Vec<Row>, NoMemory>
    requires kept { PredWithin pred.now kept.now }
    requires left { AreOf left.now tables.now.present.relations }
    requires right { AreOf right.now tables.now.present.relations }
    ensures value { let db = tables.now.present.relations in
        let shared = set.intersection (view_names left.now) (view_names right.now) in
        let pairs = pairs_on shared (rows_for pred.now left.now db) (rows_for pred.now right.now db) in
        IfOk result (λ parts.
        set.from_list parts.items ≡ those (holds pred.now) (project kept.now pairs)) }
    ensures walked { let db = tables.now.present.relations in
        walked.new ≤ walked.old + (rows_under left.now db + rows_under right.now db) }
    ensures walks_on { walked.old ≤ walked.new }
{
    let left_rows = side_in(alloc, pred, left, tables, walked)?;
    let right_rows = side_in(alloc, pred, right, tables, walked)?;
    let left_side = side(left, &left_rows);
    let right_side = side(right, &right_rows);
    let parts = joined_parts(alloc, &left_side, &right_side, kept)?;
    if is_tested(alloc, pred, left, right)? {
        return Ok(parts);
    }
    Ok(selected(pred, parts))
}

// Whether the rows of one of the sides are tested before they are joined, since it shows each column
// that the predicate mentions. Then the predicate holds on the pairs too.
fn is_tested(
    alloc: Global,
    pred: &Pred,
    left: &TypedLens,
    right: &TypedLens,
) -> Result<bool, NoMemory>
    ensures { IfOk result (λ so. so ≡ (set.is_subset (mentioned pred.now) (view_names left.now)
        || set.is_subset (mentioned pred.now) (view_names right.now))) }
{
    let tested = pred.mentions(alloc)?;
    Ok(tested.within(names_of(left)) || tested.within(names_of(right)))
}

// The side of a join that has these rows of the lens.
fn side<'a>(lens: &'a TypedLens, rows: &'a RowSet) -> Side<'a>
    ensures rows { result.rows.now ≡ rows.now }
    ensures cols { result.cols.now ≡ view_names lens.now }
    ensures typed { IsTyped lens.now }
{
    let cols = lens.sort().cols().name_set();
    Side { rows, cols }
}

// The rows of one side of a join: where it shows each column that the predicate mentions, only
// those on which the predicate holds, since no pair of another row is kept.
#[cycle(rows)]
fn side_in<L: Ledger>(
    alloc: Global,
    pred: &Pred,
    side: &TypedLens,
    tables: &Tables,
    walked: &mut Steps<L>,
) -> Result<RowSet, NoMemory>
    requires { AreOf side.now tables.now.present.relations }
    ensures value { let needed = rows_for pred.now side.now tables.now.present.relations in
        IfOk result (λ rows. rows ≡ needed) }
    ensures walked { walked.new ≤ walked.old + rows_under side.now tables.now.present.relations }
    ensures walks_on { walked.old ≤ walked.new }
{
    let mentioned = pred.mentions(alloc)?;
    if mentioned.within(names_of(side)) {
        RowSet::new(alloc, selected_in(alloc, pred, side, tables, walked)?)
    } else {
        row_set_in(alloc, side, tables, walked)
    }
}

// Those of the rows on which the predicate holds.
fn selected(pred: &Pred, rows: Vec<Row>) -> Vec<Row>
    ensures { result.items ≡ filter (holds pred.now) rows.items }
{
    let mut rows = rows;
    rows.retain(|row| pred.holds(row));
    rows
}

// Each row's part in these columns. A row is freed as soon as its part is made, and the next part
// takes its memory.
fn parts(alloc: Global, cols: &Names, rows: Vec<Row>) -> Result<Vec<Row>, NoMemory>
    ensures { IfOk result (λ parts. parts.items ≡ map (restrict cols.now) rows.items) }
{
    let mut parts = Vec::with_capacity(alloc, rows.len())?;
    for row in rows {
        parts.push(into_part(alloc, cols, row)?)?;
    }
    Ok(parts)
}

/// The row's part in these columns, which is the row itself where it has no others.
pub(crate) fn into_part(alloc: Global, cols: &Names, row: Row) -> Result<Row, NoMemory>
    ensures { IfOk result (λ part. part ≡ restrict cols.now row) }
{
    if row.names().same(cols) {
        return Ok(row);
    }
    row.project(alloc, cols)
}

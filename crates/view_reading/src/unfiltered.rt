//! Rows of which a whole view is made, before they are tested and cut.
ghost use Rattle.std.specs.Prelude.{◌≡◌, ◌+◌, ◌≤◌, IfOk, map, option_map};
ghost use Rattle.plain_values.specs.Part.{restrict};
ghost use Rattle.plain_values.specs.SortedSet as set;
ghost use Rattle.lens_specs.specs.Lens.{get, select, view_names};
ghost use Rattle.lens_laws.specs.Lenses.{AreOf};
ghost use Rattle.lens_laws.specs.Passes.{PredWithin};
ghost use Rattle.view_reading.specs.Reading.{rows_under};
ghost use Rattle.view_reading.specs.Unfiltered.{passes, passing};

use crate::reading::{rows_in, selected_in};
use base_index::Tables;
use lens_pred::Pred;
use lens_types::{Node, TypedLens};
use lens_values::{NoMemory, Row};
use std::alloc::Global;
use std::sync::ledger::Ledger;
use step_counter::Steps;

/// Rows of tables, of a join or of a part of a lens. What the lens shows are the parts of those that
/// pass the test.
#[derive(Drop)]
pub(crate) struct Unfiltered<'a> {
    /// The rows, in no certain order and perhaps more than once.
    pub(crate) rows: Vec<Row>,
    /// The test: a row passes where the predicate holds on it, or where there is none.
    pub(crate) pred: Option<&'a Pred>,
}

/// Rows whose parts in the columns that the lens shows, of those that pass the test, are the rows
/// that it shows. Each table is walked once.
pub(crate) fn unfiltered_rows<'a, L: Ledger>(
    alloc: Global,
    lens: &'a TypedLens,
    tables: &Tables,
    walked: &mut Steps<L>,
) -> Result<Unfiltered<'a>, NoMemory>
    requires { AreOf lens.now tables.now.present.relations }
    ensures value { let shown = get lens.now tables.now.present.relations in
        IfOk result (λ rows.
        set.from_list (map (restrict (view_names lens.now)) (passing rows)) ≡ shown) }
    ensures walked { walked.new ≤ walked.old + rows_under lens.now tables.now.present.relations }
    ensures walks_on { walked.old ≤ walked.new }
{
    match lens.node() {
        Node::Select { pred, of } => unfiltered_selection(alloc, pred, of, tables, walked),
        Node::Drop { of, .. } if !is_join(of) => unfiltered_source(alloc, of, tables, walked),
        Node::Base { .. } | Node::Drop { .. } | Node::Rename { .. } | Node::Join { .. } => {
            Ok(Unfiltered {
                rows: rows_in(alloc, lens, tables, walked)?,
                pred: None,
            })
        }
    }
}

// Rows whose parts in the columns that the selection shows, of those that pass the test, are the rows
// that it shows. They are tested before a column is dropped.
fn unfiltered_selection<'a, L: Ledger>(
    alloc: Global,
    pred: &'a Pred,
    of: &TypedLens,
    tables: &Tables,
    walked: &mut Steps<L>,
) -> Result<Unfiltered<'a>, NoMemory>
    requires columns { PredWithin pred.now (view_names of.now) }
    requires tables { AreOf of.now tables.now.present.relations }
    ensures value { let shown = get (select pred.now of.now) tables.now.present.relations in
        IfOk result (λ rows.
        set.from_list (map (restrict (view_names of.now)) (passing rows)) ≡ shown) }
    ensures walked { walked.new ≤ walked.old + rows_under of.now tables.now.present.relations }
    ensures walks_on { walked.old ≤ walked.new }
{
    match of.node() {
        Node::Drop { of: source, .. } if !is_join(source) => {
            unfiltered_in(alloc, pred, source, tables, walked)
        }
        Node::Base { .. }
        | Node::Select { .. }
        | Node::Drop { .. }
        | Node::Rename { .. }
        | Node::Join { .. } => unfiltered_in(alloc, pred, of, tables, walked),
    }
}

// Whether the lens is a join. Of its pairs the parts alone are made where a column is dropped, so
// that there is nothing to cut.
fn is_join(lens: &TypedLens) -> bool {
    matches!(lens.node(), Node::Join { .. })
}

// Rows of which those that pass the test are the rows that the lens shows.
fn unfiltered_source<'a, L: Ledger>(
    alloc: Global,
    lens: &'a TypedLens,
    tables: &Tables,
    walked: &mut Steps<L>,
) -> Result<Unfiltered<'a>, NoMemory>
    requires { AreOf lens.now tables.now.present.relations }
    ensures value { let shown = get lens.now tables.now.present.relations in
        IfOk result (λ rows. set.from_list (passing rows) ≡ shown) }
    ensures walked { walked.new ≤ walked.old + rows_under lens.now tables.now.present.relations }
    ensures walks_on { walked.old ≤ walked.new }
{
    match lens.node() {
        Node::Select { pred, of } => unfiltered_in(alloc, pred, of, tables, walked),
        Node::Base { .. } | Node::Drop { .. } | Node::Rename { .. } | Node::Join { .. } => {
            Ok(Unfiltered {
                rows: rows_in(alloc, lens, tables, walked)?,
                pred: None,
            })
        }
    }
}

// Rows of which those that pass the test are the rows that the selection shows. The rows of a table
// are not tested yet, so that they are gone over once, where they are tested and cut.
fn unfiltered_in<'a, L: Ledger>(
    alloc: Global,
    pred: &'a Pred,
    of: &TypedLens,
    tables: &Tables,
    walked: &mut Steps<L>,
) -> Result<Unfiltered<'a>, NoMemory>
    requires columns { PredWithin pred.now (view_names of.now) }
    requires tables { AreOf of.now tables.now.present.relations }
    ensures value { let shown = get (select pred.now of.now) tables.now.present.relations in
        IfOk result (λ rows. set.from_list (passing rows) ≡ shown) }
    ensures walked { walked.new ≤ walked.old + rows_under of.now tables.now.present.relations }
    ensures walks_on { walked.old ≤ walked.new }
{
    match of.node() {
        Node::Base { .. } => Ok(Unfiltered {
            rows: rows_in(alloc, of, tables, walked)?,
            pred: Some(pred),
        }),
        Node::Select { .. } | Node::Drop { .. } | Node::Rename { .. } | Node::Join { .. } => {
            Ok(Unfiltered {
                rows: selected_in(alloc, pred, of, tables, walked)?,
                pred: None,
            })
        }
    }
}

/// Whether the predicate holds on the row, if there is one.
pub(crate) fn passes(pred: Option<&Pred>, row: &Row) -> bool
    ensures { result ≡ passes (option_map (λ p. p.now) pred.entry) row.now }
{
    match pred {
        Some(pred) => pred.holds(row),
        None => true,
    }
}

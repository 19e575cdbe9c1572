//! Replies that report what the server did, or show what was asked for. `NoMemory` is the only
//! error.
ghost use Rattle.std.specs.Prelude.{◌≡◌, IfOk, map};
ghost use Rattle.lens_pred.specs.View.{predicate_view};
ghost use Rattle.server_specs.specs.Answer as spec;
ghost use Rattle.signed_delta.specs.Tables.{table_delta};

use crate::describing::{print_columns, print_conjuncts, print_edges, print_texts};
use crate::printing::{
    begun, begun_beside, ended, print_changes, print_flag, print_names, print_number, print_set,
    print_text,
};
use crate::reply::Reply;
use fd_tree::Edge;
use lens_pred::Formula;
use lens_values::{Columns, Names, NoMemory, Text};
use line_texts::CsvText;
use row_sets::RowSet;
use signed_delta::TableDelta;
use std::alloc::Global;

// How many bytes most rows take. A reply of longer rows grows.
const ROOM_OF_ROW: usize = 64;

fn room_of(rows: usize) -> usize {
    rows.saturating_mul(ROOM_OF_ROW)
}

fn rows_changed(changed: &[TableDelta]) -> usize {
    let mut rows = 0usize;
    for change in changed {
        rows = rows
            .saturating_add(change.delta.add().rows().len())
            .saturating_add(change.delta.remove().rows().len());
    }
    rows
}

/// The line of a definition that was taken, with the version after it.
pub(crate) fn defined_text(alloc: Global, version: u64) -> Result<Reply, NoMemory>
    ensures { IfOk result (λ reply. reply ≡ spec.text (spec.defined version)) }
{
    let mut out = begun(alloc)?;
    print_flag(&mut out, "ok", true)?;
    print_number(&mut out, "version", version)?;
    ended(out)
}

/// The line that shows these rows, at this version.
pub(crate) fn shown_text(alloc: Global, rows: &RowSet, version: u64) -> Result<Reply, NoMemory>
    ensures { IfOk result (λ reply. reply ≡ spec.text (spec.shown rows.now version)) }
{
    let mut out = begun_beside(alloc, room_of(rows.rows().len()))?;
    print_flag(&mut out, "ok", true)?;
    print_set(&mut out, "rows", rows)?;
    print_number(&mut out, "version", version)?;
    ended(out)
}

/// The line that reports these changes, and the version.
pub(crate) fn changed_text(
    alloc: Global,
    changed: &[TableDelta],
    version: u64,
) -> Result<Reply, NoMemory>
    ensures { IfOk result (λ reply.
        reply ≡ spec.text (spec.changed (map table_delta changed.now) version)) }
{
    let mut out = begun_beside(alloc, room_of(rows_changed(changed)))?;
    print_changes(&mut out, "changed", changed)?;
    print_flag(&mut out, "ok", true)?;
    print_number(&mut out, "version", version)?;
    ended(out)
}

/// The line that describes a view: its columns, dependencies and predicate, and the tables under
/// it, at this version.
pub(crate) fn described_text(
    alloc: Global,
    columns: &Columns,
    edges: &[Edge],
    conjuncts: &[Formula],
    tables: &Names,
    version: u64,
) -> Result<Reply, NoMemory>
    ensures { IfOk result (λ reply.
        reply ≡ spec.text
        (spec.described columns.now edges.now (predicate_view conjuncts.now) tables.now version)) }
{
    let mut out = begun(alloc)?;
    print_columns(&mut out, "columns", columns)?;
    print_edges(&mut out, "dependencies", edges)?;
    print_flag(&mut out, "ok", true)?;
    print_conjuncts(alloc, &mut out, "predicate", conjuncts)?;
    print_names(&mut out, "tables", tables)?;
    print_number(&mut out, "version", version)?;
    ended(out)
}

/// The line that lists the definitions as they were sent, at this version.
pub(crate) fn listed_text(
    alloc: Global,
    definitions: &[Text],
    version: u64,
) -> Result<Reply, NoMemory>
    ensures { IfOk result (λ reply. reply ≡ spec.text (spec.listed definitions.now version)) }
{
    let mut out = begun(alloc)?;
    print_texts(&mut out, "definitions", definitions)?;
    print_flag(&mut out, "ok", true)?;
    print_number(&mut out, "version", version)?;
    ended(out)
}

/// The line of a view's rows as CSV, at this version.
pub(crate) fn exported_text(alloc: Global, csv: &CsvText, version: u64) -> Result<Reply, NoMemory>
    ensures { IfOk result (λ reply. reply ≡ spec.text (spec.exported csv.now version)) }
{
    let text = csv.as_str();
    let mut out = begun_beside(alloc, text.len())?;
    print_text(&mut out, "csv", text)?;
    print_flag(&mut out, "ok", true)?;
    print_number(&mut out, "version", version)?;
    ended(out)
}

//! Rows of a view by the value in one column.
ghost use Rattle.std.specs.Prelude.{◌≡◌, ◌≤◌, ◌+◌, ℕ, true, false, filter, IfOk, Some};
ghost use Rattle.lens_specs.specs.Lens.{sort_of};
ghost use Rattle.lens_specs.specs.Names.{one};
ghost use Rattle.lens_specs.specs.Rows.{at, same_value};
ghost use Rattle.lens_laws.specs.Work.{size};
ghost use Rattle.lens_probe.specs.Reading.{rows_under};
ghost use Rattle.lens_probe.specs.Viewed.{FindsAtMost, is_left_side, shown};
ghost use Rattle.find_rows.specs.Found.{rows_with};

use lens_probe::View;
use lens_values::{Name, Names, NoMemory, Row, Value};
use row_sets::{Relation, RowSet};
use signed_delta::Look;
use std::alloc::Global;
use std::sync::ledger::Ledger;
use step_counter::Steps;

/// The rows of the view whose value in the column is this one. Where the column alone is the left
/// side of an edge of the view's sort they are found by key, and else the view is read whole.
pub fn find_rows<J: Ledger, K: Ledger>(
    alloc: Global,
    view: &View<'_>,
    col: &Name,
    value: &Value,
    looked: &mut Steps<J>,
    walked: &mut Steps<K>,
) -> Result<Relation, NoMemory>
    ensures found { IfOk result (λ found. found ≡ record (shown view.now) {
      rows = rows_with col.now value.now (shown view.now).rows;
    }) }
    ensures by_key { is_left_side (one col.now) (sort_of view.now.lens).tree ≡ true
        → walked.new ≡ walked.old }
    ensures looks { (w : ℕ) → FindsAtMost view.now w
        → looked.new ≤ looked.old + size view.now.lens w }
    ensures by_walk { is_left_side (one col.now) (sort_of view.now.lens).tree ≡ false
        → looked.new ≡ looked.old }
    ensures walks { let db = view.now.tables.present.relations in
        walked.new ≤ walked.old + rows_under view.now.lens db }
    ensures walks_on { walked.old ≤ walked.new }
{
    let cols = Names::single(alloc, col)?;
    let rows = rows_found(alloc, view, &cols, col, value, looked, walked)?;
    let columns = view.columns().copy(alloc)?;
    Ok(Relation::with_rows(columns, rows))
}

// The rows that `find_rows` returns, as a set. The columns are this column alone.
fn rows_found<J: Ledger, K: Ledger>(
    alloc: Global,
    view: &View<'_>,
    cols: &Names,
    col: &Name,
    value: &Value,
    looked: &mut Steps<J>,
    walked: &mut Steps<K>,
) -> Result<RowSet, NoMemory>
    requires { cols.now ≡ one col.now }
    ensures found { IfOk result (λ rows.
        rows ≡ rows_with col.now value.now (shown view.now).rows) }
    ensures by_key { is_left_side cols.now (sort_of view.now.lens).tree ≡ true
        → walked.new ≡ walked.old }
    ensures looks { (w : ℕ) → FindsAtMost view.now w
        → looked.new ≤ looked.old + size view.now.lens w }
    ensures by_walk { is_left_side cols.now (sort_of view.now.lens).tree ≡ false
        → looked.new ≡ looked.old }
    ensures walks { let db = view.now.tables.present.relations in
        walked.new ≤ walked.old + rows_under view.now.lens db }
    ensures walks_on { walked.old ≤ walked.new }
{
    if view.asked_by(cols) {
        let key = Row::single(alloc, col, value)?;
        return view.find(alloc, cols, &key, looked);
    }
    let all = view.read(alloc, walked)?.into_rows();
    with_value(alloc, all, col, value)
}

// Those of the rows that have the value in the column.
fn with_value(alloc: Global, rows: RowSet, col: &Name, value: &Value) -> Result<RowSet, NoMemory>
    ensures { IfOk result (λ some. some ≡ rows_with col.now value.now rows) }
{
    let some = kept(alloc, rows.into_rows(), col, value)?;
    Ok(RowSet::from_rising(some))
}

// Those of the rows of a list that have the value in the column.
fn kept(alloc: Global, rows: Vec<Row>, col: &Name, value: &Value) -> Result<Vec<Row>, NoMemory>
    ensures { IfOk result (λ some. some.items
        ≡ filter (λ row. same_value (Some value.now) (at row col.now)) rows.items) }
{
    let mut some = Vec::new(alloc);
    for row in rows {
        if has_value(&row, col, value) {
            some.push(row)?;
        }
    }
    Ok(some)
}

// Whether the row has the value in the column.
fn has_value(row: &Row, col: &Name, value: &Value) -> bool
    ensures { result ≡ same_value (Some value.now) (at row.now col.now) }
{
    match row.value(col) {
        Some(own) => value == own,
        None => false,
    }
}

//! Rows that are found once for all questions of an edit.
ghost use Rattle.std.specs.Prelude.{◌≡◌, ◌≤◌, ◌+◌, ◌*◌, ℕ, IfOk, IfSome, length, true};
ghost use Rattle.plain_values.specs.SortedSet as set;
ghost use Rattle.lens_specs.specs.Columns.{Fits};
ghost use Rattle.lens_specs.specs.Lens.{get, sort_of};
ghost use Rattle.lens_specs.specs.Relation.{Rows};
ghost use Rattle.lens_laws.specs.Finds.{AllFit};
ghost use Rattle.lens_laws.specs.KeyedDeltas.{find_by};
ghost use Rattle.lens_laws.specs.Work.{size};
ghost use Rattle.signed_delta.specs.Keys.{HasColumns};
ghost use Rattle.lens_probe.specs.NearRows.{AreKnown, AreOfJoin};
ghost use Rattle.lens_probe.specs.Looking.{HasFound, HasLooked, LooksWithin, MayFind, MayLook};

use crate::finding::{Query, find_in};
use base_index::Tables;
use lens_types::{Node, TypedLens, rename_row};
use lens_values::{Names, NoMemory, Row};
use row_sets::RowSet;
use std::alloc::Global;
use std::sync::ledger::Ledger;
use step_counter::Steps;

// For more rows nothing is found beforehand: each of them would be sought among all.
const FEW: usize = 8;

/// The rows of a join that agree with the key, a row of the view over it, on these columns.
#[derive(Drop)]
pub struct Near {
    cols: Names,
    key: Row,
    rows: RowSet,
}

impl Near {
    // Whether its rows are those that the query asks for.
    fn answers(&self, query: &Query<'_>) -> bool
        ensures { (M : Rows) → result ≡ true → self.now.rows ≡ find_by self.now.cols self.now.key M
            → self.now.rows ≡ find_by query.now.cols.now query.now.key.now M }
    {
        self.cols.same(query.cols) && query.key.agree_on(&self.key, query.cols)
    }
}

/// The rows that the query asks for, if they are known.
pub(crate) fn known_rows<'a>(near: &'a [Near], query: &Query<'_>) -> Option<&'a RowSet>
    ensures { (M : Rows) → AreKnown M near.now → IfSome result (λ rows.
        rows.now ≡ find_by query.now.cols.now query.now.key.now M) }
{
    for known in near {
        if known.answers(query) {
            return Some(&known.rows);
        }
    }
    None
}

/// What is known, and for each of the rows what `near_row` finds. Of many rows nothing is found.
pub(crate) fn near_each<L: Ledger>(
    alloc: Global,
    lens: &TypedLens,
    tables: &Tables,
    rows: &RowSet,
    known: Vec<Near>,
    looked: &mut Steps<L>,
) -> Result<Vec<Near>, NoMemory>
    requires may { MayLook lens.now tables.now.present }
    requires fit { AllFit (sort_of lens.now).columns rows.now }
    requires known { AreOfJoin lens.now tables.now.present known.items }
    ensures near { IfOk result (λ near. AreOfJoin lens.now tables.now.present near.items) }
    ensures looks { (w : ℕ) → LooksWithin lens.now tables.now.present w
        → looked.new ≤ looked.old + size lens.now w * length (set.items rows.now) }
{
    let mut near = known;
    if rows.rows().len() > FEW {
        return Ok(near);
    }
    for row in rows.rows() {
        near = near_row(alloc, lens, tables, row, near, looked)?;
    }
    Ok(near)
}

// What is known, and what the first join down the lens shows by the key of the row, if a column is
// dropped over the join.
fn near_row<L: Ledger>(
    alloc: Global,
    lens: &TypedLens,
    tables: &Tables,
    row: &Row,
    known: Vec<Near>,
    looked: &mut Steps<L>,
) -> Result<Vec<Near>, NoMemory>
    requires may { MayLook lens.now tables.now.present }
    requires fits { Fits (sort_of lens.now).columns row.now }
    requires known { AreOfJoin lens.now tables.now.present known.items }
    ensures near { IfOk result (λ near. AreOfJoin lens.now tables.now.present near.items) }
    ensures looks { HasLooked lens.now tables.now.present looked.old looked.new }
{
    match lens.node() {
        Node::Select { of, .. } => near_row(alloc, of, tables, row, known, looked),
        Node::Rename { col, to, of } => {
            let old_row = rename_row(alloc, row, to, col)?;
            near_row(alloc, of, tables, &old_row, known, looked)
        }
        Node::Drop { by, of, .. } => {
            let query = Query {
                tables,
                cols: by,
                key: row,
            };
            near_part(alloc, of, &query, known, looked)
        }
        Node::Base { .. } | Node::Join { .. } => Ok(known),
    }
}

// What is known, and the rows of the first join down the lens that the query asks for, if no rename
// stands over the join.
fn near_part<L: Ledger>(
    alloc: Global,
    lens: &TypedLens,
    query: &Query<'_>,
    known: Vec<Near>,
    looked: &mut Steps<L>,
) -> Result<Vec<Near>, NoMemory>
    requires asked { MayFind lens.now query.now.tables.now.present query.now.cols.now }
    requires key { HasColumns query.now.cols.now query.now.key.now }
    requires known { AreOfJoin lens.now query.now.tables.now.present known.items }
    ensures near { IfOk result (λ near.
        AreOfJoin lens.now query.now.tables.now.present near.items) }
    ensures looks { let st = query.now.tables.now.present in
        HasFound lens.now st query.now.cols.now looked.old looked.new }
{
    match lens.node() {
        Node::Select { of, .. } => near_part(alloc, of, query, known, looked),
        Node::Drop { of, .. } => near_part(alloc, of, query, known, looked),
        Node::Join { .. } => near_pairs(alloc, lens, query, known, looked),
        Node::Base { .. } | Node::Rename { .. } => Ok(known),
    }
}

// What is known, and the rows of the join that the query asks for. They are not sought again if they
// are known.
fn near_pairs<L: Ledger>(
    alloc: Global,
    join: &TypedLens,
    query: &Query<'_>,
    known: Vec<Near>,
    looked: &mut Steps<L>,
) -> Result<Vec<Near>, NoMemory>
    requires asked { MayFind join.now query.now.tables.now.present query.now.cols.now }
    requires key { HasColumns query.now.cols.now query.now.key.now }
    requires known { AreKnown (get join.now query.now.tables.now.present.relations) known.items }
    ensures near { IfOk result (λ near.
        AreKnown (get join.now query.now.tables.now.present.relations) near.items) }
    ensures looks { let st = query.now.tables.now.present in
        HasFound join.now st query.now.cols.now looked.old looked.new }
{
    if known_rows(&known, query).is_some() {
        return Ok(known);
    }
    let rows = find_in(alloc, join, &[], query, looked)?;
    let cols = query.cols.copy(alloc)?;
    let key = query.key.copy(alloc)?;
    let mut near = known;
    near.push(Near { cols, key, rows })?;
    Ok(near)
}

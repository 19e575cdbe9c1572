//! Whether a view has a row.
ghost use Rattle.std.specs.Prelude.{◌≡◌, IfOk};
ghost use Rattle.std.specs.List.{list_any};
ghost use Rattle.lens_specs.specs.Columns.{Fits};
ghost use Rattle.lens_specs.specs.Lens.{get, sort_of, view_names};
ghost use Rattle.lens_specs.specs.Relation.{has};
ghost use Rattle.lens_specs.specs.Rows.{agree};
ghost use Rattle.lens_probe.specs.NearRows.{AreOfJoin};
ghost use Rattle.lens_probe.specs.Looking.{HasLooked, MayLook};

use crate::finding::{Query, find_in};
use crate::near::Near;
use base_index::Tables;
use lens_types::{Node, TypedLens, rename_row};
use lens_values::{NoMemory, Row};
use std::alloc::Global;
use std::sync::ledger::Ledger;
use step_counter::Steps;
use view_reading::names_of;

/// Whether the row is among those that the lens shows of the tables.
pub(crate) fn has_in<L: Ledger>(
    alloc: Global,
    lens: &TypedLens,
    near: &[Near],
    tables: &Tables,
    row: &Row,
    looked: &mut Steps<L>,
) -> Result<bool, NoMemory>
    requires near { AreOfJoin lens.now tables.now.present near.now }
    requires may { MayLook lens.now tables.now.present }
    requires fits { Fits (sort_of lens.now).columns row.now }
    ensures there { let shown = get lens.now tables.now.present.relations in
        IfOk result (λ there. there ≡ has shown row.now) }
    ensures looks { HasLooked lens.now tables.now.present looked.old looked.new }
{
    match lens.node() {
        Node::Base { table, .. } => Ok(tables.has(table, row, looked)),
        Node::Select { pred, of } => {
            if !pred.holds(row) {
                return Ok(false);
            }
            has_in(alloc, of, near, tables, row, looked)
        }
        Node::Drop { by, of, .. } => {
            let query = Query {
                tables,
                cols: by,
                key: row,
            };
            let found = find_in(alloc, of, near, &query, looked)?;
            Ok(any_agrees(lens, found.rows(), row))
        }
        Node::Rename { col, to, of } => {
            let old_row = rename_row(alloc, row, to, col)?;
            has_in(alloc, of, near, tables, &old_row, looked)
        }
        Node::Join { left, right, .. } => {
            let left_row = row.project(alloc, names_of(left))?;
            if !has_in(alloc, left, &[], tables, &left_row, looked)? {
                return Ok(false);
            }
            let right_row = row.project(alloc, names_of(right))?;
            has_in(alloc, right, &[], tables, &right_row, looked)
        }
    }
}

// Whether one of the rows agrees with this one in the columns that the lens shows.
fn any_agrees(lens: &TypedLens, rows: &[Row], row: &Row) -> bool
    ensures { result ≡ list_any (agree (view_names lens.now) row.now) rows.now }
{
    let shown = names_of(lens);
    rows.iter().any(|other| row.agree_on(other, shown))
}

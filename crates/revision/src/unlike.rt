//! New rows by which an edge may change something.
ghost use Rattle.std.specs.Prelude.{◌≡◌, IfOk};
ghost use Rattle.plain_values.specs.SortedSet as set;
ghost use Rattle.revision.specs.FirstByKey.{IsFirstByKey};
ghost use Rattle.revision.specs.Near.{is_like_first, unlike};

use crate::first_by_key::{first_by_key, first_like};
use fd_tree::Edge;
use lens_values::{NoMemory, Row};
use row_sets::RowSet;
use std::alloc::Global;
use std::collections::BTreeMap;

/// The new rows by which the edge may change something: all but those for which the first near row
/// that agrees on its left side agrees on its right side too. A map by keys finds that row.
pub fn unlike_rows(
    alloc: Global,
    edge: &Edge,
    near: &RowSet,
    plus: &RowSet,
) -> Result<RowSet, NoMemory>
    ensures { IfOk result (λ rows. rows ≡ unlike edge.now near.now plus.now) }
{
    let places = first_by_key(alloc, near.rows(), &edge.left)?;
    let mut rows = Vec::new(alloc);
    for row in plus.rows() {
        if !is_like_first(alloc, edge, near, row, &places)? {
            rows.push(row.copy(alloc)?)?;
        }
    }
    Ok(RowSet::from_rising(rows))
}

// Whether there is such a row for the new one. The map has the first near row for each left side.
fn is_like_first(
    alloc: Global,
    edge: &Edge,
    near: &RowSet,
    row: &Row,
    places: &BTreeMap<Row, usize>,
) -> Result<bool, NoMemory>
    requires { IsFirstByKey edge.now.left (set.items near.now) places.now }
    ensures { IfOk result (λ like. like ≡ is_like_first edge.now near.now row.now) }
{
    let first = first_like(alloc, near, &edge.left, row, places)?;
    match first {
        None => Ok(false),
        Some(first) => Ok(first.agree_on(row, &edge.right)),
    }
}

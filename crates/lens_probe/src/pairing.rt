//! Rows of the sides of a join, put together.
ghost use Rattle.std.specs.Prelude.{◌≡◌, ◌++◌, IfOk, OnOk, filter, map};
ghost use Rattle.lens_specs.specs.Rows.{agree};
ghost use Rattle.lens_probe.specs.Looking.{both_of};

use crate::finding::Query;
use lens_values::{Names, NoMemory, Row};
use row_sets::pasted_part;
use std::alloc::Global;

/// Adds what is kept of the row, which is of the left side or of the right one, put together with
/// each of the others, where it agrees with the key.
pub(crate) fn add_pairs(
    alloc: Global,
    row: &Row,
    is_left: bool,
    others: &[Row],
    kept: &Names,
    query: &Query<'_>,
    pairs: &mut Vec<Row>,
) -> Result<(), NoMemory>
    ensures { let all = map (both_of is_left kept.now row.now) others.now in
        let agreeing = filter (agree query.now.cols.now query.now.key.now) all in
        OnOk result (pairs.new.items ≡ pairs.old.items ++ agreeing) }
{
    for other in others {
        let both = put_together(alloc, row, is_left, other, kept)?;
        if query.key.agree_on(&both, query.cols) {
            pairs.push(both)?;
        }
    }
    Ok(())
}

// What is kept of the row put together with one of the other side.
fn put_together(
    alloc: Global,
    row: &Row,
    is_left: bool,
    other: &Row,
    kept: &Names,
) -> Result<Row, NoMemory>
    ensures { IfOk result (λ both. both ≡ both_of is_left kept.now row.now other.now) }
{
    if is_left {
        pasted_part(alloc, row, other, kept)
    } else {
        pasted_part(alloc, other, row, kept)
    }
}

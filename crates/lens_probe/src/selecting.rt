//! Selections of rows that a look-up finds.
ghost use Rattle.std.specs.Prelude.{◌≡◌, IfOk};
ghost use Rattle.std.specs.List.{list_all};
ghost use Rattle.lens_specs.specs.Predicate.{holds};
ghost use Rattle.lens_specs.specs.Relation.{those};

use lens_pred::Pred;
use lens_values::{NoMemory, Row};
use row_sets::RowSet;
use std::alloc::Global;

/// Those of the rows that the predicate holds on.
pub(crate) fn selected(alloc: Global, pred: &Pred, rows: RowSet) -> Result<RowSet, NoMemory>
    ensures { IfOk result (λ some. some ≡ those (holds pred.now) rows) }
{
    // Mostly it holds on each of them, and then nothing is allocated.
    if all_hold(pred, rows.rows()) {
        return Ok(rows);
    }
    let mut some = Vec::new(alloc);
    for row in rows.rows() {
        if pred.holds(row) {
            some.push(row.copy(alloc)?)?;
        }
    }
    Ok(RowSet::from_rising(some))
}

// Whether the predicate holds on each of the rows.
fn all_hold(pred: &Pred, rows: &[Row]) -> bool
    ensures { result ≡ list_all (holds pred.now) rows.now }
{
    rows.iter().all(|row| pred.holds(row))
}

//! The first row for each key, where the key of a row is its values in some columns.
ghost use Rattle.std.specs.Prelude.{◌≡◌, IfOk, option_copied};
ghost use Rattle.plain_values.specs.SortedSet as set;
ghost use Rattle.lens_specs.specs.Relation.{first_row};
ghost use Rattle.lens_specs.specs.Rows.{agree};
ghost use Rattle.revision.specs.FirstByKey.{IsFirstByKey};

use lens_values::{Names, NoMemory, Row};
use row_sets::RowSet;
use std::alloc::Global;
use std::collections::BTreeMap;

/// For each key, the values that a row has in the columns, the place of the first row that has it.
pub fn first_by_key(
    alloc: Global,
    rows: &[Row],
    cols: &Names,
) -> Result<BTreeMap<Row, usize>, NoMemory>
    ensures { IfOk result (λ places. IsFirstByKey cols.now rows.now places) }
{
    let mut places = BTreeMap::new(alloc);
    for place in (0..rows.len()).rev() {
        let key = rows[place].project(alloc, cols)?;
        places.insert(key, place)?;
    }
    Ok(places)
}

/// The first of the rows that agrees with this one on the columns. The map has for each key there
/// the place of the first row.
pub fn first_like<'a>(
    alloc: Global,
    rows: &'a RowSet,
    cols: &Names,
    row: &Row,
    places: &BTreeMap<Row, usize>,
) -> Result<Option<&'a Row>, NoMemory>
    requires { IsFirstByKey cols.now (set.items rows.now) places.now }
    ensures { IfOk result (λ first. option_copied first
        ≡ first_row (agree cols.now row.now) rows.now) }
{
    let key = row.project(alloc, cols)?;
    match places.get(&key) {
        None => Ok(None),
        Some(place) => Ok(Some(&rows.rows()[*place])),
    }
}

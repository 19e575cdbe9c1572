//! The values that a row has in some columns: their hash, and how the values of two rows compare.
ghost use Rattle.std.specs.Prelude.{◌≡◌, option_copied};
ghost use Rattle.std.specs.FinMap as finmap;
ghost use Rattle.std.specs.Option.{option_cmp};
ghost use Rattle.plain_values.specs.Value.{value_cmp};
ghost use Rattle.key_index.specs.Key.{cells_cmp, hash_key, key_of};

use lens_values::{Name, Names, Row, Value, hash_value};
use std::cmp::Ordering;

/// The hash of the values that the row has in these columns, in their order.
#[tactic(auto, unfolding(crate::specs::Key::hash_key))]
pub fn hash_cells(row: &Row, cols: &Names) -> u64
    ensures { result ≡ hash_key (key_of cols.now row.now) }
{
    let names = cols.as_slice();
    let mut hash = 0;
    for place in 0..names.len() {
        if let Some(value) = cell(row, &names[place], place) {
            hash = hash_value(hash, value);
        }
    }
    hash
}

/// How what the row has in its columns stands to what the other has in those beside it.
pub fn cells_cmp(row: &Row, cols: &Names, other: &Row, others: &Names) -> Ordering
    ensures { result ≡ cells_cmp (key_of cols.now row.now) (key_of others.now other.now) }
{
    let own_cols = cols.as_slice();
    let other_cols = others.as_slice();
    for place in 0..own_cols.len().min(other_cols.len()) {
        let own_cell = cell(row, &own_cols[place], place);
        let other_cell = cell(other, &other_cols[place], place);
        match cell_cmp(own_cell, other_cell) {
            Ordering::Equal => (),
            order => return order,
        }
    }
    own_cols.len().cmp(&other_cols.len())
}

// How a cell stands to another. No value is before each value.
fn cell_cmp(cell: Option<&Value>, other: Option<&Value>) -> Ordering
    ensures { result ≡ option_cmp value_cmp (option_copied cell.entry) (option_copied other.entry) }
{
    match (cell, other) {
        (Some(value), Some(its)) => value.cmp(its),
        (Some(_), None) => Ordering::Greater,
        (None, Some(_)) => Ordering::Less,
        (None, None) => Ordering::Equal,
    }
}

// The row's value under the name. The name stands at `place` in the key, and mostly also in a row
// of few columns, so that place is tried first.
fn cell<'a>(row: &'a Row, name: &Name, place: usize) -> Option<&'a Value>
    ensures { option_copied result ≡ finmap.get row.now name.now }
{
    let own = row.names().as_slice();
    if place < own.len() && own[place] == *name {
        return row.values().get(place);
    }
    row.value(name)
}

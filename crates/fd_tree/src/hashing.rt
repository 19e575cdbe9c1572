//! A hash of the values that a row has in some columns. Rows that agree there have one hash, and
//! others seldom do.
ghost use Rattle.std.specs.Prelude.{◌≡◌};
ghost use Rattle.fd_tree.specs.RowHash.{hash_row};

use lens_values::{Names, Row, hash_number, hash_value};

/// The hash of the values that the row has in the columns.
#[tactic(auto, unfolding(crate::specs::RowHash::hash_row))]
pub fn hash_row(row: &Row, cols: &Names) -> u64
    ensures { result ≡ hash_row cols.now row.now }
{
    let mut hash = 0;
    for name in cols.as_slice() {
        hash = match row.value(name) {
            None => hash_number(hash, 0),
            Some(value) => hash_value(hash, value),
        };
    }
    hash
}

//! A relation as its columns and its rows.
ghost use Rattle.std.specs.Prelude.{◌≡◌};
ghost use Rattle.lens_specs.specs.Relation.{IsRelation};

use lens_values::Columns;
use row_sets::{Relation, RowSet};

/// The columns of the relation, and its rows, which fit them.
pub fn columns_and_rows(relation: &Relation) -> (&Columns, &RowSet)
    ensures columns { result.0.now ≡ relation.now.columns }
    ensures rows { result.1.now ≡ relation.now.rows }
    ensures fit { IsRelation relation.now }
{
    (relation.columns(), relation.rows())
}

//! The columns of a view.
ghost use Rattle.std.specs.Prelude.{◌≡◌, IfOk};
ghost use Rattle.plain_values.specs.SortedSet as set;
ghost use Rattle.lens_specs.specs.Lens.{view_names};

use lens_types::TypedLens;
use lens_values::{Names, NoMemory};
use std::alloc::Global;

/// The names of the columns that the lens shows.
pub fn names_of(lens: &TypedLens) -> &Names
    ensures { result.now ≡ view_names lens.now }
{
    lens.sort().cols().name_set()
}

/// The names of the columns that both lenses show.
pub fn shared_names(alloc: Global, left: &TypedLens, right: &TypedLens) -> Result<Names, NoMemory>
    ensures { IfOk result (λ shared.
        shared ≡ set.intersection (view_names left.now) (view_names right.now)) }
{
    names_of(left).meet(alloc, names_of(right))
}

//! The sets of columns by which a view is asked from above.
ghost use Rattle.std.specs.Prelude.{◌≡◌, List, []};
ghost use Rattle.std.specs.Coded.{coded_list};
ghost use Rattle.std.specs.Borrow.{ftrue};
ghost use Rattle.lens_specs.specs.Names as names;
ghost use Rattle.fd_closure.specs.Sides.{coded_names};
ghost use Rattle.lens_probe.specs.Handed.{to_first, to_second};

use lens_types::TypedLens;
use std::marker::Model;

/// The sets of columns that were handed down to a view. Proofs alone read them: it takes no memory,
/// and its methods do nothing at run time.
#[derive(Drop)]
pub struct HandedDown {
    pub ghost sets: { List names.Names } by { coded_list coded_names },
}

impl Model for HandedDown {
    ghost also_owns = { λ _. ftrue };
}

impl HandedDown {
    /// What is handed down to the view of a whole lens: no set.
    pub fn none() -> HandedDown
        ensures { result.sets ≡ [] }
    {
        HandedDown {}
    }

    /// A copy, with equal sets.
    pub fn copy(&self) -> HandedDown
        ensures { result.sets ≡ self.now.sets }
    {
        HandedDown {}
    }

    /// What a view of the lens hands down to its only source, or to its left side.
    pub fn to_first(&self, _lens: &TypedLens) -> HandedDown
        ensures { result.sets ≡ to_first _lens.now self.now.sets }
    {
        HandedDown {}
    }

    /// What a view of the lens hands down to its right side.
    pub fn to_second(&self, _lens: &TypedLens) -> HandedDown
        ensures { result.sets ≡ to_second _lens.now self.now.sets }
    {
        HandedDown {}
    }
}

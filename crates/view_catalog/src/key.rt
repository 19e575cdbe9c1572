//! A name as the key of a map that hashes.

use lens_values::Name;
use std::hash::{Hash, Hasher};

/// The name of a table or of a view.
#[derive(Clone, Copy, PartialEq, Eq)]
pub struct Key {
    /// The name.
    pub name: Name,
}

impl Hash for Key {
    ghost use Rattle.std.specs.Cmp.Lexicographic.{pointwise};
    ghost use Rattle.std.specs.Hash as fed;
    ghost use Rattle.view_catalog.specs.Keys.{same_name};

    ghost hash_input = { λ key. fed.str key.name };

    ghost respects_eq = { λ a b. same_name a b };

    fn hash<H: Hasher>(&self, state: &mut H) {
        self.name.as_str().hash(state);
    }
}

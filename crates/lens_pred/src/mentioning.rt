//! What a predicate mentions.
ghost use Rattle.std.specs.Prelude.{◌≡◌, ◌++◌, IfOk, find};
ghost use Rattle.lens_specs.specs.Predicate.{mentioned, mentions as mentions_of, names_of};
ghost use Rattle.lens_specs.specs.Refusal.{least_mentioned};
ghost use Rattle.lens_pred.specs.Sought.{passes};

use crate::naming::{Sought, append_names_of, first_name_in};
use crate::pred::Pred;
use lens_values::{Name, Names, NoMemory};
use std::alloc::Global;

impl Pred {
    /// The names that occur in the predicate.
    pub fn mentions(&self, alloc: Global) -> Result<Names, NoMemory>
        ensures { IfOk result (λ names. names ≡ mentioned self.now) }
    {
        let mut list = Vec::new(alloc);
        append_names_of(self.conjuncts(), &mut list)?;
        Names::new(alloc, list)
    }

    /// The least of these columns that the predicate mentions.
    pub fn mentions_any(&self, cols: &Names) -> Option<Name>
        ensures { result ≡ least_mentioned self.now cols.now }
    {
        cols.as_slice()
            .iter()
            .copied()
            .find(|name| self.mentions_name(name))
    }

    /// Whether the name occurs in the predicate.
    pub fn mentions_name(&self, name: &Name) -> bool
        ensures { result ≡ mentions_of self.now name.now }
    {
        self.first_name(Sought::Is(name)).is_some()
    }

    /// The first name in text order that is sought.
    pub(crate) fn first_name(&self, sought: Sought<'_>) -> Option<Name>
        ensures { result ≡ find (passes sought.entry) (names_of self.now) }
    {
        first_name_in(self.conjuncts(), sought)
    }
}

//! Names that are among others.
ghost use Rattle.std.specs.Prelude.{◌≡◌, find, option_copied};
ghost use Rattle.plain_values.specs.SortedSet as set;

use lens_values::{Name, Names};

/// The first of the names that is among the others.
pub fn first_among<'a>(names: &'a [Name], others: &Names) -> Option<&'a Name>
    ensures { option_copied result ≡ find (set.contains others.now) names.now }
{
    names.iter().find(|name| others.has(name))
}

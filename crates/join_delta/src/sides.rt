//! The columns of the two sides of a join.
ghost use Rattle.std.specs.Prelude.{IfOk};
ghost use Rattle.join_delta.specs.Pairs.{AreSides};

use lens_values::{Columns, Names, NoMemory};
use std::alloc::Global;

/// The names of the columns of each source, and those that they share.
#[derive(Drop)]
pub struct Sides {
    /// The names of the left source's columns.
    pub left: Names,
    /// The names of the right source's columns.
    pub right: Names,
    /// The shared names.
    pub shared: Names,
}

/// The sides of a join of sources with these columns.
pub fn sides_of(alloc: Global, left: &Columns, right: &Columns) -> Result<Sides, NoMemory>
    ensures { IfOk result (λ sides. AreSides left.now right.now sides) }
{
    let left = left.names(alloc)?;
    let right = right.names(alloc)?;
    let shared = left.meet(alloc, &right)?;
    Ok(Sides {
        left,
        right,
        shared,
    })
}

//! Why an edit of a view is rejected.

use fd_tree::Clash;
use lens_values::{NoMemory, Row};
use thiserror::Error;

/// Why an edit of a view is refused.
#[derive(Debug, Drop, Error)]
pub enum EditFault {
    /// The view's predicate rejects an added row.
    #[error("the view's predicate rejects an added row")]
    OffPredicate {
        /// The least such row.
        row: Row,
    },
    /// Two rows of the new view agree on the left side of an edge and not on its right side.
    #[error("two rows violate the dependency at place {}", .clash.edge)]
    Clash {
        /// The first such edge, by its place, with the least such rows.
        clash: Clash,
    },
    /// Memory ran out.
    #[error("memory ran out")]
    NoMemory,
}

impl From<NoMemory> for EditFault {
    ghost use Rattle.std.specs.Prelude.{◌≡◌};
    ghost use Rattle.edit_check.specs.declared.edit_fault.EditFault.TheVariants as fault;

    ghost from_gives = { λ _ why. why ≡ fault.NoMemory };

    fn from(_: NoMemory) -> EditFault {
        EditFault::NoMemory
    }
}

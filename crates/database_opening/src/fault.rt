//! Why no database is opened.
ghost use Rattle.std.specs.Prelude.{◌≡◌};
ghost use Rattle.database_opening.specs.declared.fault.OpenFault.TheVariants as variant;

use crate::damage::Damage;
use lens_values::NoMemory;
use thiserror::Error;

/// Why no database is opened over what is kept.
#[derive(Debug, Drop, Error)]
pub enum OpenFault {
    /// What is kept is damaged.
    #[error("what is kept is damaged")]
    Damaged { damage: Damage },
    /// Memory ran out.
    #[error("memory ran out")]
    NoMemory,
}

impl From<NoMemory> for OpenFault {
    ghost from_gives = { λ _ why. why ≡ variant.NoMemory };

    fn from(_: NoMemory) -> OpenFault {
        OpenFault::NoMemory
    }
}

//! Why a server is not started.
ghost use Rattle.std.specs.Prelude.{◌≡◌};
ghost use Rattle.lens_server.specs.StartFaults.{of_keeper, of_opening};
ghost use Rattle.lens_server.specs.declared.startup.fault.StartFault.TheVariants as variant;

use database_opening::{Damage, OpenFault};
use lens_values::NoMemory;
use table_keeper::KeepFault;
use thiserror::Error;

/// Why a server is not started.
#[derive(Debug, Drop, Error)]
pub enum StartFault {
    /// The keeper failed, and its count of faults rose.
    #[error("the keeper failed")]
    StoreFault,
    /// What is kept is damaged.
    #[error("what is kept is damaged")]
    Damaged { damage: Damage },
    /// Memory ran out.
    #[error("memory ran out")]
    NoMemory,
}

impl From<NoMemory> for StartFault {
    ghost from_gives = { λ _ why. why ≡ variant.NoMemory };

    fn from(_: NoMemory) -> StartFault {
        StartFault::NoMemory
    }
}

impl From<KeepFault> for StartFault {
    ghost from_gives = { λ fault why. why ≡ of_keeper fault };

    fn from(fault: KeepFault) -> StartFault {
        match fault {
            KeepFault::Failed => StartFault::StoreFault,
            KeepFault::NoMemory => StartFault::NoMemory,
        }
    }
}

impl From<OpenFault> for StartFault {
    ghost from_gives = { λ fault why. why ≡ of_opening fault };

    fn from(fault: OpenFault) -> StartFault {
        match fault {
            OpenFault::Damaged { damage } => StartFault::Damaged { damage },
            OpenFault::NoMemory => StartFault::NoMemory,
        }
    }
}

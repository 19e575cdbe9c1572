//! Why a text cannot be read.
ghost use Rattle.std.specs.Prelude.{◌≡◌};
ghost use Rattle.borrowed_json.specs.declared.fault.Fault.TheVariants as fault;

use json::Invalid;
use no_memory::NoMemory;
use std::alloc::{AllocError, AllocFailed};

/// Why a text cannot be read.
#[derive(Drop)]
pub(crate) enum Fault {
    /// It is no JSON of the wanted form.
    NotJson,
    /// Memory ran out.
    NoMemory,
}

impl From<Invalid> for Fault {
    ghost from_gives = { λ _ e. e ≡ fault.NotJson };

    fn from(_: Invalid) -> Fault {
        Fault::NotJson
    }
}

impl From<NoMemory> for Fault {
    ghost from_gives = { λ _ e. e ≡ fault.NoMemory };

    fn from(_: NoMemory) -> Fault {
        Fault::NoMemory
    }
}

impl From<AllocError> for Fault {
    ghost from_gives = { λ _ e. e ≡ fault.NoMemory };

    fn from(_: AllocError) -> Fault {
        Fault::NoMemory
    }
}

impl<T: Drop> From<AllocFailed<T>> for Fault {
    ghost from_gives = { λ _ e. e ≡ fault.NoMemory };

    fn from(_: AllocFailed<T>) -> Fault {
        Fault::NoMemory
    }
}

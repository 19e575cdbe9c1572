//! Why a text as CSV gives no rows.
ghost use Rattle.std.specs.Prelude.{◌≡◌};
ghost use Rattle.view_csv.specs.declared.fault.CsvFault.TheVariants as fault;

use no_memory::NoMemory;
use std::alloc::AllocFailed;

/// Why a text as CSV gives no rows.
#[derive(PartialEq, Eq, Drop)]
pub enum CsvFault {
    /// The record at this place, from 0, is the first wrong one.
    BadRecord { place: usize },
    /// Out of memory.
    NoMemory,
}

impl From<NoMemory> for CsvFault {
    ghost from_gives = { λ _ e. e ≡ fault.NoMemory };

    fn from(_: NoMemory) -> CsvFault {
        CsvFault::NoMemory
    }
}

impl<T: Drop> From<AllocFailed<T>> for CsvFault {
    ghost from_gives = { λ _ e. e ≡ fault.NoMemory };

    fn from(_: AllocFailed<T>) -> CsvFault {
        CsvFault::NoMemory
    }
}

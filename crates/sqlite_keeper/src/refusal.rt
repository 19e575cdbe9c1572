//! Why a database is not read or changed.
ghost use Rattle.std.specs.IoError.{error_kind};
ghost use Rattle.std.specs.declared.io.ErrorKind.TheVariants as kind;
ghost use Rattle.plain_values.specs.declared.text.TextFault.TheVariants as text;
ghost use Rattle.view_lang.specs.declared.definition.LangFault.TheVariants as lang;
ghost use Rattle.sqlite_keeper.specs.Refusals.{IsWantOfMemory, KeepsWantOfMemory, out_of_memory};

use lens_values::{NoMemory, TextFault};
use sqlite::{Error, ErrorCode};
use std::alloc::{AllocError, AllocFailed};
use std::io;
use view_lang::LangFault;

/// Why a database is not read or changed.
#[derive(Clone, Copy)]
pub enum Refusal {
    /// The database refused, or holds what is no store of this format.
    Failed,
    /// Memory ran out.
    NoMemory,
}

impl From<Error> for Refusal {
    ghost from_gives = { KeepsWantOfMemory out_of_memory };

    fn from(error: Error) -> Refusal {
        match error {
            Error::SqliteFailure(ErrorCode::OutOfMemory) => Refusal::NoMemory,
            _ => Refusal::Failed,
        }
    }
}

impl From<io::Error> for Refusal {
    ghost from_gives = { λ e. KeepsWantOfMemory kind.OutOfMemory (error_kind e) };

    fn from(error: io::Error) -> Refusal {
        match error.kind() {
            io::ErrorKind::OutOfMemory => Refusal::NoMemory,
            _ => Refusal::Failed,
        }
    }
}

impl From<AllocError> for Refusal {
    ghost from_gives = { IsWantOfMemory };

    fn from(_: AllocError) -> Refusal {
        Refusal::NoMemory
    }
}

impl<T: Drop> From<AllocFailed<T>> for Refusal {
    ghost from_gives = { IsWantOfMemory };

    fn from(_: AllocFailed<T>) -> Refusal {
        Refusal::NoMemory
    }
}

impl From<NoMemory> for Refusal {
    ghost from_gives = { IsWantOfMemory };

    fn from(_: NoMemory) -> Refusal {
        Refusal::NoMemory
    }
}

impl From<TextFault> for Refusal {
    ghost from_gives = { KeepsWantOfMemory text.NoMemory };

    fn from(fault: TextFault) -> Refusal {
        match fault {
            TextFault::NoMemory => Refusal::NoMemory,
            TextFault::TooLong | TextFault::HasNul => Refusal::Failed,
        }
    }
}

impl From<LangFault> for Refusal {
    ghost from_gives = { KeepsWantOfMemory lang.NoMemory };

    fn from(fault: LangFault) -> Refusal {
        match fault {
            LangFault::NoMemory => Refusal::NoMemory,
            LangFault::Syntax { .. } | LangFault::TooLarge { .. } => Refusal::Failed,
        }
    }
}

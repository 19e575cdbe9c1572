//! Why a definition is refused.
ghost use Rattle.std.specs.Prelude.{◌≡◌};
ghost use Rattle.view_catalog.specs.Faults.{of_refused, of_text};
ghost use Rattle.view_catalog.specs.declared.fault.CatalogFault.TheVariants as faults;

use lens_types::{Refused, TypeFault};
use lens_values::{Name, NoMemory};
use thiserror::Error;
use view_lang::LangFault;

/// Why a definition is refused.
#[derive(Debug, Drop, Error)]
pub enum CatalogFault {
    /// The text is no definition, or a limit is exceeded.
    #[error("{fault}")]
    Lang {
        /// What is wrong with it.
        fault: LangFault,
    },
    /// The name has a lens already.
    #[error("the name {} is taken", .name.as_str())]
    NameTaken {
        /// The name.
        name: Name,
    },
    /// No table and no view has the name.
    #[error("no table and no view has the name {}", .name.as_str())]
    UnknownName {
        /// The name.
        name: Name,
    },
    /// The rules give no sort.
    #[error("{fault}")]
    Rule {
        /// The first rule that is broken.
        fault: TypeFault,
    },
    /// Memory ran out.
    #[error("memory ran out")]
    NoMemory,
}

impl From<NoMemory> for CatalogFault {
    ghost from_gives = { λ _ why. why ≡ faults.NoMemory };

    fn from(_: NoMemory) -> CatalogFault {
        CatalogFault::NoMemory
    }
}

impl From<LangFault> for CatalogFault {
    ghost from_gives = { λ fault why. why ≡ of_text fault };

    fn from(fault: LangFault) -> CatalogFault {
        match fault {
            LangFault::Syntax { at } => CatalogFault::Lang {
                fault: LangFault::Syntax { at },
            },
            LangFault::TooLarge { what } => CatalogFault::Lang {
                fault: LangFault::TooLarge { what },
            },
            LangFault::NoMemory => CatalogFault::NoMemory,
        }
    }
}

impl<T: Drop> From<Refused<T>> for CatalogFault {
    ghost from_gives = { λ refused why. why ≡ of_refused refused };

    fn from(refused: Refused<T>) -> CatalogFault {
        match refused {
            Refused::Rule { fault, back: _ } => CatalogFault::Rule { fault },
            Refused::NoMemory => CatalogFault::NoMemory,
        }
    }
}

//! Why a table or a lens has no sort.
ghost use Rattle.std.specs.Prelude.{◌≡◌};
ghost use Rattle.lens_types.specs.Faults.{of_columns, of_fault, of_pred, of_split, of_tree, with_inputs};
ghost use Rattle.lens_types.specs.declared.fault.Refused.TheVariants as refused;

use fd_tree::TreeFault;
use lens_pred::{PredFault, SplitFault};
use lens_values::{ColumnsFault, Name, Names, NoMemory};
use thiserror::Error;
use view_limits::{Limit, Side};

/// Why the rules give no sort.
#[derive(Debug, Drop, Error)]
pub enum TypeFault {
    /// No column has the name.
    #[error("no column has the name {}", .name.as_str())]
    UnknownColumn {
        /// The name.
        name: Name,
    },
    /// The column is of another type than the value that fills it, or is shared by the sides of a
    /// join with another type in each.
    #[error("column {} has two types", .name.as_str())]
    KindClash {
        /// The column.
        name: Name,
    },
    /// The dependencies have no tree form, because two of their sides overlap.
    #[error("the dependencies have no tree form, because two of their sides overlap")]
    NotTree {
        /// A side of one edge.
        a: Names,
        /// A side of another.
        b: Names,
    },
    /// The column is compared with a value or a column of another type.
    #[error("column {} is compared with a value or a column of another type", .name.as_str())]
    PredKind {
        /// The column.
        name: Name,
    },
    /// A conjunct of the selected source is not steady: it mentions a column that a dependency
    /// writes, and not the right side of one dependency alone.
    #[error("a conjunct of the source mentions {} and is not stable under revision", .col.as_str())]
    SourceMentionsOutput {
        /// The least such column.
        col: Name,
    },
    /// The named columns do not determine the dropped column, or that column determines others.
    #[error("the named columns do not determine {}, or it determines others", .col.as_str())]
    NoSuchDependency {
        /// The dropped column.
        col: Name,
    },
    /// A conjunct mentions the dropped column and another one.
    #[error("conjunct {index} mentions the dropped column and another one")]
    MixedConjunct {
        /// The place of the first such conjunct, from 0.
        index: usize,
    },
    /// The conjuncts on the column do not hold on the value that fills it.
    #[error("the predicate does not hold on the value that fills the dropped column")]
    DefaultRefused,
    /// The shared columns of a join do not determine a column of its right side.
    #[error("the shared columns do not determine {} of the right side", .col.as_str())]
    NotDetermined {
        /// The least such column.
        col: Name,
    },
    /// A conjunct of a side of a join is not steady: it mentions a column that a dependency
    /// writes, and not the right side of one dependency alone.
    #[error("a conjunct of the {} side mentions {} and is not stable under revision", .side.word(), .col.as_str())]
    SideMentionsOutput {
        /// The side.
        side: Side,
        /// The least such column.
        col: Name,
    },
    /// Both sides of a join are over the table.
    #[error("both sides are over the table {}", .name.as_str())]
    TableTwice {
        /// The least such table.
        name: Name,
    },
    /// A limit is exceeded.
    #[error("{}", .what.sentence())]
    TooLarge {
        /// The limit.
        what: Limit,
    },
    /// A column has the new name already.
    #[error("there is a column {} already", .name.as_str())]
    ColumnTaken {
        /// The new name.
        name: Name,
    },
}

/// Why a call gives no sort.
#[derive(Drop)]
pub enum Refused<T> {
    /// The rules give none.
    Rule {
        /// The first fault.
        fault: TypeFault,
        /// The inputs of the call.
        back: T,
    },
    /// Memory ran out. The inputs of the call are dropped.
    NoMemory,
}

impl Refused<()> {
    /// The refusal, together with the inputs of the call.
    pub(crate) fn with<T: Drop>(self, back: T) -> Refused<T>
        ensures { result ≡ with_inputs self back }
    {
        match self {
            Refused::Rule { fault, back: () } => Refused::Rule { fault, back },
            Refused::NoMemory => Refused::NoMemory,
        }
    }
}

impl From<TypeFault> for Refused<()> {
    ghost from_gives = { λ fault why. why ≡ of_fault fault };

    fn from(fault: TypeFault) -> Refused<()> {
        Refused::Rule { fault, back: () }
    }
}

impl From<NoMemory> for Refused<()> {
    ghost from_gives = { λ _ why. why ≡ refused.NoMemory };

    fn from(_: NoMemory) -> Refused<()> {
        Refused::NoMemory
    }
}

impl From<ColumnsFault> for Refused<()> {
    ghost from_gives = { λ fault why. why ≡ of_columns fault };

    fn from(fault: ColumnsFault) -> Refused<()> {
        match fault {
            ColumnsFault::Twice { name } | ColumnsFault::KindClash { name } => {
                Refused::from(TypeFault::KindClash { name })
            }
            ColumnsFault::NoMemory => Refused::NoMemory,
        }
    }
}

impl From<TreeFault> for Refused<()> {
    ghost from_gives = { λ fault why. why ≡ of_tree fault };

    fn from(fault: TreeFault) -> Refused<()> {
        match fault {
            TreeFault::NotTree { a, b } => Refused::from(TypeFault::NotTree { a, b }),
            TreeFault::NoMemory => Refused::NoMemory,
        }
    }
}

impl From<PredFault> for Refused<()> {
    ghost from_gives = { λ fault why. why ≡ of_pred fault };

    fn from(fault: PredFault) -> Refused<()> {
        match fault {
            PredFault::UnknownColumn { name } => Refused::from(TypeFault::UnknownColumn { name }),
            PredFault::PredKind { name } => Refused::from(TypeFault::PredKind { name }),
        }
    }
}

impl From<SplitFault> for Refused<()> {
    ghost from_gives = { λ fault why. why ≡ of_split fault };

    fn from(fault: SplitFault) -> Refused<()> {
        match fault {
            SplitFault::Mixed { index } => Refused::from(TypeFault::MixedConjunct { index }),
            SplitFault::NoMemory => Refused::NoMemory,
        }
    }
}

//! Why dependencies have no tree form.
ghost use Rattle.std.specs.Prelude.{◌≡◌, ◌≢◌, IfOk};
ghost use Rattle.fd_tree.specs.declared.fault.TreeFault.TheVariants as fault;

use lens_values::{Names, NoMemory};
use std::alloc::{AllocError, AllocFailed, Global};

/// Why no tree was made.
#[derive(Debug, Drop)]
pub enum TreeFault {
    /// The dependencies have no tree form, because two of their sides overlap.
    NotTree {
        /// A side of one edge.
        a: Names,
        /// A side of another.
        b: Names,
    },
    /// Memory ran out.
    NoMemory,
}

impl From<AllocError> for TreeFault {
    ghost from_gives = { λ _ e. e ≡ fault.NoMemory };

    fn from(_: AllocError) -> TreeFault {
        TreeFault::NoMemory
    }
}

impl<T: Drop> From<AllocFailed<T>> for TreeFault {
    ghost from_gives = { λ _ e. e ≡ fault.NoMemory };

    fn from(_: AllocFailed<T>) -> TreeFault {
        TreeFault::NoMemory
    }
}

impl From<NoMemory> for TreeFault {
    ghost from_gives = { λ _ e. e ≡ fault.NoMemory };

    fn from(_: NoMemory) -> TreeFault {
        TreeFault::NoMemory
    }
}

impl TreeFault {
    /// The fault of two sides that overlap, or want of memory to copy them.
    pub(crate) fn of_sides(alloc: Global, a: &Names, b: &Names) -> TreeFault
        ensures { result ≢ fault.NoMemory → result ≡ fault.NotTree a.now b.now }
    {
        match both(alloc, a, b) {
            Ok((a, b)) => TreeFault::NotTree { a, b },
            Err(_) => TreeFault::NoMemory,
        }
    }
}

// Copies of both.
fn both(alloc: Global, a: &Names, b: &Names) -> Result<(Names, Names), NoMemory>
    ensures { IfOk result (λ copies. copies ≡ (a.now, b.now)) }
{
    Ok((a.copy(alloc)?, b.copy(alloc)?))
}

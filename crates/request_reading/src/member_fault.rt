//! Members that cannot be read.
ghost use Rattle.std.specs.Prelude.{◌≡◌, option_map};
ghost use Rattle.server_specs.specs.Request.{least_of};
ghost use Rattle.request_reading.specs.declared.member_fault.MemberFault.TheVariants as fault;

use lens_values::NoMemory;
use std::alloc::{AllocError, AllocFailed, Global};

/// Why members cannot be read: one of them is wrong, or memory ran out.
#[derive(Drop)]
pub(crate) enum MemberFault<'a> {
    Wrong { member: &'a str },
    NoMemory,
}

impl From<AllocError> for MemberFault<'_> {
    ghost from_gives = { λ _ e. e ≡ fault.NoMemory };

    fn from(_: AllocError) -> Self {
        MemberFault::NoMemory
    }
}

impl<T: Drop> From<AllocFailed<T>> for MemberFault<'_> {
    ghost from_gives = { λ _ e. e ≡ fault.NoMemory };

    fn from(_: AllocFailed<T>) -> Self {
        MemberFault::NoMemory
    }
}

impl From<NoMemory> for MemberFault<'_> {
    ghost from_gives = { λ _ e. e ≡ fault.NoMemory };

    fn from(_: NoMemory) -> Self {
        MemberFault::NoMemory
    }
}

/// The lesser of the name and the other, if there is one.
pub(crate) fn least_of<'a>(name: &'a str, other: Option<&'a str>) -> &'a str
    ensures { result.now ≡ least_of name.now (option_map (λ text. text.now) other.entry) }
{
    match other {
        Some(other) if other < name => other,
        _ => name,
    }
}

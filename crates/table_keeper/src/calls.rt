//! The calls of a keeper.
ghost use Rattle.std.specs.Prelude.{◌≡◌, ◌∷◌, []};
ghost use Rattle.io_specs.specs.Calls.{Adds};
ghost use Rattle.table_keeper.specs.Asking.{calls_kept, fault_of};

use crate::keeper::KeepFault;

/// What a keeper is asked.
#[derive(Clone, Copy, PartialEq, Eq)]
pub enum Asked {
    /// To choose where the contents lie.
    Attach,
    /// To give what is kept.
    Load,
    /// To make a change.
    Commit,
}

/// One call of a keeper.
#[derive(PartialEq, Eq, Drop)]
pub struct Call {
    /// What it was asked.
    pub asked: Asked,
    /// The fault that the call ended with, if any.
    pub fault: Option<KeepFault>,
    /// How many faults the keeper had counted then.
    pub faults: u64,
}

/// The fault that an answer is, if it is one.
pub(crate) fn fault_of<T>(answer: &Result<T, KeepFault>) -> Option<KeepFault>
    ensures { result ≡ fault_of answer.now }
{
    match answer {
        Ok(_) => None,
        Err(KeepFault::Failed) => Some(KeepFault::Failed),
        Err(KeepFault::NoMemory) => Some(KeepFault::NoMemory),
    }
}

/// Adds a call. Where there is no memory for it, no calls are kept any longer.
pub(crate) fn add_call(kept: &mut Option<Vec<Call>>, call: Call)
    ensures { Adds (λ more. more ≡ call ∷ []) (calls_kept kept.old) (calls_kept kept.new) }
{
    if let Some(calls) = kept {
        if calls.push(call).is_err() {
            *kept = None;
        }
    }
}

//! Why the server does not change a view.
ghost use Rattle.std.specs.Prelude.{◌≡◌, IfOk};
ghost use Rattle.request_text.specs.Answers.{answer_view};
ghost use Rattle.view_changes.specs.Puts.{TellsRefusal};
ghost use Rattle.view_changes.specs.declared.refusal.Refusal.TheVariants as variant;

use lens_values::NoMemory;
use request_text::{Answer, EditRefusal};

/// Why there is no change to make.
#[derive(Drop)]
pub enum Refusal {
    /// The server rejects the change.
    Rejected {
        /// Why.
        refusal: EditRefusal,
    },
    /// Memory ran out.
    NoMemory,
}

impl Refusal {
    /// The answer that names it. `NoMemory`: memory ran out.
    pub fn into_answer(self) -> Result<Answer, NoMemory>
        ensures { IfOk result (λ answer. TellsRefusal (answer_view answer) self) }
    {
        match self {
            Refusal::Rejected { refusal } => Ok(refusal.into_answer()),
            Refusal::NoMemory => Err(NoMemory),
        }
    }
}

impl From<NoMemory> for Refusal {
    ghost from_gives = { λ _ why. why ≡ variant.NoMemory };

    fn from(_: NoMemory) -> Refusal {
        Refusal::NoMemory
    }
}

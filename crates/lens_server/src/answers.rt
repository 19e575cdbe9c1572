//! Plans that give an answer alone.
ghost use Rattle.std.specs.Prelude.{◌≡◌, IfOk, None, Ok};

use database::Plan;
use lens_values::NoMemory;
use request_text::Answer;

/// The plan that gives the answer and changes nothing.
pub fn plan_answer(answer: Result<Answer, NoMemory>) -> Result<Plan, NoMemory>
    ensures answer { IfOk result (λ plan. answer ≡ Ok plan.answer) }
    ensures staged { IfOk result (λ plan. plan.staged ≡ None) }
{
    Ok(Plan::unchanged(answer?))
}

//! JSON as text.
ghost use Rattle.std.specs.Prelude.{◌≡◌, IfOk, false, string_bytes};
ghost use Rattle.serde_json.specs.View.{view};
ghost use Rattle.serde_json.specs.Written.{has_float};
ghost use Rattle.rehearsal.specs.Rehearsal.{json_text};

use lens_values::NoMemory;
use serde_json::Value as Json;
use std::alloc::Global;

/// Compact JSON.
pub(crate) fn json_text(alloc: Global, json: &Json) -> Result<String, NoMemory>
    requires { has_float (view json.now) ≡ false }
    ensures { IfOk result (λ text. string_bytes text ≡ json_text (view json.now)) }
{
    Ok(json.to_string(alloc)?)
}

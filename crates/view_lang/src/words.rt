//! The words and signs of the language that stand for a value.
ghost use Rattle.std.specs.Prelude.{◌≡◌, true, false, codes, if◌then◌else◌};
ghost use Rattle.grammar_specs.specs.Tokens.{op_bytes};
ghost use Rattle.grammar_specs.specs.Written as written;
ghost use Rattle.lens_pred.specs.Op.{op_view};

use lens_pred::Op;
use lens_values::{JoinKind, Kind};

pub fn flag_word(flag: bool) -> &'static str
    ensures { result.now ≡ (if flag then codes "true" else codes "false") }
{
    if flag { "true" } else { "false" }
}

/// The word of a kind, the same with null and without.
pub fn kind_word(kind: Kind) -> &'static str
    ensures { result.now ≡ written.kind_word kind }
{
    match kind {
        Kind::Int | Kind::IntOrNull => "int",
        Kind::Text | Kind::TextOrNull => "text",
        Kind::Flag | Kind::FlagOrNull => "bool",
    }
}

pub fn join_word(kind: JoinKind) -> &'static str
    ensures { result.now ≡ written.join_word kind }
{
    match kind {
        JoinKind::DeleteLeft => "join_dl",
        JoinKind::DeleteRight => "join_dr",
        JoinKind::DeleteBoth => "join_both",
    }
}

pub fn operator_sign(op: Op) -> &'static str
    ensures { result.now ≡ op_bytes (op_view op) }
{
    match op {
        Op::Eq => "=",
        Op::Ne => "!=",
        Op::Lt => "<",
        Op::Le => "<=",
        Op::Gt => ">",
        Op::Ge => ">=",
    }
}

//! The answers that say why the server rejects a definition or a text.
ghost use Rattle.std.specs.Prelude.{◌≡◌, ◌≢◌, IfOk, OnOk};
ghost use Rattle.lens_types.specs.Faults as types;
ghost use Rattle.request_text.specs.Answers.{answer_view};
ghost use Rattle.server_specs.specs.Answer.{refused};
ghost use Rattle.server_specs.specs.Defining.{fault_answer};
ghost use Rattle.view_catalog.specs.Faults.{fault_view, language_view};
ghost use Rattle.lens_server.specs.SheetFaults.{TellsSheet};

use lens_types::TypeFault;
use lens_values::NoMemory;
use request_text::Answer;
use view_catalog::CatalogFault;
use view_changes::SheetFault;
use view_lang::LangFault;

/// The answer that names the fault of a definition. `NoMemory`: memory ran out.
pub fn refusal(fault: CatalogFault) -> Result<Answer, NoMemory>
    ensures answer { IfOk result (λ answer.
        answer_view answer ≡ fault_answer (fault_view fault)) }
    ensures told { OnOk result (fault ≢ CatalogFault.NoMemory) }
{
    match fault {
        CatalogFault::Lang { fault } => text_refusal(fault),
        CatalogFault::NameTaken { name } => Ok(Answer::NameTaken { name }),
        CatalogFault::UnknownName { name } => Ok(Answer::UnknownName { name }),
        CatalogFault::Rule { fault } => Ok(rule_refusal(fault)),
        CatalogFault::NoMemory => Err(NoMemory),
    }
}

/// The answer that names the fault of a text, or the limit that the text exceeds.
fn text_refusal(fault: LangFault) -> Result<Answer, NoMemory>
    ensures { IfOk result (λ answer. answer_view answer ≡ fault_answer (language_view fault)) }
{
    match fault {
        LangFault::Syntax { at } => Ok(Answer::Syntax { at }),
        LangFault::TooLarge { what } => Ok(Answer::TooLarge { what }),
        LangFault::NoMemory => Err(NoMemory),
    }
}

/// The answer that names the rule that the definition breaks.
fn rule_refusal(fault: TypeFault) -> Answer
    ensures { answer_view result ≡ refused (types.fault_view fault) }
{
    match fault {
        TypeFault::UnknownColumn { name } => Answer::UnknownColumn { name },
        TypeFault::KindClash { name } => Answer::KindClash { name },
        TypeFault::NotTree { a, b } => Answer::NotTree { a, b },
        TypeFault::PredKind { name } => Answer::PredKind { name },
        TypeFault::SourceMentionsOutput { col } => Answer::SourceMentionsOutput { col },
        TypeFault::NoSuchDependency { col } => Answer::NoSuchDependency { col },
        TypeFault::MixedConjunct { index } => Answer::MixedConjunct { index },
        TypeFault::DefaultRefused => Answer::DefaultRefused,
        TypeFault::NotDetermined { col } => Answer::NotDetermined { col },
        TypeFault::SideMentionsOutput { side, col } => Answer::SideMentionsOutput { side, col },
        TypeFault::TableTwice { name } => Answer::TableTwice { name },
        TypeFault::TooLarge { what } => Answer::TooLarge { what },
        TypeFault::ColumnTaken { name } => Answer::ColumnTaken { name },
    }
}

/// The answer that says why a text gives no rows. `NoMemory`: memory ran out.
pub fn sheet_refusal(fault: SheetFault) -> Result<Answer, NoMemory>
    ensures { IfOk result (λ answer. TellsSheet (answer_view answer) fault) }
{
    match fault {
        SheetFault::NullableColumn { col } => Ok(Answer::NullableColumn { col }),
        SheetFault::BadRecord { place } => Ok(Answer::BadRecord { place }),
        SheetFault::NoMemory => Err(NoMemory),
    }
}

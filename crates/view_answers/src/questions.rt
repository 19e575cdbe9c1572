//! Questions about a view.
ghost use Rattle.std.specs.Prelude.{◌≡◌, ◌+◌, ◌≤◌, ℕ, false, true, IfOk, Some};
ghost use Rattle.lens_specs.specs.Names.{one};
ghost use Rattle.lens_specs.specs.Lens.{sort_of};
ghost use Rattle.lens_pred.specs.View.{predicate_view};
ghost use Rattle.lens_probe.specs.Reading.{rows_under};
ghost use Rattle.lens_probe.specs.Viewed.{FindsAtMost, is_left_side};
ghost use Rattle.request_text.specs.Answers.{answer_view, conjuncts_view};
ghost use Rattle.server_specs.specs.Questions.{finding_told, found_told, rows_told, sort_told};
ghost use Rattle.opened_view.specs.Counters.{RisesBy};
ghost use Rattle.opened_view.specs.Seen.{lens_of, seen, tables_under};
ghost use Rattle.view_answers.specs.Looks.{looks_by};

use find_rows::find_rows;
use lens_pred::{Formula, Formulas};
use lens_values::{Name, NoMemory, Value, copied};
use opened_view::Opened;
use request_text::{Answer, Edges, JsonValue};
use std::alloc::Global;
use std::sync::ledger::Ledger;
use step_counter::Steps;

/// The answer to `read`: the rows of the view.
pub fn read_answer<L: Ledger>(
    alloc: Global,
    opened: &Opened<'_>,
    walked: &mut Steps<L>,
) -> Result<Answer, NoMemory>
    ensures answer { IfOk result (λ answer.
        answer_view answer ≡ rows_told (seen opened.now) (lens_of opened.now)) }
    ensures walked { RisesBy (rows_under (lens_of opened.now) (tables_under opened.now))
        walked.old walked.new }
{
    let view = opened.view.read(alloc, walked)?;
    Ok(Answer::Shown {
        rows: view.into_rows(),
        version: opened.version,
    })
}

/// The answer to `find`: the rows of the view that have the value in the column, if the column is
/// there and the value fits it.
pub fn find_answer<L: Ledger, M: Ledger>(
    alloc: Global,
    opened: &Opened<'_>,
    column: &Name,
    value: &JsonValue<'_>,
    walked: &mut Steps<L>,
    looked: &mut Steps<M>,
) -> Result<Answer, NoMemory>
    ensures answer { IfOk result (λ answer. answer_view answer
        ≡ finding_told (seen opened.now) column.now value.now (lens_of opened.now)) }
    ensures walked { RisesBy (rows_under (lens_of opened.now) (tables_under opened.now))
        walked.old walked.new }

    // If the column is the left side of a dependency, the rows are found by key, and no row is
    // scanned.
    ensures by_key { is_left_side (one column.now) (sort_of (lens_of opened.now)).tree ≡ true
        → walked.new ≡ walked.old }
    ensures looked { (w : ℕ) → FindsAtMost opened.now.view w
        → looked.new ≤ looked.old + looks_by column.now w (lens_of opened.now) }
{
    let Some(kind) = opened.sort().cols().kind(column) else {
        return Ok(Answer::UnknownColumn { name: *column });
    };
    match value.fitting(alloc, kind)? {
        Some(value) => found_answer(alloc, opened, column, &value, walked, looked),
        None => Ok(Answer::KindClash { name: *column }),
    }
}

/// The rows of the view that have the value in the column.
fn found_answer<L: Ledger, M: Ledger>(
    alloc: Global,
    opened: &Opened<'_>,
    column: &Name,
    value: &Value,
    walked: &mut Steps<L>,
    looked: &mut Steps<M>,
) -> Result<Answer, NoMemory>
    ensures answer { IfOk result (λ answer. answer_view answer
        ≡ found_told (seen opened.now) (lens_of opened.now) column.now (Some value.now)) }
    ensures walked { RisesBy (rows_under (lens_of opened.now) (tables_under opened.now))
        walked.old walked.new }
    ensures by_key { is_left_side (one column.now) (sort_of (lens_of opened.now)).tree ≡ true
        → walked.new ≡ walked.old }
    ensures looked { (w : ℕ) → FindsAtMost opened.now.view w
        → looked.new ≤ looked.old + looks_by column.now w (lens_of opened.now) }
{
    let found = find_rows(alloc, &opened.view, column, value, looked, walked)?;
    Ok(Answer::Shown {
        rows: found.into_rows(),
        version: opened.version,
    })
}

/// The answer to `type`: the columns, the dependencies, the conjuncts and the tables.
pub fn type_answer(alloc: Global, opened: &Opened<'_>) -> Result<Answer, NoMemory>
    ensures { IfOk result (λ answer.
        answer_view answer ≡ sort_told (seen opened.now) (lens_of opened.now)) }
{
    let sort = opened.sort();
    Ok(Answer::Described {
        columns: sort.cols().copy(alloc)?,
        edges: Edges::new(copied(alloc, sort.tree().edges())?),
        conjuncts: formulas(alloc, sort.pred().conjuncts())?,
        tables: opened.view.lens().tables(alloc)?,
        version: opened.version,
    })
}

/// Equal conjuncts.
fn formulas(alloc: Global, conjuncts: &[Formula]) -> Result<Formulas, NoMemory>
    ensures { IfOk result (λ copies. conjuncts_view copies ≡ predicate_view conjuncts.now) }
{
    let mut copies = Vec::with_capacity(alloc, conjuncts.len())?;
    for conjunct in conjuncts {
        copies.push(conjunct.copy(alloc)?)?;
    }
    Ok(Formulas::new(copies))
}

//! Exports: the rows of a view as CSV.
ghost use Rattle.std.specs.Prelude.{◌≡◌, IfOk, None};
ghost use Rattle.lens_specs.specs.Lens.{sort_of};
ghost use Rattle.lens_probe.specs.Reading.{rows_under};
ghost use Rattle.lens_probe.specs.Viewed.{IsViewed};
ghost use Rattle.request_text.specs.Answers.{answer_view};
ghost use Rattle.server_specs.specs.Exporting.{first_nullable, sheet_told};
ghost use Rattle.server_laws.specs.SheetLaws.{ReadsBack};
ghost use Rattle.opened_view.specs.Counters.{RisesBy};
ghost use Rattle.opened_view.specs.Seen.{lens_of, seen, tables_under};
ghost use Rattle.view_answers.specs.Sheets.{SheetReadsBack};

use lens_values::NoMemory;
use opened_view::Opened;
use request_text::{Answer, CsvText};
use std::alloc::Global;
use std::sync::ledger::Ledger;
use step_counter::Steps;
use view_csv::to_csv;

/// The answer to `export`: the rows of the view as CSV, unless a column may be null. The text reads
/// back as the rows.
pub fn export_answer<L: Ledger>(
    alloc: Global,
    opened: &Opened<'_>,
    walked: &mut Steps<L>,
) -> Result<Answer, NoMemory>
    ensures answer { let L = lens_of opened.now in IfOk result (λ answer.
        answer_view answer ≡ sheet_told (first_nullable (sort_of L).columns) (seen opened.now) L) }
    ensures back { IfOk result (λ _.
        SheetReadsBack (lens_of opened.now) (tables_under opened.now)) }
    ensures walked { RisesBy (rows_under (lens_of opened.now) (tables_under opened.now))
        walked.old walked.new }
{
    match opened.first_nullable() {
        Some(col) => Ok(Answer::NullableColumn { col }),
        None => rows_as_csv(alloc, opened, walked),
    }
}

/// The rows of the view as CSV.
fn rows_as_csv<L: Ledger>(
    alloc: Global,
    opened: &Opened<'_>,
    walked: &mut Steps<L>,
) -> Result<Answer, NoMemory>
    requires viewed { IsViewed opened.now.view }
    requires plain { first_nullable (sort_of (lens_of opened.now)).columns ≡ None }
    ensures answer { IfOk result (λ answer.
        answer_view answer ≡ sheet_told None (seen opened.now) (lens_of opened.now)) }
    ensures back { IfOk result (λ _.
        ReadsBack (lens_of opened.now) (tables_under opened.now)) }
    ensures walked { RisesBy (rows_under (lens_of opened.now) (tables_under opened.now))
        walked.old walked.new }
{
    let view = opened.view.read(alloc, walked)?;
    let text = to_csv(alloc, view.columns(), view.rows())?;
    Ok(Answer::Exported {
        csv: CsvText::new(text),
        version: opened.version,
    })
}

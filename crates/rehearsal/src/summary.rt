//! The summary of a rehearsal.
ghost use Rattle.std.specs.Prelude.{◌≡◌, IfOk};
ghost use Rattle.serde_json.specs.Data.{object};
ghost use Rattle.serde_json.specs.View.{view};
ghost use Rattle.rehearsal.specs.Summary.{rows_data, summary_data, summary_line};

use crate::tally::{Shown, Tally};
use crate::text::json_text;
use lens_values::NoMemory;
use serde_json::{Value as Json, json};
use std::alloc::Global;

/// The line of the summary.
pub(crate) fn summary_line(
    alloc: Global,
    tally: Tally,
    shown: Shown,
    version: u64,
) -> Result<Vec<u8>, NoMemory>
    ensures { IfOk result (λ line. line.items ≡ summary_line tally.accepted tally.refused
        (rows_data shown.albums shown.tracks shown.stock) version) }
{
    let summary = summary_of(alloc, tally, shown, version)?;
    let mut line = json_text(alloc, &summary)?.into_bytes();
    line.push(b'\n')?;
    Ok(line)
}

// The summary as JSON.
fn summary_of(alloc: Global, tally: Tally, shown: Shown, version: u64) -> Result<Json, NoMemory>
    ensures { IfOk result (λ summary. view summary ≡ summary_data tally.accepted tally.refused
        (rows_data shown.albums shown.tracks shown.stock) version) }
{
    Ok(json!(in alloc; {
        "accepted": tally.accepted,
        "refused": tally.refused,
        "rows": rows_of(alloc, shown)?,
        "version": version
    })?)
}

fn rows_of(alloc: Global, shown: Shown) -> Result<Json, NoMemory>
    ensures { IfOk result (λ rows. view rows
        ≡ object (rows_data shown.albums shown.tracks shown.stock)) }
{
    Ok(json!(in alloc; {"albums": shown.albums, "stock": shown.stock, "tracks": shown.tracks})?)
}

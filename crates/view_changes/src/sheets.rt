//! The rows of a text as CSV, which an import puts.
ghost use Rattle.lens_specs.specs.Lens.{sort_of};
ghost use Rattle.opened_view.specs.Seen.{lens_of};
ghost use Rattle.view_changes.specs.Sheets.{IsSheetOf};

use lens_values::{Name, NoMemory};
use opened_view::Opened;
use request_text::CsvText;
use row_sets::RowSet;
use std::alloc::Global;
use view_csv::{CsvFault, from_csv};

/// Why a text gives no rows of a view.
#[derive(Drop)]
pub enum SheetFault {
    /// The least column of the view that may be null. CSV has no null.
    NullableColumn { col: Name },
    /// The place of the first wrong record, from 0; the first record is the header.
    BadRecord { place: usize },
    /// Memory ran out.
    NoMemory,
}

/// The rows that the text says, unless a column of the view may be null or a record is wrong.
pub fn sheet_rows(alloc: Global, opened: &Opened<'_>, csv: &CsvText) -> Result<RowSet, SheetFault>
    ensures { IsSheetOf (sort_of (lens_of opened.now)).columns csv.now result }
{
    if let Some(col) = opened.first_nullable() {
        return Err(SheetFault::NullableColumn { col });
    }
    match from_csv(alloc, opened.sort().cols(), csv.as_str()) {
        Ok(rows) => Ok(rows),
        Err(CsvFault::BadRecord { place }) => Err(SheetFault::BadRecord { place }),
        Err(CsvFault::NoMemory) => Err(SheetFault::NoMemory),
    }
}

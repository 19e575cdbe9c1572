//! Rows written as CSV and read from it, and the law that one undoes the other.
#![tactic(auto)]

ghost use Rattle.csv_specs.specs.SheetLaws.{SheetsReadBack};

pub mod fault;
mod fields;
mod places;
pub mod reading;
mod records;
pub mod writing;

pub use fault::CsvFault;
pub use reading::from_csv;
pub use writing::to_csv;

/// The text of rows reads back as them.
pub fn sheets_read_back()
    ensures { SheetsReadBack }
{}

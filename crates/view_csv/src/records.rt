//! The records of a text, one after another.
ghost use Rattle.std.specs.Prelude.{IfOk, []};
ghost use Rattle.csv.specs.Records.{fields_of};
ghost use Rattle.view_csv.specs.Records.{HasRead, ReadsOn};

use csv::{ByteRecord, Reader, ReaderBuilder};
use lens_values::NoMemory;
use std::alloc::Global;

/// A reader of the text, in front of its first record. Records may differ in length: to tell which
/// is wrong is left to those who read them.
pub fn reader_of(alloc: Global, text: &str) -> Reader<&[u8]>
    ensures { HasRead result text.now [] }
{
    ReaderBuilder::new()
        .has_headers(false)
        .flexible(true)
        .from_reader(alloc, text.as_bytes())
}

/// Reads the next record, and says whether there is one.
pub fn read_next(reader: &mut Reader<&[u8]>, fields: &mut ByteRecord) -> Result<bool, NoMemory>
    ensures { IfOk result (λ found. (text : _) (rs : _) → HasRead reader.old text rs
        → ReadsOn found reader.new text rs (fields_of fields.new)) }
{
    match reader.read_byte_record(fields) {
        Ok(found) => Ok(found),
        Err(_) => Err(NoMemory),
    }
}

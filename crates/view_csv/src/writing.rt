//! Writes rows as CSV.
ghost use Rattle.std.specs.Prelude.{◌≡◌, ◌≢◌, ◌++◌, ◌∷◌, [], IfOk, Ok, OnOk, Some, not, true};
ghost use Rattle.std.specs.List.{list_all};
ghost use Rattle.std.specs.FinMap as finmap;
ghost use Rattle.std.specs.String.{string_bytes};
ghost use Rattle.csv.specs.Records.{fields_of, partial_of};
ghost use Rattle.csv.specs.Writing.{default_writer, row_text};
ghost use Rattle.plain_values.specs.Bytes.{is_name};
ghost use Rattle.plain_values.specs.SortedSet as set;
ghost use Rattle.plain_values.specs.Value.{is_nullable};
ghost use Rattle.lens_specs.specs.Columns.{Fits};
ghost use Rattle.csv_specs.specs.Fields.{field_of, flag_word};
ghost use Rattle.csv_specs.specs.SheetLaws.{is_right};
ghost use Rattle.csv_specs.specs.Sheets.{record_of, sheet, unsheet};
ghost use Rattle.view_csv.specs.Texts.{HasWritten};

use csv::{ByteRecord, Writer, WriterBuilder};
use itoa::Buffer;
use lens_values::{Columns, NoMemory, Row, Value};
use row_sets::RowSet;
use std::alloc::Global;

/// The rows as CSV: a record of the names of the columns, and one of each row.
pub fn to_csv(alloc: Global, columns: &Columns, rows: &RowSet) -> Result<String, NoMemory>
    requires some { finmap.keys columns.now ≢ [] }
    requires plain { list_all (λ c. not (is_nullable c.1)) (finmap.entries columns.now) ≡ true }
    requires fit { (row : _) → set.contains rows.now row ≡ true → Fits columns.now row }
    ensures sheet { IfOk result (λ text. string_bytes text ≡ sheet columns.now rows.now) }
    ensures back { IfOk result (λ text. unsheet columns.now (string_bytes text) ≡ Ok rows.now) }
{
    let mut writer = WriterBuilder::new().from_writer(Vec::new(alloc));
    let mut fields = ByteRecord::new(alloc);
    put_names(&mut fields, columns)?;
    write_fields(&mut writer, &fields)?;
    for row in rows.rows() {
        put_values(&mut fields, row)?;
        write_fields(&mut writer, &fields)?;
    }
    text_of(writer)
}

// The names of the columns become the fields.
fn put_names(fields: &mut ByteRecord, columns: &Columns) -> Result<(), NoMemory>
    ensures fields { OnOk result (fields_of fields.new ≡ finmap.keys columns.now) }
    ensures names { OnOk result (list_all is_name (finmap.keys columns.now) ≡ true) }
{
    fields.clear();
    for column in columns.pairs() {
        fields.push_field(column.0.as_bytes())?;
    }
    Ok(())
}

// The values of the row become the fields.
fn put_values(fields: &mut ByteRecord, row: &Row) -> Result<(), NoMemory>
    ensures fields { OnOk result (fields_of fields.new ≡ record_of row.now) }
    ensures right { OnOk result (list_all is_right (finmap.values row.now) ≡ true) }
{
    fields.clear();
    for value in row.values() {
        put_value(fields, value)?;
    }
    Ok(())
}

// Adds the field of the value.
fn put_value(fields: &mut ByteRecord, value: &Value) -> Result<(), NoMemory>
    requires { partial_of fields.old ≡ [] }
    ensures fields { OnOk result (fields_of fields.new ≡ fields_of fields.old ++ (field_of value.now ∷ [])) }
    ensures partial { OnOk result (partial_of fields.new ≡ []) }
    ensures right { OnOk result (is_right value.now ≡ true) }
{
    match value {
        Value::Null => fields.push_field(b"".as_slice())?,
        Value::Int(number) => {
            let mut buffer = Buffer::new();
            fields.push_field(buffer.format(*number).as_bytes())?;
        }
        Value::Text(text) => fields.push_field(text.as_bytes())?,
        Value::Flag(flag) => fields.push_field(word_of(*flag).as_bytes())?,
    }
    Ok(())
}

// How a truth value is written.
fn word_of(flag: bool) -> &'static str
    ensures { result.now ≡ flag_word flag }
{
    if flag { "true" } else { "false" }
}

// Writes a record of the fields.
fn write_fields(writer: &mut Writer<Vec<u8>>, fields: &ByteRecord) -> Result<(), NoMemory>
    ensures { OnOk result ((text : _) → HasWritten (λ v. Some v.items) writer.old text
        → HasWritten (λ v. Some v.items) writer.new (text ++ row_text default_writer (fields_of fields.now))) }
{
    match writer.write_byte_record(fields) {
        Ok(()) => Ok(()),
        Err(_) => Err(NoMemory),
    }
}

// The text that was written. It is UTF-8, as its fields are; where it were not, none is given.
fn text_of(writer: Writer<Vec<u8>>) -> Result<String, NoMemory>
    ensures { IfOk result (λ text. (written : _) → HasWritten (λ v. Some v.items) writer written → string_bytes text ≡ written) }
{
    let bytes = bytes_of(writer)?;
    match String::from_utf8(bytes) {
        Ok(text) => Ok(text),
        Err(_) => Err(NoMemory),
    }
}

fn bytes_of(writer: Writer<Vec<u8>>) -> Result<Vec<u8>, NoMemory>
    ensures { IfOk result (λ bytes. (written : _) → HasWritten (λ v. Some v.items) writer written → bytes.items ≡ written) }
{
    match writer.into_inner() {
        Ok(bytes) => Ok(bytes),
        Err(_) => Err(NoMemory),
    }
}

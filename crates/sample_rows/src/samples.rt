//! Values that tests write as texts, and whether rows are what a text says.
ghost use Rattle.std.specs.Prelude.{◌≡◌, IfOk, OnOk};
ghost use Rattle.lens_specs.specs.Relation.{IsRelation};

use lens_values::{Columns, Kind, Name, Names, Row, Text, Value};
use row_sets::{Relation, RowSet};
use std::alloc::Global;
use std::test::Fail;

/// Fails, with the case, if something does not hold of it.
pub fn expect(holds: bool, case: &str) -> Result<(), Fail> {
    if holds { Ok(()) } else { Err(Fail::from(case)) }
}

// The name that the word is.
fn name(word: &str) -> Result<Name, Fail> {
    Ok(Name::new(word)?)
}

/// The names that the text lists, as `a b`.
pub fn names(alloc: Global, text: &str) -> Result<Names, Fail> {
    let mut list = Vec::new(alloc);
    for word in text.split_whitespace() {
        list.push(name(word)?)?;
    }
    Ok(Names::new(alloc, list)?)
}

// The kind that the word names.
fn kind(word: &str) -> Result<Kind, Fail> {
    match word {
        "int" => Ok(Kind::Int),
        "int?" => Ok(Kind::IntOrNull),
        "text" => Ok(Kind::Text),
        "text?" => Ok(Kind::TextOrNull),
        _ => Err(Fail::from("no kind")),
    }
}

// The name and the kind of a column, as `a:int`.
fn column(word: &str) -> Result<(Name, Kind), Fail> {
    let (column, of) = word.split_once(':').ok_or("no kind")?;
    Ok((name(column)?, kind(of)?))
}

/// The columns that the text lists, as `a:int b:int? c:text d:text?`.
pub fn columns(alloc: Global, text: &str) -> Result<Columns, Fail> {
    let mut pairs = Vec::new(alloc);
    for word in text.split_whitespace() {
        pairs.push(column(word)?)?;
    }
    Ok(Columns::new(alloc, pairs)?)
}

/// Null, a number, or else a text.
pub fn value(alloc: Global, word: &str) -> Result<Value, Fail> {
    if word == "null" {
        return Ok(Value::Null);
    }
    match word.parse::<i64>() {
        Ok(number) => Ok(Value::Int(number)),
        Err(_) => Ok(Value::Text(Text::new(alloc, word)?)),
    }
}

// The name and the value of a column, as `a=1`.
fn cell(alloc: Global, word: &str) -> Result<(Name, Value), Fail> {
    let (column, of) = word.split_once('=').ok_or("no value")?;
    Ok((name(column)?, value(alloc, of)?))
}

/// The row that the text lists, as `a=1 b=x`.
pub fn row(alloc: Global, text: &str) -> Result<Row, Fail> {
    let mut pairs = Vec::new(alloc);
    for word in text.split_whitespace() {
        pairs.push(cell(alloc, word)?)?;
    }
    Ok(Row::new(alloc, pairs)?)
}

/// The rows that the text lists, as `a=1 b=x; a=2 b=y`.
pub fn rows(alloc: Global, text: &str) -> Result<Vec<Row>, Fail> {
    let mut list = Vec::new(alloc);
    for part in text.split_terminator(';') {
        list.push(row(alloc, part)?)?;
    }
    Ok(list)
}

/// The relation over the columns that has the rows of the text.
pub fn relation(alloc: Global, columns: &Columns, text: &str) -> Result<Relation, Fail>
    ensures columns { IfOk result (λ made. made.columns ≡ columns.now) }
    ensures fit { IfOk result IsRelation }
{
    let mut made = Relation::empty(alloc, columns.copy(alloc)?);
    for row in rows(alloc, text)? {
        add(&mut made, row)?;
    }
    Ok(made)
}

// Adds the row, if it fits.
fn add(relation: &mut Relation, row: Row) -> Result<(), Fail>
    requires { IsRelation relation.old }
    ensures columns { OnOk result (relation.new.columns ≡ relation.old.columns) }
    ensures fit { OnOk result (IsRelation relation.new) }
{
    if !row.fits(relation.columns()) {
        return Err(Fail::from("a row of other columns"));
    }
    let _new = relation.add(row)?;
    Ok(())
}

/// Whether the set has the rows that the text lists, in this order, and no other.
pub fn are_rows(alloc: Global, found: &RowSet, text: &str) -> Result<bool, Fail> {
    Ok(found.rows() == rows(alloc, text)?.as_slice())
}

//! Values that tests write as texts, and checks of values against texts. A check that fails stops
//! the test with the text.
ghost use Rattle.std.specs.Prelude.{◌≡◌};

use fd_closure::Dep;
use fd_tree::Tree;
use lens_values::{Columns, Kind, Name, Names, Row, Text, Value};
use row_sets::{Relation, RowSet};
use std::alloc::Global;
use std::process::Abort;

/// Ends the test with the case if something does not hold of it.
pub(crate) fn check(rt: &impl Abort, holds: bool, case: &str) {
    assert!(rt; holds, "{case}");
}

/// What stands between the three bars of the text.
pub(crate) fn fields<'a>(rt: &impl Abort, text: &'a str) -> [&'a str; 4] {
    let (first, rest) = text.split_once('|').expect(rt, text);
    let (second, rest) = rest.split_once('|').expect(rt, text);
    let (third, fourth) = rest.split_once('|').expect(rt, text);
    [first.trim(), second.trim(), third.trim(), fourth.trim()]
}

/// The name that the word is.
pub(crate) fn name(rt: &impl Abort, word: &str) -> Name {
    Name::new(word).expect(rt, word)
}

/// The set of the names that the text lists.
pub(crate) fn names(rt: &impl Abort, alloc: Global, text: &str) -> Names {
    let mut list = Vec::new(alloc);
    for word in text.split_whitespace() {
        list.push(name(rt, word)).expect(rt, "memory");
    }
    Names::new(alloc, list).expect(rt, "memory")
}

// The kind that the word names, as `int`, or `int?` of a column that may be null.
fn kind(rt: &impl Abort, word: &str) -> Kind {
    match word {
        "int" => Kind::Int,
        "text" => Kind::Text,
        "bool" => Kind::Flag,
        "int?" => Kind::IntOrNull,
        "text?" => Kind::TextOrNull,
        "bool?" => Kind::FlagOrNull,
        _ => panic!(rt; "no kind"),
    }
}

// The columns in the order of the text, as `b:int a:text?`.
fn pairs(rt: &impl Abort, alloc: Global, text: &str) -> Vec<(Name, Kind)> {
    let mut list = Vec::new(alloc);
    for word in text.split_whitespace() {
        let (column, of) = word.split_once(':').expect(rt, word);
        list.push((name(rt, column), kind(rt, of)))
            .expect(rt, "memory");
    }
    list
}

/// The columns that the text lists.
pub(crate) fn columns(rt: &impl Abort, alloc: Global, text: &str) -> Columns {
    Columns::new(alloc, pairs(rt, alloc, text)).expect(rt, text)
}

/// Null, a number, a truth value, or else a text.
pub(crate) fn value(rt: &impl Abort, alloc: Global, word: &str) -> Value {
    if word == "null" {
        return Value::Null;
    }
    if let Ok(number) = word.parse::<i64>() {
        return Value::Int(number);
    }
    match word.parse::<bool>() {
        Ok(flag) => Value::Flag(flag),
        Err(_) => Value::Text(Text::new(alloc, word).expect(rt, word)),
    }
}

/// The row that the text lists, as `a=1 b=x c=null`.
pub(crate) fn row(rt: &impl Abort, alloc: Global, text: &str) -> Row {
    let mut list = Vec::new(alloc);
    for word in text.split_whitespace() {
        let (column, of) = word.split_once('=').expect(rt, word);
        list.push((name(rt, column), value(rt, alloc, of)))
            .expect(rt, "memory");
    }
    Row::new(alloc, list).expect(rt, text)
}

/// Checks that this is the row of the text.
pub(crate) fn is_row(rt: &impl Abort, alloc: Global, found: Option<Row>, text: &str) {
    let found = found.expect(rt, text);
    check(rt, found == row(rt, alloc, text), text);
}

/// The rows in the order of the text, as `a=2 b=y; a=1 b=x`.
pub(crate) fn row_list(rt: &impl Abort, alloc: Global, text: &str) -> Vec<Row> {
    let mut list = Vec::new(alloc);
    for part in text.split_terminator(';') {
        list.push(row(rt, alloc, part)).expect(rt, "memory");
    }
    list
}

/// The set of the rows that the text lists.
pub(crate) fn rows(rt: &impl Abort, alloc: Global, text: &str) -> RowSet {
    RowSet::new(alloc, row_list(rt, alloc, text)).expect(rt, "memory")
}

/// The relation over the columns that has the rows of the text.
pub(crate) fn relation(rt: &impl Abort, alloc: Global, columns: &Columns, text: &str) -> Relation
    ensures { result.columns ≡ columns.now }
{
    let mut made = Relation::empty(alloc, columns.copy(alloc).expect(rt, "memory"));
    for row in row_list(rt, alloc, text) {
        assert!(rt; row.fits(columns), "{text}");
        made.add(row).expect(rt, "memory");
    }
    made
}

/// Checks that the relation has these columns and rows, in order.
pub(crate) fn is_relation(
    rt: &impl Abort,
    alloc: Global,
    found: Option<Relation>,
    cols: &str,
    text: &str,
) {
    let found = found.expect(rt, text);
    let columns = pairs(rt, alloc, cols);
    check(rt, found.columns().pairs() == columns.as_slice(), cols);
    let rows = row_list(rt, alloc, text);
    check(rt, found.rows().rows() == rows.as_slice(), text);
}

/// The dependency, as `a b -> c`.
pub(crate) fn dep(rt: &impl Abort, alloc: Global, text: &str) -> Dep {
    let (left, right) = text.split_once("->").expect(rt, text);
    Dep::new(names(rt, alloc, left), names(rt, alloc, right)).expect(rt, text)
}

/// The dependencies that the text lists, as `a -> b, b -> c`.
pub(crate) fn deps(rt: &impl Abort, alloc: Global, text: &str) -> Vec<Dep> {
    let mut list = Vec::new(alloc);
    for part in text.split_terminator(',') {
        list.push(dep(rt, alloc, part)).expect(rt, "memory");
    }
    list
}

/// The tree form of the dependencies that the text lists.
pub(crate) fn tree(rt: &impl Abort, alloc: Global, text: &str) -> Tree {
    Tree::of(alloc, &deps(rt, alloc, text)).expect(rt, text)
}

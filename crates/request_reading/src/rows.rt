//! The rows of a request, read from JSON.
ghost use Rattle.std.specs.Prelude.{◌≡◌, Ok, IfOk, IfSome, IsOk, length, option_map, true};
ghost use Rattle.std.specs.Bool.{OnTrue};
ghost use Rattle.std.specs.List.{zip};
ghost use Rattle.std.specs.List.Sorted.{IsStrictlySortedBy};
ghost use Rattle.serde_json.specs.Find.{get_member};
ghost use Rattle.borrowed_json.specs.Meaning.{value_data, items_data, members_data};
ghost use Rattle.borrowed_json.specs.Places.{IsLast};
ghost use Rattle.plain_values.specs.Order.{bytes_cmp};
ghost use Rattle.lens_values.specs.Paired.{AreAsMany, paired};
ghost use Rattle.plain_values.specs.SortedMap.{keys_of};
ghost use Rattle.server_specs.specs.Sending as spec;
ghost use Rattle.request_reading.specs.SentRows.{AreNamesOf, Finds, GivesRows, IsAt, bad_row, is_among, names_sent, pairs_of, set_of, strange_in};
ghost use Rattle.request_reading.specs.declared.rows.RowsFault.TheVariants as fault;

use crate::member_fault::{MemberFault, least_of};
use crate::member_values::value_in;
use crate::sent::JsonRows;
use borrowed_json::{Entry, Value as Json, member};
use lens_values::{Columns, Kind, Name, Names, NoMemory, Row, Value};
use line_texts::Member;
use row_sets::RowSet;
use std::alloc::{AllocError, AllocFailed, Global};

/// Why the JSON is not a list of rows.
#[derive(Drop)]
pub enum RowsFault {
    /// The first element that is not a row of the columns.
    BadRow {
        /// Its place in the list, from 0.
        index: usize,
        /// The least name of a column that is missing or whose value does not fit, or of a member
        /// that is not a column.
        col: Member,
    },
    /// Out of memory.
    NoMemory,
}

impl From<AllocError> for RowsFault {
    ghost from_gives = { λ _ e. e ≡ fault.NoMemory };

    fn from(_: AllocError) -> RowsFault {
        RowsFault::NoMemory
    }
}

impl<T: Drop> From<AllocFailed<T>> for RowsFault {
    ghost from_gives = { λ _ e. e ≡ fault.NoMemory };

    fn from(_: AllocFailed<T>) -> RowsFault {
        RowsFault::NoMemory
    }
}

impl From<NoMemory> for RowsFault {
    ghost from_gives = { λ _ e. e ≡ fault.NoMemory };

    fn from(_: NoMemory) -> RowsFault {
        RowsFault::NoMemory
    }
}

impl RowsFault {
    // The fault of the element at this place.
    fn at(alloc: Global, index: usize, fault: MemberFault<'_>) -> RowsFault
        ensures { IsAt result index fault.entry }
    {
        match fault {
            MemberFault::Wrong { member } => RowsFault::bad_row(alloc, index, member),
            MemberFault::NoMemory => RowsFault::NoMemory,
        }
    }

    fn bad_row(alloc: Global, index: usize, col: &str) -> RowsFault
        ensures { IfSome (bad_row result) (λ bad. bad ≡ (index, col.now)) }
    {
        match Member::copy_of(alloc, col) {
            Ok(col) => RowsFault::BadRow { index, col },
            Err(_) => RowsFault::NoMemory,
        }
    }
}

/// Reads a set of rows, which share the names of the columns. `BadRow` for the first element that
/// is no row of the columns, or `NoMemory`.
pub fn rows_of(alloc: Global, columns: &Columns, rows: JsonRows<'_>) -> Result<RowSet, RowsFault>
    ensures { GivesRows (λ rows. rows) result (set_of (spec.rows_in columns.now rows.entry)) }
{
    let names = columns.names(alloc)?;
    let list = rows_in(alloc, columns, &names, rows.into_list())?;
    Ok(RowSet::new(alloc, list)?)
}

// The rows, in the order of the elements. Each element is freed as soon as it is read, and the next
// row takes its memory.
fn rows_in(
    alloc: Global,
    columns: &Columns,
    names: &Names,
    items: Vec<Json<'_>>,
) -> Result<Vec<Row>, RowsFault>
    requires { AreNamesOf names.now columns.now }
    ensures { GivesRows (λ list. list.items) result
        (spec.rows_in columns.now (items_data items.entry.items)) }
{
    let mut rows = Vec::with_capacity(alloc, items.len())?;
    for item in items {
        match row_in(alloc, columns, names, item) {
            Ok(row) => rows.push(row)?,
            Err(fault) => return Err(RowsFault::at(alloc, rows.len(), fault)),
        }
    }
    Ok(rows)
}

fn row_in<'a, 'm: 'a>(
    alloc: Global,
    columns: &'a Columns,
    names: &Names,
    json: Json<'m>,
) -> Result<Row, MemberFault<'a>>
    requires { AreNamesOf names.now columns.now }
    ensures { Finds (λ row. row) result (spec.row_in columns.now (value_data json.entry)) }
{
    match json {
        Json::Object(members) => row_of_members(alloc, columns, names, &members),
        _ => Err(MemberFault::Wrong {
            member: first_column(columns.pairs()),
        }),
    }
}

fn first_column(columns: &[(Name, Kind)]) -> &str
    ensures { result.now ≡ spec.first_column columns.now }
{
    match columns {
        [column, ..] => column.0.as_str(),
        [] => "",
    }
}

fn row_of_members<'a, 'm: 'a>(
    alloc: Global,
    columns: &'a Columns,
    names: &Names,
    members: &[Entry<'m>],
) -> Result<Row, MemberFault<'a>>
    requires { AreNamesOf names.now columns.now }
    ensures { Finds (λ row. row) result
        (spec.row_of_members columns.now (members_data members.now)) }
{
    match values_in(alloc, columns.pairs(), members) {
        Ok(values) => row_of_values(alloc, columns, names, members, values),
        Err(MemberFault::Wrong { member }) => {
            let strange = first_strange(columns, members);
            Err(MemberFault::Wrong {
                member: least_of(member, strange),
            })
        }
        Err(MemberFault::NoMemory) => Err(MemberFault::NoMemory),
    }
}

// Makes the row, unless a member is no column.
fn row_of_values<'a>(
    alloc: Global,
    columns: &Columns,
    names: &Names,
    members: &[Entry<'a>],
    values: Vec<Value>,
) -> Result<Row, MemberFault<'a>>
    requires as_many { AreAsMany names.now values.items }
    requires pairs { pairs_of columns.now (members_data members.now)
        ≡ Ok (paired names.now values.items) }
    ensures { Finds (λ row. row) result
        (spec.row_of_members columns.now (members_data members.now)) }
{
    match strange_beside(columns, members) {
        Some(member) => Err(MemberFault::Wrong { member }),
        None => Ok(Row::from_values(alloc, names.copy(alloc)?, values)?),
    }
}

// The first member that is not a column, where each column has a member. If the counts are equal,
// there is none.
fn strange_beside<'a>(columns: &Columns, members: &[Entry<'a>]) -> Option<&'a str>
    requires { IsOk (pairs_of columns.now (members_data members.now)) }
    ensures { option_map (λ name. name.now) result
        ≡ strange_in columns.now (members_data members.now) }
{
    if members.len() == columns.pairs().len() {
        return None;
    }
    first_strange(columns, members)
}

fn first_strange<'a>(columns: &Columns, members: &[Entry<'a>]) -> Option<&'a str>
    ensures { option_map (λ name. name.now) result
        ≡ strange_in columns.now (members_data members.now) }
{
    let mut first = None;
    for member in members {
        if !is_column(columns.pairs(), member.0) {
            first = Some(least_of(member.0, first));
        }
    }
    first
}

fn is_column(columns: &[(Name, Kind)], name: &str) -> bool
    ensures { result ≡ is_among (keys_of columns.now) name.now }
{
    columns.iter().any(|column| name == column.0.as_str())
}

// The values of the columns, in the order of the columns. Most rows are sent in that order: then no
// member has to be looked for.
fn values_in<'a>(
    alloc: Global,
    columns: &'a [(Name, Kind)],
    members: &[Entry<'_>],
) -> Result<Vec<Value>, MemberFault<'a>>
    requires { IsStrictlySortedBy bytes_cmp (keys_of columns.now) }
    ensures as_many { IfOk result (λ values. length (keys_of columns.now) ≡ length values.items) }
    ensures finds { Finds (λ values. zip (keys_of columns.now) values.items) result
        (spec.pairs_in columns.now (members_data members.now)) }
{
    let mut values = Vec::with_capacity(alloc, columns.len())?;
    let beside = are_beside(columns, members);
    for column in columns {
        match value_at(alloc, members, beside, values.len(), column)? {
            Some(value) => values.push(value)?,
            None => {
                return Err(MemberFault::Wrong {
                    member: column.0.as_str(),
                });
            }
        }
    }
    Ok(values)
}

// Whether the members have the names of the columns, in the order of the columns.
fn are_beside(columns: &[(Name, Kind)], members: &[Entry<'_>]) -> bool
    ensures { OnTrue result (names_sent members.now ≡ keys_of columns.now) }
{
    if members.len() != columns.len() {
        return false;
    }
    for place in 0..columns.len() {
        if members[place].0 != columns[place].0.as_str() {
            return false;
        }
    }
    true
}

// The value that the members have for the column. If the members are in the order of the columns
// (`beside`), it stands at `place`, and is not looked for.
fn value_at(
    alloc: Global,
    members: &[Entry<'_>],
    beside: bool,
    place: usize,
    column: &(Name, Kind),
) -> Result<Option<Value>, NoMemory>
    requires { beside ≡ true → IsLast column.now.0 place members.now }
    ensures { IfOk result (λ found.
        found ≡ spec.value_at (members_data members.now) column.now) }
{
    match member_at(members, beside, place, column.0.as_str()) {
        Some(json) => value_in(alloc, column.1, json),
        None => Ok(None),
    }
}

// The member of this name. If the members are in the order of the columns (`beside`), it stands at
// `place`, and is not looked for.
fn member_at<'v, 'a>(
    members: &'v [Entry<'a>],
    beside: bool,
    place: usize,
    name: &str,
) -> Option<&'v Json<'a>>
    requires { beside ≡ true → IsLast name.now place members.now }
    ensures { option_map (λ value. value_data value.now) result
        ≡ get_member name.now (members_data members.now) }
{
    if beside {
        Some(&members[place].1)
    } else {
        member(members, name)
    }
}

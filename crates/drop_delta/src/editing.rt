//! Carries an edit of a relation without one of its columns down to the relation.
ghost use Rattle.std.specs.Prelude.{◌≡◌, ◌≢◌, ◌≤◌, ◌+◌, ◌*◌, ℕ, true, false, length, map, slice_get, take, Contains, IfOk, IfSome, OnOk, Some};
ghost use Rattle.std.specs.FinMap as finmap;
ghost use Rattle.std.specs.List.{filter_map};
ghost use Rattle.plain_values.specs.SortedSet as set;
ghost use Rattle.lens_specs.specs.Columns.{Fits, fits_at, names, without_column};
ghost use Rattle.lens_specs.specs.Delta.{Applies, diff};
ghost use Rattle.lens_specs.specs.Dependencies.{Meets};
ghost use Rattle.lens_specs.specs.Names.{Within, one};
ghost use Rattle.lens_specs.specs.Nodes.{drop_get};
ghost use Rattle.lens_specs.specs.Relation.{image};
ghost use Rattle.lens_specs.specs.Rows.{with_at};
ghost use Rattle.lens_laws.specs.Work.{node_work, rows_down, rows_of};
ghost use Rattle.signed_delta.specs.Keys.{HasColumns};
ghost use Rattle.drop_delta.specs.Dropped.{BothFill, Fills, edited_source, filled_in, filling_for, value_of};

use lens_values::{Name, Names, NoMemory, Row, Value};
use row_sets::RowSet;
use signed_delta::{Delta, Look};
use std::alloc::Global;
use std::sync::ledger::Ledger;
use step_counter::Steps;

/// The change that an edit of the rows without the column makes to the source, by rows found by
/// key: the incremental `drop` of Horn, Perera and Cheney (Incremental Relational Lenses, ICFP
/// 2018). In the source the columns of `by` determine the column.
///
/// Each row that the edit removes or adds gets the column back: its value is that of the source's
/// rows with the same in `by`, and `fill` where there are none. So a removed row is the very row of
/// the source that showed it.
pub fn drop_delta<S: Look, L: Ledger>(
    alloc: Global,
    source: &S,
    col: &Name,
    by: &Names,
    fill: &Value,
    delta: &Delta,
    looked: &mut Steps<L>,
) -> Result<Delta, NoMemory>
    requires column { let U = (S.relation source.now).columns in
        fits_at (Some fill.now) (finmap.get U col.now) ≡ true }
    requires some { length (set.items by.now) ≢ 0 }
    requires asked { Contains (S.asked source.now) by.now }
    requires within { Within by.now (names (S.relation source.now).columns) }
    requires apart { set.contains by.now col.now ≡ false }
    requires decides { Meets (S.relation source.now).rows by.now (one col.now) }
    requires applies { let R = S.relation source.now in
        Applies delta.now (drop_get (names R.columns) col.now R.rows) }
    requires fit { let U = (S.relation source.now).columns in
        (row : _) → set.contains delta.now.add row ≡ true → Fits (without_column U col.now) row }
    ensures delta { let R = S.relation source.now in
        let after = edited_source R.columns col.now by.now fill.now R.rows delta.now in
        IfOk result (λ change. change ≡ diff R.rows after) }
    ensures looks { (n : ℕ) → S.within source.now n
        → looked.new ≤ looked.old + node_work (rows_of delta.now) n }
    ensures few { IfOk result (λ change. (n : ℕ) → S.within source.now n
        → rows_of change ≤ rows_down (rows_of delta.now) n) }
{
    let dropped = Dropped {
        col,
        by,
        fill,
        names: source.columns().name_set(),
    };
    let filled = filled_sides(alloc, source, &dropped, delta, looked)?;
    Ok(Delta::new(filled.remove, filled.add))
}

// A column that is dropped.
#[derive(Drop)]
struct Dropped<'a> {
    col: &'a Name,
    // The columns that determine it.
    by: &'a Names,
    // Its value in a row that the source has nothing for.
    fill: &'a Value,
    // The names of the source's columns, which the rows that are filled in share.
    names: &'a Names,
}

// The two sides of an edit, with each row filled in.
#[derive(Drop)]
struct FilledSides {
    remove: RowSet,
    add: RowSet,
}

// The rows to remove and those to add, each with the column filled in. The loop takes a removed row
// and the added row at its place in turn: mostly both have the same key, and it asks the source for
// that key once.
fn filled_sides<S: Look, L: Ledger>(
    alloc: Global,
    source: &S,
    dropped: &Dropped<'_>,
    delta: &Delta,
    looked: &mut Steps<L>,
) -> Result<FilledSides, NoMemory>
    requires some { length (set.items dropped.now.by.now) ≢ 0 }
    requires asked { Contains (S.asked source.now) dropped.now.by.now }
    requires removed { (row : _) → set.contains delta.now.remove row ≡ true
        → HasColumns dropped.now.by.now row }
    requires added { (row : _) → set.contains delta.now.add row ≡ true
        → HasColumns dropped.now.by.now row }
    ensures remove { let k = dropped.now in let M = (S.relation source.now).rows in
        IfOk result (λ filled. filled.remove
        ≡ image (filled_in k.col.now k.by.now k.fill.now M) delta.now.remove) }
    ensures add { let k = dropped.now in let M = (S.relation source.now).rows in
        IfOk result (λ filled. filled.add
        ≡ image (filled_in k.col.now k.by.now k.fill.now M) delta.now.add) }
    ensures looks { (n : ℕ) → S.within source.now n
        → looked.new ≤ looked.old + n * rows_of delta.now }
{
    let removed = delta.remove().rows();
    let added = delta.add().rows();
    let mut remove = Vec::with_capacity(alloc, removed.len())?;
    let mut add = Vec::with_capacity(alloc, added.len())?;
    let mut fillings = Fillings {
        last: None,
        earlier: None,
    };
    for place in 0..removed.len().max(added.len()) {
        append_filled(
            alloc,
            source,
            dropped,
            removed,
            place,
            &mut fillings,
            &mut remove,
            looked,
        )?;
        append_filled(
            alloc,
            source,
            dropped,
            added,
            place,
            &mut fillings,
            &mut add,
            looked,
        )?;
    }
    let remove = RowSet::new(alloc, remove)?;
    let add = RowSet::new(alloc, add)?;
    Ok(FilledSides { remove, add })
}

// Adds the row at the place at the end, with the column filled in. There may be none.
fn append_filled<S: Look, L: Ledger>(
    alloc: Global,
    source: &S,
    dropped: &Dropped<'_>,
    rows: &[Row],
    place: usize,
    fillings: &mut Fillings,
    filled: &mut Vec<Row>,
    looked: &mut Steps<L>,
) -> Result<(), NoMemory>
    requires some { length (set.items dropped.now.by.now) ≢ 0 }
    requires asked { Contains (S.asked source.now) dropped.now.by.now }
    requires have { (row : _) → Contains rows.now row → HasColumns dropped.now.by.now row }
    requires fillings { let k = dropped.now in let M = (S.relation source.now).rows in
        BothFill k.col.now k.by.now k.fill.now M fillings.old }
    ensures rows { let k = dropped.now in let M = (S.relation source.now).rows in
        let f = filled_in k.col.now k.by.now k.fill.now M in
        OnOk result (filled.old.items ≡ map f (take place rows.now)
        → filled.new.items ≡ map f (take (place + 1) rows.now)) }
    ensures fillings { let k = dropped.now in let M = (S.relation source.now).rows in
        BothFill k.col.now k.by.now k.fill.now M fillings.new }
    ensures looks { (n : ℕ) → S.within source.now n
        → looked.new + n * length (take place rows.now)
        ≤ looked.old + n * length (take (place + 1) rows.now) }
{
    let Some(row) = rows.get(place) else {
        return Ok(());
    };
    filled.push(filled_row(alloc, source, dropped, row, fillings, looked)?)?;
    Ok(())
}

// The value that fills in this row, and each row that agrees with it on the columns that determine
// the dropped one.
#[derive(Drop)]
struct Filling {
    key: Row,
    value: Value,
}

// What filled in the last rows, for up to two keys: where rows are moved from one key to another,
// the removed rows have the one, and the added rows that come between them the other.
#[derive(Drop)]
struct Fillings {
    last: Option<Filling>,
    earlier: Option<Filling>,
}

// The row with the column filled in. What fills it in becomes the last filling.
fn filled_row<S: Look, L: Ledger>(
    alloc: Global,
    source: &S,
    dropped: &Dropped<'_>,
    row: &Row,
    fillings: &mut Fillings,
    looked: &mut Steps<L>,
) -> Result<Row, NoMemory>
    requires some { length (set.items dropped.now.by.now) ≢ 0 }
    requires asked { Contains (S.asked source.now) dropped.now.by.now }
    requires have { HasColumns dropped.now.by.now row.now }
    requires fillings { let k = dropped.now in let M = (S.relation source.now).rows in
        BothFill k.col.now k.by.now k.fill.now M fillings.old }
    ensures row { let k = dropped.now in let M = (S.relation source.now).rows in
        IfOk result (λ filled. filled ≡ filled_in k.col.now k.by.now k.fill.now M row.now) }
    ensures fillings { let k = dropped.now in let M = (S.relation source.now).rows in
        BothFill k.col.now k.by.now k.fill.now M fillings.new }
    ensures looks { (n : ℕ) → S.within source.now n → looked.new ≤ looked.old + n }
{
    let known = match &fillings.last {
        Some(last) if row.agree_on(&last.key, dropped.by) => fillings.last.take(),
        _ => fillings.earlier.take(),
    };
    let filling = filling_of(alloc, source, dropped, row, known, looked)?;
    let filled = with_value(alloc, row, dropped.col, &filling.value, dropped.names)?;
    if let Some(before) = fillings.last.replace(filling) {
        fillings.earlier = Some(before);
    }
    Ok(filled)
}

// What fills in the row. The source is asked only where the known filling is for another key.
fn filling_of<S: Look, L: Ledger>(
    alloc: Global,
    source: &S,
    dropped: &Dropped<'_>,
    row: &Row,
    known: Option<Filling>,
    looked: &mut Steps<L>,
) -> Result<Filling, NoMemory>
    requires some { length (set.items dropped.now.by.now) ≢ 0 }
    requires asked { Contains (S.asked source.now) dropped.now.by.now }
    requires have { HasColumns dropped.now.by.now row.now }
    requires known { let k = dropped.now in let M = (S.relation source.now).rows in
        IfSome known (Fills k.col.now k.by.now k.fill.now M) }
    ensures fills { let k = dropped.now in let M = (S.relation source.now).rows in
        IfOk result (Fills k.col.now k.by.now k.fill.now M) }
    ensures value { let k = dropped.now in let M = (S.relation source.now).rows in
        IfOk result (λ filling.
        filling.value ≡ filling_for k.col.now k.by.now k.fill.now M row.now) }
    ensures looks { (n : ℕ) → S.within source.now n → looked.new ≤ looked.old + n }
{
    if let Some(known) = known {
        if row.agree_on(&known.key, dropped.by) {
            return Ok(known);
        }
    }
    let found = source.find(alloc, dropped.by, row, looked)?;
    let value = first_value(alloc, dropped, &found)?;
    let key = row.copy(alloc)?;
    Ok(Filling { key, value })
}

// The first row's value in the column, or the default if there is no row.
fn first_value(alloc: Global, dropped: &Dropped<'_>, rows: &RowSet) -> Result<Value, NoMemory>
    ensures { let first = slice_get (set.items rows.now) 0 in
        IfOk result (λ value. value ≡ value_of dropped.now.col.now dropped.now.fill.now first) }
{
    match rows.rows().first() {
        Some(first) => match first.value(dropped.col) {
            Some(value) => value.copy(alloc),
            None => dropped.fill.copy(alloc),
        },
        None => dropped.fill.copy(alloc),
    }
}

// The row with this value in the column. It shares these names, if they are its names then.
fn with_value(
    alloc: Global,
    row: &Row,
    col: &Name,
    value: &Value,
    like: &Names,
) -> Result<Row, NoMemory>
    ensures { IfOk result (λ filled. filled ≡ with_at row.now col.now (Some value.now)) }
{
    let values = values_with(alloc, row, col, value, like)?;
    if values.len() == like.len() && like.has(col) && row.names().within(like) {
        return Row::from_values(alloc, like.copy(alloc)?, values);
    }
    let single = Row::single(alloc, col, value)?;
    row.paste(alloc, &single)
}

// The values of the row under the names, in their order, as if the row had this value in the
// column. A name that the row lacks has none.
fn values_with(
    alloc: Global,
    row: &Row,
    col: &Name,
    value: &Value,
    names: &Names,
) -> Result<Vec<Value>, NoMemory>
    ensures { let filled = with_at row.now col.now (Some value.now) in IfOk result (λ found.
        found.items ≡ filter_map (finmap.get filled) (set.items names.now)) }
{
    let mut found = Vec::with_capacity(alloc, names.len())?;
    for name in names.as_slice() {
        let own = if name == col {
            Some(value)
        } else {
            row.value(name)
        };
        if let Some(own) = own {
            found.push(own.copy(alloc)?)?;
        }
    }
    Ok(found)
}

//! Pairs of rows that agree on some columns.
ghost use Rattle.std.specs.Prelude.{◌≡◌, ◌++◌, IfOk, IfSome, OnOk, filter, flat_map, map};
ghost use Rattle.std.specs.List.Sorted.{IsStrictlySortedBy};
ghost use Rattle.std.specs.Ordering.{is_eq};
ghost use Rattle.plain_values.specs.Part.{override, restrict};
ghost use Rattle.plain_values.specs.Row.{row_cmp};
ghost use Rattle.row_sets.specs.Joins.{entry_cmp};

use crate::index::{Group, with_part};
use lens_values::{Names, NoMemory, Row};
use std::alloc::Global;

/// Each of the rows pasted with each indexed row that agrees with it on the columns.
pub fn paired(
    alloc: Global,
    rows: &[Row],
    cols: &Names,
    index: &[(Row, Row)],
) -> Result<Vec<Row>, NoMemory>
    requires { IsStrictlySortedBy entry_cmp index.now }
    ensures { IfOk result (λ pairs. pairs.items ≡ flat_map (λ m.
        map (λ e. override e.1 m)
        (filter (λ e. is_eq (row_cmp e.0 (restrict cols.now m))) index.now)) rows.now) }
{
    let mut pairs = Vec::new(alloc);
    let mut near = Group {
        entries: &index[..0],
        end: 0,
    };
    let mut before = None;
    for row in rows {
        near = partners(alloc, row, before, cols, index, near)?;
        append_pairs(&mut pairs, alloc, row, near.entries)?;
        before = Some(row);
    }
    Ok(pairs)
}

// The entries with the row's part. They are those of the row before it, where both agree, and else
// mostly the next ones.
fn partners<'a>(
    alloc: Global,
    row: &Row,
    before: Option<&Row>,
    cols: &Names,
    index: &'a [(Row, Row)],
    near: Group<'a>,
) -> Result<Group<'a>, NoMemory>
    requires order { IsStrictlySortedBy entry_cmp index.now }
    requires near { IfSome before (λ b. near.entries.now
        ≡ filter (λ e. is_eq (row_cmp e.0 (restrict cols.now b.now))) index.now) }
    ensures { IfOk result (λ some. some.entries.now
        ≡ filter (λ e. is_eq (row_cmp e.0 (restrict cols.now row.now))) index.now) }
{
    match before {
        Some(before) if before.agree_on(row, cols) => Ok(near),
        _ => {
            let part = row.project(alloc, cols)?;
            Ok(with_part(index, &part, near.end))
        }
    }
}

// Adds the row pasted with each of the indexed rows.
fn append_pairs(
    pairs: &mut Vec<Row>,
    alloc: Global,
    row: &Row,
    index: &[(Row, Row)],
) -> Result<(), NoMemory>
    ensures { OnOk result (pairs.new.items
        ≡ pairs.old.items ++ map (λ e. override e.1 row.now) index.now) }
{
    for entry in index {
        let pair = pasted(alloc, row, &entry.1, pairs.last())?;
        pairs.push(pair)?;
    }
    Ok(())
}

// The row with `over` pasted over it. All pairs of two relations have the same columns, so each pair
// shares the names of the pair before it.
fn pasted(alloc: Global, row: &Row, over: &Row, before: Option<&Row>) -> Result<Row, NoMemory>
    ensures { IfOk result (λ pair. pair ≡ override over.now row.now) }
{
    match before {
        Some(before) => row.paste_like(alloc, over, before.names()),
        None => row.paste(alloc, over),
    }
}

/// The part in these columns of the row with the other pasted over it, made with nothing else.
pub fn pasted_part(alloc: Global, row: &Row, over: &Row, cols: &Names) -> Result<Row, NoMemory>
    ensures { IfOk result (λ part. part ≡ restrict cols.now (override over.now row.now)) }
{
    let values = row.values_with(alloc, over, cols)?;
    if values.len() == cols.len() {
        return Row::from_values(alloc, cols.copy(alloc)?, values);
    }
    row.paste(alloc, over)?.project(alloc, cols)
}

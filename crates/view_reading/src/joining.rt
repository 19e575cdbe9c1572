//! Parts of the pairs of rows of both sides of a join.
ghost use Rattle.std.specs.Prelude.{◌≡◌, ◌++◌, IfOk, IfSome, OnOk, map};
ghost use Rattle.std.specs.List.{filter_map};
ghost use Rattle.std.specs.List.Sorted.{IsStrictlySortedBy};
ghost use Rattle.plain_values.specs.SortedSet as set;
ghost use Rattle.lens_specs.specs.Names.{Names as NameSet};
ghost use Rattle.lens_specs.specs.Relation.{project};
ghost use Rattle.lens_specs.specs.Rows.{agree};
ghost use Rattle.row_sets.specs.Joins.{entry_cmp, pairs_on};
ghost use Rattle.view_reading.specs.Pasting.{AreNamed, HasNames, IsIndex, near_in, own_place, part_at, parts_by};

use crate::pasting::{Place, own_places, part_at, places_in, same_at};
use lens_values::{Names, NoMemory, Row};
use row_sets::{Group, RowSet, indexed, with_part};
use std::alloc::Global;

/// One side of a join: its rows, which all have these columns.
#[derive(Clone, Copy)]
pub(crate) struct Side<'a> {
    pub(crate) rows: &'a RowSet,
    pub(crate) cols: &'a Names,
}

/// The parts in the columns `kept` of the pairs of rows of both sides that agree on the columns of
/// both, pasted, in no certain order and perhaps more than once. Nothing else is made of the pairs.
pub(crate) fn joined_parts(
    alloc: Global,
    left: &Side<'_>,
    right: &Side<'_>,
    kept: &Names,
) -> Result<Vec<Row>, NoMemory>
    requires left { AreNamed left.now.cols.now left.now.rows.now }
    requires right { AreNamed right.now.cols.now right.now.rows.now }
    ensures { let shared = set.intersection left.now.cols.now right.now.cols.now in
        let pairs = pairs_on shared left.now.rows.now right.now.rows.now in
        IfOk result (λ parts. set.from_list parts.items ≡ project kept.now pairs) }
{
    let shared = left.cols.meet(alloc, right.cols)?;
    let places = own_places(alloc, &shared, left.cols)?;
    let index = Index::new(alloc, right.rows.rows(), shared, places)?;
    index.parts(
        alloc,
        left,
        kept,
        &places_in(alloc, kept, left.cols, right.cols)?,
    )
}

// The rows of the right side, each after its part in the columns of both, in rising order.
#[derive(Drop)]
struct Index {
    entries: Vec<(Row, Row)>,
    // The columns of both sides, and their places in a row of the left one.
    cols: Names,
    places: Vec<usize>,
}

impl Index {
    // The index of the rows by these columns.
    fn new(alloc: Global, rows: &[Row], cols: Names, places: Vec<usize>) -> Result<Index, NoMemory>
        ensures cols { IfOk result (λ index. index.cols ≡ cols) }
        ensures places { IfOk result (λ index. index.places.items ≡ places.items) }
        ensures entries { IfOk result (λ index. IsIndex cols rows.now index.entries.items) }
    {
        let entries = indexed(alloc, rows, &cols)?;
        Ok(Index {
            entries,
            cols,
            places,
        })
    }

    // The kept part of each row of the left side pasted with the row of each entry that agrees with
    // it. The kept columns stand at the places.
    fn parts(
        &self,
        alloc: Global,
        left: &Side<'_>,
        kept: &Names,
        places: &[Place],
    ) -> Result<Vec<Row>, NoMemory>
        requires order { IsStrictlySortedBy entry_cmp self.now.entries.items }
        requires left { AreNamed left.now.cols.now left.now.rows.now }
        requires places { let own = filter_map (own_place left.now.cols.now) in
            self.now.places.items ≡ own (set.items self.now.cols) }
        ensures { IfOk result (λ parts. parts.items ≡ parts_by kept.now places.now
            self.now.cols self.now.entries.items (set.items left.now.rows.now)) }
    {
        let mut parts = Vec::new(alloc);
        let mut near = Group {
            entries: &self.entries[..0],
            end: 0,
        };
        let mut before = None;
        for row in left.rows.rows() {
            near = self.partners(alloc, row, before, near)?;
            add_parts(alloc, row, near.entries, kept, places, &mut parts)?;
            before = Some(row);
        }
        Ok(parts)
    }

    // The entries with the part of the row. They are those of the row before it, where both agree, and
    // else mostly the next ones.
    fn partners<'a>(
        &'a self,
        alloc: Global,
        row: &Row,
        before: Option<&Row>,
        near: Group<'a>,
    ) -> Result<Group<'a>, NoMemory>
        requires order { IsStrictlySortedBy entry_cmp self.now.entries.items }
        requires near { IfSome before (λ b.
            near.entries.now ≡ near_in self.now.entries.items self.now.cols b.now) }
        ensures { (U : NameSet)
            → self.now.places.items ≡ filter_map (own_place U) (set.items self.now.cols)
            → HasNames U row.now → IfSome before.entry (λ b. HasNames U b.now)
            → IfOk result (λ some.
            some.entries.now ≡ near_in self.now.entries.items self.now.cols row.now) }
    {
        match before {
            Some(before) if self.are_alike(before, row) => Ok(near),
            _ => {
                let part = row.project(alloc, &self.cols)?;
                Ok(with_part(&self.entries, &part, near.end))
            }
        }
    }

    // Whether two rows of the left side agree on the columns of both sides.
    fn are_alike(&self, row: &Row, other: &Row) -> bool
        ensures { (U : NameSet)
            → self.now.places.items ≡ filter_map (own_place U) (set.items self.now.cols)
            → HasNames U row.now → HasNames U other.now
            → result ≡ agree self.now.cols row.now other.now }
    {
        same_at(&self.places, row.values(), other.values())
    }
}

// Adds the kept part of the left row pasted with the right row of each entry.
fn add_parts(
    alloc: Global,
    row: &Row,
    entries: &[(Row, Row)],
    kept: &Names,
    places: &[Place],
    parts: &mut Vec<Row>,
) -> Result<(), NoMemory>
    ensures { OnOk result (parts.new.items
        ≡ parts.old.items ++ map (λ e. part_at kept.now places.now row.now e.1) entries.now) }
{
    for entry in entries {
        let part = part_at(alloc, kept, places, row, &entry.1)?;
        parts.push(part)?;
    }
    Ok(())
}

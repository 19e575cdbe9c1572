//! Rows of a view by key.
ghost use Rattle.std.specs.Prelude.{◌≡◌, ◌≤◌, ◌+◌, ◌*◌, ℕ, Contains, IfOk, IfSome, length};
ghost use Rattle.plain_values.specs.Part.{restrict};
ghost use Rattle.plain_values.specs.SortedSet as set;
ghost use Rattle.lens_specs.specs.Lens.{get, join, rename, view_names};
ghost use Rattle.lens_specs.specs.Names.{Within};
ghost use Rattle.lens_specs.specs.Relation.{project};
ghost use Rattle.lens_specs.specs.Rows.{agree};
ghost use Rattle.lens_laws.specs.KeyedDeltas.{find_by};
ghost use Rattle.lens_laws.specs.Lenses.{IsTyped};
ghost use Rattle.lens_laws.specs.Work.{size};
ghost use Rattle.signed_delta.specs.Keys.{HasColumns};
ghost use Rattle.lens_probe.specs.NearRows.{AreOfJoin};
ghost use Rattle.lens_probe.specs.Looking.{ArePartners, FindsWithin, HasFound, MayFind, find_part, pairs_of};

use crate::near::{Near, known_rows};
use crate::pairing::add_pairs;
use crate::selecting::selected;
use base_index::Tables;
use lens_types::{JoinKind, Node, TypedLens, rename_row, rename_set};
use lens_values::{Name, Names, NoMemory, Row};
use row_sets::RowSet;
use std::alloc::Global;
use std::sync::ledger::Ledger;
use step_counter::Steps;
use view_reading::{names_of, shared_names};

/// A look-up in tables: the columns to go by, and a row that has them.
#[derive(Clone, Copy)]
pub(crate) struct Query<'a> {
    pub(crate) tables: &'a Tables,
    pub(crate) cols: &'a Names,
    pub(crate) key: &'a Row,
}

// Rows of one side of a join that agree on the shared columns with the key, a row of the other side.
#[derive(Drop)]
struct Partners {
    key: Row,
    rows: RowSet,
}

/// The rows that the lens shows of the tables and that agree with the key on its columns. What is
/// near is not looked for again.
#[cycle(find)]
pub(crate) fn find_in<L: Ledger>(
    alloc: Global,
    lens: &TypedLens,
    near: &[Near],
    query: &Query<'_>,
    looked: &mut Steps<L>,
) -> Result<RowSet, NoMemory>
    requires near { AreOfJoin lens.now query.now.tables.now.present near.now }
    requires asked { MayFind lens.now query.now.tables.now.present query.now.cols.now }
    requires key { HasColumns query.now.cols.now query.now.key.now }
    ensures found { let shown = get lens.now query.now.tables.now.present.relations in
        IfOk result (λ found. found ≡ find_by query.now.cols.now query.now.key.now shown) }
    ensures looks { let st = query.now.tables.now.present in
        HasFound lens.now st query.now.cols.now looked.old looked.new }
{
    match lens.node() {
        Node::Base { table, .. } => query.tables.find(table, query.cols, query.key, looked),
        Node::Select { pred, of } => {
            let found = find_in(alloc, of, near, query, looked)?;
            selected(alloc, pred, found)
        }
        Node::Drop { of, .. } => find_parts(alloc, names_of(lens), of, near, query, looked),
        Node::Rename { col, to, of } => find_renamed(alloc, col, to, of, near, query, looked),
        Node::Join { kind, left, right } => {
            if let Some(rows) = known_rows(near, query) {
                return rows.copy(alloc);
            }
            find_joined(alloc, kind, left, right, names_of(lens), query, looked)
        }
    }
}

// The parts in some columns, among which are those of the query, of the rows that the lens shows and
// that the query asks for. Nothing else is made of the pairs of a join.
#[cycle(find)]
fn find_parts<L: Ledger>(
    alloc: Global,
    kept: &Names,
    lens: &TypedLens,
    near: &[Near],
    query: &Query<'_>,
    looked: &mut Steps<L>,
) -> Result<RowSet, NoMemory>
    requires near { AreOfJoin lens.now query.now.tables.now.present near.now }
    requires kept { Within query.now.cols.now kept.now }
    requires asked { MayFind lens.now query.now.tables.now.present query.now.cols.now }
    requires key { HasColumns query.now.cols.now query.now.key.now }
    ensures found { let shown = get lens.now query.now.tables.now.present.relations in
        IfOk result (λ found.
        found ≡ project kept.now (find_by query.now.cols.now query.now.key.now shown)) }
    ensures looks { let st = query.now.tables.now.present in
        HasFound lens.now st query.now.cols.now looked.old looked.new }
{
    match lens.node() {
        Node::Join { kind, left, right } => {
            if let Some(rows) = known_rows(near, query) {
                return rows.project(alloc, kept);
            }
            find_joined(alloc, kind, left, right, kept, query, looked)
        }
        Node::Base { .. } | Node::Select { .. } | Node::Drop { .. } | Node::Rename { .. } => {
            let found = find_in(alloc, lens, near, query, looked)?;
            found.project(alloc, kept)
        }
    }
}

// The rows that the rename shows and that the query asks for. Its source is asked by the old name.
#[cycle(find)]
fn find_renamed<L: Ledger>(
    alloc: Global,
    col: &Name,
    to: &Name,
    of: &TypedLens,
    near: &[Near],
    query: &Query<'_>,
    looked: &mut Steps<L>,
) -> Result<RowSet, NoMemory>
    requires near { AreOfJoin of.now query.now.tables.now.present near.now }
    requires typed { IsTyped (rename col.now to.now of.now) }
    requires asked { let st = query.now.tables.now.present in
        MayFind (rename col.now to.now of.now) st query.now.cols.now }
    requires key { HasColumns query.now.cols.now query.now.key.now }
    ensures found { let L = rename col.now to.now of.now in
        let shown = get L query.now.tables.now.present.relations in
        IfOk result (λ found. found ≡ find_by query.now.cols.now query.now.key.now shown) }
    ensures looks { let st = query.now.tables.now.present in
        HasFound (rename col.now to.now of.now) st query.now.cols.now looked.old looked.new }
{
    let cols = query.cols.rename(alloc, to, col)?;
    // The key may also have a column of the old name, which is none of the query's.
    let part = query.key.project(alloc, query.cols)?;
    let key = rename_row(alloc, &part, to, col)?;
    let asked = Query {
        cols: &cols,
        key: &key,
        ..*query
    };
    let found = find_in(alloc, of, near, &asked, looked)?;
    rename_set(alloc, &found, names_of(of), col, to)
}

// The parts in the columns that are kept of the rows of the join of both that the query asks for. The
// left side is asked first if the key has a column of it.
#[cycle(find)]
fn find_joined<L: Ledger>(
    alloc: Global,
    _kind: JoinKind,
    left: &TypedLens,
    right: &TypedLens,
    kept: &Names,
    query: &Query<'_>,
    looked: &mut Steps<L>,
) -> Result<RowSet, NoMemory>
    requires typed { IsTyped (join _kind left.now right.now) }
    requires kept { Within query.now.cols.now kept.now }
    requires asked { let st = query.now.tables.now.present in
        MayFind (join _kind left.now right.now) st query.now.cols.now }
    requires key { HasColumns query.now.cols.now query.now.key.now }
    ensures found { let shown = get (join _kind left.now right.now) query.now.tables.now.present.relations in
        IfOk result (λ found.
        found ≡ project kept.now (find_by query.now.cols.now query.now.key.now shown)) }
    ensures looks { let st = query.now.tables.now.present in
        HasFound (join _kind left.now right.now) st query.now.cols.now looked.old looked.new }
{
    let shared = shared_names(alloc, left, right)?;
    if query.cols.meets(names_of(left)) {
        pairs_from(alloc, left, true, right, &shared, kept, query, looked)
    } else {
        pairs_from(alloc, right, false, left, &shared, kept, query, looked)
    }
}

// What is kept of the pairs of rows of both sides of a join that agree with the key: one side, which
// is the left one or the right one, is asked by its part of the key, and the other side by the
// shared columns for each row found.
#[cycle(find)]
fn pairs_from<L: Ledger>(
    alloc: Global,
    side: &TypedLens,
    is_left: bool,
    other: &TypedLens,
    shared: &Names,
    kept: &Names,
    query: &Query<'_>,
    looked: &mut Steps<L>,
) -> Result<RowSet, NoMemory>
    requires typed { IsTyped side.now }
    requires asked { let st = query.now.tables.now.present in
        MayFind side.now st (set.intersection query.now.cols.now (view_names side.now)) }
    requires other { MayFind other.now query.now.tables.now.present shared.now }
    requires shared { Within shared.now (view_names side.now) }
    requires key { HasColumns query.now.cols.now query.now.key.now }
    ensures found { let db = query.now.tables.now.present.relations in
        let C = query.now.cols.now in
        let found = find_part C query.now.key.now (view_names side.now) (get side.now db) in
        IfOk result (λ pairs. pairs ≡ set.from_list
        (pairs_of is_left shared.now kept.now C query.now.key.now (get other.now db) (set.items found))) }
    ensures looks { (w : ℕ) → let st = query.now.tables.now.present in
        FindsWithin side.now st (set.intersection query.now.cols.now (view_names side.now)) w
        → FindsWithin other.now st shared.now w
        → looked.new ≤ looked.old + (size side.now w + size side.now w * size other.now w) }
{
    let found = find_by_part(alloc, side, query, looked)?;
    let pairs = pair_each(
        alloc,
        found.rows(),
        is_left,
        other,
        shared,
        kept,
        query,
        looked,
    )?;
    RowSet::new(alloc, pairs)
}

// The rows of a side of the join that agree with the key on its columns. Mostly the columns are all
// its own, and nothing is allocated.
#[cycle(find)]
fn find_by_part<L: Ledger>(
    alloc: Global,
    side: &TypedLens,
    query: &Query<'_>,
    looked: &mut Steps<L>,
) -> Result<RowSet, NoMemory>
    requires asked { let st = query.now.tables.now.present in
        MayFind side.now st (set.intersection query.now.cols.now (view_names side.now)) }
    requires key { HasColumns query.now.cols.now query.now.key.now }
    ensures found { let shown = get side.now query.now.tables.now.present.relations in
        IfOk result (λ found.
        found ≡ find_part query.now.cols.now query.now.key.now (view_names side.now) shown) }
    ensures looks { let part = set.intersection query.now.cols.now (view_names side.now) in
        HasFound side.now query.now.tables.now.present part looked.old looked.new }
{
    if query.cols.within(names_of(side)) {
        return find_in(alloc, side, &[], query, looked);
    }
    let part = query.cols.meet(alloc, names_of(side))?;
    let asked = Query {
        cols: &part,
        ..*query
    };
    find_in(alloc, side, &[], &asked, looked)
}

// Each of the rows, which are of the left side or of the right one, put together with each row of
// the other side that agrees with it on the shared columns: what is kept, where it agrees with the
// key.
#[cycle(find)]
fn pair_each<L: Ledger>(
    alloc: Global,
    rows: &[Row],
    are_left: bool,
    other: &TypedLens,
    shared: &Names,
    kept: &Names,
    query: &Query<'_>,
    looked: &mut Steps<L>,
) -> Result<Vec<Row>, NoMemory>
    requires asked { MayFind other.now query.now.tables.now.present shared.now }
    requires have { (row : _) → Contains rows.now row → HasColumns shared.now row }
    ensures pairs { let others = get other.now query.now.tables.now.present.relations in
        let C = query.now.cols.now in
        IfOk result (λ pairs.
        pairs.items ≡ pairs_of are_left shared.now kept.now C query.now.key.now others rows.now) }
    ensures looks { (w : ℕ) → FindsWithin other.now query.now.tables.now.present shared.now w
        → looked.new ≤ looked.old + size other.now w * length rows.now }
{
    let mut pairs = Vec::new(alloc);
    let mut last = None;
    for row in rows {
        let partners = partners_of(alloc, row, last, other, shared, query, looked)?;
        add_pairs(
            alloc,
            row,
            are_left,
            partners.rows.rows(),
            kept,
            query,
            &mut pairs,
        )?;
        last = Some(partners);
    }
    Ok(pairs)
}

// The rows of the other side that agree with the row on the shared columns. They are asked for only
// where the last ones are another row's: mostly the rows that a key finds have the same partners.
#[cycle(find)]
fn partners_of<L: Ledger>(
    alloc: Global,
    row: &Row,
    last: Option<Partners>,
    other: &TypedLens,
    shared: &Names,
    query: &Query<'_>,
    looked: &mut Steps<L>,
) -> Result<Partners, NoMemory>
    requires asked { MayFind other.now query.now.tables.now.present shared.now }
    requires have { HasColumns shared.now row.now }
    requires last { let others = get other.now query.now.tables.now.present.relations in
        IfSome last (ArePartners shared.now others) }
    ensures partners { let others = get other.now query.now.tables.now.present.relations in
        IfOk result (ArePartners shared.now others) }
    ensures rows { let others = get other.now query.now.tables.now.present.relations in
        IfOk result (λ partners.
        partners.rows ≡ find_by shared.now (restrict shared.now row.now) others) }
    ensures looks { let st = query.now.tables.now.present in
        HasFound other.now st shared.now looked.old looked.new }
{
    if let Some(last) = last {
        if row.agree_on(&last.key, shared) {
            return Ok(last);
        }
    }
    let asked = Query {
        cols: shared,
        key: row,
        ..*query
    };
    let rows = find_in(alloc, other, &[], &asked, looked)?;
    let key = row.copy(alloc)?;
    Ok(Partners { key, rows })
}

//! Natural joins of two sources.
ghost use Rattle.std.specs.Prelude.{◌≡◌, Bool, IfOk, None, filter};
ghost use Rattle.plain_values.specs.Part.{restrict};
ghost use Rattle.plain_values.specs.Row.{Row as OneRow};
ghost use Rattle.lens_specs.specs.Columns.{both_columns, columns_in, kinds_differ, names};
ghost use Rattle.lens_specs.specs.Dependencies.{MeetsTree};
ghost use Rattle.lens_specs.specs.Nodes.{join_get, join_left_after, join_right_after};
ghost use Rattle.lens_specs.specs.Relation.{IsRelation, has, minus, project, those};
ghost use Rattle.lens_specs.specs.Rows.{cut};
ghost use Rattle.whole_put.specs.Joinable.{CanBePut};
ghost use Rattle.whole_put.specs.Lost.{kept_of, left_without, right_without, surplus_of};

use fd_tree::Tree;
use lens_values::{Columns, JoinKind, Names, NoMemory, Row};
use revision::merge;
use row_sets::{Relation, RowSet};
use std::alloc::Global;

/// The natural join of the sources, whose shared columns have one kind each.
pub fn get_join(alloc: Global, left: &Relation, right: &Relation) -> Result<Relation, NoMemory>
    requires { kinds_differ left.now.columns right.now.columns ≡ None }
    ensures { let U = left.now.columns in
        let V = right.now.columns in
        let rows = join_get (names U) (names V) left.now.rows right.now.rows in
        IfOk result (λ view. view ≡ record { columns = both_columns U V; rows = rows }) }
{
    left.join(alloc, right)
}

/// The left and the right source after a put of the view (Bohannon, Pierce and Vaughan, PODS 2006):
/// each is merged with its part of the view, and then loses, by the kind of the join, rows that
/// would join to a row that the view lacks. The view is read again, and to put back what is read
/// changes nothing.
pub fn put_join(
    alloc: Global,
    kind: JoinKind,
    left_tree: &Tree,
    right_tree: &Tree,
    view: &Relation,
    left: &Relation,
    right: &Relation,
) -> Result<(Relation, Relation), NoMemory>
    requires can { CanBePut left.now.columns right.now.columns left_tree.now right_tree.now }
    requires left_meets { MeetsTree left.now.rows left_tree.now }
    requires right_meets { MeetsTree right.now.rows right_tree.now }
    requires columns { view.now.columns ≡ both_columns left.now.columns right.now.columns }
    requires view_left { MeetsTree (project (names left.now.columns) view.now.rows) left_tree.now }
    requires view_right { MeetsTree (project (names right.now.columns) view.now.rows)
        right_tree.now }
    ensures left { let U = names left.now.columns in
        let V = names right.now.columns in
        let rows = join_left_after kind U V left_tree.now right_tree.now view.now.rows left.now.rows right.now.rows in
        IfOk result (λ after. after.0 ≡ record left.now { rows = rows }) }
    ensures right { let U = names left.now.columns in
        let V = names right.now.columns in
        let rows = join_right_after kind U V left_tree.now right_tree.now view.now.rows left.now.rows right.now.rows in
        IfOk result (λ after. after.1 ≡ record right.now { rows = rows }) }
    ensures put_get { let U = names left.now.columns in
        let V = names right.now.columns in
        IfOk result (λ after. join_get U V after.0.rows after.1.rows ≡ view.now.rows) }
    ensures get_put { let shown = join_get (names left.now.columns) (names right.now.columns) left.now.rows right.now.rows in
        IfOk result (λ after. view.now.rows ≡ shown → after ≡ (left.now, right.now)) }
{
    let left_part = part(alloc, view, left.columns())?;
    let right_part = part(alloc, view, right.columns())?;
    let merged = merge(alloc, left_tree, left, &left_part)?;
    let merged_right = merge(alloc, right_tree, right, &right_part)?;
    let (new_left, new_right) = without_surplus(
        alloc,
        kind,
        &merged,
        merged_right,
        view,
        &right_part,
    )?;
    Ok((new_left, new_right))
}

// The sources without what each loses, of the joined rows that the view lacks. The parts are those
// of the view in the columns of the right source.
fn without_surplus(
    alloc: Global,
    kind: JoinKind,
    left: &Relation,
    right: Relation,
    view: &Relation,
    parts: &Relation,
) -> Result<(Relation, Relation), NoMemory>
    requires kinds { kinds_differ left.now.columns right.columns ≡ None }
    requires columns { view.now.columns ≡ both_columns left.now.columns right.columns }
    ensures left { let over = surplus_of left.now right view.now.rows in
        let rows = left_without kind (names left.now.columns) over (kept_of parts.now over) left.now.rows in
        IfOk result (λ after. after.0 ≡ record left.now { rows = rows }) }
    ensures right { let over = surplus_of left.now right view.now.rows in
        let rows = right_without kind (names right.columns) over (kept_of parts.now over) right.rows in
        IfOk result (λ after. after.1 ≡ record right { rows = rows }) }
{
    let over = surplus(alloc, left, &right, view)?;
    let kept = joined_to(alloc, &over, parts)?;
    let new_left = left_without(alloc, kind, left, &over, &kept)?;
    let new_right = right_without(alloc, kind, right, over, kept)?;
    Ok((new_left, new_right))
}

// The rows in these columns, which are among theirs.
fn part(alloc: Global, relation: &Relation, columns: &Columns) -> Result<Relation, NoMemory>
    requires { columns_in relation.now.columns (names columns.now) ≡ columns.now }
    ensures value { let rows = project (names columns.now) relation.now.rows in
        IfOk result (λ part. part ≡ record { columns = columns.now; rows = rows }) }
    ensures fit { IsRelation relation.now }
{
    let rows = relation.rows().project(alloc, &columns.names(alloc)?)?;
    Ok(Relation::with_rows(columns.copy(alloc)?, rows))
}

// The joined rows that the view lacks.
fn surplus(
    alloc: Global,
    left: &Relation,
    right: &Relation,
    view: &Relation,
) -> Result<Relation, NoMemory>
    requires kinds { kinds_differ left.now.columns right.now.columns ≡ None }
    requires columns { view.now.columns ≡ both_columns left.now.columns right.now.columns }
    ensures { let shown = join_get (names left.now.columns) (names right.now.columns) left.now.rows right.now.rows in
        IfOk result (λ over. over ≡ record {
          columns = both_columns left.now.columns right.now.columns;
          rows = minus shown view.now.rows;
        }) }
{
    let joined = get_join(alloc, left, right)?;
    joined.minus(alloc, view)
}

// Those of the rows whose part in the columns of the others is among these.
fn joined_to(alloc: Global, rows: &Relation, parts: &Relation) -> Result<Relation, NoMemory>
    ensures { let is_kept : OneRow → Bool = λ w. has parts.now.rows (cut (names parts.now.columns) w) in
        IfOk result (λ kept. kept ≡ record rows.now { rows = those is_kept rows.now.rows }) }
{
    let cols = parts.columns().names(alloc)?;
    let kept = RowSet::from_rising(with_part(alloc, rows.rows().rows(), &cols, parts.rows())?);
    Ok(Relation::with_rows(rows.columns().copy(alloc)?, kept))
}

// Copies of the rows whose part in these columns is among the parts, in order.
fn with_part(
    alloc: Global,
    rows: &[Row],
    cols: &Names,
    parts: &RowSet,
) -> Result<Vec<Row>, NoMemory>
    ensures { IfOk result (λ some.
        some.items ≡ filter (λ w. has parts.now (restrict cols.now w)) rows.now) }
{
    let mut some = Vec::new(alloc);
    for row in rows {
        if parts.has(&row.project(alloc, cols)?) {
            some.push(row.copy(alloc)?)?;
        }
    }
    Ok(some)
}

// The left source without the parts of the rows that it loses.
fn left_without(
    alloc: Global,
    kind: JoinKind,
    source: &Relation,
    over: &Relation,
    kept: &Relation,
) -> Result<Relation, NoMemory>
    requires over { columns_in over.now.columns (names source.now.columns) ≡ source.now.columns }
    requires kept { kept.now.columns ≡ over.now.columns }
    ensures { let rows = left_without kind (names source.now.columns) over.now.rows kept.now.rows source.now.rows in
        IfOk result (λ left. left ≡ record source.now { rows = rows }) }
{
    match kind {
        JoinKind::DeleteLeft => without(alloc, source, over),
        JoinKind::DeleteRight => without(alloc, source, kept),
        JoinKind::DeleteBoth => without(alloc, source, over),
    }
}

// The right source without the parts of the rows that it loses.
fn right_without(
    alloc: Global,
    kind: JoinKind,
    source: Relation,
    over: Relation,
    kept: Relation,
) -> Result<Relation, NoMemory>
    requires over { columns_in over.columns (names source.columns) ≡ source.columns }
    requires kept { kept.columns ≡ over.columns }
    ensures { let rows = right_without kind (names source.columns) over.rows kept.rows source.rows in
        IfOk result (λ right. right ≡ record source { rows = rows }) }
{
    match kind {
        JoinKind::DeleteLeft => Ok(source),
        JoinKind::DeleteRight => without_others(alloc, &source, over, kept),
        JoinKind::DeleteBoth => without_others(alloc, &source, over, kept),
    }
}

// The rows of `source` without the parts of those rows of `over` that are not in `kept`.
fn without_others(
    alloc: Global,
    source: &Relation,
    over: Relation,
    kept: Relation,
) -> Result<Relation, NoMemory>
    requires over { columns_in over.columns (names source.now.columns) ≡ source.now.columns }
    requires kept { kept.columns ≡ over.columns }
    ensures { let V = names source.now.columns in
        IfOk result (λ rest. rest
        ≡ record source.now { rows = minus source.now.rows (project V (minus over.rows kept.rows)) }) }
{
    let others = over.minus(alloc, &kept)?;
    without(alloc, source, &others)
}

// The rows without the parts of the others in their columns.
fn without(alloc: Global, source: &Relation, rows: &Relation) -> Result<Relation, NoMemory>
    requires { columns_in rows.now.columns (names source.now.columns) ≡ source.now.columns }
    ensures { let U = names source.now.columns in
        IfOk result (λ rest. rest
        ≡ record source.now { rows = minus source.now.rows (project U rows.now.rows) }) }
{
    let lost = part(alloc, rows, source.columns())?;
    source.minus(alloc, &lost)
}

//! The tables after a put of the view that a lens shows of them.
ghost use Rattle.std.specs.Prelude.{◌≡◌, IfOk, OnOk};
ghost use Rattle.lens_specs.specs.Lens as spec;
ghost use Rattle.lens_specs.specs.Lens.{sort_of, view_names};
ghost use Rattle.lens_specs.specs.Nodes.{drop_put, join_left_after, join_right_after, rename_put, select_put};
ghost use Rattle.lens_specs.specs.Predicate.{holds};
ghost use Rattle.lens_specs.specs.Sort.{IsOfSort};
ghost use Rattle.lens_laws.specs.Lenses.{AreOf, IsTyped};
ghost use Rattle.whole_put.specs.Sources.{AreShown};

use crate::db::Db;
use crate::dropping::put_drop;
use crate::joining::put_join;
use crate::renaming::put_rename;
use crate::selecting::put_select;
use crate::sources::Sources;
use lens_pred::Pred;
use lens_types::{Node, TypedLens};
use lens_values::{JoinKind, Name, Names, NoMemory, Value};
use row_sets::Relation;
use std::alloc::Global;

/// The tables after a put of the view (Bohannon, Pierce and Vaughan, PODS 2006). The view is read
/// again, to put back what is read changes nothing, and the tables stay of their sorts.
pub fn put(alloc: Global, lens: &TypedLens, view: &Relation, db: &Db) -> Result<Db, NoMemory>
    requires tables { AreOf lens.now db.now }
    requires view { IsOfSort view.now (sort_of lens.now) }
    ensures value { IfOk result (λ after. after ≡ spec.put lens.now view.now.rows db.now) }
    ensures put_get { IfOk result (λ after. spec.get lens.now after ≡ view.now.rows) }
    ensures get_put { IfOk result (λ after.
        view.now.rows ≡ spec.get lens.now db.now → after ≡ db.now) }
    ensures sorts { IfOk result (λ after. AreOf lens.now after) }
{
    let under = Sources::of(alloc, lens, db)?;
    let mut after = db.copy(alloc)?;
    write(alloc, lens, &under, view.copy(alloc)?, &mut after)?;
    Ok(after)
}

// Makes the tables those after a put of the view. `under` is what the sources showed before.
fn write(
    alloc: Global,
    lens: &TypedLens,
    under: &Sources,
    view: Relation,
    db: &mut Db,
) -> Result<(), NoMemory>
    requires tables { AreOf lens.now db.old }
    requires under { AreShown lens.now db.old under.now }
    requires view { IsOfSort view (sort_of lens.now) }
    ensures { OnOk result (db.new ≡ spec.put lens.now view.rows db.old) }
{
    match lens.node() {
        Node::Base { table, .. } => db.set(alloc, *table, view),
        Node::Select { pred, of } => {
            let (shown, rest) = under.only();
            let source = under_select(alloc, pred, of, view, shown)?;
            write(alloc, of, rest, source, db)
        }
        Node::Drop { col, by, fill, of } => {
            let (shown, rest) = under.only();
            let source = under_drop(alloc, col, by, fill, of, view, shown)?;
            write(alloc, of, rest, source, db)
        }
        Node::Rename { col, to, of } => {
            let (shown, rest) = under.only();
            let source = under_rename(alloc, col, to, of, view, shown)?;
            write(alloc, of, rest, source, db)
        }
        Node::Join { kind, left, right } => {
            let (left_now, right_now) = under.both();
            let sources = under_join(alloc, kind, left, right, view, left_now.0, right_now.0)?;
            write(alloc, left, left_now.1, sources.0, db)?;
            write(alloc, right, right_now.1, sources.1, db)
        }
    }
}

// The source of a selection after a put of the selection. The view is let go before the put below.
fn under_select(
    alloc: Global,
    pred: &Pred,
    of: &TypedLens,
    view: Relation,
    source: &Relation,
) -> Result<Relation, NoMemory>
    requires typed { IsTyped (spec.select pred.now of.now) }
    requires source { IsOfSort source.now (sort_of of.now) }
    requires view { IsOfSort view (sort_of (spec.select pred.now of.now)) }
    ensures rows { let s = sort_of of.now in
        IfOk result (λ after. after.rows
        ≡ select_put s.tree (holds pred.now) view.rows source.now.rows) }
    ensures sort { IfOk result (λ after. IsOfSort after (sort_of of.now)) }
{
    put_select(alloc, of.sort().tree(), pred, &view, source)
}

// The source of a projection after a put of the projection.
fn under_drop(
    alloc: Global,
    col: &Name,
    by: &Names,
    fill: &Value,
    of: &TypedLens,
    view: Relation,
    source: &Relation,
) -> Result<Relation, NoMemory>
    requires typed { IsTyped (spec.drop col.now by.now fill.now of.now) }
    requires source { IsOfSort source.now (sort_of of.now) }
    requires view { IsOfSort view (sort_of (spec.drop col.now by.now fill.now of.now)) }
    ensures rows { IfOk result (λ after. after.rows
        ≡ drop_put col.now by.now fill.now view.rows source.now.rows) }
    ensures sort { IfOk result (λ after. IsOfSort after (sort_of of.now)) }
{
    put_drop(alloc, col, by, fill, &view, source)
}

// The source of a rename after a put of the rename.
fn under_rename(
    alloc: Global,
    col: &Name,
    to: &Name,
    of: &TypedLens,
    view: Relation,
    source: &Relation,
) -> Result<Relation, NoMemory>
    requires typed { IsTyped (spec.rename col.now to.now of.now) }
    requires source { IsOfSort source.now (sort_of of.now) }
    requires view { IsOfSort view (sort_of (spec.rename col.now to.now of.now)) }
    ensures rows { IfOk result (λ after. after.rows ≡ rename_put col.now to.now view.rows) }
    ensures sort { IfOk result (λ after. IsOfSort after (sort_of of.now)) }
{
    put_rename(alloc, col, to, &view, source)
}

// The sources of a join after a put of the join.
fn under_join(
    alloc: Global,
    kind: JoinKind,
    left: &TypedLens,
    right: &TypedLens,
    view: Relation,
    left_source: &Relation,
    right_source: &Relation,
) -> Result<(Relation, Relation), NoMemory>
    requires typed { IsTyped (spec.join kind left.now right.now) }
    requires left { IsOfSort left_source.now (sort_of left.now) }
    requires right { IsOfSort right_source.now (sort_of right.now) }
    requires view { IsOfSort view (sort_of (spec.join kind left.now right.now)) }
    ensures left_rows { let U = view_names left.now in
        let V = view_names right.now in
        let F = (sort_of left.now).tree in
        let G = (sort_of right.now).tree in
        let M = left_source.now.rows in
        let N = right_source.now.rows in
        IfOk result (λ after. after.0.rows ≡ join_left_after kind U V F G view.rows M N) }
    ensures right_rows { let U = view_names left.now in
        let V = view_names right.now in
        let F = (sort_of left.now).tree in
        let G = (sort_of right.now).tree in
        let M = left_source.now.rows in
        let N = right_source.now.rows in
        IfOk result (λ after. after.1.rows ≡ join_right_after kind U V F G view.rows M N) }
    ensures left_sort { IfOk result (λ after. IsOfSort after.0 (sort_of left.now)) }
    ensures right_sort { IfOk result (λ after. IsOfSort after.1 (sort_of right.now)) }
{
    let left_tree = left.sort().tree();
    let right_tree = right.sort().tree();
    put_join(
        alloc,
        kind,
        left_tree,
        right_tree,
        &view,
        left_source,
        right_source,
    )
}

//! Selections: the rows of a source that a predicate holds on.
ghost use Rattle.std.specs.Prelude.{◌≡◌, true, false, IfOk, filter};
ghost use Rattle.plain_values.specs.Row.{Row};
ghost use Rattle.lens_specs.specs.Dependencies.{MeetsTree};
ghost use Rattle.lens_specs.specs.Nodes.{select_get, select_put};
ghost use Rattle.lens_specs.specs.Predicate.{holds};
ghost use Rattle.lens_specs.specs.Relation.{IsRelation, has, those};
ghost use Rattle.lens_specs.specs.Revision as spec;
ghost use Rattle.fd_laws.specs.Trees.{IsTree};
ghost use Rattle.whole_put.specs.Shows.{is_shown};

use fd_tree::Tree;
use lens_pred::Pred;
use lens_values::{NoMemory, Row};
use revision::revise;
use row_sets::{Relation, RowSet};
use std::alloc::Global;

/// The rows of the source that the predicate holds on.
pub fn get_select(alloc: Global, pred: &Pred, source: &Relation) -> Result<Relation, NoMemory>
    ensures { IfOk result (λ view.
        view ≡ record source.now { rows = select_get (holds pred.now) source.now.rows }) }
{
    part(alloc, pred, true, source)
}

/// The source after a put of the view (Bohannon, Pierce and Vaughan, PODS 2006): the view, together
/// with the rows that the predicate rejects, after the view has revised these along the tree, and
/// without those on which the predicate then holds. If the predicate holds on each row of the view,
/// a read shows the view again. If the source satisfies the tree, to put back what is read changes
/// nothing.
pub fn put_select(
    alloc: Global,
    tree: &Tree,
    pred: &Pred,
    view: &Relation,
    source: &Relation,
) -> Result<Relation, NoMemory>
    requires { view.now.columns ≡ source.now.columns }
    ensures value { IfOk result (λ after.
        after ≡ record source.now {
          rows = select_put tree.now
              (holds pred.now) view.now.rows source.now.rows;
        }) }
    ensures put_get { IfOk result (λ after.
        ((row : Row) → has view.now.rows row ≡ true → holds pred.now row ≡ true)
        → select_get (holds pred.now) after.rows ≡ view.now.rows) }
    ensures get_put { IfOk result (λ after. MeetsTree source.now.rows tree.now
        → view.now.rows ≡ select_get (holds pred.now) source.now.rows → after ≡ source.now) }
{
    let hidden = part(alloc, pred, false, source)?;
    let still_hidden = hidden_after(alloc, tree, pred, hidden, view)?;
    still_hidden.union(alloc, view)
}

/// The hidden rows, revised by the view, without those that the predicate then holds on.
fn hidden_after(
    alloc: Global,
    tree: &Tree,
    pred: &Pred,
    hidden: Relation,
    view: &Relation,
) -> Result<Relation, NoMemory>
    requires columns { view.now.columns ≡ hidden.columns }
    requires hidden { (row : Row) → has hidden.rows row ≡ true
        → is_shown pred.now false row ≡ true }
    ensures value { IfOk result (λ rest.
        rest ≡ record hidden {
          rows = those (is_shown pred.now false)
              (spec.revise tree.now hidden.rows view.now.rows);
        }) }
    ensures tree { IsTree tree.now }
{
    if tree.edges().is_empty() {
        return Ok(hidden);
    }
    let revised = revise(alloc, tree, &hidden, view.rows())?;
    part(alloc, pred, false, &revised)
}

/// The rows that the predicate holds on, or the others.
fn part(alloc: Global, pred: &Pred, shown: bool, relation: &Relation) -> Result<Relation, NoMemory>
    ensures value { IfOk result (λ some.
        some ≡ record relation.now { rows = those (is_shown pred.now shown) relation.now.rows }) }
    ensures fit { IsRelation relation.now }
{
    let rows = chosen(alloc, pred, shown, relation.rows())?;
    Ok(Relation::with_rows(relation.columns().copy(alloc)?, rows))
}

/// Of these rows those that the predicate holds on, or the others.
fn chosen(alloc: Global, pred: &Pred, shown: bool, rows: &RowSet) -> Result<RowSet, NoMemory>
    ensures { IfOk result (λ some. some ≡ those (is_shown pred.now shown) rows.now) }
{
    Ok(RowSet::from_rising(picked(alloc, pred, shown, rows.rows())?))
}

/// Copies of these rows, in order.
fn picked(alloc: Global, pred: &Pred, shown: bool, rows: &[Row]) -> Result<Vec<Row>, NoMemory>
    ensures { IfOk result (λ some. some.items ≡ filter (is_shown pred.now shown) rows.now) }
{
    let mut some = Vec::new(alloc);
    for row in rows {
        if pred.holds(row) == shown {
            some.push(row.copy(alloc)?)?;
        }
    }
    Ok(some)
}

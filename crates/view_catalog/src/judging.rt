//! Which definitions the catalogue accepts, and why it rejects the others.
ghost use Rattle.std.specs.Prelude.{◌≡◌, ◌<◌, ◌^◌, Ok, length};
ghost use Rattle.std.specs.FinMap as finmap;
ghost use Rattle.grammar_laws.specs.Reading.{reading};
ghost use Rattle.lens_specs.specs.Lens.{drop, join, rename, select};
ghost use Rattle.catalog_specs.specs.Catalogue.{catalogue};
ghost use Rattle.catalog_specs.specs.Judging.{judged, judged_table, judged_view, lens_in, lens_named, over};
ghost use Rattle.view_lang.specs.DefViews.{definition_view};
ghost use Rattle.view_lang.specs.ExprViews.{expr_view};
ghost use Rattle.view_catalog.specs.Faults.{Decides, over_limit};
ghost use Rattle.view_catalog.specs.Judgements.{IsJudged};

use crate::catalog::Catalog;
use crate::fault::CatalogFault;
use fd_closure::Dep;
use lens_pred::Pred;
use lens_types::{Sort, TypedLens};
use lens_values::{Columns, Name, Names, Text, Value};
use std::alloc::Global;
use view_lang::{Definition, Expr, JoinKind, LangFault, parse};
use view_limits::Limit;

/// The greatest number of tables.
pub const MAX_TABLES: usize = 64;

/// The greatest number of views.
pub const MAX_VIEWS: usize = 256;

/// A name and its lens.
#[derive(Drop)]
pub struct Named {
    /// The name.
    pub name: Name,
    /// Its lens.
    pub lens: TypedLens,
}

/// The name and the lens that the text defines, or why it is refused.
pub fn judge(alloc: Global, catalog: &Catalog, text: &Text) -> Result<Named, CatalogFault>
    ensures judged { IsJudged result (judged (catalogue catalog.now.texts) (reading text.now))
        (catalogue catalog.now.texts) }
    ensures short { length text.now < 2 ^ 64 }
{
    let definition = parse(alloc, text)?;
    judge_definition(alloc, catalog, definition)
}

/// The name and the lens of the definition, or why it is refused.
fn judge_definition(
    alloc: Global,
    catalog: &Catalog,
    definition: Definition,
) -> Result<Named, CatalogFault>
    ensures { IsJudged result
        (judged (catalogue catalog.now.texts) (Ok (definition_view definition)))
        (catalogue catalog.now.texts) }
{
    match definition {
        Definition::Table {
            name,
            cols,
            deps,
            pred,
        } => judge_table(alloc, catalog, name, cols, deps.as_slice(), pred),
        Definition::View { name, expr } => judge_view(alloc, catalog, name, expr),
    }
}

/// The table, or why it is refused: its name is taken, it has no sort, or there are 64 tables.
fn judge_table(
    alloc: Global,
    catalog: &Catalog,
    name: Name,
    cols: Columns,
    deps: &[Dep],
    pred: Pred,
) -> Result<Named, CatalogFault>
    ensures { IsJudged result (judged_table (catalogue catalog.now.texts) name cols deps.now pred)
        (catalogue catalog.now.texts) }
{
    if catalog.has(&name) {
        return Err(CatalogFault::NameTaken { name });
    }
    let sort = Sort::table(alloc, cols, deps, pred)?;
    if catalog.tables() >= MAX_TABLES {
        return Err(over_limit(Limit::Tables));
    }
    let lens = TypedLens::base(name, sort);
    Ok(Named { name, lens })
}

/// The view, or why it is refused: its name is taken, its expression has no lens, or there are 256
/// views.
fn judge_view(
    alloc: Global,
    catalog: &Catalog,
    name: Name,
    expr: Expr,
) -> Result<Named, CatalogFault>
    ensures { IsJudged result (judged_view (catalogue catalog.now.texts) name (expr_view expr))
        (catalogue catalog.now.texts) }
{
    if catalog.has(&name) {
        drop(expr);
        return Err(CatalogFault::NameTaken { name });
    }
    let lens = lens_in(alloc, catalog, expr)?;
    if catalog.views() >= MAX_VIEWS {
        drop(lens);
        return Err(over_limit(Limit::Views));
    }
    Ok(Named { name, lens })
}

/// The fault by which the limit is exceeded.
fn over_limit(what: Limit) -> CatalogFault
    ensures { result ≡ over_limit what }
{
    CatalogFault::Lang {
        fault: LangFault::TooLarge { what },
    }
}

/// The lens of the expression, or why it has none. Operands are judged before the node over them,
/// the left one first. The name of a view stands for its lens, as the name of a table does.
fn lens_in(alloc: Global, catalog: &Catalog, expr: Expr) -> Result<TypedLens, CatalogFault>
    ensures { Decides (λ lens. lens) result
        (lens_in (catalogue catalog.now.texts) (expr_view expr)) }
{
    match expr {
        Expr::Named { name } => lens_named(alloc, catalog, &name),
        Expr::Select { pred, of } => {
            let source = lens_in(alloc, catalog, Box::into_inner(of))?;
            selected(alloc, source, pred)
        }
        Expr::Drop { col, by, fill, of } => {
            let source = lens_in(alloc, catalog, Box::into_inner(of))?;
            dropped(alloc, source, col, by, fill)
        }
        Expr::Rename { col, to, of } => {
            let source = lens_in(alloc, catalog, Box::into_inner(of))?;
            renamed(alloc, source, col, to)
        }
        Expr::Join { kind, left, right } => {
            let left = lens_in(alloc, catalog, Box::into_inner(left))?;
            let right = lens_in(alloc, catalog, Box::into_inner(right))?;
            joined(alloc, kind, left, right)
        }
    }
}

/// The lens of the rows on which the predicate holds.
fn selected(alloc: Global, source: TypedLens, pred: Pred) -> Result<TypedLens, CatalogFault>
    ensures { Decides (λ lens. lens) result (over (select pred) (Ok source)) }
{
    Ok(source.select(alloc, pred)?)
}

/// The lens of the rows without the column.
fn dropped(
    alloc: Global,
    source: TypedLens,
    col: Name,
    by: Names,
    fill: Value,
) -> Result<TypedLens, CatalogFault>
    ensures { Decides (λ lens. lens) result (over (drop col by fill) (Ok source)) }
{
    Ok(source.drop_column(alloc, col, by, fill)?)
}

/// The lens of the rows with the new name for the column.
fn renamed(alloc: Global, source: TypedLens, col: Name, to: Name) -> Result<TypedLens, CatalogFault>
    ensures { Decides (λ lens. lens) result (over (rename col to) (Ok source)) }
{
    Ok(source.rename(alloc, col, to)?)
}

/// The lens of the natural join, of this kind.
fn joined(
    alloc: Global,
    kind: JoinKind,
    left: TypedLens,
    right: TypedLens,
) -> Result<TypedLens, CatalogFault>
    ensures { Decides (λ lens. lens) result (over (join kind left) (Ok right)) }
{
    Ok(left.join(alloc, kind, right)?)
}

/// A copy of the lens that the name has.
fn lens_named(alloc: Global, catalog: &Catalog, name: &Name) -> Result<TypedLens, CatalogFault>
    ensures { Decides (λ lens. lens) result
        (lens_named name.now (finmap.get (catalogue catalog.now.texts) name.now)) }
{
    match catalog.lens(name) {
        Some(lens) => Ok(lens.copy(alloc)?),
        None => Err(CatalogFault::UnknownName { name: *name }),
    }
}

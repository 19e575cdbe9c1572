//! What the sources of a lens show, each asked once.
ghost use Rattle.std.specs.Prelude.{◌≡◌, IfOk, Some, is_some, true};
ghost use Rattle.lens_specs.specs.Lens as spec;
ghost use Rattle.lens_laws.specs.Lenses.{AreOf, IsTyped};
ghost use Rattle.whole_put.specs.Sources.{AreShown, both_of, only_of};

use crate::db::Db;
use crate::dropping::get_drop;
use crate::joining::get_join;
use crate::renaming::get_rename;
use crate::selecting::get_select;
use lens_types::{Node, TypedLens};
use lens_values::NoMemory;
use row_sets::Relation;
use std::alloc::Global;

/// What the sources of a lens show of the tables, with their own sources.
#[derive(Drop)]
pub enum Sources {
    /// A table has none.
    Table,
    /// The source of a selection, a drop or a rename.
    One {
        /// What it shows.
        shown: Relation,
        /// Its sources.
        under: Box<Sources>,
    },
    /// The sources of a join.
    Two {
        /// What the left one shows.
        left: Relation,
        /// Its sources.
        under_left: Box<Sources>,
        /// What the right one shows.
        right: Relation,
        /// Its sources.
        under_right: Box<Sources>,
    },
}

impl Sources {
    /// What the sources of the lens show.
    pub fn of(alloc: Global, lens: &TypedLens, db: &Db) -> Result<Sources, NoMemory>
        requires { AreOf lens.now db.now }
        ensures shown { IfOk result (λ sources. AreShown lens.now db.now sources) }
        ensures typed { IsTyped lens.now }
    {
        match lens.node() {
            Node::Base { .. } => Ok(Sources::Table),
            Node::Select { of, .. } | Node::Drop { of, .. } | Node::Rename { of, .. } => {
                let under = Sources::of(alloc, of, db)?;
                Sources::one(alloc, with_shown(alloc, of, under, db)?)
            }
            Node::Join { left, right, .. } => {
                let left = with_shown(alloc, left, Sources::of(alloc, left, db)?, db)?;
                let right = with_shown(alloc, right, Sources::of(alloc, right, db)?, db)?;
                Sources::two(alloc, left, right)
            }
        }
    }

    // The source that shows this, over its own sources.
    fn one(alloc: Global, source: (Relation, Sources)) -> Result<Sources, NoMemory>
        ensures { IfOk result (λ sources. only_of sources ≡ Some source) }
    {
        let under = Box::new(alloc, source.1)?;
        Ok(Sources::One {
            shown: source.0,
            under,
        })
    }

    // The sources that show these, each over its own sources.
    fn two(
        alloc: Global,
        left: (Relation, Sources),
        right: (Relation, Sources),
    ) -> Result<Sources, NoMemory>
        ensures { IfOk result (λ sources. both_of sources ≡ Some (left, right)) }
    {
        let under_left = Box::new(alloc, left.1)?;
        let under_right = Box::new(alloc, right.1)?;
        Ok(Sources::Two {
            left: left.0,
            under_left,
            right: right.0,
            under_right,
        })
    }

    /// What the one source shows, and its sources.
    pub fn only(&self) -> (&Relation, &Sources)
        requires { is_some (only_of self.now) ≡ true }
        ensures { only_of self.now ≡ Some (result.0.now, result.1.now) }
    {
        match self {
            Sources::One { shown, under } => (shown, under.as_ref()),
            _ => unreachable!(),
        }
    }

    /// What the left source shows, with the sources under it, and what the right source shows, with
    /// the sources under that one.
    pub fn both(&self) -> ((&Relation, &Sources), (&Relation, &Sources))
        requires { is_some (both_of self.now) ≡ true }
        ensures { both_of self.now
            ≡ Some ((result.0.0.now, result.0.1.now), (result.1.0.now, result.1.1.now)) }
    {
        match self {
            Sources::Two {
                left,
                under_left,
                right,
                under_right,
            } => ((left, under_left.as_ref()), (right, under_right.as_ref())),
            _ => unreachable!(),
        }
    }
}

// What the lens shows, with its sources, which show this.
fn with_shown(
    alloc: Global,
    lens: &TypedLens,
    under: Sources,
    db: &Db,
) -> Result<(Relation, Sources), NoMemory>
    requires tables { AreOf lens.now db.now }
    requires under { AreShown lens.now db.now under }
    ensures { IfOk result (λ source. source ≡ (spec.view lens.now db.now, under)) }
{
    let shown = shown_over(alloc, lens, &under, db)?;
    Ok((shown, under))
}

/// What the lens shows, of what its sources show.
pub(crate) fn shown_over(
    alloc: Global,
    lens: &TypedLens,
    under: &Sources,
    db: &Db,
) -> Result<Relation, NoMemory>
    requires tables { AreOf lens.now db.now }
    requires under { AreShown lens.now db.now under.now }
    ensures { IfOk result (λ shown. shown ≡ spec.view lens.now db.now) }
{
    match lens.node() {
        Node::Base { table, .. } => db.at(table).copy(alloc),
        Node::Select { pred, .. } => get_select(alloc, pred, under.only().0),
        Node::Drop { col, .. } => get_drop(alloc, col, under.only().0),
        Node::Rename { col, to, .. } => get_rename(alloc, col, to, under.only().0),
        Node::Join { .. } => {
            let (left, right) = under.both();
            get_join(alloc, left.0, right.0)
        }
    }
}

//! The root of a lens and the lenses under it.
ghost use Rattle.std.specs.Prelude.{◌≡◌};
ghost use Rattle.lens_laws.specs.Lenses.{IsTyped};
ghost use Rattle.lens_types.specs.Nodes.{node_lens};

use crate::lens::{Lens, TypedLens};
use crate::sort::Sort;
use lens_pred::Pred;
use lens_values::{JoinKind, Name, Names, Value};

/// The root of a lens, over the lenses under it.
#[derive(Clone, Copy)]
pub enum Node<'a> {
    /// A table.
    Base {
        /// The table's name.
        table: &'a Name,
        /// The table's sort.
        sort: &'a Sort,
    },
    /// The rows on which a predicate holds.
    Select {
        /// What holds on each of them.
        pred: &'a Pred,
        /// The lens whose rows are selected.
        of: &'a TypedLens,
    },
    /// The rows of a lens without one column.
    Drop {
        /// The dropped column.
        col: &'a Name,
        /// The columns that determine it.
        by: &'a Names,
        /// Its value on a row for which they determine none.
        fill: &'a Value,
        /// The lens whose column is dropped.
        of: &'a TypedLens,
    },
    /// The rows of a lens with a new name for one column.
    Rename {
        /// The column.
        col: &'a Name,
        /// Its new name.
        to: &'a Name,
        /// The lens whose column is renamed.
        of: &'a TypedLens,
    },
    /// The rows of the natural join of two lenses.
    Join {
        /// On which side a put deletes rows.
        kind: JoinKind,
        /// The left lens.
        left: &'a TypedLens,
        /// The lens of which the shared columns determine the row.
        right: &'a TypedLens,
    },
}

impl TypedLens {
    /// The root and the lenses under it: together they are the lens.
    pub fn node(&self) -> Node<'_>
        ensures is { node_lens result ≡ self.now }
        ensures typed { IsTyped self.now }
    {
        match self.lens() {
            Lens::Base { table, sort } => Node::Base { table, sort },
            Lens::Select { pred, of, .. } => Node::Select { pred, of },
            Lens::Drop {
                col,
                by,
                fill,
                of,
                ..
            } => Node::Drop { col, by, fill, of },
            Lens::Rename { col, to, of, .. } => Node::Rename { col, to, of },
            Lens::Join {
                kind,
                left,
                right,
                ..
            } => Node::Join {
                kind: *kind,
                left,
                right,
            },
        }
    }
}

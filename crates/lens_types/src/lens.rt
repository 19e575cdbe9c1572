//! Lenses to which the rules give a sort.
ghost use Rattle.std.specs.Prelude.{◌≡◌, ◌≤◌, IfOk, Ok};
ghost use Rattle.plain_values.specs.declared.join_kind.JoinKind.{JoinKind as Kinds};
ghost use Rattle.plain_values.specs.declared.join_kind.JoinKind.TheVariants.{DeleteLeft};
ghost use Rattle.lens_specs.specs.Lens as spec;
ghost use Rattle.lens_specs.specs.Lens.{nodes_of, tables_of};
ghost use Rattle.lens_specs.specs.Typing.{shared_table, sort as sort_given};
ghost use Rattle.lens_laws.specs.Lenses.{IsTyped};
ghost use Rattle.lens_types.specs.Faults.{Decides};
ghost use Rattle.lens_types.specs.Kept.{IsKept, IsLens};
ghost use Rattle.lens_types.specs.Lenses.{kept_sort, lens_view};

use crate::among::first_among;
use crate::fault::Refused;
use crate::sort::Sort;
use lens_pred::Pred;
use lens_values::{JoinKind, Name, Names, NoMemory, Value};
use std::alloc::Global;
use std::marker::Model;

/// The root of a lens, with its sort.
#[cycle(lens)]
#[derive(Drop)]
pub enum Lens {
    /// A table.
    Base {
        /// The table's name.
        table: Name,
        /// The table's sort.
        sort: Sort,
    },
    /// The rows on which a predicate holds.
    Select {
        /// What holds on each of them.
        pred: Pred,
        /// The lens whose rows are selected.
        of: Box<TypedLens>,
        /// The sort of the rows.
        sort: Sort,
    },
    /// The rows of a lens without one column.
    Drop {
        /// The dropped column.
        col: Name,
        /// The columns that determine it.
        by: Names,
        /// Its value on a row for which they determine none.
        fill: Value,
        /// The lens whose column is dropped.
        of: Box<TypedLens>,
        /// The sort of the rows.
        sort: Sort,
    },
    /// The rows of a lens with a new name for one column.
    Rename {
        /// The column.
        col: Name,
        /// Its new name.
        to: Name,
        /// The lens whose column is renamed.
        of: Box<TypedLens>,
        /// The sort of the rows.
        sort: Sort,
    },
    /// The rows of the natural join of two lenses.
    Join {
        /// On which side a put deletes rows.
        kind: JoinKind,
        /// The left lens.
        left: Box<TypedLens>,
        /// The lens of which the shared columns determine the row.
        right: Box<TypedLens>,
        /// The sort of the rows.
        sort: Sort,
    },
}

/// A lens with the sort that the typing rules give it. A contract sees the lens of the definition.
#[cycle(lens)]
#[derive(Drop)]
pub struct TypedLens {
    lens: Lens,
    nodes: usize,
}

impl Model for TypedLens {
    ghost use Rattle.std.proofs.Common.{arith};
    ghost use Rattle.lens_specs.specs.Lens as spec;
    ghost use Rattle.lens_specs.specs.Lens.{nodes_of};
    ghost use Rattle.lens_types.specs.Kept.{IsKept};
    ghost use Rattle.lens_types.specs.LensCode.{lens_code};

    ghost Value = { spec.Lens };

    ghost coded = { lens_code };

    ghost use Rattle.lens_types.specs.Lenses.{kept_sort, lens_view};

    ghost view = { λ t. lens_view t.lens };

    ghost invariant = { λ t. IsKept (lens_view t.lens) (kept_sort t.lens) t.nodes };

    ghost size = { nodes_of };

    ghost size_decreases = { λ a h. Prim.grind arith };
}

impl TypedLens {
    /// A table of this name and sort.
    pub fn base(table: Name, sort: Sort) -> TypedLens
        ensures { result ≡ spec.base table sort }
    {
        TypedLens {
            lens: sort.of_table(table),
            nodes: 1,
        }
    }

    /// The root.
    pub fn lens(&self) -> &Lens
        ensures view { lens_view result.now ≡ self.now }
        ensures sort { sort_given self.now ≡ Ok (kept_sort result.now) }
        ensures typed { IsTyped self.now }
    {
        &self.lens
    }

    /// The sort.
    pub fn sort(&self) -> &Sort
        ensures given { sort_given self.now ≡ Ok result.now }
        ensures typed { IsTyped self.now }
    {
        self.lens.sort()
    }

    /// The number of nodes.
    pub fn nodes(&self) -> usize
        ensures number { result ≡ nodes_of self.now }
        ensures few { result ≤ 64 }
    {
        self.nodes
    }

    /// The names of the tables under the lens.
    #[tactic(auto, unfolding(lens_specs::specs::Lens::tables_of))]
    pub fn tables(&self, alloc: Global) -> Result<Names, NoMemory>
        ensures { IfOk result (λ names. names ≡ tables_of self.now) }
    {
        match &self.lens {
            Lens::Base { table, .. } => Names::single(alloc, table),
            Lens::Select { of, .. } | Lens::Drop { of, .. } | Lens::Rename { of, .. } => {
                of.tables(alloc)
            }
            Lens::Join { left, right, .. } => {
                left.tables(alloc)?.union(alloc, &right.tables(alloc)?)
            }
        }
    }

    /// The rows on which the predicate holds.
    pub fn select(self, alloc: Global, pred: Pred) -> Result<TypedLens, Refused<(TypedLens, Pred)>>
        ensures { IsLens result (self, pred) (spec.select pred self) }
    {
        let nodes = self.nodes() + 1;
        let sort = match self.sort().selected(alloc, nodes, &pred) {
            Ok(sort) => sort,
            Err(why) => return Err(why.with((self, pred))),
        };
        let Ok(of) = boxed(alloc, self) else {
            return Err(Refused::NoMemory);
        };
        let lens = Lens::Select { pred, of, sort };
        Ok(TypedLens { lens, nodes })
    }

    /// The rows without the column, which `by` determines. A new row takes `fill` where `by`
    /// determines no value.
    pub fn drop_column(
        self,
        alloc: Global,
        col: Name,
        by: Names,
        fill: Value,
    ) -> Result<TypedLens, Refused<(TypedLens, Names, Value)>>
        ensures { IsLens result (self, by, fill) (spec.drop col by fill self) }
    {
        let nodes = self.nodes() + 1;
        let sort = match self.sort().dropped(alloc, nodes, &col, &by, &fill) {
            Ok(sort) => sort,
            Err(why) => return Err(why.with((self, by, fill))),
        };
        let Ok(of) = boxed(alloc, self) else {
            return Err(Refused::NoMemory);
        };
        let lens = Lens::Drop {
            col,
            by,
            fill,
            of,
            sort,
        };
        Ok(TypedLens { lens, nodes })
    }

    /// The rows with the new name `to` for the column.
    pub fn rename(self, alloc: Global, col: Name, to: Name) -> Result<TypedLens, Refused<TypedLens>>
        ensures { IsLens result self (spec.rename col to self) }
    {
        let nodes = self.nodes() + 1;
        let sort = match self.sort().renamed(alloc, nodes, &col, &to) {
            Ok(sort) => sort,
            Err(why) => return Err(why.with(self)),
        };
        let Ok(of) = boxed(alloc, self) else {
            return Err(Refused::NoMemory);
        };
        let lens = Lens::Rename { col, to, of, sort };
        Ok(TypedLens { lens, nodes })
    }

    /// The rows of the natural join. The right lens may be over none of this one's tables, and the
    /// shared columns determine the right row.
    pub fn join(
        self,
        alloc: Global,
        kind: JoinKind,
        right: TypedLens,
    ) -> Result<TypedLens, Refused<(TypedLens, TypedLens)>>
        ensures { IsLens result (self, right) (spec.join kind self right) }
    {
        let nodes = self.nodes() + right.nodes() + 1;
        let sort = match joined_sort(alloc, &self, &right, nodes) {
            Ok(sort) => sort,
            Err(why) => return Err(why.with((self, right))),
        };
        let Ok((left, right)) = both_boxed(alloc, self, right) else {
            return Err(Refused::NoMemory);
        };
        let lens = Lens::Join {
            kind,
            left,
            right,
            sort,
        };
        Ok(TypedLens { lens, nodes })
    }

    /// The natural join of which a put deletes rows of this lens alone.
    pub fn join_dl(
        self,
        alloc: Global,
        right: TypedLens,
    ) -> Result<TypedLens, Refused<(TypedLens, TypedLens)>>
        ensures { IsLens result (self, right) (spec.join DeleteLeft self right) }
    {
        self.join(alloc, JoinKind::DeleteLeft, right)
    }

    /// An equal lens.
    pub fn copy(&self, alloc: Global) -> Result<TypedLens, NoMemory>
        ensures { IfOk result (λ copy. copy ≡ self.now) }
    {
        Ok(TypedLens {
            lens: self.lens.copy(alloc)?,
            nodes: self.nodes,
        })
    }

    // An equal lens, in a box.
    #[cycle(copy)]
    fn copy_boxed(&self, alloc: Global) -> Result<Box<TypedLens>, NoMemory>
        ensures { IfOk result (λ copy. copy.value ≡ self.now) }
    {
        let lens = self.lens.copy(alloc)?;
        let nodes = self.nodes;
        Ok(Box::new(alloc, TypedLens { lens, nodes })?)
    }
}

impl Lens {
    // The sort of the root.
    fn sort(&self) -> &Sort
        ensures { result.now ≡ kept_sort self.now }
    {
        match self {
            Lens::Base { sort, .. }
            | Lens::Select { sort, .. }
            | Lens::Drop { sort, .. }
            | Lens::Rename { sort, .. }
            | Lens::Join { sort, .. } => sort,
        }
    }

    // An equal root.
    #[cycle(copy)]
    fn copy(&self, alloc: Global) -> Result<Lens, NoMemory>
        ensures view { IfOk result (λ copy. lens_view copy ≡ lens_view self.now) }
        ensures sort { IfOk result (λ copy. kept_sort copy ≡ kept_sort self.now) }
    {
        match self {
            Lens::Base { table, sort } => Ok(Lens::Base {
                table: *table,
                sort: sort.copy(alloc)?,
            }),
            Lens::Select { pred, of, sort } => Ok(Lens::Select {
                pred: pred.copy(alloc)?,
                of: of.copy_boxed(alloc)?,
                sort: sort.copy(alloc)?,
            }),
            Lens::Drop {
                col,
                by,
                fill,
                of,
                sort,
            } => Ok(Lens::Drop {
                col: *col,
                by: by.copy(alloc)?,
                fill: fill.copy(alloc)?,
                of: of.copy_boxed(alloc)?,
                sort: sort.copy(alloc)?,
            }),
            Lens::Rename { col, to, of, sort } => Ok(Lens::Rename {
                col: *col,
                to: *to,
                of: of.copy_boxed(alloc)?,
                sort: sort.copy(alloc)?,
            }),
            Lens::Join {
                kind,
                left,
                right,
                sort,
            } => Ok(Lens::Join {
                kind: *kind,
                left: left.copy_boxed(alloc)?,
                right: right.copy_boxed(alloc)?,
                sort: sort.copy(alloc)?,
            }),
        }
    }
}

// The sort of the join, which has so many nodes, or the first refusal.
fn joined_sort(
    alloc: Global,
    left: &TypedLens,
    right: &TypedLens,
    nodes: usize,
) -> Result<Sort, Refused<()>>
    requires { (kind : Kinds) → nodes ≡ nodes_of (spec.join kind left.now right.now) }
    ensures sort { (kind : Kinds)
        → Decides (λ s. s) result tt (sort_given (spec.join kind left.now right.now)) }
    ensures kept { (kind : Kinds)
        → IfOk result (λ s. IsKept (spec.join kind left.now right.now) s nodes) }
{
    let twice = shared_table(alloc, left, right)?;
    left.sort().joined(alloc, nodes, right.sort(), twice)
}

// The least table that both lenses are over.
fn shared_table(
    alloc: Global,
    left: &TypedLens,
    right: &TypedLens,
) -> Result<Option<Name>, NoMemory>
    ensures { IfOk result (λ name. name ≡ shared_table (tables_of left.now) (tables_of right.now)) }
{
    let tables = left.tables(alloc)?;
    let others = right.tables(alloc)?;
    Ok(first_among(tables.as_slice(), &others).copied())
}

// Each of the lenses in a box.
fn both_boxed(
    alloc: Global,
    left: TypedLens,
    right: TypedLens,
) -> Result<(Box<TypedLens>, Box<TypedLens>), NoMemory>
    ensures left { IfOk result (λ both. both.0.value ≡ left) }
    ensures right { IfOk result (λ both. both.1.value ≡ right) }
{
    let left = boxed(alloc, left)?;
    let right = boxed(alloc, right)?;
    Ok((left, right))
}

// The lens in a box.
fn boxed(alloc: Global, lens: TypedLens) -> Result<Box<TypedLens>, NoMemory>
    ensures { IfOk result (λ boxed. boxed.value ≡ lens) }
{
    Ok(Box::new(alloc, lens)?)
}

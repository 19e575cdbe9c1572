//! Relations: rows over the same columns.
ghost use Rattle.std.specs.Prelude.{◌≡◌, IfOk, OnOk, OnErr, not, true, None};
ghost use Rattle.plain_values.specs.Columns.{kinds_differ, names};
ghost use Rattle.plain_values.specs.Part.{override};
ghost use Rattle.plain_values.specs.SortedSet as set;
ghost use Rattle.lens_specs.specs.Relation.{Fits, IsRelation, join_relations, project_relation};

use crate::row_set::RowSet;
use lens_values::{Columns, Names, NoMemory, Row};
use std::alloc::Global;
use std::marker::Model;

/// A set of rows that all fit the columns. A contract sees the columns and the rows.
#[derive(Drop)]
pub struct Relation {
    columns: Columns,
    rows: RowSet,
}

impl Model for Relation {
    ghost use Rattle.lens_specs.specs.Relation as spec;
    ghost use Rattle.row_sets.specs.Codes.{coded_relation};

    ghost Value = { spec.Relation };

    ghost coded = { coded_relation };

    ghost view = { λ r. record { columns = r.columns; rows = r.rows } };

    ghost invariant = { λ r. spec.IsRelation (record { columns = r.columns; rows = r.rows }) };
}

impl Relation {
    /// The empty relation with these columns.
    pub fn empty(alloc: Global, columns: Columns) -> Relation
        ensures { result ≡ record { columns = columns; rows = set.empty } }
    {
        Relation {
            columns,
            rows: RowSet::empty(alloc),
        }
    }

    /// The relation of these rows, which all fit the columns.
    pub fn with_rows(columns: Columns, rows: RowSet) -> Relation
        requires { (row : _) → set.contains rows row ≡ true → Fits columns row }
        ensures { result ≡ record { columns = columns; rows = rows } }
    {
        Relation { columns, rows }
    }

    /// The columns of the relation.
    pub fn columns(&self) -> &Columns
        ensures { result.now ≡ self.now.columns }
    {
        &self.columns
    }

    /// The rows of the relation.
    pub fn rows(&self) -> &RowSet
        ensures rows { result.now ≡ self.now.rows }
        ensures fit { IsRelation self.now }
    {
        &self.rows
    }

    /// The rows of the relation, taken out of it.
    pub fn into_rows(self) -> RowSet
        ensures { result ≡ self.rows }
    {
        self.rows
    }

    /// Whether the row is in the relation.
    pub fn has(&self, row: &Row) -> bool
        ensures { result ≡ set.contains self.now.rows row.now }
    {
        self.rows.has(row)
    }

    /// Adds a row that fits the columns, and says whether it is new. After `NoMemory` the relation
    /// is unchanged.
    pub fn add(&mut self, row: Row) -> Result<bool, NoMemory>
        requires { Fits self.old.columns row }
        ensures ok { OnOk result (self.new
            ≡ record self.old { rows = set.insert self.old.rows row }) }
        ensures new { IfOk result (λ new. new ≡ not (set.contains self.old.rows row)) }
        ensures err { OnErr result (self.new ≡ self.old) }
    {
        let new = self.rows.insert(row)?;
        Ok(new)
    }

    /// An equal relation.
    pub fn copy(&self, alloc: Global) -> Result<Relation, NoMemory>
        ensures { IfOk result (λ copy. copy ≡ self.now) }
    {
        let columns = self.columns.copy(alloc)?;
        let rows = self.rows.copy(alloc)?;
        Ok(Relation { columns, rows })
    }

    /// The rows of either relation, which have the same columns.
    pub fn union(&self, alloc: Global, other: &Relation) -> Result<Relation, NoMemory>
        requires { other.now.columns ≡ self.now.columns }
        ensures { IfOk result (λ union.
            union ≡ record self.now { rows = set.union self.now.rows other.now.rows }) }
    {
        let columns = self.columns.copy(alloc)?;
        let rows = self.rows.union(alloc, &other.rows)?;
        Ok(Relation { columns, rows })
    }

    /// The rows of this relation that are not in the other, which has the same columns.
    pub fn minus(&self, alloc: Global, other: &Relation) -> Result<Relation, NoMemory>
        requires { other.now.columns ≡ self.now.columns }
        ensures { IfOk result (λ rest.
            rest ≡ record self.now { rows = set.difference self.now.rows other.now.rows }) }
    {
        let columns = self.columns.copy(alloc)?;
        let rows = self.rows.minus(alloc, &other.rows)?;
        Ok(Relation { columns, rows })
    }

    /// The projection of the relation on those of its columns that are among the names.
    pub fn project(&self, alloc: Global, columns: &Names) -> Result<Relation, NoMemory>
        ensures { IfOk result (λ part. part ≡ project_relation columns.now self.now) }
    {
        let rows = self.rows.project(alloc, columns)?;
        let columns = self.columns.meet(alloc, columns)?;
        Ok(Relation { columns, rows })
    }

    /// The natural join: all pairs of a row of this relation and one of the other that agree on the
    /// shared columns, pasted. A shared column has one kind in both.
    pub fn join(&self, alloc: Global, other: &Relation) -> Result<Relation, NoMemory>
        requires { kinds_differ self.now.columns other.now.columns ≡ None }
        ensures { IfOk result (λ joined. joined ≡ join_relations self.now other.now) }
    {
        let columns = united(alloc, &self.columns, &other.columns)?;
        let shared = shared_names(alloc, &self.columns, &other.columns)?;
        let rows = self.rows.join(alloc, &other.rows, &shared)?;
        Ok(Relation { columns, rows })
    }
}

// The columns of both. A shared column has one kind.
fn united(alloc: Global, left: &Columns, right: &Columns) -> Result<Columns, NoMemory>
    requires { kinds_differ left.now right.now ≡ None }
    ensures { IfOk result (λ all. all ≡ override left.now right.now) }
{
    match left.union(alloc, right) {
        Ok(all) => Ok(all),
        Err(_) => Err(NoMemory),
    }
}

// The names that both have.
fn shared_names(alloc: Global, left: &Columns, right: &Columns) -> Result<Names, NoMemory>
    ensures { IfOk result (λ shared. shared ≡ set.intersection (names left.now) (names right.now)) }
{
    let mine = left.names(alloc)?;
    mine.meet(alloc, &right.names(alloc)?)
}

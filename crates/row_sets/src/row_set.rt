//! A finite set of rows.
ghost use Rattle.std.specs.Prelude.{◌≡◌, ◌↔◌, IfOk, IsTrue, OnOk, OnErr, map, not};
ghost use Rattle.std.specs.List.{list_any};
ghost use Rattle.std.specs.List.Sorted.{IsSorted, IsStrictlySortedBy};
ghost use Rattle.std.specs.Ordering.{eq_by_cmp};
ghost use Rattle.lens_specs.specs.Relation.{project};
ghost use Rattle.plain_values.specs.Part.{restrict};
ghost use Rattle.plain_values.specs.Row.{row_cmp};
ghost use Rattle.plain_values.specs.SortedSet as set;
ghost use Rattle.row_sets.specs.Joins.{pairs_on};

use crate::index::indexed;
use crate::joining::paired;
use crate::moving::order_nearly;
use crate::ranking::by_rank;
use lens_values::{Names, NoMemory, Row, copied, difference, union};
use std::alloc::Global;
use std::marker::Model;

/// A finite set of rows, kept as their rising list.
#[derive(Drop)]
pub struct RowSet {
    rows: Vec<Row>,
}

impl Model for RowSet {
    ghost use Rattle.std.specs.List.Sorted.{IsStrictlySortedBy};
    ghost use Rattle.plain_values.specs.Row.{row_cmp};
    ghost use Rattle.plain_values.specs.SortedSet as set;
    ghost use Rattle.lens_values.specs.contracts.row.Row as contract;

    ghost Value = { set.SortedSet row_cmp };

    ghost coded = { set.code contract.the_row.coded };

    ghost view = { λ s. set.from_list s.rows.items };

    ghost invariant = { λ s. IsStrictlySortedBy row_cmp s.rows.items };
}

impl RowSet {
    /// The set of these rows, which may be in any order and repeat.
    pub fn new(alloc: Global, rows: Vec<Row>) -> Result<RowSet, NoMemory>
        ensures { IfOk result (λ made. made ≡ set.from_list rows.items) }
    {
        if rise(&rows) {
            return Ok(RowSet { rows });
        }
        Ok(RowSet {
            rows: put_in_order(alloc, rows)?,
        })
    }

    /// The set of these rows, which rise strictly.
    pub fn from_rising(rows: Vec<Row>) -> RowSet
        requires { IsStrictlySortedBy row_cmp rows.items }
        ensures { result ≡ set.from_list rows.items }
    {
        RowSet { rows }
    }

    /// The rows in rising order.
    pub fn rows(&self) -> &[Row]
        ensures { result.now ≡ set.items self.now }
    {
        self.rows.as_slice()
    }

    /// The rows in rising order, taken out of the set.
    pub fn into_rows(self) -> Vec<Row>
        ensures { result.items ≡ set.items self }
    {
        self.rows
    }

    /// Whether the row is in the set.
    pub fn has(&self, row: &Row) -> bool
        ensures { result ≡ set.contains self.now row.now }
    {
        self.rows.binary_search(row).is_ok()
    }

    /// The empty set.
    pub fn empty(alloc: Global) -> RowSet
        ensures { result ≡ set.empty }
    {
        RowSet {
            rows: Vec::new(alloc),
        }
    }

    /// Adds a row, and says whether it is new. After `NoMemory` the set is as it was.
    pub fn insert(&mut self, row: Row) -> Result<bool, NoMemory>
        ensures ok { OnOk result (self.new ≡ set.insert self.old row) }
        ensures new { IfOk result (λ new. new ≡ not (set.contains self.old row)) }
        ensures err { OnErr result (self.new ≡ self.old) }
    {
        match self.rows.binary_search(&row) {
            Ok(_) => Ok(false),
            Err(place) => {
                self.rows.insert(place, row)?;
                Ok(true)
            }
        }
    }

    /// The rows of either set.
    pub fn union(&self, alloc: Global, other: &RowSet) -> Result<RowSet, NoMemory>
        ensures { IfOk result (λ union. union ≡ set.union self.now other.now) }
    {
        Ok(RowSet {
            rows: union(alloc, self.rows(), other.rows())?,
        })
    }

    /// The rows of this set that are not in the other.
    pub fn minus(&self, alloc: Global, other: &RowSet) -> Result<RowSet, NoMemory>
        ensures { IfOk result (λ rest. rest ≡ set.difference self.now other.now) }
    {
        Ok(RowSet {
            rows: difference(alloc, self.rows(), other.rows())?,
        })
    }

    /// The projection of the rows on these columns.
    pub fn project(&self, alloc: Global, columns: &Names) -> Result<RowSet, NoMemory>
        ensures { IfOk result (λ part. part ≡ project columns.now self.now) }
    {
        RowSet::new(alloc, projected(alloc, self.rows(), columns)?)
    }

    /// All pairs of a row of this set and one of the other that agree on these columns, pasted. If
    /// both rows have a value in a column, the pair has the other's.
    pub fn join(&self, alloc: Global, other: &RowSet, cols: &Names) -> Result<RowSet, NoMemory>
        ensures { IfOk result (λ joined. joined ≡ pairs_on cols.now self.now other.now) }
    {
        RowSet::new(alloc, self.joined_rows(alloc, other, cols)?)
    }

    /// The rows of the join on these columns, in no certain order and perhaps more than once.
    pub fn joined_rows(
        &self,
        alloc: Global,
        other: &RowSet,
        cols: &Names,
    ) -> Result<Vec<Row>, NoMemory>
        ensures { IfOk result (λ rows.
            set.from_list rows.items ≡ pairs_on cols.now self.now other.now) }
    {
        let index = indexed(alloc, other.rows(), cols)?;
        paired(alloc, self.rows(), cols, &index)
    }

    /// An equal set.
    pub fn copy(&self, alloc: Global) -> Result<RowSet, NoMemory>
        ensures { IfOk result (λ copy. copy ≡ self.now) }
    {
        Ok(RowSet {
            rows: copied(alloc, &self.rows)?,
        })
    }
}

// The rows in rising order, each once. Mostly short moves put them in order, and otherwise mostly
// their ranks. Parts of rows that are in order ascend too, and mostly repeat.
fn put_in_order(alloc: Global, rows: Vec<Row>) -> Result<Vec<Row>, NoMemory>
    ensures order { IfOk result (λ sorted. IsStrictlySortedBy row_cmp sorted.items) }
    ensures members { IfOk result (λ sorted. (row : _)
        → list_any (eq_by_cmp row_cmp row) sorted.items
        ≡ list_any (eq_by_cmp row_cmp row) rows.items) }
{
    let mut rows = rows;
    order_nearly(&mut rows);
    if rise(&rows) {
        return Ok(rows);
    }
    if ascend(&rows) {
        return Ok(each_once(rows));
    }
    sorted(by_rank(alloc, rows)?)
}

// The rows in rising order, each once. Where they are a few lists that rise, one after another, a
// stable sort merges these.
fn sorted(rows: Vec<Row>) -> Result<Vec<Row>, NoMemory>
    ensures order { IfOk result (λ sorted. IsStrictlySortedBy row_cmp sorted.items) }
    ensures members { IfOk result (λ sorted. (row : _)
        → list_any (eq_by_cmp row_cmp row) sorted.items
        ≡ list_any (eq_by_cmp row_cmp row) rows.items) }
{
    let mut rows = rows;
    rows.sort()?;
    Ok(each_once(rows))
}

// The rows, which ascend, each once.
fn each_once(rows: Vec<Row>) -> Vec<Row>
    requires { IsSorted row_cmp rows.items }
    ensures order { IsStrictlySortedBy row_cmp result.items }
    ensures members { (row : _) → list_any (eq_by_cmp row_cmp row) result.items
        ≡ list_any (eq_by_cmp row_cmp row) rows.items }
{
    let mut rows = rows;
    rows.dedup();
    rows
}

// Whether each row is below the one after it.
fn rise(rows: &[Row]) -> bool
    ensures { IsTrue result ↔ IsStrictlySortedBy row_cmp rows.now }
{
    rows.is_sorted_by(|row, next| row < next)
}

// Whether no row is below the one before it.
fn ascend(rows: &[Row]) -> bool
    ensures { IsTrue result ↔ IsSorted row_cmp rows.now }
{
    rows.is_sorted()
}

// Each row's part in these columns.
fn projected(alloc: Global, rows: &[Row], columns: &Names) -> Result<Vec<Row>, NoMemory>
    ensures { IfOk result (λ parts. parts.items ≡ map (restrict columns.now) rows.now) }
{
    let mut parts = Vec::with_capacity(alloc, rows.len())?;
    for row in rows {
        parts.push(row.project(alloc, columns)?)?;
    }
    Ok(parts)
}

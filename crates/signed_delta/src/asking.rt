//! One question for each of some rows.
ghost use Rattle.std.specs.Prelude.{◌≡◌, ◌≢◌, ◌≤◌, ◌+◌, ◌*◌, ℕ, true, length, Contains, IfOk, is_some};
ghost use Rattle.plain_values.specs.SortedSet as set;
ghost use Rattle.lens_specs.specs.Relation.{Fits, has, minus, those};
ghost use Rattle.lens_specs.specs.Rows.{at};
ghost use Rattle.lens_laws.specs.KeyedDeltas.{found_each};
ghost use Rattle.signed_delta.specs.Chosen.{is_chosen};

use crate::look::Look;
use lens_values::{Names, NoMemory, append};
use row_sets::RowSet;
use std::alloc::Global;
use std::sync::ledger::Ledger;
use step_counter::Steps;

/// Those of the rows that are in the relation.
pub fn present<K: Look, L: Ledger>(
    alloc: Global,
    rows: &RowSet,
    look: &K,
    looked: &mut Steps<L>,
) -> Result<RowSet, NoMemory>
    requires { (row : _) → set.contains rows.now row ≡ true
        → Fits (K.relation look.now).columns row }
    ensures rows { IfOk result (λ some. some ≡ those (has (K.relation look.now).rows) rows.now) }
    ensures looks { (n : ℕ) → K.within look.now n → looked.new ≤ looked.old
        + n * length (set.items rows.now) }
{
    chosen(alloc, rows, look, true, looked)
}

/// Those of the rows that are not in the relation.
pub fn absent<K: Look, L: Ledger>(
    alloc: Global,
    rows: &RowSet,
    look: &K,
    looked: &mut Steps<L>,
) -> Result<RowSet, NoMemory>
    requires { (row : _) → set.contains rows.now row ≡ true
        → Fits (K.relation look.now).columns row }
    ensures rows { IfOk result (λ some. some ≡ minus rows.now (K.relation look.now).rows) }
    ensures looks { (n : ℕ) → K.within look.now n → looked.new ≤ looked.old
        + n * length (set.items rows.now) }
{
    chosen(alloc, rows, look, false, looked)
}

// Those of the rows that are in the relation, or the others.
fn chosen<K: Look, L: Ledger>(
    alloc: Global,
    rows: &RowSet,
    look: &K,
    present: bool,
    looked: &mut Steps<L>,
) -> Result<RowSet, NoMemory>
    requires { (row : _) → set.contains rows.now row ≡ true
        → Fits (K.relation look.now).columns row }
    ensures rows { let M = (K.relation look.now).rows in
        IfOk result (λ some. some ≡ those (is_chosen M present) rows.now) }
    ensures looks { (n : ℕ) → K.within look.now n → looked.new ≤ looked.old
        + n * length (set.items rows.now) }
{
    let mut some = Vec::new(alloc);
    for row in rows.rows() {
        if look.has(alloc, row, looked)? == present {
            some.push(row.copy(alloc)?)?;
        }
    }
    Ok(RowSet::from_rising(some))
}

/// The rows of the relation that agree with one of these in the columns. Each part that they have
/// there is asked for once.
pub fn find_each<K: Look, L: Ledger>(
    alloc: Global,
    cols: &Names,
    rows: &RowSet,
    look: &K,
    looked: &mut Steps<L>,
) -> Result<RowSet, NoMemory>
    requires some { length (set.items cols.now) ≢ 0 }
    requires asked { Contains (K.asked look.now) cols.now }
    requires have { (row : _) → set.contains rows.now row ≡ true → (c : _)
        → set.contains cols.now c ≡ true → is_some (at row c) ≡ true }
    ensures found { IfOk result (λ found. found
        ≡ found_each cols.now (K.relation look.now).rows (set.items rows.now)) }
    ensures looks { (n : ℕ) → K.within look.now n → looked.new ≤ looked.old
        + n * length (set.items rows.now) }
    ensures few { IfOk result (λ found. (n : ℕ) → K.within look.now n → length (set.items found)
        ≤ n * length (set.items rows.now)) }
{
    match rows.rows() {
        [row] => look.find(alloc, cols, row, looked),
        _ => find_parts(alloc, cols, rows, look, looked),
    }
}

// What `find_each` returns, for any number of rows.
fn find_parts<K: Look, L: Ledger>(
    alloc: Global,
    cols: &Names,
    rows: &RowSet,
    look: &K,
    looked: &mut Steps<L>,
) -> Result<RowSet, NoMemory>
    requires some { length (set.items cols.now) ≢ 0 }
    requires asked { Contains (K.asked look.now) cols.now }
    requires have { (row : _) → set.contains rows.now row ≡ true → (c : _)
        → set.contains cols.now c ≡ true → is_some (at row c) ≡ true }
    ensures found { IfOk result (λ found. found
        ≡ found_each cols.now (K.relation look.now).rows (set.items rows.now)) }
    ensures looks { (n : ℕ) → K.within look.now n → looked.new ≤ looked.old
        + n * length (set.items rows.now) }
    ensures few { IfOk result (λ found. (n : ℕ) → K.within look.now n → length (set.items found)
        ≤ n * length (set.items rows.now)) }
{
    let keys = rows.project(alloc, cols)?;
    let mut all = Vec::new(alloc);
    for key in keys.rows() {
        let found = look.find(alloc, cols, key, looked)?;
        append(&mut all, alloc, found.rows())?;
    }
    let union = RowSet::new(alloc, all)?;
    Ok(union)
}

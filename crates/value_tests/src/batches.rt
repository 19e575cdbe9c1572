//! Many differences.
use crate::samples::{columns, name, relation};
use edit_batches::{Deltas, Entry, compose_all};
use signed_delta::{Delta, TableDelta, diff};
use std::alloc::Global;
use std::process::Abort;

// So many that the cost of each with all before it would end the test.
const MANY: usize = 65_536;

// The cost of so many differences is not that of each with all before it.
#[test]
fn many_differences_are_composed(rt: HostRuntime) {
    let alloc = rt.alloc();
    let mut entries = Vec::new(alloc);
    for number in 0..MANY {
        entries
            .push(addition(&rt, alloc, number))
            .expect(&rt, "memory");
    }
    let found = compose_all(alloc, &entries).expect(&rt, "memory");
    let added = found.first().expect(&rt, "one table").delta.add();
    assert!(rt; found.len() == 1 && added.rows().len() == MANY);
}

// The change that adds the number to a table.
fn addition(rt: &impl Abort, alloc: Global, number: usize) -> Entry {
    let row = format!(in alloc; "k={number}").expect(rt, "memory");
    let delta = added(rt, alloc, &row);
    let table = name(rt, "t");
    let list = vec![in alloc; TableDelta { table, delta }].expect(rt, "memory");
    Entry {
        deltas: Deltas::new(list),
    }
}

// The difference that adds the row to none.
fn added(rt: &impl Abort, alloc: Global, row: &str) -> Delta {
    let columns = columns(rt, alloc, "k:int");
    let old = relation(rt, alloc, &columns, "");
    let new = relation(rt, alloc, &columns, row);
    diff(alloc, &old, &new).expect(rt, "memory")
}

//! Rows revised by other rows along a tree of dependencies.
use crate::samples::{columns, fields, is_relation, is_row, relation, row, rows, tree};
use revision::{merge, revise, revise_row};
use std::alloc::Global;
use std::process::Abort;

// Dependencies, rows, a row, and the same row revised by the rows: along each edge in turn, by the
// first row that agrees with it.
const REVISED: &str = "\
a -> b, b -> c | a=1 b=2 c=5 | a=1 b=1 c=1 | a=1 b=2 c=5
a -> b, b -> c | a=1 b=2 c=5 | a=9 b=2 c=1 | a=9 b=2 c=5
a -> b, b -> c | a=1 b=2 c=5 | a=9 b=8 c=1 | a=9 b=8 c=1
a -> b | a=1 b=7; a=1 b=8 | a=1 b=3 | a=1 b=7
a -> b | a=null b=null | a=null b=3 | a=null b=null
track -> album, album -> quantity | album=X quantity=9 track=a | album=X quantity=1 track=b | album=X quantity=9 track=b";

const SALES: &str = "album:text quantity:int track:text";

// The sale by which others are revised and with which they are merged.
const SALE: &str = "album=X quantity=9 track=a";

// Dependencies, sales, and the same sales revised and merged. In the second, two rows become one, and
// a row is left that nothing revises.
const MERGED: &str = "\
track -> album, album -> quantity
| album=X quantity=1 track=b
| album=X quantity=9 track=b
| album=X quantity=9 track=a; album=X quantity=9 track=b

album -> quantity
| album=X quantity=1 track=b; album=X quantity=2 track=b; album=Y quantity=1 track=b
| album=X quantity=9 track=b; album=Y quantity=1 track=b
| album=X quantity=9 track=a; album=X quantity=9 track=b; album=Y quantity=1 track=b";

#[test]
fn rows_are_revised_along_each_edge(rt: HostRuntime) {
    for line in REVISED.lines() {
        is_revised(&rt, rt.alloc(), line);
    }
    for case in MERGED.split("\n\n") {
        are_merged(&rt, rt.alloc(), case);
    }
}

fn is_revised(rt: &impl Abort, alloc: Global, line: &str) {
    let [under, by, old, new] = fields(rt, line);
    let tree = tree(rt, alloc, under);
    let by = rows(rt, alloc, by);
    let found = revise_row(alloc, &tree, &row(rt, alloc, old), &by);
    is_row(rt, alloc, found.ok(), new);
}

fn are_merged(rt: &impl Abort, alloc: Global, case: &str) {
    let [under, old, revised, merged] = fields(rt, case);
    let tree = tree(rt, alloc, under);
    let columns = columns(rt, alloc, SALES);
    let old = relation(rt, alloc, &columns, old);
    let by = relation(rt, alloc, &columns, SALE);
    let found = revise(alloc, &tree, &old, by.rows());
    is_relation(rt, alloc, found.ok(), SALES, revised);
    let found = merge(alloc, &tree, &old, &by);
    is_relation(rt, alloc, found.ok(), SALES, merged);
}

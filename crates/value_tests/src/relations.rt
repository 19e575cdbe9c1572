//! The order of rows, relations, and differences of relations.
ghost use Rattle.std.specs.Prelude.{◌≡◌};

use crate::samples::{columns, is_relation, names, relation, row_list};
use row_sets::{Relation, RowSet};
use signed_delta::diff;
use std::alloc::Global;
use std::process::Abort;

// Values of one column, of which null comes before numbers, these before texts, and these before
// truth values.
const UNORDERED: &str = "a=x; a=; a=null; a=true; a=0; a=-9223372036854775808; a=null; a=false";

const ORDERED: &str = "a=null; a=-9223372036854775808; a=0; a=; a=x; a=false; a=true";

#[test]
fn rows_are_ordered(rt: HostRuntime) {
    let alloc = rt.alloc();
    let found = RowSet::new(alloc, row_list(&rt, alloc, UNORDERED)).expect(&rt, "memory");
    assert!(rt; found.rows() == row_list(&rt, alloc, ORDERED).as_slice());
}

#[test]
fn relations_are_united_and_parted(rt: HostRuntime) {
    let alloc = rt.alloc();
    let columns = columns(&rt, alloc, "k:int");
    let first = relation(&rt, alloc, &columns, "k=2; k=1; k=1");
    let second = relation(&rt, alloc, &columns, "k=2; k=3");
    let both = first.union(alloc, &second);
    is_relation(&rt, alloc, both.ok(), "k:int", "k=1; k=2; k=3");
    let rest = first.minus(alloc, &second);
    is_relation(&rt, alloc, rest.ok(), "k:int", "k=1");
}

#[test]
fn differences_are_applied(rt: HostRuntime) {
    let alloc = rt.alloc();
    let columns = columns(&rt, alloc, "k:int");
    let old = relation(&rt, alloc, &columns, "k=2; k=1");
    let new = relation(&rt, alloc, &columns, "k=2; k=3");
    let made = applied(&rt, alloc, &old, &new);
    is_relation(&rt, alloc, Some(made), "k:int", "k=2; k=3");
}

// What the difference of the two makes of the first.
fn applied(rt: &impl Abort, alloc: Global, old: &Relation, new: &Relation) -> Relation
    requires { new.now.columns ≡ old.now.columns }
{
    let count = new.rows().rows().len();
    let delta = diff(alloc, old, new).expect(rt, "memory");
    let made = delta.apply(alloc, old).expect(rt, "memory");
    assert_eq!(rt; made.rows().rows().len(), count);
    made
}

#[test]
fn relations_are_projected(rt: HostRuntime) {
    let alloc = rt.alloc();
    let columns = columns(&rt, alloc, "a:int b:int?");
    let found = relation(&rt, alloc, &columns, "a=1 b=2; a=2 b=null; a=2 b=4");
    let part = found.project(alloc, &names(&rt, alloc, "a"));
    is_relation(&rt, alloc, part.ok(), "a:int", "a=1; a=2");
}

// Null is equal to null.
#[test]
fn relations_are_joined(rt: HostRuntime) {
    let alloc = rt.alloc();
    let cols = columns(&rt, alloc, "a:int b:int?");
    let others = columns(&rt, alloc, "b:int? c:int");
    cols.union(alloc, &others).expect(&rt, "a union");
    let left = relation(&rt, alloc, &cols, "a=1 b=2; a=2 b=null; a=2 b=4");
    let right = relation(&rt, alloc, &others, "b=2 c=3; b=null c=5");
    let rows = "a=1 b=2 c=3; a=2 b=null c=5";
    let joined = left.join(alloc, &right);
    is_relation(&rt, alloc, joined.ok(), "a:int b:int? c:int", rows);
}

//! What functional dependencies determine.
use crate::samples::{check, dep, deps, names};
use fd_closure::{closure, implies};
use std::alloc::Global;
use std::process::Abort;

#[test]
fn names_have_closures(rt: HostRuntime) {
    is_closure(&rt, rt.alloc(), "a", "a b c d");
    is_closure(&rt, rt.alloc(), "d", "d");
}

// Checks which names these determine.
fn is_closure(rt: &impl Abort, alloc: Global, of: &str, all: &str) {
    let under = deps(rt, alloc, "a -> b, b c -> d, b -> c, a e -> f");
    let found = closure(alloc, &names(rt, alloc, of), &under).expect(rt, all);
    check(rt, found.same(&names(rt, alloc, all)), all);
}

#[test]
fn dependencies_imply_another(rt: HostRuntime) {
    let alloc = rt.alloc();
    let under = deps(&rt, alloc, "a -> b, b -> c");
    let found = implies(alloc, &under, &dep(&rt, alloc, "a -> c"));
    assert!(rt; found == Ok(true));
}

//! Functional dependencies.
ghost use Rattle.std.specs.Prelude.{◌≡◌, IfOk};
ghost use Rattle.fd_closure.specs.Sides.{IsFull, dep_of};

use lens_values::{Names, NoMemory};
use std::alloc::Global;
use std::marker::Model;

/// A side of a dependency that has no column.
#[derive(Debug, Clone, Copy, PartialEq, Eq)]
pub struct EmptySide;

/// The columns of the left side decide those of the right side. Neither side is empty.
#[derive(Drop)]
pub struct Dep {
    left: Names,
    right: Names,
}

impl Model for Dep {
    ghost use Rattle.lens_specs.specs.Dependencies.{Edge, edge};
    ghost use Rattle.fd_closure.specs.Sides.{IsFull, coded_edge};

    ghost Value = { Edge };

    ghost coded = { coded_edge };

    ghost view = { λ d. edge d.left d.right };

    ghost invariant = { λ d. IsFull (edge d.left d.right) };
}

impl Dep {
    /// The dependency of these sides, or `EmptySide` if one of them is empty.
    pub fn new(left: Names, right: Names) -> Result<Dep, EmptySide>
        ensures { result ≡ dep_of left right }
    {
        if left.as_slice().is_empty() || right.as_slice().is_empty() {
            return Err(EmptySide);
        }
        Ok(Dep { left, right })
    }

    /// The columns that decide.
    pub fn left(&self) -> &Names
        ensures value { result.now ≡ self.now.left }
        ensures full { IsFull self.now }
    {
        &self.left
    }

    /// The columns that are decided.
    pub fn right(&self) -> &Names
        ensures value { result.now ≡ self.now.right }
        ensures full { IsFull self.now }
    {
        &self.right
    }

    /// An equal dependency.
    pub fn copy(&self, alloc: Global) -> Result<Dep, NoMemory>
        ensures { IfOk result (λ copy. copy ≡ self.now) }
    {
        Ok(Dep {
            left: self.left.copy(alloc)?,
            right: self.right.copy(alloc)?,
        })
    }
}

//! Unknown columns.
ghost use Rattle.std.specs.Prelude.{◌≡◌, find, not, option_copied, option_map};
ghost use Rattle.plain_values.specs.SortedSet as set;
ghost use Rattle.lens_specs.specs.Columns.{least_outside, names};
ghost use Rattle.lens_specs.specs.Refusal.{is_column, or_else, unknown_column};
ghost use Rattle.lens_specs.specs.Typing.{unknown_in as unknown_of_all};
ghost use Rattle.lens_types.specs.Unknown.{unknown_of_edge, unknown_of_fault, unknown_said};

use fd_closure::Dep;
use lens_pred::PredFault;
use lens_values::{Columns, Name, Names};

/// The first unknown column of the dependencies, or else of the predicate, whose check answered
/// `suits`.
pub fn unknown_column(cols: &Columns, deps: &[Dep], suits: &Result<(), PredFault>) -> Option<Name>
    ensures { option_map unknown_column result
        ≡ or_else (unknown_of_all cols.now deps.now)
        (option_map unknown_column (unknown_said suits.now)) }
{
    match unknown_in(cols, deps) {
        Some(name) => Some(name),
        None => unknown_said(suits),
    }
}

/// The unknown column that the check of a predicate found, if it found one.
fn unknown_said(suits: &Result<(), PredFault>) -> Option<Name>
    ensures { result ≡ unknown_said suits.now }
{
    match suits {
        Ok(()) => None,
        Err(fault) => unknown_of_fault(*fault),
    }
}

/// The unknown column, if that is the fault.
fn unknown_of_fault(fault: PredFault) -> Option<Name>
    ensures { result ≡ unknown_of_fault fault }
{
    match fault {
        PredFault::UnknownColumn { name } => Some(name),
        PredFault::PredKind { name: _ } => None,
    }
}

/// The first unknown column of the dependencies, in their order: the least one of the left side, or
/// else of the right side.
fn unknown_in(cols: &Columns, deps: &[Dep]) -> Option<Name>
    ensures { option_map unknown_column result ≡ unknown_of_all cols.now deps.now }
{
    for dep in deps {
        if let Some(name) = unknown_of(cols, dep) {
            return Some(name);
        }
    }
    None
}

/// The least unknown column of the left side, or else of the right side.
fn unknown_of(cols: &Columns, dep: &Dep) -> Option<Name>
    ensures { option_map unknown_column result ≡ unknown_of_edge cols.now dep.now }
{
    match unknown_among(cols, dep.left()) {
        Some(name) => Some(name),
        None => unknown_among(cols, dep.right()),
    }
}

/// The least of the names that is no column.
pub fn unknown_among(cols: &Columns, side: &Names) -> Option<Name>
    ensures { result ≡ least_outside side.now (names cols.now) }
{
    first_unknown(cols, side.as_slice()).copied()
}

/// The first of the names that is no column.
fn first_unknown<'a>(cols: &Columns, side: &'a [Name]) -> Option<&'a Name>
    ensures { option_copied result ≡ find (λ c. not (set.contains (names cols.now) c)) side.now }
{
    side.iter().find(|name| !has_column(cols, name))
}

/// Whether there is a column of the name.
#[tactic(auto, using(crate::proofs::UnknownColumns::in_names))]
pub fn has_column(cols: &Columns, name: &Name) -> bool
    ensures there { result ≡ is_column cols.now name.now }
    ensures named { result ≡ set.contains (names cols.now) name.now }
{
    cols.kind(name).is_some()
}

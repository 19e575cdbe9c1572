//! Names with a value for each, taken as pairs: their order, and whether they fit columns.
ghost use Rattle.std.specs.Prelude.{◌≡◌, length};
ghost use Rattle.std.specs.Cmp.Lexicographic.{pointwise, slice_cmp};
ghost use Rattle.std.specs.List.{list_all, zip};
ghost use Rattle.plain_values.specs.Row.{pair_cmp, pair_fits};

use plain_values::{Kind, Name, Value};
use std::cmp::Ordering;

/// Whether the names with their values are in these columns, each with a value that fits.
pub fn all_fit(names: &[Name], values: &[Value], columns: &[(Name, Kind)]) -> bool
    requires { length names.now ≡ length values.now }
    ensures { result ≡ pointwise pair_fits (zip names.now values.now) columns.now }
{
    values.len() == columns.len() && each_fits(names, values, columns)
}

// Whether each name with its value is in the column at its place, and the value fits.
fn each_fits(names: &[Name], values: &[Value], columns: &[(Name, Kind)]) -> bool
    ensures { result
        ≡ list_all (λ e. pair_fits e.0 e.1) (zip (zip names.now values.now) columns.now) }
{
    names
        .iter()
        .zip(values)
        .zip(columns)
        .all(|((name, value), column)| value_fits(name, value, column))
}

// Whether the name is that of the column, and the value fits its kind.
fn value_fits(name: &Name, value: &Value, column: &(Name, Kind)) -> bool
    ensures { result ≡ pair_fits (name.now, value.now) column.now }
{
    *name == column.0 && value.fits(column.1)
}

/// How names with their values stand to others, by the first that differ.
pub fn pairs_cmp(names: &[Name], values: &[Value], others: &[Name], their: &[Value]) -> Ordering
    requires names { length names.now ≡ length values.now }
    requires others { length others.now ≡ length their.now }
    ensures { result
        ≡ slice_cmp pair_cmp (zip names.now values.now) (zip others.now their.now) }
{
    for place in 0..values.len().min(their.len()) {
        match pair_cmp(&names[place], &values[place], &others[place], &their[place]) {
            Ordering::Equal => (),
            order => return order,
        }
    }
    values.len().cmp(&their.len())
}

// How a name with its value stands to another.
fn pair_cmp(name: &Name, value: &Value, other: &Name, its: &Value) -> Ordering
    ensures { result ≡ pair_cmp (name.now, value.now) (other.now, its.now) }
{
    match name.cmp(other) {
        Ordering::Equal => value.cmp(its),
        order => order,
    }
}

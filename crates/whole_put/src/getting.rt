//! What a lens shows of the tables.
ghost use Rattle.std.specs.Prelude.{◌≡◌, IfOk};
ghost use Rattle.lens_specs.specs.Lens as spec;
ghost use Rattle.lens_specs.specs.Lens.{sort_of};
ghost use Rattle.lens_specs.specs.Sort.{IsOfSort};
ghost use Rattle.lens_laws.specs.Lenses.{AreOf};

use crate::db::Db;
use crate::sources::{Sources, shown_over};
use lens_types::TypedLens;
use lens_values::NoMemory;
use row_sets::Relation;
use std::alloc::Global;

/// The view that the lens shows of the tables. It is of the lens's sort.
pub fn get(alloc: Global, lens: &TypedLens, db: &Db) -> Result<Relation, NoMemory>
    requires { AreOf lens.now db.now }
    ensures value { IfOk result (λ shown. shown ≡ spec.view lens.now db.now) }
    ensures sort { IfOk result (λ shown. IsOfSort shown (sort_of lens.now)) }
{
    let under = Sources::of(alloc, lens, db)?;
    shown_over(alloc, lens, &under, db)
}

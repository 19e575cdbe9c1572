//! A view that is opened for a request.
ghost use Rattle.std.specs.Prelude.{◌≡◌, [], IfOk, None, find, option_copied};
ghost use Rattle.plain_values.specs.SortedSet as set;
ghost use Rattle.plain_values.specs.Value.{is_nullable};
ghost use Rattle.lens_specs.specs.Lens.{sort_of, tables_of};
ghost use Rattle.lens_laws.specs.Asked.{HasKeys, asked};
ghost use Rattle.lens_laws.specs.Lenses.{AreOf};
ghost use Rattle.lens_probe.specs.Viewed.{AreIndexed, IsViewed};
ghost use Rattle.server_specs.specs.Changing.{latest};
ghost use Rattle.server_specs.specs.Exporting.{first_nullable};

use crate::last_changes::LastChanges;
use base_index::Tables;
use lens_probe::View;
use lens_types::{Sort, TypedLens};
use lens_values::{Kind, Name, NoMemory};
use std::alloc::Global;

/// The view of a lens over tables, with their version and the last change of each.
#[derive(Drop)]
pub struct Opened<'a> {
    /// The view.
    pub view: View<'a>,
    /// The version of the tables.
    pub version: u64,
    /// The version that changed each table last.
    pub last: &'a LastChanges,
}

impl<'a> Opened<'a> {
    /// Opens the view of a lens, whose tables are there, of their sorts and with the indexes that
    /// it needs.
    pub fn of(
        lens: &'a TypedLens,
        tables: &'a Tables,
        version: u64,
        last: &'a LastChanges,
    ) -> Opened<'a>
        requires keys { HasKeys lens.now }
        requires tables { AreOf lens.now tables.now.present.relations }
        requires indexed { AreIndexed (asked lens.now []) tables.now.present }
        ensures view { result.view ≡ record { lens = lens.now; sets = []; tables = tables.now } }
        ensures version { result.version ≡ version }
        ensures last { result.last.now ≡ last.now }
    {
        Opened {
            view: View::of(lens, tables),
            version,
            last,
        }
    }

    /// The sort of the lens.
    pub fn sort(&self) -> &Sort
        ensures sort { result.now ≡ sort_of self.now.view.lens }
        ensures viewed { IsViewed self.now.view }
    {
        self.view.lens().sort()
    }

    /// The least column that may be null.
    pub fn first_nullable(&self) -> Option<Name>
        ensures name { result ≡ first_nullable (sort_of self.now.view.lens).columns }
        ensures viewed { IsViewed self.now.view }
    {
        Some(first_nullable_of(self.sort().cols().pairs())?.0)
    }

    /// The last change of the tables under the lens.
    pub fn changed_at(&self, alloc: Global) -> Result<u64, NoMemory>
        ensures { IfOk result (λ version.
            version ≡ latest self.now.last.now (set.items (tables_of self.now.view.lens))) }
    {
        let tables = self.view.lens().tables(alloc)?;
        Ok(self.last.latest(tables.as_slice()))
    }
}

// The first of the columns that may be null.
fn first_nullable_of(columns: &[(Name, Kind)]) -> Option<&(Name, Kind)>
    ensures { option_copied result ≡ find (λ c. is_nullable c.1) columns.now }
{
    columns.iter().find(|column| column.1.is_nullable())
}

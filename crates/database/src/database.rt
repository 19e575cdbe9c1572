//! The database: what a server holds between two requests.
ghost use Rattle.std.specs.Prelude.{◌≡◌, IfSome, option_map};
ghost use Rattle.std.specs.FinMap as finmap;

use base_index::Tables;
use edit_batches::History;
use lens_values::Name;
use opened_view::{LastChanges, Opened};
use view_catalog::Catalog;

/// The definitions with their lenses, the tables, the version, the last change of each table, and
/// the changes that can be undone.
#[derive(Drop)]
pub struct Database {
    /// The definitions, and the lens of each name.
    pub catalog: Catalog,
    /// The tables, with the indexes by which the lenses ask them.
    pub tables: Tables,
    /// The version that changed each table last.
    pub last: LastChanges,
    /// How many changes were made.
    pub version: u64,
    /// The changes that can be undone, the oldest first.
    pub past: History,
}

impl Database {
    ghost use Rattle.database.specs.Databases.{catalogue};
    ghost use Rattle.database.specs.Opening.{CanOpen, IsOpened};
    ghost use Rattle.opened_view.specs.Seen.{lens_of};

    /// Opens the view of this name. `None`: the catalogue has no lens of this name.
    pub fn open_view(&self, name: &Name) -> Option<Opened<'_>>
        requires { CanOpen self.now }
        ensures known { option_map lens_of result
            ≡ finmap.get (catalogue self.now.catalog.texts) name.now }
        ensures opened { IfSome result (λ opened. IsOpened opened self.now) }
    {
        let lens = self.catalog.lens(name)?;
        Some(Opened::of(lens, &self.tables, self.version, &self.last))
    }
}

//! The definitions that were accepted, and the lens of each name.
ghost use Rattle.std.specs.Prelude.{◌≡◌, ◌+◌, ◌^◌, ◌<◌, ◌≤◌, ◌++◌, ◌∷◌, [], None, OnOk, length, option_copied};
ghost use Rattle.std.specs.FinMap as finmap;
ghost use Rattle.catalog_specs.specs.Catalogue.{catalogue};
ghost use Rattle.catalog_specs.specs.Judging.{first_refused, is_taken, table_count, view_count};
ghost use Rattle.view_catalog.specs.Admissions.{IsAdmissible, IsPrepared, tables_with};

use crate::fault::CatalogFault;
use crate::judging::judge;
use crate::key::Key;
use crate::prepared::{Prepared, is_table};
use indexmap::IndexMap;
use lens_types::TypedLens;
use lens_values::{Name, NoMemory, Text};
use std::alloc::Global;
use std::marker::Model;

/// The texts of the definitions in order, and the lens of each name. A contract sees the texts, and
/// how many more definitions fit without more memory.
#[derive(Drop)]
pub struct Catalog {
    texts: Vec<Text>,
    lenses: IndexMap<Key, TypedLens>,
    views: usize,
}

impl Model for Catalog {
    ghost use Rattle.std.specs.Prelude.{◌-◌, min, vec_len, vec_capacity};
    ghost use Rattle.indexmap.specs.IndexMap.{spare};
    ghost use Rattle.view_catalog.specs.Contents.{Contents, contents_code, contents_with, IsCatalog};

    ghost Value = { Contents };

    ghost coded = { contents_code };

    ghost view = { λ c. contents_with c.texts.items
        (min (vec_capacity c.texts - vec_len c.texts) (spare c.lenses)) };

    ghost invariant = { λ c. IsCatalog c.texts.items c.lenses.entries c.views };
}

impl Catalog {
    /// A catalogue of no definitions.
    pub fn new(alloc: Global) -> Catalog
        ensures { result.texts ≡ [] }
    {
        Catalog {
            texts: Vec::new(alloc),
            lenses: IndexMap::new(alloc),
            views: 0,
        }
    }

    /// The lens that the name has.
    pub fn lens(&self, name: &Name) -> Option<&TypedLens>
        ensures { option_copied result ≡ finmap.get (catalogue self.now.texts) name.now }
    {
        self.lenses.get(&Key { name: *name })
    }

    /// Whether the name has a lens.
    pub fn has(&self, name: &Name) -> bool
        ensures { result ≡ is_taken (catalogue self.now.texts) name.now }
    {
        self.lens(name).is_some()
    }

    /// The texts of the definitions, in order.
    pub fn definitions(&self) -> &[Text]
        ensures texts { result.now ≡ self.now.texts }
        ensures taken { first_refused self.now.texts ≡ None }
    {
        self.texts.as_slice()
    }

    /// The number of tables.
    pub fn tables(&self) -> usize
        ensures number { result ≡ table_count (catalogue self.now.texts) }
        ensures small { result < 2 ^ 63 }
    {
        self.lenses.len() - self.views
    }

    /// The number of views.
    pub fn views(&self) -> usize
        ensures { result ≡ view_count (catalogue self.now.texts) }
    {
        self.views
    }

    /// The definition that the text says, or why it is refused. The catalogue stays the same, and
    /// has room for the definition. `Lang` where the text is no definition, then `NameTaken`, then
    /// `UnknownName` or `Rule`, whichever comes first in the expression, and at last `Lang` where
    /// there are 64 tables or 256 views; or `NoMemory`.
    pub fn prepare(&mut self, alloc: Global, text: Text) -> Result<Prepared, CatalogFault>
        ensures prepared { IsPrepared result text self.old.texts }
        ensures short { length text < 2 ^ 64 }
        ensures texts { self.new.texts ≡ self.old.texts }
        ensures room { OnOk result (0 < self.new.room) }
        ensures kept { self.old.room ≤ self.new.room }
    {
        let made = judge(alloc, self, &text)?;
        self.make_room()?;
        Ok(Prepared {
            text,
            name: made.name,
            lens: made.lens,
        })
    }

    /// Makes room for one more definition.
    fn make_room(&mut self) -> Result<(), NoMemory>
        ensures texts { self.new.texts ≡ self.old.texts }
        ensures room { OnOk result (0 < self.new.room) }
        ensures kept { self.old.room ≤ self.new.room }
    {
        self.texts.reserve(1)?;
        self.lenses.reserve(1)?;
        Ok(())
    }

    /// Takes the definition. No memory is taken.
    pub fn admit(&mut self, prepared: Prepared)
        requires room { 0 < self.old.room }
        requires admissible { IsAdmissible self.old.texts prepared }
        ensures texts { self.new.texts ≡ self.old.texts ++ prepared.text ∷ [] }
        ensures room { self.old.room ≤ self.new.room + 1 }
    {
        let tables = self.tables_with(&prepared);
        let name = prepared.name;
        drop(self.lenses.insert(Key { name }, prepared.lens).unwrap());
        self.texts.push_reserved(prepared.text);
        self.views = self.lenses.len() - tables;
    }

    /// The number of tables once the definition is taken.
    fn tables_with(&self, prepared: &Prepared) -> usize
        ensures { result ≡ tables_with prepared.now (table_count (catalogue self.now.texts)) }
    {
        if is_table(&prepared.lens, &prepared.name) {
            self.tables() + 1
        } else {
            self.tables()
        }
    }
}

//! Definitions that can be admitted.
ghost use Rattle.std.specs.Prelude.{◌≡◌};
ghost use Rattle.catalog_specs.specs.Catalogue.{is_table_of};
ghost use Rattle.view_catalog.specs.Admissions.{table_in};

use lens_types::{Node, TypedLens};
use lens_values::{Name, Text};

/// A definition that was judged, with the lens that it makes.
#[derive(Drop)]
pub struct Prepared {
    pub(crate) text: Text,
    pub(crate) name: Name,
    pub(crate) lens: TypedLens,
}

impl Prepared {
    /// The text of the definition.
    pub fn text(&self) -> &Text
        ensures { result.now ≡ self.now.text }
    {
        &self.text
    }

    /// The name that is defined.
    pub fn name(&self) -> &Name
        ensures { result.now ≡ self.now.name }
    {
        &self.name
    }

    /// The lens of the name.
    pub fn lens(&self) -> &TypedLens
        ensures { result.now ≡ self.now.lens }
    {
        &self.lens
    }

    /// The name, where a table is defined.
    pub fn table(&self) -> Option<Name>
        ensures { result ≡ table_in self.now.name self.now.lens }
    {
        if is_table(&self.lens, &self.name) {
            Some(self.name)
        } else {
            None
        }
    }
}

/// Whether the lens is nothing but the table of this name.
pub(crate) fn is_table(lens: &TypedLens, name: &Name) -> bool
    ensures { result ≡ is_table_of name.now lens.now }
{
    match lens.node() {
        Node::Base { table, .. } => table == name,
        Node::Select { .. } | Node::Drop { .. } | Node::Rename { .. } | Node::Join { .. } => false,
    }
}

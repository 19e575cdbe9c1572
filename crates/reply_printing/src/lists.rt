//! Lists that answers hold. A contract sees each list as the definitions write it.
ghost use Rattle.std.specs.Prelude.{◌≡◌, ℕ, List, map};
ghost use Rattle.std.specs.Coded.{coded_list};
ghost use Rattle.lens_specs.specs.Delta as delta;
ghost use Rattle.lens_specs.specs.Dependencies as dependencies;
ghost use Rattle.fd_closure.specs.Sides.{coded_edge};
ghost use Rattle.signed_delta.specs.Tables.{table_delta};
ghost use Rattle.reply_printing.specs.ChangesCode.{coded_changes};

use fd_tree::Edge;
use lens_values::Text;
use signed_delta::TableDelta;
use std::marker::Model;

/// The differences of the tables that are changed. A contract sees them as the definitions speak of
/// them.
#[derive(Drop)]
pub struct Changes {
    list: Vec<TableDelta>,
}

impl Model for Changes {
    ghost Value = { List delta.TableDelta };

    ghost coded = { coded_changes };

    ghost view = { λ c. map table_delta c.list.items };
}

impl Changes {
    /// These differences.
    pub fn new(list: Vec<TableDelta>) -> Changes
        ensures { result ≡ map table_delta list.items }
    {
        Changes { list }
    }

    /// The differences in their order.
    pub fn as_slice(&self) -> &[TableDelta]
        ensures { map table_delta result.now ≡ self.now }
    {
        self.list.as_slice()
    }
}

/// Edges, in order. A contract sees the list of their sides.
#[derive(Drop)]
pub struct Edges {
    list: Vec<Edge>,
}

impl Model for Edges {
    ghost Value = { List dependencies.Edge };

    ghost coded = { coded_list coded_edge };

    ghost view = { λ e. e.list.items };
}

impl Edges {
    /// These edges.
    pub fn new(list: Vec<Edge>) -> Edges
        ensures { result ≡ list.items }
    {
        Edges { list }
    }

    /// The edges in their order.
    pub fn as_slice(&self) -> &[Edge]
        ensures { result.now ≡ self.now }
    {
        self.list.as_slice()
    }
}

/// Texts, in order. A contract sees the list of their bytes.
#[derive(Drop)]
pub struct Texts {
    list: Vec<Text>,
}

impl Model for Texts {
    ghost Value = { List (List ℕ) };

    ghost view = { λ t. t.list.items };
}

impl Texts {
    /// These texts.
    pub fn new(list: Vec<Text>) -> Texts
        ensures { result ≡ list.items }
    {
        Texts { list }
    }

    /// The texts in their order.
    pub fn as_slice(&self) -> &[Text]
        ensures { result.now ≡ self.now }
    {
        self.list.as_slice()
    }
}

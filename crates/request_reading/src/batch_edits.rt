//! The edits of a batch.
ghost use Rattle.std.specs.Prelude.{◌≡◌, List, map};
ghost use Rattle.server_specs.specs.Request as spec;
ghost use Rattle.request_reading.specs.Edits.{edit_view};
ghost use Rattle.request_reading.specs.ItemsCode.{coded_edits};

use crate::sent::JsonRows;
use lens_values::Name;
use std::marker::Model;

/// An edit of a batch. Its rows borrow the texts of its line.
#[derive(Drop)]
pub struct BatchEdit<'a> {
    /// The view.
    pub view: Name,
    /// The rows to remove.
    pub remove: JsonRows<'a>,
    /// The rows to add.
    pub add: JsonRows<'a>,
}

/// The edits of a batch, in order. A contract sees them as the definitions speak of them.
#[derive(Drop)]
pub struct BatchEdits<'a> {
    list: Vec<BatchEdit<'a>>,
}

impl<'a> Model for BatchEdits<'a> {
    ghost Value = { List spec.BatchEdit };

    ghost coded = { coded_edits };

    ghost view = { λ e. map edit_view e.list.items };
}

impl<'a> BatchEdits<'a> {
    /// These edits.
    pub fn new(list: Vec<BatchEdit<'a>>) -> BatchEdits<'a>
        ensures { result ≡ map edit_view list.entry.items }
    {
        BatchEdits { list }
    }

    /// The edits in their order.
    pub fn as_slice(&self) -> &[BatchEdit<'a>]
        ensures { map edit_view result.now ≡ self.now }
    {
        self.list.as_slice()
    }

    /// The edits in their order, handed on without a copy.
    pub fn into_list(self) -> Vec<BatchEdit<'a>>
        ensures { map edit_view result.items ≡ self.entry }
    {
        self.list
    }
}

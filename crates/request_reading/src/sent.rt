//! JSON of a request, as it was sent. It borrows the texts of its line.
ghost use Rattle.std.specs.Prelude.{◌≡◌, IfOk};
ghost use Rattle.serde_json.specs.Data.{Data, Items};
ghost use Rattle.borrowed_json.specs.Meaning.{items_data, value_data};
ghost use Rattle.server_specs.specs.Sending.{value_in as value_said};
ghost use Rattle.request_reading.specs.ItemsCode.{coded_data, coded_items};

use crate::member_values::value_in;
use borrowed_json::Value as Json;
use lens_values::{Kind, NoMemory, Value};
use std::alloc::Global;
use std::marker::Model;

/// The elements of a request's list, as they were sent. They borrow the texts of its line. A
/// contract sees them as JSON items.
#[derive(Drop)]
pub struct JsonRows<'a> {
    list: Vec<Json<'a>>,
}

impl<'a> Model for JsonRows<'a> {
    ghost Value = { Items };

    ghost coded = { coded_items };

    ghost view = { λ r. items_data r.list.items };
}

impl<'a> JsonRows<'a> {
    /// These elements.
    pub fn new(list: Vec<Json<'a>>) -> JsonRows<'a>
        ensures { result ≡ items_data list.entry.items }
    {
        JsonRows { list }
    }

    /// The elements in the order in which they were sent.
    pub fn as_slice(&self) -> &[Json<'a>]
        ensures { items_data result.now ≡ self.now }
    {
        self.list.as_slice()
    }

    /// The elements in the order in which they were sent, handed on without a copy.
    pub fn into_list(self) -> Vec<Json<'a>>
        ensures { items_data result.items ≡ self.entry }
    {
        self.list
    }
}

/// A value of a request, as it was sent. It borrows the text of its line. A contract sees it as
/// JSON.
#[derive(Drop)]
pub struct JsonValue<'a> {
    json: Json<'a>,
}

impl<'a> Model for JsonValue<'a> {
    ghost Value = { Data };

    ghost coded = { coded_data };

    ghost view = { λ v. value_data v.json };
}

impl<'a> JsonValue<'a> {
    /// This value.
    pub fn new(json: Json<'a>) -> JsonValue<'a>
        ensures { result ≡ value_data json.entry }
    {
        JsonValue { json }
    }

    /// The value that it says, if it fits the kind.
    pub fn fitting(&self, alloc: Global, kind: Kind) -> Result<Option<Value>, NoMemory>
        ensures { IfOk result (λ found. found ≡ value_said kind self.now) }
    {
        value_in(alloc, kind, &self.json)
    }
}

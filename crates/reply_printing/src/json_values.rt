//! Rows as JSON.
ghost use Rattle.std.specs.Prelude.{◌≡◌, IfOk};
ghost use Rattle.std.specs.FinMap as finmap;
ghost use Rattle.serde_json.specs.View.{view, members_view};
ghost use Rattle.server_specs.specs.Answer.{value_data, row_data, pairs_data};

use lens_values::{NoMemory, Row, Value};
use serde_json::{Map, Value as Json};
use std::alloc::Global;

/// A row as an object of its columns.
pub fn row_value(alloc: Global, row: &Row) -> Result<Json, NoMemory>
    ensures { IfOk result (λ json. view json ≡ row_data row.now) }
{
    Ok(Json::Object(members_json(alloc, row)?))
}

fn members_json(alloc: Global, row: &Row) -> Result<Map<String, Json>, NoMemory>
    ensures { IfOk result (λ members.
        members_view members.entries ≡ pairs_data (finmap.entries row.now)) }
{
    let mut members = Map::new(alloc);
    for (name, value) in row.names().as_slice().iter().zip(row.values()) {
        let value = value_json(alloc, value)?;
        serde_json::put(&mut members, alloc, name.as_str(), value)?;
    }
    Ok(members)
}

fn value_json(alloc: Global, value: &Value) -> Result<Json, NoMemory>
    ensures { IfOk result (λ json. view json ≡ value_data value.now) }
{
    match value {
        Value::Null => Ok(Json::Null),
        Value::Int(number) => Ok(Json::from(*number)),
        Value::Text(text) => Ok(Json::try_from_str(alloc, text.as_str())?),
        Value::Flag(flag) => Ok(Json::from(*flag)),
    }
}

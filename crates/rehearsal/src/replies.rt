//! What a reply reports.
ghost use Rattle.std.specs.Prelude.{◌≡◌, ◌↔◌, IfOk, IsTrue, codes, false, option_and_then, option_map, unwrap_or};
ghost use Rattle.serde_json.specs.Events.{items_len};
ghost use Rattle.serde_json.specs.Find as find;
ghost use Rattle.serde_json.specs.View.{view};
ghost use Rattle.server_specs.specs.Answer.{memory, text};
ghost use Rattle.rehearsal.specs.Summary.{is_ok, rows_shown};

use lens_values::NoMemory;
use reply_printing::{Reply, memory_reply};
use serde_json::Value as Json;
use std::alloc::Global;

/// Whether a reply accepts its line, and how many rows it shows.
#[derive(Clone, Copy)]
pub(crate) struct Reported {
    pub accepts: bool,
    pub rows: usize,
}

/// Whether the reply says that memory ran out.
pub(crate) fn reports_no_memory(reply: &Reply) -> bool
    ensures { IsTrue result ↔ (reply.now ≡ text memory) }
{
    let memory = memory_reply();
    reply.bytes() == memory.bytes()
}

/// Reads a reply.
pub(crate) fn read_reply(alloc: Global, reply: &[u8]) -> Result<Reported, NoMemory>
    ensures accepts { IfOk result (λ reported. reported.accepts ≡ is_ok reply.now) }
    ensures rows { IfOk result (λ reported. reported.rows ≡ rows_shown reply.now) }
{
    match Json::from_slice(alloc, reply) {
        Ok(json) => Ok(Reported {
            accepts: accepts(&json),
            rows: rows_in(&json),
        }),
        Err(e) => {
            if e.is_memory() {
                Err(NoMemory)
            } else {
                Ok(Reported {
                    accepts: false,
                    rows: 0,
                })
            }
        }
    }
}

fn accepts(json: &Json) -> bool
    ensures { result
        ≡ unwrap_or (option_and_then find.as_bool (find.get (codes "ok") (view json.now))) false }
{
    json.get("ok").and_then(Json::as_bool).unwrap_or(false)
}

// How many rows the reply shows: 0 if it has no list of rows.
fn rows_in(json: &Json) -> usize
    ensures { result ≡ unwrap_or (option_map items_len
        (option_and_then find.as_array (find.get (codes "rows") (view json.now)))) 0 }
{
    match json.get("rows") {
        Some(rows) => items_in(rows),
        None => 0,
    }
}

fn items_in(json: &Json) -> usize
    ensures { result ≡ unwrap_or (option_map items_len (find.as_array (view json.now))) 0 }
{
    match json.as_array() {
        Some(items) => items.len(),
        None => 0,
    }
}

//! The requests of a rehearsal, and their rows, as JSON.
ghost use Rattle.std.specs.Prelude.{◌≡◌, ◌+◌, ◌%◌, IfOk, string_bytes};
ghost use Rattle.serde_json.specs.View.{items_view, view};
ghost use Rattle.rehearsal.specs.Rehearsal.{album_row, define_request, edit_request, numbered, quantity_of, rating_of, read_request, stock_row, track_row};

use lens_values::NoMemory;
use serde_json::{Value as Json, json};
use std::alloc::Global;

/// The request to take a definition.
pub(crate) fn define_request(alloc: Global, text: &str) -> Result<Json, NoMemory>
    ensures { IfOk result (λ request. view request ≡ define_request text.now) }
{
    Ok(json!(in alloc; {"do": "define", "text": text})?)
}

/// The request to read a table or a view.
pub(crate) fn read_request(alloc: Global, name: &str) -> Result<Json, NoMemory>
    ensures { IfOk result (λ request. view request ≡ read_request name.now) }
{
    Ok(json!(in alloc; {"do": "read", "view": name})?)
}

/// The request to edit a table or a view.
pub(crate) fn edit_request(
    alloc: Global,
    name: &str,
    remove: Vec<Json>,
    add: Vec<Json>,
) -> Result<Json, NoMemory>
    ensures { IfOk result (λ request. view request
        ≡ edit_request name.now (items_view remove.items) (items_view add.items)) }
{
    // The lists go in first: where memory runs out after that, only the request is left to free.
    Ok(json!(in alloc; {"add": add, "remove": remove, "do": "edit", "view": name})?)
}

/// A row of albums.
pub(crate) fn album_row(alloc: Global, i: u64) -> Result<Json, NoMemory>
    ensures { IfOk result (λ row. view row ≡ album_row i) }
{
    Ok(json!(in alloc; {"album": numbered(alloc, "a", i)?, "quantity": quantity_of(i)})?)
}

/// A row of tracks: the track of `i`, on the album of `on`.
pub(crate) fn track_row(alloc: Global, i: u64, on: u64) -> Result<Json, NoMemory>
    ensures { IfOk result (λ row. view row ≡ track_row i on) }
{
    Ok(json!(in alloc; {
        "album": numbered(alloc, "a", on)?,
        "date": 1980 + i % 40,
        "rating": rating_of(i),
        "track": numbered(alloc, "t", i)?
    })?)
}

/// A row of stock: the album of `i`, with this rating and this track.
pub(crate) fn stock_row(alloc: Global, i: u64, rating: u64, track: String) -> Result<Json, NoMemory>
    ensures { IfOk result (λ row. view row ≡ stock_row i rating (string_bytes track)) }
{
    // The track goes in first: where memory runs out after that, only the row is left to free.
    Ok(json!(in alloc; {
        "track": track,
        "album": numbered(alloc, "a", i)?,
        "quantity": quantity_of(i),
        "rating": rating
    })?)
}

/// A letter and a number.
pub(crate) fn numbered(alloc: Global, letter: &str, i: u64) -> Result<String, NoMemory>
    ensures { IfOk result (λ name. string_bytes name ≡ numbered letter.now i) }
{
    Ok(format!(in alloc; "{letter}{i}")?)
}

/// The quantity of the album of `i`.
pub(crate) fn quantity_of(i: u64) -> u64
    ensures { result ≡ quantity_of i }
{
    i % 7
}

/// The rating of the track of `i`.
pub(crate) fn rating_of(i: u64) -> u64
    ensures { result ≡ rating_of i }
{
    1 + i % 5
}

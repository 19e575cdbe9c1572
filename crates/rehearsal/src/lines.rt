//! The lines that a rehearsal sends.
ghost use Rattle.std.specs.Prelude.{◌≡◌, ◌<◌, ◌≤◌, IfOk, length, map, string_bytes};
ghost use Rattle.io_specs.specs.Lines.{marked};
ghost use Rattle.rehearsal.specs.Rehearsal.{album_line, define_request, definition_lines, json_text, read_line, stock_line, table_lines, track_line, view_lines};

use crate::requests::{
    album_row, define_request, edit_request, numbered, quantity_of, rating_of, read_request,
    stock_row, track_row,
};
use crate::text::json_text;
use lens_values::NoMemory;
use std::alloc::Global;

const ALBUMS: &str = "table albums (album text, quantity int) with album -> quantity";

const TRACKS: &str = "table tracks (track text, date int, rating int, album text) \
    with track -> date rating";

const STOCK: &str = "view stock = select from (drop date determined by (track, 2018) \
    from (join_dl tracks with albums)) where quantity > 2";

/// The three definitions.
pub(crate) fn definition_lines(alloc: Global) -> Result<Vec<String>, NoMemory>
    ensures { IfOk result
        (λ lines. map (λ line. marked (string_bytes line)) lines.items ≡ definition_lines) }
{
    let albums = define_line(alloc, ALBUMS)?;
    let tracks = define_line(alloc, TRACKS)?;
    let stock = define_line(alloc, STOCK)?;
    Ok(vec![in alloc; albums, tracks, stock]?)
}

/// The two edits of tables for `i`, of so many albums.
pub(crate) fn table_lines(alloc: Global, number: u64, i: u64) -> Result<Vec<String>, NoMemory>
    requires { i < number }
    ensures { IfOk result
        (λ lines. map (λ line. marked (string_bytes line)) lines.items ≡ table_lines number i) }
{
    let album = album_line(alloc, i)?;
    let track = track_line(alloc, number, i)?;
    Ok(vec![in alloc; album, track]?)
}

/// The edit of the view for `i`, if the view shows the album of `i`.
pub(crate) fn view_lines(alloc: Global, i: u64) -> Result<Vec<String>, NoMemory>
    ensures { IfOk result
        (λ lines. map (λ line. marked (string_bytes line)) lines.items ≡ view_lines i) }
{
    if quantity_of(i) > 2 {
        let line = stock_line(alloc, i)?;
        Ok(vec![in alloc; line]?)
    } else {
        Ok(Vec::new(alloc))
    }
}

/// The line that reads a table or a view.
pub(crate) fn read_line(alloc: Global, name: &str) -> Result<String, NoMemory>
    requires { length name.now ≤ 64 }
    ensures { IfOk result (λ line. marked (string_bytes line) ≡ read_line name.now) }
{
    let request = read_request(alloc, name)?;
    json_text(alloc, &request)
}

fn define_line(alloc: Global, text: &str) -> Result<String, NoMemory>
    ensures { IfOk result (λ line. string_bytes line ≡ json_text (define_request text.now)) }
{
    let request = define_request(alloc, text)?;
    json_text(alloc, &request)
}

// The edit that adds the album of `i`.
fn album_line(alloc: Global, i: u64) -> Result<String, NoMemory>
    ensures { IfOk result (λ line. marked (string_bytes line) ≡ album_line i) }
{
    let album = album_row(alloc, i)?;
    let add = vec![in alloc; album]?;
    let request = edit_request(alloc, "albums", Vec::new(alloc), add)?;
    json_text(alloc, &request)
}

// The edit that adds the track of `i`, on its own album and on the next one.
fn track_line(alloc: Global, number: u64, i: u64) -> Result<String, NoMemory>
    requires { i < number }
    ensures { IfOk result (λ line. marked (string_bytes line) ≡ track_line number i) }
{
    let here = track_row(alloc, i, i)?;
    let next = track_row(alloc, i, (i + 1) % number)?;
    let add = vec![in alloc; here, next]?;
    let request = edit_request(alloc, "tracks", Vec::new(alloc), add)?;
    json_text(alloc, &request)
}

// The edit of the view that exchanges the row of the album of `i` for one with the rating 3 and a
// new track.
fn stock_line(alloc: Global, i: u64) -> Result<String, NoMemory>
    ensures { IfOk result (λ line. marked (string_bytes line) ≡ stock_line i) }
{
    let old = stock_row(alloc, i, rating_of(i), numbered(alloc, "t", i)?)?;
    let remove = vec![in alloc; old]?;
    let new = stock_row(alloc, i, 3, numbered(alloc, "n", i)?)?;
    let add = vec![in alloc; new]?;
    let request = edit_request(alloc, "stock", remove, add)?;
    json_text(alloc, &request)
}

//! Scripts, in which each request stands before its reply. Scripts for the built program are data, in
//! `examples/sessions`.
use crate::runs::{PLAIN, given, is_given};
use std::alloc::Global;
use std::process::Abort;
use table_keeper::MemoryKeeper;

/// Tracks on albums, how many of each album there are, and a view over both.
pub(crate) const BASE: &str =
    r#"{"do":"define","text":"table tracks (track text, date int, rating int, album text) with track -> date rating"}
{"ok":true,"version":1}
{"do":"define","text":"table albums (album text, quantity int) with album -> quantity"}
{"ok":true,"version":2}
{"do":"define","text":"view stock = select from (drop date determined by (track, 2018) from (join_dl tracks with albums)) where quantity > 2"}
{"ok":true,"version":3}
{"do":"put","view":"tracks","rows":[{"track":"Lullaby","date":1989,"rating":3,"album":"Galore"},{"track":"Lullaby","date":1989,"rating":3,"album":"Show"},{"track":"Lovesong","date":1989,"rating":5,"album":"Galore"},{"track":"Lovesong","date":1989,"rating":5,"album":"Paris"},{"track":"Trust","date":1992,"rating":4,"album":"Wish"}]}
{"changed":[{"add":[{"album":"Galore","date":1989,"rating":3,"track":"Lullaby"},{"album":"Galore","date":1989,"rating":5,"track":"Lovesong"},{"album":"Paris","date":1989,"rating":5,"track":"Lovesong"},{"album":"Show","date":1989,"rating":3,"track":"Lullaby"},{"album":"Wish","date":1992,"rating":4,"track":"Trust"}],"remove":[],"table":"tracks"}],"ok":true,"version":4}
{"do":"put","view":"albums","rows":[{"album":"Disintegration","quantity":6},{"album":"Show","quantity":3},{"album":"Galore","quantity":1},{"album":"Paris","quantity":4},{"album":"Wish","quantity":5}]}
{"changed":[{"add":[{"album":"Disintegration","quantity":6},{"album":"Galore","quantity":1},{"album":"Paris","quantity":4},{"album":"Show","quantity":3},{"album":"Wish","quantity":5}],"remove":[],"table":"albums"}],"ok":true,"version":5}"#;

/// A put of the view after that.
pub(crate) const PUT_STOCK: &str =
    r#"{"do":"put","view":"stock","rows":[{"album":"Show","quantity":3,"rating":4,"track":"Lullaby"},{"album":"Disintegration","quantity":7,"rating":5,"track":"Lovesong"}]}
{"changed":[{"add":[{"album":"Disintegration","quantity":7}],"remove":[{"album":"Disintegration","quantity":6}],"table":"albums"},{"add":[{"album":"Disintegration","date":1989,"rating":5,"track":"Lovesong"},{"album":"Galore","date":1989,"rating":4,"track":"Lullaby"},{"album":"Show","date":1989,"rating":4,"track":"Lullaby"}],"remove":[{"album":"Galore","date":1989,"rating":3,"track":"Lullaby"},{"album":"Paris","date":1989,"rating":5,"track":"Lovesong"},{"album":"Show","date":1989,"rating":3,"track":"Lullaby"},{"album":"Wish","date":1992,"rating":4,"track":"Trust"}],"table":"tracks"}],"ok":true,"version":6}"#;

/// The requests of the scripts, every second line from the first on, or the replies, from the second
/// on.
pub(crate) fn side(rt: &impl Abort, alloc: Global, scripts: &[&str], from: usize) -> String {
    let mut lines = String::new(alloc);
    for script in scripts {
        add_side(rt, &mut lines, script, from);
    }
    lines
}

// Adds these lines of one script.
fn add_side(rt: &impl Abort, lines: &mut String, script: &str, from: usize) {
    for line in script.lines().skip(from).step_by(2) {
        lines.push_str(line).expect(rt, "memory");
        lines.push('\n').expect(rt, "memory");
    }
}

/// Sends the requests of the scripts, one script after another, and stops the test at the first
/// reply that is not as it stands there.
pub(crate) fn follow(rt: &impl Abort, alloc: Global, keeper: &mut MemoryKeeper, scripts: &[&str]) {
    let requests = side(rt, alloc, scripts, 0);
    let sink = given(rt, alloc, PLAIN, requests, keeper, 0);
    is_given(rt, sink.bytes(), &side(rt, alloc, scripts, 1));
}

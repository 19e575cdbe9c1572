//! How many rows a line goes over, and how many it looks at by key, as the counters of a server
//! tell.
ghost use Rattle.std.specs.Prelude.{◌≡◌};
ghost use Rattle.lens_specs.specs.Keeping.{IfObserved};
ghost use Rattle.server_specs.specs.State.{kept};

use crate::runs::keeper;
use crate::scripts::{BASE, side};
use lens_server::Server;
use serving::open;
use std::alloc::Global;
use std::marker::Brand;
use std::process::Abort;
use std::sync::ledger::{Blank, Ledger};
use step_counter::Steps;
use table_keeper::{Keeper, MemoryKeeper};

// Two new rows, of a track that is there and of one that is not.
const ADD_ROWS: &str =
    r#"{"do":"edit","view":"stock","remove":[],"add":[{"album":"Wish","quantity":5,"rating":5,"track":"Lovesong"},{"album":"Wish","quantity":5,"rating":2,"track":"Disco"}]}"#;

// A row that is there, removed and added.
const KEEP_ROW: &str =
    r#"{"do":"edit","view":"stock","remove":[{"album":"Wish","quantity":5,"rating":4,"track":"Trust"}],"add":[{"album":"Wish","quantity":5,"rating":4,"track":"Trust"}]}"#;

const EDIT_NOTHING: &str = r#"{"do":"edit","view":"stock","remove":[],"add":[]}"#;

const FIND_TRACK: &str = r#"{"do":"find","view":"stock","column":"track","value":"Lullaby"}"#;

const FIND_RATING: &str = r#"{"do":"find","view":"stock","column":"rating","value":5}"#;

// Three times the work of an edit of two rows of a lens of size 18, of whose keys two rows have one
// at most.
const MOST_OF_TWO: u64 = 693_886_748_068_085_760;

// Lines that scan no rows, and how many rows each looks at by key, at least and at most.
const LOOKS: [(&str, [u64; 2]); 4] = [
    (ADD_ROWS, [1, MOST_OF_TWO]),
    (KEEP_ROW, [1, MOST_OF_TWO]),
    (EDIT_NOTHING, [0, 0]),
    (FIND_TRACK, [1, 18]),
];

// Sends a line, and says by how much it raises the counters of walked rows and of looks.
fn ask<K: Keeper, L: Ledger, M: Ledger>(
    rt: &impl Abort,
    alloc: Global,
    server: &mut Server,
    keeper: &mut K,
    line: &str,
    walked: &mut Steps<L>,
    looked: &mut Steps<M>,
) -> [u64; 2]
    requires { IfObserved (K.contents keeper.old) (kept server.old) }
    ensures { IfObserved (K.contents keeper.new) (kept server.new) }
{
    assert!(rt; server.version() < 100);
    let (rows, looks) = (walked.number(), looked.number());
    let _reply = server.answer(alloc, keeper, line.as_bytes(), walked, looked);
    [
        walked.number().saturating_sub(rows),
        looked.number().saturating_sub(looks),
    ]
}

// By how much the last of these lines raises the counters of a new server of what the keeper has.
fn rise<K: Keeper, L: Ledger, M: Ledger>(
    rt: &impl Abort,
    alloc: Global,
    keeper: &mut K,
    lines: &str,
    walked: &mut Steps<L>,
    looked: &mut Steps<M>,
) -> [u64; 2] {
    let mut server = open(alloc, None, keeper).expect(rt, "a server");
    let mut rise = [0, 0];
    for line in lines.lines() {
        rise = ask(rt, alloc, &mut server, keeper, line, walked, looked);
    }
    rise
}

// What `rise` returns, with a counter of index probes of its own. (No proof names the ledger of a
// call that takes a `&str`.)
fn rise_looking<R: Abort, K: Keeper, L: Ledger, M: Ledger>(
    rt: &R,
    alloc: Global,
    keeper: &mut K,
    lines: &String,
    walked: &mut Steps<L>,
    blank: Blank,
) -> [u64; 2]
    requires name { blank.name ≡ M.name }
    requires parts { blank.parts ≡ M.parts }
    requires one { blank.parts ≡ 1 }
{
    let mut looked = Steps::<M>::new(blank);
    rise(rt, alloc, keeper, lines.as_str(), walked, &mut looked)
}

// What `rise_looking` returns, with a counter of scanned rows of its own too.
fn rise_walking<R: Abort, K: Keeper, L: Ledger>(
    rt: &R,
    alloc: Global,
    keeper: &mut K,
    lines: &String,
    blank: Blank,
) -> [u64; 2]
    requires name { blank.name ≡ L.name }
    requires parts { blank.parts ≡ L.parts }
    requires one { blank.parts ≡ 1 }
{
    let mut walked = Steps::<L>::new(blank);
    let again = Blank::new(1);
    rise_looking::<R, K, L, Brand>(rt, alloc, keeper, lines, &mut walked, again)
}

// By how much the line raises the counters over the tables of the script with so many albums more.
fn rise_after<R: Abort>(rt: &R, alloc: Global, albums: u64, line: &str) -> [u64; 2] {
    let lines = lines(rt, alloc, albums, line);
    let mut keeper = keeper(rt, alloc, 0);
    let blank = Blank::new(1);
    rise_walking::<R, MemoryKeeper, Brand>(rt, alloc, &mut keeper, &lines, blank)
}

// The tables of the script, the edit that adds so many albums, none of which a track is on, and this
// line.
fn lines(rt: &impl Abort, alloc: Global, albums: u64, line: &str) -> String {
    let mut lines = side(rt, alloc, &[BASE], 0);
    let front = r#"{"do":"edit","view":"albums","remove":[],"add":["#;
    lines.push_str(front).expect(rt, "memory");
    for number in 0..albums {
        add_album(rt, alloc, &mut lines, number);
    }
    lines.push_str("]}\n").expect(rt, "memory");
    lines.push_str(line).expect(rt, "memory");
    lines
}

// Adds the album of this number to the edit.
fn add_album(rt: &impl Abort, alloc: Global, lines: &mut String, number: u64) {
    let comma = if number == 0 { "" } else { "," };
    let row = format!(in alloc; r#"{comma}{{"album":"z{number}","quantity":5}}"#);
    lines
        .push_str(&row.expect(rt, "memory"))
        .expect(rt, "memory");
}

// Checks that the line looks at as many rows of greater tables as of these, and scans none.
fn looks_so(rt: &impl Abort, alloc: Global, line: &str, [least, most]: [u64; 2]) {
    let [walked, looked] = rise_after(rt, alloc, 0, line);
    assert!(rt; walked == 0 && least <= looked && looked <= most, "{line}");
    assert!(rt;
        rise_after(rt, alloc, 10_000, line) == [walked, looked],
        "{line}"
    );
}

#[test]
fn lines_look_at_no_more_rows_of_greater_tables(rt: HostRuntime) {
    for (line, looks) in LOOKS {
        looks_so(&rt, rt.alloc(), line, looks);
    }
    assert!(rt; rise_after(&rt, rt.alloc(), 0, FIND_RATING) == [10, 0]);
}

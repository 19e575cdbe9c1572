//! Runs over sources, sinks and keepers whose calls are short, or fail.
use crate::runs::{Setting, given, is_given, keeper};
use crate::scripts::{BASE, PUT_STOCK, side};
use lens_io::ROOM;
use std::alloc::Global;
use std::process::Abort;

// The line that words which are refused are answered with.
const USAGE: &str = "usage: view_program [--store PATH] [--max-input N] [--rehearse N]\n";

// One, two and three requests for the definitions, each of 14 bytes, and the replies to one and two.
const ONE: &str = "{\"do\":\"list\"}\n";

const TWO: &str = "{\"do\":\"list\"}\n{\"do\":\"list\"}\n";

const THREE: &str = "{\"do\":\"list\"}\n{\"do\":\"list\"}\n{\"do\":\"list\"}\n";

const ONE_TOLD: &str = r#"{"definitions":[],"ok":true,"version":0}
"#;

const TWO_TOLD: &str = r#"{"definitions":[],"ok":true,"version":0}
{"definitions":[],"ok":true,"version":0}
"#;

const NOT_JSON: &str = r#"{"error":11,"ok":false}
"#;

const NO_JSON_TWICE: &str = r#"{"error":11,"ok":false}
{"error":11,"ok":false}
"#;

const REHEARSED: &str =
    r#"{"accepted":30,"refused":0,"rows":{"albums":10,"stock":8,"tracks":20},"version":27}
"#;

// Words, the input, which calls of the source, the sink and the keeper fail, the status and the
// output.
type Run = (&'static str, &'static str, [u64; 3], u8, &'static str);

// A run asks the keeper to choose the store, if the words name one, and to load it, and then only for
// changes.
const RUNS: [Run; 25] = [
    ("", "", [0, 0, 0], 0, ""),
    ("", "x", [0, 0, 0], 0, NOT_JSON),
    ("", "x\n\n", [0, 0, 0], 0, NO_JSON_TWICE),
    ("--max-input 1", "x\ny\nz", [0, 0, 0], 8, ""),
    ("--max-input 2", "x\ny\nz", [0, 0, 0], 8, NOT_JSON),
    ("--max-input 3", "x\ny\nz", [0, 0, 0], 8, NOT_JSON),
    ("--max-input 4", "x\ny\nz", [0, 0, 0], 8, NO_JSON_TWICE),
    ("--max-input 4", "x\ny\n", [0, 0, 0], 0, NO_JSON_TWICE),
    ("x", "x\n", [0, 0, 0], 2, USAGE),
    ("x", "x\n", [0, 1, 0], 2, ""),
    ("--help", TWO, [0, 0, 0], 2, USAGE),
    ("--max-input 0", TWO, [0, 0, 0], 2, USAGE),
    ("--store x --rehearse 3", TWO, [0, 0, 0], 2, USAGE),
    ("", ONE, [1, 0, 0], 4, ""),
    ("", "x", [2, 0, 0], 4, ""),
    ("", ONE, [0, 1, 0], 5, ""),
    ("", ONE, [0, 0, 1], 6, ""),
    ("--store x", TWO, [0, 0, 1], 6, ""),
    ("--store x", TWO, [0, 0, 2], 6, ""),
    ("--store x", TWO, [0, 0, 3], 0, TWO_TOLD),
    ("--rehearse 1", TWO, [0, 0, 1], 6, ""),
    ("--max-input 28", TWO, [0, 0, 0], 0, TWO_TOLD),
    ("--max-input 28", THREE, [0, 0, 0], 8, TWO_TOLD),
    ("--max-input 27", TWO, [0, 0, 0], 8, ONE_TOLD),
    ("--rehearse 10", TWO, [0, 0, 0], 0, REHEARSED),
];

#[test]
fn runs_end(rt: HostRuntime) {
    for run in &RUNS {
        ends(&rt, rt.alloc(), run);
    }
}

// Checks the status of a run, and all that it gives.
fn ends(rt: &impl Abort, alloc: Global, run: &Run) {
    let (words, input, [from, to, refused], status, output) = *run;
    let setting = Setting {
        words,
        pieces: [ROOM, ROOM],
        failing: [from, to],
    };
    let mut keeper = keeper(rt, alloc, refused);
    let input = input.to_string(alloc).expect(rt, "memory");
    let sink = given(rt, alloc, setting, input, &mut keeper, status);
    is_given(rt, sink.bytes(), output);
}

// How many bytes a call of the source gives and one of the sink takes, which of their calls fail, the
// status, and how many bytes of the replies are given, if not all.
const PIECES: [([usize; 2], [u64; 2], u8, usize); 15] = [
    ([1, ROOM], [0, 0], 0, ROOM),
    ([2, 3], [0, 0], 0, ROOM),
    ([4096, 1], [0, 0], 0, ROOM),
    // The first call gives the whole input, and the second finds its end.
    ([4096, ROOM], [1, 0], 4, 0),
    ([4096, ROOM], [2, 0], 4, ROOM),
    ([4096, 8], [0, 1], 5, 0),
    ([4096, 8], [0, 2], 5, 8),
    ([4096, 8], [0, 3], 5, 16),
    ([4096, 8], [0, 4], 5, 24),
    ([4096, 8], [0, 5], 5, 32),
    ([4096, 8], [0, 6], 5, 40),
    ([4096, 8], [0, 7], 5, 48),
    ([4096, 8], [0, 8], 5, 56),
    ([4096, 8], [0, 9], 5, 64),
    ([4096, 8], [0, 10], 5, 72),
];

#[test]
fn devices_fail(rt: HostRuntime) {
    for (pieces, failing, status, count) in PIECES {
        let setting = Setting {
            words: "",
            pieces,
            failing,
        };
        gives_front(&rt, rt.alloc(), setting, status, count);
    }
}

// Checks a run over the scripts: its status, and how many bytes of the replies it gives.
fn gives_front(rt: &impl Abort, alloc: Global, setting: Setting<'_>, status: u8, count: usize) {
    let mut keeper = keeper(rt, alloc, 0);
    let requests = side(rt, alloc, &[BASE, PUT_STOCK], 0);
    let sink = given(rt, alloc, setting, requests, &mut keeper, status);
    let replies = side(rt, alloc, &[BASE, PUT_STOCK], 1);
    let all = replies.as_bytes();
    let front = all.get(..count).unwrap_or(all);
    assert!(rt; sink.bytes() == front, "status {status}, {count} bytes");
}

//! Whole runs over sources, sinks and keepers in memory.
ghost use Rattle.std.specs.Prelude.{◌≡◌};

use lens_io::{MemorySink, MemorySource};
use serving::run;
use std::alloc::Global;
use std::marker::Brand;
use std::process::Abort;
use std::sync::ledger::{Blank, Ledger};
use step_counter::Steps;
use table_keeper::{Keeper, Kept, MemoryKeeper};

/// The words of a run, how many bytes its source gives and its sink takes a call, and which call of
/// each fails, if it is not 0.
#[derive(Clone, Copy)]
pub(crate) struct Setting<'a> {
    pub(crate) words: &'a str,
    pub(crate) pieces: [usize; 2],
    pub(crate) failing: [u64; 2],
}

/// No words, byte by byte, and nothing fails.
pub(crate) const PLAIN: Setting<'static> = Setting {
    words: "",
    pieces: [1, 1],
    failing: [0, 0],
};

// The program's name and these words.
fn words_of(rt: &impl Abort, alloc: Global, words: &str) -> Vec<String> {
    let mut all = Vec::new(alloc);
    let program = "view_program".to_string(alloc).expect(rt, "memory");
    all.push(program).expect(rt, "memory");
    for word in words.split_whitespace() {
        let word = word.to_string(alloc).expect(rt, "memory");
        all.push(word).expect(rt, "memory");
    }
    all
}

/// Numbers of the calls that fail: this one, or none at 0.
pub(crate) fn failing(rt: &impl Abort, alloc: Global, number: u64) -> Vec<u64> {
    if number == 0 {
        return Vec::new(alloc);
    }
    vec![in alloc; number].expect(rt, "memory")
}

/// A keeper of nothing, of which this call fails.
pub(crate) fn keeper(rt: &impl Abort, alloc: Global, call: u64) -> MemoryKeeper {
    MemoryKeeper::holding(Kept::nothing(alloc), failing(rt, alloc, call))
}

// The source of a run.
fn source(rt: &impl Abort, alloc: Global, setting: Setting<'_>, input: String) -> MemorySource {
    let failing = failing(rt, alloc, setting.failing[0]);
    MemorySource::new(input.into_bytes(), setting.pieces[0].max(1), failing)
}

// The sink of a run.
fn sink(rt: &impl Abort, alloc: Global, setting: Setting<'_>) -> MemorySink {
    let failing = failing(rt, alloc, setting.failing[1]);
    let sink = MemorySink::new(alloc, 8_000_000, setting.pieces[1].max(1), failing);
    sink.expect(rt, "memory")
}

fn run_counted<K: Keeper, L: Ledger>(
    alloc: Global,
    words: &[String],
    source: &mut MemorySource,
    sink: &mut MemorySink,
    keeper: &mut K,
    blank: Blank,
) -> u8
    requires name { blank.name ≡ L.name }
    requires parts { blank.parts ≡ L.parts }
    requires one { blank.parts ≡ 1 }
{
    let mut walked = Steps::<L>::new(blank);
    run(alloc, words, source, sink, keeper, &mut walked)
}

// The status of a run.
fn status_of<K: Keeper>(
    alloc: Global,
    words: &[String],
    source: &mut MemorySource,
    sink: &mut MemorySink,
    keeper: &mut K,
) -> u8 {
    run_counted::<K, Brand>(alloc, words, source, sink, keeper, Blank::new(1))
}

/// What a run over this input gives, which has to end with this status.
pub(crate) fn given(
    rt: &impl Abort,
    alloc: Global,
    setting: Setting<'_>,
    input: String,
    keeper: &mut MemoryKeeper,
    status: u8,
) -> MemorySink {
    let words = words_of(rt, alloc, setting.words);
    let mut source = source(rt, alloc, setting, input);
    let mut sink = sink(rt, alloc, setting);
    let ended = status_of(alloc, &words, &mut source, &mut sink, keeper);
    assert_eq!(rt;
        ended,
        status,
        "the status of a run with the words {}",
        setting.words
    );
    sink
}

/// Stops the test, with the first line that is another one, if this was not given.
pub(crate) fn is_given(rt: &impl Abort, given: &[u8], wanted: &str) {
    let mut lines = wanted.lines();
    for line in str::from_utf8(given).expect(rt, wanted).lines() {
        assert!(rt; lines.next() == Some(line), "{line}");
    }
    assert!(rt; given.len() == wanted.len(), "not all lines of {wanted}");
}

//! The program: a request a line on the standard input, and a reply a line on the standard output.
#![tactic(auto)]

ghost use Rattle.std.specs.Prelude.{◌≡◌, ◌≢◌, ◌↔◌, ◌⊎◌, IfSome, None, map, string_bytes};
ghost use Rattle.arguments.specs.Settings.{settings};
ghost use Rattle.serving.specs.Promises.{IsServed, IsUnserved};

mod causes;
mod words;

use lens_io::{StreamSink, StreamSource};
pub use serving::run;
use sqlite_keeper::SqliteKeeper;
use std::io;
use std::marker::Brand;
use std::process::ExitCode;
use std::sync::ledger::{Blank, Ledger};
use step_counter::Steps;

fn main(rt: HostRuntime) -> ExitCode {
    let status = match words::collected(&rt) {
        Ok(words) => serve_host::<Brand>(&rt, &words, Blank::new(1)),
        Err(fault) => words::status_of(fault),
    };
    if let Some(cause) = causes::cause_of(status) {
        // If standard error cannot be written, nobody is left who could be told.
        let _ = rt.eprintln(cause);
    }
    ExitCode::from(status)
}

/// Serves the standard input. The tables are kept in a file, or else in memory.
fn serve_host<L: Ledger>(rt: &HostRuntime, words: &[String], blank: Blank) -> u8
    requires name { blank.name ≡ L.name }
    requires parts { blank.parts ≡ L.parts }
    requires one { blank.parts ≡ 1 }
    ensures words { result ≢ 3
        → ((result ≡ 2) ↔ (settings (map string_bytes words.now) ≡ None)) }
    ensures others { IsServed result ⊎ ((result ≡ 2) ⊎ IsUnserved result) }
    ensures rehearses_no_input { IfSome (settings (map string_bytes words.now)) (λ s.
        IfSome s.rehearse (λ _. (result ≢ 4) × (result ≢ 8))) }
{
    let alloc = rt.alloc();
    let mut source = StreamSource::new(rt.reader());
    let mut sink = StreamSink::new(io::writer(rt));
    let mut keeper = SqliteKeeper::new(rt);
    let mut walked = Steps::<L>::new(blank);
    run(
        alloc,
        words,
        &mut source,
        &mut sink,
        &mut keeper,
        &mut walked,
    )
}

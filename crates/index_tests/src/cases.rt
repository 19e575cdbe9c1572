//! What is seen of a change, of an index, of tables that are held, and of keys that collide.
ghost use Rattle.std.specs.Prelude.{◌≡◌};

use crate::trial::{Trial, sure};
use std::alloc::Global;
use std::marker::Brand;
use std::process::Abort;
use std::sync::ledger::{Blank, Ledger};
use step_counter::Steps;

const TRACKS: &str = "album:text title:text year:int?";

// Changes of a table of tracks are staged and settled, and it is asked in between: an index, rows
// that are staged and settled, rows that are dropped, a row that takes the place of others; a change
// that is kept, and one that is taken back; keys of one hash, of which the last are null and the
// least number.
const STEPS: &str = "
    index album:text
    settle
    stage album=Heroes title=Moss year=1977; album=Low title=Warszawa year=1977
    shows
    lacks album=Heroes title=Moss year=1977
    finds album:text | album=Heroes |
    settle
    shows album=Heroes title=Moss year=1977; album=Low title=Warszawa year=1977
    has album=Heroes title=Moss year=1977
    finds album:text | album=Heroes | album=Heroes title=Moss year=1977

    stage album=Heroes title=Neukoln year=1977; album=Low title=Warszawa year=1977
    drop
    settle
    shows album=Heroes title=Moss year=1977; album=Low title=Warszawa year=1977
    finds album:text | album=Heroes | album=Heroes title=Moss year=1977

    stage album=Heroes title=Neukoln year=1977
    finds album:text | album=Low | album=Low title=Warszawa year=1977
    settle
    finds album:text | album=Heroes | album=Heroes title=Neukoln year=1977
    finds album:text | album=Low |
    lacks album=Low title=Warszawa year=1977
    shows album=Heroes title=Neukoln year=1977

    hold
    stage album=Heroes title=Moss year=1977; album=Heroes title=Neukoln year=1977
    settle
    keep
    shows album=Heroes title=Moss year=1977; album=Heroes title=Neukoln year=1977

    hold
    stage album=Heroes title=Neukoln year=1977; album=Low title=Warszawa year=1977
    settle
    finds album:text | album=Low | album=Low title=Warszawa year=1977
    stage album=Low title=Warszawa year=1977
    back
    shows album=Heroes title=Moss year=1977; album=Heroes title=Neukoln year=1977
    finds album:text | album=Low |
    settle
    shows album=Heroes title=Moss year=1977; album=Heroes title=Neukoln year=1977

    stage album=x title=a year=1099511628211; album=y title=b year=0
    settle
    index title:text year:int?
    unindexed title:text year:int?
    settle
    finds title:text year:int? | title=b year=0 | album=y title=b year=0
    finds title:text year:int? | title=a year=1099511628211 | album=x title=a year=1099511628211
    finds title:text year:int? | album=x title=b year=0 zone=1 | album=y title=b year=0
    finds title:text year:int? | album=y title=a year=0 |
    stage album=x title=a year=1099511628211
    settle
    finds title:text year:int? | title=b year=0 |
    finds title:text year:int? | title=a year=1099511628211 | album=x title=a year=1099511628211

    index year:int?
    settle
    stage album=a title=x year=null; album=a title=y year=-9223372036854775808
    settle
    finds year:int? | year=null | album=a title=x year=null
    finds year:int? | year=-9223372036854775808 | album=a title=y year=-9223372036854775808";

// A row is staged and settled in a table that has an index by its only column.
const FIRST_STEPS: &str = "
    index k:int
    settle
    stage k=1
    lacks k=1
    settle
    has k=1
    finds k:int | k=1 | k=1
    shows k=1";

// Takes the steps in turn, in a new table. It stops the test, with the step, if the table is not as
// the step says.
fn follow<L: Ledger>(
    rt: &impl Abort,
    alloc: Global,
    table: &str,
    columns: &str,
    lines: &str,
    steps: &mut Steps<L>,
) {
    let mut trial = sure(rt, Trial::new(alloc, table, columns, steps), table);
    for step in lines.lines() {
        let holds = is_so(rt, &mut trial, step.trim(), steps);
        assert!(rt; holds, "{step}");
    }
}

fn all<R: Abort, L: Ledger>(rt: &R, alloc: Global, blank: Blank)
    requires name { blank.name ≡ L.name }
    requires parts { blank.parts ≡ L.parts }
    requires one { blank.parts ≡ 1 }
{
    let mut steps = Steps::<L>::new(blank);
    follow(rt, alloc, "n", "k:int", FIRST_STEPS, &mut steps);
    follow(rt, alloc, "tracks", TRACKS, STEPS, &mut steps);
}

fn all_counted<R: Abort>(rt: &R, alloc: Global) {
    all::<R, Brand>(rt, alloc, Blank::new(1));
}

#[test]
fn tables_are_changed_held_and_asked(rt: HostRuntime) {
    all_counted(&rt, rt.alloc());
}

// Takes the step, and returns whether the table allows the change, or is as the step says.
fn is_so<L: Ledger>(rt: &impl Abort, trial: &mut Trial, step: &str, steps: &mut Steps<L>) -> bool {
    let (word, rest) = step.split_once(' ').unwrap_or((step, ""));
    match word {
        "" => true,
        "index" => trial.stages_index(rt, rest, steps),
        "unindexed" => !trial.may_be_asked(rt, rest),
        "stage" => {
            sure(rt, trial.stages(rest, steps), rest);
            true
        }
        "shows" => trial.shows(rt, rest, steps),
        "has" => trial.has(rt, rest, steps),
        "lacks" => !trial.has(rt, rest, steps),
        "finds" => trial.finds(rt, rest, steps),
        _ => is_done(trial, word),
    }
}

// Takes the step that is this word alone, if the table's state allows the step.
fn is_done(trial: &mut Trial, word: &str) -> bool {
    match word {
        "settle" => {
            trial.settles();
            true
        }
        "drop" => {
            trial.drops();
            true
        }
        "hold" => trial.holds(),
        "keep" => trial.keeps(),
        "back" => trial.goes_back(),
        _ => false,
    }
}

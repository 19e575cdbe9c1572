//! The rehearsal through the server.
ghost use Rattle.std.specs.Prelude.{◌≡◌, ◌≤◌, ◌<◌, ◌+◌, ◌*◌, ◌-◌, ◌^◌, [], ◌∷◌, length, map, string_bytes, IfOk, OnOk, OnErr};
ghost use Rattle.std.specs.List.{flat_map};
ghost use Rattle.lens_specs.specs.Keeping.{Follows, IfObserved};
ghost use Rattle.io_specs.specs.Lines.{marked};
ghost use Rattle.server_specs.specs.State as state;
ghost use Rattle.rehearsal.specs.Rehearsal.{below, definition_lines, read_line, read_lines, rehearsal, table_lines, view_lines};
ghost use Rattle.rehearsal.specs.Rehearsed.{Rehearsed, Stopped};
ghost use Rattle.rehearsal.specs.Stages.{Answers, Halted, HasRoom, Passes, Shows, at};
ghost use Rattle.rehearsal.specs.Walking.{most_looked_in};

use crate::lines::{definition_lines, read_line, table_lines, view_lines};
use crate::replies::{read_reply, reports_no_memory};
use crate::summary::summary_line;
use crate::tally::{Shown, Tally};
use lens_server::Server;
use lens_values::NoMemory;
use std::alloc::Global;
use std::sync::ledger::Ledger;
use step_counter::Steps;
use table_keeper::Keeper;

/// Answers the lines of the rehearsal of this number, one after another, and gives the line of
/// their summary. Want of memory, in a reply or elsewhere, ends it: the lines before that were
/// answered. No more rows are walked, and looked at by key, than the lines may.
pub fn rehearse<K: Keeper, L: Ledger, M: Ledger>(
    alloc: Global,
    server: &mut Server,
    keeper: &mut K,
    number: u64,
    walked: &mut Steps<L>,
    looked: &mut Steps<M>,
) -> Result<Vec<u8>, NoMemory>
    requires room { server.old.version + 3 * number + 6 < 2 ^ 64 - 1 }
    requires told { IfObserved (K.contents keeper.old) (state.kept server.old) }
    ensures done { IfOk result (λ line. (done : Rehearsed server.old (K.faults keeper.old)
        (rehearsal number) line.items server.new (K.faults keeper.new) (K.calls keeper.old)
        (K.calls keeper.new) walked.old walked.new)
        × (looked.new ≤ looked.old + most_looked_in server.old done.session.exchanges)) }
    ensures stopped { OnErr result ((stopped : Stopped server.old (K.faults keeper.old)
        (rehearsal number) server.new (K.faults keeper.new) (K.calls keeper.old)
        (K.calls keeper.new) walked.old walked.new)
        × (looked.new ≤ looked.old + most_looked_in server.old stopped.session.exchanges)) }
    ensures told { Follows (λ _ now. now ≡ state.kept server.new) (K.contents keeper.old)
        (K.contents keeper.new) }
    ensures later { K.faults keeper.old ≤ K.faults keeper.new }
    ensures place { K.place keeper.new ≡ K.place keeper.old }
{
    let mut tally = Tally::new();
    define(alloc, server, keeper, walked, looked, &mut tally)?;
    fill_tables(alloc, server, keeper, number, walked, looked, &mut tally)?;
    edit_view(alloc, server, keeper, number, walked, looked, &mut tally)?;
    let shown = read_all(alloc, server, keeper, walked, looked, &mut tally)?;
    summary_line(alloc, tally, shown, server.version())
}

/// The three definitions.
fn define<K: Keeper, L: Ledger, M: Ledger>(
    alloc: Global,
    server: &mut Server,
    keeper: &mut K,
    walked: &mut Steps<L>,
    looked: &mut Steps<M>,
    tally: &mut Tally,
) -> Result<(), NoMemory>
    requires room { HasRoom server.old.version tally.old 3 }
    requires told { IfObserved (K.contents keeper.old) (state.kept server.old) }
    ensures done { OnOk result (Passes
        (at server.old (K.faults keeper.old) (K.contents keeper.old)
        (K.calls keeper.old) tally.old walked.old looked.old)
        definition_lines
        (at server.new (K.faults keeper.new) (K.contents keeper.new)
        (K.calls keeper.new) tally.new walked.new looked.new)) }
    ensures halted { OnErr result (Halted
        (at server.old (K.faults keeper.old) (K.contents keeper.old)
        (K.calls keeper.old) tally.old walked.old looked.old)
        definition_lines
        (at server.new (K.faults keeper.new) (K.contents keeper.new)
        (K.calls keeper.new) tally.new walked.new looked.new)) }
    ensures place { K.place keeper.new ≡ K.place keeper.old }
{
    let lines = definition_lines(alloc)?;
    ask_each(
        alloc,
        server,
        keeper,
        lines.as_slice(),
        walked,
        looked,
        tally,
    )
}

/// The edits of the tables.
fn fill_tables<K: Keeper, L: Ledger, M: Ledger>(
    alloc: Global,
    server: &mut Server,
    keeper: &mut K,
    number: u64,
    walked: &mut Steps<L>,
    looked: &mut Steps<M>,
    tally: &mut Tally,
) -> Result<(), NoMemory>
    requires room { HasRoom server.old.version tally.old (2 * number) }
    requires told { IfObserved (K.contents keeper.old) (state.kept server.old) }
    ensures done { OnOk result (Passes
        (at server.old (K.faults keeper.old) (K.contents keeper.old)
        (K.calls keeper.old) tally.old walked.old looked.old)
        (flat_map (table_lines number) (below number))
        (at server.new (K.faults keeper.new) (K.contents keeper.new)
        (K.calls keeper.new) tally.new walked.new looked.new)) }
    ensures halted { OnErr result (Halted
        (at server.old (K.faults keeper.old) (K.contents keeper.old)
        (K.calls keeper.old) tally.old walked.old looked.old)
        (flat_map (table_lines number) (below number))
        (at server.new (K.faults keeper.new) (K.contents keeper.new)
        (K.calls keeper.new) tally.new walked.new looked.new)) }
    ensures place { K.place keeper.new ≡ K.place keeper.old }
{
    for i in 0..number {
        let lines = table_lines(alloc, number, i)?;
        ask_each(
            alloc,
            server,
            keeper,
            lines.as_slice(),
            walked,
            looked,
            tally,
        )?;
    }
    Ok(())
}

/// The edits of the view.
fn edit_view<K: Keeper, L: Ledger, M: Ledger>(
    alloc: Global,
    server: &mut Server,
    keeper: &mut K,
    number: u64,
    walked: &mut Steps<L>,
    looked: &mut Steps<M>,
    tally: &mut Tally,
) -> Result<(), NoMemory>
    requires room { HasRoom server.old.version tally.old number }
    requires told { IfObserved (K.contents keeper.old) (state.kept server.old) }
    ensures done { OnOk result (Passes
        (at server.old (K.faults keeper.old) (K.contents keeper.old)
        (K.calls keeper.old) tally.old walked.old looked.old)
        (flat_map view_lines (below number))
        (at server.new (K.faults keeper.new) (K.contents keeper.new)
        (K.calls keeper.new) tally.new walked.new looked.new)) }
    ensures halted { OnErr result (Halted
        (at server.old (K.faults keeper.old) (K.contents keeper.old)
        (K.calls keeper.old) tally.old walked.old looked.old)
        (flat_map view_lines (below number))
        (at server.new (K.faults keeper.new) (K.contents keeper.new)
        (K.calls keeper.new) tally.new walked.new looked.new)) }
    ensures place { K.place keeper.new ≡ K.place keeper.old }
{
    for i in 0..number {
        let lines = view_lines(alloc, i)?;
        ask_each(
            alloc,
            server,
            keeper,
            lines.as_slice(),
            walked,
            looked,
            tally,
        )?;
    }
    Ok(())
}

/// Reads the two tables and the view, and returns how many rows each shows.
fn read_all<K: Keeper, L: Ledger, M: Ledger>(
    alloc: Global,
    server: &mut Server,
    keeper: &mut K,
    walked: &mut Steps<L>,
    looked: &mut Steps<M>,
    tally: &mut Tally,
) -> Result<Shown, NoMemory>
    requires room { HasRoom server.old.version tally.old 3 }
    requires told { IfObserved (K.contents keeper.old) (state.kept server.old) }
    ensures done { IfOk result (λ shown. Shows
        (at server.old (K.faults keeper.old) (K.contents keeper.old)
        (K.calls keeper.old) tally.old walked.old looked.old)
        read_lines shown
        (at server.new (K.faults keeper.new) (K.contents keeper.new)
        (K.calls keeper.new) tally.new walked.new looked.new)) }
    ensures halted { OnErr result (Halted
        (at server.old (K.faults keeper.old) (K.contents keeper.old)
        (K.calls keeper.old) tally.old walked.old looked.old)
        read_lines
        (at server.new (K.faults keeper.new) (K.contents keeper.new)
        (K.calls keeper.new) tally.new walked.new looked.new)) }
    ensures place { K.place keeper.new ≡ K.place keeper.old }
{
    let albums = read(alloc, server, keeper, "albums", walked, looked, tally)?;
    let tracks = read(alloc, server, keeper, "tracks", walked, looked, tally)?;
    let stock = read(alloc, server, keeper, "stock", walked, looked, tally)?;
    Ok(Shown {
        albums,
        tracks,
        stock,
    })
}

/// Reads a table or a view, and returns how many rows the reply shows.
fn read<K: Keeper, L: Ledger, M: Ledger>(
    alloc: Global,
    server: &mut Server,
    keeper: &mut K,
    view: &str,
    walked: &mut Steps<L>,
    looked: &mut Steps<M>,
    tally: &mut Tally,
) -> Result<usize, NoMemory>
    requires short { length view.now ≤ 64 }
    requires room { HasRoom server.old.version tally.old 1 }
    requires told { IfObserved (K.contents keeper.old) (state.kept server.old) }
    ensures done { IfOk result (λ rows. Answers
        (at server.old (K.faults keeper.old) (K.contents keeper.old)
        (K.calls keeper.old) tally.old walked.old looked.old)
        (read_line view.now) rows
        (at server.new (K.faults keeper.new) (K.contents keeper.new)
        (K.calls keeper.new) tally.new walked.new looked.new)) }
    ensures halted { OnErr result (Halted
        (at server.old (K.faults keeper.old) (K.contents keeper.old)
        (K.calls keeper.old) tally.old walked.old looked.old)
        (read_line view.now ∷ [])
        (at server.new (K.faults keeper.new) (K.contents keeper.new)
        (K.calls keeper.new) tally.new walked.new looked.new)) }
    ensures place { K.place keeper.new ≡ K.place keeper.old }
{
    let line = read_line(alloc, view)?;
    ask(
        alloc,
        server,
        keeper,
        line.as_bytes(),
        walked,
        looked,
        tally,
    )
}

/// Answers the lines, one after another.
fn ask_each<K: Keeper, L: Ledger, M: Ledger>(
    alloc: Global,
    server: &mut Server,
    keeper: &mut K,
    lines: &[String],
    walked: &mut Steps<L>,
    looked: &mut Steps<M>,
    tally: &mut Tally,
) -> Result<(), NoMemory>
    requires room { HasRoom server.old.version tally.old (length lines.now) }
    requires told { IfObserved (K.contents keeper.old) (state.kept server.old) }
    ensures done { OnOk result (Passes
        (at server.old (K.faults keeper.old) (K.contents keeper.old)
        (K.calls keeper.old) tally.old walked.old looked.old)
        (map (λ line. marked (string_bytes line)) lines.now)
        (at server.new (K.faults keeper.new) (K.contents keeper.new)
        (K.calls keeper.new) tally.new walked.new looked.new)) }
    ensures halted { OnErr result (Halted
        (at server.old (K.faults keeper.old) (K.contents keeper.old)
        (K.calls keeper.old) tally.old walked.old looked.old)
        (map (λ line. marked (string_bytes line)) lines.now)
        (at server.new (K.faults keeper.new) (K.contents keeper.new)
        (K.calls keeper.new) tally.new walked.new looked.new)) }
    ensures place { K.place keeper.new ≡ K.place keeper.old }
{
    for line in lines {
        ask(
            alloc,
            server,
            keeper,
            line.as_bytes(),
            walked,
            looked,
            tally,
        )?;
    }
    Ok(())
}

/// Answers a line, counts the reply, and gives how many rows it shows.
fn ask<K: Keeper, L: Ledger, M: Ledger>(
    alloc: Global,
    server: &mut Server,
    keeper: &mut K,
    line: &[u8],
    walked: &mut Steps<L>,
    looked: &mut Steps<M>,
    tally: &mut Tally,
) -> Result<usize, NoMemory>
    requires room { HasRoom server.old.version tally.old 1 }
    requires told { IfObserved (K.contents keeper.old) (state.kept server.old) }
    ensures done { IfOk result (λ rows. Answers
        (at server.old (K.faults keeper.old) (K.contents keeper.old)
        (K.calls keeper.old) tally.old walked.old looked.old)
        (marked line.now) rows
        (at server.new (K.faults keeper.new) (K.contents keeper.new)
        (K.calls keeper.new) tally.new walked.new looked.new)) }
    ensures halted { OnErr result (Halted
        (at server.old (K.faults keeper.old) (K.contents keeper.old)
        (K.calls keeper.old) tally.old walked.old looked.old)
        (marked line.now ∷ [])
        (at server.new (K.faults keeper.new) (K.contents keeper.new)
        (K.calls keeper.new) tally.new walked.new looked.new)) }
    ensures place { K.place keeper.new ≡ K.place keeper.old }
{
    let reply = server.answer(alloc, keeper, line, walked, looked);
    if reports_no_memory(&reply) {
        return Err(NoMemory);
    }
    let reported = read_reply(alloc, reply.bytes())?;
    tally.count(reported.accepts);
    Ok(reported.rows)
}

//! The server: it holds a database, and answers one line after another.
ghost use Rattle.std.specs.Prelude.{◌≡◌, ◌⊎◌, ◌≤◌, ◌<◌, ◌+◌, ◌-◌, ◌^◌, Err, IfOk, MatchResult};
ghost use Rattle.server_specs.specs.State as state;
ghost use Rattle.lens_server.specs.Counting.{most_looked, most_walked};
ghost use Rattle.lens_server.specs.Databases.{IsKeyed, state_of};
ghost use Rattle.lens_server.specs.Sessions.{Adds, CommitsFor, Follows, IsExportLine, ReadsBack, Rose, Stays, Step, IfObserved, Valid, answer, marked, memory, request, text};
ghost use Rattle.database_opening.specs.Openings.{IsDatabaseOf};
ghost use Rattle.lens_server.specs.Starting.{IsLoad, Opens};
ghost use Rattle.lens_server.specs.StateCode.{coded_state};
ghost use Rattle.table_keeper.specs.Changes.{kept_view};
ghost use Rattle.table_keeper.specs.Places.{Rise};

use crate::dispatch::answer_line;
use crate::startup::fault::StartFault;
use database::Database;
use database_opening::{OpenFault, database_of};
use io_specs::LONGEST_LINE;
use json::Scratch;
use lens_values::{NoMemory, Text};
use request_text::{Reply, long_reply, memory_reply};
use std::alloc::Global;
use std::marker::{Brand, Model};
use std::sync::ledger::{Blank, Ledger};
use step_counter::Steps;
use table_keeper::{Keeper, Kept};

/// The definitions, the tables and the version. A contract sees the state.
#[derive(Drop)]
pub struct Server {
    database: Database,
    // What reading a line needs, kept from line to line.
    scratch: Scratch,
}

impl Model for Server {
    ghost Value = { state.State };

    ghost coded = { coded_state };

    ghost view = { λ s. state_of s.database };

    ghost invariant = { λ s. Valid (state_of s.database) × IsKeyed s.database };
}

impl Server {
    /// Starts a server over what the keeper has: the state that it opens to, with version 0. It is
    /// `Damaged` exactly where it opens to none, with its first damage; `StoreFault` where the
    /// keeper failed, or `NoMemory`. What is kept stays as it is.
    pub fn start<K: Keeper>(alloc: Global, keeper: &mut K) -> Result<Server, StartFault>
        ensures opened { Opens (K.contents keeper.old) result }
        ensures kept { Stays (K.contents keeper.old) (K.contents keeper.new) }
        ensures place { K.place keeper.new ≡ K.place keeper.old }

        // The keeper is asked to load once, and for nothing else.
        ensures calls { Adds (IsLoad result (K.faults keeper.new)) (K.calls keeper.old)
            (K.calls keeper.new) }

        ensures later { K.faults keeper.old ≤ K.faults keeper.new }
        ensures failed { result ≡ Err StartFault.StoreFault
            → Rose (K.faults keeper.old) (K.faults keeper.new) }
    {
        let kept = keeper.load(alloc)?;
        let database = database_counted::<Brand>(alloc, kept, Blank::new(1))?;
        Ok(Server {
            database,
            scratch: Scratch::new(alloc),
        })
    }

    /// Answers one line. The reply and the state after it are those of the definition; or memory
    /// ran out, or the keeper failed at a change, and nothing changed. A keeper that tells its
    /// contents goes on to tell them, and has what the state has. `walked` counts the rows of the
    /// tables that are gone over, and `looked` the rows that are looked at by key.
    pub fn answer<K: Keeper, L: Ledger, M: Ledger>(
        &mut self,
        alloc: Global,
        keeper: &mut K,
        line: &[u8],
        walked: &mut Steps<L>,
        looked: &mut Steps<M>,
    ) -> Reply
        requires room { self.old.version < 2 ^ 64 - 1 }
        requires told { IfObserved (K.contents keeper.old) (state.kept self.old) }
        ensures step { Step self.old (K.faults keeper.old) (marked line.now) result self.new
            (K.faults keeper.new) }
        ensures told { Follows (λ _ now. now ≡ state.kept self.new) (K.contents keeper.old)
            (K.contents keeper.new) }
        ensures place { K.place keeper.new ≡ K.place keeper.old }

        // What an export gives reads back as the rows of the view.
        ensures back { (name : _) (L : _) → IsExportLine self.old (marked line.now) name L
            → (result ≡ text memory) ⊎ ReadsBack L self.old.tables }

        // Nothing is committed where nothing changes, and one change where the state changes.
        ensures untouched { (answer self.old (marked line.now)).1 ≡ self.old
            → keeper.new ≡ keeper.old }
        ensures commits { Adds (CommitsFor self.old (K.faults keeper.old)
            (record {
              line = marked line.now;
              reply = result;
              state = self.new;
              count = K.faults keeper.new;
            })) (K.calls keeper.old) (K.calls keeper.new) }

        // An edit, a preview and a find by the left side of a dependency look by key, and walk none.
        ensures walked { walked.new ≤ walked.old + most_walked (request (marked line.now)) self.old }
        ensures walks_on { walked.old ≤ walked.new }

        // How many rows are looked at follows from the rows that an edit sends, or in which a put
        // differs from what its view shows, and from the largest group of rows with one key.
        ensures looked { looked.new ≤ looked.old + most_looked (request (marked line.now)) self.old }
    {
        if line.len() > LONGEST_LINE {
            return long_reply();
        }
        let outcome = answer_line(
            alloc,
            &mut self.database,
            &mut self.scratch,
            keeper,
            line,
            walked,
            looked,
        );
        reply_or_memory(outcome)
    }

    /// The texts of the definitions, in order.
    pub fn definitions(&self) -> &[Text]
        ensures { result.now ≡ self.now.texts }
    {
        self.database.catalog.definitions()
    }

    /// The version: how many changes were made.
    pub fn version(&self) -> u64
        ensures { result ≡ self.now.version }
    {
        self.database.version
    }
}

/// The database of what the keeper has, or the first damage of that. It counts steps by itself: no
/// table has rows yet while the catalogue takes the definitions.
fn database_counted<L: Ledger>(
    alloc: Global,
    kept: Kept,
    blank: Blank,
) -> Result<Database, OpenFault>
    requires name { blank.name ≡ L.name }
    requires parts { blank.parts ≡ L.parts }
    requires one { blank.parts ≡ 1 }
    requires rising { Rise kept.tables.items }
    ensures database { IsDatabaseOf result (kept_view kept) }
    ensures keyed { IfOk result IsKeyed }
{
    let mut walked = Steps::<L>::new(blank);
    database_of(alloc, kept, &mut walked)
}

/// The reply, or the reply `out of memory` if memory ran out.
fn reply_or_memory(outcome: Result<Reply, NoMemory>) -> Reply
    ensures { MatchResult outcome (λ reply. result ≡ reply) (λ _. result ≡ text memory) }
{
    match outcome {
        Ok(reply) => reply,
        Err(NoMemory) => memory_reply(),
    }
}

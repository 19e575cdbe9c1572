//! A database in a file.
ghost use Rattle.std.specs.Prelude.{IfOk};
ghost use Rattle.sqlite.specs.Closing.{IsCopied};
ghost use Rattle.sqlite_wal.specs.Reads.{AreClean};
ghost use Rattle.sqlite_keeper.specs.Answers.{AnswersTo};

use crate::changing::change;
use crate::format::prepare;
use crate::known::KnownColumns;
use crate::loading::load;
use crate::logs::Log;
use crate::refusal::Refusal;
use crate::short_files::refuse_short;
use sqlite::{Alter, Connection, Error, File, FileStore, Files};
use sqlite_disk::Disk;
use std::alloc::Global;
use table_keeper::{Change, Kept};

/// What is asked of a database.
#[derive(Clone, Copy)]
pub enum Request<'a> {
    /// The first two tables are made, or tested.
    Prepare,
    /// All is read.
    Load,
    /// A change is made.
    Change(&'a Change),
}

/// What a database answers.
#[derive(Drop)]
pub enum Answer {
    /// It is done.
    Done,
    /// What it holds.
    Kept(Kept),
}

/// An open database in a file.
pub struct Database<'a> {
    rt: &'a HostRuntime,
    conn: Connection<FileStore<File>>,
    known: KnownColumns,
    // None where it is not known, and then it stays at the end.
    log: Option<Log>,
}

// The file's log is copied into it, and removed before the file is unlocked. Where that fails, the
// log stays beside the file, and the next open reads both.
impl Drop for Database<'_> {
    fn drop(self) {
        let Database {
            rt,
            conn,
            known,
            log,
        } = self;
        drop(known);
        if let Ok(locked) = close(conn) {
            remove(rt, log, &locked);
        }
    }
}

impl<'a> Database<'a> {
    /// Opens the file, or makes it where it is missing or empty, with its first tables.
    pub fn open(rt: &'a HostRuntime, alloc: Global, path: &str) -> Result<Database<'a>, Refusal> {
        refuse_short(rt, path)?;
        let conn = Connection::open(rt, path)?;
        let log = Log::of(rt, path).ok();
        let known = KnownColumns::new(alloc);
        let mut database = Database {
            rt,
            conn,
            known,
            log,
        };
        database.serve(alloc, Request::Prepare)?;
        Ok(database)
    }

    /// Does what is asked. No other function runs at the file's own type, since each that does
    /// takes long to prove.
    pub fn serve(&mut self, alloc: Global, request: Request<'_>) -> Result<Answer, Refusal>
        ensures { IfOk result (AnswersTo request.entry) }
    {
        serve(alloc, &mut self.conn, &mut self.known, request)
    }
}

fn serve<S: Alter>(
    alloc: Global,
    conn: &mut Connection<S>,
    known: &mut KnownColumns,
    request: Request<'_>,
) -> Result<Answer, Refusal>
    ensures { IfOk result (AnswersTo request.entry) }
{
    match request {
        Request::Prepare => {
            prepare(alloc, conn)?;
            Ok(Answer::Done)
        }
        Request::Load => Ok(Answer::Kept(load(alloc, conn)?)),
        Request::Change(made) => {
            change(alloc, conn, known, made)?;
            Ok(Answer::Done)
        }
    }
}

// Copies the log into the file, and gives both, which are locked until they are dropped. The file
// alone has all commits then, whatever a crash leaves.
fn close<D: Disk + Drop>(conn: Connection<FileStore<D>>) -> Result<Files<D>, Error>
    ensures { IfOk result (λ files. AreClean D.Disk files.log files.db → IsCopied conn files) }
{
    match conn.close_files() {
        Ok(files) => Ok(files),
        Err((error, store)) => {
            drop(store.close());
            Err(error)
        }
    }
}

// Removes the log, where it is known. One that cannot be removed stays, and does no harm.
fn remove<D: Disk>(rt: &HostRuntime, log: Option<Log>, locked: &Files<D>) {
    if let Some(log) = log {
        let _ = log.remove_if_empty(rt, locked);
    }
}

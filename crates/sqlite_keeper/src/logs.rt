//! The log that stands beside a database's file.
ghost use Rattle.std.specs.Prelude.{◌≡◌, ◌<◌, ◌↔◌, IsTrue};

use sqlite::Files;
use sqlite_disk::Disk;
use std::fs::Metadata;
use std::os::unix::fs::MetadataExt;
use std::{fs, io};

// The lengths of a log's header and of a frame's. A shorter log has no frame.
const LEAST: u64 = 32 + 24;

/// The log of a database that is open.
#[derive(Drop)]
pub struct Log {
    path: String,
    // The device and the number of the file, which no other file has while this one is open.
    identity: (u64, u64),
}

impl Log {
    /// The log of the database at this path, which is open.
    pub fn of(rt: &HostRuntime, path: &str) -> io::Result<Log> {
        let path = log_path(rt, path)?;
        let found = fs::symlink_metadata(rt, path.as_str())?;
        Ok(Log {
            path,
            identity: identity(&found),
        })
    }

    /// Removes the log, if it has no frame. No other process writes to it, since the files of the
    /// database are locked while they are borrowed. Another file that has come to the name of the log
    /// is left, since a process may write to that one.
    pub fn remove_if_empty<D: Disk>(&self, rt: &HostRuntime, _locked: &Files<D>) -> io::Result<()> {
        let found = fs::symlink_metadata(rt, self.path.as_str())?;
        let file = identity(&found);
        let length = found.len();
        if may_be_removed(self.identity, file, length) {
            let path = self.path.as_str();
            let log = self.identity;
            EmptyLog {
                path,
                log,
                file,
                length,
            }
            .remove(rt)
        } else {
            Ok(())
        }
    }
}

// What was found at the name of a log: the log itself, with no frame. Nothing else is removed.
#[derive(Drop)]
struct EmptyLog<'a> {
    path: &'a str,
    log: (u64, u64),
    file: (u64, u64),
    length: u64,
    ghost same: { file ≡ log },
    ghost short: { length < 56 },
}

impl EmptyLog<'_> {
    fn remove(self, rt: &HostRuntime) -> io::Result<()> {
        fs::remove_file(rt, self.path)
    }
}

/// Where the log of the database at this path is.
pub fn log_path(rt: &HostRuntime, path: &str) -> io::Result<String> {
    let real = fs::canonicalize(rt, path)?;
    Ok(format!(in rt.alloc(); "{}-wal", real.as_str())?)
}

// The device and the number of the file.
fn identity(found: &Metadata) -> (u64, u64) {
    (found.dev(), found.ino())
}

// Whether a file of this identity and length is the log, and has no frame.
fn may_be_removed(log: (u64, u64), found: (u64, u64), length: u64) -> bool
    ensures { IsTrue result ↔ (found ≡ log) × (length < 56) }
{
    found == log && length < LEAST
}

//! Files that are too short to be databases.
ghost use Rattle.std.specs.Prelude.{◌≡◌, ◌<◌, ◌↔◌, [], ◌∷◌, IsTrue, drop};

use crate::logs::log_path;
use crate::refusal::Refusal;
use std::io::Read;
use std::{fs, io};

// A database has at least its first page, whose least size this is.
const LEAST: u64 = 512;

/// Refuses a file that is not empty and too short for a database, since sqlite takes one of a
/// single byte for an empty one. What a crash left of a store that was being made is let through.
/// A file that has no length to be read is left to sqlite, which refuses it or makes it.
pub fn refuse_short(rt: &HostRuntime, path: &str) -> Result<(), Refusal> {
    match fs::metadata(rt, path) {
        Ok(found) if is_short(found.len()) => refuse_unless_half_made(rt, path),
        _ => Ok(()),
    }
}

// Whether a file of this length is neither empty nor a database.
fn is_short(length: u64) -> bool
    ensures { IsTrue result ↔ (0 < length) × (length < 512) }
{
    0 < length && length < LEAST
}

// Refuses a short file, unless it is half made.
fn refuse_unless_half_made(rt: &HostRuntime, path: &str) -> Result<(), Refusal> {
    if is_half_made(rt, path)? {
        Ok(())
    } else {
        Err(Refusal::Failed)
    }
}

// Whether the log beside the file is that of a store that is being made.
fn is_half_made(rt: &HostRuntime, path: &str) -> io::Result<bool> {
    let mut log = fs::open(rt, log_path(rt, path)?.as_str())?;
    let mut head = [0; 16];
    log.read_exact(&mut head)?;
    Ok(is_begun(&head))
}

// Whether the log has had no checkpoint: its count of them stands before 0.
fn is_begun(head: &[u8; 16]) -> bool
    ensures { IsTrue result ↔ (drop 12 head.now ≡ 255 ∷ 255 ∷ 255 ∷ 255 ∷ []) }
{
    head[12..] == [255; 4]
}

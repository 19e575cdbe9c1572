//! Reply lines.
ghost use Rattle.std.specs.Prelude.{◌≡◌, ℕ, List};
ghost use Rattle.server_specs.specs.Answer.{long_line, memory, not_json, nothing_to_undo, store_fault, text};
ghost use Rattle.reply_printing.specs.ReplyBytes.{bytes_of};

use std::marker::Model;

/// A line with its newline. A contract sees its bytes.
#[derive(Drop)]
pub struct Reply {
    source: Source,
}

#[derive(Drop)]
enum Source {
    Fixed(&'static [u8]),
    Made(Vec<u8>),
}

impl Model for Reply {
    ghost Value = { List ℕ };

    ghost view = { λ r. bytes_of r.source };
}

impl Reply {
    pub(crate) fn made(bytes: Vec<u8>) -> Reply
        ensures { result ≡ bytes.items }
    {
        Reply {
            source: Source::Made(bytes),
        }
    }

    /// The bytes of the line.
    pub fn bytes(&self) -> &[u8]
        ensures { result.now ≡ self.now }
    {
        match &self.source {
            Source::Fixed(bytes) => bytes,
            Source::Made(bytes) => bytes.as_slice(),
        }
    }
}

/// The reply that memory ran out. It takes none.
pub fn memory_reply() -> Reply
    ensures { result ≡ text memory }
{
    Reply {
        source: Source::Fixed(b"{\"error\":1,\"ok\":false}\n"),
    }
}

/// The reply to a line that is too long. It takes no memory.
pub fn long_reply() -> Reply
    ensures { result ≡ text long_line }
{
    Reply {
        source: Source::Fixed(b"{\"error\":10,\"ok\":false}\n"),
    }
}

/// The reply to a line that is no JSON. It takes no memory.
pub(crate) fn not_json_reply() -> Reply
    ensures { result ≡ text not_json }
{
    Reply {
        source: Source::Fixed(b"{\"error\":11,\"ok\":false}\n"),
    }
}

/// The reply that no change is left to undo. It takes no memory.
pub(crate) fn nothing_to_undo_reply() -> Reply
    ensures { result ≡ text nothing_to_undo }
{
    Reply {
        source: Source::Fixed(b"{\"error\":44,\"ok\":false}\n"),
    }
}

/// The reply that the store failed. It takes no memory.
pub fn store_fault_reply() -> Reply
    ensures { result ≡ text store_fault }
{
    Reply {
        source: Source::Fixed(b"{\"error\":90,\"ok\":false}\n"),
    }
}

//! Bytes at a place of a buffer that has room for them, and the test that a text needs no escape.
ghost use Rattle.std.specs.Prelude.{◌≡◌, ◌+◌, ◌<◌, ◌≤◌, [], ◌∷◌, length};
ghost use Rattle.std.specs.List.{list_all};
ghost use Rattle.json.specs.Filled.{Placed};
ghost use Rattle.json.specs.Run.{is_plain};

// Writes the bytes at the place, and returns the place behind them.
#[inline(always)]
pub(crate) fn place(buffer: &mut [u8], at: usize, bytes: &[u8]) -> usize
    requires { at + length bytes.now ≤ length buffer.old }
    ensures { Placed buffer.old buffer.new at bytes.now result }
{
    let end = at + bytes.len();
    buffer[at..end].copy_from_slice(bytes);
    end
}

// Writes the byte at the place, and returns the place behind it.
#[inline(always)]
pub(crate) fn place_byte(buffer: &mut [u8], at: usize, byte: u8) -> usize
    requires { at < length buffer.old }
    ensures { Placed buffer.old buffer.new at (byte ∷ []) result }
{
    buffer[at] = byte;
    at + 1
}

// Whether each byte stands for itself in a JSON string.
pub(crate) fn are_plain(text: &[u8]) -> bool
    ensures { result ≡ list_all is_plain text.now }
{
    text.iter().all(|byte| is_plain(*byte))
}

fn is_plain(byte: u8) -> bool
    ensures { result ≡ is_plain byte }
{
    byte != b'"' && byte != b'\\' && byte >= b' '
}

//! A short text, kept so that it is compared by the numbers that its bytes spell.
ghost use Rattle.std.specs.Prelude.{◌≡◌, ◌+◌, ◌<◌, ◌≤◌, IfNone, IfSome, IsTrue, drop, length};
ghost use Rattle.plain_values.specs.Bytes.{is_text};
ghost use Rattle.plain_values.specs.NameBytes.{spelt};
ghost use Rattle.plain_values.specs.Order.{bytes_cmp};

use std::cmp::Ordering;
use std::marker::Model;

/// The greatest number of bytes of a short text.
pub const SHORT: usize = 22;

/// At most 22 bytes of UTF-8, without U+0000. A contract sees its bytes. With them and their number
/// a value takes 32 bytes.
#[derive(Clone, Copy, Debug)]
pub struct ShortText {
    // The bytes of the text, and zeros after them.
    bytes: [u8; 22],
    len: u8,
}

impl Model for ShortText {
    ghost use Rattle.std.specs.Prelude.{List, ℕ, take, length};
    ghost use Rattle.plain_values.specs.ShortBytes.{KeepsShort, padded};

    ghost Value = { List ℕ };

    ghost use Rattle.plain_values.specs.ShortFields.{same_fields};

    ghost view = { λ s. take s.len s.bytes };

    ghost invariant = { λ s. KeepsShort s.bytes s.len };

    ghost inverse = { λ v. record { bytes = padded v; len = length v } };

    ghost inverse_ok = { λ s kept. same_fields s kept };
}

impl ShortText {
    /// The short text of the bytes of a text, or `None` if there are more than 22.
    pub fn new(s: &str) -> Option<ShortText>
        requires { IsTrue (is_text s.now) }
        ensures some { IfSome result (λ short. short ≡ s.now) }
        ensures none { IfNone result (22 < length s.now) }
    {
        let text = s.as_bytes();
        if text.len() > SHORT {
            return None;
        }
        let mut bytes = [0; 22];
        bytes[..text.len()].copy_from_slice(text);
        Some(ShortText {
            bytes,
            len: text.len() as u8,
        })
    }

    /// The text as a `str`.
    pub fn as_str(&self) -> &str
        ensures { result.now ≡ self.now }
    {
        unsafe { str::from_utf8_unchecked(&self.bytes[..self.len as usize]) }
    }

    /// How the texts stand to one another.
    pub fn cmp(&self, other: &ShortText) -> Ordering
        ensures { result ≡ bytes_cmp self.now other.now }
    {
        let (mine, others) = (&self.bytes, &other.bytes);
        match number(mine, 0).cmp(&number(others, 0)) {
            Ordering::Equal => match number(mine, 8).cmp(&number(others, 8)) {
                Ordering::Equal => last_number(mine).cmp(&last_number(others)),
                order => order,
            },
            order => order,
        }
    }
}

// The number that eight of the bytes, from `start` on, spell in big-endian order.
fn number(bytes: &[u8; 22], start: usize) -> u64
    requires { start + 8 ≤ 22 }
    ensures { result ≡ spelt 8 0 (drop start bytes.now) }
{
    u64::from_be_bytes([
        bytes[start],
        bytes[start + 1],
        bytes[start + 2],
        bytes[start + 3],
        bytes[start + 4],
        bytes[start + 5],
        bytes[start + 6],
        bytes[start + 7],
    ])
}

// The number that the last six of the bytes spell in big-endian order.
fn last_number(bytes: &[u8; 22]) -> u64
    ensures { result ≡ spelt 6 0 (drop 16 bytes.now) }
{
    u64::from_be_bytes([
        0, 0, bytes[16], bytes[17], bytes[18], bytes[19], bytes[20], bytes[21],
    ])
}

//! The name of a column, a table or a view.
ghost use Rattle.std.specs.Prelude.{◌≡◌, IsTrue, length, nat_eq, nat_le, refl, take};
ghost use Rattle.std.specs.Cmp.{partial_equiv_from_equiv};
ghost use Rattle.std.specs.Cmp.Lexicographic.{nat_list_cmp_total, nat_list_eq_equiv, pointwise, texts_po, texts_ties};
ghost use Rattle.std.specs.List.{list_all};
ghost use Rattle.std.specs.Ordering.{as_partial_cmp};
ghost use Rattle.plain_values.specs.Bytes as spec;
ghost use Rattle.plain_values.specs.Name.{name_of, renamed};
ghost use Rattle.plain_values.specs.NameBytes.{spelt};
ghost use Rattle.plain_values.specs.Order.{bytes_cmp};

use crate::copying::TryClone;
use no_memory::NoMemory;
use std::alloc::Global;
use std::cmp::Ordering;
use std::marker::Model;

/// The greatest number of bytes of a name.
pub const MAX_NAME: usize = 32;

// How many bytes of a name are kept as a number too.
const FRONT: usize = 8;

/// A lower-case letter or `_`, and then at most 31 of these and digits. A contract sees its bytes.
#[derive(Clone, Copy, Debug)]
pub struct Name {
    bytes: [u8; 32],
    len: usize,
    // The number that the first bytes spell. It tells most names apart, and orders them.
    front: u64,
}

impl Model for Name {
    ghost use Rattle.std.specs.Prelude.{List, ℕ, take, length};
    ghost use Rattle.plain_values.specs.NameBytes.{KeepsName, padded, spelt};

    ghost Value = { List ℕ };

    ghost use Rattle.plain_values.specs.NameFields.{same_fields};

    ghost view = { λ n. take n.len n.bytes };

    ghost invariant = { λ n. KeepsName n.bytes n.len n.front };

    ghost inverse = { λ v. record { bytes = padded v; len = length v; front = spelt 8 0 v } };

    ghost inverse_ok = { λ n kept. same_fields n kept };
}

/// The bytes are not a name.
#[derive(Clone, Copy, Debug, PartialEq, Eq)]
pub struct BadName;

fn is_lower(b: u8) -> bool
    ensures { result ≡ spec.is_lower b }
{
    b.is_ascii_lowercase() || b == b'_'
}

fn is_name_byte(b: u8) -> bool
    ensures { result ≡ spec.is_name_byte b }
{
    is_lower(b) || b.is_ascii_digit()
}

fn are_name_bytes(text: &[u8]) -> bool
    ensures { result ≡ list_all spec.is_name_byte text.now }
{
    text.iter().all(|b| is_name_byte(*b))
}

fn is_name(text: &[u8]) -> bool
    ensures { result ≡ spec.is_name text.now }
{
    if text.is_empty() || text.len() > MAX_NAME {
        return false;
    }
    is_lower(text[0]) && are_name_bytes(text)
}

impl Name {
    /// The name of these bytes, or `BadName` where they are not one.
    pub fn new(s: &str) -> Result<Name, BadName>
        ensures { result ≡ name_of s.now }
    {
        let text = s.as_bytes();
        if !is_name(text) {
            return Err(BadName);
        }
        let mut bytes = [0; 32];
        bytes[..text.len()].copy_from_slice(text);
        Ok(Name {
            bytes,
            len: text.len(),
            front: front_of(bytes),
        })
    }

    /// The name as text.
    pub fn as_str(&self) -> &str
        ensures { result.now ≡ self.now }
    {
        unsafe { str::from_utf8_unchecked(self.as_bytes()) }
    }

    /// The bytes of the name.
    pub fn as_bytes(&self) -> &[u8]
        ensures value { result.now ≡ self.now }
        ensures name { IsTrue (spec.is_name self.now) }
    {
        &self.bytes[..self.len]
    }

    /// The name, or `to` if the name is `from`.
    pub fn rename(&self, from: &Name, to: &Name) -> Name
        ensures { result ≡ renamed from.now to.now self.now }
    {
        if self == from { *to } else { *self }
    }

    // The number that the first bytes spell.
    #[inline]
    fn front(&self) -> u64
        ensures value { result ≡ spelt 8 0 self.now }
        ensures name { IsTrue (spec.is_name self.now) }
    {
        self.front
    }

    // Whether the name has no more bytes than those.
    #[inline]
    fn is_short(&self) -> bool
        ensures { result ≡ nat_le (length self.now) 8 }
    {
        self.len <= FRONT
    }

    // Whether the names are equal, where their first bytes are.
    fn equals_rest(&self, other: &Name) -> bool
        requires { take 8 self.now ≡ take 8 other.now }
        ensures { result ≡ pointwise nat_eq self.now other.now }
    {
        if self.is_short() && other.is_short() {
            return true;
        }
        self.as_str() == other.as_str()
    }

    // How the names stand to one another, where their first bytes are equal.
    fn cmp_rest(&self, other: &Name) -> Ordering
        requires { take 8 self.now ≡ take 8 other.now }
        ensures { result ≡ bytes_cmp self.now other.now }
    {
        if self.is_short() && other.is_short() {
            return Ordering::Equal;
        }
        self.as_str().cmp(other.as_str())
    }
}

// The number that the first of the bytes spell, the greatest first.
fn front_of(bytes: [u8; 32]) -> u64
    ensures { result ≡ spelt 8 0 bytes }
{
    u64::from_be_bytes([
        bytes[0], bytes[1], bytes[2], bytes[3], bytes[4], bytes[5], bytes[6], bytes[7],
    ])
}

impl PartialEq for Name {
    ghost eq = { pointwise nat_eq };

    ghost laws = { partial_equiv_from_equiv nat_list_eq_equiv };

    #[inline]
    fn eq(&self, other: &Name) -> bool {
        self.front() == other.front() && self.equals_rest(other)
    }
}

impl Eq for Name {
    ghost laws = { nat_list_eq_equiv };
}

impl PartialOrd for Name {
    ghost partial_cmp = { as_partial_cmp bytes_cmp };

    ghost laws = { texts_po };

    fn partial_cmp(&self, other: &Name) -> Option<Ordering> {
        Some(self.cmp(other))
    }
}

impl Ord for Name {
    ghost cmp = { bytes_cmp };

    ghost total = { nat_list_cmp_total };

    ghost matches_partial_cmp = { λ _ _. refl };

    ghost matches_eq = { texts_ties };

    #[inline]
    fn cmp(&self, other: &Name) -> Ordering {
        match self.front().cmp(&other.front()) {
            Ordering::Equal => self.cmp_rest(other),
            order => order,
        }
    }
}

impl TryClone for Name {
    fn try_clone(&self, _alloc: Global) -> Result<Name, NoMemory> {
        Ok(*self)
    }
}

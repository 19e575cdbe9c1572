//! A text value.
ghost use Rattle.std.specs.Prelude.{◌≡◌, IfOk, IsTrue, IsUtf8, nat_eq, refl};
ghost use Rattle.std.specs.Cmp.{partial_equiv_from_equiv};
ghost use Rattle.std.specs.Cmp.Lexicographic.{nat_list_cmp_total, nat_list_eq_equiv, pointwise, texts_po, texts_ties};
ghost use Rattle.std.specs.Ordering.{as_partial_cmp};
ghost use Rattle.no_memory.specs.Gives.{Gives};
ghost use Rattle.plain_values.specs.Bytes.{is_text};
ghost use Rattle.plain_values.specs.Order.{bytes_cmp};
ghost use Rattle.plain_values.specs.Text.{text_of};
ghost use Rattle.plain_values.specs.TextBytes.{bytes_of};
ghost use Rattle.plain_values.specs.declared.text.TextFault.TheVariants.{NoMemory};

use crate::copying::TryClone;
use crate::short_text::ShortText;
use no_memory::NoMemory;
use std::alloc::Global;
use std::cmp::Ordering;
use std::marker::Model;
use std::rc::Rc;

/// The greatest number of bytes of a text.
pub const MAX_TEXT: usize = 4096;

/// At most 4,096 bytes of UTF-8, without U+0000. A contract sees its bytes.
#[derive(Debug, Drop)]
pub struct Text {
    bytes: TextBytes,
}

// Most texts are short. They lie where their value lies, so that a comparison goes to no other
// place in memory. Copies of a long text share its bytes.
#[derive(Debug)]
enum TextBytes {
    Short(ShortText),
    Long(Rc<String>),
}

impl Model for Text {
    ghost use Rattle.std.specs.Prelude.{List, ℕ, IsTrue};
    ghost use Rattle.plain_values.specs.Bytes.{is_text};
    ghost use Rattle.plain_values.specs.TextBytes.{bytes_of};

    ghost Value = { List ℕ };

    ghost view = { λ t. bytes_of t.bytes };

    ghost invariant = { λ t. IsTrue (is_text (bytes_of t.bytes)) };
}

// By hand, so that to let a text go is one call, and no proof above has a case for each kind.
impl Drop for TextBytes {
    fn drop(self) {
        match self {
            TextBytes::Short(_) => (),
            TextBytes::Long(long) => drop(long),
        }
    }
}

impl TextBytes {
    fn of(alloc: Global, s: &str) -> Result<TextBytes, NoMemory>
        requires { IsTrue (is_text s.now) }
        ensures { IfOk result (λ bytes. bytes_of bytes ≡ s.now) }
    {
        match ShortText::new(s) {
            Some(short) => Ok(TextBytes::Short(short)),
            None => Ok(TextBytes::Long(Rc::new(alloc, String::from_str(alloc, s)?)?)),
        }
    }

    fn as_str(&self) -> &str
        ensures { result.now ≡ bytes_of self.now }
    {
        match self {
            TextBytes::Short(short) => short.as_str(),
            TextBytes::Long(long) => long.as_str(),
        }
    }

    fn copy(&self) -> Result<TextBytes, NoMemory>
        ensures { IfOk result (λ copy. bytes_of copy ≡ bytes_of self.now) }
    {
        match self {
            TextBytes::Short(short) => Ok(TextBytes::Short(*short)),
            TextBytes::Long(long) => Ok(TextBytes::Long(long.clone()?)),
        }
    }
}

/// Why bytes are not a text.
#[derive(Debug, PartialEq, Eq, Drop)]
pub enum TextFault {
    /// More than 4,096 bytes.
    TooLong,
    /// U+0000 is among them.
    HasNul,
    /// Out of memory.
    NoMemory,
}

impl From<NoMemory> for TextFault {
    ghost from_gives = { λ _ e. e ≡ NoMemory };

    fn from(_: NoMemory) -> TextFault {
        TextFault::NoMemory
    }
}

impl Text {
    /// The text of these bytes. `TooLong` where there are more than 4,096, and otherwise
    /// `HasNul` where U+0000 is among them.
    pub fn new(alloc: Global, s: &str) -> Result<Text, TextFault>
        ensures { Gives TextFault.NoMemory result (text_of s.now) }
    {
        if s.len() > MAX_TEXT {
            return Err(TextFault::TooLong);
        }
        if s.as_bytes().contains(&0) {
            return Err(TextFault::HasNul);
        }
        Ok(Text {
            bytes: TextBytes::of(alloc, s)?,
        })
    }

    /// The text as a `str`.
    pub fn as_str(&self) -> &str
        ensures { result.now ≡ self.now }
    {
        self.bytes.as_str()
    }

    /// The bytes of the text.
    pub fn as_bytes(&self) -> &[u8]
        ensures value { result.now ≡ self.now }
        ensures text { IsTrue (is_text self.now) }
        ensures utf8 { IsUtf8 self.now }
    {
        self.bytes.as_str().as_bytes()
    }

    /// An equal text.
    pub fn copy(&self, _alloc: Global) -> Result<Text, NoMemory>
        ensures { IfOk result (λ copy. copy ≡ self.now) }
    {
        Ok(Text {
            bytes: self.bytes.copy()?,
        })
    }
}

impl PartialEq for Text {
    ghost eq = { pointwise nat_eq };

    ghost laws = { partial_equiv_from_equiv nat_list_eq_equiv };

    fn eq(&self, other: &Text) -> bool {
        match (&self.bytes, &other.bytes) {
            (TextBytes::Short(mine), TextBytes::Short(others)) => mine.cmp(others).is_eq(),
            _ => self.as_str() == other.as_str(),
        }
    }
}

impl Eq for Text {
    ghost laws = { nat_list_eq_equiv };
}

impl PartialOrd for Text {
    ghost partial_cmp = { as_partial_cmp bytes_cmp };

    ghost laws = { texts_po };

    fn partial_cmp(&self, other: &Text) -> Option<Ordering> {
        Some(self.cmp(other))
    }
}

impl Ord for Text {
    ghost cmp = { bytes_cmp };

    ghost total = { nat_list_cmp_total };

    ghost matches_partial_cmp = { λ _ _. refl };

    ghost matches_eq = { texts_ties };

    fn cmp(&self, other: &Text) -> Ordering {
        match (&self.bytes, &other.bytes) {
            (TextBytes::Short(mine), TextBytes::Short(others)) => mine.cmp(others),
            _ => self.as_str().cmp(other.as_str()),
        }
    }
}

impl TryClone for Text {
    fn try_clone(&self, alloc: Global) -> Result<Text, NoMemory> {
        self.copy(alloc)
    }
}

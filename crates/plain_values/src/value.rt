//! A value and its kind.
ghost use Rattle.std.specs.Prelude.{◌≡◌, IfOk, Some};
ghost use Rattle.plain_values.specs.Columns.{fits_at};
ghost use Rattle.plain_values.specs.Value.{base_of, fits, is_null, is_nullable, kind_of, kind_place, same_kind};

use crate::copying::TryClone;
use crate::text::Text;
use no_memory::NoMemory;
use std::alloc::Global;

/// What a column holds: numbers, texts or truth values, and in the last three null too.
#[derive(Clone, Copy, PartialEq, Eq, PartialOrd, Ord)]
pub enum Kind {
    Int,
    Text,
    Flag,
    IntOrNull,
    TextOrNull,
    FlagOrNull,
}

/// Null, a whole number of 64 bits, a text or a truth value.
#[derive(Debug, PartialEq, Eq, PartialOrd, Ord, Drop)]
pub enum Value {
    Null,
    Int(i64),
    Text(Text),
    Flag(bool),
}

impl Kind {
    /// The kind with its null taken away.
    pub fn base(self) -> Kind
        ensures { result ≡ base_of self }
    {
        match self {
            Kind::Int | Kind::IntOrNull => Kind::Int,
            Kind::Text | Kind::TextOrNull => Kind::Text,
            Kind::Flag | Kind::FlagOrNull => Kind::Flag,
        }
    }

    /// Whether null is of the kind.
    pub fn is_nullable(self) -> bool
        ensures { result ≡ is_nullable self }
    {
        match self {
            Kind::Int | Kind::Text | Kind::Flag => false,
            Kind::IntOrNull | Kind::TextOrNull | Kind::FlagOrNull => true,
        }
    }

    /// Whether both are the same kind.
    pub fn same(self, other: Kind) -> bool
        ensures { result ≡ same_kind self other }
    {
        self.place() == other.place()
    }

    // The place of the kind among the six.
    fn place(self) -> u8
        ensures { result ≡ kind_place self }
    {
        match self {
            Kind::Int => 0,
            Kind::Text => 1,
            Kind::Flag => 2,
            Kind::IntOrNull => 3,
            Kind::TextOrNull => 4,
            Kind::FlagOrNull => 5,
        }
    }
}

impl Value {
    /// The kind of the value, `None` of null.
    pub fn kind(&self) -> Option<Kind>
        ensures { result ≡ kind_of self.now }
    {
        match self {
            Value::Null => None,
            Value::Int(_) => Some(Kind::Int),
            Value::Text(_) => Some(Kind::Text),
            Value::Flag(_) => Some(Kind::Flag),
        }
    }

    /// Whether the value is null.
    pub fn is_null(&self) -> bool
        ensures { result ≡ is_null self.now }
    {
        matches!(self, Value::Null)
    }

    /// Whether the value fits the kind.
    #[tactic(auto, unfolding(crate::specs::Value::fits))]
    pub fn fits(&self, kind: Kind) -> bool
        ensures { result ≡ fits self.now kind }
    {
        match self.kind() {
            Some(own) => own.same(kind.base()),
            None => kind.is_nullable(),
        }
    }

    /// Whether the column of this kind is there, and the value fits it.
    pub fn fits_at(&self, kind: Option<Kind>) -> bool
        ensures { result ≡ fits_at (Some self.now) kind }
    {
        match kind {
            Some(kind) => self.fits(kind),
            None => false,
        }
    }

    /// An equal value.
    pub fn copy(&self, alloc: Global) -> Result<Value, NoMemory>
        ensures { IfOk result (λ copy. copy ≡ self.now) }
    {
        match self {
            Value::Null => Ok(Value::Null),
            Value::Int(number) => Ok(Value::Int(*number)),
            Value::Text(text) => Ok(Value::Text(text.copy(alloc)?)),
            Value::Flag(flag) => Ok(Value::Flag(*flag)),
        }
    }
}

impl TryClone for Kind {
    fn try_clone(&self, _alloc: Global) -> Result<Kind, NoMemory> {
        Ok(*self)
    }
}

impl TryClone for Value {
    fn try_clone(&self, alloc: Global) -> Result<Value, NoMemory> {
        self.copy(alloc)
    }
}

//! Values, which borrow their texts from a line.
use serde_json::Number;

/// A JSON value. The members of an object stand in the order in which they were sent.
#[derive(Debug, Drop)]
pub enum Value<'a> {
    /// `null`.
    Null,
    /// `true` or `false`.
    Bool(bool),
    /// A number: an integer of 64 bits, or a finite float.
    Number(Number),
    /// A text.
    String(&'a str),
    /// A list of values.
    Array(Vec<Value<'a>>),
    /// An object.
    Object(Vec<Entry<'a>>),
}

/// A member of an object: its name and its value.
pub type Entry<'a> = (&'a str, Value<'a>);

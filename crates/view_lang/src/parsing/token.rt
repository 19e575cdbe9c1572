//! One token of the language.
ghost use Rattle.std.specs.Prelude.{◌≡◌, is_some};
ghost use Rattle.grammar_specs.specs.Tokens as language;
ghost use Rattle.grammar_laws.specs.Tests as tests;

use crate::words::{flag_word, join_word, kind_word};
use lens_pred::Op;
use lens_values::{JoinKind, Kind, Name, Text, Value};

/// A word, an integer, a text, an operator or punctuation.
#[derive(Drop)]
pub enum Token {
    /// A word, reserved or not.
    Word(Name),
    /// A whole number of 64 bits.
    Integer(i64),
    /// A text, without its quotes.
    Text(Text),
    OpenParen,
    CloseParen,
    Comma,
    /// `->`
    Arrow,
    /// The operator of a comparison.
    Operator(Op),
}

/// Punctuation, and the `=` before an expression.
#[derive(Clone, Copy)]
pub enum Sign {
    Open,
    Close,
    Comma,
    Arrow,
    Equals,
}

/// Words that cannot be names, by their lengths.
const SHORT_WORDS: [&str; 24] = [
    "table", "view", "select", "from", "where", "drop", "by", "join_dl", "with", "int", "text",
    "bool", "and", "or", "not", "in", "true", "false", "rename", "to", "null", "is", "join_dr",
    "as",
];

const LONG_WORDS: [&str; 2] = ["determined", "join_both"];

fn is_reserved(word: &str) -> bool
    ensures { result ≡ language.is_reserved word.now }
{
    SHORT_WORDS.contains(&word) || LONG_WORDS.contains(&word)
}

/// Whether the word can be a name.
fn is_free(word: &Name) -> bool
    ensures { result ≡ language.is_free_name word.now }
{
    // A word is spelled as a name, which its bytes say.
    let _bytes = word.as_bytes();
    !is_reserved(word.as_str())
}

pub fn flag_named(word: &str) -> Option<bool>
    ensures { result ≡ tests.flag_named word.now }
{
    [true, false]
        .into_iter()
        .find(|flag| flag_word(*flag) == word)
}

pub fn kind_named(word: &str) -> Option<Kind>
    ensures { result ≡ tests.kind_named word.now }
{
    [Kind::Int, Kind::Text, Kind::Flag]
        .into_iter()
        .find(|kind| kind_word(*kind) == word)
}

pub fn join_kind_named(word: &str) -> Option<JoinKind>
    ensures { result ≡ tests.join_kind_named word.now }
{
    [
        JoinKind::DeleteLeft,
        JoinKind::DeleteRight,
        JoinKind::DeleteBoth,
    ]
    .into_iter()
    .find(|kind| join_word(*kind) == word)
}

impl Token {
    ghost use Rattle.view_lang.specs.TokenViews.{token_view, is_sign};

    /// Whether the token is this word.
    pub fn is_keyword(&self, word: &str) -> bool
        ensures { result ≡ tests.is_keyword word.now (token_view self.now) }
    {
        match self {
            Token::Word(name) => name.as_str() == word,
            _ => false,
        }
    }

    /// Whether the token is this sign.
    pub fn is(&self, sign: Sign) -> bool
        ensures { result ≡ is_sign sign (token_view self.now) }
    {
        match sign {
            Sign::Open => matches!(self, Token::OpenParen),
            Sign::Close => matches!(self, Token::CloseParen),
            Sign::Comma => matches!(self, Token::Comma),
            Sign::Arrow => matches!(self, Token::Arrow),
            Sign::Equals => matches!(self, Token::Operator(Op::Eq)),
        }
    }

    /// The name, if the token can be one.
    pub fn name(&self) -> Option<Name>
        ensures { result ≡ tests.free_in (token_view self.now) }
    {
        match self {
            Token::Word(name) if is_free(name) => Some(*name),
            _ => None,
        }
    }

    /// Whether the token is a literal.
    pub fn is_literal(&self) -> bool
        ensures { result ≡ is_some (tests.literal_in (token_view self.now)) }
    {
        match self {
            Token::Word(name) => flag_named(name.as_str()).is_some(),
            Token::Integer(_) | Token::Text(_) => true,
            _ => false,
        }
    }

    /// The literal, if the token is one.
    pub fn into_literal(self) -> Option<Value>
        ensures { result ≡ tests.literal_in (token_view self) }
    {
        match self {
            Token::Word(name) => flag_named(name.as_str()).map(Value::Flag),
            Token::Integer(number) => Some(Value::Int(number)),
            Token::Text(text) => Some(Value::Text(text)),
            _ => None,
        }
    }
}

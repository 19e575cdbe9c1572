//! Finds the longest token at an offset of a text.
ghost use Rattle.std.specs.Prelude.{◌≡◌, ℕ, List, ◌<◌, ◌+◌, ◌-◌, false, length, drop, option_map, MatchOption, IfOk, IfSome, IsTrue, string_bytes, slice_index, map, Some, None};
ghost use Rattle.std.specs.Str.{IsUtf8};
ghost use Rattle.std.specs.List.{prefix_len};
ghost use Rattle.plain_values.specs.Bytes as bytes;
ghost use Rattle.grammar_specs.specs.Tokens as language;
ghost use Rattle.grammar_laws.specs.Front.{quoted_in, text_at, plain_in_front, token_in_front};
ghost use Rattle.view_lang.specs.TokenViews.{token_view, IsFront, integer_at, is_integer_text, begins_word, begins_integer, begins_arrow, sign_in_front};

use crate::parsing::token::Token;
use lens_pred::Op;
use lens_values::{Name, NoMemory, Text, TextFault};
use std::alloc::Global;
use std::str;

fn is_blank(byte: u8) -> bool
    ensures { result ≡ language.is_blank byte }
{
    byte == b' ' || byte == b'\t' || byte == b'\n' || byte == b'\r'
}

fn is_lower(byte: u8) -> bool
    ensures { result ≡ bytes.is_lower byte }
{
    byte.is_ascii_lowercase() || byte == b'_'
}

fn is_digit(byte: u8) -> bool
    ensures { result ≡ language.is_digit byte }
{
    byte.is_ascii_digit()
}

fn is_name_byte(byte: u8) -> bool
    ensures { result ≡ bytes.is_name_byte byte }
{
    is_lower(byte) || is_digit(byte)
}

/// Counts the bytes of whitespace at the front of the text.
pub fn blank_len(text: &[u8]) -> usize
    ensures { result ≡ prefix_len language.is_blank text.now }
{
    text.iter().take_while(|byte| is_blank(**byte)).count()
}

/// Counts the bytes of a word at the front of the text.
fn word_len(text: &[u8]) -> usize
    ensures { result ≡ prefix_len bytes.is_name_byte text.now }
{
    text.iter().take_while(|byte| is_name_byte(**byte)).count()
}

/// Counts the digits at the front of the text.
fn digit_len(text: &[u8]) -> usize
    ensures { result ≡ prefix_len language.is_digit text.now }
{
    text.iter().take_while(|byte| is_digit(**byte)).count()
}

/// The bytes as text, if they are UTF-8.
fn text_of(bytes: &[u8]) -> Option<&str>
    ensures { MatchOption result (IsUtf8 bytes.now → ⊥) (λ text. text.now ≡ bytes.now) }
{
    str::from_utf8(bytes).ok()
}

/// The number that the text says, if it is in range.
fn number_of(text: &str) -> Option<i64>
    requires { IsTrue (is_integer_text text.now) }
    ensures { option_map language.integer result ≡ integer_at text.now }
{
    text.parse().ok()
}

/// The word in front of the text, and its length.
fn word(text: &[u8]) -> Option<(Token, usize)>
    requires { IsTrue (begins_word text.now) }
    ensures { IsFront plain_in_front text.now result }
{
    let len = word_len(text);
    let name = Name::new(text_of(&text[..len])?).ok()?;
    Some((Token::Word(name), len))
}

/// Whether the text begins with `->`.
fn begins_arrow(text: &[u8]) -> bool
    ensures { result ≡ begins_arrow text.now }
{
    text.len() > 1 && text[0] == b'-' && text[1] == b'>'
}

/// The number in front of the text, and its length.
fn integer(text: &[u8]) -> Option<(Token, usize)>
    requires begins { IsTrue (begins_integer text.now) }
    requires no_arrow { begins_arrow text.now ≡ false }
    ensures { IsFront plain_in_front text.now result }
{
    let len = 1 + digit_len(&text[1..]);
    let number = number_of(text_of(&text[..len])?)?;
    Some((Token::Integer(number), len))
}

/// The operator or the punctuation in front of the text, and its length.
fn sign(text: &[u8]) -> Option<(Token, usize)>
    requires { 0 < length text.now }
    ensures { IsFront sign_in_front text.now result }
{
    match text {
        [b'!', b'=', ..] => Some((Token::Operator(Op::Ne), 2)),
        [b'<', b'=', ..] => Some((Token::Operator(Op::Le), 2)),
        [b'>', b'=', ..] => Some((Token::Operator(Op::Ge), 2)),
        [b'(', ..] => Some((Token::OpenParen, 1)),
        [b')', ..] => Some((Token::CloseParen, 1)),
        [b',', ..] => Some((Token::Comma, 1)),
        [b'=', ..] => Some((Token::Operator(Op::Eq), 1)),
        [b'<', ..] => Some((Token::Operator(Op::Lt), 1)),
        [b'>', ..] => Some((Token::Operator(Op::Gt), 1)),
        _ => None,
    }
}

/// The token in front of the text that is no text literal, and its length.
fn plain_token(text: &[u8]) -> Option<(Token, usize)>
    requires { 0 < length text.now }
    ensures { IsFront plain_in_front text.now result }
{
    let first = text[0];
    if is_lower(first) {
        word(text)
    } else if begins_arrow(text) {
        Some((Token::Arrow, 2))
    } else if is_digit(first) || first == b'-' {
        integer(text)
    } else {
        sign(text)
    }
}

/// The value of a text behind its first quote, and how many bytes follow its last one.
fn quoted(alloc: Global, text: &str) -> Result<Option<(String, usize)>, NoMemory>
    ensures { IfOk result (λ found. MatchOption found (quoted_in text.now ≡ None)
        (λ q. (rest : List ℕ) × (quoted_in text.now ≡ Some (string_bytes q.0, rest)) × (q.1 ≡ length rest))) }
{
    let mut value = String::new(alloc);
    let mut rest = text;
    while let Some((piece, behind)) = rest.split_once('\'') {
        value.push_str(piece)?;
        let Some(more) = behind.strip_prefix('\'') else {
            return Ok(Some((value, behind.len())));
        };
        value.push('\'')?;
        rest = more;
    }
    Ok(None)
}

/// The text behind a quote, and how many bytes follow it.
fn text_token(alloc: Global, text: &str) -> Result<Option<(Token, usize)>, NoMemory>
    ensures { IfOk result (λ found. MatchOption found (text_at text.now ≡ None)
        (λ f. (rest : List ℕ) × (text_at text.now ≡ Some (token_view f.0, rest)) × (f.1 ≡ length rest))) }
{
    let Some((value, left)) = quoted(alloc, text)? else {
        return Ok(None);
    };
    match Text::new(alloc, value.as_str()) {
        Ok(text) => Ok(Some((Token::Text(text), left))),
        Err(TextFault::NoMemory) => Err(NoMemory),
        Err(_) => Ok(None),
    }
}

/// The token that begins with this quote, and its length.
fn text_at(alloc: Global, text: &str, at: usize) -> Result<Option<(Token, usize)>, NoMemory>
    requires within { at < length text.now }
    requires quote { slice_index text.now at ≡ 39 }
    ensures { IfOk result (λ found. IsFront token_in_front (drop at text.now) found) }
{
    match text_token(alloc, &text[at + 1..])? {
        Some((token, left)) => Ok(Some((token, text.len() - at - left))),
        None => Ok(None),
    }
}

/// The longest token at this offset of the text, and its length. `None` where there is no token.
pub fn token_at(alloc: Global, text: &str, at: usize) -> Result<Option<(Token, usize)>, NoMemory>
    requires { at < length text.now }
    ensures { IfOk result (λ found. IsFront token_in_front (drop at text.now) found) }
{
    let bytes = text.as_bytes();
    if bytes[at] == b'\'' {
        text_at(alloc, text, at)
    } else {
        Ok(plain_token(&bytes[at..]))
    }
}

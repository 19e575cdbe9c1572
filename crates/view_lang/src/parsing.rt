//! Reads a definition from its text: the text is cut into tokens, which are read rule by rule.
ghost use Rattle.std.specs.Prelude.{◌≡◌, ◌<◌, ◌≤◌, ◌+◌, ◌^◌, length, drop, IfOk};
ghost use Rattle.std.specs.List.{prefix_len};
ghost use Rattle.grammar_specs.specs.Tokens as language;
ghost use Rattle.grammar_laws.specs.Reading.{reading, cut as cut_of};
ghost use Rattle.view_lang.specs.Outcomes.{placed_view};
ghost use Rattle.view_lang.specs.Reads.{IsAnswerOf, Reads};

mod columns;
mod definitions;
mod expressions;
mod joining;
mod lexer;
mod limits;
mod predicates;
mod reader;
mod token;

use crate::definition::{Definition, LangFault};
use crate::parsing::lexer::{blank_len, token_at};
use crate::parsing::limits::limited;
use crate::parsing::reader::{Halt, Reader};
use crate::parsing::token::Token;
use lens_values::{NoMemory, Text};
use std::alloc::Global;
use std::collections::VecDeque;
use view_limits::Limit;

/// The most parentheses and "not"s that may be open at once.
const MAX_NESTING: usize = 32;

/// Skips whitespace from this offset on.
fn behind_blanks(text: &str, at: usize) -> usize
    requires { at ≤ length text.now }
    ensures { result ≡ at + prefix_len language.is_blank (drop at text.now) }
{
    at + blank_len(&text.as_bytes()[at..])
}

/// Cuts a text into tokens with their offsets, up to its end or to the offset of what is no token.
fn tokens_of(
    alloc: Global,
    text: &str,
) -> Result<(VecDeque<(usize, Token)>, Option<usize>), NoMemory>
    ensures { IfOk result (λ cut. (placed_view cut.0.items, cut.1) ≡ cut_of text.now) }
{
    let mut tokens = VecDeque::new(alloc);
    let mut at = behind_blanks(text, 0);
    while at < text.len() {
        let Some((token, len)) = token_at(alloc, text, at)? else {
            return Ok((tokens, Some(at)));
        };
        tokens.push_back((at, token))?;
        at = behind_blanks(text, at + len);
    }
    Ok((tokens, None))
}

fn read(alloc: Global, text: &str) -> Result<Definition, LangFault>
    ensures { Reads result (reading text.now) }
{
    let (tokens, wrong) = tokens_of(alloc, text)?;
    let mut reader = Reader { tokens };
    match reader.definition_alone(alloc, MAX_NESTING) {
        Ok(definition) => match wrong {
            Some(at) => Err(LangFault::Syntax { at }),
            None => limited(definition),
        },
        Err(Halt::Stopped) => {
            let at = reader.offset_or(wrong.unwrap_or(text.len()));
            Err(LangFault::Syntax { at })
        }
        Err(Halt::TooDeep) => Err(LangFault::TooLarge {
            what: Limit::Nesting,
        }),
        Err(Halt::NoMemory) => Err(LangFault::NoMemory),
    }
}

/// Reads a definition. `Syntax` with the offset of the first token that no definition can continue
/// with, or the length of the text where it ends too early; `TooLarge` with `Nesting`, `Columns` or
/// `Predicate`; or `NoMemory`.
pub fn parse(alloc: Global, text: &Text) -> Result<Definition, LangFault>
    ensures reads { Reads result (reading text.now) }
    // What the grammar has for the text.
    ensures answers { IsAnswerOf text.now result }

    // A text that is in memory has fewer bytes than there are addresses.
    ensures short { length text.now < 2 ^ 64 }
{
    read(alloc, text.as_str())
}

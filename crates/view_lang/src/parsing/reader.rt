//! The tokens of a text that are still to be read.
ghost use Rattle.std.specs.Prelude.{◌≡◌, option_map};
ghost use Rattle.std.specs.Bool.{then_some};
ghost use Rattle.grammar_specs.specs.Written.{is_column_of};
ghost use Rattle.grammar_laws.specs.DefRules as def;
ghost use Rattle.grammar_laws.specs.Steps.{next, behind, passing};
ghost use Rattle.grammar_laws.specs.Reading.{next_offset};
ghost use Rattle.grammar_laws.specs.Tests as tests;
ghost use Rattle.lens_pred.specs.Op.{op_view};
ghost use Rattle.view_lang.specs.declared.parsing.reader.Halt.TheVariants as halts;
ghost use Rattle.view_lang.specs.TokenViews.{token_view, is_sign};
ghost use Rattle.view_lang.specs.Outcomes.{reader_view, Takes, Needs};

use crate::parsing::columns::ReadColumns;
use crate::parsing::token::{Sign, Token, flag_named, join_kind_named, kind_named};
use lens_pred::Op;
use lens_values::{JoinKind, Kind, Name, NoMemory, Value};
use std::alloc::AllocFailed;
use std::collections::VecDeque;

/// Why a rule does not read on.
#[derive(Drop)]
pub enum Halt {
    /// The next token is none that the rule can go on with.
    Stopped,
    /// More parentheses and "not"s would be open than may be.
    TooDeep,
    /// Memory ran out.
    NoMemory,
}

impl From<NoMemory> for Halt {
    ghost from_gives = { λ _ why. why ≡ halts.NoMemory };

    fn from(_: NoMemory) -> Halt {
        Halt::NoMemory
    }
}

impl<T: Drop> From<AllocFailed<T>> for Halt {
    ghost from_gives = { λ _ why. why ≡ halts.NoMemory };

    fn from(_: AllocFailed<T>) -> Halt {
        Halt::NoMemory
    }
}

/// The tokens that are still to be read.
#[derive(Drop)]
pub struct Reader {
    /// Each token and the offset of its first byte. The next token is the first.
    pub tokens: VecDeque<(usize, Token)>,
}

impl Reader {
    /// The next token.
    pub fn next(&self) -> Option<&Token>
        ensures { option_map (λ t. token_view t.now) result ≡ next (reader_view self.now) }
    {
        self.tokens.front().map(|placed| &placed.1)
    }

    /// Moves past the next token.
    fn skip(&mut self)
        ensures { reader_view self.new ≡ behind (reader_view self.old) }
    {
        let _ = self.tokens.pop_front();
    }

    /// Reads this sign, if it is next.
    pub fn take(&mut self, sign: Sign) -> bool
        ensures { Takes (passing (is_sign sign)) self.old self.new (then_some result tt) }
    {
        match self.next() {
            Some(token) if token.is(sign) => {
                self.skip();
                true
            }
            _ => false,
        }
    }

    /// Reads this word, if it is next.
    pub fn take_word(&mut self, word: &str) -> bool
        ensures { Takes (passing (tests.is_keyword word.now)) self.old self.new (then_some result tt) }
    {
        match self.next() {
            Some(token) if token.is_keyword(word) => {
                self.skip();
                true
            }
            _ => false,
        }
    }

    /// Reads a name, if one is next.
    pub fn take_name(&mut self) -> Option<Name>
        ensures { Takes tests.free_in self.old self.new result }
    {
        let name = self.next()?.name()?;
        self.skip();
        Some(name)
    }

    /// Reads a name that is none of these columns, if one is next.
    pub fn take_new_name(&mut self, columns: &ReadColumns) -> Option<Name>
        ensures { Takes (def.new_name columns.now) self.old self.new result }
    {
        let name = self.next()?.name()?;
        if columns.has(&name) {
            return None;
        }
        self.skip();
        Some(name)
    }

    /// Reads a truth value, if one is next.
    pub fn take_flag(&mut self) -> Option<bool>
        ensures { Takes tests.flag_in self.old self.new result }
    {
        let Token::Word(word) = self.next()? else {
            return None;
        };
        let flag = flag_named(word.as_str())?;
        self.skip();
        Some(flag)
    }

    /// Reads the operator of a comparison, if one is next.
    pub fn take_op(&mut self) -> Option<Op>
        ensures { Takes tests.op_in self.old self.new (option_map op_view result) }
    {
        let Token::Operator(op) = *self.next()? else {
            return None;
        };
        self.skip();
        Some(op)
    }

    /// Reads a kind, if one is next.
    pub fn take_kind(&mut self) -> Option<Kind>
        ensures { Takes tests.kind_in self.old self.new result }
    {
        let Token::Word(word) = self.next()? else {
            return None;
        };
        let kind = kind_named(word.as_str())?;
        self.skip();
        Some(kind)
    }

    /// Reads the word that begins a join, if one is next.
    pub fn take_join_kind(&mut self) -> Option<JoinKind>
        ensures { Takes tests.join_kind_in self.old self.new result }
    {
        let Token::Word(word) = self.next()? else {
            return None;
        };
        let kind = join_kind_named(word.as_str())?;
        self.skip();
        Some(kind)
    }

    /// Reads a literal, if one is next.
    pub fn take_literal(&mut self) -> Option<Value>
        ensures { Takes tests.literal_in self.old self.new result }
    {
        if !self.next()?.is_literal() {
            return None;
        }
        self.tokens.pop_front()?.1.into_literal()
    }

    /// Reads a literal or null, if one is next.
    pub fn take_fill(&mut self) -> Option<Value>
        ensures { Takes tests.fill_in self.old self.new result }
    {
        if self.take_word("null") {
            return Some(Value::Null);
        }
        self.take_literal()
    }

    /// Reads this sign. `Stopped` where it is not next.
    pub fn need(&mut self, sign: Sign) -> Result<(), Halt>
        ensures { Needs (passing (is_sign sign)) self.old self.new result }
    {
        self.take(sign).then_some(()).ok_or(Halt::Stopped)
    }

    /// Reads a literal. `Stopped` where none is next.
    pub fn need_literal(&mut self) -> Result<Value, Halt>
        ensures { Needs tests.literal_in self.old self.new result }
    {
        self.take_literal().ok_or(Halt::Stopped)
    }

    /// Reads this word. `Stopped` where it is not next.
    pub fn need_word(&mut self, word: &str) -> Result<(), Halt>
        ensures { Needs (passing (tests.is_keyword word.now)) self.old self.new result }
    {
        self.take_word(word).then_some(()).ok_or(Halt::Stopped)
    }

    /// Reads a name. `Stopped` where none is next.
    pub fn need_name(&mut self) -> Result<Name, Halt>
        ensures { Needs tests.free_in self.old self.new result }
    {
        self.take_name().ok_or(Halt::Stopped)
    }

    /// The offset of the next token, or this one where none is left.
    pub fn offset_or(&self, end: usize) -> usize
        ensures { result ≡ next_offset (reader_view self.now) end }
    {
        self.tokens.front().map_or(end, |placed| placed.0)
    }
}

//! Tokens written one after another, with spaces between them.
ghost use Rattle.std.specs.Prelude.{◌≡◌, [], ◌∷◌, ◌++◌, OnOk, IsTrue, false, string_bytes};
ghost use Rattle.grammar_specs.specs.Tokens as token;
ghost use Rattle.grammar_specs.specs.Printing.{token_bytes};
ghost use Rattle.grammar_specs.specs.Written.{literal};
ghost use Rattle.lens_pred.specs.Op.{op_view};
ghost use Rattle.view_lang.specs.PrintAdds.{blank, before_item, Puts, Adds};

use crate::words::{flag_word, operator_sign};
use lens_pred::Op;
use lens_values::{Name, NoMemory, Value};
use std::alloc::Global;

/// A text to which tokens are added.
#[derive(Drop)]
pub(crate) struct Printer {
    /// What is written so far.
    pub(crate) text: String,
    // Whether the next token follows without a space: at the start, and after an open parenthesis.
    glued: bool,
}

impl Printer {
    /// Nothing is written yet.
    pub(crate) fn new(alloc: Global) -> Printer
        ensures text { string_bytes result.text ≡ [] }
        ensures glued { IsTrue result.glued }
    {
        let text = String::new(alloc);
        Printer { text, glued: true }
    }

    pub(crate) fn word(&mut self, word: &str) -> Result<(), NoMemory>
        ensures { OnOk result (Adds self.old self.new (token.word word.now ∷ [])) }
    {
        self.put(word)
    }

    pub(crate) fn name(&mut self, name: &Name) -> Result<(), NoMemory>
        ensures { OnOk result (Adds self.old self.new (token.word name.now ∷ [])) }
    {
        self.put(name.as_str())
    }

    /// A literal, or null.
    pub(crate) fn literal(&mut self, value: &Value) -> Result<(), NoMemory>
        ensures { OnOk result (Adds self.old self.new (literal value.now ∷ [])) }
    {
        self.space()?;
        match value {
            Value::Null => self.text.push_str("null")?,
            Value::Int(number) => write!(self.text, "{number}")?,
            Value::Text(text) => push_quoted(&mut self.text, text.as_str())?,
            Value::Flag(flag) => self.text.push_str(flag_word(*flag))?,
        }
        self.glued = false;
        Ok(())
    }

    /// The operator of a comparison.
    pub(crate) fn operator(&mut self, op: Op) -> Result<(), NoMemory>
        ensures { OnOk result (Adds self.old self.new (token.operator (op_view op) ∷ [])) }
    {
        self.put(operator_sign(op))
    }

    pub(crate) fn arrow(&mut self) -> Result<(), NoMemory>
        ensures { OnOk result (Adds self.old self.new (token.arrow ∷ [])) }
    {
        self.put("->")
    }

    pub(crate) fn open(&mut self) -> Result<(), NoMemory>
        ensures { OnOk result (Adds self.old self.new (token.open_paren ∷ [])) }
    {
        self.put("(")?;
        self.glued = true;
        Ok(())
    }

    pub(crate) fn close(&mut self) -> Result<(), NoMemory>
        ensures { OnOk result (Adds self.old self.new (token.close_paren ∷ [])) }
    {
        self.glue(")")
    }

    pub(crate) fn comma(&mut self) -> Result<(), NoMemory>
        ensures { OnOk result (Adds self.old self.new (token.comma ∷ [])) }
    {
        self.glue(",")
    }

    /// `,` before every item but the first.
    pub(crate) fn comma_between(&mut self, index: usize) -> Result<(), NoMemory>
        ensures { OnOk result (Adds self.old self.new (before_item index token.comma)) }
    {
        if index == 0 { Ok(()) } else { self.comma() }
    }

    /// The word before every item but the first.
    pub(crate) fn word_between(&mut self, index: usize, word: &str) -> Result<(), NoMemory>
        ensures { OnOk result (Adds self.old self.new (before_item index (token.word word.now))) }
    {
        if index == 0 { Ok(()) } else { self.word(word) }
    }

    // A space, unless the next token is glued to the last.
    fn space(&mut self) -> Result<(), NoMemory>
        ensures { OnOk result (Puts self.old self.new (blank self.old.glued) self.old.glued) }
    {
        if !self.glued {
            self.text.push(' ')?;
        }
        Ok(())
    }

    // A token of this spelling that is neither opened nor closed.
    fn put(&mut self, spelling: &str) -> Result<(), NoMemory>
        ensures { OnOk result (Puts self.old self.new
            (blank self.old.glued ++ spelling.now) false) }
    {
        self.space()?;
        self.glue(spelling)
    }

    // A token of this spelling that closes.
    fn glue(&mut self, spelling: &str) -> Result<(), NoMemory>
        ensures { OnOk result (Puts self.old self.new spelling.now false) }
    {
        self.text.push_str(spelling)?;
        self.glued = false;
        Ok(())
    }
}

// Adds the value between quotes, with each quote in it written twice.
fn push_quoted(text: &mut String, value: &str) -> Result<(), NoMemory>
    ensures { OnOk result (string_bytes text.new
        ≡ string_bytes text.old ++ token_bytes (token.text value.now)) }
{
    text.push('\'')?;
    for c in value.chars() {
        if c == '\'' {
            text.push(c)?;
        }
        text.push(c)?;
    }
    Ok(text.push('\'')?)
}

//! The text, and the tokens that it takes.
ghost use Rattle.std.specs.Prelude.{◌≡◌, [], ◌∷◌, ◌++◌, IfOk, OnOk, decimal, false, true};
ghost use Rattle.std.specs.Fmt.{signed_decimal};
ghost use Rattle.json.specs.Print.{escape, quoted};
ghost use Rattle.json.specs.Token.{begin_array, begin_object, boolean, end_array, end_object, key, null, number, string};
ghost use Rattle.json_text.specs.Written.{Adds, AddsBytes, comma};

use crate::placing::{are_plain, place, place_byte};
use json::Writer;
use no_memory::NoMemory;
use plain_values::Name;
use std::alloc::Global;
use std::marker::Model;
use std::mem;

// How many bytes the buffer has. They join the text when it is full, so that few tokens cost a call
// of the text's vector.
const BUFFER: usize = 256;

// A longer text is left to json's writer, which tests many bytes at once.
const SHORT: usize = 32;

/// JSON text that grows at its end. It places the commas and the colons, and leaves the nesting to
/// its caller. A contract sees its bytes, and whether a value has just ended.
#[derive(Drop)]
pub struct JsonText {
    alloc: Global,
    text: Vec<u8>,
    // Its first `len` bytes come after those of `text`.
    buffer: [u8; 256],
    len: usize,
    // Whether a value has just ended. Then a comma comes before the next value or member.
    after_value: bool,
}

impl Model for JsonText {
    ghost use Rattle.std.specs.Prelude.{◌≤◌, ◌++◌, take};
    ghost use Rattle.json_text.specs.Written.{Written, written_code};

    ghost Value = { Written };

    ghost coded = { written_code };

    ghost view = { λ t. record { bytes = t.text.items ++ take t.len t.buffer; after_value = t.after_value } };

    ghost invariant = { λ t. t.len ≤ 256 };
}

impl JsonText {
    /// An empty text, with room for `room` bytes, or `NoMemory`.
    pub fn new(alloc: Global, room: usize) -> Result<JsonText, NoMemory>
        ensures bytes { IfOk result (λ text. text.bytes ≡ []) }
        ensures after_value { IfOk result (λ text. text.after_value ≡ false) }
    {
        Ok(JsonText {
            alloc,
            text: Vec::with_capacity(alloc, room)?,
            buffer: [0; 256],
            len: 0,
            after_value: false,
        })
    }

    /// The bytes of the text, or `NoMemory`.
    pub fn into_bytes(self) -> Result<Vec<u8>, NoMemory>
        ensures { IfOk result (λ bytes. bytes.items ≡ self.bytes) }
    {
        let JsonText {
            mut text,
            buffer,
            len,
            ..
        } = self;
        text.extend_from_slice(&buffer[..len])?;
        Ok(text)
    }

    /// Begins an object. `NoMemory` is the only error of this and of each other token.
    pub fn begin_object(&mut self) -> Result<(), NoMemory>
        ensures { OnOk result (Adds self.old self.new (begin_object ∷ [])) }
    {
        self.begin(b'{')
    }

    /// Ends an object.
    pub fn end_object(&mut self) -> Result<(), NoMemory>
        ensures { OnOk result (Adds self.old self.new (end_object ∷ [])) }
    {
        self.end(b'}')
    }

    /// Begins an array.
    pub fn begin_array(&mut self) -> Result<(), NoMemory>
        ensures { OnOk result (Adds self.old self.new (begin_array ∷ [])) }
    {
        self.begin(b'[')
    }

    /// Ends an array.
    pub fn end_array(&mut self) -> Result<(), NoMemory>
        ensures { OnOk result (Adds self.old self.new (end_array ∷ [])) }
    {
        self.end(b']')
    }

    /// The name of a member, of any bytes.
    pub fn key(&mut self, name: &str) -> Result<(), NoMemory>
        ensures { OnOk result (Adds self.old self.new (key name.now ∷ [])) }
    {
        self.put_comma()?;
        self.put_quoted(name)?;
        self.put_byte(b':')?;
        self.after_value = false;
        Ok(())
    }

    /// The name of a column as that of a member. It needs no escape, and is not tested for one.
    pub fn name_key(&mut self, name: &Name) -> Result<(), NoMemory>
        ensures { OnOk result (Adds self.old self.new (key name.now ∷ [])) }
    {
        self.put_comma()?;
        self.put_plain(name.as_bytes())?;
        self.put_byte(b':')?;
        self.after_value = false;
        Ok(())
    }

    /// A text.
    pub fn string(&mut self, text: &str) -> Result<(), NoMemory>
        ensures { OnOk result (Adds self.old self.new (string text.now ∷ [])) }
    {
        self.put_comma()?;
        self.put_quoted(text)?;
        self.after_value = true;
        Ok(())
    }

    /// A number.
    pub fn u64(&mut self, n: u64) -> Result<(), NoMemory>
        ensures { OnOk result (Adds self.old self.new (number (decimal n) ∷ [])) }
    {
        let mut buffer = itoa::Buffer::new();
        self.word(buffer.format(n))
    }

    /// A number, which may be below zero.
    pub fn i64(&mut self, n: i64) -> Result<(), NoMemory>
        ensures { OnOk result (Adds self.old self.new (number (signed_decimal n) ∷ [])) }
    {
        let mut buffer = itoa::Buffer::new();
        self.word(buffer.format(n))
    }

    /// True or false.
    pub fn boolean(&mut self, flag: bool) -> Result<(), NoMemory>
        ensures { OnOk result (Adds self.old self.new (boolean flag ∷ [])) }
    {
        if flag {
            self.word("true")
        } else {
            self.word("false")
        }
    }

    /// Null.
    pub fn null(&mut self) -> Result<(), NoMemory>
        ensures { OnOk result (Adds self.old self.new (null ∷ [])) }
    {
        self.word("null")
    }

    // Adds a bracket that begins a value.
    fn begin(&mut self, bracket: u8) -> Result<(), NoMemory>
        ensures { OnOk result (AddsBytes self.old self.new (comma self.old ++ bracket ∷ []) false) }
    {
        self.put_comma()?;
        self.put_byte(bracket)?;
        self.after_value = false;
        Ok(())
    }

    // Adds a bracket that ends a value.
    fn end(&mut self, bracket: u8) -> Result<(), NoMemory>
        ensures { OnOk result (AddsBytes self.old self.new (bracket ∷ []) true) }
    {
        self.put_byte(bracket)?;
        self.after_value = true;
        Ok(())
    }

    // Adds a value that is one word without quotes.
    #[inline(always)]
    fn word(&mut self, word: &str) -> Result<(), NoMemory>
        ensures { OnOk result (AddsBytes self.old self.new (comma self.old ++ word.now) true) }
    {
        self.put_comma()?;
        self.put(word.as_bytes())?;
        self.after_value = true;
        Ok(())
    }

    // The comma before the next value or member, if a value has just ended.
    #[inline(always)]
    fn put_comma(&mut self) -> Result<(), NoMemory>
        ensures { OnOk result
            (AddsBytes self.old self.new (comma self.old) self.old.after_value) }
    {
        if self.after_value {
            return self.put_byte(b',');
        }
        Ok(())
    }

    // A text in quotes.
    fn put_quoted(&mut self, text: &str) -> Result<(), NoMemory>
        ensures { OnOk result
            (AddsBytes self.old self.new (quoted text.now) self.old.after_value) }
    {
        if text.len() <= SHORT && are_plain(text.as_bytes()) {
            return self.put_plain(text.as_bytes());
        }
        self.put_escaped(text)
    }

    // A text in quotes that needs no escape.
    #[inline(always)]
    fn put_plain(&mut self, text: &[u8]) -> Result<(), NoMemory>
        requires { escape text.now ≡ text.now }
        ensures { OnOk result
            (AddsBytes self.old self.new (quoted text.now) self.old.after_value) }
    {
        self.put_byte(b'"')?;
        self.put(text)?;
        self.put_byte(b'"')
    }

    // A text in quotes, escaped by json's writer.
    #[inline(never)]
    fn put_escaped(&mut self, text: &str) -> Result<(), NoMemory>
        ensures { OnOk result
            (AddsBytes self.old self.new (quoted text.now) self.old.after_value) }
    {
        self.text.extend_from_slice(&self.buffer[..self.len])?;
        self.len = 0;
        let mut out = Writer::new(mem::replace(&mut self.text, Vec::new(self.alloc)));
        out.string(text)?;
        self.text = out.into_inner();
        Ok(())
    }

    // Bytes as they are.
    #[inline(always)]
    fn put(&mut self, bytes: &[u8]) -> Result<(), NoMemory>
        ensures { OnOk result (AddsBytes self.old self.new bytes.now self.old.after_value) }
    {
        if bytes.len() > BUFFER - self.len {
            return self.flush_and_append(bytes);
        }
        self.len = place(&mut self.buffer, self.len, bytes);
        Ok(())
    }

    // One byte as it is.
    #[inline(always)]
    fn put_byte(&mut self, byte: u8) -> Result<(), NoMemory>
        ensures { OnOk result (AddsBytes self.old self.new (byte ∷ []) self.old.after_value) }
    {
        if self.len == BUFFER {
            return self.flush_and_append(&[byte]);
        }
        self.len = place_byte(&mut self.buffer, self.len, byte);
        Ok(())
    }

    // Appends the bytes of the buffer to the text, and these bytes after them.
    #[cold]
    #[inline(never)]
    fn flush_and_append(&mut self, bytes: &[u8]) -> Result<(), NoMemory>
        ensures { OnOk result (AddsBytes self.old self.new bytes.now self.old.after_value) }
    {
        self.text.extend_from_slice(&self.buffer[..self.len])?;
        self.len = 0;
        self.text.extend_from_slice(bytes)?;
        Ok(())
    }
}

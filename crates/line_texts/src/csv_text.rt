//! Rows as CSV.
ghost use Rattle.std.specs.Prelude.{◌≡◌, ℕ, List, IfOk, string_bytes};

use no_memory::NoMemory;
use std::alloc::Global;
use std::marker::Model;

/// Rows as CSV, in a text of any length. A contract sees its bytes.
#[derive(Drop)]
pub struct CsvText {
    text: String,
}

impl Model for CsvText {
    ghost Value = { List ℕ };

    ghost view = { λ c. string_bytes c.text };
}

impl CsvText {
    /// The CSV of these bytes.
    pub fn new(text: String) -> CsvText
        ensures { result ≡ string_bytes text }
    {
        CsvText { text }
    }

    /// A copy of the text, or `NoMemory`.
    pub fn copy_of(alloc: Global, text: &str) -> Result<CsvText, NoMemory>
        ensures { IfOk result (λ csv. csv ≡ text.now) }
    {
        Ok(CsvText::new(String::from_str(alloc, text)?))
    }

    /// The CSV as text.
    pub fn as_str(&self) -> &str
        ensures { result.now ≡ self.now }
    {
        self.text.as_str()
    }
}

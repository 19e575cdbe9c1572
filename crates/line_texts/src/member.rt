//! Names of members of JSON objects.
ghost use Rattle.std.specs.Prelude.{◌≡◌, ℕ, List, IfOk, string_bytes};

use no_memory::NoMemory;
use std::alloc::Global;
use std::marker::Model;

/// The name of a member, of any length. A contract sees its bytes.
#[derive(Drop)]
pub struct Member {
    text: String,
}

impl Model for Member {
    ghost Value = { List ℕ };

    ghost view = { λ m. string_bytes m.text };
}

impl Member {
    /// The name of these bytes.
    pub fn new(text: String) -> Member
        ensures { result ≡ string_bytes text }
    {
        Member { text }
    }

    /// The name of these bytes, with a copy of the text, or `NoMemory`.
    pub fn copy_of(alloc: Global, text: &str) -> Result<Member, NoMemory>
        ensures { IfOk result (λ member. member ≡ text.now) }
    {
        Ok(Member::new(String::from_str(alloc, text)?))
    }

    /// The name as text.
    pub fn as_str(&self) -> &str
        ensures { result.now ≡ self.now }
    {
        self.text.as_str()
    }
}

//! Keys that are marked, by their hashes.
ghost use Rattle.std.specs.Prelude.{◌≡◌, true, false, OnOk};
ghost use Rattle.key_index.specs.Marks.{StayMarked, is_marked};

use lens_values::NoMemory;
use std::alloc::Global;
use std::collections::BTreeSet;

/// The hashes of keys.
#[derive(Drop)]
pub struct Marks {
    hashes: BTreeSet<u64>,
}

impl Marks {
    /// No key is marked.
    pub fn new(alloc: Global) -> Marks
        ensures { (hash : _) → is_marked result hash ≡ false }
    {
        Marks {
            hashes: BTreeSet::new(alloc),
        }
    }

    /// Whether a key with this hash is marked.
    pub fn has(&self, hash: u64) -> bool
        ensures { result ≡ is_marked self.now hash }
    {
        self.hashes.contains(&hash)
    }

    /// Marks the keys with this hash. After `NoMemory` they are not.
    pub fn add(&mut self, hash: u64) -> Result<(), NoMemory>
        ensures ok { OnOk result (is_marked self.new hash ≡ true) }
        ensures stay { StayMarked self.old self.new }
    {
        let _new = self.hashes.insert(hash)?;
        Ok(())
    }

    /// Takes all marks away.
    pub fn clear(&mut self)
        ensures { (hash : _) → is_marked self.new hash ≡ false }
    {
        self.hashes.clear();
    }
}

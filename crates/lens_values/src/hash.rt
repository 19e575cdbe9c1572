//! A hash of values, to which equal values add the same.
ghost use Rattle.std.specs.Prelude.{◌≡◌, fold, length};
ghost use Rattle.lens_values.specs.Hash.{hash_number, hash_value};

use plain_values::Value;

// What a hash is multiplied by for each number that it takes in: the prime 2^40 + 435.
const FACTOR: u64 = 1_099_511_628_211;

// What null adds to a hash: the number of the least `i64`, which few columns have.
const NULL: u64 = 1 << 63;

/// The hash after one more value. Texts add their length too, so that those of two columns differ
/// where only the border between them does.
pub fn hash_value(hash: u64, value: &Value) -> u64
    ensures { result ≡ hash_value hash value.now }
{
    match value {
        Value::Null => hash_number(hash, NULL),
        Value::Int(number) => hash_number(hash, number.cast_unsigned()),
        Value::Text(text) => hash_bytes(hash, text.as_str().as_bytes()),
        Value::Flag(flag) => hash_number(hash, u64::from(*flag)),
    }
}

/// The hash after one more number, modulo 2^64.
#[tactic(auto, unfolding(crate::specs::Hash::hash_number))]
pub fn hash_number(hash: u64, number: u64) -> u64
    ensures { result ≡ hash_number hash number }
{
    hash.wrapping_mul(FACTOR).wrapping_add(number)
}

// The hash after the number of the bytes, and each of them.
fn hash_bytes(hash: u64, bytes: &[u8]) -> u64
    ensures { result ≡ fold hash_number (hash_number hash (length bytes.now)) bytes.now }
{
    let mut longer = hash_number(hash, bytes.len() as u64);
    for byte in bytes {
        longer = hash_number(longer, u64::from(*byte));
    }
    longer
}

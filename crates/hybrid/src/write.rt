// What is written.

ghost use Rattle.std.specs.Prelude.{◌≡◌, ◌≤◌, ℕ, List, Option, cond, length};
ghost use Rattle.std.specs.Option.{option_copied};
ghost use Rattle.records.specs.Records.{value_bytes};
ghost use Rattle.hybrid.specs.Writing.{write_weight};

use records::{KEY_BYTES_MAX, PAGE_SIZE};
use words::limits::WEIGHT_OF_KEY;

/// A write: a key, and its new value, or none where the key is deleted.
///
/// Callers keep writes as it suits them, so this is a trait: a list of any type that has it can be
/// installed.
pub trait Write {
    // The key's bytes.
    ghost key: { Self → List ℕ };

    // The bytes of the new value, or none.
    ghost value: { Self → Option (List ℕ) };

    /// The key.
    fn key(&self) -> &[u8]
        ensures { result.now ≡ key self.now };

    /// The new value, or `None` where the key is deleted.
    fn value(&self) -> Option<&[u8]>
        ensures { option_copied result ≡ value self.now };
}

// The length of a value, 0 for a tombstone.
#[inline]
pub(crate) fn length_of(value: Option<&[u8]>) -> usize
    ensures { result ≡ length (value_bytes (option_copied value.entry)) }
{
    match value {
        Some(bytes) => bytes.len(),
        None => 0,
    }
}

// What a write weighs, where it is made.
pub(crate) fn weight_if(made: bool, key: &[u8], value: Option<&[u8]>) -> usize
    requires key { length key.now ≤ KEY_BYTES_MAX }
    requires value { length (value_bytes (option_copied value)) ≤ PAGE_SIZE }
    ensures { result ≡ cond made (write_weight key.now (option_copied value.entry)) 0 }
{
    if made {
        WEIGHT_OF_KEY + key.len() + length_of(value)
    } else {
        0
    }
}

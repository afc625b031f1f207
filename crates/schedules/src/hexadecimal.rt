//! Bytes of a schedule, in hexadecimal: lower case, two digits a byte.

ghost use Rattle.std.specs.Prelude.{◌≡◌, ◌<◌, List, ℕ, [], ◌∷◌, IfOk, MatchOption};
ghost use Rattle.std.specs.Char.{is_ascii_uppercase};
ghost use Rattle.std.specs.List.{list_any};
ghost use Rattle.hex.specs.Hex.{encode_lower, IsBytes};

use hex::FromHexError;
use std::alloc::{AllocError, Global};
use words::word::OutOfMemory;

/// Whether a text has a letter in upper case.
fn has_upper_case(text: &[u8]) -> bool
    ensures { result ≡ list_any is_ascii_uppercase text.now }
{
    text.iter().any(|byte| byte.is_ascii_uppercase())
}

/// The bytes that a text spells, or `None` where it spells none.
pub(crate) fn bytes_of(alloc: Global, text: &[u8]) -> Result<Option<Vec<u8>>, OutOfMemory>
    ensures { IfOk result (λ found. MatchOption found
        ((bytes : List ℕ) → IsBytes bytes → text.now ≡ encode_lower bytes → ⊥)
        (λ bytes. IsBytes bytes.items × (text.now ≡ encode_lower bytes.items))) }
{
    if has_upper_case(text) {
        return Ok(None);
    }
    match hex::decode(alloc, text) {
        Ok(bytes) => Ok(Some(bytes)),
        Err(fault) => match fault {
            FromHexError::OutOfMemory => Err(AllocError),
            _ => Ok(None),
        },
    }
}

/// The one byte that a text spells, or `None` where it spells none, or several.
pub(crate) fn byte_of(text: &[u8]) -> Option<u8>
    ensures { MatchOption result
        ((byte : ℕ) → byte < 256 → text.now ≡ encode_lower (byte ∷ []) → ⊥)
        (λ byte. (byte < 256) × (text.now ≡ encode_lower (byte ∷ []))) }
{
    if has_upper_case(text) {
        return None;
    }
    let mut bytes = [0];
    hex::decode_to_slice(text, &mut bytes).ok()?;
    Some(bytes[0])
}

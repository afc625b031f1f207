//! The hash of a key, and which stripe a key belongs to.

ghost use Rattle.std.specs.Prelude.{◌≡◌, ◌<◌, ◌%◌};
ghost use Rattle.words.specs.Stripes as stripes;

use crate::limits::STRIPES_DEFAULT;
use crate::word::Word;
use std::marker::Model;

/// The offset basis of FNV-1a of 64 bits.
const OFFSET_BASIS: u64 = 14_695_981_039_346_656_037;
/// The prime of FNV-1a of 64 bits.
const PRIME: u64 = 1_099_511_628_211;

/// The hash of a key: FNV-1a of 64 bits, by Fowler, Noll and Vo.
pub fn hash_of(key: &[u8]) -> u64
    ensures { result ≡ stripes.hash_of key.now }
{
    let mut hash = OFFSET_BASIS;
    for byte in key {
        hash = (hash ^ u64::from(*byte)).wrapping_mul(PRIME);
    }
    hash
}

/// The stripe of a hash, of this many: the hash modulo the number of stripes.
#[inline]
fn stripe_at(hash: u64, count: usize) -> usize
    requires { 0 < count }
    ensures stripe { result ≡ hash % count }
    ensures below { result < count }
{
    // The default count compiles to a mask, others to a division.
    let stripe = if count == STRIPES_DEFAULT {
        hash % STRIPES_DEFAULT as u64
    } else {
        hash % count as u64
    };
    stripe as usize
}

/// The stripe of a key, of this many: its hash modulo the number of stripes.
pub fn stripe_of(key: &[u8], count: usize) -> usize
    requires { 0 < count }
    ensures stripe { result ≡ stripes.stripe_of count key.now }
    ensures below { result < count }
{
    stripe_at(hash_of(key), count)
}

/// A key with its hash, which is computed once: its stripe and its bucket there go by it. Contracts see it as the key's
/// bytes.
#[derive(Drop)]
pub struct Hashed<'a> {
    key: &'a Word,
    hash: u64,
}

impl<'a> Model for Hashed<'a> {
    ghost use Rattle.std.specs.Prelude.{ℕ, List, ◌≡◌};
    ghost use Rattle.words.specs.Stripes.{hash_of};

    ghost Value = { List ℕ };

    ghost view = { λ hashed. hashed.key.now };

    ghost invariant = { λ hashed. hashed.hash ≡ hash_of hashed.key.now };
}

impl<'a> Hashed<'a> {
    /// This key, whose hash is computed here.
    pub fn new(key: &'a Word) -> Hashed<'a>
        ensures { result ≡ key.now }
    {
        Hashed {
            key,
            hash: hash_of(key.as_slice()),
        }
    }

    /// The key.
    #[inline]
    pub fn key(&self) -> &'a Word
        ensures { result.now ≡ self.now }
    {
        self.key
    }

    /// Its hash.
    #[inline]
    pub fn hash(&self) -> u64
        ensures { result ≡ stripes.hash_of self.now }
    {
        self.hash
    }

    /// Its stripe, of this many.
    #[inline]
    pub fn stripe_of(&self, count: usize) -> usize
        requires { 0 < count }
        ensures stripe { result ≡ stripes.stripe_of count self.now }
        ensures below { result < count }
    {
        stripe_at(self.hash, count)
    }
}

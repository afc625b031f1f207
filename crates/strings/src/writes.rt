//! Writes: keys, each with its new value, or none where it is deleted.

ghost use Rattle.std.specs.Prelude.{◌≡◌, ◌≤◌, ◌<◌, ◌+◌, ◌-◌, ◌^◌, ◌++◌, ◌∷◌, [], ◌↔◌, length, min, None, option_copied, unwrap_or, OnOk, OnErr, IsOk, IsNone, IfSome, MatchOption};
ghost use Rattle.std.specs.Str.{bytes_eq};
ghost use Rattle.words.specs.declared.limits.TheConstants.{WEIGHT_MAX, WEIGHT_OF_KEY};
ghost use Rattle.words.specs.Store.{Store, written, writes_key, weight};

use smallvec::SmallVec;
use std::alloc::Global;
use std::default::MadeWith;
use std::marker::Model;
use words::limits::{WEIGHT_MAX, WEIGHT_OF_KEY};
use words::word::{OutOfMemory, Word};

/// How many writes are held without an allocation.
pub const WRITES_INLINE: usize = 1;

/// A write: a key and its new value, or none where the key is deleted. Contracts see it as the pair.
#[derive(Debug, Drop)]
pub struct Write {
    key: Word,
    value: Option<Word>,
}

impl Model for Write {
    ghost use Rattle.std.specs.Prelude.{List, ℕ, Option};

    ghost Value = { List ℕ × Option (List ℕ) };

    ghost view = { λ write. (write.key, write.value) };
}

impl Write {
    /// The write of this value to this key; `None` deletes it.
    pub fn new(key: Word, value: Option<Word>) -> Write
        ensures { result ≡ (key, value) }
    {
        Write { key, value }
    }

    /// The key.
    pub fn key(&self) -> &Word
        ensures { result.now ≡ self.now.0 }
    {
        &self.key
    }

    /// Whether it writes this key.
    pub(crate) fn is_to(&self, key: &[u8]) -> bool
        ensures { result ≡ bytes_eq self.now.0 key.now }
    {
        self.key.as_slice() == key
    }

    /// The new value.
    pub fn value(&self) -> Option<&Word>
        ensures { option_copied result ≡ self.now.1 }
    {
        self.value.as_ref()
    }

    /// The key and the new value. It takes no memory.
    pub fn into_parts(self) -> (Word, Option<Word>)
        ensures { result ≡ self }
    {
        let Write { key, value } = self;
        (key, value)
    }
}

impl MadeWith<Global> for Write {
    ghost is_made_with = { λ write. write ≡ ([], None) };

    fn made_with(alloc: Global) -> Write {
        Write {
            key: Word::empty(alloc),
            value: None,
        }
    }
}

/// Writes, in order. Contracts see them as the list.
#[derive(Debug, Drop)]
pub struct Writes {
    items: SmallVec<Write, 1>,
}

impl Model for Writes {
    ghost use Rattle.std.specs.Prelude.{List, ℕ, Option, ◌≤◌};
    ghost use Rattle.strings.specs.declared.writes.TheConstants.{WRITES_INLINE};

    ghost Value = { List (List ℕ × Option (List ℕ)) };

    ghost view = { λ writes. writes.items.items };

    ghost invariant = { λ writes. WRITES_INLINE ≤ writes.items.capacity };
}

impl Writes {
    /// No writes. It takes no memory.
    pub fn new(alloc: Global) -> Writes
        ensures { result ≡ [] }
    {
        Writes {
            items: SmallVec::new(alloc),
        }
    }

    /// One write more. It takes memory only past [`WRITES_INLINE`].
    pub fn push(&mut self, write: Write) -> Result<(), OutOfMemory>
        ensures ok { OnOk result (self.new ≡ self.old ++ write ∷ []) }
        ensures err { OnErr result (self.new ≡ self.old) }
        ensures inline { length self.old < WRITES_INLINE → IsOk result }
    {
        self.items.push(write)?;
        Ok(())
    }

    /// The writes, in order.
    pub fn as_slice(&self) -> &[Write]
        ensures { result.now ≡ self.now }
    {
        self.items.as_slice()
    }

    /// Gives the list back. It takes no memory.
    pub fn into_small_vec(self) -> SmallVec<Write, 1>
        ensures { result.items ≡ self }
    {
        let Writes { items } = self;
        items
    }

    /// What the writes weigh, in bytes: for each key that they write, its length and that of its last new
    /// value, and `WEIGHT_OF_KEY` more. `None` where that is more than a call may write, [`WEIGHT_MAX`].
    pub fn weight(&self) -> Option<usize>
        ensures heavy { IsNone result ↔ (WEIGHT_MAX < weight self.now) }
        ensures sum { IfSome result (λ sum. sum ≡ weight self.now) }
    {
        weight_within(self.as_slice())
    }
}

/// What writes weigh, unless that is more than a call may write.
fn weight_within(writes: &[Write]) -> Option<usize>
    ensures heavy { IsNone result ↔ (WEIGHT_MAX < weight writes.now) }
    ensures sum { IfSome result (λ sum. sum ≡ weight writes.now) }
{
    let mut sum: usize = 0;
    let mut rest = writes;
    while let Some((write, others)) = rest.split_first() {
        if !writes_to(others, write.key()) {
            sum = sum.saturating_add(weight_of(write));
        }
        if sum > WEIGHT_MAX {
            return None;
        }
        rest = others;
    }
    Some(sum)
}

/// What the last write of a key weighs, as far as a number can tell.
fn weight_of(write: &Write) -> usize
    ensures { result ≡ min (WEIGHT_OF_KEY + length write.now.0 + length (unwrap_or write.now.1 [])) (2 ^ 64 - 1) }
{
    let size = match write.value() {
        Some(value) => value.len(),
        None => 0,
    };
    (WEIGHT_OF_KEY + write.key().as_slice().len()).saturating_add(size)
}

/// Whether one of the writes is to the key.
pub fn writes_to(writes: &[Write], key: &Word) -> bool
    ensures { result ≡ writes_key writes.now key.now }
{
    for write in writes {
        if write.is_to(key.as_slice()) {
            return true;
        }
    }
    false
}

/// The last write of a key, if there is one.
pub(crate) fn newest<'a>(writes: &'a [Write], key: &[u8]) -> Option<&'a Write>
    ensures { MatchOption result ((store : Store) → written store writes.now key.now ≡ store key.now) (λ write. (store : Store) → written store writes.now key.now ≡ write.now.1) }
{
    let mut rest = writes;
    while let Some((write, others)) = rest.split_last() {
        if write.is_to(key) {
            return Some(write);
        }
        rest = others;
    }
    None
}

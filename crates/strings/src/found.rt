//! What was found of keys: for each the value that it has, or that it is missing.

ghost use Rattle.std.specs.Prelude.{◌≡◌, ◌≤◌, ◌<◌, ◌++◌, ◌∷◌, [], length, None, option_copied, OnOk, OnErr, IsOk, MatchOption};
ghost use Rattle.std.specs.Str.{bytes_eq};
ghost use Rattle.words.specs.Store.{Store, empty, written};

use smallvec::SmallVec;
use std::alloc::Global;
use std::default::MadeWith;
use std::marker::Model;
use words::word::OutOfMemory;

/// How many keys are held without an allocation.
pub const FOUND_INLINE: usize = 2;

/// A key and the value that was found of it, both lent. Contracts see it as the pair.
#[derive(Debug, Drop)]
pub struct Finding<'a> {
    key: &'a [u8],
    value: Option<&'a [u8]>,
}

impl<'a> Model for Finding<'a> {
    ghost use Rattle.std.specs.Prelude.{List, ℕ, Option, option_copied};

    ghost Value = { List ℕ × Option (List ℕ) };

    ghost view = { λ finding. (finding.key.now, option_copied finding.value) };
}

impl<'a> Finding<'a> {
    /// Whether it was found of this key.
    fn is_of(&self, key: &[u8]) -> bool
        ensures { result ≡ bytes_eq self.now.0 key.now }
    {
        self.key == key
    }

    /// The value that was found.
    fn value(&self) -> Option<&[u8]>
        ensures { option_copied result ≡ self.now.1 }
    {
        self.value
    }
}

impl<'a> MadeWith<Global> for Finding<'a> {
    ghost is_made_with = { λ finding. finding ≡ ([], None) };

    fn made_with(alloc: Global) -> Finding<'a> {
        // An empty one keeps nothing.
        let _ = alloc;
        Finding {
            key: &[],
            value: None,
        }
    }
}

/// What was found of keys, in order. Contracts see it as the list of the pairs.
#[derive(Debug, Drop)]
pub struct Findings<'a> {
    items: SmallVec<Finding<'a>, 2>,
}

impl<'a> Model for Findings<'a> {
    ghost use Rattle.std.specs.Prelude.{List, ℕ, Option, ◌≤◌};
    ghost use Rattle.strings.specs.declared.found.TheConstants.{FOUND_INLINE};

    ghost Value = { List (List ℕ × Option (List ℕ)) };

    ghost view = { λ findings. findings.items.items };

    ghost invariant = { λ findings. FOUND_INLINE ≤ findings.items.capacity };
}

impl<'a> Findings<'a> {
    /// Nothing found. It takes no memory.
    pub fn new(alloc: Global) -> Findings<'a>
        ensures { result ≡ [] }
    {
        Findings {
            items: SmallVec::new(alloc),
        }
    }

    /// One key more, with the value that was found of it, or that it is missing. It takes memory only
    /// past [`FOUND_INLINE`] keys.
    pub fn push(&mut self, key: &'a [u8], value: Option<&'a [u8]>) -> Result<(), OutOfMemory>
        ensures ok { OnOk result (self.new ≡ self.old ++ (key.entry.now, option_copied value.entry) ∷ []) }
        ensures err { OnErr result (self.new ≡ self.old) }
        ensures inline { length self.old < FOUND_INLINE → IsOk result }
    {
        self.items.push(Finding { key, value })?;
        Ok(())
    }

    /// The value that was found of a key; `None` where it is missing, or was not looked for. Of a key that
    /// stands twice the later value counts.
    pub fn value(&self, key: &[u8]) -> Option<&[u8]>
        ensures { option_copied result ≡ written empty self.now key.now }
    {
        match newest(self.items.as_slice(), key) {
            Some(finding) => finding.value(),
            None => None,
        }
    }
}

/// The last finding of a key, if there is one.
fn newest<'f, 'a>(findings: &'f [Finding<'a>], key: &[u8]) -> Option<&'f Finding<'a>>
    ensures { MatchOption result ((store : Store) → written store findings.now key.now ≡ store key.now) (λ finding. (store : Store) → written store findings.now key.now ≡ finding.now.1) }
{
    let (finding, others) = findings.split_last()?;
    if finding.is_of(key) {
        Some(finding)
    } else {
        newest(others, key)
    }
}

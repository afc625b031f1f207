//! The overlay of a call.

ghost use Rattle.std.specs.Prelude.{◌≡◌, [], ◌∷◌, ◌++◌, option_copied, OnOk, OnErr, IsOk};
ghost use Rattle.words.specs.Answers.{is_some};
ghost use Rattle.words.specs.Commands.{IsInline};
ghost use Rattle.strings.specs.Overlays.{shown, HasRoom};

use crate::found::Findings;
use crate::writes::{Write, Writes, newest};
use std::alloc::Global;
use words::word::{OutOfMemory, Word};

/// What was found of a call's keys, and the writes that the call made since. It shows a store at the
/// keys that were found.
#[derive(Debug, Drop)]
pub struct Overlay<'a> {
    /// What was found of the keys.
    pub found: Findings<'a>,
    /// The writes made since.
    pub writes: Writes,
}

impl<'a> Overlay<'a> {
    /// An overlay with no keys and no writes. It takes no memory.
    pub fn new(alloc: Global) -> Overlay<'a>
        ensures found { result.found ≡ [] }
        ensures writes { result.writes ≡ [] }
    {
        Overlay {
            found: Findings::new(alloc),
            writes: Writes::new(alloc),
        }
    }

    /// The value of a key in the store that the overlay shows.
    pub fn value(&self, key: &[u8]) -> Option<&[u8]>
        ensures { option_copied result ≡ shown self.now key.now }
    {
        match newest(self.writes.as_slice(), key) {
            Some(write) => write.value().map(|value| value.as_slice()),
            None => self.found.value(key),
        }
    }

    /// Whether a key is there in the store that the overlay shows.
    pub fn has(&self, key: &[u8]) -> bool
        ensures { result ≡ is_some (shown self.now key.now) }
    {
        self.value(key).is_some()
    }

    /// Writes a value to a key; `None` deletes it. It takes memory for a key of more than `WORD_INLINE`
    /// bytes, and past the writes that are held without an allocation.
    pub fn write(
        &mut self,
        alloc: Global,
        key: &Word,
        value: Option<Word>,
    ) -> Result<(), OutOfMemory>
        ensures writes { OnOk result (self.new.writes ≡ self.old.writes ++ (key.now, value) ∷ []) }
        ensures err { OnErr result (self.new.writes ≡ self.old.writes) }
        ensures found { self.new.found ≡ self.old.found }
        ensures memory { HasRoom self.old → IsInline key.now → IsOk result }
    {
        let key = Word::from_slice(alloc, key.as_slice())?;
        self.writes.push(Write::new(key, value))
    }
}

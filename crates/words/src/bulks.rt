//! Values as a reply spells them.

ghost use Rattle.std.specs.Prelude.{◌≡◌, ◌+◌, ◌≤◌, [], ◌∷◌, ◌++◌, length, Some, None, OnOk, OnErr, option_copied, vec_len, vec_capacity};
ghost use Rattle.std.specs.List.{flat_map};
ghost use Rattle.words.specs.Answers.{item_of};
ghost use Rattle.words.specs.Encoding.{item_encoding};

use crate::word::OutOfMemory;
use itoa::Buffer;
use std::alloc::Global;
use std::marker::Model;
use std::snapshot::Snapshot;

/// The values of some keys, in order, as the reply to an MGET spells them: a bulk string each, and the
/// null bulk string where a key is missing. They lie one after the other in one piece of memory.
/// Contracts see the items.
#[derive(Drop)]
pub struct Bulks {
    text: Vec<u8>,
    count: usize,
    told: Told,
}

// The items, the newest first. A value is what the text has after a call more than before it.
#[derive(Drop)]
enum Told {
    Nothing,
    Null(Snapshot<Told>),
    Value(Snapshot<Vec<u8>>, Snapshot<Vec<u8>>, Snapshot<Told>),
}

impl Model for Bulks {
    ghost use Rattle.std.specs.Prelude.{List};
    ghost use Rattle.words.specs.declared.reply.Item.{Item};

    ghost Value = { List Item };

    ghost use Rattle.words.specs.Bulks.{told_in, Spells};

    ghost view = { λ b. told_in b.told };

    ghost invariant = { λ b. Spells (told_in b.told) b.text.items b.count };
}

impl Bulks {
    /// None yet, with room for so many bytes, or with none where that was refused: then it grows.
    pub fn with_room(alloc: Global, bytes: usize) -> Bulks
        ensures { result ≡ [] }
    {
        let text = match Vec::with_capacity(alloc, bytes) {
            Ok(text) => text,
            Err(_) => Vec::new(alloc),
        };
        Bulks {
            text,
            count: 0,
            told: Told::Nothing,
        }
    }

    /// Adds the value of a key, or the null bulk string where it is missing. After an `Err` nothing has
    /// changed.
    pub fn push(&mut self, value: Option<&[u8]>) -> Result<(), OutOfMemory>
        ensures ok { OnOk result (self.new ≡ self.old ++ item_of (option_copied value.entry) ∷ []) }
        ensures err { OnErr result (self.new ≡ self.old) }
    {
        match value {
            Some(bytes) => self.push_value(bytes),
            None => self.push_null(),
        }
    }

    /// Adds a value.
    fn push_value(&mut self, bytes: &[u8]) -> Result<(), OutOfMemory>
        ensures ok { OnOk result (self.new ≡ self.old ++ item_of (Some bytes.now) ∷ []) }
        ensures err { OnErr result (self.new ≡ self.old) }
    {
        let mut buffer = Buffer::new();
        let digits = buffer.format(bytes.len()).as_bytes();
        self.text.reserve(bytes.len() + digits.len() + 5)?;
        put(b"$", &mut self.text);
        put(digits, &mut self.text);
        put(b"\r\n", &mut self.text);
        let before = Snapshot::of(&self.text);
        put(bytes, &mut self.text);
        let after = Snapshot::of(&self.text);
        put(b"\r\n", &mut self.text);
        self.told = Told::Value(before, after, Snapshot::of(&self.told));
        self.count += 1;
        Ok(())
    }

    /// Adds the null bulk string.
    fn push_null(&mut self) -> Result<(), OutOfMemory>
        ensures ok { OnOk result (self.new ≡ self.old ++ item_of None ∷ []) }
        ensures err { OnErr result (self.new ≡ self.old) }
    {
        self.text.extend_from_slice(b"$-1\r\n")?;
        self.told = Told::Null(Snapshot::of(&self.told));
        self.count += 1;
        Ok(())
    }

    /// How many there are.
    pub fn len(&self) -> usize
        ensures { result ≡ length self.now }
    {
        self.count
    }

    /// Their bytes.
    pub fn text(&self) -> &[u8]
        ensures { result.now ≡ flat_map item_encoding self.now }
    {
        self.text.as_slice()
    }
}

/// Appends a part, for which there is room.
#[inline]
fn put(part: &[u8], text: &mut Vec<u8>)
    requires { vec_len text.old + length part.now ≤ vec_capacity text.old }
    ensures items { text.new.items ≡ text.old.items ++ part.now }
    ensures len { vec_len text.new ≡ vec_len text.old + length part.now }
    ensures capacity { vec_capacity text.old ≤ vec_capacity text.new }
{
    let Ok(()) = text.extend_from_slice(part) else {
        unreachable!()
    };
}

//! What a key has, said as it is found.

ghost use Rattle.std.specs.Prelude.{◌≡◌, ◌+◌, ◌≤◌, [], ◌∷◌, ◌++◌, ◌↔◌, length, IsSome, IfSome, IfNone, vec_len, vec_capacity};
ghost use Rattle.std.specs.Option.{option_copied};
ghost use Rattle.words.specs.Answers.{item_of};
ghost use Rattle.words.specs.Encoding.{encoding};
ghost use Rattle.words.specs.Session.{value_reply};
ghost use Rattle.words.specs.Spelling.{header};

use itoa::Buffer;
use std::marker::Model;
use std::snapshot::Snapshot;

/// What a key has, whose bulk string, or the null bulk string, was appended to a buffer. It holds none of its bytes: contracts see the
/// value.
#[derive(Drop)]
pub struct Said {
    is_there: bool,
    before: Snapshot<Vec<u8>>,
    after: Snapshot<Vec<u8>>,
}

impl Model for Said {
    ghost use Rattle.std.specs.Prelude.{ℕ, List, Option};

    ghost Value = { Option (List ℕ) };

    ghost use Rattle.resp_write.specs.Said.{value_said};

    ghost view = { λ said. value_said said.is_there said.before.value.items said.after.value.items };
}

/// The items of a reply, as what the keys of an MGET have, whose bulk strings were appended to a buffer, one after the other. It holds none
/// of their bytes: contracts see the items.
#[derive(Drop)]
pub struct SaidAll {
    told: Told,
}

// What was said, the newest first.
#[derive(Drop)]
enum Told {
    Nothing,
    More(Said, Snapshot<Told>),
}

impl Model for SaidAll {
    ghost use Rattle.std.specs.Prelude.{List};
    ghost use Rattle.words.specs.declared.reply.Item.{Item};

    ghost Value = { List Item };

    ghost use Rattle.resp_write.specs.Said.{told_in};

    ghost view = { λ said. told_in said.told };
}

impl SaidAll {
    /// Begins a reply of so many items: appends the header of an array, if the buffer then holds at most `limit` bytes. It takes no
    /// memory.
    #[inline]
    #[tactic(auto, using(crate::proofs::SaidLengths::header_len))]
    pub fn begin(count: usize, limit: usize, out: &mut Vec<u8>) -> Option<SaidAll>
        requires room { limit ≤ vec_capacity out.old }
        requires held { vec_len out.old ≤ limit }
        ensures fits { IsSome result ↔ (vec_len out.old + length (header 42 count) ≤ limit) }
        ensures none { IfSome result (λ said. said ≡ []) }
        ensures done { IfSome result (λ said. out.new.items ≡ out.old.items ++ header 42 count) }
        ensures full { IfNone result (out.new.items ≡ out.old.items) }
        ensures no_more { IfNone result (vec_capacity out.new ≡ vec_capacity out.old) }
        ensures capacity { vec_capacity out.old ≤ vec_capacity out.new }
    {
        let mut buffer = Buffer::new();
        let digits = buffer.format(count).as_bytes();
        if digits.len() + 3 > limit - out.len() {
            return None;
        }
        put(b"*", out);
        put(digits, out);
        put(b"\r\n", out);
        Some(SaidAll {
            told: Told::Nothing,
        })
    }

    /// Adds what was said of the next key.
    #[inline]
    pub fn push(&mut self, said: Said)
        ensures { self.new ≡ self.old ++ item_of said ∷ [] }
    {
        self.told = Told::More(said, Snapshot::of(&self.told));
    }
}

/// Appends what a key has, where it lies, as a bulk string, or the null bulk string where it has nothing, if there is room for it. It
/// takes no memory.
#[inline]
pub fn say_within(value: Option<&[u8]>, out: &mut Vec<u8>) -> Option<Said>
    ensures fits { IsSome result ↔ (vec_len out.old + length (encoding (value_reply (option_copied value.entry))) ≤ vec_capacity out.old) }
    ensures said { IfSome result (λ said. said ≡ option_copied value.entry) }
    ensures done { IfSome result (λ said. out.new.items ≡ out.old.items ++ encoding (value_reply said)) }
    ensures full { IfNone result (out.new.items ≡ out.old.items) }
    ensures no_more { IfNone result (vec_capacity out.new ≡ vec_capacity out.old) }
    ensures capacity { vec_capacity out.old ≤ vec_capacity out.new }
{
    let limit = out.capacity();
    say_up_to(value, limit, out)
}

/// Appends what a key has, as [`say_within`] does, if the buffer then holds at most `limit` bytes.
#[inline]
pub fn say_up_to(value: Option<&[u8]>, limit: usize, out: &mut Vec<u8>) -> Option<Said>
    requires room { limit ≤ vec_capacity out.old }
    requires held { vec_len out.old ≤ limit }
    ensures fits { IsSome result ↔ (vec_len out.old + length (encoding (value_reply (option_copied value.entry))) ≤ limit) }
    ensures said { IfSome result (λ said. said ≡ option_copied value.entry) }
    ensures done { IfSome result (λ said. out.new.items ≡ out.old.items ++ encoding (value_reply said)) }
    ensures full { IfNone result (out.new.items ≡ out.old.items) }
    ensures no_more { IfNone result (vec_capacity out.new ≡ vec_capacity out.old) }
    ensures capacity { vec_capacity out.old ≤ vec_capacity out.new }
{
    match value {
        Some(bytes) => say_bytes(bytes, limit, out),
        None => say_null(limit, out),
    }
}

/// Appends a value.
#[inline]
#[tactic(auto, using(crate::proofs::SaidLengths::said_len))]
fn say_bytes(bytes: &[u8], limit: usize, out: &mut Vec<u8>) -> Option<Said>
    requires room { limit ≤ vec_capacity out.old }
    requires held { vec_len out.old ≤ limit }
    ensures fits { IsSome result ↔ (vec_len out.old + length (encoding (value_reply (Some bytes.now))) ≤ limit) }
    ensures said { IfSome result (λ said. said ≡ Some bytes.now) }
    ensures done { IfSome result (λ said. out.new.items ≡ out.old.items ++ encoding (value_reply (Some bytes.now))) }
    ensures full { IfNone result (out.new.items ≡ out.old.items) }
    ensures no_more { IfNone result (vec_capacity out.new ≡ vec_capacity out.old) }
    ensures capacity { vec_capacity out.old ≤ vec_capacity out.new }
{
    let mut buffer = Buffer::new();
    let digits = buffer.format(bytes.len()).as_bytes();
    if bytes.len() + digits.len() + 5 > limit - out.len() {
        return None;
    }
    put(b"$", out);
    put(digits, out);
    put(b"\r\n", out);
    let before = Snapshot::of(out);
    put(bytes, out);
    let after = Snapshot::of(out);
    put(b"\r\n", out);
    Some(Said {
        is_there: true,
        before,
        after,
    })
}

/// Appends the null bulk string.
#[tactic(auto, unfolding(words::specs::Encoding::encoding, words::specs::Encoding::command_reply_encoding, words::specs::Encoding::item_encoding))]
fn say_null(limit: usize, out: &mut Vec<u8>) -> Option<Said>
    requires room { limit ≤ vec_capacity out.old }
    requires held { vec_len out.old ≤ limit }
    ensures fits { IsSome result ↔ (vec_len out.old + length (encoding (value_reply None)) ≤ limit) }
    ensures said { IfSome result (λ said. said ≡ None) }
    ensures done { IfSome result (λ said. out.new.items ≡ out.old.items ++ encoding (value_reply None)) }
    ensures full { IfNone result (out.new.items ≡ out.old.items) }
    ensures no_more { IfNone result (vec_capacity out.new ≡ vec_capacity out.old) }
    ensures capacity { vec_capacity out.old ≤ vec_capacity out.new }
{
    if limit - out.len() < 5 {
        return None;
    }
    put(b"$-1\r\n", out);
    Some(Said {
        is_there: false,
        before: Snapshot::of(out),
        after: Snapshot::of(out),
    })
}

/// Appends a part, for which there is room.
#[inline]
fn put(part: &[u8], out: &mut Vec<u8>)
    requires { vec_len out.old + length part.now ≤ vec_capacity out.old }
    ensures items { out.new.items ≡ out.old.items ++ part.now }
    ensures len { vec_len out.new ≡ vec_len out.old + length part.now }
    ensures capacity { vec_capacity out.old ≤ vec_capacity out.new }
{
    let Ok(()) = out.extend_from_slice(part) else {
        unreachable!()
    };
}

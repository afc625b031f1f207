//! The pieces in which the bytes of a client came.

ghost use Rattle.std.specs.Prelude.{◌≡◌, ◌+◌, ◌≤◌, ◌<◌, ◌^◌, ◌⊎◌, ℕ, List, [], ◌++◌, length, take, drop, slice_get, option_copied, IsOk, IfOk, IfErr, OnOk, OnErr, IfSome};
ghost use Rattle.words.specs.declared.word.TheConstants.{WORD_INLINE};
ghost use Rattle.resp_read.specs.Pieces.{joined, as_piece, without, AreFilled};

use crate::oldest::Oldest;
use bytes::Bytes;
use smallvec::SmallVec;
use std::alloc::{AllocError, Global};
use std::collections::VecDeque;
use std::marker::Model;

/// Bytes from several pieces, copied into one run: what a word is made of.
pub(crate) type Gathered = SmallVec<u8, 22>;

/// The smaller of two numbers.
#[inline]
pub(crate) fn least(a: usize, b: usize) -> usize
    ensures first { result ≤ a }
    ensures second { result ≤ b }
    ensures one { (result ≡ a) ⊎ (result ≡ b) }
{
    if a < b { a } else { b }
}

/// What is still to be gathered: `count` bytes, past the next `from`.
#[derive(Clone, Copy)]
struct Wanted {
    from: usize,
    count: usize,
}

impl Wanted {
    /// Gathers what it wants of the next bytes.
    fn gather(&mut self, gathered: &mut Gathered, bytes: &[u8])
        requires { length gathered.old.items + self.old.count ≤ gathered.old.capacity }
        ensures goes_on { (more : List ℕ)
            → gathered.new.items ++ take self.new.count (drop self.new.from more)
            ≡ gathered.old.items ++ take self.old.count (drop self.old.from (bytes.now ++ more)) }
        ensures room { length gathered.new.items + self.new.count ≤ gathered.new.capacity }
    {
        let start = least(self.from, bytes.len());
        let rest = &bytes[start..];
        let count = least(self.count, rest.len());
        let Ok(()) = gathered.extend_from_slice(&rest[..count]) else {
            unreachable!()
        };
        self.from -= start;
        self.count -= count;
    }
}

/// Pieces of bytes, oldest first, none of them empty. Contracts see them as the list of their bytes.
///
/// The oldest stands beside the others, since nearly always it is the only one.
#[derive(Drop)]
pub(crate) struct Pieces {
    oldest: Oldest,
    later: VecDeque<Bytes>,
    /// How many bytes the pieces have together.
    held: usize,
}

impl Model for Pieces {
    ghost use Rattle.std.specs.Prelude.{ℕ, List, ◌++◌};
    ghost use Rattle.resp_read.specs.Pieces.{as_piece, ArePieces};

    ghost Value = { List (List ℕ) };

    ghost view = { λ pieces. as_piece pieces.oldest ++ pieces.later.items };

    ghost invariant = { λ pieces. ArePieces pieces.oldest pieces.later.items pieces.held };
}

impl Pieces {
    /// No pieces. It takes no memory.
    pub(crate) fn new(alloc: Global) -> Pieces
        ensures { result ≡ [] }
    {
        Pieces {
            oldest: Oldest::none(),
            later: VecDeque::new(alloc),
            held: 0,
        }
    }

    /// How many bytes the pieces have together.
    #[inline]
    pub(crate) fn held(&self) -> usize
        ensures { result ≡ length (joined self.now) }
    {
        self.held
    }

    /// The bytes of the oldest piece, or none where there is no piece.
    #[inline]
    pub(crate) fn oldest(&self) -> &[u8]
        ensures first { (more : List ℕ) × (joined self.now ≡ result.now ++ more) }
        ensures within { length result.now ≤ length (joined self.now) }
        ensures bound { length (joined self.now) < 2 ^ 64 }
    {
        let _held = self.held;
        self.oldest.as_slice()
    }

    /// Each of the pieces has bytes. It does nothing.
    #[inline(always)]
    pub(crate) fn are_filled(&self)
        ensures { AreFilled self.now }
    {
        let _held = self.held;
    }

    /// The piece with so many pieces before it.
    pub(crate) fn get(&self, index: usize) -> Option<&[u8]>
        ensures value { option_copied result ≡ slice_get self.now index }
        ensures filled { IfSome result (λ piece. 0 < length piece.now) }
    {
        if self.oldest.is_none() {
            return None;
        }
        if index == 0 {
            return Some(self.oldest.as_slice());
        }
        match self.later.get(index - 1) {
            Some(piece) => Some(piece.as_slice()),
            None => None,
        }
    }

    /// Puts a piece last. An empty one is not kept. Where there is no room for it and no memory, or
    /// the pieces together would have 2^64 bytes, it comes back.
    pub(crate) fn push(&mut self, piece: Bytes) -> Result<(), Bytes>
        ensures first { self.old ≡ [] → IsOk result }
        ensures ok { OnOk result (self.new ≡ self.old ++ as_piece piece) }
        ensures err { OnErr result (self.new ≡ self.old) }
        ensures returned { IfErr result (λ refused. refused ≡ piece) }
    {
        let Some(held) = self.held.checked_add(piece.len()) else {
            return Err(piece);
        };
        if piece.is_empty() {
            return Ok(());
        }
        if self.oldest.is_none() {
            self.oldest = Oldest::of(piece);
            self.held = held;
            return Ok(());
        }
        match self.later.push_back(piece) {
            Ok(()) => {
                self.held = held;
                Ok(())
            }
            Err(refused) => Err(refused.value),
        }
    }

    /// Takes so many bytes off the front.
    #[inline]
    pub(crate) fn skip(&mut self, count: usize)
        requires { count ≤ length (joined self.old) }
        ensures { self.new ≡ without count self.old }
    {
        self.held -= count;
        let mut left = count;
        while left >= self.oldest.len() {
            left -= self.oldest.len();
            match self.later.pop_front() {
                Some(piece) => self.oldest = Oldest::of(piece),
                None => {
                    self.oldest = Oldest::none();
                    return;
                }
            }
        }
        self.oldest.advance(left);
    }

    /// Copies `count` bytes, past the first `from`, whichever pieces they stand in. It takes memory once, and
    /// only where they are more than [`WORD_INLINE`].
    pub(crate) fn gather(
        &self,
        alloc: Global,
        from: usize,
        count: usize,
    ) -> Result<Gathered, AllocError>
        requires { from + count ≤ length (joined self.now) }
        ensures bytes { IfOk result (λ gathered.
            gathered.items ≡ take count (drop from (joined self.now))) }
        ensures inline { count ≤ WORD_INLINE → IsOk result }
    {
        let mut gathered = SmallVec::with_capacity(alloc, count)?;
        self.gather_into(&mut gathered, from, count);
        Ok(gathered)
    }

    /// Adds `count` bytes, past the first `from`, to what has room for them.
    fn gather_into(&self, gathered: &mut Gathered, from: usize, count: usize)
        requires within { from + count ≤ length (joined self.now) }
        requires room { length gathered.old.items + count ≤ gathered.old.capacity }
        ensures { gathered.new.items ≡ gathered.old.items ++ take count (drop from (joined self.now)) }
    {
        let mut wanted = Wanted { from, count };
        wanted.gather(gathered, self.oldest.as_slice());
        let mut index = 0;
        while let Some(piece) = self.later.get(index) {
            if wanted.count == 0 {
                return;
            }
            wanted.gather(gathered, piece.as_slice());
            index += 1;
        }
    }
}

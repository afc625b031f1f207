//! A client's bytes on their way to requests.

ghost use Rattle.std.specs.Prelude.{◌≡◌, ◌≤◌, ◌<◌, ◌⊎◌, [], ◌∷◌, ◌++◌, false, length, slice_get, option_copied, OnOk, OnErr, IsOk, IfOk, IfErr, IfSome, IfNone, OnSome, IsTrue, IsFalse};
ghost use Rattle.words.specs.Spelling.{spelling, bytes_of, IsRequest};
ghost use Rattle.words.specs.Stream.{front, Part, Whole};
ghost use Rattle.resp_read.specs.Pieces.{AreFilled, as_piece, joined};
ghost use Rattle.resp_read.specs.Unread.{unread, kept, HasTakenOff, KeepsWords, IsTakenUp, IsBetween};

use crate::lines::Line;
use crate::look::{Look, Rest, look_at_count, look_at_rest, look_at_word, word_at};
use crate::pieces::Pieces;
use crate::whole::request_in;
use bytes::Bytes;
use std::alloc::{AllocError, Global};
use std::marker::Model;
use thiserror::Error;
use words::limits::{PART_BYTES_MAX, WORDS_MAX};
use words::reply::ProtocolFault;
use words::stream_laws::part_is_a_beginning;
use words::word::{OutOfMemory, WORD_INLINE, WORDS_INLINE, Word, Words};

/// Why the reader gives no request.
#[derive(Clone, Copy, Debug, PartialEq, Eq, Error)]
pub enum ReadFault {
    /// The bytes are no request. The reader answers this from now on.
    #[error("protocol error")]
    Protocol(ProtocolFault),
    /// The allocator refused the room for the words of a whole request. It stays unread, and it can be
    /// tried again.
    #[error("out of memory")]
    OutOfMemory,
}

/// The bytes of one client that were fed and are not yet given as requests.
///
/// They are kept as the pieces that were fed. Of a request that has not come whole, the line of its
/// count and each whole word are taken off the pieces and kept as words, so they are not read again.
/// Contracts see the count and the words that were taken off, and the pieces that are left; `unread` is
/// what they stand for.
///
/// A request that stands whole in one piece is taken in one go. The bytes of a word are copied once, into
/// their place, when it has come whole in however many pieces, and not looked at before. What is looked at
/// again each time [`next`] is asked is a line that has not come whole, of at most 7 bytes, the length line
/// of a word that has not, of at most 8, and the first byte of its line end. Where memory was refused for a
/// word of a request that has not come whole, and only there, the word stays in the pieces until it can be
/// kept: [`lacks_memory`] tells it.
///
/// # Memory
///
/// Where [`next`] gives `None`, at most [`PART_BYTES_MAX`] bytes are left, 132,358, those of the words
/// that are kept counted in. No piece is empty, so there are no more pieces than bytes, and the list
/// takes 40 bytes for each, doubling as it grows. Where memory was not refused, what is left in the
/// pieces is a part of one line or of one word: at most 32,777 bytes.
///
/// A piece keeps the block alive that it was cut from. So whoever feeds pieces cuts many small ones from
/// one block, and uses a block again once none of its pieces is kept.
///
/// [`next`]: Reader::next
/// [`lacks_memory`]: Reader::lacks_memory
/// [`PART_BYTES_MAX`]: words::limits::PART_BYTES_MAX
#[derive(Drop)]
pub struct Reader {
    alloc: Global,
    pieces: Pieces,
    /// How many words of the request at the front are due; 0 before its count was taken off.
    due: usize,
    /// How many bytes the words of it have that were taken off.
    size: usize,
    words: Option<Words>,
    /// Whether memory was refused for the word at the front, for which the reader waits.
    lacks_memory: bool,
}

impl Model for Reader {
    ghost use Rattle.std.specs.Prelude.{◌≡◌, ◌+◌, length, false};
    ghost use Rattle.resp_read.specs.Unread.{Held, kept, IsBegun};

    ghost Value = { Held };

    ghost view = { λ reader. record { count = reader.due + length (kept reader.words); words = kept reader.words; pieces = reader.pieces; lacks_memory = reader.lacks_memory } };

    ghost invariant = { λ reader. IsBegun reader.due reader.size (kept reader.words) × (reader.due ≡ 0 → reader.lacks_memory ≡ false) };
}

/// What one step takes off the front.
#[derive(Drop)]
enum Step {
    /// A count, or a word. More is due.
    Goes,
    /// The last word of a request.
    Gives(Words),
    /// Nothing: a part of a request is left. It is a part of a line or of a word, or it begins with a whole
    /// word for which memory was refused.
    Waits { refused: bool },
    /// Nothing, and this is why.
    Fails(ReadFault),
}

impl Reader {
    ghost use Rattle.resp_read.specs.Faults.{TellsFault, IsTakenUpTo};
    ghost use Rattle.resp_read.specs.Looks.{HasWord};
    ghost use Rattle.resp_read.specs.Taking.{Takes, TakesWhole, TakesNext};

    /// A reader with nothing fed. It takes no memory.
    pub fn new(alloc: Global) -> Reader
        ensures unread { unread result ≡ [] }
        ensures none { result.pieces ≡ [] }
        ensures between { IsBetween result }
    {
        Reader {
            alloc,
            pieces: Pieces::new(alloc),
            due: 0,
            size: 0,
            words: None,
            lacks_memory: false,
        }
    }

    /// Adds a piece at the end. An empty one is not kept. Where there is no room for it and no memory,
    /// it comes back and the reader is unchanged. A reader that holds no piece has room for one, and so has
    /// one with nothing unread.
    pub fn feed(&mut self, piece: Bytes) -> Result<(), (Bytes, OutOfMemory)>
        ensures first { self.old.pieces ≡ [] → IsOk result }
        ensures none { unread self.old ≡ [] → IsOk result }
        ensures unread { OnOk result (unread self.new ≡ unread self.old ++ piece) }
        ensures last { OnOk result
            (self.new ≡ record self.old { pieces = self.old.pieces ++ as_piece piece }) }
        ensures err { OnErr result (self.new ≡ self.old) }
        ensures returned { IfErr result (λ refused. refused.0 ≡ piece) }
    {
        self.are_filled();
        match self.pieces.push(piece) {
            Ok(()) => Ok(()),
            Err(piece) => Err((piece, AllocError)),
        }
    }

    /// The piece with so many kept pieces before it, oldest first, without the bytes that were taken
    /// off. It takes no memory.
    pub fn piece(&self, index: usize) -> Option<&[u8]>
        ensures value { option_copied result ≡ slice_get self.now.pieces index }
        ensures filled { IfSome result (λ piece. 0 < length piece.now) }
    {
        self.pieces.get(index)
    }

    /// Whether nothing is unread: every byte that was fed was given.
    #[inline(always)]
    pub fn is_empty(&self) -> bool
        ensures none { IsTrue result → unread self.now ≡ [] }
        ensures between { IsTrue result → IsBetween self.now }
        ensures some { IsFalse result → 0 < length (unread self.now) }
    {
        self.due == 0 && self.pieces.held() == 0
    }

    /// Whether the reader waits with a whole word at the front of its pieces, since memory was refused for it
    /// when it was last asked. If allocation fails, the word stays buffered and is retried.
    pub fn lacks_memory(&self) -> bool
        ensures { result ≡ self.now.lacks_memory }
    {
        self.lacks_memory
    }

    /// Takes the first request and gives its words, or `None` where more bytes are due. After a
    /// protocol fault it answers the same for good, since the bytes stay.
    pub fn next(&mut self) -> Result<Option<Words>, ReadFault>
        ensures request { IfOk result (λ given. IfSome given (λ words. IsRequest words)) }
        ensures words { IfOk result (λ given. IfSome given (λ words.
            unread self.old ≡ spelling words ++ unread self.new)) }
        ensures whole { IfOk result (λ given. OnSome given
            (front (unread self.old) ≡ Whole (unread self.new))) }
        ensures none { IfOk result (λ given. IfNone given (front (unread self.old) ≡ Part)) }
        ensures waits { IfOk result (λ given. IfNone given (unread self.new ≡ unread self.old)) }
        ensures bounded { IfOk result (λ given. IfNone given
            (length (unread self.new) ≤ PART_BYTES_MAX)) }
        ensures fault { IfErr result (λ fault. TellsFault (unread self.old) fault) }
        ensures err { OnErr result (unread self.new ≡ unread self.old) }

        // Of the pieces only the front is taken off: whole lines and words, as they come, so none is
        // read again. A piece with no bytes left is not kept. What was taken off is kept until it is given.
        ensures pieces { HasTakenOff self.old self.new }
        ensures filled { AreFilled self.new.pieces }
        ensures between { IfOk result (λ given. OnSome given (IsBetween self.new)) }
        ensures takes_up { IfOk result (λ given. IfNone given (IsTakenUp self.new)) }
        ensures keeps { IfOk result (λ given. IfNone given (KeepsWords self.old self.new)) }
        ensures err_keeps { OnErr result (KeepsWords self.old self.new) }
        ensures err_takes_up { IfErr result (λ fault. IsTakenUpTo fault self.new) }
    {
        let mut words = Words::one(self.alloc, Word::empty(self.alloc));
        match self.next_into(&mut words) {
            Ok(true) => Ok(Some(words)),
            Ok(false) => Ok(None),
            Err(fault) => Err(fault),
        }
    }

    /// Takes the first request as [`next`] does, into the words of the caller, which serve from request to
    /// request, and answers true; or false where more bytes are due. On false or a fault, `words` is
    /// unspecified.
    ///
    /// [`next`]: Reader::next
    #[inline]
    pub fn next_into(&mut self, words: &mut Words) -> Result<bool, ReadFault>
        ensures request { IfOk result (λ given. IsTrue given → IsRequest words.new) }
        ensures words { IfOk result (λ given. IsTrue given →
            unread self.old ≡ spelling words.new ++ unread self.new) }
        ensures whole { IfOk result (λ given. IsTrue given →
            front (unread self.old) ≡ Whole (unread self.new)) }
        ensures none { IfOk result (λ given. IsFalse given → front (unread self.old) ≡ Part) }
        ensures waits { IfOk result (λ given. IsFalse given → unread self.new ≡ unread self.old) }
        ensures bounded { IfOk result (λ given. IsFalse given →
            length (unread self.new) ≤ PART_BYTES_MAX) }
        ensures fault { IfErr result (λ fault. TellsFault (unread self.old) fault) }
        ensures err { OnErr result (unread self.new ≡ unread self.old) }

        // What is taken off the pieces, and what is kept, as by `next`.
        ensures pieces { HasTakenOff self.old self.new }
        ensures filled { AreFilled self.new.pieces }
        ensures between { IfOk result (λ given. IsTrue given → IsBetween self.new) }
        ensures takes_up { IfOk result (λ given. IsFalse given → IsTakenUp self.new) }
        ensures keeps { IfOk result (λ given. IsFalse given → KeepsWords self.old self.new) }
        ensures err_keeps { OnErr result (KeepsWords self.old self.new) }
        ensures err_takes_up { IfErr result (λ fault. IsTakenUpTo fault self.new) }
    {
        self.are_filled();
        if self.is_empty() {
            return Ok(false);
        }
        if self.take_whole(words) {
            return Ok(true);
        }
        self.next_by_steps(words)
    }

    /// Each of the pieces has bytes. It does nothing.
    #[inline(always)]
    fn are_filled(&self)
        ensures { AreFilled self.now.pieces }
    {
        self.pieces.are_filled();
    }

    /// Takes the first request step by step.
    #[inline(never)]
    fn next_by_steps(&mut self, words: &mut Words) -> Result<bool, ReadFault>
        ensures takes { TakesNext self.old result words.new self.new }
        ensures bounded { IfOk result (λ given. IsFalse given →
            length (unread self.new) ≤ PART_BYTES_MAX) }
    {
        loop {
            match self.step() {
                Step::Goes => {}
                Step::Gives(given) => {
                    *words = given;
                    return Ok(true);
                }
                Step::Waits { refused } => {
                    part_is_a_beginning();
                    self.note(refused);
                    return Ok(false);
                }
                Step::Fails(fault) => {
                    self.note(false);
                    return Err(fault);
                }
            }
        }
    }

    /// Notes whether memory was refused for the word at the front.
    #[inline]
    fn note(&mut self, refused: bool)
        requires { IsTrue refused → 0 < self.old.count }
        ensures noted { self.new ≡ record self.old { lacks_memory = refused } }
        ensures unread { unread self.new ≡ unread self.old }
    {
        self.lacks_memory = refused;
    }

    /// Takes the first request, if nothing of it has been taken off, it stands whole in the oldest piece
    /// and there is memory for its words. It says whether it did. On false, `words` is unspecified.
    #[inline(always)]
    fn take_whole(&mut self, words: &mut Words) -> bool
        ensures { TakesWhole self.old result words.new self.new }
    {
        if self.due > 0 {
            return false;
        }
        let mut width = 0;
        if !request_in(self.alloc, self.pieces.oldest(), &mut width, words) {
            return false;
        }
        self.pieces.skip(width);
        true
    }

    /// Takes a count, or a word, off the front.
    #[inline]
    fn step(&mut self) -> Step
        ensures { Takes self.old result self.new }
    {
        if self.due == 0 {
            return self.take_count();
        }
        match look_at_word(self.alloc, &self.pieces, 0, self.size) {
            Look::Whole { start, long } => self.take_word(start, long),
            Look::Part => Step::Waits { refused: false },
            Look::Faulty(fault) => Step::Fails(ReadFault::Protocol(fault)),
        }
    }

    /// Takes the line of the count off the front.
    #[inline]
    fn take_count(&mut self) -> Step
        requires { self.old.count ≡ 0 }
        ensures { Takes self.old result self.new }
    {
        match look_at_count(self.alloc, &self.pieces) {
            Line::Number { value, width } => {
                self.pieces.skip(width);
                self.due = value;
                Step::Goes
            }
            Line::Part => Step::Waits { refused: false },
            Line::Faulty(fault) => Step::Fails(ReadFault::Protocol(fault)),
        }
    }

    /// Takes the word off the front that stands there, and keeps it.
    #[inline]
    fn take_word(&mut self, start: usize, long: usize) -> Step
        requires due { 0 < self.old.count }
        requires word { HasWord (joined self.old.pieces) (bytes_of self.old.words) start long }
        ensures { Takes self.old result self.new }
    {
        let Ok(word) = word_at(self.alloc, &self.pieces, start, long) else {
            return self.refused(start, long);
        };
        if let Err(_) = keep(&mut self.words, self.alloc, word) {
            return self.refused(start, long);
        }
        self.pieces.skip(start + long + 2);
        self.due -= 1;
        if self.due > 0 {
            self.size += long;
            return Step::Goes;
        }
        self.size = 0;
        self.lacks_memory = false;
        match self.words.take() {
            Some(words) => Step::Gives(words),
            None => unreachable!(),
        }
    }

    /// Tells what stands at the front where the word there found no memory, which is asked for only
    /// where the request is whole.
    #[cold]
    fn refused(&self, start: usize, long: usize) -> Step
        requires due { 0 < self.now.count }
        requires word { HasWord (joined self.now.pieces) (bytes_of self.now.words) start long }
        requires large { (WORD_INLINE < long) ⊎ (WORDS_INLINE ≤ length self.now.words) }
        ensures { Takes self.now result self.now }
    {
        let at = start + long + 2;
        match look_at_rest(self.alloc, &self.pieces, at, self.due - 1, self.size + long) {
            Rest::Whole => Step::Fails(ReadFault::OutOfMemory),
            Rest::Part => Step::Waits { refused: true },
            Rest::Faulty(fault) => Step::Fails(ReadFault::Protocol(fault)),
        }
    }
}

/// Keeps a word after those that are kept. It takes memory only past [`WORDS_INLINE`] words.
#[inline]
fn keep(words: &mut Option<Words>, alloc: Global, word: Word) -> Result<(), OutOfMemory>
    requires { length (kept words.old) < WORDS_MAX }
    ensures ok { OnOk result (kept words.new ≡ kept words.old ++ word ∷ []) }
    ensures err { OnErr result (words.new ≡ words.old) }
    ensures inline { length (kept words.old) < WORDS_INLINE → IsOk result }
{
    match words {
        Some(words) => {
            words.push(word)?;
            Ok(())
        }
        None => {
            *words = Some(Words::one(alloc, word));
            Ok(())
        }
    }
}

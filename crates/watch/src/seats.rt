//! The marks of one key, by seat.

ghost use Rattle.std.specs.Prelude.{◌≡◌, ℕ, true, false, None, Some, List, nat_eq, is_none, IsSome, IsOk, IfOk, OnOk, OnErr, if◌then◌else◌};
ghost use Rattle.words.specs.Watches.{touched};
ghost use Rattle.watch.specs.Marked.{mark_among, mark_of_seat, says_written, begun_if, cleared};

use std::alloc::Global;
use words::word::OutOfMemory;

/// That a seat watches a key, and whether the key was written since.
#[derive(Drop)]
pub(crate) struct Mark {
    seat: u64,
    written: bool,
}

/// The marks of one key: one of them or more.
#[derive(Drop)]
pub(crate) struct Seats {
    first: Mark,
    others: Vec<Mark>,
}

impl Seats {
    /// The mark of this seat alone, not written. It takes no memory.
    pub(crate) fn one(alloc: Global, seat: u64) -> Seats
        ensures { (s : ℕ) → mark_of_seat result s ≡ (if nat_eq seat s then Some false else None) }
    {
        Seats {
            first: Mark {
                seat,
                written: false,
            },
            others: Vec::new(alloc),
        }
    }

    /// The mark of a seat, if it has one: whether it is written.
    pub(crate) fn mark(&self, seat: u64) -> Option<bool>
        ensures { result ≡ mark_of_seat self.now seat }
    {
        if self.first.seat == seat {
            return Some(self.first.written);
        }
        mark_among(self.others.as_slice(), seat)
    }

    /// Whether the mark of a seat is written.
    pub(crate) fn is_written(&self, seat: u64) -> bool
        ensures { result ≡ says_written (mark_of_seat self.now seat) }
    {
        match self.mark(seat) {
            Some(written) => written,
            None => false,
        }
    }

    /// Puts a mark that is not written, where the seat has none, and answers whether it did.
    pub(crate) fn add(&mut self, seat: u64) -> Result<bool, OutOfMemory>
        ensures ok { OnOk result ((s : ℕ) → mark_of_seat self.new s ≡ begun_if (nat_eq seat s) (mark_of_seat self.old s)) }
        ensures added { IfOk result (λ added. added ≡ is_none (mark_of_seat self.old seat)) }
        ensures err { OnErr result ((s : ℕ) → mark_of_seat self.new s ≡ mark_of_seat self.old s) }
        ensures memory { IsSome (mark_of_seat self.old seat) → IsOk result }
    {
        if self.mark(seat).is_some() {
            return Ok(false);
        }
        self.others.push(Mark {
            seat,
            written: false,
        })?;
        Ok(true)
    }

    /// Makes each mark written.
    pub(crate) fn touch(&mut self)
        ensures { (s : ℕ) → mark_of_seat self.new s ≡ touched true (mark_of_seat self.old s) }
    {
        self.first.written = true;
        touch_all(&mut self.others);
    }

    /// Takes out the mark of a seat, if it has one. Where it is the only one, it stays and the answer is
    /// `false`: then the key has no other mark.
    pub(crate) fn keep_others(&mut self, seat: u64) -> bool
        ensures kept { result ≡ true → (s : ℕ) → mark_of_seat self.new s ≡ cleared (nat_eq seat s) (mark_of_seat self.old s) }
        ensures none { result ≡ false → (s : ℕ) → cleared (nat_eq seat s) (mark_of_seat self.old s) ≡ None }
    {
        self.others.retain(|mark| mark.seat != seat);
        if self.first.seat != seat {
            return true;
        }
        if self.others.is_empty() {
            return false;
        }
        self.first = self.others.remove(0);
        true
    }
}

/// The mark of a seat among these, if it has one.
fn mark_among(marks: &[Mark], seat: u64) -> Option<bool>
    ensures { result ≡ mark_among marks.now seat }
{
    for mark in marks {
        if mark.seat == seat {
            return Some(mark.written);
        }
    }
    None
}

/// Makes each of these marks written.
fn touch_all(marks: &mut Vec<Mark>)
    ensures { (s : ℕ) → mark_among marks.new.items s ≡ touched true (mark_among marks.old.items s) }
{
    for mark in marks.iter_mut() {
        mark.written = true;
    }
}

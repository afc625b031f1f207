//! What sessions watch: for a key and a seat whether the key was written since the seat began to watch it.
//!
//! Each stripe has marks of its own keys. A WATCH adds a mark, not written. Whoever writes a key touches it, which makes the
//! marks of all seats of that key written; it has the stripe for its write anyway, so no word is shared for this. EXEC
//! asks for its marks, and is null where one is written. A seat is the number of a pass.
#![tactic(auto)]

ghost use Rattle.std.specs.Prelude.{◌≡◌, ◌↔◌, ℕ, List, true, false, None, Some, nat_eq, is_none, IsTrue, IsSome, IsOk, IfOk, OnOk, OnErr};
ghost use Rattle.std.specs.Str.{bytes_eq};
ghost use Rattle.words.specs.Watches.{touched};
ghost use Rattle.watch.specs.Marked.{marks_of, are_these, begun_if, cleared, AreNone, HasWritten};

use crate::seats::Seats;
use std::alloc::{AllocError, Global};
use std::collections::BTreeMap;
use words::word::{OutOfMemory, Word};

mod seats;

/// Marks by key and seat: which keys a seat watches, and for each whether it was written since. They stand
/// in the part of one stripe, so whoever holds the stripe sees them alone.
///
/// A key has a place here as long as a seat watches it, and no longer.
#[derive(Drop)]
pub struct Marks {
    alloc: Global,
    keys: BTreeMap<Word, Seats>,
}

impl Marks {
    /// No marks. It takes no memory.
    pub fn new(alloc: Global) -> Marks
        ensures { AreNone (marks_of result) }
    {
        Marks {
            alloc,
            keys: BTreeMap::new(alloc),
        }
    }

    /// Whether nothing is watched.
    pub fn is_empty(&self) -> bool
        ensures { IsTrue result ↔ AreNone (marks_of self.now) }
    {
        self.keys.is_empty()
    }

    /// The mark of a key and a seat, if there is one: whether the key was written since the mark was added.
    #[tactic(auto, unfolding(crate::specs::Marked::marks_of))]
    pub fn mark(&self, key: &Word, seat: u64) -> Option<bool>
        ensures { result ≡ marks_of self.now key.now seat }
    {
        match self.keys.get(key) {
            Some(seats) => seats.mark(seat),
            None => None,
        }
    }

    /// Whether one of the seat's marks is written. It looks at each key that is watched; who knows the keys
    /// asks for their [marks](Marks::mark).
    pub fn written(&self, seat: u64) -> bool
        ensures { IsTrue result ↔ HasWritten (marks_of self.now) seat }
    {
        self.keys.values().any(|seats| seats.is_written(seat))
    }

    /// Puts a mark that is not written, where the key and the seat have none, and answers whether it did. A
    /// mark that is there stays as it is.
    ///
    /// A call that begins watches adds its marks before its commit, while it can still be refused, and
    /// [takes back](Marks::take_back) those that it added where it is. Nobody else sees them in between,
    /// since the call holds the stripe.
    ///
    /// # Errors
    ///
    /// [`OutOfMemory`] where there is no memory for the mark. Nothing is changed then. A mark that is there
    /// asks for none.
    pub fn add(&mut self, key: &Word, seat: u64) -> Result<bool, OutOfMemory>
        ensures ok { OnOk result ((k : List ℕ) (s : ℕ) → marks_of self.new k s ≡ begun_if (are_these key.now seat k s) (marks_of self.old k s)) }
        ensures added { IfOk result (λ added. added ≡ is_none (marks_of self.old key.now seat)) }
        ensures err { OnErr result ((k : List ℕ) (s : ℕ) → marks_of self.new k s ≡ marks_of self.old k s) }
        ensures memory { IsSome (marks_of self.old key.now seat) → IsOk result }
    {
        if let Some(seats) = self.keys.get_mut(key) {
            return seats.add(seat);
        }
        let key = key.clone()?;
        match self.keys.insert(key, Seats::one(self.alloc, seat)) {
            Ok(_) => Ok(true),
            Err(_) => Err(AllocError),
        }
    }

    /// Takes back a mark that was [added](Marks::add) and is not written. It takes no memory.
    pub fn take_back(&mut self, key: &Word, seat: u64)
        requires { marks_of self.old key.now seat ≡ Some false }
        ensures { (k : List ℕ) (s : ℕ) → marks_of self.new k s ≡ cleared (are_these key.now seat k s) (marks_of self.old k s) }
    {
        self.clear_key(key, seat);
    }

    /// Takes out the mark of a key and a seat, written or not, if there is one. It takes no memory. So
    /// watches end where their keys are known.
    pub fn clear_key(&mut self, key: &Word, seat: u64)
        ensures { (k : List ℕ) (s : ℕ) → marks_of self.new k s ≡ cleared (are_these key.now seat k s) (marks_of self.old k s) }
    {
        match self.keys.get_mut(key) {
            None => return,
            Some(seats) => {
                if seats.keep_others(seat) {
                    return;
                }
            }
        }
        let _ = self.keys.remove(key);
    }

    /// Makes each mark of a key written, as a committed write of the key does. It takes no memory. It looks
    /// the key up once, and not even that where nothing is watched.
    pub fn touch(&mut self, key: &Word)
        ensures { (k : List ℕ) (s : ℕ) → marks_of self.new k s ≡ touched (bytes_eq key.now k) (marks_of self.old k s) }
    {
        if self.is_empty() {
            return;
        }
        if let Some(watching) = self.keys.get_mut(key) {
            watching.touch();
        }
    }

    /// Takes out all marks of a seat. It takes no memory. It looks at each key that is watched; who knows
    /// the keys takes their marks out [one by one](Marks::clear_key).
    pub fn clear(&mut self, seat: u64)
        ensures { (k : List ℕ) (s : ℕ) → marks_of self.new k s ≡ cleared (nat_eq seat s) (marks_of self.old k s) }
    {
        self.keys.retain(move |_, seats| seats.keep_others(seat));
    }
}

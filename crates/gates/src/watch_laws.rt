//! Laws of watches: what an entry of the history does to the watches and the marks of a session. Each is the
//! contract of a function that does nothing; a proof that wants the law calls it.

ghost use Rattle.std.specs.Prelude.{◌≡◌, ◌∷◌, ℕ, List, length};
ghost use Rattle.words.specs.declared.history.Entry.{Entry};
ghost use Rattle.words.specs.declared.history.Operation.{Operation};
ghost use Rattle.words.specs.Store.{Bytes, writes_key};
ghost use Rattle.words.specs.History.{History, Pair, AreWatches, after, writes_of};
ghost use Rattle.words.specs.Watches.{mark_after, mark_at, touched, watched_after};
ghost use Rattle.gates.specs.Passes.{AreWatched};

use crate::laws::laws;

/// A mark that is due to a session is touched by an entry that writes its key.
pub fn marks_after_entry()
    ensures { (entry : Entry) (before : History) (session : ℕ) (pairs : List Pair) (key : Bytes) → AreWatches before session pairs
        → mark_at (entry ∷ before) pairs key ≡ touched (writes_key (writes_of (after before) entry) key) (mark_at before pairs key) }
{}

/// A session's own entry begins or ends its marks, or touches them.
pub fn own_marks_after_entry()
    ensures { (entry : Entry) (before : History) (pairs : List Pair) (key : Bytes) → AreWatches before entry.session pairs
        → mark_at (entry ∷ before) (watched_after pairs entry.operation (length before)) key
        ≡ mark_after entry.operation (writes_key (writes_of (after before) entry) key) key (mark_at before pairs key) }
{}

/// What a session watches after its own entry are watches of it.
pub fn own_watches_after_entry()
    ensures { (entry : Entry) (before : History) (pairs : List Pair) → AreWatches before entry.session pairs
        → AreWatches (entry ∷ before) entry.session (watched_after pairs entry.operation (length before)) }
{
    laws();
}

/// A session that watches no key twice watches none twice after an entry.
pub fn watches_each_once()
    ensures { (pairs : List Pair) (operation : Operation) (position : ℕ) → AreWatched pairs pairs
        → AreWatched (watched_after pairs operation position) (watched_after pairs operation position) }
{}

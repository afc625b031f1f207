//! Laws of histories: what an operation depends on, and what it leaves as it is. Each is the contract
//! of a function that does nothing; a proof that wants the law calls it.

ghost use Rattle.std.specs.Prelude.{◌≡◌, ◌++◌, ◌∷◌, List, ℕ, false};
ghost use Rattle.words.specs.declared.history.Entry.{Entry};
ghost use Rattle.words.specs.declared.history.Operation.{Operation};
ghost use Rattle.words.specs.Store.{Bytes, Store, written, writes_key};
ghost use Rattle.words.specs.History.{History, Pair, Legal, Extends, outcome, writes_of, after, due, is_written, is_dirty, keys_named, keys_of_pairs, AreWatches};
ghost use Rattle.words.specs.Stripes.{IsPart, LeavesStripe, stripe_of};
ghost use Rattle.words.specs.Locality.{AreSameAt, IsNoneOf, NoEntryNames, NamesNone};

/// What an operation answers and writes depends on the values of the keys that it names alone.
pub fn depends_on_named_keys()
    ensures { (operation : Operation) (one other : Store) → AreSameAt (keys_named operation) one other
        → outcome one operation ≡ outcome other operation }
{}

/// An entry writes no key but those that its operation names.
pub fn writes_named_keys()
    ensures { (store : Store) (entry : Entry) (key : Bytes) → IsNoneOf (keys_named entry.operation) key
        → writes_key (writes_of store entry) key ≡ false }
{}

/// Entries that do not name a key leave it.
pub fn leaves_other_keys()
    ensures { (more before : History) (key : Bytes) → NoEntryNames more key → after (more ++ before) key ≡ after before key }
{}

/// An entry that names no key of a stripe leaves that stripe's part.
pub fn leaves_other_stripes()
    ensures { (stripes stripe : ℕ) (part : Store) (entry : Entry) (before : History)
        → LeavesStripe stripes stripe entry.operation → IsPart stripes stripe part (after before)
        → IsPart stripes stripe part (after (entry ∷ before)) }
{}

/// The reply that is due to an operation is still due to it after entries that name none of its keys,
/// those that it goes by among them.
pub fn stays_due()
    ensures { (operation : Operation) (more before : History) → NamesNone more (keys_named operation)
        → due (more ++ before) operation ≡ due before operation }
{}

/// Which keys of some pairs were written after their positions stays as it was after entries that name
/// none of them.
pub fn stays_dirty()
    ensures { (pairs : List Pair) (more before : History) → NamesNone more (keys_of_pairs pairs)
        → is_dirty (more ++ before) pairs ≡ is_dirty before pairs }
{}

/// Whether a key of a stripe was written from a position on stays as it was after an entry that names no
/// key of the stripe.
pub fn stays_written()
    ensures { (stripes stripe : ℕ) (entry : Entry) (before : History) (from : ℕ) (key : Bytes)
        → LeavesStripe stripes stripe entry.operation → stripe_of stripes key ≡ stripe
        → is_written (entry ∷ before) from key ≡ is_written before from key }
{}

/// The watches of a session are its watches still after more entries.
pub fn stays_watched()
    ensures { (session : ℕ) (pairs : List Pair) (more before : History) → AreWatches before session pairs
        → AreWatches (more ++ before) session pairs }
{}

/// An entry that may stand after a history may stand after it still once entries have come that name none
/// of its keys.
pub fn still_extends()
    ensures { (entry : Entry) (more before : History) → NamesNone more (keys_named entry.operation) → Extends before entry
        → Extends (more ++ before) entry }
{}

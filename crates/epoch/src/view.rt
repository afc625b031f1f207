//! What seats know. It exists in proofs alone: no value of these types is made.

use std::collections::LinkedList;

/// What a scan read, or an advance that was refused.
pub enum Note {
    /// A scan read the epoch word as this.
    Epoch(u64),
    /// A scan read the word of the seat of this number as this: 0 where it is cleared, else the epoch that it is set to.
    Word(u64, u64),
    /// A seat that was to advance the epoch read the epoch word at 2^62 or more.
    Worn,
}

/// What one seat knows.
pub struct View {
    /// The number of the first seat for which it stands.
    pub first: u64,
    /// For how many seats it stands: for one, but while seats are dealt out. A retirement and a drained epoch stand for none.
    pub count: u64,
    /// What the seat's own word holds: 0 where it is cleared, else the epoch that it is set to.
    pub own: u64,
    /// The epoch word was read as `own` after the own word was set to it.
    pub valid: bool,
    /// Whether it may add to the epoch word.
    pub armed: bool,
    /// The epochs that it advanced past, the newest first.
    pub advanced: LinkedList<u64>,
    /// The least number that its scan found, in the epoch word and in the words that are set.
    pub bound: u64,
    /// How many seats' words its scan has read, after the epoch word.
    pub passed: u64,
    /// What its steps told, the newest first.
    pub notes: LinkedList<Note>,
}

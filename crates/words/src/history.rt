//! Entries of the history: what sessions did to the shared store, one operation each.

use crate::command::{Command, Keys};
use crate::reply::Reply;
use crate::sequence::Sequence;
use crate::word::Word;

/// A list of commands, as a transaction runs them.
pub type Commands = Sequence<Command>;

/// Watched keys, each with the position of the entry from which on it is watched.
pub type Pairs = Sequence<(Word, u64)>;

/// What a session does to the shared store, whole or not at all.
#[derive(Debug, Drop)]
pub enum Operation {
    /// One command runs.
    Run(Command),
    /// The session watches these keys from here on.
    Watch(Keys),
    /// The commands of a transaction run, in order, with nothing between them, unless one of these
    /// keys was written after its position.
    Exec(Commands, Pairs),
}

/// One entry of the history: an operation of a session, and what it was answered.
#[derive(Debug, Drop)]
pub struct Entry {
    /// The number of the session, or of the pass that serves it.
    pub session: u64,
    /// What was done.
    pub operation: Operation,
    /// What it was answered.
    pub reply: Reply,
}

//! What a session asks of the shared store, and what it is answered.

ghost use Rattle.std.specs.Prelude.{◌≡◌, ◌≤◌, ◌-◌, [], drop, length, nat_eq, true, IsOk, OnOk, OnErr};
ghost use Rattle.words.specs.History.{is_among};
ghost use Rattle.words.specs.Watches.{with_new};
ghost use Rattle.transact.specs.Calls.{answer_of, reply_to, watched_with, IsEarlier};

use gates::Asks;
use std::alloc::Global;
use std::marker::Model;
use thiserror::Error;
use words::command::{Command, Keys};
use words::history::Commands;
use words::reply::{Fault, Line, Reply};
use words::word::{OutOfMemory, Word};

/// What a session asks of the shared store, whole or not at all.
#[derive(Debug)]
pub enum Call {
    /// One command runs. It is a command that reads or writes keys.
    One(Command),
    /// The session watches these keys from here on, beside those that it watches.
    Watch(Keys),
    /// The commands of a transaction run, in order, with nothing between them, unless one of the keys
    /// that the session watches was written since. Nothing is watched afterwards.
    Exec(Commands, Watching),
    /// Nothing is watched any more. It cannot fail.
    Forget(Watching),
}

impl Asks for Call {
    ghost use Rattle.transact.specs.Submits.{asked_for};

    ghost asked = { asked_for };
}

impl Call {
    /// Lets a call go that was answered, or that is not made.
    pub fn spend(self) {
        match self {
            Call::One(command) => drop(command),
            Call::Watch(keys) => drop(keys),
            Call::Exec(commands, watching) => {
                drop(commands);
                drop(watching.into_keys());
            }
            Call::Forget(watching) => drop(watching.into_keys()),
        }
    }
}

/// What a [`Call`] is answered.
#[derive(Debug, Drop)]
pub enum Answer {
    /// The call was done, or refused by a line of the command's own.
    Reply(Reply),
    /// The call could not be done. Nothing was changed.
    Fault(Fault),
}

impl Answer {
    /// The answer of one line, or of a fault. It takes no memory.
    pub fn of_line(told: Result<Line, Fault>) -> Answer
        ensures { result ≡ answer_of told }
    {
        match told {
            Ok(line) => Answer::Reply(Reply::line(line)),
            Err(fault) => Answer::Fault(fault),
        }
    }

    /// What is said to the answer as it comes: the reply, or the line of the fault. It takes no memory.
    pub fn into_reply(self) -> Reply
        ensures { result ≡ reply_to self }
    {
        match self {
            Answer::Reply(reply) => reply,
            Answer::Fault(fault) => Reply::line(Line::Faulty(fault)),
        }
    }
}

/// A stripe of a call's keys that another pass held when the call was tried.
#[derive(Clone, Copy, Debug, PartialEq, Eq, Error)]
#[error("stripe {stripe} is held by another pass")]
pub struct Busy {
    /// The stripe.
    pub stripe: usize,
}

/// The keys that a session watches, each once. It is no value that can be dropped: it is spent by the
/// call that ends the watches, so that none is forgotten. Contracts see the keys, the newest first.
#[derive(Debug)]
pub struct Watching {
    keys: Vec<Word>,
}

impl Model for Watching {
    ghost use Rattle.std.specs.Prelude.{ℕ, List};

    ghost Value = { List (List ℕ) };

    ghost view = { λ watching. watching.keys.items };
}

impl Watching {
    /// Nothing is watched. It takes no memory.
    pub fn none(alloc: Global) -> Watching
        ensures { result ≡ [] }
    {
        Watching {
            keys: Vec::new(alloc),
        }
    }

    /// Whether nothing is watched.
    pub fn is_empty(&self) -> bool
        ensures { result ≡ nat_eq (length self.now) 0 }
    {
        self.keys.is_empty()
    }

    /// How many keys are watched.
    pub fn len(&self) -> usize
        ensures { result ≡ length self.now }
    {
        self.keys.len()
    }

    /// The keys, the newest first.
    pub fn keys(&self) -> &[Word]
        ensures { result.now ≡ self.now }
    {
        self.keys.as_slice()
    }

    /// Watches these keys too, each once: it copies those that are not watched yet.
    ///
    /// # Errors
    ///
    /// [`OutOfMemory`] where there is no memory for a new key. What is watched is then as it was.
    pub fn add(&mut self, keys: &[Word]) -> Result<(), OutOfMemory>
        ensures ok { OnOk result (self.new ≡ watched_with self.old keys.now) }
        ensures err { OnErr result (self.new ≡ self.old) }
        ensures memory { watched_with self.old keys.now ≡ self.old → IsOk result }
    {
        let before = self.len();
        if let Err(refused) = self.add_each(keys) {
            self.take_back(before);
            return Err(refused);
        }
        Ok(())
    }

    /// Goes back to the `count` keys that are watched longest, where there are more. It takes no memory.
    pub fn take_back(&mut self, count: usize)
        ensures { self.new ≡ drop (length self.old - count) self.old }
    {
        let newer = self.keys.len().saturating_sub(count);
        drop(self.keys.drain(..newer));
    }

    /// Ends the watches: the keys that were watched, the newest first. It takes no memory.
    pub fn into_keys(self) -> Keys
        ensures { result ≡ self }
    {
        let Watching { keys } = self;
        Keys::from_vec(keys)
    }

    /// Adds those of the keys that are not watched yet, one after the other. After an `Err` some may
    /// have been added.
    fn add_each(&mut self, keys: &[Word]) -> Result<(), OutOfMemory>
        ensures ok { OnOk result (self.new ≡ watched_with self.old keys.now) }
        ensures err { OnErr result (IsEarlier self.old self.new) }
        ensures memory { watched_with self.old keys.now ≡ self.old → IsOk result }
    {
        let Some((key, others)) = keys.split_first() else {
            return Ok(());
        };
        self.add_one(key)?;
        self.add_each(others)
    }

    /// Adds a copy of a key that is not watched yet.
    fn add_one(&mut self, key: &Word) -> Result<(), OutOfMemory>
        ensures ok { OnOk result (self.new ≡ with_new (is_among self.old key.now) key.now self.old) }
        ensures err { OnErr result (self.new ≡ self.old) }
        ensures memory { is_among self.old key.now ≡ true → IsOk result }
    {
        if is_one_of(key, self.keys()) {
            return Ok(());
        }
        let key = key.clone()?;
        self.keys.insert(0, key)?;
        Ok(())
    }
}

/// Whether a key is one of these.
pub fn is_one_of(key: &Word, keys: &[Word]) -> bool
    ensures { result ≡ is_among keys.now key.now }
{
    match keys {
        [] => false,
        [first, others @ ..] => first == key || is_one_of(key, others),
    }
}

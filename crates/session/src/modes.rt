//! Sessions in their modes, and what a request gives.

ghost use Rattle.std.specs.Prelude.{◌≡◌, IfOk};

use std::alloc::Global;
use std::marker::Model;
use transact::call::{Call, Watching};
use words::command::Command;
use words::reply::{Line, Refusal, Reply};
use words::word::Words;

/// No transaction is open.
#[derive(Debug, Drop)]
pub struct Idle;

/// A transaction is open: these commands are queued. Contracts see them, with how many words and bytes
/// their requests had.
#[derive(Debug, Drop)]
pub struct Queueing {
    pub(crate) queue: Vec<Command>,
    pub(crate) size: Size,
}

impl Model for Queueing {
    ghost use Rattle.session.specs.Transactions.{Transaction, IsOpen};

    ghost Value = { Transaction };

    ghost view = { λ transaction. record { queue = transaction.queue.items; words = transaction.size.words; bytes = transaction.size.bytes } };

    ghost invariant = { λ transaction. IsOpen (record { queue = transaction.queue.items; words = transaction.size.words; bytes = transaction.size.bytes }) };
}

/// How large the requests of a transaction's commands are together.
#[derive(Clone, Copy, Debug, PartialEq, Eq)]
pub(crate) struct Size {
    /// Their words, the commands' names among them.
    pub(crate) words: usize,
    /// The bytes of their words.
    pub(crate) bytes: usize,
}

/// A transaction is open that will not be run.
#[derive(Debug, Drop)]
pub struct Spoiled;

/// The session has ended.
#[derive(Debug, Drop)]
pub struct Closed;

/// A session in this mode, and what it watches. It is spent by its next step, or by
/// [`close`](Session::close).
#[derive(Debug)]
pub struct Session<M> {
    pub(crate) alloc: Global,
    pub(crate) watching: Watching,
    pub(crate) mode: M,
}

/// A session that takes a request, in whichever mode it is.
#[derive(Debug)]
pub enum AnySession {
    /// No transaction is open.
    Idle(Session<Idle>),
    /// A transaction is open.
    Queueing(Session<Queueing>),
    /// A transaction is open that will not be run.
    Spoiled(Session<Spoiled>),
}

/// A session that waits for the answer to its call.
#[derive(Debug)]
pub struct Called {
    pub(crate) session: Session<Idle>,
    pub(crate) then: Then,
}

/// What a session does with the answer to its call.
#[derive(Clone, Copy, Debug)]
pub(crate) enum Then {
    /// It says the answer.
    Answers,
    /// It says the answer. After a fault it watches only this many keys, those that it watches longest.
    AnswersOrTakesBack(usize),
    /// It says this line, whatever the answer.
    Says(Line),
}

/// What a request gives.
#[derive(Debug)]
pub enum Step {
    /// It is answered, and the session goes on.
    Says(Reply, AnySession),
    /// It is answered, and the session has ended.
    Closes(Reply, Session<Closed>),
    /// There was no memory for a command to be queued or for a key to be watched. The session says the
    /// out-of-memory line, and goes on.
    OutOfMemory(AnySession),
    /// It makes a call, whose answer is handed to [`Called::resume`].
    Calls(Call, Called),
}

/// What a request comes to where a transaction is open.
#[derive(Clone, Copy, Debug, PartialEq, Eq)]
pub enum Taken {
    /// It is answered with this line, and the transaction goes on.
    Stays(Line),
    /// The transaction goes on no more: it is left so, by [`leave`](Session::leave).
    Leaves(Leaving),
}

/// How a transaction is left.
#[derive(Clone, Copy, Debug, PartialEq, Eq)]
pub enum Leaving {
    /// It is spoiled, and the session says this line.
    Spoils(Line),
    /// It is spoiled: there was no memory for a command to be queued.
    OutOfMemory,
    /// It is run.
    Runs,
    /// It is discarded.
    Discards,
    /// The session ends.
    Quits,
}

impl<M> Session<M> {
    ghost use Rattle.words.specs.Session as mode;
    ghost use Rattle.words.specs.Session.{says, Forgets, line_reply};
    ghost use Rattle.session.specs.Standings.{forget_of, watched_of};
    ghost use Rattle.session.specs.Steps.{Gives};

    /// Ends the session, in whichever mode it is: the call that forgets what it watches, exactly where
    /// it watches something. It takes no memory.
    pub fn close(self) -> Option<Call>
    where
        M: Drop,
        ensures { result ≡ forget_of (watched_of self) }
    {
        let Session {
            alloc: _,
            watching,
            mode: _,
        } = self;
        if watching.is_empty() {
            drop(watching.into_keys());
            None
        } else {
            Some(Call::Forget(watching))
        }
    }

    /// What QUIT gives: the session has ended, and what it watches is left to [`close`](Session::close).
    pub(crate) fn quit(self) -> Step
    where
        M: Drop,
        ensures { Gives (says Line.Done mode.Closed) self.watching result }
    {
        Step::Closes(Reply::line(Line::Done), self.into_mode(Closed))
    }

    /// The end of a transaction, or of watches alone, that is answered by this line: nothing is watched
    /// afterwards. It takes no memory.
    pub(crate) fn forget(self, line: Line) -> Step
    where
        M: Drop,
        ensures { Gives (Forgets (line_reply line) mode.Idle) self.watching result }
    {
        let session = Session::new(self.alloc);
        match self.close() {
            None => Step::Says(Reply::line(line), AnySession::Idle(session)),
            Some(call) => Step::Calls(
                call,
                Called {
                    session,
                    then: Then::Says(line),
                },
            ),
        }
    }

    /// The session in another mode.
    pub(crate) fn into_mode<N>(self, mode: N) -> Session<N>
    where
        M: Drop,
        ensures watching { result.watching ≡ self.watching }
        ensures mode { result.mode ≡ mode }
    {
        let Session {
            alloc,
            watching,
            mode: _,
        } = self;
        Session {
            alloc,
            watching,
            mode,
        }
    }
}

impl AnySession {
    ghost use Rattle.words.specs.Bounds.{IsBounded};
    ghost use Rattle.words.specs.Commands.{command_of};
    ghost use Rattle.session.specs.Standings.{standing_of, forget_of};
    ghost use Rattle.session.specs.Steps.{IsStep};

    /// What a request gives: its words, and what [`Command::of`] makes of them.
    pub fn step(self, words: Words, command: Result<Command, Refusal>) -> Step
        requires of { command ≡ command_of words }
        requires bounded { IfOk command IsBounded }
        ensures { IsStep (standing_of self) words result }
    {
        let step = self.step_of(&words, command);
        drop(words);
        step
    }

    /// The same as [`step`](AnySession::step), of words that stay the caller's.
    pub fn step_of(self, words: &Words, command: Result<Command, Refusal>) -> Step
        requires of { command ≡ command_of words.now }
        requires bounded { IfOk command IsBounded }
        ensures { IsStep (standing_of self) words.now result }
    {
        match self {
            AnySession::Idle(session) => session.step_of(words, command),
            AnySession::Queueing(session) => session.step_of(words, command),
            AnySession::Spoiled(session) => session.step_of(words, command),
        }
    }

    /// Ends the session, as [`Session::close`] does.
    pub fn close(self) -> Option<Call>
        ensures { result ≡ forget_of (standing_of self).watched }
    {
        match self {
            AnySession::Idle(session) => session.close(),
            AnySession::Queueing(session) => session.close(),
            AnySession::Spoiled(session) => session.close(),
        }
    }
}

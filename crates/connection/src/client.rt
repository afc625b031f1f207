//! The core of a connection, without input or output: it is fed bytes, and says what comes next.

ghost use Rattle.std.specs.Prelude.{◌≡◌, ◌<◌, ◌⊎◌, ◌↔◌, [], ◌∷◌, ◌++◌, length, OnOk, OnErr, IfOk, IsOk, IsTrue, true, false};

use crate::state::State;
use bytes::Bytes;
use resp_read::{ReadFault, Reader};
use session::modes::{AnySession, Idle, Session};
use std::alloc::Global;
use std::marker::Model;
use transact::call::{Answer, Call};
use words::command::Command;
use words::reply::{ProtocolFault, Refusal, Reply};
use words::word::{OutOfMemory, Word, Words};

/// What a client does next.
#[derive(Debug)]
pub enum Next {
    /// It wants more input: no whole request is left, and no fault.
    Input,
    /// It says a reply.
    Says(Reply),
    /// It says the out-of-memory line: there was no memory for a command that is to be queued, or for a
    /// key that is to be watched.
    SaysOutOfMemory,
    /// It calls the store, and waits for the answer.
    Calls(Call),
    /// The bytes at the front are no request. It says the line of this fault, and nothing after it.
    Malformed(ProtocolFault),
    /// There was no memory for the request at the front. It is not answered.
    OutOfMemory,
    /// Nothing: the session has ended. What was fed after its end is not answered.
    Closed,
}

/// What stands at the front of what a client was fed.
#[derive(Clone, Copy)]
pub(crate) enum Front {
    /// A whole request, which is taken off.
    Request,
    /// A part of a request, or nothing.
    Input,
    /// A fault.
    Malformed(ProtocolFault),
    /// A whole request. There was no memory for its words.
    OutOfMemory,
    /// Whatever: the session has ended.
    Closed,
}

/// One client: the bytes that it was fed and its session. What the session watches is forgotten by the
/// call that [`close`](Client::close) gives, and by no other way: a client cannot be dropped.
pub struct Client {
    alloc: Global,
    reader: Reader,
    state: State,
}

impl Model for Client {
    ghost use Rattle.resp_read.specs.Unread.{unread as unread_of};
    ghost use Rattle.connection.specs.Clients.{Progress, stage_of};

    ghost Value = { Progress };

    ghost view = { λ client. record { unread = unread_of client.reader; stage = stage_of client.state } };
}

impl Client {
    ghost use Rattle.session.specs.Standings.{forget_of};
    ghost use Rattle.words.specs.Bounds.{IsBounded};
    ghost use Rattle.words.specs.Commands.{command_of, AsksNoMemory};
    ghost use Rattle.words.specs.Spelling.{IsRequest};
    ghost use Rattle.words.specs.Session.{Closed};
    ghost use Rattle.connection.specs.Clients.{Progress, beginning, before, IsReady, IsCalled, IsIdle, IsOpen, Gives, Resumes, ResumesSaid, Stands, mode_of, watched_of};

    /// A client that was fed nothing. It takes no memory.
    pub fn new(alloc: Global) -> Client
        ensures { result ≡ beginning }
    {
        Client {
            alloc,
            reader: Reader::new(alloc),
            state: State::Ready(AnySession::Idle(Session::<Idle>::new(alloc))),
        }
    }

    /// Feeds the next piece. After an `Err` the client is as it was. A client with nothing unread takes a piece
    /// without memory.
    pub fn feed(&mut self, piece: Bytes) -> Result<(), OutOfMemory>
        ensures first { self.old.unread ≡ [] → IsOk result }
        ensures ok { OnOk result
            (self.new ≡ record self.old { unread = self.old.unread ++ piece }) }
        ensures err { OnErr result (self.new ≡ self.old) }
    {
        match self.reader.feed(piece) {
            Ok(()) => Ok(()),
            Err(refused) => Err(refused.1),
        }
    }

    /// What the client does next. It is not to be asked while a call is open.
    pub fn next(&mut self) -> Next
        requires { IsReady self.old.stage }
        ensures { Gives self.old result self.new }
    {
        let mut words = self.no_words();
        match self.take_up(&mut words) {
            Front::Request => self.obey(&words),
            Front::Input => Next::Input,
            Front::Malformed(fault) => Next::Malformed(fault),
            Front::OutOfMemory => Next::OutOfMemory,
            Front::Closed => Next::Closed,
        }
    }

    /// Words for requests to be taken up into. They take no memory until then.
    pub(crate) fn no_words(&self) -> Words
        ensures { result ≡ [] ∷ [] }
    {
        Words::one(self.alloc, Word::empty(self.alloc))
    }

    /// Lets go what the words hold of the last request. A client waits for its reply, so that is done once the
    /// reply is written.
    pub(crate) fn let_go(&self, words: &mut Words)
        ensures { words.new ≡ [] ∷ [] }
    {
        *words = self.no_words();
    }

    /// Whether nothing is left of what it was fed, and its session has not ended: it wants more input.
    #[inline]
    pub(crate) fn wants_input(&self) -> bool
        requires { IsReady self.now.stage }
        ensures wants { result ≡ true → (self.now.unread ≡ []) × IsOpen (mode_of self.now.stage) }
        ensures left { result ≡ false →
            (0 < length self.now.unread) ⊎ (mode_of self.now.stage ≡ Closed) }
    {
        self.reader.is_empty() && !matches!(&self.state, State::Closed(_))
    }

    /// Takes the request at the front off, if there is a whole one, into the words of the caller, which serve
    /// from request to request. It is then to be obeyed.
    #[inline]
    pub(crate) fn take_up(&mut self, words: &mut Words) -> Front
        requires { IsReady self.old.stage }
        ensures { Stands self.old result words.new self.new }
    {
        if let State::Closed(_) = &self.state {
            return Front::Closed;
        }
        match self.reader.next_into(words) {
            Ok(true) => Front::Request,
            Ok(false) => Front::Input,
            Err(ReadFault::Protocol(fault)) => Front::Malformed(fault),
            Err(ReadFault::OutOfMemory) => Front::OutOfMemory,
        }
    }

    /// What the client does next whose request was taken off, of these words.
    #[inline(never)]
    pub(crate) fn obey(&mut self, words: &Words) -> Next
        requires ready { IsReady self.old.stage }
        requires is_open { IsOpen (mode_of self.old.stage) }
        requires request { IsRequest words.now }
        ensures { Gives (before words.now self.old) result self.new }
    {
        let Ok(command) = self.command_of(words) else {
            return Next::OutOfMemory;
        };
        self.step(words, command)
    }

    /// The command that the words of a request are, or why they are none.
    #[inline]
    pub(crate) fn command_of(&self, words: &Words) -> Result<Result<Command, Refusal>, OutOfMemory>
        ensures exact { IfOk result (λ command. command ≡ command_of words.now) }
        ensures bounded { IsRequest words.now → IfOk result (λ made. IfOk made IsBounded) }
        ensures memory { AsksNoMemory (command_of words.now) → IsOk result }
    {
        Command::of(self.alloc, words)
    }

    /// What the client does next whose request was taken off, of these words, which make this command.
    #[inline]
    pub(crate) fn step(&mut self, words: &Words, command: Result<Command, Refusal>) -> Next
        requires ready { IsReady self.old.stage }
        requires is_open { IsOpen (mode_of self.old.stage) }
        requires request { IsRequest words.now }
        requires command { command ≡ command_of words.now }
        requires bounded { IfOk command IsBounded }
        ensures { Gives (before words.now self.old) result self.new }
    {
        self.state.step(words, command)
    }

    /// Whether the session is in no transaction, and waits for a request: a command that reads or writes keys
    /// is then a call of its own, and its answer is said as it comes.
    pub(crate) fn is_idle(&self) -> bool
        ensures { IsTrue result ↔ IsIdle self.now.stage }
    {
        matches!(&self.state, State::Ready(AnySession::Idle(_)))
    }

    /// Takes the answer to the open call, and tells the reply that the client says to it. It takes
    /// no memory.
    pub fn resume(&mut self, answer: Answer) -> Reply
        requires { IsCalled self.old.stage }
        ensures unread { self.new.unread ≡ self.old.unread }
        ensures resumes { Resumes self.old.stage answer result self.new.stage }
    {
        self.state.resume(answer)
    }

    /// Goes on behind the open call, whose reply was said already as it came. It takes no memory.
    pub(crate) fn resume_said(&mut self)
        requires { IsCalled self.old.stage }
        ensures unread { self.new.unread ≡ self.old.unread }
        ensures resumes { ResumesSaid self.old.stage self.new.stage }
    {
        // Any reply does: the session goes on in the same way, and what it says to it is let go.
        drop(self.resume(Answer::Reply(Reply::NullArray)));
    }

    /// Ends the client: the call that forgets what its session watches, exactly where it watches
    /// something. It takes no memory. It is not to be ended while a call is open.
    pub fn close(self) -> Option<Call>
        requires { IsReady self.stage }
        ensures { result ≡ forget_of (watched_of self.stage) }
    {
        let Client {
            alloc: _,
            reader: _,
            state,
        } = self;
        match state {
            State::Ready(session) => session.close(),
            State::Closed(session) => session.close(),
            State::Called(_called) => unreachable!(),
            State::Stepping => unreachable!(),
        }
    }
}

//! Sessions in no transaction.

use crate::counting::refusal_of_watch;
use crate::modes::{AnySession, Called, Idle, Queueing, Session, Size, Step, Then};
use std::alloc::Global;
use transact::call::{Call, Watching};
use words::command::{Command, Keys, SessionCommand};
use words::reply::{CommandReply, Item, Line, Refusal, Reply, TransactionError};
use words::word::{Word, Words};

impl Session<Idle> {
    ghost use Rattle.std.specs.Prelude.{◌≡◌, IfOk, Ok, []};
    ghost use Rattle.words.specs.Bounds.{IsBounded};
    ghost use Rattle.words.specs.Commands.{command_of};
    ghost use Rattle.words.specs.Session as mode;
    ghost use Rattle.words.specs.Session.{turn_idle, watch_turn, says};
    ghost use Rattle.session.specs.Standings.{start, stands, idle_of, queueing_of};
    ghost use Rattle.session.specs.Steps.{Gives, IsStep};

    /// A session at the beginning: it watches nothing. It takes no memory.
    pub fn new(alloc: Global) -> Session<Idle>
        ensures { idle_of result ≡ start }
    {
        Session {
            alloc,
            watching: Watching::none(alloc),
            mode: Idle,
        }
    }

    /// What a request gives: its words, and what [`Command::of`] makes of them.
    pub fn step(self, words: Words, command: Result<Command, Refusal>) -> Step
        requires of { command ≡ command_of words }
        requires bounded { IfOk command IsBounded }
        ensures { IsStep (idle_of self) words result }
    {
        let step = self.step_of(&words, command);
        drop(words);
        step
    }

    /// The same as [`step`](Session::step), of words that stay the caller's.
    pub fn step_of(self, words: &Words, command: Result<Command, Refusal>) -> Step
        requires of { command ≡ command_of words.now }
        requires bounded { IfOk command IsBounded }
        ensures { IsStep (idle_of self) words.now result }
    {
        self.take(command)
    }

    /// What a request gives that is this command, or is refused so.
    fn take(self, command: Result<Command, Refusal>) -> Step
        requires { IfOk command IsBounded }
        ensures { Gives (turn_idle self.watching command) self.watching result }
    {
        match command {
            Err(refusal) => self.say(Line::Refused(refusal)),
            Ok(Command::Ping(None)) => self.say(Line::Pong),
            Ok(Command::Ping(Some(text)) | Command::Echo(text)) => self.say_text(text),
            Ok(Command::Bad(refusal)) => self.say(Line::Refused(refusal)),
            Ok(Command::Session(command)) => self.obey(command),
            Ok(command) => Step::Calls(
                Call::One(command),
                Called {
                    session: self,
                    then: Then::Answers,
                },
            ),
        }
    }

    /// What a command of the session itself gives.
    fn obey(self, command: SessionCommand) -> Step
        ensures { Gives (turn_idle self.watching (Ok (Command.Session command))) self.watching result }
    {
        match command {
            SessionCommand::Multi => self.multi(),
            SessionCommand::Exec => {
                self.say(Line::Misplaced(TransactionError::ExecWithoutMulti))
            }
            SessionCommand::Discard => {
                self.say(Line::Misplaced(TransactionError::DiscardWithoutMulti))
            }
            SessionCommand::Watch(keys) => self.watch(keys),
            SessionCommand::Unwatch => self.forget(Line::Done),
            SessionCommand::Quit => self.quit(),
        }
    }

    /// It says a line, and stays as it is.
    fn say(self, line: Line) -> Step
        ensures { Gives (says line mode.Idle) self.watching result }
    {
        Step::Says(Reply::line(line), AnySession::Idle(self))
    }

    /// It says a text, and stays as it is.
    fn say_text(self, text: Word) -> Step
        ensures { Gives (mode.Tries (Reply.Single (CommandReply.One (Item.Bulk text))) mode.Idle mode.Idle) self.watching result }
    {
        let reply = Reply::Single(CommandReply::One(Item::Bulk(text)));
        Step::Says(reply, AnySession::Idle(self))
    }

    /// The session in a transaction that it opens. It takes no memory.
    pub fn begin(self) -> Session<Queueing>
        ensures { queueing_of result ≡ stands (mode.Queueing [] 0 0) self.watching }
    {
        let queueing = Queueing {
            queue: Vec::new(self.alloc),
            size: Size { words: 0, bytes: 0 },
        };
        self.into_mode(queueing)
    }

    /// What MULTI gives.
    fn multi(self) -> Step
        ensures { Gives (says Line.Done (mode.Queueing [] 0 0)) self.watching result }
    {
        Step::Says(Reply::line(Line::Done), AnySession::Queueing(self.begin()))
    }

    /// It watches keys: those that are new are copied before it calls.
    fn watch(self, keys: Keys) -> Step
        ensures { Gives (watch_turn self.watching keys) self.watching result }
    {
        match refusal_of_watch(self.watching.keys(), keys.as_slice()) {
            Some(line) => self.say(line),
            None => self.watch_new(keys),
        }
    }

    /// It watches keys, where none is too long and they are not too many.
    fn watch_new(self, keys: Keys) -> Step
        ensures { Gives (mode.Calls (mode.Watch keys) mode.Idle mode.Idle) self.watching result }
    {
        let mut session = self;
        let before = session.watching.len();
        if let Err(_) = session.watching.add(keys.as_slice()) {
            return Step::OutOfMemory(AnySession::Idle(session));
        }
        Step::Calls(
            Call::Watch(keys),
            Called {
                session,
                then: Then::AnswersOrTakesBack(before),
            },
        )
    }
}

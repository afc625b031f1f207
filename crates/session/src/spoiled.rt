//! Sessions in a transaction that will not be run.

use crate::modes::{AnySession, Session, Spoiled, Step};
use words::command::{Command, SessionCommand};
use words::reply::{Line, Refusal, Reply, TransactionError};
use words::word::Words;

impl Session<Spoiled> {
    ghost use Rattle.std.specs.Prelude.{◌≡◌, IfOk, Ok};
    ghost use Rattle.words.specs.Bounds.{IsBounded};
    ghost use Rattle.words.specs.Commands.{command_of};
    ghost use Rattle.words.specs.Session as mode;
    ghost use Rattle.words.specs.Session.{turn_spoiled, says};
    ghost use Rattle.session.specs.Standings.{spoiled_of};
    ghost use Rattle.session.specs.Steps.{Gives, IsStep};

    /// What a request gives: its words, and what [`Command::of`] makes of them. A command is not kept.
    pub fn step(self, words: Words, command: Result<Command, Refusal>) -> Step
        requires of { command ≡ command_of words }
        requires bounded { IfOk command IsBounded }
        ensures { IsStep (spoiled_of self) words result }
    {
        let step = self.step_of(&words, command);
        drop(words);
        step
    }

    /// The same as [`step`](Session::step), of words that stay the caller's.
    pub fn step_of(self, words: &Words, command: Result<Command, Refusal>) -> Step
        requires of { command ≡ command_of words.now }
        requires bounded { IfOk command IsBounded }
        ensures { IsStep (spoiled_of self) words.now result }
    {
        self.take(command)
    }

    /// What a request gives that is this command, or is refused so.
    fn take(self, command: Result<Command, Refusal>) -> Step
        ensures { Gives (turn_spoiled command) self.watching result }
    {
        match command {
            Err(refusal) => self.say(Line::Refused(refusal)),
            Ok(Command::Session(command)) => self.obey(command),
            Ok(command) => {
                drop(command);
                self.say(Line::Queued)
            }
        }
    }

    /// What a command of the session itself gives.
    fn obey(self, command: SessionCommand) -> Step
        ensures { Gives (turn_spoiled (Ok (Command.Session command))) self.watching result }
    {
        match command {
            SessionCommand::Multi => self.say(Line::Misplaced(TransactionError::NestedMulti)),
            SessionCommand::Exec => {
                self.forget(Line::Misplaced(TransactionError::TransactionAborted))
            }
            SessionCommand::Discard => self.forget(Line::Done),
            SessionCommand::Watch(_) => {
                self.say(Line::Misplaced(TransactionError::WatchInsideMulti))
            }
            SessionCommand::Unwatch => self.say(Line::Queued),
            SessionCommand::Quit => self.quit(),
        }
    }

    /// It says a line, and stays as it is.
    fn say(self, line: Line) -> Step
        ensures { Gives (says line mode.Spoiled) self.watching result }
    {
        Step::Says(Reply::line(line), AnySession::Spoiled(self))
    }
}

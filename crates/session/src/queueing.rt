//! Sessions in a transaction.

use crate::counting::with_one_more;
use crate::modes::{
    AnySession, Called, Leaving, Queueing, Session, Size, Spoiled, Step, Taken, Then,
};
use transact::call::Call;
use words::command::{Command, SessionCommand};
use words::history::Commands;
use words::reply::{Line, Refusal, Reply, TransactionError};
use words::word::{Word, Words};

impl Session<Queueing> {
    ghost use Rattle.std.specs.Prelude.{◌≡◌, ◌++◌, ◌∷◌, [], ◌+◌, IfOk, Ok, length, false};
    ghost use Rattle.words.specs.Bounds.{IsBounded};
    ghost use Rattle.words.specs.Spelling.{bytes_of};
    ghost use Rattle.words.specs.Commands.{command_of, MayBeQueued};
    ghost use Rattle.words.specs.Session as mode;
    ghost use Rattle.words.specs.Session.{Turn, turn, turn_queueing, queue_turn, says, line_reply, is_too_large};
    ghost use Rattle.session.specs.Standings.{queueing_of};
    ghost use Rattle.session.specs.Steps.{Gives, IsStep, IsLeft, IsTaken};

    /// What a request gives: its words, and what [`Command::of`] makes of them.
    pub fn step(self, words: Words, command: Result<Command, Refusal>) -> Step
        requires of { command ≡ command_of words }
        requires bounded { IfOk command IsBounded }
        ensures { IsStep (queueing_of self) words result }
    {
        let step = self.step_of(&words, command);
        drop(words);
        step
    }

    /// The same as [`step`](Session::step), of words that stay the caller's.
    pub fn step_of(self, words: &Words, command: Result<Command, Refusal>) -> Step
        requires of { command ≡ command_of words.now }
        requires bounded { IfOk command IsBounded }
        ensures { IsStep (queueing_of self) words.now result }
    {
        let mut session = self;
        match session.take(words, command) {
            Taken::Stays(line) => Step::Says(Reply::line(line), AnySession::Queueing(session)),
            Taken::Leaves(leaving) => session.leave(leaving),
        }
    }

    /// What a request comes to: its words, and what [`Command::of`] makes of them. A session that stays in
    /// the transaction is changed where it lies; one that leaves it is as it was, and is to be left so.
    #[inline]
    pub fn take(&mut self, words: &Words, command: Result<Command, Refusal>) -> Taken
        requires of { command ≡ command_of words.now }
        requires bounded { IfOk command IsBounded }
        ensures { IsTaken (turn (queueing_of self.old).mode self.old.watching words.now) self.old result self.new }
    {
        self.take_request(words.as_slice(), command)
    }

    /// Leaves the transaction: what a request gives that comes to this.
    pub fn leave(self, leaving: Leaving) -> Step
        ensures { (turned : Turn) → IsLeft turned self.mode.queue leaving → Gives turned self.watching result }
    {
        match leaving {
            Leaving::Spoils(line) => self.spoil(line),
            Leaving::OutOfMemory => {
                Step::OutOfMemory(AnySession::Spoiled(self.into_mode(Spoiled)))
            }
            Leaving::Runs => {
                let (call, called) = self.exec();
                Step::Calls(call, called)
            }
            Leaving::Discards => self.forget(Line::Done),
            Leaving::Quits => self.quit(),
        }
    }

    /// Runs the transaction, which spends its watches: the call that EXEC makes, and the session that waits for its answer. It takes no
    /// memory.
    pub fn exec(self) -> (Call, Called)
        ensures { Gives (mode.Calls (mode.Exec self.mode.queue) mode.Idle mode.Idle) self.watching (Step.Calls result.0 result.1) }
    {
        let Session {
            alloc,
            watching,
            mode,
        } = self;
        let Queueing { queue, .. } = mode;
        let called = Called {
            session: Session::new(alloc),
            then: Then::Answers,
        };
        (Call::Exec(Commands::from_vec(queue), watching), called)
    }

    /// What a request of these words comes to that is this command, or is refused so.
    #[inline]
    fn take_request(&mut self, request: &[Word], command: Result<Command, Refusal>) -> Taken
        requires { IfOk command IsBounded }
        ensures { IsTaken (turn_queueing self.old.mode.queue self.old.mode.words self.old.mode.bytes (length request.now) (bytes_of request.now) command) self.old result self.new }
    {
        match command {
            Err(refusal) => Taken::Leaves(Leaving::Spoils(Line::Refused(refusal))),
            Ok(Command::Session(command)) => self.obey(request, command),
            Ok(command) => self.queue(request, command),
        }
    }

    /// What a command of the session itself comes to.
    #[inline(never)]
    fn obey(&mut self, request: &[Word], command: SessionCommand) -> Taken
        ensures { IsTaken (turn_queueing self.old.mode.queue self.old.mode.words self.old.mode.bytes (length request.now) (bytes_of request.now) (Ok (Command.Session command))) self.old result self.new }
    {
        match command {
            SessionCommand::Multi => Taken::Stays(Line::Misplaced(TransactionError::NestedMulti)),
            SessionCommand::Exec => Taken::Leaves(Leaving::Runs),
            SessionCommand::Discard => Taken::Leaves(Leaving::Discards),
            SessionCommand::Watch(_) => {
                Taken::Stays(Line::Misplaced(TransactionError::WatchInsideMulti))
            }
            SessionCommand::Unwatch => {
                self.queue(request, Command::Session(SessionCommand::Unwatch))
            }
            SessionCommand::Quit => Taken::Leaves(Leaving::Quits),
        }
    }

    /// It queues the command of a request of these words, if the transaction is not too large with it.
    #[inline]
    fn queue(&mut self, request: &[Word], command: Command) -> Taken
        requires may_run { MayBeQueued command }
        requires bounded { IsBounded command }
        ensures { IsTaken (queue_turn (self.old.mode.queue ++ command ∷ []) (self.old.mode.words + length request.now) (self.old.mode.bytes + bytes_of request.now)) self.old result self.new }
    {
        let mode = &self.mode;
        match with_one_more(mode.queue.len(), mode.size, request) {
            None => {
                drop(command);
                Taken::Leaves(Leaving::Spoils(Line::Misplaced(
                    TransactionError::TransactionTooLarge,
                )))
            }
            Some(size) => self.queue_within(size, command),
        }
    }

    /// It queues a command, with which the transaction has this size and is not too large.
    #[inline]
    fn queue_within(&mut self, size: Size, command: Command) -> Taken
        requires may_run { MayBeQueued command }
        requires bounded { IsBounded command }
        requires fits { is_too_large (length self.old.mode.queue + 1) size.words size.bytes ≡ false }
        ensures { IsTaken (mode.Tries (line_reply Line.Queued) (mode.Queueing (self.old.mode.queue ++ command ∷ []) size.words size.bytes) mode.Spoiled) self.old result self.new }
    {
        let mode = &mut self.mode;
        match mode.queue.push(command) {
            Ok(()) => {
                mode.size = size;
                Taken::Stays(Line::Queued)
            }
            Err(refused) => {
                drop(refused);
                Taken::Leaves(Leaving::OutOfMemory)
            }
        }
    }

    /// It says a line, and the transaction is spoiled.
    fn spoil(self, line: Line) -> Step
        ensures { Gives (says line mode.Spoiled) self.watching result }
    {
        Step::Says(
            Reply::line(line),
            AnySession::Spoiled(self.into_mode(Spoiled)),
        )
    }
}

//! Where a client's session stands between its steps.

ghost use Rattle.std.specs.Prelude.{◌≡◌, ◌↔◌, IfOk, IsTrue, List};
ghost use Rattle.words.specs.Bounds.{IsBounded};
ghost use Rattle.words.specs.Commands.{command_of};
ghost use Rattle.words.specs.Store.{Bytes};
ghost use Rattle.session.specs.Standings.{standing_of, idle_of, queueing_of, wait_of};
ghost use Rattle.session.specs.Steps.{Gives, IsLeft};
ghost use Rattle.connection.specs.Clients.{Stage, Ready, stage_of, IsOpen, IsIdle, IsQueueing, IsReady, IsCalled, mode_of, queue_of, watched_of, turn_at, Steps, Resumes};
ghost use Rattle.connection.specs.Clients as stages;

use crate::client::Next;
use session::modes::{AnySession, Called, Closed, Idle, Leaving, Queueing, Session, Step, Taken};
use std::mem;
use transact::call::Answer;
use words::command::{Command, SessionCommand};
use words::reply::{Line, Refusal, Reply};
use words::word::Words;

/// How far a client's session has come.
pub(crate) enum State {
    /// It waits for a request.
    Ready(AnySession),
    /// It waits for the answer to a call.
    Called(Called),
    /// It has ended.
    Closed(Session<Closed>),
    /// Its next step is taken.
    Stepping,
}

impl State {
    /// What a request does, whose words are these and make this command. A session in a transaction is changed where it lies.
    #[inline(never)]
    pub(crate) fn step(&mut self, words: &Words, command: Result<Command, Refusal>) -> Next
        requires ready { IsReady (stage_of self.old) }
        requires is_open { IsOpen (mode_of (stage_of self.old)) }
        requires command { command ≡ command_of words.now }
        requires bounded { IfOk command IsBounded }
        ensures { Steps (stage_of self.old) words.now result (stage_of self.new) }
    {
        if let State::Ready(AnySession::Queueing(session)) = self {
            return match session.take(words, command) {
                Taken::Stays(line) => Next::Says(Reply::line(line)),
                Taken::Leaves(Leaving::Runs) => self.run(),
                Taken::Leaves(leaving) => self.leave(leaving),
            };
        }
        self.step_other(words, command)
    }

    /// The same as [`step`](State::step), in whichever mode. It and those below stand apart, so that a command that is queued does not pay
    /// for their locals.
    #[inline(never)]
    fn step_other(&mut self, words: &Words, command: Result<Command, Refusal>) -> Next
        requires ready { IsReady (stage_of self.old) }
        requires is_open { IsOpen (mode_of (stage_of self.old)) }
        requires command { command ≡ command_of words.now }
        requires bounded { IfOk command IsBounded }
        ensures { Steps (stage_of self.old) words.now result (stage_of self.new) }
    {
        match self {
            State::Ready(AnySession::Idle(_)) if is_multi(&command) => {
                drop(command);
                self.begin()
            }
            _ => self.step_whole(words, command),
        }
    }

    /// What MULTI does.
    #[inline(never)]
    fn begin(&mut self) -> Next
        requires { IsIdle (stage_of self.old) }
        ensures { (words : List Bytes)
            → command_of words ≡ Ok (Command.Session SessionCommand.Multi)
            → Steps (stage_of self.old) words result (stage_of self.new) }
    {
        let session = self.take_idle();
        self.put(State::Ready(AnySession::Queueing(session.begin())));
        Next::Says(Reply::line(Line::Done))
    }

    /// What EXEC does, where the transaction runs.
    #[inline(never)]
    fn run(&mut self) -> Next
        requires ready { IsReady (stage_of self.old) }
        requires queueing { IsQueueing (mode_of (stage_of self.old)) }
        ensures { (words : List Bytes)
            → IsLeft (turn_at (stage_of self.old) words) (queue_of (mode_of (stage_of self.old))) Leaving.Runs
            → Steps (stage_of self.old) words result (stage_of self.new) }
    {
        let (call, called) = self.take_queueing().exec();
        self.put(State::Called(called));
        Next::Calls(call)
    }

    /// The same as [`step`](State::step), of a session that is moved.
    #[inline(never)]
    fn step_whole(&mut self, words: &Words, command: Result<Command, Refusal>) -> Next
        requires ready { IsReady (stage_of self.old) }
        requires is_open { IsOpen (mode_of (stage_of self.old)) }
        requires command { command ≡ command_of words.now }
        requires bounded { IfOk command IsBounded }
        ensures { Steps (stage_of self.old) words.now result (stage_of self.new) }
    {
        let session = self.take_ready();
        self.settle(session.step_of(words, command))
    }

    /// What a request does that leaves the transaction so.
    #[inline(never)]
    fn leave(&mut self, leaving: Leaving) -> Next
        requires ready { IsReady (stage_of self.old) }
        requires queueing { IsQueueing (mode_of (stage_of self.old)) }
        ensures { (words : List Bytes)
            → IsLeft (turn_at (stage_of self.old) words) (queue_of (mode_of (stage_of self.old))) leaving
            → Steps (stage_of self.old) words result (stage_of self.new) }
    {
        let session = self.take_queueing();
        self.settle(session.leave(leaving))
    }

    /// Where the session stands after this step, which a request gave, and what the request does.
    fn settle(&mut self, step: Step) -> Next
        requires { self.old ≡ State.Stepping }
        ensures { (old : Stage) (words : List Bytes)
            → Gives (turn_at old words) (watched_of old) step → Steps old words result (stage_of self.new) }
    {
        match step {
            Step::Says(reply, session) => {
                self.put(State::Ready(session));
                Next::Says(reply)
            }
            Step::Closes(reply, session) => {
                self.put(State::Closed(session));
                Next::Says(reply)
            }
            Step::OutOfMemory(session) => {
                self.put(State::Ready(session));
                Next::SaysOutOfMemory
            }
            Step::Calls(call, called) => {
                self.put(State::Called(called));
                Next::Calls(call)
            }
        }
    }

    /// What the session says to the answer of its call.
    pub(crate) fn resume(&mut self, answer: Answer) -> Reply
        requires { IsCalled (stage_of self.old) }
        ensures { Resumes (stage_of self.old) answer result (stage_of self.new) }
    {
        let (reply, session) = self.take_called().resume(answer);
        self.put(State::Ready(AnySession::Idle(session)));
        reply
    }

    /// Where the session stands after the step that is taken.
    fn put(&mut self, next: State)
        requires { self.old ≡ State.Stepping }
        ensures { self.new ≡ next }
    {
        match mem::replace(self, next) {
            State::Stepping => {}
            State::Ready(_session) => unreachable!(),
            State::Called(_called) => unreachable!(),
            State::Closed(_session) => unreachable!(),
        }
    }

    /// Takes the session that waits for a request, for its next step.
    fn take_ready(&mut self) -> AnySession
        requires ready { IsReady (stage_of self.old) }
        requires is_open { IsOpen (mode_of (stage_of self.old)) }
        ensures session { stage_of self.old ≡ Ready (standing_of result) }
        ensures stepping { self.new ≡ State.Stepping }
    {
        match mem::replace(self, State::Stepping) {
            State::Ready(session) => session,
            State::Called(_called) => unreachable!(),
            State::Closed(_session) => unreachable!(),
            State::Stepping => unreachable!(),
        }
    }

    /// Takes the session that is in no transaction and waits for a request, for its next step.
    fn take_idle(&mut self) -> Session<Idle>
        requires { IsIdle (stage_of self.old) }
        ensures session { stage_of self.old ≡ Ready (idle_of result) }
        ensures stepping { self.new ≡ State.Stepping }
    {
        match mem::replace(self, State::Stepping) {
            State::Ready(AnySession::Idle(session)) => session,
            State::Ready(AnySession::Queueing(_session)) => unreachable!(),
            State::Ready(AnySession::Spoiled(_session)) => unreachable!(),
            State::Called(_called) => unreachable!(),
            State::Closed(_session) => unreachable!(),
            State::Stepping => unreachable!(),
        }
    }

    /// Takes the session that is in a transaction and waits for a request, for its next step.
    fn take_queueing(&mut self) -> Session<Queueing>
        requires ready { IsReady (stage_of self.old) }
        requires queueing { IsQueueing (mode_of (stage_of self.old)) }
        ensures session { stage_of self.old ≡ Ready (queueing_of result) }
        ensures stepping { self.new ≡ State.Stepping }
    {
        match mem::replace(self, State::Stepping) {
            State::Ready(AnySession::Queueing(session)) => session,
            State::Ready(AnySession::Idle(_session)) => unreachable!(),
            State::Ready(AnySession::Spoiled(_session)) => unreachable!(),
            State::Called(_called) => unreachable!(),
            State::Closed(_session) => unreachable!(),
            State::Stepping => unreachable!(),
        }
    }

    /// Takes the session that waits for an answer, for its next step.
    fn take_called(&mut self) -> Called
        requires { IsCalled (stage_of self.old) }
        ensures session { stage_of self.old ≡ stages.Called (wait_of result) }
        ensures stepping { self.new ≡ State.Stepping }
    {
        match mem::replace(self, State::Stepping) {
            State::Called(called) => called,
            State::Ready(_session) => unreachable!(),
            State::Closed(_session) => unreachable!(),
            State::Stepping => unreachable!(),
        }
    }
}

/// Whether a request is MULTI.
fn is_multi(command: &Result<Command, Refusal>) -> bool
    ensures { IsTrue result ↔ (command.now ≡ Ok (Command.Session SessionCommand.Multi)) }
{
    matches!(command, Ok(Command::Session(SessionCommand::Multi)))
}

//! The session of a client of the world: what it was fed, and what it was written.

ghost use Rattle.std.specs.Prelude.{◌≡◌, ◌++◌, [], true, false, not, ◌&&◌, IfOk, OnOk, IsSome, is_some};
ghost use Rattle.words.specs.Encoding.{encoding};
ghost use Rattle.transact.specs.Calls.{asked_of};
ghost use Rattle.connection.specs.Clients.{IsReady, IsCalled};
ghost use Rattle.world_model.specs.States.{fresh, open_call};
ghost use Rattle.world_model.specs.States as phases;
ghost use Rattle.world_model.specs.Enabled.{has_ended, hears};
ghost use Rattle.world_model.specs.Advancing.{Advances, is_idle, leaving};
ghost use Rattle.world_model.specs.Effects.{fed, heard};
ghost use Rattle.world.specs.Peers.{Comes, HasAnswered, HasBeenRefused, HasForgotten, HasGivenUp, HasOperated, IsKind, IsKindOf, IsAsking, IsCalling, IsEndable, IsForgetting, IsLeaving, IsServing, IsSteady, OnCall, StepsOn, Takes, phase_of, progress_of};

use crate::watched::watch_keys;
use bytes::Bytes;
use connection::conversation::{is_done, is_forgotten, is_undone, says};
use connection::{Client, Next};
use resp_write::encode;
use std::alloc::Global;
use std::marker::Model;
use std::mem;
use transact::call::{Answer, Call, Watching};
use words::history::{Operation, Pairs};
use words::reply::{Fault, Line, Reply};
use words::word::Word;
use world_log::Stopped;

/// How far a client has come.
pub(crate) enum Phase {
    /// It has no open call.
    Serving(Client),
    /// It waits for the answer to its open call.
    Calling(Client, Call),
    /// Its session is over. A call is open that forgets what it watched.
    Leaving(Watching),
    /// Its session is over, and it watches nothing.
    Left,
    /// It has ended.
    Ended,
}

impl Phase {
    /// Feeds its session a piece, if it is not over.
    fn feed(&mut self, piece: &Bytes) -> Result<(), Stopped>
        ensures fed { OnOk result (phase_of self.new ≡ fed (phase_of self.old) piece.now) }
        ensures endable { IsEndable (phase_of self.old) → IsEndable (phase_of self.new) }
    {
        match self {
            Phase::Serving(client) => feed(client, piece),
            Phase::Calling(client, _) => feed(client, piece),
            Phase::Leaving(_) | Phase::Left | Phase::Ended => Ok(()),
        }
    }
}

/// A client's session. It cannot be dropped: [`end`](Peer::end) ends it.
pub(crate) struct Peer {
    alloc: Global,
    input: Vec<u8>,
    closed: bool,
    phase: Phase,
    watches: Vec<(Word, u64)>,
    output: Vec<u8>,
}

impl Model for Peer {
    ghost use Rattle.world_model.specs.States.{ClientState};
    ghost use Rattle.world.specs.Peers.{seen};

    ghost Value = { ClientState };

    ghost view = { seen };
}

/// The open call of a client.
#[derive(Drop)]
pub(crate) enum Open<'a> {
    /// It has none.
    Nothing,
    /// Its session waits for the answer.
    Call(&'a Call),
    /// It forgets what its session watched, which is over.
    Forget(&'a Watching),
}

/// What an open call is for.
#[derive(Clone, Copy)]
pub(crate) enum Kind {
    /// It asks the store for something.
    Asks,
    /// It only forgets, and its session then says something.
    Forgets,
    /// It forgets what a session watched that is over.
    Leaves,
}

/// What a call of a session is for.
fn kind_of(call: &Call) -> Kind
    ensures { IsKindOf result call.now }
{
    match call {
        Call::One(_) => Kind::Asks,
        Call::Watch(_) => Kind::Asks,
        Call::Exec(..) => Kind::Asks,
        Call::Forget(_) => Kind::Forgets,
    }
}

impl Peer {
    /// A client that was fed nothing. It takes no memory.
    pub(crate) fn new(alloc: Global) -> Peer
        ensures fresh { result ≡ fresh }
    {
        Peer {
            alloc,
            input: Vec::new(alloc),
            closed: false,
            phase: Phase::Serving(Client::new(alloc)),
            watches: Vec::new(alloc),
            output: Vec::new(alloc),
        }
    }

    /// Whether it takes input.
    pub(crate) fn hears(&self) -> bool
        ensures { result ≡ hears self.now }
    {
        !self.closed && !matches!(self.phase, Phase::Ended)
    }

    /// Whether it has no open call, and has not ended.
    pub(crate) fn is_idle(&self) -> bool
        ensures { result ≡ is_idle self.now.phase }
    {
        matches!(self.phase, Phase::Serving(_) | Phase::Left)
    }

    /// Its open call.
    pub(crate) fn open(&self) -> Open<'_>
        ensures { OnCall result self.now.phase }
    {
        match &self.phase {
            Phase::Calling(_, call) => Open::Call(call),
            Phase::Leaving(watching) => Open::Forget(watching),
            Phase::Serving(_) | Phase::Left | Phase::Ended => Open::Nothing,
        }
    }

    /// Whether it has an open call.
    pub(crate) fn has_call(&self) -> bool
        ensures { result ≡ is_some (open_call self.now.phase) }
    {
        matches!(self.phase, Phase::Calling(..) | Phase::Leaving(_))
    }

    /// What its open call is for, where it has one.
    pub(crate) fn kind(&self) -> Kind
        requires { is_some (open_call self.now.phase) ≡ true }
        ensures { IsKind result self.now.phase }
    {
        match &self.phase {
            Phase::Calling(_, call) => kind_of(call),
            Phase::Leaving(_) => Kind::Leaves,
            Phase::Serving(_) | Phase::Left | Phase::Ended => unreachable!(),
        }
    }

    /// What was written to it.
    pub(crate) fn output(&self) -> &[u8]
        ensures { result.now ≡ self.now.output }
    {
        self.output.as_slice()
    }

    /// Feeds it a piece of its input.
    pub(crate) fn hear(&mut self, piece: &Bytes) -> Result<(), Stopped>
        requires { IsEndable self.old.phase }
        ensures heard { OnOk result (self.new ≡ heard self.old piece.now) }
        ensures endable { IsEndable self.new.phase }
    {
        let Ok(()) = self.input.extend_from_slice(piece.as_slice()) else {
            return Err(Stopped);
        };
        self.phase.feed(piece)
    }

    /// Its input is at its end.
    pub(crate) fn close(&mut self)
        ensures { self.new ≡ record self.old { closed = true } }
    {
        self.closed = true;
    }

    /// Lets it advance.
    pub(crate) fn advance(&mut self) -> Result<(), Stopped>
        requires idle { is_idle self.old.phase ≡ true }
        requires steady { IsSteady self.old }
        ensures advances { OnOk result (Advances self.old self.old.phase self.new) }
        ensures endable { IsEndable self.new.phase }
    {
        if let Phase::Left = &self.phase {
            self.put(Phase::Ended);
            return Ok(());
        }
        while self.step()? {}
        Ok(())
    }

    /// Answers its next request and says so, or goes no further.
    fn step(&mut self) -> Result<bool, Stopped>
        requires serving { IsServing self.old.phase }
        requires steady { IsSteady self.old }
        ensures steps { IfOk result (λ on. StepsOn on self.old self.new) }
        ensures steady { IfOk result (λ on. on ≡ true → IsSteady self.new) }
        ensures endable { IsEndable self.new.phase }
    {
        says();
        match self.next() {
            Next::Input => {
                if self.closed {
                    self.leave();
                }
                Ok(false)
            }
            Next::Says(reply) => {
                self.tell(reply)?;
                Ok(true)
            }
            Next::Calls(call) => {
                self.wait_for(call);
                Ok(false)
            }
            Next::Malformed(fault) => {
                self.tell(Reply::line(Line::Malformed(fault)))?;
                self.leave();
                Ok(false)
            }
            Next::Closed => {
                self.leave();
                Ok(false)
            }
            Next::SaysOutOfMemory => Err(Stopped),
            Next::OutOfMemory => Err(Stopped),
        }
    }

    /// What its session does next.
    fn next(&mut self) -> Next
        requires serving { IsServing self.old.phase }
        requires steady { IsSteady self.old }
        ensures { Comes self.old result self.new }
    {
        match &mut self.phase {
            Phase::Serving(client) => client.next(),
            _ => unreachable!(),
        }
    }

    /// Writes a reply to it.
    fn say(&mut self, reply: &Reply) -> Result<(), Stopped>
        ensures said { OnOk result (self.new ≡ record self.old { output = self.old.output ++ encoding reply.now }) }
        ensures phase { self.new.phase ≡ self.old.phase }
    {
        match encode(reply, &mut self.output) {
            Ok(()) => Ok(()),
            Err(_) => Err(Stopped),
        }
    }

    /// Writes a reply to it that is not needed any more.
    fn tell(&mut self, reply: Reply) -> Result<(), Stopped>
        ensures said { OnOk result (self.new ≡ record self.old { output = self.old.output ++ encoding reply }) }
        ensures phase { self.new.phase ≡ self.old.phase }
    {
        self.say(&reply)
    }

    /// Its next request opened a call, and it waits for the answer.
    fn wait_for(&mut self, call: Call)
        requires serving { IsServing self.old.phase }
        ensures { self.new ≡ record self.old { phase = phases.Calling (progress_of self.old.phase) call } }
    {
        let client = self.take_serving();
        self.put(Phase::Calling(client, call));
    }

    /// Its session is over: it forgets what it watched, or has ended.
    fn leave(&mut self)
        requires serving { IsServing self.old.phase }
        requires steady { IsSteady self.old }
        ensures { self.new ≡ leaving self.old [] }
    {
        let phase = match self.take_serving().close() {
            None => Phase::Ended,
            Some(Call::Forget(watching)) => Phase::Leaving(watching),
            Some(_) => unreachable!(),
        };
        self.put(phase);
    }

    /// Its call was committed and has this reply, which is said; the entry stands at this position. It gives
    /// what was done.
    pub(crate) fn answer(
        &mut self,
        reply: Reply,
        position: u64,
    ) -> Result<(Operation, Reply), Stopped>
        requires asking { IsAsking self.old.phase }
        requires steady { IsSteady self.old }
        ensures answered { IfOk result (λ done. HasAnswered self.old self.old.phase reply position done self.new) }
        ensures steady { OnOk result (IsSteady self.new) }
        ensures endable { IsEndable self.new.phase }
    {
        is_done();
        let (call, reply) = self.resume(Answer::Reply(reply));
        match self.conclude(call, &reply, position) {
            Ok(operation) => Ok((operation, reply)),
            Err(stopped) => Err(stopped),
        }
    }

    /// Its session takes the answer to its call. It gives the call, and what the session says.
    fn resume(&mut self, answer: Answer) -> (Call, Reply)
        requires calling { IsCalling self.old.phase }
        requires steady { IsSteady self.old }
        ensures { Takes self.old answer result.0 result.1 self.new }
    {
        let (mut client, call) = self.take_calling();
        let reply = client.resume(answer);
        self.put(Phase::Serving(client));
        (call, reply)
    }

    /// Writes the reply to its call at this position, and gives what was done.
    fn conclude(&mut self, call: Call, reply: &Reply, position: u64) -> Result<Operation, Stopped>
        requires asks { IsSome (asked_of call) }
        ensures concluded { IfOk result (λ operation.
            HasOperated (record self.old { output = self.old.output ++ encoding reply.now }) call position operation self.new) }
        ensures phase { self.new.phase ≡ self.old.phase }
    {
        if let Err(stopped) = self.say(reply) {
            call.spend();
            return Err(stopped);
        }
        self.operation(call, position)
    }

    /// What was done by a call at this position, by which the keys change that it watches.
    fn operation(&mut self, call: Call, position: u64) -> Result<Operation, Stopped>
        requires asks { IsSome (asked_of call) }
        ensures operated { IfOk result (λ operation. HasOperated self.old call position operation self.new) }
        ensures phase { self.new.phase ≡ self.old.phase }
    {
        match call {
            Call::One(command) => Ok(Operation::Run(command)),
            Call::Watch(keys) => {
                match watch_keys(&mut self.watches, keys.as_slice(), position) {
                    Ok(()) => Ok(Operation::Watch(keys)),
                    Err(_) => Err(Stopped),
                }
            }
            Call::Exec(commands, watching) => {
                drop(watching.into_keys());
                Ok(Operation::Exec(commands, self.take_watches()))
            }
            Call::Forget(_watching) => unreachable!(),
        }
    }

    /// Its call met a full stripe, and what its session then says is written. The watches of a transaction end.
    pub(crate) fn refuse(&mut self) -> Result<(), Stopped>
        requires asking { IsAsking self.old.phase }
        requires steady { IsSteady self.old }
        ensures refused { OnOk result (HasBeenRefused self.old self.old.phase self.new) }
        ensures steady { OnOk result (IsSteady self.new) }
        ensures endable { IsEndable self.new.phase }
    {
        is_undone();
        let (call, reply) = self.resume(Answer::Fault(Fault::StoreFull));
        self.give_up(call);
        self.tell(reply)
    }

    /// Lets a call go that was not done. Where it is a transaction, nothing is watched any more.
    fn give_up(&mut self, call: Call)
        requires asks { IsSome (asked_of call) }
        ensures { HasGivenUp self.old call self.new }
    {
        match call {
            Call::One(command) => drop(command),
            Call::Watch(keys) => drop(keys),
            Call::Exec(commands, watching) => {
                drop(commands);
                drop(watching.into_keys());
                drop(self.take_watches());
            }
            Call::Forget(_watching) => unreachable!(),
        }
    }

    /// Its call was committed that only forgets, and what its session then says is written.
    pub(crate) fn forget(&mut self) -> Result<(), Stopped>
        requires forgetting { IsForgetting self.old.phase }
        requires steady { IsSteady self.old }
        ensures forgotten { OnOk result (HasForgotten self.old self.old.phase self.new) }
        ensures steady { OnOk result (IsSteady self.new) }
        ensures endable { IsEndable self.new.phase }
    {
        is_forgotten();
        let (call, reply) = self.resume(Answer::Reply(Reply::line(Line::Done)));
        call.spend();
        drop(self.take_watches());
        self.tell(reply)
    }

    /// What it watched is forgotten, and its session is over.
    pub(crate) fn left(&mut self)
        requires { IsLeaving self.old.phase }
        ensures { self.new ≡ record self.old { phase = phases.Left; watches = [] } }
    {
        let watching = self.take_leaving();
        drop(watching.into_keys());
        drop(self.take_watches());
        self.put(Phase::Left);
    }

    /// What it does from here on, in place of nothing.
    fn put(&mut self, phase: Phase)
        requires { self.old.phase ≡ phases.Left }
        ensures { self.new ≡ record self.old { phase = phase_of phase } }
    {
        match mem::replace(&mut self.phase, phase) {
            Phase::Left => {}
            Phase::Ended => unreachable!(),
            Phase::Serving(_client) => unreachable!(),
            Phase::Calling(_client, _call) => unreachable!(),
            Phase::Leaving(_watching) => unreachable!(),
        }
    }

    /// Takes its session, for which there is no call.
    fn take_serving(&mut self) -> Client
        requires { IsServing self.old.phase }
        ensures session { self.old.phase ≡ phases.Serving result }
        ensures taken { self.new ≡ record self.old { phase = phases.Left } }
    {
        match mem::replace(&mut self.phase, Phase::Left) {
            Phase::Serving(client) => client,
            Phase::Left => unreachable!(),
            Phase::Ended => unreachable!(),
            Phase::Calling(_client, _call) => unreachable!(),
            Phase::Leaving(_watching) => unreachable!(),
        }
    }

    /// Takes its session and its open call.
    fn take_calling(&mut self) -> (Client, Call)
        requires { IsCalling self.old.phase }
        ensures session { self.old.phase ≡ phases.Calling result.0 result.1 }
        ensures taken { self.new ≡ record self.old { phase = phases.Left } }
    {
        match mem::replace(&mut self.phase, Phase::Left) {
            Phase::Calling(client, call) => (client, call),
            Phase::Left => unreachable!(),
            Phase::Ended => unreachable!(),
            Phase::Serving(_client) => unreachable!(),
            Phase::Leaving(_watching) => unreachable!(),
        }
    }

    /// Takes what its session watched, which is over.
    fn take_leaving(&mut self) -> Watching
        requires { IsLeaving self.old.phase }
        ensures watched { self.old.phase ≡ phases.Leaving result }
        ensures taken { self.new ≡ record self.old { phase = phases.Left } }
    {
        match mem::replace(&mut self.phase, Phase::Left) {
            Phase::Leaving(watching) => watching,
            Phase::Left => unreachable!(),
            Phase::Ended => unreachable!(),
            Phase::Serving(_client) => unreachable!(),
            Phase::Calling(_client, _call) => unreachable!(),
        }
    }

    /// Takes the keys that it watches, with their positions.
    fn take_watches(&mut self) -> Pairs
        ensures taken { result ≡ self.old.watches }
        ensures none { self.new ≡ record self.old { watches = [] } }
    {
        let alloc = self.alloc;
        Pairs::from_vec(mem::replace(&mut self.watches, Vec::new(alloc)))
    }

    /// Ends it, whatever it does.
    pub(crate) fn end(self)
        requires { IsEndable self.phase }
    {
        let Peer {
            alloc: _,
            input: _,
            closed: _,
            phase,
            watches: _,
            output: _,
        } = self;
        match phase {
            Phase::Serving(client) => end_client(client),
            Phase::Calling(client, call) => end_called(client, call),
            Phase::Leaving(watching) => drop(watching.into_keys()),
            Phase::Left | Phase::Ended => {}
        }
    }
}

/// Feeds a client's session a piece.
fn feed(client: &mut Client, piece: &Bytes) -> Result<(), Stopped>
    ensures ok { OnOk result (client.new ≡ record client.old { unread = client.old.unread ++ piece.now }) }
    ensures stage { client.new.stage ≡ client.old.stage }
{
    let Ok(piece) = piece.clone() else {
        return Err(Stopped);
    };
    match client.feed(piece) {
        Ok(()) => Ok(()),
        Err(_) => Err(Stopped),
    }
}

/// Ends a session that waits for a request, or is over.
fn end_client(client: Client)
    requires { IsReady client.stage }
{
    if let Some(call) = client.close() {
        call.spend();
    }
}

/// Ends a session that waits for the answer to a call.
fn end_called(mut client: Client, call: Call)
    requires { IsCalled client.stage }
{
    call.spend();
    drop(client.resume(Answer::Reply(Reply::line(Line::Done))));
    end_client(client);
}

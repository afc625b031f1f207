//! The world: clients, stripes on logs, a device and a history.

ghost use Rattle.std.specs.Prelude.{ℕ, ◌≡◌, ◌<◌, ◌++◌, ◌∷◌, ◌&&◌, List, [], true, is_none, IfNone, IfOk, OnOk, IfSome, None, Some, length, reverse, vec_len};
ghost use Rattle.world_model.specs.Actors.{actor};
ghost use Rattle.world_model.specs.declared.event.Event.TheVariants.{Piece, Close, Take, Commit, Fetch, Give};
ghost use Rattle.world_model.specs.declared.event.Event.TheVariants as event;
ghost use Rattle.world_model.specs.declared.event.Event.{Event};
ghost use Rattle.world_model.specs.States.{open_call, start};
ghost use Rattle.world_model.specs.States as states;
ghost use Rattle.world_model.specs.Advancing.{Goes, is_idle};
ghost use Rattle.world_model.specs.Enabled.{holds_none, is_enabled, is_enabled_for, next_stripe};
ghost use Rattle.world_model.specs.Places.{NoneReleased};
ghost use Rattle.world_model.specs.Resting.{Finishes, IsAtRest, IsOfCall, events_left};
ghost use Rattle.world_model.specs.Told.{Headline};
ghost use Rattle.world_model.specs.Turns.{Turn, Turns};
ghost use Rattle.world_log.specs.Stripes.{holders_of};
ghost use Rattle.world_log.specs.WorldLogs.{IsWorldLog, stays_of};
ghost use Rattle.world.specs.declared.desk.Stage.TheVariants as stage;
ghost use Rattle.world.specs.Still.{GivesNone, IsStill, TakesNone};
ghost use Rattle.world.specs.Peers.{IsAsking, IsEndable, IsForgetting, IsLeaving};
ghost use Rattle.world.specs.Tables.{AreEndable, AreNew, Handled, Handles, HasAnsweredAt, HasComeTo, HasCommitted, HasGoneOn, HasHeld, HasWorked, IsAskingAt, IsReadyFor, IsStageAt, IsTaken, IsWorld, rest_of, state_of};

use crate::desk::{Desk, Plan, Stage};
use crate::laws::{laws, plan_laws};
use crate::member::Member;
use crate::peer::{Kind, Open, Peer};
use crate::planning::{end_watches, forget_watched, install, run};
use bytes::Bytes;
use std::alloc::{AllocError, Global};
use words::history::Entry;
use words::limits::Limits;
use words::reply::Reply;
use words::word::OutOfMemory;
use world_log::{Stopped, WorldLog};
use world_model::Event;

/// Clients, stripes and a history, driven by events. It cannot be dropped, since what its clients watch
/// cannot: [`end`](World::end) ends it.
pub struct World {
    alloc: Global,
    members: Vec<Member>,
    log: WorldLog,
    history: Vec<Entry>,
}

#[tactic(auto, unfolding(crate::specs::Tables::state_of))]
impl World {
    /// A world with so many clients, and stripes of so many frames and places, where nothing was done.
    ///
    /// # Errors
    ///
    /// [`OutOfMemory`] where there is no memory for the clients or the stripes.
    pub fn new(alloc: Global, limits: &Limits) -> Result<World, OutOfMemory>
        ensures start { IfOk result (λ world. state_of world ≡ start limits.now.stripes limits.now.clients limits.now.frames limits.now.places) }
        ensures world { IfOk result IsWorld }
    {
        laws();
        let Ok(log) = WorldLog::new(alloc, limits) else {
            return Err(AllocError);
        };
        let members = new_members(alloc, limits.clients)?;
        Ok(World {
            alloc,
            members,
            log,
            history: Vec::new(alloc),
        })
    }

    /// Does what the events do, in order. An event that is not enabled changes nothing.
    ///
    /// # Errors
    ///
    /// [`Stopped`] where an event found no memory. The world was given up.
    pub fn run(self, events: &[Event]) -> Result<World, Stopped>
        requires world { IsWorld self }
        ensures turns { IfOk result (λ world. Turns (state_of self) events.now (state_of world)) }
        ensures headline { IfOk result (λ world. Headline (state_of world)) }
        ensures places { IfOk result (λ world. NoneReleased (state_of world)) }
        ensures world { IfOk result IsWorld }
    {
        let mut world = self;
        match world.do_all(events) {
            Ok(()) => {
                world.tells();
                Ok(world)
            }
            Err(stopped) => {
                end_members(world.into_members());
                Err(stopped)
            }
        }
    }

    /// Does what one event does, and says whether it was enabled. An event that is not enabled changes nothing.
    ///
    /// # Errors
    ///
    /// [`Stopped`] where the event found no memory. The world was given up.
    pub fn step(self, event: &Event) -> Result<(World, bool), Stopped>
        requires world { IsWorld self }
        ensures turn { IfOk result (λ next. Turn (state_of self) event.now (state_of next.0)) }
        ensures done { IfOk result (λ next. next.1 ≡ is_enabled (state_of self) event.now) }
        ensures headline { IfOk result (λ next. Headline (state_of next.0)) }
        ensures places { IfOk result (λ next. NoneReleased (state_of next.0)) }
        ensures world { IfOk result (λ next. IsWorld next.0) }
    {
        let mut world = self;
        match world.turn(event) {
            Ok(done) => {
                world.tells();
                Ok((world, done))
            }
            Err(stopped) => {
                end_members(world.into_members());
                Err(stopped)
            }
        }
    }

    /// Does events of calls, each as [`next_event`](World::next_event) gives it, until each client rests: it has no open call,
    /// holds no stripe, and was told all that is due. It always gets there, whatever was done before.
    ///
    /// # Errors
    ///
    /// [`Stopped`] where an event found no memory. The world was given up.
    pub fn finish(self) -> Result<World, Stopped>
        requires world { IsWorld self }
        ensures finished { IfOk result (λ world. (events : List Event) × Finishes (state_of self) events (state_of world)) }
        ensures headline { IfOk result (λ world. Headline (state_of world)) }
        ensures places { IfOk result (λ world. NoneReleased (state_of world)) }
        ensures world { IfOk result IsWorld }
    {
        let mut world = self;
        match world.come_to_rest() {
            Ok(()) => {
                world.tells();
                Ok(world)
            }
            Err(stopped) => {
                end_members(world.into_members());
                Err(stopped)
            }
        }
    }

    /// An event of a call that is enabled: a commit, a fetch, a take or a give of the first client that may do one. `None` only
    /// where each client rests.
    pub fn next_event(&self) -> Option<Event>
        requires world { IsWorld self.now }
        ensures of_call { IfSome result IsOfCall }
        ensures enabled { IfSome result (λ event. is_enabled (state_of self.now) event ≡ true) }
        ensures rest { IfNone result ((c : ℕ) → c < length (state_of self.now).clients → IsAtRest (state_of self.now) c) }
    {
        self.tells();
        laws();
        for client in 0..self.members.len() {
            if let Some(event) = self.event_of(client) {
                return Some(event);
            }
        }
        None
    }

    /// What was written to a client, by its number.
    pub fn output(&self, client: usize) -> &[u8]
        requires { client < length (state_of self.now).clients }
        ensures { result.now ≡ (states.client (state_of self.now) client).output }
    {
        self.members[client].peer.output()
    }

    /// How many clients there are.
    pub fn clients(&self) -> usize
        ensures { result ≡ length (state_of self.now).clients }
    {
        self.members.len()
    }

    /// The history, the oldest entry first.
    pub fn history(&self) -> &[Entry]
        ensures { reverse result.now ≡ (state_of self.now).history }
    {
        self.history.as_slice()
    }

    /// Ends it. What its clients still watch is forgotten with it.
    pub fn end(self)
        requires { IsWorld self }
    {
        self.rests();
        end_members(self.into_members());
    }

    /// Does what the events do, in order.
    fn do_all(&mut self, events: &[Event]) -> Result<(), Stopped>
        requires world { IsWorld self.old }
        ensures turns { OnOk result (Turns (state_of self.old) events.now (state_of self.new)) }
        ensures world { OnOk result (IsWorld self.new) }
        ensures endable { AreEndable self.new.members.items }
    {
        let mut left = events;
        while let Some((event, others)) = left.split_first() {
            let _done = self.turn(event)?;
            left = others;
        }
        self.rests();
        Ok(())
    }

    /// Does events of calls until each client rests.
    fn come_to_rest(&mut self) -> Result<(), Stopped>
        requires world { IsWorld self.old }
        ensures finished { OnOk result ((events : List Event) × Finishes (state_of self.old) events (state_of self.new)) }
        ensures world { OnOk result (IsWorld self.new) }
        ensures endable { AreEndable self.new.members.items }
    {
        while let Some(event) = self.next_event() {
            self.follow(&event)?;
        }
        self.rests();
        Ok(())
    }

    /// Does an event of a call, which is enabled. Fewer are left then.
    fn follow(&mut self, event: &Event) -> Result<(), Stopped>
        requires world { IsWorld self.old }
        requires of_call { IsOfCall event.now }
        requires enabled { is_enabled (state_of self.old) event.now ≡ true }
        ensures turn { OnOk result (Turn (state_of self.old) event.now (state_of self.new)) }
        ensures fewer { OnOk result (events_left (state_of self.new) < events_left (state_of self.old)) }
        ensures world { OnOk result (IsWorld self.new) }
        ensures endable { AreEndable self.new.members.items }
    {
        laws();
        let _enabled = self.turn(event)?;
        Ok(())
    }

    /// An event of a client's call that is enabled, if one is.
    fn event_of(&self, client: usize) -> Option<Event>
        requires log { IsWorldLog self.now.log }
        requires within { client < vec_len self.now.members }
        ensures of_call { IfSome result IsOfCall }
        ensures own { IfSome result (λ event. actor event ≡ Some client) }
        ensures enabled { IfSome result (λ event. is_enabled_for (state_of self.now) client (states.client (state_of self.now) client) event ≡ true) }
        ensures still { IfNone result (IsStill (state_of self.now) client) }
    {
        if self.may_commit(client) {
            return Some(Event::Commit(client));
        }
        if self.may_fetch(client) {
            return Some(Event::Fetch(client));
        }
        if let Some(stripe) = self.taken_by(client) {
            return Some(Event::Take(client, stripe));
        }
        match self.given_by(client) {
            Some(stripe) => Some(Event::Give(client, stripe)),
            None => None,
        }
    }

    /// The stripe that a client may take, if it may take one.
    fn taken_by(&self, client: usize) -> Option<usize>
        requires log { IsWorldLog self.now.log }
        requires within { client < vec_len self.now.members }
        ensures may { IfSome result (λ i. is_enabled_for (state_of self.now) client (states.client (state_of self.now) client) (Take client i) ≡ true) }
        ensures none { IfNone result (TakesNone (state_of self.now) client) }
    {
        match self.next_stripe(client) {
            Some(stripe) if self.may_take(client, stripe) => Some(stripe),
            _ => None,
        }
    }

    /// A stripe that a client may give back, if it may give one.
    fn given_by(&self, client: usize) -> Option<usize>
        requires within { client < vec_len self.now.members }
        ensures may { IfSome result (λ i. is_enabled_for (state_of self.now) client (states.client (state_of self.now) client) (Give client i) ≡ true) }
        ensures none { IfNone result (GivesNone (state_of self.now) client) }
    {
        for stripe in 0..self.log.stripes.count() {
            if self.may_give(client, stripe) {
                return Some(stripe);
            }
        }
        None
    }

    /// Does what an event does, and says whether it was enabled.
    fn turn(&mut self, event: &Event) -> Result<bool, Stopped>
        requires world { IsWorld self.old }
        ensures turn { OnOk result (Turn (state_of self.old) event.now (state_of self.new)) }
        ensures told { IfOk result (λ done. done ≡ is_enabled (state_of self.old) event.now) }
        ensures world { OnOk result (IsWorld self.new) }
        ensures endable { AreEndable self.new.members.items }
    {
        match event.actor() {
            Some(client) => self.act(client, event),
            None => self.work(event),
        }
    }

    /// Does what an event of a client does, and says whether it was enabled.
    fn act(&mut self, client: usize, event: &Event) -> Result<bool, Stopped>
        requires world { IsWorld self.old }
        requires actor { actor event.now ≡ Some client }
        ensures turn { OnOk result (Turn (state_of self.old) event.now (state_of self.new)) }
        ensures told { IfOk result (λ done. done ≡ is_enabled (state_of self.old) event.now) }
        ensures world { OnOk result (IsWorld self.new) }
        ensures endable { AreEndable self.new.members.items }
    {
        self.rests();
        laws();
        if client >= self.members.len() {
            return Ok(false);
        }
        if !self.handle(client, event)? {
            return Ok(false);
        }
        self.go_on(client)?;
        Ok(true)
    }

    /// Does what an event of a stripe does, and says whether it was enabled.
    fn work(&mut self, event: &Event) -> Result<bool, Stopped>
        requires world { IsWorld self.old }
        requires actor { actor event.now ≡ None }
        ensures turn { OnOk result (Turn (state_of self.old) event.now (state_of self.new)) }
        ensures told { IfOk result (λ done. done ≡ is_enabled (state_of self.old) event.now) }
        ensures world { OnOk result (IsWorld self.new) }
        ensures endable { AreEndable self.new.members.items }
    {
        self.rests();
        laws();
        match event {
            Event::Copy(i) => self.log.copy(self.alloc, *i),
            Event::Write(i) => self.log.write(*i),
            Event::Install(i) => Ok(self.log.install(*i)),
            Event::Drop(i) => Ok(self.log.evict(*i)),
            Event::Unlink(i) => self.unlink(*i),
            Event::Retire(i) => self.log.retire(*i),
            Event::Drain(i) => self.drain(*i),
            Event::Release(i, page) => self.log.release(*i, page),
            _ => unreachable!(),
        }
    }

    /// The cleaner unlinks the oldest page of a stripe.
    fn unlink(&mut self, i: usize) -> Result<bool, Stopped>
        requires world { IsWorld self.old }
        ensures worked { OnOk result (HasWorked (event.Unlink i) self.old self.new) }
        ensures told { IfOk result (λ done. done ≡ is_enabled (state_of self.old) (event.Unlink i)) }
        ensures same { self.new ≡ record self.old { log = self.new.log } }
    {
        laws();
        let stays = self.stays()?;
        self.log.unlink(self.alloc, i, stays.as_slice())
    }

    /// The oldest retired place of a stripe is drained.
    fn drain(&mut self, i: usize) -> Result<bool, Stopped>
        requires log { IsWorldLog self.old.log }
        ensures worked { OnOk result (HasWorked (event.Drain i) self.old self.new) }
        ensures told { IfOk result (λ done. done ≡ is_enabled (state_of self.old) (event.Drain i)) }
        ensures same { self.new ≡ record self.old { log = self.new.log } }
    {
        let stays = self.stays()?;
        self.log.drain(i, stays.as_slice())
    }

    /// The stays of all clients.
    fn stays(&self) -> Result<Vec<Option<u64>>, Stopped>
        ensures { IfOk result (λ stays. stays.items ≡ stays_of (rest_of self.now)) }
    {
        let mut stays = Vec::new(self.alloc);
        for member in &self.members {
            let Ok(()) = stays.push(member.desk.stay) else {
                return Err(Stopped);
            };
        }
        Ok(stays)
    }

    /// Whether an event of a client is enabled.
    fn may(&self, client: usize, event: &Event) -> bool
        requires log { IsWorldLog self.now.log }
        requires within { client < vec_len self.now.members }
        requires actor { actor event.now ≡ Some client }
        ensures { result ≡ is_enabled_for (state_of self.now) client (states.client (state_of self.now) client) event.now }
    {
        match event {
            Event::Piece(_, _) | Event::Close(_) => self.members[client].peer.hears(),
            Event::Take(_, stripe) => self.may_take(client, *stripe),
            Event::Fetch(_) => self.may_fetch(client),
            Event::Commit(_) => self.may_commit(client),
            Event::Give(_, stripe) => self.may_give(client, *stripe),
            _ => unreachable!(),
        }
    }

    /// Whether a client takes this stripe next, and may.
    fn may_take(&self, client: usize, stripe: usize) -> bool
        requires log { IsWorldLog self.now.log }
        requires within { client < vec_len self.now.members }
        ensures { result ≡ is_enabled_for (state_of self.now) client (states.client (state_of self.now) client) (Take client stripe) }
    {
        self.next_stripe(client) == Some(stripe)
            && self.log.stripes.is_free(stripe)
            && self.members[client].desk.due.is_empty()
    }

    /// Whether a client may read the pages that its call lacks.
    fn may_fetch(&self, client: usize) -> bool
        requires within { client < vec_len self.now.members }
        ensures { result ≡ is_enabled_for (state_of self.now) client (states.client (state_of self.now) client) (Fetch client) }
    {
        !self.members[client].desk.due.is_empty() && self.log.stripes.has_none_of(client)
    }

    /// Whether a client's open call may be committed.
    fn may_commit(&self, client: usize) -> bool
        requires log { IsWorldLog self.now.log }
        requires within { client < vec_len self.now.members }
        ensures { result ≡ is_enabled_for (state_of self.now) client (states.client (state_of self.now) client) (Commit client) }
    {
        self.members[client].peer.has_call()
            && self.next_stripe(client).is_none()
            && self.members[client].desk.due.is_empty()
    }

    /// Whether a client may give this stripe back.
    fn may_give(&self, client: usize, stripe: usize) -> bool
        requires within { client < vec_len self.now.members }
        ensures { result ≡ is_enabled_for (state_of self.now) client (states.client (state_of self.now) client) (Give client stripe) }
    {
        let member = &self.members[client];
        self.log.stripes.is_held_by(client, stripe)
            && (!member.peer.has_call() || !member.desk.due.is_empty())
    }

    /// Does an event of a client, if it is enabled, and says whether it was.
    fn handle(&mut self, client: usize, event: &Event) -> Result<bool, Stopped>
        requires world { IsWorld self.old }
        requires within { client < vec_len self.old.members }
        requires actor { actor event.now ≡ Some client }
        ensures handles { IfOk result (λ done. Handles done self.old client event.now self.new) }
        ensures endable { AreEndable self.new.members.items }
    {
        self.rests();
        if !self.may(client, event) {
            return Ok(false);
        }
        match event {
            Event::Piece(_, bytes) => self.piece(client, bytes)?,
            Event::Close(_) => self.close(client),
            Event::Take(_, stripe) => self.take(client, *stripe)?,
            Event::Fetch(_) => self.fetch(client)?,
            Event::Commit(_) => self.commit(client)?,
            Event::Give(_, stripe) => self.give(client, *stripe),
            _ => unreachable!(),
        }
        Ok(true)
    }

    /// A client is fed a piece.
    fn piece(&mut self, client: usize, bytes: &Bytes) -> Result<(), Stopped>
        requires world { IsWorld self.old }
        requires within { client < vec_len self.old.members }
        requires enabled { is_enabled_for (state_of self.old) client (states.client (state_of self.old) client) (Piece client bytes.now) ≡ true }
        ensures handled { OnOk result (Handled self.old client (Piece client bytes.now) self.new) }
        ensures endable { AreEndable self.new.members.items }
    {
        self.rests();
        self.members[client].peer.hear(bytes)
    }

    /// The input of a client is at its end.
    fn close(&mut self, client: usize)
        requires world { IsWorld self.old }
        requires within { client < vec_len self.old.members }
        requires enabled { is_enabled_for (state_of self.old) client (states.client (state_of self.old) client) (Close client) ≡ true }
        ensures handled { Handled self.old client (Close client) self.new }
        ensures endable { AreEndable self.new.members.items }
    {
        self.rests();
        self.members[client].peer.close();
    }

    /// The stripe that a client's open call takes next.
    fn next_stripe(&self, client: usize) -> Option<usize>
        requires log { IsWorldLog self.now.log }
        requires within { client < vec_len self.now.members }
        ensures next { result ≡ next_stripe (state_of self.now) client (open_call (states.client (state_of self.now) client).phase) }
        ensures within { IfSome result (λ stripe. stripe < length (holders_of self.now.log.stripes)) }
    {
        match self.members[client].peer.open() {
            Open::Nothing => None,
            Open::Call(call) => self.log.stripes.next_for(client, call),
            Open::Forget(watching) => self.log.stripes.next_to_forget(client, watching),
        }
    }

    /// A client takes a stripe, and its call is planned where that was the last.
    fn take(&mut self, client: usize, stripe: usize) -> Result<(), Stopped>
        requires world { IsWorld self.old }
        requires within { client < vec_len self.old.members }
        requires enabled { is_enabled_for (state_of self.old) client (states.client (state_of self.old) client) (Take client stripe) ≡ true }
        ensures handled { OnOk result (Handled self.old client (Take client stripe) self.new) }
        ensures endable { AreEndable self.new.members.items }
    {
        self.rests();
        let _next = self.next_stripe(client);
        self.hold(client, stripe);
        if self.next_stripe(client).is_some() {
            return Ok(());
        }
        self.plan(client)
    }

    /// A client holds a stripe, and its stay begins where it is in none.
    fn hold(&mut self, client: usize, stripe: usize)
        requires log { IsWorldLog self.old.log }
        requires within { client < vec_len self.old.members }
        requires below { stripe < length (holders_of self.old.log.stripes) }
        ensures held { HasHeld self.old client stripe self.new }
    {
        self.log.stripes.take(stripe, client);
        let epoch = self.log.epoch();
        self.members[client].desk.begin_stay(epoch);
    }

    /// Plans a client's open call, whose stripes it holds all.
    fn plan(&mut self, client: usize) -> Result<(), Stopped>
        requires taken { IsTaken client self.old }
        requires within { client < vec_len self.old.members }
        requires all { next_stripe (state_of self.old) client (open_call (states.client (state_of self.old) client).phase) ≡ None }
        ensures planned { OnOk result (HasComeTo self.old client self.new) }
        ensures endable { AreEndable self.old.members.items → AreEndable self.new.members.items }
    {
        laws();
        plan_laws();
        let _ = &self.members;
        let stays = self.stays()?;
        self.members[client].plan(self.alloc, &mut self.log, client, stays.as_slice())
    }

    /// A client reads the pages that its call lacks.
    fn fetch(&mut self, client: usize) -> Result<(), Stopped>
        requires world { IsWorld self.old }
        requires within { client < vec_len self.old.members }
        requires enabled { is_enabled_for (state_of self.old) client (states.client (state_of self.old) client) (Fetch client) ≡ true }
        ensures handled { OnOk result (Handled self.old client (Fetch client) self.new) }
        ensures endable { AreEndable self.new.members.items }
    {
        self.rests();
        laws();
        self.members[client].desk.fetch(self.alloc, &mut self.log)
    }

    /// A client gives a stripe back. After the last one of a call that was committed, its stay ends.
    fn give(&mut self, client: usize, stripe: usize)
        requires world { IsWorld self.old }
        requires within { client < vec_len self.old.members }
        requires enabled { is_enabled_for (state_of self.old) client (states.client (state_of self.old) client) (Give client stripe) ≡ true }
        ensures handled { Handled self.old client (Give client stripe) self.new }
        ensures endable { AreEndable self.new.members.items }
    {
        self.rests();
        self.log.stripes.give(stripe);
        if self.is_done(client) {
            self.members[client].desk.end_stay();
        }
    }

    /// Whether a client has no open call, and holds no stripe.
    fn is_done(&self, client: usize) -> bool
        requires within { client < vec_len self.now.members }
        ensures { result ≡ (is_none (open_call (states.client (state_of self.now) client).phase) && holds_none client (holders_of self.now.log.stripes)) }
    {
        !self.members[client].peer.has_call() && self.log.stripes.has_none_of(client)
    }

    /// Commits a client's open call.
    fn commit(&mut self, client: usize) -> Result<(), Stopped>
        requires world { IsWorld self.old }
        requires within { client < vec_len self.old.members }
        requires enabled { is_enabled_for (state_of self.old) client (states.client (state_of self.old) client) (Commit client) ≡ true }
        ensures handled { OnOk result (Handled self.old client (Commit client) self.new) }
        ensures endable { AreEndable self.new.members.items }
    {
        self.rests();
        match self.members[client].peer.kind() {
            Kind::Asks => self.settle(client),
            Kind::Forgets => self.forget(client),
            Kind::Leaves => {
                self.let_go(client);
                Ok(())
            }
        }
    }

    /// Commits a call that asks for something, all of whose stripes its client holds.
    fn settle(&mut self, client: usize) -> Result<(), Stopped>
        requires world { IsWorld self.old }
        requires within { client < vec_len self.old.members }
        requires asking { IsAsking (states.client (state_of self.old) client).phase }
        requires enabled { is_enabled_for (state_of self.old) client (states.client (state_of self.old) client) (Commit client) ≡ true }
        ensures commits { OnOk result (HasCommitted self.old client self.new) }
        ensures endable { AreEndable self.new.members.items }
    {
        match self.members[client].desk.stage() {
            Stage::Made => self.install(client),
            Stage::Full => self.refuse(client),
            Stage::Nothing => self.run_now(client),
        }
    }

    /// Commits a call that is planned.
    fn install(&mut self, client: usize) -> Result<(), Stopped>
        requires world { IsWorld self.old }
        requires within { client < vec_len self.old.members }
        requires asking { IsAsking (states.client (state_of self.old) client).phase }
        requires made { IsStageAt stage.Made self.old client }
        requires enabled { is_enabled_for (state_of self.old) client (states.client (state_of self.old) client) (Commit client) ≡ true }
        ensures commits { OnOk result (HasCommitted self.old client self.new) }
        ensures endable { AreEndable self.new.members.items }
    {
        self.rests();
        plan_laws();
        let member = &mut self.members[client];
        let Plan::Made(planned) = member.desk.end_call() else {
            unreachable!()
        };
        let Open::Call(call) = member.peer.open() else {
            unreachable!()
        };
        let reply = install(&mut self.log, client, call, planned);
        self.answer(client, reply)
    }

    /// Commits a call whose plan met a full stripe.
    fn refuse(&mut self, client: usize) -> Result<(), Stopped>
        requires world { IsWorld self.old }
        requires within { client < vec_len self.old.members }
        requires asking { IsAsking (states.client (state_of self.old) client).phase }
        requires enabled { is_enabled_for (state_of self.old) client (states.client (state_of self.old) client) (Commit client) ≡ true }
        requires full { IsStageAt stage.Full self.old client }
        ensures commits { OnOk result (HasCommitted self.old client self.new) }
        ensures endable { AreEndable self.new.members.items }
    {
        self.rests();
        plan_laws();
        let member = &mut self.members[client];
        let Open::Call(call) = member.peer.open() else {
            unreachable!()
        };
        end_watches(&mut self.log, client, call);
        let _plan = member.desk.end_call();
        member.peer.refuse()
    }

    /// Plans a call that looks no key up, and commits it.
    fn run_now(&mut self, client: usize) -> Result<(), Stopped>
        requires world { IsWorld self.old }
        requires within { client < vec_len self.old.members }
        requires asking { IsAsking (states.client (state_of self.old) client).phase }
        requires enabled { is_enabled_for (state_of self.old) client (states.client (state_of self.old) client) (Commit client) ≡ true }
        requires nothing { IsStageAt stage.Nothing self.old client }
        ensures commits { OnOk result (HasCommitted self.old client self.new) }
        ensures endable { AreEndable self.new.members.items }
    {
        self.rests();
        plan_laws();
        let member = &mut self.members[client];
        let Open::Call(call) = member.peer.open() else {
            unreachable!()
        };
        let reply = run(self.alloc, &mut self.log, client, call)?;
        let _plan = member.desk.end_call();
        self.answer(client, reply)
    }

    /// A client's call was done and has this reply, which is said, and becomes an entry.
    fn answer(&mut self, client: usize, reply: Reply) -> Result<(), Stopped>
        requires within { client < vec_len self.old.members }
        requires asking { IsAskingAt self.old client }
        requires endable { AreEndable self.old.members.items }
        ensures answered { OnOk result (HasAnsweredAt self.old client reply self.new) }
        ensures endable { AreEndable self.new.members.items }
    {
        let position = self.history.len() as u64;
        let (operation, reply) = self.members[client].peer.answer(reply, position)?;
        let entry = Entry {
            session: client as u64,
            operation,
            reply,
        };
        note(&mut self.history, entry)
    }

    /// Commits a call that only forgets, all of whose stripes its client holds.
    fn forget(&mut self, client: usize) -> Result<(), Stopped>
        requires world { IsWorld self.old }
        requires within { client < vec_len self.old.members }
        requires forgetting { IsForgetting (states.client (state_of self.old) client).phase }
        requires enabled { is_enabled_for (state_of self.old) client (states.client (state_of self.old) client) (Commit client) ≡ true }
        ensures commits { OnOk result (HasCommitted self.old client self.new) }
        ensures endable { AreEndable self.new.members.items }
    {
        self.rests();
        plan_laws();
        let member = &mut self.members[client];
        let Open::Call(call) = member.peer.open() else {
            unreachable!()
        };
        end_watches(&mut self.log, client, call);
        let _plan = member.desk.end_call();
        member.peer.forget()
    }

    /// Commits the call of a client whose session is over, which forgets what it watched; it holds all stripes.
    fn let_go(&mut self, client: usize)
        requires world { IsWorld self.old }
        requires within { client < vec_len self.old.members }
        requires leaving { IsLeaving (states.client (state_of self.old) client).phase }
        requires enabled { is_enabled_for (state_of self.old) client (states.client (state_of self.old) client) (Commit client) ≡ true }
        ensures commits { HasCommitted self.old client self.new }
        ensures endable { AreEndable self.new.members.items }
    {
        self.rests();
        plan_laws();
        let member = &mut self.members[client];
        let Open::Forget(watching) = member.peer.open() else {
            unreachable!()
        };
        forget_watched(&mut self.log, client, watching);
        member.peer.left();
    }

    /// Lets a client advance, where it may.
    fn go_on(&mut self, client: usize) -> Result<(), Stopped>
        requires within { client < vec_len self.old.members }
        requires steady { IsReadyFor client self.old }
        requires endable { AreEndable self.old.members.items }
        ensures goes { OnOk result (Goes (state_of self.old) client (state_of self.new)) }
        ensures same { OnOk result (HasGoneOn self.old self.new) }
        ensures endable { AreEndable self.new.members.items }
    {
        if !self.is_ready(client) {
            return Ok(());
        }
        self.members[client].peer.advance()
    }

    /// Whether a client may advance: it has no open call, has not ended, and holds no stripe.
    fn is_ready(&self, client: usize) -> bool
        requires within { client < vec_len self.now.members }
        ensures { result ≡ (is_idle (states.client (state_of self.now) client).phase && holds_none client (holders_of self.now.log.stripes)) }
    {
        self.members[client].peer.is_idle() && self.log.stripes.has_none_of(client)
    }

    /// Each of its clients can be ended.
    fn rests(&self)
        requires { IsWorld self.now }
        ensures endable { AreEndable self.now.members.items }
    {
        let _ = &self.members;
    }

    /// It has the headline, and no receipt that is read again is of a released place.
    fn tells(&self)
        requires { IsWorld self.now }
        ensures headline { Headline (state_of self.now) }
        ensures places { NoneReleased (state_of self.now) }
    {
        laws();
        let _ = &self.members;
    }

    /// Its clients.
    fn into_members(self) -> Vec<Member>
        ensures { result ≡ self.members }
    {
        let World {
            alloc: _,
            members,
            log: _,
            history: _,
        } = self;
        members
    }
}

/// So many clients that were fed nothing.
fn new_members(alloc: Global, count: usize) -> Result<Vec<Member>, OutOfMemory>
    ensures { IfOk result (λ members. AreNew count members.items) }
{
    let mut members = Vec::new(alloc);
    for _ in 0..count {
        let member = Member {
            peer: Peer::new(alloc),
            desk: Desk::new(alloc),
        };
        if let Err(refused) = members.push(member) {
            end_member(refused.value);
            end_members(members);
            return Err(AllocError);
        }
    }
    Ok(members)
}

/// Ends clients.
fn end_members(members: Vec<Member>)
    requires { AreEndable members.items }
{
    let mut left = members;
    while let Some(member) = left.pop() {
        end_member(member);
    }
    left.destroy_empty();
}

/// Ends a client.
fn end_member(member: Member)
    requires { IsEndable member.peer.phase }
{
    let Member { peer, desk: _ } = member;
    peer.end();
}

/// Adds an entry to a history.
fn note(history: &mut Vec<Entry>, entry: Entry) -> Result<(), Stopped>
    ensures { OnOk result (history.new.items ≡ history.old.items ++ entry ∷ []) }
{
    match history.push(entry) {
        Ok(()) => Ok(()),
        Err(refused) => Err(stopped_at(refused.value)),
    }
}

/// There was no memory for an entry.
fn stopped_at(entry: Entry) -> Stopped {
    drop(entry);
    Stopped
}

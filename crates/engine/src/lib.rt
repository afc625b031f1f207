//! The shared store behind all sessions: calls of many passes over striped gates, which come one after
//! another in one history. Each stripe is a hybrid log, whose old pages lie on a device.
//!
//! A call takes the stripes of its keys, plans (`plans`), commits, installs and gives the stripes back. Its place in the
//! history is the commit. Where a plan wants pages that have to be read, nothing was done yet: the pass enters a stay of
//! the epochs, gives the stripes back, reads the pages by its own opening of the device, and begins again with them. So
//! nobody waits for its reads. After three such rounds it reads while it holds, so that it ends. The stay goes on until
//! the call is answered, which keeps the places of these pages from being used anew.
//!
//! GET, MGET, a SET without an option, MSET and other commands of one key have ways of their own ([`Engine::say`], [`Engine::say_values`],
//! [`Engine::set`], [`Engine::set_all`], [`Engine::one`]). No plan is made there, unless a value does not lie near or the writes may weigh too
//! much. Nor is one made for a SET with options that is submitted, where its key lies near, and for a transaction of GETs that says its
//! reply ([`Engine::submit_saying`]).
//! Background threads make their steps by a [`Pass`] too.
#![tactic(auto)]

ghost use Rattle.std.specs.Prelude.{◌≡◌, ◌+◌, ◌<◌, ◌≤◌, ◌++◌, [], ℕ, All, IfOk, IfErr, vec_len, vec_capacity};
ghost use Rattle.words.specs.Bounds.{IsBounded};
ghost use Rattle.words.specs.Briefs.{commanded, pairs_of};
ghost use Rattle.words.specs.declared.command.Command.TheVariants as command;
ghost use Rattle.words.specs.declared.command.When.TheVariants.{Always};
ghost use Rattle.gates.specs.Plays.{AreEmpty};
ghost use Rattle.gates.specs.Sets.{times};
ghost use Rattle.transact.specs.Calls.{answer_of, answer_with, asked_of};
ghost use Rattle.transact.specs.Plans.{EndsAll};
ghost use Rattle.transact.specs.Submits.{stripes_asked};
ghost use Rattle.shards.specs.Logs.{counted_alone, log_by};
ghost use Rattle.shards.specs.Shards.{shard_counted, shard_meaning};
ghost use Rattle.engine.specs.Got.{IfSaid, IsOfGets, came_answer, came_text, got_all_answer, got_all_text, got_answer, got_text};
ghost use Rattle.engine.specs.Memory.{get_call, one_call, set_call, settings_call, values_call};
ghost use Rattle.engine.specs.Passes.{AreOf, knows, Rests, stripe_count};
ghost use Rattle.engine.specs.Answers.{ComesTo, WaitsAndComesTo};
ghost use Rattle.engine.specs.Calls.{FoundBusy, HasItsPlace, HasLearned};
ghost use Rattle.engine.specs.Stops.{HasHeardBy};

use crate::assign::submit_settings;
use crate::call::{submit, try_submit};
use crate::deal::deal;
use crate::exec::submit_saying;
use crate::gather::submit_values;
use crate::get::{submit_get, submit_say};
use crate::one::{Commanding, submit_one};
use crate::set::{Setting, submit_set};
use crate::site::Site;
use device::{Device, Shows};
use epoch::Epochs;
use gates::{Gates, Latch, Open, Point};
use shards::shard::Shard;
use std::alloc::Global;
use std::marker::PhantomData;
use std::sync::Wait;
use transact::call::{Answer, Busy, Call};
use words::command::Verb;
use words::hash::Hashed;
use words::limits::Limits;
use words::reply::{Fault, Line};
use words::word::{OutOfMemory, Word};

mod assign;
mod call;
mod deal;
mod enter;
mod exec;
mod gather;
mod get;
mod one;
mod pass;
mod rounds;
mod say;
mod set;
mod set_if;
mod site;
mod steps;
mod visit;

pub use exec::Came;
pub use gather::{Gathered, GotAll};
pub use get::Got;
pub use pass::Pass;
pub use say::Spoken;

/// How many passes there are beside one for each client: those of the threads that work in the
/// background.
pub const BACKGROUND_PASSES: usize = 3;

/// The shared store: which value each key has.
#[derive(Drop)]
pub struct Engine<D: Device> {
    gates: Gates<Shard<D::Receipt>>,
    epochs: Epochs,
    opening: PhantomData<D>,
}

impl<D: Device> Engine<D> {
    /// An engine with an empty store, and its passes: one for each client of the limits and
    /// [`BACKGROUND_PASSES`] more, numbered 0, 1, 2 and so on, which have seen nothing. Each has one of the
    /// openings of the device, in order.
    ///
    /// # Errors
    ///
    /// [`OutOfMemory`] where there is no memory for the stripes or the passes.
    pub fn new(
        alloc: Global,
        limits: &Limits,
        openings: Vec<D>,
    ) -> Result<(Engine<D>, Vec<Pass<D>>), OutOfMemory>
        requires openings { vec_len openings ≡ limits.now.clients + BACKGROUND_PASSES }
        ensures stripes { IfOk result (λ made. stripe_count made.0 ≡ limits.now.stripes) }
        ensures passes { IfOk result (λ made. AreOf D.Receipt.is_steady made.0 made.1.items openings.items) }
        ensures count { IfOk result (λ made. vec_len made.1 ≡ vec_len openings) }
        ensures rest { IfOk result (λ made. All (Rests D.Receipt.is_steady made.0) made.1.items) }
        ensures watch { IfOk result (λ made. All (λ pass. (knows D.failures pass).watched ≡ []) made.1.items) }
    {
        let count = limits.clients + BACKGROUND_PASSES;
        let shards = empty_shards::<D::Receipt>(alloc, limits)?;
        let (gates, passes) = Gates::new(alloc, shards, count)?;
        let (epochs, seats) = Epochs::new(alloc, count)?;
        let passes = deal(alloc, &gates, &epochs, passes, seats, openings)?;
        let engine = Engine {
            gates,
            epochs,
            opening: PhantomData,
        };
        Ok((engine, passes))
    }

    /// Does what the call asks, whole or not at all, and tells its reply. It may wait for calls of other
    /// passes on the stripes of its keys. The pages that it wants are read through the pass's opening of the device while nobody
    /// waits for these stripes; where it wants further ones after three such reads, they are read while it holds them. A
    /// transaction leaves nothing watched, whatever it is answered. Where the pass is told last that a stripe is full, and
    /// that the epochs refused to retire, its seat was told last that their word is worn out.
    ///
    /// # Errors
    ///
    /// [`Answer::Fault`], and no key was changed, and there is no entry. It has [`Fault::OutOfMemory`] where a growth was
    /// refused, [`Fault::DeviceFault`] where a call of the device failed, [`Fault::StoreFull`] where a stripe that it writes has
    /// no place left on the device, once each was released that could be, and [`Fault::CommitsWornOut`] where the commit word was
    /// read at 2^62 or more. A call that ends watches is not answered so.
    ///
    /// [`Fault::OutOfMemory`]: words::reply::Fault::OutOfMemory
    /// [`Fault::DeviceFault`]: words::reply::Fault::DeviceFault
    /// [`Fault::StoreFull`]: words::reply::Fault::StoreFull
    /// [`Fault::CommitsWornOut`]: words::reply::Fault::CommitsWornOut
    #[inline]
    pub fn submit<T: Wait>(&self, rt: &T, pass: &mut Pass<D>, call: Call) -> Answer
        requires rests { Rests D.Receipt.is_steady self.now pass.old }
        requires place { HasItsPlace (knows D.failures pass.old).watched (asked_of call) }
        requires watching { EndsAll call (knows D.failures pass.old).watched }
        ensures rests { Rests D.Receipt.is_steady self.now pass.new }
        ensures heard { HasHeardBy pass.old pass.new }
        ensures answered { WaitsAndComesTo D.Receipt.is_steady D.Receipt.lends D.failures self.now call result pass.old pass.new }
    {
        self.submit_with(rt, pass, call, &Open)
    }

    /// The same as [`submit`](Engine::submit), with a latch that is told where the call is.
    #[inline]
    pub fn submit_with<T: Wait, L: Latch>(
        &self,
        rt: &T,
        pass: &mut Pass<D>,
        call: Call,
        latch: &L,
    ) -> Answer
        requires rests { Rests D.Receipt.is_steady self.now pass.old }
        requires place { HasItsPlace (knows D.failures pass.old).watched (asked_of call) }
        requires watching { EndsAll call (knows D.failures pass.old).watched }
        ensures rests { Rests D.Receipt.is_steady self.now pass.new }
        ensures heard { HasHeardBy pass.old pass.new }
        ensures answered { WaitsAndComesTo D.Receipt.is_steady D.Receipt.lends D.failures self.now call result pass.old pass.new }
    {
        let number = pass.gates.number();
        latch.at(number, Point::Before);
        let site = Site {
            gates: &self.gates,
            epochs: &self.epochs,
            latch,
        };
        let answer = submit(
            rt,
            &site,
            &mut pass.gates,
            &mut pass.device,
            &mut pass.hands,
            call,
        );
        latch.at(number, Point::After);
        answer
    }

    /// The same as [`submit_with`](Engine::submit_with), of a call that may be answered in the buffer of its caller: where it is a
    /// transaction of GETs, none of its session's watched keys was written, what it reads lies near and the buffer has room for the reply,
    /// the reply is appended, and each value is copied once, from where it lies; else nothing is. It takes no memory for the buffer.
    pub fn submit_saying<T: Wait, L: Latch>(
        &self,
        rt: &T,
        pass: &mut Pass<D>,
        call: Call,
        out: &mut Vec<u8>,
        latch: &L,
    ) -> Came
        requires rests { Rests D.Receipt.is_steady self.now pass.old }
        requires place { HasItsPlace (knows D.failures pass.old).watched (asked_of call) }
        requires watching { EndsAll call (knows D.failures pass.old).watched }
        ensures rests { Rests D.Receipt.is_steady self.now pass.new }
        ensures heard { HasHeardBy pass.old pass.new }
        ensures answered { WaitsAndComesTo D.Receipt.is_steady D.Receipt.lends D.failures self.now call (came_answer result) pass.old pass.new }
        ensures said { out.new.items ≡ out.old.items ++ came_text result }
        ensures within { vec_len out.new ≤ vec_capacity out.old }
        ensures gets { IfSaid result (IsOfGets call) }
    {
        let number = pass.gates.number();
        latch.at(number, Point::Before);
        let site = Site {
            gates: &self.gates,
            epochs: &self.epochs,
            latch,
        };
        let came = submit_saying(
            rt,
            &site,
            &mut pass.gates,
            &mut pass.device,
            &mut pass.hands,
            call,
            out,
        );
        latch.at(number, Point::After);
        came
    }

    /// The same as [`submit_with`](Engine::submit_with) of a GET, whose key stays the caller's. It is
    /// answered by what the key has.
    ///
    /// # Errors
    ///
    /// The fault that [`submit_with`](Engine::submit_with) answers.
    pub fn get<T: Wait, L: Latch>(
        &self,
        rt: &T,
        pass: &mut Pass<D>,
        key: &Word,
        latch: &L,
    ) -> Result<Option<Word>, Fault>
        requires rests { Rests D.Receipt.is_steady self.now pass.old }
        requires place { IsBounded (command.Get key.now) }
        ensures rests { Rests D.Receipt.is_steady self.now pass.new }
        ensures heard { HasHeardBy pass.old pass.new }
        ensures answered { WaitsAndComesTo D.Receipt.is_steady D.Receipt.lends D.failures self.now (get_call key.now) (answer_with result)
            pass.old pass.new }
    {
        let number = pass.gates.number();
        latch.at(number, Point::Before);
        let site = Site {
            gates: &self.gates,
            epochs: &self.epochs,
            latch,
        };
        let answer = submit_get(
            rt,
            &site,
            &mut pass.gates,
            &mut pass.device,
            &mut pass.hands,
            key,
        );
        latch.at(number, Point::After);
        answer
    }

    /// The same as [`get`](Engine::get), which is answered in the buffer of its caller: where what the key has lies near and the
    /// buffer has room for the reply, the reply is appended, and the value is copied once, from where it lies; else nothing is. It
    /// takes no memory for the buffer.
    ///
    /// # Errors
    ///
    /// The fault that [`submit_with`](Engine::submit_with) answers. Nothing is appended then.
    pub fn say<T: Wait, L: Latch>(
        &self,
        rt: &T,
        pass: &mut Pass<D>,
        key: &Word,
        out: &mut Vec<u8>,
        latch: &L,
    ) -> Result<Got, Fault>
        requires rests { Rests D.Receipt.is_steady self.now pass.old }
        requires place { IsBounded (command.Get key.now) }
        ensures rests { Rests D.Receipt.is_steady self.now pass.new }
        ensures heard { HasHeardBy pass.old pass.new }
        ensures answered { WaitsAndComesTo D.Receipt.is_steady D.Receipt.lends D.failures self.now (get_call key.now) (got_answer result)
            pass.old pass.new }
        ensures said { out.new.items ≡ out.old.items ++ got_text result }
        ensures within { vec_len out.new ≤ vec_capacity out.old }
    {
        let number = pass.gates.number();
        latch.at(number, Point::Before);
        let site = Site {
            gates: &self.gates,
            epochs: &self.epochs,
            latch,
        };
        let answer = submit_say(
            rt,
            &site,
            &mut pass.gates,
            &mut pass.device,
            &mut pass.hands,
            key,
            out,
        );
        latch.at(number, Point::After);
        answer
    }

    /// The same as [`submit_with`](Engine::submit_with) of a SET without an option, whose key and value stay the
    /// caller's: the value is copied once, into its page. It takes no memory. It is answered by a line.
    ///
    /// # Errors
    ///
    /// The fault that [`submit_with`](Engine::submit_with) answers.
    pub fn set<T: Wait, L: Latch>(
        &self,
        rt: &T,
        pass: &mut Pass<D>,
        key: &Word,
        value: &Word,
        latch: &L,
    ) -> Result<Line, Fault>
        requires rests { Rests D.Receipt.is_steady self.now pass.old }
        requires place { IsBounded (command.Set key.now value.now Always) }
        ensures rests { Rests D.Receipt.is_steady self.now pass.new }
        ensures heard { HasHeardBy pass.old pass.new }
        ensures answered { WaitsAndComesTo D.Receipt.is_steady D.Receipt.lends D.failures self.now (set_call key.now value.now)
            (answer_of result) pass.old pass.new }
    {
        let number = pass.gates.number();
        latch.at(number, Point::Before);
        let site = Site {
            gates: &self.gates,
            epochs: &self.epochs,
            latch,
        };
        let answer = submit_set(
            rt,
            &site,
            &mut pass.gates,
            &mut pass.device,
            &mut pass.hands,
            &Setting {
                key: &Hashed::new(key),
                value,
            },
        );
        latch.at(number, Point::After);
        answer
    }

    /// The same as [`submit_with`](Engine::submit_with) of a command of one key, whose key and value stay the caller's; the value is looked
    /// at only where the command takes one. Where the key's value lies near, nothing is copied but a value that is answered, one that the
    /// command makes, and what goes into the page; and where a new value fits over the old one the key is looked up once. Else the key
    /// and the value are copied.
    pub fn one<T: Wait, L: Latch>(
        &self,
        rt: &T,
        pass: &mut Pass<D>,
        key: &Word,
        verb: Verb,
        value: &Word,
        latch: &L,
    ) -> Answer
        requires rests { Rests D.Receipt.is_steady self.now pass.old }
        requires place { IsBounded (commanded verb key.now value.now) }
        ensures rests { Rests D.Receipt.is_steady self.now pass.new }
        ensures heard { HasHeardBy pass.old pass.new }
        ensures answered { WaitsAndComesTo D.Receipt.is_steady D.Receipt.lends D.failures self.now (one_call verb key.now value.now) result
            pass.old pass.new }
    {
        let number = pass.gates.number();
        latch.at(number, Point::Before);
        let site = Site {
            gates: &self.gates,
            epochs: &self.epochs,
            latch,
        };
        let answer = submit_one(
            rt,
            &site,
            &mut pass.gates,
            &mut pass.device,
            &mut pass.hands,
            &Commanding {
                key: &Hashed::new(key),
                verb,
                value,
            },
        );
        latch.at(number, Point::After);
        answer
    }

    /// The same as [`submit_with`](Engine::submit_with) of an MGET, whose keys stay the caller's. Where all values lie near and the buffer
    /// has room for the reply, the reply is appended, and each value is copied once, from where it lies; else nothing is appended. It takes
    /// no memory for the buffer.
    pub fn say_values<T: Wait, L: Latch>(
        &self,
        rt: &T,
        pass: &mut Pass<D>,
        keys: &[Word],
        out: &mut Vec<u8>,
        latch: &L,
    ) -> GotAll
        requires rests { Rests D.Receipt.is_steady self.now pass.old }
        requires place { IsBounded (command.MGet keys.now) }
        ensures rests { Rests D.Receipt.is_steady self.now pass.new }
        ensures heard { HasHeardBy pass.old pass.new }
        ensures answered { WaitsAndComesTo D.Receipt.is_steady D.Receipt.lends D.failures self.now (values_call keys.now)
            (got_all_answer result) pass.old pass.new }
        ensures said { out.new.items ≡ out.old.items ++ got_all_text result }
        ensures within { vec_len out.new ≤ vec_capacity out.old }
    {
        let number = pass.gates.number();
        latch.at(number, Point::Before);
        let site = Site {
            gates: &self.gates,
            epochs: &self.epochs,
            latch,
        };
        let answer = submit_values(
            rt,
            &site,
            &mut pass.gates,
            &mut pass.device,
            &mut pass.hands,
            keys,
            out,
        );
        latch.at(number, Point::After);
        answer
    }

    /// The same as [`submit_with`](Engine::submit_with) of an MSET, whose words stay the caller's: its keys, each with its value behind
    /// it. Each value is copied once, into its page, and it takes no memory. One that may be too heavy for a call, a key that it gives
    /// two values counted with both, is planned, and its words are copied.
    pub fn set_all<T: Wait, L: Latch>(
        &self,
        rt: &T,
        pass: &mut Pass<D>,
        words: &[Word],
        latch: &L,
    ) -> Answer
        requires rests { Rests D.Receipt.is_steady self.now pass.old }
        requires place { IsBounded (command.MSet (pairs_of words.now)) }
        ensures rests { Rests D.Receipt.is_steady self.now pass.new }
        ensures heard { HasHeardBy pass.old pass.new }
        ensures answered { WaitsAndComesTo D.Receipt.is_steady D.Receipt.lends D.failures self.now (settings_call words.now) result
            pass.old pass.new }
    {
        let number = pass.gates.number();
        latch.at(number, Point::Before);
        let site = Site {
            gates: &self.gates,
            epochs: &self.epochs,
            latch,
        };
        let answer = submit_settings(
            rt,
            &site,
            &mut pass.gates,
            &mut pass.device,
            &mut pass.hands,
            words,
        );
        latch.at(number, Point::After);
        answer
    }

    /// The same as [`submit`](Engine::submit) without waiting: each stripe of the call is tried once, and pages are read while
    /// they are held. A call that is answered was told of no stripe that it was another pass's.
    ///
    /// # Errors
    ///
    /// [`Busy`] with a stripe of the call's keys whose word was read as another pass's, and the call. Nothing
    /// is held and nothing was changed then; what the pass has seen may have grown.
    pub fn try_submit(&self, pass: &mut Pass<D>, call: Call) -> Result<Answer, (Busy, Call)>
        requires rests { Rests D.Receipt.is_steady self.now pass.old }
        requires place { HasItsPlace (knows D.failures pass.old).watched (asked_of call) }
        requires watching { EndsAll call (knows D.failures pass.old).watched }
        ensures rests { Rests D.Receipt.is_steady self.now pass.new }
        ensures heard { HasHeardBy pass.old pass.new }
        ensures answered { IfOk result (λ answer. ComesTo D.Receipt.is_steady D.Receipt.lends D.failures self.now [] call answer
            pass.old pass.new) }
        ensures stripe { IfErr result (λ refusal. 0 < times refusal.0.stripe (stripes_asked (stripe_count self.now) call)) }
        ensures busy { IfErr result (λ refusal. FoundBusy refusal.0.stripe (knows D.failures pass.old) (knows D.failures pass.new)) }
        ensures back { IfErr result (λ refusal. refusal.1 ≡ call) }
    {
        let site = Site {
            gates: &self.gates,
            epochs: &self.epochs,
            latch: &Open,
        };
        try_submit(
            &site,
            &mut pass.gates,
            &mut pass.device,
            &mut pass.hands,
            call,
        )
    }

    /// Lets the store go. Call it last: what an engine is made of is then dropped here, and not once more in each crate that
    /// owns one.
    pub fn end(self) {}

    /// Both passes have then seen one legal history, which begins with what each had seen and has the
    /// entries of each.
    pub fn meet(&self, first: &mut Pass<D>, second: &mut Pass<D>)
        requires first { Rests D.Receipt.is_steady self.now first.old }
        requires second { Rests D.Receipt.is_steady self.now second.old }
        ensures first { Rests D.Receipt.is_steady self.now first.new }
        ensures second { Rests D.Receipt.is_steady self.now second.new }
        ensures one { (knows D.failures first.new).seen ≡ (knows D.failures second.new).seen }
        ensures first_learned { HasLearned (knows D.failures first.old) (knows D.failures first.new) }
        ensures second_learned { HasLearned (knows D.failures second.old) (knows D.failures second.new) }
    {
        self.gates.meet(&mut first.gates, &mut second.gates);
    }
}

/// So many shards without a key as the limits have stripes, each with an empty log of the limits.
fn empty_shards<R: Shows>(alloc: Global, limits: &Limits) -> Result<Vec<Shard<R>>, OutOfMemory>
    ensures count { IfOk result (λ shards. vec_len shards ≡ limits.now.stripes) }
    ensures empty { IfOk result (λ shards. AreEmpty (shard_meaning R.is_steady) shards.items) }
    ensures logs { IfOk result (λ shards. All (λ shard. shard_counted shard ≡ counted_alone (log_by limits.now)) shards.items) }
{
    let mut shards = Vec::with_capacity(alloc, limits.stripes)?;
    for _ in 0..limits.stripes {
        shards.push(Shard::new(alloc, limits)?)?;
    }
    Ok(shards)
}

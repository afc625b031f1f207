//! The short way of a command of one key, whose key and value stay the caller's: where its key's value lies near, no writes are gathered
//! and no plan is made, and where the new value fits over the old one the key is looked up once.

ghost use Rattle.std.specs.Prelude.{◌≡◌, ◌≤◌, ◌∷◌, ℕ, [], Option, IfErr, IfOk, IsSome, OnErr, Some};
ghost use Rattle.std.specs.Option.{option_copied};
ghost use Rattle.records.specs.Records.{value_bytes};
ghost use Rattle.words.specs.Bounds.{IsBounded};
ghost use Rattle.words.specs.History.{after};
ghost use Rattle.words.specs.declared.limits.TheConstants.{WEIGHT_MAX};
ghost use Rattle.words.specs.declared.history.Operation.TheVariants.{Run};
ghost use Rattle.gates.specs.Passes.{IsResting, known, stripes_of};
ghost use Rattle.gates.specs.Helds.{held_parts, held_stripes, known_to};
ghost use Rattle.gates.specs.Sets.{part_at};
ghost use Rattle.hybrid.specs.Log.{Fits};
ghost use Rattle.transact.specs.Plans.{IsPlan};
ghost use Rattle.transact.specs.Submits.{asked_for, stripes_asked};
ghost use Rattle.shards.specs.Shards.{logs_of, shard_meaning, weigh};
ghost use Rattle.plans.specs.Settling.{IsSettled, IsSpot, changes};
ghost use Rattle.plans.specs.declared.reading.WhenCold.TheVariants.{Stops};
ghost use Rattle.engine.specs.Answers.{IsAnswered};
ghost use Rattle.engine.specs.Calls.{promises_of};
ghost use Rattle.engine.specs.Entering.{AreReady, HasEntered, MayBegin, WasCold, came_to, command_asked, command_done, doing_call, one_call_of, own_answer};
ghost use Rattle.engine.specs.Memory.{AsksNoMemory, one_call};
ghost use Rattle.engine.specs.Passes.{HasHands, OfSeats, know};
ghost use Rattle.engine.specs.Stops.{HasHeardFor, HasHeardIn, HasHeardWith, IfLacking, worn_out};
ghost use Rattle.plans.specs.Reserving.{LacksRoomToPut};

use crate::enter::{Entered, Stopped, enter, told_of};
use crate::rounds::{Asking, Enters, run};
use crate::site::Site;
use device::{Device, Shows};
use epoch::EpochSeat;
use gates::{Asks, Held, Latch, Pass, Point, Report, Sorted};
use hybrid::Spot;
use plans::freeing::reserve_freeing;
use plans::hands::Hands;
use plans::hashed::{HashedCall, key_of};
use plans::laws::writes_install_a_command;
use plans::reading::WhenCold;
use plans::settling::{Change, Settled, settle};
use plans::short::{install_at, install_looked_up};
use plans::stop::Receipts;
use shards::retires::Retires;
use shards::shard::Shard;
use std::sync::Wait;
use transact::call::{Answer, Call};
use transact::stripes::stripe_of_key;
use words::command::{Verb, When};
use words::hash::Hashed;
use words::reply::{Fault, Reply};
use words::word::Word;

/// A command of one key, and of a value at most.
#[derive(Drop)]
pub(crate) struct Commanding<'a> {
    pub(crate) key: &'a Hashed<'a>,
    pub(crate) verb: Verb,
    pub(crate) value: &'a Word,
}

/// A command of one key whose key was looked up, as it is committed.
#[derive(Drop)]
pub(crate) struct Doing<'a> {
    pub(crate) key: &'a Hashed<'a>,
    pub(crate) value: &'a Word,
    pub(crate) does: Does,
}

/// What such a command does.
#[derive(Clone, Copy, Debug)]
pub(crate) enum Does {
    /// What the verb says.
    Verb(Verb),
    /// It gives the key the value, where the condition is met, and answers the old value where this is true.
    Set(When, bool),
}

impl Asks for Doing<'_> {
    ghost use Rattle.engine.specs.Entering.{doing_asked};

    ghost asked = { doing_asked };
}

impl Enters<Answer> for Commanding<'_> {
    ghost use Rattle.engine.specs.Entering.{one_call_of, own_answer};

    ghost call_of = { one_call_of };

    ghost says = { own_answer };

    fn enter<L: Latch, R: Shows, D: Device<Receipt = R>, S: Retires>(
        &self,
        site: &Site<L, R>,
        held: &mut Held<'_, Shard<R>>,
        device: &mut D,
        hands: &mut Hands<R, S>,
        cold: WhenCold,
    ) -> Result<Entered<Answer>, Receipts<R>> {
        enter_one(site, held, device, hands, self, cold)
    }

    fn fail<T: Wait, L: Latch, R: Shows>(
        &self,
        _rt: &T,
        _site: &Site<L, R>,
        _pass: &mut Pass<Shard<R>>,
        _wanted: &Sorted,
        fault: Fault,
    ) -> Answer {
        Answer::Fault(fault)
    }
}

/// Runs a command of one key of a pass over the gates. Where it wants a page, it gives its stripe back, reads outside and looks anew,
/// at most three times; then it reads while it holds the stripe.
#[inline(never)]
pub(crate) fn submit_one<T: Wait, L: Latch, R: Shows, D: Device<Receipt = R>>(
    rt: &T,
    site: &Site<L, R>,
    pass: &mut Pass<Shard<R>>,
    device: &mut D,
    hands: &mut Option<Hands<R, EpochSeat>>,
    asks: &Commanding,
) -> Answer
    requires rests { IsResting R.is_steady site.now.gates.now pass.old }
    requires hands { HasHands site.now.epochs.now hands.old }
    requires place { IsBounded (command_asked asks.now) }
    ensures rests { IsResting R.is_steady site.now.gates.now pass.new }
    ensures hands { HasHands site.now.epochs.now hands.new }
    ensures heard { OfSeats (HasHeardWith (known pass.old) (known pass.new)) hands.old hands.new }
    ensures answered { IsAnswered (promises_of R.is_steady R.lends (stripes_of site.now.gates.now))
        (stripes_asked (stripes_of site.now.gates.now) (one_call_of asks.now)) (one_call_of asks.now) result
        (know (known pass.old) (D.failures device.old)) (know (known pass.new) (D.failures device.new)) }
{
    let wanted = stripe_of_key(asks.key, site.gates.stripes());
    let asking = Asking {
        call: asks,
        wanted: &wanted,
    };
    run(rt, site, pass, device, hands, &asking)
}

/// Runs a command of one key over the parts that are held. One whose key's value does not lie near is planned. If a page is wanted that
/// is not among the staged ones, it is read meanwhile, or it stops.
///
/// # Errors
///
/// Copies of the receipts of the pages that are wanted, where they may not be read: nothing has changed then.
fn enter_one<L: Latch, R: Shows, D: Device<Receipt = R>, S: Retires>(
    site: &Site<L, R>,
    held: &mut Held<'_, Shard<R>>,
    device: &mut D,
    hands: &mut Hands<R, S>,
    asks: &Commanding,
    cold: WhenCold,
) -> Result<Entered<Answer>, Receipts<R>>
    requires begin { MayBegin R.is_steady (one_call_of asks.now) held.old }
    requires hands { AreReady (S.is_of site.now.epochs.now) R.is_steady hands.old }
    ensures hands { AreReady (S.is_of site.now.epochs.now) R.is_steady hands.new }
    ensures heard { HasHeardIn own_answer result (S.knows hands.old.own) (S.knows hands.new.own) }
    ensures entered { IfOk result (HasEntered (promises_of R.is_steady R.lends (held_stripes held.old)) (one_call_of asks.now)
        own_answer (held.old, D.failures device.old) (held.new, D.failures device.new)) }
    ensures cold { OnErr result (WasCold R.is_steady R.lends (one_call_of asks.now)
        (held.old, D.failures device.old) (held.new, D.failures device.new)) }
    ensures outside { OnErr result (cold ≡ Stops) }
{
    match settle(
        hands.alloc,
        held,
        asks.verb,
        asks.key,
        asks.value,
        &hands.staged,
    ) {
        Some(settled) => {
            let own = &mut hands.own;
            let doing = Doing {
                key: asks.key,
                value: asks.value,
                does: Does::Verb(asks.verb),
            };
            Ok(enter_settled(site, held, device, own, &doing, settled))
        }
        None => enter_planned(site, held, device, hands, asks, cold),
    }
}

/// Runs a command of one key as other commands are: it is planned. Its key and its value are copied.
///
/// # Errors
///
/// As [`enter`].
#[inline(never)]
fn enter_planned<L: Latch, R: Shows, D: Device<Receipt = R>, S: Retires>(
    site: &Site<L, R>,
    held: &mut Held<'_, Shard<R>>,
    device: &mut D,
    hands: &mut Hands<R, S>,
    asks: &Commanding,
    cold: WhenCold,
) -> Result<Entered<Answer>, Receipts<R>>
    requires begin { MayBegin R.is_steady (one_call_of asks.now) held.old }
    requires hands { AreReady (S.is_of site.now.epochs.now) R.is_steady hands.old }
    requires memory { AsksNoMemory (R.is_steady × R.lends) (after (known_to held.old).seen) (asked_for (one_call_of asks.now)) → ⊥ }
    ensures hands { AreReady (S.is_of site.now.epochs.now) R.is_steady hands.new }
    ensures heard { HasHeardIn own_answer result (S.knows hands.old.own) (S.knows hands.new.own) }
    ensures entered { IfOk result (HasEntered (promises_of R.is_steady R.lends (held_stripes held.old)) (one_call_of asks.now)
        own_answer (held.old, D.failures device.old) (held.new, D.failures device.new)) }
    ensures cold { OnErr result (WasCold R.is_steady R.lends (one_call_of asks.now)
        (held.old, D.failures device.old) (held.new, D.failures device.new)) }
    ensures outside { OnErr result (cold ≡ Stops) }
{
    let Ok(command) = asks.verb.command(hands.alloc, asks.key.key(), asks.value) else {
        return Ok(Entered {
            answer: Answer::Fault(Fault::OutOfMemory),
            ends: false,
            report: Report::Nothing,
        });
    };
    let call = Call::One(command);
    let hashed = HashedCall {
        call: &call,
        key: key_of(&call),
    };
    let entered = enter(site, held, device, hands, &hashed, cold);
    call.spend();
    entered
}

/// Runs a command of one key that comes to this over the parts that are held: makes room for what it writes, if it is not written in
/// place, commits its one entry, and copies what it writes into the page. It takes no memory.
pub(crate) fn enter_settled<L: Latch, R: Shows, D: Device<Receipt = R>, S: Retires>(
    site: &Site<L, R>,
    held: &mut Held<'_, Shard<R>>,
    device: &mut D,
    own: &mut S,
    asks: &Doing,
    settled: Settled,
) -> Entered<Answer>
    requires begin { MayBegin R.is_steady (doing_call asks.now) held.old }
    requires is { S.is_of site.now.epochs.now own.old }
    requires settled { IsSettled R.is_steady (shard_meaning R.is_steady) (held_stripes held.old) (part_at (held_parts held.old))
        asks.now.key.now asks.now.value.now (command_done asks.now) settled }
    ensures is { S.is_of site.now.epochs.now own.new }
    ensures heard { HasHeardFor own_answer result (S.knows own.old) (S.knows own.new) }
    ensures entered { HasEntered (promises_of R.is_steady R.lends (held_stripes held.old)) (doing_call asks.now) own_answer
        (held.old, D.failures device.old) (held.new, D.failures device.new) result }
{
    let done = carry_out(site, held, device, own, asks, &settled);
    let Settled {
        reply,
        change,
        spot: _,
    } = settled;
    drop(change);
    entered_of(reply, done)
}

/// Commits a command of one key that comes to this, and does what it does to its key.
///
/// # Errors
///
/// The fault that it is answered, and what is told where the stripes are given back: nothing was committed then.
fn carry_out<L: Latch, R: Shows, D: Device<Receipt = R>, S: Retires>(
    site: &Site<L, R>,
    held: &mut Held<'_, Shard<R>>,
    device: &mut D,
    own: &mut S,
    asks: &Doing,
    settled: &Settled,
) -> Result<(), Stopped>
    requires begin { MayBegin R.is_steady (doing_call asks.now) held.old }
    requires is { S.is_of site.now.epochs.now own.old }
    requires settled { IsSettled R.is_steady (shard_meaning R.is_steady) (held_stripes held.old) (part_at (held_parts held.old))
        asks.now.key.now asks.now.value.now (command_done asks.now) settled.now }
    ensures is { S.is_of site.now.epochs.now own.new }
    ensures heard { HasHeardFor own_answer (came_to settled.now.reply result) (S.knows own.old) (S.knows own.new) }
    ensures worn { IsSome settled.now.spot → IfErr result (λ stopped. stopped ≡ worn_out) }
    ensures entered { HasEntered (promises_of R.is_steady R.lends (held_stripes held.old)) (doing_call asks.now) own_answer
        (held.old, D.failures device.old) (held.new, D.failures device.new) (came_to settled.now.reply result) }
{
    let reply = &settled.reply;
    match &settled.change {
        Change::Nothing => enter_reply(site, held, asks, reply),
        Change::Given => match settled.spot {
            Some(spot) => enter_in_place(site, held, asks, reply, Some(asks.value), spot),
            None => enter_put(site, held, device, own, asks, reply, Some(asks.value)),
        },
        Change::Made(text) => match settled.spot {
            Some(spot) => enter_in_place(site, held, asks, reply, Some(text), spot),
            None => enter_put(site, held, device, own, asks, reply, Some(text)),
        },
        Change::Deleted => match settled.spot {
            Some(spot) => enter_in_place(site, held, asks, reply, None, spot),
            None => enter_put(site, held, device, own, asks, reply, None),
        },
    }
}

/// Runs a command of one key that answers this and writes nothing over the parts that are held: commits its one entry.
///
/// # Errors
///
/// As [`carry_out`].
fn enter_reply<L: Latch, R: Shows>(
    site: &Site<L, R>,
    held: &mut Held<'_, Shard<R>>,
    asks: &Doing,
    reply: &Reply,
) -> Result<(), Stopped>
    requires begin { MayBegin R.is_steady (doing_call asks.now) held.old }
    requires due { R.is_steady → IsPlan (known_to held.old).seen (Run (command_done asks.now))
        reply.now [] }
    ensures entered { (failures : ℕ) → HasEntered (promises_of R.is_steady R.lends (held_stripes held.old)) (doing_call asks.now)
        own_answer (held.old, failures) (held.new, failures) (came_to reply.now result) }
    ensures worn { IfErr result (λ stopped. stopped ≡ worn_out) }
{
    writes_install_a_command::<R>();
    site.latch.at(held.number(), Point::Holding);
    match held.commit(asks, reply) {
        Ok(_) => Ok(()),
        Err(_) => Err(Stopped {
            fault: Fault::CommitsWornOut,
            report: Report::Nothing,
        }),
    }
}

/// Runs a command that answers this, and gives its key this text, or deletes it where there is none, over the parts that are held: commits
/// its one entry, and copies the text over the old one. It takes no memory.
///
/// # Errors
///
/// As [`carry_out`].
fn enter_in_place<L: Latch, R: Shows>(
    site: &Site<L, R>,
    held: &mut Held<'_, Shard<R>>,
    asks: &Doing,
    reply: &Reply,
    text: Option<&Word>,
    spot: Spot,
) -> Result<(), Stopped>
    requires begin { MayBegin R.is_steady (doing_call asks.now) held.old }
    requires due { R.is_steady → IsPlan (known_to held.old).seen (Run (command_done asks.now))
        reply.now ((asks.now.key.now, option_copied text) ∷ []) }
    requires fits { Fits asks.now.key.now (option_copied text) }
    requires spot { IsSpot (held_stripes held.old) (logs_of (part_at (held_parts held.old))) asks.now.key.now
        (value_bytes (option_copied text)) spot }
    ensures entered { (failures : ℕ) → HasEntered (promises_of R.is_steady R.lends (held_stripes held.old)) (doing_call asks.now)
        own_answer (held.old, failures) (held.new, failures) (came_to reply.now result) }
    ensures worn { IfErr result (λ stopped. stopped ≡ worn_out) }
{
    writes_install_a_command::<R>();
    site.latch.at(held.number(), Point::Holding);
    match held.commit(asks, reply) {
        Ok(_) => {
            install_at(held, asks.key, spot, text);
            Ok(())
        }
        Err(_) => Err(Stopped {
            fault: Fault::CommitsWornOut,
            report: Report::Nothing,
        }),
    }
}

/// Runs a command that answers this, and gives its key this value, or deletes it where there is none, over the parts that are held:
/// makes room for that, commits its one entry, and copies the value into the page. It takes no memory.
///
/// # Errors
///
/// As [`carry_out`].
fn enter_put<L: Latch, R: Shows, D: Device<Receipt = R>, S: Retires>(
    site: &Site<L, R>,
    held: &mut Held<'_, Shard<R>>,
    device: &mut D,
    own: &mut S,
    asks: &Doing,
    reply: &Reply,
    value: Option<&Word>,
) -> Result<(), Stopped>
    requires begin { MayBegin R.is_steady (doing_call asks.now) held.old }
    requires due { R.is_steady → IsPlan (known_to held.old).seen (Run (command_done asks.now))
        reply.now ((asks.now.key.now, option_copied value) ∷ []) }
    requires light { weigh (asks.now.key.now, option_copied value) ≤ WEIGHT_MAX }
    requires fits { Fits asks.now.key.now (option_copied value) }
    requires is { S.is_of site.now.epochs.now own.old }
    ensures is { S.is_of site.now.epochs.now own.new }
    ensures heard { HasHeardFor own_answer (came_to reply.now result) (S.knows own.old) (S.knows own.new) }
    ensures lacks { IfErr result (λ stopped. IfLacking stopped.fault (LacksRoomToPut (held_stripes held.old)
        (asks.now.key.now, option_copied value.entry) (part_at (held_parts held.old)) (part_at (held_parts held.new)))) }
    ensures entered { HasEntered (promises_of R.is_steady R.lends (held_stripes held.old)) (doing_call asks.now) own_answer
        (held.old, D.failures device.old) (held.new, D.failures device.new) (came_to reply.now result) }
{
    writes_install_a_command::<R>();
    let key = asks.key;
    if let Err(halt) = reserve_freeing(held, key, value, site.epochs, own, device) {
        return Err(told_of(halt.stop, halt.refused));
    }
    site.latch.at(held.number(), Point::Holding);
    match held.commit(asks, reply) {
        Ok(_) => {
            install_looked_up(held, key, value);
            Ok(())
        }
        Err(_) => Err(Stopped {
            fault: Fault::CommitsWornOut,
            report: Report::Nothing,
        }),
    }
}

/// What a call came to that was answered so, or by a fault.
fn entered_of(reply: Reply, done: Result<(), Stopped>) -> Entered<Answer>
    ensures { result ≡ came_to reply done }
{
    let (answer, report) = match done {
        Ok(()) => (Answer::Reply(reply), Report::Nothing),
        Err(Stopped { fault, report }) => {
            drop(reply);
            (Answer::Fault(fault), report)
        }
    };
    Entered {
        answer,
        ends: false,
        report,
    }
}

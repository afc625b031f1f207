//! The short way of an MGET, whose keys stay the caller's: where all values lie near, each is copied once, as the reply spells it, and
//! where the buffer has room for that, to where the reply goes.

ghost use Rattle.std.specs.Prelude.{◌≡◌, ◌≤◌, ◌++◌, ℕ, [], IfOk, OnErr, vec_len, vec_capacity};
ghost use Rattle.words.specs.Bounds.{IsBounded};
ghost use Rattle.words.specs.declared.command.Command.TheVariants as command;
ghost use Rattle.words.specs.declared.history.Operation.TheVariants.{Run};
ghost use Rattle.words.specs.Session.{values_reply};
ghost use Rattle.gates.specs.Passes.{IsResting, known, stripes_of};
ghost use Rattle.gates.specs.Helds.{held_stripes, known_to};
ghost use Rattle.transact.specs.Plans.{IsPlan};
ghost use Rattle.transact.specs.Submits.{stripes_asked};
ghost use Rattle.plans.specs.declared.reading.WhenCold.TheVariants.{Stops};
ghost use Rattle.engine.specs.Answers.{IsAnswered};
ghost use Rattle.engine.specs.Calls.{promises_of};
ghost use Rattle.engine.specs.Entering.{AreReady, HasEntered, MayBegin, WasCold, as_planned, reading_call, values_answer};
ghost use Rattle.engine.specs.Got.{got_all_answer, got_all_text, spoken_answer, spoken_text};
ghost use Rattle.engine.specs.Memory.{values_call};
ghost use Rattle.engine.specs.Passes.{HasHands, OfSeats, know};
ghost use Rattle.engine.specs.Stops.{HasHeardFor, HasHeardIn, HasHeardWith};
ghost use Rattle.epoch.specs.declared.view.View.{View};

use crate::enter::{Entered, enter};
use crate::rounds::{Asking, Enters, run};
use crate::say::{Speaking, Spoken, say_at_once};
use crate::site::Site;
use device::{Device, Shows};
use epoch::EpochSeat;
use gates::{Asks, Held, Latch, Pass, Point, Report, Says, Sorted};
use plans::hands::Hands;
use plans::hashed::{HashedCall, key_of};
use plans::laws::writes_install_a_command;
use plans::reading::WhenCold;
use plans::stop::Receipts;
use plans::telling::tell_values;
use shards::retires::Retires;
use shards::shard::Shard;
use std::sync::Wait;
use transact::call::{Answer, Call};
use transact::stripes::stripes_of_keys;
use words::bulks::Bulks;
use words::command::{Command, keys_of};
use words::reply::Fault;
use words::word::Word;

/// What an MGET is answered.
#[derive(Drop)]
pub enum GotAll {
    /// The reply was appended to the buffer.
    Said(Spoken),
    /// Nothing was appended.
    Gathered(Gathered),
}

/// What an MGET is answered that has said nothing.
#[derive(Drop)]
pub enum Gathered {
    /// The values of its keys.
    Found(Bulks),
    /// The answer to it, where it was planned, or was not done.
    Planned(Answer),
}

/// An MGET.
#[derive(Drop)]
struct Reading<'a> {
    keys: &'a [Word],
}

impl Asks for Reading<'_> {
    ghost use Rattle.engine.specs.Entering.{reading_asked};

    ghost asked = { reading_asked };
}

/// What an MGET found.
#[derive(Drop)]
struct Told<'a> {
    values: &'a Bulks,
}

impl Says for Told<'_> {
    ghost use Rattle.engine.specs.Entering.{told_reply};

    ghost said = { told_reply };
}

impl Enters<Gathered> for Reading<'_> {
    ghost use Rattle.engine.specs.Entering.{reading_call, values_answer};

    ghost call_of = { reading_call };

    ghost says = { values_answer };

    fn enter<L: Latch, R: Shows, D: Device<Receipt = R>, S: Retires>(
        &self,
        site: &Site<L, R>,
        held: &mut Held<'_, Shard<R>>,
        device: &mut D,
        hands: &mut Hands<R, S>,
        cold: WhenCold,
    ) -> Result<Entered<Gathered>, Receipts<R>> {
        enter_values(site, held, device, hands, self, cold)
    }

    fn fail<T: Wait, L: Latch, R: Shows>(
        &self,
        _rt: &T,
        _site: &Site<L, R>,
        _pass: &mut Pass<Shard<R>>,
        _wanted: &Sorted,
        fault: Fault,
    ) -> Gathered {
        Gathered::Planned(Answer::Fault(fault))
    }
}

/// Runs an MGET of a pass over the gates. Where all values lie near and the buffer has room for the reply, the reply is appended to it.
/// Where it wants a page, it gives its stripes back, reads outside and looks anew, at most three times; then it reads while it holds them.
#[inline(never)]
pub(crate) fn submit_values<T: Wait, L: Latch, R: Shows, D: Device<Receipt = R>>(
    rt: &T,
    site: &Site<L, R>,
    pass: &mut Pass<Shard<R>>,
    device: &mut D,
    hands: &mut Option<Hands<R, EpochSeat>>,
    keys: &[Word],
    out: &mut Vec<u8>,
) -> GotAll
    requires rests { IsResting R.is_steady site.now.gates.now pass.old }
    requires hands { HasHands site.now.epochs.now hands.old }
    requires place { IsBounded (command.MGet keys.now) }
    ensures rests { IsResting R.is_steady site.now.gates.now pass.new }
    ensures hands { HasHands site.now.epochs.now hands.new }
    ensures heard { OfSeats (HasHeardWith (known pass.old) (known pass.new)) hands.old hands.new }
    ensures answered { IsAnswered (promises_of R.is_steady R.lends (stripes_of site.now.gates.now))
        (stripes_asked (stripes_of site.now.gates.now) (values_call keys.now)) (values_call keys.now) (got_all_answer result)
        (know (known pass.old) (D.failures device.old)) (know (known pass.new) (D.failures device.new)) }
    ensures said { out.new.items ≡ out.old.items ++ got_all_text result }
    ensures within { vec_len out.new ≤ vec_capacity out.old }
{
    let wanted = stripes_of_keys(keys, site.gates.stripes());
    let speaking = Speaking::Keys(keys);
    if let Some(spoken) = say_at_once(rt, site, pass, hands, &speaking, &wanted, out) {
        return got_all_of(spoken);
    }
    let asking = Asking {
        call: &Reading { keys },
        wanted: &wanted,
    };
    GotAll::Gathered(run(rt, site, pass, device, hands, &asking))
}

/// What an MGET came to that has said its reply, or was refused.
fn got_all_of(spoken: Result<Spoken, Fault>) -> GotAll
    ensures answer { got_all_answer result ≡ spoken_answer spoken }
    ensures text { got_all_text result ≡ spoken_text spoken }
{
    match spoken {
        Ok(spoken) => GotAll::Said(spoken),
        Err(fault) => GotAll::Gathered(Gathered::Planned(Answer::Fault(fault))),
    }
}

/// Runs an MGET over the parts that are held. Where a value lies neither near nor on a staged page, or memory is refused for the text, it
/// is planned.
///
/// # Errors
///
/// Copies of the receipts of the pages that are wanted, where they may not be read: nothing has changed then.
fn enter_values<L: Latch, R: Shows, D: Device<Receipt = R>, S: Retires>(
    site: &Site<L, R>,
    held: &mut Held<'_, Shard<R>>,
    device: &mut D,
    hands: &mut Hands<R, S>,
    reading: &Reading,
    cold: WhenCold,
) -> Result<Entered<Gathered>, Receipts<R>>
    requires begin { MayBegin R.is_steady (reading_call reading.now) held.old }
    requires hands { AreReady (S.is_of site.now.epochs.now) R.is_steady hands.old }
    ensures hands { AreReady (S.is_of site.now.epochs.now) R.is_steady hands.new }
    ensures heard { HasHeardIn values_answer result (S.knows hands.old.own) (S.knows hands.new.own) }
    ensures entered { IfOk result (HasEntered (promises_of R.is_steady R.lends (held_stripes held.old)) (reading_call reading.now)
        values_answer (held.old, D.failures device.old) (held.new, D.failures device.new)) }
    ensures cold { OnErr result (WasCold R.is_steady R.lends (reading_call reading.now)
        (held.old, D.failures device.old) (held.new, D.failures device.new)) }
    ensures outside { OnErr result (cold ≡ Stops) }
{
    let Some(values) = tell_values(hands.alloc, held, reading.keys, &hands.staged) else {
        return enter_planned(site, held, device, hands, reading, cold);
    };
    Ok(enter_told(site, held, reading, values))
}

/// Runs an MGET that is answered by these values over the parts that are held: commits its one entry.
fn enter_told<L: Latch, R: Shows>(
    site: &Site<L, R>,
    held: &mut Held<'_, Shard<R>>,
    reading: &Reading,
    values: Bulks,
) -> Entered<Gathered>
    requires begin { MayBegin R.is_steady (reading_call reading.now) held.old }
    requires due { R.is_steady → IsPlan (known_to held.old).seen (Run (command.MGet reading.now.keys.now)) (values_reply values) [] }
    ensures entered { (failures : ℕ) → HasEntered (promises_of R.is_steady R.lends (held_stripes held.old)) (reading_call reading.now)
        values_answer (held.old, failures) (held.new, failures) result }
    ensures heard { (view : View) → HasHeardFor values_answer result view view }
{
    writes_install_a_command::<R>();
    site.latch.at(held.number(), Point::Holding);
    match held.commit(reading, &Told { values: &values }) {
        Ok(_) => Entered {
            answer: Gathered::Found(values),
            ends: false,
            report: Report::Nothing,
        },
        Err(_) => {
            drop(values);
            Entered {
                answer: Gathered::Planned(Answer::Fault(Fault::CommitsWornOut)),
                ends: false,
                report: Report::Nothing,
            }
        }
    }
}

/// Runs an MGET as other commands are: it is planned. Its keys are copied.
///
/// # Errors
///
/// As [`enter`].
#[inline(never)]
fn enter_planned<L: Latch, R: Shows, D: Device<Receipt = R>, S: Retires>(
    site: &Site<L, R>,
    held: &mut Held<'_, Shard<R>>,
    device: &mut D,
    hands: &mut Hands<R, S>,
    reading: &Reading,
    cold: WhenCold,
) -> Result<Entered<Gathered>, Receipts<R>>
    requires begin { MayBegin R.is_steady (reading_call reading.now) held.old }
    requires hands { AreReady (S.is_of site.now.epochs.now) R.is_steady hands.old }
    ensures hands { AreReady (S.is_of site.now.epochs.now) R.is_steady hands.new }
    ensures heard { HasHeardIn values_answer result (S.knows hands.old.own) (S.knows hands.new.own) }
    ensures entered { IfOk result (HasEntered (promises_of R.is_steady R.lends (held_stripes held.old)) (reading_call reading.now)
        values_answer (held.old, D.failures device.old) (held.new, D.failures device.new)) }
    ensures cold { OnErr result (WasCold R.is_steady R.lends (reading_call reading.now)
        (held.old, D.failures device.old) (held.new, D.failures device.new)) }
    ensures outside { OnErr result (cold ≡ Stops) }
{
    let Ok(keys) = keys_of(hands.alloc, reading.keys) else {
        return Ok(Entered {
            answer: Gathered::Planned(Answer::Fault(Fault::OutOfMemory)),
            ends: false,
            report: Report::Nothing,
        });
    };
    let call = Call::One(Command::MGet(keys));
    let hashed = HashedCall {
        call: &call,
        key: key_of(&call),
    };
    let entered = enter(site, held, device, hands, &hashed, cold);
    call.spend();
    match entered {
        Ok(entered) => Ok(planned(entered)),
        Err(receipts) => Err(receipts),
    }
}

/// The same, as what an MGET came to.
fn planned(entered: Entered<Answer>) -> Entered<Gathered>
    ensures { result ≡ as_planned entered }
{
    let Entered {
        answer,
        ends,
        report,
    } = entered;
    Entered {
        answer: Gathered::Planned(answer),
        ends,
        report,
    }
}

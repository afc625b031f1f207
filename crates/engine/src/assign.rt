//! The short way of an MSET, whose keys and values stay the caller's: no command and no plan is made, nothing is looked up, and each
//! value is copied once, into its page.

ghost use Rattle.std.specs.Prelude.{◌≡◌, ◌<◌, ◌≤◌, [], false, true, IfOk, OnErr};
ghost use Rattle.words.specs.Answers.{writes_set};
ghost use Rattle.words.specs.Bounds.{IsBounded};
ghost use Rattle.words.specs.Briefs.{pairs_of};
ghost use Rattle.words.specs.Store.{weight};
ghost use Rattle.words.specs.declared.command.Command.TheVariants as command;
ghost use Rattle.words.specs.declared.history.Operation.TheVariants.{Run};
ghost use Rattle.words.specs.declared.limits.TheConstants.{WEIGHT_MAX};
ghost use Rattle.words.specs.declared.reply.Line.TheVariants.{Done};
ghost use Rattle.words.specs.Session.{line_reply};
ghost use Rattle.gates.specs.Passes.{IsResting, known, stripes_of};
ghost use Rattle.gates.specs.Helds.{held_stripes, known_to};
ghost use Rattle.transact.specs.Plans.{IsPlan, weight_of_each};
ghost use Rattle.transact.specs.Submits.{stripes_asked};
ghost use Rattle.plans.specs.declared.reading.WhenCold.TheVariants.{Stops};
ghost use Rattle.engine.specs.Answers.{IsAnswered};
ghost use Rattle.engine.specs.Calls.{promises_of};
ghost use Rattle.engine.specs.Entering.{AreReady, HasEntered, MayBegin, WasCold, assigning_call, line_came_to, own_answer};
ghost use Rattle.engine.specs.Memory.{settings_call};
ghost use Rattle.engine.specs.Passes.{HasHands, OfSeats, know};
ghost use Rattle.engine.specs.Stops.{HasHeardFor, HasHeardIn, HasHeardWith, IfLacking};
ghost use Rattle.gates.specs.Helds.{held_parts};
ghost use Rattle.gates.specs.Sets.{part_at};
ghost use Rattle.plans.specs.Lacking.{FoundLacking};
ghost use Rattle.shards.specs.Shards.{logs_of};
ghost use Rattle.transact.specs.Submits.{IfFault};

use crate::enter::{Entered, Stopped, enter, told_of};
use crate::rounds::{Asking, Enters, run};
use crate::site::Site;
use device::{Device, Shows};
use epoch::EpochSeat;
use gates::{Asks, Held, Latch, Pass, Point, Report, Sorted};
use plans::freeing::settings_freeing;
use plans::hands::Hands;
use plans::hashed::{HashedCall, key_of};
use plans::laws::writes_install_a_command;
use plans::reading::WhenCold;
use plans::settings::install_settings;
use plans::stop::Receipts;
use shards::retires::Retires;
use shards::shard::Shard;
use std::sync::Wait;
use transact::call::{Answer, Call};
use transact::stripes::stripes_of_settings;
use transact::weight::are_light;
use words::command::{Command, settings_of};
use words::reply::{Fault, Line};
use words::word::Word;

/// An MSET, by its keys, each of which has its value behind it.
#[derive(Drop)]
pub(crate) struct Assigning<'a> {
    pub(crate) words: &'a [Word],
}

impl Asks for Assigning<'_> {
    ghost use Rattle.engine.specs.Entering.{assigning_asked};

    ghost asked = { assigning_asked };
}

impl Enters<Answer> for Assigning<'_> {
    ghost use Rattle.engine.specs.Entering.{assigning_call, own_answer};

    ghost call_of = { assigning_call };

    ghost says = { own_answer };

    fn enter<L: Latch, R: Shows, D: Device<Receipt = R>, S: Retires>(
        &self,
        site: &Site<L, R>,
        held: &mut Held<'_, Shard<R>>,
        device: &mut D,
        hands: &mut Hands<R, S>,
        cold: WhenCold,
    ) -> Result<Entered<Answer>, Receipts<R>> {
        enter_assigning(site, held, device, hands, self, cold)
    }

    fn fail<T: Wait, L: Latch, R: Shows>(
        &self,
        _rt: &T,
        _site: &Site<L, R>,
        _pass: &mut Pass<Shard<R>>,
        _wanted: &Sorted,
        fault: Fault,
    ) -> Answer {
        Answer::Fault(fault)
    }
}

/// Runs an MSET of a pass over the gates. It wants no page.
#[inline(never)]
pub(crate) fn submit_settings<T: Wait, L: Latch, R: Shows, D: Device<Receipt = R>>(
    rt: &T,
    site: &Site<L, R>,
    pass: &mut Pass<Shard<R>>,
    device: &mut D,
    hands: &mut Option<Hands<R, EpochSeat>>,
    words: &[Word],
) -> Answer
    requires rests { IsResting R.is_steady site.now.gates.now pass.old }
    requires hands { HasHands site.now.epochs.now hands.old }
    requires place { IsBounded (command.MSet (pairs_of words.now)) }
    ensures rests { IsResting R.is_steady site.now.gates.now pass.new }
    ensures hands { HasHands site.now.epochs.now hands.new }
    ensures heard { OfSeats (HasHeardWith (known pass.old) (known pass.new)) hands.old hands.new }
    ensures answered { IsAnswered (promises_of R.is_steady R.lends (stripes_of site.now.gates.now))
        (stripes_asked (stripes_of site.now.gates.now) (settings_call words.now)) (settings_call words.now) result
        (know (known pass.old) (D.failures device.old)) (know (known pass.new) (D.failures device.new)) }
{
    let wanted = stripes_of_settings(words, site.gates.stripes());
    let asking = Asking {
        call: &Assigning { words },
        wanted: &wanted,
    };
    run(rt, site, pass, device, hands, &asking)
}

/// Runs an MSET over the parts that are held. One that may be too heavy for a call is planned.
///
/// # Errors
///
/// As [`enter`].
fn enter_assigning<L: Latch, R: Shows, D: Device<Receipt = R>, S: Retires>(
    site: &Site<L, R>,
    held: &mut Held<'_, Shard<R>>,
    device: &mut D,
    hands: &mut Hands<R, S>,
    assigning: &Assigning,
    cold: WhenCold,
) -> Result<Entered<Answer>, Receipts<R>>
    requires begin { MayBegin R.is_steady (assigning_call assigning.now) held.old }
    requires hands { AreReady (S.is_of site.now.epochs.now) R.is_steady hands.old }
    ensures hands { AreReady (S.is_of site.now.epochs.now) R.is_steady hands.new }
    ensures heard { HasHeardIn own_answer result (S.knows hands.old.own) (S.knows hands.new.own) }
    ensures entered { IfOk result (HasEntered (promises_of R.is_steady R.lends (held_stripes held.old)) (assigning_call assigning.now)
        own_answer (held.old, D.failures device.old) (held.new, D.failures device.new)) }
    ensures cold { OnErr result (WasCold R.is_steady R.lends (assigning_call assigning.now)
        (held.old, D.failures device.old) (held.new, D.failures device.new)) }
    ensures outside { OnErr result (cold ≡ Stops) }
{
    if are_light(assigning.words) {
        let own = &mut hands.own;
        return Ok(enter_light(site, held, device, own, assigning));
    }
    enter_planned(site, held, device, hands, assigning, cold)
}

/// Runs an MSET that is due to be done over the parts that are held: makes room for its keys and values, commits its one entry, and
/// copies them into the pages. It takes no memory.
fn enter_light<L: Latch, R: Shows, D: Device<Receipt = R>, S: Retires>(
    site: &Site<L, R>,
    held: &mut Held<'_, Shard<R>>,
    device: &mut D,
    own: &mut S,
    assigning: &Assigning,
) -> Entered<Answer>
    requires begin { MayBegin R.is_steady (assigning_call assigning.now) held.old }
    requires due { R.is_steady → IsPlan (known_to held.old).seen (Run (command.MSet (pairs_of assigning.now.words.now)))
        (line_reply Done) (writes_set (pairs_of assigning.now.words.now)) }
    requires light { weight (writes_set (pairs_of assigning.now.words.now)) ≤ WEIGHT_MAX }
    requires is { S.is_of site.now.epochs.now own.old }
    ensures is { S.is_of site.now.epochs.now own.new }
    ensures heard { HasHeardFor own_answer result (S.knows own.old) (S.knows own.new) }
    ensures lacks { IfFault result.answer (λ fault. IfLacking fault (FoundLacking
        (λ due. due ≡ writes_set (pairs_of assigning.now.words.now)) (held_stripes held.old)
        (logs_of (part_at (held_parts held.old))) (logs_of (part_at (held_parts held.new))))) }
    ensures entered { HasEntered (promises_of R.is_steady R.lends (held_stripes held.old)) (assigning_call assigning.now) own_answer
        (held.old, D.failures device.old) (held.new, D.failures device.new) result }
{
    writes_install_a_command::<R>();
    let words = assigning.words;
    if let Err(halt) = settings_freeing(held, words, site.epochs, own, device) {
        let Stopped { fault, report } = told_of(halt.stop, halt.refused);
        return answered(Err(fault), report);
    }
    site.latch.at(held.number(), Point::Holding);
    match held.commit(assigning, &Line::Done) {
        Ok(_) => {
            install_settings(held, words);
            answered(Ok(Line::Done), Report::Nothing)
        }
        Err(_) => answered(Err(Fault::CommitsWornOut), Report::Nothing),
    }
}

/// Runs an MSET that may be too heavy as other commands are: it is planned. Its words are copied.
///
/// # Errors
///
/// As [`enter`].
#[inline(never)]
fn enter_planned<L: Latch, R: Shows, D: Device<Receipt = R>, S: Retires>(
    site: &Site<L, R>,
    held: &mut Held<'_, Shard<R>>,
    device: &mut D,
    hands: &mut Hands<R, S>,
    assigning: &Assigning,
    cold: WhenCold,
) -> Result<Entered<Answer>, Receipts<R>>
    requires begin { MayBegin R.is_steady (assigning_call assigning.now) held.old }
    requires hands { AreReady (S.is_of site.now.epochs.now) R.is_steady hands.old }
    requires heavy { WEIGHT_MAX < weight_of_each (pairs_of assigning.now.words.now) }
    ensures hands { AreReady (S.is_of site.now.epochs.now) R.is_steady hands.new }
    ensures heard { HasHeardIn own_answer result (S.knows hands.old.own) (S.knows hands.new.own) }
    ensures entered { IfOk result (HasEntered (promises_of R.is_steady R.lends (held_stripes held.old)) (assigning_call assigning.now)
        own_answer (held.old, D.failures device.old) (held.new, D.failures device.new)) }
    ensures cold { OnErr result (WasCold R.is_steady R.lends (assigning_call assigning.now)
        (held.old, D.failures device.old) (held.new, D.failures device.new)) }
    ensures outside { OnErr result (cold ≡ Stops) }
{
    let Ok(settings) = settings_of(hands.alloc, assigning.words) else {
        return Ok(answered(Err(Fault::OutOfMemory), Report::Nothing));
    };
    let call = Call::One(Command::MSet(settings));
    let hashed = HashedCall {
        call: &call,
        key: key_of(&call),
    };
    let entered = enter(site, held, device, hands, &hashed, cold);
    call.spend();
    entered
}

/// What an MSET came to that is answered by a line or by a fault.
fn answered(told: Result<Line, Fault>, report: Report) -> Entered<Answer>
    ensures { result ≡ line_came_to told report }
{
    Entered {
        answer: Answer::of_line(told),
        ends: false,
        report,
    }
}

//! The short way of a GET, whose key stays the caller's: where its value lies near, it is copied once, to where its reply goes.

ghost use Rattle.std.specs.Prelude.{◌≡◌, ◌≤◌, ◌++◌, [], false, IfOk, OnErr, vec_len, vec_capacity};
ghost use Rattle.words.specs.Bounds.{IsBounded};
ghost use Rattle.words.specs.declared.command.Command.TheVariants as command;
ghost use Rattle.gates.specs.Passes.{IsResting, known, stripes_of};
ghost use Rattle.gates.specs.Helds.{held_stripes, known_to};
ghost use Rattle.gates.specs.declared.report.Report.TheVariants.{Nothing};
ghost use Rattle.hybrid.specs.Staging.{AreRight};
ghost use Rattle.transact.specs.Calls.{answer_with};
ghost use Rattle.transact.specs.Submits.{stripes_asked};
ghost use Rattle.engine.specs.Answers.{IsAnswered};
ghost use Rattle.engine.specs.Calls.{promises_of};
ghost use Rattle.engine.specs.Entering.{MayBeGiven, MayEnter, WasCold};
ghost use Rattle.engine.specs.Got.{got_answer, got_text, spoken_answer, spoken_text};
ghost use Rattle.engine.specs.Memory.{get_call};
ghost use Rattle.engine.specs.Passes.{HasHands, OfSeats, know};
ghost use Rattle.engine.specs.Stops.{HasHeardWith, TellsFull};
ghost use Rattle.plans.specs.declared.reading.WhenCold.TheVariants.{Stops};

use crate::enter::{Entered, told_of};
use crate::rounds::{Asking, Enters, run};
use crate::say::{Speaking, Spoken, say_at_once};
use crate::site::Site;
use device::{Device, Shows};
use epoch::EpochSeat;
use gates::{Asks, Held, Latch, Pass, Point, Refused, Report, Says, Sorted};
use plans::hands::Hands;
use plans::laws::writes_install_a_command;
use plans::reading::{WhenCold, value_staged};
use plans::stop::{Receipts, Stop};
use shards::retires::Retires;
use shards::shard::Shard;
use std::sync::Wait;
use transact::stripes::stripe_of_key;
use words::hash::Hashed;
use words::reply::Fault;
use words::word::Word;

/// What the key of a GET has.
#[derive(Drop)]
pub enum Got {
    /// The reply was appended to the buffer.
    Said(Spoken),
    /// Nothing was appended.
    Found(Option<Word>),
}

/// A GET.
#[derive(Drop)]
struct Getting<'a> {
    key: &'a Hashed<'a>,
}

impl Asks for Getting<'_> {
    ghost use Rattle.engine.specs.Entering.{getting_asked};

    ghost asked = { getting_asked };
}

impl Enters<Result<Option<Word>, Fault>> for Getting<'_> {
    ghost use Rattle.transact.specs.Calls.{answer_with};
    ghost use Rattle.engine.specs.Entering.{getting_call};

    ghost call_of = { getting_call };

    ghost says = { answer_with };

    fn enter<L: Latch, R: Shows, D: Device<Receipt = R>, S: Retires>(
        &self,
        site: &Site<L, R>,
        held: &mut Held<'_, Shard<R>>,
        device: &mut D,
        hands: &mut Hands<R, S>,
        cold: WhenCold,
    ) -> Result<Entered<Result<Option<Word>, Fault>>, Receipts<R>> {
        match enter_get(site, held, device, hands, self.key, cold) {
            Ok(answer) => Ok(Entered {
                answer,
                ends: false,
                report: Report::Nothing,
            }),
            Err(receipts) => Err(receipts),
        }
    }

    fn fail<T: Wait, L: Latch, R: Shows>(
        &self,
        _rt: &T,
        _site: &Site<L, R>,
        _pass: &mut Pass<Shard<R>>,
        _wanted: &Sorted,
        fault: Fault,
    ) -> Result<Option<Word>, Fault> {
        Err(fault)
    }
}

/// What a GET found.
#[derive(Drop)]
struct Found<'a> {
    value: &'a Option<Word>,
}

impl Says for Found<'_> {
    ghost use Rattle.engine.specs.Entering.{found_reply};

    ghost said = { found_reply };
}

/// Runs a GET of a pass over the gates. It is answered by what the key has. Where it wants a page, it gives its stripe back,
/// reads outside and looks anew, at most three times; then it reads while it holds the stripe.
///
/// # Errors
///
/// The fault that a call is answered which is not done.
pub(crate) fn submit_get<T: Wait, L: Latch, R: Shows, D: Device<Receipt = R>>(
    rt: &T,
    site: &Site<L, R>,
    pass: &mut Pass<Shard<R>>,
    device: &mut D,
    hands: &mut Option<Hands<R, EpochSeat>>,
    key: &Word,
) -> Result<Option<Word>, Fault>
    requires rests { IsResting R.is_steady site.now.gates.now pass.old }
    requires hands { HasHands site.now.epochs.now hands.old }
    requires place { IsBounded (command.Get key.now) }
    ensures rests { IsResting R.is_steady site.now.gates.now pass.new }
    ensures hands { HasHands site.now.epochs.now hands.new }
    ensures heard { OfSeats (HasHeardWith (known pass.old) (known pass.new)) hands.old hands.new }
    ensures answered { IsAnswered (promises_of R.is_steady R.lends (stripes_of site.now.gates.now))
        (stripes_asked (stripes_of site.now.gates.now) (get_call key.now)) (get_call key.now) (answer_with result)
        (know (known pass.old) (D.failures device.old)) (know (known pass.new) (D.failures device.new)) }
{
    let key = Hashed::new(key);
    let wanted = stripe_of_key(&key, site.gates.stripes());
    let asking = Asking {
        call: &Getting { key: &key },
        wanted: &wanted,
    };
    run(rt, site, pass, device, hands, &asking)
}

/// Runs a GET of a pass over the gates, as [`submit_get`] does. Where what the key has lies near and the buffer has room for the reply, the
/// reply is appended to it.
///
/// # Errors
///
/// The fault that a call is answered which is not done. Nothing is appended then.
pub(crate) fn submit_say<T: Wait, L: Latch, R: Shows, D: Device<Receipt = R>>(
    rt: &T,
    site: &Site<L, R>,
    pass: &mut Pass<Shard<R>>,
    device: &mut D,
    hands: &mut Option<Hands<R, EpochSeat>>,
    key: &Word,
    out: &mut Vec<u8>,
) -> Result<Got, Fault>
    requires rests { IsResting R.is_steady site.now.gates.now pass.old }
    requires hands { HasHands site.now.epochs.now hands.old }
    requires place { IsBounded (command.Get key.now) }
    ensures rests { IsResting R.is_steady site.now.gates.now pass.new }
    ensures hands { HasHands site.now.epochs.now hands.new }
    ensures heard { OfSeats (HasHeardWith (known pass.old) (known pass.new)) hands.old hands.new }
    ensures answered { IsAnswered (promises_of R.is_steady R.lends (stripes_of site.now.gates.now))
        (stripes_asked (stripes_of site.now.gates.now) (get_call key.now)) (get_call key.now) (got_answer result)
        (know (known pass.old) (D.failures device.old)) (know (known pass.new) (D.failures device.new)) }
    ensures said { out.new.items ≡ out.old.items ++ got_text result }
    ensures within { vec_len out.new ≤ vec_capacity out.old }
{
    let hashed = Hashed::new(key);
    let wanted = stripe_of_key(&hashed, site.gates.stripes());
    let speaking = Speaking::Key(&hashed);
    if let Some(spoken) = say_at_once(rt, site, pass, hands, &speaking, &wanted, out) {
        return got_of(spoken);
    }
    let asking = Asking {
        call: &Getting { key: &hashed },
        wanted: &wanted,
    };
    match run(rt, site, pass, device, hands, &asking) {
        Ok(value) => Ok(Got::Found(value)),
        Err(fault) => Err(fault),
    }
}

/// What a GET came to that has said its reply, or was refused.
fn got_of(spoken: Result<Spoken, Fault>) -> Result<Got, Fault>
    ensures answer { got_answer result ≡ spoken_answer spoken }
    ensures text { got_text result ≡ spoken_text spoken }
{
    match spoken {
        Ok(spoken) => Ok(Got::Said(spoken)),
        Err(fault) => Err(fault),
    }
}

/// Runs a GET over the parts that are held: it tells the one copy that is made of the value. If a page is wanted that is
/// not among the staged ones, it is read meanwhile, or it stops.
///
/// # Errors
///
/// Copies of the receipts of the pages that are wanted, where they may not be read: nothing has changed then.
fn enter_get<L: Latch, R: Shows, D: Device<Receipt = R>, S>(
    site: &Site<L, R>,
    held: &mut Held<'_, Shard<R>>,
    device: &mut D,
    hands: &mut Hands<R, S>,
    key: &Hashed,
    cold: WhenCold,
) -> Result<Result<Option<Word>, Fault>, Receipts<R>>
    requires may { MayEnter R.is_steady (get_call key.now) held.old }
    requires place { IsBounded (command.Get key.now) }
    requires right { R.is_steady → AreRight hands.old.staged }
    ensures own { hands.new.own ≡ hands.old.own }
    ensures right { R.is_steady → AreRight hands.new.staged }
    ensures back { MayBeGiven R.is_steady false Nothing held.old held.new }
    ensures answered { IfOk result (λ answer. IsAnswered (promises_of R.is_steady R.lends (held_stripes held.old)) [] (get_call key.now)
        (answer_with answer) (know (known_to held.old) (D.failures device.old)) (know (known_to held.new) (D.failures device.new))) }
    ensures full { IfOk result (λ answer. TellsFull (answer_with answer) Nothing) }
    ensures cold { OnErr result (WasCold R.is_steady R.lends (get_call key.now)
        (held.old, D.failures device.old) (held.new, D.failures device.new)) }
    ensures outside { OnErr result (cold ≡ Stops) }
{
    writes_install_a_command::<R>();
    let staged = &mut hands.staged;
    let value = match value_staged(hands.alloc, held, key, staged, cold, device) {
        Ok(value) => value,
        Err(Stop::Cold(receipts)) => return Err(receipts),
        Err(stop) => return Ok(Err(told_of(stop, Refused::NONE).fault)),
    };
    site.latch.at(held.number(), Point::Holding);
    match held.commit(&Getting { key }, &Found { value: &value }) {
        Ok(_) => Ok(Ok(value)),
        Err(_) => Ok(Err(Fault::CommitsWornOut)),
    }
}

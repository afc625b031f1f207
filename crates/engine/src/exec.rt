//! Transactions of GETs that say their reply themselves: where what their keys have lies near, it is copied once, to where the reply goes.

ghost use Rattle.std.specs.Prelude.{◌≡◌, ◌≤◌, ◌++◌, ℕ, [], false, IfErr, IfNone, IfOk, IfSome, IsTrue, ◌↔◌, OnSome, vec_len, vec_capacity};
ghost use Rattle.gates.specs.Passes.{IsResting, known, stripes_of};
ghost use Rattle.gates.specs.Helds.{held_stripes, known_to, operation_asked};
ghost use Rattle.gates.specs.declared.report.Report.TheVariants.{Nothing};
ghost use Rattle.hybrid.specs.Staging.{AreRight};
ghost use Rattle.transact.specs.Plans.{IsEntry, IsPlan, keys_begun, keys_ended};
ghost use Rattle.transact.specs.Submits.{asked_for, stripes_asked};
ghost use Rattle.engine.specs.Answers.{IsAnswered};
ghost use Rattle.engine.specs.Calls.{promises_of};
ghost use Rattle.engine.specs.Entering.{HasEntered, HasWaited, MayBeGiven, MayBegin, MaySubmit, given};
ghost use Rattle.engine.specs.Got.{IfSaid, IsOfGets, as_spoke, came_answer, came_text, spoken_answer, spoken_reply, spoken_text};
ghost use Rattle.engine.specs.Passes.{HasHands, OfSeats, know};
ghost use Rattle.engine.specs.Stops.{HasHeardFor, HasHeardWith};
ghost use Rattle.epoch.specs.declared.view.View.{View};

use crate::call::submit;
use crate::enter::{Entered, give_back, refuse};
use crate::say::{Saying, Spoken};
use crate::site::Site;
use device::{Device, Shows};
use epoch::EpochSeat;
use gates::{Asks, Held, Latch, Pass, Point, Report, Says};
use hybrid::Staged;
use plans::hands::Hands;
use plans::hashed::{HashedCall, key_of};
use plans::laws::{stripes_hold_keys, writes_install_a_call};
use plans::marks::forget;
use plans::telling::{are_gets, say_gets};
use shards::shard::Shard;
use std::sync::Wait;
use transact::call::{Answer, Call, Watching};
use words::reply::Fault;

/// What a call came to that may have said its reply.
#[derive(Drop)]
pub enum Came {
    /// The reply was appended to the buffer.
    Said(Spoken),
    /// Nothing was appended.
    Answered(Answer),
}

/// Runs a call of a pass over the gates, as [`submit`] does. Where it is a transaction of GETs, none of its session's watched keys was
/// written, what it reads lies near and the buffer has room for the reply, the reply is appended to it.
#[inline(never)]
pub(crate) fn submit_saying<T: Wait, L: Latch, R: Shows, D: Device<Receipt = R>>(
    rt: &T,
    site: &Site<L, R>,
    pass: &mut Pass<Shard<R>>,
    device: &mut D,
    hands: &mut Option<Hands<R, EpochSeat>>,
    call: Call,
    out: &mut Vec<u8>,
) -> Came
    requires may { MaySubmit R.is_steady site.now.gates.now call pass.old }
    requires hands { HasHands site.now.epochs.now hands.old }
    ensures rests { IsResting R.is_steady site.now.gates.now pass.new }
    ensures hands { HasHands site.now.epochs.now hands.new }
    ensures heard { OfSeats (HasHeardWith (known pass.old) (known pass.new)) hands.old hands.new }
    ensures answered { IsAnswered (promises_of R.is_steady R.lends (stripes_of site.now.gates.now))
        (stripes_asked (stripes_of site.now.gates.now) call) call (came_answer result)
        (know (known pass.old) (D.failures device.old)) (know (known pass.new) (D.failures device.new)) }
    ensures said { out.new.items ≡ out.old.items ++ came_text result }
    ensures within { vec_len out.new ≤ vec_capacity out.old }
    ensures gets { IfSaid result (IsOfGets call) }
{
    match say_call(rt, site, pass, hands, &call, out) {
        Some(spoken) => {
            call.spend();
            came_of(spoken)
        }
        None => Came::Answered(submit(rt, site, pass, device, hands, call)),
    }
}

/// Runs a call in one hold of its stripes, if it is a transaction of GETs that says its reply, as [`say_exec`] does. `None` otherwise: it was
/// not answered then.
fn say_call<T: Wait, L: Latch, R: Shows>(
    rt: &T,
    site: &Site<L, R>,
    pass: &mut Pass<Shard<R>>,
    hands: &Option<Hands<R, EpochSeat>>,
    call: &Call,
    out: &mut Vec<u8>,
) -> Option<Result<Spoken, Fault>>
    requires may { MaySubmit R.is_steady site.now.gates.now call.now pass.old }
    requires hands { HasHands site.now.epochs.now hands.now }
    ensures may { IfNone result (MaySubmit R.is_steady site.now.gates.now call.now pass.new) }
    ensures rests { IsResting R.is_steady site.now.gates.now pass.new }
    ensures heard { (view : View) → OnSome result (HasHeardWith (known pass.old) (known pass.new) view view) }
    ensures answered { (failures : ℕ) → IfSome result (λ spoken. IsAnswered (promises_of R.is_steady R.lends (stripes_of site.now.gates.now))
        (stripes_asked (stripes_of site.now.gates.now) call.now) call.now (spoken_answer spoken)
        (know (known pass.old) failures) (know (known pass.new) failures)) }
    ensures waited { (failures : ℕ) → IfNone result (HasWaited (stripes_asked (stripes_of site.now.gates.now) call.now)
        (known pass.old, failures) (known pass.new, failures)) }
    ensures said { IfSome result (λ spoken. out.new.items ≡ out.old.items ++ spoken_text spoken) }
    ensures unsaid { IfNone result (out.new.items ≡ out.old.items) }
    ensures within { vec_len out.new ≤ vec_capacity out.old }
    ensures gets { OnSome result (IsOfGets call.now) }
{
    if !is_of_gets(call) {
        return None;
    }
    say_exec(rt, site, pass, hands, call, out)
}

/// Whether a call is a transaction of GETs.
fn is_of_gets(call: &Call) -> bool
    ensures { IsTrue result ↔ IsOfGets call.now }
{
    match call {
        Call::Exec(commands, _) => are_gets(commands.as_slice()),
        Call::One(_) | Call::Watch(_) | Call::Forget(_) => false,
    }
}

/// What a call came to that has said its reply, or was refused.
fn came_of(spoken: Result<Spoken, Fault>) -> Came
    ensures answer { came_answer result ≡ spoken_answer spoken }
    ensures text { came_text result ≡ spoken_text spoken }
{
    match spoken {
        Ok(spoken) => Came::Said(spoken),
        Err(fault) => Came::Answered(Answer::Fault(fault)),
    }
}

/// Runs a transaction of GETs in one hold of its stripes, if none of its session's watched keys was written, what it reads lies near and the
/// buffer has room for the reply. `None` otherwise: it was not answered then.
fn say_exec<T: Wait, L: Latch, R: Shows>(
    rt: &T,
    site: &Site<L, R>,
    pass: &mut Pass<Shard<R>>,
    hands: &Option<Hands<R, EpochSeat>>,
    call: &Call,
    out: &mut Vec<u8>,
) -> Option<Result<Spoken, Fault>>
    requires may { MaySubmit R.is_steady site.now.gates.now call.now pass.old }
    requires hands { HasHands site.now.epochs.now hands.now }
    requires gets { IsOfGets call.now }
    ensures rests { IsResting R.is_steady site.now.gates.now pass.new }
    ensures heard { (view : View) → OnSome result (HasHeardWith (known pass.old) (known pass.new) view view) }
    ensures answered { (failures : ℕ) → IfSome result (λ spoken. IsAnswered (promises_of R.is_steady R.lends (stripes_of site.now.gates.now))
        (stripes_asked (stripes_of site.now.gates.now) call.now) call.now (spoken_answer spoken)
        (know (known pass.old) failures) (know (known pass.new) failures)) }
    ensures waited { (failures : ℕ) → IfNone result (HasWaited (stripes_asked (stripes_of site.now.gates.now) call.now)
        (known pass.old, failures) (known pass.new, failures)) }
    ensures said { IfSome result (λ spoken. out.new.items ≡ out.old.items ++ spoken_text spoken) }
    ensures unsaid { IfNone result (out.new.items ≡ out.old.items) }
    ensures within { vec_len out.new ≤ vec_capacity out.old }
{
    stripes_hold_keys::<R>();
    let Some(own) = hands else { unreachable!() };
    let gates = site.gates;
    let hashed = HashedCall {
        call,
        key: key_of(call),
    };
    let wanted = hashed.stripes(gates.stripes());
    let mut held = (&*gates).take(rt, &mut *pass, &wanted);
    let Entered {
        answer,
        ends,
        report,
    } = try_gets(site, &mut held, &hashed, &own.staged, out);
    give_back(held, ends, &report);
    answer
}

/// Runs a transaction of GETs over the parts that are held, as [`enter_gets`] does. Where it was not answered, nothing has changed.
fn try_gets<L: Latch, R: Shows>(
    site: &Site<L, R>,
    held: &mut Held<'_, Shard<R>>,
    call: &HashedCall,
    staged: &Staged<R>,
    out: &mut Vec<u8>,
) -> Entered<Option<Result<Spoken, Fault>>>
    requires begin { MayBegin R.is_steady call.now held.old }
    requires gets { IsOfGets call.now }
    requires right { R.is_steady → AreRight staged.now }
    ensures back { MayBeGiven R.is_steady result.ends result.report held.old held.new }
    ensures answered { (failures : ℕ) → IfSome result.answer (λ spoken. IsAnswered
        (promises_of R.is_steady R.lends (held_stripes held.old)) [] call.now (spoken_answer spoken)
        (know (known_to held.old) failures) (know (given result.ends result.report (known_to held.new)) failures)) }
    ensures heard { (view : View) → IfSome result.answer (λ spoken. HasHeardFor spoken_answer
        (record { answer = spoken; ends = result.ends; report = result.report }) view view) }
    ensures untold { IfNone result.answer (given result.ends result.report (known_to held.new) ≡ known_to held.old) }
    ensures said { IfSome result.answer (λ spoken. out.new.items ≡ out.old.items ++ spoken_text spoken) }
    ensures unsaid { IfNone result.answer (out.new.items ≡ out.old.items) }
    ensures within { vec_len out.new ≤ vec_capacity out.old }
{
    let entered = enter_gets(site, held, call, staged, out);
    spoke(entered)
}

/// What a transaction of GETs came to, told of one too that was not answered: it ends no watches, and tells nothing.
fn spoke(entered: Option<Entered<Result<Spoken, Fault>>>) -> Entered<Option<Result<Spoken, Fault>>>
    ensures { result ≡ as_spoke entered }
{
    match entered {
        Some(entered) => {
            let Entered {
                answer,
                ends,
                report,
            } = entered;
            Entered {
                answer: Some(answer),
                ends,
                report,
            }
        }
        None => Entered {
            answer: None,
            ends: false,
            report: Report::Nothing,
        },
    }
}

/// Runs a transaction of GETs over the parts that are held, if none of its session's watched keys was written, what it reads lies near and
/// the buffer has room for the reply: appends it, and commits the one entry. `None` otherwise: nothing has changed then.
fn enter_gets<L: Latch, R: Shows>(
    site: &Site<L, R>,
    held: &mut Held<'_, Shard<R>>,
    call: &HashedCall,
    staged: &Staged<R>,
    out: &mut Vec<u8>,
) -> Option<Entered<Result<Spoken, Fault>>>
    requires begin { MayBegin R.is_steady call.now held.old }
    requires gets { IsOfGets call.now }
    requires right { R.is_steady → AreRight staged.now }
    ensures entered { (failures : ℕ) → IfSome result (HasEntered (promises_of R.is_steady R.lends (held_stripes held.old)) call.now
        spoken_answer (held.old, failures) (held.new, failures)) }
    ensures heard { (view : View) → IfSome result (λ entered. HasHeardFor spoken_answer entered view view) }
    ensures back { IfNone result (MayBeGiven R.is_steady false Nothing held.old held.new) }
    ensures untold { IfNone result (known_to held.new ≡ known_to held.old) }
    ensures said { IfSome result (λ entered. out.new.items ≡ out.old.items ++ spoken_text entered.answer) }
    ensures unsaid { IfNone result (out.new.items ≡ out.old.items) }
    ensures within { vec_len out.new ≤ vec_capacity out.old }
{
    let Call::Exec(commands, watching) = call.call() else {
        unreachable!()
    };
    let before = out.len();
    let Some(said) = say_gets(held, commands.as_slice(), watching.keys(), staged, out) else {
        return None;
    };
    let entered = enter_said(site, held, call, watching, Spoken::Gets(said));
    match &entered.answer {
        Ok(_said) => Some(entered),
        Err(_fault) => {
            out.truncate(before);
            Some(entered)
        }
    }
}

/// Runs a transaction that writes nothing and has said this over the parts that are held: commits its one entry, and ends the watches of its
/// session.
fn enter_said<L: Latch, R: Shows>(
    site: &Site<L, R>,
    held: &mut Held<'_, Shard<R>>,
    call: &HashedCall,
    watching: &Watching,
    spoken: Spoken,
) -> Entered<Result<Spoken, Fault>>
    requires begin { MayBegin R.is_steady call.now held.old }
    requires entry { IsEntry call.now }
    requires due { R.is_steady → IsPlan (known_to held.old).seen (operation_asked held.old (asked_for call.now)) (spoken_reply spoken) [] }
    requires unwatched { keys_begun call.now ≡ [] }
    requires ended { keys_ended call.now ≡ watching.now }
    ensures entered { (failures : ℕ) → HasEntered (promises_of R.is_steady R.lends (held_stripes held.old)) call.now spoken_answer
        (held.old, failures) (held.new, failures) result }
    ensures heard { (view : View) → HasHeardFor spoken_answer result view view }
    ensures answer { IfOk result.answer (λ said. said ≡ spoken) }
{
    writes_install_a_call::<R>();
    site.latch.at(held.number(), Point::Holding);
    match held.commit(call, &Saying { spoken: &spoken }) {
        Ok(_) => {
            forget(held, watching);
            Entered {
                answer: Ok(spoken),
                ends: false,
                report: Report::Nothing,
            }
        }
        Err(_) => {
            drop(spoken);
            let Entered {
                answer: _answer,
                ends,
                report,
            } = refuse(held, call, Fault::CommitsWornOut, Report::Nothing);
            Entered {
                answer: Err(Fault::CommitsWornOut),
                ends,
                report,
            }
        }
    }
}

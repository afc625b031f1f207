//! Calls over the stripes that a pass holds: from what is held to what may be given back.

ghost use Rattle.std.specs.Prelude.{◌≡◌, [], ℕ, IfOk, OnErr};
ghost use Rattle.gates.specs.Passes.{IsResting, known};
ghost use Rattle.gates.specs.Plays.{kept};
ghost use Rattle.gates.specs.Background.{IsToldOf};
ghost use Rattle.gates.specs.Helds.{gates_of, held_parts, held_stripes, held_taken, known_to};
ghost use Rattle.transact.specs.Plans.{EndsAll, IsEntry, keys_begun};
ghost use Rattle.transact.specs.Submits.{IfFault, asked_for};
ghost use Rattle.engine.specs.Calls.{promises_of};
ghost use Rattle.engine.specs.Entering.{AreReady, HasEntered, IsPlacedOn, IsPlanned, MayBeGiven, MayBegin, MayEnter, WasCold};
ghost use Rattle.engine.specs.Entering.{at_fault, given, own_answer};
ghost use Rattle.engine.specs.Stops.{HasHeardFor, HasHeardIn, IsOfCall, fault_of, report_of};
ghost use Rattle.shards.specs.Shards.{shard_meaning};
ghost use Rattle.plans.specs.Stops.{IfCold};
ghost use Rattle.plans.specs.declared.reading.WhenCold.TheVariants.{Stops};

use crate::set::enter_set;
use crate::set_if::enter_set_if;
use crate::site::Site;
use device::{Device, Shows};
use gates::{Held, Latch, Point, Refused, Report};
use plans::freeing::{Halt, plan_freeing};
use plans::hands::Hands;
use plans::hashed::HashedCall;
use plans::laws::writes_install_a_call;
use plans::marks::forget;
use plans::placing::{Placed, place};
use plans::reading::WhenCold;
use plans::stop::{Receipts, Stop};
use shards::retires::Retires;
use shards::shard::Shard;
use transact::call::{Answer, Call};
use words::bounds::values_are_bounded;
use words::command::{Command, When};
use words::hash::Hashed;
use words::reply::{Fault, Line, Reply};

/// What a call came to whose stripes are still held.
pub(crate) struct Entered<A> {
    /// What it is answered.
    pub(crate) answer: A,
    /// Whether the watches of its pass end where the stripes are given back.
    pub(crate) ends: bool,
    /// What is told where the stripes are given back.
    pub(crate) report: Report,
}

/// Does what a call asks whose stripes are held. One that ends the watches makes no entry, takes no memory and cannot fail.
/// If pages are wanted that are not among the staged ones, they are read meanwhile, or it stops.
///
/// # Errors
///
/// Copies of the receipts of the pages that are wanted, where they may not be read: nothing has changed then. A call that
/// ends watches wants none, nor does a SET without an option.
pub(crate) fn enter_call<L: Latch, R: Shows, D: Device<Receipt = R>, S: Retires>(
    site: &Site<L, R>,
    held: &mut Held<'_, Shard<R>>,
    device: &mut D,
    hands: &mut Hands<R, S>,
    call: &HashedCall,
    cold: WhenCold,
) -> Result<Entered<Answer>, Receipts<R>>
    requires begin { MayBegin R.is_steady call.now held.old }
    requires hands { AreReady (S.is_of site.now.epochs.now) R.is_steady hands.old }
    ensures hands { AreReady (S.is_of site.now.epochs.now) R.is_steady hands.new }
    ensures heard { HasHeardIn own_answer result (S.knows hands.old.own) (S.knows hands.new.own) }
    ensures entered { IfOk result (HasEntered (promises_of R.is_steady R.lends (held_stripes held.old)) call.now own_answer
        (held.old, D.failures device.old) (held.new, D.failures device.new)) }
    ensures cold { OnErr result (WasCold R.is_steady R.lends call.now
        (held.old, D.failures device.old) (held.new, D.failures device.new)) }
    ensures outside { OnErr result (cold ≡ Stops) }
{
    match call.call() {
        Call::Forget(watching) => {
            forget(held, watching);
            Ok(Entered {
                answer: Answer::Reply(Reply::line(Line::Done)),
                ends: true,
                report: Report::Nothing,
            })
        }
        Call::One(Command::Set(key, value, When::Always)) => {
            let (line, report) = enter_set(
                site,
                held,
                device,
                &mut hands.own,
                &Hashed::new(key),
                value,
            );
            Ok(Entered {
                answer: Answer::of_line(line),
                ends: false,
                report,
            })
        }
        Call::One(Command::Set(_, _, _) | Command::SetGet(_, _, _)) => {
            enter_set_if(site, held, device, hands, call, cold)
        }
        _ => enter(site, held, device, hands, call, cold),
    }
}

/// Enters a call as [`enter_call`] does, and reads the pages that it wants while its stripes are held.
pub(crate) fn enter_at_once<L: Latch, R: Shows, D: Device<Receipt = R>, S: Retires>(
    site: &Site<L, R>,
    held: &mut Held<'_, Shard<R>>,
    device: &mut D,
    hands: &mut Hands<R, S>,
    call: &HashedCall,
) -> Entered<Answer>
    requires begin { MayBegin R.is_steady call.now held.old }
    requires hands { AreReady (S.is_of site.now.epochs.now) R.is_steady hands.old }
    ensures hands { AreReady (S.is_of site.now.epochs.now) R.is_steady hands.new }
    ensures heard { HasHeardFor own_answer result (S.knows hands.old.own) (S.knows hands.new.own) }
    ensures entered { HasEntered (promises_of R.is_steady R.lends (held_stripes held.old)) call.now own_answer
        (held.old, D.failures device.old) (held.new, D.failures device.new) result }
{
    match enter_call(site, held, device, hands, call, WhenCold::Reads) {
        Ok(entered) => entered,
        Err(_receipts) => unreachable!(),
    }
}

/// Gives all stripes back with this report, and the pass watches nothing more where its watches end.
pub(crate) fn give_back<R: Shows>(held: Held<'_, Shard<R>>, ends: bool, report: &Report)
    requires may { MayBeGiven R.is_steady ends report.now held held }
    ensures rests { IsResting R.is_steady (gates_of held.entry) held.exit.1.0.now }
    ensures known { known held.exit.1.0.now ≡ given ends report.now (known_to held.entry) }
{
    if ends {
        held.forget(report);
    } else {
        held.give(report);
    }
}

/// Runs a call over the parts that are held: commits its one entry, and makes what it writes. A transaction, a `DEL`, an `MSETNX`, a `RENAME`
/// or a `SETRANGE` whose writes go over what is there, or into tail pages that have room, makes no room; else the call is planned. With a
/// fault nothing was committed, and values are as they were.
///
/// # Errors
///
/// Copies of the receipts of the pages that are wanted, where they may not be read: nothing has changed then.
pub(crate) fn enter<L: Latch, R: Shows, D: Device<Receipt = R>, S: Retires>(
    site: &Site<L, R>,
    held: &mut Held<'_, Shard<R>>,
    device: &mut D,
    hands: &mut Hands<R, S>,
    call: &HashedCall,
    cold: WhenCold,
) -> Result<Entered<Answer>, Receipts<R>>
    requires begin { MayBegin R.is_steady call.now held.old }
    requires hands { AreReady (S.is_of site.now.epochs.now) R.is_steady hands.old }
    requires planned { IsPlanned call.now }
    ensures hands { AreReady (S.is_of site.now.epochs.now) R.is_steady hands.new }
    ensures heard { HasHeardIn own_answer result (S.knows hands.old.own) (S.knows hands.new.own) }
    ensures entered { IfOk result (HasEntered (promises_of R.is_steady R.lends (held_stripes held.old)) call.now own_answer
        (held.old, D.failures device.old) (held.new, D.failures device.new)) }
    ensures cold { OnErr result (WasCold R.is_steady R.lends call.now
        (held.old, D.failures device.old) (held.new, D.failures device.new)) }
    ensures outside { OnErr result (cold ≡ Stops) }
{
    values_are_bounded();
    match place(hands.alloc, held, call, &hands.staged) {
        Some(placed) => Ok(enter_placed(site, held, call, placed)),
        None => enter_anew(site, held, device, hands, call, cold),
    }
}

/// Runs a call whose writes wait for nothing, over the parts that are held: commits its one entry, and makes what it writes. It takes no
/// memory and wants no room.
fn enter_placed<L: Latch, R: Shows>(
    site: &Site<L, R>,
    held: &mut Held<'_, Shard<R>>,
    call: &HashedCall,
    placed: Placed,
) -> Entered<Answer>
    requires begin { MayBegin R.is_steady call.now held.old }
    requires planned { IsPlanned call.now }
    requires placed { IsPlacedOn R.is_steady call.now held.old placed }
    requires unwatched { keys_begun call.now ≡ [] }
    ensures entered { (failures : ℕ) → HasEntered (promises_of R.is_steady R.lends (held_stripes held.old)) call.now own_answer
        (held.old, failures) (held.new, failures) result }
    ensures worn { IfFault result.answer (λ fault. fault ≡ Fault.CommitsWornOut) }
    ensures quiet { result.report ≡ Report.Nothing }
{
    writes_install_a_call::<R>();
    site.latch.at(held.number(), Point::Holding);
    match held.commit(call, &placed.reply) {
        Ok(_) => {
            let answer = Answer::Reply(placed.install(held, call));
            Entered {
                answer,
                ends: false,
                report: Report::Nothing,
            }
        }
        Err(_) => {
            drop(placed);
            refuse(held, call, Fault::CommitsWornOut, Report::Nothing)
        }
    }
}

/// Runs a call over the parts that are held: plans it, commits its one entry, and installs what it writes. With a fault
/// nothing was committed, and values are as they were.
///
/// # Errors
///
/// As [`enter`].
fn enter_anew<L: Latch, R: Shows, D: Device<Receipt = R>, S: Retires>(
    site: &Site<L, R>,
    held: &mut Held<'_, Shard<R>>,
    device: &mut D,
    hands: &mut Hands<R, S>,
    call: &HashedCall,
    cold: WhenCold,
) -> Result<Entered<Answer>, Receipts<R>>
    requires begin { MayBegin R.is_steady call.now held.old }
    requires hands { AreReady (S.is_of site.now.epochs.now) R.is_steady hands.old }
    requires planned { IsPlanned call.now }
    ensures hands { AreReady (S.is_of site.now.epochs.now) R.is_steady hands.new }
    ensures heard { HasHeardIn own_answer result (S.knows hands.old.own) (S.knows hands.new.own) }
    ensures entered { IfOk result (HasEntered (promises_of R.is_steady R.lends (held_stripes held.old)) call.now own_answer
        (held.old, D.failures device.old) (held.new, D.failures device.new)) }
    ensures cold { OnErr result (WasCold R.is_steady R.lends call.now
        (held.old, D.failures device.old) (held.new, D.failures device.new)) }
    ensures outside { OnErr result (cold ≡ Stops) }
{
    values_are_bounded();
    writes_install_a_call::<R>();
    let seat = held.number();
    let planned = match plan_freeing(held, call, hands, cold, site.epochs, device) {
        Ok(planned) => planned,
        Err(Halt { stop, refused }) => match stop {
            Stop::Cold(receipts) => return Err(receipts),
            stop => {
                let Stopped { fault, report } = told_of(stop, refused);
                return Ok(refuse(held, call, fault, report));
            }
        },
    };
    site.latch.at(seat, Point::Holding);
    match held.commit(call, &planned.reply) {
        Ok(_) => {
            let reply = planned.install(held, call);
            Ok(Entered {
                answer: Answer::Reply(reply),
                ends: false,
                report: Report::Nothing,
            })
        }
        Err(_) => {
            planned.undo(held);
            Ok(refuse(held, call, Fault::CommitsWornOut, Report::Nothing))
        }
    }
}

/// How a call is answered that was not done, and what is told of it.
#[derive(Drop)]
pub(crate) struct Stopped {
    /// The fault.
    pub(crate) fault: Fault,
    /// What is told where the stripes are given back.
    pub(crate) report: Report,
}

/// How a call is answered whose plan was not made, and what is told of it, where the epochs have refused this.
pub(crate) fn told_of<R: Shows>(stop: Stop<R>, refused: Refused) -> Stopped
    requires never_cold { IfCold stop (λ receipts. ⊥) }
    ensures fault { result.fault ≡ fault_of stop }
    ensures report { result.report ≡ report_of stop refused }
    ensures never_cold { IfCold stop (λ receipts. ⊥) }
{
    match stop {
        Stop::OutOfMemory => Stopped {
            fault: Fault::OutOfMemory,
            report: Report::Nothing,
        },
        Stop::DeviceFault => Stopped {
            fault: Fault::DeviceFault,
            report: Report::Nothing,
        },
        Stop::StoreFull(stripe) => Stopped {
            fault: Fault::StoreFull,
            report: Report::Full(stripe as u64, refused),
        },
        Stop::Cold(_) => unreachable!(),
    }
}

/// Answers a call by a fault. The watches of a transaction end all the same.
pub(crate) fn refuse<R: Shows>(
    held: &mut Held<'_, Shard<R>>,
    call: &HashedCall,
    fault: Fault,
    report: Report,
) -> Entered<Answer>
    requires may { MayEnter R.is_steady call.now held.old }
    requires entry { IsEntry call.now }
    requires ends { EndsAll call.now (known_to held.old).watched }
    requires told { IsToldOf (shard_meaning R.is_steady) (held_taken held.old) (held_parts held.old) report }
    requires of_call { IsOfCall report }
    ensures back { MayBeGiven R.is_steady result.ends result.report held.old held.new }
    ensures answer { result.answer ≡ Answer.Fault fault }
    ensures report { result.report ≡ report }
    ensures known { kept result.ends [] (known_to held.new) ≡ at_fault (asked_for call.now) (known_to held.old) }
{
    if let Call::Exec(_, watching) = call.call() {
        forget(held, watching);
        return Entered {
            answer: Answer::Fault(fault),
            ends: true,
            report,
        };
    }
    Entered {
        answer: Answer::Fault(fault),
        ends: false,
        report,
    }
}

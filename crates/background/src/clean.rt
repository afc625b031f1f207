//! The cleaner's step: a place on the device comes nearer to its release.

ghost use Rattle.std.specs.Prelude.{◌≡◌, ◌<◌, IfOk, IfErr, OnOk};
ghost use Rattle.gates.specs.Passes.{IsResting, stripes_of};
ghost use Rattle.epoch.specs.Seats.{IsInside, IsOutside};
ghost use Rattle.hybrid.specs.Staging.{AreRight};
ghost use Rattle.background.specs.declared.clean.Round.TheVariants as round;
ghost use Rattle.background.specs.Visits.{CleanedBy, HasMissed, ReadFailed, TookRound, TriedClean, report_for, round_for};

use crate::at::{At, Turn};
use crate::cells::{clean_at, copy_at};
use device::{Device, Shows};
use epoch::{EpochSeat, Epochs, Inside};
use gates::{Pass, Refused, Report, Work};
use hybrid::Staged;
use shards::cleaning::Stepped;
use shards::shard::Shard;
use std::alloc::AllocError;
use std::sync::Wait;
use transact::call::Busy;
use words::reply::Fault;

/// How often a step gives its stripe back to read a page that it wants. After that it reads while it holds the stripe.
const ROUNDS: usize = 3;

/// What a round of the cleaner's step came to.
#[derive(Clone, Copy, Debug)]
enum Round {
    /// The step was done, or there was nothing to do.
    Ended(bool),
    /// A page was wanted, which was read outside.
    Again,
}

/// One step at a stripe, the first of these that can be done: the oldest drained place is released, the oldest retired one
/// is drained, the oldest unlinked one is retired, or the oldest page leaves the log, once its live records were copied to the
/// tail. False where nothing can be done. A page that is wanted is read while nobody waits for the stripe; after three such
/// reads the step reads while it holds the stripe. It waits where another pass holds the stripe, makes no entry, and no key
/// and no mark changes. The seat comes back. `staged` is where pages are read into: what it had is let go.
///
/// # Errors
///
/// [`Fault::OutOfMemory`] where there is no memory for a page that is read, so not where receipts lend their pages;
/// [`Fault::DeviceFault`] where a call of the device failed; [`Fault::StoreFull`] where what lives in the oldest page has no
/// room, and no place can be released.
pub fn clean_one<R: Shows, D: Device<Receipt = R>, W: Wait>(
    rt: &W,
    at: &At<R>,
    pass: &mut Pass<Shard<R>>,
    device: &mut D,
    seat: EpochSeat,
    staged: &mut Staged<R>,
) -> (Result<bool, Fault>, EpochSeat)
    requires own { IsResting R.is_steady at.now.gates.now pass.old }
    requires below { at.now.stripe < stripes_of at.now.gates.now }
    requires outside { IsOutside at.now.epochs.now seat }
    ensures own { IsResting R.is_steady at.now.gates.now pass.new }
    ensures outside { IsOutside at.now.epochs.now result.1 }
    ensures cleaned { CleanedBy D.failures R.lends at.now.stripe result.0 (pass.old, device.old, seat) (pass.new, device.new, result.1) }
{
    staged.clear();
    let mut seat = seat;
    let mut round = 0;
    'rounds: loop {
        let reads = round == ROUNDS;
        let (came, back) = clean_round(rt, &Turn { at: &*at, reads }, pass, device, seat, staged);
        seat = back;
        match came {
            Ok(Round::Ended(done)) => return (Ok(done), seat),
            Ok(Round::Again) => round += 1,
            Err(fault) => return (Err(fault), seat),
        }
    }
}

/// The same as [`clean_one`], with one try of the stripe in place of waiting. Pages that are wanted are read while the stripe
/// is held.
///
/// # Errors
///
/// [`Busy`] where the stripe's word was read as another pass's. Nothing was changed then, and neither the device nor the
/// epochs were asked; what the pass has seen may have grown. Else the faults of [`clean_one`].
pub fn try_clean_one<R: Shows, D: Device<Receipt = R>>(
    at: &At<R>,
    pass: &mut Pass<Shard<R>>,
    device: &mut D,
    seat: &mut EpochSeat,
    staged: &mut Staged<R>,
) -> Result<Result<bool, Fault>, Busy>
    requires own { IsResting R.is_steady at.now.gates.now pass.old }
    requires below { at.now.stripe < stripes_of at.now.gates.now }
    requires outside { IsOutside at.now.epochs.now seat.old }
    ensures own { IsResting R.is_steady at.now.gates.now pass.new }
    ensures outside { IsOutside at.now.epochs.now seat.new }
    ensures cleaned { TriedClean D.failures R.lends at.now.stripe result (pass.old, device.old, seat.old) (pass.new, device.new, seat.new) }
    ensures missed { IfErr result (λ busy. HasMissed at.now.stripe busy (pass.old, device.old, seat.old) (pass.new, device.new, seat.new)) }
{
    let stripe = at.stripe;
    if !at.gates.try_take_one(pass, stripe) {
        return Err(Busy { stripe });
    }
    let mut held = at.gates.hold_one(pass, stripe);
    staged.clear();
    let turn = Turn {
        at: &*at,
        reads: true,
    };
    let came = clean_at(&mut held, &turn, seat, staged, device);
    held.give(&report_of(stripe, &came));
    match round_of(came) {
        Ok(Round::Ended(done)) => Ok(Ok(done)),
        Ok(Round::Again) => unreachable!(),
        Err(fault) => Ok(Err(fault)),
    }
}

/// One round: a step in one hold of the stripe. A page that it wants is read meanwhile where the turn reads. Else the stripe is
/// given back, and the page is read while nobody waits for it, inside a stay: that begins before the receipt is copied, so that
/// its place is not released meanwhile.
fn clean_round<R: Shows, D: Device<Receipt = R>, W: Wait>(
    rt: &W,
    turn: &Turn<R>,
    pass: &mut Pass<Shard<R>>,
    device: &mut D,
    seat: EpochSeat,
    staged: &mut Staged<R>,
) -> (Result<Round, Fault>, EpochSeat)
    requires own { IsResting R.is_steady turn.now.at.now.gates.now pass.old }
    requires below { turn.now.at.now.stripe < stripes_of turn.now.at.now.gates.now }
    requires outside { IsOutside turn.now.at.now.epochs.now seat }
    requires right { R.is_steady → AreRight staged.old }
    ensures own { IsResting R.is_steady turn.now.at.now.gates.now pass.new }
    ensures outside { IsOutside turn.now.at.now.epochs.now result.1 }
    ensures right { R.is_steady → AreRight staged.new }
    ensures came { TookRound D.failures R.lends turn.now result.0 (pass.old, device.old, seat) (pass.new, device.new, result.1) }
{
    let at = turn.at;
    let mut seat = seat;
    let mut held = at.gates.take_one(rt, pass, at.stripe);
    let came = clean_at(&mut held, turn, &mut seat, staged, device);
    if let Ok(Stepped::Cold(number)) = came {
        let inside = at.epochs.enter(rt, seat);
        let copy = copy_at(&mut held, at.stripe, number);
        held.give(&Report::Nothing);
        let read = fetch(at.epochs, &inside, copy, staged, device);
        return (read, at.epochs.leave(inside));
    }
    held.give(&report_of(at.stripe, &came));
    (round_of(came), seat)
}

/// Reads the page of a receipt, and stages it, inside a stay.
fn fetch<R: Shows, D: Device<Receipt = R>>(
    epochs: &Epochs,
    inside: &Inside,
    copy: Result<R, AllocError>,
    staged: &mut Staged<R>,
    device: &mut D,
) -> Result<Round, Fault>
    requires stay { IsInside epochs.now inside.now }
    ensures right { R.is_steady → AreRight staged.old → AreRight staged.new }
    ensures again { IfOk result (λ came. came ≡ round.Again) }
    ensures fault { IfErr result (λ fault. ReadFailed fault (D.failures device.old) (D.failures device.new)) }
    ensures no_fault { OnOk result (D.failures device.new ≡ D.failures device.old) }
{
    // The stay is at hand: clauses alone name it.
    let (_epochs, _stay) = (epochs, inside);
    let Ok(receipt) = copy else {
        return Err(Fault::OutOfMemory);
    };
    staged.read(receipt, device)?;
    Ok(Round::Again)
}

/// What a round comes to whose step came to this.
fn round_of(came: Result<Stepped, Fault>) -> Result<Round, Fault>
    ensures { result ≡ round_for came }
{
    match came {
        Ok(Stepped::Done) => Ok(Round::Ended(true)),
        Ok(Stepped::Idle(_)) => Ok(Round::Ended(false)),
        Ok(Stepped::Full(_)) => Err(Fault::StoreFull),
        Ok(Stepped::Cold(_)) => Ok(Round::Again),
        Err(fault) => Err(fault),
    }
}

/// What is told of a step that came to this.
fn report_of(stripe: usize, came: &Result<Stepped, Fault>) -> Report
    ensures { result ≡ report_for stripe came.now }
{
    match came {
        Ok(Stepped::Done) => Report::Done(stripe as u64, Work::Clean(Refused::NONE)),
        Ok(Stepped::Idle(refused)) => Report::Idle(stripe as u64, Work::Clean(*refused)),
        Ok(Stepped::Full(refused)) => Report::Full(stripe as u64, *refused),
        Ok(Stepped::Cold(_)) => Report::Nothing,
        Err(Fault::StoreFull) => Report::Nothing,
        Err(Fault::DeviceFault) => Report::Nothing,
        Err(Fault::OutOfMemory) => Report::Nothing,
        Err(Fault::CommitsWornOut) => Report::Nothing,
    }
}

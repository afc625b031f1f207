//! The flusher's step: a read-only page is written to the device, and the log keeps its receipt.

ghost use Rattle.std.specs.Prelude.{◌≡◌, ◌<◌, [], ◌∷◌, IfOk, IfErr};
ghost use Rattle.epoch.specs.Seats.{IsOutside};
ghost use Rattle.epoch.specs.Seats as seats;
ghost use Rattle.gates.specs.Passes.{IsResting, known, stripes_of};
ghost use Rattle.shards.specs.Devices.{HasRested};
ghost use Rattle.background.specs.Steps.{EndedSo, HasHeardOutside};
ghost use Rattle.background.specs.Visits.{BegunBy, EndedBy, FlushedBy, HasMissed, HasWritten, TriedFlush, Visited, told_at_end};

use crate::at::At;
use crate::cells::{Began, Flight, Landing, begin_at, end_at, fail_at, flush_at};
use crate::written::Written;
use device::{Device, Shows};
use epoch::EpochSeat;
use gates::{Pass, Report, Work};
use records::Page;
use shards::flushing::Unflushed;
use shards::shard::Shard;
use std::sync::Wait;
use transact::call::Busy;
use words::reply::Fault;

/// Writes the oldest page of a stripe that waits for it to the device, while nobody waits for the stripe, and then keeps
/// its receipt. A page that has changed meanwhile, or has another receipt, keeps none: the place then counts as unlinked.
/// Where no place may be taken, each place of the stripe that can be released is released first. False where no page waits.
/// It waits where another pass holds the stripe. It takes no memory but what the device takes: the page is copied to `page`,
/// and what that held is lost. It makes no entry, and no key and no mark changes.
///
/// # Errors
///
/// [`Fault::DeviceFault`] where the write failed: the place is counted off again. [`Fault::StoreFull`] where no place may
/// be taken for the page, and none can be released.
pub fn flush_one<R: Shows, D: Device<Receipt = R>, W: Wait>(
    rt: &W,
    at: &At<R>,
    pass: &mut Pass<Shard<R>>,
    device: &mut D,
    seat: &mut EpochSeat,
    page: &mut Page,
) -> Result<bool, Fault>
    requires own { IsResting R.is_steady at.now.gates.now pass.old }
    requires below { at.now.stripe < stripes_of at.now.gates.now }
    requires outside { IsOutside at.now.epochs.now seat.old }
    ensures own { IsResting R.is_steady at.now.gates.now pass.new }
    ensures outside { IsOutside at.now.epochs.now seat.new }
    ensures flushed { FlushedBy D.failures at.now.stripe result (pass.old, device.old, seat.old) (pass.new, device.new, seat.new) }
    ensures writes { HasWritten result (D.writes device.old) (D.writes device.new) }
{
    let flight = match begin(rt, at, pass, device, seat, page) {
        Began::Idle => return Ok(false),
        Began::Full(_refused) => return Err(Fault::StoreFull),
        Began::Sealed(flight) => flight,
    };
    let Ok(receipt) = device.write(page) else {
        fail(rt, at, pass, flight);
        return Err(Fault::DeviceFault);
    };
    let written = Written {
        flight,
        page,
        receipt,
    };
    if end(rt, at, pass, device, seat, written) {
        Ok(true)
    } else {
        Err(Fault::StoreFull)
    }
}

/// The same as [`flush_one`], with one try of the stripe in place of waiting. The page is written while the stripe is
/// held, so it cannot change meanwhile.
///
/// # Errors
///
/// [`Busy`] where the stripe's word was read as another pass's. Nothing was changed then, and neither the device nor the
/// epochs were asked; what the pass has seen may have grown. Else the faults of [`flush_one`].
pub fn try_flush_one<R: Shows, D: Device<Receipt = R>>(
    at: &At<R>,
    pass: &mut Pass<Shard<R>>,
    device: &mut D,
    seat: &mut EpochSeat,
    page: &mut Page,
) -> Result<Result<bool, Fault>, Busy>
    requires own { IsResting R.is_steady at.now.gates.now pass.old }
    requires below { at.now.stripe < stripes_of at.now.gates.now }
    requires outside { IsOutside at.now.epochs.now seat.old }
    ensures own { IsResting R.is_steady at.now.gates.now pass.new }
    ensures outside { IsOutside at.now.epochs.now seat.new }
    ensures flushed { TriedFlush D.failures at.now.stripe result (pass.old, device.old, seat.old) (pass.new, device.new, seat.new) }
    ensures writes { IfOk result (λ done. HasWritten done (D.writes device.old) (D.writes device.new)) }
    ensures missed { IfErr result (λ busy. HasMissed at.now.stripe busy (pass.old, device.old, seat.old) (pass.new, device.new, seat.new)) }
{
    let stripe = at.stripe;
    if !at.gates.try_take_one(pass, stripe) {
        return Err(Busy { stripe });
    }
    let mut held = at.gates.hold_one(pass, stripe);
    match flush_at(&mut held, at, page, seat, device) {
        Ok(true) => {
            held.give(&Report::Done(stripe as u64, Work::Flush));
            Ok(Ok(true))
        }
        Ok(false) => {
            held.give(&Report::Idle(stripe as u64, Work::Flush));
            Ok(Ok(false))
        }
        Err(Unflushed::Full(refused)) => {
            held.give(&Report::Full(stripe as u64, refused));
            Ok(Err(Fault::StoreFull))
        }
        Err(Unflushed::DeviceFault) => {
            held.give(&Report::Nothing);
            Ok(Err(Fault::DeviceFault))
        }
    }
}

/// Copies the oldest page of a stripe that waits to be written, and counts a place for it. Where none may be taken, each place
/// that can be released is released first.
fn begin<R: Shows, D: Device<Receipt = R>, W: Wait>(
    rt: &W,
    at: &At<R>,
    pass: &mut Pass<Shard<R>>,
    device: &mut D,
    seat: &mut EpochSeat,
    page: &mut Page,
) -> Began
    requires own { IsResting R.is_steady at.now.gates.now pass.old }
    requires below { at.now.stripe < stripes_of at.now.gates.now }
    requires outside { IsOutside at.now.epochs.now seat.old }
    ensures own { IsResting R.is_steady at.now.gates.now pass.new }
    ensures seat { HasHeardOutside at.now.epochs.now seat.old seat.new }
    ensures begun { BegunBy at.now.stripe result (pass.old, seat.old) (pass.new, seat.new) }
    ensures rested { HasRested D.failures D.writes device.old device.new }
{
    let stripe = at.stripe;
    let mut held = at.gates.take_one(rt, pass, stripe);
    match begin_at(&mut held, at, page, seat, device) {
        Began::Idle => {
            held.give(&Report::Idle(stripe as u64, Work::Flush));
            Began::Idle
        }
        Began::Full(refused) => {
            held.give(&Report::Full(stripe as u64, refused));
            Began::Full(refused)
        }
        Began::Sealed(flight) => {
            held.give(&Report::Nothing);
            Began::Sealed(flight)
        }
    }
}

/// Keeps the receipt of a page that was written, or counts its place as unlinked, and says whether it could.
fn end<R: Shows, D: Device<Receipt = R>, W: Wait>(
    rt: &W,
    at: &At<R>,
    pass: &mut Pass<Shard<R>>,
    device: &mut D,
    seat: &mut EpochSeat,
    written: Written<R>,
) -> bool
    requires own { IsResting R.is_steady at.now.gates.now pass.old }
    requires below { at.now.stripe < stripes_of at.now.gates.now }
    requires outside { IsOutside at.now.epochs.now seat.old }
    requires shown { R.shown written.receipt ≡ written.page.now }
    ensures own { IsResting R.is_steady at.now.gates.now pass.new }
    ensures outside { IsOutside at.now.epochs.now seat.new }
    ensures ended { EndedBy at.now.stripe result (pass.old, seat.old) (pass.new, seat.new) }
    ensures rested { HasRested D.failures D.writes device.old device.new }
{
    let mut written = written;
    for _ in rt.forever() {
        match end_once(rt, at, pass, device, seat, written) {
            Landing::Landed => return true,
            Landing::Again(again) => written = again,
            Landing::Full(_refused) => return false,
        }
    }
    unreachable!()
}

/// Keeps the receipt of a page that was written, or counts its place as unlinked, in one hold. Where no place is counted for it
/// and none may be taken, each place that can be released is released, and the receipt comes back to land in another hold.
fn end_once<'a, R: Shows, D: Device<Receipt = R>, W: Wait>(
    rt: &W,
    at: &At<R>,
    pass: &mut Pass<Shard<R>>,
    device: &mut D,
    seat: &mut EpochSeat,
    written: Written<'a, R>,
) -> Landing<'a, R>
    requires own { IsResting R.is_steady at.now.gates.now pass.old }
    requires below { at.now.stripe < stripes_of at.now.gates.now }
    requires outside { IsOutside at.now.epochs.now seat.old }
    requires shown { R.shown written.receipt ≡ written.page.now }
    ensures own { IsResting R.is_steady at.now.gates.now pass.new }
    ensures seat { HasHeardOutside at.now.epochs.now seat.old seat.new }
    ensures told { Visited (at.now.stripe ∷ []) (told_at_end at.now.stripe result) (known pass.old) (known pass.new) }
    ensures ended { EndedSo result written.entry (seats.known seat.old) (seats.known seat.new) }
    ensures rested { HasRested D.failures D.writes device.old device.new }
{
    let stripe = at.stripe;
    let mut held = at.gates.take_one(rt, pass, stripe);
    match end_at(&mut held, at, written, seat, device) {
        Landing::Landed => {
            held.give(&Report::Done(stripe as u64, Work::Flush));
            Landing::Landed
        }
        Landing::Again(written) => {
            held.give(&Report::Nothing);
            Landing::Again(written)
        }
        Landing::Full(refused) => {
            held.give(&Report::Full(stripe as u64, refused));
            Landing::Full(refused)
        }
    }
}

/// Counts a place off whose page could not be written.
fn fail<R: Shows, W: Wait>(rt: &W, at: &At<R>, pass: &mut Pass<Shard<R>>, flight: Flight)
    requires own { IsResting R.is_steady at.now.gates.now pass.old }
    requires below { at.now.stripe < stripes_of at.now.gates.now }
    ensures own { IsResting R.is_steady at.now.gates.now pass.new }
    ensures told { Visited (at.now.stripe ∷ []) [] (known pass.old) (known pass.new) }
{
    let mut held = at.gates.take_one(rt, pass, at.stripe);
    fail_at(&mut held, at.stripe, flight);
    held.give(&Report::Nothing);
}

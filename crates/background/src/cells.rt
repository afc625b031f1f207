//! One stripe of the parts that are held.

ghost use Rattle.std.specs.Prelude.{⊤, ◌≡◌, IsSome, IfOk, OnOk, Some};
ghost use Rattle.epoch.specs.Seats.{IsOutside, known};
ghost use Rattle.hybrid.specs.HybridLog.{Kept, receipt_at};
ghost use Rattle.hybrid.specs.Staging.{AreRight};
ghost use Rattle.shards.specs.Devices.{HasRested};
ghost use Rattle.shards.specs.Flushing as flushed;
ghost use Rattle.shards.specs.Heard.{HasTriedOutside, ToldWorn};
ghost use Rattle.shards.specs.Receipts.{kept_by};
ghost use Rattle.shards.specs.Shards.{shard_log};
ghost use Rattle.background.specs.Steps.{BegunAt, CleanedAt, CleanedSo, EndedAt, EndedSo, EvictedAt, FailedAt, FailedSo, FlushedAt};
ghost use Rattle.background.specs.Steps.{IsStillHeld, Keeps, MatchBegan, SteppedAt};

use crate::at::{At, Turn};
use crate::written::Written;
use device::{Device, Shows};
use epoch::EpochSeat;
use gates::{Parts, Refused};
use hybrid::Staged;
use records::Page;
use shards::cleaning::Stepped;
use shards::flushing::{Beginning, Ending, Flown, Unflushed};
use shards::shard::Shard;
use std::alloc::AllocError;
use words::reply;

/// A page that is on its way to the device, with a place counted for it; contracts see the page's number. It is no value
/// that can be dropped, and nobody else can take it apart: it ends where the page's receipt lands ([`end_at`]), or where its
/// place is counted off since its write failed ([`fail_at`]).
pub(crate) struct Flight {
    number: u64,
}

/// What begins at the oldest page that waits to be written.
pub(crate) enum Began {
    /// None waits.
    Idle,
    /// One waits, no place may be taken for it, and none can be released, but for what the epochs refused.
    Full(Refused),
    /// It was copied, and a place is counted for it.
    Sealed(Flight),
}

/// How a flight ends that released what it could.
pub(crate) enum Landing<'a, R: Shows> {
    /// The receipt is kept, or its place is unlinked.
    Landed,
    /// Places were released first, and one is counted for the page now. Its receipt is to land in another hold.
    Again(Written<'a, R>),
    /// No place may be taken for the page, and none can be released, but for what the epochs refused.
    Full(Refused),
}

/// Drops the oldest resident page of a stripe, where it has a receipt.
pub(crate) fn evict_at<R: Shows, P: Parts<Shard<R>>>(parts: &mut P, stripe: usize) -> bool
    requires open { P.is_open parts.old }
    requires there { IsSome (P.part_of parts.old stripe) }
    ensures stepped { SteppedAt R.is_steady P.part_of stripe parts.old parts.new (EvictedAt result) }
    ensures still { IsStillHeld P.is_open P.keeps parts.old parts.new }
{
    parts.part(stripe).drop_oldest()
}

/// Copies the oldest page of a stripe that waits to be written, and counts a place for it. Where none may be taken, each place
/// that can be released is released first.
pub(crate) fn begin_at<R: Shows, D: Device<Receipt = R>, P: Parts<Shard<R>>>(
    parts: &mut P,
    at: &At<R>,
    page: &mut Page,
    seat: &mut EpochSeat,
    device: &mut D,
) -> Began
    requires open { P.is_open parts.old }
    requires there { IsSome (P.part_of parts.old at.now.stripe) }
    requires outside { IsOutside at.now.epochs.now seat.old }
    ensures stepped { SteppedAt R.is_steady P.part_of at.now.stripe parts.old parts.new (BegunAt result page.new) }
    ensures seat { HasTriedOutside at.now.epochs.now seat.old seat.new }
    ensures worn { MatchBegan result ⊤ (λ refused. ToldWorn refused (known seat.old) (known seat.new)) (λ flight. ⊤) }
    ensures rested { HasRested D.failures D.writes device.old device.new }
    ensures still { IsStillHeld P.is_open P.keeps parts.old parts.new }
{
    let part = parts.part(at.stripe);
    match part.begin_freeing(page, at.epochs, seat, device) {
        Beginning::Idle => Began::Idle,
        Beginning::Full(refused) => Began::Full(refused),
        Beginning::Sealed(number) => Began::Sealed(Flight { number }),
    }
}

/// Keeps the receipt of a page that was written, or counts its place as unlinked. Where no place is counted for it and none may
/// be taken, each place that can be released is released, and the receipt has to land in another hold.
pub(crate) fn end_at<'a, R: Shows, D: Device<Receipt = R>, P: Parts<Shard<R>>>(
    parts: &mut P,
    at: &At<R>,
    written: Written<'a, R>,
    seat: &mut EpochSeat,
    device: &mut D,
) -> Landing<'a, R>
    requires open { P.is_open parts.old }
    requires there { IsSome (P.part_of parts.old at.now.stripe) }
    requires shown { R.shown written.receipt ≡ written.page.now }
    requires outside { IsOutside at.now.epochs.now seat.old }
    ensures stepped { SteppedAt R.is_steady P.part_of at.now.stripe parts.old parts.new (EndedAt R.identity R.shown result written.entry) }
    ensures ended { EndedSo result written.entry (known seat.old) (known seat.new) }
    ensures seat { HasTriedOutside at.now.epochs.now seat.old seat.new }
    ensures rested { HasRested D.failures D.writes device.old device.new }
    ensures still { IsStillHeld P.is_open P.keeps parts.old parts.new }
{
    let Written {
        flight,
        page,
        receipt,
    } = written;
    let Flight { number } = flight;
    let flown = Flown {
        number,
        page,
        receipt,
    };
    match parts
        .part(at.stripe)
        .end_freeing(flown, at.epochs, seat, device)
    {
        Ending::Landed => Landing::Landed,
        Ending::Again(receipt) => Landing::Again(Written {
            flight: Flight { number },
            page,
            receipt,
        }),
        Ending::Full(refused) => Landing::Full(refused),
    }
}

/// Counts a place off whose page could not be written.
pub(crate) fn fail_at<R: Shows, P: Parts<Shard<R>>>(parts: &mut P, stripe: usize, flight: Flight)
    requires open { P.is_open parts.old }
    requires there { IsSome (P.part_of parts.old stripe) }
    ensures stepped { SteppedAt R.is_steady P.part_of stripe parts.old parts.new FailedAt }
    ensures still { IsStillHeld P.is_open P.keeps parts.old parts.new }
{
    let Flight { number: _ } = flight;
    parts.part(stripe).fail_flush();
}

/// Writes the oldest page of a stripe that waits for it to the device, and keeps its receipt, all while the stripe is
/// held. Where no place may be taken for it, each place that can be released is released first.
pub(crate) fn flush_at<R: Shows, D: Device<Receipt = R>, P: Parts<Shard<R>>>(
    parts: &mut P,
    at: &At<R>,
    page: &mut Page,
    seat: &mut EpochSeat,
    device: &mut D,
) -> Result<bool, Unflushed>
    requires open { P.is_open parts.old }
    requires there { IsSome (P.part_of parts.old at.now.stripe) }
    requires outside { IsOutside at.now.epochs.now seat.old }
    ensures stepped { SteppedAt R.is_steady P.part_of at.now.stripe parts.old parts.new (FlushedAt result) }
    ensures seat { HasTriedOutside at.now.epochs.now seat.old seat.new }
    ensures fault { FailedSo result (D.failures device.old) (D.failures device.new) (known seat.old) (known seat.new) }
    ensures no_fault { OnOk result (D.failures device.new ≡ D.failures device.old) }
    ensures writes { flushed.HasWritten result (D.writes device.old) (D.writes device.new) }
    ensures still { IsStillHeld P.is_open P.keeps parts.old parts.new }
{
    parts.part(at.stripe).flush(page, at.epochs, seat, device)
}

/// Does the first of the cleaner's steps that can be done.
pub(crate) fn clean_at<R: Shows, D: Device<Receipt = R>, P: Parts<Shard<R>>>(
    parts: &mut P,
    turn: &Turn<R>,
    seat: &mut EpochSeat,
    staged: &mut Staged<R>,
    device: &mut D,
) -> Result<Stepped, reply::Fault>
    requires open { P.is_open parts.old }
    requires there { IsSome (P.part_of parts.old turn.now.at.now.stripe) }
    requires outside { IsOutside turn.now.at.now.epochs.now seat.old }
    requires right { R.is_steady → AreRight staged.old }
    ensures stepped { SteppedAt R.is_steady P.part_of turn.now.at.now.stripe parts.old parts.new (CleanedAt R.is_steady result staged.new) }
    ensures seat { HasTriedOutside turn.now.at.now.epochs.now seat.old seat.new }
    ensures right { R.is_steady → AreRight staged.new }
    ensures came { CleanedSo R.lends D.failures turn.now.reads result (device.old, seat.old) (device.new, seat.new) }
    ensures still { IsStillHeld P.is_open P.keeps parts.old parts.new }
{
    let at = turn.at;
    parts
        .part(at.stripe)
        .clean_step(at.epochs, seat, staged, turn.reads, device)
}

/// A copy of the receipt that is kept of a page.
fn copy_of<R: Shows>(part: &Shard<R>, number: u64) -> Result<R, AllocError>
    requires kept { IsSome (receipt_at (shard_log part.now) number) }
    ensures copy { IfOk result (λ receipt. receipt_at (shard_log part.now) number ≡ Some (kept_by R.identity R.shown receipt)) }
{
    let Some(receipt) = part.receipt(number) else {
        unreachable!()
    };
    receipt.again()
}

/// A copy of the receipt that a stripe keeps of a page.
pub(crate) fn copy_at<R: Shows, P: Parts<Shard<R>>>(
    parts: &mut P,
    stripe: usize,
    number: u64,
) -> Result<R, AllocError>
    requires open { P.is_open parts.old }
    requires kept { (kept : Kept) × Keeps (P.part_of parts.old) stripe number kept }
    ensures copy { IfOk result (λ receipt. Keeps (P.part_of parts.old) stripe number (kept_by R.identity R.shown receipt)) }
    ensures same { P.part_of parts.new ≡ P.part_of parts.old }
    ensures still { IsStillHeld P.is_open P.keeps parts.old parts.new }
{
    copy_of(parts.part(stripe), number)
}

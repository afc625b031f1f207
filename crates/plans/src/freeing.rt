//! What a call releases itself, before it is answered that a stripe is full.

ghost use Rattle.std.specs.Prelude.{◌≡◌, ◌<◌, ◌≤◌, IsSome, IfErr, IfOk, OnErr, OnOk, [], ⊤};
ghost use Rattle.std.specs.Option.{option_copied};
ghost use Rattle.words.specs.declared.limits.TheConstants.{WEIGHT_MAX};
ghost use Rattle.words.specs.Answers.{writes_set};
ghost use Rattle.words.specs.Briefs.{pairs_of};
ghost use Rattle.words.specs.Commands.{keys_set};
ghost use Rattle.words.specs.Store.{weight};
ghost use Rattle.words.specs.Stripes as striping;
ghost use Rattle.hybrid.specs.Staging.{AreRight};
ghost use Rattle.transact.specs.Plans.{keys_begun};
ghost use Rattle.transact.specs.Tables.{stays};
ghost use Rattle.shards.specs.Freeing.{FreesAt, HasTriedAll};
ghost use Rattle.shards.specs.Rooms.{AreRoomy, LeaveFrames, share};
ghost use Rattle.shards.specs.Shards.{logs_of};
ghost use Rattle.plans.specs.Holding.{AreMarkedFor, Becomes, NeedsMemory};
ghost use Rattle.plans.specs.Planning.{AreDue, HaveFailedBy, IsReady, IsStillHeld, MatchStop, MayLookUp, MayPlan, MayPut};
ghost use Rattle.plans.specs.Planning.{AreMade, asks_call};
ghost use Rattle.plans.specs.Reserving.{IsRoomyFor, IsStuck, IsStuckFor, LacksRoomToPlan, LacksRoomToPut, LacksRoomToSet};
ghost use Rattle.plans.specs.Reserving.{LeavesFramesToPut, StillRetires, StillWorks};
ghost use Rattle.plans.specs.Stops.{IfFull};
ghost use Rattle.plans.specs.declared.reading.WhenCold.TheVariants.{Stops};

use crate::hands::Hands;
use crate::hashed::HashedCall;
use crate::planned::Planned;
use crate::reading::{WhenCold, plan_staged};
use crate::settings::reserve_settings;
use crate::short::reserve_put;
use crate::stop::Stop;
use device::{Device, Shows};
use epoch::Epochs;
use gates::{Parts, Refused};
use shards::freeing::Freed;
use shards::retires::Retires;
use shards::shard::Shard;
use words::hash::Hashed;
use words::word::Word;

/// Why a call was not planned that released what it could, and what the epochs refused of that.
#[derive(Drop)]
pub struct Halt<R: Shows> {
    /// Why.
    pub stop: Stop<R>,
    /// What the epochs refused, where a stripe is full.
    pub refused: Refused,
}

/// Plans a call over a steady device, as [`plan_staged`] does. Where it meets a full stripe, it releases each place of that
/// stripe that can be released, and where that was one at least, it plans again.
///
/// # Errors
///
/// A [`Halt`]: with [`Stop::StoreFull`] only where that stripe lacked room, and no place of it can be released.
pub fn plan_freeing<R: Shows, D: Device<Receipt = R>, P: Parts<Shard<R>>, S: Retires>(
    parts: &mut P,
    call: &HashedCall,
    hands: &mut Hands<R, S>,
    cold: WhenCold,
    epochs: &Epochs,
    device: &mut D,
) -> Result<Planned, Halt<R>>
    requires may { MayPlan (P.is_open parts.old) (P.stripes_of parts.old) (P.part_of parts.old) call.now }
    requires is { S.is_of epochs.now hands.old.own }
    ensures works { StillWorks R.is_steady (S.is_of epochs.now hands.new.own)
        (S.knows hands.old.own, hands.old.staged) (S.knows hands.new.own, hands.new.staged) }
    ensures ready { IfOk result (IsReady (AreDue (R.is_steady × AreRight hands.old.staged)
        (asks_call R.is_steady P.stripes_of P.holder_of P.part_of parts.old call.now)) (P.stripes_of parts.old) (P.part_of parts.new)) }
    ensures left { IfOk result (λ planned. LeaveFrames (P.stripes_of parts.old) planned.writes
        (logs_of (P.part_of parts.old)) (logs_of (P.part_of parts.new))) }
    ensures lacks { IfErr result (λ halt. LacksRoomToPlan cold (AreMade (R.is_steady × AreRight hands.old.staged)
        (asks_call R.is_steady P.stripes_of P.holder_of P.part_of parts.old call.now)) (P.stripes_of parts.old)
        (P.part_of parts.old) (P.part_of parts.new) halt.stop) }
    ensures marks { AreMarkedFor R.is_steady P.stripes_of P.holder_of P.part_of parts.old parts.new (keys_begun call.now) result }
    ensures halted { IfErr result (λ halt. MatchStop halt.stop (λ receipts. (cold ≡ Stops) × (R.lends → ⊥))
        (NeedsMemory R.is_steady P.stripes_of P.part_of parts.old (R.is_steady × AreRight hands.old.staged) R.lends call.now)
        ⊤ (λ stripe. ⊤)) }
    ensures full { IfErr result (λ halt. IfFull halt.stop (IsStuckFor (R.is_steady × AreRight hands.old.staged)
        (asks_call R.is_steady P.stripes_of P.holder_of P.part_of parts.old call.now) (P.stripes_of parts.old) halt.refused
        (P.part_of parts.old, S.knows hands.old.own) (P.part_of parts.new, S.knows hands.new.own))) }
    ensures failed { HaveFailedBy (λ halt. halt.stop) result (D.failures device.old) (D.failures device.new) }
    ensures held { IsStillHeld P.is_open P.keeps parts.old parts.new }
{
    'freed: loop {
        let staged = &mut hands.staged;
        match plan_staged(hands.alloc, parts, call, staged, cold, device) {
            Ok(planned) => return Ok(planned),
            Err(Stop::StoreFull(stripe)) => {
                let freed = free_at(parts, stripe, epochs, &mut hands.own, device);
                if !freed.released {
                    return Err(Halt {
                        stop: Stop::StoreFull(stripe),
                        refused: freed.refused,
                    });
                }
            }
            Err(stop) => {
                return Err(Halt {
                    stop,
                    refused: Refused::NONE,
                });
            }
        }
    }
}

/// Makes room for a key that is given a value, or deleted where there is none, as [`reserve_put`] does. Where its stripe is full, it
/// releases each place of it that can be released, and where that was one at least, it makes room again. It takes no memory.
///
/// # Errors
///
/// A [`Halt`], where the stripe lacked room: with [`Stop::StoreFull`] only where no place of it can be released.
pub fn reserve_freeing<R: Shows, D: Device<Receipt = R>, P: Parts<Shard<R>>, S: Retires>(
    parts: &mut P,
    key: &Hashed,
    value: Option<&Word>,
    epochs: &Epochs,
    own: &mut S,
    device: &mut D,
) -> Result<(), Halt<R>>
    requires may { MayPut (P.is_open parts.old) (P.stripes_of parts.old) (P.part_of parts.old) (key.now, option_copied value) }
    requires is { S.is_of epochs.now own.old }
    ensures retires { StillRetires (S.is_of epochs.now own.new) (S.knows own.old) (S.knows own.new) }
    ensures became { Becomes R.is_steady P.stripes_of P.part_of parts.old parts.new [] stays }
    ensures room { OnOk result (IsRoomyFor (P.stripes_of parts.old) (P.part_of parts.new) (key.now, option_copied value.entry)) }
    ensures left { OnOk result (LeavesFramesToPut (P.stripes_of parts.old) (key.now, option_copied value.entry)
        (P.part_of parts.old) (P.part_of parts.new)) }
    ensures lacks { OnErr result (LacksRoomToPut (P.stripes_of parts.old) (key.now, option_copied value.entry)
        (P.part_of parts.old) (P.part_of parts.new)) }
    ensures halted { IfErr result (λ halt. MatchStop halt.stop (λ receipts. ⊥) ⊥ ⊤
        (λ stripe. stripe ≡ striping.stripe_of (P.stripes_of parts.old) key.now)) }
    ensures full { IfErr result (λ halt. IfFull halt.stop (IsStuck halt.refused
        (P.part_of parts.old, S.knows own.old) (P.part_of parts.new, S.knows own.new))) }
    ensures failed { HaveFailedBy (λ halt. halt.stop) result (D.failures device.old) (D.failures device.new) }
    ensures held { IsStillHeld P.is_open P.keeps parts.old parts.new }
{
    'freed: loop {
        match reserve_put(parts, key, value, device) {
            Ok(()) => return Ok(()),
            Err(Stop::StoreFull(stripe)) => {
                let freed = free_at(parts, stripe, epochs, own, device);
                if !freed.released {
                    return Err(Halt {
                        stop: Stop::StoreFull(stripe),
                        refused: freed.refused,
                    });
                }
            }
            Err(stop) => {
                return Err(Halt {
                    stop,
                    refused: Refused::NONE,
                });
            }
        }
    }
}

/// Makes room for these keys, each with its value behind it, as [`reserve_settings`] does. Where a stripe is full, it releases each
/// place of it that can be released, and where that was one at least, it makes room again. It takes no memory.
///
/// # Errors
///
/// A [`Halt`], where a stripe lacked room: with [`Stop::StoreFull`] only where no place of that stripe, which one of the keys goes to,
/// can be released.
pub fn settings_freeing<R: Shows, D: Device<Receipt = R>, P: Parts<Shard<R>>, S: Retires>(
    parts: &mut P,
    words: &[Word],
    epochs: &Epochs,
    own: &mut S,
    device: &mut D,
) -> Result<(), Halt<R>>
    requires may { MayLookUp (P.is_open parts.old) (P.stripes_of parts.old) (P.part_of parts.old) (keys_set (pairs_of words.now)) }
    requires light { weight (writes_set (pairs_of words.now)) ≤ WEIGHT_MAX }
    requires is { S.is_of epochs.now own.old }
    ensures retires { StillRetires (S.is_of epochs.now own.new) (S.knows own.old) (S.knows own.new) }
    ensures became { Becomes R.is_steady P.stripes_of P.part_of parts.old parts.new [] stays }
    ensures room { OnOk result (AreRoomy (P.stripes_of parts.old) (logs_of (P.part_of parts.new)) (writes_set (pairs_of words.now))) }
    ensures left { OnOk result (LeaveFrames (P.stripes_of parts.old) (writes_set (pairs_of words.now))
        (logs_of (P.part_of parts.old)) (logs_of (P.part_of parts.new))) }
    ensures lacks { IfErr result (λ halt. LacksRoomToSet (P.stripes_of parts.old) (writes_set (pairs_of words.now))
        (P.part_of parts.old) (P.part_of parts.new) halt.stop) }
    ensures halted { IfErr result (λ halt. MatchStop halt.stop (λ receipts. ⊥) ⊥ ⊤
        (λ stripe. 0 < share (P.stripes_of parts.old) stripe (writes_set (pairs_of words.now)))) }
    ensures full { IfErr result (λ halt. IfFull halt.stop (IsStuck halt.refused
        (P.part_of parts.old, S.knows own.old) (P.part_of parts.new, S.knows own.new))) }
    ensures failed { HaveFailedBy (λ halt. halt.stop) result (D.failures device.old) (D.failures device.new) }
    ensures held { IsStillHeld P.is_open P.keeps parts.old parts.new }
{
    'freed: loop {
        match reserve_settings(parts, words, device) {
            Ok(()) => return Ok(()),
            Err(Stop::StoreFull(stripe)) => {
                let freed = free_at(parts, stripe, epochs, own, device);
                if !freed.released {
                    return Err(Halt {
                        stop: Stop::StoreFull(stripe),
                        refused: freed.refused,
                    });
                }
            }
            Err(stop) => {
                return Err(Halt {
                    stop,
                    refused: Refused::NONE,
                });
            }
        }
    }
}

/// Releases each place of a stripe that can be released. What keys have and all marks stay, and other parts stay as they are.
fn free_at<R: Shows, D: Device<Receipt = R>, P: Parts<Shard<R>>, S: Retires>(
    parts: &mut P,
    stripe: usize,
    epochs: &Epochs,
    own: &mut S,
    device: &mut D,
) -> Freed
    requires open { P.is_open parts.old }
    requires there { IsSome (P.part_of parts.old stripe) }
    requires is { S.is_of epochs.now own.old }
    ensures is { S.is_of epochs.now own.new }
    ensures became { Becomes R.is_steady P.stripes_of P.part_of parts.old parts.new [] stays }
    ensures freed { FreesAt stripe result (P.part_of parts.old) (P.part_of parts.new) }
    ensures told { HasTriedAll result.refused.retire (S.knows own.old) (S.knows own.new) }
    ensures no_fault { D.failures device.new ≡ D.failures device.old }
    ensures held { IsStillHeld P.is_open P.keeps parts.old parts.new }
{
    parts.part(stripe).free_places(epochs, own, device)
}

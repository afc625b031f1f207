//! The short ways of a GET, of a SET without an option, and of other commands of one key. The GET makes one copy of the value. To
//! write a key nothing is looked up and nothing is copied but into the page, so that it never wants memory.

ghost use Rattle.std.specs.Prelude.{◌≡◌, ◌≤◌, [], ◌∷◌, Some, IfErr, IfOk, IsSome, OnOk};
ghost use Rattle.words.specs.Stripes as striping;
ghost use Rattle.std.specs.Option.{option_copied};
ghost use Rattle.records.specs.Records.{value_bytes};
ghost use Rattle.words.specs.declared.limits.TheConstants.{WEIGHT_MAX};
ghost use Rattle.hybrid.specs.Log.{Fits};
ghost use Rattle.hybrid.specs.Staging.{AreRight};
ghost use Rattle.transact.specs.Tables.{touches};
ghost use Rattle.shards.specs.Devices.{StillServes};
ghost use Rattle.shards.specs.Receipts.{kept_by};
ghost use Rattle.shards.specs.Rooms.{purpose_of};
ghost use Rattle.shards.specs.Shards.{SameWaits, logs_of, weigh};
ghost use Rattle.words.specs.Store.{Bytes};
ghost use Rattle.hybrid.specs.declared.stripe.find.Spot.{Spot};
ghost use Rattle.plans.specs.Settling.{IsSpot, IsSpotIn};
ghost use Rattle.plans.specs.Planning.{HasMissedIn, HaveFailed, IsStillHeld, IsValueIn, MayLookUp, MayPut};
ghost use Rattle.plans.specs.Reserving.{GrowsBy, HasNoRoomToPut, HasRoomToPut, HasShedAt, IsRoomyFor, ReservesToPut};
ghost use Rattle.plans.specs.Holding.{BecomesWritten};

use crate::cells::{append, copy_of, delete, overwrite_at, reserve_at, set, stripe_at};
use crate::stop::Stop;
use device::{Device, Shows};
use gates::Parts;
use hybrid::{Fault, Purpose, Spot, Staged};
use shards::shard::Shard;
use std::alloc::Global;
use words::hash::Hashed;
use words::limits::WEIGHT_OF_KEY;
use words::word::Word;

/// A copy of what a key has: what a GET is due to be answered. It takes memory only for a value that is not held
/// inline, and for the receipt of a page that is wanted.
///
/// # Errors
///
/// [`Stop::OutOfMemory`] where there is no memory for one of these; [`Stop::Cold`] where a page is wanted that is
/// neither resident, nor lent by its receipt, nor staged.
pub fn value_of<R: Shows, P: Parts<Shard<R>>>(
    alloc: Global,
    parts: &mut P,
    key: &Hashed,
    staged: &Staged<R>,
) -> Result<Option<Word>, Stop<R>>
    requires may { MayLookUp (P.is_open parts.old) (P.stripes_of parts.old) (P.part_of parts.old) (key.now ∷ []) }
    ensures value { IfOk result (IsValueIn R.is_steady P.stripes_of P.part_of parts.old (R.is_honest × AreRight staged.now) key.now) }
    ensures stopped { IfErr result (HasMissedIn R.is_steady P.stripes_of P.part_of parts.old
        R.lends (R.is_honest × AreRight staged.now) key.now staged.now) }
    ensures same { P.part_of parts.new ≡ P.part_of parts.old }
    ensures held { IsStillHeld P.is_open P.keeps parts.old parts.new }
{
    let stripe = stripe_at(&*parts, key);
    copy_of(alloc, parts.part(stripe), key, staged)
}

/// Makes room for a key that is given a value, or deleted where there is none. What keys have and all marks stay. It takes no memory.
///
/// # Errors
///
/// [`Stop::DeviceFault`] where a write of the device failed; [`Stop::StoreFull`] where the key's stripe has no place
/// left on it.
pub fn reserve_put<R: Shows, D: Device<Receipt = R>, P: Parts<Shard<R>>>(
    parts: &mut P,
    key: &Hashed,
    value: Option<&Word>,
    device: &mut D,
) -> Result<(), Stop<R>>
    requires may { MayPut (P.is_open parts.old) (P.stripes_of parts.old) (P.part_of parts.old) (key.now, option_copied value) }
    ensures reserved { ReservesToPut R.is_steady P.stripes_of P.part_of (StillServes D.serves D.releases)
        (key.now, option_copied value.entry) (parts.old, device.old) (parts.new, device.new) }
    ensures room { OnOk result (HasRoomToPut (P.stripes_of parts.old) (key.now, option_copied value.entry)
        (P.part_of parts.old) (P.part_of parts.new)) }
    ensures shed { D.failures device.new ≡ D.failures device.old
        → HasShedAt D.wrote (kept_by R.identity R.shown) (striping.stripe_of (P.stripes_of parts.old) key.now)
        (P.part_of parts.old, device.old) (P.part_of parts.new, device.new) }
    ensures stopped { IfErr result (HasNoRoomToPut (P.stripes_of parts.old) (key.now, option_copied value.entry)
        (P.part_of parts.old) (P.part_of parts.new)) }
    ensures failed { HaveFailed result (D.failures device.old) (D.failures device.new) }
    ensures held { IsStillHeld P.is_open P.keeps parts.old parts.new }
{
    let stripe = stripe_at(&*parts, key);
    let (weight, purpose) = weight_of(key, value);
    match reserve_at(parts, stripe, weight, purpose, device) {
        Ok(()) => Ok(()),
        Err(Fault::DeviceFault) => Err(Stop::DeviceFault),
        Err(Fault::StoreFull) => Err(Stop::StoreFull(stripe)),
    }
}

/// What the write of a value to a key weighs, or the deletion of the key, and for what it wants room.
fn weight_of(key: &Hashed, value: Option<&Word>) -> (usize, Purpose)
    requires light { weigh (key.now, option_copied value) ≤ WEIGHT_MAX }
    ensures weight { result.0 ≡ weigh (key.now, option_copied value.entry) }
    ensures purpose { result.1 ≡ purpose_of ((key.now, option_copied value.entry) ∷ []) }
{
    match value {
        Some(value) => (
            WEIGHT_OF_KEY + key.key().len() + value.len(),
            Purpose::Write,
        ),
        None => (WEIGHT_OF_KEY + key.key().len(), Purpose::Delete),
    }
}

/// Gives a key, for which there is room, a value, or deletes it where there is none, and touches its marks. It takes no memory.
pub fn install_put<R: Shows, P: Parts<Shard<R>>>(parts: &mut P, key: &Hashed, value: Option<&Word>)
    requires open { P.is_open parts.old }
    requires room { IsRoomyFor (P.stripes_of parts.old) (P.part_of parts.old) (key.now, option_copied value) }
    requires fits { Fits key.now (option_copied value) }
    ensures became { BecomesWritten R.is_steady P.stripes_of P.part_of parts.old parts.new ((key.now, option_copied value.entry) ∷ []) }
    ensures grown { GrowsBy (P.stripes_of parts.old) (key.now, option_copied value.entry) (P.part_of parts.old) (P.part_of parts.new) }
    ensures waits { SameWaits (P.part_of parts.old) (P.part_of parts.new) }
    ensures held { IsStillHeld P.is_open P.keeps parts.old parts.new }
{
    match value {
        Some(value) => set(parts, key, value),
        None => delete(parts, key),
    }
}

/// Does to a key that was looked up, and has no record that may be written in place, what [`install_put`] does: it looks for no such record.
pub fn install_looked_up<R: Shows, P: Parts<Shard<R>>>(
    parts: &mut P,
    key: &Hashed,
    value: Option<&Word>,
)
    requires open { P.is_open parts.old }
    requires room { IsRoomyFor (P.stripes_of parts.old) (P.part_of parts.old) (key.now, option_copied value) }
    requires fits { Fits key.now (option_copied value) }
    ensures became { BecomesWritten R.is_steady P.stripes_of P.part_of parts.old parts.new ((key.now, option_copied value.entry) ∷ []) }
    ensures grown { GrowsBy (P.stripes_of parts.old) (key.now, option_copied value.entry) (P.part_of parts.old) (P.part_of parts.new) }
    ensures waits { SameWaits (P.part_of parts.old) (P.part_of parts.new) }
    ensures held { IsStillHeld P.is_open P.keeps parts.old parts.new }
{
    let stripe = stripe_at(&*parts, key);
    append(parts, stripe, key.hash(), key.key(), value);
}

/// Gives a key a value in place, or deletes it where there is none, where its newest record stands and has room for that, and touches its
/// marks. It takes no memory and wants no room. What may be written in place still may.
pub fn install_at<R: Shows, P: Parts<Shard<R>>>(
    parts: &mut P,
    key: &Hashed,
    spot: Spot,
    value: Option<&Word>,
)
    requires open { P.is_open parts.old }
    requires there { IsSome (P.part_of parts.old (striping.stripe_of (P.stripes_of parts.old) key.now)) }
    requires spot { IsSpotIn P.stripes_of P.part_of parts.old key.now (value_bytes (option_copied value)) spot }
    requires fits { Fits key.now (option_copied value) }
    ensures became { BecomesWritten R.is_steady P.stripes_of P.part_of parts.old parts.new ((key.now, option_copied value.entry) ∷ []) }
    ensures grown { GrowsBy (P.stripes_of parts.old) (key.now, option_copied value.entry) (P.part_of parts.old) (P.part_of parts.new) }
    ensures spots { (other text : Bytes) (at : Spot) → IsSpotIn P.stripes_of P.part_of parts.old other text at
        → IsSpot (P.stripes_of parts.old) (logs_of (P.part_of parts.new)) other text at }
    ensures waits { SameWaits (P.part_of parts.old) (P.part_of parts.new) }
    ensures held { IsStillHeld P.is_open P.keeps parts.old parts.new }
{
    let stripe = stripe_at(&*parts, key);
    overwrite_at(parts, stripe, key.key(), spot, value);
}

//! One key, or one stripe, of the parts that are held.

ghost use Rattle.std.specs.Prelude.{◌≡◌, ◌+◌, ◌-◌, ◌<◌, ◌≤◌, [], ◌∷◌, IsOk, IsSome, IfErr, IfOk, OnOk};
ghost use Rattle.std.specs.Prelude.{OnErr, IsTrue, length, unwrap_or, false, is_none, None, Some};
ghost use Rattle.std.specs.Bool.{OnTrue};
ghost use Rattle.std.specs.Option.{option_copied};
ghost use Rattle.records.specs.Records.{value_bytes};
ghost use Rattle.records.specs.declared.pages.TheConstants.{HEADER_SIZE, PAGE_SIZE};
ghost use Rattle.words.specs.declared.limits.TheConstants.{WEIGHT_MAX};
ghost use Rattle.words.specs.Answers as answering;
ghost use Rattle.words.specs.Stripes as striping;
ghost use Rattle.hybrid.specs.Staging.{AreRight, IsMissing};
ghost use Rattle.hybrid.specs.HybridLog.{IsHybridLog, expected, tail_bytes};
ghost use Rattle.hybrid.specs.Reserving.{spare};
ghost use Rattle.hybrid.specs.declared.stripe.room.Purpose.TheVariants as purpose;
ghost use Rattle.hybrid.specs.Log.{Fits};
ghost use Rattle.transact.specs.Tables.{stays};
ghost use Rattle.shards.specs.Devices.{StillServes};
ghost use Rattle.shards.specs.Receipts.{kept_by};
ghost use Rattle.shards.specs.Shards.{SameLogs, SameWaits, logs_of, shard_log, shard_store, weigh};
ghost use Rattle.plans.specs.Settling.{IsSpot, IsSpotIn};
ghost use Rattle.hybrid.specs.declared.stripe.find.Spot.{Spot};
ghost use Rattle.words.specs.Store.{Bytes};
ghost use Rattle.plans.specs.Finding.{FindsInPlaceAt, FindsInPlaceIn, JoinsWanted, LooksUpAt, LooksUpIn, WantsPage};
ghost use Rattle.plans.specs.Placing.{HasSpare, HasTail};
ghost use Rattle.plans.specs.Planning.{IsStillHeld, MayLookUp, MissedAt};
ghost use Rattle.plans.specs.Reserving.{FailsToReserveAt, GrowsBy, HasRoomAt, HasShedAt, IsRoomyFor, LeavesRoom, ReservesAt};
ghost use Rattle.plans.specs.Holding.{Becomes, BecomesWritten, BeginsWatches, EndsWatches, marks_of};

use crate::stop::{Receipts, Stop, Wanted};
use device::{Device, Shows};
use gates::Parts;
use hybrid::{Fault, Lookup, Purpose, Spot, Staged};
use shards::shard::Shard;
use std::alloc::Global;
use strings::writes::{Write, Writes};
use words::hash::{Hashed, stripe_of};
use words::word::{OutOfMemory, Word};

/// The stripe of a key that is held, for what goes by no hash. Where one stripe alone is held, the key is not hashed.
#[inline]
pub(crate) fn stripe_in<R: Shows, P: Parts<Shard<R>>>(parts: &P, key: &Word) -> usize
    requires open { P.is_open parts.now }
    requires there { IsSome (P.part_of parts.now (striping.stripe_of (P.stripes_of parts.now) key.now)) }
    ensures { result ≡ striping.stripe_of (P.stripes_of parts.now) key.now }
{
    match parts.only() {
        Some(stripe) => stripe,
        None => stripe_of(key.as_slice(), parts.stripes()),
    }
}

/// The stripe of a key, which goes by its hash, that is held.
#[inline]
pub(crate) fn stripe_at<R: Shows, P: Parts<Shard<R>>>(parts: &P, key: &Hashed) -> usize
    requires open { P.is_open parts.now }
    requires there { IsSome (P.part_of parts.now (striping.stripe_of (P.stripes_of parts.now) key.now)) }
    ensures { result ≡ striping.stripe_of (P.stripes_of parts.now) key.now }
{
    key.stripe_of(parts.stripes())
}

/// A copy of the receipt of a page that is neither resident nor staged joins the cold ones.
fn wanted<R: Shows>(
    part: &Shard<R>,
    number: u64,
    offset: usize,
    staged: &Staged<R>,
    cold: &mut Receipts<R>,
) -> Result<(), OutOfMemory>
    requires missing { IsMissing (shard_log part.now) staged.now number }
    requires left { number < (shard_log part.now).resident.oldest }
    ensures ok { OnOk result (JoinsWanted (shard_log part.now) staged.now number cold.old cold.new) }
    ensures err { OnErr result (cold.new ≡ cold.old) }
{
    let Some(receipt) = part.receipt(number) else {
        unreachable!()
    };
    let receipt = receipt.again()?;
    cold.push(Wanted { receipt, offset })
}

/// Why a lookup came to nothing that is cold at this page: the page is wanted, or there was no memory for a copy of its receipt.
pub(crate) fn missed<R: Shows>(
    alloc: Global,
    part: &Shard<R>,
    number: u64,
    offset: usize,
    staged: &Staged<R>,
) -> Stop<R>
    requires missing { IsMissing (shard_log part.now) staged.now number }
    requires left { number < (shard_log part.now).resident.oldest }
    ensures { WantsPage (shard_log part.now) staged.now number result }
{
    let mut cold = Receipts::new(alloc);
    match wanted(part, number, offset, staged, &mut cold) {
        Ok(()) => Stop::Cold(cold),
        Err(_) => Stop::OutOfMemory,
    }
}

/// Looks a key up in the part of its stripe. What it has is found, or the receipt of a page that is wanted for it
/// joins the cold ones.
fn look_up<R: Shows>(
    alloc: Global,
    part: &Shard<R>,
    key: &Hashed,
    staged: &Staged<R>,
    found: &mut Writes,
    cold: &mut Receipts<R>,
) -> Result<(), OutOfMemory>
    ensures found { OnOk result (LooksUpAt (R.is_honest × AreRight staged.now) part.now key.now staged.now
        (cold.old, found.old) (cold.new, found.new)) }
    ensures lent { R.lends → cold.new ≡ cold.old }
    ensures memory { FindsInPlaceAt R.lends (R.is_honest × AreRight staged.now) part.now key.now staged.now (length found.old)
        → IsOk result }
{
    match part.find(key, staged) {
        Lookup::Found(value) => {
            let value = Word::from_slice(alloc, value)?;
            found.push(Write::new(key.key().clone()?, Some(value)))
        }
        Lookup::Absent => found.push(Write::new(key.key().clone()?, None)),
        Lookup::Cold(number, offset) => wanted(part, number, offset, staged, cold),
    }
}

/// Looks a key up.
pub(crate) fn find_key<R: Shows, P: Parts<Shard<R>>>(
    alloc: Global,
    parts: &mut P,
    key: &Word,
    staged: &Staged<R>,
    found: &mut Writes,
    cold: &mut Receipts<R>,
) -> Result<(), OutOfMemory>
    requires may { MayLookUp (P.is_open parts.old) (P.stripes_of parts.old) (P.part_of parts.old) (key.now ∷ []) }
    ensures found { OnOk result (LooksUpIn R.is_steady P.stripes_of P.part_of parts.old (R.is_honest × AreRight staged.now)
        (key.now ∷ []) staged.now (cold.old, found.old) (cold.new, found.new)) }
    ensures lent { R.lends → cold.new ≡ cold.old }
    ensures memory { FindsInPlaceIn R.is_steady P.stripes_of P.part_of parts.old R.lends (R.is_honest × AreRight staged.now)
        key.now staged.now (length found.old) → IsOk result }
    ensures same { P.part_of parts.new ≡ P.part_of parts.old }
    ensures held { IsStillHeld P.is_open P.keeps parts.old parts.new }
{
    let key = Hashed::new(key);
    let stripe = stripe_at(&*parts, &key);
    look_up(alloc, parts.part(stripe), &key, staged, found, cold)
}

/// A copy of what a key has, or the receipt of a page that is wanted for it.
pub(crate) fn copy_of<R: Shows>(
    alloc: Global,
    part: &Shard<R>,
    key: &Hashed,
    staged: &Staged<R>,
) -> Result<Option<Word>, Stop<R>>
    ensures value { IfOk result (λ value. R.is_honest × AreRight staged.now → value ≡ shard_store part.now key.now) }
    ensures stopped { IfErr result (MissedAt R.lends (R.is_honest × AreRight staged.now) part.now key.now staged.now) }
{
    match part.find(key, staged) {
        Lookup::Found(value) => match Word::from_slice(alloc, value) {
            Ok(value) => Ok(Some(value)),
            Err(_) => Err(Stop::OutOfMemory),
        },
        Lookup::Absent => Ok(None),
        Lookup::Cold(number, offset) => { Err(missed(alloc, part, number, offset, staged)) }
    }
}

/// Whether the mark that a session has of a key says that the key was written.
pub(crate) fn is_marked<R: Shows, P: Parts<Shard<R>>>(parts: &mut P, key: &Word) -> bool
    requires open { P.is_open parts.old }
    requires there { IsSome (P.part_of parts.old (striping.stripe_of (P.stripes_of parts.old) key.now)) }
    ensures mark { result ≡ unwrap_or (marks_of R.is_steady P.stripes_of P.part_of parts.old key.now (P.holder_of parts.old)) false }
    ensures same { P.part_of parts.new ≡ P.part_of parts.old }
    ensures held { IsStillHeld P.is_open P.keeps parts.old parts.new }
{
    let stripe = stripe_in(&*parts, key);
    let holder = parts.holder();
    parts.part(stripe).mark(key, holder).unwrap_or(false)
}

/// Makes room in a stripe for writes. What keys have and all marks stay, and so do the logs of other stripes.
pub(crate) fn reserve_at<R: Shows, D: Device<Receipt = R>, P: Parts<Shard<R>>>(
    parts: &mut P,
    stripe: usize,
    weight: usize,
    purpose: Purpose,
    device: &mut D,
) -> Result<(), Fault>
    requires open { P.is_open parts.old }
    requires there { IsSome (P.part_of parts.old stripe) }
    requires light { weight ≤ WEIGHT_MAX }
    ensures reserved { ReservesAt R.is_steady P.stripes_of P.part_of (StillServes D.serves D.releases) stripe weight purpose
        (parts.old, device.old) (parts.new, device.new) }
    ensures room { OnOk result (HasRoomAt stripe weight purpose (P.part_of parts.old) (P.part_of parts.new)) }
    ensures shed { D.failures device.new ≡ D.failures device.old → HasShedAt D.wrote (kept_by R.identity R.shown) stripe
        (P.part_of parts.old, device.old) (P.part_of parts.new, device.new) }
    ensures failed { FailsToReserveAt result stripe weight purpose (P.part_of parts.old) (P.part_of parts.new)
        (D.failures device.old) (D.failures device.new) }
    ensures held { IsStillHeld P.is_open P.keeps parts.old parts.new }
{
    let part = parts.part(stripe);
    is_laid_out(&*part);
    part.reserve(weight, purpose, device)
}

/// The log of a part is laid out as a hybrid log is. It does nothing.
#[inline]
fn is_laid_out<R: Shows>(part: &Shard<R>)
    ensures { IsHybridLog (shard_log part.now) }
{
    let _oldest = part.counted().stripe().oldest();
}

/// Writes a key for which there is room. Where its hash is known, it is not hashed.
pub(crate) fn write<R: Shows, P: Parts<Shard<R>>>(
    parts: &mut P,
    write: &Write,
    known: Option<&Hashed>,
)
    requires open { P.is_open parts.old }
    requires room { IsRoomyFor (P.stripes_of parts.old) (P.part_of parts.old) write.now }
    requires fits { Fits write.now.0 write.now.1 }
    ensures became { BecomesWritten R.is_steady P.stripes_of P.part_of parts.old parts.new (write.now ∷ []) }
    ensures room { LeavesRoom (P.stripes_of parts.old) write.now (P.part_of parts.old) (P.part_of parts.new) }
    ensures grown { GrowsBy (P.stripes_of parts.old) write.now (P.part_of parts.old) (P.part_of parts.new) }
    ensures waits { SameWaits (P.part_of parts.old) (P.part_of parts.new) }
    ensures held { IsStillHeld P.is_open P.keeps parts.old parts.new }
{
    match known {
        Some(key) if is_key_of(key, write) => write_at(parts, key, write),
        _ => write_at(parts, &Hashed::new(write.key()), write),
    }
}

/// Whether a write is to this key.
fn is_key_of(key: &Hashed, write: &Write) -> bool
    ensures { OnTrue result (key.now ≡ write.now.0) }
{
    key.key().as_slice() == write.key().as_slice()
}

/// Writes this key, for which there is room.
fn write_at<R: Shows, P: Parts<Shard<R>>>(parts: &mut P, key: &Hashed, write: &Write)
    requires open { P.is_open parts.old }
    requires is { key.now ≡ write.now.0 }
    requires room { IsRoomyFor (P.stripes_of parts.old) (P.part_of parts.old) write.now }
    requires fits { Fits write.now.0 write.now.1 }
    ensures became { BecomesWritten R.is_steady P.stripes_of P.part_of parts.old parts.new (write.now ∷ []) }
    ensures room { LeavesRoom (P.stripes_of parts.old) write.now (P.part_of parts.old) (P.part_of parts.new) }
    ensures grown { GrowsBy (P.stripes_of parts.old) write.now (P.part_of parts.old) (P.part_of parts.new) }
    ensures waits { SameWaits (P.part_of parts.old) (P.part_of parts.new) }
    ensures held { IsStillHeld P.is_open P.keeps parts.old parts.new }
{
    let stripe = stripe_at(&*parts, key);
    parts.part(stripe).write(key.hash(), write);
}

/// Gives a key, for which there is room, a value.
pub(crate) fn set<R: Shows, P: Parts<Shard<R>>>(parts: &mut P, key: &Hashed, value: &Word)
    requires open { P.is_open parts.old }
    requires room { IsRoomyFor (P.stripes_of parts.old) (P.part_of parts.old) (key.now, Some value.now) }
    requires fits { Fits key.now (Some value.now) }
    ensures became { BecomesWritten R.is_steady P.stripes_of P.part_of parts.old parts.new ((key.now, Some value.now) ∷ []) }
    ensures room { LeavesRoom (P.stripes_of parts.old) (key.now, Some value.now) (P.part_of parts.old) (P.part_of parts.new) }
    ensures grown { GrowsBy (P.stripes_of parts.old) (key.now, Some value.now) (P.part_of parts.old) (P.part_of parts.new) }
    ensures waits { SameWaits (P.part_of parts.old) (P.part_of parts.new) }
    ensures held { IsStillHeld P.is_open P.keeps parts.old parts.new }
{
    let stripe = stripe_at(&*parts, key);
    parts.part(stripe).set(key, value);
}

/// Gives a key, for which there is room, a value in a record at the tail, or deletes it there. Where the tail page has room for it, other keys
/// may be written in place where they could be.
pub(crate) fn append<R: Shows, P: Parts<Shard<R>>>(
    parts: &mut P,
    stripe: usize,
    hash: u64,
    key: &Word,
    value: Option<&Word>,
)
    requires open { P.is_open parts.old }
    requires stripe { stripe ≡ striping.stripe_of (P.stripes_of parts.old) key.now }
    requires hash { hash ≡ striping.hash_of key.now }
    requires room { IsRoomyFor (P.stripes_of parts.old) (P.part_of parts.old) (key.now, option_copied value) }
    requires fits { Fits key.now (option_copied value) }
    ensures became { BecomesWritten R.is_steady P.stripes_of P.part_of parts.old parts.new ((key.now, option_copied value.entry) ∷ []) }
    ensures grown { GrowsBy (P.stripes_of parts.old) (key.now, option_copied value.entry) (P.part_of parts.old) (P.part_of parts.new) }
    ensures spots { HasTail (logs_of (P.part_of parts.old)) stripe (weigh (key.now, option_copied value.entry))
        → (other text : Bytes) (at : Spot) → (other ≡ key.now → ⊥) → IsSpotIn P.stripes_of P.part_of parts.old other text at
        → IsSpot (P.stripes_of parts.old) (logs_of (P.part_of parts.new)) other text at }
    ensures waits { SameWaits (P.part_of parts.old) (P.part_of parts.new) }
    ensures held { IsStillHeld P.is_open P.keeps parts.old parts.new }
{
    parts.part(stripe).append(hash, key, value);
}

/// Deletes a key, for which there is room.
pub(crate) fn delete<R: Shows, P: Parts<Shard<R>>>(parts: &mut P, key: &Hashed)
    requires open { P.is_open parts.old }
    requires room { IsRoomyFor (P.stripes_of parts.old) (P.part_of parts.old) (key.now, None) }
    requires fits { Fits key.now None }
    ensures became { BecomesWritten R.is_steady P.stripes_of P.part_of parts.old parts.new ((key.now, None) ∷ []) }
    ensures grown { GrowsBy (P.stripes_of parts.old) (key.now, None) (P.part_of parts.old) (P.part_of parts.new) }
    ensures waits { SameWaits (P.part_of parts.old) (P.part_of parts.new) }
    ensures held { IsStillHeld P.is_open P.keeps parts.old parts.new }
{
    let stripe = stripe_at(&*parts, key);
    parts.part(stripe).delete(key);
}

/// Gives a key a value in place, or deletes it there. Where others may be written in place, they still may.
pub(crate) fn overwrite_at<R: Shows, P: Parts<Shard<R>>>(
    parts: &mut P,
    stripe: usize,
    key: &Word,
    spot: Spot,
    value: Option<&Word>,
)
    requires open { P.is_open parts.old }
    requires stripe { stripe ≡ striping.stripe_of (P.stripes_of parts.old) key.now }
    requires there { IsSome (P.part_of parts.old (striping.stripe_of (P.stripes_of parts.old) key.now)) }
    requires spot { IsSpotIn P.stripes_of P.part_of parts.old key.now (value_bytes (option_copied value)) spot }
    requires fits { Fits key.now (option_copied value) }
    ensures became { BecomesWritten R.is_steady P.stripes_of P.part_of parts.old parts.new ((key.now, option_copied value.entry) ∷ []) }
    ensures grown { GrowsBy (P.stripes_of parts.old) (key.now, option_copied value.entry) (P.part_of parts.old) (P.part_of parts.new) }
    ensures spots { (other text : Bytes) (at : Spot) → IsSpotIn P.stripes_of P.part_of parts.old other text at
        → IsSpot (P.stripes_of parts.old) (logs_of (P.part_of parts.new)) other text at }
    ensures waits { SameWaits (P.part_of parts.old) (P.part_of parts.new) }
    ensures held { IsStillHeld P.is_open P.keeps parts.old parts.new }
{
    let part = parts.part(stripe);
    is_laid_out(&*part);
    part.overwrite_at(key, spot, value);
}

/// Whether writes of this weight go into the tail page of a part, as [`Stripe::fits_tail`].
///
/// [`Stripe::fits_tail`]: hybrid::Stripe::fits_tail
#[inline]
fn fits_tail<R: Shows>(part: &Shard<R>, weight: usize) -> bool
    requires { weight ≤ WEIGHT_MAX }
    ensures fits { IsTrue result → weight + tail_bytes (shard_log part.now) ≤ PAGE_SIZE - HEADER_SIZE }
    ensures left { IsTrue result → spare purpose.Write ≤ expected (shard_log part.now) }
{
    part.counted().stripe().fits_tail(weight)
}

/// Whether writes of this weight go into the tail page of a stripe, so that no page is opened for them, and as many frames are expected
/// there as a call keeps back that gives a value.
pub(crate) fn has_tail<R: Shows, P: Parts<Shard<R>>>(
    parts: &mut P,
    stripe: usize,
    weight: usize,
) -> bool
    requires open { P.is_open parts.old }
    requires there { IsSome (P.part_of parts.old stripe) }
    requires light { weight ≤ WEIGHT_MAX }
    ensures room { IsTrue result → HasTail (logs_of (P.part_of parts.old)) stripe weight }
    ensures left { IsTrue result → HasSpare (logs_of (P.part_of parts.old)) stripe }
    ensures same { P.part_of parts.new ≡ P.part_of parts.old }
    ensures held { IsStillHeld P.is_open P.keeps parts.old parts.new }
{
    fits_tail(parts.part(stripe), weight)
}

/// A session watches a key from here on. It answers whether it did not watch the key.
pub(crate) fn begin<R: Shows, P: Parts<Shard<R>>>(
    parts: &mut P,
    key: &Word,
) -> Result<bool, OutOfMemory>
    requires open { P.is_open parts.old }
    requires there { IsSome (P.part_of parts.old (striping.stripe_of (P.stripes_of parts.old) key.now)) }
    ensures ok { OnOk result (BeginsWatches R.is_steady P.stripes_of P.holder_of P.part_of parts.old parts.new (key.now ∷ [])) }
    ensures err { OnErr result (Becomes R.is_steady P.stripes_of P.part_of parts.old parts.new [] stays) }
    ensures begun { IfOk result (λ begun.
        begun ≡ is_none (marks_of R.is_steady P.stripes_of P.part_of parts.old key.now (P.holder_of parts.old))) }
    ensures logs { SameLogs (P.part_of parts.old) (P.part_of parts.new) }
    ensures waits { SameWaits (P.part_of parts.old) (P.part_of parts.new) }
    ensures held { IsStillHeld P.is_open P.keeps parts.old parts.new }
{
    let stripe = stripe_in(&*parts, key);
    let holder = parts.holder();
    parts.part(stripe).begin(key, holder)
}

/// A session does not watch a key any more.
pub(crate) fn clear<R: Shows, P: Parts<Shard<R>>>(parts: &mut P, key: &Word)
    requires open { P.is_open parts.old }
    requires there { IsSome (P.part_of parts.old (striping.stripe_of (P.stripes_of parts.old) key.now)) }
    ensures became { EndsWatches R.is_steady P.stripes_of P.holder_of P.part_of parts.old parts.new (key.now ∷ []) }
    ensures logs { SameLogs (P.part_of parts.old) (P.part_of parts.new) }
    ensures waits { SameWaits (P.part_of parts.old) (P.part_of parts.new) }
    ensures held { IsStillHeld P.is_open P.keeps parts.old parts.new }
{
    let stripe = stripe_in(&*parts, key);
    let holder = parts.holder();
    parts.part(stripe).clear(key, holder)
}

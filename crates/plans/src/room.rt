//! Room for writes, stripe by stripe.

ghost use Rattle.std.specs.Prelude.{◌≡◌, ◌+◌, ◌<◌, ◌≤◌, [], List, ℕ, IsSome, IfErr, OnOk, slice_index, ◌∷◌};
ghost use Rattle.std.specs.Prelude.{if◌then◌else◌};
ghost use Rattle.words.specs.Store.{Write, weight, writes_key};
ghost use Rattle.words.specs.declared.limits.TheConstants.{WEIGHT_MAX};
ghost use Rattle.transact.specs.Tables.{keys_written, stays};
ghost use Rattle.shards.specs.Devices.{StillServes};
ghost use Rattle.shards.specs.Receipts.{kept_by};
ghost use Rattle.shards.specs.Rooms.{ShedFew, purpose_of, share};
ghost use Rattle.shards.specs.Shards.{logs_of, weigh};
ghost use Rattle.plans.specs.Planning.{HaveFailed, IsStillHeld, MayLookUp, StillStands};
ghost use Rattle.plans.specs.Reserving.{AreSharesOf, HasNoRoomAt, HasRoom, HasRoomAt, HasShedShare, ReservesAll, ReservesAt, StopsMaking};
ghost use Rattle.plans.specs.Holding.{Becomes};

use crate::cells::{reserve_at, stripe_in};
use crate::stop::Stop;
use device::{Device, Shows};
use gates::Parts;
use hybrid::{Fault, Purpose};
use shards::shard::Shard;
use strings::writes::{Write, writes_to};
use words::hash::stripe_of;
use words::limits::WEIGHT_OF_KEY;

/// Makes room for writes in each stripe that they write, in rising order. What keys have and all marks stay.
pub(crate) fn reserve_all<R: Shows, D: Device<Receipt = R>, P: Parts<Shard<R>>>(
    parts: &mut P,
    writes: &[Write],
    device: &mut D,
) -> Result<(), Stop<R>>
    requires may { MayLookUp (P.is_open parts.old) (P.stripes_of parts.old) (P.part_of parts.old) (keys_written writes.now) }
    requires light { weight writes.now ≤ WEIGHT_MAX }
    ensures became { Becomes R.is_steady P.stripes_of P.part_of parts.old parts.new [] stays }
    ensures room { OnOk result (HasRoom D.wrote (kept_by R.identity R.shown) (P.stripes_of parts.old) writes.now
        (P.part_of parts.old, device.old) (P.part_of parts.new, device.new)) }
    ensures stopped { IfErr result (StopsMaking D.wrote (kept_by R.identity R.shown) (P.stripes_of parts.old) writes.now
        (P.part_of parts.old, device.old) (P.part_of parts.new, device.new)) }
    ensures few { ShedFew (P.stripes_of parts.old) writes.now (logs_of (P.part_of parts.old)) (logs_of (P.part_of parts.new)) }
    ensures stands { StillStands (StillServes D.serves D.releases) (P.part_of parts.old, device.old) (P.part_of parts.new, device.new) }
    ensures failed { HaveFailed result (D.failures device.old) (D.failures device.new) }
    ensures held { IsStillHeld P.is_open P.keeps parts.old parts.new }
{
    match writes {
        [] => Ok(()),
        [write] => reserve_one(parts, write, device),
        _ => reserve_each(parts, writes, device),
    }
}

/// Makes room for a write, as [`reserve_all`] does. Where one stripe alone is held, its key is not hashed.
fn reserve_one<R: Shows, D: Device<Receipt = R>, P: Parts<Shard<R>>>(
    parts: &mut P,
    write: &Write,
    device: &mut D,
) -> Result<(), Stop<R>>
    requires may { MayLookUp (P.is_open parts.old) (P.stripes_of parts.old) (P.part_of parts.old) (keys_written (write.now ∷ [])) }
    requires light { weight (write.now ∷ []) ≤ WEIGHT_MAX }
    ensures became { Becomes R.is_steady P.stripes_of P.part_of parts.old parts.new [] stays }
    ensures room { OnOk result (HasRoom D.wrote (kept_by R.identity R.shown) (P.stripes_of parts.old) (write.now ∷ [])
        (P.part_of parts.old, device.old) (P.part_of parts.new, device.new)) }
    ensures stopped { IfErr result (StopsMaking D.wrote (kept_by R.identity R.shown) (P.stripes_of parts.old) (write.now ∷ [])
        (P.part_of parts.old, device.old) (P.part_of parts.new, device.new)) }
    ensures few { ShedFew (P.stripes_of parts.old) (write.now ∷ []) (logs_of (P.part_of parts.old)) (logs_of (P.part_of parts.new)) }
    ensures stands { StillStands (StillServes D.serves D.releases) (P.part_of parts.old, device.old) (P.part_of parts.new, device.new) }
    ensures failed { HaveFailed result (D.failures device.old) (D.failures device.new) }
    ensures held { IsStillHeld P.is_open P.keeps parts.old parts.new }
{
    let stripe = stripe_in(&*parts, write.key());
    reserve_share(parts, stripe, weigh(write), purpose_for(write), device)
}

/// Makes room for writes at each stripe of all, in rising order, as [`reserve_all`] does.
fn reserve_each<R: Shows, D: Device<Receipt = R>, P: Parts<Shard<R>>>(
    parts: &mut P,
    writes: &[Write],
    device: &mut D,
) -> Result<(), Stop<R>>
    requires may { MayLookUp (P.is_open parts.old) (P.stripes_of parts.old) (P.part_of parts.old) (keys_written writes.now) }
    requires light { weight writes.now ≤ WEIGHT_MAX }
    ensures became { Becomes R.is_steady P.stripes_of P.part_of parts.old parts.new [] stays }
    ensures room { OnOk result (HasRoom D.wrote (kept_by R.identity R.shown) (P.stripes_of parts.old) writes.now
        (P.part_of parts.old, device.old) (P.part_of parts.new, device.new)) }
    ensures stopped { IfErr result (StopsMaking D.wrote (kept_by R.identity R.shown) (P.stripes_of parts.old) writes.now
        (P.part_of parts.old, device.old) (P.part_of parts.new, device.new)) }
    ensures few { ShedFew (P.stripes_of parts.old) writes.now (logs_of (P.part_of parts.old)) (logs_of (P.part_of parts.new)) }
    ensures stands { StillStands (StillServes D.serves D.releases) (P.part_of parts.old, device.old) (P.part_of parts.new, device.new) }
    ensures failed { HaveFailed result (D.failures device.old) (D.failures device.new) }
    ensures held { IsStillHeld P.is_open P.keeps parts.old parts.new }
{
    let shares = shares_of(writes, parts.stripes());
    reserve_shares(parts, &shares, purpose_of(writes), device)
}

/// Makes room for writes of which this is what they weigh at each stripe, and for what, in rising order. What keys have and all marks
/// stay.
pub(crate) fn reserve_shares<R: Shows, D: Device<Receipt = R>, P: Parts<Shard<R>>>(
    parts: &mut P,
    shares: &[usize; 64],
    purpose: Purpose,
    device: &mut D,
) -> Result<(), Stop<R>>
    requires open { P.is_open parts.old }
    requires there { (i : ℕ) → i < 64 → 0 < slice_index shares.now i → IsSome (P.part_of parts.old i) }
    requires light { (i : ℕ) → i < 64 → slice_index shares.now i ≤ WEIGHT_MAX }
    ensures became { Becomes R.is_steady P.stripes_of P.part_of parts.old parts.new [] stays }
    ensures reserved { (writes : List Write) → AreSharesOf (P.stripes_of parts.old) writes shares.now purpose
        → ReservesAll D.wrote (kept_by R.identity R.shown) (P.stripes_of parts.old) writes result
        (P.part_of parts.old, device.old) (P.part_of parts.new, device.new) }
    ensures stands { StillStands (StillServes D.serves D.releases) (P.part_of parts.old, device.old) (P.part_of parts.new, device.new) }
    ensures failed { HaveFailed result (D.failures device.old) (D.failures device.new) }
    ensures held { IsStillHeld P.is_open P.keeps parts.old parts.new }
{
    for stripe in 0..parts.stripes() {
        if let Err(stop) = reserve_share(parts, stripe, shares[stripe], purpose, device) {
            return Err(stop);
        }
    }
    Ok(())
}

/// What the writes to each stripe weigh.
fn shares_of(writes: &[Write], stripes: usize) -> [usize; 64]
    requires some { 1 ≤ stripes }
    requires most { stripes ≤ 64 }
    requires light { weight writes.now ≤ WEIGHT_MAX }
    ensures { (i : ℕ) → i < 64 → slice_index result i ≡ share stripes i writes.now }
{
    let mut shares = [0; 64];
    let mut left = writes;
    while let Some((first, others)) = left.split_first() {
        let stripe = stripe_of(first.key().as_slice(), stripes);
        shares[stripe] += weigh_before(first, others);
        left = others;
    }
    shares
}

/// What a write weighs before these others: nothing where one of them is to its key.
fn weigh_before(write: &Write, others: &[Write]) -> usize
    requires { weight (write.now ∷ others.now) ≤ WEIGHT_MAX }
    ensures { result ≡ (if writes_key others.now write.now.0 then 0 else weigh write.now) }
{
    if writes_to(others, write.key()) {
        return 0;
    }
    weigh(write)
}

/// What a write weighs that no later one hides.
fn weigh(write: &Write) -> usize
    requires { weigh write.now ≤ WEIGHT_MAX }
    ensures { result ≡ weigh write.now }
{
    let size = match write.value() {
        Some(value) => value.len(),
        None => 0,
    };
    WEIGHT_OF_KEY + write.key().len() + size
}

/// For what room is made: deletions alone, or writes of which one at least gives a value.
fn purpose_of(writes: &[Write]) -> Purpose
    ensures { result ≡ purpose_of writes.now }
{
    for write in writes {
        if write.value().is_some() {
            return Purpose::Write;
        }
    }
    Purpose::Delete
}

/// For what room is made for one write.
fn purpose_for(write: &Write) -> Purpose
    ensures { result ≡ purpose_of (write.now ∷ []) }
{
    match write.value() {
        Some(_) => Purpose::Write,
        None => Purpose::Delete,
    }
}

/// Makes room in a stripe for its share of writes, if it has one.
fn reserve_share<R: Shows, D: Device<Receipt = R>, P: Parts<Shard<R>>>(
    parts: &mut P,
    stripe: usize,
    share: usize,
    purpose: Purpose,
    device: &mut D,
) -> Result<(), Stop<R>>
    requires open { P.is_open parts.old }
    requires there { 0 < share → IsSome (P.part_of parts.old stripe) }
    requires light { share ≤ WEIGHT_MAX }
    ensures reserved { ReservesAt R.is_steady P.stripes_of P.part_of (StillServes D.serves D.releases) stripe share purpose
        (parts.old, device.old) (parts.new, device.new) }
    ensures room { OnOk result (0 < share → HasRoomAt stripe share purpose (P.part_of parts.old) (P.part_of parts.new)) }
    ensures shed { HasShedShare D.wrote (kept_by R.identity R.shown) (D.failures device.new ≡ D.failures device.old) stripe share
        (P.part_of parts.old, device.old) (P.part_of parts.new, device.new) }
    ensures stopped { IfErr result (HasNoRoomAt stripe share purpose (P.part_of parts.old) (P.part_of parts.new)) }
    ensures failed { HaveFailed result (D.failures device.old) (D.failures device.new) }
    ensures held { IsStillHeld P.is_open P.keeps parts.old parts.new }
{
    if share == 0 {
        return Ok(());
    }
    match reserve_at(parts, stripe, share, purpose, device) {
        Ok(()) => Ok(()),
        Err(Fault::DeviceFault) => Err(Stop::DeviceFault),
        Err(Fault::StoreFull) => Err(Stop::StoreFull(stripe)),
    }
}

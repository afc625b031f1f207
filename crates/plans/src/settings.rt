//! The short way of an MSET, whose keys and values stay the caller's: nothing is looked up, and nothing is copied but into the pages,
//! so that it never wants memory.

ghost use Rattle.std.specs.Prelude.{◌≡◌, ◌+◌, ◌<◌, ◌≤◌, [], ◌∷◌, ℕ, Some, IfErr, IfNone, IfSome, OnOk, length, slice_index};
ghost use Rattle.std.specs.Prelude.{if◌then◌else◌};
ghost use Rattle.words.specs.declared.limits.TheConstants.{WEIGHT_MAX, WEIGHT_OF_KEY};
ghost use Rattle.words.specs.Answers.{writes_set};
ghost use Rattle.words.specs.Briefs.{pairs_of};
ghost use Rattle.words.specs.Commands.{keys_set};
ghost use Rattle.words.specs.Store.{weight, writes_key};
ghost use Rattle.hybrid.specs.Log.{Fits};
ghost use Rattle.hybrid.specs.Writing.{AreFit};
ghost use Rattle.transact.specs.Tables.{stays};
ghost use Rattle.shards.specs.Devices.{StillServes};
ghost use Rattle.shards.specs.Receipts.{kept_by};
ghost use Rattle.shards.specs.Rooms.{AreRoomy, HaveGrown, ShedFew, purpose_of, share};
ghost use Rattle.shards.specs.Shards.{SameWaits, logs_of};
ghost use Rattle.plans.specs.Planning.{HaveFailed, IsStillHeld, MayLookUp, StillStands};
ghost use Rattle.plans.specs.Reserving.{HasRoom, StopsMaking};
ghost use Rattle.plans.specs.Holding.{Becomes, BecomesFirst, BecomesWritten, GrowsFirst};

use crate::cells::set;
use crate::room::reserve_shares;
use crate::stop::Stop;
use device::{Device, Shows};
use gates::Parts;
use hybrid::Purpose;
use hybrid::laws::growth_adds_up;
use shards::shard::Shard;
use words::hash::{Hashed, stripe_of};
use words::limits::WEIGHT_OF_KEY;
use words::word::Word;

/// A key with the value behind it, and the words after both.
#[derive(Drop)]
struct Setting<'a> {
    key: &'a Word,
    value: &'a Word,
    others: &'a [Word],
}

/// The first of these keys, each of which has its value behind it.
fn first_of(words: &[Word]) -> Option<Setting<'_>>
    ensures some { IfSome result (λ first. words.entry.now ≡ first.key.now ∷ first.value.now ∷ first.others.now) }
    ensures none { IfNone result (pairs_of words.entry.now ≡ []) }
{
    match words {
        [] => None,
        [_] => None,
        [key, value, others @ ..] => Some(Setting { key, value, others }),
    }
}

/// Whether one of these keys, each of which has its value behind it, is this.
fn gives(words: &[Word], key: &Word) -> bool
    ensures { result ≡ writes_key (writes_set (pairs_of words.now)) key.now }
{
    match words {
        [] => false,
        [_] => false,
        [other, _, others @ ..] => other.as_slice() == key.as_slice() || gives(others, key),
    }
}

/// What a key with its value weighs before these others: nothing where one of them is the key.
fn weigh_before(key: &Word, value: &Word, others: &[Word]) -> usize
    requires { weight ((key.now, Some value.now) ∷ writes_set (pairs_of others.now)) ≤ WEIGHT_MAX }
    ensures { result ≡ (if writes_key (writes_set (pairs_of others.now)) key.now then 0
        else WEIGHT_OF_KEY + length key.now + length value.now) }
{
    if gives(others, key) {
        return 0;
    }
    WEIGHT_OF_KEY + key.len() + value.len()
}

/// What these keys, each with its value behind it, weigh at each stripe.
fn shares_of(words: &[Word], stripes: usize) -> [usize; 64]
    requires some { 1 ≤ stripes }
    requires most { stripes ≤ 64 }
    requires light { weight (writes_set (pairs_of words.now)) ≤ WEIGHT_MAX }
    ensures { (i : ℕ) → i < 64 → slice_index result i ≡ share stripes i (writes_set (pairs_of words.now)) }
{
    let mut shares = [0; 64];
    let mut left = words;
    while let Some(first) = first_of(left) {
        let stripe = stripe_of(first.key.as_slice(), stripes);
        shares[stripe] += weigh_before(first.key, first.value, first.others);
        left = first.others;
    }
    shares
}

/// For what room is made for these keys with their values.
fn purpose_for(words: &[Word]) -> Purpose
    ensures { result ≡ purpose_of (writes_set (pairs_of words.now)) }
{
    match words {
        [] => Purpose::Delete,
        [_] => Purpose::Delete,
        [_, _, ..] => Purpose::Write,
    }
}

/// Makes room for these keys, each with its value behind it, in each stripe of theirs, in rising order. What keys have and all marks
/// stay. It takes no memory.
///
/// # Errors
///
/// [`Stop::DeviceFault`] where a write of the device failed, of a stripe that lacked room; [`Stop::StoreFull`] where a key's stripe
/// has no place left on it.
pub fn reserve_settings<R: Shows, D: Device<Receipt = R>, P: Parts<Shard<R>>>(
    parts: &mut P,
    words: &[Word],
    device: &mut D,
) -> Result<(), Stop<R>>
    requires may { MayLookUp (P.is_open parts.old) (P.stripes_of parts.old) (P.part_of parts.old) (keys_set (pairs_of words.now)) }
    requires light { weight (writes_set (pairs_of words.now)) ≤ WEIGHT_MAX }
    ensures became { Becomes R.is_steady P.stripes_of P.part_of parts.old parts.new [] stays }
    ensures room { OnOk result (HasRoom D.wrote (kept_by R.identity R.shown) (P.stripes_of parts.old) (writes_set (pairs_of words.now))
        (P.part_of parts.old, device.old) (P.part_of parts.new, device.new)) }
    ensures stopped { IfErr result (StopsMaking D.wrote (kept_by R.identity R.shown) (P.stripes_of parts.old)
        (writes_set (pairs_of words.now)) (P.part_of parts.old, device.old) (P.part_of parts.new, device.new)) }
    ensures few { ShedFew (P.stripes_of parts.old) (writes_set (pairs_of words.now)) (logs_of (P.part_of parts.old))
        (logs_of (P.part_of parts.new)) }
    ensures stands { StillStands (StillServes D.serves D.releases) (P.part_of parts.old, device.old) (P.part_of parts.new, device.new) }
    ensures failed { HaveFailed result (D.failures device.old) (D.failures device.new) }
    ensures held { IsStillHeld P.is_open P.keeps parts.old parts.new }
{
    let shares = shares_of(words, parts.stripes());
    reserve_shares(parts, &shares, purpose_for(words), device)
}

/// Gives a key its value before these others, or passes it over where one of them is the key.
fn set_before<R: Shows, P: Parts<Shard<R>>>(
    parts: &mut P,
    key: &Word,
    value: &Word,
    others: &[Word],
)
    requires open { P.is_open parts.old }
    requires room { AreRoomy (P.stripes_of parts.old) (logs_of (P.part_of parts.old))
        ((key.now, Some value.now) ∷ writes_set (pairs_of others.now)) }
    requires fits { Fits key.now (Some value.now) }
    ensures room { AreRoomy (P.stripes_of parts.old) (logs_of (P.part_of parts.new)) (writes_set (pairs_of others.now)) }
    ensures became { BecomesFirst R.is_steady P.stripes_of P.part_of parts.old parts.new (key.now, Some value.now)
        (writes_set (pairs_of others.now)) }
    ensures grown { GrowsFirst P.stripes_of P.part_of parts.old parts.new (key.now, Some value.now) (writes_set (pairs_of others.now)) }
    ensures waits { SameWaits (P.part_of parts.old) (P.part_of parts.new) }
    ensures held { IsStillHeld P.is_open P.keeps parts.old parts.new }
{
    growth_adds_up();
    if gives(others, key) {
        return;
    }
    set(parts, &Hashed::new(key), value);
}

/// Gives these keys, for which there is room, each the value behind it, in order, and touches their marks. A value that a later one
/// hides is passed over. It takes no memory.
pub fn install_settings<R: Shows, P: Parts<Shard<R>>>(parts: &mut P, words: &[Word])
    requires open { P.is_open parts.old }
    requires room { AreRoomy (P.stripes_of parts.old) (logs_of (P.part_of parts.old)) (writes_set (pairs_of words.now)) }
    requires fits { AreFit (writes_set (pairs_of words.now)) }
    ensures became { BecomesWritten R.is_steady P.stripes_of P.part_of parts.old parts.new (writes_set (pairs_of words.now)) }
    ensures grown { HaveGrown (P.stripes_of parts.old) (writes_set (pairs_of words.now)) (logs_of (P.part_of parts.old))
        (logs_of (P.part_of parts.new)) }
    ensures waits { SameWaits (P.part_of parts.old) (P.part_of parts.new) }
    ensures held { IsStillHeld P.is_open P.keeps parts.old parts.new }
{
    growth_adds_up();
    let mut left = words;
    while let Some(first) = first_of(left) {
        set_before(parts, first.key, first.value, first.others);
        left = first.others;
    }
}

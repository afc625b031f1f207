//! Stripes that are full: they take deletions, are cleaned, and serve again.

ghost use Rattle.std.specs.Prelude.{IfSome};
ghost use Rattle.epoch.specs.Seats.{IsOutside};

use super::stops::meets_full;
use super::{Both, both_of, memory, run_both};
use crate::held::Store;
use device::{Device, MemoryDevice};
use epoch::{EpochSeat, Epochs};
use hybrid::Staged;
use shards::cleaning::Stepped;
use std::alloc::Global;

/// A store of one stripe with 64 places over memory, and a plain map.
pub(super) type Small = Both<MemoryDevice>;

pub(super) fn small(alloc: Global) -> Option<Small> {
    let device = memory(alloc)?;
    both_of(alloc, 1, 64, device)
}

/// Epochs with one seat.
fn epochs(alloc: Global) -> Option<(Epochs, EpochSeat)>
    ensures { IfSome result (λ made. IsOutside made.0 made.1) }
{
    let Ok((epochs, mut seats)) = Epochs::new(alloc, 1) else {
        return None;
    };
    let seat = seats.pop()?;
    Some((epochs, seat))
}

/// One step of the cleaner at the first stripe, and whether it was done.
pub(super) fn clean_once<D: Device>(
    alloc: Global,
    store: &mut Store<D>,
    epochs: &Epochs,
    seat: &mut EpochSeat,
) -> bool
    requires { IsOutside epochs.now seat.old }
    ensures { IsOutside epochs.now seat.new }
{
    if store.stripes.shards.is_empty() {
        return false;
    }
    let mut staged = Staged::new(alloc);
    let shard = &mut store.stripes.shards[0];
    matches!(
        shard.clean_step(epochs, seat, &mut staged, true, &mut store.device),
        Ok(Stepped::Done)
    )
}

/// So many steps of the cleaner, and how many of them were done.
fn clean<D: Device>(
    alloc: Global,
    store: &mut Store<D>,
    epochs: &Epochs,
    seat: &mut EpochSeat,
    steps: u32,
) -> u32
    requires { IsOutside epochs.now seat.old }
    ensures { IsOutside epochs.now seat.new }
{
    let mut done: u32 = 0;
    for _ in 0..steps {
        if clean_once(alloc, store, epochs, seat) {
            done = done.saturating_add(1);
        }
    }
    done
}

/// Gives a key a value of 1,000 bytes, and tells whether the stripe took it. `None` where something else failed.
pub(super) fn set(alloc: Global, both: &mut Small, number: u64, digit: u64) -> Option<bool> {
    let told = 1000 + number % 9000;
    let line = format!(in alloc; "SETRANGE k{number} 995 {digit}{told}").ok()?;
    Some(meets_full(alloc, both, line.as_str())?.is_none())
}

/// Sets keys from this number on until the stripe is full, and tells the number of the key that it did not take.
fn fill_from(alloc: Global, both: &mut Small, first: u64) -> Option<u64> {
    for number in first..6000 {
        if !set(alloc, both, number, 1)? {
            return Some(number);
        }
    }
    None
}

/// Deletes every eighth key, so many, and tells how many of the deletions the stripe took.
fn delete(alloc: Global, both: &mut Small, count: u64) -> Option<u64> {
    let mut taken: u64 = 0;
    for at in 0..count {
        let number = at.wrapping_mul(8);
        let line = format!(in alloc; "DEL k{number}").ok()?;
        if meets_full(alloc, both, line.as_str())?.is_none() {
            taken = taken.saturating_add(1);
        }
    }
    Some(taken)
}

/// Whether each of the keys below this number has the same in both.
fn agree(alloc: Global, both: &mut Small, end: u64) -> bool {
    for number in 0..end {
        let Ok(line) = format!(in alloc; "GET k{number}") else {
            return false;
        };
        if !run_both(alloc, both, line.as_str()) {
            return false;
        }
    }
    true
}

/// What a stripe that is full takes: the key that it did not take, the deletions that it took, the steps that its cleaner
/// did, and the first key after these that it did not take.
fn run_full(alloc: Global, both: &mut Small) -> Option<(u64, Option<bool>, u64, u32, u64)> {
    let (epochs, mut seat) = epochs(alloc)?;
    let first = fill_from(alloc, both, 0)?;
    let again = set(alloc, both, first, 1);
    let taken = delete(alloc, both, 480)?;
    let steps = clean(alloc, &mut both.store, &epochs, &mut seat, 300);
    let next = fill_from(alloc, both, first)?;
    Some((first, again, taken, steps, next))
}

#[test]
fn a_full_stripe_serves_again_once_keys_are_deleted(rt: HostRuntime) {
    let alloc = rt.alloc();
    let mut both = small(alloc).expect(&rt, "memory for a store");
    let (first, again, taken, steps, next) = run_full(alloc, &mut both).expect(
        &rt,
        "a full stripe",
    );
    assert!(rt; 4032 <= first && first <= 4788, "{first}");
    assert!(rt; again == Some(false));
    assert!(rt; taken == 480, "{taken}");
    assert!(rt; steps > 200, "{steps}");
    assert!(rt; first.wrapping_add(240) <= next, "{next}");
    let is_same = agree(alloc, &mut both, next);
    assert!(rt; is_same);
    drop(both);
}

/// Sets each of 420 keys in turn, so many times, with four steps of the cleaner for each page. It tells how many were not taken.
fn overwrite(alloc: Global, both: &mut Small, times: u64) -> Option<u64> {
    let (epochs, mut seat) = epochs(alloc)?;
    let mut refused: u64 = 0;
    for time in 0..times {
        let number = time % 420;
        if !set(alloc, both, number, time % 9)? {
            refused = refused.saturating_add(1);
        }
        if number % 60 == 0 {
            clean(alloc, &mut both.store, &epochs, &mut seat, 4);
        }
    }
    Some(refused)
}

#[test]
fn a_stripe_that_is_cleaned_is_overwritten_for_ever(rt: HostRuntime) {
    let alloc = rt.alloc();
    let mut both = small(alloc).expect(&rt, "memory for a store");
    let refused = overwrite(alloc, &mut both, 12_600);
    assert!(rt; refused == Some(0));
    let is_same = agree(alloc, &mut both, 421);
    assert!(rt; is_same);
    drop(both);
}

/// Deletes one key, and then gives new keys values until the stripe takes none, so often, with a few steps of the cleaner each time.
/// It tells how many of the deletions the stripe took, and how many of the new values.
fn delete_and_fill(alloc: Global, both: &mut Small, times: u64) -> Option<(u64, u64)> {
    let (epochs, mut seat) = epochs(alloc)?;
    let mut next = fill_from(alloc, both, 0)?;
    let mut deleted: u64 = 0;
    let mut given: u64 = 0;
    for time in 0..times {
        let line = format!(in alloc; "DEL k{time}").ok()?;
        if meets_full(alloc, both, line.as_str())?.is_none() {
            deleted = deleted.saturating_add(1);
        }
        clean(alloc, &mut both.store, &epochs, &mut seat, 8);
        let end = fill_from(alloc, both, next)?;
        given = given.saturating_add(end.saturating_sub(next));
        next = end;
    }
    Some((deleted, given))
}

// What a deletion opens stays for deletions, so a client that deletes one key and tries again is not shut out for good.
#[test]
fn values_do_not_fill_the_page_that_a_deletion_opened(rt: HostRuntime) {
    let alloc = rt.alloc();
    let mut both = small(alloc).expect(&rt, "memory for a store");
    let (deleted, given) = delete_and_fill(alloc, &mut both, 400).expect(&rt, "a full stripe");
    assert!(rt; deleted == 400, "{deleted}");
    assert!(rt; 300 <= given, "{given}");
    drop(both);
}

//! Places of a stripe that a call releases itself.

ghost use Rattle.std.specs.Prelude.{IfSome};
ghost use Rattle.epoch.specs.Seats.{IsOutside};

use super::full::{Small, clean_once, set, small};
use crate::held::Store;
use device::Device;
use epoch::{EpochSeat, Epochs};
use shards::freeing::Freed;
use shards::retires::Retires;
use std::alloc::Global;

/// Epochs with two seats.
fn two_seats(alloc: Global) -> Option<(Epochs, EpochSeat, EpochSeat)>
    ensures first { IfSome result (λ made. IsOutside made.0 made.1) }
    ensures second { IfSome result (λ made. IsOutside made.0 made.2) }
{
    let Ok((epochs, mut seats)) = Epochs::new(alloc, 2) else {
        return None;
    };
    let second = seats.pop()?;
    let first = seats.pop()?;
    Some((epochs, first, second))
}

/// Sets 400 keys in turn until the stripe is full: the oldest pages have no live record then.
fn fill_in_turn(alloc: Global, both: &mut Small) -> Option<u64> {
    for time in 0..6000 {
        if !set(alloc, both, time % 400, time % 9)? {
            return Some(time);
        }
    }
    None
}

/// Releases each place of the first stripe that can be. `None` where there is no stripe.
fn free<D: Device, S: Retires>(store: &mut Store<D>, epochs: &Epochs, own: &mut S) -> Option<Freed>
    requires { S.is_of epochs.now own.old }
    ensures { S.is_of epochs.now own.new }
{
    if store.stripes.shards.is_empty() {
        return None;
    }
    let shard = &mut store.stripes.shards[0];
    Some(shard.free_places(epochs, own, &mut store.device))
}

#[test]
fn a_retired_place_is_released_and_a_value_is_taken(rt: HostRuntime) {
    let alloc = rt.alloc();
    let mut both = small(alloc).expect(&rt, "memory for a store");
    let (epochs, mut seat, other) = two_seats(alloc).expect(&rt, "two seats");
    let time = fill_in_turn(alloc, &mut both).expect(&rt, "a full stripe");
    let freed = free(&mut both.store, &epochs, &mut seat).expect(&rt, "a stripe");
    assert!(rt; !freed.released);
    let unlinked = clean_once(alloc, &mut both.store, &epochs, &mut seat);
    let retired = clean_once(alloc, &mut both.store, &epochs, &mut seat);
    assert!(rt; unlinked && retired);
    assert!(rt; set(alloc, &mut both, time % 400, 1) == Some(false));
    let freed = free(&mut both.store, &epochs, &mut seat).expect(&rt, "a stripe");
    assert!(rt; freed.released && !freed.refused.drain && !freed.refused.retire);
    assert!(rt; set(alloc, &mut both, time % 400, 1) == Some(true));
    drop(other);
    drop(seat);
    drop(epochs);
    drop(both);
}

#[test]
fn a_stay_of_another_seat_keeps_a_retired_place(rt: HostRuntime) {
    let alloc = rt.alloc();
    let mut both = small(alloc).expect(&rt, "memory for a store");
    let (epochs, mut seat, other) = two_seats(alloc).expect(&rt, "two seats");
    fill_in_turn(alloc, &mut both).expect(&rt, "a full stripe");
    assert!(rt; clean_once(alloc, &mut both.store, &epochs, &mut seat));
    let inside = epochs.enter(&rt, other);
    let freed = free(&mut both.store, &epochs, &mut seat);
    let other = epochs.leave(inside);
    let freed = freed.expect(&rt, "a stripe");
    assert!(rt; !freed.released && freed.refused.drain);
    let mut inside = epochs.enter(&rt, other);
    let freed = free(&mut both.store, &epochs, &mut inside);
    let other = epochs.leave(inside);
    let freed = freed.expect(&rt, "a stripe");
    assert!(rt; freed.released && !freed.refused.drain);
    drop(other);
    drop(seat);
    drop(epochs);
    drop(both);
}

#[test]
fn the_own_stay_keeps_a_place_that_is_retired_inside_it(rt: HostRuntime) {
    let alloc = rt.alloc();
    let mut both = small(alloc).expect(&rt, "memory for a store");
    let (epochs, mut seat, other) = two_seats(alloc).expect(&rt, "two seats");
    fill_in_turn(alloc, &mut both).expect(&rt, "a full stripe");
    assert!(rt; clean_once(alloc, &mut both.store, &epochs, &mut seat));
    let mut inside = epochs.enter(&rt, other);
    let freed = free(&mut both.store, &epochs, &mut inside);
    let other = epochs.leave(inside);
    let freed = freed.expect(&rt, "a stripe");
    assert!(rt; !freed.released && freed.refused.drain);
    drop(other);
    drop(seat);
    drop(epochs);
    drop(both);
}

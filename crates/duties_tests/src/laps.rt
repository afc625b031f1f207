//! The cleaner's laps, look by look.

ghost use Rattle.std.specs.Prelude.{◌≡◌};

use std::process::Abort;
use upkeep::{Laps, Seen};

/// A stripe of 64 places, of which so many are used.
fn used(used: usize) -> Seen {
    Seen {
        used,
        places: 64,
        opened: false,
    }
}

/// Takes all steps of a lap whose first one was taken, and says how many it has; 0 where these are 10,000 or more.
fn runs(laps: &mut Laps) -> usize
    ensures { laps.new.left ≡ 0 }
{
    for steps in 1..10_000 {
        if !laps.goes_on() {
            laps.stop();
            return steps;
        }
    }
    laps.stop();
    0
}

/// At which look a lap begins, of at most 2,000 looks at a stripe in which nothing changes, and how many steps it has.
fn comes_to_a_lap(laps: &mut Laps, seen: &Seen) -> Option<(usize, usize)>
    requires { laps.old.left ≡ 0 }
    ensures { laps.new.left ≡ 0 }
{
    for look in 1..=2_000 {
        if laps.begins(seen) {
            return Some((look, runs(laps)));
        }
    }
    None
}

/// A lap of so many steps begins after so many looks at a stripe in which nothing changes.
fn has_lap(rt: &impl Abort, laps: &mut Laps, seen: &Seen, looks: usize, steps: usize)
    requires { laps.old.left ≡ 0 }
    ensures { laps.new.left ≡ 0 }
{
    assert!(rt;
        comes_to_a_lap(laps, seen) == Some((looks, steps)),
        "after {looks} looks"
    );
}

/// Laps of 256 steps begin one after the other, each after so many looks.
fn has_laps(rt: &impl Abort, laps: &mut Laps, seen: &Seen, all: &[usize])
    requires { laps.old.left ≡ 0 }
    ensures { laps.new.left ≡ 0 }
{
    for looks in all {
        has_lap(rt, laps, seen, *looks, 256);
    }
}

/// Ten laps at a full store of live values that is only overwritten, each after so many looks. Such a store has no place that
/// could come back, so a test of the thread over it would have no end to wait for: what is tested is when it tries again.
#[test]
fn a_full_store_of_live_values_is_tried_again_after_a_thousand_looks_at_most(rt: HostRuntime) {
    let mut laps = Laps::new();
    let looks = [1, 10, 20, 40, 80, 160, 320, 640, 1_000, 1_000];
    has_laps(&rt, &mut laps, &used(64), &looks);
    drop(laps);
}

/// A lap that gives three places back of 64 is not in vain: the next one begins at once, and patience is ten looks again.
#[test]
fn a_lap_that_gains_brings_patience_back(rt: HostRuntime) {
    let mut laps = Laps::new();
    has_laps(&rt, &mut laps, &used(64), &[1, 10, 20, 40]);
    has_lap(&rt, &mut laps, &used(61), 1, 244);
    has_laps(&rt, &mut laps, &used(64), &[10, 20]);
    drop(laps);
}

/// Where a store is not full, a lap in vain is followed by another only once more places are used, by more than two of 64.
#[test]
fn a_store_that_does_not_grow_is_left_alone(rt: HostRuntime) {
    let mut laps = Laps::new();
    has_lap(&rt, &mut laps, &used(40), 1, 160);
    assert!(rt; comes_to_a_lap(&mut laps, &used(40)).is_none());
    assert!(rt; comes_to_a_lap(&mut laps, &used(42)).is_none());
    has_lap(&rt, &mut laps, &used(43), 1, 172);
    drop(laps);
}

/// A deletion at a full store begins a short lap at once, and where its page is not had back, a whole one after ten looks.
#[test]
fn a_deletion_begins_a_short_lap(rt: HostRuntime) {
    let mut laps = Laps::new();
    let mut seen = used(64);
    has_laps(&rt, &mut laps, &seen, &[1, 10, 20, 40]);
    assert!(rt; !laps.begins(&seen));
    laps.stop();
    seen.opened = true;
    has_lap(&rt, &mut laps, &seen, 1, 64);
    has_lap(&rt, &mut laps, &seen, 10, 256);
    drop(laps);
}

/// Who writes waits only where a lap has steps left, and an eighth of the places or less are left.
#[test]
fn a_lap_is_behind_where_few_places_are_left(rt: HostRuntime) {
    let mut laps = Laps::new();
    laps.note_behind(64, 64);
    assert!(rt; !laps.is_behind());
    assert!(rt; laps.begins(&used(56)));
    laps.note_behind(56, 64);
    assert!(rt; laps.is_behind());
    laps.note_behind(55, 64);
    assert!(rt; !laps.is_behind());
    laps.note_behind(64, 64);
    assert!(rt; laps.is_behind());
    laps.note_level();
    assert!(rt; !laps.is_behind());
    drop(laps);
}

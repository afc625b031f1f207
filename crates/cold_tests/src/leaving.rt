//! A full stripe beside a reader that has a stay: the place of a page that has left the log is released once the reader has left.
//! The keys of `filling`, over a device in memory whose receipts lend no page. `k0000` is in the oldest page.

use crate::scenes::{Deed, Scene, goes_well};
use engine_harness::filling::{Turn, VALUE};
use engine_harness::reading::Way;
use engine_harness::steps::{Came, Step, Work};

/// A value of which two fit into a page.
const LARGE: [u8; 30_000] = [b'l'; 30_000];

/// Sets 20 other keys in turn, too many for the mutable pages, until one is not set, because the stripe is full.
const FILLS_UP: Deed = Deed::Does(Step::FillsUp(Turn {
    first: 1,
    keys: 20,
    value: &LARGE,
}));

/// While the GET waits, the oldest page is taken out of the log and its place retired, and the stripe is filled anew: the place
/// could not be released. The key for which it was full is set at last, by one place that is released for it.
const FULL: &Scene = &Scene {
    places: 64,
    before: &[Deed::Does(Step::Fills(1, &VALUE)), FILLS_UP],
    get: "GET k0000",
    values: &[&VALUE],
    meanwhile: &[
        Deed::Meets(1),
        Deed::Does(Step::Cleans(2, 2)),
        FILLS_UP,
        Deed::Does(Step::Waits(Work::Flush, Came::Full)),
    ],
    after: &[
        Deed::FindsReleased(0),
        Deed::Does(Step::Sets(&LARGE, true)),
        Deed::FindsReleased(1),
    ],
    end: &VALUE,
};

/// A place whose drain was refused is tried again: the call that meets the stripe full once the reader has left releases it,
/// and is answered.
#[test]
fn a_full_stripe_releases_a_place_once_its_reader_has_left(rt: HostRuntime) {
    assert!(rt; goes_well(&rt, rt.alloc(), Way::Submit, FULL));
}

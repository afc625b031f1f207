//! A GET that reads two cold pages, one after the other, and what the cleaner does while it waits for each: at an engine of one
//! stripe, over a device in memory whose receipts lend no page. A page has 63 of the keys of `filling`. `k0080` is in the
//! second page and `k0167`, of the same bucket, in the third. So a look for `k0080` comes to the third page, and then to the
//! second one.

use crate::scenes::{Deed, Scene, check};
use crate::stores::MANY_PLACES;
use engine_harness::filling::{KEYS, VALUE};
use engine_harness::steps::{EVICTS, FLUSHES, Step};

/// The three oldest pages are cold. While the GET waits for its first page, the oldest one leaves the log and is retired. While it
/// waits for its second one, two more leave and are retired, and no place is drained: each was retired since the GET began its
/// stay. The three places come back then: each is drained, and then released.
const TWO_ROUNDS: &Scene = &Scene {
    places: MANY_PLACES,
    before: &[
        Deed::Does(Step::Fills(KEYS, &VALUE)),
        Deed::Does(FLUSHES),
        Deed::Does(EVICTS),
        Deed::Does(FLUSHES),
        Deed::Does(FLUSHES),
        Deed::Does(EVICTS),
        Deed::Does(EVICTS),
    ],
    get: "GET k0080",
    values: &[&VALUE],
    meanwhile: &[
        Deed::Meets(1),
        Deed::Does(Step::Cleans(2, 2)),
        Deed::LetsGoFirst(1),
        Deed::Meets(2),
        Deed::Does(Step::Cleans(100, 4)),
        Deed::FindsReleased(0),
    ],
    after: &[Deed::Does(Step::Cleans(6, 6)), Deed::FindsReleased(3)],
    end: &VALUE,
};

/// A reader has one stay from its first cold page to its answer: no place that is retired meanwhile is released.
#[test]
fn a_cold_reader_has_one_stay_over_all_its_pages(rt: HostRuntime) {
    check(&rt, rt.alloc(), TWO_ROUNDS);
}

//! Reads of a page that has left its frame, and what other passes do meanwhile: at an engine of one stripe, over a device in
//! memory whose receipts lend no page. The keys of `filling` fill 10 pages; `k0000` is in the oldest one.

use crate::scenes::{Deed, Scene, check};
use crate::stores::MANY_PLACES;
use engine_harness::filling::{KEYS, VALUE};
use engine_harness::steps::{CLEANS, EVICTS, FLUSHES, Step};

/// What `k0000` is set to anew.
const ANEW: [u8; 1000] = [b'w'; 1000];

/// Sets the keys, and makes the oldest page cold.
pub(crate) const CHILLS: &[Deed] = &[
    Deed::Does(Step::Fills(KEYS, &VALUE)),
    Deed::Does(FLUSHES),
    Deed::Does(EVICTS),
];

/// The cleaner is called a hundred times: the page leaves the log, and its place is retired. It is not released while the read is
/// under way. It is once the read is over, in two calls.
const CLEANED: &Scene = &Scene {
    places: MANY_PLACES,
    before: CHILLS,
    get: "GET k0000",
    values: &[&VALUE],
    meanwhile: &[
        Deed::Meets(1),
        Deed::Does(Step::Uses(1)),
        Deed::Does(Step::Cleans(100, 2)),
        Deed::Does(Step::Uses(1)),
    ],
    after: &[
        Deed::FindsReleased(0),
        Deed::Does(CLEANS),
        Deed::Does(Step::Uses(1)),
        Deed::Does(CLEANS),
        Deed::Does(Step::Uses(0)),
        Deed::FindsReleased(1),
        Deed::Does(Step::Has(&VALUE)),
    ],
    end: &VALUE,
};

/// While a cold read is under way, the place of its page is not released. It is once the read is over.
#[test]
fn a_cold_reader_keeps_its_place(rt: HostRuntime) {
    check(&rt, rt.alloc(), CLEANED);
}

/// The key is set anew.
const REWRITTEN: &Scene = &Scene {
    places: MANY_PLACES,
    before: CHILLS,
    get: "GET k0000",
    values: &[&VALUE, &ANEW],
    meanwhile: &[
        Deed::Meets(1),
        Deed::Does(Step::Uses(1)),
        Deed::Does(Step::Fills(1, &ANEW)),
        Deed::Does(Step::Uses(1)),
    ],
    after: &[Deed::FindsReleased(0), Deed::Does(Step::Has(&ANEW))],
    end: &ANEW,
};

#[test]
fn a_cold_key_is_set_anew_meanwhile(rt: HostRuntime) {
    check(&rt, rt.alloc(), REWRITTEN);
}

/// The page is taken out of the log.
const UNLINKED: &Scene = &Scene {
    places: MANY_PLACES,
    before: CHILLS,
    get: "GET k0000",
    values: &[&VALUE],
    meanwhile: &[
        Deed::Meets(1),
        Deed::Does(Step::Uses(1)),
        Deed::Does(CLEANS),
        Deed::Does(Step::Uses(1)),
    ],
    after: &[Deed::FindsReleased(0), Deed::Does(Step::Has(&VALUE))],
    end: &VALUE,
};

#[test]
fn a_cold_page_leaves_the_log_meanwhile(rt: HostRuntime) {
    check(&rt, rt.alloc(), UNLINKED);
}

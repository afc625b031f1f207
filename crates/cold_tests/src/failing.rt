//! A page whose write fails, and a cold key that is tried once: at an engine of one stripe.

use crate::cold::CHILLS;
use crate::scenes::{Deed, Scene, goes_well};
use crate::stores::{MANY_PLACES, steps_at_new};
use engine_harness::filling::{KEYS, VALUE};
use engine_harness::reading::Way;
use engine_harness::steps::{Came, EVICTS, FLUSHES, Step, Work};
use std::alloc::Global;
use std::sync::Wait;

/// Whether it is so of this step of the flusher, which fails: the page takes no place and stays in its frame. At the next step it is
/// written, takes a place, and leaves its frame.
fn goes_on<R: Wait>(rt: &R, alloc: Global, fails: Step) -> bool {
    let steps = [
        Step::Fills(KEYS, &VALUE),
        fails,
        Step::Uses(0),
        Step::Waits(Work::Evict, Came::Nothing),
        Step::Has(&VALUE),
        FLUSHES,
        Step::Uses(1),
        EVICTS,
        Step::Has(&VALUE),
    ];
    steps_at_new(rt, alloc, &[0], &steps) == Some(steps.len())
}

/// The first call of each opening fails.
#[test]
fn a_page_whose_write_fails_is_written_at_the_next_try(rt: HostRuntime) {
    let waits = Step::Waits(Work::Flush, Came::Failed);
    let tries = Step::Tries(Work::Flush, Came::Failed);
    assert!(rt; goes_on(&rt, rt.alloc(), waits), "waiting");
    assert!(rt; goes_on(&rt, rt.alloc(), tries), "trying");
}

/// While one try of a GET waits for its page, that of another key finds the stripe to be another pass's.
const HELD: &Scene = &Scene {
    places: MANY_PLACES,
    before: CHILLS,
    get: "GET k0000",
    values: &[&VALUE],
    meanwhile: &[Deed::Meets(1), Deed::FindsBusy("k0629")],
    after: &[],
    end: &VALUE,
};

#[test]
fn one_try_reads_a_cold_page_while_it_holds_the_stripe(rt: HostRuntime) {
    assert!(rt; goes_well(&rt, rt.alloc(), Way::Try, HELD));
}

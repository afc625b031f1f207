//! A step of the cleaner whose read fails: at an engine of one stripe.

use crate::stores::steps_at_new;
use engine_harness::filling::{KEYS, VALUE};
use engine_harness::steps::{CLEANS, Came, EVICTS, FLUSHES, Step, Work};
use std::alloc::Global;
use std::sync::Wait;

/// Whether it is so of this step of the cleaner, which fails: the page keeps its place, and its values are read. It leaves the log at
/// the next step, and its values are read then.
fn goes_on<R: Wait>(rt: &R, alloc: Global, fails: Step) -> bool {
    let steps = [
        Step::Fills(KEYS, &VALUE),
        FLUSHES,
        EVICTS,
        fails,
        Step::Uses(1),
        Step::Has(&VALUE),
        CLEANS,
        Step::Has(&VALUE),
    ];
    steps_at_new(rt, alloc, &[1], &steps) == Some(steps.len())
}

/// A step of the cleaner whose read fails leaves what it found, and the next one is done. The second call of each opening fails.
#[test]
fn a_page_whose_read_fails_is_cleaned_at_the_next_step(rt: HostRuntime) {
    let waits = Step::Waits(Work::Clean, Came::Failed);
    let tries = Step::Tries(Work::Clean, Came::Failed);
    assert!(rt; goes_on(&rt, rt.alloc(), waits), "waiting");
    assert!(rt; goes_on(&rt, rt.alloc(), tries), "trying");
}

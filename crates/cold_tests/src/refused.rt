//! A cold key that is read where no memory is to be had.

use crate::stores::steps_at_new;
use engine_harness::steps::{EVICTS, FLUSHES, Step};
use std::alloc::Global;
use std::sync::Wait;
use words::word::WORD_INLINE;

/// A value that a word holds without memory.
const SHORT: [u8; WORD_INLINE] = [b'v'; WORD_INLINE];

/// How many keys are set: they fill 8 pages.
const MANY: usize = 10_000;

/// Makes the oldest page cold and reads it once, which may want memory; and then reads it twice more.
const STEPS: &[Step] = &[
    Step::Fills(MANY, &SHORT),
    FLUSHES,
    EVICTS,
    Step::Has(&SHORT),
    Step::Has(&SHORT),
    Step::Has(&SHORT),
];

/// How many of these steps may want memory.
const WARMING: usize = 4;

/// Whether a pass that has read a cold page reads it twice more. `None` where it could not be read before.
fn reads_again<R: Wait>(rt: &R, alloc: Global) -> Option<bool> {
    let done = steps_at_new(rt, alloc, &[], STEPS)?;
    if done < WARMING {
        None
    } else {
        Some(done == STEPS.len())
    }
}

/// Meant for runs in which one allocation is refused (`rt try --test --fail-alloc`): a pass that has read a cold page
/// takes no memory to read it again, so none is refused.
#[test]
fn a_cold_key_is_read_again_without_memory(rt: HostRuntime) {
    let alloc = rt.alloc();
    let again = reads_again(&rt, alloc).or_else(|| reads_again(&rt, alloc));
    assert!(rt; again == Some(true));
}

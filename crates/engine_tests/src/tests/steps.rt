//! The steps of the threads that work in the background, at an engine of one stripe.

ghost use Rattle.std.specs.Prelude.{⊤, ◌≡◌};
ghost use Rattle.engine.specs.Passes.{Rests, stripe_count};

use device::MemoryDevice;
use engine::{Engine, Pass};
use engine_harness::ends::end_pass;
use engine_harness::engines::with_pass;
use engine_harness::filling::{KEYS, Turn, VALUE};
use engine_harness::steps::{Came, Step, Work, steps_done};
use std::alloc::Global;
use std::process::Abort;
use std::sync::Wait;
use words::limits::{FRAMES_MIN, Limits};

/// An engine of one stripe with so many places, and a pass of it.
pub(super) fn with_places(
    rt: &impl Abort,
    alloc: Global,
    places: usize,
) -> (Engine<MemoryDevice>, Pass<MemoryDevice>)
    ensures one { stripe_count result.0 ≡ 1 }
    ensures rests { Rests ⊤ result.0 result.1 }
{
    let limits = Limits::new(1, 64, FRAMES_MIN, places, 1).expect(rt, "limits");
    with_pass(alloc, &limits).expect(rt, "memory for an engine")
}

/// Tests that these steps come to what is due at a new store with so many places.
pub(super) fn check<R: Abort + Wait>(rt: &R, alloc: Global, places: usize, steps: &[Step]) {
    let (engine, mut pass) = with_places(rt, alloc, places);
    let mut full = 0usize;
    let done = steps_done(rt, alloc, &engine, &mut pass, &mut full, steps);
    end_pass(pass);
    engine.end();
    assert!(rt; done == steps.len(), "{done} of these steps");
}

/// One try each, which is done.
const FLUSH: Step = Step::Tries(Work::Flush, Came::Done);

const EVICT: Step = Step::Tries(Work::Evict, Came::Done);

const CLEAN: Step = Step::Tries(Work::Clean, Came::Done);

/// The keys are set, and a place comes back twice: its page is written, leaves its frame and is unlinked, and the place is
/// retired, drained and released.
const COMES_BACK: &[Step] = &[
    Step::Fills(KEYS, &VALUE),
    FLUSH,
    EVICT,
    CLEAN,
    CLEAN,
    CLEAN,
    CLEAN,
    FLUSH,
    EVICT,
    CLEAN,
    CLEAN,
    CLEAN,
    CLEAN,
];

#[test]
fn a_place_comes_back_in_six_tries(rt: HostRuntime) {
    check(&rt, rt.alloc(), 4096, COMES_BACK);
}

/// Tries that find nothing to do.
const NOTHING: &[Step] = &[
    Step::Tries(Work::Flush, Came::Nothing),
    Step::Tries(Work::Evict, Came::Nothing),
    Step::Tries(Work::Clean, Came::Nothing),
    Step::Tries(Work::Clean, Came::Nothing),
    Step::Tries(Work::Clean, Came::Nothing),
    Step::Tries(Work::Clean, Came::Nothing),
];

#[test]
fn nothing_is_done_in_an_empty_store(rt: HostRuntime) {
    check(&rt, rt.alloc(), 4096, NOTHING);
}

/// No place of an empty stripe is used and it is not half used. All 64 are and it is once it is full.
const HALF_USED: &[Step] = &[
    Step::IsHalfUsed(false),
    Step::Uses(0),
    Step::FillsUp(Turn {
        first: 0,
        keys: 10_000,
        value: &VALUE,
    }),
    Step::IsHalfUsed(true),
    Step::Uses(64),
];

#[test]
fn a_full_stripe_is_half_used(rt: HostRuntime) {
    check(&rt, rt.alloc(), 64, HALF_USED);
}

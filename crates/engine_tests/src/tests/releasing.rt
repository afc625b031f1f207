//! A full stripe releases what it can for a call, before the call is answered that it is full.

ghost use Rattle.std.specs.Prelude.{⊤, ◌≡◌};
ghost use Rattle.engine.specs.Passes.{Rests, stripe_count};

use super::Trail;
use super::steps::{check, with_places};
use device::MemoryDevice;
use engine::{Engine, Pass};
use engine_harness::calls::sets_to;
use engine_harness::ends::end_pass;
use engine_harness::exchanges::{is_reply, placed};
use engine_harness::filling::{Turn, VALUE, key_of};
use engine_harness::steps::{CLEANS, Came, FLUSHES, Step, Work, steps_done};
use std::alloc::Global;
use std::process::Abort;
use std::sync::Wait;
use transact::call::Call;
use words::command::{Command, When};
use words::word::Word;

/// How many places the stripe has.
const PLACES: usize = 64;

/// Sets 400 keys in turn, until the stripe is full for one: the oldest pages have no live record then.
const FILLS_UP: Step = Step::FillsUp(Turn {
    first: 0,
    keys: 400,
    value: &VALUE,
});

/// Unlinks a page and retires its place.
const RETIRES: Step = Step::Cleans(2, 2);

/// Whether that key is set to the value.
const REFUSES: Step = Step::Sets(&VALUE, false);

const SETS: Step = Step::Sets(&VALUE, true);

/// All places are in use.
const USES_ALL: Step = Step::Uses(PLACES);

/// The key is set once a place is retired.
const RETIRED_FOR_VALUE: &[Step] = &[FILLS_UP, REFUSES, RETIRES, USES_ALL, SETS];

#[test]
fn a_full_stripe_releases_a_retired_place_for_a_value(rt: HostRuntime) {
    check(&rt, rt.alloc(), PLACES, RETIRED_FOR_VALUE);
}

/// The key is set once a page is unlinked.
const UNLINKED_FOR_VALUE: &[Step] = &[FILLS_UP, CLEANS, SETS];

#[test]
fn a_full_stripe_releases_an_unlinked_place_for_a_value(rt: HostRuntime) {
    check(&rt, rt.alloc(), PLACES, UNLINKED_FOR_VALUE);
}

/// The flusher is told that the stripe is full, and writes its page once a place is retired.
const RETIRED_FOR_PAGE: &[Step] = &[
    FILLS_UP,
    Step::Waits(Work::Flush, Came::Full),
    RETIRES,
    FLUSHES,
    USES_ALL,
];

#[test]
fn the_flusher_releases_a_retired_place_for_its_page(rt: HostRuntime) {
    check(&rt, rt.alloc(), PLACES, RETIRED_FOR_PAGE);
}

/// One try of the flusher is told so, and one writes its page once a page is unlinked.
const UNLINKED_FOR_PAGE: &[Step] = &[
    FILLS_UP,
    Step::Tries(Work::Flush, Came::Full),
    CLEANS,
    Step::Tries(Work::Flush, Came::Done),
];

#[test]
fn one_try_of_the_flusher_releases_an_unlinked_place(rt: HostRuntime) {
    check(&rt, rt.alloc(), PLACES, UNLINKED_FOR_PAGE);
}

/// Whether a SET is done by `Engine::set`, and then by `Engine::submit_with`, and where the latch is told that they are.
fn told_of_both<R: Wait>(
    rt: &R,
    engine: &Engine<MemoryDevice>,
    pass: &mut Pass<MemoryDevice>,
    key: Word,
    value: Word,
) -> (bool, bool, u64)
    requires rests { Rests ⊤ engine.now pass.old }
    ensures rests { Rests ⊤ engine.now pass.new }
{
    let trail = Trail::new();
    let sets = sets_to(rt, engine, pass, &key, &value, &trail);
    let submits = match placed(Command::Set(key, value, When::Always)) {
        Some(command) => is_reply(engine.submit_with(rt, pass, Call::One(command), &trail)),
        None => false,
    };
    let digits = trail.digits();
    drop(trail);
    (sets, submits, digits)
}

/// The same of the key of this number and the value.
fn told_of_key<R: Abort + Wait>(
    rt: &R,
    alloc: Global,
    engine: &Engine<MemoryDevice>,
    pass: &mut Pass<MemoryDevice>,
    number: usize,
) -> (bool, bool, u64)
    requires rests { Rests ⊤ engine.now pass.old }
    ensures rests { Rests ⊤ engine.now pass.new }
{
    let key = key_of(alloc, number).expect(rt, "memory for a key");
    let value = Word::from_slice(alloc, &VALUE).expect(rt, "memory for a value");
    told_of_both(rt, engine, pass, key, value)
}

/// Whether both ways of a SET are told to be at their commit once a place is retired, and not before.
fn holds_once_retired<R: Abort + Wait>(
    rt: &R,
    alloc: Global,
    engine: &Engine<MemoryDevice>,
    pass: &mut Pass<MemoryDevice>,
) -> bool
    requires one { stripe_count engine.now ≡ 1 }
    requires rests { Rests ⊤ engine.now pass.old }
    ensures rests { Rests ⊤ engine.now pass.new }
{
    let mut number = 0usize;
    let filled = steps_done(rt, alloc, engine, pass, &mut number, &[FILLS_UP]);
    let full = told_of_key(rt, alloc, engine, pass, number);
    let retired = steps_done(rt, alloc, engine, pass, &mut number, &[RETIRES]);
    let freed = told_of_key(rt, alloc, engine, pass, number);
    filled == 1 && full == (false, false, 1_313) && retired == 1 && freed == (true, true, 123_123)
}

/// A SET that finds no room is never told to be at its commit. One that releases a place for itself is told so once.
#[test]
fn a_set_holds_only_once_it_has_room(rt: HostRuntime) {
    let (engine, mut pass) = with_places(&rt, rt.alloc(), PLACES);
    assert!(rt; holds_once_retired(&rt, rt.alloc(), &engine, &mut pass));
    end_pass(pass);
    engine.end();
}

//! Three passes at one stripe of 12 frames, while another thread fills pages and makes the steps of the flusher, the evictor and
//! the cleaner.

ghost use Rattle.std.specs.Prelude.{⊤, ◌≡◌, []};
ghost use Rattle.engine.specs.Passes.{knows, Rests, stripe_count};

use crate::counting::{ADD_TO_ONE, ALL_ADDED, counts_of};
use crate::jobs::{Told, Trial, three_work};
use crate::moving::{ALL_MOVED, KEEPS_WHOLE};
use crate::passes::{One, Three, Two, narrow_with_five};
use crate::watched::{ADDS_WATCHED, is_enough};
use device::MemoryDevice;
use engine::{Engine, Pass};
use engine_harness::ends::end_pass;
use engine_harness::filling::{KEYS, VALUE, fill};
use engine_harness::steps::{CLEANS, EVICTS, FLUSHES, Step, steps_done};
use std::alloc::Global;
use std::process::Abort;
use std::sync::Wait;
use std::sync::atomic::{AtomicBool, Ordering};
use std::thread::{Threads, join};

/// How often the keys of `filling` are set at most. Each time they take ten pages.
const ROUNDS: u64 = 300;

/// A step each of the flusher, the evictor and the cleaner.
const THREE_STEPS: &[Step] = &[FLUSHES, EVICTS, CLEANS];

/// Fills pages by one pass and makes three steps of the background by it, and three by another. Whether all was done.
fn fills_and_steps<R: Wait>(
    rt: &R,
    alloc: Global,
    engine: &Engine<MemoryDevice>,
    filler: &mut Pass<MemoryDevice>,
    background: &mut Pass<MemoryDevice>,
) -> bool
    requires one { stripe_count engine.now ≡ 1 }
    requires filler { Rests ⊤ engine.now filler.old }
    requires background { Rests ⊤ engine.now background.old }
    ensures filler { Rests ⊤ engine.now filler.new }
    ensures background { Rests ⊤ engine.now background.new }
{
    let set = fill(rt, alloc, engine, filler, &VALUE, KEYS);
    let own = steps_done(rt, alloc, engine, filler, &mut 0, THREE_STEPS);
    let others = steps_done(rt, alloc, engine, background, &mut 0, THREE_STEPS);
    set == Some(KEYS) && own == 3 && others == 3
}

/// Does so over and over until the others have ended: how often it was done.
fn works_on<R: Wait>(
    rt: &R,
    alloc: Global,
    engine: &Engine<MemoryDevice>,
    filler: &mut Pass<MemoryDevice>,
    background: &mut Pass<MemoryDevice>,
    ended: &AtomicBool,
) -> u64
    requires one { stripe_count engine.now ≡ 1 }
    requires filler { Rests ⊤ engine.now filler.old }
    requires background { Rests ⊤ engine.now background.old }
{
    let mut done = 0u64;
    for _round in 0..ROUNDS {
        if fills_and_steps(rt, alloc, engine, filler, background) {
            done = done.saturating_add(1);
        }
        if ended.load(Ordering::SeqCst) {
            return done;
        }
    }
    done
}

/// The same by passes that are let go then.
fn works_until<R: Wait>(
    rt: &R,
    alloc: Global,
    engine: &Engine<MemoryDevice>,
    filling: One,
    working: One,
    ended: &AtomicBool,
) -> u64
    requires one { stripe_count engine.now ≡ 1 }
    requires filler { Rests ⊤ engine.now filling.pass }
    requires background { Rests ⊤ engine.now working.pass }
{
    let mut filler = filling.into_pass();
    let mut background = working.into_pass();
    let done = works_on(rt, alloc, engine, &mut filler, &mut background, ended);
    end_pass(filler);
    end_pass(background);
    done
}

/// Three passes do their work beside the background: how often that was done, and what came of theirs.
fn work_beside<R: Abort + Threads + Wait + Sync>(
    rt: &R,
    alloc: Global,
    engine: &Engine<MemoryDevice>,
    passes: Three,
    others: Two,
    trial: &Trial,
) -> (u64, (Told, (Told, Told)))
    requires stripes { stripe_count engine.now ≡ 1 }
    requires one { Rests ⊤ engine.now passes.0.pass }
    requires one_nothing { (knows (λ device. 0) passes.0.pass).watched ≡ [] }
    requires two { Rests ⊤ engine.now passes.1.pass }
    requires two_nothing { (knows (λ device. 0) passes.1.pass).watched ≡ [] }
    requires three { Rests ⊤ engine.now passes.2.pass }
    requires three_nothing { (knows (λ device. 0) passes.2.pass).watched ≡ [] }
    requires filler { Rests ⊤ engine.now others.0.pass }
    requires background { Rests ⊤ engine.now others.1.pass }
    ensures one { Rests ⊤ engine.now result.1.0.0 }
    ensures three { Rests ⊤ engine.now result.1.1.1.0 }
{
    let (one, two, three) = passes;
    let (filler, background) = others;
    let ended = AtomicBool::new(false);
    let told = &ended;
    join(
        rt,
        move || -> u64
            requires stripes { stripe_count engine.now ≡ 1 }
            requires filler { Rests ⊤ engine.now filler.pass }
            requires background { Rests ⊤ engine.now background.pass }
        { works_until(rt, alloc, engine, filler, background, told) },
        move || -> (Told, (Told, Told))
            requires one { Rests ⊤ engine.now one.pass }
            requires one_nothing { (knows (λ device. 0) one.pass).watched ≡ [] }
            requires two { Rests ⊤ engine.now two.pass }
            requires two_nothing { (knows (λ device. 0) two.pass).watched ≡ [] }
            requires three { Rests ⊤ engine.now three.pass }
            requires three_nothing { (knows (λ device. 0) three.pass).watched ≡ [] }
            ensures one { Rests ⊤ engine.entry.now result.0.0 }
            ensures three { Rests ⊤ engine.entry.now result.1.1.0 }
        {
            let came = three_work(rt, alloc, engine, (one, two, three), trial);
            told.store(true, Ordering::SeqCst);
            came
        },
    )
}

/// How often each of three passes did its jobs at a new engine beside the background, which worked too, where the first and the third then
/// read what is due. `None` where an answer was not as is due.
fn counts_beside<R: Abort + Threads + Wait + Sync>(
    rt: &R,
    alloc: Global,
    trial: &Trial,
) -> Option<(u64, u64, u64)> {
    let (engine, passes, others) = narrow_with_five(rt, alloc);
    let (done, told) = work_beside(rt, alloc, &engine, passes, others, trial);
    let counts = counts_of(rt, alloc, &engine, told, trial);
    engine.end();
    if done > 0 { counts } else { None }
}

/// Pages are written, leave their frames and are cleaned while two passes add to a number.
#[test]
fn additions_beside_the_background_all_count(rt: HostRuntime) {
    assert!(rt; counts_beside(&rt, rt.alloc(), ADD_TO_ONE) == Some(ALL_ADDED));
}

/// The same while two passes move and a third one reads.
#[test]
fn transfers_beside_the_background_keep_the_whole(rt: HostRuntime) {
    assert!(rt; counts_beside(&rt, rt.alloc(), KEEPS_WHOLE) == Some(ALL_MOVED));
}

/// The same while two passes add to a number that they watch.
#[test]
fn watched_additions_beside_the_background_all_count(rt: HostRuntime) {
    assert!(rt; is_enough(counts_beside(&rt, rt.alloc(), ADDS_WATCHED)));
}

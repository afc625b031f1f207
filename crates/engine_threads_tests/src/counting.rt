//! Three passes of an engine of sixteen stripes that do their work at one time, and what is read in the end.

ghost use Rattle.std.specs.Prelude.{⊤, ◌≡◌, []};
ghost use Rattle.engine.specs.Passes.{knows, Rests};

use crate::jobs::{Job, Told, Trial, Work, three_work};
use crate::passes::{Three, with_three};
use device::MemoryDevice;
use engine::{Engine, Pass};
use engine_harness::calls::is_due;
use engine_harness::ends::end_pass;
use engine_harness::exchanges::Exchange;
use gates::Open;
use std::alloc::Global;
use std::process::Abort;
use std::sync::Wait;
use std::thread::Threads;

/// How often each of two passes adds to a key.
const TIMES: u64 = 1_000;

/// All numbers are missing before.
pub(crate) const NOTHING: Exchange<'static> = Exchange {
    request: "EXISTS a b n z",
    due: ":0",
};

/// A pass that does nothing.
pub(crate) const RESTS: Work = Work {
    jobs: &[],
    times: 0,
};

/// Whether a reading is answered as is due by each of two passes once both have met.
fn both_read<R: Wait>(
    rt: &R,
    alloc: Global,
    engine: &Engine<MemoryDevice>,
    mut first: Pass<MemoryDevice>,
    mut second: Pass<MemoryDevice>,
    reading: Exchange<'_>,
) -> bool
    requires first { Rests ⊤ engine.now first }
    requires second { Rests ⊤ engine.now second }
{
    engine.meet(&mut first, &mut second);
    let by_first = is_due(rt, alloc, &Open, engine, &mut first, reading);
    let by_second = is_due(rt, alloc, &Open, engine, &mut second, reading);
    end_pass(first);
    end_pass(second);
    by_first && by_second
}

/// How often each of three passes did its jobs. `None` where an answer was not as is due.
fn all_of(one: Option<u64>, two: Option<u64>, three: Option<u64>) -> Option<(u64, u64, u64)> {
    Some((one?, two?, three?))
}

/// The answer of a reading that is `$` and how often all jobs were done.
fn sum_text(rt: &impl Abort, alloc: Global, counts: (u64, u64, u64)) -> String {
    let sum = counts.0.saturating_add(counts.1).saturating_add(counts.2);
    format!(in alloc; "${sum}").expect(rt, "memory for a text")
}

/// How often each of three passes did its jobs, where the first and the third then read what is due. `None` where an answer was not
/// as is due.
pub(crate) fn counts_of<R: Abort + Wait>(
    rt: &R,
    alloc: Global,
    engine: &Engine<MemoryDevice>,
    told: (Told, (Told, Told)),
    trial: &Trial,
) -> Option<(u64, u64, u64)>
    requires one { Rests ⊤ engine.now told.0.0 }
    requires three { Rests ⊤ engine.now told.1.1.0 }
{
    let ((first, one), ((second, two), (third, three))) = told;
    end_pass(second);
    let counts = all_of(one, two, three);
    let text = sum_text(rt, alloc, counts.unwrap_or((0, 0, 0)));
    let reading = Exchange {
        request: trial.reading,
        due: trial.due.unwrap_or(text.as_str()),
    };
    let is_read = both_read(rt, alloc, engine, first, third, reading);
    drop(text);
    if is_read { counts } else { None }
}

/// The same of a new engine.
pub(crate) fn counts_at_new<R: Abort + Threads + Wait + Sync>(
    rt: &R,
    alloc: Global,
    trial: &Trial,
) -> Option<(u64, u64, u64)> {
    let (engine, passes) = with_three(rt, alloc);
    let told = three_work(rt, alloc, &engine, passes, trial);
    let counts = counts_of(rt, alloc, &engine, told, trial);
    engine.end();
    counts
}

/// A pass that adds to one key.
const ADDS: Work = Work {
    jobs: &[Job::Asks("INCR n")],
    times: TIMES,
};

/// Two passes add to one key.
pub(crate) const ADD_TO_ONE: &Trial = &Trial {
    before: NOTHING,
    one: ADDS,
    two: RESTS,
    three: ADDS,
    reading: "MGET n",
    due: None,
};

/// How often each is done then.
pub(crate) const ALL_ADDED: (u64, u64, u64) = (TIMES, 0, TIMES);

#[test]
fn two_threads_add_to_one_key(rt: HostRuntime) {
    assert!(rt; counts_at_new(&rt, rt.alloc(), ADD_TO_ONE) == Some(ALL_ADDED));
}

/// A pass that adds to several keys.
const ADDS_TO_FOUR: Work = Work {
    jobs: &[
        Job::Asks("INCR a"),
        Job::Asks("INCR b"),
        Job::Asks("INCR n"),
        Job::Asks("INCR z"),
    ],
    times: TIMES,
};

/// Two passes add to several keys.
const ADD_TO_FOUR: &Trial = &Trial {
    before: NOTHING,
    one: ADDS_TO_FOUR,
    two: RESTS,
    three: ADDS_TO_FOUR,
    reading: "MGET a b n z",
    due: Some("$2000 $2000 $2000 $2000"),
};

#[test]
fn two_threads_add_to_several_keys(rt: HostRuntime) {
    let counts = counts_at_new(&rt, rt.alloc(), ADD_TO_FOUR);
    assert!(rt; counts == Some((4 * TIMES, 0, 4 * TIMES)));
}

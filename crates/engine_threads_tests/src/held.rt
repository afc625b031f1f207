//! A call that is held up at each point, and what another pass is answered meanwhile.

ghost use Rattle.std.specs.Prelude.{⊤};
ghost use Rattle.engine.specs.Passes.{Rests};

use crate::holds::Holds;
use crate::passes::{One, with_two};
use device::MemoryDevice;
use engine::{Engine, Pass};
use engine_harness::calls::{is_due, lines_are_due};
use engine_harness::ends::{Kept, end_pass};
use engine_harness::exchanges::Exchange;
use engine_harness::trying::{is_answered, is_busy};
use gates::Point;
use std::alloc::Global;
use std::process::Abort;
use std::sync::Wait;
use std::thread::{Threads, join};
use std::time::Clock;

/// What another pass does while a call is held up.
#[derive(Clone, Copy)]
pub(crate) enum Meanwhile {
    /// It is answered these lines.
    Asks(&'static str),
    /// It tries a call of the key `a`, which is handed back, and one of the key `b`, which is answered.
    TriesBoth,
}

/// A point at which the SET of the key `a` to `value` is held up, and what another pass is answered. The keys `a` and `b` are of
/// stripes 12 and 5.
#[derive(Clone, Copy)]
pub(crate) struct Held {
    pub(crate) point: Point,
    pub(crate) meanwhile: Meanwhile,
    /// Once the call may go on.
    pub(crate) then: &'static str,
    /// Once it is answered.
    pub(crate) end: &'static str,
}

/// Whether the call that is held up is answered as is due.
fn is_answered_late<R: Wait + Clock>(
    rt: &R,
    alloc: Global,
    latch: &Holds<'_, R>,
    engine: &Engine<MemoryDevice>,
    one: One,
) -> bool
    requires { Rests ⊤ engine.now one.pass }
{
    let mut pass = one.into_pass();
    let request = "SET a value";
    let due = "+OK";
    let exchange = Exchange { request, due };
    let is_due = is_due(rt, alloc, latch, engine, &mut pass, exchange);
    end_pass(pass);
    is_due
}

/// Whether one try of the key `a` finds its stripe to be another pass's, and is handed back, and one of the key `b` is answered.
fn tries_both(alloc: Global, engine: &Engine<MemoryDevice>, pass: &mut Pass<MemoryDevice>) -> bool
    requires { Rests ⊤ engine.now pass.old }
    ensures { Rests ⊤ engine.now pass.new }
{
    let busy = is_busy(alloc, engine, pass, "a", 12);
    let request = "GET b";
    let due = "null";
    let answered = is_answered(alloc, engine, pass, Exchange { request, due });
    busy && answered
}

impl Meanwhile {
    /// Whether it is so.
    fn is_so<R: Wait>(
        self,
        rt: &R,
        alloc: Global,
        engine: &Engine<MemoryDevice>,
        pass: &mut Pass<MemoryDevice>,
    ) -> bool
        requires { Rests ⊤ engine.now pass.old }
        ensures { Rests ⊤ engine.now pass.new }
    {
        match self {
            Meanwhile::Asks(lines) => lines_are_due(rt, alloc, engine, pass, lines),
            Meanwhile::TriesBoth => tries_both(alloc, engine, pass),
        }
    }
}

/// Whether another pass is answered as is due once the call is held up, and then once it may go on.
fn is_answered_meanwhile<R: Wait + Clock>(
    rt: &R,
    alloc: Global,
    latch: &Holds<'_, R>,
    engine: &Engine<MemoryDevice>,
    two: One,
    held: Held,
) -> (Pass<MemoryDevice>, bool)
    requires { Rests ⊤ engine.now two.pass }
    ensures { Rests ⊤ engine.now result.0 }
{
    let mut pass = two.into_pass();
    let came = latch.meets_call();
    let meanwhile = held.meanwhile.is_so(rt, alloc, engine, &mut pass);
    latch.let_go();
    let then = lines_are_due(rt, alloc, engine, &mut pass, held.then);
    (pass, came && meanwhile && then)
}

/// Whether another pass is answered while the call is held up, and the call then, and the other pass in the end.
fn both_are_answered<R: Threads + Wait + Clock + Sync>(
    rt: &R,
    alloc: Global,
    engine: &Engine<MemoryDevice>,
    one: Pass<MemoryDevice>,
    two: Pass<MemoryDevice>,
    held: Held,
) -> bool
    requires one { Rests ⊤ engine.now one }
    requires two { Rests ⊤ engine.now two }
{
    let latch = Holds::new(rt, held.point);
    let point = &latch;
    let (one, two) = (Kept { pass: one }, Kept { pass: two });
    let (late, (mut pass, meanwhile)) = join(
        rt,
        move || -> bool
            requires { Rests ⊤ engine.now one.pass }
        { is_answered_late(rt, alloc, point, engine, one) },
        move || -> (Pass<MemoryDevice>, bool)
            requires { Rests ⊤ engine.now two.pass }
            ensures { Rests ⊤ engine.entry.now result.0 }
        { is_answered_meanwhile(rt, alloc, point, engine, two, held) },
    );
    let ends = lines_are_due(rt, alloc, engine, &mut pass, held.end);
    let in_time = latch.is_in_time();
    end_pass(pass);
    drop(latch);
    late && meanwhile && ends && in_time
}

/// Whether it is so of a new engine.
pub(crate) fn goes_on_beside<R: Abort + Threads + Wait + Clock + Sync>(
    rt: &R,
    alloc: Global,
    held: Held,
) -> bool {
    let (engine, one, two) = with_two(rt, alloc);
    let goes_on = both_are_answered(rt, alloc, &engine, one, two, held);
    engine.end();
    goes_on
}

/// At the first and the last point nothing is held: the other pass writes the same key.
const ALL: &[Held] = &[
    Held {
        point: Point::Before,
        meanwhile: Meanwhile::Asks("SET a other -> +OK\nGET a -> $other"),
        then: "GET b -> null",
        end: "GET a -> $value",
    },
    Held {
        point: Point::Holding,
        meanwhile: Meanwhile::Asks("SET b other -> +OK\nGET b -> $other"),
        then: "GET b -> $other",
        end: "GET a -> $value",
    },
    Held {
        point: Point::After,
        meanwhile: Meanwhile::Asks("SET a other -> +OK\nGET a -> $other"),
        then: "GET a -> $other",
        end: "GET a -> $other",
    },
];

#[test]
fn a_call_that_is_held_at_each_point_does_not_stop_another(rt: HostRuntime) {
    for held in ALL {
        assert!(rt; goes_on_beside(&rt, rt.alloc(), *held), "{}", held.then);
    }
}

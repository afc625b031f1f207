//! Calls that do not wait.

ghost use Rattle.std.specs.Prelude.{⊤};
ghost use Rattle.engine.specs.Passes.{Rests};

use device::MemoryDevice;
use engine::{Engine, Pass};
use engine_harness::ends::end_pass;
use engine_harness::engines::with_pass;
use engine_harness::exchanges::exchange_of;
use engine_harness::trying::is_answered;
use std::alloc::Global;
use std::process::Abort;
use words::limits::Limits;

/// Whether the line of a request, ` -> ` and what is due is so where the request is tried.
fn line_is_answered(
    alloc: Global,
    engine: &Engine<MemoryDevice>,
    pass: &mut Pass<MemoryDevice>,
    line: &str,
) -> bool
    requires rests { Rests ⊤ engine.now pass.old }
    ensures rests { Rests ⊤ engine.now pass.new }
{
    match exchange_of(line) {
        Some(exchange) => is_answered(alloc, engine, pass, exchange),
        None => false,
    }
}

/// Tries the requests of some lines, one after the other.
fn lines_are_answered<R: Abort>(
    rt: &R,
    alloc: Global,
    engine: &Engine<MemoryDevice>,
    pass: &mut Pass<MemoryDevice>,
    lines: &str,
)
    requires rests { Rests ⊤ engine.now pass.old }
{
    for line in lines.split('\n') {
        assert!(rt; line_is_answered(alloc, engine, pass, line), "{line}");
    }
}

/// Tries them at a new engine.
fn all_are_answered<R: Abort>(rt: &R, alloc: Global, lines: &str) {
    let limits = Limits::default();
    let (engine, mut pass) = with_pass(alloc, &limits).expect(rt, "memory for an engine");
    lines_are_answered(rt, alloc, &engine, &mut pass, lines);
    end_pass(pass);
    engine.end();
}

#[test]
fn calls_that_are_tried_are_answered_as_those_that_wait(rt: HostRuntime) {
    let lines = "GET m -> null\n\
        SET m v XX -> null\n\
        SETRANGE k 5 Hi -> :7\n\
        GET k -> $\0\0\0\0\0Hi\n\
        SETRANGE j 3  -> :0\n\
        EXISTS j -> :0\n\
        SET n 9223372036854775807 -> +OK\n\
        INCR n -> -ERR increment or decrement would overflow\n\
        GET n -> $9223372036854775807\n\
        SET a 1 -> +OK\n\
        DEL a a -> :1\n\
        SET b 1 -> +OK\n\
        EXISTS b b -> :2\n\
        SET k Hello -> +OK\n\
        GETRANGE k 1 -2 -> $ell\n\
        GETRANGE k 0 -6 -> $\n\
        GETRANGE k -100 100 -> $Hello\n\
        MSET a 1 a 2 -> +OK\n\
        MGET a z -> $2 null\n\
        MSETNX a 3 y 4 -> :0\n\
        EXISTS y -> :0";
    all_are_answered(&rt, rt.alloc(), lines);
}

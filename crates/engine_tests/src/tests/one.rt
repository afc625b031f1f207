//! Commands of one key, each on a key that is there and on one that is not.

use engine_harness::calls::lines_are_due;
use engine_harness::ends::end_pass;
use engine_harness::engines::with_pass;
use std::alloc::Global;
use std::process::Abort;
use std::sync::Wait;
use words::limits::Limits;

/// Whether the requests of these lines are answered as is due at a new engine.
fn are_due_in_turn<R: Abort + Wait>(rt: &R, alloc: Global, lines: &str) -> bool {
    let limits = Limits::default();
    let (engine, mut pass) = with_pass(alloc, &limits).expect(rt, "memory for an engine");
    let due = lines_are_due(rt, alloc, &engine, &mut pass, lines);
    end_pass(pass);
    engine.end();
    due
}

/// The value is shorter than the one before it, as long, longer, empty and missing.
#[test]
fn commands_of_one_key_are_answered_on_what_it_has(rt: HostRuntime) {
    let lines = "STRLEN k -> :0\n\
        EXISTS k -> :0\n\
        DEL k -> :0\n\
        GETDEL k -> null\n\
        GETSET k first -> null\n\
        GETSET k last -> $first\n\
        GETSET k other -> $last\n\
        GETSET k a-longer-one -> $other\n\
        STRLEN k -> :12\n\
        SETNX k x -> :0\n\
        EXISTS k -> :1\n\
        APPEND k , -> :13\n\
        APPEND k  -> :13\n\
        GETSET k  -> $a-longer-one,\n\
        STRLEN k -> :0\n\
        EXISTS k -> :1\n\
        APPEND k 41 -> :2\n\
        INCR k -> :42\n\
        DECRBY k 50 -> :-8\n\
        GETDEL k -> $-8\n\
        EXISTS k -> :0\n\
        SETNX k text -> :1\n\
        INCR k -> -ERR value is not an integer or out of range\n\
        DEL k -> :1\n\
        DEL k -> :0\n\
        APPEND k x -> :1\n\
        GETDEL k -> $x\n\
        INCRBY k 9223372036854775807 -> :9223372036854775807\n\
        INCR k -> -ERR increment or decrement would overflow\n\
        STRLEN k -> :19";
    assert!(rt; are_due_in_turn(&rt, rt.alloc(), lines));
}

/// The key is missing, there, deleted where its record stands in place, and there again. The value is as long as the one before it,
/// longer, shorter and empty.
#[test]
fn a_set_under_a_condition_goes_by_what_its_key_has(rt: HostRuntime) {
    let lines = "SET k first XX -> null\n\
        EXISTS k -> :0\n\
        SET k first NX -> +OK\n\
        GET k -> $first\n\
        SET k other NX -> null\n\
        GET k -> $first\n\
        SET k third XX -> +OK\n\
        GET k -> $third\n\
        SET k a-value-that-is-longer-than-the-room-of-the-one-before XX -> +OK\n\
        GET k -> $a-value-that-is-longer-than-the-room-of-the-one-before\n\
        SET k  XX -> +OK\n\
        GET k -> $\n\
        SET k x NX -> null\n\
        STRLEN k -> :0\n\
        SET k a-value-that-has-room-once-more XX -> +OK\n\
        SET other x NX -> +OK\n\
        GET k -> $a-value-that-has-room-once-more\n\
        DEL k -> :1\n\
        SET k y XX -> null\n\
        EXISTS k -> :0\n\
        SET k y NX -> +OK\n\
        GET k -> $y\n\
        GET other -> $x\n\
        SET  empty NX -> +OK\n\
        SET  key XX -> +OK\n\
        GET  -> $key";
    assert!(rt; are_due_in_turn(&rt, rt.alloc(), lines));
}

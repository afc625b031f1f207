//! Commands that the server runs without a plan: what they answer, and that a write of theirs ends a watch and nothing else does.

use crate::requests::{add_reply, add_request};
use crate::talks::{Source, run};
use connection::Ended;
use std::alloc::Global;
use std::process::Abort;
use std::sync::Wait;

/// A command, its reply, and the reply to the EXEC of a transaction whose session watched the keys `a`, `n` and `z`.
type Row = (&'static str, &'static str, &'static str);

/// What the EXEC is answered that asks whether the key `n` is there.
const DONE: &str = "*1,:1";

/// What it is answered where a watched key was written.
const NULL: &str = "*-1";

/// Where `a` has the value `x`, `n` has 1, and `z` is missing.
const ROWS: &[Row] = &[
    ("GET a", "$1,x", DONE),
    ("SET z v", "+OK", NULL),
    ("INCR n", ":2", NULL),
    ("DECR z", ":-1", NULL),
    ("INCRBY n 5", ":6", NULL),
    ("DECRBY n 2", ":-1", NULL),
    (
        "INCR a",
        "-ERR value is not an integer or out of range",
        DONE,
    ),
    ("SETNX z v", ":1", NULL),
    ("SETNX a v", ":0", DONE),
    ("GETSET a v", "$1,x", NULL),
    ("GETSET z v", "$-1", NULL),
    ("APPEND a v", ":2", NULL),
    ("APPEND z v", ":1", NULL),
    ("GETDEL a", "$1,x", NULL),
    ("GETDEL z", "$-1", DONE),
    ("STRLEN a", ":1", DONE),
    ("STRLEN z", ":0", DONE),
    ("EXISTS a", ":1", DONE),
    ("EXISTS z", ":0", DONE),
    ("DEL a", ":1", NULL),
    ("DEL z", ":0", DONE),
    ("MGET a z", "*2,$1,x,$-1", DONE),
    ("MSET y v a v", "+OK", NULL),
    ("MSET y v x w", "+OK", DONE),
];

/// Asserts that a command is answered so, and the transaction after it.
fn check<R: Abort + Wait>(rt: &R, alloc: Global, row: Row) {
    let (command, reply, last) = row;
    let mut input = Vec::new(alloc);
    let mut due = Vec::new(alloc);
    for (request, reply) in [
        ("SET a x", "+OK"),
        ("SET n 1", "+OK"),
        ("WATCH a n z", "+OK"),
        (command, reply),
        ("MULTI", "+OK"),
        ("EXISTS n", "+QUEUED"),
        ("EXEC", last),
    ] {
        add_request(alloc, &mut input, request, 0).expect(rt, "memory for a text");
        add_reply(alloc, &mut due, reply, 0).expect(rt, "memory for a text");
    }
    let outcome = run(rt, alloc, Source::new(&input));
    assert!(rt; outcome.is(&due, Ended::EndOfInput), "{command}");
    drop(outcome);
    drop(due);
    drop(input);
}

#[test]
fn a_write_ends_a_watch(rt: HostRuntime) {
    for row in ROWS {
        check(&rt, rt.alloc(), *row);
    }
}

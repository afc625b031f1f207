//! A transaction whose watched key another pass wrote, or not: by two passes in turn.

ghost use Rattle.std.specs.Prelude.{◌≡◌, [], ⊤};
ghost use Rattle.engine.specs.Passes.{knows, Rests};

use crate::passes::with_two;
use crate::watched::{Exec, runs_watched, watches};
use device::MemoryDevice;
use engine::{Engine, Pass};
use engine_harness::calls::lines_are_due;
use engine_harness::ends::end_pass;
use std::alloc::Global;
use std::process::Abort;
use std::sync::Wait;
use words::history::Commands;

/// What another pass is answered before a pass watches the key `k`, and then; and how the transaction of the pass that watches it
/// is answered.
struct Row {
    before: &'static str,
    then: &'static str,
    exec: Exec,
}

/// How a transaction of no commands is answered by the first pass, which watches the key meanwhile. `None` where a call is not
/// answered as is due.
fn exec_after<R: Abort + Wait>(
    rt: &R,
    alloc: Global,
    engine: &Engine<MemoryDevice>,
    first: &mut Pass<MemoryDevice>,
    second: &mut Pass<MemoryDevice>,
    row: &Row,
) -> Option<Exec>
    requires first { Rests ⊤ engine.now first.old }
    requires second { Rests ⊤ engine.now second.old }
    requires nothing { (knows (λ device. 0) first.old).watched ≡ [] }
{
    let key = b"k".as_slice();
    let before = lines_are_due(rt, alloc, engine, second, row.before);
    let watches = watches(rt, alloc, engine, first, key);
    let then = lines_are_due(rt, alloc, engine, second, row.then);
    engine.meet(first, second);
    let are_due = before && then;
    if watches && are_due {
        let commands = Commands::from_vec(Vec::new(alloc));
        runs_watched(rt, alloc, engine, first, key, commands)
    } else {
        None
    }
}

/// Tests that it goes by a row at a new engine.
fn check<R: Abort + Wait>(rt: &R, alloc: Global, row: &Row) {
    let (engine, mut first, mut second) = with_two(rt, alloc);
    let exec = exec_after(rt, alloc, &engine, &mut first, &mut second, row);
    end_pass(first);
    end_pass(second);
    engine.end();
    assert!(rt; exec == Some(row.exec), "{} {}", row.before, row.then);
}

/// The key is written.
const WRITTEN: &Row = &Row {
    before: "EXISTS k -> :0",
    then: "SET k value -> +OK",
    exec: Exec::Null,
};

#[test]
fn exec_is_null_where_another_pass_wrote_the_watched_key(rt: HostRuntime) {
    check(&rt, rt.alloc(), WRITTEN);
}

/// What a RENAME is answered after SET of a key. It may write the key `k`, or not.
const RENAMES: &[Row] = &[
    Row {
        before: "SET k value -> +OK",
        then: "RENAME k j -> +OK",
        exec: Exec::Null,
    },
    Row {
        before: "SET j value -> +OK",
        then: "RENAME j k -> +OK",
        exec: Exec::Null,
    },
    Row {
        before: "SET k value -> +OK",
        then: "RENAME k k -> +OK",
        exec: Exec::Ran,
    },
    Row {
        before: "SET j value -> +OK",
        then: "RENAME k j -> -ERR no such key",
        exec: Exec::Ran,
    },
    Row {
        before: "SET k value -> +OK",
        then: "RENAME j k -> -ERR no such key",
        exec: Exec::Ran,
    },
    Row {
        before: "SET j value -> +OK",
        then: "RENAME j i -> +OK",
        exec: Exec::Ran,
    },
];

#[test]
fn exec_goes_by_what_another_pass_renamed(rt: HostRuntime) {
    for row in RENAMES {
        check(&rt, rt.alloc(), row);
    }
}

/// What a SET under a condition is answered. It writes the key `k`, where the condition is met.
const SETS: &[Row] = &[
    Row {
        before: "EXISTS k -> :0",
        then: "SET k value NX -> +OK",
        exec: Exec::Null,
    },
    Row {
        before: "SET k value -> +OK",
        then: "SET k other XX -> +OK",
        exec: Exec::Null,
    },
    Row {
        before: "SET k value -> +OK",
        then: "SET k a-value-that-is-longer-than-the-room-of-the-one-before XX -> +OK",
        exec: Exec::Null,
    },
    Row {
        before: "SET k value -> +OK",
        then: "SET k other NX -> null",
        exec: Exec::Ran,
    },
    Row {
        before: "EXISTS k -> :0",
        then: "SET k value XX -> null",
        exec: Exec::Ran,
    },
];

#[test]
fn exec_goes_by_whether_another_pass_set_the_watched_key_under_a_condition(rt: HostRuntime) {
    for row in SETS {
        check(&rt, rt.alloc(), row);
    }
}

/// The key is missing, and deleted.
const DELETED: &Row = &Row {
    before: "EXISTS k -> :0",
    then: "DEL k -> :0",
    exec: Exec::Ran,
};

#[test]
fn exec_is_run_where_another_pass_deleted_the_watched_key_that_was_missing(rt: HostRuntime) {
    check(&rt, rt.alloc(), DELETED);
}

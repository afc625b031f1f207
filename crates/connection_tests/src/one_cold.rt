//! Commands of one key whose record has left its frame, over a device whose receipts lend no page.

use crate::failing::failing;
use crate::keys::{repeated, sets};
use crate::sizes::{Row, replies, requests};
use crate::talks::{Source, engine_over, talk, wide};
use connection::Ended;
use std::alloc::Global;
use std::process::Abort;

/// How many bytes a value has that stands for the longest.
const LONGEST: usize = 32_768;

/// How many keys are set after the first ones. They take 16 pages, of which 12 have frames.
const KEYS: u32 = 1_000;

/// What is set first, and lies in the oldest pages.
const FIRST: &[Row] = &[
    ("SET incr 41", "+OK"),
    ("SET decr -41", "+OK"),
    ("SET most 9223372036854775807", "+OK"),
    ("SET append text", "+OK"),
    ("SET nothing text", "+OK"),
    ("SET set old", "+OK"),
    ("SET kept old", "+OK"),
    ("SET taken old", "+OK"),
    ("SET length 12345", "+OK"),
    ("SET there ", "+OK"),
    ("SET gone old", "+OK"),
    ("SET left 1", "+OK"),
    ("SET read old", "+OK"),
    ("SET large #", "+OK"),
    ("SET long #", "+OK"),
    ("SET longer #", "+OK"),
];

/// What is asked of these keys and of one that is missing, once each is cold, and then again.
const ASKED: &[Row] = &[
    ("INCR incr", ":42"),
    ("INCR incr", ":43"),
    ("GET incr", "$2,43"),
    ("DECRBY decr 59", ":-100"),
    ("GET decr", "$4,-100"),
    ("INCR most", "-ERR increment or decrement would overflow"),
    ("GET most", "$19,9223372036854775807"),
    (
        "INCR append",
        "-ERR value is not an integer or out of range",
    ),
    ("APPEND append -and-more", ":13"),
    ("GET append", "$13,text-and-more"),
    ("APPEND nothing ", ":4"),
    ("GET nothing", "$4,text"),
    ("GETSET set new", "$3,old"),
    ("GETSET set ", "$3,new"),
    ("STRLEN set", ":0"),
    ("SETNX kept new", ":0"),
    ("GET kept", "$3,old"),
    ("GETDEL taken", "$3,old"),
    ("GETDEL taken", "$-1"),
    ("SETNX taken new", ":1"),
    ("GET taken", "$3,new"),
    ("STRLEN length", ":5"),
    ("STRLEN length", ":5"),
    ("EXISTS there", ":1"),
    ("STRLEN there", ":0"),
    ("DEL gone", ":1"),
    ("EXISTS gone", ":0"),
    ("DEL gone", ":0"),
    ("APPEND gone x", ":1"),
    ("APPEND large x", "-ERR string is too long"),
    ("STRLEN large", ":#"),
    ("APPEND large ", ":#"),
    ("GETSET long 7", "$#"),
    ("INCR long", ":8"),
    ("GETDEL longer", "$#"),
    ("STRLEN missing", ":0"),
    ("EXISTS missing", ":0"),
    ("DEL missing", ":0"),
    ("GETDEL missing", "$-1"),
    ("DECRBY missing -7", ":7"),
    ("MULTI", "+OK"),
    ("INCR left", "+QUEUED"),
    ("APPEND left 0", "+QUEUED"),
    ("GETDEL left", "+QUEUED"),
    ("EXEC", "*3,:2,:2,$2,20"),
    ("EXISTS left longer", ":0"),
    ("WATCH read", "+OK"),
    ("MULTI", "+OK"),
    ("GET read", "+QUEUED"),
    ("GET missing", "+QUEUED"),
    ("GET large", "+QUEUED"),
    ("EXEC", "*3,$3,old,$1,7,$#"),
    ("SET read new", "+OK"),
    ("MULTI", "+OK"),
    ("GET read", "+QUEUED"),
    ("EXEC", "*1,$3,new"),
    ("GET gone", "$1,x"),
];

/// The first keys, and then those that take their frames.
fn before(rt: &impl Abort, alloc: Global) -> Vec<u8> {
    let first = requests(rt, alloc, FIRST, LONGEST);
    let more = sets(rt, alloc, KEYS);
    let answer = repeated(alloc, &first, 1, &more).expect(rt, "memory for a text");
    drop(more);
    drop(first);
    answer
}

/// What is said to that.
fn stored(rt: &impl Abort, alloc: Global) -> Vec<u8> {
    let more = repeated(alloc, b"+OK\r\n", KEYS, b"").expect(rt, "memory for a text");
    let answer = repeated(alloc, &replies(rt, alloc, FIRST, LONGEST), 1, &more).expect(
        rt,
        "memory for a text",
    );
    drop(more);
    answer
}

#[test]
fn commands_of_one_key_that_is_cold(rt: HostRuntime) {
    let (alloc, limits) = (rt.alloc(), wide());
    let (input, asked) = (before(&rt, alloc), requests(&rt, alloc, ASKED, LONGEST));
    // No call of the device has such a number, so none fails.
    let openings = failing(alloc, &limits, u64::MAX).expect(&rt, "memory for a device");
    let (engine, first, second) = engine_over(alloc, &limits, openings).expect(
        &rt,
        "memory for an engine",
    );
    let (first, told) = talk(&rt, alloc, Source::new(&input), &engine, first);
    told.check(&rt, &stored(&rt, alloc), Ended::EndOfInput);
    let (second, told) = talk(&rt, alloc, Source::new(&asked), &engine, second);
    told.check(&rt, &replies(&rt, alloc, ASKED, LONGEST), Ended::EndOfInput);
    drop(second);
    drop(first);
    drop(engine);
    drop(asked);
    drop(input);
}

//! A store that is full of values: what fits where it lies is still done, what wants a page is told so and changes nothing, and
//! deletions have a page of their own.

use crate::keys::{add_set, repeated, sets};
use crate::sizes::{Row, replies, requests};
use crate::talks::{Source, run};
use connection::Ended;
use std::alloc::Global;
use std::process::Abort;

/// How many keys of 1,000 bytes are set first: 53 of them lie in the tail page.
const KEYS: u32 = 4_400;

/// Then these keys, beside which the tail page has room for ten further ones, and for 104 bytes.
const SMALL: &[Row] = &[
    ("SET n 41", "+OK"),
    ("SET t text", "+OK"),
    ("SET g old", "+OK"),
    ("SET pad #", "+OK"),
];

/// How long the value of `pad` is.
const PAD: usize = 256;

/// How many of the last keys are set.
const ROOM: u32 = 10;

/// How many are not.
const REFUSED: u32 = 5;

const OK: &[u8] = b"+OK\r\n";

const STORE_FULL: &[u8] = b"-FULL store is full\r\n";

/// What is asked of the store that is full.
const ASKED: &[Row] = &[
    // Two short values have room in the tail page. They leave 24 bytes.
    ("SET fits 1", "+OK"),
    ("SETNX last 2", ":1"),
    ("MGET fits last", "*2,$1,1,$1,2"),
    // What wants a page is told so, and nothing of it is done.
    ("SET new v", "-FULL store is full"),
    ("SET new v NX", "-FULL store is full"),
    ("SETNX new v", "-FULL store is full"),
    ("GETSET new v", "-FULL store is full"),
    ("APPEND new v", "-FULL store is full"),
    ("INCR new", "-FULL store is full"),
    ("MSET new v newer w", "-FULL store is full"),
    ("MSETNX new v newer w", "-FULL store is full"),
    ("SETRANGE new 1 v", "-FULL store is full"),
    ("MULTI", "+OK"),
    ("GET n", "+QUEUED"),
    ("SET new v", "+QUEUED"),
    ("EXEC", "-FULL store is full"),
    ("EXISTS new newer", ":0"),
    ("APPEND t #", "-FULL store is full"),
    ("GET t", "$4,text"),
    ("GETSET g #", "-FULL store is full"),
    ("SET g # XX", "-FULL store is full"),
    ("GET g", "$3,old"),
    ("APPEND 1000 x", "-FULL store is full"),
    ("STRLEN 1000", ":1000"),
    // What fits over what the key has is done.
    ("INCR n", ":42"),
    ("INCRBY n 57", ":99"),
    ("INCR n", ":100"),
    ("DECRBY n 110", ":-10"),
    ("APPEND t ,more", ":9"),
    ("SET g six XX", "+OK"),
    ("GETSET g new", "$3,six"),
    ("MGET n g", "*2,$3,-10,$3,new"),
    // So is a transaction of nothing else.
    ("MULTI", "+OK"),
    ("INCRBY n 5", "+QUEUED"),
    ("GETSET g two", "+QUEUED"),
    ("DECRBY n 5", "+QUEUED"),
    ("SET g new", "+QUEUED"),
    ("GET g", "+QUEUED"),
    ("EXEC", "*5,:-5,$3,new,:-10,+OK,$3,new"),
    // So is what writes nothing.
    ("SETNX g x", ":0"),
    ("SET g x NX", "$-1"),
    ("SET new x XX", "$-1"),
    ("INCR g", "-ERR value is not an integer or out of range"),
    ("STRLEN t", ":9"),
    ("EXISTS t 1000 5409", ":3"),
    ("DEL new", ":0"),
    ("GETDEL new", "$-1"),
    ("GET pad", "$#"),
];

/// Deletions, over what the key has and in a page that is theirs. What wants a page stays refused, and a key that was deleted
/// where its value lay gets another one there.
const DELETED: &[Row] = &[
    ("DEL n", ":1"),
    ("GETDEL g", "$3,new"),
    ("EXISTS n g", ":0"),
    ("SET g new", "-FULL store is full"),
    ("DEL 1000", ":1"),
    ("DEL 1000", ":0"),
    ("DEL 1001 1002 1000 1001", ":2"),
    ("EXISTS 1000 1001 1002 1003", ":1"),
    ("SET new v", "-FULL store is full"),
    ("MULTI", "+OK"),
    ("DEL 1003", "+QUEUED"),
    ("GETDEL pad", "+QUEUED"),
    ("EXEC", "*2,:1,$#"),
    ("INCR n", ":1"),
    ("APPEND t !", ":10"),
    ("EXISTS 1003 pad n t", ":2"),
];

/// All keys are set, and then this is asked.
fn input(rt: &impl Abort, alloc: Global) -> Vec<u8> {
    let mut all = sets(rt, alloc, KEYS);
    let small = requests(rt, alloc, SMALL, PAD);
    all.extend_from_slice(&small)
        .expect(rt, "memory for a text");
    for number in KEYS..KEYS + ROOM + REFUSED {
        add_set(rt, &mut all, number);
    }
    for rows in [ASKED, DELETED] {
        let more = requests(rt, alloc, rows, PAD);
        all.extend_from_slice(&more).expect(rt, "memory for a text");
    }
    all
}

/// What is said to that.
fn answers(rt: &impl Abort, alloc: Global) -> Vec<u8> {
    let mut all = repeated(alloc, OK, KEYS, &replies(rt, alloc, SMALL, PAD)).expect(
        rt,
        "memory for a text",
    );
    let refused = repeated(alloc, STORE_FULL, REFUSED, b"").expect(rt, "memory for a text");
    let last = repeated(alloc, OK, ROOM, &refused).expect(rt, "memory for a text");
    all.extend_from_slice(&last).expect(rt, "memory for a text");
    for rows in [ASKED, DELETED] {
        let more = replies(rt, alloc, rows, PAD);
        all.extend_from_slice(&more).expect(rt, "memory for a text");
    }
    all
}

#[test]
fn a_full_store_does_what_fits_in_place(rt: HostRuntime) {
    let alloc = rt.alloc();
    let input = input(&rt, alloc);
    run(&rt, alloc, Source::new(&input)).check(&rt, &answers(&rt, alloc), Ended::EndOfInput);
    drop(input);
}

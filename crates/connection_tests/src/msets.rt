//! An MSET at its limits: many pairs, keys that it names twice, values of the most bytes and of none, and words that are no pairs.

use crate::pieces::{Sink, Source, check_run};
use crate::requests::{add_reply, add_request};
use crate::sizes::{Row, check};
use connection::Ended;
use std::alloc::Global;
use std::fmt::Write;
use std::process::Abort;
use std::sync::Wait;

/// With values of the most bytes, outside of a transaction and in one.
const ROWS: &[Row] = &[
    ("MSET a # b  c v", "+OK"),
    ("MGET a b c", "*3,$#,$0,,$1,v"),
    ("MSET a 1 b 2 a 3 a ", "+OK"),
    ("MGET a b c", "*3,$0,,$1,2,$1,v"),
    ("MSET  v b ", "+OK"),
    ("MGET  b", "*2,$1,v,$0,"),
    ("MSET b v b # c v b #", "+OK"),
    ("GET b", "$#"),
    ("mset b v", "+OK"),
    ("MSET", "-ERR wrong number of arguments"),
    ("MSET a", "-ERR wrong number of arguments"),
    ("MSET a # b", "-ERR wrong number of arguments"),
    ("MGET a b", "*2,$0,,$1,v"),
    ("MULTI", "+OK"),
    ("MSET a # b  a v c #", "+QUEUED"),
    ("MGET a b c", "+QUEUED"),
    ("MSET c  c w", "+QUEUED"),
    ("EXEC", "*3,+OK,*3,$1,v,$0,,$#,+OK"),
    ("MGET a b c", "*3,$1,v,$0,,$1,w"),
    ("MULTI", "+OK"),
    ("MSET a 1 b 2", "+QUEUED"),
    ("MSET a 1 b", "-ERR wrong number of arguments"),
    (
        "EXEC",
        "-EXECABORT transaction discarded because of earlier errors",
    ),
    ("MGET a b", "*2,$1,v,$0,"),
];

#[test]
fn pairs_of_the_longest_values_and_of_empty_ones(rt: HostRuntime) {
    check(&rt, rt.alloc(), ROWS, 32_768);
}

/// With a key of one byte more than the most, at each place. Nothing of such an MSET is done.
const LONG_KEYS: &[Row] = &[
    ("MSET # v", "-ERR key is too long"),
    ("MSET # v a v", "-ERR key is too long"),
    ("MSET a v # v", "-ERR key is too long"),
    ("MSET a v # v b v", "-ERR key is too long"),
    ("MULTI", "+OK"),
    ("MSET a v # v", "+QUEUED"),
    ("MSET b v", "+QUEUED"),
    ("EXEC", "*2,-ERR key is too long,+OK"),
    ("EXISTS a b", ":1"),
];

#[test]
fn a_key_that_is_too_long_is_refused_at_each_place(rt: HostRuntime) {
    check(&rt, rt.alloc(), LONG_KEYS, 513);
}

/// An MSET of so many words behind its name: nine keys in turn, each with the number of its place as value.
fn turns(rt: &impl Abort, alloc: Global, words: u32) -> String {
    let mut text = String::new(alloc);
    write!(text, "MSET").expect(rt, "memory for a text");
    for place in 0..words {
        if place % 2 == 0 {
            write!(text, " k{}", place / 2 % 9).expect(rt, "memory for a text");
        } else {
            write!(text, " {}", place / 2).expect(rt, "memory for a text");
        }
    }
    text
}

/// Adds the MSET, and a read of its keys.
fn add_turns(rt: &impl Abort, alloc: Global, all: &mut Vec<u8>, words: u32) {
    let text = turns(rt, alloc, words);
    add_request(alloc, all, &text, 0).expect(rt, "memory for a text");
    add_request(alloc, all, "MGET k0 k1 k2 k3 k4 k5 k6 k7 k8", 0).expect(rt, "memory for a text");
    drop(text);
}

/// Nine keys have the last of their seven values.
const LAST: &str = "*9,$2,54,$2,55,$2,56,$2,57,$2,58,$2,59,$2,60,$2,61,$2,62";

/// An MSET of the most words that are no pairs, one of the most pairs, one of a pair less, and one of the most in a transaction.
fn most(rt: &impl Abort, alloc: Global) -> Vec<u8> {
    let mut all = Vec::new(alloc);
    for words in [127, 126, 124] {
        add_turns(rt, alloc, &mut all, words);
    }
    add_request(alloc, &mut all, "MULTI", 0).expect(rt, "memory for a text");
    add_turns(rt, alloc, &mut all, 126);
    add_request(alloc, &mut all, "EXEC", 0).expect(rt, "memory for a text");
    all
}

/// What is said to that.
fn most_answers(rt: &impl Abort, alloc: Global) -> Vec<u8> {
    let mut all = Vec::new(alloc);
    for reply in [
        "-ERR wrong number of arguments",
        "*9,$-1,$-1,$-1,$-1,$-1,$-1,$-1,$-1,$-1",
        "+OK",
        LAST,
        "+OK",
        "*9,$2,54,$2,55,$2,56,$2,57,$2,58,$2,59,$2,60,$2,61,$2,53",
        "+OK,+QUEUED,+QUEUED,*2,+OK",
        LAST,
    ] {
        add_reply(alloc, &mut all, reply, 0).expect(rt, "memory for a text");
    }
    all
}

/// Asserts what is said to them, where a read gives at most so many bytes.
fn check_most<R: Abort + Wait>(rt: &R, alloc: Global, most_bytes: usize) {
    let input = most(rt, alloc);
    let streams = (
        Source::new(&input, most_bytes),
        Sink::new(alloc, 16_384).expect(rt, "memory for a sink"),
    );
    check_run(
        rt,
        alloc,
        streams,
        &most_answers(rt, alloc),
        Ended::EndOfInput,
    );
    drop(input);
}

#[test]
fn the_most_pairs_where_the_last_value_of_a_key_stays(rt: HostRuntime) {
    for most_bytes in [16_384, 31, 1] {
        check_most(&rt, rt.alloc(), most_bytes);
    }
}

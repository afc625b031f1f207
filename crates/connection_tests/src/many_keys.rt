//! Commands of the most keys, and transactions of the most commands, in a store with ample memory. Whole replies are compared.

use crate::edges::filled;
use crate::keys::repeated;
use crate::pieces::{Sink, Source, check_run};
use connection::Ended;
use std::alloc::Global;
use std::io::Write;
use std::process::Abort;
use std::sync::Wait;

/// The most keys of a command of keys.
const KEYS: u32 = 127;

/// The most pairs of a command of pairs.
const PAIRS: u32 = 63;

/// Adds the key of this number as a word.
fn add_key(rt: &impl Abort, all: &mut Vec<u8>, number: u32) {
    write!(all, "$4\r\nk{number:03}\r\n").expect(rt, "memory for a text");
}

/// Adds the value of the key of this number, as a word or as a reply. It is longer than a word is held without memory.
fn add_value(rt: &impl Abort, all: &mut Vec<u8>, number: u32) {
    write!(all, "$30\r\n{number:030}\r\n").expect(rt, "memory for a text");
}

/// Adds a command of so many keys, from this one on.
fn add_keys(rt: &impl Abort, all: &mut Vec<u8>, name: &str, first: u32, count: u32) {
    write!(
        all,
        "*{}\r\n${}\r\n{name}\r\n",
        count.saturating_add(1),
        name.len()
    )
    .expect(rt, "memory for a text");
    for number in first..first.saturating_add(count) {
        add_key(rt, all, number);
    }
}

/// Adds a command of so many keys, from this one on, each with its value.
fn add_pairs(rt: &impl Abort, all: &mut Vec<u8>, name: &str, first: u32, count: u32) {
    let words = count.saturating_mul(2).saturating_add(1);
    write!(all, "*{words}\r\n${}\r\n{name}\r\n", name.len()).expect(rt, "memory for a text");
    for number in first..first.saturating_add(count) {
        add_key(rt, all, number);
        add_value(rt, all, number);
    }
}

/// Adds the reply to an MGET of the most keys, of which so many have their values.
fn add_values(rt: &impl Abort, all: &mut Vec<u8>, present: u32) {
    write!(all, "*{KEYS}\r\n").expect(rt, "memory for a text");
    for number in 0..KEYS {
        if number < present {
            add_value(rt, all, number);
        } else {
            write!(all, "$-1\r\n").expect(rt, "memory for a text");
        }
    }
}

/// 63 pairs are set where none is there, and none of them again; 63 others are set; then all are read, counted and deleted, with
/// one key that is missing.
fn several(rt: &impl Abort, alloc: Global) -> Vec<u8> {
    let mut all = Vec::new(alloc);
    add_pairs(rt, &mut all, "MSETNX", 0, PAIRS);
    add_pairs(rt, &mut all, "MSETNX", PAIRS - 1, PAIRS);
    add_pairs(rt, &mut all, "MSET", PAIRS, PAIRS);
    for name in ["MGET", "EXISTS", "DEL", "EXISTS", "MGET"] {
        add_keys(rt, &mut all, name, 0, KEYS);
    }
    all
}

/// What is said to that.
fn several_answers(rt: &impl Abort, alloc: Global) -> Vec<u8> {
    let mut all = Vec::new(alloc);
    write!(all, ":1\r\n:0\r\n+OK\r\n").expect(rt, "memory for a text");
    add_values(rt, &mut all, 2 * PAIRS);
    write!(all, ":126\r\n:126\r\n:0\r\n").expect(rt, "memory for a text");
    add_values(rt, &mut all, 0);
    all
}

/// Asserts what is said to requests over a new store, whose replies are taken in large writes.
fn check<R: Abort + Wait>(rt: &R, alloc: Global, input: &[u8], text: &[u8]) {
    let streams = (
        Source::new(input, 16_384),
        Sink::new(alloc, 65_536).expect(rt, "memory for a sink"),
    );
    check_run(rt, alloc, streams, text, Ended::EndOfInput);
}

#[test]
fn commands_of_the_most_keys(rt: HostRuntime) {
    let alloc = rt.alloc();
    check(
        &rt,
        alloc,
        &several(&rt, alloc),
        &several_answers(&rt, alloc),
    );
}

/// A transaction that adds 1 to each of 128 keys, and then these but the first.
fn additions(rt: &impl Abort, alloc: Global) -> Vec<u8> {
    let mut all = Vec::new(alloc);
    write!(all, "*1\r\n$5\r\nMULTI\r\n").expect(rt, "memory for a text");
    for number in 0..128 {
        add_keys(rt, &mut all, "INCR", number, 1);
    }
    write!(all, "*1\r\n$4\r\nEXEC\r\n").expect(rt, "memory for a text");
    add_keys(rt, &mut all, "MGET", 1, KEYS);
    all
}

/// What is said to that.
fn additions_answers(rt: &impl Abort, alloc: Global) -> Vec<u8> {
    let values = repeated(alloc, b"$1\r\n1\r\n", KEYS, b"").expect(rt, "memory for a text");
    let sums = repeated(alloc, b":1\r\n", 128, b"*127\r\n").expect(rt, "memory for a text");
    let mut all = repeated(alloc, b"+QUEUED\r\n", 128, b"*128\r\n").expect(rt, "memory for a text");
    all.extend_from_slice(&sums).expect(rt, "memory for a text");
    all.extend_from_slice(&values)
        .expect(rt, "memory for a text");
    let answer = repeated(alloc, b"+OK\r\n", 1, &all).expect(rt, "memory for a text");
    drop(all);
    drop(sums);
    drop(values);
    answer
}

#[test]
fn a_transaction_of_128_keys(rt: HostRuntime) {
    let alloc = rt.alloc();
    check(
        &rt,
        alloc,
        &additions(&rt, alloc),
        &additions_answers(&rt, alloc),
    );
}

/// The longest key with the longest value has another of the longest keys as its name.
const RENAMES: &[(&[u8], usize)] = &[
    (b"*3\r\n$3\r\nSET\r\n$512\r\n", 512),
    (b"\r\n$32768\r\n", 32_768),
    (b"\r\n*3\r\n$6\r\nRENAME\r\n$512\r\n", 512),
    (b"\r\n$512\r\ny", 511),
    (b"\r\n*2\r\n$3\r\nGET\r\n$512\r\n", 512),
    (b"\r\n*2\r\n$3\r\nGET\r\n$512\r\ny", 511),
    (b"\r\n", 0),
];

/// What is said to that.
const RENAMED: &[(&[u8], usize)] = &[(b"+OK\r\n+OK\r\n$-1\r\n$32768\r\n", 32_768), (b"\r\n", 0)];

#[test]
fn a_rename_of_the_longest_key_and_value(rt: HostRuntime) {
    let alloc = rt.alloc();
    check(
        &rt,
        alloc,
        &filled(alloc, RENAMES).expect(&rt, "memory for a text"),
        &filled(alloc, RENAMED).expect(&rt, "memory for a text"),
    );
}

/// The longest value, and an MGET that names its key 127 times.
fn the_same_often(rt: &impl Abort, alloc: Global) -> Vec<u8> {
    let set = filled(
        alloc,
        &[
            (b"*3\r\n$3\r\nSET\r\n$1\r\nk\r\n$32768\r\n", 32_768),
            (b"\r\n*128\r\n$4\r\nMGET\r\n", 0),
        ],
    )
    .expect(rt, "memory for a text");
    let keys = repeated(alloc, b"$1\r\nk\r\n", KEYS, b"").expect(rt, "memory for a text");
    let answer = repeated(alloc, &set, 1, &keys).expect(rt, "memory for a text");
    drop(keys);
    drop(set);
    answer
}

/// What is said to that.
fn the_same_values(rt: &impl Abort, alloc: Global) -> Vec<u8> {
    let value = filled(alloc, &[(b"$32768\r\n", 32_768), (b"\r\n", 0)]).expect(
        rt,
        "memory for a text",
    );
    let values = repeated(alloc, &value, KEYS, b"").expect(rt, "memory for a text");
    let answer = repeated(alloc, b"+OK\r\n*127\r\n", 1, &values).expect(rt, "memory for a text");
    drop(values);
    drop(value);
    answer
}

/// The largest reply of a command: more than 4,000,000 bytes.
#[test]
fn an_array_of_127_of_the_longest_values(rt: HostRuntime) {
    let alloc = rt.alloc();
    check(
        &rt,
        alloc,
        &the_same_often(&rt, alloc),
        &the_same_values(&rt, alloc),
    );
}

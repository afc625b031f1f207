//! Small conversations of a single client, each with its whole text: options of SET, ranges, numbers at their edges, names without
//! regard to case, values of a quarter of the longest, and watches at their number.

use crate::pieces::{Sink, Source, check_run};
use crate::requests::{add_reply, add_request, add_word};
use connection::Ended;
use std::alloc::Global;
use std::io::Write;
use std::process::Abort;
use std::sync::Wait;

/// Requests with a semicolon between two, and their replies.
type Example = (&'static str, &'static str);

const EXAMPLES: &[Example] = &[
    // A SET of a key that is missing, where it should be there, and one that asks for both.
    (
        "GET m;SET m v XX;SET m v NX XX",
        "$-1,$-1,-ERR syntax error",
    ),
    // A range behind the end of a value that is missing, and an empty one.
    (
        "SETRANGE k 5 Hi;GET k;SETRANGE j 3 ;EXISTS j",
        ":7,$7,\0\0\0\0\0Hi,:0,:0",
    ),
    // Ranges inside a value, outside it, and around it.
    (
        "SET k Hello;GETRANGE k 1 -2;GETRANGE k 0 -6;GETRANGE k -100 100",
        "+OK,$3,ell,$0,,$5,Hello",
    ),
    // A number that is not spelled as numbers are, and the largest of them.
    (
        "SET a -0;INCR a;SET a -1;DECRBY a -9223372036854775808;GET a",
        "+OK,-ERR value is not an integer or out of range,+OK,:9223372036854775807,$19,9223372036854775807",
    ),
    // Names and options in any case.
    (
        "gEt k;SET k v nx;SET k w Xx;GETDEL k;GETSET k u",
        "$-1,+OK,+OK,$1,w,$-1",
    ),
];

/// The input of such requests.
fn input_of(rt: &impl Abort, alloc: Global, requests: &str) -> Vec<u8> {
    let mut input = Vec::new(alloc);
    for request in requests.split(';') {
        add_request(alloc, &mut input, request, 0).expect(rt, "memory for a text");
    }
    input
}

/// Asserts what is said to requests, however they are cut and whatever the writer takes.
fn check<R: Abort + Wait>(rt: &R, alloc: Global, input: &[u8], text: &[u8]) {
    for most in [16_384, 7, 1] {
        let streams = (
            Source::new(input, most),
            Sink::new(alloc, most).expect(rt, "memory for a sink"),
        );
        check_run(rt, alloc, streams, text, Ended::EndOfInput);
    }
}

/// Asserts what is said to the requests of an example.
fn check_example<R: Abort + Wait>(rt: &R, alloc: Global, example: &Example) {
    let input = input_of(rt, alloc, example.0);
    let mut text = Vec::new(alloc);
    add_reply(alloc, &mut text, example.1, 0).expect(rt, "memory for a text");
    check(rt, alloc, &input, &text);
    drop(text);
    drop(input);
}

#[test]
fn examples_are_answered_byte_for_byte(rt: HostRuntime) {
    for example in EXAMPLES {
        check_example(&rt, rt.alloc(), example);
    }
}

/// The spelling of the first example.
#[test]
fn an_example_is_spelled_so(rt: HostRuntime) {
    let input = input_of(&rt, rt.alloc(), "SETRANGE j 3 ;EXISTS j");
    assert!(rt;
        input.as_slice()
            == b"*4\r\n$8\r\nSETRANGE\r\n$1\r\nj\r\n$1\r\n3\r\n$0\r\n\r\n*2\r\n$6\r\nEXISTS\r\n$1\r\nj\r\n".as_slice()
    );
    drop(input);
}

/// MSET of five values of 8,192 bytes and one of so many, and then which of the first and the last are there.
fn six_values(rt: &impl Abort, alloc: Global, last: usize) -> Vec<u8> {
    let mut input = Vec::new(alloc);
    write!(input, "*13\r\n$4\r\nMSET\r\n").expect(rt, "memory for a text");
    for key in ["a", "b", "c", "d", "e"] {
        add_word(alloc, &mut input, key, 0).expect(rt, "memory for a text");
        add_word(alloc, &mut input, "#", 8_192).expect(rt, "memory for a text");
    }
    add_word(alloc, &mut input, "f", 0).expect(rt, "memory for a text");
    add_word(alloc, &mut input, "#", last).expect(rt, "memory for a text");
    add_request(alloc, &mut input, "EXISTS a f", 0).expect(rt, "memory for a text");
    input
}

/// They weigh 49,152, and 49,153.
#[test]
fn six_values_that_weigh_a_quarter_of_the_most(rt: HostRuntime) {
    let alloc = rt.alloc();
    for last in [7_898, 7_899] {
        let input = six_values(&rt, alloc, last);
        let streams = (
            Source::new(&input, 16_384),
            Sink::new(alloc, 16_384).expect(&rt, "memory for a sink"),
        );
        check_run(&rt, alloc, streams, b"+OK\r\n:2\r\n", Ended::EndOfInput);
    }
}

/// WATCH of 127 keys, of the last of them with one more, and of another one.
fn watches(rt: &impl Abort, alloc: Global) -> Vec<u8> {
    let mut input = Vec::new(alloc);
    write!(input, "*128\r\n$5\r\nWATCH\r\n").expect(rt, "memory for a text");
    for key in 0..127u32 {
        write!(input, "$4\r\nk{key:03}\r\n").expect(rt, "memory for a text");
    }
    add_request(alloc, &mut input, "WATCH k126 x1", 0).expect(rt, "memory for a text");
    add_request(alloc, &mut input, "WATCH x2", 0).expect(rt, "memory for a text");
    input
}

/// A key that is watched already counts once, so 128 keys are watched, and no further one is.
#[test]
fn a_watched_key_that_is_named_again_counts_once(rt: HostRuntime) {
    check(
        &rt,
        rt.alloc(),
        &watches(&rt, rt.alloc()),
        b"+OK\r\n+OK\r\n-ERR too many watched keys\r\n",
    );
}

/// 128 keys are watched, one of them named twice; this key is written, and a transaction follows.
fn watches_and_writes(rt: &impl Abort, alloc: Global, key: &str) -> Vec<u8> {
    let mut input = watches(rt, alloc);
    write!(
        input,
        "*3\r\n$5\r\nSETNX\r\n${}\r\n{key}\r\n$1\r\nv\r\n",
        key.len()
    )
    .expect(rt, "memory for a text");
    for request in ["MULTI", "PING", "EXEC"] {
        add_request(alloc, &mut input, request, 0).expect(rt, "memory for a text");
    }
    input
}

#[test]
fn each_of_128_watched_keys_counts(rt: HostRuntime) {
    for (key, array) in [
        ("k000", "*-1"),
        ("k126", "*-1"),
        ("x1", "*-1"),
        ("x2", "*1,+PONG"),
    ] {
        let mut text = Vec::new(rt.alloc());
        let replies = "+OK,+OK,-ERR too many watched keys,:1,+OK,+QUEUED";
        add_reply(rt.alloc(), &mut text, replies, 0).expect(&rt, "memory for a text");
        add_reply(rt.alloc(), &mut text, array, 0).expect(&rt, "memory for a text");
        check(
            &rt,
            rt.alloc(),
            &watches_and_writes(&rt, rt.alloc(), key),
            &text,
        );
    }
}

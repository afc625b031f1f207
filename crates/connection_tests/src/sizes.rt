//! Values of the most bytes, and of one more, by each command that can make one; and keys, by conditions and transactions of GETs.

use crate::requests::{add_reply, add_request, add_word};
use crate::talks::{Source, run, run_two};
use connection::Ended;
use std::alloc::Global;
use std::io::Write;
use std::process::Abort;
use std::sync::Wait;

/// A request, and its reply.
pub(crate) type Row = (&'static str, &'static str);

/// The requests of these rows, where a value has so many bytes.
pub(crate) fn requests(rt: &impl Abort, alloc: Global, rows: &[Row], size: usize) -> Vec<u8> {
    let mut all = Vec::new(alloc);
    for (request, _) in rows {
        add_request(alloc, &mut all, request, size).expect(rt, "memory for a text");
    }
    all
}

/// The replies of these rows, where a value has so many bytes.
pub(crate) fn replies(rt: &impl Abort, alloc: Global, rows: &[Row], size: usize) -> Vec<u8> {
    let mut all = Vec::new(alloc);
    for (_, reply) in rows {
        add_reply(alloc, &mut all, reply, size).expect(rt, "memory for a text");
    }
    all
}

/// Asserts that requests are answered so over a new engine.
pub(crate) fn check<R: Abort + Wait>(rt: &R, alloc: Global, rows: &[Row], size: usize) {
    let input = requests(rt, alloc, rows, size);
    let outcome = run(rt, alloc, Source::new(&input));
    assert!(rt;
        outcome.is(&replies(rt, alloc, rows, size), Ended::EndOfInput),
        "values of {size} bytes"
    );
    drop(outcome);
    drop(input);
}

/// Each command that can make a value, and then what is found.
const MADE: &[Row] = &[
    ("SET a #", "+OK"),
    ("GET a", "$#"),
    ("SET a # XX", "+OK"),
    ("SET b # NX", "+OK"),
    ("SET c # GET", "$-1"),
    ("SET c # GET XX", "$#"),
    ("SETNX d #", ":1"),
    ("GETSET e #", "$-1"),
    ("GETSET e #", "$#"),
    ("APPEND f #", ":#"),
    ("SETRANGE g 0 #", ":#"),
    ("SETRANGE h @ v", ":#"),
    ("MSET i # j #", "+OK"),
    ("MSETNX k # l #", ":1"),
    ("RENAME a m", "+OK"),
    ("RENAME m m", "+OK"),
    ("MULTI", "+OK"),
    ("SET n #", "+QUEUED"),
    ("APPEND o #", "+QUEUED"),
    ("SETRANGE p @ v", "+QUEUED"),
    ("EXEC", "*3,+OK,:#,:#"),
    ("MGET a b c d", "*4,$-1,$#,$#,$#"),
    ("MGET e f g i", "*4,$#,$#,$#,$#"),
    ("MGET j k l m", "*4,$#,$#,$#,$#"),
    ("MGET n o", "*2,$#,$#"),
    ("STRLEN h", ":#"),
    ("GETRANGE h @ -1", "$1,v"),
    ("STRLEN p", ":#"),
    ("GETRANGE m 0 -1", "$#"),
    ("GETDEL m", "$#"),
    ("ECHO #", "$#"),
    ("PING #", "$#"),
];

#[test]
fn each_command_makes_a_value_of_the_most_bytes(rt: HostRuntime) {
    for size in [32_767, 32_768] {
        check(&rt, rt.alloc(), MADE, size);
    }
}

/// A value of all bytes but one takes one more byte, and no further one.
const GROWN: &[Row] = &[
    ("SET k #", "+OK"),
    ("APPEND k x", ":32768"),
    ("APPEND k y", "-ERR string is too long"),
    ("GETRANGE k 32766 32767", "$2,vx"),
    ("SET k #", "+OK"),
    ("SETRANGE k 32767 x", ":32768"),
    ("SETRANGE k 32767 xy", "-ERR string is too long"),
    ("GETRANGE k 32766 32767", "$2,vx"),
    ("SET j v", "+OK"),
    ("APPEND j #", ":32768"),
    ("SETRANGE j 2 #", "-ERR string is too long"),
    ("SETRANGE j 1 #", ":32768"),
    ("STRLEN j", ":32768"),
];

#[test]
fn a_value_grows_to_the_most_bytes_and_no_further(rt: HostRuntime) {
    check(&rt, rt.alloc(), GROWN, 32_767);
}

/// No command makes a value of the most bytes longer, or begins one that would be.
const TOO_LONG: &[Row] = &[
    ("SET a #", "+OK"),
    ("APPEND a v", "-ERR string is too long"),
    ("APPEND a #", "-ERR string is too long"),
    ("APPEND a ", ":#"),
    ("SETRANGE a 32768 v", "-ERR string is too long"),
    ("SETRANGE a 1 #", "-ERR string is too long"),
    ("SETRANGE a 32768 ", ":#"),
    ("SETRANGE b 32768 v", "-ERR string is too long"),
    ("SETRANGE b 32767 vv", "-ERR string is too long"),
    (
        "SETRANGE b 9223372036854775807 v",
        "-ERR string is too long",
    ),
    ("SET c v", "+OK"),
    ("APPEND c #", "-ERR string is too long"),
    ("SETRANGE c 1 #", "-ERR string is too long"),
    ("MULTI", "+OK"),
    ("APPEND a v", "+QUEUED"),
    ("SETRANGE a 1 #", "+QUEUED"),
    ("STRLEN a", "+QUEUED"),
    (
        "EXEC",
        "*3,-ERR string is too long,-ERR string is too long,:#",
    ),
    ("GET a", "$#"),
    ("EXISTS b", ":0"),
    ("GET c", "$1,v"),
];

#[test]
fn a_value_of_one_byte_more_is_too_long(rt: HostRuntime) {
    check(&rt, rt.alloc(), TOO_LONG, 32_768);
}

/// Requests with a word of one byte more.
const LONGER: &[&str] = &[
    "SET a #",
    "SET a # XX",
    "SET b # NX",
    "SET a # GET",
    "SETNX b #",
    "GETSET a #",
    "APPEND a #",
    "SETRANGE a 0 #",
    "SETRANGE a # v",
    "MSET b v a #",
    "MSETNX b v c #",
    "RENAME a #",
    "ECHO #",
    "PING #",
    "GET #",
    "#",
];

/// What stands before each of them.
const BEFORE: &[Row] = &[("SET a v", "+OK")];

/// What is found after it.
const AFTER: &[Row] = &[("MGET a b c", "*3,$1,v,$-1,$-1")];

/// Asserts that a request with a word of one byte more is a protocol fault, and that it changes nothing.
fn check_longer<R: Abort + Wait>(rt: &R, alloc: Global, request: &str) {
    let mut input = requests(rt, alloc, BEFORE, 0);
    add_request(alloc, &mut input, request, 32_769).expect(rt, "memory for a text");
    let again = requests(rt, alloc, AFTER, 0);
    let (first, second) = run_two(rt, alloc, Source::new(&input), Source::new(&again));
    let fault = b"+OK\r\n-ERR Protocol error: bad length\r\n";
    assert!(rt; first.is(fault, Ended::ProtocolFault), "{request}");
    assert!(rt;
        second.is(&replies(rt, alloc, AFTER, 0), Ended::EndOfInput),
        "{request}"
    );
    drop(second);
    drop(first);
    drop(again);
    drop(input);
}

#[test]
fn a_word_of_one_byte_more_is_a_fault_of_each_request(rt: HostRuntime) {
    for request in LONGER {
        check_longer(&rt, rt.alloc(), request);
    }
}

/// Five values of 8,192 bytes and one of 7,899 weigh 49,153 together: a call of values a quarter as long as the longest is
/// far from too heavy.
#[test]
fn six_values_of_eight_thousand_bytes_at_once(rt: HostRuntime) {
    let alloc = rt.alloc();
    let mut input = Vec::new(alloc);
    write!(input, "*13\r\n$4\r\nMSET\r\n").expect(&rt, "memory for a text");
    for (key, size) in [
        ("a", 8_192),
        ("b", 8_192),
        ("c", 8_192),
        ("d", 8_192),
        ("e", 8_192),
        ("f", 7_899),
    ] {
        add_word(alloc, &mut input, key, 0).expect(&rt, "memory for a text");
        add_word(alloc, &mut input, "#", size).expect(&rt, "memory for a text");
    }
    add_request(alloc, &mut input, "EXISTS a f", 0).expect(&rt, "memory for a text");
    run(&rt, alloc, Source::new(&input)).check(&rt, b"+OK\r\n:2\r\n", Ended::EndOfInput);
}

/// A key of the most bytes that is set under conditions, and read by transactions of GETs.
const LONG_KEY: &[Row] = &[
    ("SET # x XX", "$-1"),
    ("EXISTS #", ":0"),
    ("SET # v NX", "+OK"),
    ("SET # x NX", "$-1"),
    ("GET #", "$1,v"),
    ("MULTI", "+OK"),
    ("GET #", "+QUEUED"),
    ("GET a", "+QUEUED"),
    ("GET #", "+QUEUED"),
    ("EXEC", "*3,$1,v,$-1,$1,v"),
    ("SET # # XX", "+OK"),
    ("SET # x NX GET", "$#"),
    ("WATCH #", "+OK"),
    ("MULTI", "+OK"),
    ("GET #", "+QUEUED"),
    ("EXEC", "*1,$#"),
    ("WATCH #", "+OK"),
    ("SET # v XX", "+OK"),
    ("MULTI", "+OK"),
    ("GET #", "+QUEUED"),
    ("EXEC", "*-1"),
    ("SET # x XX GET", "$1,v"),
    ("DEL #", ":1"),
    ("SET # x XX", "$-1"),
    ("SET # # NX", "+OK"),
    ("MULTI", "+OK"),
    ("GET #", "+QUEUED"),
    ("EXEC", "*1,$#"),
];

#[test]
fn a_key_of_the_most_bytes_goes_by_conditions(rt: HostRuntime) {
    for size in [511, 512] {
        check(&rt, rt.alloc(), LONG_KEY, size);
    }
}

/// A key of one byte more is refused by each of these, and a transaction of GETs has its line.
const LONGER_KEY: &[Row] = &[
    ("SET # v NX", "-ERR key is too long"),
    ("SET # v XX", "-ERR key is too long"),
    ("MULTI", "+OK"),
    ("SET # v NX", "+QUEUED"),
    ("GET #", "+QUEUED"),
    ("GET a", "+QUEUED"),
    ("EXEC", "*3,-ERR key is too long,-ERR key is too long,$-1"),
    ("MULTI", "+OK"),
    ("GET a", "+QUEUED"),
    ("GET #", "+QUEUED"),
    ("EXEC", "*2,$-1,-ERR key is too long"),
];

#[test]
fn a_key_of_one_byte_more_is_refused_under_conditions(rt: HostRuntime) {
    check(&rt, rt.alloc(), LONGER_KEY, 513);
}

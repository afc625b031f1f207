//! Words, requests, transactions and watches at their limits.

use crate::keys::repeated;
use crate::pieces::{Sink, Source, check_run};
use crate::rows::PING;
use connection::Ended;
use std::alloc::{AllocError, Global};
use std::process::Abort;

/// Texts, each with so many bytes after it.
pub(crate) fn filled(alloc: Global, parts: &[(&[u8], usize)]) -> Result<Vec<u8>, AllocError> {
    let mut all = Vec::new(alloc);
    for &(text, count) in parts {
        all.extend_from_slice(text)?;
        for _ in 0..count {
            all.push(b'x')?;
        }
    }
    Ok(all)
}

/// GET of a key that is too long, and SET of the longest key and value.
const LONG_WORDS: &[(&[u8], usize)] = &[
    (b"*2\r\n$3\r\nGET\r\n$513\r\n", 513),
    (b"\r\n*3\r\n$3\r\nSET\r\n$512\r\n", 512),
    (b"\r\n$32768\r\n", 32_768),
    (b"\r\n", 0),
];

/// GET of the longest key.
const LONG_GET: &[(&[u8], usize)] = &[(b"*2\r\n$3\r\nGET\r\n$512\r\n", 512), (b"\r\n", 0)];

/// A key that is too long, then the longest key with the longest value, read five times.
pub(crate) fn long_words(rt: &impl Abort, alloc: Global) -> Vec<u8> {
    let get = filled(alloc, LONG_GET).expect(rt, "memory for a text");
    let gets = repeated(alloc, &get, 5, b"").expect(rt, "memory for a text");
    drop(get);
    let first = filled(alloc, LONG_WORDS).expect(rt, "memory for a text");
    let answer = repeated(alloc, &first, 1, &gets).expect(rt, "memory for a text");
    drop(first);
    drop(gets);
    answer
}

/// So many replies of the longest value, after the replies before them.
pub(crate) fn long_replies(rt: &impl Abort, alloc: Global, before: &[u8], count: u32) -> Vec<u8> {
    let reply = filled(alloc, &[(b"$32768\r\n", 32_768), (b"\r\n", 0)]).expect(
        rt,
        "memory for a text",
    );
    let replies = repeated(alloc, &reply, count, b"").expect(rt, "memory for a text");
    let answer = repeated(alloc, before, 1, &replies).expect(rt, "memory for a text");
    drop(replies);
    drop(reply);
    answer
}

#[test]
fn words_at_the_limits(rt: HostRuntime) {
    let alloc = rt.alloc();
    let input = long_words(&rt, alloc);
    let text = long_replies(&rt, alloc, b"-ERR key is too long\r\n+OK\r\n", 5);
    let streams = (
        Source::new(&input, 16_384),
        Sink::new(alloc, 100_000).expect(&rt, "memory for a sink"),
    );
    check_run(&rt, alloc, streams, &text, Ended::EndOfInput);
    drop(text);
    drop(input);
}

/// The longest key and value under conditions: where the key is missing, where it is there, and over a short value where it lies; and over
/// one of another key that has no room for it. Then a transaction of GETs of both.
const LONG_CONDITIONS: &[(&[u8], usize)] = &[
    (b"*4\r\n$3\r\nSET\r\n$512\r\n", 512),
    (b"\r\n$32768\r\n", 32_768),
    (b"\r\n$2\r\nXX\r\n*4\r\n$3\r\nSET\r\n$512\r\n", 512),
    (b"\r\n$32768\r\n", 32_768),
    (b"\r\n$2\r\nNX\r\n*4\r\n$3\r\nSET\r\n$512\r\n", 512),
    (b"\r\n$32768\r\n", 32_768),
    (b"\r\n$2\r\nNX\r\n*4\r\n$3\r\nSET\r\n$512\r\n", 512),
    (
        b"\r\n$1\r\nv\r\n$2\r\nXX\r\n*4\r\n$3\r\nSET\r\n$512\r\n",
        512,
    ),
    (b"\r\n$32768\r\n", 32_768),
    (b"\r\n$2\r\nXX\r\n*4\r\n$3\r\nSET\r\n$512\r\na", 511),
    (
        b"\r\n$1\r\nv\r\n$2\r\nNX\r\n*4\r\n$3\r\nSET\r\n$512\r\na",
        511,
    ),
    (b"\r\n$32768\r\n", 32_768),
    (
        b"\r\n$2\r\nXX\r\n*1\r\n$5\r\nMULTI\r\n*2\r\n$3\r\nGET\r\n$512\r\n",
        512,
    ),
    (b"\r\n*2\r\n$3\r\nGET\r\n$512\r\na", 511),
    (b"\r\n*1\r\n$4\r\nEXEC\r\n", 0),
];

#[test]
fn the_longest_key_and_value_under_conditions(rt: HostRuntime) {
    let alloc = rt.alloc();
    let input = filled(alloc, LONG_CONDITIONS).expect(&rt, "memory for a text");
    let before =
        b"$-1\r\n+OK\r\n$-1\r\n+OK\r\n+OK\r\n+OK\r\n+OK\r\n+OK\r\n+QUEUED\r\n+QUEUED\r\n*2\r\n";
    let text = long_replies(&rt, alloc, before, 2);
    let streams = (
        Source::new(&input, 16_384),
        Sink::new(alloc, 100_000).expect(&rt, "memory for a sink"),
    );
    check_run(&rt, alloc, streams, &text, Ended::EndOfInput);
    drop(text);
    drop(input);
}

/// Four words of 32,768 bytes and one byte more. The spelling of a word is that of a reply.
#[test]
fn a_request_that_is_too_large(rt: HostRuntime) {
    let alloc = rt.alloc();
    let mut input = long_replies(&rt, alloc, b"*5\r\n", 4);
    input
        .extend_from_slice(b"$1")
        .expect(&rt, "memory for a text");
    let streams = (
        Source::new(&input, 16_384),
        Sink::new(alloc, 16_384).expect(&rt, "memory for a sink"),
    );
    let text = b"-ERR Protocol error: request too large\r\n";
    check_run(&rt, alloc, streams, text, Ended::ProtocolFault);
    drop(input);
}

/// GET of a key that is too long, at once and in a transaction.
const LONG_KEYS: &[(&[u8], usize)] = &[
    (b"*2\r\n$3\r\nGET\r\n$513\r\n", 513),
    (b"\r\n*1\r\n$5\r\nMULTI\r\n*2\r\n$3\r\nGET\r\n$513\r\n", 513),
    (b"\r\n*1\r\n$4\r\nEXEC\r\n", 0),
];

/// A key that is too long does not spoil a transaction: its line stands in the array.
#[test]
fn a_long_key_in_a_transaction(rt: HostRuntime) {
    let alloc = rt.alloc();
    let input = filled(alloc, LONG_KEYS).expect(&rt, "memory for a text");
    let streams = (
        Source::new(&input, 16_384),
        Sink::new(alloc, 16_384).expect(&rt, "memory for a sink"),
    );
    let text = b"-ERR key is too long\r\n+OK\r\n+QUEUED\r\n*1\r\n-ERR key is too long\r\n";
    check_run(&rt, alloc, streams, text, Ended::EndOfInput);
    drop(input);
}

/// A transaction of so many PINGs, and what is said to it.
fn pings(rt: &impl Abort, alloc: Global, count: u32) -> Vec<u8> {
    let mut input = Vec::new(alloc);
    input
        .extend_from_slice(b"*1\r\n$5\r\nMULTI\r\n")
        .expect(rt, "memory for a text");
    let pings = repeated(alloc, PING, count, b"*1\r\n$4\r\nEXEC\r\n").expect(
        rt,
        "memory for a text",
    );
    input
        .extend_from_slice(&pings)
        .expect(rt, "memory for a text");
    drop(pings);
    input
}

/// The 129th command of a transaction is not queued, and spoils it.
#[test]
fn a_transaction_of_129_pings(rt: HostRuntime) {
    let alloc = rt.alloc();
    let input = pings(&rt, alloc, 129);
    let end: &[u8] =
        b"-ERR transaction is too large\r\n-EXECABORT transaction discarded because of earlier errors\r\n";
    let queued = repeated(alloc, b"+QUEUED\r\n", 128, end).expect(&rt, "memory for a text");
    let text = repeated(alloc, b"+OK\r\n", 1, &queued).expect(&rt, "memory for a text");
    let streams = (
        Source::new(&input, 16_384),
        Sink::new(alloc, 16_384).expect(&rt, "memory for a sink"),
    );
    check_run(&rt, alloc, streams, &text, Ended::EndOfInput);
    drop(text);
    drop(queued);
    drop(input);
}

/// WATCH of 127 keys of two bytes.
fn watch_of_127(rt: &impl Abort, alloc: Global) -> Vec<u8> {
    let mut request = Vec::new(alloc);
    request
        .extend_from_slice(b"*128\r\n$5\r\nWATCH\r\n")
        .expect(rt, "memory for a text");
    for key in 0..127 {
        request
            .extend_from_slice(&[b'$', b'2', b'\r', b'\n', b'k', 128 | key, b'\r', b'\n'])
            .expect(rt, "memory for a text");
    }
    request
}

/// A session that watches 127 keys may watch one more, and not two. What it watched it watches still: its
/// transaction is null once one of these is written.
#[test]
fn a_watch_of_127_and_2_more_keys(rt: HostRuntime) {
    let alloc = rt.alloc();
    let watches =
        b"*3\r\n$5\r\nWATCH\r\n$1\r\na\r\n$1\r\nb\r\n*2\r\n$5\r\nWATCH\r\n$1\r\na\r\n*2\r\n$5\r\nWATCH\r\n$1\r\nb\r\n";
    let writes =
        b"*3\r\n$3\r\nSET\r\n$2\r\nk\x80\r\n$1\r\n1\r\n*1\r\n$5\r\nMULTI\r\n*1\r\n$4\r\nEXEC\r\n";
    let rest = repeated(alloc, watches, 1, writes).expect(&rt, "memory for a text");
    let input = repeated(alloc, &watch_of_127(&rt, alloc), 1, &rest).expect(
        &rt,
        "memory for a text",
    );
    let text =
        b"+OK\r\n-ERR too many watched keys\r\n+OK\r\n-ERR too many watched keys\r\n+OK\r\n+OK\r\n*-1\r\n";
    let streams = (
        Source::new(&input, 16_384),
        Sink::new(alloc, 16_384).expect(&rt, "memory for a sink"),
    );
    check_run(&rt, alloc, streams, text, Ended::EndOfInput);
    drop(input);
    drop(rest);
}

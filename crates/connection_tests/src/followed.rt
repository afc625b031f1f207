//! Connections that follow one another with the same pass: nothing of the first is left.

use crate::pieces::{Sink, Source, check_outcome, run_both};
use connection::Ended;
use std::alloc::Global;
use std::process::Abort;
use std::sync::Wait;

/// Asserts what two connections come to, which are served one after the other with the same pass.
fn check_both<R: Abort + Wait>(
    rt: &R,
    alloc: Global,
    first: (Source<'_>, Sink),
    told: (&[u8], Ended),
    second: (&[u8], &[u8]),
) {
    let streams = (
        Source::new(second.0, 16_384),
        Sink::new(alloc, 16_384).expect(rt, "memory for a sink"),
    );
    let (before, after) = run_both(rt, alloc, first, streams);
    check_outcome(rt, &before, told.0, told.1);
    check_outcome(rt, &after, second.1, Ended::EndOfInput);
    drop(after);
    drop(before);
}

/// QUIT runs nothing of what is queued: the next connection finds no value.
#[test]
fn what_is_queued_goes_with_the_connection(rt: HostRuntime) {
    let alloc = rt.alloc();
    let input =
        b"*1\r\n$5\r\nMULTI\r\n*3\r\n$3\r\nSET\r\n$1\r\na\r\n$1\r\n1\r\n*1\r\n$4\r\nQUIT\r\n";
    let first = (
        Source::new(input, 16_384),
        Sink::new(alloc, 16_384).expect(&rt, "memory for a sink"),
    );
    let told: &[u8] = b"+OK\r\n+QUEUED\r\n+OK\r\n";
    let get: &[u8] = b"*2\r\n$3\r\nGET\r\n$1\r\na\r\n";
    check_both(&rt, alloc, first, (told, Ended::Quit), (get, b"$-1\r\n"));
}

/// Connections that end while they watch a key: their input, how many bytes are read and written
/// before reads and writes fail, their text and their ending.
const WATCHING: &[(&[u8], Option<usize>, Option<usize>, &[u8], Ended)] = &[
    (
        b"*2\r\n$5\r\nWATCH\r\n$1\r\nk\r\n",
        None,
        None,
        b"+OK\r\n",
        Ended::EndOfInput,
    ),
    (
        b"*2\r\n$5\r\nWATCH\r\n$1\r\nk\r\n*1\r\n$4\r\nQUIT\r\n",
        None,
        None,
        b"+OK\r\n+OK\r\n",
        Ended::Quit,
    ),
    (
        b"*2\r\n$5\r\nWATCH\r\n$1\r\nk\r\n*1\r\n$5\r\nMULTI\r\n*2\r\n$3\r\nGET\r\n$1\r\nk\r\n*1\r\n$4\r\nQUIT\r\n",
        None,
        None,
        b"+OK\r\n+OK\r\n+QUEUED\r\n+OK\r\n",
        Ended::Quit,
    ),
    (
        b"*2\r\n$5\r\nWATCH\r\n$1\r\nk\r\n+",
        None,
        None,
        b"+OK\r\n-ERR Protocol error: expected '*'\r\n",
        Ended::ProtocolFault,
    ),
    (
        b"*2\r\n$5\r\nWATCH\r\n$1\r\nk\r\n*2\r\n$3\r\nGET\r\n$1\r\nk\r\n",
        Some(22),
        None,
        b"+OK\r\n",
        Ended::ReadFailed,
    ),
    (
        b"*2\r\n$5\r\nWATCH\r\n$1\r\nk\r\n",
        None,
        Some(3),
        b"+OK",
        Ended::WriteFailed,
    ),
];

/// SET of the key, and a transaction.
const AFTER_WATCHING: &[u8] =
    b"*3\r\n$3\r\nSET\r\n$1\r\nk\r\n$1\r\nv\r\n*1\r\n$5\r\nMULTI\r\n*2\r\n$3\r\nGET\r\n$1\r\nk\r\n*1\r\n$4\r\nEXEC\r\n";

const AFTER_WATCHING_ANSWER: &[u8] = b"+OK\r\n+OK\r\n+QUEUED\r\n*1\r\n$1\r\nv\r\n";

/// However a connection ends, nothing that it watched stays: with the same pass the next one writes the
/// key, and its transaction runs.
#[test]
fn watches_end_with_the_connection(rt: HostRuntime) {
    let alloc = rt.alloc();
    for &(input, read, written, text, ended) in WATCHING {
        let mut source = Source::new(input, 16_384);
        source.fails_after = read;
        let mut sink = Sink::new(alloc, 16_384).expect(&rt, "memory for a sink");
        sink.fails_after = written;
        let second = (AFTER_WATCHING, AFTER_WATCHING_ANSWER);
        check_both(&rt, alloc, (source, sink), (text, ended), second);
    }
}

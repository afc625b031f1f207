//! Connections whose next input is there already when the one before is answered.

use crate::edges::{filled, long_replies, long_words};
use crate::keys::repeated;
use crate::pieces::{Outcome, Sink, Source, check_outcome, run};
use crate::rows::{PING, after_reply};
use connection::Ended;
use std::alloc::{AllocError, Global};
use std::io;
use std::process::Abort;
use std::sync::Wait;
use streams::Told;

/// SET of 8,000 bytes.
const LONG_SET: &[(&[u8], usize)] = &[
    (b"*3\r\n$3\r\nSET\r\n$1\r\nk\r\n$8000\r\n", 8_000),
    (b"\r\n", 0),
];

/// Ten requests of 8,000 bytes, and a part of another: more than four pieces.
fn ten_sets(alloc: Global) -> io::Result<Vec<u8>> {
    let set = filled(alloc, LONG_SET)?;
    let answer = repeated(alloc, &set, 10, b"*1\r\n$4\r\nPI");
    drop(set);
    answer
}

/// What a connection comes to whose input is there already, or is not told to be.
fn run_ready(
    rt: &impl Wait,
    alloc: Global,
    input: &[u8],
    ready: (bool, Option<usize>),
    written: Option<usize>,
) -> Result<Outcome, AllocError> {
    let mut source = Source::new(input, 16_384);
    source.tells_ready = ready.0;
    source.fails_after = ready.1;
    let mut sink = Sink::new(alloc, 100_000)?;
    sink.fails_after = written;
    run(rt, alloc, source, sink)
}

/// Asserts how many writes the replies to ten requests take.
fn check_writes<R: Abort + Wait>(rt: &R, alloc: Global, tells: bool, writes: u64) {
    let input = ten_sets(alloc).expect(rt, "memory for a text");
    let outcome = run_ready(rt, alloc, &input, (tells, None), None).expect(
        rt,
        "memory for the connection",
    );
    let text = b"+OK\r\n+OK\r\n+OK\r\n+OK\r\n+OK\r\n+OK\r\n+OK\r\n+OK\r\n+OK\r\n+OK\r\n";
    check_outcome(rt, &outcome, text, Ended::EndOfInput);
    assert!(rt; outcome.writes == writes);
    assert!(rt; outcome.told == (Told::End, Told::Nothing));
    drop(outcome);
    drop(input);
}

/// Replies are written before a read that waits, and before no other.
#[test]
fn one_write_for_the_pieces_that_are_there(rt: HostRuntime) {
    check_writes(&rt, rt.alloc(), true, 1);
    check_writes(&rt, rt.alloc(), false, 5);
}

/// A read that fails after pieces that were there: what was complete is answered, and it is written.
#[test]
fn a_read_that_fails_after_ready_pieces(rt: HostRuntime) {
    let alloc = rt.alloc();
    let input = ten_sets(alloc).expect(&rt, "memory for a text");
    for (given, count) in [(16_384, 2), (32_768, 4), (40_000, 4), (49_151, 6)] {
        let text = repeated(alloc, b"+OK\r\n", count, b"").expect(&rt, "memory for a text");
        let outcome = run_ready(&rt, alloc, &input, (true, Some(given)), None).expect(
            &rt,
            "memory for the connection",
        );
        check_outcome(&rt, &outcome, &text, Ended::ReadFailed);
        assert!(rt; outcome.told == (Told::Failure, Told::Nothing));
    }
    drop(input);
}

/// A write that fails after pieces that were there: the reader has told nothing, though it is at its end.
#[test]
fn a_write_that_fails_after_ready_pieces(rt: HostRuntime) {
    let alloc = rt.alloc();
    let input = ten_sets(alloc).expect(&rt, "memory for a text");
    let text = repeated(alloc, b"+OK\r\n", 10, b"").expect(&rt, "memory for a text");
    for room in 0..text.len() {
        let outcome = run_ready(&rt, alloc, &input, (true, None), Some(room)).expect(
            &rt,
            "memory for the connection",
        );
        check_outcome(&rt, &outcome, &text[..room], Ended::WriteFailed);
        assert!(rt; outcome.told == (Told::Nothing, Told::Failure));
    }
    drop(text);
    drop(input);
}

/// Asserts what replies of more than the output buffer holds come to, where a write fails after so many bytes
/// or none does.
fn check_long<R: Abort + Wait>(rt: &R, alloc: Global, written: Option<usize>, ended: Ended) {
    let input = long_words(rt, alloc);
    let text = long_replies(rt, alloc, b"-ERR key is too long\r\n+OK\r\n", 5);
    let outcome = run_ready(rt, alloc, &input, (true, None), written).expect(
        rt,
        "memory for the connection",
    );
    let count = text.len().min(written.unwrap_or(text.len()));
    check_outcome(rt, &outcome, &text[..count], ended);
    drop(outcome);
    drop(text);
    drop(input);
}

/// Replies that do not fit into the output buffer are written while more pieces are there, whether a write
/// fails or not.
#[test]
fn long_replies_to_pieces_that_are_there(rt: HostRuntime) {
    check_long(&rt, rt.alloc(), None, Ended::EndOfInput);
    check_long(&rt, rt.alloc(), Some(100_000), Ended::WriteFailed);
}

/// The last of the requests that fill a piece to its last byte, behind a thousand PINGs.
const LAST_OF_PIECE: &[(&[u8], usize)] = &[(b"*2\r\n$4\r\nPING\r\n$2361\r\n", 2_361), (b"\r\n", 0)];

/// The reply to it.
const LAST_REPLY: &[(&[u8], usize)] = &[(b"$2361\r\n", 2_361), (b"\r\n", 0)];

/// A thousand times the one, and then the other.
fn thousand(rt: &impl Abort, alloc: Global, each: &[u8], last: &[(&[u8], usize)]) -> Vec<u8> {
    let last = filled(alloc, last).expect(rt, "memory for a text");
    let answer = repeated(alloc, each, 1_000, &last).expect(rt, "memory for a text");
    drop(last);
    answer
}

/// Whole requests that end where a piece ends, and nothing after them.
#[test]
fn requests_that_end_where_a_piece_ends(rt: HostRuntime) {
    let alloc = rt.alloc();
    let input = thousand(&rt, alloc, PING, LAST_OF_PIECE);
    let text = thousand(&rt, alloc, b"+PONG\r\n", LAST_REPLY);
    let outcome = run_ready(&rt, alloc, &input, (true, None), None).expect(
        &rt,
        "memory for the connection",
    );
    assert!(rt; input.len() == 16_384);
    check_outcome(&rt, &outcome, &text, Ended::EndOfInput);
    drop(outcome);
    drop(text);
    drop(input);
}

/// How many requests are answered, each by OK or by the out-of-memory line; `None` where the text is
/// none of these.
fn answered_in(text: &[u8]) -> Option<usize> {
    let mut rest = text;
    for count in 0..11 {
        if rest.is_empty() {
            return Some(count);
        }
        let (_, after) = after_reply(rest, b"+OK\r\n")?;
        rest = after;
    }
    None
}

/// Whether the replies to ten requests are all there, or it ended the connection that memory was refused, and all of them
/// were passed on.
fn ended_rightly(outcome: &Outcome) -> bool {
    let ended = match answered_in(&outcome.text) {
        Some(10) => Ended::EndOfInput,
        Some(_) => Ended::NoMemory,
        None => return false,
    };
    outcome.ended == ended && outcome.flushed == outcome.text.len()
}

/// What a connection comes to that sends ten requests, where there is memory for them.
fn ten_answered(rt: &impl Wait, alloc: Global) -> io::Result<Outcome> {
    let input = ten_sets(alloc)?;
    let answer = run_ready(rt, alloc, &input, (true, None), None)?;
    drop(input);
    Ok(answer)
}

/// With each allocation refused in turn (`rt try --test --fail-alloc`), the requests before the one that found
/// no memory are answered, and their replies are written.
#[test]
fn ready_pieces_with_each_allocation_refused(rt: HostRuntime) {
    let Ok(outcome) = ten_answered(&rt, rt.alloc()) else {
        return;
    };
    assert!(rt; ended_rightly(&outcome), "{:?}", outcome.text);
}

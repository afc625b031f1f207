//! Streams that lie or end anywhere.

use crate::talks::{Source, run, run_two};
use connection::Ended;

const BAD_COUNT: &[u8] = b"-ERR Protocol error: bad count\r\n";

const BAD_LENGTH: &[u8] = b"-ERR Protocol error: bad length\r\n";

const MISSING_LINE_END: &[u8] = b"-ERR Protocol error: missing line end\r\n";

/// Streams, each with what is written and how the connection ends.
pub(crate) const STREAMS: &[(&[u8], &[u8], Ended)] = &[
    (b"*0", BAD_COUNT, Ended::ProtocolFault),
    (b"*-1", BAD_COUNT, Ended::ProtocolFault),
    (b"*\r", BAD_COUNT, Ended::ProtocolFault),
    (b"*1\r\r", MISSING_LINE_END, Ended::ProtocolFault),
    (b"*1\r\n$4\r\nPINGx", MISSING_LINE_END, Ended::ProtocolFault),
    (
        b"*1\r\n+",
        b"-ERR Protocol error: expected '$'\r\n",
        Ended::ProtocolFault,
    ),
    (b"*1\r\n$-1", BAD_LENGTH, Ended::ProtocolFault),
    (b"*1\r\n$32769", BAD_LENGTH, Ended::ProtocolFault),
    (
        b"*1\r\n$4\r\nPING\r\nX",
        b"+PONG\r\n-ERR Protocol error: expected '*'\r\n",
        Ended::ProtocolFault,
    ),
    (
        b"*1\r\n$0\r\n\r\n",
        b"-ERR unknown command\r\n",
        Ended::EndOfInput,
    ),
];

#[test]
fn a_stream_that_is_no_request_ends_by_its_fault(rt: HostRuntime) {
    for &(input, text, ended) in STREAMS {
        run(&rt, rt.alloc(), Source::new(input)).check(&rt, text, ended);
    }
}

/// SET of a value that looks like the beginning of a request, and GET of it.
const SET_AND_GET: &[u8] =
    b"*3\r\n$3\r\nSET\r\n$1\r\nk\r\n$5\r\na\r\n*1\r\n*2\r\n$3\r\nGET\r\n$1\r\nk\r\n";

/// How many of these bytes are the SET.
const SET_BYTES: usize = 31;

const GET: &[u8] = b"*2\r\n$3\r\nGET\r\n$1\r\nk\r\n";

const VALUE: &[u8] = b"$5\r\na\r\n*1\r\n";

/// What is answered of the first bytes of SET and GET.
fn answer_of(count: usize) -> &'static [u8] {
    if count < SET_BYTES {
        b""
    } else if count < SET_AND_GET.len() {
        b"+OK\r\n"
    } else {
        b"+OK\r\n$5\r\na\r\n*1\r\n"
    }
}

#[test]
fn a_stream_that_ends_anywhere_is_answered_so_far(rt: HostRuntime) {
    assert!(rt; SET_AND_GET.len() == 51);
    for count in 0..=SET_AND_GET.len() {
        let outcome = run(&rt, rt.alloc(), Source::new(&SET_AND_GET[..count]));
        outcome.check(&rt, answer_of(count), Ended::EndOfInput);
    }
}

#[test]
fn what_was_set_before_a_read_failed_is_found_by_another(rt: HostRuntime) {
    let first = Source::failing(&SET_AND_GET[..SET_BYTES]);
    let (first, second) = run_two(&rt, rt.alloc(), first, Source::new(GET));
    first.check(&rt, b"+OK\r\n", Ended::ReadFailed);
    second.check(&rt, VALUE, Ended::EndOfInput);
    drop(second);
    drop(first);
}

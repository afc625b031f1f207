//! Transactions where an allocation is refused.

use crate::pieces::{Outcome, Sink, Source, run};
use connection::Ended;
use std::alloc::Global;
use std::process::Abort;
use std::sync::Wait;

/// Requests of transactions and watches, and what may be said to them where one allocation is refused at
/// most: each request has its reply or the out-of-memory line, and what follows goes by that. A command
/// that could not be queued spoils its transaction; one that was not done left nothing.
const ROWS: &[(&[u8], &[&[u8]])] = &[
    // A transaction, and then what it left.
    (
        b"*1\r\n$5\r\nMULTI\r\n*3\r\n$3\r\nSET\r\n$1\r\na\r\n$1\r\n1\r\n*2\r\n$4\r\nINCR\r\n$1\r\na\r\n*1\r\n$4\r\nEXEC\r\n*2\r\n$3\r\nGET\r\n$1\r\na\r\n",
        &[
            b"+OK\r\n+QUEUED\r\n+QUEUED\r\n*2\r\n+OK\r\n:2\r\n$1\r\n2\r\n",
            b"+OK\r\n-OOM out of memory\r\n+QUEUED\r\n-EXECABORT transaction discarded because of earlier errors\r\n$-1\r\n",
            b"+OK\r\n+QUEUED\r\n-OOM out of memory\r\n-EXECABORT transaction discarded because of earlier errors\r\n$-1\r\n",
            b"+OK\r\n+QUEUED\r\n+QUEUED\r\n-OOM out of memory\r\n$-1\r\n",
            b"+OK\r\n+QUEUED\r\n+QUEUED\r\n*2\r\n+OK\r\n:2\r\n-OOM out of memory\r\n",
        ],
    ),
    // A transaction that reads what it wrote.
    (
        b"*1\r\n$5\r\nMULTI\r\n*3\r\n$3\r\nSET\r\n$1\r\na\r\n$1\r\n1\r\n*2\r\n$4\r\nINCR\r\n$1\r\na\r\n*2\r\n$3\r\nGET\r\n$1\r\na\r\n*1\r\n$4\r\nEXEC\r\n",
        &[
            b"+OK\r\n+QUEUED\r\n+QUEUED\r\n+QUEUED\r\n*3\r\n+OK\r\n:2\r\n$1\r\n2\r\n",
            b"+OK\r\n-OOM out of memory\r\n+QUEUED\r\n+QUEUED\r\n-EXECABORT transaction discarded because of earlier errors\r\n",
            b"+OK\r\n+QUEUED\r\n-OOM out of memory\r\n+QUEUED\r\n-EXECABORT transaction discarded because of earlier errors\r\n",
            b"+OK\r\n+QUEUED\r\n+QUEUED\r\n-OOM out of memory\r\n-EXECABORT transaction discarded because of earlier errors\r\n",
            b"+OK\r\n+QUEUED\r\n+QUEUED\r\n+QUEUED\r\n-OOM out of memory\r\n",
        ],
    ),
    // A transaction over what is there, which writes one key twice.
    (
        b"*3\r\n$3\r\nSET\r\n$1\r\na\r\n$1\r\n1\r\n*1\r\n$5\r\nMULTI\r\n*2\r\n$4\r\nINCR\r\n$1\r\na\r\n*2\r\n$4\r\nINCR\r\n$1\r\na\r\n*1\r\n$4\r\nEXEC\r\n*2\r\n$3\r\nGET\r\n$1\r\na\r\n",
        &[
            b"+OK\r\n+OK\r\n+QUEUED\r\n+QUEUED\r\n*2\r\n:2\r\n:3\r\n$1\r\n3\r\n",
            b"-OOM out of memory\r\n+OK\r\n+QUEUED\r\n+QUEUED\r\n*2\r\n:1\r\n:2\r\n$1\r\n2\r\n",
            b"+OK\r\n+OK\r\n-OOM out of memory\r\n+QUEUED\r\n-EXECABORT transaction discarded because of earlier errors\r\n$1\r\n1\r\n",
            b"+OK\r\n+OK\r\n+QUEUED\r\n-OOM out of memory\r\n-EXECABORT transaction discarded because of earlier errors\r\n$1\r\n1\r\n",
            b"+OK\r\n+OK\r\n+QUEUED\r\n+QUEUED\r\n-OOM out of memory\r\n$1\r\n1\r\n",
            b"+OK\r\n+OK\r\n+QUEUED\r\n+QUEUED\r\n*2\r\n:2\r\n:3\r\n-OOM out of memory\r\n",
        ],
    ),
    // A session that writes the key that it watches, and then watches nothing.
    (
        b"*3\r\n$3\r\nSET\r\n$1\r\nk\r\n$1\r\nv\r\n*2\r\n$5\r\nWATCH\r\n$1\r\nk\r\n*3\r\n$3\r\nSET\r\n$1\r\nk\r\n$1\r\nv\r\n*1\r\n$5\r\nMULTI\r\n*1\r\n$4\r\nPING\r\n*1\r\n$4\r\nEXEC\r\n*1\r\n$5\r\nMULTI\r\n*1\r\n$4\r\nPING\r\n*1\r\n$4\r\nEXEC\r\n",
        &[
            b"+OK\r\n+OK\r\n+OK\r\n+OK\r\n+QUEUED\r\n*-1\r\n+OK\r\n+QUEUED\r\n*1\r\n+PONG\r\n",
            b"-OOM out of memory\r\n+OK\r\n+OK\r\n+OK\r\n+QUEUED\r\n*-1\r\n+OK\r\n+QUEUED\r\n*1\r\n+PONG\r\n",
            b"+OK\r\n-OOM out of memory\r\n+OK\r\n+OK\r\n+QUEUED\r\n*1\r\n+PONG\r\n+OK\r\n+QUEUED\r\n*1\r\n+PONG\r\n",
            b"+OK\r\n+OK\r\n-OOM out of memory\r\n+OK\r\n+QUEUED\r\n*1\r\n+PONG\r\n+OK\r\n+QUEUED\r\n*1\r\n+PONG\r\n",
            b"+OK\r\n+OK\r\n+OK\r\n+OK\r\n-OOM out of memory\r\n-EXECABORT transaction discarded because of earlier errors\r\n+OK\r\n+QUEUED\r\n*1\r\n+PONG\r\n",
            b"+OK\r\n+OK\r\n+OK\r\n+OK\r\n+QUEUED\r\n-OOM out of memory\r\n+OK\r\n+QUEUED\r\n*1\r\n+PONG\r\n",
            b"+OK\r\n+OK\r\n+OK\r\n+OK\r\n+QUEUED\r\n*-1\r\n+OK\r\n-OOM out of memory\r\n-EXECABORT transaction discarded because of earlier errors\r\n",
            b"+OK\r\n+OK\r\n+OK\r\n+OK\r\n+QUEUED\r\n*-1\r\n+OK\r\n+QUEUED\r\n-OOM out of memory\r\n",
        ],
    ),
    // A transaction over a key and a value that are not held inline.
    (
        b"*1\r\n$5\r\nMULTI\r\n*3\r\n$3\r\nSET\r\n$24\r\nkkkkkkkkkkkkkkkkkkkkkkkk\r\n$30\r\nvvvvvvvvvvvvvvvvvvvvvvvvvvvvvv\r\n*2\r\n$3\r\nGET\r\n$24\r\nkkkkkkkkkkkkkkkkkkkkkkkk\r\n*1\r\n$4\r\nEXEC\r\n*2\r\n$3\r\nGET\r\n$24\r\nkkkkkkkkkkkkkkkkkkkkkkkk\r\n",
        &[
            b"+OK\r\n+QUEUED\r\n+QUEUED\r\n*2\r\n+OK\r\n$30\r\nvvvvvvvvvvvvvvvvvvvvvvvvvvvvvv\r\n$30\r\nvvvvvvvvvvvvvvvvvvvvvvvvvvvvvv\r\n",
            b"+OK\r\n-OOM out of memory\r\n+QUEUED\r\n-EXECABORT transaction discarded because of earlier errors\r\n$-1\r\n",
            b"+OK\r\n+QUEUED\r\n-OOM out of memory\r\n-EXECABORT transaction discarded because of earlier errors\r\n$-1\r\n",
            b"+OK\r\n+QUEUED\r\n+QUEUED\r\n-OOM out of memory\r\n$-1\r\n",
            b"+OK\r\n+QUEUED\r\n+QUEUED\r\n*2\r\n+OK\r\n$30\r\nvvvvvvvvvvvvvvvvvvvvvvvvvvvvvv\r\n-OOM out of memory\r\n",
        ],
    ),
    (
        b"*2\r\n$5\r\nWATCH\r\n$24\r\nkkkkkkkkkkkkkkkkkkkkkkkk\r\n*3\r\n$3\r\nSET\r\n$24\r\nkkkkkkkkkkkkkkkkkkkkkkkk\r\n$30\r\nvvvvvvvvvvvvvvvvvvvvvvvvvvvvvv\r\n*1\r\n$5\r\nMULTI\r\n*3\r\n$3\r\nSET\r\n$24\r\nkkkkkkkkkkkkkkkkkkkkkkkk\r\n$30\r\nvvvvvvvvvvvvvvvvvvvvvvvvvvvvvv\r\n*1\r\n$4\r\nEXEC\r\n*2\r\n$3\r\nGET\r\n$24\r\nkkkkkkkkkkkkkkkkkkkkkkkk\r\n",
        &[
            b"+OK\r\n+OK\r\n+OK\r\n+QUEUED\r\n*-1\r\n$30\r\nvvvvvvvvvvvvvvvvvvvvvvvvvvvvvv\r\n",
            b"-OOM out of memory\r\n+OK\r\n+OK\r\n+QUEUED\r\n*1\r\n+OK\r\n$30\r\nvvvvvvvvvvvvvvvvvvvvvvvvvvvvvv\r\n",
            b"+OK\r\n-OOM out of memory\r\n+OK\r\n+QUEUED\r\n*1\r\n+OK\r\n$30\r\nvvvvvvvvvvvvvvvvvvvvvvvvvvvvvv\r\n",
            b"+OK\r\n+OK\r\n+OK\r\n-OOM out of memory\r\n-EXECABORT transaction discarded because of earlier errors\r\n$30\r\nvvvvvvvvvvvvvvvvvvvvvvvvvvvvvv\r\n",
            b"+OK\r\n+OK\r\n+OK\r\n+QUEUED\r\n-OOM out of memory\r\n$30\r\nvvvvvvvvvvvvvvvvvvvvvvvvvvvvvv\r\n",
            b"+OK\r\n+OK\r\n+OK\r\n+QUEUED\r\n*-1\r\n-OOM out of memory\r\n",
        ],
    ),
];

/// Whether a connection may have come to this: to one of the texts, or to a beginning of one where the
/// connection ended out of memory.
fn may_be(outcome: &Outcome, texts: &[&[u8]]) -> bool {
    let text = outcome.text.as_slice();
    match outcome.ended {
        Ended::EndOfInput => texts.iter().any(|whole| *whole == text),
        Ended::NoMemory => texts.iter().any(|whole| whole.starts_with(text)),
        _ => false,
    }
}

/// Asserts that a connection over a new engine comes to one of these texts. Where there is no memory for
/// the engine or the streams there is none.
fn check_row<R: Abort + Wait>(rt: &R, alloc: Global, input: &[u8], texts: &[&[u8]]) {
    let Ok(sink) = Sink::new(alloc, 16_384) else {
        return;
    };
    let Ok(outcome) = run(rt, alloc, Source::new(input, 16_384), sink) else {
        return;
    };
    assert!(rt; may_be(&outcome, texts), "{:?}", outcome.text);
}

/// With each allocation refused in turn (`rt try --test --fail-alloc`), a transaction is done whole or not
/// at all, and its session goes on.
#[test]
fn transactions_with_each_allocation_refused(rt: HostRuntime) {
    let alloc = rt.alloc();
    for &(input, texts) in ROWS {
        check_row(&rt, alloc, input, texts);
    }
}

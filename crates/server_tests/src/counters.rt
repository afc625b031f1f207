//! Transactions of several clients on the same keys.

use crate::client::{
    EXEC, MULTI, OK, QUEUED, answers, answers_words, connect, number, reads, sends, with_server,
};
use std::alloc::Global;
use std::io::{Read, Write};
use std::net::{Net, TcpStream};
use std::thread;
use std::thread::Threads;

/// How often each client adds or moves.
const TIMES: u32 = 500;

const WATCH: &[u8] = b"*2\r\n$5\r\nWATCH\r\n$1\r\nn\r\n";

const GET: &[u8] = b"*2\r\n$3\r\nGET\r\n$1\r\nn\r\n";

const SET_0: &[u8] = b"*3\r\n$3\r\nSET\r\n$1\r\nn\r\n$1\r\n0\r\n";

/// Whether the transaction that was queued is done, and not answered by null. Its only reply is `+OK`.
fn is_done(mut stream: &TcpStream) -> Option<bool> {
    let mut first = [0; 2];
    stream.write_all(EXEC).ok()?;
    stream.read_exact(&mut first).ok()?;
    let is_null = first == *b"*-";
    let rest: &[u8] = if is_null { b"1\r\n" } else { b"\r\n+OK\r\n" };
    if reads(stream, rest) {
        Some(!is_null)
    } else {
        None
    }
}

/// What `n` is.
pub(crate) fn number_now(alloc: Global, stream: &TcpStream) -> Option<u64> {
    if !sends(stream, GET) {
        return None;
    }
    number(alloc, stream)
}

/// Whether a SET of `n` to this number is queued.
fn is_queued(alloc: Global, stream: &TcpStream, number: u64) -> bool {
    match format!(in alloc; "{number}") {
        Ok(text) => answers_words(alloc, stream, &["SET", "n", text.as_str()], QUEUED),
        Err(_) => false,
    }
}

/// Adds 1 to `n` unless it is written meanwhile, and tells whether it did.
fn adds_one(alloc: Global, stream: &TcpStream) -> Option<bool> {
    if !answers(stream, WATCH, OK) {
        return None;
    }
    let next = number_now(alloc, stream)?.wrapping_add(1);
    if answers(stream, MULTI, OK) && is_queued(alloc, stream, next) {
        is_done(stream)
    } else {
        None
    }
}

/// How often this client added 1.
pub(crate) fn additions(alloc: Global, stream: &TcpStream) -> Option<u64> {
    let mut done = 0u64;
    for _ in 0..TIMES {
        if adds_one(alloc, stream)? {
            done = done.wrapping_add(1);
        }
    }
    Some(done)
}

/// How often two clients at once added 1, these two.
fn both_add<R>(rt: &R, first: &TcpStream, second: &TcpStream) -> Option<u64>
where
    R: AllocGlobal + Threads + Sync,
{
    let alloc = rt.alloc();
    let (one, other) = thread::join(rt, || additions(alloc, first), || additions(alloc, second));
    Some(one?.wrapping_add(other?))
}

/// How often two new clients at once added 1.
fn new_clients_add<R>(rt: &R, port: u16) -> Option<u64>
where
    R: AllocGlobal + Net<Stream = TcpStream> + Threads + Sync,
{
    let first = connect(rt, port)?;
    let second = connect(rt, port)?;
    let told = both_add(rt, &first, &second);
    drop(second);
    drop(first);
    told
}

/// Whether two clients at once add 1 as often as the number at the end tells, and 500 times at least.
fn end_tells_additions<R>(rt: &R, port: u16, third: &TcpStream) -> Option<bool>
where
    R: AllocGlobal + Net<Stream = TcpStream> + Threads + Sync,
{
    let set = answers(third, SET_0, OK);
    let done = new_clients_add(rt, port)?;
    let end = number_now(rt.alloc(), third)?;
    Some(set && end == done && done >= 500)
}

/// Two clients add, and a third sets the number before and gets it at the end.
fn two_add<R>(rt: &R, port: u16) -> Option<bool>
where
    R: AllocGlobal + Net<Stream = TcpStream> + Threads + Sync,
{
    let third = connect(rt, port)?;
    let told = end_tells_additions(rt, port, &third);
    drop(third);
    told
}

/// Two clients add 1 each 500 times, by WATCH, GET, MULTI, SET and EXEC: the number at the end is the
/// number of replies that were not null.
#[test]
fn each_addition_that_is_done_counts(rt: HostRuntime) {
    let outcome = with_server(&rt, 3, 16, 3, |_, port| two_add(&rt, port));
    assert!(rt; outcome.is_well(3));
    drop(outcome);
}

const FILL: &[u8] = b"*5\r\n$4\r\nMSET\r\n$1\r\na\r\n$3\r\n500\r\n$1\r\nb\r\n$3\r\n500\r\n";

const BOTH: &[u8] = b"*3\r\n$4\r\nMGET\r\n$1\r\na\r\n$1\r\nb\r\n";

const FROM_A: &[u8] = b"*3\r\n$6\r\nDECRBY\r\n$1\r\na\r\n$1\r\n3\r\n";

const TO_B: &[u8] = b"*3\r\n$6\r\nINCRBY\r\n$1\r\nb\r\n$1\r\n3\r\n";

const FROM_B: &[u8] = b"*3\r\n$6\r\nDECRBY\r\n$1\r\nb\r\n$1\r\n3\r\n";

const TO_A: &[u8] = b"*3\r\n$6\r\nINCRBY\r\n$1\r\na\r\n$1\r\n3\r\n";

/// Moves 3 from one counter to the other in one transaction.
fn moves(stream: &TcpStream, from: &[u8], to: &[u8], reply: &[u8]) -> bool {
    answers(stream, MULTI, OK)
        && answers(stream, from, QUEUED)
        && answers(stream, to, QUEUED)
        && answers(stream, EXEC, reply)
}

/// Moves to and fro between the counters.
fn moves_to_and_fro(stream: &TcpStream) -> bool {
    for _ in 0..TIMES {
        let told = moves(stream, FROM_A, TO_B, b"*2\r\n:497\r\n:503\r\n")
            && moves(stream, FROM_B, TO_A, b"*2\r\n:500\r\n:500\r\n");
        if !told {
            return false;
        }
    }
    true
}

/// The sum of both counters.
pub(crate) fn sum(alloc: Global, stream: &TcpStream) -> Option<u64> {
    if !answers(stream, BOTH, b"*2\r\n") {
        return None;
    }
    let a = number(alloc, stream)?;
    let b = number(alloc, stream)?;
    Some(a.wrapping_add(b))
}

/// Whether both counters together are always what they were at the start.
fn always_sums(alloc: Global, stream: &TcpStream) -> bool {
    for _ in 0..2 * TIMES {
        if sum(alloc, stream) != Some(1_000) {
            return false;
        }
    }
    true
}

/// One client moves, and another looks at both counters.
fn moves_while_one_looks<R>(rt: &R, mover: &TcpStream, watcher: &TcpStream) -> bool
where
    R: AllocGlobal + Threads + Sync,
{
    let filled = answers(mover, FILL, OK);
    let alloc = rt.alloc();
    let (moved, looked) = thread::join(
        rt,
        || moves_to_and_fro(mover),
        || always_sums(alloc, watcher),
    );
    filled && moved && looked
}

/// A new client moves, and another looks at both counters.
fn one_moves_one_looks<R>(rt: &R, port: u16) -> Option<bool>
where
    R: AllocGlobal + Net<Stream = TcpStream> + Threads + Sync,
{
    let mover = connect(rt, port)?;
    let watcher = connect(rt, port)?;
    let told = moves_while_one_looks(rt, &mover, &watcher);
    drop(watcher);
    drop(mover);
    Some(told)
}

/// A client moves between two counters by transactions, while the sum that another reads stays the same.
#[test]
fn a_transaction_is_never_seen_half_done(rt: HostRuntime) {
    let outcome = with_server(&rt, 2, 64, 2, |_, port| one_moves_one_looks(&rt, port));
    assert!(rt; outcome.is_well(2));
    drop(outcome);
}

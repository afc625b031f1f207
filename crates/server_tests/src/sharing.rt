//! Clients at once on the same keys: over sixteen stripes, over one, and over one with few frames while another client
//! fills pages.

use crate::client::{answers, connect, integer, options_with, reads, sends, with_options};
use crate::counters::{additions, number_now, sum};
use crate::pages::{FIRST, has_thirty, options, sets_thirty};
use gates::Open;
use options::Options;
use std::alloc::Global;
use std::net::{Net, TcpStream};
use std::thread;
use std::thread::Threads;

/// A store that clients share.
#[derive(Clone, Copy, Debug)]
enum Shared {
    /// Of sixteen stripes.
    Wide,
    /// Of one stripe.
    OneStripe,
    /// Of one stripe with 12 frames, which another client fills meanwhile.
    Filling,
}

const ALL: [Shared; 3] = [Shared::Wide, Shared::OneStripe, Shared::Filling];

impl Shared {
    /// The options of a server with this store and four workers, which accepts four connections.
    fn options(self) -> Option<Options> {
        match self {
            Shared::Wide => options_with(0, 4, 16, 4),
            Shared::OneStripe => options_with(0, 4, 1, 4),
            Shared::Filling => options(64, 4, 4),
        }
    }

    /// Whether the client that fills is answered as is due, where there is one. It stores 3,600 values of 1,000 bytes,
    /// which take 58 pages, and reads them: more than half of the 64 places are used then, and the cleaner works.
    fn is_filled(self, alloc: Global, stream: &TcpStream) -> Option<bool> {
        match self {
            Shared::Wide | Shared::OneStripe => Some(true),
            Shared::Filling => fills_and_reads(alloc, stream),
        }
    }
}

/// Whether 120 pieces of thirty keys are stored, and each has its value then.
fn fills_and_reads(alloc: Global, stream: &TcpStream) -> Option<bool> {
    for piece in 0..120 {
        if !sets_thirty(alloc, stream, FIRST + piece * 30)? {
            return Some(false);
        }
    }
    for piece in 0..120 {
        if !has_thirty(alloc, stream, FIRST + piece * 30)? {
            return Some(false);
        }
    }
    Some(true)
}

/// How often each of two clients adds 1.
const ADDITIONS: u64 = 1_000;

const INCR: &[u8] = b"*2\r\n$4\r\nINCR\r\n$1\r\nn\r\n";

/// Whether each addition of this client answers more than the one before.
fn adds(alloc: Global, stream: &TcpStream) -> Option<bool> {
    let mut last = 0u64;
    for _ in 0..ADDITIONS {
        if !sends(stream, INCR) {
            return None;
        }
        let next = integer(alloc, stream)?;
        if next <= last {
            return Some(false);
        }
        last = next;
    }
    Some(true)
}

/// One client adds, and another fills.
fn adds_and_fills<R>(
    rt: &R,
    shared: Shared,
    second: &TcpStream,
    filler: &TcpStream,
) -> (Option<bool>, Option<bool>)
where
    R: AllocGlobal + Threads + Sync,
{
    let alloc = rt.alloc();
    thread::join(
        rt,
        || adds(alloc, second),
        || shared.is_filled(alloc, filler),
    )
}

/// Two clients add 1 a thousand times each, and `n` is 2000 then.
fn two_add<R>(rt: &R, port: u16, shared: Shared) -> Option<bool>
where
    R: AllocGlobal + Net<Stream = TcpStream> + Threads + Sync,
{
    let first = connect(rt, port)?;
    let second = connect(rt, port)?;
    let filler = connect(rt, port)?;
    let last = connect(rt, port)?;
    let alloc = rt.alloc();
    let (one, (other, filled)) = thread::join(
        rt,
        || adds(alloc, &first),
        || adds_and_fills(rt, shared, &second, &filler),
    );
    let told = one? && other? && filled? && number_now(alloc, &last)? == 2 * ADDITIONS;
    drop(last);
    drop(filler);
    drop(second);
    drop(first);
    Some(told)
}

/// No addition is lost.
#[test]
fn additions_of_two_clients_at_once_all_count(rt: HostRuntime) {
    for shared in ALL {
        let outcome = with_options(
            &rt,
            &Open,
            shared.options(),
            |_, port| two_add(&rt, port, shared),
        );
        assert!(rt; outcome.is_well(4), "{shared:?}");
    }
}

/// How often each of two clients moves.
const MOVES: u32 = 500;

const FILL: &[u8] = b"*5\r\n$4\r\nMSET\r\n$1\r\na\r\n$4\r\n1000\r\n$1\r\nb\r\n$1\r\n0\r\n";

const BOTH: &[u8] = b"*3\r\n$4\r\nMGET\r\n$1\r\na\r\n$1\r\nb\r\n";

/// A transaction that moves 1 from one counter to the other.
const MOVE: &[u8] =
    b"*1\r\n$5\r\nMULTI\r\n*3\r\n$6\r\nDECRBY\r\n$1\r\na\r\n$1\r\n1\r\n*3\r\n$6\r\nINCRBY\r\n$1\r\nb\r\n$1\r\n1\r\n*1\r\n$4\r\nEXEC\r\n";

/// What it is answered before its numbers.
const MOVED: &[u8] = b"+OK\r\n+QUEUED\r\n+QUEUED\r\n*2\r\n";

/// Whether each transaction of this client finds both counters as they were left by one before.
fn moves(alloc: Global, stream: &TcpStream) -> Option<bool> {
    for _ in 0..MOVES {
        if !answers(stream, MOVE, MOVED) {
            return None;
        }
        let a = integer(alloc, stream)?;
        let b = integer(alloc, stream)?;
        if a.wrapping_add(b) != 1_000 {
            return Some(false);
        }
    }
    Some(true)
}

/// Whether both counters together are always 1000.
fn always_sums(alloc: Global, stream: &TcpStream) -> Option<bool> {
    for _ in 0..MOVES {
        if sum(alloc, stream)? != 1_000 {
            return Some(false);
        }
    }
    Some(true)
}

/// One client looks at both counters, and another fills.
fn looks_and_fills<R>(
    rt: &R,
    shared: Shared,
    looker: &TcpStream,
    filler: &TcpStream,
) -> (Option<bool>, Option<bool>)
where
    R: AllocGlobal + Threads + Sync,
{
    let alloc = rt.alloc();
    thread::join(
        rt,
        || always_sums(alloc, looker),
        || shared.is_filled(alloc, filler),
    )
}

/// Two clients move at once.
fn both_move<R>(rt: &R, first: &TcpStream, second: &TcpStream) -> (Option<bool>, Option<bool>)
where
    R: AllocGlobal + Threads + Sync,
{
    let alloc = rt.alloc();
    thread::join(rt, || moves(alloc, first), || moves(alloc, second))
}

/// Two clients move 500 times each, while a third looks at both counters. All is moved then.
fn two_move_and_a_third_looks<R>(rt: &R, port: u16, shared: Shared) -> Option<bool>
where
    R: AllocGlobal + Net<Stream = TcpStream> + Threads + Sync,
{
    let first = connect(rt, port)?;
    let second = connect(rt, port)?;
    let looker = connect(rt, port)?;
    let filler = connect(rt, port)?;
    let set = answers(&first, FILL, b"+OK\r\n");
    let ((one, other), (looked, filled)) = thread::join(
        rt,
        || both_move(rt, &first, &second),
        || looks_and_fills(rt, shared, &looker, &filler),
    );
    let end = sends(&first, BOTH) && reads(&first, b"*2\r\n$1\r\n0\r\n$4\r\n1000\r\n");
    drop(filler);
    drop(looker);
    drop(second);
    drop(first);
    Some(set && one? && other? && looked? && filled? && end)
}

/// A transaction is never seen half done, and none is lost.
#[test]
fn transactions_of_two_clients_at_once_are_seen_whole(rt: HostRuntime) {
    for shared in ALL {
        let outcome = with_options(
            &rt,
            &Open,
            shared.options(),
            |_, port| two_move_and_a_third_looks(&rt, port, shared),
        );
        assert!(rt; outcome.is_well(4), "{shared:?}");
    }
}

/// One client adds by transactions with a watch, and another fills.
fn adds_watching_and_fills<R>(
    rt: &R,
    shared: Shared,
    second: &TcpStream,
    filler: &TcpStream,
) -> (Option<u64>, Option<bool>)
where
    R: AllocGlobal + Threads + Sync,
{
    let alloc = rt.alloc();
    thread::join(
        rt,
        || additions(alloc, second),
        || shared.is_filled(alloc, filler),
    )
}

/// Two clients add 1 by transactions that watch `n`, which is missing at first. `n` is then how many were done.
fn two_add_watching<R>(rt: &R, port: u16, shared: Shared) -> Option<bool>
where
    R: AllocGlobal + Net<Stream = TcpStream> + Threads + Sync,
{
    let first = connect(rt, port)?;
    let second = connect(rt, port)?;
    let filler = connect(rt, port)?;
    let last = connect(rt, port)?;
    let alloc = rt.alloc();
    let (one, (other, filled)) = thread::join(
        rt,
        || additions(alloc, &first),
        || adds_watching_and_fills(rt, shared, &second, &filler),
    );
    let done = one?.wrapping_add(other?);
    let told = filled? && done >= 500 && number_now(alloc, &last)? == done;
    drop(last);
    drop(filler);
    drop(second);
    drop(first);
    Some(told)
}

/// A transaction is null where the other client wrote the watched key, and done where it did not.
#[test]
fn transactions_that_watch_count_where_they_are_not_null(rt: HostRuntime) {
    for shared in ALL {
        let outcome = with_options(
            &rt,
            &Open,
            shared.options(),
            |_, port| two_add_watching(&rt, port, shared),
        );
        assert!(rt; outcome.is_well(4), "{shared:?}");
    }
}

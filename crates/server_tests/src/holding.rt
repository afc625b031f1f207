//! Calls that a latch holds up, and what it is told of them.

use crate::client::{
    EXEC, MULTI, OK, QUEUED, answers, answers_words, connect, reads, sends, with_latch,
};
use gates::{Latch, Point};
use std::alloc::Global;
use std::net::{Net, TcpListener, TcpStream};
use std::process::Abort;
use std::rt::Clock;
use std::sync::Wait;
use std::sync::atomic::{AtomicBool, AtomicU64, Ordering};
use std::thread::{Threads, sleep};
use std::time::Duration;

/// How often a wait sleeps for a millisecond at most.
const TURNS: u32 = 10_000;

/// Waits until this is so. False after all turns.
pub(crate) fn wait_for(clock: &impl Clock, told: &AtomicBool) -> bool {
    for _ in 0..TURNS {
        if told.load(Ordering::SeqCst) {
            return true;
        }
        sleep(clock, Duration::from_millis(1));
    }
    false
}

/// Holds up the first call that has its stripes, until another one is answered.
#[derive(Drop)]
struct Holds<'a, R> {
    clock: &'a R,
    /// A call is held up.
    came: AtomicBool,
    /// The other one is answered.
    answered: AtomicBool,
    /// The call went on after all turns.
    late: AtomicBool,
}

impl<R: Clock> Latch for Holds<'_, R> {
    fn at(&self, _pass: u64, point: Point) {
        if point != Point::Holding || self.came.load(Ordering::SeqCst) {
            return;
        }
        self.came.store(true, Ordering::SeqCst);
        let answered = wait_for(self.clock, &self.answered);
        self.late.store(!answered, Ordering::SeqCst);
    }
}

/// A call that is held up: what its client was answered before, its request and its reply.
#[derive(Clone, Copy)]
enum Held {
    Command,
    Transaction,
    Watch,
}

impl Held {
    /// Whether the client comes to its call, and sends it.
    fn is_sent(self, alloc: Global, client: &TcpStream) -> bool {
        match self {
            Held::Command => sends(client, b"*3\r\n$3\r\nSET\r\n$1\r\na\r\n$1\r\n1\r\n"),
            Held::Transaction => {
                answers(client, MULTI, OK)
                    && answers_words(alloc, client, &["SET", "a", "1"], QUEUED)
                    && sends(client, EXEC)
            }
            Held::Watch => sends(client, b"*2\r\n$5\r\nWATCH\r\n$1\r\na\r\n"),
        }
    }

    /// What its client reads.
    fn reply(self) -> &'static [u8] {
        match self {
            Held::Command | Held::Watch => OK,
            Held::Transaction => b"*1\r\n+OK\r\n",
        }
    }
}

/// Whether a client is answered a command, a watch and a transaction, all of a key of another stripe than that of
/// the key `a`.
fn another_is_answered(alloc: Global, client: &TcpStream) -> bool {
    answers_words(alloc, client, &["SET", "b", "2"], OK)
        && answers_words(alloc, client, &["WATCH", "b"], OK)
        && answers(client, MULTI, OK)
        && answers_words(alloc, client, &["GET", "b"], QUEUED)
        && answers(client, EXEC, b"*1\r\n$1\r\n2\r\n")
}

/// Whether the second client is answered while the call of the first is held up, and the first then.
fn two_clients<R>(rt: &R, port: u16, latch: &Holds<'_, R>, held: Held) -> Option<bool>
where
    R: AllocGlobal + Clock + Net<Stream = TcpStream>,
{
    let one = connect(rt, port)?;
    let two = connect(rt, port)?;
    let sent = held.is_sent(rt.alloc(), &one);
    let came = wait_for(rt, &latch.came);
    let answered = another_is_answered(rt.alloc(), &two);
    latch.answered.store(true, Ordering::SeqCst);
    let told = sent && came && answered && reads(&one, held.reply());
    drop(two);
    drop(one);
    Some(told)
}

/// Whether calls of a second client are answered while this call of the first is held up.
fn goes_on_beside<R>(rt: &R, held: Held) -> bool
where
    R: Abort
        + AllocGlobal
        + Clock
        + Net<Listener = TcpListener, Stream = TcpStream>
        + Threads
        + Wait
        + Sync,
{
    let latch = &Holds {
        clock: rt,
        came: AtomicBool::new(false),
        answered: AtomicBool::new(false),
        late: AtomicBool::new(false),
    };
    let outcome = with_latch(
        rt,
        latch,
        2,
        16,
        2,
        |rt, port| two_clients(rt, port, latch, held),
    );
    let told = outcome.is_well(2) && !latch.late.load(Ordering::SeqCst);
    drop(outcome);
    told
}

/// The server takes no lock round its calls: while one has its stripe, those of other stripes go on.
#[test]
fn call_two_is_answered_while_call_one_is_held(rt: HostRuntime) {
    assert!(rt; goes_on_beside(&rt, Held::Command), "a command");
    assert!(rt; goes_on_beside(&rt, Held::Transaction), "a transaction");
    assert!(rt; goes_on_beside(&rt, Held::Watch), "a watch");
}

/// Remembers where calls were, by a digit each: 1 before, 2 holding, 3 after.
#[derive(Drop)]
struct Trail {
    digits: AtomicU64,
}

impl Latch for Trail {
    fn at(&self, _pass: u64, point: Point) {
        let digit = match point {
            Point::Before => 1,
            Point::Holding => 2,
            Point::After => 3,
        };
        let so_far = self.digits.load(Ordering::SeqCst);
        let digits = so_far.wrapping_mul(10).wrapping_add(digit);
        self.digits.store(digits, Ordering::SeqCst);
    }
}

/// Whether a client is answered a command, a watch and a transaction.
fn three_calls(rt: &HostRuntime, port: u16) -> Option<bool> {
    Some(another_is_answered(rt.alloc(), &connect(rt, port)?))
}

/// The latch is told once of each of a command, a watch and a transaction that it holds its stripes, after it was
/// told that it begins, and before it is told that it has given them back.
#[test]
fn a_latch_is_told_where_each_call_is(rt: HostRuntime) {
    let trail = &Trail {
        digits: AtomicU64::new(0),
    };
    let outcome = with_latch(&rt, trail, 1, 16, 1, three_calls);
    assert!(rt; outcome.is_well(1));
    assert_eq!(rt; trail.digits.load(Ordering::SeqCst), 123_123_123);
    drop(outcome);
}

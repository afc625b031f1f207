//! Watches that end with their connection, however it ends, and with a transaction that meets a fault.

ghost use Rattle.std.specs.Prelude.{◌≡◌, ◌+◌, [], IfOk, vec_len};
ghost use Rattle.engine.specs.Passes.{knows, Rests};
ghost use Rattle.engine.specs.declared.TheConstants.{BACKGROUND_PASSES};

use crate::keys::{add_get, sets};
use crate::talks::{Source, engine_over, memory, narrow, talk, talk_to, wide};
use connection::Ended;
use device::{Device, Faulty, MemoryDevice};
use engine::{Engine, Pass};
use std::alloc::{AllocError, Global};
use std::io;
use std::io::{ErrorKind, Write};
use std::process::Abort;
use std::sync::Wait;
use words::limits::Limits;

/// A writer into memory.
#[derive(Drop)]
struct Sink {
    text: Vec<u8>,
    /// How many bytes are taken before writes fail.
    room: usize,
}

impl Write for Sink {
    fn write(&mut self, bytes: &[u8]) -> io::Result<usize> {
        if self.room == 0 {
            return Err(ErrorKind::BrokenPipe.into());
        }
        let count = bytes.len().min(self.room);
        self.text.extend_from_slice(&bytes[..count])?;
        self.room -= count;
        Ok(count)
    }

    fn flush(&mut self) -> io::Result<()> {
        Ok(())
    }
}

/// A connection that ends while it watches the key `k`.
#[derive(Clone, Copy)]
struct Watcher {
    input: &'static [u8],
    /// Whether a read fails after the input.
    fails: bool,
    /// How many bytes are written before writes fail.
    room: usize,
    text: &'static [u8],
    ended: Ended,
}

/// One for each ending that no want of memory brings.
const WATCHERS: &[Watcher] = &[
    Watcher {
        input: b"*2\r\n$5\r\nWATCH\r\n$1\r\nk\r\n",
        fails: false,
        room: 100,
        text: b"+OK\r\n",
        ended: Ended::EndOfInput,
    },
    Watcher {
        input: b"*2\r\n$5\r\nWATCH\r\n$1\r\nk\r\n*1\r\n$4\r\nQUIT\r\n",
        fails: false,
        room: 100,
        text: b"+OK\r\n+OK\r\n",
        ended: Ended::Quit,
    },
    Watcher {
        input: b"*2\r\n$5\r\nWATCH\r\n$1\r\nk\r\n+",
        fails: false,
        room: 100,
        text: b"+OK\r\n-ERR Protocol error: expected '*'\r\n",
        ended: Ended::ProtocolFault,
    },
    Watcher {
        input: b"*2\r\n$5\r\nWATCH\r\n$1\r\nk\r\n",
        fails: true,
        room: 100,
        text: b"+OK\r\n",
        ended: Ended::ReadFailed,
    },
    Watcher {
        input: b"*2\r\n$5\r\nWATCH\r\n$1\r\nk\r\n",
        fails: false,
        room: 3,
        text: b"+OK",
        ended: Ended::WriteFailed,
    },
];

impl Watcher {
    /// What it reads.
    fn source(self) -> Source<'static> {
        if self.fails {
            Source::failing(self.input)
        } else {
            Source::new(self.input)
        }
    }
}

const SET: &[u8] = b"*3\r\n$3\r\nSET\r\n$1\r\nk\r\n$1\r\nv\r\n";

/// A watch of the key, and a transaction.
const WATCHES_ANEW: &[u8] =
    b"*2\r\n$5\r\nWATCH\r\n$1\r\nk\r\n*1\r\n$5\r\nMULTI\r\n*2\r\n$3\r\nGET\r\n$1\r\nk\r\n*1\r\n$4\r\nEXEC\r\n";

const WATCHES_ANEW_ANSWER: &[u8] = b"+OK\r\n+OK\r\n+QUEUED\r\n*1\r\n$1\r\nv\r\n";

/// Asserts that a watch ends with this connection. Another pass writes the key, and the first one watches it anew. Had its
/// mark stayed, it would be that of a written key, and the transaction null.
fn check_ends<D: Device, R: Abort + Wait>(
    rt: &R,
    alloc: Global,
    engine: &Engine<D>,
    passes: (Pass<D>, Pass<D>),
    watcher: Watcher,
)
    requires rests { Rests D.Receipt.is_steady engine.now passes.0 × Rests D.Receipt.is_steady engine.now passes.1 }
    requires watches { ((knows D.failures passes.0).watched ≡ []) × ((knows D.failures passes.1).watched ≡ []) }
{
    let room = watcher.room;
    let sink = Sink {
        text: Vec::new(alloc),
        room,
    };
    let (pass, sink, ended) = talk_to(rt, alloc, watcher.source(), sink, engine, passes.0);
    assert!(rt; ended == watcher.ended && sink.text.as_slice() == watcher.text);
    let (other, set) = talk(rt, alloc, Source::new(SET), engine, passes.1);
    set.check(rt, b"+OK\r\n", Ended::EndOfInput);
    let (pass, anew) = talk(rt, alloc, Source::new(WATCHES_ANEW), engine, pass);
    anew.check(rt, WATCHES_ANEW_ANSWER, Ended::EndOfInput);
    drop(anew);
    drop(set);
    drop(pass);
    drop(other);
    drop(sink);
}

/// Checks each of the ways to end over a new engine.
fn check_ends_of_new<R: Abort + Wait>(rt: &R, alloc: Global, watcher: Watcher) {
    let limits = narrow();
    let (engine, first, second) = engine_over(
        alloc,
        &limits,
        memory(alloc, &limits).expect(rt, "memory for a device"),
    )
    .expect(rt, "memory for an engine");
    check_ends(rt, alloc, &engine, (first, second), watcher);
    drop(engine);
}

#[test]
fn a_watch_ends_with_its_connection(rt: HostRuntime) {
    for &watcher in WATCHERS {
        check_ends_of_new(&rt, rt.alloc(), watcher);
    }
}

/// Openings of a device over memory. The first call of the fourth one fails, and no other.
fn failing(alloc: Global, limits: &Limits) -> Result<Vec<Faulty<MemoryDevice>>, AllocError>
    ensures { IfOk result (λ openings. vec_len openings ≡ limits.now.clients + BACKGROUND_PASSES) }
{
    let mut below = memory(alloc, limits)?;
    let mut openings = Vec::new(alloc);
    while let Some(opening) = below.pop() {
        let mut calls = [0].to_vec(alloc)?;
        if openings.len() != 3 {
            calls.clear();
        }
        openings.push(Faulty::new(opening, calls))?;
    }
    Ok(openings)
}

/// A transaction that watches a key, and whose read of another fails. Then the key is written, watched anew, and read in a
/// transaction.
fn watches_and_fails(rt: &impl Abort, alloc: Global) -> Vec<u8> {
    let mut input = Vec::new(alloc);
    input
        .extend_from_slice(b"*2\r\n$5\r\nWATCH\r\n$1\r\nk\r\n*1\r\n$5\r\nMULTI\r\n")
        .expect(rt, "memory for a text");
    add_get(rt, &mut input, 0);
    input
        .extend_from_slice(b"*1\r\n$4\r\nEXEC\r\n")
        .expect(rt, "memory for a text");
    input.extend_from_slice(SET).expect(rt, "memory for a text");
    input
        .extend_from_slice(WATCHES_ANEW)
        .expect(rt, "memory for a text");
    input
}

const WATCHES_AND_FAILS_ANSWER: &[u8] =
    b"+OK\r\n+OK\r\n+QUEUED\r\n-IOERR device fault\r\n+OK\r\n+OK\r\n+OK\r\n+QUEUED\r\n*1\r\n$1\r\nv\r\n";

/// The watches of a transaction end with it where a read of it fails: the key that it watched is watched anew after a write,
/// and that write does not count.
#[test]
fn a_transaction_whose_read_fails_watches_no_more(rt: HostRuntime) {
    let alloc = rt.alloc();
    let (stored, input) = (sets(&rt, alloc, 3_000), watches_and_fails(&rt, alloc));
    let limits = wide();
    let (engine, first, second) = engine_over(
        alloc,
        &limits,
        failing(alloc, &limits).expect(&rt, "memory for a device"),
    )
    .expect(&rt, "memory for an engine");
    let (_second, before) = talk(&rt, alloc, Source::new(&stored), &engine, second);
    assert!(rt; before.text.len() == 3_000 * 5);
    let (_first, after) = talk(&rt, alloc, Source::new(&input), &engine, first);
    after.check(&rt, WATCHES_AND_FAILS_ANSWER, Ended::EndOfInput);
    drop(after);
    drop(before);
    drop(engine);
}

//! How connections are closed, so that their clients can read the last reply.
//!
//! Where the server ends a connection, the client may still be sending. If the socket were closed with
//! bytes unread, the kernel would reset the connection, and the client would lose the last reply. So the
//! server says that it sends no more, and then reads and drops what comes, within bounds. One thread does
//! so for all such connections, and never waits for any of them: a client that stays keeps neither a
//! worker nor another client waiting.

ghost use Rattle.std.specs.Duration.{as_nanos};
ghost use Rattle.std.specs.Prelude.{◌≡◌, ◌≤◌, ◌<◌, ◌*◌, ◌/◌, ◌↔◌, IfOk, IsTrue, max, vec_capacity, vec_len};
ghost use Rattle.sockets.specs.Closing.{with_last};

use crossbeam_channel::{Receiver, RecvTimeoutError, Sender};
use std::alloc::Global;
use std::io::{ErrorKind, Read};
use std::net::{Shutdown, TcpStream};
use std::rt::Clock;
use std::sync::Wait;
use std::time::{Duration, Instant};
use std::{io, thread};

/// The most bytes that are read and dropped from a client that still sends.
const DROPPED_BYTES_MAX: usize = 1_048_576;
/// How many milliseconds a client that does not close is waited for.
const LEAVING_MILLISECONDS_MAX: u64 = 1_000;
/// How many clients are waited for at one time. A further one takes the place of the one that came first.
pub const LEAVING_MAX: usize = 64;
/// How many milliseconds pass between two looks at the clients that are waited for.
const LOOK_MILLISECONDS: u64 = 5;
/// How many bytes are read at once.
const PIECE: usize = 16_384;

/// A connection whose client was sent the last byte, and has not closed it yet. [`close_later`] makes it and hands it over,
/// [`close_all`] closes it.
#[derive(Drop)]
pub struct Leaving {
    stream: TcpStream,
    since: Instant,
    /// How many bytes may still be read and dropped.
    left: usize,
}

impl Leaving {
    /// Says that the server sends no more. 1,048,576 bytes may be read and dropped from then on.
    fn new(clock: &impl Clock, stream: TcpStream) -> io::Result<Leaving>
        ensures { IfOk result (λ leaving. leaving.left ≡ 1_048_576) }
    {
        stream.shutdown(Shutdown::Write)?;
        stream.set_nonblocking(true)?;
        Ok(Leaving {
            stream,
            since: Instant::now(clock)?,
            left: DROPPED_BYTES_MAX,
        })
    }

    /// Drops what the client has sent so far, and tells whether it is waited for any longer.
    fn is_awaited(&mut self, clock: &impl Clock) -> bool
        ensures { self.new.left ≤ self.old.left }
    {
        match self.since.elapsed(clock) {
            Ok(time) if is_soon(time) => self.drop_input(),
            _ => false,
        }
    }

    /// Drops what the client has sent so far. Tells whether it may send more, which is then dropped too.
    fn drop_input(&mut self) -> bool
        ensures fewer { self.new.left ≤ self.old.left }
        ensures spent { IsTrue result → 0 < self.new.left }
    {
        let mut piece = [0; PIECE];
        while self.left > 0 {
            match (&self.stream).read(&mut piece) {
                Ok(0) => return false,
                Ok(count) => self.left = self.left.saturating_sub(count),
                Err(error) => return error.kind() == ErrorKind::WouldBlock,
            }
        }
        false
    }
}

/// Whether a client that was sent the last byte so long ago is waited for any longer: for less than 1,000 milliseconds.
fn is_soon(time: Duration) -> bool
    ensures { IsTrue result ↔ (as_nanos time / 1_000_000 < 1_000) }
{
    time.as_millis() < u128::from(LEAVING_MILLISECONDS_MAX)
}

/// Says that a connection was given to [`close_later`], which alone makes it.
#[derive(Drop)]
pub struct ClosedLater {
    _made: (),
}

/// Has a connection closed once its client has closed it, by whoever is at the other end of this channel ([`close_all`]), and
/// does not wait for that here. The last byte was sent. Where the connection cannot be handed over, or has failed, it is
/// closed at once.
pub fn close_later<R: Clock + Wait>(
    rt: &R,
    stream: TcpStream,
    closer: &Sender<Leaving>,
) -> ClosedLater {
    if let Ok(leaving) = Leaving::new(rt, stream) {
        // Where it cannot be handed over, it is dropped, which closes it.
        let _ = closer.send(rt, leaving);
    }
    ClosedLater { _made: () }
}

/// Closes connections as they are handed over by [`close_later`], until nobody can hand over another and the last is closed. A
/// client that stays is waited for 1,000 milliseconds and 1,048,576 bytes at most, and only while no more than [`LEAVING_MAX`]
/// are waited for. These are kept in `all`, which has none at first and is to have room for so many: a connection for which
/// there is no room and no memory is closed at once.
pub fn close_all<R: Clock + Wait>(rt: &R, handed: &Receiver<Leaving>, mut all: Vec<Leaving>) {
    for _ in rt.forever() {
        match next(rt, handed, all.is_empty()) {
            Ok(leaving) => add(&mut all, leaving),
            Err(RecvTimeoutError::Timeout) => {}
            Err(RecvTimeoutError::Disconnected) if all.is_empty() => return,
            Err(RecvTimeoutError::Disconnected) => {
                thread::sleep(rt, Duration::from_millis(LOOK_MILLISECONDS));
            }
        }
        all.retain_mut(|leaving| leaving.is_awaited(rt));
    }
}

/// Adds a connection, in place of the first where there are as many as may be waited for: 64.
fn add(all: &mut Vec<Leaving>, leaving: Leaving)
    ensures most { vec_len all.new ≤ max 64 (vec_len all.old) }
    ensures items { 64 ≤ vec_capacity all.old → all.new.items ≡ with_last 64 all.old.items leaving }
{
    if all.len() >= LEAVING_MAX {
        drop(all.remove(0));
    }
    // There is room, so that no memory is asked for.
    let _ = all.push(leaving);
}

/// The next connection that is handed over. It is waited for as long as it takes where there is no
/// other, and else until the next look at these.
fn next<R: Clock + Wait>(
    rt: &R,
    handed: &Receiver<Leaving>,
    is_only: bool,
) -> Result<Leaving, RecvTimeoutError> {
    if is_only {
        handed.recv(rt).map_err(|_| RecvTimeoutError::Disconnected)
    } else {
        handed.recv_timeout(rt, Duration::from_millis(LOOK_MILLISECONDS))
    }
}

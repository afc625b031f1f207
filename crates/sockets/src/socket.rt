//! The socket of a connection, from which one reads and to which another writes.
//!
//! A read waits for its client. But to sleep and be woken takes longer than a short request and its reply do, so
//! while few connections are served a reader asks for 50 µs, again and again, whether input has come, and lets other
//! threads run in between, before it sleeps. Where that finds nothing it is done less and less often, so a client
//! that takes its time costs nothing. Where other programs have the processors, the time is over when the reader
//! runs again: then it sleeps at once for a while, since who sleeps is let run sooner than who steps aside. With more
//! connections than processors there is always another thread to run, and a reader sleeps at once.
//!
//! Where the cleaner of the store is behind those who write, a reader waits for it before it reads on, for some milliseconds at
//! most. So a store that is overwritten for long is as fast as places come back, and is not full for that alone.
//!
//! While it is asked, the socket's calls must not wait, and reader and writer have the one socket: so it is kept
//! whether its calls wait, and each call changes that only where it has to. A client that sends one request after
//! the other, or more than is read at once, has it changed seldom.

ghost use Rattle.std.specs.Duration.{as_nanos};
ghost use Rattle.std.specs.Prelude.{◌≡◌, ◌≤◌, ◌<◌, ◌-◌, ◌/◌, ◌⊎◌, ◌↔◌, [], true, None, length, IfSome, IsTrue};
ghost use Rattle.std.specs.Io.{ReadsAtMost, WritesAtMost};
ghost use Rattle.std.specs.Io.KnownBytes.{Keeps, ReadConsumes, WriteAppends};
ghost use Rattle.streams.specs.Streams.{IsReadReady};
ghost use Rattle.sockets.specs.Pausing.{HasPaused};
ghost use Rattle.sockets.specs.Sockets.{source_of, asked_of, kept_in, pauses_in, sink_of, handed_of};
ghost use Rattle.sockets.specs.SystemCalls.{GivesBytes, HasLooked, HasRead, HasTold, HasWritten, IsKept};

use crate::line::Line;
use crate::pausing::{Cleaner, pause};
use crate::serving::{Accepted, Serving};
use crate::waiting::Waiting;
use std::io;
use std::io::{ErrorKind, Read, Write};
use std::net::TcpStream;
use std::rt::Clock;
use std::thread::yield_now;
use std::time::{Duration, Instant};
use streams::ReadReady;

/// For how many microseconds a reader asks for input before it sleeps: as long as Linux advises to poll a device.
const POLL_MICROSECONDS: u64 = 50;
/// How often it asks at most in that time.
const LOOKS_MAX: u32 = 1_000;
/// How often it asks at least in that time, unless other programs have the processors.
const LOOKS_MIN: u32 = 8;
/// The most reads in a row that sleep at once, since asking found nothing before them.
const RESTS_MAX: u32 = 63;
/// How many reads in a row sleep at once where other programs had the processors.
const CROWDED_RESTS: u32 = 255;

/// A socket, and whether its calls wait. They do at first. Its reader and its writer have it in common.
#[derive(Drop)]
pub struct Socket<'a> {
    stream: &'a TcpStream,
    waiting: Waiting<'a>,
}

impl<'a> Socket<'a> {
    /// The socket of this connection, whose calls are to wait, as those of a new connection do. What is written to it is sent at
    /// once.
    pub fn new(connection: &'a Accepted<'_>) -> Socket<'a> {
        let stream = connection.stream();
        // Without this a short reply may wait for the client's acknowledgement of the one before.
        let _ = stream.set_nodelay(true);
        Socket {
            stream,
            waiting: Waiting::new(stream),
        }
    }
}

/// Reads from a stream as a [`SocketReader`](crate::SocketReader) reads from its socket.
///
/// It is proved over each stream `S`, also over one whose bytes contracts know: it gives exactly the bytes that it takes.
#[derive(Drop)]
pub(crate) struct Reading<'a, C, S> {
    clock: &'a C,
    serving: &'a Serving,
    /// Where the bytes come from.
    line: Line<'a, S>,
    /// How long reads waited for the cleaner.
    cleaner: Cleaner<'a, C>,
    /// Whether few connections were served when that was asked last.
    few: bool,
    /// How the socket failed when it was asked. The system tells that once, so the next read tells it again.
    failed: Option<ErrorKind>,
    /// How many reads sleep at once before one asks again.
    rests: u32,
    /// How many do so once asking finds nothing.
    next_rests: u32,
}

impl<'a, C> Reading<'a, C, &'a TcpStream> {
    /// Reads from this socket, whose connection is one of those that are served.
    pub(crate) fn new(
        clock: &'a C,
        socket: &'a Socket<'a>,
        serving: &'a Serving,
    ) -> Reading<'a, C, &'a TcpStream>
        ensures reads { asked_of result ≡ [] }
        ensures kept { kept_in result ≡ None }
    {
        Reading {
            clock,
            serving,
            line: Line::new(socket.stream, &socket.waiting),
            cleaner: Cleaner::new(clock, serving),
            few: false,
            failed: None,
            rests: 0,
            next_rests: 0,
        }
    }
}

impl<C: Clock, S: Read> Reading<'_, C, S> {
    /// Keeps a failure for the next read to tell. That the call would block or was interrupted is none.
    fn note(&mut self, kind: ErrorKind)
        requires { self.old.failed ≡ None }
        ensures cleaner { self.new.cleaner ≡ self.old.cleaner }
        ensures line { self.new.line ≡ self.old.line }
        ensures kept { IsKept kind self.new.failed }
    {
        if kind != ErrorKind::WouldBlock && kind != ErrorKind::Interrupted {
            self.failed = Some(kind);
        }
    }

    /// Whether the next read asks for input before it sleeps: where few connections are served, and no rest is left. Whether few
    /// are is asked in one line, which is what is left to trust of it.
    fn takes_a_look(&mut self) -> bool
        ensures rests { self.new.rests ≡ self.old.rests - 1 }
        ensures look { IsTrue result ↔ (self.old.rests ≡ 0) × IsTrue self.new.few }
        ensures cleaner { self.new.cleaner ≡ self.old.cleaner }
        ensures line { self.new.line ≡ self.old.line }
        ensures failed { self.new.failed ≡ self.old.failed }
    {
        self.few = self.serving.is_few();
        if self.rests > 0 {
            self.rests -= 1;
            return false;
        }
        self.few
    }

    /// Asks for input before it sleeps, where that is done. `None` where none came, or the socket ended or failed.
    fn look_first(&mut self, buffer: &mut [u8]) -> Option<usize>
        ensures within { IfSome result (λ count. count ≤ length buffer.new) }
        ensures bytes { GivesBytes (S.remaining (source_of self.old)) (S.remaining (source_of self.new)) buffer.new result }
        ensures calls { HasLooked (length buffer.new) (kept_in self.old) (kept_in self.new) result (asked_of self.old) (asked_of self.new) }
        ensures cleaner { self.new.cleaner ≡ self.old.cleaner }
    {
        if self.failed.is_none() && !buffer.is_empty() && self.takes_a_look() {
            self.look(buffer)
        } else {
            None
        }
    }

    /// Tells a failure that was kept, or sleeps until there is input or an end.
    fn wait(&mut self, buffer: &mut [u8]) -> io::Result<usize>
        ensures bound { ReadsAtMost result buffer.new }
        ensures bytes { ReadConsumes (S.remaining (source_of self.old)) (S.remaining (source_of self.new)) result buffer.new }
        ensures calls { HasTold (length buffer.new) (kept_in self.old) result (asked_of self.old) (asked_of self.new) }
        ensures kept { kept_in self.new ≡ None }
        ensures cleaner { self.new.cleaner ≡ self.old.cleaner }
    {
        if let Some(kind) = self.failed.take() {
            return Err(kind.into());
        }
        self.line.set_waiting(true)?;
        self.line.read(buffer)
    }

    /// Whether a reader that began to ask then still asks.
    fn is_early(&self, began: &Instant) -> bool {
        match began.elapsed(self.clock) {
            Ok(time) => is_brief(time),
            Err(_) => false,
        }
    }

    /// Asks for input again and again, and reads it once it is there. `None` where none came, or the socket
    /// ended or failed.
    fn look(&mut self, buffer: &mut [u8]) -> Option<usize>
        requires room { 0 < length buffer.old }
        requires few { self.old.few ≡ true }
        requires rested { self.old.rests ≡ 0 }
        requires well { self.old.failed ≡ None }
        ensures ready { IsReadReady (S.remaining (source_of self.old)) (S.remaining (source_of self.new)) buffer.new result }
        ensures calls { HasLooked (length buffer.new) (kept_in self.old) (kept_in self.new) result (asked_of self.old) (asked_of self.new) }
        ensures kept { self.new.cleaner ≡ self.old.cleaner }
    {
        let Ok(began) = Instant::now(self.clock) else {
            return None;
        };
        for looks in 0..LOOKS_MAX {
            if let Some(count) = self.read_ready(buffer) {
                self.next_rests = 0;
                return Some(count);
            }
            if self.failed.is_some() {
                return None;
            }
            yield_now();
            if !self.is_early(&began) {
                self.rest(looks < LOOKS_MIN);
                return None;
            }
        }
        self.rest(false);
        None
    }

    /// Asking found nothing, so some reads sleep at once: more each time, or many where other programs had the processors.
    fn rest(&mut self, is_crowded: bool)
        ensures cleaner { self.new.cleaner ≡ self.old.cleaner }
        ensures line { self.new.line ≡ self.old.line }
        ensures failed { self.new.failed ≡ self.old.failed }
    {
        if is_crowded {
            self.rests = CROWDED_RESTS;
            return;
        }
        self.rests = self.next_rests;
        self.next_rests = self
            .next_rests
            .saturating_mul(2)
            .saturating_add(1)
            .min(RESTS_MAX);
    }
}

/// Whether a reader that began to ask so long ago still asks: for less than 50 microseconds.
fn is_brief(time: Duration) -> bool
    ensures { IsTrue result ↔ (as_nanos time / 1_000 < 50) }
{
    time.as_micros() < u128::from(POLL_MICROSECONDS)
}

impl<C: Clock, S: Read> Read for Reading<'_, C, S> {
    ghost remaining = { λ r. S.remaining (source_of r) };

    /// What is given was asked for in one call, with room for the whole buffer; those before it gave nothing, so no byte is lost.
    /// A failure and the end are told as the system told them. Before, the cleaner was waited for where it is behind.
    fn read(&mut self, buffer: &mut [u8]) -> io::Result<usize>
        ensures bound { ReadsAtMost result buffer.new }
        ensures bytes { ReadConsumes (S.remaining (source_of self.old)) (S.remaining (source_of self.new)) result buffer.new }
        ensures calls { HasRead (length buffer.new) (kept_in self.old) result (asked_of self.old) (asked_of self.new) }
        ensures kept { kept_in self.new ≡ None }
        ensures paused { HasPaused (pauses_in self.old) (pauses_in self.new) }
    {
        pause(&mut self.cleaner);
        match self.look_first(buffer) {
            Some(count) => Ok(count),
            None => self.wait(buffer),
        }
    }
}

impl<C: Clock, S: Read> ReadReady for Reading<'_, C, S> {
    /// What is given was asked for in one call, with room for the whole buffer.
    fn read_ready(&mut self, buffer: &mut [u8]) -> Option<usize>
        requires { 0 < length buffer.old }
        ensures ready { IsReadReady (S.remaining (source_of self.old)) (S.remaining (source_of self.new)) buffer.new result }
        ensures calls { HasLooked (length buffer.new) (kept_in self.old) (kept_in self.new) result (asked_of self.old) (asked_of self.new) }
        ensures kept { self.new.cleaner ≡ self.old.cleaner }
    {
        if self.serving.is_behind() || self.failed.is_some() {
            return None;
        }
        if self.line.set_waiting(false).is_err() {
            return None;
        }
        match self.line.read(buffer) {
            Ok(0) => None,
            Ok(count) => Some(count),
            Err(error) => {
                self.note(error.kind());
                None
            }
        }
    }
}

/// Writes to a stream as a [`SocketWriter`](crate::SocketWriter) writes to its socket.
///
/// It is proved over each stream `S`, also over one whose bytes contracts know: it hands on exactly the bytes that it is given.
#[derive(Drop)]
pub(crate) struct Writing<'a, S> {
    /// Where the bytes go to.
    line: Line<'a, S>,
}

impl<'a> Writing<'a, &'a TcpStream> {
    /// Writes to this socket.
    pub(crate) fn new(socket: &'a Socket<'a>) -> Writing<'a, &'a TcpStream>
        ensures { handed_of result ≡ [] }
    {
        Writing {
            line: Line::new(socket.stream, &socket.waiting),
        }
    }
}

impl<S: Write> Write for Writing<'_, S> {
    ghost contents = { λ w. S.contents (sink_of w) };

    /// Waits only where the socket has no room. All the bytes are handed to the system, in one call; one before it said that it
    /// would block.
    fn write(&mut self, bytes: &[u8]) -> io::Result<usize>
        ensures bound { WritesAtMost result bytes.now }
        ensures bytes { WriteAppends (S.contents (sink_of self.old)) (S.contents (sink_of self.new)) result bytes.now }
        ensures calls { HasWritten (length bytes.now) result (handed_of self.old) (handed_of self.new) }
    {
        match self.line.write(bytes) {
            Err(error) if error.kind() == ErrorKind::WouldBlock => {
                match self.line.set_waiting(true) {
                    Ok(()) => self.line.write(bytes),
                    Err(refused) => Err(refused),
                }
            }
            written => written,
        }
    }

    fn flush(&mut self) -> io::Result<()>
        ensures { Keeps (S.contents (sink_of self.old)) (S.contents (sink_of self.new)) }
    {
        self.line.flush()
    }
}

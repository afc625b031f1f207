//! The two ends of a socket: from one a worker reads, to the other it writes.
//!
//! Each call here is one of `socket.rt`, in one line, where it is proved over every stream. That line is what is left to trust.

ghost use Rattle.std.specs.Prelude.{◌≡◌, ◌<◌, [], None, length};
ghost use Rattle.std.specs.Io.{ReadsAtMost, WritesAtMost};
ghost use Rattle.std.specs.Io.KnownBytes.{Keeps, ReadConsumes, WriteAppends};
ghost use Rattle.streams.specs.Streams.{IsReadReady};
ghost use Rattle.sockets.specs.Pausing.{HasPaused};
ghost use Rattle.sockets.specs.Sockets.{reads_of, kept_by, pauses_of, writes_of};
ghost use Rattle.sockets.specs.SystemCalls.{HasLooked, HasRead, HasWritten};

use crate::serving::Serving;
use crate::socket::{Reading, Socket, Writing};
use std::io;
use std::io::{Read, Write};
use std::net::TcpStream;
use std::rt::Clock;
use streams::ReadReady;

/// Reads from a socket, and can be asked for what is there already.
///
/// A read waits for input: where few connections are served it may ask for it again and again for 50 µs, and then it sleeps.
/// Before, it waits for the cleaner where that is behind, some 20 milliseconds at most. It fails as the socket does. Asked for
/// what is there, it waits for nothing; the end and a failure are told by the next read.
#[derive(Drop)]
pub struct SocketReader<'a, C> {
    reading: Reading<'a, C, &'a TcpStream>,
}

impl<'a, C> SocketReader<'a, C> {
    /// Reads from this socket.
    pub fn new(clock: &'a C, socket: &'a Socket<'a>, serving: &'a Serving) -> SocketReader<'a, C>
        ensures reads { reads_of result ≡ [] }
        ensures kept { kept_by result ≡ None }
    {
        SocketReader {
            reading: Reading::new(clock, socket, serving),
        }
    }
}

impl<C: Clock> Read for SocketReader<'_, C> {
    /// What is given was asked for in one call, with room for the whole buffer; those before it gave nothing, so no byte is lost.
    /// A failure and the end are told as the system told them. Before, the cleaner was waited for where it is behind.
    fn read(&mut self, buffer: &mut [u8]) -> io::Result<usize>
        ensures bound { ReadsAtMost result buffer.new }
        ensures bytes { ReadConsumes None None result buffer.new }
        ensures calls { HasRead (length buffer.new) (kept_by self.old) result (reads_of self.old) (reads_of self.new) }
        ensures kept { kept_by self.new ≡ None }
        ensures paused { HasPaused (pauses_of self.old) (pauses_of self.new) }
    {
        self.reading.read(buffer)
    }
}

impl<C: Clock> ReadReady for SocketReader<'_, C> {
    /// What is given was asked for in one call, with room for the whole buffer. Nothing is waited for.
    fn read_ready(&mut self, buffer: &mut [u8]) -> Option<usize>
        requires { 0 < length buffer.old }
        ensures ready { IsReadReady None None buffer.new result }
        ensures calls { HasLooked (length buffer.new) (kept_by self.old) (kept_by self.new) result (reads_of self.old) (reads_of self.new) }
        ensures paused { pauses_of self.new ≡ pauses_of self.old }
    {
        self.reading.read_ready(buffer)
    }
}

/// Writes to a socket. A write waits only where the socket has no room, and fails as the socket does.
#[derive(Drop)]
pub struct SocketWriter<'a> {
    writing: Writing<'a, &'a TcpStream>,
}

impl<'a> SocketWriter<'a> {
    /// Writes to this socket.
    pub fn new(socket: &'a Socket<'a>) -> SocketWriter<'a>
        ensures { writes_of result ≡ [] }
    {
        SocketWriter {
            writing: Writing::new(socket),
        }
    }
}

impl Write for SocketWriter<'_> {
    /// Waits only where the socket has no room. All the bytes are handed to the system, in one call; one before it said that it
    /// would block.
    fn write(&mut self, bytes: &[u8]) -> io::Result<usize>
        ensures bound { WritesAtMost result bytes.now }
        ensures bytes { WriteAppends None None result bytes.now }
        ensures calls { HasWritten (length bytes.now) result (writes_of self.old) (writes_of self.new) }
    {
        self.writing.write(bytes)
    }

    fn flush(&mut self) -> io::Result<()>
        ensures { Keeps None None }
    {
        self.writing.flush()
    }
}

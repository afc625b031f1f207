//! The bytes that come from a client or go to it, as the system is asked for them.
//!
//! Each function here makes one call of the system, in one line, and notes it with its answer. That line is what is left to trust. A
//! line has its stream to itself, so nobody else takes bytes from it or hands any on.

ghost use Rattle.std.specs.Prelude.{◌≡◌, ◌∷◌, [], length};
ghost use Rattle.std.specs.Io.{ReadsAtMost, WritesAtMost};
ghost use Rattle.std.specs.Io.KnownBytes.{Keeps, ReadConsumes, WriteAppends};

use crate::waiting::Waiting;
use std::io;
use std::io::{Read, Write};
use std::snapshot::Snapshot;

/// A stream to or from a client, whether its calls wait, and what the system was asked.
///
/// To a contract the notes are a list, the newest call first. They are not stored.
#[derive(Drop)]
pub(crate) struct Line<'a, S> {
    stream: S,
    waiting: &'a Waiting<'a>,
    last: Calls,
}

// A call of the system and those before it.
#[derive(Drop)]
enum Calls {
    Nothing,
    Asked(Snapshot<usize>, Snapshot<io::Result<usize>>, Snapshot<Calls>),
    Set(Snapshot<bool>, Snapshot<io::Result<()>>, Snapshot<Calls>),
}

impl<'a, S> Line<'a, S> {
    ghost use Rattle.sockets.specs.SystemCalls.{Call, SetWaiting, calls_in};

    /// A stream of which nothing was asked yet.
    pub(crate) fn new(stream: S, waiting: &'a Waiting<'a>) -> Line<'a, S>
        ensures stream { result.stream ≡ stream }
        ensures calls { calls_in result.last ≡ [] }
    {
        Line {
            stream,
            waiting,
            last: Calls::Nothing,
        }
    }

    /// Has calls wait from here on, or not.
    ///
    /// # Errors
    ///
    /// Why the system refused it. All is as before then.
    pub(crate) fn set_waiting(&mut self, waits: bool) -> io::Result<()>
        ensures stream { self.new.stream ≡ self.old.stream }
        ensures calls { calls_in self.new.last ≡ SetWaiting waits result ∷ calls_in self.old.last }
    {
        let answer = self.waiting.set(waits);
        let earlier = Snapshot::of(&self.last);
        self.last = Calls::Set(Snapshot::of(&waits), Snapshot::of(&answer), earlier);
        answer
    }

    // Notes a call.
    fn note(&mut self, size: usize, answer: &io::Result<usize>)
        ensures stream { self.new.stream ≡ self.old.stream }
        ensures calls { calls_in self.new.last ≡ Call size answer.now ∷ calls_in self.old.last }
    {
        let earlier = Snapshot::of(&self.last);
        self.last = Calls::Asked(Snapshot::of(&size), Snapshot::of(answer), earlier);
    }
}

impl<S: Read> Line<'_, S> {
    ghost use Rattle.sockets.specs.SystemCalls.{Call, calls_in};

    /// Asks for as many bytes as the buffer has room for.
    pub(crate) fn read(&mut self, buffer: &mut [u8]) -> io::Result<usize>
        ensures bound { ReadsAtMost result buffer.new }
        ensures bytes { ReadConsumes (S.remaining self.old.stream) (S.remaining self.new.stream) result buffer.new }
        ensures calls { calls_in self.new.last ≡ Call (length buffer.new) result ∷ calls_in self.old.last }
    {
        let answer = self.stream.read(buffer);
        self.note(buffer.len(), &answer);
        answer
    }
}

impl<S: Write> Line<'_, S> {
    ghost use Rattle.sockets.specs.SystemCalls.{Call, calls_in};

    /// Hands all these bytes on.
    pub(crate) fn write(&mut self, bytes: &[u8]) -> io::Result<usize>
        ensures bound { WritesAtMost result bytes.now }
        ensures bytes { WriteAppends (S.contents self.old.stream) (S.contents self.new.stream) result bytes.now }
        ensures calls { calls_in self.new.last ≡ Call (length bytes.now) result ∷ calls_in self.old.last }
    {
        let answer = self.stream.write(bytes);
        self.note(bytes.len(), &answer);
        answer
    }

    /// Has the stream pass on what it keeps back, if it does.
    pub(crate) fn flush(&mut self) -> io::Result<()>
        ensures { Keeps (S.contents self.old.stream) (S.contents self.new.stream) }
    {
        self.stream.flush()
    }
}

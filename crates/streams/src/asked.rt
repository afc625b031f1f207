//! A stream that is asked, and how often it failed.
//!
//! Each call here asks the stream once, in one line, and counts a failure where the stream told one. Nothing else
//! counts: who says that a stream failed has it from here, and what is left to trust is that line.

ghost use Rattle.std.specs.Prelude.{◌≡◌, ◌<◌, ◌+◌, ◌↔◌, length};
ghost use Rattle.std.specs.IoError.{error_kind};
ghost use Rattle.std.specs.Io.{ReadsAtMost};
ghost use Rattle.std.specs.Io.KnownBytes.{Keeps, ReadConsumes};
ghost use Rattle.streams.specs.Troubles.{failed_once, failures_in};
ghost use Rattle.streams.specs.Streams.{IsReadReady, IsWritten};

use crate::failures::FailureCount;
use crate::ready::ReadReady;
use std::io;
use std::io::{ErrorKind, Read, Write};

/// What kept a stream from a call.
#[derive(Clone, Copy, Debug, PartialEq, Eq)]
pub(crate) enum Trouble {
    /// The call was interrupted, and is to be made again.
    Interrupted,
    /// The stream failed.
    Failure,
}

/// A stream, and how often it failed.
#[derive(Debug, Drop)]
pub(crate) struct Asked<S> {
    stream: S,
    failures: FailureCount,
}

impl<S> Asked<S> {
    /// The stream, which has not failed.
    pub(crate) fn new(stream: S) -> Asked<S>
        ensures stream { result.stream ≡ stream }
        ensures failures { result.failures ≡ 0 }
    {
        Asked {
            stream,
            failures: FailureCount::new(),
        }
    }

    /// Gives the stream back.
    pub(crate) fn into_inner(self) -> S
        ensures { result ≡ self.stream }
    {
        self.stream
    }

    /// Counts the failure that an error of the stream tells, unless it tells an interruption.
    fn count(&mut self, error: &io::Error) -> Trouble
        ensures stream { self.new.stream ≡ self.old.stream }
        ensures failures { self.new.failures ≡ self.old.failures + failed_once result }
        ensures interrupted { (result ≡ Trouble.Interrupted) ↔ (error_kind error.now ≡ ErrorKind.Interrupted) }
    {
        if error.kind() == ErrorKind::Interrupted {
            return Trouble::Interrupted;
        }
        self.failures.note();
        Trouble::Failure
    }
}

impl<S: Read> Asked<S> {
    /// Reads some bytes into the buffer, and says how many.
    pub(crate) fn read(&mut self, buffer: &mut [u8]) -> Result<usize, Trouble>
        ensures bound { ReadsAtMost result buffer.new }
        ensures bytes { ReadConsumes (S.remaining self.old.stream) (S.remaining self.new.stream)
            result buffer.new }
        ensures failures { self.new.failures ≡ self.old.failures + failures_in result }
    {
        match self.stream.read(buffer) {
            Ok(count) => Ok(count),
            Err(error) => Err(self.count(&error)),
        }
    }
}

impl<S: ReadReady> Asked<S> {
    /// Reads some of the bytes that are there already into the buffer, which has room, and says how many. It is no
    /// failure where there are none.
    pub(crate) fn read_ready(&mut self, buffer: &mut [u8]) -> Option<usize>
        requires { 0 < length buffer.old }
        ensures read { IsReadReady (S.remaining self.old.stream) (S.remaining self.new.stream)
            buffer.new result }
        ensures failures { self.new.failures ≡ self.old.failures }
    {
        self.stream.read_ready(buffer)
    }
}

impl<S: Write> Asked<S> {
    /// Writes some of these bytes, and says how many: at least one. To take none is a failure.
    pub(crate) fn write(&mut self, bytes: &[u8]) -> Result<usize, Trouble>
        requires { 0 < length bytes.now }
        ensures written { IsWritten (S.contents self.old.stream) (S.contents self.new.stream)
            bytes.now result }
        ensures failures { self.new.failures ≡ self.old.failures + failures_in result }
    {
        match self.stream.write(bytes) {
            Ok(0) => {
                self.failures.note();
                Err(Trouble::Failure)
            }
            Ok(count) => Ok(count),
            Err(error) => Err(self.count(&error)),
        }
    }

    /// Has the stream pass on what it keeps back, if it does.
    pub(crate) fn flush(&mut self) -> Result<(), Trouble>
        ensures kept { Keeps (S.contents self.old.stream) (S.contents self.new.stream) }
        ensures failures { self.new.failures ≡ self.old.failures + failures_in result }
    {
        match self.stream.flush() {
            Ok(()) => Ok(()),
            Err(error) => Err(self.count(&error)),
        }
    }
}

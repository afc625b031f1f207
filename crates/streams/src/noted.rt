//! A stream with a note of what it has told: its end, or that it failed.

ghost use Rattle.std.specs.Prelude.{◌≡◌, ◌<◌, ◌+◌, length, is_ok};

use crate::observed::{Input, Observed, Told, WriteFault};
use crate::ready::ReadReady;
use std::io::{Read, Write};

/// A stream, and what it has told. A call that was interrupted is tried again. Since nothing may go on
/// forever, a stream counts as failed once it gave bytes 2^64 - 1 times, or was interrupted as often.
#[derive(Debug, Drop)]
pub struct Noted<S> {
    observed: Observed<S>,
}

impl<S> Noted<S> {
    ghost use Rattle.std.specs.Prelude.{◌-◌, ◌^◌};
    ghost use Rattle.streams.specs.Streams.{stream_of, told_of, reads_of, interruptions_of, failures_of, HasFailed};

    /// The stream, which has told nothing yet.
    pub fn new(stream: S) -> Noted<S>
        ensures stream { stream_of result ≡ stream }
        ensures told { told_of result ≡ Told.Nothing }
        ensures reads { reads_of result ≡ 2 ^ 64 - 1 }
        ensures interruptions { interruptions_of result ≡ 2 ^ 64 - 1 }
        ensures failures { failures_of result ≡ 0 }
    {
        Noted {
            observed: Observed::new(stream),
        }
    }

    /// What the stream has told. It has told a failure only where a call of it failed.
    pub fn told(&self) -> Told
        ensures told { result ≡ told_of self.now }
        ensures failed { result ≡ Told.Failure → HasFailed self.now }
    {
        self.observed.told()
    }

    /// Gives the stream back.
    pub fn into_inner(self) -> S
        ensures { result ≡ stream_of self }
    {
        self.observed.into_inner()
    }
}

impl<S: Read> Noted<S> {
    ghost use Rattle.streams.specs.Streams.{stream_of, told_of, reads_of, IsRead, bytes_count, told_after};

    /// Reads some bytes into the buffer, which has room.
    pub fn read(&mut self, buffer: &mut [u8]) -> Input
        requires { 0 < length buffer.old }
        ensures read { IsRead (S.remaining (stream_of self.old)) (S.remaining (stream_of self.new))
            buffer.new result }
        ensures told { told_of self.new ≡ told_after result (told_of self.old) }
        ensures reads { reads_of self.old ≡ reads_of self.new + bytes_count result }
    {
        loop {
            if let Some(input) = self.observed.read(buffer) {
                return input;
            }
        }
    }
}

impl<S: ReadReady> Noted<S> {
    ghost use Rattle.streams.specs.Streams.{stream_of, told_of, reads_of, IsReadReady, ready_count};

    /// Reads some of the bytes that are there already into the buffer, which has room, and says how many:
    /// at least one. `None` where the stream gives none without waiting, or has given bytes as often as it
    /// may. The stream tells nothing by it.
    pub fn read_ready(&mut self, buffer: &mut [u8]) -> Option<usize>
        requires { 0 < length buffer.old }
        ensures read { IsReadReady (S.remaining (stream_of self.old)) (S.remaining (stream_of self.new))
            buffer.new result }
        ensures told { told_of self.new ≡ told_of self.old }
        ensures reads { reads_of self.old ≡ reads_of self.new + ready_count result }
    {
        self.observed.read_ready(buffer)
    }
}

impl<S: Write> Noted<S> {
    ghost use Rattle.std.specs.Io.KnownBytes.{Keeps};
    ghost use Rattle.streams.specs.Streams.{stream_of, told_of, reads_of, IsWritten, IsSent, told_when};

    /// Writes some of these bytes, and says how many: at least one. An `Err` where the stream failed
    /// or took none.
    fn write_some(&mut self, bytes: &[u8]) -> Result<usize, WriteFault>
        requires { 0 < length bytes.now }
        ensures written { IsWritten (S.contents (stream_of self.old)) (S.contents (stream_of self.new))
            bytes.now result }
        ensures told { told_of self.new ≡ told_when (is_ok result) (told_of self.old) }
        ensures reads { reads_of self.new ≡ reads_of self.old }
    {
        loop {
            if let Some(written) = self.observed.write(bytes) {
                return written;
            }
        }
    }

    /// Writes these bytes. After an `Err` a beginning of them is written.
    pub fn write_all(&mut self, bytes: &[u8]) -> Result<(), WriteFault>
        ensures sent { IsSent (S.contents (stream_of self.old)) (S.contents (stream_of self.new))
            result bytes.now }
        ensures told { told_of self.new ≡ told_when (is_ok result) (told_of self.old) }
        ensures reads { reads_of self.new ≡ reads_of self.old }
    {
        let mut rest = bytes;
        while !rest.is_empty() {
            match self.write_some(rest) {
                Ok(count) => rest = &rest[count..],
                Err(fault) => return Err(fault),
            }
        }
        Ok(())
    }

    /// Has the stream pass on what it keeps back, if it does.
    pub fn flush(&mut self) -> Result<(), WriteFault>
        ensures kept { Keeps (S.contents (stream_of self.old)) (S.contents (stream_of self.new)) }
        ensures told { told_of self.new ≡ told_when (is_ok result) (told_of self.old) }
        ensures reads { reads_of self.new ≡ reads_of self.old }
    {
        loop {
            if let Some(flushed) = self.observed.flush() {
                return flushed;
            }
        }
    }
}

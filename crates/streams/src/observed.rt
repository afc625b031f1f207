//! What a stream has told, as it told it. Only the calls here change it, each by one call of the
//! stream, so no caller can say that a stream ended or failed which has not told so.

ghost use Rattle.std.specs.Prelude.{◌≡◌, ◌<◌, ◌^◌, ◌-◌, ◌+◌, length, ◌↔◌, IfSome, IfNone, IsTrue, is_ok};
ghost use Rattle.std.specs.Io.KnownBytes.{Keeps};
ghost use Rattle.streams.specs.declared.observed.Told.TheVariants.{Failure};

use crate::asked::{Asked, Trouble};
use crate::ready::ReadReady;
use std::io::{Read, Write};
use thiserror::Error;

/// What a stream has told.
#[derive(Clone, Copy, Debug, PartialEq, Eq)]
pub enum Told {
    /// Neither its end nor a failure.
    Nothing,
    /// A read told that the input has ended.
    End,
    /// A read or a write failed.
    Failure,
}

/// What a read gave.
#[derive(Clone, Copy, Debug, PartialEq, Eq)]
pub enum Input {
    /// So many bytes, at least one, at the start of the buffer.
    Bytes(usize),
    /// The end of the input.
    End,
    /// The stream failed.
    Failure,
}

/// A write failed, or took no byte.
#[derive(Clone, Copy, Debug, PartialEq, Eq, Error)]
#[error("write failed")]
pub struct WriteFault;

/// A stream, and what it has told. A call that was interrupted tells nothing. Since nothing may go on
/// forever, a stream counts as failed once it gave bytes 2^64 - 1 times, or was interrupted as often.
#[derive(Debug, Drop)]
pub(crate) struct Observed<S> {
    asked: Asked<S>,
    told: Told,
    /// How often it may still give bytes.
    reads: u64,
    /// How often it may still be interrupted.
    interruptions: u64,
    // It has told a failure only where the stream failed, unless it may not be asked any more.
    pub ghost failed: { told ≡ Failure → 0 < reads → 0 < interruptions → 0 < asked.failures },
}

impl<S> Observed<S> {
    ghost use Rattle.streams.specs.Streams.{told_when};

    /// The stream, which has told nothing yet.
    pub(crate) fn new(stream: S) -> Observed<S>
        ensures stream { result.asked.stream ≡ stream }
        ensures failures { result.asked.failures ≡ 0 }
        ensures told { result.told ≡ Told.Nothing }
        ensures reads { result.reads ≡ 2 ^ 64 - 1 }
        ensures interruptions { result.interruptions ≡ 2 ^ 64 - 1 }
    {
        Observed {
            asked: Asked::new(stream),
            told: Told::Nothing,
            reads: u64::MAX,
            interruptions: u64::MAX,
        }
    }

    /// What the stream has told.
    pub(crate) fn told(&self) -> Told
        ensures { result ≡ self.now.told }
    {
        self.told
    }

    /// Gives the stream back.
    pub(crate) fn into_inner(self) -> S
        ensures { result ≡ self.asked.stream }
    {
        self.asked.into_inner()
    }

    /// Notes what kept the stream from a call, and says whether the call is to be made again. A failure was
    /// counted.
    fn is_interrupted(&mut self, trouble: Trouble) -> bool
        requires counted { trouble ≡ Trouble.Failure → 0 < self.old.asked.failures }
        ensures asked { self.new.asked ≡ self.old.asked }
        ensures told { self.new.told ≡ told_when result self.old.told }
        ensures reads { self.new.reads ≡ self.old.reads }
        ensures interrupted { IsTrue result ↔ ((trouble ≡ Trouble.Interrupted) × (0 < self.old.interruptions)) }
        ensures fewer { IsTrue result → self.new.interruptions < self.old.interruptions }
    {
        if trouble == Trouble::Interrupted && self.interruptions > 0 {
            self.interruptions -= 1;
            return true;
        }
        self.told = Told::Failure;
        false
    }
}

impl<S: Read> Observed<S> {
    ghost use Rattle.streams.specs.Streams.{IsRead, bytes_count, told_after};
    ghost use Rattle.streams.specs.Observations.{AsBefore};

    /// Reads some bytes into the buffer, which has room. `None` where the call was interrupted.
    pub(crate) fn read(&mut self, buffer: &mut [u8]) -> Option<Input>
        requires { 0 < length buffer.old }
        ensures read { IfSome result (IsRead (S.remaining self.old.asked.stream) (S.remaining self.new.asked.stream)
            buffer.new) }
        ensures told { IfSome result (λ input. self.new.told ≡ told_after input self.old.told) }
        ensures reads { IfSome result (λ input. self.old.reads ≡ self.new.reads + bytes_count input) }
        ensures again { IfNone result (AsBefore self.old self.new) }
        ensures kept { IfNone result (Keeps (S.remaining self.old.asked.stream) (S.remaining self.new.asked.stream)) }
    {
        if self.reads == 0 {
            self.told = Told::Failure;
            return Some(Input::Failure);
        }
        match self.asked.read(buffer) {
            Ok(0) => {
                self.told = Told::End;
                Some(Input::End)
            }
            Ok(count) => {
                self.reads -= 1;
                Some(Input::Bytes(count))
            }
            Err(trouble) => {
                if self.is_interrupted(trouble) {
                    return None;
                }
                Some(Input::Failure)
            }
        }
    }
}

impl<S: ReadReady> Observed<S> {
    ghost use Rattle.streams.specs.Streams.{IsReadReady, ready_count};

    /// Reads some of the bytes that are there already into the buffer, which has room, and says how many:
    /// at least one. The stream tells nothing by it, and is not asked where it may give no more bytes.
    pub(crate) fn read_ready(&mut self, buffer: &mut [u8]) -> Option<usize>
        requires { 0 < length buffer.old }
        ensures read { IsReadReady (S.remaining self.old.asked.stream) (S.remaining self.new.asked.stream)
            buffer.new result }
        ensures told { self.new.told ≡ self.old.told }
        ensures reads { self.old.reads ≡ self.new.reads + ready_count result }
    {
        if self.reads == 0 {
            return None;
        }
        match self.asked.read_ready(buffer) {
            Some(count) => {
                self.reads -= 1;
                Some(count)
            }
            None => None,
        }
    }
}

impl<S: Write> Observed<S> {
    ghost use Rattle.streams.specs.Streams.{IsWritten, told_when};
    ghost use Rattle.streams.specs.Observations.{AsBefore};

    /// Writes some of these bytes, and says how many: at least one. An `Err` where the stream failed
    /// or took none, `None` where the call was interrupted.
    pub(crate) fn write(&mut self, bytes: &[u8]) -> Option<Result<usize, WriteFault>>
        requires { 0 < length bytes.now }
        ensures written { IfSome result (IsWritten (S.contents self.old.asked.stream) (S.contents self.new.asked.stream)
            bytes.now) }
        ensures told { IfSome result (λ done. self.new.told ≡ told_when (is_ok done) self.old.told) }
        ensures reads { self.new.reads ≡ self.old.reads }
        ensures again { IfNone result (AsBefore self.old self.new) }
        ensures kept { IfNone result (Keeps (S.contents self.old.asked.stream) (S.contents self.new.asked.stream)) }
    {
        match self.asked.write(bytes) {
            Ok(count) => Some(Ok(count)),
            Err(trouble) => {
                if self.is_interrupted(trouble) {
                    return None;
                }
                Some(Err(WriteFault))
            }
        }
    }

    /// Has the stream pass on what it keeps back, if it does. `None` where the call was interrupted.
    pub(crate) fn flush(&mut self) -> Option<Result<(), WriteFault>>
        ensures kept { Keeps (S.contents self.old.asked.stream) (S.contents self.new.asked.stream) }
        ensures told { IfSome result (λ done. self.new.told ≡ told_when (is_ok done) self.old.told) }
        ensures reads { self.new.reads ≡ self.old.reads }
        ensures again { IfNone result (AsBefore self.old self.new) }
    {
        match self.asked.flush() {
            Ok(()) => Some(Ok(())),
            Err(trouble) => {
                if self.is_interrupted(trouble) {
                    return None;
                }
                Some(Err(WriteFault))
            }
        }
    }
}

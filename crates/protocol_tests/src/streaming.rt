//! Streams in memory: what no contract sees of their calls.

use std::alloc::Global;
use std::io;
use std::io::{ErrorKind, Read, Write};
use std::process::Abort;
use streams::{Input, Noted, ReadReady, Told, WriteFault};

/// What a stream does at one of its calls.
#[derive(Clone, Copy, Debug)]
enum Step {
    /// It gives or takes at most so many bytes, or passes on what it holds.
    Works(usize),
    Interrupted,
    Fails,
}

/// A stream that gives these bytes and keeps what it takes, and does one step at a call.
#[derive(Drop)]
struct Scripted<'a> {
    input: &'a [u8],
    steps: &'a [Step],
    taken: Vec<u8>,
    /// How many bytes it had taken when it was last told to pass them on.
    passed_on: usize,
}

impl Scripted<'_> {
    fn new<'a>(alloc: Global, input: &'a [u8], steps: &'a [Step]) -> Scripted<'a> {
        Scripted {
            input,
            steps,
            taken: Vec::new(alloc),
            passed_on: 0,
        }
    }

    /// The most bytes of the next call.
    fn step(&mut self) -> io::Result<usize> {
        let steps = self.steps;
        let Some((step, rest)) = steps.split_first() else {
            return Err(ErrorKind::Unsupported.into());
        };
        self.steps = rest;
        match *step {
            Step::Works(most) => Ok(most),
            Step::Interrupted => Err(ErrorKind::Interrupted.into()),
            Step::Fails => Err(ErrorKind::ConnectionReset.into()),
        }
    }
}

impl Read for Scripted<'_> {
    fn read(&mut self, buffer: &mut [u8]) -> io::Result<usize> {
        let most = self.step()?;
        let count = self.input.len().min(most).min(buffer.len());
        let input = self.input;
        let (front, back) = input.split_at(count);
        buffer[..count].copy_from_slice(front);
        self.input = back;
        Ok(count)
    }
}

impl ReadReady for Scripted<'_> {
    fn read_ready(&mut self, buffer: &mut [u8]) -> Option<usize> {
        match self.read(buffer) {
            Ok(0) | Err(_) => None,
            Ok(count) => Some(count),
        }
    }
}

impl Write for Scripted<'_> {
    fn write(&mut self, bytes: &[u8]) -> io::Result<usize> {
        let count = bytes.len().min(self.step()?);
        self.taken.extend_from_slice(&bytes[..count])?;
        Ok(count)
    }

    fn flush(&mut self) -> io::Result<()> {
        self.step()?;
        self.passed_on = self.taken.len();
        Ok(())
    }
}

/// Whether a read of a stream of five bytes, into a buffer of eight, gives this, and the stream has
/// then told this.
fn gives(alloc: Global, steps: &[Step], wanted: Input, told: Told) -> bool {
    let mut buffer = [0u8; 8];
    let mut reader = Noted::new(Scripted::new(alloc, b"hello", steps));
    let input = reader.read(&mut buffer);
    let given = match input {
        Input::Bytes(count) => buffer.starts_with(&b"hello"[..count.min(5)]),
        Input::End | Input::Failure => true,
    };
    given && input == wanted && reader.told() == told
}

/// Whether a stream of five bytes, asked for what is there already, gives so many of them, into a buffer of
/// eight, and has then told nothing.
fn has_ready(alloc: Global, step: Step, wanted: Option<usize>) -> bool {
    let mut buffer = [0u8; 8];
    let steps = [step];
    let mut reader = Noted::new(Scripted::new(alloc, b"hello", &steps));
    let ready = reader.read_ready(&mut buffer);
    let given = buffer.starts_with(&b"hello"[..ready.unwrap_or(0).min(5)]);
    given && ready == wanted && reader.told() == Told::Nothing
}

/// Whether a stream takes this much of five bytes and has told this.
fn takes(alloc: Global, steps: &[Step], taken: &[u8], told: Told) -> bool {
    let mut writer = Noted::new(Scripted::new(alloc, b"", steps));
    let wanted = if told == Told::Nothing {
        Ok(())
    } else {
        Err(WriteFault)
    };
    let written = writer.write_all(b"hello") == wanted;
    let noted = writer.told() == told;
    written && noted && writer.into_inner().taken.as_slice() == taken
}

/// What a flush after five bytes were written answers, and how many of them it passed on.
fn flushed_by(alloc: Global, steps: &[Step]) -> (Result<(), WriteFault>, usize, Told) {
    let mut writer = Noted::new(Scripted::new(alloc, b"", steps));
    let _ = writer.write_all(b"hello");
    let result = writer.flush();
    let told = writer.told();
    (result, writer.into_inner().passed_on, told)
}

/// A read gives what one call of the stream gives, and is tried again where that was interrupted.
#[test]
fn a_read_takes_one_call(rt: HostRuntime) {
    let rows = [
        (
            [Step::Works(8), Step::Fails],
            Input::Bytes(5),
            Told::Nothing,
        ),
        (
            [Step::Works(2), Step::Fails],
            Input::Bytes(2),
            Told::Nothing,
        ),
        (
            [Step::Interrupted, Step::Works(3)],
            Input::Bytes(3),
            Told::Nothing,
        ),
        ([Step::Works(0), Step::Fails], Input::End, Told::End),
        ([Step::Fails, Step::Works(8)], Input::Failure, Told::Failure),
        (
            [Step::Interrupted, Step::Fails],
            Input::Failure,
            Told::Failure,
        ),
    ];
    for (steps, input, told) in rows {
        assert!(rt; gives(rt.alloc(), &steps, input, told), "{steps:?}");
    }
}

/// What is there already is read, and a stream that gives nothing so has told nothing.
#[test]
fn what_is_there_is_read(rt: HostRuntime) {
    let rows = [
        (Step::Works(8), Some(5)),
        (Step::Works(2), Some(2)),
        (Step::Works(0), None),
        (Step::Interrupted, None),
        (Step::Fails, None),
    ];
    for (step, ready) in rows {
        assert!(rt; has_ready(rt.alloc(), step, ready), "{step:?}");
    }
}

/// All of a text is written however little a call takes. Where one fails or takes nothing, what was
/// taken before stands.
#[test]
fn a_text_is_written_in_pieces(rt: HostRuntime) {
    let rows: [([Step; 3], &[u8], Told); 5] = [
        (
            [Step::Works(9), Step::Fails, Step::Fails],
            b"hello",
            Told::Nothing,
        ),
        (
            [Step::Works(1), Step::Interrupted, Step::Works(4)],
            b"hello",
            Told::Nothing,
        ),
        (
            [Step::Works(2), Step::Works(2), Step::Works(2)],
            b"hello",
            Told::Nothing,
        ),
        (
            [Step::Works(2), Step::Works(0), Step::Works(9)],
            b"he",
            Told::Failure,
        ),
        (
            [Step::Works(4), Step::Fails, Step::Works(9)],
            b"hell",
            Told::Failure,
        ),
    ];
    for (steps, taken, told) in rows {
        assert!(rt; takes(rt.alloc(), &steps, taken, told), "{steps:?}");
    }
}

/// What was written is passed on, also where that is interrupted, and where it fails that is told.
#[test]
fn a_flush_passes_on(rt: HostRuntime) {
    let works = [Step::Works(9), Step::Interrupted, Step::Works(0)];
    let wanted = (Ok(()), 5, Told::Nothing);
    assert_eq!(rt; flushed_by(rt.alloc(), &works), wanted);
    let fails = [Step::Works(9), Step::Fails, Step::Works(0)];
    let wanted = (Err(WriteFault), 0, Told::Failure);
    assert_eq!(rt; flushed_by(rt.alloc(), &fails), wanted);
}

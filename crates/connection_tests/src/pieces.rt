//! Connections over streams in memory that give and take pieces, fail or are interrupted.

ghost use Rattle.std.specs.Prelude.{◌≡◌, ◌+◌, [], IfOk, vec_len};
ghost use Rattle.engine.specs.Passes.{knows, Rests};
ghost use Rattle.engine.specs.declared.TheConstants.{BACKGROUND_PASSES};

use crate::talks::{engine_over, memory};
use connection::{Ended, serve};
use device::Device;
use engine::{Engine, Pass};
use gates::Open;
use std::alloc::{AllocError, Global};
use std::io;
use std::io::{ErrorKind, Read, Write};
use std::process::Abort;
use std::sync::Wait;
use streams::{Noted, ReadReady, Told};
use words::limits::{FRAMES_MIN, Limits, PLACES_MIN};

/// A reader over bytes in memory.
#[derive(Drop)]
pub(crate) struct Source<'a> {
    bytes: &'a [u8],
    /// The most bytes that a read gives.
    most: usize,
    /// How many bytes are given before reads fail, if they do.
    pub(crate) fails_after: Option<usize>,
    /// How many bytes are given before the place where a read ends. Behind it there is none.
    pub(crate) cut_after: usize,
    /// Whether each other read is interrupted.
    interrupts: bool,
    interrupted: bool,
    /// Whether it tells what is there already. Then all bytes are.
    pub(crate) tells_ready: bool,
    /// The number that the size of the next read is drawn from, if it is drawn: up to 127 bytes.
    pub(crate) draws: Option<u64>,
}

impl Source<'_> {
    /// All bytes, in reads of at most so many.
    pub(crate) fn new(bytes: &[u8], most: usize) -> Source<'_> {
        Source {
            bytes,
            most,
            fails_after: None,
            cut_after: 0,
            interrupts: false,
            interrupted: false,
            tells_ready: false,
            draws: None,
        }
    }
}

impl Read for Source<'_> {
    fn read(&mut self, buffer: &mut [u8]) -> io::Result<usize> {
        self.interrupted = self.interrupts && !self.interrupted;
        if self.interrupted {
            return Err(ErrorKind::Interrupted.into());
        }
        let mut count = self.bytes.len().min(self.most).min(buffer.len());
        if let Some(left) = self.fails_after {
            if left == 0 {
                return Err(ErrorKind::ConnectionReset.into());
            }
            count = count.min(left);
            self.fails_after = Some(left - count);
        }
        if self.cut_after > 0 {
            count = count.min(self.cut_after);
            self.cut_after -= count;
        }
        if let Some(number) = self.draws {
            count = count.min(((number % 127) as usize).saturating_add(1));
            self.draws = Some(next_drawn(number));
        }
        let bytes = self.bytes;
        let (front, back) = bytes.split_at(count);
        buffer[..count].copy_from_slice(front);
        self.bytes = back;
        Ok(count)
    }
}

/// The number that is drawn after this one, by a linear congruential generator.
fn next_drawn(number: u64) -> u64 {
    number
        .wrapping_mul(6_364_136_223_846_793_005)
        .wrapping_add(1_442_695_040_888_963_407)
}

impl ReadReady for Source<'_> {
    fn read_ready(&mut self, buffer: &mut [u8]) -> Option<usize> {
        if !self.tells_ready {
            return None;
        }
        match self.read(buffer) {
            Ok(0) | Err(_) => None,
            Ok(count) => Some(count),
        }
    }
}

/// A writer into memory.
#[derive(Drop)]
pub(crate) struct Sink {
    text: Vec<u8>,
    /// The most bytes that a write takes.
    most: usize,
    /// How many bytes are taken before writes fail, if they do.
    pub(crate) fails_after: Option<usize>,
    /// Whether each other write is interrupted.
    interrupts: bool,
    interrupted: bool,
    /// How many writes took bytes.
    writes: u64,
    /// How many bytes it held when it was last told to pass them on.
    flushed: usize,
}

impl Sink {
    /// It takes all, in writes of at most so many bytes.
    pub(crate) fn new(alloc: Global, most: usize) -> Result<Sink, AllocError> {
        Ok(Sink {
            text: Vec::with_capacity(alloc, 262_144)?,
            most,
            fails_after: None,
            interrupts: false,
            interrupted: false,
            writes: 0,
            flushed: 0,
        })
    }
}

impl Write for Sink {
    fn write(&mut self, bytes: &[u8]) -> io::Result<usize> {
        self.interrupted = self.interrupts && !self.interrupted;
        if self.interrupted {
            return Err(ErrorKind::Interrupted.into());
        }
        let mut count = bytes.len().min(self.most);
        if let Some(left) = self.fails_after {
            if left == 0 {
                return Err(ErrorKind::BrokenPipe.into());
            }
            count = count.min(left);
            self.fails_after = Some(left - count);
        }
        self.text.extend_from_slice(&bytes[..count])?;
        self.writes = self.writes.saturating_add(1);
        Ok(count)
    }

    fn flush(&mut self) -> io::Result<()> {
        self.interrupted = self.interrupts && !self.interrupted;
        if self.interrupted {
            return Err(ErrorKind::Interrupted.into());
        }
        self.flushed = self.text.len();
        Ok(())
    }
}

/// What a connection wrote, and how it ended.
#[derive(Drop)]
pub(crate) struct Outcome {
    pub(crate) text: Vec<u8>,
    pub(crate) writes: u64,
    pub(crate) flushed: usize,
    pub(crate) ended: Ended,
    pub(crate) told: (Told, Told),
}

/// Streams that give and take at most so many bytes at a time, and are interrupted or not.
pub(crate) fn cut_streams<'a>(
    rt: &impl Abort,
    alloc: Global,
    input: &'a [u8],
    most: usize,
    interrupts: bool,
) -> (Source<'a>, Sink) {
    let mut source = Source::new(input, most);
    source.interrupts = interrupts;
    let mut sink = Sink::new(alloc, most).expect(rt, "memory for a sink");
    sink.interrupts = interrupts;
    (source, sink)
}

/// Serves a connection, and gives the pass back.
pub(crate) fn talk<D: Device>(
    rt: &impl Wait,
    alloc: Global,
    streams: (Source<'_>, Sink),
    engine: &Engine<D>,
    pass: Pass<D>,
) -> (Pass<D>, Outcome)
    requires rests { Rests D.Receipt.is_steady engine.now pass }
    requires watches { (knows D.failures pass).watched ≡ [] }
    ensures rests { Rests D.Receipt.is_steady engine.now result.0 }
    ensures watches { (knows D.failures result.0).watched ≡ [] }
{
    let mut reader = Noted::new(streams.0);
    let mut writer = Noted::new(streams.1);
    let (pass, ended) = serve(rt, alloc, &mut reader, &mut writer, engine, pass, &Open);
    let told = (reader.told(), writer.told());
    let sink = writer.into_inner();
    let outcome = Outcome {
        text: sink.text,
        writes: sink.writes,
        flushed: sink.flushed,
        ended,
        told,
    };
    (pass, outcome)
}

/// Serves a connection over a new engine.
pub(crate) fn run(
    rt: &impl Wait,
    alloc: Global,
    source: Source<'_>,
    sink: Sink,
) -> Result<Outcome, AllocError> {
    let limits = small();
    let openings = memory(alloc, &limits)?;
    run_over(rt, alloc, (&limits, openings), source, sink)
}

/// Serves two connections over a new engine, one after the other, with the same pass.
pub(crate) fn run_both(
    rt: &(impl Abort + Wait),
    alloc: Global,
    first: (Source<'_>, Sink),
    second: (Source<'_>, Sink),
) -> (Outcome, Outcome) {
    let limits = small();
    let openings = memory(alloc, &limits).expect(rt, "memory for a device");
    run_both_over(rt, alloc, (&limits, openings), first, second)
}

/// Whether a connection wrote this text and kept nothing of it back, and ended so.
pub(crate) fn came_to(outcome: &Outcome, text: &[u8], ended: Ended) -> bool {
    let passed_on = ended == Ended::WriteFailed || outcome.flushed == text.len();
    outcome.text.as_slice() == text && outcome.ended == ended && passed_on
}

/// Asserts what a connection came to.
pub(crate) fn check_outcome(rt: &impl Abort, outcome: &Outcome, text: &[u8], ended: Ended) {
    assert!(rt; came_to(outcome, text, ended), "{:?}", outcome.text);
}

/// Asserts what a connection comes to.
pub(crate) fn check_run<R: Abort + Wait>(
    rt: &R,
    alloc: Global,
    streams: (Source<'_>, Sink),
    text: &[u8],
    ended: Ended,
) {
    let outcome = run(rt, alloc, streams.0, streams.1).expect(rt, "memory for the connection");
    check_outcome(rt, &outcome, text, ended);
    drop(outcome);
}

/// A store of 2 stripes with 12 frames each, for 2 clients.
fn small() -> Limits
    ensures { result.clients ≡ 2 }
{
    Limits {
        stripes: 2,
        buckets: 16,
        frames: FRAMES_MIN,
        places: PLACES_MIN,
        clients: 2,
    }
}

/// Serves a connection over a new engine of these openings.
fn run_over<D: Device>(
    rt: &impl Wait,
    alloc: Global,
    store: (&Limits, Vec<D>),
    source: Source<'_>,
    sink: Sink,
) -> Result<Outcome, AllocError>
    requires openings { vec_len store.1 ≡ store.0.now.clients + BACKGROUND_PASSES }
{
    let (engine, pass) = engine_of(alloc, store.0, store.1)?;
    let (pass, outcome) = talk(rt, alloc, (source, sink), &engine, pass);
    drop(pass);
    drop(engine);
    Ok(outcome)
}

/// Serves two connections over a new engine of these openings, one after the other, with the same pass.
fn run_both_over<D: Device>(
    rt: &(impl Abort + Wait),
    alloc: Global,
    store: (&Limits, Vec<D>),
    first: (Source<'_>, Sink),
    second: (Source<'_>, Sink),
) -> (Outcome, Outcome)
    requires openings { vec_len store.1 ≡ store.0.now.clients + BACKGROUND_PASSES }
{
    let (engine, pass) = engine_of(alloc, store.0, store.1).expect(rt, "memory for an engine");
    let (pass, first) = talk(rt, alloc, first, &engine, pass);
    let (pass, second) = talk(rt, alloc, second, &engine, pass);
    drop(pass);
    drop(engine);
    (first, second)
}

/// An empty engine over these openings, and one of its passes.
fn engine_of<D: Device>(
    alloc: Global,
    limits: &Limits,
    openings: Vec<D>,
) -> Result<(Engine<D>, Pass<D>), AllocError>
    requires openings { vec_len openings ≡ limits.now.clients + BACKGROUND_PASSES }
    ensures rests { IfOk result (λ made. Rests D.Receipt.is_steady made.0 made.1) }
    ensures watches { IfOk result (λ made. (knows D.failures made.1).watched ≡ []) }
{
    let (engine, first, second) = engine_over(alloc, limits, openings)?;
    drop(second);
    Ok((engine, first))
}

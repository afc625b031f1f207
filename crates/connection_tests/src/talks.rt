//! An engine, and connections over streams in memory.

ghost use Rattle.std.specs.Prelude.{All, ◌≡◌, ◌+◌, [], IfOk, vec_len};
ghost use Rattle.engine.specs.Passes.{knows, Rests};
ghost use Rattle.engine.specs.declared.TheConstants.{BACKGROUND_PASSES};

use connection::{Ended, serve};
use device::{Device, MemoryDevice};
use engine::{BACKGROUND_PASSES, Engine, Pass};
use gates::Open;
use std::alloc::{AllocError, Global};
use std::io;
use std::io::{ErrorKind, Read, Write};
use std::process::Abort;
use std::sync::Wait;
use streams::{Noted, ReadReady};
use words::limits::{FRAMES_MIN, Limits, PLACES_MIN};

/// How many bytes a read gives at most.
const READ_MOST: usize = 16_384;

/// A reader over bytes in memory.
#[derive(Drop)]
pub(crate) struct Source<'a> {
    bytes: &'a [u8],
    /// Whether it fails after them, in place of its end.
    fails: bool,
}

impl Source<'_> {
    /// All bytes, and then the end.
    pub(crate) fn new(bytes: &[u8]) -> Source<'_> {
        Source {
            bytes,
            fails: false,
        }
    }

    /// All bytes, and then a read that fails.
    pub(crate) fn failing(bytes: &[u8]) -> Source<'_> {
        Source { bytes, fails: true }
    }
}

impl Read for Source<'_> {
    fn read(&mut self, buffer: &mut [u8]) -> io::Result<usize> {
        if self.fails && self.bytes.is_empty() {
            return Err(ErrorKind::ConnectionReset.into());
        }
        let count = self.bytes.len().min(READ_MOST).min(buffer.len());
        let bytes = self.bytes;
        let (front, back) = bytes.split_at(count);
        buffer[..count].copy_from_slice(front);
        self.bytes = back;
        Ok(count)
    }
}

impl ReadReady for Source<'_> {
    /// It never tells what is there.
    fn read_ready(&mut self, _buffer: &mut [u8]) -> Option<usize> {
        None
    }
}

/// What a connection wrote, and how it ended.
#[derive(Drop)]
pub(crate) struct Outcome {
    pub(crate) text: Vec<u8>,
    pub(crate) ended: Ended,
}

impl Outcome {
    /// Whether it wrote this text, and ended so.
    pub(crate) fn is(&self, text: &[u8], ended: Ended) -> bool {
        self.text.as_slice() == text && self.ended == ended
    }

    /// Asserts that it wrote this text, and ended so.
    pub(crate) fn check(&self, rt: &impl Abort, text: &[u8], ended: Ended) {
        assert!(rt; self.is(text, ended), "{:?} {:?}", self.ended, self.text);
    }
}

/// A store of one stripe with 12 frames, places for 256 pages more, and two clients.
pub(crate) fn wide() -> Limits
    ensures { result.clients ≡ 2 }
{
    Limits {
        stripes: 1,
        buckets: 256,
        frames: FRAMES_MIN,
        places: 256,
        clients: 2,
    }
}

/// The limits of [`wide`], with so many buckets that few keys share one.
pub(crate) fn many_buckets() -> Limits
    ensures { result.clients ≡ 2 }
{
    Limits {
        stripes: 1,
        buckets: 4_096,
        frames: FRAMES_MIN,
        places: 256,
        clients: 2,
    }
}

/// A store of one stripe with 12 frames, places for 64 pages more, and two clients.
pub(crate) fn narrow() -> Limits
    ensures { result.clients ≡ 2 }
{
    Limits {
        stripes: 1,
        buckets: 256,
        frames: FRAMES_MIN,
        places: PLACES_MIN,
        clients: 2,
    }
}

/// An empty engine over these openings, and its passes.
fn new_engine<D: Device>(
    alloc: Global,
    limits: &Limits,
    openings: Vec<D>,
) -> Result<(Engine<D>, Vec<Pass<D>>), AllocError>
    requires openings { vec_len openings ≡ limits.now.clients + BACKGROUND_PASSES }
    ensures count { IfOk result (λ made. vec_len made.1 ≡ limits.now.clients + BACKGROUND_PASSES) }
    ensures rest { IfOk result (λ made. All (Rests D.Receipt.is_steady made.0) made.1.items) }
    ensures watch { IfOk result (λ made. All (λ pass. (knows D.failures pass).watched ≡ []) made.1.items) }
{
    Engine::new(alloc, limits, openings)
}

/// An empty engine over these openings, and two of its passes.
pub(crate) fn engine_over<D: Device>(
    alloc: Global,
    limits: &Limits,
    openings: Vec<D>,
) -> Result<(Engine<D>, Pass<D>, Pass<D>), AllocError>
    requires openings { vec_len openings ≡ limits.now.clients + BACKGROUND_PASSES }
    ensures first { IfOk result (λ made. Rests D.Receipt.is_steady made.0 made.1) }
    ensures second { IfOk result (λ made. Rests D.Receipt.is_steady made.0 made.2) }
    ensures first_nothing { IfOk result (λ made. (knows D.failures made.1).watched ≡ []) }
    ensures second_nothing { IfOk result (λ made. (knows D.failures made.2).watched ≡ []) }
{
    let (engine, mut passes) = new_engine(alloc, limits, openings)?;
    let Some(second) = passes.pop() else {
        return Err(AllocError);
    };
    let Some(first) = passes.pop() else {
        return Err(AllocError);
    };
    Ok((engine, first, second))
}

/// So many openings of a device in memory as an engine of these limits has passes.
pub(crate) fn memory(alloc: Global, limits: &Limits) -> Result<Vec<MemoryDevice>, AllocError>
    ensures { IfOk result (λ openings. vec_len openings ≡ limits.now.clients + BACKGROUND_PASSES) }
{
    MemoryDevice::openings(alloc, limits.clients + BACKGROUND_PASSES)
}

/// Serves a connection whose replies go to this writer, and gives the pass and the writer back, with how it ended.
pub(crate) fn talk_to<D: Device, W: Write>(
    rt: &impl Wait,
    alloc: Global,
    source: Source<'_>,
    writer: W,
    engine: &Engine<D>,
    pass: Pass<D>,
) -> (Pass<D>, W, Ended)
    requires rests { Rests D.Receipt.is_steady engine.now pass }
    requires watches { (knows D.failures pass).watched ≡ [] }
    ensures rests { Rests D.Receipt.is_steady engine.now result.0 }
    ensures watches { (knows D.failures result.0).watched ≡ [] }
{
    let mut reader = Noted::new(source);
    let mut writer = Noted::new(writer);
    let (pass, ended) = serve(rt, alloc, &mut reader, &mut writer, engine, pass, &Open);
    (pass, writer.into_inner(), ended)
}

/// Serves a connection, and gives the pass back.
pub(crate) fn talk<D: Device>(
    rt: &impl Wait,
    alloc: Global,
    source: Source<'_>,
    engine: &Engine<D>,
    pass: Pass<D>,
) -> (Pass<D>, Outcome)
    requires rests { Rests D.Receipt.is_steady engine.now pass }
    requires watches { (knows D.failures pass).watched ≡ [] }
    ensures rests { Rests D.Receipt.is_steady engine.now result.0 }
    ensures watches { (knows D.failures result.0).watched ≡ [] }
{
    let (pass, text, ended) = talk_to(rt, alloc, source, Vec::new(alloc), engine, pass);
    (pass, Outcome { text, ended })
}

/// Serves a connection over a new engine in memory.
pub(crate) fn run(rt: &(impl Abort + Wait), alloc: Global, source: Source<'_>) -> Outcome {
    let limits = narrow();
    let (engine, pass, other) = engine_over(
        alloc,
        &limits,
        memory(alloc, &limits).expect(rt, "memory for a device"),
    )
    .expect(rt, "memory for an engine");
    let (pass, outcome) = talk(rt, alloc, source, &engine, pass);
    drop(pass);
    drop(other);
    drop(engine);
    outcome
}

/// Serves two connections over a new engine in memory, one after the other, each with a pass of its own.
pub(crate) fn run_two(
    rt: &(impl Abort + Wait),
    alloc: Global,
    first: Source<'_>,
    second: Source<'_>,
) -> (Outcome, Outcome) {
    let limits = narrow();
    let (engine, one, two) = engine_over(
        alloc,
        &limits,
        memory(alloc, &limits).expect(rt, "memory for a device"),
    )
    .expect(rt, "memory for an engine");
    let (one, first) = talk(rt, alloc, first, &engine, one);
    let (two, second) = talk(rt, alloc, second, &engine, two);
    drop(two);
    drop(one);
    drop(engine);
    (first, second)
}

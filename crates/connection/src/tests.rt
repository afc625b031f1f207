//! Two clients that take turns at one store. What a turn is made of is not public, so this stands here; all other tests of
//! connections stand in `connection_tests`.

ghost use Rattle.std.specs.Prelude.{All, ◌≡◌, ◌+◌, [], IfOk, vec_len};
ghost use Rattle.engine.specs.Passes.{knows, Rests};
ghost use Rattle.engine.specs.declared.TheConstants.{BACKGROUND_PASSES};
ghost use Rattle.connection.specs.Served.{Attends};

use crate::answering::{answer_all, conclude};
use crate::asking::{Store, forget};
use crate::serving::{Ended, Talk};
use bytes::Bytes;
use device::{Device, MemoryDevice};
use engine::{BACKGROUND_PASSES, Engine, Pass};
use gates::Open;
use std::alloc::{AllocError, Global};
use std::sync::Wait;
use streams::{Noted, Told};
use words::limits::{FRAMES_MIN, Limits, PLACES_MIN};

/// With each allocation refused in turn (`rt try --test --fail-alloc`), a watched key that was missing and is deleted by
/// another session does not make the transaction null.
#[test]
fn a_missing_key_that_another_session_deletes_with_each_allocation_refused(rt: HostRuntime) {
    assert!(rt; are_answered(&rt, rt.alloc()) != Ok(false));
}

/// What may be said to a session that watches a missing key, runs an empty transaction, and has another session
/// delete the key in between: never a null.
const WATCHER: &[&[u8]] = &[
    b"+OK\r\n+OK\r\n*0\r\n",
    b"-OOM out of memory\r\n+OK\r\n*0\r\n",
    b"+OK\r\n+OK\r\n-OOM out of memory\r\n",
];

/// What may be said to the other session.
const DELETER: &[&[u8]] = &[b":0\r\n", b"-OOM out of memory\r\n"];

/// A client, and what is written to it. The writer has room for all that is said, so that it takes no memory.
struct Side<D: Device> {
    talk: Talk,
    writer: Noted<Vec<u8>>,
    pass: Pass<D>,
    /// How its connection ended, where it did.
    ended: Option<Ended>,
}

/// Whether each of the two is answered as it may be, of a new engine.
fn are_answered<R: Wait>(rt: &R, alloc: Global) -> Result<bool, AllocError> {
    let limits = small();
    let openings = memory(alloc, &limits)?;
    answered_over(rt, alloc, &limits, openings)
}

/// The same over an engine of these openings.
fn answered_over<R: Wait, D: Device>(
    rt: &R,
    alloc: Global,
    limits: &Limits,
    openings: Vec<D>,
) -> Result<bool, AllocError>
    requires openings { vec_len openings ≡ limits.now.clients + BACKGROUND_PASSES }
{
    let writers = (
        Vec::with_capacity(alloc, 16_384)?,
        Vec::with_capacity(alloc, 16_384)?,
    );
    let (engine, first, second) = engine_over(alloc, limits, openings)?;
    let watcher = begin(alloc, writers.0, first);
    let deleter = begin(alloc, writers.1, second);
    Ok(both_are_answered(rt, &engine, watcher, deleter))
}

/// A client that was told nothing yet, by a pass that watches nothing.
fn begin<D: Device>(alloc: Global, writer: Vec<u8>, pass: Pass<D>) -> Side<D>
    requires watches { (knows D.failures pass).watched ≡ [] }
    ensures pass { result.pass ≡ pass }
    ensures attends { Attends (knows D.failures result.pass) result.talk.client }
{
    Side {
        talk: Talk::new(alloc, Vec::new(alloc)),
        writer: Noted::new(writer),
        pass,
        ended: None,
    }
}

/// Whether each of the two is answered as it may be, of an engine of theirs.
fn both_are_answered<R: Wait, D: Device>(
    rt: &R,
    engine: &Engine<D>,
    mut watcher: Side<D>,
    mut deleter: Side<D>,
) -> bool
    requires rests { Rests D.Receipt.is_steady engine.now watcher.pass × Rests D.Receipt.is_steady engine.now deleter.pass }
    requires attends { Attends (knows D.failures watcher.pass) watcher.talk.client × Attends (knows D.failures deleter.pass) deleter.talk.client }
{
    let store = Store::new(rt, &Open, engine);
    say(&store, &mut watcher, b"*2\r\n$5\r\nWATCH\r\n$1\r\nk\r\n");
    say(&store, &mut deleter, b"*2\r\n$3\r\nDEL\r\n$1\r\nk\r\n");
    say(
        &store,
        &mut watcher,
        b"*1\r\n$5\r\nMULTI\r\n*1\r\n$4\r\nEXEC\r\n",
    );
    let watcher = is_answered(&store, watcher, WATCHER);
    let deleter = is_answered(&store, deleter, DELETER);
    watcher && deleter
}

/// Feeds a client a piece, and writes the answers, unless its connection has ended.
fn say<R: Wait, D: Device>(store: &Store<R, Open, D>, side: &mut Side<D>, piece: &'static [u8])
    requires rests { Rests D.Receipt.is_steady store.now.engine.now side.old.pass }
    requires attends { Attends (knows D.failures side.old.pass) side.old.talk.client }
    ensures rests { Rests D.Receipt.is_steady store.now.engine.now side.new.pass }
    ensures attends { Attends (knows D.failures side.new.pass) side.new.talk.client }
{
    if side.ended.is_some() {
        return;
    }
    if let Err(_) = side.talk.client.feed(Bytes::from_static(piece)) {
        side.ended = Some(Ended::NoMemory);
        return;
    }
    if let Told::Failure = side.writer.told() {
        return;
    }
    let paused = answer_all(store, &mut side.talk, &mut side.writer, &mut side.pass);
    side.ended = conclude::<Vec<u8>, D>(paused, &mut side.talk.out, &mut side.writer);
}

/// Ends a client, and tells whether one of these texts was said, or a beginning of one where its connection ended out of
/// memory.
fn is_answered<R: Wait, D: Device>(
    store: &Store<R, Open, D>,
    side: Side<D>,
    texts: &[&[u8]],
) -> bool
    requires rests { Rests D.Receipt.is_steady store.now.engine.now side.pass }
    requires attends { Attends (knows D.failures side.pass) side.talk.client }
{
    let Side {
        talk,
        writer,
        mut pass,
        ended,
    } = side;
    forget(store, talk.into_client(), &mut pass);
    was_said(writer.into_inner().as_slice(), ended, texts)
}

/// Whether one of these texts was said, or a beginning of one where the connection ended out of memory.
fn was_said(text: &[u8], ended: Option<Ended>, texts: &[&[u8]]) -> bool {
    match ended {
        None => texts.iter().any(|whole| *whole == text),
        Some(Ended::NoMemory) => texts.iter().any(|whole| whole.starts_with(text)),
        Some(_) => false,
    }
}

/// A store of 2 stripes with 12 frames each, for 2 clients.
fn small() -> Limits
    ensures { result.clients ≡ 2 }
{
    Limits {
        stripes: 2,
        buckets: 16,
        frames: FRAMES_MIN,
        places: PLACES_MIN,
        clients: 2,
    }
}

/// So many openings of a device in memory as an engine of these limits has passes.
fn memory(alloc: Global, limits: &Limits) -> Result<Vec<MemoryDevice>, AllocError>
    ensures { IfOk result (λ openings. vec_len openings ≡ limits.now.clients + BACKGROUND_PASSES) }
{
    MemoryDevice::openings(alloc, limits.clients + BACKGROUND_PASSES)
}

/// An empty engine over these openings, and two of its passes.
fn engine_over<D: Device>(
    alloc: Global,
    limits: &Limits,
    openings: Vec<D>,
) -> Result<(Engine<D>, Pass<D>, Pass<D>), AllocError>
    requires openings { vec_len openings ≡ limits.now.clients + BACKGROUND_PASSES }
    ensures first { IfOk result (λ made. Rests D.Receipt.is_steady made.0 made.1) }
    ensures second { IfOk result (λ made. Rests D.Receipt.is_steady made.0 made.2) }
    ensures first_nothing { IfOk result (λ made. (knows D.failures made.1).watched ≡ []) }
    ensures second_nothing { IfOk result (λ made. (knows D.failures made.2).watched ≡ []) }
{
    let (engine, mut passes) = new_engine(alloc, limits, openings)?;
    let Some(second) = passes.pop() else {
        return Err(AllocError);
    };
    let Some(first) = passes.pop() else {
        return Err(AllocError);
    };
    Ok((engine, first, second))
}

/// An empty engine over these openings, and its passes.
fn new_engine<D: Device>(
    alloc: Global,
    limits: &Limits,
    openings: Vec<D>,
) -> Result<(Engine<D>, Vec<Pass<D>>), AllocError>
    requires openings { vec_len openings ≡ limits.now.clients + BACKGROUND_PASSES }
    ensures count { IfOk result (λ made. vec_len made.1 ≡ limits.now.clients + BACKGROUND_PASSES) }
    ensures rest { IfOk result (λ made. All (Rests D.Receipt.is_steady made.0) made.1.items) }
    ensures watch { IfOk result (λ made. All (λ pass. (knows D.failures pass).watched ≡ []) made.1.items) }
{
    Engine::new(alloc, limits, openings)
}

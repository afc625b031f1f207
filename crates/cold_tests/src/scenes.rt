//! A GET that waits for a cold page, and what another pass does meanwhile: at a store of one stripe.

ghost use Rattle.std.specs.Prelude.{⊤, ◌≡◌};
ghost use Rattle.engine.specs.Passes.{Rests, stripe_count};

use crate::stores::{Opening, with_two};
use crate::waiting::Signal;
use device::Device;
use engine::{Engine, Pass};
use engine_harness::ends::{Kept, end_pass};
use engine_harness::reading::Way;
use engine_harness::steps::Step;
use engine_harness::trying::is_busy;
use std::alloc::Global;
use std::process::Abort;
use std::sync::{Arc, Wait};
use std::thread::{Threads, join};

/// What another pass does, or tells the reads that wait.
#[derive(Clone, Copy)]
pub(crate) enum Deed {
    /// A step that comes to what is due.
    Does(Step),
    /// Waits until so many reads wait, or have waited.
    Meets(u64),
    /// Lets the first reads go on, so many.
    LetsGoFirst(u64),
    /// Finds that so many receipts were taken back.
    FindsReleased(u64),
    /// Tries a GET of this key, and finds the stripe to be another pass's.
    FindsBusy(&'static str),
}

/// A GET by one pass, and what another does.
pub(crate) struct Scene {
    /// How many places the store has.
    pub(crate) places: usize,
    /// What the other pass does first.
    pub(crate) before: &'static [Deed],
    /// The GET, and how it may be answered.
    pub(crate) get: &'static str,
    pub(crate) values: &'static [&'static [u8]],
    /// What the other pass does while the GET waits. It goes on then.
    pub(crate) meanwhile: &'static [Deed],
    /// What the other pass does once the GET is answered.
    pub(crate) after: &'static [Deed],
    /// How the other pass is answered the GET in the end.
    pub(crate) end: &'static [u8],
}

impl Deed {
    /// Does it, and says whether that is so. `full` is the number of the key for which the stripe was full.
    fn is_done<R: Wait, D: Device>(
        self,
        rt: &R,
        alloc: Global,
        signal: &Signal,
        engine: &Engine<D>,
        pass: &mut Pass<D>,
        full: &mut usize,
    ) -> bool
        requires one { stripe_count engine.now ≡ 1 }
        requires rests { Rests D.Receipt.is_steady engine.now pass.old }
        ensures rests { Rests D.Receipt.is_steady engine.now pass.new }
    {
        match self {
            Deed::Does(step) => step.is_so(rt, alloc, engine, pass, full),
            Deed::Meets(count) => signal.meets_reads(count),
            Deed::LetsGoFirst(count) => {
                signal.let_go_first(count);
                true
            }
            Deed::FindsReleased(count) => signal.releases() == count,
            Deed::FindsBusy(key) => is_busy(alloc, engine, pass, key, 0),
        }
    }
}

/// Whether these deeds are done, one after the other.
fn are_done<R: Wait, D: Device>(
    rt: &R,
    alloc: Global,
    signal: &Signal,
    engine: &Engine<D>,
    pass: &mut Pass<D>,
    full: &mut usize,
    deeds: &[Deed],
) -> bool
    requires one { stripe_count engine.now ≡ 1 }
    requires rests { Rests D.Receipt.is_steady engine.now pass.old }
    ensures rests { Rests D.Receipt.is_steady engine.now pass.new }
{
    for deed in deeds {
        if !deed.is_done(rt, alloc, signal, engine, pass, full) {
            return false;
        }
    }
    true
}

/// Whether the GET that waits is answered as it may be.
fn is_read_slowly<R: Wait, D: Device>(
    rt: &R,
    alloc: Global,
    engine: &Engine<D>,
    reader: Kept<D>,
    way: Way,
    scene: &Scene,
) -> bool
    requires rests { Rests D.Receipt.is_steady engine.now reader.pass }
{
    let mut pass = reader.into_pass();
    let is_read = way.reads(rt, alloc, engine, &mut pass, scene.get, scene.values);
    end_pass(pass);
    is_read
}

/// Does the deeds while the GET waits, and lets it go on: whether they were done, and the number of the key for which the stripe
/// was full.
fn does_meanwhile<R: Wait, D: Device>(
    rt: &R,
    alloc: Global,
    signal: &Signal,
    engine: &Engine<D>,
    other: Kept<D>,
    mut full: usize,
    scene: &Scene,
) -> (Pass<D>, bool, usize)
    requires one { stripe_count engine.now ≡ 1 }
    requires rests { Rests D.Receipt.is_steady engine.now other.pass }
    ensures rests { Rests D.Receipt.is_steady engine.now result.0 }
{
    let mut pass = other.into_pass();
    let done = are_done(
        rt,
        alloc,
        signal,
        engine,
        &mut pass,
        &mut full,
        scene.meanwhile,
    );
    signal.let_go();
    (pass, done, full)
}

/// The GET in one thread, and the deeds in another.
fn beside<R: Threads + Wait + Sync>(
    rt: &R,
    alloc: Global,
    signal: &Signal,
    engine: &Engine<Opening>,
    reader: Kept<Opening>,
    other: Kept<Opening>,
    full: usize,
    way: Way,
    scene: &Scene,
) -> (bool, (Pass<Opening>, bool, usize))
    requires one { stripe_count engine.now ≡ 1 }
    requires reader { Rests ⊤ engine.now reader.pass }
    requires other { Rests ⊤ engine.now other.pass }
    ensures rests { Rests ⊤ engine.now result.1.0 }
{
    join(
        rt,
        move || -> bool
            requires { Rests ⊤ engine.now reader.pass }
        { is_read_slowly(rt, alloc, engine, reader, way, scene) },
        move || -> (Pass<Opening>, bool, usize)
            requires one { stripe_count engine.now ≡ 1 }
            requires other { Rests ⊤ engine.now other.pass }
            ensures { Rests ⊤ engine.entry.now result.0 }
        { does_meanwhile(rt, alloc, signal, engine, other, full, scene) },
    )
}

/// Whether all of a scene is so.
fn goes_well_in<R: Threads + Wait + Sync>(
    rt: &R,
    alloc: Global,
    signal: &Signal,
    engine: &Engine<Opening>,
    reader: Pass<Opening>,
    mut other: Pass<Opening>,
    way: Way,
    scene: &Scene,
) -> bool
    requires one { stripe_count engine.now ≡ 1 }
    requires reader { Rests ⊤ engine.now reader }
    requires other { Rests ⊤ engine.now other }
{
    let mut full = 0usize;
    let before = are_done(
        rt,
        alloc,
        signal,
        engine,
        &mut other,
        &mut full,
        scene.before,
    );
    let (is_read, (mut other, meanwhile, mut full)) = beside(
        rt,
        alloc,
        signal,
        engine,
        Kept { pass: reader },
        Kept { pass: other },
        full,
        way,
        scene,
    );
    let after = are_done(
        rt,
        alloc,
        signal,
        engine,
        &mut other,
        &mut full,
        scene.after,
    );
    let ends = way.reads(rt, alloc, engine, &mut other, scene.get, &[scene.end]);
    end_pass(other);
    before && is_read && meanwhile && after && ends && signal.is_in_time()
}

/// Whether a scene goes well at a new store, over a new signal.
pub(crate) fn goes_well<R: Abort + Threads + Wait + Sync>(
    rt: &R,
    alloc: Global,
    way: Way,
    scene: &Scene,
) -> bool {
    let signal = Arc::new(alloc, Signal::new()).expect(rt, "memory for a signal");
    let (engine, reader, other) = with_two(alloc, &signal, scene.places).expect(
        rt,
        "memory for an engine",
    );
    let is_well = goes_well_in(rt, alloc, &signal, &engine, reader, other, way, scene);
    engine.end();
    drop(signal);
    is_well
}

/// Tests a scene in the two ways that have rounds.
pub(crate) fn check<R: Abort + Threads + Wait + Sync>(rt: &R, alloc: Global, scene: &Scene) {
    assert!(rt; goes_well(rt, alloc, Way::Get, scene), "as a plain GET");
    assert!(rt; goes_well(rt, alloc, Way::Submit, scene), "as any call");
}

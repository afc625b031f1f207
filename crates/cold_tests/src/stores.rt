//! Stores of one stripe over a device in memory whose receipts lend no page.

ghost use Rattle.std.specs.Prelude.{⊤, ◌≡◌, ◌+◌, IfSome, IsTrue, vec_len};
ghost use Rattle.engine.specs.Passes.{Rests, stripe_count};

use crate::waiting::{Signal, Waiting};
use device::{Faulty, MemoryDevice};
use engine::{BACKGROUND_PASSES, Engine, Pass};
use engine_harness::ends::{end_pass, end_passes};
use engine_harness::engines::{narrow_over, one_of};
use engine_harness::steps::{Step, steps_done};
use std::alloc::Global;
use std::sync::{Arc, Wait};

/// How many places a store has that is not to become full.
pub(crate) const MANY_PLACES: usize = 4096;

/// An opening of the device of these tests.
pub(crate) type Opening = Waiting<Faulty<MemoryDevice>>;

/// What an opening has of its own: a signal that it shares, and the numbers of the calls that fail. `None` where there was no
/// memory.
fn own_parts(
    alloc: Global,
    signal: &Arc<Signal>,
    failing: &[u64],
) -> Option<(Arc<Signal>, Vec<u64>)> {
    let signal = Arc::try_clone(signal).ok()?;
    match failing.to_vec(alloc) {
        Ok(failing) => Some((signal, failing)),
        Err(_) => {
            drop(signal);
            None
        }
    }
}

/// An opening over this signal, of a device that fails the calls with these numbers. Its reads wait, if they are to. `None` where
/// there was no memory.
fn opening_of(
    alloc: Global,
    signal: &Arc<Signal>,
    failing: &[u64],
    device: MemoryDevice,
    waits: bool,
) -> Option<Opening> {
    match own_parts(alloc, signal, failing) {
        Some((signal, failing)) => Some(Waiting {
            device: Faulty::new(device, failing),
            waits,
            signal,
        }),
        None => {
            drop(device);
            None
        }
    }
}

/// Adds such an opening to others, whose reads wait where it is the first. False where there was no memory.
fn adds_opening(
    alloc: Global,
    signal: &Arc<Signal>,
    failing: &[u64],
    device: MemoryDevice,
    openings: &mut Vec<Opening>,
) -> bool
    ensures { IsTrue result → vec_len openings.new ≡ vec_len openings.old + 1 }
{
    match opening_of(alloc, signal, failing, device, openings.is_empty()) {
        Some(opening) => openings.push(opening).is_ok(),
        None => false,
    }
}

/// The openings of a device in memory whose receipts lend no page, over one signal. Each fails the calls with these numbers,
/// and the reads of the first one wait.
fn openings(alloc: Global, signal: &Arc<Signal>, failing: &[u64]) -> Option<Vec<Opening>>
    ensures { IfSome result (λ openings. vec_len openings ≡ 4) }
{
    let mut below = MemoryDevice::openings(alloc, 1 + BACKGROUND_PASSES).ok()?;
    let mut openings = Vec::new(alloc);
    while let Some(device) = below.pop() {
        if !adds_opening(alloc, signal, failing, device, &mut openings) {
            drop(below);
            drop(openings);
            return None;
        }
    }
    drop(below);
    Some(openings)
}

/// A store of one stripe over such openings, of which no call fails, with so many places, and its first two passes. `None` where
/// there was no memory.
pub(crate) fn with_two(
    alloc: Global,
    signal: &Arc<Signal>,
    places: usize,
) -> Option<(Engine<Opening>, Pass<Opening>, Pass<Opening>)>
    ensures one { IfSome result (λ made. stripe_count made.0 ≡ 1) }
    ensures first { IfSome result (λ made. Rests ⊤ made.0 made.1) }
    ensures second { IfSome result (λ made. Rests ⊤ made.0 made.2) }
{
    let openings = openings(alloc, signal, &[])?;
    let (engine, mut passes) = narrow_over(alloc, places, openings)?;
    let second = passes.swap_remove(1);
    let first = passes.swap_remove(0);
    end_passes(passes);
    Some((engine, first, second))
}

/// Such openings over a signal of their own. `None` where there was no memory.
fn openings_alone(alloc: Global, failing: &[u64]) -> Option<Vec<Opening>>
    ensures { IfSome result (λ openings. vec_len openings ≡ 4) }
{
    let signal = Arc::new(alloc, Signal::new()).ok()?;
    let openings = openings(alloc, &signal, failing);
    drop(signal);
    openings
}

/// A store of one stripe over such openings, which fail the calls with these numbers, and its second pass, whose reads do not wait.
/// `None` where there was no memory.
fn with_one(alloc: Global, failing: &[u64]) -> Option<(Engine<Opening>, Pass<Opening>)>
    ensures one { IfSome result (λ made. stripe_count made.0 ≡ 1) }
    ensures rests { IfSome result (λ made. Rests ⊤ made.0 made.1) }
{
    let openings = openings_alone(alloc, failing)?;
    match narrow_over(alloc, MANY_PLACES, openings) {
        Some(made) => Some(one_of(made, 1)),
        None => None,
    }
}

/// How many of these steps come to what is due at a new store, over a device whose openings fail the calls with these numbers.
/// `None` where there was no memory for the store.
pub(crate) fn steps_at_new<R: Wait>(
    rt: &R,
    alloc: Global,
    failing: &[u64],
    steps: &[Step],
) -> Option<usize> {
    match with_one(alloc, failing) {
        Some((engine, mut pass)) => {
            let done = steps_done(rt, alloc, &engine, &mut pass, &mut 0, steps);
            end_pass(pass);
            engine.end();
            Some(done)
        }
        None => None,
    }
}

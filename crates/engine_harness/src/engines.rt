//! Engines, with all of their passes or with one.

ghost use Rattle.std.specs.Prelude.{◌≡◌, ◌+◌, ◌<◌, [], ⊤, All, IfOk, IfSome, vec_len};
ghost use Rattle.engine.specs.Passes.{knows, Rests, stripe_count};
ghost use Rattle.engine.specs.declared.TheConstants.{BACKGROUND_PASSES};

use crate::ends::end_passes;
use device::{Device, MemoryDevice};
use engine::{BACKGROUND_PASSES, Engine, Pass};
use std::alloc::Global;
use words::limits::{FRAMES_MIN, Limits};
use words::word::OutOfMemory;

/// An engine of these limits over a device in memory, with its passes.
///
/// # Errors
///
/// [`OutOfMemory`] where there is no memory for it.
pub fn engine_of(
    alloc: Global,
    limits: &Limits,
) -> Result<(Engine<MemoryDevice>, Vec<Pass<MemoryDevice>>), OutOfMemory>
    ensures count { IfOk result (λ made. vec_len made.1 ≡ limits.now.clients + BACKGROUND_PASSES) }
    ensures stripes { IfOk result (λ made. stripe_count made.0 ≡ limits.now.stripes) }
    ensures rest { IfOk result (λ made. All (Rests ⊤ made.0) made.1.items) }
    ensures watch { IfOk result (λ made. All (λ pass. (knows (λ device. 0) pass).watched ≡ []) made.1.items) }
{
    let openings = MemoryDevice::openings(alloc, limits.clients + BACKGROUND_PASSES)?;
    Engine::new(alloc, limits, openings)
}

/// An engine with the pass of this number alone.
pub fn one_of<D: Device>(made: (Engine<D>, Vec<Pass<D>>), number: usize) -> (Engine<D>, Pass<D>)
    requires number { number < vec_len made.1 }
    requires rest { All (Rests D.Receipt.is_steady made.0) made.1.items }
    ensures stripes { stripe_count result.0 ≡ stripe_count made.0 }
    ensures rests { Rests D.Receipt.is_steady result.0 result.1 }
{
    let (engine, mut passes) = made;
    let pass = passes.swap_remove(number);
    end_passes(passes);
    (engine, pass)
}

/// An engine of these limits over a device in memory, with one pass. `None` where there was no memory.
pub fn with_pass(
    alloc: Global,
    limits: &Limits,
) -> Option<(Engine<MemoryDevice>, Pass<MemoryDevice>)>
    ensures stripes { IfSome result (λ made. stripe_count made.0 ≡ limits.now.stripes) }
    ensures rests { IfSome result (λ made. Rests ⊤ made.0 made.1) }
{
    match engine_of(alloc, limits) {
        Ok(made) => Some(one_of(made, 0)),
        Err(_) => None,
    }
}

/// An engine of one stripe of 12 frames over these openings, with so many places, and its passes. `None` where there was no memory.
pub fn narrow_over<D: Device>(
    alloc: Global,
    places: usize,
    openings: Vec<D>,
) -> Option<(Engine<D>, Vec<Pass<D>>)>
    requires openings { vec_len openings ≡ 4 }
    ensures count { IfSome result (λ made. vec_len made.1 ≡ 4) }
    ensures stripes { IfSome result (λ made. stripe_count made.0 ≡ 1) }
    ensures rest { IfSome result (λ made. All (Rests D.Receipt.is_steady made.0) made.1.items) }
    ensures watch { IfSome result (λ made. All (λ pass. (knows (λ device. 0) pass).watched ≡ []) made.1.items) }
{
    match Limits::new(1, 64, FRAMES_MIN, places, 1) {
        Some(limits) => match Engine::new(alloc, &limits, openings) {
            Ok(made) => Some(made),
            Err(_) => None,
        },
        None => {
            drop(openings);
            None
        }
    }
}

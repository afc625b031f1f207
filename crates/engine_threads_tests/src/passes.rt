//! Engines over a device in memory, with as many passes as the tests have threads.

ghost use Rattle.std.specs.Prelude.{◌≡◌, [], ⊤};
ghost use Rattle.engine.specs.Passes.{knows, Rests, stripe_count};

use device::MemoryDevice;
use engine::{Engine, Pass};
use engine_harness::ends::{Kept, end_passes};
use engine_harness::engines::engine_of;
use std::alloc::Global;
use std::process::Abort;
use words::limits::{FRAMES_MIN, Limits};

/// An engine, and two passes of it, which watch nothing.
pub(crate) fn with_two(
    rt: &impl Abort,
    alloc: Global,
) -> (Engine<MemoryDevice>, Pass<MemoryDevice>, Pass<MemoryDevice>)
    ensures first { Rests ⊤ result.0 result.1 }
    ensures second { Rests ⊤ result.0 result.2 }
    ensures nothing { (knows (λ device. 0) result.1).watched ≡ [] }
    ensures second_nothing { (knows (λ device. 0) result.2).watched ≡ [] }
{
    let limits = Limits::default();
    let (engine, mut passes) = engine_of(alloc, &limits).expect(rt, "memory for an engine");
    let second = passes.swap_remove(1);
    let first = passes.swap_remove(0);
    end_passes(passes);
    (engine, first, second)
}

/// A pass that a thread is to have.
pub(crate) type One = Kept<MemoryDevice>;

/// Two of them.
pub(crate) type Two = (One, One);

/// Three of them.
pub(crate) type Three = (One, One, One);

/// An engine, and three passes of it, which watch nothing.
pub(crate) fn with_three(rt: &impl Abort, alloc: Global) -> (Engine<MemoryDevice>, Three)
    ensures first { Rests ⊤ result.0 result.1.0.pass }
    ensures second { Rests ⊤ result.0 result.1.1.pass }
    ensures third { Rests ⊤ result.0 result.1.2.pass }
    ensures first_nothing { (knows (λ device. 0) result.1.0.pass).watched ≡ [] }
    ensures second_nothing { (knows (λ device. 0) result.1.1.pass).watched ≡ [] }
    ensures third_nothing { (knows (λ device. 0) result.1.2.pass).watched ≡ [] }
{
    let limits = Limits::default();
    let (engine, mut passes) = engine_of(alloc, &limits).expect(rt, "memory for an engine");
    let third = Kept {
        pass: passes.swap_remove(2),
    };
    let second = Kept {
        pass: passes.swap_remove(1),
    };
    let first = Kept {
        pass: passes.swap_remove(0),
    };
    end_passes(passes);
    (engine, (first, second, third))
}

/// An engine of one stripe of 12 frames, and its passes, of which three watch nothing.
pub(crate) fn narrow_with_five(rt: &impl Abort, alloc: Global) -> (Engine<MemoryDevice>, Three, Two)
    ensures stripes { stripe_count result.0 ≡ 1 }
    ensures first { Rests ⊤ result.0 result.1.0.pass }
    ensures second { Rests ⊤ result.0 result.1.1.pass }
    ensures third { Rests ⊤ result.0 result.1.2.pass }
    ensures fourth { Rests ⊤ result.0 result.2.0.pass }
    ensures fifth { Rests ⊤ result.0 result.2.1.pass }
    ensures first_nothing { (knows (λ device. 0) result.1.0.pass).watched ≡ [] }
    ensures second_nothing { (knows (λ device. 0) result.1.1.pass).watched ≡ [] }
    ensures third_nothing { (knows (λ device. 0) result.1.2.pass).watched ≡ [] }
{
    let limits = Limits::new(1, 64, FRAMES_MIN, 4096, 2).expect(rt, "limits");
    let (engine, mut passes) = engine_of(alloc, &limits).expect(rt, "memory for an engine");
    let fifth = Kept {
        pass: passes.swap_remove(4),
    };
    let fourth = Kept {
        pass: passes.swap_remove(3),
    };
    let third = Kept {
        pass: passes.swap_remove(2),
    };
    let second = Kept {
        pass: passes.swap_remove(1),
    };
    let first = Kept {
        pass: passes.swap_remove(0),
    };
    end_passes(passes);
    (engine, (first, second, third), (fourth, fifth))
}

//! The stripes of an engine, by a pass: what is seen of each, and the steps at it.

ghost use Rattle.std.specs.Prelude.{◌≡◌};
ghost use Rattle.gates.specs.Passes.{known};
ghost use Rattle.engine.specs.Passes.{Rests, stripe_count};
ghost use Rattle.duties.specs.Notes.{events_of, outcome_by};

use device::Device;
use engine::{Engine, Pass};
use std::sync::Wait;
use upkeep::{Duty, Outcome, Stripes};
use words::reply::Fault;

/// The stripes of an engine, by a pass.
#[derive(Drop)]
pub struct Site<'a, T, D: Device> {
    rt: &'a T,
    engine: &'a Engine<D>,
    pass: Pass<D>,
}

impl<'a, T, D: Device> Site<'a, T, D> {
    /// These, by this pass.
    pub fn new(rt: &'a T, engine: &'a Engine<D>, pass: Pass<D>) -> Site<'a, T, D>
        ensures engine { result.engine.now ≡ engine.now }
        ensures pass { result.pass ≡ pass }
    {
        Site { rt, engine, pass }
    }
}

impl<T: Wait, D: Device> Stripes for Site<'_, T, D> {
    ghost is_ready = { λ s. Rests D.Receipt.is_steady s.engine.now s.pass };

    ghost count = { λ s. stripe_count s.engine.now };

    ghost events = { λ s. events_of (known s.pass.gates).notes };

    ghost failures = { λ s. D.failures s.pass.device };

    fn stripes(&self) -> usize {
        self.engine.stripes()
    }

    fn is_half_used(&mut self, stripe: usize) -> bool {
        self.engine.half_used(self.rt, &mut self.pass, stripe)
    }

    fn used_places(&mut self, stripe: usize) -> usize {
        self.engine.used_places(self.rt, &mut self.pass, stripe)
    }

    fn is_short_of_frames(&mut self, stripe: usize) -> bool {
        self.engine.short_of_frames(self.rt, &mut self.pass, stripe)
    }

    fn is_opened(&mut self, stripe: usize) -> bool {
        self.engine
            .lacks_spare_frames(self.rt, &mut self.pass, stripe)
    }

    fn step(&mut self, duty: Duty, stripe: usize) -> Outcome {
        match duty {
            Duty::Flush => outcome_of(self.engine.flush_one(self.rt, &mut self.pass, stripe)),
            Duty::Evict => outcome_of(self.engine.evict_one(self.rt, &mut self.pass, stripe)),
            Duty::Clean => outcome_of(self.engine.clean_one(self.rt, &mut self.pass, stripe)),
        }
    }
}

/// What a step came to that the engine answers so.
fn outcome_of(came: Result<bool, Fault>) -> Outcome
    ensures { result ≡ outcome_by came }
{
    match came {
        Ok(true) => Outcome::Done,
        Ok(false) => Outcome::Idle,
        Err(Fault::StoreFull) => Outcome::Full,
        Err(Fault::OutOfMemory | Fault::DeviceFault | Fault::CommitsWornOut) => Outcome::Fault,
    }
}

//! What a thread adds to what `upkeep` decides: the clock, the rest, and what all who serve share.
//!
//! Each call here asks or tells once, in one line, and notes what it was told beside. That line is what is left to trust.

ghost use Rattle.std.specs.Prelude.{◌≡◌, length};
ghost use Rattle.engine.specs.Passes.{Rests, stripe_count};
ghost use Rattle.upkeep.specs.Rounds.{laps_of};

use crate::site::Site;
use device::Device;
use engine::{Engine, Pass};
use sockets::Serving;
use std::rt::Clock;
use std::sync::Wait;
use std::thread;
use std::time::Duration;
use upkeep::{Call, Calls, Chores, Surroundings, keep_up};

/// What a thread shares with all who serve, and what it heard, said and did so far.
#[derive(Drop)]
struct Beside<'a, R> {
    clock: &'a R,
    serving: &'a Serving,
    calls: Calls,
}

impl<R: Clock> Surroundings for Beside<'_, R> {
    ghost calls = { λ b. b.calls };

    fn is_over(&mut self) -> bool {
        let over = self.serving.is_over();
        self.calls.note(Call::IsOver(over));
        over
    }

    fn is_idle(&mut self) -> bool {
        let idle = self.serving.is_idle();
        self.calls.note(Call::IsIdle(idle));
        idle
    }

    fn rest(&mut self, milliseconds: u64) {
        thread::sleep(self.clock, Duration::from_millis(milliseconds));
        self.calls.note(Call::Rest(milliseconds));
    }

    fn tell_behind(&mut self, is_behind: bool) {
        self.serving.set_behind(is_behind);
        self.calls.note(Call::TellBehind(is_behind));
    }
}

/// Works at all stripes of the engine by this pass, as `upkeep` has it ([`keep_up`]), until serving is over: no connection is
/// accepted any more, and none is served. A step that meets a fault is tried again later, and nobody is told. The cleaner says
/// where it is behind, so that those who read from clients wait for it.
pub fn work_in_background<R: Clock + Wait, D: Device>(
    rt: &R,
    engine: &Engine<D>,
    pass: Pass<D>,
    chores: Chores,
    serving: &Serving,
)
    requires rests { Rests D.Receipt.is_steady engine.now pass }
    requires laps { length (laps_of chores) ≡ stripe_count engine.now }
{
    let mut site = Site::new(rt, engine, pass);
    let mut chores = chores;
    let mut beside = Beside {
        clock: rt,
        serving,
        calls: Calls::new(),
    };
    keep_up(rt, &mut site, &mut beside, &mut chores);
}

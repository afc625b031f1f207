//! What is done at one stripe: a step, by what is seen of the stripe, and up to 16 of them.

ghost use Rattle.std.specs.Prelude.{◌≡◌, ◌≤◌, ◌<◌, ◌+◌, ◌++◌, ◌∷◌, ℕ, true, false};
ghost use Rattle.upkeep.specs.Events.{stepped, steps_done, times_told};
ghost use Rattle.upkeep.specs.Steps.{HasMade, HasStepped, HasStopped, HasVisited, HaveMade, IsBehindAfter, IsTold, is_done_by};
ghost use Rattle.upkeep.specs.declared.stripes.Event.{Event};

use crate::laps::{Laps, Seen};
use crate::stripes::{Duty, Outcome, Stripes};

/// How many steps a thread does at a stripe before it goes on to the next.
const STEPS: usize = 16;

/// What was done at a stripe, after looks at it.
#[derive(Clone, Copy, Debug, PartialEq, Eq)]
pub enum Step {
    /// None: it is not short of frames, or not half used.
    Unneeded,
    /// None: no lap begins, by what was seen.
    Waits(Seen),
    /// A step, of a lap where it is the cleaner's.
    Next(Outcome),
    /// The first step of a lap that begins, by what was seen.
    First(Seen, Outcome),
}

impl Step {
    /// Whether a step was done. One that meets a fault or a full stripe was not, and is tried again later.
    pub fn is_done(self) -> bool
        ensures { result ≡ is_done_by self }
    {
        match self {
            Step::Next(outcome) | Step::First(_, outcome) => outcome == Outcome::Done,
            Step::Unneeded | Step::Waits(_) => false,
        }
    }
}

/// One step at a stripe of so many places, where what is seen of it asks for one. The flusher asks for nothing; the evictor
/// works where frames are short; the cleaner works where half of the places are used, in laps. A step of the cleaner that
/// meets a fault or a full stripe ends its lap.
pub fn step_at<S: Stripes>(
    stripes: &mut S,
    duty: Duty,
    laps: &mut Laps,
    places: usize,
    stripe: usize,
) -> Step
    requires ready { S.is_ready stripes.old }
    requires below { stripe < S.count stripes.old }
    ensures ready { S.is_ready stripes.new }
    ensures count { S.count stripes.new ≡ S.count stripes.old }
    ensures more { S.failures stripes.old ≤ S.failures stripes.new }
    ensures fault { result ≡ Step.Next Outcome.Fault → duty ≡ Duty.Flush → S.failures stripes.old < S.failures stripes.new }
    ensures told { IsTold duty stripe result (S.events stripes.old) (S.events stripes.new) }
    ensures laps { HasStepped duty places result laps.old laps.new }
{
    match duty {
        Duty::Flush => Step::Next(stripes.step(Duty::Flush, stripe)),
        Duty::Evict => evict(stripes, stripe),
        Duty::Clean => clean(stripes, laps, places, stripe),
    }
}

/// A step of the evictor, where frames are short.
fn evict<S: Stripes>(stripes: &mut S, stripe: usize) -> Step
    requires ready { S.is_ready stripes.old }
    requires below { stripe < S.count stripes.old }
    ensures ready { S.is_ready stripes.new }
    ensures count { S.count stripes.new ≡ S.count stripes.old }
    ensures more { S.failures stripes.old ≤ S.failures stripes.new }
    ensures told { IsTold Duty.Evict stripe result (S.events stripes.old) (S.events stripes.new) }
{
    if !stripes.is_short_of_frames(stripe) {
        return Step::Unneeded;
    }
    Step::Next(stripes.step(Duty::Evict, stripe))
}

/// A step of the cleaner, where half of the places are used and a lap goes on or begins.
fn clean<S: Stripes>(stripes: &mut S, laps: &mut Laps, places: usize, stripe: usize) -> Step
    requires ready { S.is_ready stripes.old }
    requires below { stripe < S.count stripes.old }
    ensures ready { S.is_ready stripes.new }
    ensures count { S.count stripes.new ≡ S.count stripes.old }
    ensures more { S.failures stripes.old ≤ S.failures stripes.new }
    ensures told { IsTold Duty.Clean stripe result (S.events stripes.old) (S.events stripes.new) }
    ensures laps { HasStepped Duty.Clean places result laps.old laps.new }
{
    if !stripes.is_half_used(stripe) {
        return Step::Unneeded;
    }
    if laps.goes_on() {
        return Step::Next(clean_one(stripes, laps, stripe));
    }
    let seen = look(stripes, places, stripe);
    if !laps.begins(&seen) {
        return Step::Waits(seen);
    }
    Step::First(seen, clean_one(stripes, laps, stripe))
}

/// What is seen of a stripe of so many places.
fn look<S: Stripes>(stripes: &mut S, places: usize, stripe: usize) -> Seen
    requires ready { S.is_ready stripes.old }
    requires below { stripe < S.count stripes.old }
    ensures ready { S.is_ready stripes.new }
    ensures count { S.count stripes.new ≡ S.count stripes.old }
    ensures failures { S.failures stripes.new ≡ S.failures stripes.old }
    ensures told { S.events stripes.new ≡ Event.Opened stripe result.opened ∷ (Event.Used stripe result.used ∷ S.events stripes.old) }
    ensures places { result.places ≡ places }
{
    let used = stripes.used_places(stripe);
    let opened = stripes.is_opened(stripe);
    Seen {
        used,
        places,
        opened,
    }
}

/// One step of the cleaner. A fault ends its lap, and so does a full stripe.
fn clean_one<S: Stripes>(stripes: &mut S, laps: &mut Laps, stripe: usize) -> Outcome
    requires ready { S.is_ready stripes.old }
    requires below { stripe < S.count stripes.old }
    ensures ready { S.is_ready stripes.new }
    ensures count { S.count stripes.new ≡ S.count stripes.old }
    ensures more { S.failures stripes.old ≤ S.failures stripes.new }
    ensures told { S.events stripes.new ≡ stepped stripe Duty.Clean result ++ S.events stripes.old }
    ensures laps { HasStopped result laps.old laps.new }
{
    let outcome = stripes.step(Duty::Clean, stripe);
    if outcome == Outcome::Full || outcome == Outcome::Fault {
        laps.stop();
    }
    outcome
}

/// Up to 16 steps at a stripe of so many places, until one is not done, and whether any was. The cleaner notes whether those who
/// write wait for it here: it did a step, its lap has steps left, and few places are.
pub fn visit<S: Stripes>(
    stripes: &mut S,
    duty: Duty,
    laps: &mut Laps,
    places: usize,
    stripe: usize,
) -> bool
    requires ready { S.is_ready stripes.old }
    requires below { stripe < S.count stripes.old }
    ensures ready { S.is_ready stripes.new }
    ensures count { S.count stripes.new ≡ S.count stripes.old }
    ensures more { S.failures stripes.old ≤ S.failures stripes.new }
    // Each step is the next one of its duty, as the tables say.
    ensures made { HasVisited duty stripe places (S.events stripes.old) (S.events stripes.new) laps.old laps.new result }
    // It was looked at, or a call of the device has failed.
    ensures looked { times_told stripe (S.events stripes.old) + S.failures stripes.old
        < times_told stripe (S.events stripes.new) + S.failures stripes.new }
    ensures others { (k : ℕ) → times_told k (S.events stripes.old) ≤ times_told k (S.events stripes.new) }
    ensures done { result ≡ true → steps_done (S.events stripes.old) < steps_done (S.events stripes.new) }
    ensures idle { result ≡ false → steps_done (S.events stripes.new) ≡ steps_done (S.events stripes.old) }
    ensures most { steps_done (S.events stripes.new) ≤ steps_done (S.events stripes.old) + 16 }
    ensures level { result ≡ false → laps.new.behind ≡ false }
    ensures behind { duty ≡ Duty.Clean → result ≡ true → IsBehindAfter stripe places laps.new (S.events stripes.new) }
{
    let any = some_steps(stripes, duty, laps, places, stripe);
    if any && duty == Duty::Clean {
        let used = stripes.used_places(stripe);
        laps.note_behind(used, places);
        return true;
    }
    laps.note_level();
    any
}

/// Up to 16 steps at a stripe, until one is not done, and whether any was.
fn some_steps<S: Stripes>(
    stripes: &mut S,
    duty: Duty,
    laps: &mut Laps,
    places: usize,
    stripe: usize,
) -> bool
    requires ready { S.is_ready stripes.old }
    requires below { stripe < S.count stripes.old }
    ensures ready { S.is_ready stripes.new }
    ensures count { S.count stripes.new ≡ S.count stripes.old }
    ensures more { S.failures stripes.old ≤ S.failures stripes.new }
    ensures made { HaveMade duty stripe places (S.events stripes.old) (S.events stripes.new) laps.old laps.new result }
    ensures looked { times_told stripe (S.events stripes.old) + S.failures stripes.old
        < times_told stripe (S.events stripes.new) + S.failures stripes.new }
    ensures others { (k : ℕ) → times_told k (S.events stripes.old) ≤ times_told k (S.events stripes.new) }
    ensures done { result ≡ true → steps_done (S.events stripes.old) < steps_done (S.events stripes.new) }
    ensures idle { result ≡ false → steps_done (S.events stripes.new) ≡ steps_done (S.events stripes.old) }
    ensures most { steps_done (S.events stripes.new) ≤ steps_done (S.events stripes.old) + 16 }
{
    for count in 0..STEPS {
        if !one_step(stripes, duty, laps, places, stripe) {
            return count > 0;
        }
    }
    true
}

/// One step at a stripe, and whether it was done.
fn one_step<S: Stripes>(
    stripes: &mut S,
    duty: Duty,
    laps: &mut Laps,
    places: usize,
    stripe: usize,
) -> bool
    requires ready { S.is_ready stripes.old }
    requires below { stripe < S.count stripes.old }
    ensures ready { S.is_ready stripes.new }
    ensures count { S.count stripes.new ≡ S.count stripes.old }
    ensures more { S.failures stripes.old ≤ S.failures stripes.new }
    ensures looked { times_told stripe (S.events stripes.old) + S.failures stripes.old
        < times_told stripe (S.events stripes.new) + S.failures stripes.new }
    ensures others { (k : ℕ) → times_told k (S.events stripes.old) ≤ times_told k (S.events stripes.new) }
    ensures made { HasMade duty stripe places (S.events stripes.old) (S.events stripes.new) laps.old laps.new result }
    ensures done { result ≡ true → steps_done (S.events stripes.new) ≡ steps_done (S.events stripes.old) + 1 }
    ensures idle { result ≡ false → steps_done (S.events stripes.new) ≡ steps_done (S.events stripes.old) }
{
    step_at(stripes, duty, laps, places, stripe).is_done()
}

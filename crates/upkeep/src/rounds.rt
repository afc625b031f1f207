//! Rounds over all stripes, the rests between them, and when they end.

ghost use Rattle.std.specs.Prelude.{◌≡◌, ◌<◌, ◌≤◌, ◌+◌, ◌++◌, ℕ, true, false, length};
ghost use Rattle.std.specs.List.{list_any};
ghost use Rattle.upkeep.specs.Events.{missed, steps_done, times_told};
ghost use Rattle.upkeep.specs.Rounds.{HasKeptUp, HasRested, WasToldOver, course, duty_of, laps_of, places_of, rest_by, told_after};
ghost use Rattle.upkeep.specs.Steps.{HasVisitedOne, HaveVisited};

use crate::chores::Chores;
use crate::laps::Laps;
use crate::steps::visit;
use crate::stripes::{Duty, Stripes};
use crate::surroundings::Surroundings;
use std::sync::Wait;

/// How long a thread rests that found nothing to do: 10 milliseconds while connections are served, else 50.
const REST_MILLISECONDS: u64 = 10;

const IDLE_MILLISECONDS: u64 = 50;

/// Works at all stripes, round after round, until it is told that serving is over. Where no step was done at any stripe it
/// rests, for 10 milliseconds, or 50 while no connection is served. The cleaner says after each round whether it is behind.
pub fn keep_up<W: Wait, S: Stripes, B: Surroundings>(
    rt: &W,
    stripes: &mut S,
    beside: &mut B,
    chores: &mut Chores,
)
    requires ready { S.is_ready stripes.old }
    requires laps { length (laps_of chores.old) ≡ S.count stripes.old }
    ensures ready { S.is_ready stripes.new }
    ensures count { S.count stripes.new ≡ S.count stripes.old }
    // At least one round is made before it ends.
    ensures fair { missed (S.count stripes.old) (S.events stripes.old) (S.events stripes.new)
        + S.failures stripes.old ≤ S.failures stripes.new }
    ensures over { WasToldOver (B.calls beside.new) }
    // Turn by turn: a round, what is told after it, the rest, and the question whether serving is over, each once and nothing else.
    ensures rounds { HasKeptUp (S.count stripes.old) (duty_of chores.old) (places_of chores.old)
        (course (S.events stripes.old) (S.failures stripes.old) (laps_of chores.old) (B.calls beside.old))
        (course (S.events stripes.new) (S.failures stripes.new) (laps_of chores.new) (B.calls beside.new)) }
    ensures duty { duty_of chores.new ≡ duty_of chores.old }
    ensures places { places_of chores.new ≡ places_of chores.old }
{
    for _ in rt.forever() {
        let done = round(stripes, chores);
        tell(beside, chores);
        take_rest(beside, done);
        if beside.is_over() {
            return;
        }
    }
    unreachable!()
}

/// One visit to each stripe, and whether a step was done at any.
pub fn round<S: Stripes>(stripes: &mut S, chores: &mut Chores) -> bool
    requires ready { S.is_ready stripes.old }
    requires laps { length (laps_of chores.old) ≡ S.count stripes.old }
    ensures ready { S.is_ready stripes.new }
    ensures count { S.count stripes.new ≡ S.count stripes.old }
    ensures laps { length (laps_of chores.new) ≡ S.count stripes.new }
    ensures duty { duty_of chores.new ≡ duty_of chores.old }
    ensures places { places_of chores.new ≡ places_of chores.old }
    // No stripe was told of less often.
    ensures others { (k : ℕ) → times_told k (S.events stripes.old) ≤ times_told k (S.events stripes.new) }
    // Each stripe was looked at: no more were left out than calls of the device have failed.
    ensures fair { missed (S.count stripes.old) (S.events stripes.old) (S.events stripes.new)
        + S.failures stripes.old ≤ S.failures stripes.new }
    ensures done { result ≡ true → steps_done (S.events stripes.old) < steps_done (S.events stripes.new) }
    ensures idle { result ≡ false → steps_done (S.events stripes.new) ≡ steps_done (S.events stripes.old) }
    // Each visit is of the chores' duty, with the laps of its stripe and the chores' number of places.
    ensures visits { HaveVisited (S.count stripes.old) (duty_of chores.old) (places_of chores.old)
        (S.events stripes.old) (S.events stripes.new) (laps_of chores.old) (laps_of chores.new) result }
{
    let mut done = false;
    for stripe in 0..stripes.stripes() {
        if visit_one(stripes, chores, stripe) {
            done = true;
        }
    }
    done
}

/// A visit to one stripe, by the chores, and whether a step was done.
fn visit_one<S: Stripes>(stripes: &mut S, chores: &mut Chores, stripe: usize) -> bool
    requires ready { S.is_ready stripes.old }
    requires below { stripe < S.count stripes.old }
    requires laps { length (laps_of chores.old) ≡ S.count stripes.old }
    ensures ready { S.is_ready stripes.new }
    ensures count { S.count stripes.new ≡ S.count stripes.old }
    ensures laps { length (laps_of chores.new) ≡ S.count stripes.new }
    ensures duty { duty_of chores.new ≡ duty_of chores.old }
    ensures places { places_of chores.new ≡ places_of chores.old }
    ensures more { S.failures stripes.old ≤ S.failures stripes.new }
    ensures looked { times_told stripe (S.events stripes.old) + S.failures stripes.old
        < times_told stripe (S.events stripes.new) + S.failures stripes.new }
    ensures others { (k : ℕ) → times_told k (S.events stripes.old) ≤ times_told k (S.events stripes.new) }
    ensures done { result ≡ true → steps_done (S.events stripes.old) < steps_done (S.events stripes.new) }
    ensures idle { result ≡ false → steps_done (S.events stripes.new) ≡ steps_done (S.events stripes.old) }
    ensures visited { HasVisitedOne (duty_of chores.old) (places_of chores.old) stripe
        (S.events stripes.old) (S.events stripes.new) (laps_of chores.old) (laps_of chores.new) result }
{
    let laps = &mut chores.laps[stripe];
    visit(stripes, chores.duty, laps, chores.places, stripe)
}

/// The cleaner says whether it is behind at any stripe. Others say nothing.
fn tell<B: Surroundings>(beside: &mut B, chores: &Chores)
    ensures { B.calls beside.new ≡ told_after (duty_of chores.now) (laps_of chores.now) ++ B.calls beside.old }
{
    match chores.duty {
        Duty::Flush | Duty::Evict => {}
        Duty::Clean => beside.tell_behind(is_behind_anywhere(&chores.laps)),
    }
}

/// Whether those who write wait for the cleaner at any stripe.
fn is_behind_anywhere(laps: &[Laps]) -> bool
    ensures { result ≡ list_any (λ laps. laps.behind) laps.now }
{
    laps.iter().any(|laps| laps.behind)
}

/// Rests after a round, where it found nothing to do.
fn take_rest<B: Surroundings>(beside: &mut B, done: bool)
    ensures { HasRested done (B.calls beside.old) (B.calls beside.new) }
{
    if !done {
        let idle = beside.is_idle();
        beside.rest(rest_after(idle));
    }
}

/// For how many milliseconds a thread rests that found nothing to do.
pub fn rest_after(idle: bool) -> u64
    ensures { result ≡ rest_by idle }
{
    if idle {
        IDLE_MILLISECONDS
    } else {
        REST_MILLISECONDS
    }
}

//! Random schedules of all events over small stripes, each compared with a plain map: what each client was told, each
//! entry of the history, and what each transaction watches, are what the map has along the history. Calls that met a
//! full stripe are told that, and do nothing. Then each world is finished, and compared once more: each client has every
//! reply. A line is printed for each seed, and how often each kind of event was enabled. It ends with status 1 where
//! anything is not as the map has it, where a kind of event was never enabled, and where a stripe is full that has room,
//! or none is full of those that are filled.
//!
//! Before it ends it runs the program `replay` on schedules of each ending (`replays`).
#![tactic(auto)]

mod compare;
mod counts;
mod dice;
mod plain;
mod random;
mod replays;
mod requests;
mod told;
mod watches;

ghost use Rattle.std.specs.Prelude.{IfSome, ◌<◌};
ghost use Rattle.world.specs.Tables.{IsWorld};

use anyhow::Result;
use compare::{Sums, compared};
use counts::Counts;
use random::schedule;
use replays::replay_each;
use std::alloc::Global;
use std::fmt;
use std::fmt::{Display, Formatter};
use std::process::ExitCode;
use told::Waits;
use words::limits::Limits;
use world::World;
use world_model::Event;

/// How many clients and stripes a world has.
const CLIENTS: usize = 3;

const STRIPES: usize = 2;

/// How many frames a stripe has: the fewest.
const FRAMES: usize = 12;

/// How many times events are drawn for a schedule, one or several at a time.
const DRAWS: usize = 5_000;

/// So many places of a stripe that no schedule takes them all.
const MANY_PLACES: usize = 4_096;

/// The fewest places of a stripe: a schedule fills them.
const FEW_PLACES: usize = 64;

/// The seeds, and how many places a stripe has by each.
const RUNS: [(u64, usize); 12] = [
    (1, MANY_PLACES),
    (2, MANY_PLACES),
    (3, FEW_PLACES),
    (4, FEW_PLACES),
    (5, MANY_PLACES),
    (6, FEW_PLACES),
    (7, MANY_PLACES),
    (8, FEW_PLACES),
    (9, MANY_PLACES),
    (10, FEW_PLACES),
    (11, MANY_PLACES),
    (12, FEW_PLACES),
];

/// What a run came to.
#[derive(Clone, Copy)]
enum Verdict {
    /// All is as the map has it, with the schedule's last event and when each client rests.
    Right(Sums, Sums),
    /// Something is not.
    Wrong,
    /// There was no memory.
    Stopped,
}

impl Verdict {
    /// Whether all is right, and stripes of so many places were full where they are few, and nowhere else.
    fn is_due(&self, places: usize) -> bool {
        match self {
            Verdict::Right(sums, _) => (sums.refused == 0) == (places == MANY_PLACES),
            Verdict::Wrong | Verdict::Stopped => false,
        }
    }
}

impl Display for Verdict {
    fn fmt<W: fmt::Write>(&self, f: &mut Formatter<W>) -> fmt::Result {
        match self {
            Verdict::Right(sums, all) => {
                write!(
                    f,
                    "{} entries, {} of them transactions that were not done, {} calls refused, as the map has it; \
                    at rest {} entries, {} calls refused",
                    sums.entries, sums.undone, sums.refused, all.entries, all.refused
                )
            }
            Verdict::Wrong => write!(f, "not as the map has it"),
            Verdict::Stopped => write!(f, "no memory"),
        }
    }
}

fn main(rt: HostRuntime) -> Result<ExitCode> {
    let mut counts = Counts::new();
    let mut due = true;
    for (seed, places) in RUNS {
        let verdict = run(rt.alloc(), seed, places, &mut counts);
        println!(rt; "seed {seed}, {places} places: {verdict}")?;
        due = due && verdict.is_due(places);
    }
    println!(rt; "enabled: {counts}")?;
    replay_each(&rt)?;
    if due && counts.are_all_there() {
        Ok(ExitCode::SUCCESS)
    } else {
        Ok(ExitCode::FAILURE)
    }
}

/// Follows the random schedule of a seed in a new world, and compares it; and once more when each client rests. Its events
/// that were enabled are counted.
fn run(alloc: Global, seed: u64, places: usize, counts: &mut Counts) -> Verdict {
    let committed = counts.commits();
    let fed = counts.pieces();
    let Some(world) = world_after(alloc, seed, places, counts) else {
        return Verdict::Stopped;
    };
    let sums = compared(alloc, &world, Waits::Some);
    let Ok(world) = world.finish() else {
        return Verdict::Stopped;
    };
    let all = compared(alloc, &world, Waits::None);
    world.end();
    let committed = counts.commits().saturating_sub(committed);
    let fed = counts.pieces().saturating_sub(fed);
    match (sums, all) {
        (Some(sums), Some(all)) if sums.are_of(committed, CLIENTS) && all.are_all(fed) => {
            Verdict::Right(sums, all)
        }
        _ => Verdict::Wrong,
    }
}

/// The world after a random schedule. Its events that were enabled are counted.
fn world_after(alloc: Global, seed: u64, places: usize, counts: &mut Counts) -> Option<World>
    ensures { IfSome result IsWorld }
{
    let events = schedule(alloc, seed, DRAWS, CLIENTS, STRIPES)?;
    let limits = Limits::new(STRIPES, 4_096, FRAMES, places, CLIENTS)?;
    let world = World::new(alloc, &limits).ok()?;
    followed(world, events.as_slice(), counts)
}

/// The world after these events, of which those that were enabled are counted.
fn followed(world: World, events: &[Event], counts: &mut Counts) -> Option<World>
    requires { IsWorld world }
    ensures { IfSome result IsWorld }
{
    let mut world = world;
    let mut left = events;
    while let Some((event, others)) = left.split_first() {
        let (next, enabled) = world.step(event).ok()?;
        world = next;
        if enabled {
            counts.add(event);
        }
        left = others;
    }
    Some(world)
}

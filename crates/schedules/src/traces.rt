//! Tracing a run: a line for each event, which says what it did.

ghost use Rattle.std.specs.Prelude.{◌≡◌, ◌+◌, ◌<◌, ◌≤◌, ◌++◌, IfOk, OnOk, drop, length, true};
ghost use Rattle.world_model.specs.Enabled.{is_enabled};
ghost use Rattle.world_model.specs.Resting.{IsOfCall, events_left};
ghost use Rattle.world_model.specs.Turns.{Turn};
ghost use Rattle.world.specs.Tables.{IsWorld, state_of};
ghost use Rattle.schedules.specs.Runs.{AreTraced, HasGoneOn};
ghost use Rattle.schedules.specs.Traces.{IsTrace, RestsBy, effect_part, entry_added, enabled_part, entry_part, event_part, output_of, said, told_part, trace_line};

use crate::report::report_of;
use crate::schedule::Schedule;
use crate::spelling::{add_bytes, add_event, add_number};
use crate::until::Until;
use std::alloc::{AllocError, Global};
use words::word::OutOfMemory;
use world::World;
use world_model::Event;
use world_model::theorems::{calls_come_to_an_end, sound_worlds_tell_the_truth};

/// What an event did.
#[derive(Clone, Copy)]
struct Effect<'a> {
    enabled: bool,
    /// What its client was told by it.
    told: &'a [u8],
    /// The position of the entry that it added, if it did.
    added: Option<usize>,
}

/// Runs a schedule, and traces it: a line for each event, and then the report.
pub(crate) fn traced(
    alloc: Global,
    until: Until,
    schedule: &Schedule,
) -> Result<Vec<u8>, OutOfMemory>
    ensures { IfOk result (λ text. AreTraced until schedule.now.limits schedule.now.events.items text.items) }
{
    sound_worlds_tell_the_truth();
    let world = World::new(alloc, &schedule.limits)?;
    let (world, mut text) = follow(alloc, world, schedule.events.as_slice())?;
    let first = schedule.events.len() + 2;
    let world = follow_until(alloc, until, world, first, &mut text)?;
    let report = report_of(alloc, &world);
    world.end();
    text.extend_from_slice(report?.as_slice())?;
    Ok(text)
}

/// Does what the events do, in order, and gives their lines, the first of which is on line 2 of the schedule.
fn follow(alloc: Global, world: World, events: &[Event]) -> Result<(World, Vec<u8>), OutOfMemory>
    requires world { IsWorld world }
    ensures trace { IfOk result (λ done. IsTrace 2 (state_of world) events.now (state_of done.0) done.1.items) }
    ensures world { IfOk result (λ done. IsWorld done.0) }
{
    let mut world = world;
    let mut lines = Vec::new(alloc);
    let mut left = events;
    while let Some((event, others)) = left.split_first() {
        let number = events.len() - left.len() + 2;
        world = step(alloc, world, number, event, &mut lines)?;
        left = others;
    }
    Ok((world, lines))
}

/// Does what is done behind a schedule's events, and adds its lines, the first of which has this number.
fn follow_until(
    alloc: Global,
    until: Until,
    world: World,
    first: usize,
    lines: &mut Vec<u8>,
) -> Result<World, OutOfMemory>
    requires world { IsWorld world }
    requires few { first ≤ length lines.old.items + 2 }
    ensures lines { IfOk result (λ next. HasGoneOn until first (state_of world) (state_of next) lines.old.items lines.new.items) }
    ensures world { IfOk result IsWorld }
{
    match until {
        Until::Done => Ok(world),
        Until::Rest => follow_to_rest(alloc, world, first, lines),
    }
}

/// Does events of calls until each client rests, and adds their lines, the first of which has this number.
fn follow_to_rest(
    alloc: Global,
    world: World,
    first: usize,
    lines: &mut Vec<u8>,
) -> Result<World, OutOfMemory>
    requires world { IsWorld world }
    requires few { first ≤ length lines.old.items + 2 }
    ensures rest { IfOk result (λ next. RestsBy first (state_of world) (state_of next) lines.old.items lines.new.items) }
    ensures world { IfOk result IsWorld }
{
    let mut world = world;
    let mut number = first;
    while let Some(event) = world.next_event() {
        world = step_on(alloc, world, number, &event, lines)?;
        number += 1;
    }
    Ok(world)
}

/// Does an event of a call, which is enabled, and adds its line. Fewer are left then.
fn step_on(
    alloc: Global,
    world: World,
    number: usize,
    event: &Event,
    lines: &mut Vec<u8>,
) -> Result<World, OutOfMemory>
    requires world { IsWorld world }
    requires of_call { IsOfCall event.now }
    requires enabled { is_enabled (state_of world) event.now ≡ true }
    ensures turn { IfOk result (λ next. Turn (state_of world) event.now (state_of next)) }
    ensures line { IfOk result (λ next. lines.new.items ≡ lines.old.items ++ trace_line number event.now (state_of world) (state_of next)) }
    ensures fewer { IfOk result (λ next. events_left (state_of next) < events_left (state_of world)) }
    ensures world { IfOk result IsWorld }
{
    calls_come_to_an_end();
    step(alloc, world, number, event, lines)
}

/// Does an event, and adds its line. Where there is no memory, the world is given up.
fn step(
    alloc: Global,
    world: World,
    number: usize,
    event: &Event,
    lines: &mut Vec<u8>,
) -> Result<World, OutOfMemory>
    requires world { IsWorld world }
    ensures turn { IfOk result (λ next. Turn (state_of world) event.now (state_of next)) }
    ensures line { IfOk result (λ next. lines.new.items ≡ lines.old.items ++ trace_line number event.now (state_of world) (state_of next)) }
    ensures world { IfOk result IsWorld }
{
    let client = event.actor();
    let told = output_of(&world, client).len();
    let entries = world.history().len();
    let Ok((next, enabled)) = world.step(event) else {
        return Err(AllocError);
    };
    let effect = Effect {
        enabled,
        told: rest_of(output_of(&next, client), told),
        added: (entries < next.history().len()).then_some(entries),
    };
    match add_line(alloc, lines, number, event, effect) {
        Ok(()) => Ok(next),
        Err(refused) => {
            next.end();
            Err(refused)
        }
    }
}

/// All that was written to the client of an event; of a stripe's event there is none.
fn output_of(world: &World, client: Option<usize>) -> &[u8]
    ensures { result.now ≡ output_of (state_of world.now) client }
{
    match client {
        Some(client) if client < world.clients() => world.output(client),
        _ => &[],
    }
}

/// What a text has after so many bytes.
fn rest_of(text: &[u8], count: usize) -> &[u8]
    ensures { result.now ≡ drop count text.now }
{
    if count < text.len() {
        &text[count..]
    } else {
        &[]
    }
}

/// Adds the line of an event that did this. The event is on the line of this number in the schedule.
fn add_line(
    alloc: Global,
    lines: &mut Vec<u8>,
    number: usize,
    event: &Event,
    effect: Effect<'_>,
) -> Result<(), OutOfMemory>
    ensures { OnOk result (lines.new.items ≡ lines.old.items ++ (event_part number event.now ++ effect_part effect.entry.enabled effect.entry.told.now effect.entry.added)) }
{
    add_number(lines, number)?;
    lines.push(b' ')?;
    add_event(alloc, lines, event)?;
    add_enabled(lines, effect.enabled)?;
    add_told(alloc, lines, effect.told)?;
    add_entry(lines, effect.added)?;
    Ok(lines.push(b'\n')?)
}

/// Adds whether an event was enabled.
fn add_enabled(lines: &mut Vec<u8>, enabled: bool) -> Result<(), OutOfMemory>
    ensures { OnOk result (lines.new.items ≡ lines.old.items ++ enabled_part enabled) }
{
    if enabled {
        lines.extend_from_slice(b" | enabled")
    } else {
        lines.extend_from_slice(b" | not enabled")
    }
}

/// Adds what a client was told, where it was told something.
fn add_told(alloc: Global, lines: &mut Vec<u8>, told: &[u8]) -> Result<(), OutOfMemory>
    ensures { OnOk result (lines.new.items ≡ lines.old.items ++ told_part told.now) }
{
    if told.is_empty() {
        return Ok(());
    }
    lines.extend_from_slice(b" | told ")?;
    add_bytes(alloc, lines, told)
}

/// Adds the position of an entry, where there is one.
fn add_entry(lines: &mut Vec<u8>, entry: Option<usize>) -> Result<(), OutOfMemory>
    ensures { OnOk result (lines.new.items ≡ lines.old.items ++ entry_part entry) }
{
    let Some(position) = entry else {
        return Ok(());
    };
    lines.extend_from_slice(b" | entry ")?;
    add_number(lines, position)
}

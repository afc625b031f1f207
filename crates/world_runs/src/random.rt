//! Random events.

ghost use Rattle.std.specs.Prelude.{◌<◌};

use crate::dice::Dice;
use crate::requests::request;
use std::alloc::Global;
use world_model::{Event, ShownPage};

/// How many times events are drawn in the same mood.
const MOOD: usize = 1_250;

/// What is drawn while a mood lasts.
#[derive(Clone, Copy)]
pub(crate) enum Mood {
    /// The logs grow: most requests write, and the cleaner takes no step.
    Grows,
    /// The cleaner works.
    Cleans,
}

impl Mood {
    /// The mood after so many draws; the two take turns.
    fn at(draws: usize) -> Mood {
        if draws / MOOD % 2 == 0 {
            Mood::Grows
        } else {
            Mood::Cleans
        }
    }
}

/// The events of so many draws; in the last of them the input of some client may come to its end.
pub(crate) fn schedule(
    alloc: Global,
    seed: u64,
    draws: usize,
    clients: usize,
    stripes: usize,
) -> Option<Vec<Event>>
    requires clients { 0 < clients }
    requires stripes { 0 < stripes }
{
    let mut dice = Dice::new(seed);
    let mut events = Vec::new(alloc);
    for number in 0..draws {
        let mood = Mood::at(number);
        draw(alloc, &mut dice, mood, &mut events, clients, stripes)?;
        if number > draws - draws / 50 && dice.below(40) == 0 {
            push(&mut events, Event::Close(dice.below(clients)))?;
        }
    }
    Some(events)
}

/// Adds a random event, three of four times a client's, or a client's whole call.
fn draw(
    alloc: Global,
    dice: &mut Dice,
    mood: Mood,
    events: &mut Vec<Event>,
    clients: usize,
    stripes: usize,
) -> Option<()>
    requires clients { 0 < clients }
    requires stripes { 0 < stripes }
{
    if dice.below(4) == 0 {
        let stripe = dice.below(stripes);
        return push(events, of_stripe(alloc, dice, mood, stripe)?);
    }
    let client = dice.below(clients);
    match dice.below(4) {
        0 => {
            push(events, Event::Piece(client, request(alloc, dice, mood)?))?;
            add_call(events, client, stripes)
        }
        1 => add_call(events, client, stripes),
        _ => push(events, of_client(alloc, dice, mood, client, stripes)?),
    }
}

/// Adds what brings an open call of a client to its end, where nothing is in its way.
fn add_call(events: &mut Vec<Event>, client: usize, stripes: usize) -> Option<()> {
    push(events, Event::Fetch(client))?;
    for stripe in 0..stripes {
        push(events, Event::Take(client, stripe))?;
    }
    push(events, Event::Commit(client))?;
    for stripe in 0..stripes {
        push(events, Event::Give(client, stripe))?;
    }
    Some(())
}

/// A random event of a client.
fn of_client(
    alloc: Global,
    dice: &mut Dice,
    mood: Mood,
    client: usize,
    stripes: usize,
) -> Option<Event>
    requires { 0 < stripes }
{
    match dice.below(12) {
        0 => Some(Event::Piece(client, request(alloc, dice, mood)?)),
        1 | 2 | 3 | 4 | 5 => Some(Event::Take(client, dice.below(stripes))),
        6 | 7 => Some(Event::Commit(client)),
        8 | 9 | 10 => Some(Event::Give(client, dice.below(stripes))),
        _ => Some(Event::Fetch(client)),
    }
}

/// A random event of a stripe: of the flusher and the evictor, or of the cleaner too.
fn of_stripe(alloc: Global, dice: &mut Dice, mood: Mood, stripe: usize) -> Option<Event> {
    let kinds = match mood {
        Mood::Grows => 4,
        Mood::Cleans => 8,
    };
    match dice.below(kinds) {
        0 => Some(Event::Copy(stripe)),
        1 => Some(Event::Write(stripe)),
        2 => Some(Event::Install(stripe)),
        3 => Some(Event::Drop(stripe)),
        4 => Some(Event::Unlink(stripe)),
        5 => Some(Event::Retire(stripe)),
        6 => Some(Event::Drain(stripe)),
        _ => {
            let page = ShownPage::filled(alloc, dice.below(256) as u8).ok()?;
            Some(Event::Release(stripe, page))
        }
    }
}

/// Adds an event. `None` where there was no memory.
fn push(events: &mut Vec<Event>, event: Event) -> Option<()> {
    match events.push(event) {
        Ok(()) => Some(()),
        Err(_) => None,
    }
}

//! Reading a schedule.

ghost use Rattle.std.specs.Prelude.{◌≡◌, ℕ, [], IfOk, IfErr};
ghost use Rattle.schedules.specs.Lines.{IsNext, AreEvents, HasBadEvent};
ghost use Rattle.schedules.specs.Schedules.{IsSchedule, IsBadLine};

use crate::cutting::cut;
use crate::lines::{event_of, first_line};
use crate::pages::Pages;
use std::alloc::Global;
use words::limits::Limits;
use words::word::OutOfMemory;
use world_model::Event;

/// A schedule: the world's limits, and the events, in order.
#[derive(Drop)]
pub struct Schedule {
    /// How many clients and stripes the world has; with the buckets and the places of a store where
    /// nothing else is asked for.
    pub limits: Limits,
    /// What happens, in order.
    pub events: Vec<Event>,
}

/// Why a text was not read as a schedule.
#[derive(Clone, Copy, Debug, PartialEq, Eq)]
pub enum ParseFault {
    /// This line is the first that is bad. Lines are numbered from 1.
    BadLine(usize),
    /// The allocator refused a growth.
    OutOfMemory,
}

/// Reads the next line of a text that is not empty, and gives its event and what follows it. `Ok(None)`
/// where it is none within the limits.
fn next_event<'a>(
    alloc: Global,
    limits: &Limits,
    pages: &mut Pages,
    text: &'a [u8],
) -> Result<Option<(Event, &'a [u8])>, OutOfMemory>
    ensures { IfOk result (IsNext limits.now text.now) }
{
    let Some((line, rest)) = cut(b'\n', text) else {
        return Ok(None);
    };
    match event_of(alloc, limits, pages, line)? {
        Some(event) => Ok(Some((event, rest))),
        None => Ok(None),
    }
}

/// Reads the lines after the first.
fn events_of(alloc: Global, limits: &Limits, text: &[u8]) -> Result<Vec<Event>, ParseFault>
    ensures events { IfOk result (λ events. AreEvents limits.now text.now events.items []) }
    ensures bad { IfErr result (λ fault. (number : ℕ) → fault ≡ ParseFault.BadLine number → HasBadEvent limits.now text.now number) }
{
    let mut events = Vec::new(alloc);
    let mut pages = Pages::new(alloc);
    let mut rest = text;
    while !rest.is_empty() {
        let next = next_event(alloc, limits, &mut pages, rest).map_err(
            |_| ParseFault::OutOfMemory,
        )?;
        let Some((event, more)) = next else {
            return Err(ParseFault::BadLine(events.len() + 2));
        };
        events.push(event).map_err(|_| ParseFault::OutOfMemory)?;
        rest = more;
    }
    Ok(events)
}

/// Reads a schedule.
///
/// # Errors
///
/// The number of its first bad line, or want of memory, whichever is met first.
pub fn parse(alloc: Global, text: &[u8]) -> Result<Schedule, ParseFault>
    ensures schedule { IfOk result (λ schedule. IsSchedule text.now schedule.limits schedule.events.items) }
    ensures bad { IfErr result (λ fault. (number : ℕ) → fault ≡ ParseFault.BadLine number → IsBadLine text.now number) }
{
    let Some((line, rest)) = cut(b'\n', text) else {
        return Err(ParseFault::BadLine(1));
    };
    let Some(limits) = first_line(line) else {
        return Err(ParseFault::BadLine(1));
    };
    match events_of(alloc, &limits, rest) {
        Ok(events) => Ok(Schedule { limits, events }),
        Err(fault) => Err(fault),
    }
}

//! The lines of a schedule, without their line feed.

ghost use Rattle.std.specs.Prelude.{◌≡◌, [], ◌∷◌, IfOk, codes};
ghost use Rattle.schedules.specs.Lines.{IsReading, IsLine, IsFirstReading, IsFirstLine};

use crate::cutting::cut;
use crate::hexadecimal::{byte_of, bytes_of};
use crate::numbers::number;
use crate::pages::Pages;
use crate::verbs::{ClientVerb, HoldVerb, StripeVerb};
use bytes::Bytes;
use std::alloc::Global;
use words::limits::{
    BUCKETS_DEFAULT, CLIENTS_MAX, FRAMES_MAX, Limits, PLACES_DEFAULT, STRIPES_MAX,
};
use words::word::OutOfMemory;
use world_model::Event;

/// The most bytes that one event feeds to a client.
pub const PIECE_BYTES_MAX: usize = 65_536;

/// The limits that the words of a first line give, or `None` where they are none.
fn limits_of(name: &[u8], clients: &[u8], stripes: &[u8], frames: &[u8]) -> Option<Limits>
    ensures { IsFirstReading (name.now ∷ clients.now ∷ stripes.now ∷ frames.now ∷ []) result }
{
    if name != b"world".as_slice() {
        return None;
    }
    let clients = number(clients, CLIENTS_MAX + 1)?;
    let stripes = number(stripes, STRIPES_MAX + 1)?;
    let frames = number(frames, FRAMES_MAX + 1)?;
    Limits::new(stripes, BUCKETS_DEFAULT, frames, PLACES_DEFAULT, clients)
}

/// The limits that a first line gives, or `None` where it is no first line.
pub(crate) fn first_line(text: &[u8]) -> Option<Limits>
    ensures { IsFirstLine text.now result }
{
    let (name, numbers) = cut(b' ', text)?;
    let (clients, numbers) = cut(b' ', numbers)?;
    let (stripes, frames) = cut(b' ', numbers)?;
    limits_of(name, clients, stripes, frames)
}

/// The event of a name and a number.
fn event_of_number(limits: &Limits, name: &[u8], text: &[u8]) -> Option<Event>
    ensures { IsReading limits.now (name.now ∷ text.now ∷ []) result }
{
    if let Some(verb) = ClientVerb::named(name) {
        return Some(verb.of(number(text, limits.clients)?));
    }
    let verb = StripeVerb::named(name)?;
    Some(verb.of(number(text, limits.stripes)?))
}

/// The event of a client that is fed these bytes.
fn piece(
    alloc: Global,
    limits: &Limits,
    client: &[u8],
    text: &[u8],
) -> Result<Option<Event>, OutOfMemory>
    ensures { IfOk result (IsReading limits.now (codes "piece" ∷ client.now ∷ text.now ∷ [])) }
{
    let Some(client) = number(client, limits.clients) else {
        return Ok(None);
    };
    if text.is_empty() || text.len() > 2 * PIECE_BYTES_MAX {
        return Ok(None);
    }
    let Some(bytes) = bytes_of(alloc, text)? else {
        return Ok(None);
    };
    Ok(Some(Event::Piece(client, Bytes::from_vec(bytes)?)))
}

/// The event of a stripe whose place is released, and shows a page of this byte.
fn release(
    limits: &Limits,
    pages: &mut Pages,
    stripe: &[u8],
    text: &[u8],
) -> Result<Option<Event>, OutOfMemory>
    ensures { IfOk result (IsReading limits.now (codes "release" ∷ stripe.now ∷ text.now ∷ [])) }
{
    let Some(stripe) = number(stripe, limits.stripes) else {
        return Ok(None);
    };
    let Some(byte) = byte_of(text) else {
        return Ok(None);
    };
    let page = pages.of(byte)?;
    Ok(Some(Event::Release(stripe, page)))
}

/// The event of a name, a client and a stripe.
fn hold(limits: &Limits, name: &[u8], client: &[u8], stripe: &[u8]) -> Option<Event>
    requires piece { name.now ≡ codes "piece" → ⊥ }
    requires release { name.now ≡ codes "release" → ⊥ }
    ensures { IsReading limits.now (name.now ∷ client.now ∷ stripe.now ∷ []) result }
{
    let verb = HoldVerb::named(name)?;
    let client = number(client, limits.clients)?;
    let stripe = number(stripe, limits.stripes)?;
    Some(verb.of(client, stripe))
}

/// The event of a name and two words.
fn event_of_two(
    alloc: Global,
    limits: &Limits,
    pages: &mut Pages,
    name: &[u8],
    first: &[u8],
    second: &[u8],
) -> Result<Option<Event>, OutOfMemory>
    ensures { IfOk result (IsReading limits.now (name.now ∷ first.now ∷ second.now ∷ [])) }
{
    if name == b"piece".as_slice() {
        return piece(alloc, limits, first, second);
    }
    if name == b"release".as_slice() {
        return release(limits, pages, first, second);
    }
    Ok(hold(limits, name, first, second))
}

/// The event of a line, or `None` where it is none within the limits.
pub(crate) fn event_of(
    alloc: Global,
    limits: &Limits,
    pages: &mut Pages,
    line: &[u8],
) -> Result<Option<Event>, OutOfMemory>
    ensures { IfOk result (IsLine limits.now line.now) }
{
    let Some((name, words)) = cut(b' ', line) else {
        return Ok(None);
    };
    match cut(b' ', words) {
        None => Ok(event_of_number(limits, name, words)),
        Some((first, second)) => event_of_two(alloc, limits, pages, name, first, second),
    }
}

//! Spelling an event, as a line of a schedule has it.

ghost use Rattle.std.specs.Prelude.{◌≡◌, ◌++◌, ◌∷◌, [], take, OnOk, decimal};
ghost use Rattle.hex.specs.Hex.{encode_lower};
ghost use Rattle.schedules.specs.Schedules.{spaced, words_of};

use itoa::Buffer;
use records::Page;
use std::alloc::Global;
use words::word::OutOfMemory;
use world_model::Event;

/// Adds a number to a text, in decimal.
pub(crate) fn add_number(text: &mut Vec<u8>, number: usize) -> Result<(), OutOfMemory>
    ensures { OnOk result (text.new.items ≡ text.old.items ++ decimal number) }
{
    text.extend_from_slice(Buffer::new().format(number).as_bytes())
}

/// Adds bytes to a text, in lower-case hexadecimal.
pub(crate) fn add_bytes(alloc: Global, text: &mut Vec<u8>, bytes: &[u8]) -> Result<(), OutOfMemory>
    ensures { OnOk result (text.new.items ≡ text.old.items ++ encode_lower bytes.now) }
{
    let digits = hex::encode(alloc, bytes)?;
    text.extend_from_slice(digits.as_bytes())
}

/// Adds a name and a number.
fn add_named(text: &mut Vec<u8>, name: &[u8], number: usize) -> Result<(), OutOfMemory>
    ensures { OnOk result (text.new.items ≡ text.old.items ++ spaced (name.now ∷ decimal number ∷ [])) }
{
    text.extend_from_slice(name)?;
    text.push(b' ')?;
    add_number(text, number)
}

/// Adds a name, a client and a stripe.
fn add_hold(
    text: &mut Vec<u8>,
    name: &[u8],
    client: usize,
    stripe: usize,
) -> Result<(), OutOfMemory>
    ensures { OnOk result (text.new.items ≡ text.old.items ++ spaced (name.now ∷ decimal client ∷ decimal stripe ∷ [])) }
{
    add_named(text, name, client)?;
    text.push(b' ')?;
    add_number(text, stripe)
}

/// Adds a name, a number and bytes.
fn add_with_bytes(
    alloc: Global,
    text: &mut Vec<u8>,
    name: &[u8],
    number: usize,
    bytes: &[u8],
) -> Result<(), OutOfMemory>
    ensures { OnOk result (text.new.items ≡ text.old.items ++ spaced (name.now ∷ decimal number ∷ encode_lower bytes.now ∷ [])) }
{
    add_named(text, name, number)?;
    text.push(b' ')?;
    add_bytes(alloc, text, bytes)
}

/// Adds the words of an event, each two separated by one space.
pub(crate) fn add_event(alloc: Global, text: &mut Vec<u8>, event: &Event) -> Result<(), OutOfMemory>
    ensures { OnOk result (text.new.items ≡ text.old.items ++ spaced (words_of event.now)) }
{
    match event {
        Event::Piece(client, bytes) => add_with_bytes(alloc, text, b"piece", *client, bytes),
        Event::Close(client) => add_named(text, b"close", *client),
        Event::Take(client, stripe) => add_hold(text, b"take", *client, *stripe),
        Event::Fetch(client) => add_named(text, b"fetch", *client),
        Event::Commit(client) => add_named(text, b"commit", *client),
        Event::Give(client, stripe) => add_hold(text, b"give", *client, *stripe),
        Event::Copy(stripe) => add_named(text, b"copy", *stripe),
        Event::Write(stripe) => add_named(text, b"write", *stripe),
        Event::Install(stripe) => add_named(text, b"install", *stripe),
        Event::Drop(stripe) => add_named(text, b"drop", *stripe),
        Event::Unlink(stripe) => add_named(text, b"unlink", *stripe),
        Event::Retire(stripe) => add_named(text, b"retire", *stripe),
        Event::Drain(stripe) => add_named(text, b"drain", *stripe),
        Event::Release(stripe, page) => {
            // The first byte of the page stands for all.
            let first = first_of(page.page());
            add_with_bytes(alloc, text, b"release", *stripe, first)
        }
    }
}

/// The first byte of a page.
fn first_of(page: &Page) -> &[u8]
    ensures { result.now ≡ take 1 page.now }
{
    let (bytes, zeros) = page.parts();
    if bytes.is_empty() {
        &zeros[..1]
    } else {
        &bytes[..1]
    }
}

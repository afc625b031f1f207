//! The walk over a reply's tree, which gives its bytes to a sink.

ghost use Rattle.std.specs.Prelude.{◌≡◌, ◌++◌};
ghost use Rattle.std.specs.List.{flat_map};
ghost use Rattle.words.specs.Encoding.{item_encoding, command_reply_encoding, encoding};
ghost use Rattle.words.specs.Session.{value_reply, values_reply};
ghost use Rattle.words.specs.Spelling.{header, crlf, bulk_string};
ghost use Rattle.resp_write.specs.Sinks.{IsGiven};

use crate::sink::{Sink, Stopped};
use itoa::Buffer;
use words::bulks::Bulks;
use words::reply::{CommandReply, Item, Reply};
use words::word::Word;

/// A reply.
#[inline]
#[tactic(auto, unfolding(words::specs::Encoding::encoding))]
pub(crate) fn put_reply<S: Sink>(reply: &Reply, out: &mut S) -> Result<(), Stopped>
    ensures { IsGiven S.takes S.stops out.old out.new result (encoding reply.now) }
{
    match reply {
        Reply::Single(command_reply) => put_command_reply(command_reply, out),
        Reply::NullArray => out.give(b"*-1\r\n"),
        Reply::Array(command_replies) => {
            let replies = command_replies.as_slice();
            if let Err(stopped) = put_header(b'*', replies.len(), out) {
                return Err(stopped);
            }
            put_command_replies(replies, out)
        }
    }
}

/// The answers of commands.
fn put_command_replies<S: Sink>(replies: &[CommandReply], out: &mut S) -> Result<(), Stopped>
    ensures { IsGiven S.takes S.stops out.old out.new result
        (flat_map command_reply_encoding replies.now) }
{
    for reply in replies {
        if let Err(stopped) = put_command_reply(reply, out) {
            return Err(stopped);
        }
    }
    Ok(())
}

/// The answer of a command.
#[inline]
#[tactic(auto, unfolding(words::specs::Encoding::command_reply_encoding))]
fn put_command_reply<S: Sink>(reply: &CommandReply, out: &mut S) -> Result<(), Stopped>
    ensures { IsGiven S.takes S.stops out.old out.new result (command_reply_encoding reply.now) }
{
    match reply {
        CommandReply::One(item) => put_item(item, out),
        CommandReply::Array(items) => {
            let items = items.as_slice();
            if let Err(stopped) = put_header(b'*', items.len(), out) {
                return Err(stopped);
            }
            put_items(items, out)
        }
    }
}

/// Items.
fn put_items<S: Sink>(items: &[Item], out: &mut S) -> Result<(), Stopped>
    ensures { IsGiven S.takes S.stops out.old out.new result (flat_map item_encoding items.now) }
{
    for item in items {
        if let Err(stopped) = put_item(item, out) {
            return Err(stopped);
        }
    }
    Ok(())
}

/// An item.
#[inline]
#[tactic(auto, unfolding(words::specs::Encoding::item_encoding))]
fn put_item<S: Sink>(item: &Item, out: &mut S) -> Result<(), Stopped>
    ensures { IsGiven S.takes S.stops out.old out.new result (item_encoding item.now) }
{
    match item {
        Item::Line(line) => put_line(line.text(), out),
        Item::Integer(number) => put_integer(*number, out),
        Item::Bulk(bytes) => put_bulk(bytes.as_slice(), out),
        Item::Null => out.give(b"$-1\r\n"),
    }
}

/// A value as a bulk string, or the null bulk string where there is none.
#[inline]
#[tactic(auto, unfolding(words::specs::Encoding::encoding, words::specs::Encoding::command_reply_encoding, words::specs::Encoding::item_encoding))]
pub(crate) fn put_value<S: Sink>(value: &Option<Word>, out: &mut S) -> Result<(), Stopped>
    ensures { IsGiven S.takes S.stops out.old out.new result (encoding (value_reply value.now)) }
{
    match value {
        Some(word) => put_bulk(word.as_slice(), out),
        None => out.give(b"$-1\r\n"),
    }
}

/// An array of values, which lie there as they are spelled.
#[inline]
#[tactic(auto, unfolding(words::specs::Encoding::encoding, words::specs::Encoding::command_reply_encoding))]
pub(crate) fn put_values<S: Sink>(values: &Bulks, out: &mut S) -> Result<(), Stopped>
    ensures { IsGiven S.takes S.stops out.old out.new result (encoding (values_reply values.now)) }
{
    if let Err(stopped) = put_header(b'*', values.len(), out) {
        return Err(stopped);
    }
    out.give(values.text())
}

/// `:`, a number in decimal, and a line end.
#[inline]
#[tactic(auto, unfolding(words::specs::Encoding::item_encoding))]
fn put_integer<S: Sink>(number: i64, out: &mut S) -> Result<(), Stopped>
    ensures { IsGiven S.takes S.stops out.old out.new result (item_encoding (Item.Integer number)) }
{
    if let Err(stopped) = out.give(b":") {
        return Err(stopped);
    }
    put_line(Buffer::new().format(number).as_bytes(), out)
}

/// A bulk string: `$`, its length in decimal, a line end, its bytes, and a line end.
#[inline]
#[tactic(auto, unfolding(words::specs::Spelling::bulk_string))]
fn put_bulk<S: Sink>(bytes: &[u8], out: &mut S) -> Result<(), Stopped>
    ensures { IsGiven S.takes S.stops out.old out.new result (bulk_string bytes.now) }
{
    if let Err(stopped) = put_header(b'$', bytes.len(), out) {
        return Err(stopped);
    }
    put_line(bytes, out)
}

/// A sign, a number in decimal, and a line end.
#[inline]
#[tactic(auto, unfolding(words::specs::Spelling::header))]
fn put_header<S: Sink>(sign: u8, count: usize, out: &mut S) -> Result<(), Stopped>
    ensures { IsGiven S.takes S.stops out.old out.new result (header sign count) }
{
    if let Err(stopped) = out.give(&[sign]) {
        return Err(stopped);
    }
    put_line(Buffer::new().format(count).as_bytes(), out)
}

/// A text and a line end.
#[inline]
pub(crate) fn put_line<S: Sink>(text: &[u8], out: &mut S) -> Result<(), Stopped>
    ensures { IsGiven S.takes S.stops out.old out.new result (text.now ++ crlf) }
{
    if let Err(stopped) = out.give(text) {
        return Err(stopped);
    }
    out.give(b"\r\n")
}

//! Whether there surely is room for a reply, told without spelling its numbers.

ghost use Rattle.std.specs.Prelude.{◌≡◌, ◌+◌, ◌≤◌, length, IfSome, IsTrue};
ghost use Rattle.std.specs.List.{flat_map};
ghost use Rattle.words.specs.Encoding.{command_reply_encoding, encoding, item_encoding};

use words::reply::{CommandReply, Item, Reply};

/// The most bytes of an integer as an item: a sign of its kind, its own sign, 19 digits, and a line end.
const INTEGER_BYTES: usize = 23;
/// The most bytes of a bulk string beside its value: a sign, 20 digits, and two line ends.
const BULK_BYTES: usize = 25;
/// The most bytes of the header of an array: a sign, 20 digits, and a line end.
const HEADER_BYTES: usize = 23;

/// Whether a reply takes at most so many bytes. A false tells nothing: so it is said of an answer that is an array in itself, as to an
/// `MGET`, and where a number has fewer digits than it could have.
#[inline]
pub(crate) fn surely_fits(reply: &Reply, room: usize) -> bool
    ensures { IsTrue result → length (encoding reply.now) ≤ room }
{
    match reply {
        Reply::Single(reply) => one_fits(reply, room),
        Reply::Array(replies) => array_fits(replies.as_slice(), room),
        Reply::NullArray => false,
    }
}

/// Whether the answer of a command surely takes at most so many bytes.
#[inline]
#[tactic(auto, using(crate::proofs::Bounds::single_len))]
fn one_fits(reply: &CommandReply, room: usize) -> bool
    ensures { IsTrue result → length (encoding (Reply.Single reply.now)) ≤ room }
{
    match reply {
        CommandReply::One(item) => match room_behind(item, room) {
            Some(_left) => true,
            None => false,
        },
        CommandReply::Array(_) => false,
    }
}

/// Whether an array of the answers of commands surely takes at most so many bytes.
#[tactic(auto, using(crate::proofs::Bounds::array_len))]
fn array_fits(replies: &[CommandReply], room: usize) -> bool
    ensures { IsTrue result → length (encoding (Reply.Array replies.now)) ≤ room }
{
    match room.checked_sub(HEADER_BYTES) {
        Some(left) => all_fit(replies, left),
        None => false,
    }
}

/// Whether the answers of commands surely take at most so many bytes together.
fn all_fit(replies: &[CommandReply], room: usize) -> bool
    ensures { IsTrue result → length (flat_map command_reply_encoding replies.now) ≤ room }
{
    let mut left = room;
    let mut rest = replies;
    while let Some((first, others)) = rest.split_first() {
        let CommandReply::One(item) = first else {
            return false;
        };
        let Some(behind) = room_behind(item, left) else {
            return false;
        };
        left = behind;
        rest = others;
    }
    true
}

/// How many bytes of this room an item surely leaves. `None` where it may take more.
#[inline]
#[tactic(auto, using(crate::proofs::Bounds::bulk_len, crate::proofs::Bounds::line_len, crate::proofs::Bounds::null_len))]
fn room_behind(item: &Item, room: usize) -> Option<usize>
    ensures { IfSome result (λ left. left + length (item_encoding item.now) ≤ room) }
{
    match item {
        Item::Line(line) => room.checked_sub(line.text().len() + 2),
        Item::Integer(number) => behind_integer(*number, room),
        Item::Bulk(bytes) => behind_bulk(bytes.len(), room),
        Item::Null => room.checked_sub(5),
    }
}

/// How many bytes of this room an integer surely leaves, whichever it is. `None` where it may take more.
#[inline]
#[tactic(auto, using(crate::proofs::Bounds::integer_len))]
fn behind_integer(number: i64, room: usize) -> Option<usize>
    ensures { IfSome result (λ left. left + length (item_encoding (Item.Integer number)) ≤ room) }
{
    room.checked_sub(INTEGER_BYTES)
}

/// How many bytes of this room a bulk string of so many bytes surely leaves. `None` where it may take more.
#[inline]
fn behind_bulk(bytes: usize, room: usize) -> Option<usize>
    ensures { IfSome result (λ left. left + BULK_BYTES + bytes ≤ room) }
{
    let Some(left) = room.checked_sub(BULK_BYTES) else {
        return None;
    };
    left.checked_sub(bytes)
}

//! The bytes of replies: appended to a buffer, or written to a stream.

ghost use Rattle.std.specs.Prelude.{◌≡◌, ◌+◌, ◌≤◌, ◌^◌, ◌++◌, ◌↔◌, length, IsOk, IsTrue, IfSome, IfNone, OnOk, OnErr, vec_len, vec_capacity, not, is_ok};
ghost use Rattle.words.specs.Encoding.{encoding};
ghost use Rattle.words.specs.Session.{line_reply, value_reply, values_reply};
ghost use Rattle.streams.specs.Streams.{IsSent, stream_of, told_of, told_when};
ghost use Rattle.resp_write.specs.Lines.{IsLine};

use crate::bound::surely_fits;
use crate::sink::Length;
use crate::walk::{put_line, put_reply, put_value, put_values};
use std::alloc::AllocError;
use std::io::Write;
use streams::{Noted, WriteFault};
use words::bulks::Bulks;
use words::reply::{Line, Reply};
use words::word::Word;

/// Appends the bytes of a reply. It takes memory only where the room is too small; after an `Err`
/// the buffer is as it was.
#[tactic(auto, using(crate::proofs::LineLengths::line_len))]
pub fn encode(reply: &Reply, out: &mut Vec<u8>) -> Result<(), AllocError>
    ensures ok { OnOk result (out.new.items ≡ out.old.items ++ encoding reply.now) }
    ensures err { OnErr result (out.new.items ≡ out.old.items) }
    ensures capacity { vec_capacity out.old ≤ vec_capacity out.new }
    ensures succeeds { vec_len out.old + length (encoding reply.now)
        ≤ vec_capacity out.old → IsOk result }

    // A line and its end are at most 66 bytes.
    ensures line { IsLine reply.now → vec_len out.old + 66 ≤ vec_capacity out.old → IsOk result }
{
    let Some(len) = encoded_len(reply) else {
        return Err(AllocError);
    };
    out.reserve(len)?;
    append(reply, out);
    Ok(())
}

/// Appends the bytes of a reply where there is room for them, and says whether there was. It takes
/// no memory.
#[inline]
pub fn encode_within(reply: &Reply, out: &mut Vec<u8>) -> bool
    ensures fits { IsTrue result ↔ (vec_len out.old + length (encoding reply.now)
        ≤ vec_capacity out.old) }
    ensures done { IsTrue result → out.new.items ≡ out.old.items ++ encoding reply.now }
    ensures full { IsTrue (not result) → out.new.items ≡ out.old.items }
    ensures room { IsTrue (not result) → vec_capacity out.new ≡ vec_capacity out.old }
    ensures capacity { vec_capacity out.old ≤ vec_capacity out.new }
{
    let room = out.capacity() - out.len();
    if surely_fits(reply, room) {
        append(reply, out);
        return true;
    }
    match encoded_len(reply) {
        Some(len) if len <= room => {
            append(reply, out);
            true
        }
        _ => false,
    }
}

/// Appends the bytes of a reply of one line, where there is room, as [`encode_within`] does.
#[inline]
#[tactic(auto, unfolding(words::specs::Encoding::encoding, words::specs::Encoding::command_reply_encoding, words::specs::Encoding::item_encoding))]
pub fn encode_line_within(line: Line, out: &mut Vec<u8>) -> bool
    ensures fits { IsTrue result ↔ (vec_len out.old + length (encoding (line_reply line))
        ≤ vec_capacity out.old) }
    ensures done { IsTrue result → out.new.items ≡ out.old.items ++ encoding (line_reply line) }
    ensures full { IsTrue (not result) → out.new.items ≡ out.old.items }
    ensures room { IsTrue (not result) → vec_capacity out.new ≡ vec_capacity out.old }
    ensures capacity { vec_capacity out.old ≤ vec_capacity out.new }
{
    let text = line.text();
    if text.len() + 2 > out.capacity() - out.len() {
        return false;
    }
    // There is room, so it cannot fail.
    let _ = put_line(text, out);
    true
}

/// Appends the bytes of a bulk string, or of the null bulk string, where there is room, as [`encode_within`] does.
#[inline]
pub fn encode_value_within(value: &Option<Word>, out: &mut Vec<u8>) -> bool
    ensures fits { IsTrue result ↔ (vec_len out.old + length (encoding (value_reply value.now))
        ≤ vec_capacity out.old) }
    ensures done { IsTrue result → out.new.items ≡ out.old.items ++ encoding (value_reply value.now) }
    ensures full { IsTrue (not result) → out.new.items ≡ out.old.items }
    ensures room { IsTrue (not result) → vec_capacity out.new ≡ vec_capacity out.old }
    ensures capacity { vec_capacity out.old ≤ vec_capacity out.new }
{
    let mut length = Length { bytes: 0 };
    match put_value(value, &mut length) {
        Ok(()) if length.bytes <= out.capacity() - out.len() => {
            // There is room, so it cannot fail.
            let _ = put_value(value, out);
            true
        }
        Ok(()) | Err(_) => false,
    }
}

/// Appends the bytes of an array of these values, where there is room, as [`encode_within`] does.
#[inline]
pub fn encode_values_within(values: &Bulks, out: &mut Vec<u8>) -> bool
    ensures fits { IsTrue result ↔ (vec_len out.old + length (encoding (values_reply values.now))
        ≤ vec_capacity out.old) }
    ensures done { IsTrue result → out.new.items ≡ out.old.items ++ encoding (values_reply values.now) }
    ensures full { IsTrue (not result) → out.new.items ≡ out.old.items }
    ensures room { IsTrue (not result) → vec_capacity out.new ≡ vec_capacity out.old }
    ensures capacity { vec_capacity out.old ≤ vec_capacity out.new }
{
    let room = out.capacity() - out.len();
    let mut length = Length { bytes: 0 };
    match put_values(values, &mut length) {
        Ok(()) if length.bytes <= room => {
            // There is room, so it cannot fail.
            let _ = put_values(values, out);
            true
        }
        Ok(()) | Err(_) => false,
    }
}

/// Writes the bytes of a reply, without taking memory. After an `Err` a beginning of them is written.
pub fn send<W: Write>(reply: &Reply, writer: &mut Noted<W>) -> Result<(), WriteFault>
    ensures sent { IsSent (W.contents (stream_of writer.old)) (W.contents (stream_of writer.new))
        result (encoding reply.now) }
    ensures told { told_of writer.new ≡ told_when (is_ok result) (told_of writer.old) }
{
    match put_reply(reply, writer) {
        Ok(()) => Ok(()),
        Err(_) => Err(WriteFault),
    }
}

/// Writes the bytes of an array of these values, without taking memory. After an `Err` a beginning of
/// them is written.
pub fn send_values<W: Write>(values: &Bulks, writer: &mut Noted<W>) -> Result<(), WriteFault>
    ensures sent { IsSent (W.contents (stream_of writer.old)) (W.contents (stream_of writer.new))
        result (encoding (values_reply values.now)) }
    ensures told { told_of writer.new ≡ told_when (is_ok result) (told_of writer.old) }
{
    let Ok(()) = put_values(values, writer) else {
        return Err(WriteFault);
    };
    Ok(())
}

/// How many bytes a reply takes, or `None` where they are 2^64 or more.
#[inline]
fn encoded_len(reply: &Reply) -> Option<usize>
    ensures some { IfSome result (λ len. len ≡ length (encoding reply.now)) }
    ensures none { IfNone result (2 ^ 64 ≤ length (encoding reply.now)) }
{
    let mut length = Length { bytes: 0 };
    match put_reply(reply, &mut length) {
        Ok(()) => Some(length.bytes),
        Err(_) => None,
    }
}

/// Appends the bytes of a reply, for which there is room.
#[inline]
fn append(reply: &Reply, out: &mut Vec<u8>)
    requires { vec_len out.old + length (encoding reply.now) ≤ vec_capacity out.old }
    ensures items { out.new.items ≡ out.old.items ++ encoding reply.now }
    ensures capacity { vec_capacity out.old ≤ vec_capacity out.new }
{
    // There is room, so it cannot fail.
    let _ = put_reply(reply, out);
}

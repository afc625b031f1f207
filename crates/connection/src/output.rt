//! What is written for a client: replies are put into an output buffer, and sent with one write where they
//! fit.

ghost use Rattle.std.specs.Prelude.{◌≡◌, ◌≤◌, [], OnOk, is_ok, vec_len, vec_capacity};
ghost use Rattle.words.specs.Encoding.{encoding};
ghost use Rattle.words.specs.Session.{line_reply, value_reply, values_reply};
ghost use Rattle.streams.specs.Streams.{IsSent, IsPut, stream_of, told_of, told_when};

use engine::Spoken;
use resp_write::{
    encode_line_within, encode_value_within, encode_values_within, encode_within, send, send_values,
};
use std::io::Write;
use streams::{Noted, WriteFault};
use words::bulks::Bulks;
use words::reply::{Line, Reply};
use words::word::Word;

/// Writes what the output buffer holds, and empties it.
pub(crate) fn flush<W: Write>(out: &mut Vec<u8>, writer: &mut Noted<W>) -> Result<(), WriteFault>
    ensures sent { IsSent (W.contents (stream_of writer.old)) (W.contents (stream_of writer.new))
        result out.old.items }
    ensures told { told_of writer.new ≡ told_when (is_ok result) (told_of writer.old) }
    ensures empty { OnOk result (out.new.items ≡ []) }
    ensures room { vec_capacity out.new ≡ vec_capacity out.old }
{
    if let Err(fault) = writer.write_all(out.as_slice()) {
        return Err(fault);
    }
    if let Err(fault) = writer.flush() {
        return Err(fault);
    }
    out.clear();
    Ok(())
}

/// The most bytes that the output buffer holds behind a reply that the engine put into it, to a GET, an MGET or a transaction of GETs. Behind a reply that is
/// said it may be full.
pub(crate) const HELD_BYTES: usize = 65_536;

/// Writes what the output buffer holds, if that is more than [`HELD_BYTES`]. A buffer that was granted its whole room then has room
/// for the longest reply to a GET.
#[inline]
fn make_room<W: Write>(out: &mut Vec<u8>, writer: &mut Noted<W>) -> Result<(), WriteFault>
    ensures put { IsPut (W.contents (stream_of writer.old)) (W.contents (stream_of writer.new))
        out.old.items out.new.items result [] }
    ensures told { told_of writer.new ≡ told_when (is_ok result) (told_of writer.old) }
    ensures within { vec_len out.new ≤ vec_capacity out.old }
{
    if out.len() <= HELD_BYTES {
        return Ok(());
    }
    flush(out, writer)
}

/// Makes room behind a reply that the output buffer has already, as [`make_room`] does, and lets go what was said.
#[inline]
pub(crate) fn go_on_behind<W: Write>(
    said: Spoken,
    out: &mut Vec<u8>,
    writer: &mut Noted<W>,
) -> Result<(), WriteFault>
    ensures put { IsPut (W.contents (stream_of writer.old)) (W.contents (stream_of writer.new))
        out.old.items out.new.items result [] }
    ensures told { told_of writer.new ≡ told_when (is_ok result) (told_of writer.old) }
    ensures within { vec_len out.new ≤ vec_capacity out.old }
{
    drop(said);
    make_room(out, writer)
}

/// Says a reply: it goes into the output buffer where there is room, else to the writer, after what
/// the buffer holds. It takes no memory: what the buffer holds then fits into the room that it had.
pub(crate) fn say<W: Write>(
    reply: &Reply,
    out: &mut Vec<u8>,
    writer: &mut Noted<W>,
) -> Result<(), WriteFault>
    ensures put { IsPut (W.contents (stream_of writer.old)) (W.contents (stream_of writer.new))
        out.old.items out.new.items result (encoding reply.now) }
    ensures told { told_of writer.new ≡ told_when (is_ok result) (told_of writer.old) }
    ensures within { vec_len out.new ≤ vec_capacity out.old }
{
    if encode_within(reply, out) {
        return Ok(());
    }
    if let Err(fault) = flush(out, writer) {
        return Err(fault);
    }
    if encode_within(reply, out) {
        return Ok(());
    }
    send(reply, writer)
}

/// Says a reply, as [`say`] does, and lets it go.
#[inline]
pub(crate) fn say_spent<W: Write>(
    reply: Reply,
    out: &mut Vec<u8>,
    writer: &mut Noted<W>,
) -> Result<(), WriteFault>
    ensures put { IsPut (W.contents (stream_of writer.old)) (W.contents (stream_of writer.new))
        out.old.items out.new.items result (encoding reply) }
    ensures told { told_of writer.new ≡ told_when (is_ok result) (told_of writer.old) }
    ensures within { vec_len out.new ≤ vec_capacity out.old }
{
    let said = say(&reply, out, writer);
    drop(reply);
    said
}

/// Says a line, as a reply is said.
#[inline]
pub(crate) fn say_line<W: Write>(
    line: Line,
    out: &mut Vec<u8>,
    writer: &mut Noted<W>,
) -> Result<(), WriteFault>
    ensures put { IsPut (W.contents (stream_of writer.old)) (W.contents (stream_of writer.new))
        out.old.items out.new.items result (encoding (line_reply line)) }
    ensures told { told_of writer.new ≡ told_when (is_ok result) (told_of writer.old) }
    ensures within { vec_len out.new ≤ vec_capacity out.old }
{
    if encode_line_within(line, out) {
        return Ok(());
    }
    say_spent(Reply::line(line), out, writer)
}

/// Says what a GET found, as a reply is said, and lets it go.
#[inline]
pub(crate) fn say_value<W: Write>(
    value: Option<Word>,
    out: &mut Vec<u8>,
    writer: &mut Noted<W>,
) -> Result<(), WriteFault>
    ensures put { IsPut (W.contents (stream_of writer.old)) (W.contents (stream_of writer.new))
        out.old.items out.new.items result (encoding (value_reply value)) }
    ensures told { told_of writer.new ≡ told_when (is_ok result) (told_of writer.old) }
    ensures within { vec_len out.new ≤ vec_capacity out.old }
{
    if encode_value_within(&value, out) {
        drop(value);
        return Ok(());
    }
    say_spent(Reply::value(value), out, writer)
}

/// Says what an MGET found, as a reply is said, and lets it go.
#[inline]
pub(crate) fn say_values<W: Write>(
    values: Bulks,
    out: &mut Vec<u8>,
    writer: &mut Noted<W>,
) -> Result<(), WriteFault>
    ensures put { IsPut (W.contents (stream_of writer.old)) (W.contents (stream_of writer.new))
        out.old.items out.new.items result (encoding (values_reply values)) }
    ensures told { told_of writer.new ≡ told_when (is_ok result) (told_of writer.old) }
    ensures within { vec_len out.new ≤ vec_capacity out.old }
{
    let said = say_all(&values, out, writer);
    drop(values);
    said
}

/// Says what an MGET found, as [`say`] does.
fn say_all<W: Write>(
    values: &Bulks,
    out: &mut Vec<u8>,
    writer: &mut Noted<W>,
) -> Result<(), WriteFault>
    ensures put { IsPut (W.contents (stream_of writer.old)) (W.contents (stream_of writer.new))
        out.old.items out.new.items result (encoding (values_reply values.now)) }
    ensures told { told_of writer.new ≡ told_when (is_ok result) (told_of writer.old) }
    ensures within { vec_len out.new ≤ vec_capacity out.old }
{
    if encode_values_within(values, out) {
        return Ok(());
    }
    if let Err(fault) = flush(out, writer) {
        return Err(fault);
    }
    if encode_values_within(values, out) {
        return Ok(());
    }
    send_values(values, writer)
}

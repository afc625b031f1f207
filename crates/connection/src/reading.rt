//! What is read of a client: pieces that are cut from blocks, and fed to it.

ghost use Rattle.std.specs.Prelude.{◌≡◌, ◌<◌, ◌≤◌, ◌+◌, ℕ, [], ◌∷◌, ◌++◌, List, length, OnOk, OnErr, IsOk, IfNone, IsTrue, Some};
ghost use Rattle.streams.specs.Streams.{stream_of, told_of, reads_of};
ghost use Rattle.connection.specs.Served.{IsAnswered, HasTaken, HasWaited, LeavesRoom, WaitsForInput, taken_told, waited_count};
ghost use Rattle.std.specs.Io.KnownBytes.{Consumes, IsAtEnd};

use crate::client::Client;
use crate::serving::{Ended, Talk};
use bytes::BytesMut;
use std::alloc::Global;
use std::io::Read;
use std::marker::Model;
use std::mem;
use streams::{Input, Noted, ReadReady};
use words::word::OutOfMemory;

/// The most bytes that are read at a time.
const PIECE_BYTES: usize = 16_384;
/// The bytes of a block that pieces are cut from.
const BLOCK_BYTES: usize = 32_768;
/// The most bytes that are read at a time where there is no memory for a block.
const FEW_BYTES: usize = 256;
/// The most pieces that are read after one before the replies are written.
pub(crate) const MORE_PIECES: u8 = 15;

/// What is read into: the block that pieces are cut from, and the one before it. Contracts see the first, and how
/// many pieces may be read.
#[derive(Drop)]
pub(crate) struct Room {
    block: BytesMut,
    /// Nothing is in it. It is used again when the other is used up, if none of its pieces is kept by then.
    other: BytesMut,
    /// How many pieces may be read before the replies are written: none, where the last read did not fill what
    /// it was given, so that hardly more is there already.
    more: u8,
}

impl Model for Room {
    ghost use Rattle.std.specs.Prelude.{◌≡◌, []};
    ghost use Rattle.connection.specs.Rooms.{Reading};

    ghost Value = { Reading };

    ghost view = { λ room. record { items = room.block.items; spare = room.block.spare; more = room.more } };

    ghost invariant = { λ room. room.other.items ≡ [] };
}

impl Room {
    /// No block. It takes no memory.
    pub(crate) fn new(alloc: Global) -> Room
        ensures { result.items ≡ [] }
    {
        Room {
            block: BytesMut::new(alloc),
            other: BytesMut::new(alloc),
            more: 0,
        }
    }

    /// Makes room for a piece, and says whether there is. The next piece is cut from what is left of a block, as
    /// long as that is enough, so small pieces share a block. Else the block is used again from its start, if its
    /// pieces are all let go. Else the other block takes its place.
    fn make_room(&mut self) -> bool
        requires { self.old.items ≡ [] }
        ensures room { IsTrue result → PIECE_BYTES ≤ self.new.spare }
        ensures block { PIECE_BYTES ≤ self.old.spare → IsTrue result }
        ensures items { self.new.items ≡ [] }
        ensures more { self.new.more ≡ self.old.more }
    {
        if has_room(&mut self.block) {
            return true;
        }
        mem::swap(&mut self.block, &mut self.other);
        has_room(&mut self.block) || self.block.reserve(BLOCK_BYTES).is_ok()
    }
}

/// What came of asking for a piece that is there already.
#[derive(Clone, Copy)]
pub(crate) enum Waiting {
    /// The client was fed a piece.
    Fed,
    /// Nothing was read: nothing is there, or it cannot be told.
    Nothing,
    /// There was no memory to feed the piece that was read.
    NoMemory,
}

/// Reads a piece of at most [`PIECE_BYTES`] bytes, and feeds it to the client. It waits where the client sends
/// nothing: by then every reply is written, and the words of the last request are let go. `None` where the
/// connection goes on.
pub(crate) fn take_piece<R: Read>(reader: &mut Noted<R>, talk: &mut Talk) -> Option<Ended>
    requires answered { IsAnswered talk.old.client talk.old.out.items }
    requires let_go { talk.old.words ≡ [] ∷ [] }
    requires room { talk.old.room.items ≡ [] }
    ensures taken { (bytes : List ℕ) × (length bytes ≤ 16384)
        × Consumes (R.remaining (stream_of reader.old)) (R.remaining (stream_of reader.new)) bytes
        × HasTaken result talk.old.client bytes talk.new.client }
    ensures end { result ≡ Some Ended.EndOfInput → IsAtEnd (R.remaining (stream_of reader.new)) }
    ensures told { told_of reader.new ≡ taken_told result (told_of reader.old) }
    ensures fewer { IfNone result (reads_of reader.new < reads_of reader.old) }
    ensures empty { IfNone result (talk.new.room.items ≡ []) }
    ensures few { IfNone result (talk.new.room.more ≤ MORE_PIECES) }
    ensures held { talk.new.out.items ≡ [] }
{
    if talk.room.make_room() {
        take_many(reader, &mut talk.room, &mut talk.client)
    } else {
        talk.room.more = 0;
        take_few(reader, &mut talk.room.block, &mut talk.client)
    }
}

/// Reads a piece of at most [`PIECE_BYTES`] bytes that is there already, and feeds it to the client, whose whole
/// requests are all answered by then. The reader is asked only where its last read filled what it was given, at
/// most [`MORE_PIECES`] times, and where there is room for a piece.
pub(crate) fn take_waiting<R: ReadReady>(
    reader: &mut Noted<R>,
    room: &mut Room,
    client: &mut Client,
) -> Waiting
    requires empty { room.old.items ≡ [] }
    requires waits { WaitsForInput client.old }
    ensures taken { (bytes : List ℕ) × (length bytes ≤ 16384)
        × Consumes (R.remaining (stream_of reader.old)) (R.remaining (stream_of reader.new)) bytes
        × HasWaited result client.old bytes client.new }
    ensures told { told_of reader.new ≡ told_of reader.old }
    ensures reads { reads_of reader.old ≡ reads_of reader.new + waited_count result }
    ensures more { room.new.more + waited_count result ≤ room.old.more }
    ensures empty { LeavesRoom result room.new.items }
{
    if room.more > 0 && room.make_room() {
        take_ready(reader, room, client)
    } else {
        Waiting::Nothing
    }
}

/// Whether a block has room for a piece: after the pieces that were cut from it, or from its start where these are
/// all let go.
fn has_room(block: &mut BytesMut) -> bool
    ensures room { IsTrue result → PIECE_BYTES ≤ block.new.spare }
    ensures block { PIECE_BYTES ≤ block.old.spare → IsTrue result }
    ensures items { block.new.items ≡ block.old.items }
{
    PIECE_BYTES <= block.capacity() - block.len() || block.try_reclaim(BLOCK_BYTES)
}

/// Feeds the client what was read into the room, as one piece that is cut from its block.
fn feed_read(room: &mut BytesMut, client: &mut Client) -> Result<(), OutOfMemory>
    ensures ok { OnOk result
        (client.new ≡ record client.old { unread = client.old.unread ++ room.old.items }) }
    ensures err { OnErr result (client.new ≡ client.old) }
    ensures empty { OnOk result (room.new.items ≡ []) }
{
    let piece = room.freeze_to(room.len())?;
    client.feed(piece)
}

/// Reads into a block with room for a piece.
fn take_many<R: Read>(reader: &mut Noted<R>, room: &mut Room, client: &mut Client) -> Option<Ended>
    requires spare { PIECE_BYTES ≤ room.old.spare }
    requires empty { room.old.items ≡ [] }
    ensures taken { (bytes : List ℕ) × (length bytes ≤ 16384)
        × Consumes (R.remaining (stream_of reader.old)) (R.remaining (stream_of reader.new)) bytes
        × HasTaken result client.old bytes client.new }
    ensures end { result ≡ Some Ended.EndOfInput → IsAtEnd (R.remaining (stream_of reader.new)) }
    ensures told { told_of reader.new ≡ taken_told result (told_of reader.old) }
    ensures fewer { IfNone result (reads_of reader.new < reads_of reader.old) }
    ensures empty { IfNone result (room.new.items ≡ []) }
    ensures few { IfNone result (room.new.more ≤ MORE_PIECES) }
{
    room.block.advance_mut(PIECE_BYTES);
    match reader.read(room.block.as_mut_slice()) {
        Input::Bytes(count) => {
            room.block.truncate(count);
            room.more = more_after(count, MORE_PIECES);
            match feed_read(&mut room.block, client) {
                Ok(()) => None,
                Err(_) => Some(Ended::NoMemory),
            }
        }
        Input::End => Some(Ended::EndOfInput),
        Input::Failure => Some(Ended::ReadFailed),
    }
}

/// How many pieces may be read after one of so many bytes: the most, where it has filled what it was read into, and
/// else none, since hardly more is there already.
fn more_after(count: usize, most: u8) -> u8
    ensures { result ≤ most }
{
    if count == PIECE_BYTES { most } else { 0 }
}

/// Reads a small piece where there is no memory for a block: what the client sends next may need little.
#[cold]
fn take_few<R: Read>(
    reader: &mut Noted<R>,
    room: &mut BytesMut,
    client: &mut Client,
) -> Option<Ended>
    requires { room.old.items ≡ [] }
    ensures taken { (bytes : List ℕ) × (length bytes ≤ 16384)
        × Consumes (R.remaining (stream_of reader.old)) (R.remaining (stream_of reader.new)) bytes
        × HasTaken result client.old bytes client.new }
    ensures end { result ≡ Some Ended.EndOfInput → IsAtEnd (R.remaining (stream_of reader.new)) }
    ensures told { told_of reader.new ≡ taken_told result (told_of reader.old) }
    ensures fewer { IfNone result (reads_of reader.new < reads_of reader.old) }
    ensures empty { IfNone result (room.new.items ≡ []) }
{
    let mut few = [0; FEW_BYTES];
    let count = match reader.read(&mut few) {
        Input::Bytes(count) => count,
        Input::End => return Some(Ended::EndOfInput),
        Input::Failure => return Some(Ended::ReadFailed),
    };
    if let Err(_) = room.extend_from_slice(&few[..count]) {
        return Some(Ended::NoMemory);
    }
    match feed_read(room, client) {
        Ok(()) => None,
        Err(_) => Some(Ended::NoMemory),
    }
}

/// Reads what is there already into a block with room for a piece.
fn take_ready<R: ReadReady>(reader: &mut Noted<R>, room: &mut Room, client: &mut Client) -> Waiting
    requires spare { PIECE_BYTES ≤ room.old.spare }
    requires empty { room.old.items ≡ [] }
    requires more { 0 < room.old.more }
    ensures taken { (bytes : List ℕ) × (length bytes ≤ 16384)
        × Consumes (R.remaining (stream_of reader.old)) (R.remaining (stream_of reader.new)) bytes
        × HasWaited result client.old bytes client.new }
    ensures told { told_of reader.new ≡ told_of reader.old }
    ensures reads { reads_of reader.old ≡ reads_of reader.new + waited_count result }
    ensures more { room.new.more + waited_count result ≤ room.old.more }
    ensures empty { LeavesRoom result room.new.items }
{
    room.block.advance_mut(PIECE_BYTES);
    let Some(count) = reader.read_ready(room.block.as_mut_slice()) else {
        room.block.clear();
        room.more = 0;
        return Waiting::Nothing;
    };
    room.block.truncate(count);
    room.more = more_after(count, room.more.saturating_sub(1));
    match feed_read(&mut room.block, client) {
        Ok(()) => Waiting::Fed,
        Err(_) => Waiting::NoMemory,
    }
}

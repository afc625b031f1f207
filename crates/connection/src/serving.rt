//! Serving one connection: what a reader gives is answered by the engine, and the replies go to a
//! writer.

ghost use Rattle.std.specs.Prelude.{◌≡◌, ◌≤◌, ℕ, [], ◌∷◌, List};
ghost use Rattle.streams.specs.Streams.{stream_of, told_of, HasFailed};
ghost use Rattle.engine.specs.Passes.{knows, Rests, stripe_count};
ghost use Rattle.engine.specs.Calls.{promises_of};
ghost use Rattle.connection.specs.Clients.{beginning};
ghost use Rattle.connection.specs.Served.{Attends, IsHeard, Served, reader_told, writer_told};
ghost use Rattle.std.specs.Io.KnownBytes.{Appends, Consumes, IsAtEnd};

use crate::answering::answer_piece;
use crate::asking::{Store, forget};
use crate::client::Client;
use crate::output::HELD_BYTES;
use crate::reading::{Room, take_piece};
use device::Device;
use engine::{Engine, Pass};
use gates::Latch;
use std::alloc::Global;
use std::io::Write;
use std::sync::Wait;
use streams::{Noted, ReadReady, Told};
use words::limits::VALUE_BYTES_MAX;
use words::word::Words;

/// The room that the output buffer has at least, in bytes: every line fits.
const LINE_ROOM: usize = 128;
/// The room that the output buffer has where memory serves, in bytes: for the [`HELD_BYTES`] that stay behind a reply that the engine
/// put into it, and for a value behind these with its first line, of at most 8 bytes, and its line end.
const OUTPUT_BYTES: usize = HELD_BYTES + VALUE_BYTES_MAX + 10;

/// How a connection ended.
#[derive(Clone, Copy, Debug, PartialEq, Eq)]
pub enum Ended {
    /// The input ended. All complete requests are answered.
    EndOfInput,
    /// The client asked to end it. All requests up to that one are answered.
    Quit,
    /// The input was no request. All requests before are answered, and the fault's line is the last.
    ProtocolFault,
    /// A read failed. All complete requests are answered.
    ReadFailed,
    /// A write failed, or took no byte, or one had failed before. No request that follows is put to the store.
    WriteFailed,
    /// A buffer, the reader or a request's words found no memory. What was answered before is
    /// written.
    NoMemory,
}

impl Ended {
    ghost use Rattle.connection.specs.Served.{number_of};

    /// The number by which an ending is listed, 1 to 6.
    pub fn number(self) -> u8
        ensures { result ≡ number_of self }
    {
        match self {
            Ended::EndOfInput => 1,
            Ended::Quit => 2,
            Ended::ProtocolFault => 3,
            Ended::ReadFailed => 4,
            Ended::WriteFailed => 5,
            Ended::NoMemory => 6,
        }
    }
}

/// What a connection keeps from piece to piece.
pub(crate) struct Talk {
    pub(crate) client: Client,
    /// The words of the request that was taken up last.
    pub(crate) words: Words,
    /// What is read into.
    pub(crate) room: Room,
    /// The replies that are not written yet.
    pub(crate) out: Vec<u8>,
}

impl Talk {
    /// A connection that was fed nothing, with this output buffer. It takes no memory.
    pub(crate) fn new(alloc: Global, out: Vec<u8>) -> Talk
        ensures begins { result.client ≡ beginning }
        ensures words { result.words ≡ [] ∷ [] }
        ensures room { result.room.items ≡ [] }
        ensures out { result.out ≡ out }
    {
        let client = Client::new(alloc);
        Talk {
            words: client.no_words(),
            client,
            room: Room::new(alloc),
            out,
        }
    }

    /// The client. All else is let go.
    pub(crate) fn into_client(self) -> Client
        ensures { result ≡ self.client }
    {
        let Talk {
            client,
            words: _words,
            room: _room,
            out: _out,
        } = self;
        client
    }
}

/// Reads, answers and writes, until the connection ends.
fn converse<T: Wait, L: Latch, R: ReadReady, W: Write, D: Device>(
    store: &Store<T, L, D>,
    talk: &mut Talk,
    reader: &mut Noted<R>,
    writer: &mut Noted<W>,
    pass: &mut Pass<D>,
) -> Ended
    requires rests { Rests D.Receipt.is_steady store.now.engine.now pass.old }
    requires watches { (knows D.failures pass.old).watched ≡ [] }
    requires begins { talk.old.client ≡ beginning }
    requires words { talk.old.words ≡ [] ∷ [] }
    requires room { talk.old.room.items ≡ [] }
    requires empty { talk.old.out.items ≡ [] }
    requires heard { IsHeard (told_of writer.old) }
    ensures served { (bytes text : List ℕ)
        × Consumes (R.remaining (stream_of reader.old)) (R.remaining (stream_of reader.new)) bytes
        × Appends (W.contents (stream_of writer.old)) (W.contents (stream_of writer.new)) text
        × Served (promises_of D.Receipt.is_steady D.Receipt.lends (stripe_count store.now.engine.now)) (knows D.failures pass.old) (knows D.failures pass.new) result bytes text }
    ensures end { result ≡ Ended.EndOfInput → IsAtEnd (R.remaining (stream_of reader.new)) }
    ensures reader_told { told_of reader.new ≡ reader_told result (told_of reader.old) }
    ensures writer_told { told_of writer.new ≡ writer_told result (told_of writer.old) }
    ensures rests { Rests D.Receipt.is_steady store.now.engine.now pass.new }
    ensures attends { Attends (knows D.failures pass.new) talk.new.client }
{
    loop {
        if let Some(ended) = take_piece(reader, talk) {
            return ended;
        }
        if let Some(ended) = answer_piece(store, talk, reader, writer, pass) {
            return ended;
        }
        talk.client.let_go(&mut talk.words);
    }
}

/// Serves one connection: reads requests, answers them by the engine, and writes the replies, until
/// the connection ends. It gives the pass back, which watches nothing, and says how the connection ended.
/// It may wait for calls of other passes.
///
/// A request that the store did not do is answered by the line of a fault that had its cause:
///
/// - `-OOM out of memory`: it may want memory.
/// - `-IOERR device fault`: a call of the pass's opening of the device failed in that very request. No call fails
///   without this line.
/// - `-FULL store is full`: the pass was told that a stripe has no place left on the device, and the request
///   writes that stripe.
/// - `-WORN commit numbers are used up`: the pass read the commit word at 2^62 or more.
///
/// It reads pieces of at most 16,384 bytes. Where a piece has that many, and all of its complete requests are
/// answered, the reader is asked for what is there already, and that is answered too, up to 15 pieces. The
/// replies of all complete requests are written before the next read that waits, in one write where they fit
/// into 65,536 bytes, the output buffer was granted its room, and the writer takes them. Once a write has failed,
/// none of the requests that follow is put to the store. No memory is asked for from when a call has changed the
/// store until its reply is said: a reply that does not fit into the output buffer is written after what the
/// buffer holds, piece by piece. However the connection ends, what its session watched is forgotten.
///
/// # Memory
///
/// Pieces are cut from two blocks of 32,768 bytes in turn, each taken when it is first needed. The other one's
/// turn comes where a block has room for less than a piece and some of its pieces are kept; a new one takes its
/// place only where some of its pieces are kept too. A piece is read only once no whole request is left of those
/// before it. Where no request waits none is kept. Of a waiting request the whole words are copied, 131,072
/// bytes at most, and what is left in the pieces is a part of one word: 32,777 bytes at most, so it stands in
/// at most four blocks. Each piece costs 40 bytes in the reader's list beside its own, so a client that sends
/// one byte a piece costs 41 bytes a byte, or 81 just after the list has doubled. Only where memory was
/// refused for a word do whole words stay in the pieces: then the request's 132,358 bytes stand in at most ten
/// blocks. The words of a request, 131,072 bytes at most, stay until the reply is written. The output buffer has
/// 98,314 bytes, or 128 where more are refused. A transaction keeps at most 128 commands with 131,072 bytes of
/// words, and a session at most 128 watched keys.
pub fn serve<T: Wait, L: Latch, R: ReadReady, W: Write, D: Device>(
    rt: &T,
    alloc: Global,
    reader: &mut Noted<R>,
    writer: &mut Noted<W>,
    engine: &Engine<D>,
    mut pass: Pass<D>,
    latch: &L,
) -> (Pass<D>, Ended)
    requires rests { Rests D.Receipt.is_steady engine.now pass }
    requires watches { (knows D.failures pass).watched ≡ [] }

    // Some bytes were read and some text was written, as this ending says, along the history that the pass
    // has seen.
    ensures served { (bytes text : List ℕ)
        × Consumes (R.remaining (stream_of reader.old)) (R.remaining (stream_of reader.new)) bytes
        × Appends (W.contents (stream_of writer.old)) (W.contents (stream_of writer.new)) text
        × Served (promises_of D.Receipt.is_steady D.Receipt.lends (stripe_count engine.now)) (knows D.failures pass) (knows D.failures result.0) result.1 bytes text }

    // An ending comes only where its cause came, and such a cause brings that ending.
    ensures end { result.1 ≡ Ended.EndOfInput → IsAtEnd (R.remaining (stream_of reader.new)) }
    ensures reader_told { told_of reader.new ≡ reader_told result.1 (told_of reader.old) }
    ensures writer_told { told_of writer.new ≡ writer_told result.1 (told_of writer.old) }
    ensures reader_failed { result.1 ≡ Ended.ReadFailed → HasFailed reader.new }
    ensures writer_failed { result.1 ≡ Ended.WriteFailed → HasFailed writer.new }

    // A client whose writer had failed before is not served.
    ensures unheard { told_of writer.old ≡ Told.Failure → (result.1 ≡ Ended.WriteFailed) × (result.0 ≡ pass) }

    // The pass holds nothing, and where the device is steady what it has seen is legal.
    ensures rests { Rests D.Receipt.is_steady engine.now result.0 }
    ensures watches { (knows D.failures result.0).watched ≡ [] }
{
    if let Told::Failure = writer.told() {
        return (pass, Ended::WriteFailed);
    }
    let Ok(mut out) = Vec::with_capacity(alloc, LINE_ROOM) else {
        return (pass, Ended::NoMemory);
    };
    // More room where memory serves: it saves writes.
    let _ = out.reserve(OUTPUT_BYTES);
    let mut talk = Talk::new(alloc, out);
    let store = Store::new(rt, latch, engine);
    let ended = converse(&store, &mut talk, reader, writer, &mut pass);
    forget(&store, talk.into_client(), &mut pass);
    (pass, ended)
}

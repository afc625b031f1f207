//! A worker, who serves one connection after the other.

ghost use Rattle.std.specs.Io.KnownBytes.{Appends, Consumes, IsAtEnd};
ghost use Rattle.std.specs.Prelude.{◌≡◌, ◌↔◌, ℕ, List, [], IsSome, IsTrue};
ghost use Rattle.streams.specs.Streams.{HasFailed, stream_of, told_of};
ghost use Rattle.engine.specs.Passes.{knows, Rests, stripe_count};
ghost use Rattle.engine.specs.Calls.{promises_of};
ghost use Rattle.connection.specs.Served.{Served, reader_told, writer_told};
ghost use Rattle.server.specs.Closing.{has_client_by};

use crate::ending_list::Endings;
use connection::{Ended, serve};
use crossbeam_channel::{Receiver, Sender};
use device::Device;
use engine::{Engine, Pass};
use gates::Latch;
use sockets::{
    Accepted, ClosedLater, Leaving, Serving, Socket, SocketReader, SocketWriter, close_later,
};
use std::io::Write;
use std::net::TcpStream;
use std::rt::Clock;
use std::sync::Wait;
use streams::{Noted, ReadReady};

/// What all workers share.
#[derive(Drop)]
pub(crate) struct Shared<'a, L: Latch, D: Device> {
    /// What is told where each call is.
    pub(crate) latch: &'a L,
    pub(crate) endings: &'a Endings,
    pub(crate) engine: &'a Engine<D>,
    pub(crate) serving: &'a Serving,
    /// By what connections are handed over, each of which is counted.
    pub(crate) handed: Receiver<Accepted<'a>>,
}

/// Serves connections as they are handed over, one after the other, until nobody can hand over another.
/// The pass is kept from one to the next. Each is counted from before it was handed over until it has been served, since no other
/// has a socket ([`Accepted`]).
pub(crate) fn work<R: AllocGlobal + Clock + Wait, L: Latch, D: Device>(
    rt: &R,
    shared: &Shared<L, D>,
    pass: Pass<D>,
    closer: &Sender<Leaving>,
) -> Pass<D>
    requires rests { Rests D.Receipt.is_steady shared.now.engine.now pass }
    requires watches { (knows D.failures pass).watched ≡ [] }
    ensures rests { Rests D.Receipt.is_steady shared.now.engine.now result }
    ensures watches { (knows D.failures result).watched ≡ [] }
{
    let mut pass = pass;
    for _ in rt.forever() {
        let Ok(connection) = shared.handed.recv(rt) else {
            return pass;
        };
        let socket = Socket::new(&connection);
        let mut reader = Noted::new(SocketReader::new(rt, &socket, shared.serving));
        let mut writer = Noted::new(SocketWriter::new(&socket));
        let (back, ended) = serve_stream(rt, shared, &mut reader, &mut writer, pass);
        pass = back;
        // Without memory for it, the ending is not listed.
        let _ = shared.endings.push(rt, ended);
        let _ = close(rt, connection.end(), ended, closer);
    }
    unreachable!()
}

/// Serves one connection until it ends, by its reader and its writer.
fn serve_stream<R: AllocGlobal + Wait, L: Latch, D: Device, I: ReadReady, O: Write>(
    rt: &R,
    shared: &Shared<L, D>,
    reader: &mut Noted<I>,
    writer: &mut Noted<O>,
    pass: Pass<D>,
) -> (Pass<D>, Ended)
    requires rests { Rests D.Receipt.is_steady shared.now.engine.now pass }
    requires watches { (knows D.failures pass).watched ≡ [] }
    ensures served { (bytes text : List ℕ)
        × Consumes (I.remaining (stream_of reader.old)) (I.remaining (stream_of reader.new)) bytes
        × Appends (O.contents (stream_of writer.old)) (O.contents (stream_of writer.new)) text
        × Served (promises_of D.Receipt.is_steady D.Receipt.lends (stripe_count shared.now.engine.now))
        (knows D.failures pass) (knows D.failures result.0) result.1 bytes text }
    ensures end { result.1 ≡ Ended.EndOfInput → IsAtEnd (I.remaining (stream_of reader.new)) }
    ensures reader_told { told_of reader.new ≡ reader_told result.1 (told_of reader.old) }
    ensures writer_told { told_of writer.new ≡ writer_told result.1 (told_of writer.old) }
    ensures reader_failed { result.1 ≡ Ended.ReadFailed → HasFailed reader.new }
    ensures writer_failed { result.1 ≡ Ended.WriteFailed → HasFailed writer.new }
    ensures rests { Rests D.Receipt.is_steady shared.now.engine.now result.0 }
    ensures watches { (knows D.failures result.0).watched ≡ [] }
{
    serve(
        rt,
        rt.alloc(),
        reader,
        writer,
        shared.engine,
        pass,
        shared.latch,
    )
}

/// Closes a connection that ended so: at once where its client has gone, and else once the client has had
/// time to read the last reply.
fn close<R: Clock + Wait>(
    rt: &R,
    stream: TcpStream,
    ended: Ended,
    closer: &Sender<Leaving>,
) -> Option<ClosedLater>
    ensures { IsSome result ↔ IsTrue (has_client_by ended) }
{
    if has_client(ended) {
        Some(close_later(rt, stream, closer))
    } else {
        None
    }
}

/// Whether the client of a connection that ended so may be there yet, with its last reply to read.
fn has_client(ended: Ended) -> bool
    ensures { result ≡ has_client_by ended }
{
    match ended {
        Ended::Quit | Ended::ProtocolFault | Ended::NoMemory => true,
        Ended::EndOfInput | Ended::ReadFailed | Ended::WriteFailed => false,
    }
}

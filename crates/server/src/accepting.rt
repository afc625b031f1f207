//! Listening, and handing each connection to a worker.

ghost use Rattle.std.specs.Duration.{as_nanos};
ghost use Rattle.std.specs.Net.Addr.{ipv4_octets};
ghost use Rattle.std.specs.Net.Socket.{v4_ip, v4_port};
ghost use Rattle.std.specs.Prelude.{◌≡◌, ◌≤◌, ◌<◌, ◌+◌, ◌-◌, ◌*◌, ◌^◌, ◌↔◌, ◌∷◌, [], true, false, IfErr, IfOk, IsErr, IsTrue};
ghost use Rattle.server.specs.Accepting.{IsFailure, came_once, turned_away_line};
ghost use Rattle.server.specs.Crew.{IsManned};

use crate::crew::Crew;
use crate::fault::ServerFault;
use crate::working::Shared;
use crossbeam_channel::Sender;
use device::Device;
use gates::Latch;
use options::Options;
use sockets::{Accepted, Leaving, close_later};
use std::io;
use std::io::{ErrorKind, Write};
use std::net::{Ipv4Addr, Net, SocketAddrV4, TcpListener, TcpStream};
use std::rt::Clock;
use std::sync::Wait;
use std::time::Duration;

/// How many milliseconds a connection waits for a worker to come free, before it is turned away.
const PATIENCE_MILLISECONDS: u64 = 100;
/// Listens on the port of the options, at 127.0.0.1. The line that asks the system for it is left to trust.
///
/// # Errors
///
/// [`ServerFault::CannotListen`].
pub fn listen<R: Net>(net: &R, options: &Options) -> Result<R::Listener, ServerFault>
    ensures { IfErr result (λ fault. fault ≡ ServerFault.CannotListen) }
{
    TcpListener::bind(net, address_of(options)).map_err(|_| ServerFault::CannotListen)
}

/// Where a server with these options listens.
fn address_of(options: &Options) -> SocketAddrV4
    ensures ip { ipv4_octets (v4_ip result) ≡ 127 ∷ 0 ∷ 0 ∷ 1 ∷ [] }
    ensures port { v4_port result ≡ options.now.port }
{
    SocketAddrV4::new(Ipv4Addr::LOCALHOST, options.port)
}

/// Where connections come in, how many came, and whether it ever failed to give one.
#[derive(Drop)]
pub(crate) struct Door<'a> {
    listener: &'a TcpListener,
    came: u32,
    failed: bool,
}

impl<'a> Door<'a> {
    /// The connections that come to this listener.
    pub(crate) fn new(listener: &'a TcpListener) -> Door<'a>
        ensures came { result.came ≡ 0 }
        ensures failed { result.failed ≡ false }
    {
        Door {
            listener,
            came: 0,
            failed: false,
        }
    }

    /// Asks the system for the next connection, in one line, counts it, and notes where it fails. That line is what is left to
    /// trust.
    fn next(&mut self) -> io::Result<TcpStream>
        requires { self.old.came < 2 ^ 32 - 1 }
        ensures came { self.new.came ≡ self.old.came + came_once result }
        ensures failed { self.old.failed ≡ false → (IsTrue self.new.failed ↔ IsFailure result) }
        ensures kept { self.old.failed ≡ true → self.new.failed ≡ true }
    {
        let came = self.listener.accept().map(|(stream, _)| stream);
        self.failed = self.failed || has_failed(&came);
        if came.is_ok() {
            self.came += 1;
        }
        came
    }
}

/// Whether this is why no connection comes any more. It is not where one came that its client gave up before it was accepted.
fn has_failed(came: &io::Result<TcpStream>) -> bool
    ensures { IsTrue result ↔ IsFailure came.now }
{
    match came {
        Ok(_) => false,
        Err(error) => error.kind() != ErrorKind::ConnectionAborted,
    }
}

/// Accepts as many connections as the options say and no more, and hands each to a worker that is free or comes free soon. One
/// for which there is none is turned away. Once it returns nothing can be handed over. It goes on until one cannot be accepted.
///
/// No connection is accepted before all threads have been started that the options ask for (`IsManned`).
///
/// Each is counted before it is handed over, so that none is left out between here and its worker: nothing else can be handed over
/// ([`Accepted`]). One that is turned away is not counted any more.
pub(crate) fn accept_all<'a, R: Clock + Wait, L: Latch, D: Device>(
    rt: &R,
    door: &mut Door,
    options: &Options,
    shared: &Shared<'a, L, D>,
    crew: &Crew,
    workers: Sender<Accepted<'a>>,
    closer: Sender<Leaving>,
) -> Result<(), ServerFault>
    requires door { door.old.failed ≡ false }
    requires closed { door.old.came ≡ 0 }
    requires manned { IsManned options.now.workers D.Receipt.lends crew.now }
    ensures fault { IfErr result (λ fault. fault ≡ ServerFault.CannotAccept) }
    ensures failed { IsTrue door.new.failed ↔ IsErr result }
    ensures all { IfOk result (λ _. door.new.came ≡ options.now.accept) }
    ensures most { door.new.came ≤ options.now.accept }
{
    let _ = crew;
    while door.came < options.accept {
        let connection = Accepted::new(shared.serving, accept(rt, door)?);
        if let Err(refused) = workers.send_timeout(rt, connection, patience()) {
            turn_away(rt, refused.into_inner().end(), &closer);
        }
    }
    Ok(())
}

/// How long a connection waits for a worker to come free: 100 milliseconds.
fn patience() -> Duration
    ensures { as_nanos result ≡ 100 * 1_000_000 }
{
    Duration::from_millis(PATIENCE_MILLISECONDS)
}

/// The next connection. One that its client gave up before it was accepted is passed over, and no failure is.
fn accept(rt: &impl Wait, door: &mut Door) -> Result<TcpStream, ServerFault>
    requires door { door.old.failed ≡ false }
    requires room { door.old.came < 2 ^ 32 - 1 }
    ensures came { door.new.came ≡ door.old.came + came_once result }
    ensures fault { IfErr result (λ fault. fault ≡ ServerFault.CannotAccept) }
    ensures failed { IsTrue door.new.failed ↔ IsErr result }
{
    for _ in rt.forever() {
        let came = door.next();
        if has_failed(&came) {
            return Err(ServerFault::CannotAccept);
        }
        if let Ok(stream) = came {
            return Ok(stream);
        }
    }
    unreachable!()
}

/// Tells a client that there is no worker for it, and has its connection closed. It waits for no client, but
/// for the closer where that has not taken the 64 connections that were handed over last.
fn turn_away<R: Clock + Wait>(rt: &R, stream: TcpStream, closer: &Sender<Leaving>) {
    if tell(&stream).is_ok() {
        close_later(rt, stream, closer);
    }
}

/// Writes the line of a client that is turned away. A connection that nothing was written to has room for
/// it.
fn tell(mut stream: &TcpStream) -> io::Result<()> {
    stream.set_nonblocking(true)?;
    stream.write_all(turned_away())
}

/// What a client reads that is turned away.
fn turned_away() -> &'static [u8]
    ensures { result.now ≡ turned_away_line }
{
    b"-ERR max number of clients reached\r\n"
}

//! Options, listening and faults.

use crate::client::{PING, PONG, connect, is_at_end, memory, options_with, reads, sends};
use gates::Open;
use options::{ACCEPT_MAX, DeviceKind, Options};
use server::{Endings, ServerFault, listen, run_workers};
use std::alloc::Global;
use std::net::{Net, Shutdown, TcpListener, TcpStream};
use std::rt::Clock;
use std::sync::Wait;
use std::thread::{Threads, sleep};
use std::time::Duration;

/// A server's options with this port, for one connection.
fn options(port: u16) -> Option<Options> {
    options_with(port, 1, 16, 4)
}

/// A listener on a free port.
fn listen_anywhere<R>(rt: &R) -> Option<TcpListener>
where
    R: Net<Listener = TcpListener, Stream = TcpStream>,
{
    listen(rt, &options(0)?).ok()
}

/// Whether a listener has an address of this host alone.
fn is_on_loopback(listener: &TcpListener) -> bool {
    match listener.local_addr() {
        Ok(address) => address.ip().is_loopback(),
        Err(_) => false,
    }
}

/// Why nobody else can listen on the port of this listener.
fn fault_of_a_second(rt: &HostRuntime, first: &TcpListener) -> Option<ServerFault> {
    let port = first.local_addr().ok()?.port();
    listen(rt, &options(port)?).err()
}

#[test]
fn a_port_in_use_cannot_be_listened_on(rt: HostRuntime) {
    let listener = listen_anywhere(&rt).expect(&rt, "a listener");
    assert!(rt; is_on_loopback(&listener));
    assert!(rt; fault_of_a_second(&rt, &listener) == Some(ServerFault::CannotListen));
}

/// A listener that does not wait for connections.
fn listen_without_waiting<R>(rt: &R) -> Option<TcpListener>
where
    R: Net<Listener = TcpListener, Stream = TcpStream>,
{
    let listener = listen_anywhere(rt)?;
    if listener.set_nonblocking(true).is_err() {
        return None;
    }
    Some(listener)
}

/// Why a server stops whose listener gives no connection.
fn fault_without_connections<R>(rt: &R, endings: &Endings) -> Option<ServerFault>
where
    R: AllocGlobal
        + Clock
        + Net<Listener = TcpListener, Stream = TcpStream>
        + Threads
        + Wait
        + Sync,
{
    let options = options(0)?;
    let openings = memory(rt.alloc(), &options).ok()?;
    let listener = listen_without_waiting(rt)?;
    run_workers(rt, listener, &options, openings, &Open, endings).err()
}

/// The system refuses to wait for a connection.
#[test]
fn a_listener_that_gives_no_connection_stops_the_server(rt: HostRuntime) {
    let endings = Endings::new(rt.alloc()).expect(&rt, "memory for the endings");
    let fault = fault_without_connections(&rt, &endings);
    assert!(rt; fault == Some(ServerFault::CannotAccept) && endings.count() == 0);
    drop(endings);
}

/// A client that came to this listener, sent a PING and sends no more. The listener gives no other.
fn one_came<R>(rt: &R, listener: &TcpListener) -> Option<TcpStream>
where
    R: Clock + Net<Stream = TcpStream>,
{
    let client = connect(rt, listener.local_addr().ok()?.port())?;
    let sent = sends(&client, PING) && client.shutdown(Shutdown::Write).is_ok();
    sleep(rt, Duration::from_millis(100));
    if !sent || listener.set_nonblocking(true).is_err() {
        return None;
    }
    Some(client)
}

/// Whether a server that is to accept as many connections as any serves the one that came before it, and then stops since
/// there is no other.
fn serves_one_and_stops<R>(rt: &R, endings: &Endings) -> Option<bool>
where
    R: AllocGlobal
        + Clock
        + Net<Listener = TcpListener, Stream = TcpStream>
        + Threads
        + Wait
        + Sync,
{
    let options = options_with(0, ACCEPT_MAX, 16, 4)?;
    let openings = memory(rt.alloc(), &options).ok()?;
    let listener = listen(rt, &options).ok()?;
    let client = one_came(rt, &listener)?;
    let fault = run_workers(rt, listener, &options, openings, &Open, endings).err();
    Some(fault == Some(ServerFault::CannotAccept) && reads(&client, PONG) && is_at_end(&client))
}

/// A million connections are accepted one by one: a server of so many begins with the first.
#[test]
fn a_server_of_a_million_connections_begins_with_the_first(rt: HostRuntime) {
    let endings = Endings::new(rt.alloc()).expect(&rt, "memory for the endings");
    let well = serves_one_and_stops(&rt, &endings);
    assert!(rt; well == Some(true) && endings.count() == 1);
    drop(endings);
}

/// Each fault with its text.
const FAULTS: &[(ServerFault, &str)] = &[
    (ServerFault::CannotListen, "garnetd: cannot listen"),
    (ServerFault::CannotOpenDevice, "garnetd: cannot open device"),
    (ServerFault::CannotAccept, "garnetd: cannot accept"),
    (ServerFault::OutOfMemory, "garnetd: out of memory"),
];

/// Whether a fault is printed so.
fn is_printed(alloc: Global, fault: ServerFault, want: &str) -> bool {
    match format!(in alloc; "{fault}") {
        Ok(text) => text.as_str() == want,
        Err(_) => false,
    }
}

#[test]
fn each_fault_has_its_text(rt: HostRuntime) {
    for &(fault, want) in FAULTS {
        assert!(rt; is_printed(rt.alloc(), fault, want), "{want}");
    }
}

/// Numbers of connections, and whether there are options with them.
const ACCEPTED: &[(u32, bool)] = &[(0, false), (1, true), (1_000_000, true), (1_000_001, false)];

/// Numbers of stripes and of workers, and whether there are options with them.
const COUNTS: &[(usize, bool)] = &[(0, false), (1, true), (64, true), (65, false)];

/// Numbers of buckets, frames and places, and whether there are options with them.
const SIZES: &[(usize, usize, usize, bool)] = &[
    (1, 12, 64, true),
    (65_536, 256, 65_536, true),
    (0, 12, 64, false),
    (65_537, 12, 64, false),
    (1, 11, 64, false),
    (1, 257, 64, false),
    (1, 12, 63, false),
    (1, 12, 65_537, false),
];

/// Whether there are options with these numbers.
fn is_in_range(accept: u32, stripes: usize, workers: usize) -> bool {
    options_with(7, accept, stripes, workers).is_some()
}

/// Whether there are options with these sizes.
fn is_size(buckets: usize, frames: usize, places: usize) -> bool {
    Options::new(7, 1, 16, buckets, frames, places, 4, DeviceKind::Memory).is_some()
}

#[test]
fn options_are_in_range(rt: HostRuntime) {
    for &(accept, want) in ACCEPTED {
        assert!(rt; is_in_range(accept, 16, 4) == want, "{accept} connections");
    }
    for &(count, want) in COUNTS {
        let same = is_in_range(1, count, 4) == want && is_in_range(1, 16, count) == want;
        assert!(rt; same, "{count} stripes or workers");
    }
}

#[test]
fn sizes_are_in_range(rt: HostRuntime) {
    for &(buckets, frames, places, want) in SIZES {
        let same = is_size(buckets, frames, places) == want;
        assert!(rt;
            same,
            "{buckets} buckets, {frames} frames and {places} places"
        );
    }
}

//! The last bytes of a connection: what a client reads that sent more behind a QUIT, and how soon one is told that is turned away.

use crate::client::{
    OK, PING, PONG, QUIT, TURNED_AWAY, answers, connect, is_at_end, is_served, reads, sends,
    with_server,
};
use std::net::{Shutdown, TcpStream};
use std::time::{Duration, Instant};

/// Sends a PING and a QUIT, and far more than the sockets hold behind it, before it reads.
fn sends_on_behind_a_quit(client: &TcpStream) -> bool {
    if !sends(client, PING) || !sends(client, QUIT) {
        return false;
    }
    for _ in 0..100 {
        if !sends(client, &[b'x'; 8_192]) {
            return false;
        }
    }
    reads(client, PONG) && reads(client, OK) && is_at_end(client)
}

/// A new client does so, and goes; then another one is served.
fn one_quits_and_one_comes(rt: &HostRuntime, port: u16) -> Option<bool> {
    let client = connect(rt, port)?;
    let told = sends_on_behind_a_quit(&client) && client.shutdown(Shutdown::Both).is_ok();
    let told = is_served(rt, port)? && told;
    drop(client);
    Some(told)
}

/// What is said before the end of a connection is read, whatever stands behind its QUIT.
#[test]
fn a_client_that_sends_on_behind_its_quit_reads_its_replies(rt: HostRuntime) {
    let outcome = with_server(&rt, 2, 16, 1, one_quits_and_one_comes);
    assert!(rt; outcome.ended([Some(2), Some(1), None, None]));
    drop(outcome);
}

/// Whether a new client is turned away within two seconds.
fn is_turned_away_soon(rt: &HostRuntime, port: u16) -> Option<bool> {
    let begins = Instant::now(rt).ok()?;
    let client = connect(rt, port)?;
    let told = reads(&client, TURNED_AWAY) && is_at_end(&client);
    let took = begins.elapsed(rt).ok()?;
    let told = told && took < Duration::from_secs(2);
    drop(client);
    Some(told)
}

/// Three clients are turned away one after the other while the first is served, each of them soon.
fn three_are_turned_away(rt: &HostRuntime, port: u16) -> Option<bool> {
    let first = connect(rt, port)?;
    let served = answers(&first, PING, PONG);
    for _ in 0..3 {
        if !is_turned_away_soon(rt, port)? {
            return Some(false);
        }
    }
    Some(served && answers(&first, PING, PONG))
}

/// The wait for a worker is a tenth of a second.
#[test]
fn a_client_is_turned_away_soon(rt: HostRuntime) {
    let outcome = with_server(&rt, 4, 16, 1, three_are_turned_away);
    assert!(rt; outcome.is_well(1));
    drop(outcome);
}

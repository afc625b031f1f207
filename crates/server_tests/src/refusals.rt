//! Connections beyond the workers.

use crate::client::{
    OK, PING, PONG, QUIT, TURNED_AWAY, answers, connect, connect_all, is_at_end, is_served, reads,
    sends, with_server,
};
use std::net::{Shutdown, TcpStream};

/// The second connection while the first is open.
fn a_second_is_turned_away(rt: &HostRuntime, port: u16) -> Option<bool> {
    let first = connect(rt, port)?;
    let told = answers(&first, PING, PONG);
    let second = connect(rt, port)?;
    let turned_away = reads(&second, TURNED_AWAY) && is_at_end(&second);
    let told = told && turned_away && answers(&first, PING, PONG);
    drop(second);
    drop(first);
    Some(told)
}

#[test]
fn a_connection_beyond_the_workers_is_turned_away(rt: HostRuntime) {
    let outcome = with_server(&rt, 2, 16, 1, a_second_is_turned_away);
    assert!(rt; outcome.is_well(1));
    drop(outcome);
}

/// Whether the line is read by a client that first sends far more than the sockets hold.
fn reads_the_line_late(client: &TcpStream) -> bool {
    for _ in 0..100 {
        if !sends(client, &[b'x'; 8_192]) {
            return false;
        }
    }
    reads(client, TURNED_AWAY) && is_at_end(client)
}

/// Two are turned away and stay, one sends on, and then the worker of the first comes free.
fn others_stay(rt: &HostRuntime, port: u16, first: &TcpStream) -> Option<bool> {
    let stay = connect_all(rt, port, 2)?;
    let sends_on = connect(rt, port)?;
    let told = reads_the_line_late(&sends_on) && answers(first, QUIT, OK);
    let told = is_served(rt, port)? && told;
    drop(sends_on);
    drop(stay);
    Some(told)
}

/// One is served while three are turned away and stay, one of whom sends on, and then the worker comes free.
fn some_stay(rt: &HostRuntime, port: u16) -> Option<bool> {
    let first = connect(rt, port)?;
    let told = answers(&first, PING, PONG);
    let told = others_stay(rt, port, &first)? && told;
    drop(first);
    Some(told)
}

/// Clients that are turned away and neither read nor close keep nobody waiting.
#[test]
fn clients_that_are_turned_away_keep_nobody_waiting(rt: HostRuntime) {
    let outcome = with_server(&rt, 5, 16, 1, some_stay);
    assert!(rt; outcome.is_well(2));
    drop(outcome);
}

/// Whether a new client can quit, which then stays.
fn quits_and_stays(rt: &HostRuntime, port: u16, stay: &mut Vec<TcpStream>) -> Option<bool> {
    let client = connect(rt, port)?;
    let told = answers(&client, QUIT, OK) && is_at_end(&client);
    stay.push(client).ok()?;
    Some(told)
}

/// Clients that quit one after the other and stay, all open at the end.
fn all_quit_and_stay(rt: &HostRuntime, port: u16) -> Option<bool> {
    let mut stay = Vec::new(rt.alloc());
    for _ in 0..80 {
        if !quits_and_stays(rt, port, &mut stay)? {
            return Some(false);
        }
    }
    Some(true)
}

/// A client that was sent its last byte and does not close keeps no worker: with one worker, more of them
/// than are waited for at one time are served at once.
#[test]
fn clients_that_quit_and_stay_keep_no_worker(rt: HostRuntime) {
    let outcome = with_server(&rt, 80, 16, 1, all_quit_and_stay);
    assert!(rt; outcome.is_well(80));
    drop(outcome);
}

/// One that sends a part of a request and stalls, one that asks for more than it reads, and one that has
/// gone; and then one that sends byte by byte, while another is served.
fn one_is_served_beside_them(rt: &HostRuntime, port: u16) -> Option<bool> {
    let stalls = connect(rt, port)?;
    let told = sends(&stalls, &PING[..7]);
    let told = one_is_served_beside_a_flood(rt, port)? && told;
    drop(stalls);
    Some(told)
}

/// One that asks for more than it reads, and one that has gone; and then the others.
fn one_is_served_beside_a_flood(rt: &HostRuntime, port: u16) -> Option<bool> {
    let floods = connect(rt, port)?;
    let told = floods_with_requests(&floods);
    let told = comes_and_goes(rt, port)? && told;
    let told = one_is_served_beside_a_slow_one(rt, port)? && told;
    drop(floods);
    Some(told)
}

/// A new client goes at once.
fn comes_and_goes(rt: &HostRuntime, port: u16) -> Option<bool> {
    Some(connect(rt, port)?.shutdown(Shutdown::Both).is_ok())
}

/// One that sends byte by byte, while another is served.
fn one_is_served_beside_a_slow_one(rt: &HostRuntime, port: u16) -> Option<bool> {
    let slow = connect(rt, port)?;
    let served = connect(rt, port)?;
    let told = are_answered_often(&slow, &served);
    drop(served);
    drop(slow);
    Some(told)
}

/// Whether both are answered as below, ten times.
fn are_answered_often(slow: &TcpStream, served: &TcpStream) -> bool {
    for _ in 0..10 {
        if !are_answered(slow, served) {
            return false;
        }
    }
    true
}

/// Whether one that sends byte by byte is answered, and another after each byte.
fn are_answered(slow: &TcpStream, served: &TcpStream) -> bool {
    for byte in PING {
        if !sends(slow, &[*byte]) || !answers(served, PING, PONG) {
            return false;
        }
    }
    reads(slow, PONG)
}

/// Sends requests and reads no reply, until the server takes no more of them.
fn floods_with_requests(client: &TcpStream) -> bool {
    if client.set_nonblocking(true).is_err() {
        return false;
    }
    for _ in 0..1_000_000 {
        if !sends(client, PING) {
            return true;
        }
    }
    true
}

#[test]
fn a_client_costs_its_own_worker_alone(rt: HostRuntime) {
    let outcome = with_server(&rt, 5, 16, 4, one_is_served_beside_them);
    assert!(rt; outcome.is_well(5));
    drop(outcome);
}

//! One client after the other.

use crate::client::{
    EXEC, MULTI, OK, PING, PONG, QUEUED, QUIT, answers, connect, is_at_end, is_served, reads,
    sends, with_server,
};
use std::alloc::Global;
use std::io::Read;
use std::net::{Shutdown, TcpStream};
use std::thread::sleep;
use std::time::Duration;

const SET: &[u8] = b"*3\r\n$3\r\nSET\r\n$1\r\nk\r\n$5\r\na\r\n*1\r\n";

const GET: &[u8] = b"*2\r\n$3\r\nGET\r\n$1\r\nk\r\n";

const BAD_LENGTH: &[u8] = b"*1\r\n$04\r\nPING\r\n";

const BAD_LENGTH_LINE: &[u8] = b"-ERR Protocol error: bad length\r\n";

/// Each request is sent when the one before is answered.
fn one_sets_and_gets(rt: &HostRuntime, port: u16) -> Option<bool> {
    let client = connect(rt, port)?;
    let told = answers(&client, PING, PONG)
        && answers(&client, GET, b"$-1\r\n")
        && answers(&client, SET, OK)
        && answers(&client, GET, b"$5\r\na\r\n*1\r\n");
    drop(client);
    Some(told)
}

#[test]
fn replies_before_input_ends(rt: HostRuntime) {
    let outcome = with_server(&rt, 1, 16, 1, one_sets_and_gets);
    assert!(rt; outcome.ended([Some(1), None, None, None]));
    drop(outcome);
}

/// The first sets a key and quits, and the second gets it.
fn one_sets_another_gets(rt: &HostRuntime, port: u16) -> Option<bool> {
    let first = connect(rt, port)?;
    let set = answers(&first, SET, OK) && answers(&first, QUIT, OK);
    let second = connect(rt, port)?;
    let told = set && answers(&second, GET, b"$5\r\na\r\n*1\r\n");
    drop(second);
    drop(first);
    Some(told)
}

/// The store outlives a connection.
#[test]
fn a_later_connection_reads_what_an_earlier_one_set(rt: HostRuntime) {
    let outcome = with_server(&rt, 2, 16, 1, one_sets_another_gets);
    assert!(rt; outcome.ended([Some(2), Some(1), None, None]));
    drop(outcome);
}

/// A transaction, each request sent when the one before is answered.
const TRANSACTION: &[(&[u8], &[u8])] = &[
    (MULTI, OK),
    (b"*3\r\n$3\r\nSET\r\n$1\r\nn\r\n$1\r\n7\r\n", QUEUED),
    (b"*2\r\n$4\r\nINCR\r\n$1\r\nn\r\n", QUEUED),
    (EXEC, b"*2\r\n+OK\r\n:8\r\n"),
];

/// A transaction of which a watched key was written, then one of which it was not.
const WATCHED: &[(&[u8], &[u8])] = &[
    (b"*2\r\n$5\r\nWATCH\r\n$1\r\nn\r\n", OK),
    (b"*2\r\n$4\r\nINCR\r\n$1\r\nn\r\n", b":9\r\n"),
    (MULTI, OK),
    (b"*2\r\n$4\r\nINCR\r\n$1\r\nn\r\n", QUEUED),
    (EXEC, b"*-1\r\n"),
    (b"*2\r\n$5\r\nWATCH\r\n$1\r\nn\r\n", OK),
    (MULTI, OK),
    (b"*2\r\n$4\r\nINCR\r\n$1\r\nn\r\n", QUEUED),
    (EXEC, b"*1\r\n:10\r\n"),
];

/// Whether each request gets exactly its reply.
fn answers_all(stream: &TcpStream, rows: &[(&[u8], &[u8])]) -> bool {
    for &(request, reply) in rows {
        if !answers(stream, request, reply) {
            return false;
        }
    }
    true
}

/// A transaction on one connection, and two on the next with a watch on what the first wrote.
fn two_have_transactions(rt: &HostRuntime, port: u16) -> Option<bool> {
    let first = connect(rt, port)?;
    let told = answers_all(&first, TRANSACTION) && answers(&first, QUIT, OK);
    let second = connect(rt, port)?;
    let told = told && answers_all(&second, WATCHED);
    drop(second);
    drop(first);
    Some(told)
}

#[test]
fn transactions_over_connections(rt: HostRuntime) {
    let outcome = with_server(&rt, 2, 16, 1, two_have_transactions);
    assert!(rt; outcome.ended([Some(2), Some(1), None, None]));
    drop(outcome);
}

/// Three clients after each other, each of whom goes away in its own manner, and a fourth.
fn three_go_and_a_fourth_comes(rt: &HostRuntime, port: u16) -> Option<bool> {
    let told = goes_in_the_middle_of_a_request(rt, port)?;
    let told = goes_in_the_middle_of_a_reply(rt, port)? && told;
    let told = is_refused_and_goes(rt, port)? && told;
    Some(is_served(rt, port)? && told)
}

/// Sends a part of a request.
fn goes_in_the_middle_of_a_request(rt: &HostRuntime, port: u16) -> Option<bool> {
    Some(sends(&connect(rt, port)?, &GET[..20]))
}

/// Asks for 16 MiB, far more than the sockets hold, and goes after the first byte of it. The server is given time to come to a
/// write that waits, since it may else be the next read that fails.
fn goes_in_the_middle_of_a_reply(rt: &HostRuntime, port: u16) -> Option<bool> {
    let client = connect(rt, port)?;
    let asked = sends_a_long_set(&client) && asks_often(rt.alloc(), &client);
    let begins = reads_six(&client);
    sleep(rt, Duration::from_millis(300));
    drop(client);
    Some(asked && begins)
}

/// Sends a SET of 32,768 bytes.
fn sends_a_long_set(client: &TcpStream) -> bool {
    sends(client, b"*3\r\n$3\r\nSET\r\n$1\r\nk\r\n$32768\r\n")
        && sends(client, &[b'v'; 32_768])
        && sends(client, b"\r\n")
}

/// Sends 512 GETs at once.
fn asks_often(alloc: Global, client: &TcpStream) -> bool {
    let mut requests = Vec::new(alloc);
    for _ in 0..512 {
        if requests.extend_from_slice(GET).is_err() {
            return false;
        }
    }
    sends(client, requests.as_slice())
}

/// Whether six bytes come next.
fn reads_six(mut client: &TcpStream) -> bool {
    client.read_exact(&mut [0; 6]).is_ok()
}

/// Whether what is no request gets its line, and then the end.
fn is_refused(client: &TcpStream) -> bool {
    answers(client, BAD_LENGTH, BAD_LENGTH_LINE) && is_at_end(client)
}

/// Whether a new client is refused, which then goes.
fn is_refused_and_goes(rt: &HostRuntime, port: u16) -> Option<bool> {
    Some(is_refused(&connect(rt, port)?))
}

#[test]
fn a_client_that_goes_away_ends_its_own_connection_alone(rt: HostRuntime) {
    let outcome = with_server(&rt, 4, 16, 1, three_go_and_a_fourth_comes);
    assert!(rt; outcome.ended([Some(1), Some(5), Some(3), Some(1)]));
    drop(outcome);
}

/// A new client quits.
fn quits(rt: &HostRuntime, port: u16) -> Option<bool> {
    Some(answers(&connect(rt, port)?, QUIT, OK))
}

/// A new client closes with a part of a reply unread, so that its connection is reset.
fn is_reset(rt: &HostRuntime, port: u16) -> Option<bool> {
    let client = connect(rt, port)?;
    let told = sends(&client, PING) && reads(&client, &PONG[..1]);
    drop(client);
    Some(told)
}

/// One that quits and one whose connection is reset, each with another after it.
fn one_comes_after_each(rt: &HostRuntime, port: u16) -> Option<bool> {
    let told = quits(rt, port)? && is_served(rt, port)?;
    let told = is_reset(rt, port)? && told;
    Some(is_served(rt, port)? && told)
}

/// The one worker serves the next client after a connection that ended by a QUIT, or by a read that failed.
#[test]
fn the_worker_serves_the_next_after_each_ending(rt: HostRuntime) {
    let outcome = with_server(&rt, 4, 16, 1, one_comes_after_each);
    assert!(rt; outcome.ended([Some(2), Some(1), Some(4), Some(1)]));
    drop(outcome);
}

/// One that is served after each of five, each of whom ends its connection in its own manner.
fn one_is_served_after_each(rt: &HostRuntime, port: u16) -> Option<bool> {
    let told = goes_in_the_middle_of_a_request(rt, port)? && is_served(rt, port)?;
    let told = quits(rt, port)? && is_served(rt, port)? && told;
    let told = is_refused_and_goes(rt, port)? && is_served(rt, port)? && told;
    let told = is_reset(rt, port)? && is_served(rt, port)? && told;
    let told = goes_in_the_middle_of_a_reply(rt, port)? && told;
    Some(is_served(rt, port)? && told)
}

/// The one worker answers a PING on the connection after each kind of ending.
#[test]
fn a_ping_is_answered_after_each_ending(rt: HostRuntime) {
    let outcome = with_server(&rt, 10, 16, 1, one_is_served_after_each);
    assert!(rt; outcome.is_well(10) && outcome.ended_each([6, 1, 1, 1, 1, 0]));
    drop(outcome);
}

/// Sends what is no request, and far more than the sockets hold, before it reads.
fn sends_on(client: &TcpStream) -> bool {
    if !sends(client, BAD_LENGTH) {
        return false;
    }
    for _ in 0..100 {
        if !sends(client, &[b'x'; 8_192]) {
            return false;
        }
    }
    let told = reads(client, BAD_LENGTH_LINE) && is_at_end(client);
    client.shutdown(Shutdown::Both).is_ok() && told
}

/// A new client sends on, and then goes.
fn sends_on_and_goes(rt: &HostRuntime, port: u16) -> Option<bool> {
    Some(sends_on(&connect(rt, port)?))
}

/// One sends on, one is refused and stays, and then a third comes.
fn one_sends_on_and_one_stays(rt: &HostRuntime, port: u16) -> Option<bool> {
    let told = sends_on_and_goes(rt, port)?;
    let stays = connect(rt, port)?;
    let told = told && is_refused(&stays);
    let told = is_served(rt, port)? && told;
    drop(stays);
    Some(told)
}

/// The line of a fault reaches a client that sends on before it reads, and a client that never closes
/// is let go.
#[test]
fn a_client_that_sends_on_reads_the_last_line(rt: HostRuntime) {
    let outcome = with_server(&rt, 3, 16, 1, one_sends_on_and_one_stays);
    assert!(rt; outcome.ended([Some(3), Some(3), Some(1), None]));
    drop(outcome);
}

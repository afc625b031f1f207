//! Many clients at once.

use crate::client::{
    EXEC, MULTI, OK, PING, PONG, QUEUED, TURNED_AWAY, answers, answers_words, connect, connect_all,
    is_at_end, reads, with_server,
};
use std::alloc::Global;
use std::net::{Net, TcpStream};
use std::thread;
use std::thread::Threads;

/// Whether every client is served.
fn all_are_served(clients: &[TcpStream]) -> bool {
    for client in clients {
        if !answers(client, PING, PONG) {
            return false;
        }
    }
    true
}

/// Whether a new client is turned away.
fn is_turned_away(rt: &HostRuntime, port: u16) -> Option<bool> {
    let beyond = connect(rt, port)?;
    let told = reads(&beyond, TURNED_AWAY) && is_at_end(&beyond);
    drop(beyond);
    Some(told)
}

/// 64 clients that are served at once, and one more.
fn sixty_four_and_one(rt: &HostRuntime, port: u16) -> Option<bool> {
    let clients = connect_all(rt, port, 64)?;
    let served = all_are_served(clients.as_slice());
    let told = is_turned_away(rt, port)?;
    let told = served && told && all_are_served(clients.as_slice());
    drop(clients);
    Some(told)
}

#[test]
fn sixty_four_workers_serve_sixty_four_clients(rt: HostRuntime) {
    let outcome = with_server(&rt, 65, 64, 64, sixty_four_and_one);
    assert!(rt; outcome.is_well(64));
    drop(outcome);
}

/// So many clients at once, which end together.
fn a_crowd_is_served(rt: &HostRuntime, port: u16, count: usize) -> Option<bool> {
    let clients = connect_all(rt, port, count)?;
    let told = all_are_served(clients.as_slice());
    drop(clients);
    Some(told)
}

/// Ten times as many clients as there are workers, all at once, which end together.
fn one_crowd_after_the_other(rt: &HostRuntime, port: u16) -> Option<bool> {
    for _ in 0..10 {
        if !a_crowd_is_served(rt, port, 4)? {
            return Some(false);
        }
    }
    Some(true)
}

/// As many new clients as there are workers come as soon as those before have ended, and none is turned
/// away.
#[test]
fn new_clients_come_as_others_end(rt: HostRuntime) {
    let outcome = with_server(&rt, 40, 16, 4, one_crowd_after_the_other);
    assert!(rt; outcome.is_well(40));
    drop(outcome);
}

/// The words that a client sends in each of its rounds, each with what it reads.
fn round(alloc: Global, stream: &TcpStream, key: &str, other: &str) -> bool {
    let crossed = b"*2\r\n$5\r\nright\r\n$4\r\nleft\r\n";
    answers_words(alloc, stream, &["SET", key, "7"], OK)
        && answers_words(alloc, stream, &["INCR", key], b":8\r\n")
        && answers_words(alloc, stream, &["MSET", key, "left", other, "right"], OK)
        && answers_words(alloc, stream, &["MGET", other, key], crossed)
}

/// Whether a SET, an INCR and a DEL are queued.
fn changes_are_queued(alloc: Global, stream: &TcpStream, key: &str, other: &str) -> bool {
    answers_words(alloc, stream, &["SET", key, "41"], QUEUED)
        && answers_words(alloc, stream, &["INCR", key], QUEUED)
        && answers_words(alloc, stream, &["DEL", key, other], QUEUED)
}

/// A transaction over two keys of this client's own.
fn transaction(alloc: Global, stream: &TcpStream, key: &str, other: &str) -> bool {
    answers_words(alloc, stream, &["WATCH", key, other], OK)
        && answers(stream, MULTI, OK)
        && changes_are_queued(alloc, stream, key, other)
        && answers(stream, EXEC, b"*3\r\n+OK\r\n:42\r\n:2\r\n")
}

/// Fifty rounds and transactions over these two keys.
fn fifty_rounds(alloc: Global, stream: &TcpStream, key: &str, other: &str) -> bool {
    for _ in 0..50 {
        if !round(alloc, stream, key, other) || !transaction(alloc, stream, key, other) {
            return false;
        }
    }
    true
}

/// A client with two keys of its own, who checks each of its replies.
fn one_of_many(alloc: Global, stream: &TcpStream, number: usize) -> Option<bool> {
    let key = format!(in alloc; "left{number}").ok()?;
    let other = format!(in alloc; "right{number}").ok()?;
    Some(fifty_rounds(alloc, stream, key.as_str(), other.as_str()))
}

/// Whether the client at this place reads what it should.
fn reads_its_own(alloc: Global, clients: &[TcpStream], place: usize) -> bool {
    match clients.get(place) {
        Some(stream) => one_of_many(alloc, stream, place) == Some(true),
        None => false,
    }
}

/// How many of these clients at once read what they should.
fn how_many_read_their_own<R>(rt: &R, clients: &[TcpStream]) -> Option<usize>
where
    R: AllocGlobal + Threads + Sync,
{
    let alloc = rt.alloc();
    let read = &|place| reads_its_own(alloc, clients, place);
    let told = thread::map_indices(rt, alloc, clients.len(), read).ok()?;
    Some(told.iter().filter(|right| **right).count())
}

/// Whether sixteen clients at once all read what they should.
fn sixteen<R>(rt: &R, port: u16) -> Option<bool>
where
    R: AllocGlobal + Net<Stream = TcpStream> + Threads + Sync,
{
    let clients = connect_all(rt, port, 16)?;
    let told = how_many_read_their_own(rt, clients.as_slice()) == Some(16);
    drop(clients);
    Some(told)
}

#[test]
fn sixteen_clients_at_once_read_their_own_replies(rt: HostRuntime) {
    let outcome = with_server(&rt, 16, 4, 16, |_, port| sixteen(&rt, port));
    assert!(rt; outcome.is_well(16));
    drop(outcome);
}

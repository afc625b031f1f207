//! A stripe of 12 frames and 64 places that is full of values, over a socket. It serves again once keys are deleted.

use crate::client::{connect, reads_line, sends, with_options};
use crate::overwriting::{Answered, FULL, comes_to_room, thirty_lines};
use crate::pages::{FIRST, get_is_answered, has_thirty, options, thirty_sets};
use gates::Open;
use std::alloc::Global;
use std::io::Write;
use std::net::{Net, TcpStream};
use std::rt::Clock;
use std::sync::Wait;
use std::time::Duration;
use std::{io, thread};

/// More pieces of thirty keys than there is room for: values of 1,000 bytes take 80 pages.
const PIECES: u32 = 168;

/// How many of them are deleted.
const DELETED: u32 = 8;

/// How many of them are deleted key by key. What is stored in their place leaves the values of more than one page out, since a
/// store whose flusher kept up while it was filled has no room for as much again.
const DELETED_SINGLY: u32 = 4;

/// How often a DEL is sent again that found the store full, after a rest of 10 milliseconds.
const TRIES: u32 = 200;

/// DELs of 30 keys of four digits, from this one on.
fn thirty_dels(alloc: Global, first: u32) -> io::Result<Vec<u8>> {
    let mut all = Vec::new(alloc);
    for key in first..first.saturating_add(30) {
        write!(all, "*2\r\n$3\r\nDEL\r\n$4\r\n{key}\r\n")?;
    }
    Ok(all)
}

/// Stores pieces of thirty keys until one finds the store full, and says how many were stored before.
fn fills(alloc: Global, stream: &TcpStream) -> Option<u32> {
    for piece in 0..PIECES {
        let sets = thirty_sets(alloc, FIRST + piece * 30).ok()?;
        if !sends(stream, sets.as_slice()) {
            return None;
        }
        match thirty_lines(alloc, stream)? {
            Answered::Well => {}
            Answered::Full => return Some(piece),
            Answered::Other => return None,
        }
    }
    None
}

/// Deletes the first pieces, and says whether that came to an end.
fn deletes<R: AllocGlobal + Clock + Wait>(rt: &R, stream: &TcpStream) -> Option<bool> {
    for piece in 0..DELETED {
        let dels = thirty_dels(rt.alloc(), FIRST + piece * 30).ok()?;
        if !comes_to_room(rt, stream, dels.as_slice())? {
            return Some(false);
        }
    }
    Some(true)
}

/// Whether the pieces that were stored and not deleted have their values.
fn has_others(alloc: Global, stream: &TcpStream, deleted: u32, stored: u32) -> Option<bool> {
    for piece in deleted..stored.min(PIECES) {
        if !has_thirty(alloc, stream, FIRST + piece * 30)? {
            return Some(false);
        }
    }
    Some(true)
}

/// Sends a DEL of a key until it does not find the store full, and says whether the key is deleted by then.
fn is_deleted<R: AllocGlobal + Clock + Wait>(rt: &R, stream: &TcpStream, key: u32) -> Option<bool> {
    let mut del = Vec::new(rt.alloc());
    write!(del, "*2\r\n$3\r\nDEL\r\n$4\r\n{key}\r\n").ok()?;
    for _ in 0..TRIES {
        if !sends(stream, del.as_slice()) {
            return Some(false);
        }
        let line = reads_line(rt.alloc(), stream)?;
        if line.as_slice() != FULL {
            return Some(line.as_slice() == b":1".as_slice());
        }
        thread::sleep(rt, Duration::from_millis(10));
    }
    Some(false)
}

/// Deletes the keys of the first piece one by one, tries to store thirty others after each, and says whether each is deleted
/// soon.
fn deletes_singly<R>(rt: &R, stream: &TcpStream) -> Option<bool>
where
    R: AllocGlobal + Clock + Wait,
{
    let sets = thirty_sets(rt.alloc(), FIRST + PIECES * 30).ok()?;
    for key in FIRST..FIRST + DELETED_SINGLY * 30 {
        if !is_deleted(rt, stream, key)? || !sends(stream, sets.as_slice()) {
            return Some(false);
        }
        if thirty_lines(rt.alloc(), stream)? == Answered::Other {
            return Some(false);
        }
    }
    Some(true)
}

/// Whether others are stored in the place of the keys that were deleted, and all have what they should.
fn serves_again<R>(rt: &R, stream: &TcpStream, deleted: u32, stored: u32) -> Option<bool>
where
    R: AllocGlobal + Clock + Wait,
{
    let alloc = rt.alloc();
    let sets = thirty_sets(alloc, FIRST + PIECES * 30).ok()?;
    let told = comes_to_room(rt, stream, sets.as_slice())?
        && has_thirty(alloc, stream, FIRST + PIECES * 30)?
        && get_is_answered(alloc, stream, FIRST, b"$-1\r\n")?
        && has_others(alloc, stream, deleted, stored)?;
    drop(sets);
    Some(told)
}

/// Fills the store, deletes keys, and stores others in their place.
fn fills_and_deletes<R>(rt: &R, port: u16) -> Option<bool>
where
    R: AllocGlobal + Clock + Net<Stream = TcpStream> + Wait,
{
    let stream = connect(rt, port)?;
    let stored = fills(rt.alloc(), &stream)?;
    let told = deletes(rt, &stream)? && serves_again(rt, &stream, DELETED, stored)?;
    drop(stream);
    Some(told)
}

/// Fills the store, deletes keys one by one, tries to store others after each, and stores others in their place.
fn fills_and_deletes_singly<R>(rt: &R, port: u16) -> Option<bool>
where
    R: AllocGlobal + Clock + Net<Stream = TcpStream> + Wait,
{
    let stream = connect(rt, port)?;
    let stored = fills(rt.alloc(), &stream)?;
    let told = deletes_singly(rt, &stream)? && serves_again(rt, &stream, DELETED_SINGLY, stored)?;
    drop(stream);
    Some(told)
}

#[test]
fn a_full_store_serves_again_once_keys_are_deleted(rt: HostRuntime) {
    let outcome = with_options(&rt, &Open, options(64, 1, 1), fills_and_deletes);
    assert!(rt; outcome.is_well(1));
    drop(outcome);
}

#[test]
fn a_full_store_answers_each_deletion_soon(rt: HostRuntime) {
    let outcome = with_options(&rt, &Open, options(64, 1, 1), fills_and_deletes_singly);
    assert!(rt; outcome.is_well(1));
    drop(outcome);
}

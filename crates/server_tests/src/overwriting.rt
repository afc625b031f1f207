//! The threads that work in the background, over a socket: a stripe of 12 frames and 64 places, of which 32 are half.

use crate::client::{connect, reads_line, sends, with_file, with_options};
use crate::pages::{FIRST, has_thirty, options, thirty_sets};
use gates::Open;
use std::alloc::Global;
use std::net::{Net, TcpStream};
use std::rt::Clock;
use std::sync::Wait;
use std::time::Duration;
use std::{fs, thread};

/// How many pieces of thirty keys the store has. They take 20 pages.
const PIECES: u32 = 42;

/// How often all of them are written. That takes ten times as many pages as there are places.
const ROUNDS: u32 = 32;

/// How often a piece is sent again that found the store full, after a rest of 10 milliseconds.
const TRIES: u32 = 1_000;

pub(crate) const FULL: &[u8] = b"-FULL store is full";

/// How 30 requests were answered.
#[derive(Clone, Copy, Debug, PartialEq, Eq)]
pub(crate) enum Answered {
    /// None by an error.
    Well,
    /// Some by want of a place.
    Full,
    /// One by something else.
    Other,
}

/// How the next 30 lines answer.
pub(crate) fn thirty_lines(alloc: Global, stream: &TcpStream) -> Option<Answered> {
    let mut answered = Answered::Well;
    for _ in 0..30 {
        let line = reads_line(alloc, stream)?;
        if line.as_slice() == FULL {
            answered = Answered::Full;
        } else if line.first() == Some(&b'-') {
            return Some(Answered::Other);
        }
    }
    Some(answered)
}

/// Sends 30 requests until none of them finds the store full, and says whether that came.
pub(crate) fn comes_to_room<R: AllocGlobal + Clock + Wait>(
    rt: &R,
    stream: &TcpStream,
    requests: &[u8],
) -> Option<bool> {
    for _ in 0..TRIES {
        if !sends(stream, requests) {
            return Some(false);
        }
        match thirty_lines(rt.alloc(), stream)? {
            Answered::Well => return Some(true),
            Answered::Full => thread::sleep(rt, Duration::from_millis(10)),
            Answered::Other => return Some(false),
        }
    }
    Some(false)
}

/// Writes all keys so often, and says whether they have their values in the end.
pub(crate) fn overwrites_often<R>(rt: &R, port: u16, rounds: u32) -> Option<bool>
where
    R: AllocGlobal + Clock + Net<Stream = TcpStream> + Wait,
{
    let stream = connect(rt, port)?;
    for _ in 0..rounds {
        for piece in 0..PIECES {
            let sets = thirty_sets(rt.alloc(), FIRST + piece * 30).ok()?;
            if !comes_to_room(rt, &stream, sets.as_slice())? {
                return Some(false);
            }
        }
    }
    for piece in 0..PIECES {
        if !has_thirty(rt.alloc(), &stream, FIRST + piece * 30)? {
            return Some(false);
        }
    }
    Some(true)
}

/// Writes all keys again and again, and says whether they have their values in the end.
fn overwrites<R>(rt: &R, port: u16) -> Option<bool>
where
    R: AllocGlobal + Clock + Net<Stream = TcpStream> + Wait,
{
    overwrites_often(rt, port, ROUNDS)
}

#[test]
fn a_store_that_is_overwritten_for_long_stays_inside_its_places(rt: HostRuntime) {
    let outcome = with_options(&rt, &Open, options(64, 1, 1), overwrites);
    assert!(rt; outcome.is_well(1));
    drop(outcome);
}

#[test]
fn a_store_in_a_file_that_is_overwritten_for_long_stays_inside_its_places(rt: HostRuntime) {
    let outcome = with_file(&rt, options(64, 1, 1), "overwritten.pages", overwrites);
    assert!(rt; outcome.is_well(1));
    // A thread of the background may have written a page for which no place is counted yet.
    let length = fs::metadata(&rt, "overwritten.pages").map(|file| file.len());
    assert!(rt; matches!(length, Ok(bytes) if bytes <= (64 + 3) * 65_536));
    drop(outcome);
}

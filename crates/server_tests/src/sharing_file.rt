//! Clients at once over a store whose old pages lie in a file.

use crate::client::{connect, with_file};
use crate::pages::{FIRST, has_thirty, options, sets_thirty};
use std::alloc::Global;
use std::net::{Net, TcpStream};
use std::thread::Threads;
use std::{fs, thread};
use words::limits::PLACES_DEFAULT;

/// How many pieces of thirty keys each of three clients stores. With values of 1,000 bytes they take 48 pages together.
const PIECES: u32 = 33;

/// The first key of the second client, and that of the third.
const SECOND: u32 = FIRST + 1_000;

const THIRD: u32 = FIRST + 2_000;

/// Whether the keys from this one on are stored.
fn fills(alloc: Global, stream: &TcpStream, first: u32) -> Option<bool> {
    for piece in 0..PIECES {
        if !sets_thirty(alloc, stream, first.saturating_add(piece * 30))? {
            return Some(false);
        }
    }
    Some(true)
}

/// Whether the keys from this one on have their values.
fn has(alloc: Global, stream: &TcpStream, first: u32) -> Option<bool> {
    for piece in 0..PIECES {
        if !has_thirty(alloc, stream, first.saturating_add(piece * 30))? {
            return Some(false);
        }
    }
    Some(true)
}

/// Whether the keys from this one on are stored, and have their values then.
fn fills_and_reads(alloc: Global, stream: &TcpStream, first: u32) -> Option<bool> {
    Some(fills(alloc, stream, first)? && has(alloc, stream, first)?)
}

/// Two clients at once, each with keys of its own.
fn second_and_third<R>(
    rt: &R,
    second: &TcpStream,
    third: &TcpStream,
) -> (Option<bool>, Option<bool>)
where
    R: AllocGlobal + Threads + Sync,
{
    let alloc = rt.alloc();
    thread::join(
        rt,
        || fills_and_reads(alloc, second, SECOND),
        || fills_and_reads(alloc, third, THIRD),
    )
}

/// Three clients at once, each with keys of its own. A fourth has all values then.
fn three_fill_and_read<R>(rt: &R, port: u16) -> Option<bool>
where
    R: AllocGlobal + Net<Stream = TcpStream> + Threads + Sync,
{
    let first = connect(rt, port)?;
    let second = connect(rt, port)?;
    let third = connect(rt, port)?;
    let last = connect(rt, port)?;
    let alloc = rt.alloc();
    let (one, (two, three)) = thread::join(
        rt,
        || fills_and_reads(alloc, &first, FIRST),
        || second_and_third(rt, &second, &third),
    );
    let all = has(alloc, &last, FIRST)? && has(alloc, &last, SECOND)? && has(alloc, &last, THIRD)?;
    drop(last);
    drop(third);
    drop(second);
    drop(first);
    Some(one? && two? && three? && all)
}

/// The stripe has frames for 12 pages. While clients write and read, pages are written to the file and leave their frames,
/// and each value is read as it was stored.
#[test]
fn values_of_clients_at_once_are_read_from_a_file(rt: HostRuntime) {
    let path = "clients.pages";
    let outcome = with_file(
        &rt,
        options(PLACES_DEFAULT, 4, 4),
        path,
        |rt, port| three_fill_and_read(rt, port),
    );
    assert!(rt; outcome.is_well(4));
    assert!(rt; fs::remove_file(&rt, path).is_ok());
    drop(outcome);
}

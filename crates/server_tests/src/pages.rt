//! A store whose oldest pages have left their frames, over a socket.

use crate::client::{OK, connect, reads, reads_at_once, sends, with_options};
use gates::Open;
use options::{DeviceKind, Options};
use std::alloc::Global;
use std::io;
use std::io::Write;
use std::net::{Net, TcpStream};
use words::limits::{BUCKETS_DEFAULT, FRAMES_MIN};

/// The key of four digits that is stored first.
pub(crate) const FIRST: u32 = 1_000;

/// How many pieces of thirty keys are stored.
const PIECES: u32 = 100;

/// How many keys are stored. With values of 1,000 bytes they take 48 pages.
pub(crate) const COUNT: u32 = 3_000;

/// The options of a server with a store of one stripe, whose 12 frames hold a quarter of these pages, and with so many
/// places for the others, and so many workers and connections.
pub(crate) fn options(places: usize, workers: usize, accept: u32) -> Option<Options> {
    Options::new(
        0,
        accept,
        1,
        BUCKETS_DEFAULT,
        FRAMES_MIN,
        places,
        workers,
        DeviceKind::Memory,
    )
}

/// A value of 1,000 bytes, which begins with its key.
fn add_value(all: &mut Vec<u8>, key: u32) -> io::Result<()> {
    write!(all, "$1000\r\n{key}")?;
    all.extend_from_slice(&[b'v'; 996])?;
    write!(all, "\r\n")
}

/// SETs of 30 keys of four digits, from this one on.
pub(crate) fn thirty_sets(alloc: Global, first: u32) -> io::Result<Vec<u8>> {
    let mut all = Vec::new(alloc);
    for key in first..first.saturating_add(30) {
        write!(all, "*3\r\n$3\r\nSET\r\n$4\r\n{key}\r\n")?;
        add_value(&mut all, key)?;
    }
    Ok(all)
}

/// Whether a piece of so many SETs is answered.
pub(crate) fn sets_thirty(alloc: Global, stream: &TcpStream, first: u32) -> Option<bool> {
    let sets = thirty_sets(alloc, first).ok()?;
    if !sends(stream, &sets) {
        return Some(false);
    }
    for _ in 0..30 {
        if !reads(stream, OK) {
            return Some(false);
        }
    }
    Some(true)
}

/// GETs of 30 keys of four digits, from this one on.
fn thirty_gets(alloc: Global, first: u32) -> io::Result<Vec<u8>> {
    let mut all = Vec::new(alloc);
    for key in first..first.saturating_add(30) {
        write!(all, "*2\r\n$3\r\nGET\r\n$4\r\n{key}\r\n")?;
    }
    Ok(all)
}

/// Their values.
fn thirty_values(alloc: Global, first: u32) -> io::Result<Vec<u8>> {
    let mut all = Vec::new(alloc);
    for key in first..first.saturating_add(30) {
        add_value(&mut all, key)?;
    }
    Ok(all)
}

/// Whether 30 keys have their values.
pub(crate) fn has_thirty(alloc: Global, stream: &TcpStream, first: u32) -> Option<bool> {
    let gets = thirty_gets(alloc, first).ok()?;
    let values = thirty_values(alloc, first).ok()?;
    let told = sends(stream, &gets) && reads_at_once(alloc, stream, &values);
    drop(values);
    drop(gets);
    Some(told)
}

/// Whether all keys are stored.
pub(crate) fn stores_all(alloc: Global, stream: &TcpStream) -> Option<bool> {
    for piece in 0..PIECES {
        if !sets_thirty(alloc, stream, FIRST + piece * 30)? {
            return Some(false);
        }
    }
    Some(true)
}

/// Whether all keys have their values.
pub(crate) fn has_all(alloc: Global, stream: &TcpStream) -> Option<bool> {
    for piece in 0..PIECES {
        if !has_thirty(alloc, stream, FIRST + piece * 30)? {
            return Some(false);
        }
    }
    Some(true)
}

/// Whether a GET of this key of four digits gets exactly this reply.
pub(crate) fn get_is_answered(
    alloc: Global,
    stream: &TcpStream,
    key: u32,
    reply: &[u8],
) -> Option<bool> {
    let mut get = Vec::new(alloc);
    write!(get, "*2\r\n$3\r\nGET\r\n$4\r\n{key}\r\n").ok()?;
    Some(sends(stream, &get) && reads(stream, reply))
}

/// Whether a GET of this key of four digits is sent.
pub(crate) fn asks(alloc: Global, stream: &TcpStream, key: u32) -> Option<bool> {
    let mut get = Vec::new(alloc);
    write!(get, "*2\r\n$3\r\nGET\r\n$4\r\n{key}\r\n").ok()?;
    Some(sends(stream, &get))
}

/// Whether the value of this key comes next.
pub(crate) fn has_value(alloc: Global, stream: &TcpStream, key: u32) -> Option<bool> {
    let mut value = Vec::new(alloc);
    add_value(&mut value, key).ok()?;
    let told = reads(stream, &value);
    drop(value);
    Some(told)
}

/// Whether this key has its value.
pub(crate) fn has(alloc: Global, stream: &TcpStream, key: u32) -> Option<bool> {
    let mut value = Vec::new(alloc);
    add_value(&mut value, key).ok()?;
    let told = get_is_answered(alloc, stream, key, &value);
    drop(value);
    told
}

/// Whether all keys are stored, and the first is read.
fn stores_and_reads<R>(rt: &R, port: u16) -> Option<bool>
where
    R: AllocGlobal + Net<Stream = TcpStream>,
{
    let stream = connect(rt, port)?;
    let told = stores_all(rt.alloc(), &stream)? && has(rt.alloc(), &stream, FIRST)?;
    drop(stream);
    Some(told)
}

/// The stripe has frames for 12 pages: the others lie on the device.
#[test]
fn a_value_whose_page_has_no_frame_is_read(rt: HostRuntime) {
    let outcome = with_options(&rt, &Open, options(256, 1, 1), stores_and_reads);
    assert!(rt; outcome.is_well(1));
    drop(outcome);
}

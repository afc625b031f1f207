//! Requests that set and get keys of four digits, each with a value of 1,000 bytes.

use std::alloc::Global;
use std::io;
use std::io::Write;
use std::process::Abort;

/// The number of the first key.
const FIRST: u32 = 1_000;

/// The key with this number.
fn key(number: u32) -> u32 {
    number.saturating_add(FIRST)
}

/// A value of 1,000 bytes as a reply, which begins with its key.
fn add_value(rt: &impl Abort, all: &mut Vec<u8>, number: u32) {
    write!(all, "$1000\r\n{}", key(number)).expect(rt, "memory for a text");
    all.extend_from_slice(&[b'v'; 996])
        .expect(rt, "memory for a text");
    write!(all, "\r\n").expect(rt, "memory for a text");
}

/// Adds a SET of the key with this number.
pub(crate) fn add_set(rt: &impl Abort, all: &mut Vec<u8>, number: u32) {
    write!(all, "*3\r\n$3\r\nSET\r\n$4\r\n{}\r\n", key(number)).expect(rt, "memory for a text");
    add_value(rt, all, number);
}

/// Adds a GET of the key with this number.
pub(crate) fn add_get(rt: &impl Abort, all: &mut Vec<u8>, number: u32) {
    write!(all, "*2\r\n$3\r\nGET\r\n$4\r\n{}\r\n", key(number)).expect(rt, "memory for a text");
}

/// SETs of the keys below this number.
pub(crate) fn sets(rt: &impl Abort, alloc: Global, count: u32) -> Vec<u8> {
    let mut all = Vec::new(alloc);
    for number in 0..count {
        add_set(rt, &mut all, number);
    }
    all
}

/// GETs of the keys below this number.
pub(crate) fn gets(rt: &impl Abort, alloc: Global, count: u32) -> Vec<u8> {
    let mut all = Vec::new(alloc);
    for number in 0..count {
        add_get(rt, &mut all, number);
    }
    all
}

/// A GET of the key with this number.
pub(crate) fn get(rt: &impl Abort, alloc: Global, number: u32) -> Vec<u8> {
    let mut all = Vec::new(alloc);
    add_get(rt, &mut all, number);
    all
}

/// The replies to GETs of the keys below this number.
pub(crate) fn values(rt: &impl Abort, alloc: Global, count: u32) -> Vec<u8> {
    let mut all = Vec::new(alloc);
    for number in 0..count {
        add_value(rt, &mut all, number);
    }
    all
}

/// The reply to a GET of the key with this number.
pub(crate) fn value(rt: &impl Abort, alloc: Global, number: u32) -> Vec<u8> {
    let mut all = Vec::new(alloc);
    add_value(rt, &mut all, number);
    all
}

/// So many times a text, and then another.
pub(crate) fn repeated(
    alloc: Global,
    text: &[u8],
    count: u32,
    after: &[u8],
) -> io::Result<Vec<u8>> {
    let mut all = Vec::new(alloc);
    for _ in 0..count {
        all.extend_from_slice(text)?;
    }
    all.extend_from_slice(after)?;
    Ok(all)
}

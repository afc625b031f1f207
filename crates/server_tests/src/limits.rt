//! Servers at both ends of the range of each option, and those of a store that is larger than the defaults.

use crate::client::{OK, answers_words, connect_all, with_file, with_options};
use gates::Open;
use options::{DeviceKind, Options};
use std::alloc::Global;
use std::fs;
use std::net::{Net, TcpStream};

/// Stripes, buckets, frames, places and workers: each of them at either end of its range.
const SIZES: &[[usize; 5]] = &[
    [1, 1, 12, 64, 1],
    [64, 1, 12, 64, 1],
    [1, 65_536, 12, 65_536, 1],
    [1, 1, 256, 64, 64],
];

/// Stripes, buckets, frames, places and workers of a store that is larger than the defaults.
const LARGER: [usize; 5] = [1, 65_536, 128, 8_192, 4];

/// The options of a server of these sizes that serves a connection for each of its workers.
fn options(sizes: [usize; 5]) -> Option<Options> {
    Options::new(
        0,
        u32::try_from(sizes[4]).ok()?,
        sizes[0],
        sizes[1],
        sizes[2],
        sizes[3],
        sizes[4],
        DeviceKind::Memory,
    )
}

/// Whether a client sets a key, adds to it and reads it.
fn keeps_a_number(alloc: Global, stream: &TcpStream, key: &str) -> bool {
    answers_words(alloc, stream, &["SET", key, "41"], OK)
        && answers_words(alloc, stream, &["INCR", key], b":42\r\n")
        && answers_words(alloc, stream, &["GET", key], b"$2\r\n42\r\n")
}

/// Whether a client keeps numbers in some keys.
fn keeps_numbers(alloc: Global, stream: &TcpStream) -> bool {
    for key in ["a", "b", "n", "a-key-of-more-than-22-bytes", ""] {
        if !keeps_a_number(alloc, stream, key) {
            return false;
        }
    }
    true
}

/// Whether so many clients, all there at once, keep numbers one after the other.
fn all_keep_numbers<R>(rt: &R, port: u16, count: usize) -> Option<bool>
where
    R: AllocGlobal + Net<Stream = TcpStream>,
{
    let clients = connect_all(rt, port, count)?;
    for client in clients.as_slice() {
        if !keeps_numbers(rt.alloc(), client) {
            return Some(false);
        }
    }
    Some(true)
}

#[test]
fn servers_at_both_ends_of_each_range(rt: HostRuntime) {
    for &sizes in SIZES {
        let count = sizes[4];
        let outcome = with_options(
            &rt,
            &Open,
            options(sizes),
            |rt, port| all_keep_numbers(rt, port, count),
        );
        assert!(rt; outcome.is_well(count), "{sizes:?}");
    }
}

#[test]
fn a_server_of_a_larger_store(rt: HostRuntime) {
    let count = LARGER[4];
    let outcome = with_options(
        &rt,
        &Open,
        options(LARGER),
        |rt, port| all_keep_numbers(rt, port, count),
    );
    assert!(rt; outcome.is_well(count));
    drop(outcome);
}

#[test]
fn a_server_of_a_larger_store_in_a_file(rt: HostRuntime) {
    let path = "larger_store.pages";
    let count = LARGER[4];
    let outcome = with_file(
        &rt,
        options(LARGER),
        path,
        |rt, port| all_keep_numbers(rt, port, count),
    );
    assert!(rt; outcome.is_well(count));
    assert!(rt; fs::remove_file(&rt, path).is_ok());
    drop(outcome);
}

//! Clients that send far more than one request before they read.

use crate::client::{
    OK, PING, PONG, answers, connect, is_at_end, reads, sends, with_latch, with_server,
};
use crate::holding::wait_for;
use gates::{Latch, Point};
use std::alloc::{AllocError, Global};
use std::io::Write;
use std::net::{Shutdown, TcpStream};
use std::rt::Clock;
use std::sync::atomic::{AtomicBool, AtomicU64, Ordering};
use std::thread::sleep;
use std::time::Duration;

const GET: &[u8] = b"*2\r\n$3\r\nGET\r\n$1\r\nk\r\n";

/// Adds a SET of 8,000 bytes of this letter.
fn add_long_set(requests: &mut Vec<u8>, letter: u8) -> Result<(), AllocError> {
    requests.extend_from_slice(b"*3\r\n$3\r\nSET\r\n$1\r\nk\r\n$8000\r\n")?;
    requests.extend_from_slice(&[letter; 8_000])?;
    requests.extend_from_slice(b"\r\n")
}

/// So many SETs of 8,000 bytes, each of another letter than the one before, and then a GET.
fn long_sets(alloc: Global, count: u8) -> Result<Vec<u8>, AllocError> {
    let mut requests = Vec::new(alloc);
    for number in 0..count {
        add_long_set(&mut requests, letter(number))?;
    }
    requests.extend_from_slice(GET)?;
    Ok(requests)
}

/// Whether so many long SETs and a GET can be sent.
fn sends_long_sets(alloc: Global, client: &TcpStream, count: u8) -> bool {
    match long_sets(alloc, count) {
        Ok(requests) => sends(client, requests.as_slice()),
        Err(_) => false,
    }
}

/// The letter of the SET with this number.
fn letter(number: u8) -> u8 {
    b'a' + number % 26
}

/// Whether so many SETs are answered, and then the GET by this letter.
fn are_answered(client: &TcpStream, count: u8, last: u8) -> bool {
    for _ in 0..count {
        if !reads(client, OK) {
            return false;
        }
    }
    get_is_answered(client, last)
}

/// Whether a GET is answered by 8,000 bytes of this letter.
fn get_is_answered(client: &TcpStream, letter: u8) -> bool {
    reads(client, b"$8000\r\n") && reads(client, &[letter; 8_000]) && reads(client, b"\r\n")
}

/// 200 SETs of 8,000 bytes and a GET, all sent before the first reply is read, and then a PING.
fn two_hundred_sets(rt: &HostRuntime, port: u16) -> Option<bool> {
    let client = connect(rt, port)?;
    let sent = sends_long_sets(rt.alloc(), &client, 200);
    let told = sent && are_answered(&client, 200, letter(199)) && answers(&client, PING, PONG);
    drop(client);
    Some(told)
}

#[test]
fn long_requests_in_a_row_are_answered_in_order(rt: HostRuntime) {
    let outcome = with_server(&rt, 1, 16, 1, two_hundred_sets);
    assert!(rt; outcome.ended([Some(1), None, None, None]));
    drop(outcome);
}

/// Ten SETs and a GET, and then the end of the input, all sent before the first reply is read.
fn ten_sets_and_the_end(rt: &HostRuntime, port: u16) -> Option<bool> {
    let client = connect(rt, port)?;
    let sent = sends_long_sets(rt.alloc(), &client, 10);
    let ended = client.shutdown(Shutdown::Write).is_ok();
    let told = sent && ended && are_answered(&client, 10, letter(9)) && is_at_end(&client);
    drop(client);
    Some(told)
}

#[test]
fn long_requests_before_the_end_of_the_input_are_answered(rt: HostRuntime) {
    let outcome = with_server(&rt, 1, 16, 1, ten_sets_and_the_end);
    assert!(rt; outcome.ended([Some(1), None, None, None]));
    drop(outcome);
}

/// A SET of 5,000 bytes, and fourteen GETs of it. `None` where there was no memory.
fn set_and_fourteen_gets(alloc: Global) -> Option<Vec<u8>> {
    let mut requests = Vec::new(alloc);
    let set = b"*3\r\n$3\r\nSET\r\n$1\r\nk\r\n$5000\r\n";
    requests.extend_from_slice(set).ok()?;
    requests.extend_from_slice(&[b'v'; 5_000]).ok()?;
    requests.extend_from_slice(b"\r\n").ok()?;
    for _ in 0..14 {
        requests.extend_from_slice(GET).ok()?;
    }
    Some(requests)
}

/// Whether fourteen GETs are answered by 5,000 bytes each.
fn fourteen_are_answered(client: &TcpStream) -> bool {
    for _ in 0..14 {
        if !reads(client, b"$5000\r\n")
            || !reads(client, &[b'v'; 5_000])
            || !reads(client, b"\r\n")
        {
            return false;
        }
    }
    true
}

/// A SET and fourteen GETs at once, which are answered by 70,000 bytes, and then a PING.
fn fourteen_gets(rt: &HostRuntime, port: u16) -> Option<bool> {
    let client = connect(rt, port)?;
    let sent = sends(&client, set_and_fourteen_gets(rt.alloc())?.as_slice()) && reads(&client, OK);
    let told = sent && fourteen_are_answered(&client) && answers(&client, PING, PONG);
    drop(client);
    Some(told)
}

/// Replies that do not fit into the output buffer together are all written.
#[test]
fn fourteen_gets_get_fourteen_replies(rt: HostRuntime) {
    let outcome = with_server(&rt, 1, 16, 1, fourteen_gets);
    assert!(rt; outcome.ended([Some(1), None, None, None]));
    drop(outcome);
}

/// Adds a request of this name for a key of 500 bytes, and what follows.
fn add_for_long_key(requests: &mut Vec<u8>, name: &[u8], rest: &[u8]) -> Result<(), AllocError> {
    requests.extend_from_slice(name)?;
    requests.extend_from_slice(b"$500\r\n")?;
    requests.extend_from_slice(&[b'k'; 500])?;
    requests.extend_from_slice(b"\r\n")?;
    requests.extend_from_slice(rest)
}

/// A SET of 8,000 bytes to a key of 500, and so many GETs of it.
fn set_and_gets(alloc: Global, count: u32) -> Result<Vec<u8>, AllocError> {
    let mut requests = Vec::new(alloc);
    add_for_long_key(&mut requests, b"*3\r\n$3\r\nSET\r\n", b"$8000\r\n")?;
    requests.extend_from_slice(&[b'v'; 8_000])?;
    requests.extend_from_slice(b"\r\n")?;
    for _ in 0..count {
        add_for_long_key(&mut requests, b"*2\r\n$3\r\nGET\r\n", b"")?;
    }
    Ok(requests)
}

/// Whether a SET and so many GETs can be sent at once.
fn sends_set_and_gets(alloc: Global, client: &TcpStream, count: u32) -> bool {
    match set_and_gets(alloc, count) {
        Ok(requests) => sends(client, requests.as_slice()),
        Err(_) => false,
    }
}

/// Whether a SET and so many GETs are answered.
fn set_and_gets_are_answered(client: &TcpStream, count: u32) -> bool {
    if !reads(client, OK) {
        return false;
    }
    for _ in 0..count {
        if !get_is_answered(client, b'v') {
            return false;
        }
    }
    true
}

/// A SET and 700 GETs at once, more than 20 reads of the server, whose replies are not read at first: 5.6 MB,
/// more than two sockets hold.
fn seven_hundred_gets(rt: &HostRuntime, port: u16) -> Option<bool> {
    let client = connect(rt, port)?;
    if !sends_set_and_gets(rt.alloc(), &client, 700) {
        return Some(false);
    }
    sleep(rt, Duration::from_millis(100));
    let told = set_and_gets_are_answered(&client, 700);
    drop(client);
    Some(told)
}

/// A write waits for its client also where the reader was asked just before for what is there already.
#[test]
fn replies_wait_for_a_client_that_reads_late(rt: HostRuntime) {
    let outcome = with_server(&rt, 1, 16, 1, seven_hundred_gets);
    assert!(rt; outcome.ended([Some(1), None, None, None]));
    drop(outcome);
}

/// Adds 16,384 bytes of whole requests, as much as the server reads at a time.
fn add_whole_piece(requests: &mut Vec<u8>) -> Result<(), AllocError> {
    for _ in 0..1_000 {
        requests.extend_from_slice(PING)?;
    }
    requests.extend_from_slice(b"*2\r\n$4\r\nPING\r\n$2361\r\n")?;
    requests.extend_from_slice(&[b'x'; 2_361])?;
    requests.extend_from_slice(b"\r\n")
}

/// Whether so many such pieces can be sent at once.
fn sends_whole_pieces(alloc: Global, client: &TcpStream, count: u32) -> bool {
    let mut requests = Vec::new(alloc);
    for _ in 0..count {
        if add_whole_piece(&mut requests).is_err() {
            return false;
        }
    }
    sends(client, requests.as_slice())
}

/// Whether the requests of one such piece are answered.
fn piece_is_answered(client: &TcpStream) -> bool {
    for _ in 0..1_000 {
        if !reads(client, PONG) {
            return false;
        }
    }
    reads(client, b"$2361\r\n") && reads(client, &[b'x'; 2_361]) && reads(client, b"\r\n")
}

/// Whether so many whole pieces, sent at once, are answered.
fn whole_pieces_are_answered(alloc: Global, client: &TcpStream, count: u32) -> bool {
    if !sends_whole_pieces(alloc, client, count) {
        return false;
    }
    for _ in 0..count {
        if !piece_is_answered(client) {
            return false;
        }
    }
    true
}

/// Sends one to four whole pieces, and each time sends no more until all is answered.
fn whole_pieces_one_after_the_other(rt: &HostRuntime, port: u16) -> Option<bool> {
    let client = connect(rt, port)?;
    for count in 1..5 {
        if !whole_pieces_are_answered(rt.alloc(), &client, count) {
            return Some(false);
        }
    }
    Some(true)
}

/// Whole requests that end where a read ends are answered before more is waited for.
#[test]
fn no_reply_hangs_where_a_read_was_filled(rt: HostRuntime) {
    let outcome = with_server(&rt, 1, 16, 1, whole_pieces_one_after_the_other);
    assert!(rt; outcome.ended([Some(1), None, None, None]));
    drop(outcome);
}

/// Which call waits for a reply to be read: one of the 20th read of a server that is never kept waiting.
const LATE_CALL: u64 = 40;

/// Holds up the first call until its client has sent all that the sockets hold, so that no read of the server waits
/// from then on. Holds up a later one until the client has read the reply of an earlier one.
#[derive(Drop)]
struct Streaming<'a, R> {
    clock: &'a R,
    calls: AtomicU64,
    /// The client has sent what the sockets hold.
    sent: AtomicBool,
    /// The client has read a reply.
    answered: AtomicBool,
    /// The later call went on with no reply read.
    late: AtomicBool,
}

impl<R: Clock> Latch for Streaming<'_, R> {
    fn at(&self, _pass: u64, point: Point) {
        if point != Point::Holding {
            return;
        }
        let calls = self.calls.load(Ordering::SeqCst).wrapping_add(1);
        self.calls.store(calls, Ordering::SeqCst);
        if calls == 1 {
            let _ = wait_for(self.clock, &self.sent);
        }
        if calls == LATE_CALL {
            let answered = wait_for(self.clock, &self.answered);
            self.late.store(!answered, Ordering::SeqCst);
        }
    }
}

/// Sends as much of these bytes as the sockets hold, and says how much.
fn sends_what_fits(mut client: &TcpStream, bytes: &[u8]) -> Option<usize> {
    client.set_nonblocking(true).ok()?;
    let mut rest = bytes;
    for _ in 0..bytes.len() {
        match client.write(rest) {
            Ok(count) if count > 0 => rest = rest.get(count..)?,
            _ => break,
        }
    }
    client.set_nonblocking(false).ok()?;
    bytes.len().checked_sub(rest.len())
}

/// Sixty SETs of 8,000 bytes and a GET, without a pause, while the first is held up. The second reply is read while the
/// fortieth is.
fn streams_sets(rt: &HostRuntime, port: u16, latch: &Streaming<'_, HostRuntime>) -> Option<bool> {
    let client = connect(rt, port)?;
    let requests = long_sets(rt.alloc(), 60).ok()?;
    let count = sends_what_fits(&client, requests.as_slice())?;
    latch.sent.store(true, Ordering::SeqCst);
    let sent = sends(&client, requests.as_slice().get(count..)?);
    let answered = reads(&client, OK) && reads(&client, OK);
    latch.answered.store(true, Ordering::SeqCst);
    let told = sent && answered && are_answered(&client, 58, letter(59));
    drop(requests);
    drop(client);
    Some(told)
}

/// A client that never pauses is answered after sixteen reads at most: no reply waits for the end of what it sends.
#[test]
fn a_client_that_fills_each_read_is_answered_meanwhile(rt: HostRuntime) {
    let latch = &Streaming {
        clock: &rt,
        calls: AtomicU64::new(0),
        sent: AtomicBool::new(false),
        answered: AtomicBool::new(false),
        late: AtomicBool::new(false),
    };
    let outcome = with_latch(
        &rt,
        latch,
        1,
        16,
        1,
        |rt, port| streams_sets(rt, port, latch),
    );
    assert!(rt; outcome.ended([Some(1), None, None, None]));
    assert!(rt; !latch.late.load(Ordering::SeqCst));
    drop(outcome);
}

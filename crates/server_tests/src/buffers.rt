//! The socket of a connection: what its reader asks the system for, what its writer hands on to it, and how a reader waits.

use crate::client::{connect, options_with, reads_at_once, sends};
use server::listen;
use sockets::{Accepted, Serving, Socket, SocketReader, SocketWriter};
use std::io;
use std::io::{Read, Write};
use std::mem::forget;
use std::net::{Net, TcpListener, TcpStream};
use std::rt::Clock;
use std::sync::atomic::{AtomicU64, Ordering};
use std::thread::{Threads, available_parallelism, sleep};
use std::time::{Duration, Instant};
use streams::ReadReady;

/// More than fits into a small buffer.
const BYTES: [u8; 16_384] = [b'v'; 16_384];

/// How often a test waits for a millisecond at most.
const TURNS: u32 = 10_000;

/// Both ends of a connection: the client's, and the server's.
fn ends<R>(rt: &R) -> Option<(TcpStream, TcpStream)>
where
    R: Net<Listener = TcpListener, Stream = TcpStream>,
{
    let listener = listen(rt, &options_with(0, 1, 1, 1)?).ok()?;
    let client = connect(rt, listener.local_addr().ok()?.port())?;
    let (served, _) = listener.accept().ok()?;
    drop(listener);
    Some((client, served))
}

/// A further handle of the same connection, by which a test looks at it.
fn again(served: &TcpStream) -> Option<TcpStream> {
    served.try_clone().ok()
}

/// Whether all bytes come to be there, to be read. False after all turns.
fn come(clock: &impl Clock, served: &TcpStream) -> bool {
    let mut buffer = [0; 16_384];
    for _ in 0..TURNS {
        if matches!(served.peek(&mut buffer), Ok(16_384)) {
            return true;
        }
        sleep(clock, Duration::from_millis(1));
    }
    false
}

/// Whether a client sends the bytes, and they come to be there.
fn are_sent(clock: &impl Clock, client: &TcpStream, served: &TcpStream) -> bool {
    sends(client, &BYTES) && come(clock, served)
}

/// One read takes all that is there, and so does one that does not wait.
#[test]
fn a_read_takes_all_that_is_there(rt: HostRuntime) {
    let (client, served) = ends(&rt).expect(&rt, "a connection");
    let serving = Serving::new(&rt);
    let connection = Accepted::new(&serving, again(&served).expect(&rt, "a handle"));
    let socket = Socket::new(&connection);
    let mut reader = SocketReader::new(&rt, &socket, &serving);
    let mut buffer = [0; 16_384];
    assert!(rt; are_sent(&rt, &client, &served));
    assert!(rt; matches!(reader.read(&mut buffer), Ok(16_384)));
    assert!(rt; are_sent(&rt, &client, &served));
    assert!(rt; reader.read_ready(&mut buffer) == Some(16_384));
    drop(served);
    drop(client);
}

/// One write hands on all that there is room for.
#[test]
fn a_write_hands_on_all_bytes(rt: HostRuntime) {
    let (client, served) = ends(&rt).expect(&rt, "a connection");
    let serving = Serving::new(&rt);
    let connection = Accepted::new(&serving, served);
    let socket = Socket::new(&connection);
    let mut writer = SocketWriter::new(&socket);
    assert!(rt; matches!(writer.write(&BYTES), Ok(16_384)));
    assert!(rt; reads_at_once(rt.alloc(), &client, &BYTES));
    drop(client);
}

/// What is written is sent at once, and does not wait for the client's acknowledgement of what was sent before.
#[test]
fn a_socket_sends_at_once(rt: HostRuntime) {
    let (_client, served) = ends(&rt).expect(&rt, "a connection");
    let serving = Serving::new(&rt);
    let connection = Accepted::new(&serving, again(&served).expect(&rt, "a handle"));
    let _socket = Socket::new(&connection);
    assert!(rt; matches!(served.nodelay(), Ok(true)));
    drop(served);
}

/// Where the cleaner is behind, a read waits for it, 20 times for a millisecond, and one that does not wait finds nothing.
#[test]
fn a_read_waits_for_the_cleaner(rt: HostRuntime) {
    let (client, served) = ends(&rt).expect(&rt, "a connection");
    let serving = Serving::new(&rt);
    let connection = Accepted::new(&serving, again(&served).expect(&rt, "a handle"));
    let socket = Socket::new(&connection);
    let mut reader = SocketReader::new(&rt, &socket, &serving);
    let mut buffer = [0; 16_384];
    assert!(rt; are_sent(&rt, &client, &served));
    serving.set_behind(true);
    assert!(rt; reader.read_ready(&mut buffer).is_none());
    let began = Instant::now(&rt).expect(&rt, "the time");
    assert!(rt; matches!(reader.read(&mut buffer), Ok(16_384)));
    assert!(rt;
        began.elapsed(&rt).expect(&rt, "the time that went by") >= Duration::from_millis(20)
    );
    drop(served);
    drop(client);
}

/// A clock whose sleeps take no time. It counts their milliseconds, and once they are so many, the cleaner is not behind any more.
#[derive(Drop)]
struct Sleeps<'a> {
    serving: &'a Serving,
    slept: AtomicU64,
    enough: u64,
}

impl Clock for Sleeps<'_> {
    fn monotonic(&self) -> io::Result<Duration> {
        Ok(Duration::from_secs(7))
    }

    fn since_1970(&self) -> io::Result<Duration> {
        Ok(Duration::from_secs(7))
    }

    fn sleep(&self, duration: Duration) {
        let time = u64::try_from(duration.as_millis()).unwrap_or(u64::MAX);
        let before = self.slept.fetch_add(time, Ordering::SeqCst);
        if before.saturating_add(time) >= self.enough {
            self.serving.set_behind(false);
        }
    }
}

/// For how many milliseconds a read of all that is there waits, where the cleaner is behind or not, and is behind for so many.
fn waits<R>(rt: &R, behind: bool, enough: u64) -> Option<u64>
where
    R: Clock + Net<Listener = TcpListener, Stream = TcpStream> + Threads,
{
    let (client, served) = ends(rt)?;
    let serving = Serving::new(rt);
    let connection = Accepted::new(&serving, again(&served)?);
    let socket = Socket::new(&connection);
    let clock = Sleeps {
        serving: &serving,
        slept: AtomicU64::new(0),
        enough,
    };
    let mut reader = SocketReader::new(&clock, &socket, &serving);
    serving.set_behind(behind);
    let sent = are_sent(rt, &client, &served);
    if !sent || !matches!(reader.read(&mut [0; 16_384]), Ok(16_384)) {
        return None;
    }
    Some(clock.slept.load(Ordering::SeqCst))
}

/// A read waits only while the cleaner is behind, and for 20 milliseconds at most.
#[test]
fn a_read_waits_only_while_the_cleaner_is_behind(rt: HostRuntime) {
    assert_eq!(rt; waits(&rt, false, 0), Some(0));
    assert_eq!(rt; waits(&rt, true, 3), Some(3));
    assert_eq!(rt; waits(&rt, true, 1_000), Some(20));
}

/// As many connections are few as the system has processors for this process, and one more are not, until it has ended.
#[test]
fn connections_are_few_up_to_the_processors(rt: HostRuntime) {
    let processors = available_parallelism(&rt)
        .expect(&rt, "the number of processors")
        .get();
    let serving = Serving::new(&rt);
    for _ in 0..processors {
        // It stays counted.
        forget(serving.begin());
    }
    assert!(rt; serving.is_few());
    let one_more = serving.begin();
    assert!(rt; !serving.is_few());
    drop(one_more);
    assert!(rt; serving.is_few());
}

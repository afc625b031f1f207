//! How many connections are served right now, whether more may come, and whether the cleaner keeps up with them.

ghost use Rattle.std.specs.Prelude.{◌≡◌, ◌<◌};
ghost use Rattle.sockets.specs.Polling.{processors_by, processors_in};
ghost use Rattle.sockets.specs.Accepted.{stream_of};

use std::io;
use std::net::TcpStream;
use std::num::NonZeroUsize;
use std::sync::atomic::{AtomicBool, AtomicUsize, Ordering};
use std::thread::{Threads, available_parallelism};

/// How many connections are served right now or handed to who will serve them, on how many processors, whether more may come, and
/// whether the cleaner keeps up with them. Threads share it; none waits for another.
#[derive(Drop)]
pub struct Serving {
    count: AtomicUsize,
    processors: usize,
    closed: AtomicBool,
    behind: AtomicBool,
}

impl Serving {
    /// No connection is served. There are as many processors as the system tells, which is asked in one line; no other number
    /// can be given.
    pub fn new(host: &impl Threads) -> Serving
        ensures { 0 < processors_in result }
    {
        Serving {
            count: AtomicUsize::new(0),
            processors: processors_of(available_parallelism(host)),
            closed: AtomicBool::new(false),
            behind: AtomicBool::new(false),
        }
    }

    /// A connection was accepted, and is handed to a worker. It is counted from here on, for as long as what this gives is there.
    pub fn begin(&self) -> Counted<'_> {
        self.count.fetch_add(1, Ordering::SeqCst);
        Counted { serving: self }
    }

    /// No connection is accepted any more.
    pub fn close(&self) {
        self.closed.store(true, Ordering::SeqCst);
    }

    /// Whether no connection is accepted any more, and none is counted: those that were accepted and handed to a worker have ended.
    pub fn is_over(&self) -> bool {
        self.closed.load(Ordering::SeqCst) && self.is_idle()
    }

    /// Whether no connection is counted: none that was accepted is being handed to a worker, or served.
    pub fn is_idle(&self) -> bool {
        self.count.load(Ordering::SeqCst) == 0
    }

    /// Whether there is a processor for each connection that is counted.
    pub fn is_few(&self) -> bool {
        self.count.load(Ordering::SeqCst) <= self.processors
    }

    /// The cleaner is behind those who write, or is not any more.
    pub fn set_behind(&self, behind: bool) {
        self.behind.store(behind, Ordering::SeqCst);
    }

    /// Whether the cleaner is behind those who write.
    pub fn is_behind(&self) -> bool {
        self.behind.load(Ordering::SeqCst)
    }
}

/// One connection that is counted. [`Serving::begin`] alone makes it, and when it is dropped it is not counted any more: who has it
/// can end the count neither twice nor before. Of each of the two the line that counts is left to trust.
pub struct Counted<'a> {
    serving: &'a Serving,
}

impl Drop for Counted<'_> {
    fn drop(self) {
        let Counted { serving } = self;
        serving.count.fetch_sub(1, Ordering::SeqCst);
    }
}

/// A connection that was accepted. It is counted from then on until it has ended.
///
/// No [`Socket`](crate::Socket) is made of another, and one borrows it: so what is read or written is of a connection that is
/// counted, and none ends while its socket is there.
#[derive(Drop)]
pub struct Accepted<'a> {
    stream: TcpStream,
    counted: Counted<'a>,
}

impl<'a> Accepted<'a> {
    /// This connection, which was accepted. It is counted from here on.
    pub fn new(serving: &'a Serving, stream: TcpStream) -> Accepted<'a>
        ensures { stream_of result ≡ stream }
    {
        Accepted {
            stream,
            counted: serving.begin(),
        }
    }

    /// Its stream, for a socket.
    pub(crate) fn stream(&self) -> &TcpStream
        ensures { result.now ≡ stream_of self.now }
    {
        &self.stream
    }

    /// It has been served, or is not, and is not counted any more. Its stream is left, to be closed.
    pub fn end(self) -> TcpStream
        ensures { result ≡ stream_of self.entry }
    {
        let Accepted { stream, counted } = self;
        drop(counted);
        stream
    }
}

/// How many processors there are where the system tells so: 1 where it does not.
fn processors_of(told: io::Result<NonZeroUsize>) -> usize
    ensures count { result ≡ processors_by told }
    ensures some { 0 < result }
{
    match told {
        Ok(count) => count.get(),
        Err(_) => 1,
    }
}

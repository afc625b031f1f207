//! A server with its clients, and what clients send and read.

ghost use Rattle.std.specs.Prelude.{◌≡◌, ◌+◌, IfOk, vec_len};
ghost use Rattle.engine.specs.declared.TheConstants.{BACKGROUND_PASSES};

use device::{Device, FileDevice, MemoryDevice, OpenFault};
use gates::{Latch, Open};
use options::{DeviceKind, Options};
use server::{Endings, listen, opening_count, run_workers};
use std::alloc::{AllocError, Global};
use std::fs::{File, Files};
use std::io::{Read, Write};
use std::net::{Ipv4Addr, Net, SocketAddrV4, TcpListener, TcpStream};
use std::process::Abort;
use std::rt::Clock;
use std::sync::Wait;
use std::thread::Threads;
use std::{io, str, thread};
use words::limits::{BUCKETS_DEFAULT, FRAMES_DEFAULT, PLACES_DEFAULT};

pub(crate) const PING: &[u8] = b"*1\r\n$4\r\nPING\r\n";

pub(crate) const PONG: &[u8] = b"+PONG\r\n";

pub(crate) const QUIT: &[u8] = b"*1\r\n$4\r\nQUIT\r\n";

pub(crate) const MULTI: &[u8] = b"*1\r\n$5\r\nMULTI\r\n";

pub(crate) const EXEC: &[u8] = b"*1\r\n$4\r\nEXEC\r\n";

pub(crate) const OK: &[u8] = b"+OK\r\n";

pub(crate) const QUEUED: &[u8] = b"+QUEUED\r\n";

/// What a client reads that is turned away.
pub(crate) const TURNED_AWAY: &[u8] = b"-ERR max number of clients reached\r\n";

/// What came of a server and its clients.
#[derive(Drop)]
pub(crate) struct Outcome {
    /// Whether the server ended well, and its clients told yes.
    well: bool,
    /// How the first four connections ended.
    numbers: [Option<u8>; 4],
    /// How many connections were served.
    count: usize,
    /// How many of them ended by each number from 1 on.
    tally: [usize; 6],
}

impl Outcome {
    /// Whether the server ended well, its clients told yes, and so many connections were served.
    pub(crate) fn is_well(&self, count: usize) -> bool {
        self.well && self.count == count
    }

    /// Whether the server ended well, its clients told yes, and the first four connections ended so.
    pub(crate) fn ended(&self, numbers: [Option<u8>; 4]) -> bool {
        self.well && self.numbers == numbers
    }

    /// Whether the server ended well, its clients told yes, and so many connections ended by each number from 1 on.
    pub(crate) fn ended_each(&self, tally: [usize; 6]) -> bool {
        self.well && self.tally == tally
    }
}

/// How the first four connections ended.
fn first_numbers(endings: &Endings) -> [Option<u8>; 4] {
    [
        endings.get(0),
        endings.get(1),
        endings.get(2),
        endings.get(3),
    ]
}

/// How many connections ended by each number from 1 on.
fn tally_of(endings: &Endings) -> [usize; 6] {
    let mut tally = [0usize; 6];
    for place in 0..endings.count() {
        let number = endings.get(place).unwrap_or(0);
        if let Some(count) = tally.get_mut(usize::from(number).wrapping_sub(1)) {
            *count = count.saturating_add(1);
        }
    }
    tally
}

/// What came of a server that ended so, and these endings.
fn outcome_of(well: Option<bool>, endings: &Endings) -> Outcome {
    Outcome {
        well: well == Some(true),
        numbers: first_numbers(endings),
        count: endings.count(),
        tally: tally_of(endings),
    }
}

/// A server's options with these numbers, and the defaults of the others.
pub(crate) fn options_with(
    port: u16,
    accept: u32,
    stripes: usize,
    workers: usize,
) -> Option<Options> {
    Options::new(
        port,
        accept,
        stripes,
        BUCKETS_DEFAULT,
        FRAMES_DEFAULT,
        PLACES_DEFAULT,
        workers,
        DeviceKind::Memory,
    )
}

/// So many openings of a device in memory as a server with these options wants.
pub(crate) fn memory(alloc: Global, options: &Options) -> Result<Vec<MemoryDevice>, AllocError>
    ensures { IfOk result (λ openings. vec_len openings ≡ options.now.workers + BACKGROUND_PASSES) }
{
    MemoryDevice::openings(alloc, opening_count(options))
}

/// So many openings of a device in the file at this path as a server with these options wants.
fn file<'a, R>(
    rt: &'a R,
    path: &str,
    options: &Options,
) -> Result<Vec<FileDevice<'a, R>>, OpenFault>
where
    R: AllocGlobal + Files<File = File> + Wait,
    ensures { IfOk result (λ openings. vec_len openings ≡ options.now.workers + BACKGROUND_PASSES) }
{
    FileDevice::openings(rt, rt.alloc(), path, opening_count(options))
}

/// A listener, and its port.
fn listening<R>(rt: &R, options: &Options) -> Option<(TcpListener, u16)>
where
    R: Net<Listener = TcpListener, Stream = TcpStream>,
{
    let listener = listen(rt, options).ok()?;
    let port = listener.local_addr().ok()?.port();
    Some((listener, port))
}

/// Whether a server with these options over these openings, which tells this latch where its calls are, ends well, and
/// its clients tell yes, who talk meanwhile and are given its port. `None` where there is no listener.
fn end_well<R, L: Latch + Sync, D, F: FnOnce(&R, u16) -> Option<bool>>(
    rt: &R,
    options: &Options,
    openings: Vec<D>,
    latch: &L,
    endings: &Endings,
    talk: F,
) -> Option<bool>
where
    R: AllocGlobal
        + Clock
        + Net<Listener = TcpListener, Stream = TcpStream>
        + Threads
        + Wait
        + Sync,
    D: Device + Send + Sync,
    D::Receipt: Send + Sync,
    requires talk { F.IsAlwaysCallable talk }
    requires openings { vec_len openings ≡ options.now.workers + BACKGROUND_PASSES }
{
    let (listener, port) = listening(rt, options)?;
    let (served, told) = thread::join(
        rt,
        || -> bool
            requires openings { vec_len openings ≡ options.now.workers + BACKGROUND_PASSES }
        { run_workers(rt, listener, options, openings, latch, endings).is_ok() },
        move || talk(rt, port),
    );
    Some(served && told == Some(true))
}

/// [`end_well`] over a device in memory. `None` too where there are no such options, or no memory.
fn end_well_in_memory<R, L: Latch + Sync, F: FnOnce(&R, u16) -> Option<bool>>(
    rt: &R,
    options: Option<Options>,
    latch: &L,
    endings: &Endings,
    talk: F,
) -> Option<bool>
where
    R: AllocGlobal
        + Clock
        + Net<Listener = TcpListener, Stream = TcpStream>
        + Threads
        + Wait
        + Sync,
    requires { F.IsAlwaysCallable talk }
{
    let options = &options?;
    let openings = memory(rt.alloc(), options).ok()?;
    end_well(rt, options, openings, latch, endings, talk)
}

/// [`end_well`] over a device in the file at this path. `None` too where it can't be opened.
fn end_well_on_file<R, F: FnOnce(&R, u16) -> Option<bool>>(
    rt: &R,
    options: Option<Options>,
    path: &str,
    endings: &Endings,
    talk: F,
) -> Option<bool>
where
    R: AllocGlobal
        + Clock
        + Files<File = File>
        + Net<Listener = TcpListener, Stream = TcpStream>
        + Threads
        + Wait
        + Sync,
    requires { F.IsAlwaysCallable talk }
{
    let options = &options?;
    let openings = file(rt, path, options).ok()?;
    end_well(rt, options, openings, &Open, endings, talk)
}

/// A server with so many stripes and workers that accepts so many connections, while its clients talk, who
/// are given its port and tell `None` where they can't go on.
pub(crate) fn with_server<R, F: FnOnce(&R, u16) -> Option<bool>>(
    rt: &R,
    accept: u32,
    stripes: usize,
    workers: usize,
    talk: F,
) -> Outcome
where
    R: Abort
        + AllocGlobal
        + Clock
        + Net<Listener = TcpListener, Stream = TcpStream>
        + Threads
        + Wait
        + Sync,
    requires { F.IsAlwaysCallable talk }
{
    with_latch(rt, &Open, accept, stripes, workers, talk)
}

/// The server of [`with_server`], which tells this latch where its calls are.
pub(crate) fn with_latch<R, L: Latch + Sync, F: FnOnce(&R, u16) -> Option<bool>>(
    rt: &R,
    latch: &L,
    accept: u32,
    stripes: usize,
    workers: usize,
    talk: F,
) -> Outcome
where
    R: Abort
        + AllocGlobal
        + Clock
        + Net<Listener = TcpListener, Stream = TcpStream>
        + Threads
        + Wait
        + Sync,
    requires { F.IsAlwaysCallable talk }
{
    with_options(rt, latch, options_with(0, accept, stripes, workers), talk)
}

/// A server with these options, which tells this latch where its calls are.
pub(crate) fn with_options<R, L: Latch + Sync, F: FnOnce(&R, u16) -> Option<bool>>(
    rt: &R,
    latch: &L,
    options: Option<Options>,
    talk: F,
) -> Outcome
where
    R: Abort
        + AllocGlobal
        + Clock
        + Net<Listener = TcpListener, Stream = TcpStream>
        + Threads
        + Wait
        + Sync,
    requires { F.IsAlwaysCallable talk }
{
    let endings = Endings::new(rt.alloc()).expect(rt, "memory for the endings");
    let well = end_well_in_memory(rt, options, latch, &endings, talk);
    let told = outcome_of(well, &endings);
    drop(endings);
    told
}

/// A server with these options whose device lies in the file at this path.
pub(crate) fn with_file<R, F: FnOnce(&R, u16) -> Option<bool>>(
    rt: &R,
    options: Option<Options>,
    path: &str,
    talk: F,
) -> Outcome
where
    R: Abort
        + AllocGlobal
        + Clock
        + Files<File = File>
        + Net<Listener = TcpListener, Stream = TcpStream>
        + Threads
        + Wait
        + Sync,
    requires { F.IsAlwaysCallable talk }
{
    let endings = Endings::new(rt.alloc()).expect(rt, "memory for the endings");
    let well = end_well_on_file(rt, options, path, &endings, talk);
    let told = outcome_of(well, &endings);
    drop(endings);
    told
}

/// A server with these options over these openings.
pub(crate) fn with_openings<R, D, F: FnOnce(&R, u16) -> Option<bool>>(
    rt: &R,
    options: &Options,
    openings: Vec<D>,
    talk: F,
) -> Outcome
where
    R: Abort
        + AllocGlobal
        + Clock
        + Net<Listener = TcpListener, Stream = TcpStream>
        + Threads
        + Wait
        + Sync,
    D: Device + Send + Sync,
    D::Receipt: Send + Sync,
    requires talk { F.IsAlwaysCallable talk }
    requires openings { vec_len openings ≡ options.now.workers + BACKGROUND_PASSES }
{
    let endings = Endings::new(rt.alloc()).expect(rt, "memory for the endings");
    let well = end_well(rt, options, openings, &Open, &endings, talk);
    let told = outcome_of(well, &endings);
    drop(endings);
    told
}

/// A client of the server at this port.
pub(crate) fn connect(rt: &impl Net<Stream = TcpStream>, port: u16) -> Option<TcpStream> {
    let address = SocketAddrV4::new(Ipv4Addr::LOCALHOST, port);
    let stream = TcpStream::connect(rt, address).ok()?;
    if stream.set_nodelay(true).is_err() {
        return None;
    }
    Some(stream)
}

/// So many connections, all open at once.
pub(crate) fn connect_all<R>(rt: &R, port: u16, count: usize) -> Option<Vec<TcpStream>>
where
    R: AllocGlobal + Net<Stream = TcpStream>,
{
    let mut clients = Vec::new(rt.alloc());
    for _ in 0..count {
        clients.push(connect(rt, port)?).ok()?;
    }
    Some(clients)
}

/// Whether these bytes can be sent.
pub(crate) fn sends(mut stream: &TcpStream, bytes: &[u8]) -> bool {
    stream.write_all(bytes).is_ok()
}

/// Whether a request gets exactly this reply.
pub(crate) fn answers(stream: &TcpStream, request: &[u8], reply: &[u8]) -> bool {
    sends(stream, request) && reads(stream, reply)
}

/// Whether a new client is served.
pub(crate) fn is_served(rt: &HostRuntime, port: u16) -> Option<bool> {
    Some(answers(&connect(rt, port)?, PING, PONG))
}

/// The next byte.
fn byte(mut stream: &TcpStream) -> Option<u8> {
    let mut got = [0; 1];
    stream.read_exact(&mut got).ok()?;
    Some(got[0])
}

/// Whether these bytes come next.
pub(crate) fn reads(stream: &TcpStream, bytes: &[u8]) -> bool {
    for wanted in bytes {
        if byte(stream) != Some(*wanted) {
            return false;
        }
    }
    true
}

/// Whether these bytes come next. They are read at once.
pub(crate) fn reads_at_once(alloc: Global, mut stream: &TcpStream, bytes: &[u8]) -> bool {
    let Ok(mut got) = vec![in alloc; 0u8; bytes.len()] else {
        return false;
    };
    stream.read_exact(got.as_mut_slice()).is_ok() && got.as_slice() == bytes
}

/// Whether the server sends no more.
pub(crate) fn is_at_end(mut stream: &TcpStream) -> bool {
    matches!(stream.read(&mut [0; 1]), Ok(0))
}

/// Reads the next line, and appends it without its end.
fn read_line(stream: &TcpStream, line: &mut Vec<u8>) -> Option<()> {
    for _ in 0..u64::MAX {
        match byte(stream)? {
            b'\r' => {}
            b'\n' => break,
            byte => line.push(byte).ok()?,
        }
    }
    Some(())
}

/// The next line, without its end.
pub(crate) fn reads_line(alloc: Global, stream: &TcpStream) -> Option<Vec<u8>> {
    let mut line = Vec::new(alloc);
    read_line(stream, &mut line)?;
    Some(line)
}

/// The number that comes next as a bulk string. The null bulk string is read as 0.
pub(crate) fn number(alloc: Global, stream: &TcpStream) -> Option<u64> {
    let mut text = Vec::new(alloc);
    read_line(stream, &mut text)?;
    if text.as_slice() == b"$-1".as_slice() {
        return Some(0);
    }
    text.clear();
    read_line(stream, &mut text)?;
    let told = str::from_utf8(text.as_slice()).ok()?.parse().ok();
    drop(text);
    told
}

/// The number that comes next as an integer.
pub(crate) fn integer(alloc: Global, stream: &TcpStream) -> Option<u64> {
    let mut text = Vec::new(alloc);
    read_line(stream, &mut text)?;
    let digits = text.as_slice().strip_prefix(b":".as_slice())?;
    let told = str::from_utf8(digits).ok()?.parse().ok();
    drop(text);
    told
}

/// Spells a request.
fn spell(spelled: &mut Vec<u8>, words: &[&str]) -> io::Result<()> {
    write!(spelled, "*{}\r\n", words.len())?;
    for word in words {
        write!(spelled, "${}\r\n{word}\r\n", word.len())?;
    }
    Ok(())
}

/// Whether a request of these words gets exactly this reply.
pub(crate) fn answers_words(
    alloc: Global,
    stream: &TcpStream,
    words: &[&str],
    reply: &[u8],
) -> bool {
    let mut spelled = Vec::new(alloc);
    let told = spell(&mut spelled, words).is_ok() && answers(stream, spelled.as_slice(), reply);
    drop(spelled);
    told
}

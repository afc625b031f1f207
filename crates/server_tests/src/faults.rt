//! Faults of the device that the threads of the background meet, over a socket: no client is told, and the threads go on.

ghost use Rattle.epoch.specs.Seats.{drained_epoch, drained_of, retired_epoch, retired_of, retired_value};
ghost use Rattle.std.specs.Prelude.{◌≡◌, ◌≢◌, ◌+◌, IfOk, vec_len};
ghost use Rattle.engine.specs.declared.TheConstants.{BACKGROUND_PASSES};

use crate::client::{connect, with_openings};
use crate::overwriting::overwrites_often;
use crate::pages::{FIRST, has_thirty, options, sets_thirty};
use device::{Device, DeviceFault, Faulty, MemoryDevice};
use epoch::{Drained, Retired};
use options::Options;
use records::Page;
use server::opening_count;
use std::alloc::{AllocError, Global};
use std::net::{Net, TcpListener, TcpStream};
use std::process::Abort;
use std::rt::Clock;
use std::sync::Wait;
use std::sync::atomic::{AtomicU64, Ordering};
use std::thread::{Threads, sleep};
use std::time::Duration;
use words::limits::PLACES_DEFAULT;

/// How often a client waits for a millisecond at most.
const TURNS: u32 = 10_000;

/// How many calls of each opening of the background fail: its first ones. After each fault the cleaner waits twice as long as
/// before, so these are few.
const FAILING: u64 = 3;

/// What some openings came to.
#[derive(Drop)]
struct Tally {
    /// The calls that failed.
    failed: AtomicU64,
    /// The pages that were written.
    written: AtomicU64,
    /// The receipts that were taken back.
    released: AtomicU64,
}

impl Tally {
    /// Nothing yet.
    fn new() -> Tally {
        Tally {
            failed: AtomicU64::new(0),
            written: AtomicU64::new(0),
            released: AtomicU64::new(0),
        }
    }

    /// A page was written, or the write failed.
    fn note_write(&self, is_done: bool) {
        if is_done {
            self.written.fetch_add(1, Ordering::SeqCst);
        } else {
            self.failed.fetch_add(1, Ordering::SeqCst);
        }
    }

    /// A page was read, or the read failed.
    fn note_read(&self, is_done: bool) {
        if !is_done {
            self.failed.fetch_add(1, Ordering::SeqCst);
        }
    }

    /// A receipt was taken back.
    fn note_release(&self) {
        self.released.fetch_add(1, Ordering::SeqCst);
    }

    /// Whether the flusher and the cleaner failed so often as they do, and a place was given back. False after all turns.
    fn comes_to_release(&self, clock: &impl Clock) -> bool {
        for _ in 0..TURNS {
            if self.failed.load(Ordering::SeqCst) == 2 * FAILING
                && self.released.load(Ordering::SeqCst) > 0
            {
                return true;
            }
            sleep(clock, Duration::from_millis(1));
        }
        false
    }

    /// Whether pages were written after the calls that fail. False after all turns.
    fn comes_to_write(&self, clock: &impl Clock) -> bool {
        for _ in 0..TURNS {
            if self.written.load(Ordering::SeqCst) > 0 {
                return true;
            }
            sleep(clock, Duration::from_millis(1));
        }
        false
    }
}

/// One opening of another device, which tells what its calls came to. What the other device promises, it promises too.
#[derive(Drop)]
struct Tallied<'a, D: Drop> {
    device: D,
    tally: &'a Tally,
}

impl<'a, D: Device> Device for Tallied<'a, D> {
    type Receipt = D::Receipt;

    ghost failures = { λ t. D.failures t.device };

    ghost writes = { λ t. D.writes t.device };

    ghost reads = { λ t. D.reads t.device };

    ghost releases = { λ t. D.releases t.device };

    ghost wrote = { λ before page r after. D.wrote before.device page r after.device };

    ghost serves = { λ t r. D.serves t.device r };

    ghost copies = { λ t r s same served. D.copies t.device r s same served };

    ghost steady = { λ s t r. D.steady s t.device r };

    fn write(&mut self, page: &Page) -> Result<D::Receipt, DeviceFault> {
        let written = self.device.write(page);
        self.tally.note_write(written.is_ok());
        written
    }

    fn read(&mut self, receipt: &D::Receipt, page: &mut Page) -> Result<(), DeviceFault> {
        let read = self.device.read(receipt, page);
        self.tally.note_read(read.is_ok());
        read
    }

    fn release(&mut self, retired: Retired<D::Receipt>, drained: &Drained)
        requires own_epoch { retired_epoch retired ≡ drained_epoch drained.now }
        requires own_epochs { retired_of retired ≡ drained_of drained.now }
        ensures still_served { (r : D.Receipt) → D.Receipt.identity r ≢ D.Receipt.identity (retired_value retired)
            → D.serves self.old.device r → D.serves self.new.device r }

        ensures no_failure { D.failures self.new.device ≡ D.failures self.old.device }
        ensures no_write { D.writes self.new.device ≡ D.writes self.old.device }
        ensures no_read { D.reads self.new.device ≡ D.reads self.old.device }
        ensures counted { D.releases self.new.device ≡ D.releases self.old.device + 1 }
    {
        self.tally.note_release();
        self.device.release(retired, drained);
    }
}

/// An opening of these tests.
type Opening<'a> = Tallied<'a, Faulty<MemoryDevice>>;

/// The numbers of the first calls.
fn first_calls(alloc: Global, count: u64) -> Result<Vec<u64>, AllocError> {
    let mut calls = Vec::new(alloc);
    for call in 0..count {
        calls.push(call)?;
    }
    Ok(calls)
}

/// The openings of a server with these options over a device in memory whose receipts lend no page. The first calls of those
/// of the background fail, and these tell what they come to; the workers' tell it elsewhere.
fn openings<'a>(
    alloc: Global,
    options: &Options,
    of_workers: &'a Tally,
    of_background: &'a Tally,
) -> Result<Vec<Opening<'a>>, AllocError>
    ensures { IfOk result (λ openings. vec_len openings ≡ options.now.workers + BACKGROUND_PASSES) }
{
    let mut below = MemoryDevice::openings(alloc, opening_count(options))?;
    let mut openings = Vec::new(alloc);
    while let Some(device) = below.pop() {
        let is_worker = openings.len() < options.workers;
        let (tally, count) = if is_worker {
            (of_workers, 0)
        } else {
            (of_background, FAILING)
        };
        let device = Faulty::new(device, first_calls(alloc, count)?);
        openings.push(Tallied { device, tally })?;
    }
    Ok(openings)
}

/// What came of a server with places for so many pages and a worker for each of so many clients, who talk while the first
/// calls of its background fail.
fn is_well_beside<R, F: FnOnce(&R, u16) -> Option<bool>>(
    rt: &R,
    places: usize,
    clients: u32,
    of_background: &Tally,
    talk: F,
) -> bool
where
    R: Abort
        + AllocGlobal
        + Clock
        + Net<Listener = TcpListener, Stream = TcpStream>
        + Threads
        + Wait
        + Sync,
    requires { F.IsAlwaysCallable talk }
{
    let of_workers = Tally::new();
    let options = options(places, clients as usize, clients).expect(rt, "options");
    let openings = openings(rt.alloc(), &options, &of_workers, of_background).expect(
        rt,
        "memory for a device",
    );
    let outcome = with_openings(rt, &options, openings, talk);
    let told = outcome.is_well(clients as usize) && of_workers.failed.load(Ordering::SeqCst) == 0;
    drop(outcome);
    told
}

/// Whether so many pieces of thirty keys are stored, and each has its value then.
fn stores_and_has(alloc: Global, stream: &TcpStream, pieces: u32) -> Option<bool> {
    for piece in 0..pieces {
        if !sets_thirty(
            alloc,
            stream,
            FIRST.saturating_add(piece.saturating_mul(30)),
        )? {
            return Some(false);
        }
    }
    for piece in 0..pieces {
        if !has_thirty(
            alloc,
            stream,
            FIRST.saturating_add(piece.saturating_mul(30)),
        )? {
            return Some(false);
        }
    }
    Some(true)
}

/// Whether 630 keys are stored, the flusher comes to write their pages after it failed, and keys of 40 pages are stored and
/// read then.
fn stores_beside_faults<R>(rt: &R, port: u16, tally: &Tally) -> Option<bool>
where
    R: AllocGlobal + Clock + Net<Stream = TcpStream>,
{
    let stream = connect(rt, port)?;
    let stores = stores_and_has(rt.alloc(), &stream, 21)?;
    let comes = tally.comes_to_write(rt);
    let told = stores && comes && stores_and_has(rt.alloc(), &stream, 84)?;
    drop(stream);
    Some(told)
}

/// 630 keys fill 10 pages, of which 6 wait for the flusher. It fails three times, and then it writes them.
#[test]
fn a_fault_of_the_flusher_is_told_to_nobody(rt: HostRuntime) {
    let tally = Tally::new();
    let is_well = is_well_beside(
        &rt,
        PLACES_DEFAULT,
        1,
        &tally,
        |rt, port| stores_beside_faults(rt, port, &tally),
    );
    assert!(rt; is_well);
    assert!(rt; tally.failed.load(Ordering::SeqCst) >= FAILING);
}

/// How often the keys of 20 pages are written. That takes twice as many pages as there are places.
const ROUNDS: u32 = 7;

/// Whether the store is overwritten, and the cleaner comes to give places back after the faults, while a client stays.
fn overwrites_beside_faults<R>(rt: &R, port: u16, tally: &Tally) -> Option<bool>
where
    R: AllocGlobal + Clock + Net<Stream = TcpStream> + Wait,
{
    let stream = connect(rt, port)?;
    let overwrites = overwrites_often(rt, port, ROUNDS)?;
    let comes = tally.comes_to_release(rt);
    let told = overwrites && comes && has_thirty(rt.alloc(), &stream, FIRST)?;
    drop(stream);
    Some(told)
}

/// The flusher and the cleaner fail three times each, and then the cleaner gives places back: the store is overwritten with
/// twice as many pages as there are places.
#[test]
fn a_fault_of_the_cleaner_is_told_to_nobody(rt: HostRuntime) {
    let tally = Tally::new();
    let is_well = is_well_beside(
        &rt,
        64,
        2,
        &tally,
        |rt, port| overwrites_beside_faults(rt, port, &tally),
    );
    assert!(rt; is_well);
    assert!(rt; tally.failed.load(Ordering::SeqCst) == 2 * FAILING);
    assert!(rt; tally.released.load(Ordering::SeqCst) > 0);
}

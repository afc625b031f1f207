//! A read of the device that takes long: other clients are answered meanwhile.

ghost use Rattle.epoch.specs.Seats.{drained_epoch, drained_of, retired_epoch, retired_of, retired_value};
ghost use Rattle.std.specs.Prelude.{◌≡◌, ◌≢◌, ◌+◌, IfOk, vec_len};
ghost use Rattle.engine.specs.declared.TheConstants.{BACKGROUND_PASSES};

use crate::client::{PING, PONG, answers, connect, with_openings};
use crate::pages::{FIRST, asks, has, has_value, sets_thirty};
use device::{Device, DeviceFault, Faulty, MemoryDevice};
use epoch::{Drained, Retired};
use options::{DeviceKind, Options};
use records::Page;
use server::opening_count;
use std::alloc::{AllocError, Global};
use std::net::{Net, TcpStream};
use std::rt::Clock;
use std::sync::atomic::{AtomicBool, Ordering};
use std::thread::sleep;
use std::time::Duration;
use words::limits::{BUCKETS_DEFAULT, FRAMES_MIN, PLACES_DEFAULT};

/// How often a thread waits for a millisecond at most.
const TURNS: u32 = 10_000;

/// What a read that waits and a client tell one another.
#[derive(Drop)]
struct Signal {
    /// The next read is to wait.
    is_due: AtomicBool,
    /// A read waits, or has waited.
    came: AtomicBool,
    /// It may go on.
    may_go: AtomicBool,
    /// It went on after all turns.
    late: AtomicBool,
}

/// Whether this comes to be so. False after all turns.
fn comes(clock: &impl Clock, told: &AtomicBool) -> bool {
    for _ in 0..TURNS {
        if told.load(Ordering::SeqCst) {
            return true;
        }
        sleep(clock, Duration::from_millis(1));
    }
    false
}

impl Signal {
    /// Nothing was told yet.
    fn new() -> Signal {
        Signal {
            is_due: AtomicBool::new(false),
            came: AtomicBool::new(false),
            may_go: AtomicBool::new(false),
            late: AtomicBool::new(false),
        }
    }

    /// Tells that a read came, and waits until it may go on, if it is to.
    fn hold_up(&self, clock: &impl Clock) {
        if self.is_due.swap(false, Ordering::SeqCst) {
            self.came.store(true, Ordering::SeqCst);
            let in_time = comes(clock, &self.may_go);
            self.late.store(!in_time, Ordering::SeqCst);
        }
    }
}

/// One opening of another device, which it asks at each call. Before a read it waits, if one is to. What the other device
/// promises, it promises too.
#[derive(Drop)]
struct Waiting<'a, R, D: Drop> {
    clock: &'a R,
    signal: &'a Signal,
    device: D,
}

impl<'a, R: Clock, D: Device> Device for Waiting<'a, R, D> {
    type Receipt = D::Receipt;

    ghost failures = { λ w. D.failures w.device };

    ghost writes = { λ w. D.writes w.device };

    ghost reads = { λ w. D.reads w.device };

    ghost releases = { λ w. D.releases w.device };

    ghost wrote = { λ before page r after. D.wrote before.device page r after.device };

    ghost serves = { λ w r. D.serves w.device r };

    ghost copies = { λ w r s same served. D.copies w.device r s same served };

    ghost steady = { λ s w r. D.steady s w.device r };

    fn write(&mut self, page: &Page) -> Result<D::Receipt, DeviceFault> {
        self.device.write(page)
    }

    fn read(&mut self, receipt: &D::Receipt, page: &mut Page) -> Result<(), DeviceFault> {
        self.signal.hold_up(self.clock);
        self.device.read(receipt, page)
    }

    fn release(&mut self, retired: Retired<D::Receipt>, drained: &Drained)
        requires own_epoch { retired_epoch retired ≡ drained_epoch drained.now }
        requires own_epochs { retired_of retired ≡ drained_of drained.now }
        ensures still_served { (r : D.Receipt) → D.Receipt.identity r ≢ D.Receipt.identity (retired_value retired)
            → D.serves self.old.device r → D.serves self.new.device r }

        ensures no_failure { D.failures self.new.device ≡ D.failures self.old.device }
        ensures no_write { D.writes self.new.device ≡ D.writes self.old.device }
        ensures no_read { D.reads self.new.device ≡ D.reads self.old.device }
        ensures counted { D.releases self.new.device ≡ D.releases self.old.device + 1 }
    {
        self.device.release(retired, drained);
    }
}

/// An opening of this test. Its receipts lend no page.
type Opening<'a, R> = Waiting<'a, R, Faulty<MemoryDevice>>;

/// The openings of a server with these options over a device in memory. A read of a worker may wait for one signal, one of the
/// background for the other.
fn openings<'a, R: Clock + AllocGlobal>(
    rt: &'a R,
    options: &Options,
    of_workers: &'a Signal,
    of_background: &'a Signal,
) -> Result<Vec<Opening<'a, R>>, AllocError>
    ensures { IfOk result (λ openings. vec_len openings ≡ options.now.workers + BACKGROUND_PASSES) }
{
    let alloc = rt.alloc();
    let mut below = MemoryDevice::openings(alloc, opening_count(options))?;
    let mut openings = Vec::new(alloc);
    while let Some(device) = below.pop() {
        let is_worker = openings.len() < options.workers;
        openings.push(Waiting {
            clock: rt,
            signal: if is_worker { of_workers } else { of_background },
            device: Faulty::new(device, Vec::new(alloc)),
        })?;
    }
    Ok(openings)
}

/// How many pieces of thirty keys are stored. A stripe has 20 pages of them, and 12 frames.
const PIECES: u32 = 84;

/// The key that is stored last. Its page has a frame, and it is of the other stripe than the first.
const LAST: u32 = FIRST + PIECES * 30 - 1;

/// Whether all keys are stored.
fn stores(alloc: Global, stream: &TcpStream) -> Option<bool> {
    for piece in 0..PIECES {
        if !sets_thirty(alloc, stream, FIRST + piece * 30)? {
            return Some(false);
        }
    }
    Some(true)
}

/// Whether a client is answered while the read of another one's GET waits.
fn is_answered_beside<R>(rt: &R, port: u16, signal: &Signal) -> Option<bool>
where
    R: AllocGlobal + Clock + Net<Stream = TcpStream>,
{
    let alloc = rt.alloc();
    let (first, second) = (connect(rt, port)?, connect(rt, port)?);
    let told = stores(alloc, &first)?;
    signal.is_due.store(true, Ordering::SeqCst);
    let told = asks(alloc, &first, FIRST)? && comes(rt, &signal.came) && told;
    let beside = has(alloc, &second, LAST)? && answers(&second, PING, PONG);
    signal.may_go.store(true, Ordering::SeqCst);
    Some(told && beside && has_value(alloc, &first, FIRST)?)
}

/// The options of a server with two stripes of 12 frames each, for two connections.
fn two_stripes() -> Option<Options> {
    Options::new(
        0,
        2,
        2,
        BUCKETS_DEFAULT,
        FRAMES_MIN,
        PLACES_DEFAULT,
        2,
        DeviceKind::Memory,
    )
}

/// A call that reads the device holds up no call of another stripe. (No clause says so: it is one call that waits.)
#[test]
fn a_client_is_answered_while_the_read_of_another_waits(rt: HostRuntime) {
    let (signal, never) = (Signal::new(), Signal::new());
    let options = two_stripes().expect(&rt, "options");
    let openings = openings(&rt, &options, &signal, &never).expect(&rt, "memory for a device");
    let outcome = with_openings(
        &rt,
        &options,
        openings,
        |rt, port| is_answered_beside(rt, port, &signal),
    );
    assert!(rt; outcome.is_well(2));
    assert!(rt; !signal.late.load(Ordering::SeqCst));
    drop(outcome);
}

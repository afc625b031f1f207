//! A device whose reads wait until another thread has done its part.

ghost use Rattle.epoch.specs.Seats.{drained_epoch, drained_of, retired_epoch, retired_of, retired_value};
ghost use Rattle.std.specs.Prelude.{◌≡◌, ◌≢◌, ◌+◌};

use device::{Device, DeviceFault};
use epoch::{Drained, Retired};
use records::Page;
use std::sync::Arc;
use std::sync::atomic::{AtomicBool, AtomicU64, Ordering};
use std::thread::yield_now;

/// How often a thread gives way to the other one at most. 10,000,000 times are too few: where each has a processor they are
/// over in some seconds, and the other one may need more, where it is built without optimization or others compute too.
const TURNS: u64 = 100_000_000;

/// What a read that waits and another thread tell one another, and what the openings count.
#[derive(Drop)]
pub(crate) struct Signal {
    /// How many reads wait, or have waited.
    came: AtomicU64,
    /// How many of them may go on.
    may_go: AtomicU64,
    /// One went on after all turns.
    late: AtomicBool,
    /// How many receipts were taken back.
    releases: AtomicU64,
}

impl Signal {
    /// Nothing was told yet.
    pub(crate) fn new() -> Signal {
        Signal {
            came: AtomicU64::new(0),
            may_go: AtomicU64::new(0),
            late: AtomicBool::new(false),
            releases: AtomicU64::new(0),
        }
    }

    /// Waits until so many reads wait, or have waited. False after all turns.
    pub(crate) fn meets_reads(&self, count: u64) -> bool {
        has_come_to(&self.came, count)
    }

    /// Lets the first reads go on, so many.
    pub(crate) fn let_go_first(&self, count: u64) {
        self.may_go.store(count, Ordering::SeqCst);
    }

    /// Lets all reads go on.
    pub(crate) fn let_go(&self) {
        self.let_go_first(u64::MAX);
    }

    /// Whether each read went on only once it might.
    pub(crate) fn is_in_time(&self) -> bool {
        !self.late.load(Ordering::SeqCst)
    }

    /// How many receipts were taken back.
    pub(crate) fn releases(&self) -> u64 {
        self.releases.load(Ordering::SeqCst)
    }

    /// Tells that a read came, and waits until it may go on.
    fn hold_up(&self) {
        let earlier = self.came.fetch_add(1, Ordering::SeqCst);
        if !has_come_to(&self.may_go, earlier.saturating_add(1)) {
            self.late.store(true, Ordering::SeqCst);
        }
    }
}

/// Waits until a count is so much at least. False after all turns.
fn has_come_to(told: &AtomicU64, count: u64) -> bool {
    for _ in 0..TURNS {
        if told.load(Ordering::SeqCst) >= count {
            return true;
        }
        yield_now();
    }
    false
}

/// One opening of another device, which it asks at each call. Before a read it waits, if it is to: it tells that it came,
/// and goes on once it may. What the other device promises, it promises too.
#[derive(Drop)]
pub(crate) struct Waiting<D: Drop> {
    pub(crate) device: D,
    /// Whether a read waits.
    pub(crate) waits: bool,
    /// What all openings share.
    pub(crate) signal: Arc<Signal>,
}

impl<D: Device> Device for Waiting<D> {
    type Receipt = D::Receipt;

    ghost failures = { λ w. D.failures w.device };

    ghost writes = { λ w. D.writes w.device };

    ghost reads = { λ w. D.reads w.device };

    ghost releases = { λ w. D.releases w.device };

    ghost wrote = { λ before page r after. D.wrote before.device page r after.device };

    ghost serves = { λ w r. D.serves w.device r };

    ghost copies = { λ w r s same served. D.copies w.device r s same served };

    ghost steady = { λ s w r. D.steady s w.device r };

    fn write(&mut self, page: &Page) -> Result<D::Receipt, DeviceFault> {
        self.device.write(page)
    }

    fn read(&mut self, receipt: &D::Receipt, page: &mut Page) -> Result<(), DeviceFault> {
        if self.waits {
            self.signal.hold_up();
        }
        self.device.read(receipt, page)
    }

    fn release(&mut self, retired: Retired<D::Receipt>, drained: &Drained)
        requires own_epoch { retired_epoch retired ≡ drained_epoch drained.now }
        requires own_epochs { retired_of retired ≡ drained_of drained.now }
        ensures still_served { (r : D.Receipt) → D.Receipt.identity r ≢ D.Receipt.identity (retired_value retired)
            → D.serves self.old.device r → D.serves self.new.device r }

        ensures no_failure { D.failures self.new.device ≡ D.failures self.old.device }
        ensures no_write { D.writes self.new.device ≡ D.writes self.old.device }
        ensures no_read { D.reads self.new.device ≡ D.reads self.old.device }
        ensures counted { D.releases self.new.device ≡ D.releases self.old.device + 1 }
    {
        self.signal.releases.fetch_add(1, Ordering::SeqCst);
        self.device.release(retired, drained);
    }
}

//! The world's device: pages in memory, place by place. A place that was released shows whatever page it is
//! given.

ghost use Rattle.std.specs.Prelude.{◌≡◌, ◌+◌, ◌<◌, [], ℕ, IfOk, IsFalse, IsNone, IsOk, OnOk, OnErr, length, false};
ghost use Rattle.std.specs.Arc.{arc_value};
ghost use Rattle.world_log.specs.Places.{with_shelf, with_shown};

use device::{CallCount, Device, DeviceFault, Shows};
use epoch::{Drained, Retired};
use records::Page;
use std::alloc::{AllocError, Global};
use std::marker::Model;
use std::sync::Arc;

/// A receipt: the place on the device, and the page that was written there, which it shares with the device.
/// A read looks at the place alone, so the receipt lends no page.
#[derive(Drop)]
pub struct WorldReceipt {
    pub(crate) place: u64,
    page: Arc<Page>,
}

// To a contract a receipt also says that its place was not released.
impl Model for WorldReceipt {
    ghost use Rattle.std.specs.Prelude.{false};
    ghost use Rattle.std.specs.Arc.{arc_value};
    ghost use Rattle.world_log.specs.Places.{Receipt};

    ghost Value = { Receipt };

    ghost view = { λ r. record { place = r.place; page = arc_value r.page; released = false } };
}

impl Shows for WorldReceipt {
    ghost use Rattle.world_log.specs.Places.{identity};
    ghost use Rattle.world_log.specs.PlaceLaws.{same_page};

    ghost shown = { λ r. r.page };

    ghost identity = { identity };

    ghost is_honest = { Unit {0} };

    ghost is_steady = { ⊥ };

    ghost lends = { ⊥ };

    ghost one_page = { same_page };

    ghost steady_is_honest = { λ s. absurd s };

    fn again(&self) -> Result<WorldReceipt, AllocError> {
        Ok(WorldReceipt {
            place: self.place,
            page: Arc::try_clone(&self.page)?,
        })
    }

    fn same(&self, other: &WorldReceipt) -> bool {
        self.place == other.place && *self.page == *other.page
    }

    fn hold_pages() -> bool
        ensures { IsFalse result }
    {
        false
    }

    /// Always none.
    fn page(&self) -> Option<&Page>
        ensures { IsNone result }
    {
        None
    }
}

impl WorldReceipt {
    /// The place, by its number among all that were ever taken.
    pub fn place(&self) -> u64
        ensures place { result ≡ self.now.place }
        ensures given { self.now.released ≡ false }
    {
        self.place
    }
}

/// A place: the page that a read gives, and whether it was released.
#[derive(Drop)]
struct Shelf {
    page: Arc<Page>,
    released: bool,
}

/// The world's device. A write fails for want of memory alone, and takes 65,536 bytes for its page; a read
/// never fails. It is honest, and not steady.
#[derive(Drop)]
pub struct WorldDevice {
    alloc: Global,
    shelves: Vec<Shelf>,
    failures: CallCount,
    reads: CallCount,
    releases: CallCount,
}

impl Model for WorldDevice {
    ghost use Rattle.std.specs.Prelude.{map};
    ghost use Rattle.std.specs.Arc.{arc_value};
    ghost use Rattle.world_log.specs.Places.{Shelves};

    ghost Value = { Shelves };

    ghost view = { λ d. record { shelves = map (λ s. record { page = arc_value s.page; released = s.released }) d.shelves.items; failures = d.failures; reads = d.reads; releases = d.releases } };
}

impl WorldDevice {
    /// A device to which nothing was written.
    pub fn new(alloc: Global) -> WorldDevice
        ensures { result ≡ record { shelves = []; failures = 0; reads = 0; releases = 0 } }
    {
        WorldDevice {
            alloc,
            shelves: Vec::new(alloc),
            failures: CallCount::new(),
            reads: CallCount::new(),
            releases: CallCount::new(),
        }
    }

    /// A place is released: from now on a read of it gives this page.
    pub fn show(&mut self, place: usize, page: Arc<Page>)
        requires { place < length self.old.shelves }
        ensures { self.new ≡ with_shown self.old place (arc_value page) }
    {
        self.shelves[place] = Shelf {
            page,
            released: true,
        };
    }

    /// Puts a page at the next place.
    pub(crate) fn put(&mut self, page: &Page) -> Result<WorldReceipt, AllocError>
        ensures receipt { IfOk result (λ r. r ≡ record { place = length self.old.shelves; page = page.now; released = false }) }
        ensures put { OnOk result (self.new ≡ with_shelf self.old page.now) }
        ensures unchanged { OnErr result (self.new ≡ self.old) }
    {
        let copy = page.try_clone(self.alloc)?;
        let shared = Arc::new(self.alloc, copy)?;
        let own = Arc::try_clone(&shared)?;
        let place = self.shelves.len() as u64;
        self.shelves.reserve(1)?;
        self.shelves.push_reserved(Shelf {
            page: shared,
            released: false,
        });
        Ok(WorldReceipt { place, page: own })
    }
}

impl Device for WorldDevice {
    ghost use Rattle.epoch.specs.Seats.{drained_epoch, drained_of, retired_epoch, retired_of};
    ghost use Rattle.world_log.specs.Places.{Serves, Wrote, after_read, after_release, page_read, writes_of};
    ghost use Rattle.world_log.specs.PlaceLaws.{served_copy};

    type Receipt = WorldReceipt;

    ghost failures = { λ d. d.failures };

    ghost writes = { writes_of };

    ghost reads = { λ d. d.reads };

    ghost releases = { λ d. d.releases };

    ghost wrote = { Wrote };

    ghost serves = { Serves };

    ghost copies = { served_copy };

    ghost steady = { λ s d r. absurd s };

    fn write(&mut self, page: &Page) -> Result<WorldReceipt, DeviceFault> {
        match self.put(page) {
            Ok(receipt) => Ok(receipt),
            Err(_) => {
                self.failures.note();
                Err(DeviceFault)
            }
        }
    }

    /// Never fails. The page is that of the place, whatever the receipt shows.
    fn read(&mut self, receipt: &WorldReceipt, page: &mut Page) -> Result<(), DeviceFault>
        ensures succeeds { IsOk result }
        ensures exact { page.new ≡ page_read self.old receipt.now.place }
        ensures counted { self.new ≡ after_read self.old }
    {
        self.reads.note();
        match self.shelves.get(receipt.place as usize) {
            Some(shelf) => page.copy_from(&shelf.page),
            None => page.reset(0),
        }
        Ok(())
    }

    /// A read of the place still gives the page that was written: the world releases by `show`.
    fn release(&mut self, retired: Retired<WorldReceipt>, drained: &Drained)
        requires own_epoch { retired_epoch retired ≡ drained_epoch drained.now }
        requires own_epochs { retired_of retired ≡ drained_of drained.now }
        ensures counted { self.new ≡ after_release self.old }
    {
        self.releases.note();
        drop(retired.into_value(drained));
    }
}

#![tactic(auto)]
//! Devices: where the pages of a log go when they leave their frames.
//!
//! A page is written once, and read by the receipt that the write gave, as on the devices below the
//! hybrid log of FASTER (SIGMOD 2018). Each thread owns one opening of a device, and a receipt may be
//! read through any opening of the device that gave it.
//!
//! A receipt shows the page that was written for it, whatever becomes of the device. Whether a read
//! gives that page is the device's promise: an honest device serves a receipt, so that reads give its
//! page, from its write until it is released, and a steady one serves it for good. A device may also
//! promise neither, as one over a file does, and is then proved safe alone. Which of these it promises is
//! a property of its receipts, so that who keeps receipts knows it without the device.
//!
//! A receipt may hold its page, and then lends it without a read. That is a property of its type too.
//!
//! A receipt is released once nobody can still read by it: it is retired at an epoch, and comes back to
//! the device with that epoch drained by the epochs that retired it, as the crate `epoch` has it.
//!
//! `Device` and `Shows` state this. `MemoryDevice` is steady. `FileDevice` keeps pages in a file.
//! `Faulty` fails calls of another device on demand, and promises what that device promises.

ghost use Rattle.std.specs.Prelude.{◌≡◌, ◌≢◌, ◌≤◌, ◌↔◌, ℕ, ◌+◌, List, Some, codes, IsTrue, IsSome, IfOk, IfSome, OnOk, OnErr};
ghost use Rattle.records.specs.Page.{SameWithin};

use epoch::{Drained, Retired};
use records::{PAGE_SIZE, Page};
use std::alloc::AllocError;
use std::error::Error;
use std::fmt;

mod copies;
mod counts;
mod faulty;
mod file;
mod memory;
mod places;
mod releasable;
mod system;

pub use counts::CallCount;
pub use faulty::{Faulty, FaultyReceipt};
pub use file::{FileDevice, FileReceipt, OpenFault};
pub use memory::{MemoryDevice, MemoryReceipt};
pub use places::{MAX_PLACES, PlaceNote};
pub use releasable::Releasable;

/// A call of a device failed, and the opening has counted it.
#[derive(Clone, Copy, Debug, PartialEq, Eq)]
pub struct DeviceFault;

impl fmt::Display for DeviceFault {
    ghost output = { λ _. Some (codes "device fault") };

    fn fmt<W: fmt::Write>(&self, f: &mut fmt::Formatter<W>) -> fmt::Result {
        write!(f, "device fault")
    }
}

impl Error for DeviceFault {}

/// A receipt: what a device gives for a page that was written to it. It shows that page.
pub trait Shows: Drop {
    // The page shown: the bytes of the page that was written.
    ghost shown: { Self → List ℕ };

    // What a receipt has in common with its copies.
    ghost identity: { Self → List ℕ };

    // The receipts are those of an honest device.
    ghost is_honest: { Type 0 };

    // The receipts are those of a steady device.
    ghost is_steady: { Type 0 };

    // The receipts hold their pages.
    ghost lends: { Type 0 };

    /// A copy: it shows the same page, and has the same identity. `Err` only out of memory.
    fn again(&self) -> Result<Self, AllocError>
        ensures shown { IfOk result (λ r. shown r ≡ shown self.now) }
        ensures identity { IfOk result (λ r. identity r ≡ identity self.now) };

    /// Whether this is the same receipt as `other`: true of a receipt and its copies, and at an
    /// honest device of no receipts but those with one identity, which show one page. Takes no
    /// memory.
    fn same(&self, other: &Self) -> bool
        ensures copies { identity self.now ≡ identity other.now → IsTrue result }
        ensures only_copies { is_honest → IsTrue result → identity self.now ≡ identity other.now };

    /// Whether receipts of this type hold their pages.
    fn hold_pages() -> bool
        ensures { IsTrue result ↔ lends };

    /// The page shown, where the receipt holds it: either all receipts of a type do, or none does. A
    /// device's read gives no other one.
    fn page(&self) -> Option<&Page>
        ensures page { IfSome result (λ page. page.now ≡ shown self.now) }
        ensures lent { lends → IsSome result }
        ensures only_lent { IsSome result → lends };

    // Receipts with one identity show one page.
    ghost one_page: { (r s : Self) → identity r ≡ identity s → shown r ≡ shown s };

    // A steady device is honest.
    ghost steady_is_honest: { is_steady → is_honest };
}

/// One opening of a device.
///
/// It counts the calls that failed: a call answers `DeviceFault` exactly where the count grows by one
/// in it, and else the count stays. It counts its writes, reads and releases too, whatever they answer,
/// so that a caller can say how often it asked the device.
pub trait Device: Drop {
    ghost use Rattle.epoch.specs.Seats.{drained_epoch, drained_of, retired_epoch, retired_of, retired_value};

    /// What `write` gives.
    type Receipt: Shows;

    // How many calls of this opening have failed.
    ghost failures: { Self → ℕ };

    // How often this opening was asked to write.
    ghost writes: { Self → ℕ };

    // How often this opening was asked to read.
    ghost reads: { Self → ℕ };

    // How many receipts this opening has taken back.
    ghost releases: { Self → ℕ };

    // What a write may do: the device before it, the page, the receipt that it gave, and the device after
    // it. A device whose places are known says more here than every device has to.
    ghost wrote: { Self → List ℕ → Self.Receipt → Self → Type 0 };

    // The device, as it is, gives for this receipt the page that it shows.
    ghost serves: { Self → Self.Receipt → Type 0 };

    /// Writes a page, and gives a receipt that shows it. An honest device then serves the receipt, which is
    /// a new one: it was not served before, but at a steady device. So no receipt that is served has its
    /// identity, and none is lost with it when it is released.
    fn write(&mut self, page: &Page) -> Result<Self::Receipt, DeviceFault>
        ensures shown { IfOk result (λ r. Self.Receipt.shown r ≡ page.now) }
        ensures wrote { IfOk result (λ r. wrote self.old page.now r self.new) }
        ensures fresh { IfOk result (λ r. serves self.old r → Self.Receipt.is_steady) }
        ensures served { Self.Receipt.is_honest → IfOk result (λ r. serves self.new r) }
        ensures still_served { (r : Self.Receipt) → serves self.old r → serves self.new r }

        ensures failure { OnErr result (failures self.new ≡ failures self.old + 1) }
        ensures no_failure { OnOk result (failures self.new ≡ failures self.old) }
        ensures counted { writes self.new ≡ writes self.old + 1 }
        ensures no_read { reads self.new ≡ reads self.old }
        ensures no_release { releases self.new ≡ releases self.old };

    /// The same as [`write`](Device::write) for a page that its owner gives up. The device may keep its memory, and leave
    /// other memory in its place, so after an `Ok` it may have any bytes. After an `Err` it has those that it had.
    ///
    /// It counts as a write. As it stands here it writes the page; a device that keeps pages in memory has a body of its own.
    fn exchange(&mut self, page: &mut Page) -> Result<Self::Receipt, DeviceFault>
        ensures shown { IfOk result (λ r. Self.Receipt.shown r ≡ page.old) }
        ensures kept { OnErr result (page.new ≡ page.old) }
        ensures wrote { IfOk result (λ r. wrote self.old page.old r self.new) }
        ensures fresh { IfOk result (λ r. serves self.old r → Self.Receipt.is_steady) }
        ensures served { Self.Receipt.is_honest → IfOk result (λ r. serves self.new r) }
        ensures still_served { (r : Self.Receipt) → serves self.old r → serves self.new r }

        ensures failure { OnErr result (failures self.new ≡ failures self.old + 1) }
        ensures no_failure { OnOk result (failures self.new ≡ failures self.old) }
        ensures counted { writes self.new ≡ writes self.old + 1 }
        ensures no_read { reads self.new ≡ reads self.old }
        ensures no_release { releases self.new ≡ releases self.old }
    {
        self.write(page)
    }

    /// Reads the page that a receipt shows into `page`. After an `Err`, and where the device does not
    /// serve the receipt, `page` may have any bytes.
    fn read(&mut self, receipt: &Self::Receipt, page: &mut Page) -> Result<(), DeviceFault>
        ensures page { serves self.old receipt.now → OnOk result (page.new ≡ Self.Receipt.shown receipt.now) }
        ensures still_served { (r : Self.Receipt) → serves self.old r → serves self.new r }

        ensures failure { OnErr result (failures self.new ≡ failures self.old + 1) }
        ensures no_failure { OnOk result (failures self.new ≡ failures self.old) }
        ensures counted { reads self.new ≡ reads self.old + 1 }
        ensures no_write { writes self.new ≡ writes self.old }
        ensures no_release { releases self.new ≡ releases self.old };

    /// Reads the bytes from `from` up to `to` of the page that a receipt shows into the same places of `page`, whose other bytes may
    /// then be any. After an `Err`, and where the device does not serve the receipt, all of its bytes may be any.
    ///
    /// It counts as a read. As it stands here it reads the whole page; a device that can read less has a body of its own.
    fn read_piece(
        &mut self,
        receipt: &Self::Receipt,
        from: usize,
        to: usize,
        page: &mut Page,
    ) -> Result<(), DeviceFault>
        requires in_order { from ≤ to }
        requires in_page { to ≤ PAGE_SIZE }
        ensures page { serves self.old receipt.now → OnOk result (SameWithin from to page.new (Self.Receipt.shown receipt.now)) }
        ensures still_served { (r : Self.Receipt) → serves self.old r → serves self.new r }

        ensures failure { OnErr result (failures self.new ≡ failures self.old + 1) }
        ensures no_failure { OnOk result (failures self.new ≡ failures self.old) }
        ensures counted { reads self.new ≡ reads self.old + 1 }
        ensures no_write { writes self.new ≡ writes self.old }
        ensures no_release { releases self.new ≡ releases self.old }
    {
        self.read(receipt, page)
    }

    /// Takes back a receipt that nobody reads by any more: its own epoch is drained, by the epochs that
    /// retired it. Its place may be used anew, and all receipts but it and its copies stay served.
    fn release(&mut self, retired: Retired<Self::Receipt>, drained: &Drained)
        requires own_epoch { retired_epoch retired ≡ drained_epoch drained.now }
        requires own_epochs { retired_of retired ≡ drained_of drained.now }
        ensures still_served { (r : Self.Receipt) → Self.Receipt.identity r ≢ Self.Receipt.identity (retired_value retired)
            → serves self.old r → serves self.new r }

        ensures no_failure { failures self.new ≡ failures self.old }
        ensures no_write { writes self.new ≡ writes self.old }
        ensures no_read { reads self.new ≡ reads self.old }
        ensures counted { releases self.new ≡ releases self.old + 1 };

    // A copy is served where the receipt is.
    ghost copies: { (d : Self) (r s : Self.Receipt) → Self.Receipt.identity r ≡ Self.Receipt.identity s
        → serves d r → serves d s };

    // A steady device serves each receipt, through each opening.
    ghost steady: { Self.Receipt.is_steady → (d : Self) (r : Self.Receipt) → serves d r };
}

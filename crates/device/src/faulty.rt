// A device that fails on demand.

ghost use Rattle.std.specs.Prelude.{◌≡◌, ◌≢◌, ◌≤◌, ◌+◌, ◌%◌, ◌^◌, ℕ, IsTrue, IsFalse, IsErr, IsNone, IfOk, IfSome, OnOk, OnErr};
ghost use Rattle.records.specs.Page.{SameWithin};

use crate::counts::CallCount;
use crate::{Device, DeviceFault, Shows};
use epoch::{Drained, Retired, Wraps};
use records::{PAGE_SIZE, Page};
use std::alloc::AllocError;
use std::marker::Model;

/// A receipt of the device below. It lends no page, even where that receipt holds one: each page is read
/// from the device, and the read can fail.
#[derive(Drop)]
pub struct FaultyReceipt<R> {
    receipt: R,
}

impl<R> Model for FaultyReceipt<R> {
    ghost Value = { R };

    ghost view = { λ r. r.receipt };
}

impl<R: Shows> Shows for FaultyReceipt<R> {
    ghost shown = { λ r. R.shown r };

    ghost identity = { λ r. R.identity r };

    ghost is_honest = { R.is_honest };

    ghost is_steady = { R.is_steady };

    ghost lends = { ⊥ };

    ghost one_page = { λ r s same. R.one_page r s same };

    ghost steady_is_honest = { λ steady. R.steady_is_honest steady };

    fn again(&self) -> Result<FaultyReceipt<R>, AllocError> {
        Ok(FaultyReceipt {
            receipt: self.receipt.again()?,
        })
    }

    fn same(&self, other: &FaultyReceipt<R>) -> bool {
        self.receipt.same(&other.receipt)
    }

    fn hold_pages() -> bool
        ensures { IsFalse result }
    {
        false
    }

    fn page(&self) -> Option<&Page>
        ensures { IsNone result }
    {
        None
    }
}

impl<R> Wraps for FaultyReceipt<R> {
    type Inner = R;

    ghost inner = { λ r. r };

    fn into_inner(self) -> R {
        let FaultyReceipt { receipt } = self;
        receipt
    }
}

/// One opening of a device over another one, which it does not ask at the calls whose numbers it was
/// given: those fail. Writes and reads, also those of a piece, are the calls, numbered from 0. Each other call asks that device
/// once, and answers what it answers. What the other device promises, it promises too.
#[derive(Drop)]
pub struct Faulty<D: Drop> {
    device: D,
    failing: Vec<u64>,
    calls: u64,
    refused_writes: CallCount,
    refused_reads: CallCount,
}

impl<D: Device> Faulty<D> {
    ghost use Rattle.device.specs.Faults.{device_of, calls_of, failing_of, refused_writes_of, refused_reads_of, fails_next};

    /// An opening that fails the calls with these numbers.
    pub fn new(device: D, failing: Vec<u64>) -> Faulty<D>
        ensures device { device_of result ≡ device }
        ensures failing { failing_of result ≡ failing.items }
        ensures calls { calls_of result ≡ 0 }
        ensures refused_writes { refused_writes_of result ≡ 0 }
        ensures refused_reads { refused_reads_of result ≡ 0 }
    {
        Faulty {
            device,
            failing,
            calls: 0,
            refused_writes: CallCount::new(),
            refused_reads: CallCount::new(),
        }
    }

    /// How many calls there were, after 2^64 of them from 0 again.
    pub fn calls(&self) -> u64
        ensures { result ≡ calls_of self.now }
    {
        self.calls
    }

    // Counts a call, and says whether it is to fail.
    fn next_fails(&mut self) -> bool
        ensures fails { result ≡ fails_next self.old }
        ensures calls { calls_of self.new ≡ (calls_of self.old + 1) % 2 ^ 64 }
        ensures failing { failing_of self.new ≡ failing_of self.old }
        ensures device { device_of self.new ≡ device_of self.old }
        ensures refused_writes { refused_writes_of self.new ≡ refused_writes_of self.old }
        ensures refused_reads { refused_reads_of self.new ≡ refused_reads_of self.old }
    {
        let fails = self.failing.as_slice().contains(&self.calls);
        self.calls = self.calls.wrapping_add(1);
        fails
    }
}

impl<D: Device> Device for Faulty<D> {
    ghost use Rattle.device.specs.Faults.{device_of, calls_of, failing_of, refused_writes_of, refused_reads_of, refused_of, fails_next, all_failures, all_reads, all_writes};
    ghost use Rattle.epoch.specs.Seats.{drained_epoch, drained_of, retired_epoch, retired_of, retired_value};

    type Receipt = FaultyReceipt<D::Receipt>;

    ghost failures = { λ f. D.failures f.device + refused_of f };

    ghost writes = { λ f. D.writes f.device + f.refused_writes };

    ghost reads = { λ f. D.reads f.device + f.refused_reads };

    ghost releases = { λ f. D.releases f.device };

    ghost wrote = { λ before page r after. D.wrote before.device page r after.device };

    ghost serves = { λ f r. D.serves f.device r };

    ghost copies = { λ f r s same served. D.copies f.device r s same served };

    ghost steady = { λ s f r. D.steady s f.device r };

    fn write(&mut self, page: &Page) -> Result<FaultyReceipt<D::Receipt>, DeviceFault>
        ensures shown { IfOk result (λ r. D.Receipt.shown r ≡ page.now) }
        ensures wrote { IfOk result (λ r. D.wrote (device_of self.old) page.now r (device_of self.new)) }
        ensures fresh { IfOk result (λ r. D.serves (device_of self.old) r → D.Receipt.is_steady) }
        ensures served { D.Receipt.is_honest → IfOk result (λ r. D.serves (device_of self.new) r) }
        ensures still_served { (r : D.Receipt) → D.serves (device_of self.old) r → D.serves (device_of self.new) r }
        ensures failure { OnErr result (D.failures (device_of self.new) + refused_of self.new ≡ D.failures (device_of self.old) + refused_of self.old + 1) }
        ensures no_failure { OnOk result (D.failures (device_of self.new) + refused_of self.new ≡ D.failures (device_of self.old) + refused_of self.old) }
        ensures fails { IsTrue (fails_next self.old) → IsErr result }
        ensures not_asked { IsTrue (fails_next self.old) → device_of self.new ≡ device_of self.old }
        ensures asked { IsFalse (fails_next self.old) → OnErr result (D.failures (device_of self.new) ≡ D.failures (device_of self.old) + 1) }
        ensures asked_once { IsFalse (fails_next self.old) → D.writes (device_of self.new) ≡ D.writes (device_of self.old) + 1 }
        ensures calls { calls_of self.new ≡ (calls_of self.old + 1) % 2 ^ 64 }
        ensures failing { failing_of self.new ≡ failing_of self.old }
        ensures counted { D.writes (device_of self.new) + refused_writes_of self.new ≡ D.writes (device_of self.old) + refused_writes_of self.old + 1 }
        ensures no_read { D.reads (device_of self.new) + refused_reads_of self.new ≡ D.reads (device_of self.old) + refused_reads_of self.old }
        ensures no_release { D.releases (device_of self.new) ≡ D.releases (device_of self.old) }
    {
        if self.next_fails() {
            self.refused_writes.note();
            return Err(DeviceFault);
        }
        let receipt = self.device.write(page)?;
        Ok(FaultyReceipt { receipt })
    }

    fn read(
        &mut self,
        receipt: &FaultyReceipt<D::Receipt>,
        page: &mut Page,
    ) -> Result<(), DeviceFault>
        ensures page { D.serves (device_of self.old) receipt.now → OnOk result (page.new ≡ D.Receipt.shown receipt.now) }
        ensures still_served { (r : D.Receipt) → D.serves (device_of self.old) r → D.serves (device_of self.new) r }
        ensures failure { OnErr result (D.failures (device_of self.new) + refused_of self.new ≡ D.failures (device_of self.old) + refused_of self.old + 1) }
        ensures no_failure { OnOk result (D.failures (device_of self.new) + refused_of self.new ≡ D.failures (device_of self.old) + refused_of self.old) }
        ensures fails { IsTrue (fails_next self.old) → IsErr result }
        ensures not_asked { IsTrue (fails_next self.old) → device_of self.new ≡ device_of self.old }
        ensures asked { IsFalse (fails_next self.old) → OnErr result (D.failures (device_of self.new) ≡ D.failures (device_of self.old) + 1) }
        ensures asked_once { IsFalse (fails_next self.old) → D.reads (device_of self.new) ≡ D.reads (device_of self.old) + 1 }
        ensures calls { calls_of self.new ≡ (calls_of self.old + 1) % 2 ^ 64 }
        ensures failing { failing_of self.new ≡ failing_of self.old }
        ensures counted { D.reads (device_of self.new) + refused_reads_of self.new ≡ D.reads (device_of self.old) + refused_reads_of self.old + 1 }
        ensures no_write { D.writes (device_of self.new) + refused_writes_of self.new ≡ D.writes (device_of self.old) + refused_writes_of self.old }
        ensures no_release { D.releases (device_of self.new) ≡ D.releases (device_of self.old) }
    {
        if self.next_fails() {
            self.refused_reads.note();
            return Err(DeviceFault);
        }
        self.device.read(&receipt.receipt, page)
    }

    fn read_piece(
        &mut self,
        receipt: &FaultyReceipt<D::Receipt>,
        from: usize,
        to: usize,
        page: &mut Page,
    ) -> Result<(), DeviceFault>
        requires in_order { from ≤ to }
        requires in_page { to ≤ PAGE_SIZE }
        ensures page { D.serves (device_of self.old) receipt.now → OnOk result (SameWithin from to page.new (D.Receipt.shown receipt.now)) }
        ensures still_served { (r : D.Receipt) → D.serves (device_of self.old) r → D.serves (device_of self.new) r }
        ensures failure { OnErr result (all_failures D.failures self.new ≡ all_failures D.failures self.old + 1) }
        ensures no_failure { OnOk result (all_failures D.failures self.new ≡ all_failures D.failures self.old) }
        ensures fails { IsTrue (fails_next self.old) → IsErr result }
        ensures not_asked { IsTrue (fails_next self.old) → device_of self.new ≡ device_of self.old }
        ensures asked { IsFalse (fails_next self.old)
            → OnErr result (D.failures (device_of self.new) ≡ D.failures (device_of self.old) + 1) }

        ensures asked_once { IsFalse (fails_next self.old) → D.reads (device_of self.new) ≡ D.reads (device_of self.old) + 1 }
        ensures calls { calls_of self.new ≡ (calls_of self.old + 1) % 2 ^ 64 }
        ensures failing { failing_of self.new ≡ failing_of self.old }
        ensures counted { all_reads D.reads self.new ≡ all_reads D.reads self.old + 1 }
        ensures no_write { all_writes D.writes self.new ≡ all_writes D.writes self.old }
        ensures no_release { D.releases (device_of self.new) ≡ D.releases (device_of self.old) }
    {
        if self.next_fails() {
            self.refused_reads.note();
            return Err(DeviceFault);
        }
        self.device.read_piece(&receipt.receipt, from, to, page)
    }

    fn release(&mut self, retired: Retired<FaultyReceipt<D::Receipt>>, drained: &Drained)
        requires own_epoch { retired_epoch retired ≡ drained_epoch drained.now }
        requires own_epochs { retired_of retired ≡ drained_of drained.now }
        ensures still_served { (r : D.Receipt) → D.Receipt.identity r ≢ D.Receipt.identity (retired_value retired)
            → D.serves (device_of self.old) r → D.serves (device_of self.new) r }

        ensures no_failure { D.failures (device_of self.new) + refused_of self.new ≡ D.failures (device_of self.old) + refused_of self.old }
        ensures calls { calls_of self.new ≡ calls_of self.old }
        ensures failing { failing_of self.new ≡ failing_of self.old }
        ensures no_write { D.writes (device_of self.new) + refused_writes_of self.new ≡ D.writes (device_of self.old) + refused_writes_of self.old }
        ensures no_read { D.reads (device_of self.new) + refused_reads_of self.new ≡ D.reads (device_of self.old) + refused_reads_of self.old }
        ensures counted { D.releases (device_of self.new) ≡ D.releases (device_of self.old) + 1 }
    {
        self.device.release(retired.into_inner(), drained);
    }
}

// A device that keeps its pages in memory.

ghost use Rattle.std.specs.Prelude.{◌≡◌, ℕ, IfOk, IsOk, IsSome, IsTrue, IfSome, OnOk, OnErr, replicate};
ghost use Rattle.records.specs.Page.{zero_page};

use crate::copies::Copies;
use crate::counts::CallCount;
use crate::{Device, DeviceFault, Shows};
use epoch::{Drained, Retired};
use records::Page;
use std::alloc::{AllocError, Global};
use std::marker::Model;
use std::sync::Arc;

/// A receipt of a `MemoryDevice`: a page that its copies share. To a contract it is the page's bytes.
#[derive(Drop)]
pub struct MemoryReceipt {
    page: Arc<Page>,
}

impl Model for MemoryReceipt {
    ghost use Rattle.std.specs.Prelude.{ℕ, List};
    ghost use Rattle.std.specs.Arc.{arc_value};

    ghost Value = { List ℕ };

    ghost view = { λ r. arc_value r.page };
}

// Two receipts are the same where they show the same bytes.
impl Shows for MemoryReceipt {
    ghost shown = { λ r. r };

    ghost identity = { λ r. r };

    ghost is_honest = { Unit {0} };

    ghost is_steady = { Unit {0} };

    ghost lends = { Unit {0} };

    ghost one_page = { λ r s e. e };

    ghost steady_is_honest = { λ s. s };

    fn again(&self) -> Result<MemoryReceipt, AllocError> {
        Ok(MemoryReceipt {
            page: Arc::try_clone(&self.page)?,
        })
    }

    fn same(&self, other: &MemoryReceipt) -> bool {
        *self.page == *other.page
    }

    fn hold_pages() -> bool
        ensures { IsTrue result }
    {
        true
    }

    /// Always some: a receipt holds its page.
    fn page(&self) -> Option<&Page>
        ensures holds { IsSome result }
        ensures page { IfSome result (λ page. page.now ≡ self.now) }
    {
        Some(&self.page)
    }
}

/// One opening of a device that keeps its pages in memory. It is steady, and each opening reads every
/// receipt, without a lock: a receipt holds its page, which is freed with its last copy. To a contract
/// an opening is the numbers of its calls.
///
/// A write, or an exchange, takes memory for one page, and fails only where the allocator has none. A page that is exchanged
/// is not copied: the device keeps its memory, and leaves memory that was not touched yet.
#[derive(Drop)]
pub struct MemoryDevice {
    copies: Copies,
    failures: CallCount,
    writes: CallCount,
    reads: CallCount,
    releases: CallCount,
}

impl Model for MemoryDevice {
    ghost use Rattle.device.specs.Counts.{Calls};

    ghost Value = { Calls };

    ghost view = { λ d. record { failures = d.failures; writes = d.writes; reads = d.reads; releases = d.releases; refusals = d.copies } };
}

impl MemoryDevice {
    ghost use Rattle.device.specs.Counts.{no_calls};

    /// `n` openings of one device, which were not called yet.
    pub fn openings(alloc: Global, n: usize) -> Result<Vec<MemoryDevice>, AllocError>
        ensures { IfOk result (λ v. v.items ≡ replicate n no_calls) }
    {
        let mut openings = Vec::with_capacity(alloc, n)?;
        for _ in 0..n {
            openings.push(MemoryDevice {
                copies: Copies::new(alloc),
                failures: CallCount::new(),
                writes: CallCount::new(),
                reads: CallCount::new(),
                releases: CallCount::new(),
            })?;
        }
        Ok(openings)
    }
}

impl Device for MemoryDevice {
    ghost use Rattle.device.specs.Counts.{after_write, after_refusal, after_read, after_release};
    ghost use Rattle.epoch.specs.Seats.{drained_epoch, drained_of, retired_epoch, retired_of};

    type Receipt = MemoryReceipt;

    ghost failures = { λ d. d.failures };

    ghost writes = { λ d. d.writes };

    ghost reads = { λ d. d.reads };

    ghost releases = { λ d. d.releases };

    ghost wrote = { λ before page r after. Unit {0} };

    ghost serves = { λ d r. Unit {0} };

    ghost copies = { λ d r s same served. served };

    ghost steady = { λ s d r. tt };

    /// Fails only where the allocator has no memory for the page.
    fn write(&mut self, page: &Page) -> Result<MemoryReceipt, DeviceFault>
        ensures shown { IfOk result (λ r. r ≡ page.now) }
        ensures written { OnOk result (self.new ≡ after_write self.old) }
        ensures refused { OnErr result (self.new ≡ after_refusal self.old) }
    {
        self.writes.note();
        match self.copies.share(page) {
            Some(page) => Ok(MemoryReceipt { page }),
            None => {
                self.failures.note();
                Err(DeviceFault)
            }
        }
    }

    /// Fails only where the allocator has no memory for a page. Else the page is blank afterwards.
    fn exchange(&mut self, page: &mut Page) -> Result<MemoryReceipt, DeviceFault>
        ensures shown { IfOk result (λ r. r ≡ page.old) }
        ensures blank { OnOk result (page.new ≡ zero_page) }
        ensures kept { OnErr result (page.new ≡ page.old) }
        ensures written { OnOk result (self.new ≡ after_write self.old) }
        ensures refused { OnErr result (self.new ≡ after_refusal self.old) }
    {
        self.writes.note();
        match self.copies.take(page) {
            Some(page) => Ok(MemoryReceipt { page }),
            None => {
                self.failures.note();
                Err(DeviceFault)
            }
        }
    }

    /// Never fails.
    fn read(&mut self, receipt: &MemoryReceipt, page: &mut Page) -> Result<(), DeviceFault>
        ensures succeeds { IsOk result }
        ensures page { page.new ≡ receipt.now }
        ensures counted { self.new ≡ after_read self.old }
    {
        self.reads.note();
        page.copy_from(&receipt.page);
        Ok(())
    }

    /// Frees the page with the last copy of its receipt.
    fn release(&mut self, retired: Retired<MemoryReceipt>, drained: &Drained)
        requires own_epoch { retired_epoch retired ≡ drained_epoch drained.now }
        requires own_epochs { retired_of retired ≡ drained_of drained.now }
        ensures counted { self.new ≡ after_release self.old }
    {
        self.releases.note();
        drop(retired.into_value(drained));
    }
}

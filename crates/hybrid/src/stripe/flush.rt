// The flusher's steps.

ghost use Rattle.std.specs.Prelude.{◌≡◌, ◌↔◌, ◌+◌, ◌<◌, ℕ, IsOk, OnOk, IfErr, MatchOption};
ghost use Rattle.frames.specs.Resident.{page_of};
ghost use Rattle.hybrid.specs.HybridLog.{IsSealed, count_kept, log_of, with_receipt};

use crate::stripe::Stripe;
use device::Shows;
use records::Page;

impl<R: Shows> Stripe<R> {
    /// The oldest page that waits for the flusher: read-only, resident and without a receipt.
    pub fn sealed(&self) -> Option<u64>
        ensures { MatchOption result ((number : ℕ) → IsSealed self.now number → ⊥) (λ first. IsSealed self.now first × ((number : ℕ) → number < first → IsSealed self.now number → ⊥)) }
    {
        for number in self.frames.oldest()..self.frames.first_mutable() {
            if self.receipt(number).is_none() {
                return Some(number);
            }
        }
        None
    }

    /// Keeps the receipt of a page that was written to the device, where the page is still
    /// resident, read-only, without a receipt and as it was written. Else gives the receipt back.
    pub fn mark_flushed(&mut self, number: u64, page: &Page, receipt: R) -> Result<(), R>
        requires shown { R.shown receipt ≡ page.now }
        // The place was counted before the write.
        requires place { count_kept self.old.kept < self.old.unreleased }
        ensures exact { IsOk result ↔ (IsSealed self.old number × (page.now ≡ page_of self.old.resident number)) }
        ensures kept { OnOk result (self.new ≡ with_receipt self.old number (record { identity = R.identity receipt; shown = R.shown receipt })) }
        ensures more { OnOk result (count_kept self.new.kept ≡ count_kept self.old.kept + 1) }
        ensures refused { IfErr result (λ back. (back ≡ receipt) × (self.new ≡ self.old)) }
        ensures log { log_of self.new ≡ log_of self.old }
    {
        let _ = &self.oldest;
        if number < self.frames.oldest() {
            return Err(receipt);
        }
        if self.frames.first_mutable() <= number {
            return Err(receipt);
        }
        let Some(written) = self.frames.page(number) else {
            return Err(receipt);
        };
        if *written != *page {
            return Err(receipt);
        }
        let place = (number - self.oldest) as usize;
        if self.receipts[place].is_some() {
            return Err(receipt);
        }
        self.receipts[place] = Some(receipt);
        self.kept += 1;
        Ok(())
    }
}

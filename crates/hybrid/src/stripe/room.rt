// Room for a call's writes: flushes and drops of the oldest read-only pages.

ghost use Rattle.std.specs.Prelude.{if◌then◌else◌, nat_lt, ◌≡◌, ◌↔◌, ◌+◌, ◌-◌, ◌<◌, ◌≤◌, ◌^◌, ◌⊎◌, ℕ, IsTrue, IsSome, IfOk, IfErr, OnOk, OnErr, None};
ghost use Rattle.std.specs.Bool.{OnTrue, OnFalse};
ghost use Rattle.frames.specs.Resident.{first_mutable, next_number};
ghost use Rattle.hybrid.specs.HybridLog.{log_of, tail_bytes, HasRoom, IsHybridLog, expected, free, pages_for, with_dropped, receipt_of};
ghost use Rattle.hybrid.specs.Reserving.{AreNewServed, IsReserved, KeepsBack, KeepsSpare, MatchFault, IsFull, beside, frames_for, spare};
ghost use Rattle.hybrid.specs.Shedding.{HasLeft, HasShed};
ghost use Rattle.hybrid.specs.declared.stripe.room.Purpose.TheVariants as purpose;
ghost use Rattle.records.specs.declared.pages.TheConstants.{HEADER_SIZE, PAGE_SIZE};

use crate::stripe::{CALL_PAGES, CLEAN_PAGES, CLOSED_MIN, LAST_PAGE, Stripe};
use device::{Device, Shows};
use records::PAGE_SIZE;
use thiserror::Error;
use words::limits::WEIGHT_MAX;

/// Room for writes of this weight in all.
#[derive(Debug, Drop)]
pub struct Room {
    /// The weight in bytes: for each write the lengths of its key and value, and [`words::limits::WEIGHT_OF_KEY`] more.
    pub weight: usize,
}

/// Why no room was found.
#[derive(Clone, Copy, Debug, PartialEq, Eq, Error)]
pub enum Fault {
    /// A call of the device failed.
    #[error("device fault")]
    DeviceFault,
    /// The stripe's unreleased places have reached their limit, or its tail page is the last.
    #[error("store is full")]
    StoreFull,
}

/// For what room is made. Near the limit of places each leaves frames for those that stand before it here.
#[derive(Clone, Copy, Debug, PartialEq, Eq)]
pub enum Purpose {
    /// Copies of what lives in the oldest page. They leave no frame.
    Clean,
    /// Deletions alone. Where they can open a page they leave [`CLEAN_PAGES`] frames beside it, so that a page can be cleaned.
    Delete,
    /// Writes of which one at least gives a value. They leave one frame more, in which keys can be deleted, and also where
    /// they fit into the tail page.
    Write,
}

impl Purpose {
    // The frames that are left where a page can be opened.
    fn beside(self) -> usize
        ensures frames { result ≡ beside self }
        ensures few { result ≤ CLEAN_PAGES + 1 }
    {
        match self {
            Purpose::Clean => 0,
            Purpose::Delete => CLEAN_PAGES,
            Purpose::Write => CLEAN_PAGES + 1,
        }
    }

    // The frames that are left where the writes fit into the tail page.
    fn spare(self) -> usize
        ensures frames { result ≡ spare self }
        ensures few { result ≤ CLEAN_PAGES + 1 }
    {
        match self {
            Purpose::Clean | Purpose::Delete => 0,
            Purpose::Write => CLEAN_PAGES + 1,
        }
    }
}

impl<R: Shows> Stripe<R> {
    /// Room for writes of this weight in all. Where fewer frames are free than pages that these writes
    /// can open, the oldest read-only pages are written to the device and dropped, no more than needed.
    /// After an `Err` some of that may have been done.
    ///
    /// Near the limit of places these writes leave the frames that their purpose says. Where they can open a page, so
    /// many stay free beside it, or may be had for places that are not taken. Where they fit into the tail page, places
    /// count too whose receipts wait to be released. Where no place is left for these frames, the store is full. Only
    /// where no read-only page is resident they may be fewer.
    pub fn reserve<D: Device<Receipt = R>>(
        &mut self,
        weight: usize,
        purpose: Purpose,
        device: &mut D,
    ) -> Result<Room, Fault>
        requires light { weight ≤ WEIGHT_MAX }
        ensures room { IfOk result (λ room. (room.weight ≡ weight) × HasRoom self.new weight) }
        ensures log { log_of self.new ≡ log_of self.old }
        ensures tail { tail_bytes self.new ≡ tail_bytes self.old }
        // Each page that left its frame was read-only, and had a receipt or was written to this device.
        ensures shed { OnOk result (HasShed D.wrote (λ r. record { identity = R.identity r; shown = R.shown r }) self.old device.old self.new device.new) }
        ensures shed_full { OnErr result (D.failures device.new ≡ D.failures device.old → HasShed D.wrote (λ r. record { identity = R.identity r; shown = R.shown r }) self.old device.old self.new device.new) }
        ensures reserved { (count : ℕ) × IsReserved self.old self.new count × (count ≤ frames_for self.old weight purpose - free self.old) }
        ensures needless { frames_for self.old weight purpose ≤ free self.old → self.new ≡ self.old }
        ensures fault { IfErr result (λ fault. MatchFault fault (D.failures device.new ≡ D.failures device.old + 1) (IsFull self.new × (D.failures device.new ≡ D.failures device.old))) }
        ensures no_fault { OnOk result (D.failures device.new ≡ D.failures device.old) }
        ensures no_release { D.releases device.new ≡ D.releases device.old }

        // What the device serves it still serves, and also each receipt that is kept now and was not.
        ensures still_served { (r : R) → D.serves device.old r → D.serves device.new r }
        ensures new_served { R.is_honest → AreNewServed D.serves (λ r. record { identity = R.identity r; shown = R.shown r }) self.old self.new device.new }

        // It asks the device once for each place that it takes, and once more where the device fails.
        ensures writes { OnOk result (D.writes device.new + self.old.unreleased ≡ D.writes device.old + self.new.unreleased) }
        ensures asked { IfErr result (λ fault. MatchFault fault (D.writes device.new + self.old.unreleased ≡ D.writes device.old + self.new.unreleased + 1) (D.writes device.new + self.old.unreleased ≡ D.writes device.old + self.new.unreleased)) }
        ensures needed { OnErr result ((0 < pages_for self.old weight) ⊎ (expected self.old < spare purpose)) }
        ensures needful { OnErr result ((LAST_PAGE < next_number self.new.resident) ⊎ ((receipt_of self.new self.new.resident.oldest ≡ None) × (free self.new < frames_for self.old weight purpose))) }
        ensures kept { OnOk result (0 < pages_for self.old weight → KeepsBack self.new (pages_for self.old weight) (beside purpose)) }
        ensures spared { OnOk result (pages_for self.old weight ≡ 0 → KeepsSpare self.new (spare purpose)) }
        ensures last { OnOk result (0 < pages_for self.old weight → next_number self.new.resident ≤ LAST_PAGE) }
    {
        let wanted = self.frames_for(weight, purpose);
        if wanted > 0 && self.next_number() > LAST_PAGE {
            return Err(Fault::StoreFull);
        }
        while self.may_free(wanted) {
            self.shed_oldest(device)?;
        }
        Ok(Room { weight })
    }

    /// Whether there is room for writes of this weight in all, with no page leaving its frame for them.
    pub fn has_room(&self, weight: usize) -> bool
        requires { weight ≤ WEIGHT_MAX }
        ensures exact { IsTrue result ↔ (pages_for self.now weight ≤ free self.now) × (0 < pages_for self.now weight → next_number self.now.resident ≤ LAST_PAGE) }
        ensures room { OnTrue result (HasRoom self.now weight) }
    {
        let needed = self.pages_for(weight);
        needed <= self.free() && (needed == 0 || self.next_number() <= LAST_PAGE)
    }

    /// Whether writes of this weight go into the tail page, and as many frames are expected as a call keeps back that gives a value: then
    /// [`Stripe::reserve`] makes room for them without doing anything.
    pub fn fits_tail(&self, weight: usize) -> bool
        requires { weight ≤ WEIGHT_MAX }
        ensures fits { IsTrue result → weight + tail_bytes self.now ≤ PAGE_SIZE - HEADER_SIZE }
        ensures left { IsTrue result → spare purpose.Write ≤ expected self.now }
        ensures exact { weight + tail_bytes self.now ≤ PAGE_SIZE - HEADER_SIZE → spare purpose.Write ≤ expected self.now → IsTrue result }
    {
        self.pages_for(weight) == 0 && self.spare_for(Purpose::Write) == 0
    }

    /// Drops the oldest resident page from its frame, where its receipt is kept, and says whether
    /// it did.
    pub fn drop_oldest(&mut self) -> bool
        ensures exact { IsTrue result ↔ IsSome (receipt_of self.old self.old.resident.oldest) }
        ensures dropped { OnTrue result (self.new ≡ with_dropped self.old) }
        ensures kept { OnFalse result (self.new ≡ self.old) }
        ensures log { log_of self.new ≡ log_of self.old }
    {
        if !self.has_receipt() {
            return false;
        }
        self.drop_frame();
        true
    }

    // The most pages that writes of this weight can open.
    fn pages_for(&self, weight: usize) -> usize
        requires { weight ≤ WEIGHT_MAX }
        ensures pages { result ≡ pages_for self.now weight }
        ensures few { result ≤ CALL_PAGES }
    {
        if weight <= PAGE_SIZE - self.tail_end() {
            0
        } else {
            weight / CLOSED_MIN + 1
        }
    }

    // The frames that have to be free for writes of this weight: for the pages that they can open and, near the limit
    // of places, for those that they leave.
    fn frames_for(&self, weight: usize, purpose: Purpose) -> usize
        requires light { weight ≤ WEIGHT_MAX }
        ensures frames { result ≡ frames_for self.now weight purpose }
        ensures some { 0 < result → (0 < pages_for self.now weight) ⊎ (expected self.now < spare purpose) }
        ensures pages { pages_for self.now weight ≤ CALL_PAGES }
    {
        let pages = self.pages_for(weight);
        if pages == 0 {
            return self.spare_for(purpose);
        }
        let wanted = pages + purpose.beside();
        if self.places - self.unreleased < wanted.saturating_sub(self.free()) {
            wanted
        } else {
            pages
        }
    }

    // The frames that have to be free for writes that fit into the tail page: none, but near the limit of places.
    fn spare_for(&self, purpose: Purpose) -> usize
        ensures frames { result ≡ (if nat_lt (expected self.now) (spare purpose) then spare purpose else 0) }
        ensures some { 0 < result → expected self.now < spare purpose }
    {
        let spare = purpose.spare();
        if self.places - self.kept < spare.saturating_sub(self.free()) {
            spare
        } else {
            0
        }
    }

    // Whether fewer frames than this are free, and the oldest resident page, which is read-only, may leave its own.
    fn may_free(&self, wanted: usize) -> bool
        ensures lacks { OnTrue result ((free self.now < wanted) × (self.now.resident.oldest < first_mutable self.now.resident)) }
        ensures enough { OnFalse result ((wanted ≤ free self.now) ⊎ (first_mutable self.now.resident ≤ self.now.resident.oldest)) }
        ensures log { IsHybridLog self.now }
    {
        self.free() < wanted && self.frames.oldest() < self.frames.first_mutable()
    }

    // Drops the oldest resident page, whose receipt is kept.
    fn drop_frame(&mut self)
        requires { IsSome (receipt_of self.old self.old.resident.oldest) }
        ensures dropped { self.new ≡ with_dropped self.old }
        ensures log { log_of self.new ≡ log_of self.old }
    {
        let _dropped = self.frames.drop_oldest();
    }

    // Drops the oldest resident page, which is read-only, from its frame. Where it has no receipt it is written to the device
    // first, which may keep its memory and leave other in the frame.
    fn shed_oldest<D: Device<Receipt = R>>(&mut self, device: &mut D) -> Result<(), Fault>
        requires { self.old.resident.oldest < first_mutable self.old.resident }
        ensures left { OnOk result (HasLeft D.wrote D.serves (λ r. record { identity = R.identity r; shown = R.shown r }) R.is_honest
            self.old device.old self.new device.new) }

        ensures same { OnErr result (D.failures device.new ≡ D.failures device.old → device.new ≡ device.old) }
        ensures unchanged { OnErr result (self.new ≡ self.old) }
        ensures bare { OnErr result (receipt_of self.old self.old.resident.oldest ≡ None) }
        ensures fault { IfErr result (λ fault. MatchFault fault (D.failures device.new ≡ D.failures device.old + 1) ((self.new.unreleased ≡ self.new.places) × (D.failures device.new ≡ D.failures device.old))) }
        ensures no_fault { OnOk result (D.failures device.new ≡ D.failures device.old) }
        ensures no_release { D.releases device.new ≡ D.releases device.old }
        ensures still_served { (r : R) → D.serves device.old r → D.serves device.new r }
        ensures writes { OnOk result (D.writes device.new + self.old.unreleased ≡ D.writes device.old + self.new.unreleased) }
        ensures asked { IfErr result (λ fault. MatchFault fault (D.writes device.new ≡ D.writes device.old + 1) (D.writes device.new ≡ D.writes device.old)) }
    {
        if self.has_receipt() {
            self.drop_frame();
            return Ok(());
        }
        if self.unreleased == self.places {
            return Err(Fault::StoreFull);
        }
        let first = (self.frames.oldest() - self.oldest) as usize;
        let Ok(receipt) = device.exchange(self.frames.oldest_mut()) else {
            return Err(Fault::DeviceFault);
        };
        let _dropped = self.frames.drop_oldest();
        self.receipts[first] = Some(receipt);
        self.kept += 1;
        self.unreleased += 1;
        Ok(())
    }
}

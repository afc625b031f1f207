// A stripe's log: its pages, receipts and index.

ghost use Rattle.std.specs.Prelude.{◌≡◌, ◌+◌, ◌-◌, ◌/◌, ◌<◌, ◌≤◌, ◌^◌, ◌↔◌, [], length, List, None, slice_index_or, IsTrue, IsSome, IfOk, IfSome, MatchOption, OnErr, OnOk, ◌⊎◌, ℕ, option_map};
ghost use Rattle.std.specs.Bool.{OnTrue, OnFalse};
ghost use Rattle.records.specs.Page.{used_end};
ghost use Rattle.frames.specs.Resident.{IsResident, next_number, page_of};
ghost use Rattle.hybrid.specs.HybridLog.{HybridLog, IsHybridLog, IsSealed, count_kept, empty_log, expected, free, log_of, receipt_at, receipt_of};
ghost use Rattle.hybrid.specs.Log.{contents};
ghost use Rattle.hybrid.specs.Reserving.{IsFull};
ghost use Rattle.hybrid.specs.declared.stripe.TheConstants.{CALL_PAGES};

use device::Shows;
use frames::{Frames, NUMBER_BITS};
use index::Index;
use records::{HEADER_SIZE, KEY_BYTES_MAX, PAGE_SIZE, Page, RECORD_HEADER};
use std::alloc::{AllocError, Global};
use std::collections::VecDeque;
use std::marker::Model;
use words::limits::{
    FRAMES_MIN, Limits, STRIPES_DEFAULT, STRIPES_MAX, VALUE_BYTES_MAX, WEIGHT_MAX,
};

pub mod clean;
pub mod find;
mod flush;
mod install;
pub mod room;

/// The most bytes that a record takes, whose key and value are the longest: 33,312, a multiple of 8.
pub const RECORD_MAX: usize = (RECORD_HEADER + KEY_BYTES_MAX + VALUE_BYTES_MAX + 7) / 8 * 8;

/// The most that the records of one page weigh as writes: each no more than twice its bytes. 131,040.
pub const CLEAN_WEIGHT: usize = 2 * (PAGE_SIZE - HEADER_SIZE);

/// A page is closed only when more than this many of its bytes hold records: else the longest record
/// would still fit. 32,208.
pub const CLOSED_MIN: usize = PAGE_SIZE - HEADER_SIZE - RECORD_MAX;

/// The most pages that what lives in one page opens by its weight: 5.
pub const CLEAN_PAGES: usize = CLEAN_WEIGHT / CLOSED_MIN + 1;

/// The most pages that the writes of one call open: 7.
pub const CALL_PAGES: usize = WEIGHT_MAX / CLOSED_MIN + 1;

/// Where the tail page has this number or a greater one, no page is opened. Page numbers have `NUMBER_BITS`
/// bits, so they do not run out in a call. 2^46.
pub const LAST_PAGE: u64 = 1 << (NUMBER_BITS - 2);

/// The log of one stripe. Receipts are those of a device.
#[derive(Drop)]
pub struct Stripe<R: Shows> {
    frames: Frames,
    index: Index,
    /// The receipts that are kept, one entry a page from the oldest to the tail page.
    receipts: VecDeque<Option<R>>,
    /// The number of the oldest page.
    oldest: u64,
    /// The stripes of the store: a key's bucket goes by its hash divided by this.
    stripes: u64,
    /// How many receipts are kept.
    kept: usize,
    /// The places on the device that were taken and not released.
    unreleased: usize,
    /// The most of those.
    places: usize,
}

impl<R: Shows> Model for Stripe<R> {
    ghost use Rattle.std.specs.Prelude.{map, option_map, ◌≡◌, ◌+◌, ◌≤◌};
    ghost use Rattle.std.specs.VecDeque.{deque_capacity};
    ghost use Rattle.hybrid.specs.HybridLog.{HybridLog, IsHybridLog, count_kept};

    ghost Value = { HybridLog };

    ghost view = { λ s. record { oldest = s.oldest; kept = map (option_map (λ r. record { identity = R.identity r; shown = R.shown r })) s.receipts.items; resident = s.frames; heads = s.index; stripes = s.stripes; unreleased = s.unreleased; places = s.places } };

    ghost invariant = { λ s. IsHybridLog (record { oldest = s.oldest; kept = map (option_map (λ r. record { identity = R.identity r; shown = R.shown r })) s.receipts.items; resident = s.frames; heads = s.index; stripes = s.stripes; unreleased = s.unreleased; places = s.places }) × (s.places + s.frames.frames ≤ deque_capacity s.receipts) × (s.kept ≡ count_kept (map (option_map (λ r. record { identity = R.identity r; shown = R.shown r })) s.receipts.items)) };
}

impl<R: Shows> Stripe<R> {
    /// An empty log, whose page 0 is open. Takes 65,536 bytes a frame, 8 a bucket, and the size of a
    /// receipt for each place and frame.
    pub fn new(alloc: Global, limits: &Limits) -> Result<Self, AllocError>
        ensures empty { IfOk result (λ made. made ≡ empty_log limits.now.stripes limits.now.buckets limits.now.frames limits.now.places) }
        ensures contents { IfOk result (λ made. (key : List ℕ) → contents (log_of made) key ≡ None) }
    {
        let mut frames = Frames::new(alloc, limits.frames)?;
        let index = Index::new(alloc, limits.buckets)?;
        let mut receipts = VecDeque::with_capacity(alloc, limits.places + limits.frames)?;
        let Ok(_first) = frames.open_next() else {
            unreachable!()
        };
        receipts.push_back_reserved(None);
        Ok(Stripe {
            frames,
            index,
            receipts,
            oldest: 0,
            stripes: limits.stripes as u64,
            kept: 0,
            unreleased: 0,
            places: limits.places,
        })
    }

    /// The page of this number, if it is resident.
    pub fn page(&self, number: u64) -> Option<&Page>
        ensures resident { IsSome result ↔ IsResident self.now.resident number }
        ensures bytes { IfSome result (λ page. page.now ≡ page_of self.now.resident number) }
    {
        self.frames.page(number)
    }

    /// The receipt that is kept of a page.
    pub fn receipt(&self, number: u64) -> Option<&R>
        ensures { option_map (λ r. record { identity = R.identity r.now; shown = R.shown r.now }) result ≡ receipt_at self.now number }
    {
        if number < self.oldest {
            return None;
        }
        match self.receipts.get((number - self.oldest) as usize) {
            Some(Some(receipt)) => Some(receipt),
            _ => None,
        }
    }

    /// Counts one more unreleased place, and says whether it could: not where the store is full, at the
    /// limit of places or at the last page.
    pub fn take_place(&mut self) -> bool
        ensures limit { IsTrue result ↔ (self.old.unreleased < self.old.places) × (next_number self.old.resident ≤ LAST_PAGE) }
        ensures taken { OnTrue result (self.new ≡ record self.old { unreleased = self.old.unreleased + 1 }) }
        ensures full { OnFalse result (IsFull self.old × (self.new ≡ self.old)) }
        ensures counted { OnTrue result (count_kept self.new.kept < self.new.unreleased) }
    {
        if self.unreleased >= self.places {
            return false;
        }
        if self.next_number() > LAST_PAGE {
            return false;
        }
        self.unreleased += 1;
        true
    }

    /// Counts one unreleased place off, none at zero. It is not the place of a receipt that is kept.
    pub fn free_place(&mut self)
        requires { (self.old.unreleased ≡ 0) ⊎ (count_kept self.old.kept < self.old.unreleased) }
        ensures { self.new ≡ record self.old { unreleased = self.old.unreleased - 1 } }
    {
        let _ = &self.oldest;
        self.unreleased = self.unreleased.saturating_sub(1);
    }

    /// Whether a place is counted that is none of a receipt that is kept: one that `free_place` may count
    /// off, or `mark_flushed` may keep a receipt for.
    pub fn has_spare_place(&self) -> bool
        ensures { IsTrue result ↔ (count_kept self.now.kept < self.now.unreleased) }
    {
        self.kept < self.unreleased
    }

    /// How many places on the device are taken and not released.
    pub fn unreleased(&self) -> usize
        ensures places { result ≡ self.now.unreleased }
        ensures limit { result ≤ self.now.places }
    {
        self.unreleased
    }

    /// Whether no place may be taken on the device, or no page opened: its places have reached their limit,
    /// or its tail page is the last.
    pub fn is_full(&self) -> bool
        ensures { IsTrue result ↔ IsFull self.now }
    {
        self.unreleased >= self.places || self.next_number() > LAST_PAGE
    }

    /// Whether at least half of the places are taken and not released.
    pub fn is_half_used(&self) -> bool
        ensures { IsTrue result ↔ (self.now.places ≤ self.now.unreleased + self.now.unreleased) }
    {
        self.unreleased >= self.places - self.unreleased
    }

    /// Whether fewer frames are free than pages that a call can open.
    pub fn is_short_of_frames(&self) -> bool
        ensures { IsTrue result ↔ (free self.now < CALL_PAGES) }
    {
        self.free() < CALL_PAGES
    }

    /// Whether fewer frames than values leave are free or may be had, for places that are not taken or whose receipts wait
    /// to be released: a deletion has opened a page, and the next one that wants a page finds none before one is cleaned.
    pub fn lacks_spare_frames(&self) -> bool
        ensures { IsTrue result ↔ (expected self.now < CLEAN_PAGES + 1) }
    {
        self.places - self.kept < (CLEAN_PAGES + 1).saturating_sub(self.free())
    }

    /// The number of the oldest page.
    pub fn oldest(&self) -> u64
        ensures number { result ≡ self.now.oldest }
        ensures log { IsHybridLog self.now }
    {
        self.oldest
    }

    // The number of the page that is opened next.
    fn next_number(&self) -> u64
        ensures number { result ≡ next_number self.now.resident }
        ensures in_range { result < 2 ^ NUMBER_BITS }
    {
        self.frames.next_number()
    }

    // What the index gets of a hash: the hash divided by the number of stripes.
    #[inline]
    fn index_hash(&self, hash: u64) -> u64
        ensures { result ≡ hash / self.now.stripes }
    {
        // One stripe, the default and the most compile to a shift at most, other numbers to a division.
        if self.stripes == STRIPES_DEFAULT as u64 {
            hash / STRIPES_DEFAULT as u64
        } else if self.stripes == STRIPES_MAX as u64 {
            hash / STRIPES_MAX as u64
        } else if self.stripes == 1 {
            hash
        } else {
            hash / self.stripes
        }
    }

    // How many frames have no page.
    fn free(&self) -> usize
        ensures free { result ≡ free self.now }
        ensures frames { result + length self.now.resident.pages ≡ self.now.resident.frames }
        ensures enough { (FRAMES_MIN ≤ self.now.resident.frames) × (0 < length self.now.resident.pages) }
        ensures live { self.now.oldest ≤ self.now.resident.oldest }
        ensures numbered { self.now.oldest + length self.now.kept ≡ next_number self.now.resident }
    {
        self.frames.free()
    }

    // The end of the used part of the tail page.
    fn tail_end(&self) -> usize
        ensures end { result ≡ used_end (slice_index_or self.now.resident.pages (length self.now.resident.pages - 1) []) }
        ensures laid_out { (HEADER_SIZE ≤ result) × (result ≤ PAGE_SIZE) }
        ensures pages { 0 < length self.now.resident.pages }
    {
        match self.frames.page(self.frames.next_number() - 1) {
            Some(page) => page.used_end() as usize,
            None => unreachable!(),
        }
    }

    // Whether the receipt of the oldest resident page is kept.
    fn has_receipt(&self) -> bool
        ensures { IsTrue result ↔ IsSome (receipt_of self.now self.now.resident.oldest) }
    {
        let first = (self.frames.oldest() - self.oldest) as usize;
        match self.receipts.get(first) {
            Some(receipt) => receipt.is_some(),
            None => false,
        }
    }
}

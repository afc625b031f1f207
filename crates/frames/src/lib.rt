//! The ring of frames that holds the resident pages of one stripe's log.
//!
//! Resident pages are numbered without gaps. A new page is opened behind the newest one, in the next frame of the ring, and
//! the oldest page is dropped, which frees its frame: so the ring turns, and no page moves. The newest third of the frames
//! is the mutable part, from which nothing is dropped. Memory for all frames is taken once.

#![tactic(auto)]

ghost use Rattle.std.specs.Prelude.{◌≡◌, ◌+◌, ◌-◌, ◌^◌, ◌<◌, ◌≤◌, ◌↔◌, ℕ, List, [], length, IsTrue, IsSome, IsErr, IfOk, IfSome, OnOk, OnErr, MatchOption};
ghost use Rattle.std.specs.Bool.{OnTrue, OnFalse};
ghost use Rattle.std.specs.Borrow.{sem};
ghost use Rattle.records.specs.Page.{empty_page};
ghost use Rattle.frames.specs.Resident.{next_number, IsEmptyPage, IsResident, IsMutable, page_of, first_mutable, with_opened, with_page, without_oldest};
ghost use Rattle.frames.specs.Ring.{IsSlotAfter};
ghost use Rattle.frames.specs.Lends.{LendsPage, LendsPageIf};

use records::Page;
use std::alloc::{AllocError, Global};
use std::marker::Model;
use thiserror::Error;

/// The number of a page is below 2 to this power, so that its address and all in it fit a `u64`.
pub const NUMBER_BITS: u32 = 48;

/// No frame is free.
#[derive(Clone, Copy, Debug, PartialEq, Eq, Error)]
#[error("no frame is free")]
pub struct NoFrame;

/// The resident pages of a log, numbered without gaps, each in a frame of its own.
///
/// The tail page and the `n / 3 - 1` pages before it, of `n` frames, are the mutable part. A page
/// is opened behind the tail page and dropped before the mutable part, oldest first. Memory for
/// all frames, `PAGE_SIZE` bytes each, is taken by [`Frames::new`] and used again from page to page.
#[derive(Drop)]
pub struct Frames {
    frames: Vec<Page>,
    /// The slot of the oldest resident page.
    slot: usize,
    /// How many pages are resident.
    resident: usize,
    /// The number of the oldest resident page, or of the first to be opened.
    oldest: u64,
}

#[tactic(auto, using(crate::proofs::Windows::frames_steps))]
impl Model for Frames {
    ghost use Rattle.frames.specs.Resident.{Resident};
    ghost use Rattle.frames.specs.Ring.{shown, IsRing};
    ghost use Rattle.std.specs.Prelude.{length};

    ghost Value = { Resident };

    ghost view = { λ f. shown f.frames.items f.slot f.resident f.oldest };

    ghost invariant = { λ f. IsRing (length f.frames.items) f.slot f.resident f.oldest };
}

#[tactic(auto, using(crate::proofs::Windows::frames_steps))]
impl Frames {
    /// This many frames, at least 3, and no resident page. The only call that takes memory; that of a frame is touched as records are put
    /// into its pages.
    pub fn new(alloc: Global, frames: usize) -> Result<Self, AllocError>
        requires { 3 ≤ frames }
        ensures { IfOk result (λ made. made ≡ record { oldest = 0; pages = []; frames = frames }) }
    {
        let mut pages = Vec::with_capacity(alloc, frames)?;
        for _ in 0..frames {
            pages.push_reserved(Page::blank(alloc)?);
        }
        Ok(Frames {
            frames: pages,
            slot: 0,
            resident: 0,
            oldest: 0,
        })
    }

    /// The number of the oldest resident page, or of the first page to be opened.
    pub fn oldest(&self) -> u64
        ensures oldest { result ≡ self.now.oldest }
        ensures in_range { next_number self.now < 2 ^ NUMBER_BITS }
    {
        self.oldest
    }

    /// The number of the page that [`Frames::open_next`] opens: 0, or one more than the newest.
    #[inline]
    pub fn next_number(&self) -> u64
        ensures number { result ≡ next_number self.now }
        ensures in_range { result < 2 ^ NUMBER_BITS }
        ensures enough { 3 ≤ self.now.frames }
        ensures fits { length self.now.pages ≤ self.now.frames }
    {
        self.oldest + self.resident as u64
    }

    /// The number of the newest page, if a page is resident.
    pub fn tail(&self) -> Option<u64>
        ensures tail { MatchOption result (self.now.pages ≡ []) (λ number. number + 1 ≡ next_number self.now) }
        ensures in_range { next_number self.now < 2 ^ NUMBER_BITS }
    {
        if self.resident == 0 {
            return None;
        }
        Some(self.next_number() - 1)
    }

    /// The number of the first page of the mutable part, or of the first page to be opened.
    pub fn first_mutable(&self) -> u64
        ensures { result ≡ first_mutable self.now }
    {
        self.next_number()
            .saturating_sub(self.frames.len() as u64 / 3)
            .max(self.oldest)
    }

    /// The number of frames without a page.
    pub fn free(&self) -> usize
        ensures { result + length self.now.pages ≡ self.now.frames }
    {
        self.frames.len() - self.resident
    }

    /// The page of this number, if it is resident.
    #[inline]
    pub fn page(&self, number: u64) -> Option<&Page>
        ensures resident { IsSome result ↔ IsResident self.now number }
        ensures bytes { IfSome result (λ page. page.now ≡ page_of self.now number) }
    {
        if number < self.oldest || self.next_number() <= number {
            return None;
        }
        let place = (number - self.oldest) as usize;
        let slot = slot_after(self.slot, place, self.frames.len());
        Some(&self.frames[slot])
    }

    /// The page of this number to write to, if it is in the mutable part.
    #[inline]
    pub fn page_mut(&mut self, number: u64) -> Option<&mut Page>
        ensures* writes_back { sem 𝓛 (LendsPageIf self.entry number result) }
        ensures mutable { IsSome result ↔ IsMutable self.old number }
        ensures bytes { IfSome result (λ page. page.now ≡ page_of self.old number) }
    {
        if number < self.first_mutable() || self.next_number() <= number {
            return None;
        }
        Some(self.lend(number))
    }

    /// The oldest page to write to, whether it is in the mutable part or not: for who writes it to a device and drops it then.
    pub fn oldest_mut(&mut self) -> &mut Page
        requires { 0 < length self.old.pages }
        ensures* writes_back { sem 𝓛 (LendsPage self.entry self.entry.now.oldest result) }
        ensures bytes { result.now ≡ page_of self.old self.old.oldest }
        // Once it is dropped, what was written is gone; and a page that was not written is as it was.
        ensures dropped { (bytes : List ℕ) → without_oldest (with_page self.old self.old.oldest bytes) ≡ without_oldest self.old }
        ensures unwritten { with_page self.old self.old.oldest (page_of self.old self.old.oldest) ≡ self.old }
    {
        let oldest = self.oldest;
        self.lend(oldest)
    }

    // The page of this number, which is resident, to write to.
    #[inline]
    fn lend(&mut self, number: u64) -> &mut Page
        requires { IsResident self.old number }
        ensures* writes_back { sem 𝓛 (LendsPage self.entry number result) }
        ensures bytes { result.now ≡ page_of self.old number }
    {
        let place = (number - self.oldest) as usize;
        let slot = slot_after(self.slot, place, self.frames.len());
        &mut self.frames[slot]
    }

    /// Opens an empty page behind the tail page, and gives its number. Refused where no frame is
    /// free, and nothing changes then.
    pub fn open_next(&mut self) -> Result<u64, NoFrame>
        requires { next_number self.old + 1 < 2 ^ NUMBER_BITS }
        ensures full { IsErr result ↔ (length self.old.pages ≡ self.old.frames) }
        ensures number { IfOk result (λ number. number ≡ next_number self.old) }
        ensures opened { OnOk result (self.new ≡ with_opened self.old) }
        ensures empty { let number = next_number self.old in OnOk result (IsEmptyPage number (empty_page number)) }
        ensures refused { OnErr result (self.new ≡ self.old) }
    {
        if self.resident == self.frames.len() {
            return Err(NoFrame);
        }
        let number = self.next_number();
        let slot = slot_after(self.slot, self.resident, self.frames.len());
        self.frames[slot].reset(number);
        self.resident += 1;
        Ok(number)
    }

    /// Drops the oldest resident page if it stands before the mutable part, and says whether it
    /// did. Else nothing changes.
    pub fn drop_oldest(&mut self) -> bool
        ensures outside { IsTrue result ↔ (self.old.oldest < first_mutable self.old) }
        ensures dropped { OnTrue result (self.new ≡ without_oldest self.old) }
        ensures kept { OnFalse result (self.new ≡ self.old) }
    {
        if self.first_mutable() <= self.oldest {
            return false;
        }
        self.slot = slot_after(self.slot, 1, self.frames.len());
        self.resident -= 1;
        self.oldest += 1;
        true
    }
}

// The slot this many places after another, round the end.
#[inline]
#[tactic(auto, using(crate::proofs::Windows::frames_steps))]
fn slot_after(slot: usize, count: usize, slots: usize) -> usize
    requires inside { slot < slots }
    requires once_round { count ≤ slots }
    ensures { IsSlotAfter slots slot count result }
{
    let rest = slots - slot;
    if count < rest {
        slot + count
    } else {
        count - rest
    }
}

#[cfg(test)]
mod tests;

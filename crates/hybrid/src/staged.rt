// Pages that were read outside, whole or a piece of each.

ghost use Rattle.std.specs.Prelude.{◌≡◌, ◌≢◌, ◌+◌, ◌↔◌, ◌≤◌, List, [], None, Some, IsTrue, IsSome, IsOkAnd};
ghost use Rattle.std.specs.Prelude.{IfSome, IfNone, IfErr, OnOk, OnErr, length};
ghost use Rattle.std.specs.List.{Contains};
ghost use Rattle.records.specs.Read.{shown};
ghost use Rattle.records.specs.Records.{IsLaidOut, Stored, records_of, size_of};
ghost use Rattle.hybrid.specs.Staging.{AreRight, HasBytes, IsRead, IsRight, IsStaged, StagedPage};
ghost use Rattle.hybrid.specs.Reading.{HasRead, HasStaged, MatchReadFault, bytes_in, piece_in};
ghost use Rattle.hybrid.specs.Ways.{AreInReach, IsAtHand};

use crate::piece::Piece;
use device::{Device, Shows};
use records::laws::parts_of_the_same_bytes_are_the_same;
use records::{NotARecord, PAGE_SIZE, Page, Record, Whole, record_before, record_there};
use std::alloc::{AllocError, Global};
use std::marker::Model;
use thiserror::Error;
use words::reply::Fault;

/// Why no page was read.
#[derive(Clone, Copy, Debug, PartialEq, Eq, Error)]
pub enum ReadFault {
    /// No memory for the page. The device was not asked.
    #[error("out of memory")]
    OutOfMemory,
    /// The device failed.
    #[error("device fault")]
    DeviceFault,
}

impl From<ReadFault> for Fault {
    ghost use Rattle.hybrid.specs.Reading.{fault_of};

    ghost from_gives = { λ error fault. fault ≡ fault_of error };

    fn from(error: ReadFault) -> Fault {
        match error {
            ReadFault::OutOfMemory => Fault::OutOfMemory,
            ReadFault::DeviceFault => Fault::DeviceFault,
        }
    }
}

// What was read of a page.
#[derive(Drop)]
enum ReadPage {
    /// All of it.
    All(Page),
    /// A piece of it, to its place in a page whose other bytes may be any.
    Part(Piece, Whole),
}

// What was read of a page, and the receipt that it was read by.
#[derive(Drop)]
struct ReadBy<R: Shows> {
    receipt: R,
    page: ReadPage,
}

/// Pages that were read from the device, each with the receipt that it was read by: whole, or a piece of it.
///
/// Its memory serves from call to call: after `clear` as many reads as before take none. A piece takes the memory of a page.
#[derive(Drop)]
pub struct Staged<R: Shows> {
    alloc: Global,
    reads: Vec<ReadBy<R>>,
    /// Pages for the next reads, with room for those that are lent to reads.
    free: Vec<Page>,
}

impl<R: Shows> Model for Staged<R> {
    ghost use Rattle.std.specs.Prelude.{List, map};
    ghost use Rattle.hybrid.specs.Staging.{StagedPage};
    ghost use Rattle.hybrid.specs.Reading.{staged_by};

    ghost Value = { List StagedPage };

    ghost view = { λ s. map (λ r. staged_by (record { identity = R.identity r.receipt; shown = R.shown r.receipt }) r.page) s.reads.items };
}

impl ReadPage {
    // The page, if all of it was read.
    fn whole(&self) -> Option<&Page>
        ensures page { IfSome result (λ page. page.now ≡ bytes_in self.now) }
        ensures all { IsSome result ↔ (piece_in self.now ≡ None) }
    {
        match self {
            ReadPage::All(page) => Some(page),
            ReadPage::Part(_, _) => None,
        }
    }

    // The record at an offset. None if not all of it was read.
    fn record(&self, offset: usize) -> Option<Result<Record<'_>, NotARecord>>
        ensures found { (s : StagedPage) → s.page ≡ bytes_in self.now → s.piece ≡ piece_in self.now → IsRight s → IsLaidOut s.kept.shown → (r : Stored) → Contains (records_of s.kept.shown) (offset, r)
            → IfSome result (λ found. IsOkAnd found (λ x. shown x ≡ r) × HasBytes s offset (size_of r)) }
        ensures unread { (s : StagedPage) → s.page ≡ bytes_in self.now → s.piece ≡ piece_in self.now → IsRight s → IsLaidOut s.kept.shown → (r : Stored) → Contains (records_of s.kept.shown) (offset, r)
            → IfNone result (HasBytes s offset (size_of r) → ⊥) }
        ensures whole { IfNone result (piece_in self.now ≢ None) }
    {
        match self {
            ReadPage::All(page) => Some(record_there(page, offset)),
            ReadPage::Part(piece, page) => record_in(page, *piece, offset),
        }
    }

    // The page whose memory it takes.
    fn into_page(self) -> Page {
        match self {
            ReadPage::All(page) => page,
            ReadPage::Part(_, page) => page.into_page(),
        }
    }
}

impl<R: Shows> Staged<R> {
    /// No page.
    pub fn new(alloc: Global) -> Self
        ensures { result ≡ [] }
    {
        Staged {
            alloc,
            reads: Vec::new(alloc),
            free: Vec::new(alloc),
        }
    }

    /// Lets the pages go, and keeps their memory for the next ones.
    pub fn clear(&mut self)
        ensures { self.new ≡ [] }
    {
        while let Some(read) = self.reads.pop() {
            keep(&mut self.free, read.page.into_page());
        }
    }

    /// For how many pages there is memory: for those that are staged, and those that are free for the next reads.
    pub fn rooms(&self) -> usize
        ensures { length self.now ≤ result }
    {
        self.reads.len() + self.free.len()
    }

    /// Reads the page of a receipt from the device, once, to where it is kept.
    ///
    /// # Errors
    ///
    /// No memory, or the device failed. The pages are the same then.
    pub fn read<D: Device<Receipt = R>>(
        &mut self,
        receipt: R,
        device: &mut D,
    ) -> Result<(), ReadFault>
        ensures staged { OnOk result (HasStaged (record { identity = R.identity receipt; shown = R.shown receipt }) self.old self.new) }
        ensures right { D.serves device.old receipt → AreRight self.old → OnOk result (AreRight self.new) }
        ensures unchanged { OnErr result (self.new ≡ self.old) }
        ensures fault { IfErr result (λ fault. MatchReadFault fault (device.new ≡ device.old) (D.failures device.new ≡ D.failures device.old + 1)) }
        ensures no_fault { OnOk result (D.failures device.new ≡ D.failures device.old) }
        ensures still_served { (r : R) → D.serves device.old r → D.serves device.new r }
        ensures no_write { D.writes device.new ≡ D.writes device.old }
        ensures once { D.reads device.new ≤ D.reads device.old + 1 }
        ensures no_release { D.releases device.new ≡ D.releases device.old }
    {
        let Ok(()) = self.reads.reserve(1) else {
            return Err(ReadFault::OutOfMemory);
        };
        let Ok(mut page) = free_page(self.alloc, &mut self.free, self.reads.len() + 1) else {
            return Err(ReadFault::OutOfMemory);
        };
        let Ok(()) = device.read(&receipt, &mut page) else {
            keep(&mut self.free, page);
            return Err(ReadFault::DeviceFault);
        };
        self.reads.push_reserved(ReadBy {
            receipt,
            page: ReadPage::All(page),
        });
        Ok(())
    }

    /// Reads what is wanted of the page of a receipt for its record at an offset, from the device, once: [`crate::PIECE_BYTES`]
    /// from there on, up to the page's end, or the whole page if some of it was read before.
    ///
    /// # Errors
    ///
    /// As of [`Staged::read`].
    pub fn read_at<D: Device<Receipt = R>>(
        &mut self,
        receipt: R,
        offset: usize,
        device: &mut D,
    ) -> Result<(), ReadFault>
        ensures read { OnOk result (HasRead (record { identity = R.identity receipt; shown = R.shown receipt }) self.old self.new) }
        ensures right { D.serves device.old receipt → AreRight self.old → OnOk result (AreRight self.new) }
        ensures unchanged { OnErr result (self.new ≡ self.old) }
        ensures fault { IfErr result (λ fault. MatchReadFault fault (device.new ≡ device.old) (D.failures device.new ≡ D.failures device.old + 1)) }
        ensures no_fault { OnOk result (D.failures device.new ≡ D.failures device.old) }
        ensures still_served { (r : R) → D.serves device.old r → D.serves device.new r }
        ensures no_write { D.writes device.new ≡ D.writes device.old }
        ensures once { D.reads device.new ≤ D.reads device.old + 1 }
        ensures no_release { D.releases device.new ≡ D.releases device.old }
    {
        if offset >= PAGE_SIZE || self.has_read(&receipt) {
            return self.read(receipt, device);
        }
        self.read_piece(receipt, Piece::for_record_at(offset), device)
    }

    // Reads a piece of the page of a receipt from the device, once, to where the page is kept.
    fn read_piece<D: Device<Receipt = R>>(
        &mut self,
        receipt: R,
        piece: Piece,
        device: &mut D,
    ) -> Result<(), ReadFault>
        requires first { IsRead self.old (R.identity receipt) → ⊥ }
        ensures read { OnOk result (HasRead (record { identity = R.identity receipt; shown = R.shown receipt }) self.old self.new) }
        ensures right { D.serves device.old receipt → AreRight self.old → OnOk result (AreRight self.new) }
        ensures unchanged { OnErr result (self.new ≡ self.old) }
        ensures fault { IfErr result (λ fault. MatchReadFault fault (device.new ≡ device.old) (D.failures device.new ≡ D.failures device.old + 1)) }
        ensures no_fault { OnOk result (D.failures device.new ≡ D.failures device.old) }
        ensures still_served { (r : R) → D.serves device.old r → D.serves device.new r }
        ensures no_write { D.writes device.new ≡ D.writes device.old }
        ensures once { D.reads device.new ≤ D.reads device.old + 1 }
        ensures no_release { D.releases device.new ≡ D.releases device.old }
    {
        let Ok(()) = self.reads.reserve(1) else {
            return Err(ReadFault::OutOfMemory);
        };
        let Ok(mut page) = free_page(self.alloc, &mut self.free, self.reads.len() + 1) else {
            return Err(ReadFault::OutOfMemory);
        };
        let Ok(()) = device.read_piece(&receipt, piece.from, piece.to, &mut page) else {
            keep(&mut self.free, page);
            return Err(ReadFault::DeviceFault);
        };
        self.reads.push_reserved(ReadBy {
            receipt,
            page: ReadPage::Part(piece, Whole::of(page)),
        });
        Ok(())
    }

    // Whether a page was read by this receipt or one that is `same`, whole or a piece of it.
    fn has_read(&self, receipt: &R) -> bool
        ensures { IsRead self.now (R.identity receipt.now) → IsTrue result }
    {
        for read in &self.reads {
            if read.receipt.same(receipt) {
                return true;
            }
        }
        false
    }

    /// The whole page of this receipt: the one that it lends, or that was read by it or one that is `same`.
    pub fn page<'a>(&'a self, receipt: &'a R) -> Option<&'a Page>
        ensures found { R.is_honest → AreRight self.now → IfSome result (λ page. page.now ≡ R.shown receipt.now) }
        ensures missing { IfNone result (IsStaged self.now (R.identity receipt.now) → ⊥) }
        ensures lent { R.lends → IsSome result }
        ensures near { R.is_honest → IfSome result (λ _. IsAtHand R.lends self.now (R.identity receipt.now)) }
    {
        if let Some(page) = receipt.page() {
            return Some(page);
        }
        for read in &self.reads {
            if read.receipt.same(receipt) {
                let page = read.page.whole();
                if page.is_some() {
                    return page;
                }
            }
        }
        None
    }

    /// The record at an offset of the page of this receipt, from the page that it lends, or from what was read by it or one that is
    /// `same`. None if that does not have it whole.
    pub fn record<'a>(
        &'a self,
        receipt: &'a R,
        offset: usize,
    ) -> Option<Result<Record<'a>, NotARecord>>
        ensures found { R.is_honest → AreRight self.now → IsLaidOut (R.shown receipt.now) → (r : Stored) → Contains (records_of (R.shown receipt.now)) (offset, r)
            → IfSome result (λ found. IsOkAnd found (λ x. shown x ≡ r) × AreInReach R.lends self.now (R.identity receipt.now) offset (size_of r)) }
        ensures unread { R.is_honest → AreRight self.now → IsLaidOut (R.shown receipt.now) → (r : Stored) → Contains (records_of (R.shown receipt.now)) (offset, r)
            → IfNone result (AreInReach R.lends self.now (R.identity receipt.now) offset (size_of r) → ⊥) }
        ensures missing { IfNone result (IsStaged self.now (R.identity receipt.now) → ⊥) }
        ensures lent { R.lends → IsSome result }
    {
        if let Some(page) = receipt.page() {
            return Some(record_there(page, offset));
        }
        for read in &self.reads {
            if read.receipt.same(receipt) {
                let found = read.page.record(offset);
                if found.is_some() {
                    return found;
                }
            }
        }
        None
    }
}

// The record at an offset of a page of which this piece was read. None if the piece does not have it whole.
fn record_in(page: &Whole, piece: Piece, offset: usize) -> Option<Result<Record<'_>, NotARecord>>
    ensures found { (s : StagedPage) → s.page ≡ page.now → s.piece ≡ Some piece → IsRight s → IsLaidOut s.kept.shown → (r : Stored) → Contains (records_of s.kept.shown) (offset, r)
        → IfSome result (λ found. IsOkAnd found (λ x. shown x ≡ r) × HasBytes s offset (size_of r)) }
    ensures unread { (s : StagedPage) → s.page ≡ page.now → s.piece ≡ Some piece → IsRight s → IsLaidOut s.kept.shown → (r : Stored) → Contains (records_of s.kept.shown) (offset, r)
        → IfNone result (HasBytes s offset (size_of r) → ⊥) }
{
    if offset < piece.from {
        return None;
    }
    parts_of_the_same_bytes_are_the_same();
    match record_before(page, piece.to, offset) {
        Ok(record) => Some(Ok(record)),
        Err(_) => None,
    }
}

// A page for the next read: one that is free, or a new one. Then there is room to keep as many pages.
fn free_page(alloc: Global, free: &mut Vec<Page>, pages: usize) -> Result<Page, AllocError> {
    if let Some(page) = free.pop() {
        return Ok(page);
    }
    free.reserve(pages)?;
    Page::blank(alloc)
}

// Keeps a page for the next read, where there is room for it.
fn keep(free: &mut Vec<Page>, page: Page) {
    if free.len() < free.capacity() {
        free.push_reserved(page);
    }
}

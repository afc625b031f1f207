// A device that keeps its pages in a file.

ghost use Rattle.std.specs.Prelude.{◌≡◌, ◌<◌, ◌≤◌, ◌+◌, ◌*◌, ◌∷◌, ℕ, true, IsFalse, IfOk, IfSome, IfNone, IsNone, OnOk, OnErr, All, vec_len, Some};
ghost use Rattle.records.specs.Page.{number_of, SameWithin};
ghost use Rattle.device.specs.Written.{page_of};
ghost use Rattle.device.specs.declared.places.TheConstants.{MAX_PLACES};

use crate::counts::CallCount;
use crate::places::{MAX_PLACES, PlaceNotes, Places};
use crate::system::PageFile;
use crate::{Device, DeviceFault, Shows};
use epoch::{Drained, Retired};
use records::{NUMBER_SIZE, PAGE_SIZE, Page};
use std::alloc::{AllocError, Global};
use std::error::Error;
use std::fs::{File, Files, OpenOptions};
use std::io::ErrorKind;
use std::os::unix::fs::OpenOptionsExt;
use std::snapshot::Snapshot;
use std::sync::{Arc, Mutex, Wait};
use std::{fmt, fs};

/// The permissions of a file of pages: its owner reads and writes it.
const OWNER_ALONE: u32 = 0o600;

/// Why there are no openings of a file.
#[derive(Clone, Copy, Debug, PartialEq, Eq)]
pub enum OpenFault {
    /// The file could not be made anew, or has no further handle.
    CannotOpen,
    /// No memory.
    OutOfMemory,
}

impl fmt::Display for OpenFault {
    ghost use Rattle.device.specs.OpenFaults.{fault_text};

    ghost output = { λ f. Some (fault_text f) };

    fn fmt<W: fmt::Write>(&self, f: &mut fmt::Formatter<W>) -> fmt::Result {
        match self {
            OpenFault::CannotOpen => write!(f, "cannot open device"),
            OpenFault::OutOfMemory => write!(f, "out of memory"),
        }
    }
}

impl Error for OpenFault {}

impl From<AllocError> for OpenFault {
    ghost use Rattle.device.specs.declared.file.OpenFault.TheVariants.{OutOfMemory};

    ghost from_gives = { λ _ fault. fault ≡ OutOfMemory };

    fn from(_: AllocError) -> OpenFault {
        OpenFault::OutOfMemory
    }
}

/// A receipt of a `FileDevice`: the place of a page in the file, and the page's number.
#[derive(Drop)]
pub struct FileReceipt {
    place: u32,
    number: u64,
    written: Written,
    ghost placed: { place < MAX_PLACES },
    ghost numbered: { number ≡ number_of (page_of written) },
}

// The page that was written. Contracts alone see it.
#[derive(Drop)]
pub(crate) enum Written {
    Page(Snapshot<Page>),
    Again(Snapshot<Written>),
}

impl Shows for FileReceipt {
    ghost use Rattle.std.specs.Prelude.{drop, ◌↔◌, IsOk, IsTrue};
    ghost use Rattle.std.proofs.Common.{ap};
    ghost use Rattle.device.specs.Files.{page_shown, place_of, receipt_number};

    ghost shown = { λ r. page_of r.written };

    ghost identity = { λ r. r.place ∷ r.number ∷ page_of r.written };

    ghost is_honest = { ⊥ };

    ghost is_steady = { ⊥ };

    ghost lends = { ⊥ };

    ghost one_page = { λ r s e. ap (λ l. drop 2 l) e };

    ghost steady_is_honest = { λ s. s };

    /// Takes no memory.
    fn again(&self) -> Result<FileReceipt, AllocError>
        ensures never_refused { IsOk result }
        ensures shown { IfOk result (λ r. page_shown r ≡ page_shown self.now) }
        ensures place { IfOk result (λ r. place_of r ≡ place_of self.now) }
        ensures number { IfOk result (λ r. receipt_number r ≡ receipt_number self.now) }
    {
        Ok(FileReceipt {
            place: self.place,
            number: self.number,
            written: Written::Again(Snapshot::of(&self.written)),
        })
    }

    /// Whether both have one place, and one page number.
    fn same(&self, other: &FileReceipt) -> bool
        ensures exact { IsTrue result ↔ ((place_of self.now ≡ place_of other.now)
            × (receipt_number self.now ≡ receipt_number other.now)) }
    {
        self.place == other.place && self.number == other.number
    }

    fn hold_pages() -> bool
        ensures { IsFalse result }
    {
        false
    }

    /// Always none: the page lies in the file.
    fn page(&self) -> Option<&Page>
        ensures { IsNone result }
    {
        None
    }
}

/// One opening of a device that keeps its pages in a file, the page of place p at byte p times `PAGE_SIZE`.
/// Each opening has a handle of its own; the openings of a file share the list of places that are taken.
///
/// A write takes a free place, one that was released before the file grows, and fails where the system
/// does not take the whole page: the place is then free again. A read fails where the file is too short,
/// or where the page that lies there has another number; one of a piece looks at the number only where the
/// piece has it. Neither takes memory. What else is done to the file changes at most what reads give: the
/// device promises nothing of the pages that they give.
#[derive(Drop)]
pub struct FileDevice<'a, R: Wait> {
    rt: &'a R,
    file: PageFile,
    places: Arc<Mutex<Places>>,
    failures: CallCount,
    writes: CallCount,
    reads: CallCount,
    releases: CallCount,
    notes: PlaceNotes,
}

impl<'a, R: Wait> FileDevice<'a, R> {
    ghost use Rattle.device.specs.declared.places.PlaceNote.TheVariants.{Took};
    ghost use Rattle.device.specs.SystemCalls.{Write};
    ghost use Rattle.device.specs.Files.{WroteNone, failures_of, writes_of, reads_of, releases_of, notes_of, asked_of};

    /// Makes the file at a path anew, and gives `n` openings of it, which have not failed. What stands there is taken away
    /// first, a file or a link: a link is not followed, and whoever has the old file open keeps it. The new one is for its
    /// owner alone to read and write.
    ///
    /// # Errors
    ///
    /// [`OpenFault::CannotOpen`] where something else stands there, as a folder or a device of the system, or where the system
    /// refuses the file or a handle of it, and [`OpenFault::OutOfMemory`].
    pub fn openings(
        rt: &'a R,
        alloc: Global,
        path: &str,
        n: usize,
    ) -> Result<Vec<FileDevice<'a, R>>, OpenFault>
    where
        R: Files<File = File>,
        ensures count { IfOk result (λ v. vec_len v ≡ n) }
        ensures new { IfOk result (λ v. All (λ d. failures_of d ≡ 0) v.items) }
    {
        let file = make_file(rt, path)?;
        let places = Places::shared(alloc)?;
        FileDevice::open_all(rt, alloc, &file, &places, n)
    }

    // So many openings of a file.
    fn open_all(
        rt: &'a R,
        alloc: Global,
        file: &File,
        places: &Arc<Mutex<Places>>,
        n: usize,
    ) -> Result<Vec<FileDevice<'a, R>>, OpenFault>
        ensures count { IfOk result (λ v. vec_len v ≡ n) }
        ensures new { IfOk result (λ v. All (λ d. failures_of d ≡ 0) v.items) }
    {
        let mut openings = Vec::with_capacity(alloc, n)?;
        for _ in 0..n {
            openings.push_reserved(FileDevice::opening(rt, file, places)?);
        }
        Ok(openings)
    }

    // One more opening of a file.
    fn opening(
        rt: &'a R,
        file: &File,
        places: &Arc<Mutex<Places>>,
    ) -> Result<FileDevice<'a, R>, OpenFault>
        ensures { IfOk result (λ d. failures_of d ≡ 0) }
    {
        let places = Arc::try_clone(places)?;
        match file.try_clone() {
            Ok(file) => Ok(FileDevice {
                rt,
                file: PageFile::new(file),
                places,
                failures: CallCount::new(),
                writes: CallCount::new(),
                reads: CallCount::new(),
                releases: CallCount::new(),
                notes: PlaceNotes::new(),
            }),
            Err(_) => Err(OpenFault::CannotOpen),
        }
    }

    // Counts a failure.
    fn fault(&mut self) -> DeviceFault
        ensures counted { failures_of self.new ≡ failures_of self.old + 1 }
        ensures no_write { writes_of self.new ≡ writes_of self.old }
        ensures no_read { reads_of self.new ≡ reads_of self.old }
        ensures no_release { releases_of self.new ≡ releases_of self.old }
        ensures no_note { notes_of self.new ≡ notes_of self.old }
        ensures not_asked { asked_of self.new ≡ asked_of self.old }
    {
        self.failures.note();
        DeviceFault
    }

    // Writes a page to a free place.
    fn put(&mut self, page: &Page) -> Option<u32>
        ensures number { IfSome result (λ place. place < MAX_PLACES) }
        ensures taken { IfSome result (λ place. notes_of self.new ≡ Took place ∷ notes_of self.old) }
        ensures written { IfSome result (λ place. asked_of self.new ≡ Write (place * PAGE_SIZE) page.now true ∷ asked_of self.old) }
        ensures none { IfNone result (WroteNone page.now self.old self.new) }
        ensures no_failure { failures_of self.new ≡ failures_of self.old }
        ensures no_write { writes_of self.new ≡ writes_of self.old }
        ensures no_read { reads_of self.new ≡ reads_of self.old }
        ensures no_release { releases_of self.new ≡ releases_of self.old }
    {
        let place = self.places.lock(self.rt).take(&mut self.notes)?;
        if self.file.write(page, offset(place)) {
            return Some(place);
        }
        self.places.lock(self.rt).give_back(place, &mut self.notes);
        None
    }
}

// Makes a file anew. It is made only where nothing stands, so a link that is put there meanwhile is not followed either.
fn make_file<R: Files<File = File>>(rt: &R, path: &str) -> Result<File, OpenFault> {
    take_away(rt, path)?;
    let mut options = OpenOptions::new();
    options
        .read(true)
        .write(true)
        .create_new(true)
        .mode(OWNER_ALONE);
    match options.open(rt, path) {
        Ok(file) => Ok(file),
        Err(_) => Err(OpenFault::CannotOpen),
    }
}

// Takes away the file or the link that stands at a path, if one does. Nothing else is taken away.
fn take_away<R: Files>(rt: &R, path: &str) -> Result<(), OpenFault> {
    match fs::symlink_metadata(rt, path) {
        Ok(found) if found.is_file() || found.is_symlink() => match fs::remove_file(rt, path) {
            Ok(()) => Ok(()),
            Err(_) => Err(OpenFault::CannotOpen),
        },
        Ok(_) => Err(OpenFault::CannotOpen),
        Err(fault) if fault.kind() == ErrorKind::NotFound => Ok(()),
        Err(_) => Err(OpenFault::CannotOpen),
    }
}

// The byte of the file at which a place begins.
fn offset(place: u32) -> u64
    ensures { result ≡ place * PAGE_SIZE }
{
    place as u64 * PAGE_SIZE as u64
}

impl<'a, R: Wait> Device for FileDevice<'a, R> {
    ghost use Rattle.device.specs.declared.places.PlaceNote.TheVariants.{Took, GaveBack};
    ghost use Rattle.device.specs.SystemCalls.{Write, Read};
    ghost use Rattle.device.specs.Files.{IsServed, WroteNone, GaveNone, HasNumber, GaveNoPiece, piece_call, failures_of, writes_of, reads_of, releases_of, notes_of, asked_of, page_shown, place_of, receipt_number};
    ghost use Rattle.epoch.specs.Seats.{drained_epoch, drained_of, retired_epoch, retired_of, retired_value};

    type Receipt = FileReceipt;

    ghost failures = { λ d. d.failures };

    ghost writes = { λ d. d.writes };

    ghost reads = { λ d. d.reads };

    ghost releases = { λ d. d.releases };

    ghost wrote = { λ before page r after. Unit {0} };

    ghost serves = { λ d r. IsServed };

    ghost copies = { λ d r s same served. served };

    ghost steady = { λ s d r. absurd s };

    /// Takes the place of its receipt, and keeps none where it fails.
    fn write(&mut self, page: &Page) -> Result<FileReceipt, DeviceFault>
        ensures shown { IfOk result (λ r. page_shown r ≡ page.now) }
        ensures taken { IfOk result (λ r. notes_of self.new ≡ Took (place_of r) ∷ notes_of self.old) }
        ensures written { IfOk result (λ r. asked_of self.new ≡ Write (place_of r * PAGE_SIZE) page.now true ∷ asked_of self.old) }
        ensures none_kept { OnErr result (WroteNone page.now self.old self.new) }
        ensures failure { OnErr result (failures_of self.new ≡ failures_of self.old + 1) }
        ensures no_failure { OnOk result (failures_of self.new ≡ failures_of self.old) }
        ensures counted { writes_of self.new ≡ writes_of self.old + 1 }
        ensures no_read { reads_of self.new ≡ reads_of self.old }
        ensures no_release { releases_of self.new ≡ releases_of self.old }
    {
        self.writes.note();
        match self.put(page) {
            Some(place) => Ok(FileReceipt {
                place,
                number: page.number(),
                written: Written::Page(Snapshot::of(page)),
            }),
            None => Err(self.fault()),
        }
    }

    /// Gives a page only where it has the number of the page that was written: what the system had at the place of the receipt.
    fn read(&mut self, receipt: &FileReceipt, page: &mut Page) -> Result<(), DeviceFault>
        ensures number { OnOk result (number_of page.new ≡ receipt_number receipt.now) }
        ensures page { IsServed → OnOk result (page.new ≡ page_shown receipt.now) }
        ensures given { OnOk result (asked_of self.new ≡ Read (place_of receipt.now * PAGE_SIZE) page.new true ∷ asked_of self.old) }
        ensures none_given { OnErr result (GaveNone receipt.now page.new self.old self.new) }
        ensures failure { OnErr result (failures_of self.new ≡ failures_of self.old + 1) }
        ensures no_failure { OnOk result (failures_of self.new ≡ failures_of self.old) }
        ensures counted { reads_of self.new ≡ reads_of self.old + 1 }
        ensures no_write { writes_of self.new ≡ writes_of self.old }
        ensures no_release { releases_of self.new ≡ releases_of self.old }
        ensures no_note { notes_of self.new ≡ notes_of self.old }
    {
        self.reads.note();
        let is_read = self.file.read(page, offset(receipt.place));
        if is_read && page.number() == receipt.number {
            return Ok(());
        }
        Err(self.fault())
    }

    /// Reads these bytes of the file alone, at the place of the receipt: the system is asked once.
    ///
    /// Where the piece has the page's number (`from` is 0, and `to` at least 8), gives it only where that is the number of the page
    /// that was written. Else nothing tells the piece of another page: whatever the file has there is given.
    fn read_piece(
        &mut self,
        receipt: &FileReceipt,
        from: usize,
        to: usize,
        page: &mut Page,
    ) -> Result<(), DeviceFault>
        requires in_order { from ≤ to }
        requires in_page { to ≤ PAGE_SIZE }
        ensures number { HasNumber from to → OnOk result (number_of page.new ≡ receipt_number receipt.now) }
        ensures page { IsServed → OnOk result (SameWithin from to page.new (page_shown receipt.now)) }
        ensures given { OnOk result (asked_of self.new ≡ piece_call receipt.now from to page.new true ∷ asked_of self.old) }
        ensures none_given { OnErr result (GaveNoPiece receipt.now from to page.new self.old self.new) }
        ensures failure { OnErr result (failures_of self.new ≡ failures_of self.old + 1) }
        ensures no_failure { OnOk result (failures_of self.new ≡ failures_of self.old) }
        ensures counted { reads_of self.new ≡ reads_of self.old + 1 }
        ensures no_write { writes_of self.new ≡ writes_of self.old }
        ensures no_release { releases_of self.new ≡ releases_of self.old }
        ensures no_note { notes_of self.new ≡ notes_of self.old }
    {
        self.reads.note();
        let at = offset(receipt.place) + from as u64;
        let is_read = self.file.read_piece(page, from, to, at);
        let is_other = from == 0 && to >= NUMBER_SIZE && page.number() != receipt.number;
        if is_read && !is_other {
            return Ok(());
        }
        Err(self.fault())
    }

    /// Frees the place, for the next write.
    fn release(&mut self, retired: Retired<FileReceipt>, drained: &Drained)
        requires own_epoch { retired_epoch retired ≡ drained_epoch drained.now }
        requires own_epochs { retired_of retired ≡ drained_of drained.now }
        ensures no_failure { failures_of self.new ≡ failures_of self.old }
        ensures no_write { writes_of self.new ≡ writes_of self.old }
        ensures no_read { reads_of self.new ≡ reads_of self.old }
        ensures counted { releases_of self.new ≡ releases_of self.old + 1 }
        ensures given_back { notes_of self.new ≡ GaveBack (place_of (retired_value retired)) ∷ notes_of self.old }
        ensures not_asked { asked_of self.new ≡ asked_of self.old }
    {
        self.releases.note();
        let receipt = retired.into_value(drained);
        self.places
            .lock(self.rt)
            .give_back(receipt.place, &mut self.notes);
    }
}

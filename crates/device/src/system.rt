// The file of pages, as the system has it.

ghost use Rattle.std.specs.Prelude.{◌≡◌, ◌≤◌, ◌∷◌, []};
ghost use Rattle.records.specs.Page.{SameWithin};

use records::{PAGE_SIZE, Page};
use std::fs::File;
use std::marker::Model;
use std::os::unix::fs::FileExt;
use std::snapshot::Snapshot;

/// A file of pages. To a contract it is what the system was asked of it, the newest first: each call with the byte of the file
/// from which it was to go on, the page, and whether the system did all of it.
///
/// Only the calls here make such a note, each of one call of the system, or of two for a page whose memory does not hold its last bytes.
/// So no caller can say that a page was written or read, or that the system refused it, where the system was not asked. The notes are
/// not stored.
#[derive(Drop)]
pub(crate) struct PageFile {
    file: File,
    last: Asked,
}

// A call of the system and those before it.
#[derive(Drop)]
enum Asked {
    Nothing,
    Write(u64, Snapshot<Page>, bool, Snapshot<Asked>),
    Read(u64, Snapshot<Page>, bool, Snapshot<Asked>),
    ReadPiece(u64, usize, usize, Snapshot<Page>, bool, Snapshot<Asked>),
}

impl Model for PageFile {
    ghost use Rattle.std.specs.Prelude.{List};
    ghost use Rattle.device.specs.SystemCalls.{SystemCall};

    ghost Value = { List SystemCall };

    ghost use Rattle.device.specs.SystemCalls.{calls_in};

    ghost view = { λ f. calls_in f.last };
}

impl PageFile {
    ghost use Rattle.device.specs.SystemCalls.{Write, Read, ReadPiece};

    /// A file of which the system was asked nothing yet.
    pub(crate) fn new(file: File) -> PageFile
        ensures { result ≡ [] }
    {
        PageFile {
            file,
            last: Asked::Nothing,
        }
    }

    /// Writes a page from this byte of the file on, and says whether the system took all of it.
    pub(crate) fn write(&mut self, page: &Page, at: u64) -> bool
        ensures { self.new ≡ Write at page.now result ∷ self.old }
    {
        let is_done = write_parts(&self.file, page, at);
        let earlier = Snapshot::of(&self.last);
        self.last = Asked::Write(at, Snapshot::of(page), is_done, earlier);
        is_done
    }

    /// Reads a page from this byte of the file on, and says whether the system gave all of it.
    pub(crate) fn read(&mut self, page: &mut Page, at: u64) -> bool
        ensures { self.new ≡ Read at page.new result ∷ self.old }
    {
        let is_done = self.file.read_exact_at(page.bytes_mut(), at).is_ok();
        let earlier = Snapshot::of(&self.last);
        self.last = Asked::Read(at, Snapshot::of(page), is_done, earlier);
        is_done
    }

    /// Reads the bytes of a page from `from` up to `to`, from this byte of the file on, and says whether the system gave all of them.
    /// All other bytes of the page stay.
    pub(crate) fn read_piece(&mut self, page: &mut Page, from: usize, to: usize, at: u64) -> bool
        requires in_order { from ≤ to }
        requires in_page { to ≤ PAGE_SIZE }
        ensures asked { self.new ≡ ReadPiece at from to page.new result ∷ self.old }
        ensures before { SameWithin 0 from page.new page.old }
        ensures behind { SameWithin to PAGE_SIZE page.new page.old }
    {
        let piece = &mut page.bytes_mut()[from..to];
        let is_done = self.file.read_exact_at(piece, at).is_ok();
        let earlier = Snapshot::of(&self.last);
        self.last = Asked::ReadPiece(at, from, to, Snapshot::of(page), is_done, earlier);
        is_done
    }
}

// Writes a page from this byte of a file on: the bytes that lie in its memory, and the zeros behind them, if there are some.
fn write_parts(file: &File, page: &Page, at: u64) -> bool {
    let (bytes, zeros) = page.parts();
    if file.write_all_at(bytes, at).is_err() {
        return false;
    }
    if zeros.is_empty() {
        return true;
    }
    match at.checked_add(bytes.len() as u64) {
        Some(behind) => file.write_all_at(zeros, behind).is_ok(),
        None => false,
    }
}

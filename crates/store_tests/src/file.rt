// Pages in files: places used again, files that were changed, and files that take nothing.

ghost use Rattle.epoch.specs.Seats.{IsOutside};
ghost use Rattle.std.specs.Prelude.{◌≡◌, ◌<◌};

use crate::full::FullDisk;
use crate::memory::new_page;
use device::{Device, DeviceFault, FileDevice, OpenFault, Releasable, Shows};
use epoch::{EpochSeat, Epochs};
use records::{HEADER_SIZE, PAGE_SIZE, Page, Whole};
use std::alloc::Global;
use std::fs;
use std::fs::{File, Files, OpenFile};
use std::os::unix::fs::FileExt;
use std::process::Abort;
use std::sync::Wait;

/// The bytes of a page.
const SIZE: u64 = PAGE_SIZE as u64;

// The only opening of a file.
pub(crate) fn opened<'a, R: Wait + Files<File = File>>(
    rt: &impl Abort,
    files: &'a R,
    alloc: Global,
    path: &str,
) -> FileDevice<'a, R> {
    let mut openings = FileDevice::openings(files, alloc, path, 1).expect(rt, "a file of pages");
    let device = openings.pop().expect(rt, "an opening");
    drop(openings);
    device
}

// The first two of some openings.
pub(crate) fn first_two<'a, D>(rt: &impl Abort, openings: &'a mut [D]) -> (&'a mut D, &'a mut D) {
    let (one, others) = openings.split_first_mut().expect(rt, "an opening");
    (one, others.first_mut().expect(rt, "a second opening"))
}

// How long a file is.
pub(crate) fn length_of<R: Files<File = File>>(rt: &R, path: &str) -> Option<u64> {
    match fs::metadata(rt, path) {
        Ok(found) => Some(found.len()),
        Err(_) => None,
    }
}

// A file is so long.
pub(crate) fn has_length<R: Abort + Files<File = File>>(rt: &R, path: &str, length: u64) {
    assert!(rt; length_of(rt, path) == Some(length));
}

// Removes a file, which is so long.
pub(crate) fn remove_of_length<R: Abort + Files<File = File>>(rt: &R, path: &str, length: u64) {
    has_length(rt, path, length);
    fs::remove_file(rt, path).expect(rt, "the file removed");
}

// The number of the page that is read. `None` at a fault.
fn number_read<D: Device>(
    rt: &impl Abort,
    alloc: Global,
    device: &mut D,
    receipt: &D::Receipt,
) -> Option<u64> {
    let mut page = new_page(rt, alloc, 99);
    let read = device.read(receipt, &mut page);
    let number = page.number();
    drop(page);
    match read {
        Ok(()) => Some(number),
        Err(DeviceFault) => None,
    }
}

// The page of this number is read.
fn reads<D: Device>(
    rt: &impl Abort,
    alloc: Global,
    device: &mut D,
    receipt: &D::Receipt,
    number: u64,
) {
    assert!(rt; number_read(rt, alloc, device, receipt) == Some(number));
}

// One opening reads the page of this number that another one wrote.
fn reads_across<D: Device>(
    rt: &impl Abort,
    alloc: Global,
    writer: &mut D,
    reader: &mut D,
    number: u64,
) {
    let receipt = receipt_of(rt, alloc, writer, number);
    reads(rt, alloc, reader, &receipt, number);
    drop(receipt);
}

// The receipt of an empty page of this number that is written.
pub(crate) fn receipt_of<D: Device>(
    rt: &impl Abort,
    alloc: Global,
    device: &mut D,
    number: u64,
) -> D::Receipt {
    let page = new_page(rt, alloc, number);
    let receipt = written(rt, device, &page);
    drop(page);
    receipt
}

// The first two openings read each what the other wrote.
fn read_each_other<D: Device>(rt: &impl Abort, alloc: Global, openings: &mut [D]) {
    let (one, two) = first_two(rt, openings);
    reads_across(rt, alloc, one, two, 5);
    reads_across(rt, alloc, two, one, 6);
}

// A page with this number whose bytes behind the header differ from place to place, and by the seed.
pub(crate) fn filled_page(rt: &impl Abort, alloc: Global, number: u64, seed: u8) -> Page {
    let mut page = new_page(rt, alloc, number);
    let bytes = page.bytes_mut();
    for at in HEADER_SIZE..bytes.len() {
        bytes[at] = (at % 251) as u8 ^ seed;
    }
    page
}

// Three such pages. The second and the third have one number, so their places alone tell them apart.
fn filled_pages(rt: &impl Abort, alloc: Global) -> [Page; 3] {
    [
        filled_page(rt, alloc, 5, 0),
        filled_page(rt, alloc, 6, 3),
        filled_page(rt, alloc, 6, 255),
    ]
}

// The receipt of a page that is written.
pub(crate) fn written<D: Device>(rt: &impl Abort, device: &mut D, page: &Page) -> D::Receipt
    ensures { D.Receipt.shown result ≡ page.now }
{
    device.write(page).expect(rt, "a page written")
}

// A receipt gives this page, byte for byte.
pub(crate) fn gives<D: Device>(
    rt: &impl Abort,
    alloc: Global,
    device: &mut D,
    receipt: &D::Receipt,
    page: &Page,
) {
    let mut seen = new_page(rt, alloc, 99);
    device.read(receipt, &mut seen).expect(rt, "a page read");
    assert!(rt; seen == *page);
    drop(seen);
}

// Writes three pages through one opening. Another one gives each of them, byte for byte.
fn gives_three<D: Device>(
    rt: &impl Abort,
    alloc: Global,
    writer: &mut D,
    reader: &mut D,
    pages: &[Page; 3],
) {
    let first = written(rt, writer, &pages[0]);
    let second = written(rt, writer, &pages[1]);
    let third = written(rt, writer, &pages[2]);
    gives(rt, alloc, reader, &first, &pages[0]);
    gives(rt, alloc, reader, &second, &pages[1]);
    gives(rt, alloc, reader, &third, &pages[2]);
    drop(third);
    drop(second);
    drop(first);
}

// The first two of three openings of a file give three pages to each other.
fn gives_in_file<R: Abort + Wait + Files<File = File>>(
    rt: &R,
    alloc: Global,
    path: &str,
    pages: &[Page; 3],
) {
    let mut openings = FileDevice::openings(rt, alloc, path, 3).expect(rt, "three openings");
    assert!(rt; openings.len() == 3);
    let (one, two) = first_two(rt, openings.as_mut_slice());
    gives_three(rt, alloc, one, two, pages);
    drop(openings);
}

// Whether a page lies at a place of a file, byte for byte.
pub(crate) fn lies_at<R: Abort + Files<File = File>>(
    rt: &R,
    alloc: Global,
    path: &str,
    place: u64,
    page: &Page,
) -> bool
    requires { place < 4194304 }
{
    let mut seen = new_page(rt, alloc, 99);
    let file = File::open(rt, path).expect(rt, "the file opened");
    file.read_exact_at(seen.bytes_mut(), place * SIZE)
        .expect(rt, "a page of the file");
    drop(file);
    let is_so = seen == *page;
    drop(seen);
    is_so
}

#[test]
fn a_file_keeps_each_byte(rt: HostRuntime) {
    let path = "whole.pages";
    let pages = filled_pages(&rt, rt.alloc());
    gives_in_file(&rt, rt.alloc(), path, &pages);
    assert!(rt; lies_at(&rt, rt.alloc(), path, 0, &pages[0]));
    assert!(rt; lies_at(&rt, rt.alloc(), path, 1, &pages[1]));
    assert!(rt; lies_at(&rt, rt.alloc(), path, 2, &pages[2]));
    drop(pages);
    remove_of_length(&rt, path, 3 * SIZE);
}

#[test]
fn an_opening_reads_what_another_wrote(rt: HostRuntime) {
    let path = "two_openings.pages";
    let mut openings = FileDevice::openings(&rt, rt.alloc(), path, 2).expect(&rt, "two openings");
    read_each_other(&rt, rt.alloc(), openings.as_mut_slice());
    drop(openings);
    remove_of_length(&rt, path, 2 * SIZE);
}

// Epochs with one seat.
pub(crate) fn epochs(rt: &impl Abort, alloc: Global) -> (Epochs, EpochSeat)
    ensures { IsOutside result.0 result.1 }
{
    let (epochs, mut seats) = Epochs::new(alloc, 1).expect(rt, "memory for the epochs");
    let seat = seats.pop().expect(rt, "a seat");
    drop(seats);
    (epochs, seat)
}

// Retires a receipt, drains its epoch, and releases it.
pub(crate) fn release<D: Device>(
    rt: &impl Abort,
    epochs: &Epochs,
    seat: &mut EpochSeat,
    device: &mut D,
    receipt: D::Receipt,
)
    requires { IsOutside epochs.now seat.old }
    ensures { IsOutside epochs.now seat.new }
{
    let retired = epochs.retire(seat, receipt).ok().expect(rt, "an epoch");
    let releasable = Releasable::drain(retired)
        .ok()
        .expect(rt, "a drained epoch");
    releasable.release(device);
}

// What was retired inside a stay is not drained inside it, and is once the seat stays anew.
fn is_drained_by_another_stay<R: Abort + Wait>(rt: &R, epochs: &Epochs, seat: EpochSeat)
    requires { IsOutside epochs.now seat }
{
    let mut inside = epochs.enter(rt, seat);
    let retired = epochs
        .retire_inside(&mut inside, 7u64)
        .expect(rt, "an epoch");
    let early = Releasable::drain(retired).err();
    let retired = early.expect(rt, "a retirement that waits");
    let inside = epochs.enter(rt, epochs.leave(inside));
    assert!(rt; Releasable::drain(retired).is_ok());
    drop(epochs.leave(inside));
}

#[test]
fn the_own_stay_counts(rt: HostRuntime) {
    let (epochs, seat) = epochs(&rt, rt.alloc());
    is_drained_by_another_stay(&rt, &epochs, seat);
    drop(epochs);
}

// Releases a page twice: by a copy of its receipt, and by the receipt.
fn release_twice<D: Device>(
    rt: &impl Abort,
    epochs: &Epochs,
    seat: &mut EpochSeat,
    device: &mut D,
    receipt: D::Receipt,
)
    requires { IsOutside epochs.now seat.old }
{
    let copy = receipt.again().expect(rt, "memory for a receipt");
    release(rt, epochs, seat, device, copy);
    release(rt, epochs, seat, device, receipt);
}

// Which of two pages is released.
#[derive(Clone, Copy)]
pub(crate) enum Released {
    First,
    Second,
}

// Writes pages 0 and 1, and releases one of them twice. Gives the other's receipt.
fn kept_after<D: Device>(
    rt: &impl Abort,
    alloc: Global,
    device: &mut D,
    released: Released,
) -> D::Receipt {
    let (epochs, mut seat) = epochs(rt, alloc);
    let first = receipt_of(rt, alloc, device, 0);
    let second = receipt_of(rt, alloc, device, 1);
    let (gone, kept) = match released {
        Released::First => (first, second),
        Released::Second => (second, first),
    };
    release_twice(rt, &epochs, &mut seat, device, gone);
    drop(seat);
    drop(epochs);
    kept
}

// After two more writes a page from before is read by its receipt, and the pages 2 and 3 by theirs.
fn reads_three<D: Device>(
    rt: &impl Abort,
    alloc: Global,
    device: &mut D,
    before: &D::Receipt,
    number: u64,
) {
    let one = receipt_of(rt, alloc, device, 2);
    let two = receipt_of(rt, alloc, device, 3);
    reads(rt, alloc, device, before, number);
    reads(rt, alloc, device, &one, 2);
    reads(rt, alloc, device, &two, 3);
    drop(two);
    drop(one);
}

// Where one of two pages was released twice, the other, of this number, is read after two more writes, and so are these.
pub(crate) fn keeps_the_other<D: Device>(
    rt: &impl Abort,
    alloc: Global,
    device: &mut D,
    released: Released,
    number: u64,
) {
    let kept = kept_after(rt, alloc, device, released);
    reads_three(rt, alloc, device, &kept, number);
    drop(kept);
}

// What `keeps_the_other` says, of a file, which then has three pages.
fn keeps_the_other_in_file<R: Abort + Wait + Files<File = File>>(
    rt: &R,
    alloc: Global,
    path: &str,
    released: Released,
    number: u64,
) {
    let mut device = opened(rt, rt, alloc, path);
    keeps_the_other(rt, alloc, &mut device, released, number);
    drop(device);
    remove_of_length(rt, path, 3 * SIZE);
}

#[test]
fn a_released_place_is_used_again(rt: HostRuntime) {
    keeps_the_other_in_file(&rt, rt.alloc(), "released.pages", Released::First, 1);
}

#[test]
fn the_place_that_was_released_is_used_again(rt: HostRuntime) {
    keeps_the_other_in_file(
        &rt,
        rt.alloc(),
        "second_released.pages",
        Released::Second,
        0,
    );
}

// Writes bytes over the front of a file, and cuts it.
pub(crate) fn change<R: Abort + Files<File = File>>(rt: &R, path: &str, bytes: &[u8], len: u64) {
    let mut options = fs::OpenOptions::new();
    let file = options
        .write(true)
        .open(rt, path)
        .expect(rt, "the file opened");
    file.write_all_at(bytes, 0).expect(rt, "bytes written");
    file.set_len(len).expect(rt, "the file cut");
    drop(file);
}

// The number of the page that is read after page 5 was written to a file, and the file was changed.
fn number_after<R: Abort + Wait + Files<File = File>>(
    rt: &R,
    alloc: Global,
    path: &str,
    bytes: &[u8],
    len: u64,
) -> Option<u64> {
    let mut device = opened(rt, rt, alloc, path);
    let receipt = receipt_of(rt, alloc, &mut device, 5);
    change(rt, path, bytes, len);
    let number = number_read(rt, alloc, &mut device, &receipt);
    drop(receipt);
    drop(device);
    number
}

#[test]
fn a_file_cut_short_is_a_fault(rt: HostRuntime) {
    let path = "cut.pages";
    assert!(rt; number_after(&rt, rt.alloc(), path, &[], SIZE) == Some(5));
    assert!(rt; number_after(&rt, rt.alloc(), path, &[], SIZE - 1).is_none());
    assert!(rt; number_after(&rt, rt.alloc(), path, &[], 100).is_none());
    fs::remove_file(&rt, path).expect(&rt, "the file removed");
}

#[test]
fn other_bytes_are_a_fault_or_another_page(rt: HostRuntime) {
    let path = "other.pages";
    let (ones, five) = ([255; PAGE_SIZE], [5, 0, 0, 0, 0, 0, 0, 0, 255]);
    assert!(rt; number_after(&rt, rt.alloc(), path, &five, SIZE) == Some(5));
    assert!(rt; number_after(&rt, rt.alloc(), path, &ones, SIZE).is_none());
    let other = Whole::of(new_page(&rt, rt.alloc(), 6));
    assert!(rt; number_after(&rt, rt.alloc(), path, other.bytes(), SIZE).is_none());
    drop(other);
    fs::remove_file(&rt, path).expect(&rt, "the file removed");
}

#[test]
fn a_file_that_cannot_be_made(rt: HostRuntime) {
    let openings = FileDevice::openings(&rt, rt.alloc(), "no/such/folder/pages", 1);
    assert!(rt; openings.err() == Some(OpenFault::CannotOpen));
}

// Whether a page is written to a file, which is made anew.
pub(crate) fn is_written<R: Wait + Files<File = File>>(
    rt: &impl Abort,
    files: &R,
    alloc: Global,
    path: &str,
) -> bool {
    let page = new_page(rt, alloc, 5);
    let mut device = opened(rt, files, alloc, path);
    let is_so = device.write(&page).is_ok();
    drop(device);
    drop(page);
    is_so
}

#[test]
fn a_full_disk_is_a_fault(rt: HostRuntime) {
    let disk = FullDisk { rt: &rt };
    assert!(rt; !is_written(&rt, &disk, rt.alloc(), "full.pages"));
}

#[test]
fn openings_make_the_file_anew(rt: HostRuntime) {
    let path = "emptied.pages";
    assert!(rt; is_written(&rt, &rt, rt.alloc(), path));
    has_length(&rt, path, SIZE);
    drop(opened(&rt, &rt, rt.alloc(), path));
    remove_of_length(&rt, path, 0);
}

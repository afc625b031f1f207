// Pieces of pages: the records in them, and what devices read of a page.

ghost use Rattle.std.specs.Prelude.{◌≡◌, ◌<◌, ◌≤◌, ◌+◌, OnErr, OnOk};
ghost use Rattle.records.specs.Page.{SameWithin};

use crate::exchanged::{page_with, written_over};
use crate::faulty::failing_at;
use crate::file::{change, filled_page, has_length, opened, written};
use crate::memory::{new_page, one_opening};
use crate::pages::{HASH, TOMBSTONE, copy_of, held, patched, puts_at};
use device::{Device, DeviceFault, Faulty};
use records::{PAGE_SIZE, Page, Whole, record_before};
use std::alloc::Global;
use std::fs;
use std::fs::{File, Files};
use std::process::Abort;
use std::sync::Wait;

/// A page that has the bytes of another one from a place up to an end, and 255 everywhere else.
fn piece_of(rt: &impl Abort, alloc: Global, page: &Page, from: usize, to: usize) -> Whole {
    let mut piece = new_page(rt, alloc, 99);
    let bytes = piece.bytes_mut();
    bytes.fill(255);
    if from <= to && to <= PAGE_SIZE {
        let whole = copy_of(rt, alloc, page);
        bytes[from..to].copy_from_slice(&whole.bytes()[from..to]);
        drop(whole);
    }
    Whole::of(piece)
}

/// Whether a record is read at an offset of a page of which the bytes from there up to an end are known, and no other ones.
fn is_read(rt: &impl Abort, alloc: Global, page: &Page, end: usize, offset: usize) -> bool {
    let piece = piece_of(rt, alloc, page, offset, end);
    let is_so = record_before(&piece, end, offset).is_ok();
    drop(piece);
    is_so
}

/// Whether the record at an offset of a piece has this value, of which so many bytes may take its place.
fn holds_before(
    piece: &Whole,
    end: usize,
    offset: usize,
    value: Option<&[u8]>,
    capacity: usize,
) -> bool {
    let Ok(record) = record_before(piece, end, offset) else {
        return false;
    };
    record.value == value && record.capacity == capacity
}

/// A page's record at an offset is read, with this value and this capacity, in the piece that ends where it ends, and refused in
/// one that is a byte shorter.
fn is_read_to(
    rt: &impl Abort,
    alloc: Global,
    page: &Page,
    offset: usize,
    end: usize,
    value: Option<&[u8]>,
    capacity: usize,
)
    requires { 0 < end }
{
    let piece = piece_of(rt, alloc, page, offset, end);
    assert!(rt; holds_before(&piece, end, offset, value, capacity));
    drop(piece);
    assert!(rt; !is_read(rt, alloc, page, end - 1, offset));
}

/// Whether the piece's record at offset 16 is the example's.
fn holds_the_example(piece: &Whole) -> bool {
    let Ok(record) = record_before(piece, 48, 16) else {
        return false;
    };
    let is_value = record.value == Some(b"1".as_slice());
    record.link == 0 && record.hash == HASH && record.has_key(b"a") && is_value
}

/// The piece with the example's record holds it.
fn has_the_example(rt: &impl Abort, alloc: Global, page: &Page) {
    let piece = piece_of(rt, alloc, page, 16, 48);
    assert!(rt; holds_the_example(&piece));
    drop(piece);
}

#[test]
fn a_piece_at_the_front_of_a_page(rt: HostRuntime) {
    let page = patched(&rt, rt.alloc(), &[]);
    has_the_example(&rt, rt.alloc(), &page);
    is_read_to(&rt, rt.alloc(), &page, 16, 48, Some(b"1"), 3);
    drop(page);
    let page = patched(&rt, rt.alloc(), &TOMBSTONE);
    is_read_to(&rt, rt.alloc(), &page, 16, 48, None, 3);
    drop(page);
}

#[test]
fn a_piece_that_ends_past_the_record(rt: HostRuntime) {
    let page = patched(&rt, rt.alloc(), &[]);
    for end in [49, 4_112, 65_536] {
        assert!(rt; is_read(&rt, rt.alloc(), &page, end, 16), "{end}");
    }
    drop(page);
}

#[test]
fn the_largest_record_at_the_end_of_a_page(rt: HostRuntime) {
    let mut page = Page::new(rt.alloc(), 0).expect(&rt, "memory for a page");
    let (key, value) = ([b'k'; 512], [b'v'; 32_768]);
    puts_at(&rt, &mut page, 0, &key, &value[..31_668], 16, 32_224);
    puts_at(&rt, &mut page, 16, &key, &value, 32_224, 65_536);
    is_read_to(
        &rt,
        rt.alloc(),
        &page,
        16,
        32_224,
        Some(&value[..31_668]),
        31_668,
    );
    is_read_to(&rt, rt.alloc(), &page, 32_224, 65_536, Some(&value), 32_772);
    drop(page);
}

/// Why no record is read, where the piece ends, and at which offset.
type Row = (&'static str, usize, usize);

/// Reasons to refuse an offset of the example.
const REFUSED: [Row; 11] = [
    ("an end past the page", 65_537, 16),
    ("the last end of all", usize::MAX, 16),
    ("an offset in the page's header", 65_536, 8),
    ("the first offset of all", 65_536, 0),
    ("an offset at the end", 16, 16),
    ("an offset past the end", 48, 56),
    ("an offset past the page", 65_536, 65_536),
    ("the last offset of all", 65_536, usize::MAX),
    ("an offset that is no multiple of 8", 65_536, 20),
    ("a part of a record's header", 43, 16),
    ("a record's header alone", 44, 16),
];

/// No record is read of a page without a part that is not known, for each of these reasons.
fn are_refused(rt: &impl Abort, page: &Whole, rows: &[Row]) {
    for (why, end, offset) in rows {
        assert!(rt; record_before(page, *end, *offset).is_err(), "{why}");
    }
}

#[test]
fn each_reason_to_refuse_in_a_piece(rt: HostRuntime) {
    let page = Whole::of(patched(&rt, rt.alloc(), &[]));
    are_refused(&rt, &page, &REFUSED);
    drop(page);
}

/// Writes a page, and reads a piece of it. It knows the device by its contract alone.
fn write_and_read_piece<D: Device>(
    device: &mut D,
    page: &Page,
    from: usize,
    to: usize,
    seen: &mut Page,
) -> Result<(), DeviceFault>
    requires in_order { from ≤ to }
    requires in_page { to ≤ PAGE_SIZE }
    ensures honest { D.Receipt.is_honest → OnOk result (SameWithin from to seen.new page.now) }
    ensures steady { D.Receipt.is_steady → OnOk result (SameWithin from to seen.new page.now) }
    ensures fault { OnErr result (D.failures device.new ≡ D.failures device.old + 1) }
    ensures written_once { D.writes device.new ≡ D.writes device.old + 1 }
    ensures read_once { OnOk result (D.reads device.new ≡ D.reads device.old + 1) }
{
    let receipt = device.write(page)?;
    let read = device.read_piece(&receipt, from, to, seen);
    drop(receipt);
    read
}

/// From where and up to where a piece is read, and what comes of it: whether it has the bytes of the page that was written.
type Case = (usize, usize, Result<bool, DeviceFault>);

/// Whether two pages have the same bytes from a place up to an end.
fn have_the_same(page: &mut Page, other: &Whole, from: usize, to: usize) -> bool
    requires in_order { from ≤ to }
    requires in_page { to ≤ PAGE_SIZE }
{
    page.bytes_mut()[from..to] == other.bytes()[from..to]
}

/// Whether the bytes that a device gives of a page are those of the page.
fn read_of<D: Device>(
    device: &mut D,
    receipt: &D::Receipt,
    page: &Whole,
    seen: &mut Page,
    from: usize,
    to: usize,
) -> Result<bool, DeviceFault> {
    if from > to || to > PAGE_SIZE {
        return Ok(false);
    }
    seen.reset(99);
    device.read_piece(receipt, from, to, seen)?;
    Ok(have_the_same(seen, page, from, to))
}

/// Each case comes as it is to.
fn are_read<D: Device>(
    rt: &impl Abort,
    alloc: Global,
    device: &mut D,
    receipt: &D::Receipt,
    page: &Page,
    cases: &[Case],
) {
    let mut seen = new_page(rt, alloc, 99);
    let whole = copy_of(rt, alloc, page);
    for (from, to, came) in cases {
        assert!(rt;
            read_of(device, receipt, &whole, &mut seen, *from, *to) == *came,
            "{from} to {to}"
        );
    }
    drop(whole);
    drop(seen);
}

/// Pieces at both ends of a page and between them, all of it, and none.
const PIECES: [Case; 10] = [
    (0, 4_096, Ok(true)),
    (0, 65_536, Ok(true)),
    (0, 8, Ok(true)),
    (0, 7, Ok(true)),
    (0, 0, Ok(true)),
    (8, 16, Ok(true)),
    (4_093, 8_200, Ok(true)),
    (61_440, 65_536, Ok(true)),
    (65_535, 65_536, Ok(true)),
    (65_536, 65_536, Ok(true)),
];

/// A device gives each piece of the second of two pages with one number.
fn gives_pieces<D: Device>(rt: &impl Abort, alloc: Global, device: &mut D) {
    let first = filled_page(rt, alloc, 6, 3);
    let before = written(rt, device, &first);
    drop(first);
    let second = filled_page(rt, alloc, 6, 255);
    let receipt = written(rt, device, &second);
    are_read(rt, alloc, device, &receipt, &second, &PIECES);
    drop(before);
    drop(receipt);
    drop(second);
}

/// So does a device over this one that fails at no call, which then had 12 calls.
fn gives_pieces_through<D: Device>(rt: &impl Abort, alloc: Global, device: D) {
    let mut device = Faulty::new(device, Vec::new(alloc));
    gives_pieces(rt, alloc, &mut device);
    assert!(rt; device.calls() == 12);
    drop(device);
}

#[test]
fn each_piece_is_given(rt: HostRuntime) {
    let path = "pieces.pages";
    let mut device = one_opening(&rt, rt.alloc());
    gives_pieces(&rt, rt.alloc(), &mut device);
    drop(device);
    let mut device = opened(&rt, &rt, rt.alloc(), path);
    gives_pieces(&rt, rt.alloc(), &mut device);
    drop(device);
    has_length(&rt, path, 2 * 65_536);
    gives_pieces_through(&rt, rt.alloc(), one_opening(&rt, rt.alloc()));
    gives_pieces_through(&rt, rt.alloc(), opened(&rt, &rt, rt.alloc(), path));
    fs::remove_file(&rt, path).expect(&rt, "the file removed");
}

/// Pieces on both sides of byte 48, behind which a page has zeros alone.
const AROUND: [Case; 7] = [
    (47, 49, Ok(true)),
    (16, 4_112, Ok(true)),
    (40, 65_536, Ok(true)),
    (0, 65_536, Ok(true)),
    (0, 48, Ok(true)),
    (48, 49, Ok(true)),
    (48, 65_536, Ok(true)),
];

/// A page whose memory holds 48 bytes is given in pieces, where it was written over a full one.
#[test]
fn pieces_reach_from_what_a_page_held_into_its_zeros(rt: HostRuntime) {
    let path = "around.pages";
    let page = page_with(&rt, rt.alloc(), 7, b"123");
    assert!(rt; held(&page) == 48);
    let mut device = opened(&rt, &rt, rt.alloc(), path);
    let receipt = written_over(&rt, rt.alloc(), &mut device, &page);
    are_read(&rt, rt.alloc(), &mut device, &receipt, &page, &AROUND);
    drop(receipt);
    drop(device);
    drop(page);
    fs::remove_file(&rt, path).expect(&rt, "the file removed");
}

/// Where one call of a device in memory fails, a piece is read so, as it was written or not, after so many calls.
fn read_where(
    rt: &impl Abort,
    alloc: Global,
    failing: u64,
    read: Result<(), DeviceFault>,
    is_same: bool,
    calls: u64,
) {
    let mut device = failing_at(rt, alloc, one_opening(rt, alloc), failing);
    let page = filled_page(rt, alloc, 5, 0);
    let mut seen = new_page(rt, alloc, 99);
    let result = write_and_read_piece(&mut device, &page, 100, 5_000, &mut seen);
    let whole = Whole::of(page);
    assert!(rt; have_the_same(&mut seen, &whole, 100, 5_000) == is_same);
    drop(seen);
    drop(whole);
    assert!(rt; result == read && device.calls() == calls);
    drop(device);
}

#[test]
fn a_piece_fails_on_demand(rt: HostRuntime) {
    read_where(&rt, rt.alloc(), 0, Err(DeviceFault), false, 1);
    read_where(&rt, rt.alloc(), 1, Err(DeviceFault), false, 2);
    read_where(&rt, rt.alloc(), 2, Ok(()), true, 2);
}

/// Pieces of page 5 come so after these bytes were written over the front of its file, and the file was cut to this length.
fn are_read_after<R: Abort + Wait + Files<File = File>>(
    rt: &R,
    alloc: Global,
    path: &str,
    bytes: &[u8],
    len: u64,
    cases: &[Case],
) {
    let mut device = opened(rt, rt, alloc, path);
    let page = filled_page(rt, alloc, 5, 0);
    let receipt = written(rt, &mut device, &page);
    change(rt, path, bytes, len);
    are_read(rt, alloc, &mut device, &receipt, &page, cases);
    drop(receipt);
    drop(page);
    drop(device);
    fs::remove_file(rt, path).expect(rt, "the file removed");
}

/// What comes of pieces of a file that is a byte too short for its page.
const CUT: [Case; 6] = [
    (0, 4_096, Ok(true)),
    (0, 65_535, Ok(true)),
    (65_535, 65_535, Ok(true)),
    (0, 65_536, Err(DeviceFault)),
    (61_440, 65_536, Err(DeviceFault)),
    (65_535, 65_536, Err(DeviceFault)),
];

#[test]
fn a_file_too_short_for_a_piece_is_a_fault(rt: HostRuntime) {
    are_read_after(&rt, rt.alloc(), "cut_pieces.pages", &[], 65_535, &CUT);
}

/// What comes of pieces of a page in whose place another number was written: only those that have the number show it.
const RENUMBERED: [Case; 6] = [
    (0, 8, Err(DeviceFault)),
    (0, 4_096, Err(DeviceFault)),
    (0, 65_536, Err(DeviceFault)),
    (0, 7, Ok(false)),
    (1, 4_096, Ok(true)),
    (61_440, 65_536, Ok(true)),
];

#[test]
fn another_page_is_known_by_its_number(rt: HostRuntime) {
    are_read_after(
        &rt,
        rt.alloc(),
        "renumbered.pages",
        &[6],
        65_536,
        &RENUMBERED,
    );
}

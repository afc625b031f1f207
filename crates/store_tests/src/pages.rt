//! The example of the format, byte for byte, and each reason for which an offset holds no record.

ghost use Rattle.std.specs.Prelude.{◌≤◌, length};
ghost use Rattle.records.specs.Records.{IsLaidOut};

use crate::memory::new_page;
use records::{
    KEY_BYTES_MAX, NoRoom, PAGE_SIZE, Page, Whole, overwrite, put_record, record_at, record_size,
    record_there,
};
use std::alloc::Global;
use std::process::Abort;

/// Page 0 with one record, whose key is `a` and whose value is `1`.
const EXAMPLE: [u8; 48] = [
    0, 0, 0, 0, 0, 0, 0, 0, 0x30, 0, 0, 0, 2, 0, 0, 0, 0, 0, 0, 0, 0, 0, 0, 0, 0x8c, 0xec, 0x01,
    0x86, 0x4c, 0xdc, 0x63, 0xaf, 1, 0, 1, 2, 1, 0, 0, 0, 3, 0, 0, 0, 0x61, 0x31, 0, 0,
];

/// The FNV-1a hash of `a`.
pub(crate) const HASH: u64 = 0xaf63_dc4c_8601_ec8c;

/// The example's bytes, then zeros, but for other bytes at some places.
pub(crate) fn patched(rt: &impl Abort, alloc: Global, places: &[(usize, u8)]) -> Page {
    let mut page = new_page(rt, alloc, 0);
    let bytes = page.bytes_mut();
    for (place, byte) in EXAMPLE.iter().enumerate() {
        bytes[place] = *byte;
    }
    for (place, byte) in places {
        if *place < PAGE_SIZE {
            bytes[*place] = *byte;
        }
    }
    page
}

/// The byte of a page at a place.
pub(crate) fn byte_of(page: &Page, at: usize) -> Option<u8> {
    let (bytes, zeros) = page.parts();
    let byte = match bytes.get(at) {
        Some(byte) => byte,
        None => zeros.get(at - bytes.len())?,
    };
    Some(*byte)
}

/// A copy of a page, of which each part can be lent.
pub(crate) fn copy_of(rt: &impl Abort, alloc: Global, page: &Page) -> Whole {
    Whole::of(page.try_clone(alloc).expect(rt, "memory for a page"))
}

/// How many bytes of a page lie in its memory.
pub(crate) fn held(page: &Page) -> usize {
    page.parts().0.len()
}

/// Whether the page is the example, but for other bytes at some places.
fn is_patched(rt: &impl Abort, alloc: Global, page: &Page, places: &[(usize, u8)]) -> bool {
    let example = patched(rt, alloc, places);
    let is_so = *page == example;
    drop(example);
    is_so
}

/// The example's places that are other ones where its record is a tombstone.
pub(crate) const TOMBSTONE: [(usize, u8); 3] = [(34, 2), (36, 0), (45, 0)];

/// Whether a record was put at this offset.
fn is_put_at(put: Result<usize, NoRoom>, offset: usize) -> bool {
    put == Ok(offset)
}

/// Whether a record was refused.
fn is_refused(put: Result<usize, NoRoom>) -> bool {
    put == Err(NoRoom)
}

/// Whether the page's record at offset 16 is the example's.
fn holds_the_example(page: &Page) -> bool {
    let Ok(record) = record_at(page, 16) else {
        return false;
    };
    let is_key = record.key == b"a".as_slice() && record.has_key(b"a") && !record.has_key(b"b");
    let is_value = record.value == Some(b"1".as_slice());
    record.link == 0 && record.hash == HASH && record.capacity == 3 && is_key && is_value
}

#[test]
fn the_example_of_the_format(rt: HostRuntime) {
    let mut page = Page::new(rt.alloc(), 0).expect(&rt, "memory for a page");
    assert!(rt; page.used_end() == 16);
    let put = put_record(&mut page, 0, HASH, b"a", Some(b"1"));
    assert!(rt; is_put_at(put, 16) && page.used_end() == 48);
    assert!(rt; is_patched(&rt, rt.alloc(), &page, &[]));
    assert!(rt; holds_the_example(&page));
    drop(page);
}

#[test]
fn sizes(rt: HostRuntime) {
    assert!(rt; record_size(0, 0) == 32);
    assert!(rt; record_size(1, 3) == 32);
    assert!(rt; record_size(1, 4) == 40);
    assert!(rt; record_size(512, 32_768) == 33_312);
}

/// The page is the empty one of this number, and not the example.
fn is_empty_page(rt: &impl Abort, alloc: Global, page: &Page, number: u64) {
    let empty = new_page(rt, alloc, number);
    assert!(rt; *page == empty);
    drop(empty);
    let example = patched(rt, alloc, &[]);
    assert!(rt; *page != example);
    drop(example);
}

#[test]
fn a_page_in_place(rt: HostRuntime) {
    let mut page = new_page(&rt, rt.alloc(), 0x0102_0304_0506_0708);
    assert!(rt; page.number() == 0x0102_0304_0506_0708 && byte_of(&page, 0) == Some(8));
    let example = patched(&rt, rt.alloc(), &[]);
    page.copy_from(&example);
    assert!(rt; page == example);
    drop(example);
    page.reset(3);
    is_empty_page(&rt, rt.alloc(), &page, 3);
    drop(page);
}

/// Puts a record with a value of 1,000 bytes.
fn put_thousand(page: &mut Page, hash: u64) -> Result<usize, NoRoom>
    requires { IsLaidOut page.old }
    ensures { IsLaidOut page.new }
{
    put_record(page, 0, hash, b"k0000", Some(&[b'x'; 1000]))
}

/// A page of so many records of 1,000 bytes, each of which lies where the one before it ends.
fn page_of_thousands(rt: &impl Abort, alloc: Global, count: u64) -> Page
    requires { count ≤ 63 }
    ensures { IsLaidOut result }
{
    let mut page = Page::new(alloc, 0).expect(rt, "memory for a page");
    for at in 0..count {
        let put = put_thousand(&mut page, at);
        assert!(rt; is_put_at(put, 16 + 1040 * at as usize), "at {at}");
    }
    page
}

/// The page refuses a record with a value of 1,000 bytes, and is then as it was.
fn refuses_a_thousand_bytes(rt: &impl Abort, alloc: Global, page: &mut Page)
    requires { IsLaidOut page.old }
    ensures { IsLaidOut page.new }
{
    let before = page
        .try_clone(alloc)
        .expect(rt, "memory for a copy of the page");
    let put = put_thousand(page, 15);
    assert!(rt; is_refused(put) && *page == before);
    drop(before);
}

#[test]
fn sixty_three_of_a_thousand_bytes_fill_a_page(rt: HostRuntime) {
    let mut page = page_of_thousands(&rt, rt.alloc(), 63);
    assert!(rt; page.used_end() == 65_536);
    refuses_a_thousand_bytes(&rt, rt.alloc(), &mut page);
    assert!(rt; is_refused(put_record(&mut page, 0, 16, b"", None)));
    drop(page);
}

/// Whether a value of 1,008 bytes is too long for the page, and one of 1,007 fills it.
fn is_filled_by_1007_bytes(page: &mut Page) -> bool
    requires { IsLaidOut page.old }
{
    let longer = put_record(page, 0, 62, b"k0000", Some(&[b'x'; 1008]));
    let end = page.used_end();
    let put = put_record(page, 0, 62, b"k0000", Some(&[b'x'; 1007]));
    is_refused(longer) && end == 64_496 && is_put_at(put, 64_496) && page.used_end() == 65_536
}

#[test]
fn a_record_may_end_with_the_page(rt: HostRuntime) {
    let mut page = page_of_thousands(&rt, rt.alloc(), 62);
    assert!(rt; is_filled_by_1007_bytes(&mut page));
    drop(page);
}

/// Whether the page's record at an offset has this value, of which so many bytes may take its place.
fn holds_at(page: &Page, offset: usize, value: &[u8], capacity: usize) -> bool {
    let Ok(record) = record_at(page, offset) else {
        return false;
    };
    record.value == Some(value) && record.capacity == capacity
}

/// Puts a record at this offset, which is then the last of the page's used part up to this end.
pub(crate) fn puts_at(
    rt: &impl Abort,
    page: &mut Page,
    link: u64,
    key: &[u8],
    value: &[u8],
    offset: usize,
    end: u32,
)
    requires laid_out { IsLaidOut page.old }
    requires key { length key.now ≤ KEY_BYTES_MAX }
    ensures { IsLaidOut page.new }
{
    let put = put_record(page, link, 1, key, Some(value));
    assert!(rt; is_put_at(put, offset) && page.used_end() == end);
}

#[test]
fn the_largest_record(rt: HostRuntime) {
    let mut page = Page::new(rt.alloc(), 0).expect(&rt, "memory for a page");
    let (key, value) = ([b'k'; 512], [b'v'; 32_768]);
    puts_at(&rt, &mut page, 0, &key, &value, 16, 33_328);
    assert!(rt; is_refused(put_record(&mut page, 0, 1, &key, Some(&value))));
    puts_at(&rt, &mut page, 16, &key, &value[..31_668], 33_328, 65_536);
    assert!(rt; holds_at(&page, 16, &value, 32_772));
    assert!(rt; holds_at(&page, 33_328, &value[..31_668], 31_668));
    drop(page);
}

/// Why no record is read, at which offset, and what is other in the example's page.
type Row = (&'static str, usize, &'static [(usize, u8)]);

/// Each reason to refuse an offset.
static REFUSED: [Row; 16] = [
    ("the used end passes the page's end", 16, &[(8, 1), (10, 1)]),
    ("an offset in the page's header", 8, &WHOLE),
    ("an offset at the used end", 48, &[]),
    ("an offset past the page", 65_536, &WHOLE),
    ("the last offset of all", usize::MAX, &WHOLE),
    ("an offset that is no multiple of 8", 20, &WHOLE),
    ("another form", 16, &[(35, 1)]),
    ("another kind", 16, &[(34, 3)]),
    (
        "a key of 520 bytes",
        16,
        &[(8, 0), (10, 1), (32, 8), (33, 2), (36, 0), (40, 4)],
    ),
    ("a value longer than its capacity", 16, &[(36, 4)]),
    ("a value that is longer by its upper bytes", 16, &[(38, 1)]),
    (
        "a size that is no multiple of 8",
        16,
        &[(8, 0), (10, 1), (40, 4)],
    ),
    ("a size that passes the used end", 16, &[(40, 11)]),
    (
        "a size that passes the page by its upper bytes",
        16,
        &[(8, 0), (10, 1), (42, 1)],
    ),
    ("a header that passes the used end", 32, &[]),
    ("a tombstone with a value length", 16, &[(34, 2)]),
];

/// The used part is the whole page.
const WHOLE: [(usize, u8); 2] = [(8, 0), (10, 1)];

/// Whether a record is read at this offset of the example with other bytes at some places.
fn is_read(rt: &impl Abort, alloc: Global, offset: usize, places: &[(usize, u8)]) -> bool {
    let page = patched(rt, alloc, places);
    let is_so = record_at(&page, offset).is_ok();
    drop(page);
    is_so
}

/// No record is read, for each of these reasons.
fn are_refused(rt: &impl Abort, alloc: Global, rows: &[Row]) {
    for (why, offset, places) in rows {
        assert!(rt; !is_read(rt, alloc, *offset, places), "{why}");
    }
}

#[test]
fn each_reason_to_refuse(rt: HostRuntime) {
    assert!(rt;
        is_read(&rt, rt.alloc(), 16, &WHOLE),
        "the used part may fill the page"
    );
    are_refused(&rt, rt.alloc(), &REFUSED);
}

#[test]
fn a_shorter_value_in_place(rt: HostRuntime) {
    let mut page = Page::new(rt.alloc(), 0).expect(&rt, "memory for a page");
    let put = put_record(&mut page, 0, HASH, b"a", Some(b"123"));
    overwrite(&mut page, 16, Some(b"1"));
    assert!(rt; is_put_at(put, 16) && is_patched(&rt, rt.alloc(), &page, &[]));
    drop(page);
}

#[test]
fn a_tombstone_in_place(rt: HostRuntime) {
    let mut page = Page::new(rt.alloc(), 0).expect(&rt, "memory for a page");
    let put = put_record(&mut page, 0, HASH, b"a", Some(b"123"));
    overwrite(&mut page, 16, None);
    assert!(rt; is_put_at(put, 16) && is_patched(&rt, rt.alloc(), &page, &TOMBSTONE));
    drop(page);
}

/// Whether the page's record at offset 48 is the one that was put behind the tombstone.
fn holds_the_next(page: &Page) -> bool {
    let Ok(next) = record_at(page, 48) else {
        return false;
    };
    let is_value = next.value == Some(b"next".as_slice());
    next.link == 16 && next.hash == 9 && next.capacity == 11 && is_value
}

#[test]
fn a_value_in_place_of_a_tombstone(rt: HostRuntime) {
    let mut page = Page::new(rt.alloc(), 0).expect(&rt, "memory for a page");
    let put = put_record(&mut page, 0, HASH, b"a", None);
    assert!(rt; is_put_at(put, 16) && is_patched(&rt, rt.alloc(), &page, &TOMBSTONE));
    let next = put_record(&mut page, 16, 9, b"b", Some(b"next"));
    overwrite(&mut page, 16, Some(b"123"));
    assert!(rt; is_put_at(next, 48) && holds_the_next(&page));
    drop(page);
}

/// A value of no bytes is none of a tombstone, also where its record has no room for another value.
#[test]
fn a_value_of_no_bytes(rt: HostRuntime) {
    let mut page = Page::new(rt.alloc(), 0).expect(&rt, "memory for a page");
    let put = put_record(&mut page, 0, HASH, b"a", Some(b""));
    assert!(rt; is_put_at(put, 16) && is_patched(&rt, rt.alloc(), &page, &[(36, 0), (45, 0)]));
    puts_at(&rt, &mut page, 16, b"four", b"", 48, 80);
    assert!(rt; holds_at(&page, 16, b"", 3) && holds_at(&page, 48, b"", 0));
    drop(page);
}

/// Whether the record at offset 16 of a page that it fills has this value, and the page this last byte. None is read at the page's end.
fn is_there(page: &Page, value: Option<&[u8]>, last: u8) -> bool {
    let Ok(record) = record_there(page, 16) else {
        return false;
    };
    let is_so = record.value == value && record.capacity == 65_491;
    let is_alone = record_there(page, 65_528).is_err() && record_there(page, PAGE_SIZE).is_err();
    is_so && is_alone && byte_of(page, PAGE_SIZE - 1) == Some(last)
}

/// A record that fills its page takes a shorter value, and none.
#[test]
fn a_record_that_fills_its_page_is_overwritten(rt: HostRuntime) {
    let mut page = Page::new(rt.alloc(), 0).expect(&rt, "memory for a page");
    let value = [b'x'; 65_491];
    let put = put_record(&mut page, 0, HASH, b"a", Some(&value));
    assert!(rt; is_put_at(put, 16) && page.used_end() == 65_536 && held(&page) == PAGE_SIZE);
    assert!(rt; is_there(&page, Some(&value), b'x'));
    overwrite(&mut page, 16, Some(b"1"));
    assert!(rt; is_there(&page, Some(b"1"), 0));
    overwrite(&mut page, 16, None);
    assert!(rt; is_there(&page, None, 0));
    drop(page);
}

/// It takes another value up to the page's last byte.
#[test]
fn a_record_that_fills_its_page_takes_another_as_long(rt: HostRuntime) {
    let mut page = Page::new(rt.alloc(), 0).expect(&rt, "memory for a page");
    let (value, other) = ([b'x'; 65_491], [b'y'; 65_491]);
    let put = put_record(&mut page, 0, HASH, b"a", Some(&value));
    assert!(rt; is_put_at(put, 16));
    overwrite(&mut page, 16, Some(&other));
    assert!(rt; is_there(&page, Some(&other), b'y'));
    drop(page);
}

/// A page touches its memory up to the end of its used part, until all of it is asked for.
#[test]
fn a_page_holds_its_used_part(rt: HostRuntime) {
    let mut page = Page::new(rt.alloc(), 0).expect(&rt, "memory for a page");
    assert!(rt; held(&page) == 16);
    let put = put_record(&mut page, 0, HASH, b"a", Some(b"1"));
    assert!(rt; is_put_at(put, 16) && held(&page) == 48);
    assert!(rt; is_patched(&rt, rt.alloc(), &page, &[]));
    assert!(rt; byte_of(&page, 47) == Some(0) && byte_of(&page, PAGE_SIZE - 1) == Some(0));
    assert!(rt; byte_of(&page, PAGE_SIZE).is_none());
    assert!(rt; record_there(&page, 16).is_ok() && record_there(&page, 48).is_err());
    let copy = copy_of(&rt, rt.alloc(), &page);
    assert!(rt; copy.bytes()[32] == 1 && copy.bytes()[44] == 0x61);
    drop(copy);
    page.reset(1);
    assert!(rt; held(&page) == 16 && byte_of(&page, 44) == Some(0));
    page.bytes_mut()[44] = 7;
    assert!(rt; held(&page) == PAGE_SIZE && byte_of(&page, 44) == Some(7));
    drop(page);
}

/// A page that holds all of its bytes is filled as one that holds its used part alone.
#[test]
fn a_page_that_holds_all_its_bytes_is_filled_as_another(rt: HostRuntime) {
    let mut page = Page::new(rt.alloc(), 0).expect(&rt, "memory for a page");
    let mut whole = new_page(&rt, rt.alloc(), 5);
    whole.copy_from(&page);
    assert!(rt; held(&page) == 16 && held(&whole) == PAGE_SIZE);
    let put = put_record(&mut page, 0, HASH, b"key", Some(b"a value"));
    let other = put_record(&mut whole, 0, HASH, b"key", Some(b"a value"));
    assert!(rt; is_put_at(put, 16) && is_put_at(other, 16));
    assert!(rt; page == whole && held(&page) == 56 && held(&whole) == PAGE_SIZE);
    drop(whole);
    drop(page);
}

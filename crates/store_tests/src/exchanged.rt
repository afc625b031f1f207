//! Pages that their owner gives up to a device, and pages whose memory was not touched yet or holds their first bytes alone.

use crate::faulty::failing_at;
use crate::file::{
    epochs, filled_page, gives, lies_at, opened, release, remove_of_length, written,
};
use crate::memory::{new_page, one_opening};
use crate::pages::{byte_of, held};
use device::{Device, Shows};
use records::{HEADER_SIZE, PAGE_SIZE, Page, put_record, record_at};
use std::alloc::Global;
use std::fs;
use std::fs::{File, Files};
use std::process::Abort;
use std::sync::Wait;

/// A page of this number with one record, whose key is `k` and whose value is this.
pub(crate) fn page_with(rt: &impl Abort, alloc: Global, number: u64, value: &[u8]) -> Page {
    let mut page = Page::new(alloc, number).expect(rt, "memory for a page");
    put_record(&mut page, 0, 5, b"k", Some(value)).expect(rt, "room for a record");
    page
}

/// Whether a receipt lends this page, where its type holds pages, and else none.
fn lends<R: Shows>(receipt: &R, page: &Page) -> bool {
    match receipt.page() {
        Some(lent) => R::hold_pages() && *lent == *page,
        None => !R::hold_pages(),
    }
}

/// A device shows a page that it was given in exchange: by a read, and by the receipt exactly if its type holds pages. What it
/// left in exchange.
fn left_for<D: Device>(rt: &impl Abort, alloc: Global, device: &mut D) -> Page {
    let same = page_with(rt, alloc, 7, b"a value");
    let mut page = page_with(rt, alloc, 7, b"a value");
    let receipt = device.exchange(&mut page).expect(rt, "a page exchanged");
    assert!(rt; lends(&receipt, &same));
    gives(rt, alloc, device, &receipt, &same);
    drop(receipt);
    drop(same);
    page
}

/// How many bytes of a page are not zero.
fn others(page: &Page) -> usize {
    let (bytes, _) = page.parts();
    bytes.iter().filter(|byte| **byte != 0).count()
}

/// What a device in memory leaves is a page of zero bytes, which can be filled.
#[test]
fn a_page_in_memory_is_taken_as_it_is(rt: HostRuntime) {
    let mut device = one_opening(&rt, rt.alloc());
    let mut left = left_for(&rt, rt.alloc(), &mut device);
    drop(device);
    let blank = Page::blank(rt.alloc()).expect(&rt, "memory for a page");
    assert!(rt; left == blank);
    drop(blank);
    left.reset(8);
    let new = new_page(&rt, rt.alloc(), 8);
    assert!(rt; left == new);
    drop(new);
    drop(left);
}

/// A device that fails its next call leaves the page of that call as it was.
fn refuses_another<D: Device>(rt: &impl Abort, alloc: Global, device: &mut D) {
    let mut page = page_with(rt, alloc, 9, b"another");
    assert!(rt; device.exchange(&mut page).is_err());
    let same = page_with(rt, alloc, 9, b"another");
    assert!(rt; page == same);
    drop(same);
    drop(page);
}

#[test]
fn a_page_that_fails_to_be_taken_stays(rt: HostRuntime) {
    let mut device = failing_at(&rt, rt.alloc(), one_opening(&rt, rt.alloc()), 2);
    let left = left_for(&rt, rt.alloc(), &mut device);
    assert!(rt; left.number() == 7);
    drop(left);
    refuses_another(&rt, rt.alloc(), &mut device);
    drop(device);
}

#[test]
fn a_page_in_a_file_is_written_and_stays(rt: HostRuntime) {
    let path = "exchanged.pages";
    let mut device = opened(&rt, &rt, rt.alloc(), path);
    let left = left_for(&rt, rt.alloc(), &mut device);
    assert!(rt; left.number() == 7);
    drop(left);
    drop(device);
    fs::remove_file(&rt, path).expect(&rt, "the file removed");
}

/// The receipt of a page that is written where a full one lay, whose place was released.
pub(crate) fn written_over<D: Device>(
    rt: &impl Abort,
    alloc: Global,
    device: &mut D,
    page: &Page,
) -> D::Receipt {
    let (epochs, mut seat) = epochs(rt, alloc);
    let full = filled_page(rt, alloc, 5, 255);
    let receipt = written(rt, device, &full);
    drop(full);
    release(rt, &epochs, &mut seat, device, receipt);
    drop(seat);
    drop(epochs);
    written(rt, device, page)
}

/// A page of whose bytes its memory holds so many lies where a full one lay, to the last byte, and the file has no second place.
fn lies_over<R: Abort + Wait + Files<File = File>>(
    rt: &R,
    alloc: Global,
    path: &str,
    page: &Page,
    bytes: usize,
) {
    assert!(rt; held(page) == bytes);
    let mut device = opened(rt, rt, alloc, path);
    let receipt = written_over(rt, alloc, &mut device, page);
    assert!(rt; lies_at(rt, alloc, path, 0, page));
    gives(rt, alloc, &mut device, &receipt, page);
    drop(receipt);
    drop(device);
    remove_of_length(rt, path, PAGE_SIZE as u64);
}

#[test]
fn a_page_takes_all_of_the_place_of_a_full_one(rt: HostRuntime) {
    let path = "over.pages";
    let page = new_page(&rt, rt.alloc(), 6);
    lies_over(&rt, rt.alloc(), path, &page, 16);
    drop(page);
    let page = page_with(&rt, rt.alloc(), 7, b"123");
    lies_over(&rt, rt.alloc(), path, &page, 48);
    drop(page);
}

/// A page that was not touched has zeros alone and no record, and its last byte can be written.
#[test]
fn a_page_that_was_not_touched_reads_as_zeros(rt: HostRuntime) {
    let mut page = Page::blank(rt.alloc()).expect(&rt, "memory for a page");
    assert!(rt; others(&page) == 0);
    assert!(rt; record_at(&page, HEADER_SIZE).is_err());
    page.bytes_mut()[PAGE_SIZE - 1] = 200;
    assert!(rt; byte_of(&page, PAGE_SIZE - 1) == Some(200));
    drop(page);
}

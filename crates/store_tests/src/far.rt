//! Places behind the first 4 gigabytes of a file.

use crate::file::{filled_page, first_two, gives, lies_at, remove_of_length, written};
use crate::memory::new_page;
use device::{Device, FileDevice};
use records::{PAGE_SIZE, Page};
use std::alloc::Global;
use std::fs;
use std::fs::{File, Files, OpenFile};
use std::process::Abort;
use std::sync::Wait;

/// How many places are taken before the one that is looked at. They are more than lie in the first 4 gigabytes.
const BEFORE: u32 = 65_540;

/// After so many writes the file is emptied, so that it never takes much of the disk: what was written before leaves a hole.
const EMPTIED_AFTER: u32 = 256;

/// Writes a page to so many places of a file, and empties it again and again.
fn takes_places<D: Device>(rt: &impl Abort, device: &mut D, page: &Page, file: &File) {
    for place in 0..BEFORE {
        drop(written(rt, device, page));
        if place % EMPTIED_AFTER == 0 {
            file.set_len(0).expect(rt, "the file emptied");
        }
    }
    file.set_len(0).expect(rt, "the file emptied");
}

/// Takes the places in front through an opening.
fn take_places<D: Device, R: Abort + Files<File = File>>(
    rt: &R,
    path: &str,
    device: &mut D,
    empty: &Page,
) {
    let mut options = fs::OpenOptions::new();
    let file = options
        .write(true)
        .open(rt, path)
        .expect(rt, "the file opened");
    takes_places(rt, device, empty, &file);
    drop(file);
}

/// A page that is written through one opening is given by another one.
fn gives_across<D: Device>(
    rt: &impl Abort,
    alloc: Global,
    writer: &mut D,
    reader: &mut D,
    page: &Page,
) {
    let receipt = written(rt, writer, page);
    gives(rt, alloc, reader, &receipt, page);
    drop(receipt);
}

/// Takes the places in front through the first of two openings. A page behind them is given by the second.
fn gives_behind<R: Abort + Wait + Files<File = File>>(
    rt: &R,
    alloc: Global,
    path: &str,
    page: &Page,
) {
    let mut openings = FileDevice::openings(rt, alloc, path, 2).expect(rt, "two openings");
    let (one, two) = first_two(rt, openings.as_mut_slice());
    let empty = new_page(rt, alloc, 0);
    take_places(rt, path, one, &empty);
    drop(empty);
    gives_across(rt, alloc, one, two, page);
    drop(openings);
}

/// The page of a place lies at the byte of its number times the size of a page, also where that takes more than 32 bits.
#[test]
fn a_page_behind_4_gigabytes_lies_at_its_place(rt: HostRuntime) {
    let path = "far.pages";
    let page = filled_page(&rt, rt.alloc(), 5, 77);
    gives_behind(&rt, rt.alloc(), path, &page);
    assert!(rt; lies_at(&rt, rt.alloc(), path, u64::from(BEFORE), &page));
    drop(page);
    let at = u64::from(BEFORE) * PAGE_SIZE as u64;
    remove_of_length(&rt, path, at + PAGE_SIZE as u64);
}

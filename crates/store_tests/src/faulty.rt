// Each call failing in turn, through a device that fails on demand.

use crate::file::{Released, has_length, keeps_the_other, opened, receipt_of, remove_of_length};
use crate::memory::{new_page, number_lent, one_opening};
use device::{Device, DeviceFault, Faulty};
use records::Page;
use std::alloc::Global;
use std::fs;
use std::fs::{File, Files};
use std::process::Abort;
use std::sync::Wait;

// Writes a page and reads it, and says which of the two calls failed: 0 the write, 1 the read, 2 none. A read without a receipt
// is not tried.
fn failed_of_pair<D: Device>(device: &mut D, page: &Page, seen: &mut Page) -> u64 {
    match device.write(page) {
        Ok(receipt) => match device.read(&receipt, seen) {
            Ok(()) => 2,
            Err(DeviceFault) => 1,
        },
        Err(DeviceFault) => 0,
    }
}

// A device that fails at one call.
pub(crate) fn failing_at<D: Device>(
    rt: &impl Abort,
    alloc: Global,
    device: D,
    call: u64,
) -> Faulty<D> {
    let failing = [call].to_vec(alloc).expect(rt, "memory for a number");
    Faulty::new(device, failing)
}

// Of the calls of two pairs exactly this one fails.
fn fails_at<D: Device>(rt: &impl Abort, alloc: Global, device: &mut Faulty<D>, call: u64) {
    let page = new_page(rt, alloc, 5);
    let mut seen = new_page(rt, alloc, 99);
    let first = failed_of_pair(device, &page, &mut seen);
    let second = failed_of_pair(device, &page, &mut seen);
    drop(seen);
    drop(page);
    // A first write that fails has no read, so the second pair then has the calls 1 and 2.
    assert!(rt; first == call.min(2));
    assert!(rt; second == if call < 2 { 2 } else { call - 2 });
    assert!(rt; device.calls() == if first == 0 || second == 0 { 3 } else { 4 });
}

#[test]
fn each_call_fails_in_turn(rt: HostRuntime) {
    for call in 0..5 {
        let mut device = failing_at(&rt, rt.alloc(), one_opening(&rt, rt.alloc()), call);
        fails_at(&rt, rt.alloc(), &mut device, call);
        drop(device);
    }
}

#[test]
fn a_failed_write_takes_no_place(rt: HostRuntime) {
    let path = "faulty.pages";
    let mut device = failing_at(&rt, rt.alloc(), opened(&rt, &rt, rt.alloc(), path), 0);
    fails_at(&rt, rt.alloc(), &mut device, 0);
    drop(device);
    remove_of_length(&rt, path, 65_536);
}

// The number of the page that a receipt lends, if it lends one.
fn number_lent_by<D: Device>(rt: &impl Abort, alloc: Global, device: &mut D) -> Option<u64> {
    let receipt = receipt_of(rt, alloc, device, 5);
    let number = number_lent(&receipt);
    drop(receipt);
    number
}

// A receipt in memory lends its page, and none does of a device over memory that fails at one call.
#[test]
fn a_device_that_fails_lends_no_page(rt: HostRuntime) {
    let mut device = failing_at(&rt, rt.alloc(), one_opening(&rt, rt.alloc()), 9);
    assert!(rt; number_lent_by(&rt, rt.alloc(), &mut device).is_none());
    drop(device);
}

// Through a device that fails at no call the other of two pages is read, where one was released twice.
fn keeps_the_other_through<R: Abort + Wait + Files<File = File>>(
    rt: &R,
    alloc: Global,
    path: &str,
    released: Released,
    number: u64,
) {
    let device = opened(rt, rt, alloc, path);
    let mut device = Faulty::new(device, Vec::new(alloc));
    keeps_the_other(rt, alloc, &mut device, released, number);
    drop(device);
    has_length(rt, path, 3 * 65_536);
}

#[test]
fn a_release_comes_to_the_device_below(rt: HostRuntime) {
    let path = "faulty_released.pages";
    keeps_the_other_through(&rt, rt.alloc(), path, Released::First, 1);
    keeps_the_other_through(&rt, rt.alloc(), path, Released::Second, 0);
    fs::remove_file(&rt, path).expect(&rt, "the file removed");
}

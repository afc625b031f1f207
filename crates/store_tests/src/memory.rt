ghost use Rattle.std.specs.Prelude.{◌≡◌, ◌+◌, ◌<◌, IfOk, IfSome, IsErrOf, IsTrue, OnErr, OnOk};
ghost use Rattle.records.specs.Page.{number_of};

use device::{Device, DeviceFault, MemoryDevice, MemoryReceipt, Shows};
use records::Page;
use std::alloc::Global;
use std::process::Abort;

// Callers that know a device by its contract alone.

#[derive(Debug, Drop)]
enum Trouble {
    Memory,
    Device,
}

// Writes a page, reads it back by a copy of the receipt, and keeps the receipt.
fn write_and_read<D: Device>(
    device: &mut D,
    page: &Page,
    seen: &mut Page,
) -> Result<D::Receipt, Trouble>
    ensures receipt { IfOk result (λ r. D.Receipt.shown r ≡ page.now) }
    ensures honest { D.Receipt.is_honest → OnOk result (seen.new ≡ page.now) }
    ensures steady { D.Receipt.is_steady → OnOk result (seen.new ≡ page.now) }
    ensures fault { IsErrOf result Trouble.Device → D.failures device.old < D.failures device.new }
    ensures written_once { D.writes device.new ≡ D.writes device.old + 1 }
    ensures read_once { OnOk result (D.reads device.new ≡ D.reads device.old + 1) }
{
    let Ok(receipt) = device.write(page) else {
        return Err(Trouble::Device);
    };
    let Ok(copy) = receipt.again() else {
        return Err(Trouble::Memory);
    };
    match device.read(&copy, seen) {
        Ok(()) => Ok(receipt),
        Err(DeviceFault) => Err(Trouble::Device),
    }
}

// Writes a page through one opening, and reads it through another.
fn write_and_read_elsewhere<D: Device>(
    writer: &mut D,
    reader: &mut D,
    page: &Page,
    seen: &mut Page,
) -> Result<D::Receipt, DeviceFault>
    ensures receipt { IfOk result (λ r. D.Receipt.shown r ≡ page.now) }
    ensures steady { D.Receipt.is_steady → OnOk result (seen.new ≡ page.now) }
    ensures fault { OnErr result (D.failures writer.old + D.failures reader.old < D.failures writer.new + D.failures reader.new) }
{
    let receipt = writer.write(page)?;
    reader.read(&receipt, seen)?;
    Ok(receipt)
}

// The page that was read by one receipt, if it is the one that another shows.
fn page_for<'a, R: Shows>(read_by: &R, page: &'a Page, wanted: &R) -> Option<&'a Page>
    requires { page.now ≡ R.shown read_by.now }
    ensures { R.is_honest → IfSome result (λ p. p.now ≡ R.shown wanted.now) }
{
    if read_by.same(wanted) {
        Some(page)
    } else {
        None
    }
}

// Whether a page is read as it was written, at the device in memory.
fn is_written_and_read(device: &mut MemoryDevice, page: &Page, seen: &mut Page) -> bool
    ensures { IsTrue result → seen.new ≡ page.now }
{
    write_and_read(device, page, seen).is_ok()
}

fn moves_to_a_thread<T: Send>(_value: &T) {}

// Two openings. Where one allocation is refused, the next call has it.
fn two_openings(rt: &impl Abort, alloc: Global) -> (MemoryDevice, MemoryDevice) {
    let openings = MemoryDevice::openings(alloc, 2);
    let mut openings = match openings {
        Ok(openings) => openings,
        Err(_) => MemoryDevice::openings(alloc, 2).expect(rt, "memory for two openings"),
    };
    let second = openings.pop().expect(rt, "a second opening");
    let first = openings.pop().expect(rt, "a first opening");
    assert!(rt; openings.is_empty(), "a third opening");
    drop(openings);
    (first, second)
}

// The first of two openings.
pub(crate) fn one_opening(rt: &impl Abort, alloc: Global) -> MemoryDevice {
    let (device, other) = two_openings(rt, alloc);
    drop(other);
    device
}

// A page of this number.
pub(crate) fn new_page(rt: &impl Abort, alloc: Global, number: u64) -> Page {
    Page::new(alloc, number).expect(rt, "memory for a page")
}

// A receipt for the page. Where one allocation is refused, the next call has it.
fn written(rt: &impl Abort, device: &mut MemoryDevice, page: &Page) -> MemoryReceipt {
    match device.write(page) {
        Ok(receipt) => receipt,
        Err(DeviceFault) => device.write(page).expect(rt, "a page written"),
    }
}

// A receipt for a page of this number, which is gone.
fn written_page(
    rt: &impl Abort,
    alloc: Global,
    device: &mut MemoryDevice,
    number: u64,
) -> MemoryReceipt {
    let page = new_page(rt, alloc, number);
    let receipt = written(rt, device, &page);
    drop(page);
    receipt
}

// A copy of a receipt.
fn again<R: Shows>(rt: &impl Abort, receipt: &R) -> R {
    receipt.again().expect(rt, "memory for a receipt")
}

#[test]
fn an_opening_reads_what_another_wrote(rt: HostRuntime) {
    let (mut writer, mut reader) = two_openings(&rt, rt.alloc());
    moves_to_a_thread(&writer);
    let mut page = new_page(&rt, rt.alloc(), 5);
    let receipt = written(&rt, &mut writer, &page);
    moves_to_a_thread(&receipt);
    page.reset(6);
    drop(writer);
    let mut seen = new_page(&rt, rt.alloc(), 7);
    reader.read(&receipt, &mut seen).expect(&rt, "a page read");
    assert!(rt; seen.number() == 5);
    drop(seen);
    drop(receipt);
    drop(page);
    drop(reader);
}

// A receipt is the same as itself, and as a copy of it, and not as another one; and that one is not the same as the copy.
fn is_same_as_its_copy<R: Shows>(rt: &impl Abort, receipt: &R, other: &R) {
    let copy = again(rt, receipt);
    assert!(rt; receipt.same(receipt) && receipt.same(&copy));
    assert!(rt; !receipt.same(other) && !other.same(&copy));
    drop(copy);
}

#[test]
fn a_copy_is_the_same_receipt(rt: HostRuntime) {
    let mut device = one_opening(&rt, rt.alloc());
    let receipt = written_page(&rt, rt.alloc(), &mut device, 5);
    let other = written_page(&rt, rt.alloc(), &mut device, 6);
    is_same_as_its_copy(&rt, &receipt, &other);
    drop(other);
    drop(receipt);
    drop(device);
}

// The number of the page that a receipt lends, if it lends one.
pub(crate) fn number_lent<R: Shows>(receipt: &R) -> Option<u64> {
    Some(receipt.page()?.number())
}

// The number of the page that a receipt lends, where receipts hold their pages.
fn number_held<R: Shows>(receipt: &R) -> u64
    requires { R.lends }
    ensures { result ≡ number_of (R.shown receipt.now) }
{
    match receipt.page() {
        Some(page) => page.number(),
        None => unreachable!(),
    }
}

// The number of the page that a receipt in memory lends, which it always does.
fn number_in_memory(receipt: &MemoryReceipt) -> u64
    ensures { result ≡ number_of receipt.now }
{
    number_held(receipt)
}

#[test]
fn a_receipt_in_memory_lends_its_page(rt: HostRuntime) {
    let mut device = one_opening(&rt, rt.alloc());
    let receipt = written_page(&rt, rt.alloc(), &mut device, 5);
    assert!(rt; number_in_memory(&receipt) == 5);
    assert!(rt; number_lent(&receipt) == Some(5));
    drop(receipt);
    drop(device);
}

// A copy of the receipt of page 5, once the receipt that it was copied from is gone.
fn copy_alone(rt: &impl Abort, alloc: Global, device: &mut MemoryDevice) -> MemoryReceipt {
    let receipt = written_page(rt, alloc, device, 5);
    let copy = again(rt, &receipt);
    drop(receipt);
    copy
}

#[test]
fn a_copy_keeps_the_page(rt: HostRuntime) {
    let mut device = one_opening(&rt, rt.alloc());
    let mut seen = new_page(&rt, rt.alloc(), 7);
    let copy = copy_alone(&rt, rt.alloc(), &mut device);
    device.read(&copy, &mut seen).expect(&rt, "a page read");
    assert!(rt; page_for(&copy, &seen, &copy).is_some());
    assert!(rt; seen.number() == 5);
    drop(copy);
    drop(seen);
    drop(device);
}

#[test]
fn a_generic_caller_gets_its_page(rt: HostRuntime) {
    let mut device = one_opening(&rt, rt.alloc());
    let page = new_page(&rt, rt.alloc(), 5);
    let mut seen = new_page(&rt, rt.alloc(), 7);
    let first = is_written_and_read(&mut device, &page, &mut seen);
    assert!(rt; first || is_written_and_read(&mut device, &page, &mut seen));
    assert!(rt; seen == page);
    drop(seen);
    drop(page);
    drop(device);
}

#[test]
fn a_generic_caller_reads_through_another_opening(rt: HostRuntime) {
    let (mut device, mut other) = two_openings(&rt, rt.alloc());
    let page = new_page(&rt, rt.alloc(), 5);
    let mut seen = new_page(&rt, rt.alloc(), 7);
    let first = write_and_read_elsewhere(&mut device, &mut other, &page, &mut seen).is_ok();
    assert!(rt;
        first || write_and_read_elsewhere(&mut device, &mut other, &page, &mut seen).is_ok()
    );
    assert!(rt; seen == page);
    drop(seen);
    drop(page);
    drop(other);
    drop(device);
}

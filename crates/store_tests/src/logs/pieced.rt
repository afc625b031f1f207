// Cold records, by how much is read of their pages.

use super::*;
use hybrid::PIECE_BYTES;
use records::{RECORD_HEADER, record_size};

// The length of the longest value of a key of two bytes whose record lies in one piece.
const LONGEST_IN_A_PIECE: usize = PIECE_BYTES - RECORD_HEADER - 2;

// The device is read so often for a key that has this value, where nothing is staged yet.
fn is_read_alone(
    rt: &impl Abort,
    shelf: &mut Shelf,
    alloc: Global,
    key: &[u8],
    value: &[u8],
    reads: u64,
) {
    let mut staged = Staged::new(alloc);
    is_read(rt, shelf, &mut staged, key, value, reads);
    drop(staged);
}

// A shelf with three keys in its first pages, the longest value among them, which have left their frames. Calls of these numbers fail.
fn with_cold_keys(rt: &impl Abort, alloc: Global, failing: Vec<u64>) -> Shelf {
    let mut shelf = new_failing_shelf(rt, alloc, 4096, 64, failing);
    puts_three(rt, &mut shelf);
    fills(rt, &mut shelf, 1260);
    shelf
}

// Puts the three keys.
fn puts_three(rt: &impl Abort, shelf: &mut Shelf) {
    let value = [7; VALUE_BYTES_MAX];
    puts(rt, shelf, b"a1", Some(&value[..LONGEST_IN_A_PIECE]));
    puts(rt, shelf, b"a2", Some(&value[..LONGEST_IN_A_PIECE + 1]));
    puts(rt, shelf, b"a3", Some(&value));
}

#[test]
fn a_record_is_read_with_a_piece_or_with_its_page(rt: HostRuntime) {
    let mut shelf = with_cold_keys(&rt, rt.alloc(), Vec::new(rt.alloc()));
    reads_pieces_first(&mut shelf, rt.alloc(), &rt);
    drop(shelf);
}

fn reads_pieces_first(shelf: &mut Shelf, alloc: Global, rt: &impl Abort) {
    let value = [7; VALUE_BYTES_MAX];
    assert!(rt; record_size(2, LONGEST_IN_A_PIECE) == PIECE_BYTES);
    assert!(rt; is_away(&shelf.stripe, 0));
    is_read_alone(rt, shelf, alloc, b"a1", &value[..LONGEST_IN_A_PIECE], 1);
    is_read_alone(rt, shelf, alloc, b"a2", &value[..LONGEST_IN_A_PIECE + 1], 2);
    is_read_alone(rt, shelf, alloc, b"a3", &value, 2);
}

// Whether a page has left its frame.
fn is_away(stripe: &Stripe<Receipt>, number: u64) -> bool {
    stripe.page(number).is_none()
}

// A second record of a page is read with the whole page, which then has all of its records.
#[test]
fn a_page_is_read_twice_at_most(rt: HostRuntime) {
    let mut shelf = with_cold_keys(&rt, rt.alloc(), Vec::new(rt.alloc()));
    reads_twice(&mut shelf, rt.alloc(), &rt);
    drop(shelf);
}

fn reads_twice(shelf: &mut Shelf, alloc: Global, rt: &impl Abort) {
    let value = [7; VALUE_BYTES_MAX];
    let mut staged = Staged::new(alloc);
    is_read(
        rt,
        shelf,
        &mut staged,
        b"a1",
        &value[..LONGEST_IN_A_PIECE],
        1,
    );
    is_read(
        rt,
        shelf,
        &mut staged,
        b"a2",
        &value[..LONGEST_IN_A_PIECE + 1],
        1,
    );
    is_read(
        rt,
        shelf,
        &mut staged,
        b"a1",
        &value[..LONGEST_IN_A_PIECE],
        0,
    );
    is_read(rt, shelf, &mut staged, b"a3", &value, 0);
    drop(staged);
}

// How many calls a shelf has made once its keys are cold.
fn calls_before(rt: &impl Abort, alloc: Global) -> u64 {
    let shelf = with_cold_keys(rt, alloc, Vec::new(alloc));
    let calls = shelf.device.calls();
    drop(shelf);
    calls
}

// The second read of a long record fails: what was staged stays, and the record is read by another try.
#[test]
fn a_fault_in_the_second_read_loses_nothing(rt: HostRuntime) {
    let second = calls_before(&rt, rt.alloc()).wrapping_add(1);
    let mut failing = Vec::new(rt.alloc());
    failing.push(second).expect(&rt, "memory for a number");
    let mut shelf = with_cold_keys(&rt, rt.alloc(), failing);
    reads_after_a_fault(&mut shelf, rt.alloc(), &rt);
    drop(shelf);
}

fn reads_after_a_fault(shelf: &mut Shelf, alloc: Global, rt: &impl Abort) {
    let value = [7; VALUE_BYTES_MAX];
    let mut staged = Staged::new(alloc);
    assert!(rt;
        shelf
            .holds_by_pieces(&mut staged, b"a3", Some(&value))
            .is_none()
    );
    assert!(rt; staged.rooms() == 2);
    is_read(rt, shelf, &mut staged, b"a3", &value, 1);
    staged.clear();
    assert!(rt; staged.rooms() == 2);
    drop(staged);
}

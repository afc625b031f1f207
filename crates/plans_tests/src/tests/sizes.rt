//! Calls of the largest sizes, and keys that are written again and again by one call.

use super::{Both, answer_lines, both_of, is_line, memory, run_both};
use device::{Device, MemoryDevice};
use std::alloc::Global;
use std::process::Abort;

/// A text, and sixty times another.
fn sixty(alloc: Global, first: &str, again: &str) -> Option<String> {
    let mut text = String::new(alloc);
    text.push_str(first).ok()?;
    for _ in 0..60 {
        text.push_str(again).ok()?;
    }
    Some(text)
}

/// One MSET that sets a key sixty times to 600 bytes.
fn sixty_settings(alloc: Global) -> Option<String> {
    let value = sixty(alloc, "", "0123456789")?;
    let again = format!(in alloc; " k {value}").ok()?;
    let lines = sixty(alloc, "MSET", again.as_str());
    drop(value);
    lines
}

/// Runs lines on both, and then a line that reads. The store has two stripes.
fn run_on_two(alloc: Global, lines: &str, reading: &str) -> Option<bool> {
    let device = memory(alloc)?;
    let mut both = both_of(alloc, 2, 64, device)?;
    let is_same = run_both(alloc, &mut both, lines) && run_both(alloc, &mut both, reading);
    drop(both);
    Some(is_same)
}

#[test]
fn sixty_settings_of_one_key(rt: HostRuntime) {
    let alloc = rt.alloc();
    let lines = sixty_settings(alloc).expect(&rt, "memory for the lines");
    let is_same = run_on_two(alloc, lines.as_str(), "GET k");
    assert!(rt; is_same == Some(true));
    drop(lines);
}

#[test]
fn sixty_increments_in_one_transaction(rt: HostRuntime) {
    let alloc = rt.alloc();
    let lines = sixty(alloc, "INCR n", "\nINCR n").expect(&rt, "memory for the lines");
    let is_same = run_on_two(alloc, lines.as_str(), "GET n");
    assert!(rt; is_same == Some(true));
    drop(lines);
}

/// The heaviest transaction, four times.
fn run_heaviest<D: Device>(alloc: Global, both: &mut Both<D>) -> bool {
    let lines =
        "SETRANGE a 32767 x\nSETRANGE b 32767 x\nSETRANGE c 32767 x\nSETRANGE d 32767 x\nSETRANGE e 32767 x\nSETRANGE f 32473 x";
    for _ in 0..4 {
        if !run_both(alloc, both, lines) {
            return false;
        }
    }
    true
}

/// Whether one that is a byte heavier is refused.
fn refuses_heavier<D: Device>(alloc: Global, both: &mut Both<D>) -> Option<bool> {
    let lines =
        "SETRANGE a 32767 y\nSETRANGE b 32767 x\nSETRANGE c 32767 x\nSETRANGE d 32767 x\nSETRANGE e 32767 x\nSETRANGE f 32474 x";
    let told = answer_lines(alloc, &mut both.store, lines)?;
    let is_refused = is_line(&told, "-ERR command writes too much");
    drop(told);
    Some(is_refused)
}

/// The heaviest transaction on so many stripes, and a heavier one; then the keys have what they had.
fn run_heaviest_on(rt: &impl Abort, alloc: Global, mut both: Both<MemoryDevice>) {
    let is_same = run_heaviest(alloc, &mut both);
    assert!(rt; is_same);
    let is_refused = refuses_heavier(alloc, &mut both);
    assert!(rt; is_refused == Some(true));
    let is_same = run_both(alloc, &mut both, "MGET a f");
    assert!(rt; is_same);
}

#[test]
fn the_heaviest_call_on_one_stripe(rt: HostRuntime) {
    let alloc = rt.alloc();
    let device = memory(alloc).expect(&rt, "memory for a device");
    let both = both_of(alloc, 1, 1000, device).expect(&rt, "memory for a store");
    run_heaviest_on(&rt, alloc, both);
}

#[test]
fn the_heaviest_call_on_all_stripes(rt: HostRuntime) {
    let alloc = rt.alloc();
    let device = memory(alloc).expect(&rt, "memory for a device");
    let both = both_of(alloc, 64, 1000, device).expect(&rt, "memory for a store");
    run_heaviest_on(&rt, alloc, both);
}

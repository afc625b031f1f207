//! Calls whose writes wait for nothing: they go over what is there, or into a tail page that has room.

use super::full::{Small, set, small};
use super::stops::meets_full;
use super::{command_of, commands_of, due_line, due_lines, is_array, is_single, let_go, run_both};
use crate::calls::submit_placed;
use std::alloc::Global;
use std::process::Abort;
use transact::call::{Call, Watching};
use words::reply::Reply;

/// The call of a line; that of several lines is a transaction.
fn call_of(alloc: Global, lines: &str) -> Option<Call> {
    if lines.contains('\n') {
        let commands = commands_of(alloc, lines)?;
        Some(Call::Exec(commands, Watching::none(alloc)))
    } else {
        Some(Call::One(command_of(alloc, lines)?))
    }
}

/// Whether a reply is the one that is due to a line, or to several as a transaction.
fn is_due(alloc: Global, both: &mut Small, lines: &str, told: &Reply) -> Option<bool> {
    if lines.contains('\n') {
        let due = due_lines(alloc, &mut both.plain, lines)?;
        Some(is_array(told, due.as_slice()))
    } else {
        let due = due_line(alloc, &mut both.plain, lines)?;
        Some(is_single(told, &due))
    }
}

/// Whether the call of these lines is placed. `None` where it is answered otherwise than it is due.
fn places(alloc: Global, both: &mut Small, lines: &str) -> Option<bool> {
    let call = call_of(alloc, lines)?;
    let told = submit_placed(alloc, &mut both.store, 0, &call);
    let_go(call);
    let Some(told) = told else {
        return Some(false);
    };
    let is_due = is_due(alloc, both, lines, &told)?;
    drop(told);
    if is_due { Some(true) } else { None }
}

/// Asserts that the calls of these lines are placed, or not, one after the other.
fn check(rt: &impl Abort, alloc: Global, both: &mut Small, rows: &[(&str, bool)]) {
    for (lines, placed) in rows {
        let told = places(alloc, both, lines);
        assert!(rt; told == Some(*placed), "{lines}");
    }
}

/// New keys go to the tail, others stay where they are. What has a way of its own is not placed.
const CALLS: &[(&str, bool)] = &[
    ("MSETNX a 1 b 2", true),
    ("MSETNX b 3 c 4", true),
    ("MGET a b c", false),
    ("GET a", false),
    ("SET a 1", false),
    ("MSET a 1 c 2", false),
    ("INCR a", false),
    ("DEL a b a missing", true),
    ("EXISTS a b", false),
    (
        "SET x 1\nINCR n\nSET x longer-than-it-was\nAPPEND x !\nGET x",
        true,
    ),
    ("INCR n\nDEL x n\nMSETNX x 2 n 7\nGETDEL x", true),
    ("MGET x n\nEXISTS x n", true),
    ("RENAME n m", true),
    ("SETRANGE m 3 abc", true),
    ("SETRANGE m 9 abc", true),
    ("RENAME missing m", true),
];

#[test]
fn what_waits_for_nothing_is_placed(rt: HostRuntime) {
    let alloc = rt.alloc();
    let mut both = small(alloc).expect(&rt, "memory for a store");
    check(&rt, alloc, &mut both, CALLS);
    assert!(&rt; run_both(alloc, &mut both, "MGET a b c x n m missing"));
}

/// Three values of 20,001 bytes leave some 5,000 of a page. Two of 3,001 want another, and then there is room for more.
const LONG: &[(&str, bool)] = &[
    ("SETRANGE a 20000 x", true),
    ("SETRANGE b 20000 x\nSETRANGE c 20000 x", true),
    ("SETRANGE d 3000 x\nSETRANGE e 3000 x", false),
    ("SETRANGE d 3000 x", true),
];

const LONGER: &[(&str, bool)] = &[
    (
        "SETRANGE d 3000 y\nSETRANGE f 3000 x\nSETRANGE g 3000 x",
        true,
    ),
    // Each of these has room, and both have none in any page.
    ("SETRANGE h 32767 x\nSETRANGE i 32767 x", false),
];

#[test]
fn what_wants_another_page_is_not_placed(rt: HostRuntime) {
    let alloc = rt.alloc();
    let mut both = small(alloc).expect(&rt, "memory for a store");
    check(&rt, alloc, &mut both, LONG);
    assert!(&rt; run_both(alloc, &mut both, "SETRANGE f 3000 z\nSETRANGE g 3000 z"));
    check(&rt, alloc, &mut both, LONGER);
    assert!(&rt; run_both(alloc, &mut both, "MGET a b c d e f g h i"));
}

/// Sets keys in turn until the stripe is full, and tells how many it took.
fn fill(alloc: Global, both: &mut Small) -> Option<u64> {
    for number in 0..6000 {
        if !set(alloc, both, number, 1)? {
            return Some(number);
        }
    }
    None
}

/// Sets keys to one byte until the tail page of a full stripe has no room for one more, and tells whether it came so far.
fn fill_tail(alloc: Global, both: &mut Small) -> Option<bool> {
    for number in 0..100 {
        let line = format!(in alloc; "SETRANGE s{number} 0 x").ok()?;
        if meets_full(alloc, both, line.as_str())?.is_some() {
            return Some(true);
        }
    }
    Some(false)
}

/// Whether the newest key of a full stripe is written and deleted in place, and new keys are not placed.
fn works_full(alloc: Global, both: &mut Small) -> Option<bool> {
    let newest = fill(alloc, both)?.checked_sub(1)?;
    let is_full = fill_tail(alloc, both)?;
    let anew = places(alloc, both, "MSETNX new 1 newer 2")?;
    let mixed = format!(in alloc; "SETRANGE k{newest} 3 abc\nSET new 1").ok()?;
    let mixed = places(alloc, both, mixed.as_str())?;
    let over = format!(in alloc; "SETRANGE k{newest} 3 abc\nGET k{newest}").ok()?;
    let over = places(alloc, both, over.as_str())?;
    let deletion = format!(in alloc; "DEL k{newest} new").ok()?;
    let deletion = places(alloc, both, deletion.as_str())?;
    Some(is_full && !anew && !mixed && over && deletion)
}

#[test]
fn a_full_stripe_places_what_is_there(rt: HostRuntime) {
    let alloc = rt.alloc();
    let mut both = small(alloc).expect(&rt, "memory for a store");
    assert!(&rt; works_full(alloc, &mut both) == Some(true));
}

/// Whether a page that a deletion opened in a full stripe is kept from values, though it has room: none is placed there. What goes over the
/// newest key is.
fn keeps_back(alloc: Global, both: &mut Small) -> Option<bool> {
    let newest = fill(alloc, both)?.checked_sub(1)?;
    let is_full = fill_tail(alloc, both)?;
    let is_opened = meets_full(alloc, both, "DEL k0")?.is_none();
    let anew = places(alloc, both, "MSETNX new 1 newer 2")?;
    let set = places(alloc, both, "SET new 1\nGET new")?;
    let renamed = format!(in alloc; "RENAME k{newest} other").ok()?;
    let renamed = places(alloc, both, renamed.as_str())?;
    let over = format!(in alloc; "SETRANGE k{newest} 3 abc").ok()?;
    let over = places(alloc, both, over.as_str())?;
    Some(is_full && is_opened && !anew && !set && !renamed && over)
}

#[test]
fn a_page_that_a_deletion_opened_is_kept_from_values(rt: HostRuntime) {
    let alloc = rt.alloc();
    let mut both = small(alloc).expect(&rt, "memory for a store");
    assert!(&rt; keeps_back(alloc, &mut both) == Some(true));
}

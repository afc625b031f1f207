//! Connections over a store whose oldest pages have left their frames, and lie on a device that fails calls or does
//! not.

ghost use Rattle.std.specs.Prelude.{◌≡◌, ◌+◌, IfOk, vec_len};
ghost use Rattle.engine.specs.declared.TheConstants.{BACKGROUND_PASSES};

use crate::keys::{gets, repeated, sets, value, values};
use crate::pieces::{Outcome, check_outcome, cut_streams, talk};
use crate::talks::{engine_over, memory, narrow, wide};
use connection::Ended;
use device::{Device, Faulty, MemoryDevice};
use engine::BACKGROUND_PASSES;
use std::alloc::{AllocError, Global};
use std::process::Abort;
use std::sync::Wait;
use words::limits::Limits;

const GET_FIRST: &[u8] = b"*2\r\n$3\r\nGET\r\n$4\r\n1000\r\n";

const DEVICE_FAULT: &[u8] = b"-IOERR device fault\r\n";

const STORE_FULL: &[u8] = b"-FULL store is full\r\n";

/// Openings of a device over memory. All but the second fail their first call.
fn failing(alloc: Global, limits: &Limits) -> Result<Vec<Faulty<MemoryDevice>>, AllocError>
    ensures { IfOk result (λ openings. vec_len openings ≡ limits.now.clients + BACKGROUND_PASSES) }
{
    let mut below = memory(alloc, limits)?;
    let mut openings = Vec::new(alloc);
    while let Some(opening) = below.pop() {
        let mut calls = [0].to_vec(alloc)?;
        if openings.len() == 1 {
            calls.clear();
        }
        openings.push(Faulty::new(opening, calls))?;
    }
    Ok(openings)
}

/// Serves a connection that stores so many keys by the second pass over new openings, and then another by the first.
fn run_cold<D: Device>(
    rt: &(impl Abort + Wait),
    alloc: Global,
    store: (&Limits, Vec<D>),
    count: u32,
    input: &[u8],
) -> (Outcome, Outcome)
    requires openings { vec_len store.1 ≡ store.0.now.clients + BACKGROUND_PASSES }
{
    let stored = sets(rt, alloc, count);
    let streams = (
        cut_streams(rt, alloc, &stored, 16_384, false),
        cut_streams(rt, alloc, input, 16_384, false),
    );
    let (engine, first, second) = engine_over(alloc, store.0, store.1).expect(
        rt,
        "memory for an engine",
    );
    let (second, before) = talk(rt, alloc, streams.0, &engine, second);
    let (first, after) = talk(rt, alloc, streams.1, &engine, first);
    drop(first);
    drop(second);
    drop(engine);
    drop(stored);
    (before, after)
}

/// What is said to a connection that stores so many keys in a new engine over memory, and to one that reads so many of them.
fn store_and_read(
    rt: &(impl Abort + Wait),
    alloc: Global,
    limits: &Limits,
    stored: u32,
    read: u32,
) -> (Outcome, Outcome) {
    let input = gets(rt, alloc, read);
    let openings = memory(alloc, limits).expect(rt, "memory for a device");
    let answer = run_cold(rt, alloc, (limits, openings), stored, &input);
    drop(input);
    answer
}

/// 3,000 keys of 1,000 bytes take 48 pages, of which 12 have frames. Each key is read, whether its page is lent by its
/// receipt or not.
#[test]
fn all_keys_of_pages_without_frames_are_read(rt: HostRuntime) {
    let alloc = rt.alloc();
    let (before, after) = store_and_read(&rt, alloc, &wide(), 3_000, 3_000);
    let stored = repeated(alloc, b"+OK\r\n", 3_000, b"").expect(&rt, "memory for a text");
    check_outcome(&rt, &before, &stored, Ended::EndOfInput);
    check_outcome(&rt, &after, &values(&rt, alloc, 3_000), Ended::EndOfInput);
    drop(stored);
    drop(after);
    drop(before);
}

/// What is said to a connection over a store of 3,000 keys whose first call of the device fails.
fn run_failing(rt: &(impl Abort + Wait), alloc: Global, input: &[u8]) -> Outcome {
    let limits = wide();
    let openings = failing(alloc, &limits).expect(rt, "memory for a device");
    let (before, after) = run_cold(rt, alloc, (&limits, openings), 3_000, input);
    drop(before);
    after
}

/// Asserts what is said to a request on a cold key: the fault's line where the next read fails, and once more what is
/// said where it does not.
fn check_failing<R: Abort + Wait>(
    rt: &R,
    alloc: Global,
    request: &[u8],
    first: &[u8],
    second: &[u8],
) {
    let input = repeated(alloc, request, 2, b"").expect(rt, "memory for a text");
    let outcome = run_failing(rt, alloc, &input);
    let text = repeated(alloc, first, 1, second).expect(rt, "memory for a text");
    check_outcome(rt, &outcome, &text, Ended::EndOfInput);
    drop(text);
    drop(outcome);
    drop(input);
}

/// A GET whose read fails, and one that finds the value.
#[test]
fn a_get_whose_read_fails(rt: HostRuntime) {
    let alloc = rt.alloc();
    check_failing(&rt, alloc, GET_FIRST, DEVICE_FAULT, &value(&rt, alloc, 0));
}

/// A transaction of one GET whose read fails, and one that finds the value.
#[test]
fn a_transaction_of_a_get_whose_read_fails(rt: HostRuntime) {
    let alloc = rt.alloc();
    let get = b"*1\r\n$5\r\nMULTI\r\n*2\r\n$3\r\nGET\r\n$4\r\n1000\r\n*1\r\n$4\r\nEXEC\r\n";
    let first = b"+OK\r\n+QUEUED\r\n-IOERR device fault\r\n";
    let value = value(&rt, alloc, 0);
    let second = repeated(alloc, b"+OK\r\n+QUEUED\r\n*1\r\n", 1, &value).expect(
        &rt,
        "memory for a text",
    );
    check_failing(&rt, alloc, get, first, &second);
    drop(second);
    drop(value);
}

/// A SET with an option, which has to know whether its key is there.
#[test]
fn a_set_whose_read_fails(rt: HostRuntime) {
    let set = b"*4\r\n$3\r\nSET\r\n$4\r\n1000\r\n$1\r\nv\r\n$2\r\nXX\r\n";
    check_failing(&rt, rt.alloc(), set, DEVICE_FAULT, b"+OK\r\n");
}

/// RENAME of the first key to the name of another, twice, and a GET of each.
fn renames(rt: &impl Abort, alloc: Global) -> Vec<u8> {
    let rename = b"*3\r\n$6\r\nRENAME\r\n$4\r\n1000\r\n$4\r\n1700\r\n";
    let mut input = repeated(alloc, rename, 2, b"*2\r\n$3\r\nGET\r\n$4\r\n1700\r\n").expect(
        rt,
        "memory for a text",
    );
    input
        .extend_from_slice(GET_FIRST)
        .expect(rt, "memory for a text");
    input
}

/// What is said to that where the first read fails.
fn renames_answered(rt: &impl Abort, alloc: Global) -> Vec<u8> {
    let mut text = repeated(alloc, DEVICE_FAULT, 1, b"+OK\r\n").expect(rt, "memory for a text");
    text.extend_from_slice(&value(rt, alloc, 0))
        .expect(rt, "memory for a text");
    text.extend_from_slice(b"$-1\r\n")
        .expect(rt, "memory for a text");
    text
}

/// RENAME of a key whose read fails, and once more over another cold key: the value is found at the new name alone.
#[test]
fn a_rename_whose_read_fails(rt: HostRuntime) {
    let alloc = rt.alloc();
    let outcome = run_failing(&rt, alloc, &renames(&rt, alloc));
    check_outcome(
        &rt,
        &outcome,
        &renames_answered(&rt, alloc),
        Ended::EndOfInput,
    );
    drop(outcome);
}

/// A transaction that gets the first key.
const TRANSACTION: &[u8] =
    b"*1\r\n$5\r\nMULTI\r\n*2\r\n$3\r\nGET\r\n$4\r\n1000\r\n*1\r\n$4\r\nEXEC\r\n";

/// A transaction that is not run, and leaves its session in none.
#[test]
fn a_transaction_whose_read_fails(rt: HostRuntime) {
    let alloc = rt.alloc();
    let second = repeated(alloc, b"+OK\r\n+QUEUED\r\n*1\r\n", 1, &value(&rt, alloc, 0)).expect(
        &rt,
        "memory for a text",
    );
    let first = b"+OK\r\n+QUEUED\r\n-IOERR device fault\r\n";
    check_failing(&rt, alloc, TRANSACTION, first, &second);
    drop(second);
}

/// How many lines come before another text, and after that.
fn lines_around(text: &[u8], line: &[u8], other: &[u8]) -> Option<(u32, u32)> {
    let mut rest = text;
    let mut before = None;
    let mut count: u32 = 0;
    for _ in 0..text.len() {
        if rest.is_empty() {
            break;
        }
        if let Some(after) = rest.strip_prefix(line) {
            count = count.saturating_add(1);
            rest = after;
        } else {
            rest = rest.strip_prefix(other)?;
            if before.is_some() {
                return None;
            }
            before = Some(count);
            count = 0;
        }
    }
    Some((before?, count))
}

/// A SET without an option reads nothing. It makes room at the tail, where the oldest page that was not written yet is
/// written: of the SETs of 63 keys, which fill a page, one does so.
#[test]
fn a_set_whose_write_fails(rt: HostRuntime) {
    let alloc = rt.alloc();
    let input = sets(&rt, alloc, 126);
    let outcome = run_failing(&rt, alloc, &input);
    let around = lines_around(&outcome.text, b"+OK\r\n", DEVICE_FAULT);
    let one_failed =
        matches!(around, Some((before, after)) if before < 63 && after == 125 - before);
    assert!(rt; one_failed, "{around:?}");
    drop(outcome);
    drop(input);
}

/// What is said to SETs of 4,500 keys where 4,410 have room.
fn stored_answered(rt: &impl Abort, alloc: Global) -> Vec<u8> {
    let refused = repeated(alloc, STORE_FULL, 90, b"").expect(rt, "memory for a text");
    let answer = repeated(alloc, b"+OK\r\n", 4_410, &refused).expect(rt, "memory for a text");
    drop(refused);
    answer
}

/// What is said to GETs of these, and of one more key.
fn read_answered(rt: &impl Abort, alloc: Global) -> Vec<u8> {
    let mut found = values(rt, alloc, 4_410);
    found
        .extend_from_slice(b"$-1\r\n")
        .expect(rt, "memory for a text");
    found
}

/// 76 pages have frames or places. Six of them are left to deletions and to the cleaner, and the others hold 4,410 keys of
/// 1,000 bytes. Each further SET is told that no place is left, and what is stored is read.
#[test]
fn a_full_store_tells_so_and_is_read(rt: HostRuntime) {
    let alloc = rt.alloc();
    let (before, after) = store_and_read(&rt, alloc, &narrow(), 4_500, 4_411);
    check_outcome(
        &rt,
        &before,
        &stored_answered(&rt, alloc),
        Ended::EndOfInput,
    );
    check_outcome(&rt, &after, &read_answered(&rt, alloc), Ended::EndOfInput);
    drop(after);
    drop(before);
}

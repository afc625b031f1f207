//! Stores larger than their frames over devices that fail, are full, or lie in a file that is changed.

ghost use Rattle.std.specs.Prelude.{◌≡◌, ◌+◌, [], IfOk, vec_len};
ghost use Rattle.engine.specs.Passes.{knows, Rests};
ghost use Rattle.engine.specs.declared.TheConstants.{BACKGROUND_PASSES};

use crate::keys::{add_get, add_set, get, gets, repeated, sets, value, values};
use crate::talks::{Outcome, Source, engine_over, many_buckets, memory, narrow, talk, wide};
use connection::Ended;
use device::{Device, Faulty, FileDevice, MemoryDevice, OpenFault};
use engine::{BACKGROUND_PASSES, Engine, Pass};
use std::alloc::{AllocError, Global};
use std::fs::{File, Files, OpenFile};
use std::process::Abort;
use std::sync::Wait;
use std::{fs, io};
use words::limits::Limits;

const OK: &[u8] = b"+OK\r\n";

const DEVICE_FAULT: &[u8] = b"-IOERR device fault\r\n";

const STORE_FULL: &[u8] = b"-FULL store is full\r\n";

/// How many keys are stored. They take 48 pages.
const KEYS: u32 = 3_000;

/// How many of these pages have no frame.
const WRITTEN: u64 = 36;

/// Openings of a device in memory, each of which fails the call with this number.
pub(crate) fn failing(
    alloc: Global,
    limits: &Limits,
    call: u64,
) -> Result<Vec<Faulty<MemoryDevice>>, AllocError>
    ensures { IfOk result (λ openings. vec_len openings ≡ limits.now.clients + BACKGROUND_PASSES) }
{
    let mut below = memory(alloc, limits)?;
    let mut openings = Vec::new(alloc);
    while let Some(opening) = below.pop() {
        openings.push(Faulty::new(opening, [call].to_vec(alloc)?))?;
    }
    Ok(openings)
}

/// Which reply is a fault of the device.
#[derive(Clone, Copy, Debug, PartialEq, Eq)]
enum Failed {
    /// None.
    Nothing,
    /// That of the SET of the key with this number.
    Set(u32),
    /// That of the GET.
    Get,
}

/// Which of so many SETs is answered by a fault of the device, and what comes after their replies. `None` where another
/// reply comes, or a second fault.
fn failed_set(text: &[u8], count: u32) -> Option<(Failed, &[u8])> {
    let mut rest = text;
    let mut failed = Failed::Nothing;
    for number in 0..count {
        if let Some(after) = rest.strip_prefix(OK) {
            rest = after;
        } else {
            rest = rest.strip_prefix(DEVICE_FAULT)?;
            if failed != Failed::Nothing {
                return None;
            }
            failed = Failed::Set(number);
        }
    }
    Some((failed, rest))
}

/// Which of the SETs and the GET after them is answered by a fault of the device, where each other one is answered as
/// is due.
fn failed_of(text: &[u8], count: u32, value: &[u8]) -> Option<Failed> {
    let (failed, rest) = failed_set(text, count)?;
    if rest == value {
        return Some(failed);
    }
    if rest == DEVICE_FAULT && failed == Failed::Nothing {
        return Some(Failed::Get);
    }
    None
}

/// Whether a connection after it is answered as is due: a key whose SET failed is missing, and a GET that failed finds its
/// value.
fn is_right_after<D: Device>(
    rt: &(impl Abort + Wait),
    alloc: Global,
    engine: &Engine<D>,
    pass: Pass<D>,
    failed: Failed,
) -> bool
    requires rests { Rests D.Receipt.is_steady engine.now pass }
    requires watches { (knows D.failures pass).watched ≡ [] }
{
    let (number, due) = match failed {
        // The call that fails is yet to come.
        Failed::Nothing => return true,
        Failed::Set(number) => (
            number,
            b"$-1\r\n".to_vec(alloc).expect(rt, "memory for a text"),
        ),
        Failed::Get => (0, value(rt, alloc, 0)),
    };
    let input = get(rt, alloc, number);
    let (pass, outcome) = talk(rt, alloc, Source::new(&input), engine, pass);
    let is_so = outcome.is(&due, Ended::EndOfInput);
    drop(outcome);
    drop(pass);
    drop(input);
    is_so
}

/// Which request fails where the call of the device with this number does, of SETs of the keys and a GET of the first.
/// `None` where an answer is not as is due.
fn failed_at(
    rt: &(impl Abort + Wait),
    alloc: Global,
    limits: &Limits,
    input: &[u8],
    call: u64,
) -> Option<Failed> {
    let openings = failing(alloc, limits, call).expect(rt, "memory for a device");
    let (engine, pass, other) = engine_over(alloc, limits, openings).expect(
        rt,
        "memory for an engine",
    );
    let (pass, outcome) = talk(rt, alloc, Source::new(input), &engine, pass);
    let due = value(rt, alloc, 0);
    let Some(failed) = failed_of(&outcome.text, KEYS, &due) else {
        return None;
    };
    let is_right = is_right_after(rt, alloc, &engine, pass, failed);
    drop(due);
    drop(outcome);
    drop(other);
    drop(engine);
    Some(failed).filter(|_| is_right)
}

/// SETs of the keys, and a GET of the first.
fn sets_and_get(rt: &impl Abort, alloc: Global) -> Vec<u8> {
    let mut input = sets(rt, alloc, KEYS);
    add_get(rt, &mut input, 0);
    input
}

/// Asserts that one SET fails where the write with this number does, for each of some numbers. Its key is missing then, and
/// each other request is answered as is due.
fn check_writes<R: Abort + Wait>(rt: &R, alloc: Global, first: u64, end: u64) {
    let (limits, input) = (many_buckets(), sets_and_get(rt, alloc));
    for call in first..end {
        let failed = failed_at(rt, alloc, &limits, &input, call);
        assert!(rt;
            matches!(failed, Some(Failed::Set(_))),
            "{call}: {failed:?}"
        );
    }
}

/// 36 of 48 pages are written, so that a SET has a frame. Each of these calls fails in turn, here and in the next test: one SET
/// is answered by the fault of the device.
#[test]
fn each_of_the_first_writes_fails_in_turn(rt: HostRuntime) {
    check_writes(&rt, rt.alloc(), 0, WRITTEN / 2);
}

#[test]
fn each_of_the_later_writes_fails_in_turn(rt: HostRuntime) {
    check_writes(&rt, rt.alloc(), WRITTEN / 2, WRITTEN);
}

/// Pages are read to find the first key, behind others of its bucket. Each of these calls fails in turn, until there is no
/// further one: the GET is answered by the fault of the device, and finds the value the next time.
#[test]
fn each_of_the_reads_fails_in_turn(rt: HostRuntime) {
    let (limits, input) = (wide(), sets_and_get(&rt, rt.alloc()));
    for call in WRITTEN..100 {
        match failed_at(&rt, rt.alloc(), &limits, &input, call) {
            Some(Failed::Get) => {}
            Some(Failed::Nothing) if call > WRITTEN + 3 => return,
            failed => panic!(rt; "{call}: {failed:?}"),
        }
    }
    panic!(rt; "more calls");
}

/// So many openings of a device in the file at this path as an engine of these limits has passes.
fn file<'a, R: Wait + Files<File = File>>(
    rt: &'a R,
    alloc: Global,
    path: &str,
    limits: &Limits,
) -> Result<Vec<FileDevice<'a, R>>, OpenFault>
    ensures { IfOk result (λ openings. vec_len openings ≡ limits.now.clients + BACKGROUND_PASSES) }
{
    FileDevice::openings(rt, alloc, path, limits.clients + BACKGROUND_PASSES)
}

/// Cuts a file to so many bytes.
fn cut<R: Abort + Files<File = File>>(rt: &R, path: &str, length: u64) {
    let mut options = fs::OpenOptions::new();
    options
        .write(true)
        .open(rt, path)
        .expect(rt, "the file opened")
        .set_len(length)
        .expect(rt, "the file cut");
}

/// Asserts what is said where a file is cut to 100 bytes between two connections: the value before, and the fault of
/// the device after it, each time.
fn check_cut<D: Device, R: Abort + Wait + Files<File = File>>(
    rt: &R,
    alloc: Global,
    engine: &Engine<D>,
    pass: Pass<D>,
    path: &str,
)
    requires rests { Rests D.Receipt.is_steady engine.now pass }
    requires watches { (knows D.failures pass).watched ≡ [] }
{
    let (input, again) = (sets_and_get(rt, alloc), gets_of_first(rt, alloc));
    let due = repeated(alloc, OK, KEYS, &value(rt, alloc, 0)).expect(rt, "memory for a text");
    let (pass, before) = talk(rt, alloc, Source::new(&input), engine, pass);
    cut(rt, path, 100);
    let (pass, after) = talk(rt, alloc, Source::new(&again), engine, pass);
    before.check(rt, &due, Ended::EndOfInput);
    let faults = repeated(alloc, DEVICE_FAULT, 2, b"+PONG\r\n").expect(rt, "memory for a text");
    after.check(rt, &faults, Ended::EndOfInput);
    drop(faults);
    drop(after);
    drop(before);
    drop(due);
    drop(pass);
}

/// Two GETs of the first key, and a PING.
fn gets_of_first(rt: &impl Abort, alloc: Global) -> Vec<u8> {
    repeated(alloc, &get(rt, alloc, 0), 2, b"*1\r\n$4\r\nPING\r\n").expect(rt, "memory for a text")
}

/// [`check_cut`] over a new file at this path.
fn check_cut_file<R: Abort + Wait + Files<File = File>>(rt: &R, alloc: Global, path: &str) {
    let limits = wide();
    let openings = file(rt, alloc, path, &limits).expect(rt, "a new file");
    let (engine, pass, other) = engine_over(alloc, &limits, openings).expect(
        rt,
        "memory for an engine",
    );
    check_cut(rt, alloc, &engine, pass, path);
    drop(engine);
    drop(other);
}

#[test]
fn a_file_cut_short_is_a_fault_of_the_device(rt: HostRuntime) {
    let path = "cut.pages";
    check_cut_file(&rt, rt.alloc(), path);
    assert!(rt; fs::remove_file(&rt, path).is_ok());
}

/// SETs of more keys than a store of 76 pages takes, the last of them once more, and GETs of all that are stored.
fn too_many(rt: &impl Abort, alloc: Global) -> Vec<u8> {
    let mut input = sets(rt, alloc, 4_430);
    add_set(rt, &mut input, 4_429);
    input
        .extend_from_slice(&gets(rt, alloc, 4_410))
        .expect(rt, "memory for a text");
    input
}

/// What that is answered: 4,410 keys are stored, no further one is, and each that is stored has its value.
fn too_many_answered(rt: &impl Abort, alloc: Global) -> Vec<u8> {
    let found = values(rt, alloc, 4_410);
    let refused = repeated(alloc, STORE_FULL, 21, &found).expect(rt, "memory for a text");
    let answer = repeated(alloc, OK, 4_410, &refused).expect(rt, "memory for a text");
    drop(refused);
    drop(found);
    answer
}

/// What is said over a file with places for 64 pages.
fn run_full<R: Abort + Wait + Files<File = File>>(
    rt: &R,
    alloc: Global,
    path: &str,
    input: &[u8],
) -> Outcome {
    let limits = narrow();
    let openings = file(rt, alloc, path, &limits).expect(rt, "a new file");
    let (engine, pass, other) = engine_over(alloc, &limits, openings).expect(
        rt,
        "memory for an engine",
    );
    let (pass, outcome) = talk(rt, alloc, Source::new(input), &engine, pass);
    drop(pass);
    drop(other);
    drop(engine);
    outcome
}

/// 12 frames and 64 places take 4,410 keys: six pages are left to deletions and to the cleaner.
#[test]
fn a_file_with_no_place_left_is_a_full_store(rt: HostRuntime) {
    let alloc = rt.alloc();
    let path = "full.pages";
    let input = too_many(&rt, alloc);
    let outcome = run_full(&rt, alloc, path, &input);
    outcome.check(&rt, &too_many_answered(&rt, alloc), Ended::EndOfInput);
    assert!(rt; fs::remove_file(&rt, path).is_ok());
    drop(outcome);
    drop(input);
}

//! Plans that stop, and watches.

use super::{
    Both, answer_to, away, both_of, command_of, commands_of, due_line, let_go, memory, run_both,
    store_of,
};
use crate::calls::{submit, submit_once, undo};
use crate::held::Store;
use device::{Device, Faulty, MemoryDevice};
use plans::stop::Stop;
use std::alloc::Global;
use transact::call::{Call, Watching};
use words::command::Keys;
use words::hash::stripe_of;
use words::reply::Reply;
use words::word::Word;

/// A store whose pages are read, and a plain map.
type Away = Both<Faulty<MemoryDevice>>;

/// Sets a key to a long value.
fn fill_at(alloc: Global, both: &mut Away, number: u64) -> bool {
    let Ok(line) = format!(in alloc; "SETRANGE f{number} 32000 {number}") else {
        return false;
    };
    run_both(alloc, both, line.as_str())
}

/// Sets sixty keys, so that the pages of the first ones are not resident.
fn fill(alloc: Global, both: &mut Away) -> bool {
    for number in 0..60 {
        if !fill_at(alloc, both, number) {
            return false;
        }
    }
    true
}

/// One stripe, where the pages of the first keys are not resident.
fn filled(alloc: Global) -> Option<Away> {
    let device = away(alloc)?;
    let mut both = both_of(alloc, 1, 1000, device)?;
    if fill(alloc, &mut both) {
        Some(both)
    } else {
        None
    }
}

/// What a call is answered in one round with no page staged, or how many pages it wants.
fn answer_once<D: Device>(
    alloc: Global,
    store: &mut Store<D>,
    seat: u64,
    call: Call,
) -> Result<Reply, usize> {
    let told = submit_once(alloc, store, seat, &call);
    let_go(call);
    told
}

/// How many pages a transaction wants.
fn pages_wanted(alloc: Global, both: &mut Away, lines: &str) -> Option<usize> {
    let commands = commands_of(alloc, lines)?;
    answer_once(
        alloc,
        &mut both.store,
        0,
        Call::Exec(commands, Watching::none(alloc)),
    )
    .err()
}

#[test]
fn a_plan_names_all_pages_that_it_wants(rt: HostRuntime) {
    let alloc = rt.alloc();
    let lines = "GET f0\nAPPEND f9 x\nGET f59\nGET f19";
    let mut both = filled(alloc).expect(&rt, "a store with keys");
    let before = both.store.device.calls();
    let wanted = pages_wanted(alloc, &mut both, lines);
    assert!(rt; wanted == Some(3));
    assert!(rt; both.store.device.calls() == before);
    let is_same = run_both(alloc, &mut both, lines) && run_both(alloc, &mut both, "MGET f9 f0");
    assert!(rt; is_same);
    drop(both);
}

/// How many pages a command wants.
fn pages_wanted_by(alloc: Global, both: &mut Away, line: &str) -> Option<usize> {
    let command = command_of(alloc, line)?;
    answer_once(alloc, &mut both.store, 0, Call::One(command)).err()
}

/// An MSET wants no page of its keys, an MGET each that is not resident.
#[test]
fn an_mset_reads_nothing(rt: HostRuntime) {
    let alloc = rt.alloc();
    let mut both = filled(alloc).expect(&rt, "a store with keys");
    let before = both.store.device.calls();
    let is_same = run_both(alloc, &mut both, "MSET f0 v f9 w f19 x");
    assert!(rt; is_same);
    assert!(rt; both.store.device.calls() == before);
    let wanted = pages_wanted_by(alloc, &mut both, "MGET f1 f59 f11 f21");
    assert!(rt; wanted == Some(3));
    let is_same = run_both(alloc, &mut both, "MGET f1 f0 f9 f19 f59 f11 f1 none");
    assert!(rt; is_same);
    drop(both);
}

/// RENAME of a key over another, neither of which is resident; of one that is missing; and of one to its own name.
#[test]
fn keys_without_frames_are_renamed(rt: HostRuntime) {
    let alloc = rt.alloc();
    let lines = "RENAME f0 f9\nGET f59";
    let mut both = filled(alloc).expect(&rt, "a store with keys");
    let wanted = pages_wanted(alloc, &mut both, lines);
    assert!(rt; wanted == Some(2));
    for lines in [
        lines,
        "RENAME f0 f9",
        "RENAME f11 f11",
        "RENAME f13 f59",
        "RENAME f59 f0",
        "SET f15 v NX GET",
        "SET f15 v GET",
        "MGET f0 f9 f11 f13 f15 f59",
    ] {
        let is_same = run_both(alloc, &mut both, lines);
        assert!(rt; is_same, "{lines}");
    }
    drop(both);
}

/// A session watches a key.
fn watch<D: Device>(alloc: Global, store: &mut Store<D>, seat: u64, keys: Vec<Word>) -> Option<()> {
    drop(answer_to(alloc, store, seat, Call::Watch(Keys::from_vec(keys)))?);
    Some(())
}

/// A list of words.
fn keys_of(alloc: Global, texts: &str) -> Option<Vec<Word>> {
    let mut keys = Vec::new(alloc);
    for text in texts.split(' ') {
        let word = Word::from_slice(alloc, text.as_bytes()).ok()?;
        keys.push(word).ok()?;
    }
    Some(keys)
}

/// What a session watches that watches these keys.
fn watching_of(alloc: Global, keys: &[Word]) -> Option<Watching> {
    let mut watching = Watching::none(alloc);
    if watching.add(keys).is_ok() {
        Some(watching)
    } else {
        drop(watching.into_keys());
        None
    }
}

/// What the transaction of a session that watches a key is answered in one round.
fn answer_watching(alloc: Global, both: &mut Away, lines: &str, key: &str) -> Option<Reply> {
    let keys = keys_of(alloc, key)?;
    let commands = commands_of(alloc, lines)?;
    let Some(watching) = watching_of(alloc, keys.as_slice()) else {
        drop(commands);
        return None;
    };
    answer_once(alloc, &mut both.store, 0, Call::Exec(commands, watching)).ok()
}

/// Whether such a transaction is answered null.
fn is_null(alloc: Global, both: &mut Away, lines: &str, key: &str) -> bool {
    matches!(
        answer_watching(alloc, both, lines, key),
        Some(Reply::NullArray)
    )
}

/// A session watches a key, which is written then.
fn dirty(alloc: Global, both: &mut Away) -> Option<bool> {
    let keys = keys_of(alloc, "f5")?;
    watch(alloc, &mut both.store, 0, keys)?;
    Some(run_both(alloc, both, "SET f5 other"))
}

#[test]
fn a_dirty_transaction_looks_nothing_up(rt: HostRuntime) {
    let alloc = rt.alloc();
    let mut both = filled(alloc).expect(&rt, "a store with keys");
    let is_dirty = dirty(alloc, &mut both);
    assert!(rt; is_dirty == Some(true));
    let is_null = is_null(alloc, &mut both, "GET f0\nSET f5 mine", "f5");
    assert!(rt; is_null);
    let is_same = run_both(alloc, &mut both, "GET f5");
    assert!(rt; is_same);
    drop(both);
}

/// The mark that a session has of a key.
fn mark_of<D: Device>(
    alloc: Global,
    store: &mut Store<D>,
    key: &str,
    seat: u64,
) -> Option<Option<bool>> {
    let word = Word::from_slice(alloc, key.as_bytes()).ok()?;
    for shard in store.stripes.shards.iter() {
        if let Some(mark) = shard.mark(&word, seat) {
            return Some(Some(mark));
        }
    }
    Some(None)
}

/// A watch is planned and undone.
fn undo_watch<D: Device>(alloc: Global, store: &mut Store<D>, seat: u64, keys: Vec<Word>) -> bool {
    let call = Call::Watch(Keys::from_vec(keys));
    let is_done = undo(alloc, store, seat, &call);
    let_go(call);
    is_done
}

/// Session 3 watches the key `a`, and a plan to watch `a` and `b` is undone.
fn watch_and_undo(alloc: Global, store: &mut Store<MemoryDevice>) -> Option<bool> {
    let one = keys_of(alloc, "a")?;
    watch(alloc, store, 3, one)?;
    let two = keys_of(alloc, "a b")?;
    Some(undo_watch(alloc, store, 3, two))
}

/// A store of three stripes, where that was done.
fn undone(alloc: Global) -> Option<Store<MemoryDevice>> {
    let device = memory(alloc)?;
    let mut store = store_of(alloc, 3, 64, device)?;
    if watch_and_undo(alloc, &mut store) == Some(true) {
        Some(store)
    } else {
        None
    }
}

#[test]
fn an_undone_watch_leaves_what_was_watched(rt: HostRuntime) {
    let alloc = rt.alloc();
    let mut store = undone(alloc).expect(&rt, "a store with a watch undone");
    let mark = mark_of(alloc, &mut store, "a", 3);
    assert!(rt; mark == Some(Some(false)));
    let mark = mark_of(alloc, &mut store, "b", 3);
    assert!(rt; mark == Some(None));
    drop(store);
}

/// What the command of a line is answered: nothing, where it is done, or the stripe that is full. `None` where something
/// else happened.
fn stripe_met<D: Device>(alloc: Global, both: &mut Both<D>, line: &str) -> Option<Option<usize>> {
    let command = command_of(alloc, line)?;
    let call = Call::One(command);
    let told = submit(alloc, &mut both.store, 0, &call);
    let_go(call);
    match told {
        Ok(_) => Some(None),
        Err(Stop::StoreFull(stripe)) => Some(Some(stripe)),
        Err(_) => None,
    }
}

/// Runs the command of a line, on the plain map too where no stripe is full.
pub(super) fn meets_full<D: Device>(
    alloc: Global,
    both: &mut Both<D>,
    line: &str,
) -> Option<Option<usize>> {
    let met = stripe_met(alloc, both, line)?;
    if met.is_none() {
        drop(due_line(alloc, &mut both.plain, line)?);
    }
    Some(met)
}

/// Sets a key, and tells the stripe that is full.
fn fill_up_at(alloc: Global, both: &mut Away, number: u64) -> Option<Option<usize>> {
    let line = format!(in alloc; "SETRANGE f{number} 32000 x").ok()?;
    meets_full(alloc, both, line.as_str())
}

/// Sets keys until a stripe is full, and tells it with the number of the key.
fn fill_up(alloc: Global, both: &mut Away) -> Option<(usize, u64)> {
    for number in 0..400 {
        if let Some(stripe) = fill_up_at(alloc, both, number)? {
            return Some((stripe, number));
        }
    }
    None
}

/// Whether a key has the same in both.
fn agrees_at(alloc: Global, both: &mut Away, number: u64) -> bool {
    let Ok(line) = format!(in alloc; "STRLEN f{number}") else {
        return false;
    };
    run_both(alloc, both, line.as_str())
}

/// Whether each of the keys up to this one has the same in both.
fn agree(alloc: Global, both: &mut Away, last: u64) -> bool {
    for number in 0..=last {
        if !agrees_at(alloc, both, number) {
            return false;
        }
    }
    true
}

/// A store of two stripes with few places, whose pages are read, and a plain map.
fn small(alloc: Global) -> Option<Away> {
    let device = away(alloc)?;
    both_of(alloc, 2, 64, device)
}

#[test]
fn a_full_stripe_is_named_and_keys_keep_what_they_have(rt: HostRuntime) {
    let alloc = rt.alloc();
    let mut both = small(alloc).expect(&rt, "memory for a store");
    let (stripe, number) = fill_up(alloc, &mut both).expect(&rt, "a full stripe");
    let key = format!(in alloc; "f{number}").expect(&rt, "memory for a key");
    assert!(rt; stripe == stripe_of(key.as_bytes(), 2));
    let is_same = agree(alloc, &mut both, number);
    assert!(rt; is_same);
    drop(key);
    drop(both);
}

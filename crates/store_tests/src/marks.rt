//! Marks that calls add, touch and take out, by key and seat.

use std::alloc::Global;
use std::process::Abort;
use watch::Marks;
use words::word::Word;

const LONG: &[u8] = b"a key that is longer than a word without memory";

/// A call, with what it answers.
#[derive(Clone, Copy)]
enum Call {
    Add(bool),
    Mark(Option<bool>),
    Written(bool),
    IsEmpty(bool),
    Touch,
    TakeBack,
    ClearKey,
    Clear,
}

/// A call at a key and a seat.
#[derive(Clone, Copy)]
struct Step(&'static [u8], u64, Call);

/// A word, tried again where there was no memory for it.
fn word(rt: &impl Abort, alloc: Global, bytes: &[u8]) -> Word {
    match Word::from_slice(alloc, bytes) {
        Ok(word) => word,
        Err(_) => Word::from_slice(alloc, bytes).expect(rt, "memory for a word"),
    }
}

/// Adds a mark. Where there is no memory for it nothing is there, and it is tried again.
fn add(rt: &impl Abort, marks: &mut Marks, key: &Word, seat: u64) -> bool {
    if let Ok(added) = marks.add(key, seat) {
        return added;
    }
    assert!(rt; marks.mark(key, seat).is_none());
    marks.add(key, seat).expect(rt, "memory for a mark")
}

/// Takes back a mark that is there and not written.
fn take_back(marks: &mut Marks, key: &Word, seat: u64) -> bool {
    if marks.mark(key, seat) != Some(false) {
        return false;
    }
    marks.take_back(key, seat);
    true
}

/// Whether the call answers as it is to.
fn is_so(rt: &impl Abort, marks: &mut Marks, key: &Word, seat: u64, call: Call) -> bool {
    match call {
        Call::Add(wanted) => return add(rt, marks, key, seat) == wanted,
        Call::Mark(wanted) => return marks.mark(key, seat) == wanted,
        Call::Written(wanted) => return marks.written(seat) == wanted,
        Call::IsEmpty(wanted) => return marks.is_empty() == wanted,
        Call::TakeBack => return take_back(marks, key, seat),
        Call::Touch => marks.touch(key),
        Call::ClearKey => marks.clear_key(key, seat),
        Call::Clear => marks.clear(seat),
    }
    true
}

/// Whether a step answers as it is to.
fn goes(rt: &impl Abort, alloc: Global, marks: &mut Marks, step: Step) -> bool {
    let key = word(rt, alloc, step.0);
    let answer = is_so(rt, marks, &key, step.1, step.2);
    drop(key);
    answer
}

/// Each step answers as it is to, from no marks on.
fn all_go(rt: &impl Abort, alloc: Global, steps: &[Step]) {
    let mut marks = Marks::new(alloc);
    for (number, next) in steps.iter().enumerate() {
        assert!(rt; goes(rt, alloc, &mut marks, *next), "step {number}");
    }
    drop(marks);
}

#[test]
fn nothing_is_watched_at_first(rt: HostRuntime) {
    const STEPS: &[Step] = &[
        Step(b"k", 0, Call::IsEmpty(true)),
        Step(b"k", 0, Call::Mark(None)),
        Step(b"k", 0, Call::Written(false)),
        Step(b"k", 0, Call::Touch),
        Step(b"k", 0, Call::ClearKey),
        Step(b"k", 0, Call::Clear),
        Step(b"k", 0, Call::Mark(None)),
        Step(b"k", 0, Call::IsEmpty(true)),
    ];
    all_go(&rt, rt.alloc(), STEPS);
}

#[test]
fn a_write_after_the_watch_is_seen(rt: HostRuntime) {
    const STEPS: &[Step] = &[
        Step(b"k", 3, Call::Touch),
        Step(b"k", 3, Call::Add(true)),
        Step(b"k", 3, Call::IsEmpty(false)),
        Step(b"k", 3, Call::Mark(Some(false))),
        Step(b"k", 3, Call::Written(false)),
        Step(b"k", 3, Call::Touch),
        Step(b"k", 3, Call::Mark(Some(true))),
        Step(b"k", 3, Call::Written(true)),
        Step(b"k", 3, Call::Touch),
        Step(b"k", 3, Call::Written(true)),
    ];
    all_go(&rt, rt.alloc(), STEPS);
}

#[test]
fn a_key_watched_twice_keeps_its_first_moment(rt: HostRuntime) {
    const STEPS: &[Step] = &[
        Step(LONG, 3, Call::Add(true)),
        Step(LONG, 3, Call::Add(false)),
        Step(LONG, 3, Call::Mark(Some(false))),
        Step(LONG, 3, Call::Touch),
        Step(LONG, 3, Call::Add(false)),
        Step(LONG, 3, Call::Mark(Some(true))),
    ];
    all_go(&rt, rt.alloc(), STEPS);
}

#[test]
fn a_write_of_another_key_is_not_seen(rt: HostRuntime) {
    const STEPS: &[Step] = &[
        Step(b"k", 3, Call::Add(true)),
        Step(b"", 3, Call::Touch),
        Step(b"K", 3, Call::Touch),
        Step(b"kk", 3, Call::Touch),
        Step(LONG, 3, Call::Touch),
        Step(b"kk", 3, Call::Mark(None)),
        Step(b"k", 3, Call::Mark(Some(false))),
        Step(b"k", 3, Call::Written(false)),
    ];
    all_go(&rt, rt.alloc(), STEPS);
}

#[test]
fn many_seats_watch_one_key(rt: HostRuntime) {
    const STEPS: &[Step] = &[
        Step(b"k", 0, Call::Add(true)),
        Step(b"k", 1, Call::Add(true)),
        Step(b"k", 2, Call::Add(true)),
        Step(b"k", 0, Call::Touch),
        Step(b"k", 3, Call::Add(true)),
        Step(b"k", 0, Call::Written(true)),
        Step(b"k", 1, Call::Written(true)),
        Step(b"k", 2, Call::Written(true)),
        Step(b"k", 3, Call::Written(false)),
        Step(b"k", 3, Call::Mark(Some(false))),
        Step(b"k", 4, Call::Mark(None)),
    ];
    all_go(&rt, rt.alloc(), STEPS);
}

#[test]
fn a_seat_that_ends_leaves_the_others(rt: HostRuntime) {
    const STEPS: &[Step] = &[
        Step(b"k", 0, Call::Add(true)),
        Step(b"k", 1, Call::Add(true)),
        Step(b"k", 2, Call::Add(true)),
        Step(b"k", 0, Call::Touch),
        Step(b"k", 3, Call::Add(true)),
        Step(b"k", 0, Call::Clear),
        Step(b"k", 2, Call::Clear),
        Step(b"k", 0, Call::Mark(None)),
        Step(b"k", 1, Call::Mark(Some(true))),
        Step(b"k", 2, Call::Mark(None)),
        Step(b"k", 3, Call::Mark(Some(false))),
        Step(b"k", 0, Call::Add(true)),
        Step(b"k", 0, Call::Mark(Some(false))),
    ];
    all_go(&rt, rt.alloc(), STEPS);
}

#[test]
fn a_seat_ends_with_all_its_keys(rt: HostRuntime) {
    const STEPS: &[Step] = &[
        Step(b"a", 1, Call::Add(true)),
        Step(b"b", 1, Call::Add(true)),
        Step(LONG, 1, Call::Add(true)),
        Step(b"b", 2, Call::Add(true)),
        Step(b"b", 1, Call::Touch),
        Step(b"b", 1, Call::Clear),
        Step(b"b", 1, Call::Written(false)),
        Step(b"b", 2, Call::Mark(Some(true))),
        Step(b"b", 2, Call::Clear),
        Step(b"b", 2, Call::IsEmpty(true)),
    ];
    all_go(&rt, rt.alloc(), STEPS);
}

#[test]
fn a_mark_is_taken_back(rt: HostRuntime) {
    const STEPS: &[Step] = &[
        Step(b"k", 1, Call::Add(true)),
        Step(b"k", 2, Call::Add(true)),
        Step(b"k", 2, Call::TakeBack),
        Step(b"k", 1, Call::Mark(Some(false))),
        Step(b"k", 2, Call::Mark(None)),
        Step(b"k", 1, Call::TakeBack),
        Step(b"k", 1, Call::IsEmpty(true)),
    ];
    all_go(&rt, rt.alloc(), STEPS);
}

#[test]
fn a_written_mark_is_cleared_by_its_key(rt: HostRuntime) {
    const STEPS: &[Step] = &[
        Step(b"a", 1, Call::Add(true)),
        Step(b"b", 1, Call::Add(true)),
        Step(b"a", 1, Call::Touch),
        Step(b"a", 2, Call::ClearKey),
        Step(b"a", 1, Call::Written(true)),
        Step(b"a", 1, Call::ClearKey),
        Step(b"a", 1, Call::Written(false)),
        Step(b"b", 1, Call::Mark(Some(false))),
    ];
    all_go(&rt, rt.alloc(), STEPS);
}

/// Watches as many keys as a session may, and writes the last of them.
fn watches_most(rt: &impl Abort, alloc: Global, marks: &mut Marks) {
    for number in 0..128u8 {
        let key = word(rt, alloc, &[b'k', number]);
        add(rt, marks, &key, 1);
        drop(key);
    }
    let last = word(rt, alloc, &[b'k', 127]);
    marks.touch(&last);
    drop(last);
}

#[test]
fn as_many_keys_as_a_session_may_watch(rt: HostRuntime) {
    let mut marks = Marks::new(rt.alloc());
    watches_most(&rt, rt.alloc(), &mut marks);
    assert!(rt; marks.written(1));
    assert!(rt; !marks.is_empty());
    marks.clear(1);
    assert!(rt; marks.is_empty());
    drop(marks);
}

//! Logs with pages. One stripe of 12 frames, in which client 0 has set the keys k0000 to k0629, each to 1,000
//! times the letter v: 63 records a page, so that its log has the pages 0 to 9. The last 4 are mutable, and the
//! pages 0 to 5 wait for the flusher. What client 1 asks for then is in page 0.

ghost use Rattle.world.specs.Tables.{IsWorld};

use crate::tests::{add, follow, piece_of, push, run, world_with};
use std::alloc::Global;
use std::process::Abort;
use world::World;
use world_model::Event;

/// How many keys are set.
const KEYS: usize = 630;

/// How long a value is.
#[derive(Clone, Copy)]
enum Length {
    /// A page takes 63 records of it.
    Short,
    /// A page takes two records of it.
    Long,
}

impl Length {
    /// How many bytes the value has.
    fn bytes(self) -> usize {
        match self {
            Length::Short => 1_000,
            Length::Long => 32_000,
        }
    }

    /// How that is spelled before a bulk string.
    fn spelling(self) -> &'static [u8] {
        match self {
            Length::Short => b"$1000\r\n",
            Length::Long => b"$32000\r\n",
        }
    }
}

/// Adds the value as a bulk string.
fn add_value(rt: &impl Abort, text: &mut Vec<u8>, length: Length) {
    add(rt, text, length.spelling());
    for _ in 0..length.bytes() {
        add(rt, text, b"v");
    }
    add(rt, text, b"\r\n");
}

/// The last digit of a number.
fn digit(number: usize) -> u8 {
    b'0' + (number % 10) as u8
}

/// Adds the last four digits of a number.
fn add_digits(rt: &impl Abort, text: &mut Vec<u8>, number: usize) {
    let digits = [
        digit(number / 1_000),
        digit(number / 100),
        digit(number / 10),
        digit(number),
    ];
    add(rt, text, &digits);
}

/// The request that sets the key of a number below 10,000.
fn set_of(rt: &impl Abort, alloc: Global, number: usize, length: Length) -> Vec<u8> {
    let mut text = Vec::new(alloc);
    add(rt, &mut text, b"*3\r\n$3\r\nSET\r\n$5\r\nk");
    add_digits(rt, &mut text, number);
    add(rt, &mut text, b"\r\n");
    add_value(rt, &mut text, length);
    text
}

/// Adds the events of a call of client 0 that holds stripe 0 once.
fn push_call(rt: &impl Abort, events: &mut Vec<Event>) {
    push(rt, events, Event::Take(0, 0));
    push(rt, events, Event::Commit(0));
    push(rt, events, Event::Give(0, 0));
}

/// Adds the events by which client 0 sets the key of a number.
fn push_set(
    rt: &impl Abort,
    alloc: Global,
    events: &mut Vec<Event>,
    number: usize,
    length: Length,
) {
    let request = set_of(rt, alloc, number, length);
    push(rt, events, piece_of(rt, 0, request));
    push_call(rt, events);
}

/// The events by which client 0 sets so many keys. A call that wants pages goes in up to three more rounds.
fn sets(rt: &impl Abort, alloc: Global, keys: usize, length: Length) -> Vec<Event> {
    let mut events = Vec::new(alloc);
    for number in 0..keys {
        push_set(rt, alloc, &mut events, number, length);
        for _ in 0..3 {
            push(rt, &mut events, Event::Fetch(0));
            push_call(rt, &mut events);
        }
    }
    events
}

/// A world of one stripe of so many places and two clients.
fn new_world(rt: &impl Abort, alloc: Global, places: usize) -> World
    ensures { IsWorld result }
{
    world_with(rt, alloc, 1, 12, places, 2)
}

/// Such a world in which all keys are set.
fn filled_world(rt: &impl Abort, alloc: Global, places: usize) -> World
    ensures { IsWorld result }
{
    let events = sets(rt, alloc, KEYS, Length::Short);
    let world = run(rt, new_world(rt, alloc, places), events.as_slice());
    drop(events);
    world
}

/// A client was told the value of this length.
fn is_told(rt: &impl Abort, alloc: Global, told: &[u8], length: Length) {
    let mut due = Vec::new(alloc);
    add_value(rt, &mut due, length);
    assert!(rt; told == due.as_slice(), "told otherwise");
    drop(due);
}

/// A client was told three times the value, as one array.
fn is_told_three(rt: &impl Abort, alloc: Global, told: &[u8]) {
    let mut due = Vec::new(alloc);
    add(rt, &mut due, b"*3\r\n");
    for _ in 0..3 {
        add_value(rt, &mut due, Length::Short);
    }
    assert!(rt; told == due.as_slice(), "told otherwise");
    drop(due);
}

/// What client 1 was told, of two.
fn told<'a>(rt: &impl Abort, world: &'a World) -> &'a [u8] {
    assert!(rt; world.clients() == 2);
    world.output(1)
}

/// There are so many entries.
fn has_entries(rt: &impl Abort, world: &World, entries: usize) {
    assert!(rt; world.history().len() == entries, "entries");
}

/// Follows a text in a filled world. Client 1 has the value then, or nothing; and there are so many entries.
fn row<R: Abort>(rt: &R, alloc: Global, text: &str, value: bool, entries: usize) {
    let world = follow(rt, alloc, filled_world(rt, alloc, 4_096), text);
    let output = told(rt, &world);
    if value {
        is_told(rt, alloc, output, Length::Short);
    } else {
        assert!(rt; output.is_empty(), "told otherwise");
    }
    has_entries(rt, &world, entries);
    world.end();
}

/// A page that left its frame is read outside the stripe, and the call is planned anew.
#[test]
fn a_cold_page_is_fetched(rt: HostRuntime) {
    let text =
        "do copy 0; do write 0; do install 0; do drop 0; do ask 1 GET k0000; do take 1 0; silent 1; \
        do give 1 0; do fetch 1; do take 1 0; do commit 1; do give 1 0";
    row(&rt, rt.alloc(), text, true, 631);
}

/// Without the read nothing is committed.
#[test]
fn a_cold_call_waits_for_its_page(rt: HostRuntime) {
    let text =
        "do copy 0; do write 0; do install 0; do drop 0; do ask 1 GET k0000; do take 1 0; not commit 1; \
        do give 1 0; not take 1 0; not commit 1; not give 1 0";
    row(&rt, rt.alloc(), text, false, 630);
}

/// A page without a receipt stays.
#[test]
fn a_page_without_a_receipt_is_not_dropped(rt: HostRuntime) {
    let text = "not drop 0; do ask 1 GET k0000; do take 1 0; do commit 1; do give 1 0";
    row(&rt, rt.alloc(), text, true, 631);
    let text =
        "do copy 0; not drop 0; do write 0; not drop 0; do ask 1 GET k0000; do take 1 0; do commit 1; do give 1 0";
    row(&rt, rt.alloc(), text, true, 631);
}

/// The cleaner copies what counts of the oldest page to the tail, and its place is released.
#[test]
fn a_place_is_released_and_shows_another_page(rt: HostRuntime) {
    let text =
        "do copy 0; do write 0; do install 0; do drop 0; do unlink 0; do retire 0; do drain 0; \
        do release 0 255; not release 0 255; do ask 1 GET k0000; do take 1 0; do commit 1; do give 1 0";
    row(&rt, rt.alloc(), text, true, 631);
}

/// A place that a client may read is not drained before its stay ends.
#[test]
fn a_stay_keeps_a_place(rt: HostRuntime) {
    let text =
        "do copy 0; do write 0; do install 0; do drop 0; do ask 1 GET k0000; do take 1 0; do give 1 0; \
        do unlink 0; do retire 0; not drain 0; not release 0 255; \
        do fetch 1; do take 1 0; not drain 0; do commit 1; not drain 0; do give 1 0; do drain 0; do release 0 255";
    row(&rt, rt.alloc(), text, true, 631);
}

/// A transaction whose page is fetched in a round of its own.
#[test]
fn a_transaction_reads_in_a_round(rt: HostRuntime) {
    let text = "copy 0; write 0; install 0; drop 0; copy 0; write 0; install 0; drop 0; \
        ask 1 MULTI; ask 1 GET k0000; ask 1 EXEC; take 1 0; give 1 0; fetch 1; take 1 0; commit 1; give 1 0";
    let world = follow(&rt, rt.alloc(), filled_world(&rt, rt.alloc(), 4_096), text);
    has_entries(&rt, &world, 631);
    world.end();
}

/// A call that lacks three pages names them all, and one fetch reads them all.
#[test]
fn one_fetch_reads_all_pages_of_a_call(rt: HostRuntime) {
    let text =
        "do copy 0; do write 0; do install 0; do drop 0; do copy 0; do write 0; do install 0; do drop 0; \
        do copy 0; do write 0; do install 0; do drop 0; do ask 1 MGET k0000 k0063 k0126; do take 1 0; not commit 1; \
        do give 1 0; do fetch 1; do take 1 0; not give 1 0; do commit 1; do give 1 0";
    let world = follow(&rt, rt.alloc(), filled_world(&rt, rt.alloc(), 4_096), text);
    is_told_three(&rt, rt.alloc(), told(&rt, &world));
    world.end();
}

/// Four keys of one bucket, by their numbers; no other of a number below 10,000 is of it.
const CHAIN: [usize; 4] = [102, 263, 2_984, 3_499];

/// Adds the events by which the oldest page leaves its frame.
fn push_leave(rt: &impl Abort, events: &mut Vec<Event>) {
    push(rt, events, Event::Copy(0));
    push(rt, events, Event::Write(0));
    push(rt, events, Event::Install(0));
    push(rt, events, Event::Drop(0));
}

/// The events after which the bucket of four keys leads through the pages 3, 2, 1 and 0, one key of it in each, all of which
/// left their frames.
fn chain(rt: &impl Abort, alloc: Global) -> Vec<Event> {
    let mut events = Vec::new(alloc);
    for (other, number) in CHAIN.iter().enumerate() {
        push_set(rt, alloc, &mut events, *number, Length::Long);
        push_set(rt, alloc, &mut events, other, Length::Long);
    }
    for number in 4..12 {
        push_set(rt, alloc, &mut events, number, Length::Long);
    }
    for _ in CHAIN {
        push_leave(rt, &mut events);
    }
    events
}

/// A world after these events, in which a text is followed. Client 1 has the long value of one of the four keys then.
fn follow_chained(rt: &impl Abort, alloc: Global, text: &str) -> World
    ensures { IsWorld result }
{
    let events = chain(rt, alloc);
    let world = run(rt, new_world(rt, alloc, 4_096), events.as_slice());
    drop(events);
    let world = follow(rt, alloc, world, text);
    is_told(rt, alloc, told(rt, &world), Length::Long);
    world
}

/// A key behind four cold pages: three are fetched, each in a round of its own, and the fourth is read by the plan itself.
#[test]
fn a_plan_reads_the_page_behind_three_rounds(rt: HostRuntime) {
    let text =
        "do ask 1 GET k0102; do take 1 0; not commit 1; do give 1 0; do fetch 1; do take 1 0; not commit 1; do give 1 0; \
        do fetch 1; do take 1 0; not commit 1; do give 1 0; do fetch 1; do take 1 0; not give 1 0; do commit 1; do give 1 0; \
        not fetch 1";
    let world = follow_chained(&rt, rt.alloc(), text);
    has_entries(&rt, &world, 17);
    world.end();
}

/// The same call, where the world finishes it.
#[test]
fn a_finished_world_reads_cold_pages(rt: HostRuntime) {
    let text = "do ask 1 GET k0102; no rest; finish; rest";
    follow_chained(&rt, rt.alloc(), text).end();
}

/// Events of stripes that are not enabled: the stripe is held, there is no copy, one already, or no receipt, the oldest
/// page is resident, and no place was unlinked, retired or drained.
#[test]
fn events_of_a_stripe_that_are_not_enabled(rt: HostRuntime) {
    let text =
        "not write 0; not install 0; not unlink 0; not retire 0; not drain 0; not release 0 255; not drop 0; \
        do ask 1 GET k0000; do take 1 0; not copy 0; not write 0; not install 0; not drop 0; not unlink 0; do commit 1; \
        not copy 0; do give 1 0";
    row(&rt, rt.alloc(), text, true, 631);
    let text =
        "do copy 0; not copy 0; not install 0; not drop 0; not unlink 0; not retire 0; not drain 0; \
        not release 0 255; do ask 1 GET k0000; do take 1 0; do write 0; not write 0; not copy 0; not install 0; \
        not drop 0; do commit 1; do give 1 0; do install 0; not install 0; not unlink 0; do drop 0; not drop 0; \
        do unlink 0; not unlink 0; not drain 0; do retire 0; not retire 0; not release 0 255; do drain 0; not drain 0; \
        do release 0 255; not release 0 255";
    row(&rt, rt.alloc(), text, true, 631);
}

/// Events of a client that are not enabled while pages are to be fetched for it, and before.
#[test]
fn events_of_a_client_that_are_not_enabled(rt: HostRuntime) {
    let text =
        "do copy 0; do write 0; do install 0; do drop 0; not fetch 1; do ask 1 GET k0000; not fetch 1; not commit 1; \
        not give 1 0; do take 1 0; not fetch 1; not commit 1; not take 1 0; do give 1 0; not commit 1; not take 1 0; \
        not give 1 0; do fetch 1; not fetch 1; do take 1 0; not take 1 0; not give 1 0; not fetch 1; do commit 1; \
        not commit 1; not fetch 1; do give 1 0; not give 1 0";
    row(&rt, rt.alloc(), text, true, 631);
}

/// A receipt that comes when its page has left its frame is unlinked at once, and its place can be released.
#[test]
fn a_receipt_that_comes_late_is_unlinked(rt: HostRuntime) {
    let alloc = rt.alloc();
    let world = filled_world(&rt, alloc, 4_096);
    let world = follow(&rt, alloc, world, "do copy 0; do write 0; not retire 0");
    // Each key is set once more, which takes 10 pages: the pages 0 to 7 leave their frames.
    let world = filled_again(&rt, alloc, world, 1);
    let text =
        "not retire 0; do install 0; do retire 0; do drain 0; do release 0 255; not retire 0; \
        do ask 1 GET k0000; do take 1 0; do commit 1; do give 1 0";
    let world = follow(&rt, alloc, world, text);
    is_told(&rt, alloc, told(&rt, &world), Length::Short);
    has_entries(&rt, &world, 2 * KEYS + 1);
    world.end();
}

/// Client 0 was told last, of two, that the store is full.
fn is_full(rt: &impl Abort, world: &World) {
    assert!(rt; world.clients() == 2);
    assert!(rt;
        world.output(0).ends_with(b"-FULL store is full\r\n"),
        "not full"
    );
}

/// Where no place is left, calls are refused, and the history has no entry of them.
#[test]
fn a_full_stripe_refuses_calls(rt: HostRuntime) {
    let alloc = rt.alloc();
    let world = filled_world(&rt, alloc, 64);
    let world = filled_again(&rt, alloc, world, 7);
    is_full(&rt, &world);
    assert!(rt; world.history().len() < 8 * KEYS, "entries");
    // Nothing is copied for the flusher either. The oldest page holds nothing that counts: it is unlinked, and once its
    // place is released there is one for the flusher.
    let text =
        "not copy 0; do unlink 0; not copy 0; do retire 0; not copy 0; do drain 0; not copy 0; do release 0 0; \
        do copy 0";
    follow(&rt, alloc, world, text).end();
}

/// A world of 64 places, in which client 0 has set 20 keys in turn, which takes ten pages, until no place was left.
fn full_world(rt: &impl Abort, alloc: Global) -> World
    ensures { IsWorld result }
{
    let events = sets(rt, alloc, 20, Length::Long);
    let world = repeated(rt, new_world(rt, alloc, 64), events.as_slice(), 8);
    drop(events);
    is_full(rt, &world);
    world
}

/// Follows a text in the world; then client 1 asks to set a new key to the long value; and it follows the other text.
fn follow_with_set<R: Abort>(
    rt: &R,
    alloc: Global,
    world: World,
    first: &str,
    second: &str,
) -> World
    requires { IsWorld world }
    ensures { IsWorld result }
{
    let world = follow(rt, alloc, world, first);
    let request = set_of(rt, alloc, 20, Length::Long);
    let world = run(rt, world, &[piece_of(rt, 1, request)]);
    follow(rt, alloc, world, second)
}

/// A call that needs a place releases a retired one itself, where no stay keeps it.
#[test]
fn a_call_releases_a_retired_place(rt: HostRuntime) {
    let alloc = rt.alloc();
    let world = full_world(&rt, alloc);
    let second =
        "do take 1 0; not drain 0; not release 0 255; do commit 1; told 1 +OK|; do give 1 0";
    follow_with_set(&rt, alloc, world, "do unlink 0; do retire 0", second).end();
}

/// The call's own stay counts: a place that was unlinked is retired by a call that needs one, and released by the next.
#[test]
fn a_call_keeps_a_place_that_it_retires(rt: HostRuntime) {
    let alloc = rt.alloc();
    let world = full_world(&rt, alloc);
    let second =
        "do take 1 0; not retire 0; not drain 0; do commit 1; told 1 -FULL store is full|; do give 1 0";
    let world = follow_with_set(&rt, alloc, world, "do unlink 0", second);
    let third =
        "do take 1 0; not drain 0; not release 0 255; do commit 1; told 1 -FULL store is full|+OK|; do give 1 0";
    follow_with_set(&rt, alloc, world, "not retire 0; not release 0 255", third).end();
}

/// A world in which all keys were set so many times more.
fn filled_again(rt: &impl Abort, alloc: Global, world: World, times: usize) -> World
    requires { IsWorld world }
    ensures { IsWorld result }
{
    let events = sets(rt, alloc, KEYS, Length::Short);
    let world = repeated(rt, world, events.as_slice(), times);
    drop(events);
    world
}

/// A world after the same events so many times more.
fn repeated<R: Abort>(rt: &R, world: World, events: &[Event], times: usize) -> World
    requires { IsWorld world }
    ensures { IsWorld result }
{
    if times == 0 {
        return world;
    }
    let world = run(rt, world, events);
    repeated(rt, world, events, times - 1)
}

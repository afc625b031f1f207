//! Schedules of the simulated world, in text. A text is lines, set apart by a semicolon and a space. A line
//! is an event, or says what must hold there:
//!
//! - `ask C WORDS` feeds client C a request of these words, and `raw C TEXT` these bytes, where `|` stands
//!   for CR LF, `<` for CR and `>` for LF;
//! - `close C`, `take C I`, `commit C`, `give C I`, and `fetch C`, `copy I` .. `release I BYTE` are the other
//!   events, where a release shows a page of this byte, and `turn C I` is a take, a commit and a give;
//! - `do EVENT` is an event that is enabled, and `not EVENT` one that is not; without such a word either will do;
//! - `finish` does events of calls until each client rests, `rest` says that each does, and `no rest` that some does not;
//! - `told C TEXT` says what was written to client C since the start, and `silent C` that it is nothing;
//! - `entries C C ..` says which client's each entry of the history is, and `no entries` that there is none.
//!
//! Of 16 stripes, the keys a and q lie in stripe 12, and b lies in stripe 5.

ghost use Rattle.world.specs.Tables.{IsWorld};

use bytes::Bytes;
use records::Page;
use std::alloc::Global;
use std::process::Abort;
use words::history::Entry;
use words::limits::Limits;
use world::World;
use world_model::{Event, ShownPage};

/// Adds bytes to a text.
pub(crate) fn add(rt: &impl Abort, text: &mut Vec<u8>, bytes: &[u8]) {
    text.extend_from_slice(bytes)
        .expect(rt, "memory for a text");
}

/// Adds a byte, the last digit of a count, and CR LF.
fn add_count(rt: &impl Abort, text: &mut Vec<u8>, first: u8, count: usize) {
    add(rt, text, &[first, b'0' + (count % 10) as u8, b'\r', b'\n']);
}

/// Adds what a byte stands for: `|` for CR LF, `<` for CR, `>` for LF, and each other for itself.
fn add_raw(rt: &impl Abort, text: &mut Vec<u8>, byte: u8) {
    match byte {
        b'|' => add(rt, text, b"\r\n"),
        b'<' => add(rt, text, b"\r"),
        b'>' => add(rt, text, b"\n"),
        other => add(rt, text, &[other]),
    }
}

/// The bytes of a text, where `|` stands for CR LF, `<` for CR and `>` for LF.
fn raw_of(rt: &impl Abort, alloc: Global, text: &str) -> Vec<u8> {
    let mut bytes = Vec::new(alloc);
    for byte in text.as_bytes() {
        add_raw(rt, &mut bytes, *byte);
    }
    bytes
}

/// Adds one word of a request, of at most 9 bytes.
fn add_word(rt: &impl Abort, text: &mut Vec<u8>, word: &str) {
    add_count(rt, text, b'$', word.len());
    add(rt, text, word.as_bytes());
    add(rt, text, b"\r\n");
}

/// The bytes of a request of at most 9 words.
fn request_of(rt: &impl Abort, alloc: Global, words: &str) -> Vec<u8> {
    let mut bytes = Vec::new(alloc);
    add_count(rt, &mut bytes, b'*', words.split(' ').count());
    for word in words.split(' ') {
        add_word(rt, &mut bytes, word);
    }
    bytes
}

/// A number.
fn number_of(rt: &impl Abort, text: &str) -> usize {
    text.parse::<usize>().expect(rt, text)
}

/// Two numbers, set apart by a space.
fn pair_of(rt: &impl Abort, text: &str) -> (usize, usize) {
    let (first, second) = text.split_once(' ').expect(rt, text);
    (number_of(rt, first), number_of(rt, second))
}

/// Feeds these bytes to a client.
pub(crate) fn piece_of(rt: &impl Abort, client: usize, bytes: Vec<u8>) -> Event {
    let bytes = Bytes::from_vec(bytes).ok();
    Event::Piece(client, bytes.expect(rt, "memory for a piece"))
}

/// The event of a stripe whose place is released, and shows a page of this byte.
fn release_of(rt: &impl Abort, alloc: Global, stripe: usize, byte: usize) -> Event {
    let byte = u8::try_from(byte).expect(rt, "a byte");
    Event::Release(
        stripe,
        ShownPage::filled(alloc, byte).expect(rt, "memory for a page"),
    )
}

/// The event of a client and a stripe, or of a stripe and a byte.
fn event_of_two(rt: &impl Abort, alloc: Global, verb: &str, one: usize, other: usize) -> Event {
    match verb {
        "take" => Event::Take(one, other),
        "give" => Event::Give(one, other),
        "release" => release_of(rt, alloc, one, other),
        _ => panic!(rt; "{verb}"),
    }
}

/// The event of a client or a stripe.
fn event_of_one(rt: &impl Abort, verb: &str, actor: usize) -> Event {
    match verb {
        "close" => Event::Close(actor),
        "commit" => Event::Commit(actor),
        "fetch" => Event::Fetch(actor),
        "copy" => Event::Copy(actor),
        "write" => Event::Write(actor),
        "install" => Event::Install(actor),
        "drop" => Event::Drop(actor),
        "unlink" => Event::Unlink(actor),
        "retire" => Event::Retire(actor),
        "drain" => Event::Drain(actor),
        _ => panic!(rt; "{verb}"),
    }
}

/// The event of a verb and what it is of.
fn event_of_verb(rt: &impl Abort, alloc: Global, verb: &str, rest: &str) -> Event {
    let Some((first, second)) = rest.split_once(' ') else {
        return event_of_one(rt, verb, number_of(rt, rest));
    };
    let first = number_of(rt, first);
    match verb {
        "ask" => piece_of(rt, first, request_of(rt, alloc, second)),
        "raw" => piece_of(rt, first, raw_of(rt, alloc, second)),
        _ => event_of_two(rt, alloc, verb, first, number_of(rt, second)),
    }
}

/// The event of a line.
fn event_of(rt: &impl Abort, alloc: Global, line: &str) -> Event {
    let (verb, rest) = line.split_once(' ').expect(rt, line);
    event_of_verb(rt, alloc, verb, rest)
}

/// Whether this is what was written to a client.
fn is_told(rt: &impl Abort, alloc: Global, world: &World, client: usize, text: &str) -> bool {
    let due = raw_of(rt, alloc, text);
    let is_so = client < world.clients() && world.output(client) == due.as_slice();
    drop(due);
    is_so
}

/// Whether entries are those of these clients.
fn are_by(entries: &[Entry], clients: &str) -> bool {
    let mut others = entries;
    for client in clients.split(' ') {
        let Some((entry, rest)) = others.split_first() else {
            return false;
        };
        if client.parse::<u64>() != Ok(entry.session) {
            return false;
        }
        others = rest;
    }
    others.is_empty()
}

/// Whether what a line says of a client's output holds.
fn tells(rt: &impl Abort, alloc: Global, world: &World, rest: &str) -> bool {
    let (client, text) = rest.split_once(' ').unwrap_or((rest, ""));
    is_told(rt, alloc, world, number_of(rt, client), text)
}

/// Whether what a line says holds in the world.
fn holds(rt: &impl Abort, alloc: Global, world: &World, verb: &str, rest: &str) -> bool {
    match verb {
        "no" => rest == "entries" && world.history().is_empty(),
        "entries" => are_by(world.history(), rest),
        _ => tells(rt, alloc, world, rest),
    }
}

/// The world after these events.
pub(crate) fn run(rt: &impl Abort, world: World, events: &[Event]) -> World
    requires { IsWorld world }
    ensures { IsWorld result }
{
    world.run(events).expect(rt, "memory for the events")
}

/// The world after a take, a commit and a give of this client and this stripe.
fn after_turn(rt: &impl Abort, world: World, pair: &str) -> World
    requires { IsWorld world }
    ensures { IsWorld result }
{
    let (client, stripe) = pair_of(rt, pair);
    let take = Event::Take(client, stripe);
    let give = Event::Give(client, stripe);
    run(rt, world, &[take, Event::Commit(client), give])
}

/// The world after an event that is enabled, or is not, as it is to be.
fn after_step(rt: &impl Abort, alloc: Global, world: World, line: &str, due: bool) -> World
    requires { IsWorld world }
    ensures { IsWorld result }
{
    let event = event_of(rt, alloc, line);
    let (world, enabled) = world.step(&event).expect(rt, "memory for the event");
    assert!(rt; enabled == due, "{line}");
    drop(event);
    world
}

/// The world after an event, which is enabled or not.
fn after_event(rt: &impl Abort, alloc: Global, world: World, line: &str) -> World
    requires { IsWorld world }
    ensures { IsWorld result }
{
    let event = event_of(rt, alloc, line);
    run(rt, world, &[event])
}

/// The world, where each client rests in it, or where some does not, as it is to be.
fn at_rest(rt: &impl Abort, world: World, due: bool) -> World
    requires { IsWorld world }
    ensures { IsWorld result }
{
    assert!(rt; world.next_event().is_none() == due);
    world
}

/// The world after a line of one word.
fn after_word(rt: &impl Abort, world: World, word: &str) -> World
    requires { IsWorld world }
    ensures { IsWorld result }
{
    if word == "rest" {
        return at_rest(rt, world, true);
    }
    assert!(rt; word == "finish", "{word}");
    world.finish().expect(rt, "memory to finish")
}

/// The world after a line, which holds.
fn after(rt: &impl Abort, alloc: Global, world: World, line: &str) -> World
    requires { IsWorld world }
    ensures { IsWorld result }
{
    let Some((verb, rest)) = line.split_once(' ') else {
        return after_word(rt, world, line);
    };
    match verb {
        "turn" => after_turn(rt, world, rest),
        "do" => after_step(rt, alloc, world, rest, true),
        "not" => after_step(rt, alloc, world, rest, false),
        "no" if rest == "rest" => at_rest(rt, world, false),
        "no" | "entries" | "told" | "silent" => {
            assert!(rt; holds(rt, alloc, &world, verb, rest), "{line}");
            world
        }
        _ => after_event(rt, alloc, world, line),
    }
}

/// The world after the lines of a text, each of which holds.
pub(crate) fn follow<R: Abort>(rt: &R, alloc: Global, world: World, text: &str) -> World
    requires { IsWorld world }
    ensures { IsWorld result }
{
    let (line, others) = match text.split_once("; ") {
        Some((line, others)) => (line, Some(others)),
        None => (text, None),
    };
    let world = after(rt, alloc, world, line);
    match others {
        Some(others) => follow(rt, alloc, world, others),
        None => world,
    }
}

/// A world of so many stripes and clients, where nothing was done.
fn new_world(rt: &impl Abort, alloc: Global, stripes: usize, clients: usize) -> World
    ensures { IsWorld result }
{
    world_with(rt, alloc, stripes, 32, 4_096, clients)
}

/// The same with so many frames and places.
pub(crate) fn world_with(
    rt: &impl Abort,
    alloc: Global,
    stripes: usize,
    frames: usize,
    places: usize,
    clients: usize,
) -> World
    ensures { IsWorld result }
{
    let limits = Limits::new(stripes, 4_096, frames, places, clients).expect(rt, "the limits");
    World::new(alloc, &limits).expect(rt, "memory for a world")
}

/// Whether this is a page, each of whose bytes is this.
fn is_of(page: &Page, byte: u8) -> bool {
    let (bytes, zeros) = page.parts();
    bytes.iter().all(|shown| *shown == byte) && (byte == 0 || zeros.is_empty())
}

/// A page of a byte that is shown.
fn filled(rt: &impl Abort, alloc: Global, byte: u8) -> ShownPage {
    ShownPage::filled(alloc, byte).expect(rt, "memory for a page")
}

/// An empty page of number 7.
fn page_7(rt: &impl Abort, alloc: Global) -> Page {
    Page::new(alloc, 7).expect(rt, "memory for a page")
}

/// A page is shown as it is, and one of a byte by that byte alone.
#[test]
fn pages_that_are_shown(rt: HostRuntime) {
    let filled = filled(&rt, rt.alloc(), 255);
    assert!(rt; is_of(filled.page(), 255));
    drop(filled);
    let shown = ShownPage::new(rt.alloc(), page_7(&rt, rt.alloc())).expect(&rt, "memory to show");
    let page = page_7(&rt, rt.alloc());
    assert!(rt; *shown.page() == page);
    drop(page);
    drop(shown);
}

/// A page that is shown once more, or is shared, is the same page.
#[test]
fn pages_that_are_shared(rt: HostRuntime) {
    let filled = filled(&rt, rt.alloc(), 7);
    let again = filled.again().expect(&rt, "memory to show");
    assert!(rt; is_of(again.page(), 7));
    drop(again);
    let shared = filled.shared().expect(&rt, "memory to share");
    assert!(rt; is_of(&shared, 7));
    drop(shared);
    drop(filled);
}

/// Adds an event.
pub(crate) fn push(rt: &impl Abort, events: &mut Vec<Event>, event: Event) {
    events.push(event).expect(rt, "memory for an event");
}

/// So many events that are not enabled, between two that are.
fn many(rt: &impl Abort, alloc: Global, count: usize) -> Vec<Event> {
    let mut events = Vec::new(alloc);
    push(rt, &mut events, Event::Close(0));
    for _ in 0..count {
        push(rt, &mut events, Event::Commit(0));
    }
    push(rt, &mut events, Event::Close(1));
    events
}

/// A run takes no more of the stack for more events.
#[test]
fn twenty_thousand_events(rt: HostRuntime) {
    let events = many(&rt, rt.alloc(), 20_000);
    let world = run(&rt, new_world(&rt, rt.alloc(), 1, 2), events.as_slice());
    drop(events);
    let text = "ask 0 PING; silent 0; ask 1 PING; silent 1; no entries";
    follow(&rt, rt.alloc(), world, text).end();
}

/// Follows two texts in this world, one after the other.
fn follow_both<R: Abort>(rt: &R, alloc: Global, world: World, first: &str, second: &str)
    requires { IsWorld world }
{
    let world = follow(rt, alloc, world, first);
    let world = follow(rt, alloc, world, second);
    world.end();
}

/// Follows two texts in a new world of 16 stripes and two clients.
fn schedule_both<R: Abort>(rt: &R, alloc: Global, first: &str, second: &str) {
    follow_both(rt, alloc, new_world(rt, alloc, 16, 2), first, second);
}

/// Follows a text in a new world of 16 stripes and two clients.
pub(crate) fn schedule<R: Abort>(rt: &R, alloc: Global, text: &str) {
    schedule_both(rt, alloc, "no entries", text);
}

/// Follows a text in a new world of so many stripes and clients.
fn schedule_of<R: Abort>(rt: &R, alloc: Global, stripes: usize, clients: usize, text: &str) {
    let world = new_world(rt, alloc, stripes, clients);
    follow_both(rt, alloc, world, "no entries", text);
}

/// Follows each of these texts in a new world of 16 stripes and two clients.
fn schedule_each<R: Abort>(rt: &R, alloc: Global, texts: &[&str]) {
    for text in texts {
        schedule(rt, alloc, text);
    }
}

#[test]
fn two_clients_one_after_the_other(rt: HostRuntime) {
    let text = "ask 0 SET a 1; ask 1 GET a; take 0 12; take 1 12; commit 1; silent 0; no entries; \
        commit 0; told 0 +OK|; entries 0; commit 1; silent 1; give 0 12; \
        take 1 12; silent 1; commit 1; told 1 $1|1|; entries 0 1; give 1 12";
    schedule(&rt, rt.alloc(), text);
}

#[test]
fn a_watched_key_is_written(rt: HostRuntime) {
    let text = "ask 0 WATCH a; turn 0 12; told 0 +OK|; ask 1 SET a 1; turn 1 12; told 1 +OK|; \
        raw 0 *1|$5|MULTI|*1|$4|EXEC|; told 0 +OK|+OK|; commit 0; told 0 +OK|+OK|; \
        take 0 12; commit 0; told 0 +OK|+OK|*-1|; give 0 12; entries 0 1 0; \
        ask 0 MULTI; ask 0 EXEC; commit 0; told 0 +OK|+OK|*-1|+OK|*0|; entries 0 1 0 0";
    schedule(&rt, rt.alloc(), text);
}

#[test]
fn watches_and_writes(rt: HostRuntime) {
    let texts = [
        // Its own write counts.
        "ask 0 WATCH a; turn 0 12; ask 0 SET a 1; turn 0 12; ask 0 MULTI; ask 0 GET a; ask 0 EXEC; \
            turn 0 12; told 0 +OK|+OK|+OK|+QUEUED|*-1|; entries 0 0 0",
        // Nothing is written by a DEL of a missing key.
        "ask 0 WATCH a; turn 0 12; ask 1 DEL a; turn 1 12; told 1 :0|; ask 0 MULTI; ask 0 EXEC; \
            turn 0 12; told 0 +OK|+OK|*0|; entries 0 1 0",
        // Another key of the same stripe is written.
        "ask 0 WATCH a; turn 0 12; ask 1 SET q 1; turn 1 12; ask 0 MULTI; ask 0 GET q; ask 0 EXEC; \
            turn 0 12; told 0 +OK|+OK|+QUEUED|*1|$1|1|; entries 0 1 0",
        // The same in a transaction, whose watch of two keys is for one position.
        "ask 0 WATCH b a; take 0 5; turn 0 12; give 0 5; told 0 +OK|; ask 1 MULTI; ask 1 SET q 1; \
            ask 1 EXEC; turn 1 12; told 1 +OK|+QUEUED|*1|+OK|; ask 0 MULTI; ask 0 EXEC; \
            take 0 5; turn 0 12; give 0 5; told 0 +OK|+OK|*0|; entries 0 1 0",
        // Another client forgets the key that both watch.
        "ask 0 WATCH a; turn 0 12; ask 1 WATCH a; turn 1 12; ask 0 SET a 1; turn 0 12; \
            ask 0 QUIT; turn 0 12; ask 1 MULTI; ask 1 EXEC; turn 1 12; told 1 +OK|+OK|*-1|; \
            entries 0 1 0 1",
    ];
    schedule_each(&rt, rt.alloc(), &texts);
}

/// RENAME takes the stripes of both keys, and writes both, or none.
#[test]
fn a_rename_of_two_stripes(rt: HostRuntime) {
    let texts = [
        "ask 0 SET a 1; turn 0 12; ask 0 RENAME a b; take 0 12; commit 0; told 0 +OK|; take 0 5; \
            ask 1 GET b; take 1 5; take 0 12; commit 0; told 0 +OK|+OK|; give 0 5; turn 1 5; told 1 $1|1|; \
            give 0 12; ask 1 GET a; turn 1 12; told 1 $1|1|$-1|; entries 0 0 1 1",
        // The key that is watched is renamed, and then the other one is given its name.
        "ask 1 SET a 1; turn 1 12; ask 0 WATCH a; turn 0 12; ask 1 RENAME a b; take 1 5; turn 1 12; give 1 5; \
            told 1 +OK|+OK|; ask 0 MULTI; ask 0 EXEC; turn 0 12; told 0 +OK|+OK|*-1|; \
            ask 0 WATCH a; turn 0 12; ask 1 RENAME b a; take 1 5; turn 1 12; give 1 5; told 1 +OK|+OK|+OK|; \
            ask 0 MULTI; ask 0 EXEC; turn 0 12; told 0 +OK|+OK|*-1|+OK|+OK|*-1|; entries 1 0 1 0 0 1 0",
        // A key that is missing, and a key that has the name already, write nothing.
        "ask 1 SET a 1; turn 1 12; ask 0 WATCH a; turn 0 12; ask 1 RENAME b a; take 1 5; turn 1 12; give 1 5; \
            ask 1 RENAME a a; turn 1 12; told 1 +OK|-ERR no such key|+OK|; \
            ask 0 MULTI; ask 0 RENAME a b; ask 0 SET b 2 GET; ask 0 EXEC; take 0 5; turn 0 12; give 0 5; \
            told 0 +OK|+OK|+QUEUED|+QUEUED|*2|+OK|$1|1|; entries 1 0 1 1 0",
    ];
    schedule_each(&rt, rt.alloc(), &texts);
}

#[test]
fn a_call_without_stripes(rt: HostRuntime) {
    let text = "ask 0 MULTI; ask 0 EXEC; ask 0 PING; told 0 +OK|; take 0 0; give 0 0; no entries; \
        commit 0; told 0 +OK|*0|+PONG|; entries 0; commit 0; entries 0";
    schedule(&rt, rt.alloc(), text);
}

#[test]
fn a_call_of_two_stripes(rt: HostRuntime) {
    let first = "ask 0 MULTI; ask 0 SET a 1; ask 0 SET b 2; ask 0 EXEC; ask 0 PING; ask 1 GET a; \
        take 0 12; commit 0; told 0 +OK|+QUEUED|+QUEUED|; turn 1 12; told 1 $-1|; entries 1; \
        take 0 5; take 0 5; commit 0; told 0 +OK|+QUEUED|+QUEUED|; ask 1 GET a; turn 1 12; \
        told 1 $-1|$-1|; entries 1 1; ask 1 GET b; turn 1 5; told 1 $-1|$-1|";
    let second = "take 0 12; told 0 +OK|+QUEUED|+QUEUED|; commit 0; \
        told 0 +OK|+QUEUED|+QUEUED|*2|+OK|+OK|; entries 1 1 0; turn 1 5; told 1 $-1|$-1|; \
        give 0 5; turn 1 5; told 1 $-1|$-1|$1|2|; entries 1 1 0 1; \
        told 0 +OK|+QUEUED|+QUEUED|*2|+OK|+OK|; give 0 12; \
        told 0 +OK|+QUEUED|+QUEUED|*2|+OK|+OK|+PONG|";
    schedule_both(&rt, rt.alloc(), first, second);
}

#[test]
fn events_that_are_not_enabled_at_the_start(rt: HostRuntime) {
    let first =
        "not take 0 12; not commit 0; not give 0 12; not take 0 16; not give 0 16; not ask 2 SET a 1; not close 2; \
        not take 2 12; not commit 2; not give 2 12; not fetch 0; not copy 12; not write 12; not install 12; \
        not drop 12; not unlink 12; not retire 12; not drain 12; not release 12 255; not fetch 2; not copy 16; \
        not write 16; not install 16; not drop 16; not unlink 16; not retire 16; not drain 16; not release 16 0; \
        not take 0 18446744073709551615; not give 0 18446744073709551615; \
        not ask 18446744073709551615 SET a 1; silent 0; silent 1; no entries";
    let second = "ask 0 SET a 1; ask 1 GET a; turn 1 12; told 1 $-1|; turn 0 12; told 0 +OK|; \
        entries 1 0; ask 1 GET a; turn 1 12; told 1 $-1|$1|1|; entries 1 0 1";
    schedule_both(&rt, rt.alloc(), first, second);
}

#[test]
fn events_that_are_not_enabled_within_a_call(rt: HostRuntime) {
    let first =
        "do ask 0 MULTI; do ask 0 SET a 1; do ask 0 SET b 2; do ask 0 EXEC; not take 0 12; do take 0 5; \
        not take 0 5; not take 0 16; not take 0 7; not give 0 5; not commit 0; not give 1 5; not take 1 5; \
        not commit 1; not give 0 12; not give 0 16; not fetch 0; not copy 5; not write 5; not install 5; not drop 5; \
        not unlink 5; not retire 5; not drain 5; not release 5 0; \
        told 0 +OK|+QUEUED|+QUEUED|; silent 1; no entries; do take 0 12; not give 0 12; not give 0 5";
    let second = "do commit 0; told 0 +OK|+QUEUED|+QUEUED|*2|+OK|+OK|; entries 0; not commit 0; \
        do ask 1 GET a; not give 1 12; not give 1 5; not take 1 12; not commit 1; silent 1; entries 0; \
        do give 0 12; not give 0 12; not take 0 12; turn 1 12; told 1 $1|1|; entries 0 1; \
        ask 0 PING; told 0 +OK|+QUEUED|+QUEUED|*2|+OK|+OK|; give 0 5; \
        told 0 +OK|+QUEUED|+QUEUED|*2|+OK|+OK|+PONG|";
    schedule_both(&rt, rt.alloc(), first, second);
}

#[test]
fn events_after_the_end(rt: HostRuntime) {
    let texts = [
        "do ask 0 QUIT; told 0 +OK|; not ask 0 PING; not close 0; not take 0 12; not commit 0; not give 0 12; \
            not fetch 0; told 0 +OK|",
        "do close 0; not ask 0 PING; not close 0; not commit 0; silent 0; no entries",
        "raw 0 *1|$4|PI; silent 0; close 0; raw 0 NG|; silent 0",
        "ask 0 SET a 1; close 0; ask 0 PING; close 0; turn 0 12; told 0 +OK|; ask 0 PING; \
            told 0 +OK|; entries 0; commit 0; entries 0",
        "raw 0 *1|$4|PING|*1|$04|; told 0 +PONG|-ERR Protocol error: bad length|; ask 0 PING; close 0; \
            told 0 +PONG|-ERR Protocol error: bad length|; no entries",
    ];
    schedule_each(&rt, rt.alloc(), &texts);
}

#[test]
fn a_session_ends_with_watches(rt: HostRuntime) {
    let starts = [
        "ask 0 WATCH a; turn 0 12; ask 0 QUIT; told 0 +OK|+OK|; ask 0 PING; told 0 +OK|+OK|",
        "ask 0 WATCH a; turn 0 12; close 0; ask 0 PING; told 0 +OK|",
        "ask 0 WATCH a; turn 0 12; raw 0 *1|$04|; told 0 +OK|-ERR Protocol error: bad length|; \
            ask 0 PING; close 0; told 0 +OK|-ERR Protocol error: bad length|",
        "ask 0 WATCH a; turn 0 12; ask 0 MULTI; ask 0 SET a 1; ask 0 QUIT; \
            told 0 +OK|+OK|+QUEUED|+OK|; commit 0",
    ];
    let ending =
        "entries 0; ask 1 GET a; take 0 5; give 0 12; turn 1 12; told 1 $-1|; entries 0 1; \
        take 0 12; give 0 12; ask 1 GET a; turn 1 12; told 1 $-1|; commit 0; turn 1 12; told 1 $-1|; \
        entries 0 1; give 0 12; turn 1 12; told 1 $-1|$-1|; entries 0 1 1; \
        take 0 12; commit 0; ask 0 SET a 1; turn 0 12; close 0; ask 1 GET a; turn 1 12; \
        told 1 $-1|$-1|$-1|; entries 0 1 1 1";
    for start in starts {
        schedule_both(&rt, rt.alloc(), start, ending);
    }
}

#[test]
fn calls_that_only_forget(rt: HostRuntime) {
    let texts = [
        "ask 0 WATCH a; turn 0 12; ask 0 UNWATCH; told 0 +OK|; commit 0; take 0 12; told 0 +OK|; \
            commit 0; told 0 +OK|+OK|; entries 0; give 0 12; ask 1 SET a 1; turn 1 12; ask 0 MULTI; \
            ask 0 EXEC; commit 0; told 0 +OK|+OK|+OK|*0|; entries 0 1 0",
        "ask 0 UNWATCH; told 0 +OK|; no entries; ask 0 MULTI; ask 0 DISCARD; told 0 +OK|+OK|+OK|; \
            commit 0; no entries",
        "ask 0 WATCH a b; take 0 5; turn 0 12; give 0 5; ask 0 MULTI; ask 0 SET a 1; ask 0 DISCARD; \
            told 0 +OK|+OK|+QUEUED|; take 0 12; take 0 5; commit 0; told 0 +OK|+OK|+QUEUED|; \
            take 0 12; commit 0; told 0 +OK|+OK|+QUEUED|+OK|; entries 0; give 0 12; give 0 5; \
            ask 0 GET a; turn 0 12; told 0 +OK|+OK|+QUEUED|+OK|$-1|; entries 0 0",
    ];
    schedule_each(&rt, rt.alloc(), &texts);
}

#[test]
fn requests_in_pieces(rt: HostRuntime) {
    let texts = [
        "raw 0 *3|$3|SET|$1|a|$1; take 0 12; commit 0; silent 0; raw 0 <; raw 0 >1<; take 0 12; commit 0; \
            silent 0; raw 0 >*2|$3|GE; take 0 12; silent 0; commit 0; told 0 +OK|; raw 0 T|$1|a|*1|$4|PING|; \
            told 0 +OK|; give 0 12; told 0 +OK|; take 0 12; commit 0; told 0 +OK|$1|1|; give 0 12; \
            told 0 +OK|$1|1|+PONG|; entries 0 0",
        "raw 0 *1|$4|PING|*1|$4|PING|*2|$4|INCR|$1|a|*1|$4|PING|*2|$4|INCR|$1|a|*1|$4|PI; \
            told 0 +PONG|+PONG|; turn 0 12; told 0 +PONG|+PONG|:1|+PONG|; turn 0 12; \
            told 0 +PONG|+PONG|:1|+PONG|:2|; raw 0 NG|; told 0 +PONG|+PONG|:1|+PONG|:2|+PONG|; \
            entries 0 0; ask 0 NONE; told 0 +PONG|+PONG|:1|+PONG|:2|+PONG|-ERR unknown command|",
    ];
    schedule_each(&rt, rt.alloc(), &texts);
}

#[test]
fn the_smallest_world_and_the_largest(rt: HostRuntime) {
    let small = "ask 0 MULTI; ask 0 SET a 1; ask 0 GET b; ask 0 EXEC; take 0 1; turn 0 0; \
        told 0 +OK|+QUEUED|+QUEUED|*2|+OK|$-1|; entries 0; ask 0 GET a; turn 0 0; entries 0 0; \
        told 0 +OK|+QUEUED|+QUEUED|*2|+OK|$-1|$1|1|";
    let large = "ask 63 SET a 1; turn 63 12; told 63 +OK|; ask 0 SET b 1; turn 0 37; told 0 +OK|; \
        silent 1; silent 62; ask 64 PING; entries 63 0";
    schedule_of(&rt, rt.alloc(), 1, 1, small);
    schedule_of(&rt, rt.alloc(), 64, 64, large);
}

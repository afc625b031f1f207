//! An engine, by one pass.

ghost use Rattle.std.specs.Prelude.{⊤, IfSome, IsTrue};
ghost use Rattle.words.specs.Bounds.{IsBounded};
ghost use Rattle.words.specs.Commands.{touches_keys};
ghost use Rattle.engine.specs.Passes.{Rests};

use device::MemoryDevice;
use engine::{Engine, Gathered, GotAll, Pass};
use engine_harness::calls::{is_due, sets_to};
use engine_harness::ends::{end_pass, end_passes, end_word};
use engine_harness::engines::{engine_of, with_pass};
use engine_harness::exchanges::{Exchange, Outcome, compare, exchange_of, keyed};
use engine_harness::reading::gets;
use gates::{Latch, Point};
use std::alloc::Global;
use std::process::Abort;
use std::sync::Wait;
use std::sync::atomic::{AtomicU64, Ordering};
use transact::call::Call;
use words::command::Command;
use words::limits::{KEY_BYTES_MAX, Limits};
use words::word::Word;

mod limits;
mod one;
mod releasing;
mod saying;
mod steps;
mod trying;

/// An engine with a pass of it.
struct Client {
    alloc: Global,
    engine: Engine<MemoryDevice>,
    pass: Pass<MemoryDevice>,
    /// How often out of memory was answered.
    refusals: u64,
}

impl Client {
    /// An engine of these limits that holds nothing. `None` where there was no memory.
    fn of_new_engine(alloc: Global, limits: &Limits) -> Option<Client>
        ensures { IfSome result (λ client. Rests ⊤ client.engine client.pass) }
    {
        match with_pass(alloc, limits) {
            Some((engine, pass)) => Some(Client {
                alloc,
                engine,
                pass,
                refusals: 0,
            }),
            None => None,
        }
    }

    /// A client of a new engine, made again where there was no memory for it.
    fn new(rt: &impl Abort, alloc: Global, limits: &Limits) -> Client
        ensures { Rests ⊤ result.engine result.pass }
    {
        match Client::of_new_engine(alloc, limits) {
            Some(client) => client,
            None => Client::of_new_engine(alloc, limits).expect(rt, "memory for an engine"),
        }
    }

    /// Lets it go.
    fn end(self) {
        let Client {
            alloc: _,
            engine,
            pass,
            refusals: _,
        } = self;
        end_pass(pass);
        engine.end();
    }

    /// How a command is answered.
    fn run(&mut self, rt: &impl Wait, command: Command, due: &str) -> Outcome
        requires rests { Rests ⊤ self.old.engine self.old.pass }
        requires place { IsTrue (touches_keys command) × IsBounded command }
        ensures rests { Rests ⊤ self.new.engine self.new.pass }
    {
        let answer = self.engine.submit(rt, &mut self.pass, Call::One(command));
        let outcome = compare(answer, due);
        if outcome == Outcome::OutOfMemory {
            self.refusals = self.refusals.saturating_add(1);
        }
        outcome
    }

    /// How a request is answered. `None` where there was no memory for its own words.
    fn ask_once(&mut self, rt: &impl Wait, exchange: Exchange<'_>) -> Option<Outcome>
        requires rests { Rests ⊤ self.old.engine self.old.pass }
        ensures rests { Rests ⊤ self.new.engine self.new.pass }
    {
        match keyed(self.alloc, exchange.request) {
            Some(command) => Some(self.run(rt, command, exchange.due)),
            None => None,
        }
    }

    /// How a request is answered. Its words are made again where there was no memory for them.
    fn ask(&mut self, rt: &impl Wait, exchange: Exchange<'_>) -> Outcome
        requires rests { Rests ⊤ self.old.engine self.old.pass }
        ensures rests { Rests ⊤ self.new.engine self.new.pass }
    {
        match self.ask_once(rt, exchange) {
            Some(outcome) => outcome,
            None => self.ask_once(rt, exchange).unwrap_or(Outcome::Other),
        }
    }

    /// Whether a request that only reads is answered as is due, the second time where there was no memory
    /// the first time.
    fn reads(&mut self, rt: &impl Wait, exchange: Exchange<'_>) -> bool
        requires rests { Rests ⊤ self.old.engine self.old.pass }
        ensures rests { Rests ⊤ self.new.engine self.new.pass }
    {
        match self.ask(rt, exchange) {
            Outcome::Due => true,
            Outcome::OutOfMemory => self.ask(rt, exchange) == Outcome::Due,
            Outcome::Other => false,
        }
    }

    /// Whether a request is answered as is due. Where there was no memory, the reading is answered as it
    /// was before, and the request as is due when it is made again.
    fn answers(&mut self, rt: &impl Wait, exchange: Exchange<'_>, reading: Exchange<'_>) -> bool
        requires rests { Rests ⊤ self.old.engine self.old.pass }
        ensures rests { Rests ⊤ self.new.engine self.new.pass }
    {
        match self.ask(rt, exchange) {
            Outcome::Due => true,
            Outcome::OutOfMemory => {
                self.reads(rt, reading) && self.ask(rt, exchange) == Outcome::Due
            }
            Outcome::Other => false,
        }
    }
}

/// Makes the request of a text, and reads the keys. The text is a line, ` -> ` and what reading the keys is
/// answered after it, which is given back; `None` where an answer is not as is due.
fn state_after<'a>(
    rt: &impl Wait,
    client: &mut Client,
    text: &'a str,
    reading: Exchange<'_>,
) -> Option<&'a str>
    requires rests { Rests ⊤ client.old.engine client.old.pass }
    ensures rests { Rests ⊤ client.new.engine client.new.pass }
{
    let (line, due) = text.rsplit_once(" -> ")?;
    let after = Exchange {
        request: reading.request,
        due,
    };
    if client.answers(rt, exchange_of(line)?, reading) && client.reads(rt, after) {
        Some(due)
    } else {
        None
    }
}

/// Makes the requests of some lines, one after the other. The lines are set apart by a character.
fn answer_all<'a, R: Abort + Wait>(
    rt: &R,
    client: &mut Client,
    mut reading: Exchange<'a>,
    between: char,
    lines: &'a str,
)
    requires rests { Rests ⊤ client.old.engine client.old.pass }
{
    for line in lines.split(between) {
        reading.due = state_after(rt, client, line, reading).expect(rt, line);
    }
    assert!(rt; client.refusals <= 1);
}

/// The reading of a text's first line, and the lines below it.
fn reading_of(text: &str, between: char) -> Option<(Exchange<'_>, &str)> {
    let (first, lines) = text.split_once(between)?;
    Some((exchange_of(first)?, lines))
}

/// Makes the requests of a text, one after the other, below the line that reads their keys. Meant for runs
/// in which one growth is refused: then out of memory is answered once at most.
fn all_answered<R: Abort + Wait>(rt: &R, alloc: Global, between: char, text: &str) {
    let (reading, lines) = reading_of(text, between).expect(rt, "a reading");
    let mut client = Client::new(rt, alloc, &Limits::default());
    answer_all(rt, &mut client, reading, between, lines);
    client.end();
}

#[test]
fn one_key_with_each_growth_refused(rt: HostRuntime) {
    let text = "GET key-of-more-than-22-bytes -> null\n\
        SET key-of-more-than-22-bytes one-of-more-than-22-bytes XX -> null -> null\n\
        SETNX key-of-more-than-22-bytes one-of-more-than-22-bytes -> :1 -> $one-of-more-than-22-bytes\n\
        SETNX key-of-more-than-22-bytes two-of-more-than-22-bytes -> :0 -> $one-of-more-than-22-bytes\n\
        SET key-of-more-than-22-bytes two-of-more-than-22-bytes NX -> null -> $one-of-more-than-22-bytes\n\
        SET key-of-more-than-22-bytes two-of-more-than-22-bytes XX -> +OK -> $two-of-more-than-22-bytes\n\
        SET key-of-more-than-22-bytes one-of-more-than-22-bytes -> +OK -> $one-of-more-than-22-bytes\n\
        GETSET key-of-more-than-22-bytes two-of-more-than-22-bytes -> $one-of-more-than-22-bytes -> $two-of-more-than-22-bytes\n\
        STRLEN key-of-more-than-22-bytes -> :25 -> $two-of-more-than-22-bytes\n\
        GETDEL key-of-more-than-22-bytes -> $two-of-more-than-22-bytes -> null\n\
        GETDEL key-of-more-than-22-bytes -> null -> null\n\
        SET key-of-more-than-22-bytes one-of-more-than-22-bytes NX -> +OK -> $one-of-more-than-22-bytes\n\
        DEL key-of-more-than-22-bytes key-of-more-than-22-bytes -> :1 -> null\n\
        GETSET key-of-more-than-22-bytes one-of-more-than-22-bytes -> null -> $one-of-more-than-22-bytes";
    all_answered(&rt, rt.alloc(), '\n', text);
}

#[test]
fn old_values_with_each_growth_refused(rt: HostRuntime) {
    let text = "GET key-of-more-than-22-bytes -> null\n\
        SET key-of-more-than-22-bytes one-of-more-than-22-bytes GET XX -> null -> null\n\
        SET key-of-more-than-22-bytes one-of-more-than-22-bytes GET -> null -> $one-of-more-than-22-bytes\n\
        SET key-of-more-than-22-bytes two-of-more-than-22-bytes NX GET -> $one-of-more-than-22-bytes -> $one-of-more-than-22-bytes\n\
        SET key-of-more-than-22-bytes two-of-more-than-22-bytes get -> $one-of-more-than-22-bytes -> $two-of-more-than-22-bytes\n\
        SET key-of-more-than-22-bytes 3 GET XX -> $two-of-more-than-22-bytes -> $3";
    all_answered(&rt, rt.alloc(), '\n', text);
}

#[test]
fn renamed_keys_with_each_growth_refused(rt: HostRuntime) {
    let text =
        "MGET key-of-more-than-22-bytes the-second-of-these-keys the-third-of-these-keys -> null null null\n\
        RENAME key-of-more-than-22-bytes the-second-of-these-keys -> -ERR no such key -> null null null\n\
        MSET key-of-more-than-22-bytes one-of-more-than-22-bytes the-second-of-these-keys 2 \
        -> +OK -> $one-of-more-than-22-bytes $2 null\n\
        RENAME key-of-more-than-22-bytes key-of-more-than-22-bytes -> +OK -> $one-of-more-than-22-bytes $2 null\n\
        RENAME key-of-more-than-22-bytes the-third-of-these-keys -> +OK -> null $2 $one-of-more-than-22-bytes\n\
        RENAME the-third-of-these-keys the-second-of-these-keys -> +OK -> null $one-of-more-than-22-bytes null\n\
        RENAME the-third-of-these-keys the-second-of-these-keys -> -ERR no such key -> null $one-of-more-than-22-bytes null\n\
        RENAME the-second-of-these-keys key-of-more-than-22-bytes -> +OK -> $one-of-more-than-22-bytes null null";
    all_answered(&rt, rt.alloc(), '\n', text);
}

#[test]
fn growing_values_with_each_growth_refused(rt: HostRuntime) {
    let text = "GET key-of-more-than-22-bytes -> null\n\
        SETRANGE key-of-more-than-22-bytes 0  -> :0 -> null\n\
        APPEND key-of-more-than-22-bytes one-of-more-than-22-bytes -> :25 -> $one-of-more-than-22-bytes\n\
        APPEND key-of-more-than-22-bytes ,two -> :29 -> $one-of-more-than-22-bytes,two\n\
        APPEND key-of-more-than-22-bytes  -> :29 -> $one-of-more-than-22-bytes,two\n\
        SETRANGE key-of-more-than-22-bytes 17 33 -> :29 -> $one-of-more-than-33-bytes,two\n\
        SETRANGE key-of-more-than-22-bytes 28 ree -> :31 -> $one-of-more-than-33-bytes,twree\n\
        SETRANGE key-of-more-than-22-bytes 33 z -> :34 -> $one-of-more-than-33-bytes,twree\0\0z\n\
        SETRANGE key-of-more-than-22-bytes 32768 z -> -ERR string is too long -> $one-of-more-than-33-bytes,twree\0\0z\n\
        GETRANGE key-of-more-than-22-bytes 1 -4 -> $ne-of-more-than-33-bytes,twree -> $one-of-more-than-33-bytes,twree\0\0z\n\
        GETRANGE key-of-more-than-22-bytes 5 4 -> $ -> $one-of-more-than-33-bytes,twree\0\0z\n\
        DEL key-of-more-than-22-bytes -> :1 -> null\n\
        SETRANGE key-of-more-than-22-bytes 2 two-of-more-than-22-bytes -> :27 -> $\0\0two-of-more-than-22-bytes";
    all_answered(&rt, rt.alloc(), '\n', text);
}

#[test]
fn counters_with_each_growth_refused(rt: HostRuntime) {
    let text = "GET key-of-more-than-22-bytes -> null\n\
        INCR key-of-more-than-22-bytes -> :1 -> $1\n\
        INCRBY key-of-more-than-22-bytes 9223372036854775806 -> :9223372036854775807 -> $9223372036854775807\n\
        INCR key-of-more-than-22-bytes -> -ERR increment or decrement would overflow -> $9223372036854775807\n\
        DEL key-of-more-than-22-bytes -> :1 -> null\n\
        DECRBY key-of-more-than-22-bytes 41 -> :-41 -> $-41\n\
        DECR key-of-more-than-22-bytes -> :-42 -> $-42\n\
        DECRBY key-of-more-than-22-bytes 9223372036854775766 -> :-9223372036854775808 -> $-9223372036854775808\n\
        DECR key-of-more-than-22-bytes -> -ERR increment or decrement would overflow -> $-9223372036854775808\n\
        INCRBY key-of-more-than-22-bytes -1 -> -ERR increment or decrement would overflow -> $-9223372036854775808\n\
        SET key-of-more-than-22-bytes 01 -> +OK -> $01\n\
        DECR key-of-more-than-22-bytes -> -ERR value is not an integer or out of range -> $01\n\
        SET key-of-more-than-22-bytes one-of-more-than-22-bytes -> +OK -> $one-of-more-than-22-bytes\n\
        INCR key-of-more-than-22-bytes -> -ERR value is not an integer or out of range -> $one-of-more-than-22-bytes";
    all_answered(&rt, rt.alloc(), '\n', text);
}

#[test]
fn several_keys_with_each_growth_refused(rt: HostRuntime) {
    let text =
        "MGET key-of-more-than-22-bytes the-second-of-these-keys the-third-of-these-keys -> null null null\n\
        MSET key-of-more-than-22-bytes one-of-more-than-22-bytes the-second-of-these-keys 2 \
        -> +OK -> $one-of-more-than-22-bytes $2 null\n\
        MSETNX the-third-of-these-keys 3 the-second-of-these-keys 4 -> :0 -> $one-of-more-than-22-bytes $2 null\n\
        EXISTS key-of-more-than-22-bytes the-second-of-these-keys the-third-of-these-keys key-of-more-than-22-bytes \
        -> :3 -> $one-of-more-than-22-bytes $2 null\n\
        DEL the-third-of-these-keys key-of-more-than-22-bytes -> :1 -> null $2 null\n\
        MSETNX the-third-of-these-keys 3 key-of-more-than-22-bytes two-of-more-than-22-bytes \
        -> :1 -> $two-of-more-than-22-bytes $2 $3\n\
        MGET the-third-of-these-keys key-of-more-than-22-bytes the-third-of-these-keys \
        -> $3 $two-of-more-than-22-bytes $3 -> $two-of-more-than-22-bytes $2 $3\n\
        MSET the-third-of-these-keys 3 the-third-of-these-keys one-of-more-than-22-bytes \
        -> +OK -> $two-of-more-than-22-bytes $2 $one-of-more-than-22-bytes\n\
        DEL key-of-more-than-22-bytes the-second-of-these-keys the-third-of-these-keys -> :3 -> null null null";
    all_answered(&rt, rt.alloc(), '\n', text);
}

/// How many passes a new engine has. `None` where there was no memory.
fn passes_of_new(alloc: Global) -> Option<usize> {
    match engine_of(alloc, &Limits::default()) {
        Ok((engine, passes)) => {
            let count = passes.len();
            end_passes(passes);
            engine.end();
            Some(count)
        }
        Err(_) => None,
    }
}

#[test]
fn a_pass_for_each_client_and_three_more(rt: HostRuntime) {
    let count = passes_of_new(rt.alloc()).or_else(|| passes_of_new(rt.alloc()));
    assert!(rt; count == Some(7), "{count:?}");
}

/// Each value is read until the next one is set, and other keys are missing. The last value has line ends.
#[test]
fn a_value_is_kept_until_the_next(rt: HostRuntime) {
    let text = "GET k -> null|\
        SET k 1 -> +OK -> $1|\
        SET k  -> +OK -> $|\
        SET k a-value-that-is-longer-than-a-word-without-memory -> +OK -> $a-value-that-is-longer-than-a-word-without-memory|\
        SET k a\r\n*1\r\n -> +OK -> $a\r\n*1\r\n|\
        GET  -> null -> $a\r\n*1\r\n|\
        GET K -> null -> $a\r\n*1\r\n|\
        GET kk -> null -> $a\r\n*1\r\n|\
        GET a-key-that-is-longer-than-a-word-without-memory -> null -> $a\r\n*1\r\n";
    all_answered(&rt, rt.alloc(), '|', text);
}

/// Adds a key and a value of so many bytes to a text.
fn add(rt: &impl Abort, alloc: Global, text: &mut Vec<u8>, key: u8, length: usize) {
    let value = vec![in alloc; b'x'; length].expect(rt, "memory for a value");
    text.extend_from_slice(&[b' ', key, b' '])
        .expect(rt, "memory for a text");
    text.extend_from_slice(value.as_slice())
        .expect(rt, "memory for a text");
    drop(value);
}

/// Adds a line to a text: MSET of six keys, five values of 32,768 bytes, the longest length, and a last one of so many. It weighs
/// 164,134 and the bytes of the last. Then comes what is due.
fn add_heavy(rt: &impl Abort, alloc: Global, text: &mut Vec<u8>, last: usize, due: &[u8]) {
    text.extend_from_slice(b"\nMSET")
        .expect(rt, "memory for a text");
    for key in b"abcde" {
        add(rt, alloc, text, *key, 32_768);
    }
    add(rt, alloc, text, b'f', last);
    text.extend_from_slice(due).expect(rt, "memory for a text");
}

/// Adds a line to a text: MSET of one key to seven values of 32,768 bytes. It weighs 32,817, since the key counts with the last alone.
/// Then comes what is due.
fn add_again(rt: &impl Abort, alloc: Global, text: &mut Vec<u8>, due: &[u8]) {
    text.extend_from_slice(b"\nMSET")
        .expect(rt, "memory for a text");
    for _ in 0..7 {
        add(rt, alloc, text, b'a', 32_768);
    }
    text.extend_from_slice(due).expect(rt, "memory for a text");
}

/// What weighs one byte more than what may just be written is refused and changes nothing, and that is written then, as is what would
/// weigh more if a key counted twice.
#[test]
fn a_call_that_weighs_too_much_changes_nothing(rt: HostRuntime) {
    let alloc = rt.alloc();
    let mut text = Vec::from_slice(alloc, b"EXISTS a f -> :0").expect(&rt, "memory for a text");
    add_heavy(
        &rt,
        alloc,
        &mut text,
        32_475,
        b" -> -ERR command writes too much -> :0",
    );
    add_again(&rt, alloc, &mut text, b" -> +OK -> :1");
    add_heavy(&rt, alloc, &mut text, 32_474, b" -> +OK -> :2");
    let lines = str::from_utf8(text.as_slice()).expect(&rt, "a text");
    all_answered(&rt, alloc, '\n', lines);
    drop(text);
}

/// Whether the key of this number, which is missing, is given a value of its own.
fn sets_key<R: Abort + Wait>(rt: &R, client: &mut Client, number: u8) -> bool
    requires rests { Rests ⊤ client.old.engine client.old.pass }
    ensures rests { Rests ⊤ client.new.engine client.new.pass }
{
    let [tens, ones] = [b'0' + number / 10, b'0' + number % 10];
    let mut get = *b"GET 00-key-of-more-than-22-bytes";
    let mut set = *b"SET 00-key-of-more-than-22-bytes 00-value-of-more-than-22-bytes";
    get[4] = tens;
    get[5] = ones;
    set[4] = tens;
    set[5] = ones;
    set[33] = tens;
    set[34] = ones;
    let reading = Exchange {
        request: str::from_utf8(&get).expect(rt, "a text"),
        due: "null",
    };
    let line = Exchange {
        request: str::from_utf8(&set).expect(rt, "a text"),
        due: "+OK",
    };
    client.answers(rt, line, reading)
}

/// Whether it has that value.
fn has_key<R: Abort + Wait>(rt: &R, client: &mut Client, number: u8) -> bool
    requires rests { Rests ⊤ client.old.engine client.old.pass }
    ensures rests { Rests ⊤ client.new.engine client.new.pass }
{
    let [tens, ones] = [b'0' + number / 10, b'0' + number % 10];
    let mut get = *b"GET 00-key-of-more-than-22-bytes";
    let mut value = *b"$00-value-of-more-than-22-bytes";
    get[4] = tens;
    get[5] = ones;
    value[1] = tens;
    value[2] = ones;
    let line = Exchange {
        request: str::from_utf8(&get).expect(rt, "a text"),
        due: str::from_utf8(&value).expect(rt, "a text"),
    };
    client.reads(rt, line)
}

/// Whether the key of this number is given a value; or whether it has that, where it was set before.
fn key_is_so<R: Abort + Wait>(rt: &R, client: &mut Client, number: u8, was_set: bool) -> bool
    requires rests { Rests ⊤ client.old.engine client.old.pass }
    ensures rests { Rests ⊤ client.new.engine client.new.pass }
{
    if was_set {
        has_key(rt, client, number)
    } else {
        sets_key(rt, client, number)
    }
}

/// Whether so many keys are given values; or whether each has its own, where they were set before.
fn each_is_so<R: Abort + Wait>(rt: &R, client: &mut Client, count: u8, were_set: bool) -> bool
    requires rests { Rests ⊤ client.old.engine client.old.pass }
    ensures rests { Rests ⊤ client.new.engine client.new.pass }
{
    for number in 0..count {
        if !key_is_so(rt, client, number, were_set) {
            return false;
        }
    }
    true
}

/// Whether a new engine of these limits keeps so many keys, and answers out of memory once at most.
fn keeps<R: Abort + Wait>(rt: &R, alloc: Global, limits: &Limits, count: u8) -> bool {
    let mut client = Client::new(rt, alloc, limits);
    let set = each_is_so(rt, &mut client, count, false);
    let read = each_is_so(rt, &mut client, count, true);
    let keeps = set && read && client.refusals <= 1;
    client.end();
    keeps
}

/// Meant for runs in which one growth is refused: the call that meets it says so and changes nothing,
/// and succeeds when it is made again.
#[test]
fn a_refused_growth_changes_nothing(rt: HostRuntime) {
    assert!(rt; keeps(&rt, rt.alloc(), &Limits::default(), 42));
}

/// Remembers where calls were, by a digit each: 1 before, 2 holding, 3 after.
#[derive(Drop)]
struct Trail {
    digits: AtomicU64,
}

impl Trail {
    /// Nothing was told yet.
    fn new() -> Trail {
        Trail {
            digits: AtomicU64::new(0),
        }
    }

    /// What it was told, the last digit last.
    fn digits(&self) -> u64 {
        self.digits.load(Ordering::SeqCst)
    }
}

impl Latch for Trail {
    fn at(&self, _pass: u64, point: Point) {
        let digit = match point {
            Point::Before => 1,
            Point::Holding => 2,
            Point::After => 3,
        };
        self.digits.store(
            self.digits().wrapping_mul(10).wrapping_add(digit),
            Ordering::SeqCst,
        );
    }
}

/// Whether an MGET of one key within the limits finds that it is 2.
fn gathers_two<R: Wait>(
    rt: &R,
    engine: &Engine<MemoryDevice>,
    pass: &mut Pass<MemoryDevice>,
    keys: &[Word],
    out: &mut Vec<u8>,
    trail: &Trail,
) -> bool
    requires { Rests ⊤ engine.now pass.old }
    ensures { Rests ⊤ engine.now pass.new }
{
    let [key] = keys else {
        return false;
    };
    if key.len() > KEY_BYTES_MAX {
        return false;
    }
    match engine.say_values(rt, pass, keys, out, trail) {
        GotAll::Said(said) => {
            drop(said);
            false
        }
        GotAll::Gathered(Gathered::Found(values)) => {
            let is_two = values.text() == b"$1\r\n2\r\n".as_slice();
            drop(values);
            is_two
        }
        GotAll::Gathered(Gathered::Planned(answer)) => {
            drop(answer);
            false
        }
    }
}

/// Whether a command of one key, an MSET, an MGET, a GET and a SET are answered, each of which tells this latch where it is.
fn tells_of_each<R: Abort + Wait>(
    rt: &R,
    alloc: Global,
    engine: &Engine<MemoryDevice>,
    pass: &mut Pass<MemoryDevice>,
    trail: &Trail,
) -> bool
    requires { Rests ⊤ engine.now pass.old }
    ensures { Rests ⊤ engine.now pass.new }
{
    let key = Word::from_slice(alloc, b"n").expect(rt, "memory for a key");
    let value = Word::from_slice(alloc, b"2").expect(rt, "memory for a value");
    let request = "INCR n";
    let due = ":1";
    let called = is_due(rt, alloc, trail, engine, pass, Exchange { request, due });
    let request = "MSET m 2 n 1";
    let due = "+OK";
    let assigned = is_due(rt, alloc, trail, engine, pass, Exchange { request, due });
    let got = gets(rt, engine, pass, &key, &[b"1"], trail);
    let set = sets_to(rt, engine, pass, &key, &value, trail);
    end_word(value);
    end_word(key);
    let keys = [Word::from_slice(alloc, b"n").expect(rt, "memory for a key")];
    let mut none = Vec::new(alloc);
    let gathered = gathers_two(rt, engine, pass, &keys, &mut none, trail);
    drop(none);
    drop(keys);
    called && assigned && got && set && gathered
}

/// Whether such calls at a new engine are answered, and what a latch is told of them.
fn told_of_each<R: Abort + Wait>(rt: &R, alloc: Global) -> (bool, u64) {
    let (engine, mut pass) = with_pass(alloc, &Limits::default()).expect(
        rt,
        "memory for an engine",
    );
    let trail = Trail::new();
    let told = tells_of_each(rt, alloc, &engine, &mut pass, &trail);
    let digits = trail.digits();
    drop(trail);
    end_pass(pass);
    engine.end();
    (told, digits)
}

#[test]
fn a_latch_is_told_where_each_call_is(rt: HostRuntime) {
    let told = told_of_each(&rt, rt.alloc());
    assert!(rt; told.0);
    assert!(rt; told.1 == 123_123_123_123_123, "{}", told.1);
}

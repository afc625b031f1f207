//! GETs, MGETs and transactions of GETs that are said into the buffer of their caller.

ghost use Rattle.std.specs.Prelude.{⊤, ◌≡◌, ◌∷◌, [], IsTrue};
ghost use Rattle.words.specs.Bounds.{AreBounded, IsBounded};
ghost use Rattle.words.specs.Commands.{MayBeQueued};
ghost use Rattle.words.specs.History.{MayAllBeQueued, keys_of_pairs};
ghost use Rattle.engine.specs.Passes.{knows, Rests};

use device::MemoryDevice;
use engine::{Came, Engine, Gathered, Got, GotAll, Pass};
use engine_harness::calls::{is_due, sets_to};
use engine_harness::ends::{end_answer, end_pass, end_passes, end_reply, end_word};
use engine_harness::engines::{engine_of, with_pass};
use engine_harness::exchanges::{Exchange, keyed};
use gates::Open;
use std::alloc::Global;
use std::process::Abort;
use std::slice;
use std::sync::Wait;
use transact::call::{Answer, Call, Watching};
use words::command::{Command, Keys};
use words::history::Commands;
use words::limits::{KEY_BYTES_MAX, Limits};
use words::reply::{CommandReply, Item, Reply};
use words::word::Word;

/// What a key is set to, and what a GET of it says.
const VALUE: &[u8] = b"12345";

const SAID: &[u8] = b"$5\r\n12345\r\n";

/// What a GET of a key says that is missing.
const MISSING: &[u8] = b"$-1\r\n";

/// What an MGET of three keys says, of which the second is missing, and else as it is found.
const SAID_OF_THREE: &[u8] = b"*3\r\n$5\r\n12345\r\n$-1\r\n$5\r\n12345\r\n";

const TEXT_OF_THREE: &[u8] = b"$5\r\n12345\r\n$-1\r\n$5\r\n12345\r\n";

/// What a buffer holds before.
const HELD: &[u8] = b"+OK\r\n";

/// The room that a buffer has behind it: none, less than each reply, as much, and more.
const ROOMS: &[usize] = &[0, 1, 3, 4, 5, 10, 11, 12, 15, 16, 20, 30, 31, 32, 64];

/// Whether a GET of a key within the limits was said. `None` where it was not answered by what the key has.
fn says<R: Wait>(
    rt: &R,
    engine: &Engine<MemoryDevice>,
    pass: &mut Pass<MemoryDevice>,
    key: &Word,
    out: &mut Vec<u8>,
) -> Option<bool>
    requires { Rests ⊤ engine.now pass.old }
    ensures { Rests ⊤ engine.now pass.new }
{
    if key.len() > KEY_BYTES_MAX {
        return None;
    }
    match engine.say(rt, pass, key, out, &Open) {
        Ok(Got::Said(said)) => {
            drop(said);
            Some(true)
        }
        Ok(Got::Found(value)) => {
            drop(value);
            Some(false)
        }
        Err(_) => None,
    }
}

/// The same of an MGET of three keys. Where it was not said, it has to be told what [`TEXT_OF_THREE`] is.
fn says_three<R: Wait>(
    rt: &R,
    engine: &Engine<MemoryDevice>,
    pass: &mut Pass<MemoryDevice>,
    keys: &[Word],
    out: &mut Vec<u8>,
) -> Option<bool>
    requires { Rests ⊤ engine.now pass.old }
    ensures { Rests ⊤ engine.now pass.new }
{
    let [first, second, third] = keys else {
        return None;
    };
    if first.len() > KEY_BYTES_MAX || second.len() > KEY_BYTES_MAX || third.len() > KEY_BYTES_MAX {
        return None;
    }
    match engine.say_values(rt, pass, keys, out, &Open) {
        GotAll::Said(said) => {
            drop(said);
            Some(true)
        }
        GotAll::Gathered(Gathered::Found(values)) => {
            let are_right = values.text() == TEXT_OF_THREE;
            drop(values);
            if are_right { Some(false) } else { None }
        }
        GotAll::Gathered(Gathered::Planned(answer)) => {
            drop(answer);
            None
        }
    }
}

/// A buffer with so much room behind what it holds.
fn buffer_with<R: Abort>(rt: &R, alloc: Global, room: usize) -> Vec<u8> {
    let mut out = Vec::from_slice(alloc, HELD).expect(rt, "memory for a buffer");
    out.reserve(room).expect(rt, "memory for a buffer");
    out
}

/// Asserts that this was said exactly where a buffer of this capacity had room for it, and that the buffer holds nothing else more.
fn check_held<R: Abort>(rt: &R, out: &Vec<u8>, said: Option<bool>, text: &[u8], capacity: usize) {
    assert!(rt; out.capacity() == capacity);
    assert!(rt; capacity >= HELD.len());
    let fits = text.len() <= capacity - HELD.len();
    assert!(rt; said == Some(fits));
    let held = if fits { text } else { b"" };
    assert!(rt; out.len() == HELD.len() + held.len());
    assert!(rt; &out[..HELD.len()] == HELD);
    assert!(rt; &out[HELD.len()..] == held);
}

/// Asserts that a GET says this exactly where the buffer has room for it, behind what it holds, and else leaves the buffer as it is.
fn check_room<R: Abort + Wait>(
    rt: &R,
    alloc: Global,
    engine: &Engine<MemoryDevice>,
    pass: &mut Pass<MemoryDevice>,
    asked: (&Word, &[u8]),
    room: usize,
)
    requires { Rests ⊤ engine.now pass.old }
    ensures { Rests ⊤ engine.now pass.new }
{
    let (key, text) = asked;
    let mut out = buffer_with(rt, alloc, room);
    let capacity = out.capacity();
    let said = says(rt, engine, pass, key, &mut out);
    check_held(rt, &out, said, text, capacity);
    drop(out);
}

#[test]
fn a_get_is_said_where_the_buffer_has_room(rt: HostRuntime) {
    let alloc = rt.alloc();
    let (engine, mut pass) = with_pass(alloc, &Limits::default()).expect(
        &rt,
        "memory for an engine",
    );
    let key = Word::from_slice(alloc, b"there").expect(&rt, "memory for a key");
    let missing = Word::from_slice(alloc, b"missing").expect(&rt, "memory for a key");
    let value = Word::from_slice(alloc, VALUE).expect(&rt, "memory for a value");
    let is_set = sets_to(&rt, &engine, &mut pass, &key, &value, &Open);
    assert!(&rt; is_set);
    for room in ROOMS {
        check_room(&rt, alloc, &engine, &mut pass, (&key, SAID), *room);
        check_room(&rt, alloc, &engine, &mut pass, (&missing, MISSING), *room);
    }
    end_word(value);
    end_word(missing);
    end_word(key);
    end_pass(pass);
    engine.end();
}

#[test]
fn an_mget_is_said_where_the_buffer_has_room_for_all(rt: HostRuntime) {
    let alloc = rt.alloc();
    let (engine, mut pass) = with_pass(alloc, &Limits::default()).expect(
        &rt,
        "memory for an engine",
    );
    let keys = [
        Word::from_slice(alloc, b"there").expect(&rt, "memory for a key"),
        Word::from_slice(alloc, b"missing").expect(&rt, "memory for a key"),
        Word::from_slice(alloc, b"there").expect(&rt, "memory for a key"),
    ];
    let value = Word::from_slice(alloc, VALUE).expect(&rt, "memory for a value");
    let is_set = sets_to(&rt, &engine, &mut pass, &keys[0], &value, &Open);
    assert!(&rt; is_set);
    for room in ROOMS {
        let mut out = buffer_with(&rt, alloc, *room);
        let capacity = out.capacity();
        let said = says_three(&rt, &engine, &mut pass, &keys, &mut out);
        check_held(&rt, &out, said, SAID_OF_THREE, capacity);
        drop(out);
    }
    end_word(value);
    drop(keys);
    end_pass(pass);
    engine.end();
}

/// What sets the key that is there to the value.
const SETS: Exchange<'static> = Exchange {
    request: "SET there 12345",
    due: "+OK",
};

/// An engine where the key is set, and two passes of it, of which the first watches nothing.
fn with_value<R: Abort + Wait>(
    rt: &R,
    alloc: Global,
) -> (Engine<MemoryDevice>, Pass<MemoryDevice>, Pass<MemoryDevice>)
    ensures first { Rests ⊤ result.0 result.1 }
    ensures second { Rests ⊤ result.0 result.2 }
    ensures nothing { (knows (λ device. 0) result.1).watched ≡ [] }
{
    let limits = Limits::default();
    let (engine, mut passes) = engine_of(alloc, &limits).expect(rt, "memory for an engine");
    let mut second = passes.swap_remove(1);
    let first = passes.swap_remove(0);
    end_passes(passes);
    assert!(rt; is_due(rt, alloc, &Open, &engine, &mut second, SETS));
    (engine, first, second)
}

/// The command of a request, which may stand in a transaction.
fn queued(rt: &impl Abort, alloc: Global, request: &str) -> Command
    ensures { MayBeQueued result × IsBounded result }
{
    keyed(alloc, request).expect(rt, "memory for a command")
}

/// The commands of a transaction: this one between two GETs of the key.
fn commands_around(rt: &impl Abort, alloc: Global, request: &str) -> Commands
    ensures { MayAllBeQueued result × AreBounded result }
{
    let first = queued(rt, alloc, "GET there");
    let second = queued(rt, alloc, request);
    let third = queued(rt, alloc, "GET there");
    let commands = vec![in alloc; first, second, third];
    Commands::from_vec(commands.expect(rt, "memory for commands"))
}

/// What such a transaction came to.
#[derive(Clone, Copy, Debug, PartialEq, Eq)]
enum Outcome {
    /// Its reply was appended.
    Said,
    /// It was answered by the value twice, with this number between, or with null.
    Found(Option<i64>),
    /// It was answered by the null array.
    Null,
    /// It was answered by something else.
    Other,
}

/// What a transaction came to whose commands were answered so.
fn found(replies: &[CommandReply]) -> Outcome {
    let [
        CommandReply::One(Item::Bulk(first)),
        CommandReply::One(second),
        CommandReply::One(Item::Bulk(third)),
    ] = replies
    else {
        return Outcome::Other;
    };
    if first.as_slice() != VALUE || third.as_slice() != VALUE {
        return Outcome::Other;
    }
    match second {
        Item::Null => Outcome::Found(None),
        Item::Integer(number) => Outcome::Found(Some(*number)),
        Item::Line(_) | Item::Bulk(_) => Outcome::Other,
    }
}

/// What a transaction came to that was answered so. The answer is let go then.
fn answered(answer: Answer) -> Outcome {
    let outcome = match &answer {
        Answer::Reply(Reply::Array(replies)) => found(replies.as_slice()),
        Answer::Reply(Reply::NullArray) => Outcome::Null,
        Answer::Reply(Reply::Single(_)) | Answer::Fault(_) => Outcome::Other,
    };
    end_answer(answer);
    outcome
}

/// What a transaction of this request between two GETs comes to, of a session that watches this.
fn comes_to<R: Abort + Wait>(
    rt: &R,
    alloc: Global,
    engine: &Engine<MemoryDevice>,
    pass: &mut Pass<MemoryDevice>,
    request: &str,
    watching: Watching,
    out: &mut Vec<u8>,
) -> Outcome
    requires rests { Rests ⊤ engine.now pass.old }
    requires watching { watching ≡ keys_of_pairs (knows (λ device. 0) pass.old).watched }
    ensures rests { Rests ⊤ engine.now pass.new }
    ensures nothing { (knows (λ device. 0) pass.new).watched ≡ [] }
{
    let commands = commands_around(rt, alloc, request);
    match engine.submit_saying(rt, pass, Call::Exec(commands, watching), out, &Open) {
        Came::Said(said) => {
            drop(said);
            Outcome::Said
        }
        Came::Answered(answer) => answered(answer),
    }
}

/// Asserts that three GETs are said exactly where a buffer with so much room has room for all, and else are answered as any other call.
fn check_three<R: Abort + Wait>(
    rt: &R,
    alloc: Global,
    engine: &Engine<MemoryDevice>,
    pass: &mut Pass<MemoryDevice>,
    room: usize,
)
    requires rests { Rests ⊤ engine.now pass.old }
    requires nothing { (knows (λ device. 0) pass.old).watched ≡ [] }
    ensures rests { Rests ⊤ engine.now pass.new }
    ensures nothing { (knows (λ device. 0) pass.new).watched ≡ [] }
{
    let mut out = buffer_with(rt, alloc, room);
    let capacity = out.capacity();
    let none = Watching::none(alloc);
    let said = match comes_to(rt, alloc, engine, pass, "GET missing", none, &mut out) {
        Outcome::Said => Some(true),
        Outcome::Found(None) => Some(false),
        _ => None,
    };
    check_held(rt, &out, said, SAID_OF_THREE, capacity);
    drop(out);
}

/// What a transaction of three GETs is answered by [`Engine::submit`].
fn submitted<R: Abort + Wait>(
    rt: &R,
    alloc: Global,
    engine: &Engine<MemoryDevice>,
    pass: &mut Pass<MemoryDevice>,
) -> Outcome
    requires rests { Rests ⊤ engine.now pass.old }
    requires nothing { (knows (λ device. 0) pass.old).watched ≡ [] }
    ensures rests { Rests ⊤ engine.now pass.new }
    ensures nothing { (knows (λ device. 0) pass.new).watched ≡ [] }
{
    let commands = commands_around(rt, alloc, "GET missing");
    answered(engine.submit(rt, pass, Call::Exec(commands, Watching::none(alloc))))
}

#[test]
fn a_transaction_of_gets_is_said_where_the_buffer_has_room_for_all(rt: HostRuntime) {
    let alloc = rt.alloc();
    let (engine, mut pass, other) = with_value(&rt, alloc);
    assert!(rt; submitted(&rt, alloc, &engine, &mut pass) == Outcome::Found(None));
    for room in ROOMS {
        check_three(&rt, alloc, &engine, &mut pass, *room);
    }
    end_pass(other);
    end_pass(pass);
    engine.end();
}

/// A list of one key.
fn list_of(rt: &impl Abort, alloc: Global, key: &[u8]) -> Keys
    ensures { result ≡ key.now ∷ [] }
{
    let word = Word::from_slice(alloc, key).expect(rt, "memory for a key");
    let keys = vec![in alloc; word].expect(rt, "memory for a list");
    Keys::from_vec(keys)
}

/// What a session that watches this key alone hands in.
fn watching_of(rt: &impl Abort, alloc: Global, key: &[u8]) -> Watching
    ensures { result ≡ key.now ∷ [] }
{
    let word = Word::from_slice(alloc, key).expect(rt, "memory for a key");
    let mut watching = Watching::none(alloc);
    watching
        .add(slice::from_ref(&word))
        .expect(rt, "memory for a watch");
    end_word(word);
    watching
}

/// Watches this key alone by a call that may say its reply, and tells whether it was answered by a reply.
#[tactic(auto, using(crate::proofs::Watching::watches_one))]
fn watches<R: Abort + Wait>(
    rt: &R,
    alloc: Global,
    engine: &Engine<MemoryDevice>,
    pass: &mut Pass<MemoryDevice>,
    key: &[u8],
    out: &mut Vec<u8>,
) -> bool
    requires rests { Rests ⊤ engine.now pass.old }
    requires nothing { (knows (λ device. 0) pass.old).watched ≡ [] }
    ensures rests { Rests ⊤ engine.now pass.new }
    ensures watches { IsTrue result → keys_of_pairs (knows (λ device. 0) pass.new).watched ≡ key.now ∷ [] }
{
    let keys = list_of(rt, alloc, key);
    match engine.submit_saying(rt, pass, Call::Watch(keys), out, &Open) {
        Came::Answered(Answer::Reply(reply)) => {
            end_reply(reply);
            true
        }
        Came::Answered(Answer::Fault(_)) => false,
        Came::Said(said) => {
            drop(said);
            false
        }
    }
}

/// What three GETs come to, of a session that watches the key of the first, where another pass makes this request after the watch.
fn comes_to_watched<R: Abort + Wait>(
    rt: &R,
    alloc: Global,
    engine: &Engine<MemoryDevice>,
    pass: &mut Pass<MemoryDevice>,
    other: &mut Pass<MemoryDevice>,
    between: Exchange<'_>,
    out: &mut Vec<u8>,
) -> Outcome
    requires rests { Rests ⊤ engine.now pass.old }
    requires other { Rests ⊤ engine.now other.old }
    requires nothing { (knows (λ device. 0) pass.old).watched ≡ [] }
    ensures rests { Rests ⊤ engine.now pass.new }
    ensures other { Rests ⊤ engine.now other.new }
    ensures nothing { (knows (λ device. 0) pass.new).watched ≡ [] }
{
    let key = b"there".as_slice();
    assert!(rt; watches(rt, alloc, engine, pass, key, out));
    assert!(rt; is_due(rt, alloc, &Open, engine, other, between));
    let watching = watching_of(rt, alloc, key);
    comes_to(rt, alloc, engine, pass, "GET missing", watching, out)
}

/// What reads the key that is there.
const READS: Exchange<'static> = Exchange {
    request: "GET there",
    due: "$12345",
};

/// A transaction with another command, a WATCH, and a transaction whose watched key was written are answered, where there is room for
/// more than their replies. One whose watched key was not written is said.
#[test]
fn what_is_not_said_is_answered(rt: HostRuntime) {
    let alloc = rt.alloc();
    let (engine, mut pass, mut other) = with_value(&rt, alloc);
    let mut out = buffer_with(&rt, alloc, 64);
    let capacity = out.capacity();
    let none = Watching::none(alloc);
    let beside = comes_to(
        &rt,
        alloc,
        &engine,
        &mut pass,
        "STRLEN there",
        none,
        &mut out,
    );
    assert!(&rt; beside == Outcome::Found(Some(5)));
    let written = comes_to_watched(&rt, alloc, &engine, &mut pass, &mut other, SETS, &mut out);
    assert!(&rt; written == Outcome::Null);
    assert!(&rt; out.capacity() == capacity && out.as_slice() == HELD);
    let read = comes_to_watched(&rt, alloc, &engine, &mut pass, &mut other, READS, &mut out);
    check_held(
        &rt,
        &out,
        Some(read == Outcome::Said),
        SAID_OF_THREE,
        capacity,
    );
    drop(out);
    end_pass(other);
    end_pass(pass);
    engine.end();
}

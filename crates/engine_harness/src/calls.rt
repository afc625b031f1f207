//! Calls by one pass.

ghost use Rattle.std.specs.Prelude.{◌≡◌, ◌∷◌, [], ⊤, IfSome};
ghost use Rattle.words.specs.Briefs.{commanded};
ghost use Rattle.engine.specs.Passes.{Rests};

use crate::exchanges::{Exchange, Outcome, compare, exchange_of, keyed, words_of};
use device::{Device, MemoryDevice};
use engine::{Engine, Pass};
use gates::{Latch, Open};
use std::alloc::Global;
use std::sync::Wait;
use transact::call::{Answer, Call};
use words::command::{Command, Count, Verb, settings_of};
use words::limits::{KEY_BYTES_MAX, VALUE_BYTES_MAX};
use words::word::Word;

/// What a pass is answered. A command of one key goes by [`Engine::one`] and an MSET by [`Engine::set_all`], as the server's do. `None`
/// where there was no memory for the request's own words.
pub fn answer_of<R: Wait, L: Latch, D: Device>(
    rt: &R,
    alloc: Global,
    latch: &L,
    engine: &Engine<D>,
    pass: &mut Pass<D>,
    request: &str,
) -> Option<Answer>
    requires { Rests D.Receipt.is_steady engine.now pass.old }
    ensures { Rests D.Receipt.is_steady engine.now pass.new }
{
    let command = keyed(alloc, request)?;
    if let Command::MSet(_) = &command {
        drop(command);
        return set_by_request(rt, alloc, latch, engine, pass, request);
    }
    match one_of(&command) {
        Some((verb, key, value)) => {
            let answer = engine.one(rt, pass, key, verb, value, latch);
            drop(command);
            Some(answer)
        }
        None => Some(engine.submit_with(rt, pass, Call::One(command), latch)),
    }
}

/// What a pass is answered to this MSET. `None` where there was no memory for its own words.
fn set_by_request<R: Wait, L: Latch, D: Device>(
    rt: &R,
    alloc: Global,
    latch: &L,
    engine: &Engine<D>,
    pass: &mut Pass<D>,
    request: &str,
) -> Option<Answer>
    requires { Rests D.Receipt.is_steady engine.now pass.old }
    ensures { Rests D.Receipt.is_steady engine.now pass.new }
{
    let words = words_of(alloc, request)?;
    let answer = match words.as_slice().split_first() {
        Some((_name, settings)) => set_by_words(rt, alloc, latch, engine, pass, settings),
        None => None,
    };
    drop(words);
    answer
}

/// What a pass is answered to an MSET of these keys, each of which has its value behind it. `None` where one is not within the limits,
/// or where there was no memory to see that.
fn set_by_words<R: Wait, L: Latch, D: Device>(
    rt: &R,
    alloc: Global,
    latch: &L,
    engine: &Engine<D>,
    pass: &mut Pass<D>,
    settings: &[Word],
) -> Option<Answer>
    requires { Rests D.Receipt.is_steady engine.now pass.old }
    ensures { Rests D.Receipt.is_steady engine.now pass.new }
{
    let Ok(copied) = settings_of(alloc, settings) else {
        return None;
    };
    let command = Command::MSet(copied);
    let bounded = command.is_bounded();
    drop(command);
    if bounded {
        Some(engine.set_all(rt, pass, settings, latch))
    } else {
        None
    }
}

/// What a command of one key does, its key, and its value, or the key once more where it takes none.
fn one_of(command: &Command) -> Option<(Verb, &Word, &Word)>
    ensures { IfSome result (λ one. command.entry.now ≡ commanded one.0 one.1.now one.2.now) }
{
    match command {
        Command::Add(key, number) => Some((Verb::Count(Count::Add(*number)), key, key)),
        Command::Subtract(key, number) => Some((Verb::Count(Count::Subtract(*number)), key, key)),
        Command::SetNx(key, value) => Some((Verb::SetNx, key, value)),
        Command::GetSet(key, value) => Some((Verb::GetSet, key, value)),
        Command::Append(key, value) => Some((Verb::Append, key, value)),
        Command::GetDel(key) => Some((Verb::GetDel, key, key)),
        Command::StrLen(key) => Some((Verb::StrLen, key, key)),
        Command::Exists(keys) => lone(Verb::Exists, keys.as_slice()),
        Command::Del(keys) => lone(Verb::Del, keys.as_slice()),
        _ => None,
    }
}

/// What a command of these keys does, if it is one key, and the key twice.
fn lone(verb: Verb, keys: &[Word]) -> Option<(Verb, &Word, &Word)>
    ensures { IfSome result (λ one. (one.0 ≡ verb) × (keys.entry.now ≡ one.1.now ∷ []) × (one.2.now ≡ one.1.now)) }
{
    match keys {
        [key] => Some((verb, key, key)),
        _ => None,
    }
}

/// Whether a pass is answered as is due.
pub fn is_due<R: Wait, L: Latch>(
    rt: &R,
    alloc: Global,
    latch: &L,
    engine: &Engine<MemoryDevice>,
    pass: &mut Pass<MemoryDevice>,
    exchange: Exchange<'_>,
) -> bool
    requires { Rests ⊤ engine.now pass.old }
    ensures { Rests ⊤ engine.now pass.new }
{
    match answer_of(rt, alloc, latch, engine, pass, exchange.request) {
        Some(answer) => compare(answer, exchange.due) == Outcome::Due,
        None => false,
    }
}

/// Whether the request of a line is answered as is due.
fn line_is_due<R: Wait>(
    rt: &R,
    alloc: Global,
    engine: &Engine<MemoryDevice>,
    pass: &mut Pass<MemoryDevice>,
    line: &str,
) -> bool
    requires { Rests ⊤ engine.now pass.old }
    ensures { Rests ⊤ engine.now pass.new }
{
    match exchange_of(line) {
        Some(exchange) => is_due(rt, alloc, &Open, engine, pass, exchange),
        None => false,
    }
}

/// Whether the requests of some lines are answered as is due, one after the other.
pub fn lines_are_due<R: Wait>(
    rt: &R,
    alloc: Global,
    engine: &Engine<MemoryDevice>,
    pass: &mut Pass<MemoryDevice>,
    lines: &str,
) -> bool
    requires { Rests ⊤ engine.now pass.old }
    ensures { Rests ⊤ engine.now pass.new }
{
    for line in lines.split('\n') {
        if !line_is_due(rt, alloc, engine, pass, line) {
            return false;
        }
    }
    true
}

/// Whether a key within the limits is set to a value within them.
pub fn sets_to<R: Wait, L: Latch, D: Device>(
    rt: &R,
    engine: &Engine<D>,
    pass: &mut Pass<D>,
    key: &Word,
    value: &Word,
    latch: &L,
) -> bool
    requires { Rests D.Receipt.is_steady engine.now pass.old }
    ensures { Rests D.Receipt.is_steady engine.now pass.new }
{
    key.len() <= KEY_BYTES_MAX
        && value.len() <= VALUE_BYTES_MAX
        && engine.set(rt, pass, key, value, latch).is_ok()
}

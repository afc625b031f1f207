//! Passes that add to a number which they watch: each reads it and sets it to 1 more in a transaction, which is null where
//! another wrote the number in between.

ghost use Rattle.std.specs.Prelude.{⊤, ◌≡◌, ◌∷◌, [], IsSome, IsTrue};
ghost use Rattle.words.specs.Bounds.{AreBounded};
ghost use Rattle.words.specs.History.{MayAllBeQueued, keys_of_pairs};
ghost use Rattle.engine.specs.Passes.{knows, Rests};

use crate::counting::{NOTHING, RESTS, counts_at_new};
use crate::jobs::{Job, Trial, Work};
use device::MemoryDevice;
use engine::{Engine, Pass};
use engine_harness::ends::{end_reply, end_word};
use engine_harness::exchanges::keyed;
use std::alloc::Global;
use std::process::Abort;
use std::slice;
use std::sync::Wait;
use transact::call::{Answer, Call, Watching};
use words::command::Keys;
use words::history::Commands;
use words::number;
use words::reply::{CommandReply, Item, Reply};
use words::word::Word;

/// The reply to a request, where it is not answered by a fault. The pass watches what it did then.
#[tactic(auto, using(crate::proofs::Watching::reads_on))]
pub(crate) fn reply_to<R: Wait>(
    rt: &R,
    alloc: Global,
    engine: &Engine<MemoryDevice>,
    pass: &mut Pass<MemoryDevice>,
    request: &str,
) -> Option<Reply>
    requires rests { Rests ⊤ engine.now pass.old }
    ensures rests { Rests ⊤ engine.now pass.new }
    ensures watches { IsSome result → (knows (λ device. 0) pass.new).watched ≡ (knows (λ device. 0) pass.old).watched }
{
    let command = keyed(alloc, request)?;
    match engine.submit(rt, pass, Call::One(command)) {
        Answer::Reply(reply) => Some(reply),
        Answer::Fault(_) => None,
    }
}

/// A list of one key.
fn list_of(rt: &impl Abort, alloc: Global, key: &[u8]) -> Keys
    ensures { result ≡ key.now ∷ [] }
{
    let word = Word::from_slice(alloc, key).expect(rt, "memory for a key");
    let keys = vec![in alloc; word].expect(rt, "memory for a list");
    Keys::from_vec(keys)
}

/// Watches this key alone, and says whether it does.
#[tactic(auto, using(crate::proofs::Watching::watches_one))]
pub(crate) fn watches<R: Abort + Wait>(
    rt: &R,
    alloc: Global,
    engine: &Engine<MemoryDevice>,
    pass: &mut Pass<MemoryDevice>,
    key: &[u8],
) -> bool
    requires rests { Rests ⊤ engine.now pass.old }
    requires nothing { (knows (λ device. 0) pass.old).watched ≡ [] }
    ensures rests { Rests ⊤ engine.now pass.new }
    ensures watches { IsTrue result → keys_of_pairs (knows (λ device. 0) pass.new).watched ≡ key.now ∷ [] }
{
    let keys = list_of(rt, alloc, key);
    match engine.submit(rt, pass, Call::Watch(keys)) {
        Answer::Reply(reply) => {
            end_reply(reply);
            true
        }
        Answer::Fault(_) => false,
    }
}

/// What a session that watches this key alone hands in.
fn watching_of(rt: &impl Abort, alloc: Global, key: &[u8]) -> Watching
    ensures { result ≡ key.now ∷ [] }
{
    let word = Word::from_slice(alloc, key).expect(rt, "memory for a key");
    let mut watching = Watching::none(alloc);
    watching
        .add(slice::from_ref(&word))
        .expect(rt, "memory for a watch");
    end_word(word);
    watching
}

/// How a transaction was answered.
#[derive(Clone, Copy, PartialEq, Eq)]
pub(crate) enum Exec {
    /// Its commands ran.
    Ran,
    /// By the null array: they did not run.
    Null,
}

/// How a transaction was answered by this reply, which is let go. `None` where it is no reply to one.
fn exec_of(reply: Reply) -> Option<Exec> {
    let exec = match &reply {
        Reply::Array(_) => Some(Exec::Ran),
        Reply::NullArray => Some(Exec::Null),
        _ => None,
    };
    end_reply(reply);
    exec
}

/// Makes a transaction of a session that watches this key alone. `None` where it is answered by a fault.
pub(crate) fn runs_watched<R: Abort + Wait>(
    rt: &R,
    alloc: Global,
    engine: &Engine<MemoryDevice>,
    pass: &mut Pass<MemoryDevice>,
    key: &[u8],
    commands: Commands,
) -> Option<Exec>
    requires rests { Rests ⊤ engine.now pass.old }
    requires watches { keys_of_pairs (knows (λ device. 0) pass.old).watched ≡ key.now ∷ [] }
    requires place { MayAllBeQueued commands × AreBounded commands }
    ensures rests { Rests ⊤ engine.now pass.new }
    ensures nothing { IsSome result → (knows (λ device. 0) pass.new).watched ≡ [] }
{
    let watching = watching_of(rt, alloc, key);
    match engine.submit(rt, pass, Call::Exec(commands, watching)) {
        Answer::Reply(reply) => exec_of(reply),
        Answer::Fault(_) => None,
    }
}

/// The number that a reply gives, which is 0 where the key is missing.
fn number_of(reply: &Reply) -> Option<i64> {
    match reply {
        Reply::Single(CommandReply::One(Item::Bulk(word))) => number::parse(word.as_slice()),
        Reply::Single(CommandReply::One(Item::Null)) => Some(0),
        _ => None,
    }
}

/// The number that the key `n` has, which is 0 where it is missing. The pass watches what it did.
fn number_at<R: Wait>(
    rt: &R,
    alloc: Global,
    engine: &Engine<MemoryDevice>,
    pass: &mut Pass<MemoryDevice>,
) -> Option<i64>
    requires rests { Rests ⊤ engine.now pass.old }
    ensures rests { Rests ⊤ engine.now pass.new }
    ensures watches { IsSome result → (knows (λ device. 0) pass.new).watched ≡ (knows (λ device. 0) pass.old).watched }
{
    let reply = reply_to(rt, alloc, engine, pass, "GET n")?;
    let number = number_of(&reply);
    end_reply(reply);
    number
}

/// The commands of a transaction that sets the key `n` to 1 more than a number.
fn setting(rt: &impl Abort, alloc: Global, number: i64) -> Commands
    ensures { MayAllBeQueued result × AreBounded result }
{
    let more = number.saturating_add(1);
    let request = format!(in alloc; "SET n {more}").expect(rt, "memory for a request");
    let command = keyed(alloc, request.as_str()).expect(rt, "memory for a command");
    drop(request);
    let commands = vec![in alloc; command];
    Commands::from_vec(commands.expect(rt, "memory for commands"))
}

/// Adds 1 once: how often it was done. `None` where an answer was not as is due.
pub(crate) fn adds<R: Abort + Wait>(
    rt: &R,
    alloc: Global,
    engine: &Engine<MemoryDevice>,
    pass: &mut Pass<MemoryDevice>,
) -> Option<u64>
    requires rests { Rests ⊤ engine.now pass.old }
    requires nothing { (knows (λ device. 0) pass.old).watched ≡ [] }
    ensures rests { Rests ⊤ engine.now pass.new }
    ensures nothing { IsSome result → (knows (λ device. 0) pass.new).watched ≡ [] }
{
    let key = b"n".as_slice();
    if !watches(rt, alloc, engine, pass, key) {
        return None;
    }
    let number = number_at(rt, alloc, engine, pass)?;
    let commands = setting(rt, alloc, number);
    match runs_watched(rt, alloc, engine, pass, key, commands) {
        Some(Exec::Ran) => Some(1),
        Some(Exec::Null) => Some(0),
        None => None,
    }
}

/// How often each of two passes tries to add 1.
const TRIES: u64 = 500;

/// Two passes add to a number that they watch.
pub(crate) const ADDS_WATCHED: &Trial = &Trial {
    before: NOTHING,
    one: Work {
        jobs: &[Job::Adds],
        times: TRIES,
    },
    two: RESTS,
    three: Work {
        jobs: &[Job::Adds],
        times: TRIES,
    },
    reading: "GET n",
    due: None,
};

/// Whether two passes have set the number as often as one tries, at least.
pub(crate) fn is_enough(counts: Option<(u64, u64, u64)>) -> bool {
    counts.is_some_and(|(one, _, three)| one.saturating_add(three) >= TRIES)
}

/// Of two transactions that both watch a number and set it, at least one is done.
#[test]
fn watched_additions_that_are_not_null_all_count(rt: HostRuntime) {
    assert!(rt; is_enough(counts_at_new(&rt, rt.alloc(), ADDS_WATCHED)));
}

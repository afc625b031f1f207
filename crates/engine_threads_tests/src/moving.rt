//! Transactions that move a number from one key to another, and a pass that reads both.

ghost use Rattle.std.specs.Prelude.{⊤, ◌≡◌, [], IsSome};
ghost use Rattle.words.specs.Bounds.{AreBounded};
ghost use Rattle.words.specs.History.{MayAllBeQueued};
ghost use Rattle.engine.specs.Passes.{knows, Rests};

use crate::counting::counts_at_new;
use crate::jobs::{Job, Trial, Work};
use crate::watched::reply_to;
use device::MemoryDevice;
use engine::{Engine, Pass};
use engine_harness::ends::{end_answer, end_reply};
use engine_harness::exchanges::Exchange;
use std::alloc::Global;
use std::process::Abort;
use std::sync::Wait;
use transact::call::{Answer, Call, Watching};
use words::command::Command;
use words::history::Commands;
use words::number;
use words::reply::{CommandReply, Item, Reply};
use words::word::Word;

/// How often each of two passes moves, and a third one reads.
const MOVES: u64 = 500;

/// What the two keys have together.
const WHOLE: i64 = 1_000;

/// The commands that move 1 from the key `a` to the key `b`.
fn moving(rt: &impl Abort, alloc: Global) -> Commands
    ensures { MayAllBeQueued result × AreBounded result }
{
    let from = Word::from_slice(alloc, b"a").expect(rt, "memory for a key");
    let to = Word::from_slice(alloc, b"b").expect(rt, "memory for a key");
    let commands = vec![in alloc; Command::Subtract(from, 1), Command::Add(to, 1)];
    Commands::from_vec(commands.expect(rt, "memory for commands"))
}

/// Moves 1 once. `None` where it was not done.
pub(crate) fn moves<R: Abort + Wait>(
    rt: &R,
    alloc: Global,
    engine: &Engine<MemoryDevice>,
    pass: &mut Pass<MemoryDevice>,
) -> Option<u64>
    requires rests { Rests ⊤ engine.now pass.old }
    requires nothing { (knows (λ device. 0) pass.old).watched ≡ [] }
    ensures rests { Rests ⊤ engine.now pass.new }
    ensures nothing { (knows (λ device. 0) pass.new).watched ≡ [] }
{
    let commands = moving(rt, alloc);
    let watching = Watching::none(alloc);
    let answer = engine.submit(rt, pass, Call::Exec(commands, watching));
    let moved = matches!(&answer, Answer::Reply(Reply::Array(_)));
    end_answer(answer);
    if moved { Some(1) } else { None }
}

/// The sum of items that are numbers.
fn sum_of(items: &[Item]) -> Option<i64> {
    let mut sum = 0i64;
    for item in items {
        let Item::Bulk(word) = item else {
            return None;
        };
        let number = number::parse(word.as_slice())?;
        sum = sum.checked_add(number)?;
    }
    Some(sum)
}

/// Whether a reply has numbers that are the whole together.
fn is_whole(reply: &Reply) -> bool {
    match reply {
        Reply::Single(CommandReply::Array(items)) => sum_of(items.as_slice()) == Some(WHOLE),
        _ => false,
    }
}

/// Reads both keys. `None` where they have not the whole together.
pub(crate) fn sums<R: Wait>(
    rt: &R,
    alloc: Global,
    engine: &Engine<MemoryDevice>,
    pass: &mut Pass<MemoryDevice>,
) -> Option<u64>
    requires rests { Rests ⊤ engine.now pass.old }
    ensures rests { Rests ⊤ engine.now pass.new }
    ensures watches { IsSome result → (knows (λ device. 0) pass.new).watched ≡ (knows (λ device. 0) pass.old).watched }
{
    let reply = reply_to(rt, alloc, engine, pass, "MGET a b")?;
    let is_whole = is_whole(&reply);
    end_reply(reply);
    if is_whole { Some(1) } else { None }
}

/// Two passes move 1 over and over, and a third one finds the whole each time.
pub(crate) const KEEPS_WHOLE: &Trial = &Trial {
    before: Exchange {
        request: "MSET a 1000 b 0",
        due: "+OK",
    },
    one: Work {
        jobs: &[Job::Moves],
        times: MOVES,
    },
    two: Work {
        jobs: &[Job::Moves],
        times: MOVES,
    },
    three: Work {
        jobs: &[Job::Sums],
        times: MOVES,
    },
    reading: "MGET a b",
    due: Some("$0 $1000"),
};

/// How often each is done then.
pub(crate) const ALL_MOVED: (u64, u64, u64) = (MOVES, MOVES, MOVES);

#[test]
fn two_passes_move_and_a_third_finds_the_whole(rt: HostRuntime) {
    assert!(rt; counts_at_new(&rt, rt.alloc(), KEEPS_WHOLE) == Some(ALL_MOVED));
}

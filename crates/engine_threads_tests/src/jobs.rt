//! What passes do over and over, each in a thread of its own.

ghost use Rattle.std.specs.Prelude.{⊤, ◌≡◌, [], IsSome};
ghost use Rattle.engine.specs.Passes.{knows, Rests};

use crate::moving::{moves, sums};
use crate::passes::{One, Three, Two};
use crate::watched::{adds, reply_to};
use device::MemoryDevice;
use engine::{Engine, Pass};
use engine_harness::ends::end_reply;
use engine_harness::exchanges::{Exchange, Outcome, compare};
use std::alloc::Global;
use std::process::Abort;
use std::sync::Wait;
use std::thread::{Threads, join};
use transact::call::Answer;

/// What a pass does.
#[derive(Clone, Copy)]
pub(crate) enum Job {
    /// Makes a request, which is to be answered by a reply.
    Asks(&'static str),
    /// Moves 1 from one key to another in a transaction.
    Moves,
    /// Reads both keys, which are to have the whole together.
    Sums,
    /// Adds 1 to a number that it watches, where no other wrote it in between.
    Adds,
}

/// What a pass does over and over, so many times.
#[derive(Clone, Copy)]
pub(crate) struct Work {
    pub(crate) jobs: &'static [Job],
    pub(crate) times: u64,
}

/// What three passes do at one time.
pub(crate) struct Trial {
    /// What is asked before.
    pub(crate) before: Exchange<'static>,
    pub(crate) one: Work,
    pub(crate) two: Work,
    pub(crate) three: Work,
    /// What the first and the third pass ask in the end, and what it is answered. Where that is not said, it is `$` and how often all
    /// jobs were done.
    pub(crate) reading: &'static str,
    pub(crate) due: Option<&'static str>,
}

/// Makes a request. `None` where it is not answered by a reply.
fn asks<R: Wait>(
    rt: &R,
    alloc: Global,
    engine: &Engine<MemoryDevice>,
    pass: &mut Pass<MemoryDevice>,
    request: &str,
) -> Option<u64>
    requires rests { Rests ⊤ engine.now pass.old }
    ensures rests { Rests ⊤ engine.now pass.new }
    ensures watches { IsSome result → (knows (λ device. 0) pass.new).watched ≡ (knows (λ device. 0) pass.old).watched }
{
    let reply = reply_to(rt, alloc, engine, pass, request)?;
    end_reply(reply);
    Some(1)
}

impl Job {
    /// Does it once: how often it was done. `None` where it was not answered as is due.
    fn once<R: Abort + Wait>(
        self,
        rt: &R,
        alloc: Global,
        engine: &Engine<MemoryDevice>,
        pass: &mut Pass<MemoryDevice>,
    ) -> Option<u64>
        requires rests { Rests ⊤ engine.now pass.old }
        requires nothing { (knows (λ device. 0) pass.old).watched ≡ [] }
        ensures rests { Rests ⊤ engine.now pass.new }
        ensures nothing { IsSome result → (knows (λ device. 0) pass.new).watched ≡ [] }
    {
        match self {
            Job::Asks(request) => asks(rt, alloc, engine, pass, request),
            Job::Moves => moves(rt, alloc, engine, pass),
            Job::Sums => sums(rt, alloc, engine, pass),
            Job::Adds => adds(rt, alloc, engine, pass),
        }
    }
}

/// Does these jobs once each: how often they were done. `None` where one was not answered as is due.
fn does_each<R: Abort + Wait>(
    rt: &R,
    alloc: Global,
    engine: &Engine<MemoryDevice>,
    pass: &mut Pass<MemoryDevice>,
    jobs: &[Job],
) -> Option<u64>
    requires rests { Rests ⊤ engine.now pass.old }
    requires nothing { (knows (λ device. 0) pass.old).watched ≡ [] }
    ensures rests { Rests ⊤ engine.now pass.new }
    ensures nothing { IsSome result → (knows (λ device. 0) pass.new).watched ≡ [] }
{
    let mut done = 0u64;
    for job in jobs {
        let count = job.once(rt, alloc, engine, pass)?;
        done = done.saturating_add(count);
    }
    Some(done)
}

/// A pass, and how often its jobs were done; `None` where an answer was not as is due.
pub(crate) type Told = (Pass<MemoryDevice>, Option<u64>);

/// Does the work of a pass.
fn works<R: Abort + Wait>(
    rt: &R,
    alloc: Global,
    engine: &Engine<MemoryDevice>,
    one: One,
    work: Work,
) -> Told
    requires rests { Rests ⊤ engine.now one.pass }
    requires nothing { (knows (λ device. 0) one.pass).watched ≡ [] }
    ensures rests { Rests ⊤ engine.now result.0 }
{
    let mut pass = one.into_pass();
    let mut done = 0u64;
    for _n in 0..work.times {
        match does_each(rt, alloc, engine, &mut pass, work.jobs) {
            Some(count) => done = done.saturating_add(count),
            None => return (pass, None),
        }
    }
    (pass, Some(done))
}

/// Two passes do their work, each in a thread.
fn two_work<R: Abort + Threads + Wait + Sync>(
    rt: &R,
    alloc: Global,
    engine: &Engine<MemoryDevice>,
    passes: Two,
    works_of: (Work, Work),
) -> (Told, Told)
    requires one { Rests ⊤ engine.now passes.0.pass }
    requires one_nothing { (knows (λ device. 0) passes.0.pass).watched ≡ [] }
    requires two { Rests ⊤ engine.now passes.1.pass }
    requires two_nothing { (knows (λ device. 0) passes.1.pass).watched ≡ [] }
    ensures one { Rests ⊤ engine.now result.0.0 }
    ensures two { Rests ⊤ engine.now result.1.0 }
{
    let (one, two) = passes;
    let (first, second) = works_of;
    join(
        rt,
        move || -> Told
            requires rests { Rests ⊤ engine.now one.pass }
            requires nothing { (knows (λ device. 0) one.pass).watched ≡ [] }
            ensures { Rests ⊤ engine.entry.now result.0 }
        { works(rt, alloc, engine, one, first) },
        move || -> Told
            requires rests { Rests ⊤ engine.now two.pass }
            requires nothing { (knows (λ device. 0) two.pass).watched ≡ [] }
            ensures { Rests ⊤ engine.entry.now result.0 }
        { works(rt, alloc, engine, two, second) },
    )
}

/// Makes the request that comes before.
fn begins<R: Abort + Wait>(
    rt: &R,
    alloc: Global,
    engine: &Engine<MemoryDevice>,
    pass: &mut Pass<MemoryDevice>,
    exchange: Exchange<'_>,
)
    requires rests { Rests ⊤ engine.now pass.old }
    ensures rests { Rests ⊤ engine.now pass.new }
    ensures watches { (knows (λ device. 0) pass.new).watched ≡ (knows (λ device. 0) pass.old).watched }
{
    let reply = reply_to(rt, alloc, engine, pass, exchange.request).expect(rt, "a reply");
    let outcome = compare(Answer::Reply(reply), exchange.due);
    assert!(rt; outcome == Outcome::Due, "{}", exchange.request);
}

/// Three passes do their work, each in a thread.
pub(crate) fn three_work<R: Abort + Threads + Wait + Sync>(
    rt: &R,
    alloc: Global,
    engine: &Engine<MemoryDevice>,
    passes: Three,
    trial: &Trial,
) -> (Told, (Told, Told))
    requires one { Rests ⊤ engine.now passes.0.pass }
    requires one_nothing { (knows (λ device. 0) passes.0.pass).watched ≡ [] }
    requires two { Rests ⊤ engine.now passes.1.pass }
    requires two_nothing { (knows (λ device. 0) passes.1.pass).watched ≡ [] }
    requires three { Rests ⊤ engine.now passes.2.pass }
    requires three_nothing { (knows (λ device. 0) passes.2.pass).watched ≡ [] }
    ensures one { Rests ⊤ engine.now result.0.0 }
    ensures two { Rests ⊤ engine.now result.1.0.0 }
    ensures three { Rests ⊤ engine.now result.1.1.0 }
{
    let (one, two, mut three) = passes;
    begins(rt, alloc, engine, &mut three.pass, trial.before);
    let (first, second, third) = (trial.one, trial.two, trial.three);
    join(
        rt,
        move || -> Told
            requires rests { Rests ⊤ engine.now one.pass }
            requires nothing { (knows (λ device. 0) one.pass).watched ≡ [] }
            ensures { Rests ⊤ engine.entry.now result.0 }
        { works(rt, alloc, engine, one, first) },
        move || -> (Told, Told)
            requires two { Rests ⊤ engine.now two.pass }
            requires two_nothing { (knows (λ device. 0) two.pass).watched ≡ [] }
            requires three { Rests ⊤ engine.now three.pass }
            requires three_nothing { (knows (λ device. 0) three.pass).watched ≡ [] }
            ensures two { Rests ⊤ engine.entry.now result.0.0 }
            ensures three { Rests ⊤ engine.entry.now result.1.0 }
        { two_work(rt, alloc, engine, (two, three), (second, third)) },
    )
}

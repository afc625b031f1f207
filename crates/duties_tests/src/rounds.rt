//! Rounds over the stripes of an engine: each has 12 frames, of which 4 are mutable, and 63 records of these tests to a page. So
//! some 600 keys a stripe leave pages that wait to be written, and no call has to write one.

ghost use Rattle.std.specs.Prelude.{◌≡◌, vec_len};
ghost use Rattle.engine.specs.Passes.{Rests, stripe_count};

use device::{Device, Faulty, MemoryDevice};
use duties::{Site, work_in_background};
use engine::{BACKGROUND_PASSES, Engine, Pass};
use gates::Open;
use sockets::{Counted, Serving};
use std::alloc::Global;
use std::cell::Cell;
use std::io;
use std::process::Abort;
use std::rt::Clock;
use std::sync::Wait;
use std::sync::atomic::{AtomicU64, Ordering};
use std::time::Duration;
use upkeep::{Call, Calls, Chores, Duty, Surroundings, keep_up, round};
use words::limits::{FRAMES_MIN, KEY_BYTES_MAX, Limits, VALUE_BYTES_MAX};
use words::word::Word;

/// How many openings a device has: one for a client, and those of the background.
const OPENINGS: usize = 1 + BACKGROUND_PASSES;

/// The value of these tests.
const VALUE: [u8; 1000] = [b'v'; 1000];

/// An engine of so many stripes with 64 places each over these openings, a client's pass and one of the background.
fn engine_over<D: Device>(
    rt: &impl Abort,
    alloc: Global,
    stripes: usize,
    openings: Vec<D>,
) -> (Engine<D>, Pass<D>, Pass<D>)
    requires openings { vec_len openings ≡ 4 }
    ensures stripes { stripe_count result.0 ≡ stripes }
    ensures rests { Rests D.Receipt.is_steady result.0 result.1 × Rests D.Receipt.is_steady result.0 result.2 }
{
    let limits = Limits::new(stripes, 64, FRAMES_MIN, 64, 1).expect(rt, "the limits");
    let made = Engine::new(alloc, &limits, openings);
    let (engine, mut passes) = made.expect(rt, "memory for an engine");
    let pass = passes.swap_remove(0);
    let background = passes.swap_remove(0);
    drop(passes);
    (engine, pass, background)
}

/// Such an engine over a device in memory.
fn engine_in_memory(
    rt: &impl Abort,
    alloc: Global,
    stripes: usize,
) -> (Engine<MemoryDevice>, Pass<MemoryDevice>, Pass<MemoryDevice>)
    ensures stripes { stripe_count result.0 ≡ stripes }
    ensures rests { Rests (Unit {0}) result.0 result.1 × Rests (Unit {0}) result.0 result.2 }
{
    let openings = MemoryDevice::openings(alloc, OPENINGS).expect(rt, "memory for a device");
    engine_over(rt, alloc, stripes, openings)
}

/// The key of this number, below 10,000.
fn key_of(rt: &impl Abort, alloc: Global, number: usize) -> Word {
    let text = [
        b'k',
        b'0' + (number / 1000 % 10) as u8,
        b'0' + (number / 100 % 10) as u8,
        b'0' + (number / 10 % 10) as u8,
        b'0' + (number % 10) as u8,
    ];
    Word::from_slice(alloc, &text).expect(rt, "memory for a key")
}

/// Whether a key within the limits is set to a value within them.
fn sets<R: Wait, D: Device>(
    rt: &R,
    engine: &Engine<D>,
    pass: &mut Pass<D>,
    key: &Word,
    value: &Word,
) -> bool
    requires { Rests D.Receipt.is_steady engine.now pass.old }
    ensures { Rests D.Receipt.is_steady engine.now pass.new }
{
    key.len() <= KEY_BYTES_MAX
        && value.len() <= VALUE_BYTES_MAX
        && engine.set(rt, pass, key, value, &Open).is_ok()
}

/// Whether the key of a number can be set.
fn sets_key<R: Abort + Wait, D: Device>(
    rt: &R,
    alloc: Global,
    engine: &Engine<D>,
    pass: &mut Pass<D>,
    number: usize,
    value: &Word,
) -> bool
    requires rests { Rests D.Receipt.is_steady engine.now pass.old }
    ensures rests { Rests D.Receipt.is_steady engine.now pass.new }
{
    let key = key_of(rt, alloc, number);
    let is_set = sets(rt, engine, pass, &key, value);
    drop(key);
    is_set
}

/// Whether so many keys can be set to a value.
fn fills_with<R: Abort + Wait, D: Device>(
    rt: &R,
    alloc: Global,
    engine: &Engine<D>,
    pass: &mut Pass<D>,
    count: usize,
    value: &Word,
) -> bool
    requires rests { Rests D.Receipt.is_steady engine.now pass.old }
    ensures rests { Rests D.Receipt.is_steady engine.now pass.new }
{
    for number in 0..count {
        if !sets_key(rt, alloc, engine, pass, number, value) {
            return false;
        }
    }
    true
}

/// Whether so many keys can be set.
fn fills<R: Abort + Wait, D: Device>(
    rt: &R,
    alloc: Global,
    engine: &Engine<D>,
    pass: &mut Pass<D>,
    count: usize,
) -> bool
    requires rests { Rests D.Receipt.is_steady engine.now pass.old }
    ensures rests { Rests D.Receipt.is_steady engine.now pass.new }
{
    let value = Word::from_slice(alloc, &VALUE).expect(rt, "memory for a value");
    let all = fills_with(rt, alloc, engine, pass, count, &value);
    drop(value);
    all
}

/// Whether at least one place is used at each stripe.
fn are_all_used<R: Wait, D: Device>(rt: &R, engine: &Engine<D>, pass: &mut Pass<D>) -> bool
    requires rests { Rests D.Receipt.is_steady engine.now pass.old }
    ensures rests { Rests D.Receipt.is_steady engine.now pass.new }
{
    for stripe in 0..engine.stripes() {
        if engine.used_places(rt, pass, stripe) == 0 {
            return false;
        }
    }
    true
}

/// Rounds of a flusher: so many have done nothing, and the next one has done something. Whether the one after it has, too.
fn works_twice_after<'a, R: Abort + Wait, D: Device>(
    rt: &'a R,
    alloc: Global,
    engine: &'a Engine<D>,
    background: Pass<D>,
    in_vain: u32,
) -> bool
    requires rests { Rests D.Receipt.is_steady engine.now background }
{
    let chores = Chores::new(alloc, Duty::Flush, engine.stripes(), 64);
    let mut chores = chores.expect(rt, "memory for the chores");
    let mut site = Site::new(rt, engine, background);
    for _ in 0..in_vain {
        assert!(rt; !round(&mut site, &mut chores));
    }
    assert!(rt; round(&mut site, &mut chores));
    let works = round(&mut site, &mut chores);
    drop(site);
    drop(chores);
    works
}

/// One round of a flusher writes pages at each of three stripes, and the next has nothing to do.
#[test]
fn a_round_works_at_each_stripe(rt: HostRuntime) {
    let alloc = rt.alloc();
    let (engine, mut pass, background) = engine_in_memory(&rt, alloc, 3);
    assert!(rt; fills(&rt, alloc, &engine, &mut pass, 1_800));
    assert!(rt; !works_twice_after(&rt, alloc, &engine, background, 0));
    assert!(rt; are_all_used(&rt, &engine, &mut pass));
    drop(pass);
    drop(engine);
}

/// What a thread hears and says beside the stripes, by the test: serving is over at the sixth time that it is asked, and a
/// connection is served at the first two rests.
#[derive(Drop)]
struct Hours {
    asked: u8,
    rests: u8,
    calls: Calls,
    /// How many milliseconds went by.
    time: u64,
}

impl Hours {
    /// Nothing was asked yet.
    fn new() -> Hours {
        Hours {
            asked: 0,
            rests: 0,
            calls: Calls::new(),
            time: 0,
        }
    }
}

impl Surroundings for Hours {
    ghost calls = { λ h. h.calls };

    fn is_over(&mut self) -> bool {
        self.asked = self.asked.saturating_add(1);
        let over = self.asked > 5;
        self.calls.note(Call::IsOver(over));
        over
    }

    fn is_idle(&mut self) -> bool {
        let idle = self.rests >= 2;
        self.calls.note(Call::IsIdle(idle));
        idle
    }

    fn rest(&mut self, milliseconds: u64) {
        self.rests = self.rests.saturating_add(1);
        self.time = self.time.saturating_add(milliseconds);
        self.calls.note(Call::Rest(milliseconds));
    }

    fn tell_behind(&mut self, is_behind: bool) {
        self.calls.note(Call::TellBehind(is_behind));
    }
}

/// The hours of the thread of a flusher.
fn hours_of<'a, R: Abort + Wait, D: Device>(
    rt: &'a R,
    alloc: Global,
    engine: &'a Engine<D>,
    background: Pass<D>,
) -> Hours
    requires rests { Rests D.Receipt.is_steady engine.now background }
{
    let chores = Chores::new(alloc, Duty::Flush, engine.stripes(), 64);
    let mut chores = chores.expect(rt, "memory for the chores");
    let mut site = Site::new(rt, engine, background);
    let mut hours = Hours::new();
    keep_up(rt, &mut site, &mut hours, &mut chores);
    drop(site);
    drop(chores);
    hours
}

/// A flusher with work for one round goes on through a lull, in which nobody is served, until serving is over: after the round
/// with work it does not rest, and then twice for 10 milliseconds and three times for 50.
#[test]
fn a_thread_goes_on_through_a_lull(rt: HostRuntime) {
    let alloc = rt.alloc();
    let (engine, mut pass, background) = engine_in_memory(&rt, alloc, 1);
    assert!(rt; fills(&rt, alloc, &engine, &mut pass, 600));
    let hours = hours_of(&rt, alloc, &engine, background);
    assert!(rt; hours.asked == 6);
    assert!(rt; hours.time == 2 * 10 + 3 * 50);
    drop(hours);
    assert!(rt; engine.used_places(&rt, &mut pass, 0) > 0);
    drop(pass);
    drop(engine);
}

/// A device over this one. Its first three calls fail.
fn failing(rt: &impl Abort, alloc: Global, device: MemoryDevice) -> Faulty<MemoryDevice> {
    let calls = [0, 1, 2].to_vec(alloc).expect(rt, "memory for numbers");
    Faulty::new(device, calls)
}

/// The openings of a device in memory. The first three calls of each fail.
fn failing_openings(rt: &impl Abort, alloc: Global) -> Vec<Faulty<MemoryDevice>>
    ensures { vec_len result ≡ 4 }
{
    let mut below = MemoryDevice::openings(alloc, OPENINGS).expect(rt, "memory for a device");
    let mut openings = Vec::new(alloc);
    while let Some(device) = below.pop() {
        let device = failing(rt, alloc, device);
        openings.push(device).expect(rt, "memory for a device");
    }
    drop(below);
    openings
}

/// A flusher whose first three writes fail has done nothing in three rounds, and writes the pages in the fourth.
#[test]
fn a_flusher_goes_on_after_faults(rt: HostRuntime) {
    let alloc = rt.alloc();
    let openings = failing_openings(&rt, alloc);
    let (engine, mut pass, background) = engine_over(&rt, alloc, 1, openings);
    assert!(rt; fills(&rt, alloc, &engine, &mut pass, 600));
    works_twice_after(&rt, alloc, &engine, background, 3);
    assert!(rt; engine.used_places(&rt, &mut pass, 0) > 0);
    drop(pass);
    drop(engine);
}

/// Whether an engine of one stripe comes to be full, by writes of the same keys. They are five pages, so that a key's last
/// record is no longer mutable when it is written again.
fn comes_to_be_full<R: Abort + Wait, D: Device>(
    rt: &R,
    alloc: Global,
    engine: &Engine<D>,
    pass: &mut Pass<D>,
) -> bool
    requires rests { Rests D.Receipt.is_steady engine.now pass.old }
    ensures rests { Rests D.Receipt.is_steady engine.now pass.new }
{
    for _ in 0..20 {
        if !fills(rt, alloc, engine, pass, 315) {
            return true;
        }
    }
    false
}

/// The thread of a cleaner by this clock, which ends once serving is over: after its first round where it is.
fn cleans<R: Clock + Wait, D: Device>(
    rt: &impl Abort,
    clock: &R,
    alloc: Global,
    engine: &Engine<D>,
    pass: Pass<D>,
    serving: &Serving,
)
    requires rests { Rests D.Receipt.is_steady engine.now pass }
    requires stripes { stripe_count engine.now ≡ 1 }
{
    let chores = Chores::new(alloc, Duty::Clean, 1, 64).expect(rt, "memory for the chores");
    work_in_background(clock, engine, pass, chores, serving);
}

/// A cleaner at a full store of old records tells all who serve that it is behind after a round.
#[test]
fn a_cleaner_tells_that_it_is_behind(rt: HostRuntime) {
    let alloc = rt.alloc();
    let (engine, mut pass, background) = engine_in_memory(&rt, alloc, 1);
    let serving = Serving::new(&rt);
    serving.close();
    assert!(rt; comes_to_be_full(&rt, alloc, &engine, &mut pass));
    cleans(&rt, &rt, alloc, &engine, background, &serving);
    assert!(rt; serving.is_behind());
    drop(serving);
    drop(pass);
    drop(engine);
}

/// A cleaner with nothing to do takes it back after a round.
#[test]
fn a_cleaner_takes_it_back(rt: HostRuntime) {
    let alloc = rt.alloc();
    let (engine, pass, background) = engine_in_memory(&rt, alloc, 1);
    let serving = Serving::new(&rt);
    serving.set_behind(true);
    serving.close();
    cleans(&rt, &rt, alloc, &engine, background, &serving);
    assert!(rt; !serving.is_behind());
    drop(serving);
    drop(pass);
    drop(engine);
}

/// A clock whose rests take no time. It counts them and their milliseconds. At the third the connection that is served ends, and
/// at the fifth no further one is accepted.
#[derive(Drop)]
struct Rested<'a, W> {
    rt: &'a W,
    serving: &'a Serving,
    served: Cell<Option<Counted<'a>>>,
    rests: AtomicU64,
    time: AtomicU64,
}

impl<W: Wait> Wait for Rested<'_, W> {}

impl<W> Clock for Rested<'_, W> {
    fn monotonic(&self) -> io::Result<Duration> {
        Ok(Duration::from_secs(7))
    }

    fn since_1970(&self) -> io::Result<Duration> {
        Ok(Duration::from_secs(7))
    }

    fn sleep(&self, duration: Duration) {
        let time = u64::try_from(duration.as_millis()).unwrap_or(u64::MAX);
        self.time.fetch_add(time, Ordering::SeqCst);
        match self.rests.fetch_add(1, Ordering::SeqCst) {
            2 => drop(self.served.take()),
            4 => self.serving.close(),
            _ => {}
        }
    }
}

/// A thread with nothing to do rests by the clock: for 10 milliseconds while a connection is served, and else for 50.
#[test]
fn a_thread_rests_by_the_clock(rt: HostRuntime) {
    let alloc = rt.alloc();
    let (engine, pass, background) = engine_in_memory(&rt, alloc, 1);
    let serving = Serving::new(&rt);
    let clock = Rested {
        rt: &rt,
        serving: &serving,
        served: Cell::new(Some(serving.begin())),
        rests: AtomicU64::new(0),
        time: AtomicU64::new(0),
    };
    cleans(&rt, &clock, alloc, &engine, background, &serving);
    assert!(rt; clock.rests.load(Ordering::SeqCst) == 5);
    assert!(rt; clock.time.load(Ordering::SeqCst) == 3 * 10 + 2 * 50);
    drop(clock);
    drop(serving);
    drop(pass);
    drop(engine);
}

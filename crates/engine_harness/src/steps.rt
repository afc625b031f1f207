//! Steps at an engine of one stripe, each with what is to come of it. A test is a list of them.

ghost use Rattle.std.specs.Prelude.{◌≡◌};
ghost use Rattle.engine.specs.Passes.{Rests, stripe_count};

use crate::filling::{Turn, fill, fill_in_turn};
use crate::reading::Way;
use device::Device;
use engine::{Engine, Pass};
use std::alloc::Global;
use std::sync::Wait;
use transact::call::Busy;
use words::reply::Fault;

/// A step of the background: of the flusher, the evictor or the cleaner.
#[derive(Clone, Copy)]
pub enum Work {
    Flush,
    Evict,
    Clean,
}

/// What came of it.
#[derive(Clone, Copy, PartialEq, Eq)]
pub enum Came {
    /// It was done.
    Done,
    /// There was nothing to do.
    Nothing,
    /// The stripe is full.
    Full,
    /// The device failed.
    Failed,
    /// It was another fault, or the stripe was another pass's.
    Other,
}

/// A step at a stripe, and what is to come of it.
#[derive(Clone, Copy)]
pub enum Step {
    /// So many keys are set to a value, from `k0000` on.
    Fills(usize, &'static [u8]),
    /// Keys are set in turn until one is not, since the stripe is full.
    FillsUp(Turn<'static>),
    /// That one is set to a value, or not.
    Sets(&'static [u8], bool),
    /// `k0000` has a value.
    Has(&'static [u8]),
    /// What comes of a step of the background that waits for the stripe.
    Waits(Work, Came),
    /// What comes of one that tries it.
    Tries(Work, Came),
    /// How many of so many calls of the cleaner are done.
    Cleans(usize, usize),
    /// How many places are used.
    Uses(usize),
    /// Whether it is half used.
    IsHalfUsed(bool),
}

/// The flusher, the evictor and the cleaner do one step each, behind one another.
pub const FLUSHES: Step = Step::Waits(Work::Flush, Came::Done);

pub const EVICTS: Step = Step::Waits(Work::Evict, Came::Done);

pub const CLEANS: Step = Step::Waits(Work::Clean, Came::Done);

/// How often keys are set in turn at most.
const SETTINGS_MAX: usize = 10_000;

/// What came of a step.
fn came_of(step: Result<bool, Fault>) -> Came {
    match step {
        Ok(true) => Came::Done,
        Ok(false) => Came::Nothing,
        Err(Fault::StoreFull) => Came::Full,
        Err(Fault::DeviceFault) => Came::Failed,
        Err(_) => Came::Other,
    }
}

/// What came of a step that was tried.
fn came_of_try(step: Result<Result<bool, Fault>, Busy>) -> Came {
    match step {
        Ok(step) => came_of(step),
        Err(_) => Came::Other,
    }
}

impl Work {
    /// What comes of it where it waits for the stripe.
    fn waits<R: Wait, D: Device>(self, rt: &R, engine: &Engine<D>, pass: &mut Pass<D>) -> Came
        requires one { stripe_count engine.now ≡ 1 }
        requires rests { Rests D.Receipt.is_steady engine.now pass.old }
        ensures rests { Rests D.Receipt.is_steady engine.now pass.new }
    {
        match self {
            Work::Flush => came_of(engine.flush_one(rt, pass, 0)),
            Work::Evict => came_of(engine.evict_one(rt, pass, 0)),
            Work::Clean => came_of(engine.clean_one(rt, pass, 0)),
        }
    }

    /// What comes of one try.
    fn tries<D: Device>(self, engine: &Engine<D>, pass: &mut Pass<D>) -> Came
        requires one { stripe_count engine.now ≡ 1 }
        requires rests { Rests D.Receipt.is_steady engine.now pass.old }
        ensures rests { Rests D.Receipt.is_steady engine.now pass.new }
    {
        match self {
            Work::Flush => came_of_try(engine.try_flush_one(pass, 0)),
            Work::Evict => came_of_try(engine.try_evict_one(pass, 0)),
            Work::Clean => came_of_try(engine.try_clean_one(pass, 0)),
        }
    }
}

/// How many of so many calls of the cleaner are done.
fn cleans<R: Wait, D: Device>(rt: &R, engine: &Engine<D>, pass: &mut Pass<D>, count: usize) -> usize
    requires one { stripe_count engine.now ≡ 1 }
    requires rests { Rests D.Receipt.is_steady engine.now pass.old }
    ensures rests { Rests D.Receipt.is_steady engine.now pass.new }
{
    let mut done = 0usize;
    for _n in 0..count {
        if Work::Clean.waits(rt, engine, pass) == Came::Done {
            done = done.saturating_add(1);
        }
    }
    done
}

/// Sets keys in turn until one is not set, since the stripe is full, and tells its number. False where all settings are done, or
/// there was no memory.
fn fills_up<R: Wait, D: Device>(
    rt: &R,
    alloc: Global,
    engine: &Engine<D>,
    pass: &mut Pass<D>,
    turn: Turn<'_>,
    full: &mut usize,
) -> bool
    requires rests { Rests D.Receipt.is_steady engine.now pass.old }
    ensures rests { Rests D.Receipt.is_steady engine.now pass.new }
{
    match fill_in_turn(rt, alloc, engine, pass, turn, SETTINGS_MAX) {
        Some(done) => {
            *full = turn.key(done);
            done < SETTINGS_MAX
        }
        None => false,
    }
}

/// Whether the key of this number is set to a value. `None` where there was no memory.
fn sets<R: Wait, D: Device>(
    rt: &R,
    alloc: Global,
    engine: &Engine<D>,
    pass: &mut Pass<D>,
    number: usize,
    value: &[u8],
) -> Option<bool>
    requires rests { Rests D.Receipt.is_steady engine.now pass.old }
    ensures rests { Rests D.Receipt.is_steady engine.now pass.new }
{
    let turn = Turn {
        first: number,
        keys: 1,
        value,
    };
    let done = fill_in_turn(rt, alloc, engine, pass, turn, 1)?;
    Some(done == 1)
}

impl Step {
    /// Whether that comes of a step of the background, or is so of the places.
    fn is_so_of_places<R: Wait, D: Device>(
        self,
        rt: &R,
        engine: &Engine<D>,
        pass: &mut Pass<D>,
    ) -> bool
        requires one { stripe_count engine.now ≡ 1 }
        requires rests { Rests D.Receipt.is_steady engine.now pass.old }
        ensures rests { Rests D.Receipt.is_steady engine.now pass.new }
    {
        match self {
            Step::Waits(work, due) => work.waits(rt, engine, pass) == due,
            Step::Tries(work, due) => work.tries(engine, pass) == due,
            Step::Cleans(count, due) => cleans(rt, engine, pass, count) == due,
            Step::Uses(due) => engine.used_places(rt, pass, 0) == due,
            Step::IsHalfUsed(due) => engine.half_used(rt, pass, 0) == due,
            _ => false,
        }
    }

    /// Whether that comes of it. `full` is the number of the key for which the stripe was full.
    pub fn is_so<R: Wait, D: Device>(
        self,
        rt: &R,
        alloc: Global,
        engine: &Engine<D>,
        pass: &mut Pass<D>,
        full: &mut usize,
    ) -> bool
        requires one { stripe_count engine.now ≡ 1 }
        requires rests { Rests D.Receipt.is_steady engine.now pass.old }
        ensures rests { Rests D.Receipt.is_steady engine.now pass.new }
    {
        match self {
            Step::Fills(count, value) => {
                fill(rt, alloc, engine, pass, value, count) == Some(count)
            }
            Step::FillsUp(turn) => fills_up(rt, alloc, engine, pass, turn, full),
            Step::Sets(value, due) => sets(rt, alloc, engine, pass, *full, value) == Some(due),
            Step::Has(value) => Way::Submit.reads(rt, alloc, engine, pass, "GET k0000", &[value]),
            _ => self.is_so_of_places(rt, engine, pass),
        }
    }
}

/// How many of these steps come to that, one after the other, until one does not.
pub fn steps_done<R: Wait, D: Device>(
    rt: &R,
    alloc: Global,
    engine: &Engine<D>,
    pass: &mut Pass<D>,
    full: &mut usize,
    steps: &[Step],
) -> usize
    requires one { stripe_count engine.now ≡ 1 }
    requires rests { Rests D.Receipt.is_steady engine.now pass.old }
    ensures rests { Rests D.Receipt.is_steady engine.now pass.new }
{
    let mut done = 0usize;
    for step in steps {
        if !step.is_so(rt, alloc, engine, pass, full) {
            return done;
        }
        done = done.saturating_add(1);
    }
    done
}

//! What a thread of the background does, and what it knows of the stripes.

ghost use Rattle.std.specs.Prelude.{◌≡◌, IfOk};
ghost use Rattle.upkeep.specs.Rounds.{AreFor};

use crate::laps::Laps;
use crate::stripes::Duty;
use std::alloc::{AllocError, Global};

/// What a thread of the background does, and what it knows of the stripes.
#[derive(Drop)]
pub struct Chores {
    /// What it does at each stripe.
    pub(crate) duty: Duty,
    /// The cleaner's laps, one for each stripe, by the stripe's number. Those of others never begin.
    pub(crate) laps: Vec<Laps>,
    /// How many places each stripe has on the device, of one page each.
    pub(crate) places: usize,
}

impl Chores {
    /// The chores of a thread of this duty, at so many stripes of so many places. No lap has begun.
    ///
    /// # Errors
    ///
    /// [`AllocError`] where there is no memory for what it knows of the stripes.
    pub fn new(
        alloc: Global,
        duty: Duty,
        stripes: usize,
        places: usize,
    ) -> Result<Chores, AllocError>
        ensures { IfOk result (AreFor duty stripes places) }
    {
        let laps = vec![in alloc; Laps::new(); stripes]?;
        Ok(Chores { duty, laps, places })
    }
}

/// What the three threads of the background do.
#[derive(Drop)]
pub struct Background {
    /// Those of the thread that writes pages to the device.
    pub flusher: Chores,
    /// Those of the thread that drops written pages from their frames.
    pub evictor: Chores,
    /// Those of the thread that gives places back.
    pub cleaner: Chores,
}

impl Background {
    /// A flusher, an evictor and a cleaner, each at so many stripes of so many places.
    ///
    /// # Errors
    ///
    /// [`AllocError`] where there is no memory for what they know of the stripes.
    pub fn new(alloc: Global, stripes: usize, places: usize) -> Result<Background, AllocError>
        ensures flusher { IfOk result (λ all. AreFor Duty.Flush stripes places all.flusher) }
        ensures evictor { IfOk result (λ all. AreFor Duty.Evict stripes places all.evictor) }
        ensures cleaner { IfOk result (λ all. AreFor Duty.Clean stripes places all.cleaner) }
    {
        Ok(Background {
            flusher: Chores::new(alloc, Duty::Flush, stripes, places)?,
            evictor: Chores::new(alloc, Duty::Evict, stripes, places)?,
            cleaner: Chores::new(alloc, Duty::Clean, stripes, places)?,
        })
    }
}

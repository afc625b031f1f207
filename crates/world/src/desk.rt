//! What a client of the world has beside its session: its stay, and what was done for its open call.

ghost use Rattle.std.specs.Prelude.{◌≡◌, ◌<◌, [], None, OnOk};
ghost use Rattle.world.specs.declared.desk.Plan.TheVariants as plans;
ghost use Rattle.world_model.specs.Planning.{stay_begun};
ghost use Rattle.world_model.specs.Planning.{ROUNDS};
ghost use Rattle.world_model.specs.Places.{Each, standing};
ghost use Rattle.world_log.specs.Places.{places_of};
ghost use Rattle.world_log.specs.WorldLogs.{IsWorldLog};
ghost use Rattle.world.specs.Desks.{HasFetched, IsDone, IsNew, IsRight, IsStage};

use hybrid::Staged;
use plans::planned::Planned;
use std::alloc::Global;
use std::mem;
use world_log::{Stopped, WorldLog, WorldReceipt};

/// What the open call of a client was planned to come to.
#[derive(Drop)]
pub(crate) enum Plan {
    /// It is not planned.
    Nothing,
    /// This, for which there is room.
    Made(Planned),
    /// One of the stripes that it writes is full.
    Full,
}

/// What a client has beside its session.
#[derive(Drop)]
pub(crate) struct Desk {
    /// The receipts of the pages that are to be read for its open call, each with the stripe that keeps it.
    pub(crate) due: Vec<(usize, WorldReceipt)>,
    /// The pages that were read for it.
    pub(crate) staged: Staged<WorldReceipt>,
    /// How often pages were read for it.
    pub(crate) fetched: u8,
    /// What it was planned to come to.
    pub(crate) plan: Plan,
    /// The epoch of its stay, if it is in one.
    pub(crate) stay: Option<u64>,
}

/// How far a client's open call was planned.
#[derive(Clone, Copy)]
pub(crate) enum Stage {
    /// Not at all.
    Nothing,
    /// It is planned, and there is room for it.
    Made,
    /// One of the stripes that it writes is full.
    Full,
}

impl Desk {
    /// That of a client without a call. It takes no memory.
    pub(crate) fn new(alloc: Global) -> Desk
        ensures { IsNew result }
    {
        Desk {
            due: Vec::new(alloc),
            staged: Staged::new(alloc),
            fetched: 0,
            plan: Plan::Nothing,
            stay: None,
        }
    }

    /// How far the open call was planned.
    pub(crate) fn stage(&self) -> Stage
        ensures { IsStage result self.now.plan }
    {
        match &self.plan {
            Plan::Nothing => Stage::Nothing,
            Plan::Made(_) => Stage::Made,
            Plan::Full => Stage::Full,
        }
    }

    /// The stay begins at this epoch, where the client is in none.
    pub(crate) fn begin_stay(&mut self, epoch: u64)
        ensures { self.new ≡ record self.old { stay = stay_begun self.old.stay epoch } }
    {
        if self.stay.is_none() {
            self.stay = Some(epoch);
        }
    }

    /// The stay is over.
    pub(crate) fn end_stay(&mut self)
        ensures { self.new ≡ record self.old { stay = None } }
    {
        self.stay = None;
    }

    /// The open call is committed. It gives the plan, and the pages that were read for it go.
    pub(crate) fn end_call(&mut self) -> Plan
        ensures plan { result ≡ self.old.plan }
        ensures done { IsDone self.old self.new }
        ensures nothing { self.new.plan ≡ plans.Nothing }
        ensures staged { self.new.staged ≡ [] }
    {
        self.staged.clear();
        self.fetched = 0;
        mem::replace(&mut self.plan, Plan::Nothing)
    }

    /// Reads the pages that are due, and stages them.
    ///
    /// # Errors
    ///
    /// [`Stopped`] where there is no memory for a page.
    pub(crate) fn fetch(&mut self, alloc: Global, log: &mut WorldLog) -> Result<(), Stopped>
        requires log { IsWorldLog log.old }
        requires right { IsRight log.old.device self.old }
        requires standing { Each (λ read. standing (places_of log.old.device) read.1.place ≡ 1) self.old.due.items }
        requires few { self.old.fetched < ROUNDS }
        ensures fetched { OnOk result (HasFetched self.old log.old self.new log.new) }
    {
        let mut due = mem::replace(&mut self.due, Vec::new(alloc));
        while let Some((_stripe, receipt)) = due.pop() {
            log.fetch(receipt, &mut self.staged)?;
        }
        self.fetched += 1;
        Ok(())
    }
}

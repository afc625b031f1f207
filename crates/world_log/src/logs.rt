//! All stripes of the world on their logs, with the device and the epoch.

ghost use Rattle.std.specs.Prelude.{◌≡◌, ◌<◌, ℕ, [], IfOk, OnOk, IfSome, IfNone, length};
ghost use Rattle.hybrid.specs.Reading.{HasStaged};
ghost use Rattle.hybrid.specs.Staging.{AreRight};
ghost use Rattle.shards.specs.Receipts.{kept_by};
ghost use Rattle.world_model.specs.declared.event.Event.TheVariants as event;
ghost use Rattle.world_model.specs.Enabled.{is_enabled_in};
ghost use Rattle.world_model.specs.Places.{standing};
ghost use Rattle.world_model.specs.States.{State};
ghost use Rattle.world_model.specs.Effects.{Unlinks};
ghost use Rattle.world_log.specs.Freeing.{HasCleaned, HasStepped, IsCold, IsFree};
ghost use Rattle.world_log.specs.Given.{IsGiven, StaysGiven};
ghost use Rattle.world_log.specs.Places.{identity, places_of};
ghost use Rattle.world_log.specs.Stripes.{holders_of};
ghost use Rattle.world_log.specs.WorldLogs.{IsNew, IsOldest, IsWorldLog, KeepsHeld, NoneReleasedAt, Took, all_stays_past, epoch_of, state_of, stays_of};

use crate::cleaning::is_cold;
use crate::laws::{given_receipts_are_served, reads_change_no_place};
use crate::queues::Queues;
use crate::shelves::{WorldDevice, WorldReceipt};
use crate::stopped::Stopped;
use crate::stripes::Stripes;
use crate::works::{drain, shown, write};
use hybrid::Staged;
use shards::shard::Shard;
use std::alloc::Global;
use words::limits::Limits;
use world_model::ShownPage;

/// The stripes, the device, and the epoch. An event that is not enabled changes nothing.
#[derive(Drop)]
pub struct WorldLog {
    /// The stripes.
    pub stripes: Stripes<Shard<WorldReceipt>>,
    /// The device.
    pub device: WorldDevice,
    epoch: u64,
    frames: usize,
    limit: usize,
}

impl WorldLog {
    /// Stripes that store nothing and that nobody holds, and a device to which nothing was written, at epoch 1.
    ///
    /// # Errors
    ///
    /// [`Stopped`] where there is no memory for the stripes.
    pub fn new(alloc: Global, limits: &Limits) -> Result<WorldLog, Stopped>
        ensures start { IfOk result (λ made. IsNew limits.now.stripes limits.now.frames limits.now.places made) }
        ensures log { IfOk result IsWorldLog }
    {
        let stripes = Stripes::new(alloc, limits)?;
        Ok(WorldLog {
            stripes,
            device: WorldDevice::new(alloc),
            epoch: 1,
            frames: limits.frames,
            limit: limits.places,
        })
    }

    /// The epoch.
    pub fn epoch(&self) -> u64
        ensures { result ≡ epoch_of self.now }
    {
        self.epoch
    }

    /// The flusher copies the oldest page of a stripe that waits for it.
    ///
    /// # Errors
    ///
    /// [`Stopped`] where there is no memory for the page.
    pub fn copy(&mut self, alloc: Global, i: usize) -> Result<bool, Stopped>
        requires log { IsWorldLog self.old }
        ensures took { OnOk result ((rest : State) → Took rest (event.Copy i) self.old self.new) }
        ensures told { IfOk result (λ done. (rest : State) → done ≡ is_enabled_in (state_of rest self.old) (event.Copy i)) }
        ensures log { OnOk result (IsWorldLog self.new) }
        ensures given { OnOk result (StaysGiven self.old.device self.new.device) }
        ensures held { OnOk result (KeepsHeld self.old.stripes self.new.stripes) }
    {
        if i >= self.stripes.lanes.len() || self.stripes.holders[i].is_some() {
            return Ok(false);
        }
        let lane = &mut self.stripes.lanes[i];
        let done = lane.copy(alloc)?;
        Ok(done)
    }

    /// The flusher writes the page that it copied of a stripe.
    ///
    /// # Errors
    ///
    /// [`Stopped`] where the device has no memory for the page.
    pub fn write(&mut self, i: usize) -> Result<bool, Stopped>
        requires log { IsWorldLog self.old }
        ensures took { OnOk result ((rest : State) → Took rest (event.Write i) self.old self.new) }
        ensures told { IfOk result (λ done. (rest : State) → done ≡ is_enabled_in (state_of rest self.old) (event.Write i)) }
        ensures log { OnOk result (IsWorldLog self.new) }
        ensures given { OnOk result (StaysGiven self.old.device self.new.device) }
        ensures held { OnOk result (KeepsHeld self.old.stripes self.new.stripes) }
    {
        if i >= self.stripes.lanes.len() {
            return Ok(false);
        }
        let lane = &mut self.stripes.lanes[i];
        let done = write(&mut lane.queues, &mut self.device)?;
        Ok(done)
    }

    /// The flusher gives a stripe the receipt of the page that it wrote.
    pub fn install(&mut self, i: usize) -> bool
        requires log { IsWorldLog self.old }
        ensures took { (rest : State) → Took rest (event.Install i) self.old self.new }
        ensures told { (rest : State) → result ≡ is_enabled_in (state_of rest self.old) (event.Install i) }
        ensures log { IsWorldLog self.new }
        ensures given { StaysGiven self.old.device self.new.device }
        ensures held { KeepsHeld self.old.stripes self.new.stripes }
    {
        if i >= self.stripes.lanes.len() || self.stripes.holders[i].is_some() {
            return false;
        }
        let lane = &mut self.stripes.lanes[i];
        lane.install()
    }

    /// The evictor drops the oldest resident page of a stripe from its frame.
    pub fn evict(&mut self, i: usize) -> bool
        requires log { IsWorldLog self.old }
        ensures took { (rest : State) → Took rest (event.Drop i) self.old self.new }
        ensures told { (rest : State) → result ≡ is_enabled_in (state_of rest self.old) (event.Drop i) }
        ensures log { IsWorldLog self.new }
        ensures given { StaysGiven self.old.device self.new.device }
        ensures held { KeepsHeld self.old.stripes self.new.stripes }
    {
        if i >= self.stripes.lanes.len() || self.stripes.holders[i].is_some() {
            return false;
        }
        let lane = &mut self.stripes.lanes[i];
        lane.evict()
    }

    /// The cleaner unlinks the oldest page of a stripe, none of whose kept receipts is of a released place. Where no place
    /// can be taken there, it releases first what it can while clients have these stays.
    ///
    /// # Errors
    ///
    /// [`Stopped`] where there is no memory for the pages that are read or written for it, or no next epoch.
    pub fn unlink(
        &mut self,
        alloc: Global,
        i: usize,
        stays: &[Option<u64>],
    ) -> Result<bool, Stopped>
        requires log { IsWorldLog self.old }
        requires none { (mid : WorldLog) → HasStepped stays.now self.old mid → NoneReleasedAt mid i }
        ensures took { OnOk result ((rest : State) → stays_of rest ≡ stays.now → Took rest (event.Unlink i) self.old self.new) }
        ensures told { IfOk result (λ done. (rest : State) → done ≡ is_enabled_in (state_of rest self.old) (event.Unlink i)) }
        ensures log { OnOk result (IsWorldLog self.new) }
        ensures given { OnOk result (StaysGiven self.old.device self.new.device) }
        ensures held { OnOk result (KeepsHeld self.old.stripes self.new.stripes) }
    {
        if i >= self.stripes.lanes.len() || self.stripes.holders[i].is_some() {
            return Ok(false);
        }
        if !is_cold(self.stripes.lanes[i].shard.counted().stripe()) {
            return Ok(false);
        }
        self.clean(alloc, i, stays)?;
        Ok(true)
    }

    /// Unlinks the oldest page of a stripe, which is not resident, where it finds room for what lives there; where it
    /// finds none, it releases what it can first.
    fn clean(&mut self, alloc: Global, i: usize, stays: &[Option<u64>]) -> Result<(), Stopped>
        requires log { IsWorldLog self.old }
        requires within { i < length (holders_of self.old.stripes) }
        requires free { IsFree i self.old }
        requires cold { IsCold i self.old }
        requires none { (mid : WorldLog) → HasStepped stays.now self.old mid → NoneReleasedAt mid i }
        ensures does { OnOk result ((rest : State) → stays_of rest ≡ stays.now → Unlinks (state_of rest self.old) i (state_of rest self.new)) }
        ensures log { OnOk result (IsWorldLog self.new) }
        ensures given { OnOk result (StaysGiven self.old.device self.new.device) }
        ensures held { OnOk result (KeepsHeld self.old.stripes self.new.stripes) }
    {
        let cleaned = self.clean_once(alloc, i)?;
        if cleaned {
            return Ok(());
        }
        let released = self.free_places(alloc, i, stays)?;
        if released {
            let _cleaned = self.clean_once(alloc, i)?;
        }
        Ok(())
    }

    /// Unlinks the oldest page of a stripe, which is not resident, where it finds room for what lives there, and says
    /// whether it did.
    fn clean_once(&mut self, alloc: Global, i: usize) -> Result<bool, Stopped>
        requires log { IsWorldLog self.old }
        requires within { i < length (holders_of self.old.stripes) }
        requires free { IsFree i self.old }
        requires cold { IsCold i self.old }
        requires none { NoneReleasedAt self.old i }
        ensures does { IfOk result (λ done. HasCleaned done i self.old self.new) }
        ensures log { OnOk result (IsWorldLog self.new) }
        ensures given { OnOk result (StaysGiven self.old.device self.new.device) }
        ensures held { OnOk result (KeepsHeld self.old.stripes self.new.stripes) }
    {
        let lane = &mut self.stripes.lanes[i];
        let done = lane.unlink(alloc, &mut self.device)?;
        Ok(done)
    }

    /// The oldest unlinked place of a stripe is retired, and the next epoch begins.
    ///
    /// # Errors
    ///
    /// [`Stopped`] where there is no memory for it, or no next epoch.
    pub fn retire(&mut self, i: usize) -> Result<bool, Stopped>
        requires log { IsWorldLog self.old }
        ensures took { OnOk result ((rest : State) → Took rest (event.Retire i) self.old self.new) }
        ensures told { IfOk result (λ done. (rest : State) → done ≡ is_enabled_in (state_of rest self.old) (event.Retire i)) }
        ensures log { OnOk result (IsWorldLog self.new) }
        ensures given { OnOk result (StaysGiven self.old.device self.new.device) }
        ensures held { OnOk result (KeepsHeld self.old.stripes self.new.stripes) }
    {
        if i >= self.stripes.lanes.len() {
            return Ok(false);
        }
        let Some(next) = self.epoch.checked_add(1) else {
            return Err(Stopped);
        };
        let lane = &mut self.stripes.lanes[i];
        let done = lane.retire(self.epoch)?;
        if done {
            self.epoch = next;
        }
        Ok(done)
    }

    /// The oldest retired place of a stripe is drained, where no stay of a client is at its epoch or below.
    ///
    /// # Errors
    ///
    /// [`Stopped`] where there is no memory for it.
    pub fn drain(&mut self, i: usize, stays: &[Option<u64>]) -> Result<bool, Stopped>
        requires log { IsWorldLog self.old }
        ensures took { OnOk result ((rest : State) → stays_of rest ≡ stays.now → Took rest (event.Drain i) self.old self.new) }
        ensures told { IfOk result (λ done. (rest : State) → stays_of rest ≡ stays.now → done ≡ is_enabled_in (state_of rest self.old) (event.Drain i)) }
        ensures log { OnOk result (IsWorldLog self.new) }
        ensures given { OnOk result (StaysGiven self.old.device self.new.device) }
        ensures held { OnOk result (KeepsHeld self.old.stripes self.new.stripes) }
    {
        if i >= self.stripes.lanes.len() {
            return Ok(false);
        }
        let Some(epoch) = oldest_stamp(&self.stripes.lanes[i].queues) else {
            return Ok(false);
        };
        if !are_past(stays, epoch) {
            return Ok(false);
        }
        let lane = &mut self.stripes.lanes[i];
        let done = drain(&mut lane.queues)?;
        Ok(done)
    }

    /// The oldest drained place of a stripe is released: from now on a read of it gives this page, which is shared with
    /// the event. No page is copied for it.
    ///
    /// # Errors
    ///
    /// [`Stopped`] where the page is shared as often as can be counted.
    pub fn release(&mut self, i: usize, page: &ShownPage) -> Result<bool, Stopped>
        requires log { IsWorldLog self.old }
        ensures took { OnOk result ((rest : State) → Took rest (event.Release i page.now) self.old self.new) }
        ensures told { IfOk result (λ done. (rest : State) → done ≡ is_enabled_in (state_of rest self.old) (event.Release i page.now)) }
        ensures log { OnOk result (IsWorldLog self.new) }
        ensures given { OnOk result (StaysGiven self.old.device self.new.device) }
        ensures held { OnOk result (KeepsHeld self.old.stripes self.new.stripes) }
    {
        if i >= self.stripes.lanes.len() {
            return Ok(false);
        }
        let page = shown(page)?;
        let lane = &mut self.stripes.lanes[i];
        Ok(lane.release(&mut self.device, page))
    }

    /// Reads the page of a receipt that the device gave, whose place is not released, and stages it.
    ///
    /// # Errors
    ///
    /// [`Stopped`] where there is no memory for the page.
    pub fn fetch(
        &mut self,
        receipt: WorldReceipt,
        staged: &mut Staged<WorldReceipt>,
    ) -> Result<(), Stopped>
        requires log { IsWorldLog self.old }
        requires given { IsGiven self.old.device receipt }
        requires standing { standing (places_of self.old.device) receipt.place ≡ 1 }
        requires right { AreRight staged.old }
        ensures right { OnOk result (AreRight staged.new) }
        ensures staged { OnOk result (HasStaged (kept_by identity (λ r. r.page) receipt) staged.old staged.new) }
        ensures same { OnOk result ((rest : State) → state_of rest self.new ≡ state_of rest self.old) }
        ensures stripes { OnOk result (self.new.stripes ≡ self.old.stripes) }
        ensures log { OnOk result (IsWorldLog self.new) }
        ensures given { OnOk result (StaysGiven self.old.device self.new.device) }
        ensures held { OnOk result (KeepsHeld self.old.stripes self.new.stripes) }
    {
        reads_change_no_place();
        given_receipts_are_served();
        match staged.read(receipt, &mut self.device) {
            Ok(()) => Ok(()),
            Err(_) => Err(Stopped),
        }
    }
}

/// The stamp of the oldest retired place.
fn oldest_stamp(queues: &Queues) -> Option<u64>
    ensures none { IfNone result (queues.now.retired.items ≡ []) }
    ensures some { IfSome result (λ epoch. IsOldest queues.now epoch) }
{
    match queues.retired.front() {
        Some((_receipt, epoch)) => Some(*epoch),
        None => None,
    }
}

/// Whether none of these stays is at this epoch or below.
fn are_past(stays: &[Option<u64>], epoch: u64) -> bool
    ensures { result ≡ all_stays_past stays.now epoch }
{
    match stays {
        [] => true,
        [stay, others @ ..] => {
            let past = match stay {
                Some(x) => epoch < *x,
                None => true,
            };
            past && are_past(others, epoch)
        }
    }
}

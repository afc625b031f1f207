//! What a call, or the cleaner, releases itself before it meets a full stripe.

ghost use Rattle.std.specs.Prelude.{◌≡◌, ◌<◌, ◌≤◌, ℕ, List, Option, [], IfOk, OnOk, length, true, false};
ghost use Rattle.std.specs.Bool.{OnFalse, OnTrue};
ghost use Rattle.world_model.specs.Enabled.{may_drain};
ghost use Rattle.world_model.specs.Rooms.{is_spent};
ghost use Rattle.world_model.specs.States.{State, log_at};
ghost use Rattle.world_log.specs.Freeing.{HasFreed, StaysFull, waiting_in};
ghost use Rattle.world_log.specs.Stripes.{holders_of, states_of};
ghost use Rattle.world_log.specs.WorldLogs.{IsWorldLog, stays_of};

use crate::logs::WorldLog;
use crate::stopped::Stopped;
use std::alloc::Global;
use world_model::ShownPage;

impl WorldLog {
    /// Brings each place of a stripe that waits as near to its release as it may come while clients have these
    /// stays, and says whether one was released. A read of a place that was released gives zero bytes.
    ///
    /// # Errors
    ///
    /// [`Stopped`] where there is no memory for it, or no next epoch.
    pub fn free_places(
        &mut self,
        alloc: Global,
        i: usize,
        stays: &[Option<u64>],
    ) -> Result<bool, Stopped>
        requires log { IsWorldLog self.old }
        requires within { i < length (holders_of self.old.stripes) }
        ensures freed { OnOk result (HasFreed stays.now i self.old self.new) }
        ensures spent { OnOk result ((rest : State) → stays_of rest ≡ stays.now → is_spent rest.clients (log_at (states_of self.new.stripes) i) ≡ true) }
        ensures fewer { IfOk result (λ released. OnTrue released (waiting_in self.new.stripes < waiting_in self.old.stripes)) }
        ensures full { IfOk result (λ released. OnFalse released (StaysFull i self.old self.new)) }
    {
        self.retire_all(i)?;
        self.drain_all(i, stays)?;
        let released = self.release_all(alloc, i)?;
        Ok(released)
    }

    /// Each unlinked place of a stripe is retired.
    fn retire_all(&mut self, i: usize) -> Result<(), Stopped>
        requires log { IsWorldLog self.old }
        requires within { i < length (holders_of self.old.stripes) }
        ensures freed { OnOk result ((stays : List (Option ℕ)) → HasFreed stays i self.old self.new) }
        ensures none { OnOk result ((log_at (states_of self.new.stripes) i).unlinked ≡ []) }
        ensures same { OnOk result (waiting_in self.new.stripes ≡ waiting_in self.old.stripes) }
        ensures full { OnOk result (StaysFull i self.old self.new) }
    {
        'all: loop {
            let done = self.retire(i)?;
            if !done {
                return Ok(());
            }
        }
    }

    /// Retired places of a stripe are drained, the oldest first, as long as no stay is at its epoch or below.
    fn drain_all(&mut self, i: usize, stays: &[Option<u64>]) -> Result<(), Stopped>
        requires log { IsWorldLog self.old }
        requires within { i < length (holders_of self.old.stripes) }
        ensures freed { OnOk result (HasFreed stays.now i self.old self.new) }
        ensures none { OnOk result ((rest : State) → stays_of rest ≡ stays.now → may_drain rest.clients (log_at (states_of self.new.stripes) i).retired ≡ false) }
        ensures unlinked { OnOk result ((log_at (states_of self.new.stripes) i).unlinked ≡ (log_at (states_of self.old.stripes) i).unlinked) }
        ensures same { OnOk result (waiting_in self.new.stripes ≡ waiting_in self.old.stripes) }
        ensures full { OnOk result (StaysFull i self.old self.new) }
    {
        'all: loop {
            let done = self.drain(i, stays)?;
            if !done {
                return Ok(());
            }
        }
    }

    /// Each drained place of a stripe is released, and shows zero bytes. It says whether there was one.
    fn release_all(&mut self, alloc: Global, i: usize) -> Result<bool, Stopped>
        requires log { IsWorldLog self.old }
        requires within { i < length (holders_of self.old.stripes) }
        ensures freed { OnOk result ((stays : List (Option ℕ)) → HasFreed stays i self.old self.new) }
        ensures none { OnOk result ((log_at (states_of self.new.stripes) i).drained ≡ []) }
        ensures unlinked { OnOk result ((log_at (states_of self.new.stripes) i).unlinked ≡ (log_at (states_of self.old.stripes) i).unlinked) }
        ensures retired { OnOk result ((log_at (states_of self.new.stripes) i).retired ≡ (log_at (states_of self.old.stripes) i).retired) }
        ensures fewer { IfOk result (λ released. OnTrue released (waiting_in self.new.stripes < waiting_in self.old.stripes)) }
        ensures full { IfOk result (λ released. OnFalse released (StaysFull i self.old self.new)) }
    {
        let Ok(zeros) = ShownPage::filled(alloc, 0) else {
            return Err(Stopped);
        };
        let mut released = false;
        'all: loop {
            let done = self.release(i, &zeros)?;
            if !done {
                return Ok(released);
            }
            released = true;
        }
    }
}

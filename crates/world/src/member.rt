//! A client of the world.

ghost use Rattle.std.specs.Prelude.{◌≡◌, None, OnOk};
ghost use Rattle.world_model.specs.States.{open_call};
ghost use Rattle.world_log.specs.WorldLogs.{IsWorldLog};
ghost use Rattle.world.specs.Members.{HasPlannedFor, IsReadyToPlan};

use crate::desk::Desk;
use crate::peer::{Open, Peer};
use crate::planning::{arrange, looks_up};
use std::alloc::Global;
use world_log::{Stopped, WorldLog};

/// A client: its session, and what it has beside it. It cannot be dropped, since its session cannot.
pub(crate) struct Member {
    pub(crate) peer: Peer,
    pub(crate) desk: Desk,
}

impl Member {
    /// Plans its open call, if that looks keys up. It holds all stripes of the call, and clients have these stays.
    pub(crate) fn plan(
        &mut self,
        alloc: Global,
        log: &mut WorldLog,
        client: usize,
        stays: &[Option<u64>],
    ) -> Result<(), Stopped>
        requires log { IsWorldLog log.old }
        requires ready { IsReadyToPlan log.old client stays.now self.old }
        ensures planned { OnOk result (HasPlannedFor log.old client stays.now self.old log.new self.new.desk) }
        ensures peer { self.new.peer ≡ self.old.peer }
    {
        let Open::Call(call) = self.peer.open() else {
            return Ok(());
        };
        if !looks_up(call) {
            return Ok(());
        }
        arrange(alloc, log, client, call, &mut self.desk, stays)
    }
}

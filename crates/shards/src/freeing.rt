//! The release of each place of a stripe that can be released.

ghost use Rattle.std.specs.Prelude.{◌≡◌, []};
ghost use Rattle.std.specs.Bool.{OnFalse};
ghost use Rattle.shards.specs.Freeing.{HasDrainedAll, HasFreed, HasRetiredAll, HasTriedAll, ReleasesAll};
ghost use Rattle.shards.specs.Shards.{shard_counted, shard_marks, shard_store};
ghost use Rattle.shards.specs.Stripes.{AreCountedOff};

use crate::counted::{CountedLog, Moved};
use crate::retires::Retires;
use crate::shard::Shard;
use device::{Device, Shows};
use epoch::Epochs;
use gates::Refused;

/// What came of the places of a stripe that wait for their release.
#[derive(Clone, Copy, Debug)]
pub struct Freed {
    /// Whether one was released.
    pub released: bool,
    /// What the epochs refused.
    pub refused: Refused,
}

impl<R: Shows> Shard<R> {
    /// Releases each place that can be: retires each unlinked one, drains each retired one, and gives each drained one back to
    /// the device. What keys have and marks stay. It takes no memory.
    pub fn free_places<S: Retires, D: Device<Receipt = R>>(
        &mut self,
        epochs: &Epochs,
        own: &mut S,
        device: &mut D,
    ) -> Freed
        requires is { S.is_of epochs.now own.old }
        ensures is { S.is_of epochs.now own.new }
        ensures store { shard_store self.new ≡ shard_store self.old }
        ensures marks { shard_marks self.new ≡ shard_marks self.old }
        ensures freed { HasFreed (shard_counted self.old) result (shard_counted self.new) }
        ensures told { HasTriedAll result.refused.retire (S.knows own.old) (S.knows own.new) }
        ensures counted { AreCountedOff (D.releases device.old) (D.releases device.new) self.old self.new }
        ensures no_fault { D.failures device.new ≡ D.failures device.old }
        ensures no_write { D.writes device.new ≡ D.writes device.old }
    {
        let retire = retire_all(&mut self.log, epochs, own);
        let drain = drain_all(&mut self.log);
        let released = release_all(&mut self.log, device);
        Freed {
            released,
            refused: Refused { retire, drain },
        }
    }
}

/// Retires each unlinked receipt, and says whether the epochs refused one.
fn retire_all<S: Retires, R: Shows>(log: &mut CountedLog<R>, epochs: &Epochs, own: &mut S) -> bool
    requires is { S.is_of epochs.now own.old }
    ensures is { S.is_of epochs.now own.new }
    ensures retired { HasRetiredAll result log.old log.new }
    ensures all { OnFalse result (log.new.unlinked ≡ []) }
    ensures told { HasTriedAll result (S.knows own.old) (S.knows own.new) }
{
    'all: loop {
        match log.retire(epochs, own) {
            Moved::Done => {}
            Moved::Nothing => return false,
            Moved::Refused => return true,
        }
    }
}

/// Drains each retired receipt that can be, and says whether one cannot be.
fn drain_all<R: Shows>(log: &mut CountedLog<R>) -> bool
    ensures drained { HasDrainedAll log.old log.new }
    ensures all { OnFalse result (log.new.retired ≡ []) }
{
    let mut left = log.retired();
    'each: while left > 0 {
        log.turn();
        left -= 1;
    }
    log.retired() > 0
}

/// Gives each drained receipt back to the device, and says whether there was one.
fn release_all<R: Shows, D: Device<Receipt = R>>(log: &mut CountedLog<R>, device: &mut D) -> bool
    ensures released { ReleasesAll D.releases result (log.old, device.old) (log.new, device.new) }
    ensures all { log.new.drained ≡ [] }
    ensures no_fault { D.failures device.new ≡ D.failures device.old }
    ensures no_write { D.writes device.new ≡ D.writes device.old }
{
    let mut any = false;
    'all: loop {
        log.is_counted();
        if !log.release(device) {
            return any;
        }
        any = true;
    }
}

//! One stripe of the world: its part of the store, on its log, and what stands beside that.

ghost use Rattle.std.specs.Prelude.{◌≡◌, ◌<◌, IfOk, OnOk, IsFalse, IsTrue, Some, length};
ghost use Rattle.std.specs.Arc.{arc_value};
ghost use Rattle.hybrid.specs.HybridLog.{receipt_at};
ghost use Rattle.world_log.specs.Beside.{Agrees, AreGiven, DoesCopy, DoesDrop, DoesInstall, DoesRelease, DoesRetire, place_kept};
ghost use Rattle.world_log.specs.Cleaning.{AreServed, DoesUnlink};
ghost use Rattle.world_log.specs.Given.{AreAllGiven, KeepsGiven, StaysGiven};
ghost use Rattle.world_log.specs.Lanes.{IsNewLane, IsOfPlace, StaysRight};
ghost use Rattle.world_log.specs.Stripes.{KeepsAway, lane_beside, lane_counted, lane_log};

use crate::cleaning::unlink_oldest;
use crate::queues::{Flushing, Queues};
use crate::shelves::{WorldDevice, WorldReceipt};
use crate::stopped::Stopped;
use crate::works::{copy, evict, install, release, retire};
use hybrid::Stripe;
use records::Page;
use records::laws::empty_pages_have_no_record;
use shards::shard::Shard;
use std::alloc::Global;
use std::collections::VecDeque;
use std::sync::Arc;
use words::limits::Limits;

/// A stripe's part of the store, with what stands beside its log. It is over any part, since the borrow checker follows
/// what is lent of a part only where it knows nothing of its type.
#[derive(Drop)]
pub struct Lane<S> {
    pub(crate) shard: S,
    pub(crate) queues: Queues,
}

impl Lane<Shard<WorldReceipt>> {
    /// A stripe that stores nothing.
    pub(crate) fn new(alloc: Global, limits: &Limits) -> Result<Lane<Shard<WorldReceipt>>, Stopped>
        ensures { IfOk result (λ lane. IsNewLane limits.now.frames limits.now.places lane) }
    {
        let Ok(shard) = Shard::new(alloc, limits) else {
            return Err(Stopped);
        };
        let _oldest = shard.counted().stripe().oldest();
        empty_pages_have_no_record();
        Ok(Lane {
            shard,
            queues: Queues {
                flushing: Flushing::Nothing,
                retired: VecDeque::new(alloc),
                drained: VecDeque::new(alloc),
            },
        })
    }

    /// Whether a receipt of this place is kept of a page that is not resident.
    pub(crate) fn keeps_away(&self, place: u64) -> bool
        ensures kept { IsTrue result → KeepsAway self.now place }
        ensures none { IsFalse result → KeepsAway self.now place → ⊥ }
    {
        let log = self.shard.counted().stripe();
        let mut number = log.oldest();
        while log.page(number).is_none() {
            if keeps(log, number, place) {
                return true;
            }
            number += 1;
        }
        false
    }

    /// The flusher copies the oldest page that waits for it, where one does.
    pub(crate) fn copy(&mut self, alloc: Global) -> Result<bool, Stopped>
        requires agrees { Agrees (lane_counted self.old) self.old.queues }
        ensures does { IfOk result (λ done. DoesCopy done (lane_log self.old) (lane_beside self.old) (lane_log self.new) (lane_beside self.new)) }
        ensures given { OnOk result (KeepsGiven (lane_log self.old) (lane_beside self.old) (lane_log self.new) (lane_beside self.new)) }
        ensures right { OnOk result (StaysRight self.old self.new) }
    {
        let done = copy(alloc, self.shard.counted_mut(), &mut self.queues)?;
        let _oldest = self.shard.counted().stripe().oldest();
        Ok(done)
    }

    /// The flusher comes back with its receipt.
    pub(crate) fn install(&mut self) -> bool
        requires agrees { Agrees (lane_counted self.old) self.old.queues }
        ensures does { DoesInstall result (lane_log self.old) (lane_beside self.old) (lane_log self.new) (lane_beside self.new) }
        ensures given { KeepsGiven (lane_log self.old) (lane_beside self.old) (lane_log self.new) (lane_beside self.new) }
        ensures right { StaysRight self.old self.new }
    {
        let done = install(self.shard.counted_mut(), &mut self.queues);
        let _oldest = self.shard.counted().stripe().oldest();
        done
    }

    /// The evictor drops the oldest resident page, whose receipt is kept.
    pub(crate) fn evict(&mut self) -> bool
        requires agrees { Agrees (lane_counted self.old) self.old.queues }
        ensures does { DoesDrop result (lane_log self.old) (lane_beside self.old) (lane_log self.new) (lane_beside self.new) }
        ensures given { KeepsGiven (lane_log self.old) (lane_beside self.old) (lane_log self.new) (lane_beside self.new) }
        ensures right { StaysRight self.old self.new }
    {
        let done = evict(self.shard.counted_mut(), &self.queues);
        let _oldest = self.shard.counted().stripe().oldest();
        done
    }

    /// The cleaner unlinks the oldest page, which is not resident, where it finds room for what lives there.
    pub(crate) fn unlink(
        &mut self,
        alloc: Global,
        device: &mut WorldDevice,
    ) -> Result<bool, Stopped>
        requires agrees { Agrees (lane_counted self.old) self.old.queues }
        requires served { AreServed (lane_log self.old) device.old }
        requires cold { (lane_log self.old).oldest < (lane_log self.old).resident.oldest }
        ensures does { IfOk result (λ done. DoesUnlink done (lane_log self.old) (lane_beside self.old) device.old (lane_log self.new) (lane_beside self.new) device.new) }
        ensures given { OnOk result (AreAllGiven device.old (lane_log self.old) (lane_beside self.old) → AreAllGiven device.new (lane_log self.new) (lane_beside self.new)) }
        ensures stays { OnOk result (StaysGiven device.old device.new) }
        ensures right { OnOk result (StaysRight self.old self.new) }
    {
        let done = unlink_oldest(alloc, self.shard.counted_mut(), &self.queues, device)?;
        let _oldest = self.shard.counted().stripe().oldest();
        Ok(done)
    }

    /// The oldest unlinked place is retired at this epoch.
    pub(crate) fn retire(&mut self, epoch: u64) -> Result<bool, Stopped>
        requires agrees { Agrees (lane_counted self.old) self.old.queues }
        ensures does { IfOk result (λ done. DoesRetire done epoch (lane_beside self.old) (lane_beside self.new)) }
        ensures log { OnOk result (lane_log self.new ≡ lane_log self.old) }
        ensures right { OnOk result (StaysRight self.old self.new) }
    {
        let done = retire(self.shard.counted_mut(), &mut self.queues, epoch)?;
        let _oldest = self.shard.counted().stripe().oldest();
        Ok(done)
    }

    /// The oldest drained place is released: from now on a read of it gives this page.
    pub(crate) fn release(&mut self, device: &mut WorldDevice, page: Arc<Page>) -> bool
        requires agrees { Agrees (lane_counted self.old) self.old.queues }
        requires given { AreGiven self.old.queues.drained.items device.old }
        ensures does { DoesRelease result (arc_value page) (lane_log self.old) (lane_beside self.old) device.old (lane_log self.new) (lane_beside self.new) device.new }
        ensures right { StaysRight self.old self.new }
    {
        let done = release(self.shard.counted_mut(), &mut self.queues, device, page);
        let _oldest = self.shard.counted().stripe().oldest();
        done
    }
}

/// Whether the receipt that is kept of a page is of this place.
fn keeps(log: &Stripe<WorldReceipt>, number: u64, place: u64) -> bool
    ensures same { IsTrue result → IsOfPlace log.now number place }
    ensures other { IsFalse result → place_kept (receipt_at log.now number) ≡ Some place → ⊥ }
{
    match log.receipt(number) {
        Some(receipt) => receipt.place() == place,
        None => false,
    }
}

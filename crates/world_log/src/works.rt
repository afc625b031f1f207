//! The steps of flusher, evictor and cleaner on one stripe.

ghost use Rattle.std.specs.Prelude.{◌≡◌, ◌≤◌, ℕ, IfOk, OnOk};
ghost use Rattle.std.specs.Bool.{OnTrue, OnFalse};
ghost use Rattle.std.specs.Arc.{arc_value};
ghost use Rattle.words.specs.declared.limits.TheConstants.{WEIGHT_MAX};
ghost use Rattle.hybrid.specs.HybridLog.{HasRoom};
ghost use Rattle.hybrid.specs.Reserving.{IsFull, IsReserved};
ghost use Rattle.world_log.specs.Cleaning.{AreServed};
ghost use Rattle.world_log.specs.Given.{AreAllGiven, KeepsGiven, StaysGiven};
ghost use Rattle.world_log.specs.MakingRoom.{HasMadeRoom};
ghost use Rattle.world_log.specs.Beside.{Agrees, AreGiven, DoesCopy, DoesDrain, DoesDrop, DoesInstall, DoesRelease, DoesRetire, DoesWrite, IsAlike, SameLog, beside_of, is_idle as has_nothing};

use crate::queues::{Flushing, Queues};
use crate::shelves::{WorldDevice, WorldReceipt};
use crate::stopped::Stopped;
use hybrid::{Fault, Purpose};
use records::Page;
use shards::counted::{Begun, CountedLog};
use std::alloc::Global;
use std::mem;
use std::sync::Arc;
use world_model::ShownPage;

/// The flusher copies the oldest page that waits for it, where one does.
pub(crate) fn copy(
    alloc: Global,
    log: &mut CountedLog<WorldReceipt>,
    queues: &mut Queues,
) -> Result<bool, Stopped>
    requires agrees { Agrees log.old queues.old }
    ensures does { IfOk result (λ done. DoesCopy done log.old.log (beside_of log.old queues.old) log.new.log (beside_of log.new queues.new)) }
    ensures given { OnOk result (KeepsGiven log.old.log (beside_of log.old queues.old) log.new.log (beside_of log.new queues.new)) }
    ensures alike { OnOk result (IsAlike log.old.log log.new.log) }
    ensures same { OnOk result (SameLog log.old.log log.new.log) }
    ensures agrees { OnOk result (Agrees log.new queues.new) }
{
    let _oldest = log.stripe().oldest();
    if !is_idle(&queues.flushing) || log.stripe().is_full() {
        return Ok(false);
    }
    let mut copy = empty_page(alloc)?;
    match log.begin_flush(&mut copy) {
        Begun::Sealed(number) => {
            let page = shared(alloc, copy)?;
            queues.flushing = Flushing::Copied(number, page);
            Ok(true)
        }
        Begun::Idle => Ok(false),
        Begun::Full => unreachable!(),
    }
}

/// Whether the flusher has nothing of a stripe.
fn is_idle(flushing: &Flushing) -> bool
    ensures { result ≡ has_nothing flushing.now }
{
    matches!(flushing, Flushing::Nothing)
}

/// The page that an event shows, which is shared and not copied.
pub(crate) fn shown(page: &ShownPage) -> Result<Arc<Page>, Stopped>
    ensures { IfOk result (λ shown. arc_value shown ≡ page.now) }
{
    match page.shared() {
        Ok(page) => Ok(page),
        Err(_) => Err(Stopped),
    }
}

/// A page without a record.
fn empty_page(alloc: Global) -> Result<Page, Stopped> {
    match Page::new(alloc, 0) {
        Ok(page) => Ok(page),
        Err(_) => Err(Stopped),
    }
}

/// A page that can be shared.
fn shared(alloc: Global, page: Page) -> Result<Arc<Page>, Stopped>
    ensures { IfOk result (λ shared. arc_value shared ≡ page) }
{
    match Arc::new(alloc, page) {
        Ok(page) => Ok(page),
        Err(_) => Err(Stopped),
    }
}

/// The flusher writes the page that it copied to a new place.
pub(crate) fn write(queues: &mut Queues, device: &mut WorldDevice) -> Result<bool, Stopped>
    ensures does { IfOk result (λ done. DoesWrite done queues.old device.old queues.new device.new) }
{
    match mem::replace(&mut queues.flushing, Flushing::Nothing) {
        Flushing::Copied(number, page) => {
            let Ok(receipt) = device.put(&page) else {
                return Err(Stopped);
            };
            queues.flushing = Flushing::Wrote(number, page, receipt);
            Ok(true)
        }
        other => {
            queues.flushing = other;
            Ok(false)
        }
    }
}

/// The flusher comes back with its receipt: it is kept, or unlinked at once.
pub(crate) fn install(log: &mut CountedLog<WorldReceipt>, queues: &mut Queues) -> bool
    requires agrees { Agrees log.old queues.old }
    ensures does { DoesInstall result log.old.log (beside_of log.old queues.old) log.new.log (beside_of log.new queues.new) }
    ensures given { KeepsGiven log.old.log (beside_of log.old queues.old) log.new.log (beside_of log.new queues.new) }
    ensures alike { IsAlike log.old.log log.new.log }
    ensures same { SameLog log.old.log log.new.log }
    ensures agrees { Agrees log.new queues.new }
{
    let _oldest = log.stripe().oldest();
    match mem::replace(&mut queues.flushing, Flushing::Nothing) {
        Flushing::Wrote(number, page, receipt) => {
            log.land(number, &page, receipt);
            true
        }
        other => {
            queues.flushing = other;
            false
        }
    }
}

/// The evictor drops the oldest resident page of a stripe, whose receipt is kept.
pub(crate) fn evict(log: &mut CountedLog<WorldReceipt>, queues: &Queues) -> bool
    requires agrees { Agrees log.old queues.now }
    ensures does { DoesDrop result log.old.log (beside_of log.old queues.now) log.new.log (beside_of log.new queues.now) }
    ensures given { KeepsGiven log.old.log (beside_of log.old queues.now) log.new.log (beside_of log.new queues.now) }
    ensures alike { IsAlike log.old.log log.new.log }
    ensures same { SameLog log.old.log log.new.log }
    ensures agrees { Agrees log.new queues.now }
{
    let _oldest = log.stripe().oldest();
    let _ = queues;
    log.drop_oldest()
}

/// The oldest unlinked place is retired at this epoch.
pub(crate) fn retire(
    log: &mut CountedLog<WorldReceipt>,
    queues: &mut Queues,
    epoch: u64,
) -> Result<bool, Stopped>
    requires agrees { Agrees log.old queues.old }
    ensures does { IfOk result (λ done. DoesRetire done epoch (beside_of log.old queues.old) (beside_of log.new queues.new)) }
    ensures log { OnOk result (log.new.log ≡ log.old.log) }
    ensures agrees { OnOk result (Agrees log.new queues.new) }
{
    let Some(receipt) = log.take_unlinked() else {
        return Ok(false);
    };
    let Ok(()) = queues.retired.push_back((receipt, epoch)) else {
        return Err(Stopped);
    };
    Ok(true)
}

/// The oldest retired place is drained.
pub(crate) fn drain(queues: &mut Queues) -> Result<bool, Stopped>
    ensures does { IfOk result (λ done. DoesDrain done queues.old queues.new) }
{
    let Some(one) = queues.retired.pop_front() else {
        return Ok(false);
    };
    match queues.drained.push_back(one) {
        Ok(()) => Ok(true),
        Err(_) => Err(Stopped),
    }
}

/// The oldest drained place is released: from now on, a read of it gives this page.
pub(crate) fn release(
    log: &mut CountedLog<WorldReceipt>,
    queues: &mut Queues,
    device: &mut WorldDevice,
    page: Arc<Page>,
) -> bool
    requires agrees { Agrees log.old queues.old }
    requires given { AreGiven queues.old.drained.items device.old }
    ensures does { DoesRelease result (arc_value page) log.old.log (beside_of log.old queues.old) device.old log.new.log (beside_of log.new queues.new) device.new }
    ensures alike { IsAlike log.old.log log.new.log }
    ensures same { SameLog log.old.log log.new.log }
    ensures agrees { Agrees log.new queues.new }
{
    let Some((receipt, _epoch)) = queues.drained.pop_front() else {
        return false;
    };
    device.show(receipt.place as usize, page);
    log.free_place();
    true
}

/// Room for writes of this weight in one stripe, and whether there is any: pages may leave their frames.
pub(crate) fn make_room(
    log: &mut CountedLog<WorldReceipt>,
    queues: &Queues,
    device: &mut WorldDevice,
    weight: usize,
) -> Result<bool, Stopped>
    requires weight { weight ≤ WEIGHT_MAX }
    requires agrees { Agrees log.old queues.now }
    requires served { AreServed log.old.log device.old }
    ensures agrees { OnOk result (Agrees log.new queues.now) }
    ensures served { OnOk result (AreServed log.new.log device.new) }
    ensures alike { OnOk result (IsAlike log.old.log log.new.log) }
    ensures same { OnOk result (SameLog log.old.log log.new.log) }
    ensures made { OnOk result (HasMadeRoom log.old.log device.old log.new.log device.new (beside_of log.old queues.now)) }
    ensures beside { OnOk result (beside_of log.new queues.now ≡ beside_of log.old queues.now) }
    ensures reserved { OnOk result ((count : ℕ) × IsReserved log.old.log log.new.log count) }
    ensures given { OnOk result (AreAllGiven device.old log.old.log (beside_of log.old queues.now) → AreAllGiven device.new log.new.log (beside_of log.new queues.now)) }
    ensures stays { OnOk result (StaysGiven device.old device.new) }
    ensures room { IfOk result (λ made. OnTrue made (HasRoom log.new.log weight)) }
    ensures full { IfOk result (λ made. OnFalse made (IsFull log.new.log)) }
{
    let _oldest = log.stripe().oldest();
    let _ = queues;
    match log.reserve(weight, Purpose::Clean, device) {
        Ok(()) => Ok(true),
        Err(Fault::StoreFull) => Ok(false),
        Err(Fault::DeviceFault) => Err(Stopped),
    }
}

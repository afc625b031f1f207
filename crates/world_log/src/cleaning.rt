//! The cleaner's step on one stripe, with the pages that it reads.

ghost use Rattle.std.specs.Prelude.{◌≡◌, ◌<◌, ◌≤◌, IfOk, OnOk, nat_lt};
ghost use Rattle.words.specs.declared.limits.TheConstants.{WEIGHT_MAX};
ghost use Rattle.hybrid.specs.HybridLog.{HasRoom, SameContents};
ghost use Rattle.hybrid.specs.Staging.{AreRight, IsMissing};
ghost use Rattle.hybrid.specs.Weighing.{oldest_weight};
ghost use Rattle.hybrid.specs.declared.stripe.TheConstants.{CLEAN_WEIGHT};
ghost use Rattle.world_log.specs.Beside.{Agrees, IsAlike, beside_of};
ghost use Rattle.world_log.specs.Cleaning.{AreServed, DoesUnlink, HasUnlinked, IsFetched};
ghost use Rattle.world_log.specs.Given.{AreAllGiven, KeepsGiven, StaysGiven};
ghost use Rattle.world_log.specs.Places.{SamePlaces};

use crate::laws::reads_change_no_place;
use crate::queues::Queues;
use crate::shelves::{WorldDevice, WorldReceipt};
use crate::stopped::Stopped;
use crate::works::make_room;
use device::Shows;
use hybrid::laws::reading_ends;
use hybrid::{Room, Staged, Stripe, Weighed};
use shards::counted::{Cleaning, CountedLog};
use std::alloc::Global;

/// Makes room for what lives in the oldest page, which is not resident, and unlinks it; and says whether it
/// did. It does not where the stripe is full.
pub(crate) fn unlink_oldest(
    alloc: Global,
    log: &mut CountedLog<WorldReceipt>,
    queues: &Queues,
    device: &mut WorldDevice,
) -> Result<bool, Stopped>
    requires agrees { Agrees log.old queues.now }
    requires served { AreServed log.old.log device.old }
    requires cold { log.old.log.oldest < log.old.log.resident.oldest }
    ensures does { IfOk result (λ done. DoesUnlink done log.old.log (beside_of log.old queues.now) device.old log.new.log (beside_of log.new queues.now) device.new) }
    ensures given { OnOk result (AreAllGiven device.old log.old.log (beside_of log.old queues.now) → AreAllGiven device.new log.new.log (beside_of log.new queues.now)) }
    ensures stays { OnOk result (StaysGiven device.old device.new) }
    ensures alike { OnOk result (IsAlike log.old.log log.new.log) }
    ensures agrees { OnOk result (Agrees log.new queues.now) }
    ensures same { OnOk result (SameContents log.old.log log.new.log) }
{
    let _oldest = log.stripe().oldest();
    let mut staged = Staged::new(alloc);
    let weight = weigh(log.stripe(), &mut staged, device)?;
    if !make_room(log, queues, device, weight)? {
        return Ok(false);
    }
    clean(log, queues, device, &mut staged, weight)?;
    Ok(true)
}

/// Whether the oldest page is not resident.
pub(crate) fn is_cold(stripe: &Stripe<WorldReceipt>) -> bool
    ensures { result ≡ nat_lt stripe.now.oldest stripe.now.resident.oldest }
{
    stripe.page(stripe.oldest()).is_none()
}

/// Reads the page of this number, of which a receipt is kept, and stages it.
fn fetch(
    stripe: &Stripe<WorldReceipt>,
    number: u64,
    staged: &mut Staged<WorldReceipt>,
    device: &mut WorldDevice,
) -> Result<(), Stopped>
    requires missing { IsMissing stripe.now staged.old number }
    requires served { AreServed stripe.now device.old }
    ensures fetched { OnOk result (IsFetched stripe.now number staged.old staged.new) }
    ensures right { OnOk result (AreRight staged.old → AreRight staged.new) }
    ensures places { OnOk result (SamePlaces device.old device.new) }
{
    reads_change_no_place();
    let Some(receipt) = stripe.receipt(number) else {
        unreachable!()
    };
    let Ok(receipt) = receipt.again() else {
        return Err(Stopped);
    };
    match staged.read(receipt, device) {
        Ok(()) => Ok(()),
        Err(_) => Err(Stopped),
    }
}

/// What the live records of the oldest page weigh, which is not resident; pages that are wanted for that are
/// read.
fn weigh(
    stripe: &Stripe<WorldReceipt>,
    staged: &mut Staged<WorldReceipt>,
    device: &mut WorldDevice,
) -> Result<usize, Stopped>
    requires cold { stripe.now.oldest < stripe.now.resident.oldest }
    requires served { AreServed stripe.now device.old }
    requires right { AreRight staged.old }
    ensures weight { IfOk result (λ weight. weight ≡ oldest_weight stripe.now) }
    ensures most { IfOk result (λ weight. weight ≤ CLEAN_WEIGHT) }
    ensures right { OnOk result (AreRight staged.new) }
    ensures places { OnOk result (SamePlaces device.old device.new) }
{
    reading_ends();
    loop {
        match stripe.weigh_oldest(staged) {
            Weighed::Live(weight) => return Ok(weight),
            Weighed::Cold(number) => fetch(stripe, number, staged, device)?,
            Weighed::Resident => unreachable!(),
        }
    }
}

/// Copies the live records of the oldest page, which is not resident, to the tail, where there is room for
/// them, and unlinks its place; pages that are wanted for that are read.
fn clean(
    log: &mut CountedLog<WorldReceipt>,
    queues: &Queues,
    device: &mut WorldDevice,
    staged: &mut Staged<WorldReceipt>,
    weight: usize,
) -> Result<(), Stopped>
    requires agrees { Agrees log.old queues.now }
    requires cold { log.old.log.oldest < log.old.log.resident.oldest }
    requires served { AreServed log.old.log device.old }
    requires right { AreRight staged.old }
    requires room { HasRoom log.old.log weight }
    requires enough { oldest_weight log.old.log ≤ weight }
    requires most { weight ≤ WEIGHT_MAX }
    ensures does { OnOk result (HasUnlinked log.old.log (beside_of log.old queues.now) log.new.log (beside_of log.new queues.now)) }
    ensures given { OnOk result (KeepsGiven log.old.log (beside_of log.old queues.now) log.new.log (beside_of log.new queues.now)) }
    ensures agrees { OnOk result (Agrees log.new queues.now) }
    ensures alike { OnOk result (IsAlike log.old.log log.new.log) }
    ensures same { OnOk result (SameContents log.old.log log.new.log) }
    ensures places { OnOk result (SamePlaces device.old device.new) }
{
    reading_ends();
    let _ = queues;
    let _oldest = log.stripe().oldest();
    loop {
        match log.clean_oldest(staged, Room { weight }) {
            Cleaning::Unlinked => return Ok(()),
            Cleaning::Cold(number) => fetch(log.stripe(), number, staged, device)?,
            Cleaning::Heavy(_weight) => unreachable!(),
            Cleaning::Resident => unreachable!(),
        }
    }
}

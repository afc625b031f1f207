//! The cleaner's step at a stripe.

ghost use Rattle.std.specs.Prelude.{◌≡◌, ◌≤◌, true, IfNone, IfOk, IfErr, IfSome, OnOk, OnErr};
ghost use Rattle.epoch.specs.Seats.{IsOutside, WasWorn, known};
ghost use Rattle.gates.specs.Background.{IsStep};
ghost use Rattle.gates.specs.declared.view.Refused.{Refused};
ghost use Rattle.gates.specs.declared.view.Work.TheVariants.{Clean};
ghost use Rattle.words.specs.declared.limits.TheConstants.{WEIGHT_MAX};
ghost use Rattle.hybrid.specs.HybridLog.{HasRoom};
ghost use Rattle.hybrid.specs.Staging.{AreRight, IsMissing};
ghost use Rattle.shards.specs.Cleaning.{FailsSo, HasCleaned, HasMade, HasMadeRoom, HasUnlinkedOldest, HasWeighed, IfCold, IsFetched};
ghost use Rattle.shards.specs.Cleaning.{IsGivenBack, IsWanted, IsWeighed, KeepsMeaning, KeepsOldest, KeepsRecords, LacksPlaces, MayBeTold};
ghost use Rattle.shards.specs.Cleaning.{PageWorn, ReadFailed, SameWaiting, SpentWorn, StepWorn, UnlinksOldest};
ghost use Rattle.shards.specs.Cleaning.{WasNotDrained, WasNotRetired, WeighsOldest};
ghost use Rattle.shards.specs.Heard.{HasTried, HasTriedOutside};
ghost use Rattle.shards.specs.Logs.{HeavyIsOldest};
ghost use Rattle.shards.specs.Shards.{shard_counted, shard_log, shard_marks, shard_pages, shard_store};

use crate::counted::{Cleaning, Moved};
use crate::shard::Shard;
use device::{Device, Shows};
use epoch::{EpochSeat, Epochs};
use gates::Refused;
use hybrid::laws::reading_ends;
use hybrid::{CLEAN_WEIGHT, Purpose, Room, Staged, Stripe, Weighed};
use words::reply::Fault;

/// What the cleaner's step came to.
#[derive(Clone, Copy, Debug)]
pub enum Stepped {
    /// One place is a step nearer to its release, or released.
    Done,
    /// There was nothing to do, but for what the epochs refused.
    Idle(Refused),
    /// A page has to be written, or opened, for which no place is left, and none can be released, but for what the epochs
    /// refused.
    Full(Refused),
    /// A page is needed that is neither resident, nor lent by its receipt, nor staged.
    Cold(u64),
}

/// A turn of the cleaner that comes to the oldest page.
#[derive(Clone, Copy, Debug)]
struct Turn {
    /// Whether pages that are wanted are read meanwhile.
    reads: bool,
    /// What the epochs refused before: it is told where the page is resident.
    refused: Refused,
}

/// The oldest page, as it is to leave the log.
#[derive(Clone, Copy, Debug)]
struct Oldest {
    /// What its live records weigh.
    weight: usize,
    /// Whether pages that are wanted are read meanwhile.
    reads: bool,
}

/// What came of room that was to be made.
#[derive(Clone, Copy, Debug)]
enum Made {
    /// There is room.
    Room,
    /// No place is left, and none can be released, but for what the epochs refused.
    Full(Refused),
}

impl<R: Shows> Shard<R> {
    /// The first of these that can be done: to give the oldest drained receipt back to the device, to drain the oldest
    /// retired one, to retire the oldest unlinked one, and to take the oldest page out of the log, whose live records are
    /// copied to the tail. Where these have no room, each place that can be released is released first. What keys have and
    /// marks stay, over a steady device. Where `reads`, pages that are wanted are read meanwhile.
    ///
    /// # Errors
    ///
    /// [`Fault::OutOfMemory`] where there is no memory for a page that is read; [`Fault::DeviceFault`] where a call of the
    /// device failed.
    pub fn clean_step<D: Device<Receipt = R>>(
        &mut self,
        epochs: &Epochs,
        seat: &mut EpochSeat,
        staged: &mut Staged<R>,
        reads: bool,
        device: &mut D,
    ) -> Result<Stepped, Fault>
        requires outside { IsOutside epochs.now seat.old }
        ensures seat { HasTriedOutside epochs.now seat.old seat.new }
        ensures meaning { KeepsMeaning R.is_steady (self.old, staged.old) (self.new, staged.new) }
        ensures done { IfOk result (λ step. MayBeTold step (shard_pages self.old) (shard_pages self.new)) }
        ensures worn { IfOk result (λ step. StepWorn step (known seat.old) (known seat.new)) }
        ensures cold { IfOk result (λ step. IfCold step (IsWanted reads R.lends self.new staged.new)) }
        ensures lacks { R.is_steady → AreRight staged.old → IfOk result (λ step. LacksPlaces step self.old self.new) }
        ensures given_back { IsGivenBack (shard_counted self.old) (shard_counted self.new) (D.releases device.old) (D.releases device.new) }
        ensures failed { FailsSo (R.lends → ⊥) result (D.failures device.old) (D.failures device.new) }
    {
        if self.release(device) {
            return Ok(Stepped::Done);
        }
        let Some(drain) = self.drains() else {
            return Ok(Stepped::Done);
        };
        let Some(retire) = self.retires(epochs, seat) else {
            return Ok(Stepped::Done);
        };
        let turn = Turn {
            reads,
            refused: Refused { retire, drain },
        };
        self.clean(epochs, seat, staged, turn, device)
    }

    /// Drains the oldest retired receipt. Where it does not, it says whether that was refused.
    fn drains(&mut self) -> Option<bool>
        ensures store { shard_store self.new ≡ shard_store self.old }
        ensures marks { shard_marks self.new ≡ shard_marks self.old }
        ensures done { IfNone result ((refused : Refused) → IsStep (Clean refused) (shard_pages self.old) (shard_pages self.new)) }
        ensures left { IfSome result (λ refused. WasNotDrained refused (shard_counted self.old) (shard_counted self.new)) }
    {
        match self.drain() {
            Moved::Done => None,
            Moved::Nothing => Some(false),
            Moved::Refused => Some(true),
        }
    }

    /// Retires the oldest unlinked receipt. Where it does not, it says whether that was refused.
    fn retires(&mut self, epochs: &Epochs, seat: &mut EpochSeat) -> Option<bool>
        requires outside { IsOutside epochs.now seat.old }
        ensures outside { IsOutside epochs.now seat.new }
        ensures store { shard_store self.new ≡ shard_store self.old }
        ensures marks { shard_marks self.new ≡ shard_marks self.old }
        ensures done { IfNone result ((refused : Refused) → IsStep (Clean refused) (shard_pages self.old) (shard_pages self.new)) }
        ensures drained { (shard_counted self.new).drained ≡ (shard_counted self.old).drained }
        ensures left { IfSome result (λ refused. WasNotRetired refused (shard_counted self.old) (shard_counted self.new)) }
        ensures worn { IfSome result (λ refused. refused ≡ true → WasWorn (known seat.old) (known seat.new)) }
        ensures tried { HasTried (known seat.old) (known seat.new) }
    {
        match self.retire(epochs, seat) {
            Moved::Done => None,
            Moved::Nothing => Some(false),
            Moved::Refused => Some(true),
        }
    }

    /// Makes room for what lives in the oldest page, copies it to the tail and takes the page out of the log, where it is not
    /// resident. Where there is room for all that a page can hold, what lives is not weighed first.
    fn clean<D: Device<Receipt = R>>(
        &mut self,
        epochs: &Epochs,
        seat: &mut EpochSeat,
        staged: &mut Staged<R>,
        turn: Turn,
        device: &mut D,
    ) -> Result<Stepped, Fault>
        requires outside { IsOutside epochs.now seat.old }
        ensures seat { HasTriedOutside epochs.now seat.old seat.new }
        ensures meaning { KeepsMeaning R.is_steady (self.old, staged.old) (self.new, staged.new) }
        ensures cleaned { IfOk result (λ step. HasCleaned turn.reads R.lends step turn.refused staged.new self.old self.new) }
        ensures worn { IfOk result (λ step. PageWorn step seat.old seat.new) }
        ensures lacks { R.is_steady → AreRight staged.old → IfOk result (λ step. LacksPlaces step self.old self.new) }
        ensures failed { FailsSo (R.lends → ⊥) result (D.failures device.old) (D.failures device.new) }
    {
        if self.log.stripe().has_room(CLEAN_WEIGHT) {
            return match self.unlink(staged, turn.reads, CLEAN_WEIGHT, device) {
                Ok(Cleaning::Unlinked) => Ok(Stepped::Done),
                Ok(Cleaning::Cold(number)) => Ok(Stepped::Cold(number)),
                Ok(Cleaning::Heavy(_weight)) => unreachable!(),
                Ok(Cleaning::Resident) => Ok(Stepped::Idle(turn.refused)),
                Err(fault) => Err(fault),
            };
        }
        match self.weigh(staged, turn.reads, device) {
            Ok(Weighed::Live(weight)) => {
                let oldest = Oldest {
                    weight,
                    reads: turn.reads,
                };
                self.leave(epochs, seat, staged, oldest, device)
            }
            Ok(Weighed::Cold(number)) => Ok(Stepped::Cold(number)),
            Ok(Weighed::Resident) => Ok(Stepped::Idle(turn.refused)),
            Err(fault) => Err(fault),
        }
    }

    /// Makes room for what lives in the oldest page, which is not resident and was weighed, and takes the page out of the log.
    fn leave<D: Device<Receipt = R>>(
        &mut self,
        epochs: &Epochs,
        seat: &mut EpochSeat,
        staged: &mut Staged<R>,
        oldest: Oldest,
        device: &mut D,
    ) -> Result<Stepped, Fault>
        requires outside { IsOutside epochs.now seat.old }
        requires weighed { IsWeighed R.is_steady staged.old oldest.weight (shard_log self.old) }
        ensures seat { HasTriedOutside epochs.now seat.old seat.new }
        ensures meaning { KeepsMeaning R.is_steady (self.old, staged.old) (self.new, staged.new) }
        ensures cleaned { IfOk result (λ step. HasUnlinkedOldest oldest.reads R.lends step staged.new self.old self.new) }
        ensures worn { IfOk result (λ step. SpentWorn step (known seat.old) (known seat.new)) }
        ensures lacks { R.is_steady → AreRight staged.old → IfOk result (λ step. LacksPlaces step self.old self.new) }
        ensures failed { FailsSo (R.lends → ⊥) result (D.failures device.old) (D.failures device.new) }
    {
        let mut weight = oldest.weight;
        'leaving: loop {
            match self.make_room(epochs, seat, weight, device) {
                Ok(Made::Room) => {}
                Ok(Made::Full(refused)) => return Ok(Stepped::Full(refused)),
                Err(fault) => return Err(fault),
            }
            match self.unlink(staged, oldest.reads, weight, device) {
                Ok(Cleaning::Unlinked) => return Ok(Stepped::Done),
                Ok(Cleaning::Cold(number)) => return Ok(Stepped::Cold(number)),
                // What a device lied of may weigh another time.
                Ok(Cleaning::Heavy(_weight)) => weight = CLEAN_WEIGHT,
                Ok(Cleaning::Resident) => unreachable!(),
                Err(fault) => return Err(fault),
            }
        }
    }

    /// What the live records of the oldest page weigh, where it is not resident.
    fn weigh<D: Device<Receipt = R>>(
        &self,
        staged: &mut Staged<R>,
        reads: bool,
        device: &mut D,
    ) -> Result<Weighed, Fault>
        ensures right { R.is_steady → AreRight staged.old → AreRight staged.new }
        ensures weighed { IfOk result (λ weighed. HasWeighed weighed (IsWanted reads R.lends self.now staged.new) (shard_log self.now)) }
        ensures weighs { R.is_steady → AreRight staged.new → IfOk result (λ weighed. WeighsOldest weighed (shard_log self.now)) }
        ensures kept { IfOk result (λ weighed. KeepsOldest weighed (shard_log self.now)) }
        ensures no_release { D.releases device.new ≡ D.releases device.old }
        ensures failed { FailsSo (R.lends → ⊥) result (D.failures device.old) (D.failures device.new) }
    {
        reading_ends();
        loop {
            match self.log.stripe().weigh_oldest(staged) {
                Weighed::Cold(number) => {
                    if !reads {
                        return Ok(Weighed::Cold(number));
                    }
                    if let Err(fault) = fetch(self.log.stripe(), number, staged, device) {
                        return Err(fault);
                    }
                }
                weighed => return Ok(weighed),
            }
        }
    }

    /// Makes room for writes of this weight. It may take the frames that calls leave for it. Where no place is left, it releases
    /// each place that can be released, and tries again.
    fn make_room<D: Device<Receipt = R>>(
        &mut self,
        epochs: &Epochs,
        seat: &mut EpochSeat,
        weight: usize,
        device: &mut D,
    ) -> Result<Made, Fault>
        requires outside { IsOutside epochs.now seat.old }
        requires weight { weight ≤ WEIGHT_MAX }
        ensures seat { HasTriedOutside epochs.now seat.old seat.new }
        ensures room { IfOk result (λ made. HasMade made weight (known seat.old) (known seat.new) self.old self.new) }
        ensures store { shard_store self.new ≡ shard_store self.old }
        ensures marks { shard_marks self.new ≡ shard_marks self.old }
        ensures made { HasMadeRoom (shard_counted self.old) (shard_counted self.new) }
        ensures records { KeepsRecords (shard_log self.old) (shard_log self.new) }
        ensures failed { FailsSo ⊥ result (D.failures device.old) (D.failures device.new) }
    {
        match self.reserve(weight, Purpose::Clean, device) {
            Ok(()) => return Ok(Made::Room),
            Err(hybrid::Fault::DeviceFault) => return Err(Fault::DeviceFault),
            Err(hybrid::Fault::StoreFull) => {}
        }
        let freed = self.free_places(epochs, seat, device);
        match self.reserve(weight, Purpose::Clean, device) {
            Ok(()) => Ok(Made::Room),
            Err(hybrid::Fault::DeviceFault) => Err(Fault::DeviceFault),
            Err(hybrid::Fault::StoreFull) => Ok(Made::Full(freed.refused)),
        }
    }

    /// Takes the oldest page out of the log, where it is not resident and there is room for its live records.
    fn unlink<D: Device<Receipt = R>>(
        &mut self,
        staged: &mut Staged<R>,
        reads: bool,
        weight: usize,
        device: &mut D,
    ) -> Result<Cleaning, Fault>
        requires room { HasRoom (shard_log self.old) weight }
        ensures meaning { KeepsMeaning R.is_steady (self.old, staged.old) (self.new, staged.new) }
        ensures unlinked { IfOk result (λ cleaning. UnlinksOldest reads R.lends cleaning weight staged.new self.old self.new) }
        ensures weighed { R.is_steady → AreRight staged.new → IfOk result (λ cleaning. HeavyIsOldest cleaning (shard_log self.old)) }
        ensures same { OnErr result (self.new ≡ self.old) }
        ensures waiting { SameWaiting (shard_counted self.old) (shard_counted self.new) }
        ensures no_release { D.releases device.new ≡ D.releases device.old }
        ensures failed { FailsSo (R.lends → ⊥) result (D.failures device.old) (D.failures device.new) }
    {
        reading_ends();
        loop {
            match self.log.clean_oldest(staged, Room { weight }) {
                Cleaning::Cold(number) => {
                    if !reads {
                        return Ok(Cleaning::Cold(number));
                    }
                    if let Err(fault) = fetch(self.log.stripe(), number, staged, device) {
                        return Err(fault);
                    }
                }
                cleaning => return Ok(cleaning),
            }
        }
    }
}

/// Reads the page of this number, of which a receipt is kept, and stages it.
fn fetch<R: Shows, D: Device<Receipt = R>>(
    log: &Stripe<R>,
    number: u64,
    staged: &mut Staged<R>,
    device: &mut D,
) -> Result<(), Fault>
    requires missing { IsMissing log.now staged.old number }
    ensures fetched { OnOk result (IsFetched log.now number staged.old staged.new) }
    ensures right { R.is_steady → AreRight staged.old → AreRight staged.new }
    ensures no_release { D.releases device.new ≡ D.releases device.old }
    ensures fault { IfErr result (λ fault. ReadFailed fault (D.failures device.old) (D.failures device.new)) }
    ensures no_fault { OnOk result (D.failures device.new ≡ D.failures device.old) }
{
    let Some(receipt) = log.receipt(number) else {
        unreachable!()
    };
    let Ok(receipt) = receipt.again() else {
        return Err(Fault::OutOfMemory);
    };
    staged.read(receipt, device)?;
    Ok(())
}

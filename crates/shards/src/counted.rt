//! The log of a stripe, with what becomes of its places on the device.

ghost use Rattle.std.specs.Prelude.{◌≡◌, ◌+◌, ◌<◌, ◌≤◌, ℕ, List, [], None, Some, IsSome, IsTrue, ⊤, ◌↔◌, IfOk, IfSome, IfNone};
ghost use Rattle.std.specs.Prelude.{OnOk, OnErr, length};
ghost use Rattle.std.specs.Bool.{OnTrue, OnFalse};
ghost use Rattle.std.specs.Option.{option_copied};
ghost use Rattle.records.specs.Records.{value_bytes};
ghost use Rattle.words.specs.Stripes.{hash_of};
ghost use Rattle.words.specs.declared.limits.TheConstants.{WEIGHT_MAX};
ghost use Rattle.hybrid.specs.HybridLog.{HasRoom, IsGrown, IsHybridLog, log_of, receipt_of, with_dropped};
ghost use Rattle.hybrid.specs.Log.{Fits, contents};
ghost use Rattle.hybrid.specs.Lookups.{IsInPlace};
ghost use Rattle.hybrid.specs.Reserving.{IsFull};
ghost use Rattle.hybrid.specs.Writing.{IsAdded, IsWritten, write_weight};
ghost use Rattle.hybrid.specs.Staging.{AreRight, IsMissing};
ghost use Rattle.gates.specs.Pages.{total};
ghost use Rattle.shards.specs.Counted.{HasLanded, HasReleased, HasTaken, HasTurned, HasUnlinked, IsCounted, MatchBegun, MatchCleaning};
ghost use Rattle.shards.specs.Counted.{MatchMoved, claimed, waiting_of, with_flight, without_flight};
ghost use Rattle.shards.specs.Devices.{StillServes};
ghost use Rattle.shards.specs.Logs.{BeginsAt, CleansRightly, DrainsOldest, FailsToReserve, HasShedSo, IsTooHeavy, KeepsContent, OldestLies};
ghost use Rattle.shards.specs.Logs.{RetiresAs, RetiresOldest, SetsKey, TakesRoom, counted_alone, log_by};
ghost use Rattle.shards.specs.Receipts.{kept_by};
ghost use Rattle.shards.specs.Rooms.{LacksRoom, LeavesFrames, ShedsFew};

use crate::retires::Retires;
use device::{Device, Releasable, Shows};
use epoch::{Epochs, Retired};
use hybrid::{Cleaned, Fault, Purpose, Room, Spot, Staged, Stripe, Write};
use records::Page;
use std::alloc::Global;
use std::collections::VecDeque;
use std::marker::Model;
use words::limits::Limits;
use words::word::OutOfMemory;

/// How a flush begins.
#[derive(Clone, Copy, Debug, PartialEq, Eq)]
pub enum Begun {
    /// No page waits to be written.
    Idle,
    /// One does, and no place may be taken for it.
    Full,
    /// The page of this number was copied, and a place is counted for it.
    Sealed(u64),
}

/// What a step at the oldest page came to.
#[derive(Clone, Copy, Debug, PartialEq, Eq)]
pub enum Cleaning {
    /// The oldest page has left the log, and its receipt is unlinked.
    Unlinked,
    /// A page is needed that is neither resident, nor lent by its receipt, nor staged.
    Cold(u64),
    /// The oldest page's live records weigh so much, for which there was too little room.
    Heavy(usize),
    /// The oldest page is resident, and does not leave.
    Resident,
}

/// The log is laid out as a hybrid log is, and its places keep to their limit. It does nothing.
#[inline]
pub(crate) fn is_laid_out<R: Shows>(log: &Stripe<R>)
    ensures log { IsHybridLog log.now }
    ensures limit { log.now.unreleased ≤ log.now.places }
{
    let (_oldest, _limit) = (log.oldest(), log.unreleased());
}

/// What a step at the oldest place of a list came to.
#[derive(Clone, Copy, Debug, PartialEq, Eq)]
pub enum Moved {
    /// It is in the next list.
    Done,
    /// The list is empty.
    Nothing,
    /// The epochs refused it, and it stays.
    Refused,
}

/// The log of a stripe, with what becomes of its places on the device. Each place that was taken and not released is that
/// of a receipt which the log keeps, of a page that is being written, or of a page that is not in the log: none is lost.
///
/// Each list has room for all places from the start, so that no step takes memory.
#[derive(Drop)]
pub struct CountedLog<R: Shows> {
    stripe: Stripe<R>,
    /// The places whose receipts somebody else has: of pages that are being written, and of receipts that were taken out.
    in_flight: usize,
    /// The receipts of pages that are not in the log, the oldest first.
    unlinked: VecDeque<R>,
    /// Those that were retired, the oldest first.
    retired: VecDeque<Retired<R>>,
    /// Those whose epoch is drained, the oldest first.
    drained: VecDeque<Releasable<R>>,
    /// Whether a retirement was refused: the epoch word was read as worn out, which it stays.
    worn: bool,
    /// Where the oldest page is gone over: the log changes meanwhile.
    copy: Page,
}

impl<R: Shows> Model for CountedLog<R> {
    ghost use Rattle.std.specs.Prelude.{◌≤◌};
    ghost use Rattle.std.specs.VecDeque.{deque_capacity};
    ghost use Rattle.shards.specs.Counted.{Counted, IsCounted};
    ghost use Rattle.shards.specs.Receipts.{counted_in};

    ghost Value = { Counted };

    ghost view = { λ c. counted_in R.identity R.shown c.stripe c.in_flight c.unlinked.items c.retired.items c.drained.items c.worn };

    ghost invariant = { λ c.
        IsCounted (counted_in R.identity R.shown c.stripe c.in_flight c.unlinked.items c.retired.items c.drained.items c.worn)
        × (c.stripe.places ≤ deque_capacity c.unlinked) × (c.stripe.places ≤ deque_capacity c.retired)
        × (c.stripe.places ≤ deque_capacity c.drained) };
}

impl<R: Shows> CountedLog<R> {
    /// An empty log, none of whose places is taken.
    ///
    /// # Errors
    ///
    /// [`OutOfMemory`] where there is no memory for its frames, its buckets, its lists or a page.
    pub fn new(alloc: Global, limits: &Limits) -> Result<CountedLog<R>, OutOfMemory>
        ensures empty { IfOk result (λ made. made ≡ counted_alone (log_by limits.now)) }
        ensures contents { IfOk result (λ made. (key : List ℕ) → contents (log_of made.log) key ≡ None) }
    {
        let stripe = Stripe::new(alloc, limits)?;
        let unlinked = VecDeque::with_capacity(alloc, limits.places)?;
        let retired = VecDeque::with_capacity(alloc, limits.places)?;
        let drained = VecDeque::with_capacity(alloc, limits.places)?;
        let copy = Page::blank(alloc)?;
        Ok(CountedLog {
            stripe,
            in_flight: 0,
            unlinked,
            retired,
            drained,
            worn: false,
            copy,
        })
    }

    /// The log.
    #[inline]
    pub fn stripe(&self) -> &Stripe<R>
        ensures log { result.now ≡ self.now.log }
        ensures counted { IsCounted self.now }
    {
        &self.stripe
    }

    /// What is counted of it agrees with its log. It does nothing.
    #[inline]
    pub(crate) fn is_counted(&self)
        ensures { IsCounted self.now }
    {
        let _counted = self.stripe();
    }

    /// Makes room for writes of this weight, as [`Stripe::reserve`] does.
    ///
    /// # Errors
    ///
    /// As there.
    pub fn reserve<D: Device<Receipt = R>>(
        &mut self,
        weight: usize,
        purpose: Purpose,
        device: &mut D,
    ) -> Result<(), Fault>
        requires light { weight ≤ WEIGHT_MAX }
        ensures room { OnOk result (HasRoom self.new.log weight) }
        ensures same { KeepsContent self.old self.new }
        ensures shed { HasShedSo D.failures D.wrote R.identity R.shown (self.old.log, device.old) (self.new.log, device.new) }
        ensures few { ShedsFew weight purpose self.old.log self.new.log }
        ensures lacks { OnErr result (LacksRoom weight purpose self.old.log self.new.log) }
        ensures kept { OnOk result (LeavesFrames weight purpose self.old.log self.new.log) }
        ensures device { StillServes D.serves D.releases device.old device.new }
        ensures failed { FailsToReserve result self.new.log (D.failures device.old) (D.failures device.new) }
    {
        self.stripe.reserve(weight, purpose, device)?;
        Ok(())
    }

    /// Makes one write, for which there is room, by the hash of its key. It takes no memory.
    #[inline]
    pub fn install_one<W: Write>(&mut self, hash: u64, write: &W)
        requires hash { hash ≡ hash_of (W.key write.now) }
        requires room { HasRoom self.old.log (write_weight (W.key write.now) (W.value write.now)) }
        requires fits { Fits (W.key write.now) (W.value write.now) }
        ensures written { IsWritten self.old.log (W.key write.now) (W.value write.now) self.new.log }
        ensures contents { SetsKey (W.key write.now) (W.value write.now) self.old.log self.new.log }
        ensures room { TakesRoom (write_weight (W.key write.now) (W.value write.now)) self.old.log self.new.log }
        ensures grown { IsGrown self.old.log self.new.log (write_weight (W.key write.now) (W.value write.now)) }
        ensures waits { waiting_of self.new ≡ waiting_of self.old }
    {
        self.stripe.install_one_hashed(hash, write);
    }

    /// Makes one write at the tail, for which there is room, by the hash of its key. It takes no memory.
    #[inline]
    pub fn append_one<W: Write>(&mut self, hash: u64, write: &W)
        requires hash { hash ≡ hash_of (W.key write.now) }
        requires room { HasRoom self.old.log (write_weight (W.key write.now) (W.value write.now)) }
        requires fits { Fits (W.key write.now) (W.value write.now) }
        ensures added { (address : ℕ) × IsAdded self.old.log self.new.log address (W.key write.now) (W.value write.now) }
        ensures contents { SetsKey (W.key write.now) (W.value write.now) self.old.log self.new.log }
        ensures room { TakesRoom (write_weight (W.key write.now) (W.value write.now)) self.old.log self.new.log }
        ensures grown { IsGrown self.old.log self.new.log (write_weight (W.key write.now) (W.value write.now)) }
        ensures waits { waiting_of self.new ≡ waiting_of self.old }
    {
        self.stripe.append_one(hash, write);
    }

    /// Gives a key another value in place, or none, where its newest record has room for that. It takes no memory and no room.
    #[inline]
    pub fn overwrite_at(&mut self, key: &[u8], spot: Spot, value: Option<&[u8]>)
        requires place { IsInPlace self.old.log key.now (length (value_bytes (option_copied value))) spot.address }
        requires fits { Fits key.now (option_copied value) }
        ensures written { IsWritten self.old.log key.now (option_copied value.entry) self.new.log }
        ensures contents { SetsKey key.now (option_copied value.entry) self.old.log self.new.log }
        ensures grown { IsGrown self.old.log self.new.log (write_weight key.now (option_copied value.entry)) }
        ensures waits { waiting_of self.new ≡ waiting_of self.old }
    {
        self.stripe.overwrite_at(key, spot, value);
    }

    /// Drops the oldest resident page from its frame, where its receipt is kept, and says whether it did.
    pub fn drop_oldest(&mut self) -> bool
        ensures exact { IsTrue result ↔ IsSome (receipt_of self.old.log self.old.log.resident.oldest) }
        ensures dropped { OnTrue result (self.new ≡ record self.old { log = with_dropped self.old.log }) }
        ensures same { OnFalse result (self.new ≡ self.old) }
        ensures log { log_of self.new.log ≡ log_of self.old.log }
    {
        self.stripe.drop_oldest()
    }

    /// Copies the oldest page that waits to be written, and counts a place for it.
    pub fn begin_flush(&mut self, page: &mut Page) -> Begun
        ensures begun { BeginsAt result self.old.log page.new }
        ensures counted { MatchBegun result (self.new ≡ self.old) (self.new ≡ self.old) (λ number. self.new ≡ with_flight self.old) }
        ensures log { log_of self.new.log ≡ log_of self.old.log }
    {
        is_laid_out(&self.stripe);
        let Some(number) = self.stripe.sealed() else {
            return Begun::Idle;
        };
        let Some(sealed) = self.stripe.page(number) else {
            unreachable!()
        };
        page.copy_from(sealed);
        if !self.stripe.take_place() {
            return Begun::Full;
        }
        is_laid_out(&self.stripe);
        self.in_flight += 1; // of the page that is to be written
        Begun::Sealed(number)
    }

    /// Sees to it that a place is counted for a page that was written, and says whether one is: it was counted before
    /// the write, and else one is taken now.
    pub fn claim(&mut self) -> bool
        ensures claimed { OnTrue result (self.new ≡ claimed self.old) }
        ensures some { OnTrue result (0 < self.new.in_flight) }
        ensures full { OnFalse result (IsFull self.old.log) }
        ensures none { OnFalse result (self.old.in_flight ≡ 0) }
        ensures same { OnFalse result (self.new ≡ self.old) }
        ensures log { log_of self.new.log ≡ log_of self.old.log }
    {
        if self.in_flight > 0 {
            return true;
        }
        if !self.stripe.take_place() {
            return false;
        }
        self.in_flight = 1;
        true
    }

    /// Keeps the receipt of a page that was written, where the page is still as it was written. Else the receipt counts
    /// as unlinked. The place was counted before.
    pub fn land(&mut self, number: u64, page: &Page, receipt: R)
        requires shown { R.shown receipt ≡ page.now }
        requires some { 0 < self.old.in_flight }
        ensures landed { HasLanded self.old number page.now (kept_by R.identity R.shown receipt) self.new }
        ensures log { log_of self.new.log ≡ log_of self.old.log }
    {
        is_laid_out(&self.stripe);
        self.in_flight -= 1;
        match self.stripe.mark_flushed(number, page, receipt) {
            Ok(()) => {}
            Err(receipt) => self.unlinked.push_back_reserved(receipt),
        }
    }

    /// Counts a place in flight off, where there is one: its page could not be written, or its receipt was released.
    pub fn free_place(&mut self)
        ensures freed { self.new ≡ without_flight self.old }
        ensures log { log_of self.new.log ≡ log_of self.old.log }
    {
        if self.in_flight == 0 {
            return;
        }
        self.in_flight -= 1;
        self.stripe.free_place(); // its page could not be written, or its receipt was released
    }

    /// Takes the oldest page out of the log, where it is not resident, once its live records were copied to the tail; its
    /// receipt is then unlinked. It takes no memory.
    pub fn clean_oldest(&mut self, staged: &Staged<R>, room: Room) -> Cleaning
        requires room { HasRoom self.old.log room.weight }
        ensures right { R.is_honest → AreRight staged.now → CleansRightly result self.old.log self.new.log }
        ensures unlinked { MatchCleaning result (HasUnlinked self.old self.new room.weight) (λ number. ⊤) (λ weight. ⊤) ⊤ }
        ensures unchanged { MatchCleaning result ⊤ (λ number. self.new ≡ self.old) (λ weight. self.new ≡ self.old) (self.new ≡ self.old) }
        ensures cold { MatchCleaning result ⊤ (λ number. IsMissing self.old.log staged.now number) (λ weight. ⊤) ⊤ }
        ensures lent { R.lends → MatchCleaning result ⊤ (λ number. ⊥) (λ weight. ⊤) ⊤ }
        ensures heavy { MatchCleaning result ⊤ (λ number. ⊤) (λ weight. IsTooHeavy room.weight weight) ⊤ }
        ensures resident { OldestLies result self.old.log }
    {
        is_laid_out(&self.stripe);
        match self.stripe.clean_oldest(staged, room, &mut self.copy) {
            Cleaned::Unlinked(receipt) => {
                is_laid_out(&self.stripe);
                self.unlinked.push_back_reserved(receipt);
                Cleaning::Unlinked
            }
            Cleaned::Cold(number, _room) => Cleaning::Cold(number),
            Cleaned::Heavy(weight) => Cleaning::Heavy(weight),
            Cleaned::Nothing => Cleaning::Resident,
        }
    }

    /// Takes the oldest unlinked receipt out, if there is one: its place counts as in flight from now on, until
    /// `free_place`.
    pub fn take_unlinked(&mut self) -> Option<R>
        ensures taken { IfSome result (λ receipt. HasTaken self.old (kept_by R.identity R.shown receipt) self.new) }
        ensures none { IfNone result ((self.old.unlinked ≡ []) × (self.new ≡ self.old)) }
    {
        is_laid_out(&self.stripe);
        let receipt = self.unlinked.pop_front()?;
        self.in_flight += 1;
        Some(receipt)
    }

    /// Retires the oldest unlinked receipt.
    pub fn retire<S: Retires>(&mut self, epochs: &Epochs, own: &mut S) -> Moved
        requires is { S.is_of epochs.now own.old }
        ensures is { S.is_of epochs.now own.new }
        ensures retired { RetiresOldest result self.old self.new }
        ensures told { RetiresAs S.knows result own.old own.new }
    {
        is_laid_out(&self.stripe);
        let Some(receipt) = self.unlinked.pop_front() else {
            return Moved::Nothing;
        };
        match own.retire(epochs, receipt) {
            Ok(retired) => {
                self.retired.push_back_reserved(retired);
                Moved::Done
            }
            Err(receipt) => {
                self.unlinked.push_front_reserved(receipt);
                self.worn = true;
                Moved::Refused
            }
        }
    }

    /// Drains the oldest retired receipt: looks whether a stay is left that may have begun before it was retired.
    pub fn drain(&mut self) -> Moved
        ensures drained { DrainsOldest result self.old self.new }
        ensures more { MatchMoved result ⊤ ⊤ (total self.old.refused < total self.new.refused) }
    {
        is_laid_out(&self.stripe);
        let Some(retired) = self.retired.pop_front() else {
            return Moved::Nothing;
        };
        match Releasable::drain(retired) {
            Ok(drained) => {
                self.drained.push_back_reserved(drained);
                Moved::Done
            }
            Err(retired) => {
                self.retired.push_front_reserved(retired);
                Moved::Refused
            }
        }
    }

    /// How many receipts are retired, each of which has its count.
    pub fn retired(&self) -> usize
        ensures retired { result ≡ length self.now.retired }
        ensures refused { result ≡ length self.now.refused }
    {
        self.retired.len()
    }

    /// Drains the oldest retired receipt, where there is one: it is the newest of the drained ones then; or, where a word
    /// that was read blocks its epoch, the newest of the retired ones.
    pub(crate) fn turn(&mut self)
        requires some { 0 < length self.old.retired }
        ensures { HasTurned self.old self.new }
    {
        is_laid_out(&self.stripe);
        let Some(retired) = self.retired.pop_front() else {
            unreachable!()
        };
        match Releasable::drain(retired) {
            Ok(drained) => self.drained.push_back_reserved(drained),
            Err(retired) => self.retired.push_back_reserved(retired),
        }
    }

    /// Gives the oldest drained receipt back to the device, and says whether there was one. Its place is counted off.
    pub fn release<D: Device<Receipt = R>>(&mut self, device: &mut D) -> bool
        ensures released { OnTrue result (HasReleased D.serves R.identity self.old device.old self.new device.new) }
        ensures counted { OnTrue result (D.releases device.new ≡ D.releases device.old + 1) }
        ensures none { OnFalse result ((self.old.drained ≡ []) × (self.new ≡ self.old) × (device.new ≡ device.old)) }
        ensures no_fault { D.failures device.new ≡ D.failures device.old }
        ensures no_write { D.writes device.new ≡ D.writes device.old }
    {
        is_laid_out(&self.stripe);
        let Some(receipt) = self.drained.pop_front() else {
            return false;
        };
        receipt.release(device);
        self.stripe.free_place();
        true
    }
}

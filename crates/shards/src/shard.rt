//! What one stripe has: the log of its keys with its places on the device, and the marks of the keys that are watched.

ghost use Rattle.std.specs.Prelude.{◌≡◌, ◌+◌, ◌<◌, ◌≤◌, ⊤, ℕ, List, None, Some, IfNone, IfOk, OnOk, OnErr, IsSome, option_map, is_none, length};
ghost use Rattle.std.specs.Prelude.{◌↔◌, [], IfSome, IsTrue};
ghost use Rattle.std.specs.Bool.{OnTrue, OnFalse};
ghost use Rattle.std.specs.Borrow.{sem, Lends};
ghost use Rattle.std.specs.Map.{update};
ghost use Rattle.std.specs.Option.{option_copied};
ghost use Rattle.records.specs.Records.{value_bytes};
ghost use Rattle.shards.specs.contracts.counted.CountedLog.{the_row as log_row};
ghost use Rattle.shards.specs.contracts.shard.Shard.{the_row};
ghost use Rattle.std.specs.Str.{bytes_eq};
ghost use Rattle.words.specs.Stripes.{hash_of};
ghost use Rattle.words.specs.Watches.{touched};
ghost use Rattle.words.specs.declared.limits.TheConstants.{VALUE_BYTES_MAX, WEIGHT_MAX};
ghost use Rattle.gates.specs.Background.{IsIdle, IsStep};
ghost use Rattle.gates.specs.Pages as pages;
ghost use Rattle.gates.specs.Pages.{total};
ghost use Rattle.gates.specs.declared.view.Work.TheVariants.{Clean, Evict, Flush};
ghost use Rattle.gates.specs.declared.view.Refused.{Refused};
ghost use Rattle.watch.specs.Marked.{are_these, cleared};
ghost use Rattle.hybrid.specs.HybridLog.{HasRoom, IsGrown, receipt_at, receipt_of};
ghost use Rattle.hybrid.specs.Lookups.{IsInPlace, MatchLookup, Tells};
ghost use Rattle.hybrid.specs.Reserving.{IsFull};
ghost use Rattle.hybrid.specs.Staging.{AreRight, IsMissing};
ghost use Rattle.hybrid.specs.Log.{Fits};
ghost use Rattle.hybrid.specs.Writing.{IsAdded, IsWritten};
ghost use Rattle.shards.specs.Devices.{StillServes};
ghost use Rattle.shards.specs.Counted.{HasLanded, MatchBegun, MatchMoved, claimed, without_flight};
ghost use Rattle.epoch.specs.Seats.{IsOutside, known};
ghost use Rattle.shards.specs.Receipts.{kept_by};
ghost use Rattle.shards.specs.Rooms.{LacksRoom, LeavesFrames, ShedsFew};
ghost use Rattle.shards.specs.Shards.{shard_counted, shard_log, shard_marks, shard_pages, shard_store, shard_waiting, weigh, with_counted};
ghost use Rattle.shards.specs.Logs.{BeginsAt, FailsToReserve, HasShedSo, RetiresAs, TakesRoom, counted_alone, log_by};
ghost use Rattle.shards.specs.Stripes.{BeginsWith, DrainsFirst, DropsOldest, Finds, KeepsAll, LandsIn, MarksKey, ReleasesOne, RetiresFirst};
ghost use Rattle.shards.specs.Stripes.{TouchesKey};

use crate::counted::{Begun, CountedLog, Moved, is_laid_out};
use device::{Device, Shows};
use epoch::{EpochSeat, Epochs};
use gates::Part;
use hybrid::{Fault, Lookup, Purpose, Spot, Staged};
use records::Page;
use std::alloc::Global;
use strings::writes::Write;
use watch::Marks;
use words::hash::Hashed;
use words::limits::{Limits, VALUE_BYTES_MAX};
use words::word::{OutOfMemory, Word};

/// What one stripe has: the log of its keys with its places on the device, and the marks of the keys that are watched.
#[derive(Drop)]
pub struct Shard<R: Shows> {
    pub(crate) log: CountedLog<R>,
    marks: Marks,
}

/// A write, as a log takes it.
#[derive(Drop)]
struct Put<'a> {
    key: &'a Word,
    value: Option<&'a Word>,
}

impl hybrid::Write for Put<'_> {
    ghost use Rattle.std.specs.Option.{option_copied};

    ghost key = { λ put. put.key.now };

    ghost value = { λ put. option_copied put.value };

    fn key(&self) -> &[u8] {
        self.key.as_slice()
    }

    fn value(&self) -> Option<&[u8]> {
        bytes_of(self.value)
    }
}

/// The bytes of a value, if there is one.
#[inline]
fn bytes_of<'a>(value: Option<&'a Word>) -> Option<&'a [u8]>
    ensures { option_copied result ≡ option_copied value.entry }
{
    match value {
        Some(value) => Some(value.as_slice()),
        None => None,
    }
}

impl<R: Shows> Part for Shard<R> {
    ghost use Rattle.shards.specs.Shards.{shard_meaning};

    ghost meaning = { shard_meaning R.is_steady };
}

impl<R: Shows> Shard<R> {
    /// A shard with no key and no mark.
    ///
    /// # Errors
    ///
    /// [`OutOfMemory`] where there is no memory for its frames, its buckets or the lists of its places.
    pub fn new(alloc: Global, limits: &Limits) -> Result<Shard<R>, OutOfMemory>
        ensures log { IfOk result (λ made. shard_log made ≡ log_by limits.now) }
        ensures empty { IfOk result (λ made. (key : List ℕ) → shard_store made key ≡ None) }
        ensures counted { IfOk result (λ made. shard_counted made ≡ counted_alone (shard_log made)) }
        ensures unmarked { IfOk result (λ made. (key : List ℕ) (number : ℕ) → shard_marks made key number ≡ None) }
    {
        let log = CountedLog::new(alloc, limits)?;
        Ok(Shard {
            log,
            marks: Marks::new(alloc),
        })
    }

    /// What a key has. The answer is right over an honest device, where each staged page is the one that its
    /// receipt shows. A device that is not honest may show a value that is too long: the key then has none. Where
    /// receipts lend their pages, no lookup is cold.
    pub fn find<'a>(&'a self, key: &Hashed, staged: &'a Staged<R>) -> Lookup<'a>
        ensures contents { R.is_honest → AreRight staged.now → Finds result key.now self.now }
        ensures short { MatchLookup result (λ value. length value ≤ VALUE_BYTES_MAX) ⊤ (λ number. ⊤) }
        ensures cold { MatchLookup result (λ value. ⊤) ⊤ (λ number. IsMissing (shard_log self.now) staged.now number) }
        ensures left { MatchLookup result (λ value. ⊤) ⊤ (λ number. number < (shard_log self.now).resident.oldest) }
        ensures lent { R.lends → MatchLookup result (λ value. ⊤) ⊤ (λ number. ⊥) }
    {
        // By the log's invariant no record has a longer value.
        let log = self.log.stripe();
        is_laid_out(log);
        match log.find_hashed(key.hash(), key.key().as_slice(), staged) {
            Lookup::Found(value) => {
                if value.len() <= VALUE_BYTES_MAX {
                    Lookup::Found(value)
                } else {
                    Lookup::Absent
                }
            }
            Lookup::Absent => Lookup::Absent,
            Lookup::Cold(number, offset) => Lookup::Cold(number, offset),
        }
    }

    /// What a key has, as [`Shard::find`], and where its newest record stands, if it may be written in place. With a spot both
    /// are right over any device.
    pub fn look<'a>(&'a self, key: &Hashed, staged: &'a Staged<R>) -> (Lookup<'a>, Option<Spot>)
        ensures place { IfSome result.1 (λ spot. IsInPlace (shard_log self.now) key.now spot.capacity spot.address) }
        ensures value { IfSome result.1 (λ _. Tells result.0 (shard_store self.now key.now)) }
        ensures none { IfNone result.1 ((size address : ℕ) → IsInPlace (shard_log self.now) key.now size address → ⊥) }
        ensures contents { R.is_honest → AreRight staged.now → Finds result.0 key.now self.now }
        ensures short { MatchLookup result.0 (λ value. length value ≤ VALUE_BYTES_MAX) ⊤ (λ number. ⊤) }
        ensures cold { MatchLookup result.0 (λ value. ⊤) ⊤ (λ number. IsMissing (shard_log self.now) staged.now number) }
        ensures lent { R.lends → MatchLookup result.0 (λ value. ⊤) ⊤ (λ number. ⊥) }
    {
        self.log
            .stripe()
            .look(key.hash(), key.key().as_slice(), staged)
    }

    /// Where the newest record of a key stands, if it may be written in place. No older record is looked at.
    #[inline]
    pub fn spot(&self, key: &Hashed) -> Option<Spot>
        ensures place { IfSome result (λ spot. IsInPlace (shard_log self.now) key.now spot.capacity spot.address) }
        ensures none { IfNone result ((size address : ℕ) → IsInPlace (shard_log self.now) key.now size address → ⊥) }
    {
        self.log.stripe().spot(key.hash(), key.key().as_slice())
    }

    /// Its log, with what becomes of its places.
    pub fn counted(&self) -> &CountedLog<R>
        ensures { result.now ≡ shard_counted self.now }
    {
        &self.log
    }

    /// The same, to write to. Its marks stay as they are.
    pub fn counted_mut(&mut self) -> &mut CountedLog<R>
        ensures* writes_back { sem 𝓛 (Lends (the_row R.row R.Shows) (log_row R.row R.Shows) self.entry result (with_counted self.old)) }
        ensures log { result.now ≡ shard_counted self.old }
    {
        &mut self.log
    }

    /// The receipt that is kept of a page.
    pub fn receipt(&self, number: u64) -> Option<&R>
        ensures { option_map (λ receipt. kept_by R.identity R.shown receipt.now) result ≡ receipt_at (shard_log self.now) number }
    {
        self.log.stripe().receipt(number)
    }

    /// Makes room for writes of this weight: flushes and drops pages. What keys have and marks stay.
    ///
    /// # Errors
    ///
    /// [`Fault::DeviceFault`] where a write of the device failed; [`Fault::StoreFull`] where a page has to be
    /// written, or opened, for which no place is left, or none for the frames that these writes leave.
    pub fn reserve<D: Device<Receipt = R>>(
        &mut self,
        weight: usize,
        purpose: Purpose,
        device: &mut D,
    ) -> Result<(), Fault>
        requires light { weight ≤ WEIGHT_MAX }
        ensures same { KeepsAll self.old self.new }
        ensures room { OnOk result (HasRoom (shard_log self.new) weight) }
        ensures shed { HasShedSo D.failures D.wrote R.identity R.shown (shard_log self.old, device.old) (shard_log self.new, device.new) }
        ensures few { ShedsFew weight purpose (shard_log self.old) (shard_log self.new) }
        ensures lacks { OnErr result (LacksRoom weight purpose (shard_log self.old) (shard_log self.new)) }
        ensures kept { OnOk result (LeavesFrames weight purpose (shard_log self.old) (shard_log self.new)) }
        ensures device { StillServes D.serves D.releases device.old device.new }
        ensures failed { FailsToReserve result (shard_log self.new) (D.failures device.old) (D.failures device.new) }
    {
        self.log.reserve(weight, purpose, device)
    }

    /// Writes a key, for which there is room: its value is this, or none, and its marks are touched. It takes no
    /// memory. The hash is that of the key.
    pub fn write(&mut self, hash: u64, write: &Write)
        requires hash { hash ≡ hash_of write.now.0 }
        requires room { HasRoom (shard_log self.old) (weigh write.now) }
        requires fits { Fits write.now.0 write.now.1 }
        ensures waits { shard_waiting self.new ≡ shard_waiting self.old }
        ensures value { (k : List ℕ) → shard_store self.new k ≡ update bytes_eq (shard_store self.old) write.now.0 write.now.1 k }
        ensures marks { TouchesKey write.now.0 self.old self.new }
        ensures room { TakesRoom (weigh write.now) (shard_log self.old) (shard_log self.new) }
        ensures grown { IsGrown (shard_log self.old) (shard_log self.new) (weigh write.now) }
    {
        let put = Put {
            key: write.key(),
            value: write.value(),
        };
        self.log.install_one(hash, &put);
        self.marks.touch(write.key());
    }

    /// Gives a key, for which there is room, a value, and touches its marks. It takes no memory.
    pub fn set(&mut self, key: &Hashed, value: &Word)
        requires room { HasRoom (shard_log self.old) (weigh (key.now, Some value.now)) }
        requires fits { Fits key.now (Some value.now) }
        ensures waits { shard_waiting self.new ≡ shard_waiting self.old }
        ensures value { (k : List ℕ) → shard_store self.new k ≡ update bytes_eq (shard_store self.old) key.now (Some value.now) k }
        ensures marks { TouchesKey key.now self.old self.new }
        ensures room { TakesRoom (weigh (key.now, Some value.now)) (shard_log self.old) (shard_log self.new) }
        ensures grown { IsGrown (shard_log self.old) (shard_log self.new) (weigh (key.now, Some value.now)) }
    {
        let put = Put {
            key: key.key(),
            value: Some(value),
        };
        self.log.install_one(key.hash(), &put);
        self.marks.touch(put.key);
    }

    /// Gives a key, for which there is room, a value in a record at the tail, or deletes it there, and touches its marks: a key that was
    /// looked up, and has no record that may be written in place. It takes no memory.
    pub fn append(&mut self, hash: u64, key: &Word, value: Option<&Word>)
        requires hash { hash ≡ hash_of key.now }
        requires room { HasRoom (shard_log self.old) (weigh (key.now, option_copied value)) }
        requires fits { Fits key.now (option_copied value) }
        ensures added { (address : ℕ) × IsAdded (shard_log self.old) (shard_log self.new) address key.now (option_copied value.entry) }
        ensures waits { shard_waiting self.new ≡ shard_waiting self.old }
        ensures value { (k : List ℕ) → shard_store self.new k ≡ update bytes_eq (shard_store self.old) key.now (option_copied value.entry) k }
        ensures marks { TouchesKey key.now self.old self.new }
        ensures room { TakesRoom (weigh (key.now, option_copied value.entry)) (shard_log self.old) (shard_log self.new) }
        ensures grown { IsGrown (shard_log self.old) (shard_log self.new) (weigh (key.now, option_copied value.entry)) }
    {
        let put = Put { key, value };
        self.log.append_one(hash, &put);
        self.marks.touch(put.key);
    }

    /// Deletes a key, for which there is room, and touches its marks. It takes no memory.
    pub fn delete(&mut self, key: &Hashed)
        requires room { HasRoom (shard_log self.old) (weigh (key.now, None)) }
        requires fits { Fits key.now None }
        ensures waits { shard_waiting self.new ≡ shard_waiting self.old }
        ensures value { (k : List ℕ) → shard_store self.new k ≡ update bytes_eq (shard_store self.old) key.now None k }
        ensures marks { TouchesKey key.now self.old self.new }
        ensures grown { IsGrown (shard_log self.old) (shard_log self.new) (weigh (key.now, None)) }
    {
        let put = Put {
            key: key.key(),
            value: None,
        };
        self.log.install_one(key.hash(), &put);
        self.marks.touch(key.key());
    }

    /// Gives a key a value in place, or deletes it there, where its newest record has room for that, and touches its marks. It takes no
    /// memory and no room.
    pub fn overwrite_at(&mut self, key: &Word, spot: Spot, value: Option<&Word>)
        requires place { IsInPlace (shard_log self.old) key.now (length (value_bytes (option_copied value))) spot.address }
        requires fits { Fits key.now (option_copied value) }
        ensures written { IsWritten (shard_log self.old) key.now (option_copied value.entry) (shard_log self.new) }
        ensures waits { shard_waiting self.new ≡ shard_waiting self.old }
        ensures value { (k : List ℕ) → shard_store self.new k ≡ update bytes_eq (shard_store self.old) key.now (option_copied value.entry) k }
        ensures marks { TouchesKey key.now self.old self.new }
        ensures grown { IsGrown (shard_log self.old) (shard_log self.new) (weigh (key.now, option_copied value.entry)) }
    {
        self.log.overwrite_at(key.as_slice(), spot, bytes_of(value));
        self.marks.touch(key);
    }

    /// The mark that a session has of a key, if it watches the key: whether the key was written since.
    pub fn mark(&self, key: &Word, seat: u64) -> Option<bool>
        ensures { result ≡ shard_marks self.now key.now seat }
    {
        self.marks.mark(key, seat)
    }

    /// A session watches a key from here on; a mark that is there stays as it is. It answers whether there was none.
    ///
    /// # Errors
    ///
    /// [`OutOfMemory`] where there is no memory for the mark. All marks are then as they were.
    pub fn begin(&mut self, key: &Word, seat: u64) -> Result<bool, OutOfMemory>
        ensures waits { shard_waiting self.new ≡ shard_waiting self.old }
        ensures log { shard_log self.new ≡ shard_log self.old }
        ensures ok { OnOk result (MarksKey key.now seat self.old self.new) }
        ensures begun { IfOk result (λ begun. begun ≡ is_none (shard_marks self.old key.now seat)) }
        ensures err { OnErr result ((k : List ℕ) (s : ℕ) → shard_marks self.new k s ≡ shard_marks self.old k s) }
    {
        self.marks.add(key, seat)
    }

    /// A session does not watch a key any more. It takes no memory.
    pub fn clear(&mut self, key: &Word, seat: u64)
        ensures waits { shard_waiting self.new ≡ shard_waiting self.old }
        ensures log { shard_log self.new ≡ shard_log self.old }
        ensures marks { (k : List ℕ) (s : ℕ) → shard_marks self.new k s ≡ cleared (are_these key.now seat k s) (shard_marks self.old k s) }
    {
        self.marks.clear_key(key, seat)
    }

    /// Drops the oldest resident page from its frame, where its receipt is kept, and says whether it did. What keys have
    /// and marks stay.
    pub fn drop_oldest(&mut self) -> bool
        ensures store { shard_store self.new ≡ shard_store self.old }
        ensures marks { shard_marks self.new ≡ shard_marks self.old }
        ensures exact { IsTrue result ↔ IsSome (receipt_of (shard_log self.old) (shard_log self.old).resident.oldest) }
        ensures dropped { OnTrue result (DropsOldest self.old self.new) }
        ensures same { OnFalse result (self.new ≡ self.old) }
        ensures done { OnTrue result (IsStep Evict (shard_pages self.old) (shard_pages self.new)) }
        ensures idle { OnFalse result (IsIdle Evict (shard_pages self.new)) }
    {
        self.log.drop_oldest()
    }

    /// Copies the oldest page that waits to be written, and counts a place for it. What keys have and marks stay.
    pub fn begin_flush(&mut self, page: &mut Page) -> Begun
        ensures store { shard_store self.new ≡ shard_store self.old }
        ensures marks { shard_marks self.new ≡ shard_marks self.old }
        ensures begun { BeginsAt result (shard_log self.old) page.new }
        ensures counted { BeginsWith result self.old self.new }
        ensures told { MatchBegun result (IsIdle Flush (shard_pages self.new)) (pages.IsFull (shard_pages self.new)) (λ number. ⊤) }
    {
        is_laid_out(self.log.stripe());
        self.log.begin_flush(page)
    }

    /// Keeps the receipt of a page that was written, where the page is still as it was written; else the receipt came too
    /// late and counts as unlinked. The place was counted before the write; false where it was not, and none may be
    /// taken now. What keys have and marks stay.
    pub fn end_flush(&mut self, number: u64, page: &Page, receipt: R) -> bool
        requires shown { R.shown receipt ≡ page.now }
        ensures store { shard_store self.new ≡ shard_store self.old }
        ensures marks { shard_marks self.new ≡ shard_marks self.old }
        ensures landed { OnTrue result (LandsIn R.identity R.shown number page.now receipt self.old self.new) }
        ensures same { OnFalse result (self.new ≡ self.old) }
        ensures none { OnFalse result ((shard_counted self.old).in_flight ≡ 0) }
        ensures done { OnTrue result (IsStep Flush (shard_pages self.old) (shard_pages self.new)) }
        ensures full { OnFalse result (pages.IsFull (shard_pages self.new)) }
    {
        if !self.claim() {
            return false;
        }
        self.land(number, page, receipt);
        true
    }

    /// Sees to it that a place is counted for a page that was written, as [`CountedLog::claim`] does. What keys have and marks
    /// stay.
    pub(crate) fn claim(&mut self) -> bool
        ensures store { shard_store self.new ≡ shard_store self.old }
        ensures marks { shard_marks self.new ≡ shard_marks self.old }
        ensures claimed { OnTrue result (shard_counted self.new ≡ claimed (shard_counted self.old)) }
        ensures some { OnTrue result (0 < (shard_counted self.new).in_flight) }
        ensures full { OnFalse result (IsFull (shard_log self.old)) }
        ensures paged { OnFalse result (pages.IsFull (shard_pages self.new)) }
        ensures none { OnFalse result ((shard_counted self.old).in_flight ≡ 0) }
        ensures same { OnFalse result (self.new ≡ self.old) }
    {
        is_laid_out(self.log.stripe());
        self.log.claim()
    }

    /// Keeps the receipt of a page that was written, as [`CountedLog::land`] does. What keys have and marks stay.
    pub(crate) fn land(&mut self, number: u64, page: &Page, receipt: R)
        requires shown { R.shown receipt ≡ page.now }
        requires some { 0 < (shard_counted self.old).in_flight }
        ensures store { shard_store self.new ≡ shard_store self.old }
        ensures marks { shard_marks self.new ≡ shard_marks self.old }
        ensures landed { HasLanded (shard_counted self.old) number page.now (kept_by R.identity R.shown receipt) (shard_counted self.new) }
        ensures done { IsStep Flush (shard_pages self.old) (shard_pages self.new) }
    {
        is_laid_out(self.log.stripe());
        self.log.land(number, page, receipt);
    }

    /// Counts a place off whose page could not be written. What keys have and marks stay.
    pub fn fail_flush(&mut self)
        ensures store { shard_store self.new ≡ shard_store self.old }
        ensures marks { shard_marks self.new ≡ shard_marks self.old }
        ensures freed { shard_counted self.new ≡ without_flight (shard_counted self.old) }
    {
        self.log.free_place();
    }

    /// Gives the oldest drained receipt back to the device, and says whether there was one. What keys have and marks stay.
    pub fn release<D: Device<Receipt = R>>(&mut self, device: &mut D) -> bool
        ensures store { shard_store self.new ≡ shard_store self.old }
        ensures marks { shard_marks self.new ≡ shard_marks self.old }
        ensures released { OnTrue result (ReleasesOne D.serves R.identity (self.old, device.old) (self.new, device.new)) }
        ensures counted { OnTrue result (D.releases device.new ≡ D.releases device.old + 1) }
        ensures none { OnFalse result (((shard_counted self.old).drained ≡ []) × (self.new ≡ self.old) × (device.new ≡ device.old)) }
        ensures done { (refused : Refused) → OnTrue result (IsStep (Clean refused) (shard_pages self.old) (shard_pages self.new)) }
        ensures no_fault { D.failures device.new ≡ D.failures device.old }
    {
        self.log.is_counted();
        self.log.release(device)
    }

    /// Retires the oldest unlinked receipt. What keys have and marks stay.
    pub fn retire(&mut self, epochs: &Epochs, seat: &mut EpochSeat) -> Moved
        requires outside { IsOutside epochs.now seat.old }
        ensures outside { IsOutside epochs.now seat.new }
        ensures store { shard_store self.new ≡ shard_store self.old }
        ensures marks { shard_marks self.new ≡ shard_marks self.old }
        ensures retired { RetiresFirst result self.old self.new }
        ensures told { RetiresAs known result seat.old seat.new }
        ensures done { (refused : Refused) → MatchMoved result (IsStep (Clean refused) (shard_pages self.old) (shard_pages self.new)) ⊤ ⊤ }
    {
        self.log.retire(epochs, seat)
    }

    /// Drains the oldest retired receipt. What keys have and marks stay.
    pub fn drain(&mut self) -> Moved
        ensures store { shard_store self.new ≡ shard_store self.old }
        ensures marks { shard_marks self.new ≡ shard_marks self.old }
        ensures drained { DrainsFirst result self.old self.new }
        ensures more { MatchMoved result ⊤ ⊤ (total (shard_counted self.old).refused < total (shard_counted self.new).refused) }
        ensures done { (refused : Refused) → MatchMoved result (IsStep (Clean refused) (shard_pages self.old) (shard_pages self.new)) ⊤ ⊤ }
    {
        self.log.drain()
    }
}

// The cleaner's step.

ghost use Rattle.std.specs.Prelude.{◌≡◌, ◌≢◌, ◌+◌, ◌<◌, ◌≤◌, ◌↔◌, IsTrue, IsSome, IsOk, IfOk, IfErr, IfSome, Some, option_map, ◌⊎◌, ⊤};
ghost use Rattle.std.specs.List.{Contains};
ghost use Rattle.std.specs.Option.{option_copied};
ghost use Rattle.records.specs.Records.{records_of, IsLaidOut, Stored};
ghost use Rattle.hybrid.specs.Log.{newest};
ghost use Rattle.hybrid.specs.Lookups.{Leads};
ghost use Rattle.hybrid.specs.HybridLog.{count_kept, log_of, HasRoom, IsCut, IsGrown, without_oldest_page, receipt_of, Kept, SameContents};
ghost use Rattle.hybrid.specs.Staging.{AreRight, AreShort, IsMissing, AreMarked, IsCleaned, IsCopied, IsNeeded, IsUnlinked, MatchCleaned};
ghost use Rattle.hybrid.specs.Weighing.{live_weight, oldest_weight, MatchWeighed};

use crate::address::Address;
use crate::staged::Staged;
use crate::stripe::room::Room;
use crate::stripe::{CLEAN_WEIGHT, Stripe};
use crate::write::{length_of, weight_if};
use device::Shows;
use records::{HEADER_SIZE, PAGE_SIZE, Page, RECORD_HEADER, record_at};
use words::hash::hash_of;
use words::limits::{VALUE_BYTES_MAX, WEIGHT_OF_KEY};

/// What lives in the oldest page.
#[derive(Clone, Copy, Debug, PartialEq, Eq)]
pub enum Weighed {
    /// Its live records weigh so much together as writes: the room that it wants to leave the log.
    Live(usize),
    /// A page is needed that is neither resident, nor lent by its receipt, nor staged.
    Cold(u64),
    /// The oldest page is resident, and does not leave.
    Resident,
}

/// What a step of the cleaner did.
#[derive(Drop)]
pub enum Cleaned<R> {
    /// The oldest page has left the log; this was its receipt.
    Unlinked(R),
    /// A page is needed that is neither resident, nor lent by its receipt, nor staged. Nothing has changed.
    Cold(u64, Room),
    /// The oldest page's live records weigh so much, for which there was too little room. Nothing has
    /// changed.
    Heavy(usize),
    /// The oldest page is resident. Nothing has changed.
    Nothing,
}

/// A mark for each eighth offset of a page.
const SLOTS: usize = PAGE_SIZE / 8;

// Which records of a page are live, and what these weigh together.
#[derive(Drop)]
struct Marks {
    live: [bool; SLOTS],
    weight: usize,
}

impl<R: Shows> Stripe<R> {
    /// What lives in the oldest page, where it is not resident: room for this weight is what
    /// `clean_oldest` wants.
    pub fn weigh_oldest(&self, staged: &Staged<R>) -> Weighed
        ensures weight { R.is_honest → AreRight staged.now → MatchWeighed result (λ weight. weight ≡ oldest_weight self.now) (λ number. ⊤) ⊤ }
        ensures most { MatchWeighed result (λ weight. weight ≤ CLEAN_WEIGHT) (λ number. ⊤) ⊤ }
        ensures cold { MatchWeighed result (λ weight. ⊤) (λ number. IsMissing self.now staged.now number) ⊤ }
        ensures lent { R.lends → MatchWeighed result (λ weight. ⊤) (λ number. ⊥) ⊤ }
        ensures needed { R.is_honest → AreRight staged.now → MatchWeighed result (λ weight. ⊤) (λ number. (number ≡ self.now.oldest) ⊎ IsNeeded self.now number) ⊤ }
        ensures kept { MatchWeighed result (λ weight. (kept : Kept) × (receipt_of self.now self.now.oldest ≡ Some kept)) (λ number. ⊤) ⊤ }
        ensures resident { MatchWeighed result (λ weight. self.now.oldest < self.now.resident.oldest) (λ number. self.now.oldest < self.now.resident.oldest) (self.now.resident.oldest ≡ self.now.oldest) }
    {
        let number = self.oldest();
        let Some(receipt) = self.cold_receipt() else {
            return Weighed::Resident;
        };
        let Some(page) = staged.page(receipt) else {
            return Weighed::Cold(number);
        };
        match self.marks(page, staged) {
            Err(missing) => Weighed::Cold(missing),
            Ok(marks) => Weighed::Live(marks.weight),
        }
    }

    /// Copies the records of the oldest page that still count to the tail, and takes the page out of
    /// the log, where it is not resident. A tombstone is dropped, and its key is not looked up; nor is that of a record that is the
    /// head of its bucket.
    ///
    /// Room for `weigh_oldest` is enough, and so is room for `CLEAN_WEIGHT`. The page is gone over in `copy`: whatever that
    /// holds is lost.
    pub fn clean_oldest(&mut self, staged: &Staged<R>, room: Room, copy: &mut Page) -> Cleaned<R>
        requires { HasRoom self.old room.weight }
        ensures same { R.is_honest → AreRight staged.now → SameContents self.old self.new }
        ensures unlinked { MatchCleaned result (λ r. IsUnlinked self.old self.new room.weight × (receipt_of self.old self.old.oldest ≡ Some (record { identity = R.identity r; shown = R.shown r })) × ((k : Kept) → Contains self.new.kept (Some k) → k.shown ≢ R.shown r)) (λ number rest. ⊤) (λ weight. ⊤) ⊤ }
        ensures added { R.is_honest → AreRight staged.now → MatchCleaned result (λ r. IsCleaned self.old self.new) (λ number rest. ⊤) (λ weight. ⊤) ⊤ }
        ensures counted { MatchCleaned result (λ r. (count_kept self.new.kept < self.new.unreleased) × (count_kept self.old.kept ≡ count_kept self.new.kept + 1)) (λ number rest. ⊤) (λ weight. ⊤) ⊤ }
        ensures cold { MatchCleaned result (λ r. ⊤) (λ number rest. (self.new ≡ self.old) × (rest ≡ room) × IsMissing self.old staged.now number) (λ weight. ⊤) ⊤ }
        ensures lent { R.lends → MatchCleaned result (λ r. ⊤) (λ number rest. ⊥) (λ weight. ⊤) ⊤ }
        ensures needed { R.is_honest → AreRight staged.now → MatchCleaned result (λ r. ⊤) (λ number rest. (number ≡ self.old.oldest) ⊎ IsNeeded self.old number) (λ weight. ⊤) ⊤ }
        ensures heavy { MatchCleaned result (λ r. ⊤) (λ number rest. ⊤) (λ weight. (self.new ≡ self.old) × (room.weight < weight) × (weight ≤ CLEAN_WEIGHT)) ⊤ }
        ensures weighed { R.is_honest → AreRight staged.now → MatchCleaned result (λ r. oldest_weight self.old ≤ room.weight) (λ number rest. ⊤) (λ weight. weight ≡ oldest_weight self.old) ⊤ }
        ensures nothing { MatchCleaned result (λ r. self.old.oldest < self.old.resident.oldest) (λ number rest. self.old.oldest < self.old.resident.oldest) (λ weight. self.old.oldest < self.old.resident.oldest) ((self.new ≡ self.old) × (self.old.resident.oldest ≡ self.old.oldest)) }
    {
        let number = self.oldest();
        let Some(receipt) = self.cold_receipt() else {
            return Cleaned::Nothing;
        };
        let Some(page) = staged.page(receipt) else {
            return Cleaned::Cold(number, room);
        };
        match self.marks(page, staged) {
            Err(missing) => Cleaned::Cold(missing, room),
            Ok(marks) => {
                if room.weight < marks.weight {
                    return Cleaned::Heavy(marks.weight);
                }
                // The log changes while its page is gone over, and the receipt may be what lends it.
                copy.copy_from(page);
                self.copy_live(copy, &marks.live, room.weight);
                Cleaned::Unlinked(self.forget_oldest())
            }
        }
    }

    // The receipt of the oldest page, if that is not resident.
    fn cold_receipt(&self) -> Option<&R>
        ensures resident { IsSome result ↔ (self.now.oldest < self.now.resident.oldest) }
        ensures receipt { IfSome result (λ r. receipt_of self.now self.now.oldest ≡ Some (record { identity = R.identity r.now; shown = R.shown r.now })) }
    {
        if self.frames.oldest() <= self.oldest {
            return None;
        }
        match self.receipts.get(0) {
            Some(Some(receipt)) => Some(receipt),
            _ => None,
        }
    }

    // Which records of the oldest page are live, and what these weigh together.
    fn marks(&self, page: &Page, staged: &Staged<R>) -> Result<Marks, u64>
        ensures live { R.is_honest → AreRight staged.now → self.now.oldest < self.now.resident.oldest → (k : Kept) → receipt_of self.now self.now.oldest ≡ Some k → page.now ≡ k.shown → IfOk result (λ marks. AreMarked (log_of self.now) self.now.oldest (records_of page.now) marks.live) }
        ensures weight { R.is_honest → AreRight staged.now → self.now.oldest < self.now.resident.oldest → (k : Kept) → receipt_of self.now self.now.oldest ≡ Some k → page.now ≡ k.shown → IfOk result (λ marks. marks.weight ≡ live_weight (log_of self.now) self.now.oldest (records_of page.now)) }
        ensures most { IfOk result (λ marks. marks.weight ≤ CLEAN_WEIGHT) }
        ensures needed { R.is_honest → AreRight staged.now → self.now.oldest < self.now.resident.oldest → (k : Kept) → receipt_of self.now self.now.oldest ≡ Some k → page.now ≡ k.shown → IfErr result (λ number. IsNeeded self.now number) }
        ensures cold { IfErr result (λ number. IsMissing self.now staged.now number) }
        ensures lent { R.lends → IsOk result }
    {
        let mut live = [false; SLOTS];
        let mut weight = 0;
        let mut at = HEADER_SIZE;
        let number = self.oldest();
        while let Ok(record) = record_at(page, at) {
            let address = Address::of(number, at);
            let marked = self.is_live(record.key, record.value, address, staged)?;
            live[at / 8] = marked;
            weight += weight_if(marked, record.key, record.value);
            at += RECORD_HEADER + record.key.len() + record.capacity;
        }
        Ok(Marks { live, weight })
    }

    // Whether the record of a key at an address is live: it has a value, and is the newest of the key.
    // The key of a tombstone is not looked up, nor that of the record at the head of its bucket, which is the newest of its key.
    fn is_live(
        &self,
        key: &[u8],
        value: Option<&[u8]>,
        address: Address,
        staged: &Staged<R>,
    ) -> Result<bool, u64>
        ensures live { R.is_honest → AreRight staged.now → (r : Stored) → Contains (log_of self.now) (address, r) → r.key ≡ key.now
            → IfOk result (λ live. IsTrue live
            ↔ ((option_map (λ e. e.0) (newest (log_of self.now) key.now) ≡ Some address) × IsSome (option_copied value.entry))) }
        ensures needed { R.is_honest → AreRight staged.now → IfErr result (λ number. IsSome (option_copied value.entry) × Leads self.now key.now number) }
        ensures cold { IfErr result (λ number. IsMissing self.now staged.now number) }
        ensures lent { R.lends → IsOk result }
    {
        if value.is_none() {
            return Ok(false);
        }
        let hash = hash_of(key);
        if address == Address::from_number(self.index.head(self.index_hash(hash))) {
            return Ok(true);
        }
        match self.newest_address(hash, key, staged)? {
            Some(at) => Ok(at == address),
            None => Ok(false),
        }
    }

    // Copies the marked records of the oldest page to the tail. It passes over those that are no records of
    // a write, and over those for which no room is left: in a page of the log there are none.
    fn copy_live(&mut self, page: &Page, live: &[bool; SLOTS], weight: usize)
        requires room { HasRoom self.old weight }
        requires cold { self.old.oldest < self.old.resident.oldest }
        ensures grown { IsGrown self.old self.new weight }
        ensures copied { IsLaidOut page.now → AreShort (records_of page.now) → AreMarked (log_of self.old) self.old.oldest (records_of page.now) live.now → live_weight (log_of self.old) self.old.oldest (records_of page.now) ≤ weight → IsCopied self.old self.new page.now }
    {
        let mut weight = weight;
        let mut at = HEADER_SIZE;
        while let Ok(record) = record_at(page, at) {
            let marked = live[at / 8];
            at += RECORD_HEADER + record.key.len() + record.capacity;
            let length = length_of(record.value);
            let used = WEIGHT_OF_KEY + record.key.len() + length;
            if !marked {
                continue;
            }
            if length > VALUE_BYTES_MAX {
                continue;
            }
            if used > weight {
                continue;
            }
            self.append(hash_of(record.key), record.key, record.value, weight);
            weight -= used;
        }
    }

    // Takes the oldest page out of the log.
    fn forget_oldest(&mut self) -> R
        requires { self.old.oldest < self.old.resident.oldest }
        ensures part { self.new ≡ without_oldest_page self.old }
        ensures receipt { receipt_of self.old self.old.oldest ≡ Some (record { identity = R.identity result; shown = R.shown result }) }
        ensures log { IsCut (log_of self.old) (log_of self.new) self.old.oldest (R.shown result) }
        ensures alone { (k : Kept) → Contains self.new.kept (Some k) → k.shown ≢ R.shown result }
        ensures counted { count_kept self.new.kept < self.new.unreleased }
        ensures fewer { count_kept self.old.kept ≡ count_kept self.new.kept + 1 }
    {
        let count = self.receipts.len();
        self.oldest += 1;
        let Some(first) = self.receipts.pop_front() else {
            unreachable!()
        };
        let Some(receipt) = first else { unreachable!() };
        self.kept -= 1;
        receipt
    }
}

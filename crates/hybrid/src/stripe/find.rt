// Lookups: a walk down the chain of a key's bucket.

ghost use Rattle.std.specs.Prelude.{MatchOption, ◌/◌, IsSome, IsSomeAnd, IsOk, IsOkAnd, ◌≡◌, ◌+◌, ◌*◌, ◌<◌, ◌≤◌, Some, None, IfOk, IfErr, IfSome, IfNone, option_map, slice_index_or, [], ◌-◌, length, ℕ, ⊤};
ghost use Rattle.std.specs.Option.{option_copied};
ghost use Rattle.records.specs.Records.{Stored, value_bytes};
ghost use Rattle.records.specs.Read.{shown};
ghost use Rattle.frames.specs.Resident.{first_mutable, next_number};
ghost use Rattle.hybrid.specs.Log.{AreValuesShort, begin_of, newest, contents};
ghost use Rattle.hybrid.specs.HybridLog.{log_of};
ghost use Rattle.words.specs.Stripes.{hash_of};
ghost use Rattle.hybrid.specs.Lookups.{Finds, Leads, MatchLookup, IsInPlace, IsLaidAt, IsNewestIfMutable, IsResidentAt, Tells};
ghost use Rattle.hybrid.specs.Staging.{AreRight, IsMissing};
ghost use Rattle.hybrid.specs.Ways.{AreNear, GoesNear, IsFirstFar, IsNear, way_of};

use crate::address::Address;
use crate::staged::Staged;
use crate::stripe::Stripe;
use device::Shows;
use records::{HEADER_SIZE, NotARecord, PAGE_SIZE, Record, record_there};
use words::hash::hash_of;
use words::limits::VALUE_BYTES_MAX;

/// What a lookup of a key gives.
#[derive(Clone, Copy, Debug)]
pub enum Lookup<'a> {
    /// The key's value.
    Found(&'a [u8]),
    /// The key has no value.
    Absent,
    /// The chain leads to the page of this number, which is neither resident, nor lent by its receipt, nor
    /// staged as far as it is wanted: the record at this offset of it.
    Cold(u64, usize),
}

/// Where the newest record of a key stands in the mutable part, where it may take another value in place.
#[derive(Clone, Copy, Debug)]
pub struct Spot {
    /// Its address.
    pub address: u64,
    /// How long a value may be that takes the place of its own.
    pub capacity: usize,
}

impl<R: Shows> Stripe<R> {
    /// What a key has. A value has at most `VALUE_BYTES_MAX` bytes, whatever the device gives.
    ///
    /// The answer is right over an honest device, where each staged page is the one that its receipt
    /// shows. Then `Cold` names the first page on the key's way that is not near, and else all are. Where
    /// receipts lend their pages, no lookup is cold.
    pub fn find<'a>(&'a self, key: &[u8], staged: &'a Staged<R>) -> Lookup<'a>
        ensures contents { R.is_honest → AreRight staged.now → Finds result self.now key.now }
        ensures cold { MatchLookup result (λ _. ⊤) ⊤ (λ number. IsMissing self.now staged.now number) }
        ensures lent { R.lends → MatchLookup result (λ _. ⊤) ⊤ (λ number. ⊥) }
        ensures way { R.is_honest → AreRight staged.now → GoesNear result R.lends self.now staged.now key.now }
        ensures short { MatchLookup result (λ value. length value ≤ VALUE_BYTES_MAX) ⊤ (λ _. ⊤) }
        ensures values { AreValuesShort (log_of self.now) }
    {
        self.find_hashed(hash_of(key), key, staged)
    }

    /// What a key has, by its hash, as [`Stripe::find`].
    pub fn find_hashed<'a>(&'a self, hash: u64, key: &[u8], staged: &'a Staged<R>) -> Lookup<'a>
        requires hash { hash ≡ hash_of key.now }
        ensures contents { R.is_honest → AreRight staged.now → Finds result self.now key.now }
        ensures cold { MatchLookup result (λ _. ⊤) ⊤ (λ number. IsMissing self.now staged.now number) }
        ensures lent { R.lends → MatchLookup result (λ _. ⊤) ⊤ (λ number. ⊥) }
        ensures way { R.is_honest → AreRight staged.now → GoesNear result R.lends self.now staged.now key.now }
        ensures short { MatchLookup result (λ value. length value ≤ VALUE_BYTES_MAX) ⊤ (λ _. ⊤) }
        ensures values { AreValuesShort (log_of self.now) }
    {
        let _ = &self.oldest;
        match self.newest(hash, key, staged) {
            Err(address) => Lookup::Cold(address.page(), address.offset()),
            Ok(None) => Lookup::Absent,
            Ok(Some((_, record))) => match record.value {
                // Over a device that is not honest a page may have any value.
                Some(value) if value.len() <= VALUE_BYTES_MAX => Lookup::Found(value),
                Some(_) => Lookup::Absent,
                None => Lookup::Absent,
            },
        }
    }

    /// What a key has, by its hash, as [`Stripe::find_hashed`], and where its newest record stands, if it lies in the mutable
    /// part. With a spot both are right over any device: a resident page is what was written to it.
    #[inline]
    pub fn look<'a>(
        &'a self,
        hash: u64,
        key: &[u8],
        staged: &'a Staged<R>,
    ) -> (Lookup<'a>, Option<Spot>)
        requires hash { hash ≡ hash_of key.now }
        ensures place { IfSome result.1 (λ spot. IsInPlace self.now key.now spot.capacity spot.address) }
        ensures value { IfSome result.1 (λ _. Tells result.0 (contents (log_of self.now) key.now)) }
        ensures none { IfNone result.1 ((size address : ℕ) → IsInPlace self.now key.now size address → ⊥) }
        ensures contents { R.is_honest → AreRight staged.now → Finds result.0 self.now key.now }
        ensures cold { MatchLookup result.0 (λ _. ⊤) ⊤ (λ number. IsMissing self.now staged.now number) }
        ensures lent { R.lends → MatchLookup result.0 (λ _. ⊤) ⊤ (λ number. ⊥) }
        ensures way { R.is_honest → AreRight staged.now → GoesNear result.0 R.lends self.now staged.now key.now }
        ensures short { MatchLookup result.0 (λ value. length value ≤ VALUE_BYTES_MAX) ⊤ (λ _. ⊤) }
        ensures values { AreValuesShort (log_of self.now) }
    {
        let _ = &self.oldest;
        match self.newest(hash, key, staged) {
            Err(address) => (Lookup::Cold(address.page(), address.offset()), None),
            Ok(None) => (Lookup::Absent, None),
            Ok(Some((address, record))) => {
                let spot = self.spot_at(address, record.capacity);
                match record.value {
                    // Over a device that is not honest an older page may have any value.
                    Some(value) if value.len() <= VALUE_BYTES_MAX => (Lookup::Found(value), spot),
                    Some(_) => (Lookup::Absent, spot),
                    None => (Lookup::Absent, spot),
                }
            }
        }
    }

    /// Where the newest record of a key stands, by its hash, if it lies in the mutable part. No older record is looked at.
    pub fn spot(&self, hash: u64, key: &[u8]) -> Option<Spot>
        requires hash { hash ≡ hash_of key.now }
        ensures place { IfSome result (λ spot. IsInPlace self.now key.now spot.capacity spot.address) }
        ensures none { IfNone result ((size address : ℕ) → IsInPlace self.now key.now size address → ⊥) }
    {
        match self.newest_mutable(hash, key) {
            Some((address, record)) => Some(Spot {
                address: address.number(),
                capacity: record.capacity,
            }),
            None => None,
        }
    }

    // The spot of a record at this address that has room for so long a value, if it lies in the mutable part.
    #[inline]
    fn spot_at(&self, address: Address, capacity: usize) -> Option<Spot>
        ensures spot { IfSome result (λ spot. spot ≡ record { address = address; capacity = capacity }) }
        ensures mutable { IfSome result (λ _. begin_of (first_mutable self.now.resident) ≤ address) }
        ensures none { IfNone result (address < begin_of (first_mutable self.now.resident)) }
    {
        let mutable = Address::of(self.frames.first_mutable(), HEADER_SIZE);
        if mutable <= address {
            Some(Spot {
                address: address.number(),
                capacity,
            })
        } else {
            None
        }
    }

    // The newest record of a key with this hash, and its address.
    #[inline]
    fn newest<'a>(
        &'a self,
        hash: u64,
        key: &[u8],
        staged: &'a Staged<R>,
    ) -> Result<Option<(Address, Record<'a>)>, Address>
        requires hash { hash ≡ hash_of key.now }
        ensures found { R.is_honest → AreRight staged.now → IfOk result (λ o. option_map (λ x. (x.0, shown x.1)) o ≡ newest (log_of self.now) key.now) }
        ensures leads { R.is_honest → AreRight staged.now → IfErr result (λ address. Leads self.now key.now (address / PAGE_SIZE)) }
        ensures cold { IfErr result (λ address. IsMissing self.now staged.now (address / PAGE_SIZE)) }
        ensures lent { R.lends → IsOk result }
        ensures way { R.is_honest → AreRight staged.now → IfOk result (λ _. AreNear R.lends self.now staged.now (way_of self.now key.now)) }
        ensures far { R.is_honest → AreRight staged.now → IfErr result (λ address. IsFirstFar R.lends self.now staged.now key.now (address / PAGE_SIZE)) }
        ensures mutable { IfOk result (λ o. IfSome o (λ x. IsNewestIfMutable self.now key.now x.0 (shown x.1))) }
        ensures placed { (size address : ℕ) → IsInPlace self.now key.now size address → IsOkAnd result (λ o. IsSomeAnd o (λ x. x.0 ≡ address)) }
    {
        let begin = Address::of(self.oldest, HEADER_SIZE);
        let mut address = Address::from_number(self.index.head(self.index_hash(hash)));
        while begin <= address {
            let Some(found) = self.live_record(address, staged) else {
                return Err(address);
            };
            let Ok(record) = found else {
                return Ok(None);
            };
            if record.has_key(key) {
                return Ok(Some((address, record)));
            }
            let link = Address::from_number(record.link);
            if address <= link {
                return Ok(None);
            }
            address = link;
        }
        Ok(None)
    }

    // The address of the newest record of a key with this hash.
    pub(crate) fn newest_address<'a>(
        &'a self,
        hash: u64,
        key: &[u8],
        staged: &'a Staged<R>,
    ) -> Result<Option<Address>, u64>
        requires hash { hash ≡ hash_of key.now }
        ensures found { R.is_honest → AreRight staged.now → IfOk result (λ o. o ≡ option_map (λ e. e.0) (newest (log_of self.now) key.now)) }
        ensures leads { R.is_honest → AreRight staged.now → IfErr result (λ number. Leads self.now key.now number) }
        ensures cold { IfErr result (λ number. IsMissing self.now staged.now number) }
        ensures lent { R.lends → IsOk result }
    {
        match self.newest(hash, key, staged) {
            Ok(Some((address, _))) => Ok(Some(address)),
            Ok(None) => Ok(None),
            Err(address) => Err(address.page()),
        }
    }

    // The record at an address, if it is near: in a page that is resident, or lent by its receipt, or in what was read of it.
    #[inline]
    fn live_record<'a>(
        &'a self,
        address: Address,
        staged: &'a Staged<R>,
    ) -> Option<Result<Record<'a>, NotARecord>>
        requires live { self.now.oldest ≤ address / PAGE_SIZE }
        requires below { address / PAGE_SIZE < next_number self.now.resident }
        ensures found { R.is_honest → AreRight staged.now → (r : Stored) → IsLaidAt self.now address r
            → IfSome result (λ found. IsOkAnd found (λ x. shown x ≡ r) × IsNear R.lends self.now staged.now (address, r)) }
        ensures unread { R.is_honest → AreRight staged.now → (r : Stored) → IsLaidAt self.now address r
            → IfNone result (IsNear R.lends self.now staged.now (address, r) → ⊥) }
        ensures missing { IfNone result (IsMissing self.now staged.now (address / PAGE_SIZE)) }
        ensures lent { R.lends → IsSome result }
        ensures resident { (r : Stored) → IsResidentAt self.now address r → IsSomeAnd result (λ found. IsOkAnd found (λ x. shown x ≡ r)) }
    {
        let number = address.page();
        if self.frames.oldest() <= number {
            let Some(page) = self.frames.page(number) else {
                unreachable!()
            };
            return Some(record_there(page, address.offset()));
        }
        match self.receipt(number) {
            Some(receipt) => staged.record(receipt, address.offset()),
            None => unreachable!(),
        }
    }

    // The address of the newest record of a key with this hash, if it lies in the mutable part and has
    // room for a value of this length.
    #[inline]
    pub(crate) fn place(&self, hash: u64, key: &[u8], size: usize) -> Option<Address>
        requires { hash ≡ hash_of key.now }
        ensures { MatchOption result ((address : ℕ) → IsInPlace self.now key.now size address → ⊥) (λ address. IsInPlace self.now key.now size address) }
    {
        match self.newest_mutable(hash, key) {
            Some((address, record)) if size <= record.capacity => Some(address),
            Some(_) => None,
            None => None,
        }
    }

    // The newest record of a key with this hash, and its address, if it lies in the mutable part.
    #[inline(always)]
    fn newest_mutable<'a>(&'a self, hash: u64, key: &[u8]) -> Option<(Address, Record<'a>)>
        requires { hash ≡ hash_of key.now }
        ensures found { IfSome result (λ x. newest (log_of self.now) key.now ≡ Some (x.0, shown x.1)) }
        ensures mutable { IfSome result (λ x. begin_of (first_mutable self.now.resident) ≤ x.0) }
        ensures value { IfSome result (λ x. contents (log_of self.now) key.now ≡ option_copied x.1.value) }
        ensures none { IfNone result ((size address : ℕ) → IsInPlace self.now key.now size address → ⊥) }
    {
        let begin = Address::of(self.frames.first_mutable(), HEADER_SIZE);
        let mut address = Address::from_number(self.index.head(self.index_hash(hash)));
        while begin <= address {
            let Some(record) = self.resident_record(address) else {
                unreachable!()
            };
            if record.has_key(key) {
                return Some((address, record));
            }
            address = Address::from_number(record.link);
        }
        None
    }

    // The record at an address of a resident page.
    #[inline]
    fn resident_record(&self, address: Address) -> Option<Record<'_>>
        ensures { (r : Stored) → IsResidentAt self.now address r → IsSomeAnd result (λ x. shown x ≡ r) }
    {
        match self.frames.page(address.page()) {
            Some(page) => record_there(page, address.offset()).ok(),
            None => None,
        }
    }
}

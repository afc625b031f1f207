// Writes: in place where they fit the mutable part, else at the tail.

ghost use Rattle.std.specs.Prelude.{◌≡◌, ◌+◌, ◌-◌, ◌*◌, ◌/◌, ◌%◌, ◌<◌, ◌≤◌, ◌^◌, length, map, slice_set, ℕ, List};
ghost use Rattle.std.specs.Map.{update};
ghost use Rattle.std.specs.Str.{bytes_eq};
ghost use Rattle.std.specs.Option.{option_copied};
ghost use Rattle.frames.specs.Resident.{next_number};
ghost use Rattle.records.specs.Records.{value_bytes, size_for, with_value};
ghost use Rattle.words.specs.Stripes.{hash_of};
ghost use Rattle.hybrid.specs.Log.{Fits, IsAppended, begin_of, contents};
ghost use Rattle.hybrid.specs.HybridLog.{HasRoom, IsGrown, IsPut, bucket_of, free, head_of, log_of, tail_bytes, with_page_opened};
ghost use Rattle.hybrid.specs.Lookups.{IsInPlace, IsRoomy};
ghost use Rattle.hybrid.specs.Writing.{IsAdded, IsWritten, write_weight};

use crate::address::Address;
use crate::stripe::find::Spot;
use crate::stripe::{LAST_PAGE, Stripe};
use crate::write::{Write, length_of};
use device::Shows;
use records::{HEADER_SIZE, PAGE_SIZE, overwrite, put_record, record_size};
use words::hash::hash_of;
use words::limits::{VALUE_BYTES_MAX, WEIGHT_OF_KEY};

impl<R: Shows> Stripe<R> {
    /// Makes one write. It cannot fail, and takes no memory. Where there was room for more, the rest of that
    /// room is left.
    ///
    /// A new value goes into the newest record of its key, in place, where that lies in the mutable part
    /// and has room for it; else a new record goes to the tail: into the tail page where it fits there,
    /// and only else into a page that is opened behind it. A deletion is a tombstone, by the same rule.
    pub fn install_one<W: Write>(&mut self, write: &W)
        requires room { HasRoom self.old (write_weight (W.key write.now) (W.value write.now)) }
        requires fits { Fits (W.key write.now) (W.value write.now) }
        ensures written { IsWritten self.old (W.key write.now) (W.value write.now) self.new }
        ensures contents { (other : List ℕ) → contents (log_of self.new) other ≡ update bytes_eq (contents (log_of self.old)) (W.key write.now) (W.value write.now) other }
        ensures room { (more : ℕ) → write_weight (W.key write.now) (W.value write.now) ≤ more → HasRoom self.old more → HasRoom self.new (more - write_weight (W.key write.now) (W.value write.now)) }
        ensures grown { IsGrown self.old self.new (write_weight (W.key write.now) (W.value write.now)) }
    {
        let hash = hash_of(write.key());
        self.install_one_hashed(hash, write);
    }

    /// Makes one write, by the hash of its key.
    pub fn install_one_hashed<W: Write>(&mut self, hash: u64, write: &W)
        requires hash { hash ≡ hash_of (W.key write.now) }
        requires room { HasRoom self.old (write_weight (W.key write.now) (W.value write.now)) }
        requires fits { Fits (W.key write.now) (W.value write.now) }
        ensures written { IsWritten self.old (W.key write.now) (W.value write.now) self.new }
        ensures contents { (other : List ℕ) → contents (log_of self.new) other ≡ update bytes_eq (contents (log_of self.old)) (W.key write.now) (W.value write.now) other }
        ensures room { (more : ℕ) → write_weight (W.key write.now) (W.value write.now) ≤ more → HasRoom self.old more → HasRoom self.new (more - write_weight (W.key write.now) (W.value write.now)) }
        ensures grown { IsGrown self.old self.new (write_weight (W.key write.now) (W.value write.now)) }
    {
        self.write(hash, write.key(), write.value());
        let _oldest = self.oldest();
    }

    /// Makes one write at the tail, by the hash of its key: of a key that was looked up, and has no record in the mutable part with room
    /// for the write. It looks for none.
    pub fn append_one<W: Write>(&mut self, hash: u64, write: &W)
        requires hash { hash ≡ hash_of (W.key write.now) }
        requires room { HasRoom self.old (write_weight (W.key write.now) (W.value write.now)) }
        requires fits { Fits (W.key write.now) (W.value write.now) }
        ensures added { (address : ℕ) × IsAdded self.old self.new address (W.key write.now) (W.value write.now) }
        ensures contents { (other : List ℕ) → contents (log_of self.new) other
            ≡ update bytes_eq (contents (log_of self.old)) (W.key write.now) (W.value write.now) other }
        ensures room { (more : ℕ) → write_weight (W.key write.now) (W.value write.now) ≤ more → HasRoom self.old more
            → HasRoom self.new (more - write_weight (W.key write.now) (W.value write.now)) }
        ensures grown { IsGrown self.old self.new (write_weight (W.key write.now) (W.value write.now)) }
    {
        let key = write.key();
        let value = write.value();
        let weight = WEIGHT_OF_KEY + key.len() + length_of(value);
        self.append(hash, key, value, weight);
        let _oldest = self.oldest();
    }

    /// Gives a key another value in place, or none, where its newest record stands in the mutable part and has room for that. It takes no
    /// memory and no room.
    pub fn overwrite_at(&mut self, key: &[u8], spot: Spot, value: Option<&[u8]>)
        requires place { IsInPlace self.old key.now (length (value_bytes (option_copied value))) spot.address }
        requires fits { length (value_bytes (option_copied value)) ≤ VALUE_BYTES_MAX }
        ensures written { IsWritten self.old key.now (option_copied value.entry) self.new }
        ensures contents { (other : List ℕ) → contents (log_of self.new) other
            ≡ update bytes_eq (contents (log_of self.old)) key.now (option_copied value.entry) other }
        ensures grown { IsGrown self.old self.new (write_weight key.now (option_copied value.entry)) }
    {
        let _ = key;
        self.overwrite(Address::from_number(spot.address), value);
    }

    // Gives a key with this hash another value, or none.
    fn write(&mut self, hash: u64, key: &[u8], value: Option<&[u8]>)
        requires hash { hash ≡ hash_of key.now }
        requires room { HasRoom self.old (write_weight key.now (option_copied value)) }
        requires fits { Fits key.now (option_copied value) }
        ensures written { IsWritten self.old key.now (option_copied value.entry) self.new }
        ensures contents { (other : List ℕ) → contents (log_of self.new) other ≡ update bytes_eq (contents (log_of self.old)) key.now (option_copied value.entry) other }
        ensures grown { IsGrown self.old self.new (write_weight key.now (option_copied value.entry)) }
    {
        match self.place(hash, key, length_of(value)) {
            Some(address) => self.overwrite(address, value),
            None => {
                let weight = WEIGHT_OF_KEY + key.len() + length_of(value);
                self.append(hash, key, value, weight);
            }
        }
    }

    // Puts another value into the record at an address.
    fn overwrite(&mut self, address: Address, value: Option<&[u8]>)
        requires room { IsRoomy self.old address (length (value_bytes (option_copied value))) }
        requires fits { length (value_bytes (option_copied value)) ≤ VALUE_BYTES_MAX }
        ensures log { log_of self.new ≡ map (with_value address (option_copied value.entry)) (log_of self.old) }
        ensures contents { (key : List ℕ) (size : ℕ) → IsInPlace self.old key size address → (other : List ℕ) → contents (log_of self.new) other ≡ update bytes_eq (contents (log_of self.old)) key (option_copied value.entry) other }
        ensures put { IsPut self.old self.new }
        ensures heads { self.new.heads ≡ self.old.heads }
        ensures bytes { tail_bytes self.new ≡ tail_bytes self.old }
    {
        let Some(page) = self.frames.page_mut(address.page()) else {
            unreachable!()
        };
        overwrite(page, address.offset(), value);
    }

    // Puts a record of the key at the tail, and opens a page for it where the tail page is full.
    // Gives its address.
    pub(crate) fn append(
        &mut self,
        hash: u64,
        key: &[u8],
        value: Option<&[u8]>,
        weight: usize,
    ) -> Address
        requires hash { hash ≡ hash_of key.now }
        requires room { HasRoom self.old weight }
        requires within { write_weight key.now (option_copied value) ≤ weight }
        requires fits { Fits key.now (option_copied value) }
        ensures added { IsAdded self.old self.new result key.now (option_copied value.entry) }
        ensures resident { begin_of self.old.resident.oldest ≤ result }
        ensures room { HasRoom self.new (weight - write_weight key.now (option_copied value.entry)) }
        ensures grown { IsGrown self.old self.new (write_weight key.now (option_copied value.entry)) }
    {
        let free = PAGE_SIZE - self.tail_end();
        if record_size(key.len(), length_of(value)) <= free {
            return self.put(hash, key, value);
        }
        self.open_page(weight);
        self.put(hash, key, value)
    }

    // Opens a page behind the tail page.
    fn open_page(&mut self, weight: usize)
        requires room { 0 < free self.old }
        requires numbers { next_number self.old.resident + weight ≤ 2 * LAST_PAGE }
        ensures log { self.new ≡ with_page_opened self.old }
        ensures tail { tail_bytes self.new ≡ 0 }
        ensures records { log_of self.new ≡ log_of self.old }
    {
        let _ = weight;
        let Ok(_number) = self.frames.open_next() else {
            unreachable!()
        };
        self.receipts.push_back_reserved(None);
    }

    // Puts a record of the key into the tail page, and gives its address.
    fn put(&mut self, hash: u64, key: &[u8], value: Option<&[u8]>) -> Address
        requires hash { hash ≡ hash_of key.now }
        requires fits { Fits key.now (option_copied value) }
        requires room { tail_bytes self.old + size_for (length key.now) (length (value_bytes (option_copied value))) ≤ PAGE_SIZE - HEADER_SIZE }
        ensures log { IsAppended (log_of self.old) (log_of self.new) result (head_of self.old key.now) key.now (option_copied value.entry) }
        ensures heads { self.new.heads ≡ slice_set self.old.heads (bucket_of self.old key.now) result }
        ensures address { result ≡ begin_of (next_number self.old.resident - 1) + tail_bytes self.old }
        ensures resident { begin_of self.old.resident.oldest ≤ result }
        ensures bytes { tail_bytes self.new ≡ tail_bytes self.old + size_for (length key.now) (length (value_bytes (option_copied value.entry))) }
        ensures put { IsPut self.old self.new }
    {
        let index_hash = self.index_hash(hash);
        let link = self.index.head(index_hash);
        let number = self.frames.next_number() - 1;
        let Some(page) = self.frames.page_mut(number) else {
            unreachable!()
        };
        let Ok(offset) = put_record(page, link, hash, key, value) else {
            unreachable!()
        };
        let address = Address::of(number, offset);
        self.index.set_head(index_hash, address.number());
        address
    }
}

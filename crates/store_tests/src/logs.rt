ghost use Rattle.std.specs.Prelude.{◌≡◌, ◌<◌, ◌≤◌, ◌+◌, length};
ghost use Rattle.std.specs.Option.{option_copied};
ghost use Rattle.records.specs.Records.{value_bytes};
ghost use Rattle.hybrid.specs.HybridLog.{HasRoom, log_of};
ghost use Rattle.hybrid.specs.Log.{contents};
ghost use Rattle.hybrid.specs.Staging.{AreRight};

use crate::file::written;
use crate::memory::{new_page, one_opening};
use crate::pages::byte_of;
use device::{Device, Faulty, FaultyReceipt, MemoryDevice, MemoryReceipt, Shows};
use hybrid::{Cleaned, Fault, Lookup, Purpose, Room, Staged, Stripe, Weighed, Write};
use records::{KEY_BYTES_MAX, Page, Record, record_at};
use std::alloc::Global;
use std::process::Abort;
use words::hash::hash_of;
use words::limits::{Limits, VALUE_BYTES_MAX, WEIGHT_OF_KEY};

mod flushed;
mod pieced;

// One write.
#[derive(Drop)]
struct OneWrite<'a> {
    key: &'a [u8],
    value: Option<&'a [u8]>,
}

impl Write for OneWrite<'_> {
    ghost key = { λ w. w.key.now };

    ghost value = { λ w. option_copied w.value };

    fn key(&self) -> &[u8] {
        self.key
    }

    fn value(&self) -> Option<&[u8]> {
        self.value
    }
}

// The length of a value, 0 where there is none.
fn length_of(value: Option<&[u8]>) -> usize
    ensures { result ≡ length (value_bytes (option_copied value.entry)) }
{
    match value {
        Some(bytes) => bytes.len(),
        None => 0,
    }
}

// A receipt that lends no page.
type Receipt = FaultyReceipt<MemoryReceipt>;

// A stripe of a store of one stripe with 12 frames, and its device, which has to be read.
struct Shelf {
    stripe: Stripe<Receipt>,
    device: Faulty<MemoryDevice>,
    // Where a page is copied to.
    copy: Page,
}

impl Drop for Shelf {
    fn drop(self) {
        let Shelf {
            stripe: _,
            device: _,
            copy: _,
        } = self;
    }
}

fn new_shelf(rt: &impl Abort, alloc: Global, buckets: usize, places: usize) -> Shelf {
    new_failing_shelf(rt, alloc, buckets, places, Vec::new(alloc))
}

// A shelf of a device whose calls of these numbers fail.
fn new_failing_shelf(
    rt: &impl Abort,
    alloc: Global,
    buckets: usize,
    places: usize,
    failing: Vec<u64>,
) -> Shelf {
    let limits = Limits::new(1, buckets, 12, places, 1).expect(rt, "the limits");
    Shelf {
        stripe: Stripe::new(alloc, &limits).expect(rt, "memory for a stripe"),
        device: Faulty::new(one_opening(rt, alloc), failing),
        copy: new_page(rt, alloc, 0),
    }
}

impl Shelf {
    // Gives a key a value, or none.
    fn put(&mut self, key: &[u8], value: Option<&[u8]>) -> Result<(), Fault> {
        if key.len() > KEY_BYTES_MAX || length_of(value) > VALUE_BYTES_MAX {
            return Err(Fault::StoreFull);
        }
        let weight = WEIGHT_OF_KEY + key.len() + length_of(value);
        let _room = self
            .stripe
            .reserve(weight, Purpose::Clean, &mut self.device)?;
        self.stripe.install_one(&OneWrite { key, value });
        Ok(())
    }

    // Gives a key a value, or none, in a record at the tail.
    fn append(&mut self, key: &[u8], value: Option<&[u8]>) -> Result<(), Fault> {
        if key.len() > KEY_BYTES_MAX || length_of(value) > VALUE_BYTES_MAX {
            return Err(Fault::StoreFull);
        }
        let weight = WEIGHT_OF_KEY + key.len() + length_of(value);
        let _room = self
            .stripe
            .reserve(weight, Purpose::Clean, &mut self.device)?;
        self.stripe
            .append_one(hash_of(key), &OneWrite { key, value });
        Ok(())
    }
}

// Reads the page that a lookup needs.
fn stage(
    rt: &impl Abort,
    stripe: &Stripe<Receipt>,
    device: &mut Faulty<MemoryDevice>,
    staged: &mut Staged<Receipt>,
    number: u64,
) {
    let receipt = stripe.receipt(number).expect(rt, "a receipt");
    let copy = receipt.again().expect(rt, "memory for a receipt");
    assert!(rt; staged.read(copy, device).is_ok());
}

// Reads what a lookup needs of a page: a piece with the record at this offset, or the whole page if a piece of it was read.
fn stage_at(
    stripe: &Stripe<Receipt>,
    device: &mut Faulty<MemoryDevice>,
    staged: &mut Staged<Receipt>,
    number: u64,
    offset: usize,
) -> Option<()> {
    let copy = stripe.receipt(number)?.again().ok()?;
    staged.read_at(copy, offset, device).ok()
}

impl Shelf {
    // Whether a key has this value, or none. Reads what the lookup needs, pieces of pages first.
    fn holds(&mut self, alloc: Global, key: &[u8], value: Option<&[u8]>) -> bool {
        let mut staged = Staged::new(alloc);
        let is_so = self.holds_by_pieces(&mut staged, key, value) == Some(true);
        drop(staged);
        is_so
    }

    // The same, where `None` says that a read failed.
    fn holds_by_pieces(
        &mut self,
        staged: &mut Staged<Receipt>,
        key: &[u8],
        value: Option<&[u8]>,
    ) -> Option<bool> {
        for _ in 0..400 {
            match self.stripe.find(key, staged) {
                Lookup::Found(found) => return Some(value == Some(found)),
                Lookup::Absent => return Some(value.is_none()),
                Lookup::Cold(number, offset) => {
                    stage_at(&self.stripe, &mut self.device, staged, number, offset)?;
                }
            }
        }
        None
    }

    // The same with the whole pages.
    fn holds_with(
        &mut self,
        rt: &impl Abort,
        staged: &mut Staged<Receipt>,
        key: &[u8],
        value: Option<&[u8]>,
    ) -> bool {
        for _ in 0..400 {
            match self.stripe.find(key, staged) {
                Lookup::Found(found) => return value == Some(found),
                Lookup::Absent => return value.is_none(),
                Lookup::Cold(number, _) => {
                    stage(rt, &self.stripe, &mut self.device, staged, number);
                }
            }
        }
        false
    }

    // Writes the copy of a sealed page to the device.
    fn flush_copy(&mut self, rt: &impl Abort, number: u64) -> bool {
        let receipt = written(rt, &mut self.device, &self.copy);
        let page = &self.copy;
        self.stripe.take_place() && self.stripe.mark_flushed(number, page, receipt).is_ok()
    }

    // Writes a sealed page to the device, and says whether one was there.
    fn flush(&mut self, rt: &impl Abort) -> bool {
        let Some(number) = self.stripe.sealed() else {
            return false;
        };
        match self.stripe.page(number) {
            Some(page) => self.copy.copy_from(page),
            None => return false,
        }
        self.flush_copy(rt, number)
    }

    // Takes the oldest page out of the log, with room for what lives in it, and says whether it did.
    fn clean(&mut self, rt: &impl Abort, alloc: Global) -> bool {
        let mut staged = Staged::new(alloc);
        let is_cleaned = self.clean_staged(rt, &mut staged);
        drop(staged);
        is_cleaned
    }

    fn clean_staged(&mut self, rt: &impl Abort, staged: &mut Staged<Receipt>) -> bool {
        for _ in 0..400 {
            match self.stripe.weigh_oldest(staged) {
                Weighed::Resident => return false,
                Weighed::Cold(number) => {
                    stage(rt, &self.stripe, &mut self.device, staged, number);
                }
                Weighed::Live(weight) => {
                    let room = self
                        .stripe
                        .reserve(weight, Purpose::Clean, &mut self.device)
                        .expect(rt, "room for what lives");
                    return self.clean_with(rt, staged, room);
                }
            }
        }
        panic!(rt; "no end of cold pages")
    }

    fn clean_with(&mut self, rt: &impl Abort, staged: &mut Staged<Receipt>, mut room: Room) -> bool
        requires room { HasRoom self.old.stripe room.weight }
    {
        for _ in 0..400 {
            match self.stripe.clean_oldest(staged, room, &mut self.copy) {
                Cleaned::Unlinked(_receipt) => {
                    self.stripe.free_place();
                    return true;
                }
                Cleaned::Nothing => return false,
                Cleaned::Heavy(_weight) => panic!(rt; "room for too little"),
                Cleaned::Cold(number, same) => {
                    stage(rt, &self.stripe, &mut self.device, staged, number);
                    room = same;
                }
            }
        }
        panic!(rt; "no end of cold pages")
    }
}

// Whether this record of page 0 has this link, room for so many bytes, and this value.
fn shows(
    stripe: &Stripe<Receipt>,
    offset: usize,
    link: u64,
    capacity: usize,
    value: &[u8],
) -> bool {
    let Some(page) = stripe.page(0) else {
        return false;
    };
    match record_at(page, offset) {
        Ok(record) => {
            record.link == link && record.capacity == capacity && record.value == Some(value)
        }
        Err(_) => false,
    }
}

// Whether page 0 is used up to this place.
fn ends_at(stripe: &Stripe<Receipt>, end: u32) -> bool {
    match stripe.page(0) {
        Some(page) => page.used_end() == end,
        None => false,
    }
}

// Gives a key a value, or none.
fn puts(rt: &impl Abort, shelf: &mut Shelf, key: &[u8], value: Option<&[u8]>) {
    assert!(rt; shelf.put(key, value).is_ok());
}

// A key can be looked up, and has this value, or none.
fn has(rt: &impl Abort, shelf: &mut Shelf, alloc: Global, key: &[u8], value: Option<&[u8]>) {
    assert!(rt; shelf.holds(alloc, key, value));
}

#[test]
fn in_place_then_at_the_tail(rt: HostRuntime) {
    let mut shelf = new_shelf(&rt, rt.alloc(), 4096, 64);
    writes_in_place(&mut shelf, &rt);
    writes_at_the_tail(&mut shelf, &rt);
    drop(shelf);
}

fn writes_in_place(shelf: &mut Shelf, rt: &impl Abort) {
    puts(rt, shelf, b"a", Some(b"1"));
    puts(rt, shelf, b"a", Some(b"123"));
    assert!(rt; ends_at(&shelf.stripe, 48));
    assert!(rt; shows(&shelf.stripe, 16, 0, 3, b"123"));
}

fn writes_at_the_tail(shelf: &mut Shelf, rt: &impl Abort) {
    puts(rt, shelf, b"a", Some(b"12345678"));
    assert!(rt; ends_at(&shelf.stripe, 88));
    assert!(rt; shows(&shelf.stripe, 48, 16, 11, b"12345678"));
}

#[test]
fn a_record_that_is_appended_hides_the_old_one(rt: HostRuntime) {
    let mut shelf = new_shelf(&rt, rt.alloc(), 4096, 64);
    appends(&mut shelf, rt.alloc(), &rt);
    drop(shelf);
}

fn appends(shelf: &mut Shelf, alloc: Global, rt: &impl Abort) {
    puts(rt, shelf, b"a", Some(b"1"));
    assert!(rt; shelf.append(b"a", Some(b"123")).is_ok());
    assert!(rt; ends_at(&shelf.stripe, 80));
    assert!(rt; shows(&shelf.stripe, 48, 16, 3, b"123"));
    has(rt, shelf, alloc, b"a", Some(b"123"));
    assert!(rt; shelf.append(b"a", None).is_ok());
    has(rt, shelf, alloc, b"a", None);
}

// Whether the record at offset 48 of page 0 is of this kind.
fn is_kind(stripe: &Stripe<Receipt>, kind: u8) -> bool {
    match stripe.page(0) {
        Some(page) => byte_of(page, 66) == Some(kind),
        None => false,
    }
}

#[test]
fn a_tombstone_becomes_a_value_again(rt: HostRuntime) {
    let mut shelf = new_shelf(&rt, rt.alloc(), 4096, 64);
    writes_a_tombstone(&mut shelf, rt.alloc(), &rt);
    writes_a_value_again(&mut shelf, rt.alloc(), &rt);
    drop(shelf);
}

fn writes_a_tombstone(shelf: &mut Shelf, alloc: Global, rt: &impl Abort) {
    puts(rt, shelf, b"a", Some(b"1"));
    puts(rt, shelf, b"a", Some(b"12345678"));
    assert!(rt; is_kind(&shelf.stripe, 1));
    puts(rt, shelf, b"a", None);
    assert!(rt; is_kind(&shelf.stripe, 2));
    has(rt, shelf, alloc, b"a", None);
}

fn writes_a_value_again(shelf: &mut Shelf, alloc: Global, rt: &impl Abort) {
    puts(rt, shelf, b"a", Some(b"x"));
    assert!(rt; is_kind(&shelf.stripe, 1));
    assert!(rt; ends_at(&shelf.stripe, 88));
    has(rt, shelf, alloc, b"a", Some(b"x"));
}

#[test]
fn a_key_is_found_behind_others_of_its_bucket(rt: HostRuntime) {
    let mut shelf = new_shelf(&rt, rt.alloc(), 1, 64);
    finds_keys_of_one_bucket(&mut shelf, rt.alloc(), &rt);
    drop(shelf);
}

fn finds_keys_of_one_bucket(shelf: &mut Shelf, alloc: Global, rt: &impl Abort) {
    puts(rt, shelf, b"a", Some(b"1"));
    puts(rt, shelf, b"b", Some(b"2"));
    puts(rt, shelf, b"a", Some(b"long enough"));
    has(rt, shelf, alloc, b"a", Some(b"long enough"));
    has(rt, shelf, alloc, b"b", Some(b"2"));
    has(rt, shelf, alloc, b"c", None);
}

// The key of a number.
fn key_of(number: u16) -> [u8; 2] {
    number.to_be_bytes()
}

// Gives the key of a number a value, and says whether it could: the store may be full.
fn is_put(rt: &impl Abort, shelf: &mut Shelf, number: u16, value: &[u8]) -> bool {
    match shelf.put(&key_of(number), Some(value)) {
        Ok(()) => true,
        Err(Fault::StoreFull) => false,
        Err(Fault::DeviceFault) => panic!(rt; "a fault of the device"),
    }
}

// Puts keys below a number with 1,000 bytes, until the store is full, and says how many.
fn fill(rt: &impl Abort, shelf: &mut Shelf, to: u16) -> u16 {
    for number in 0..to {
        if !is_put(rt, shelf, number, &[(number % 128) as u8; 1000]) {
            return number;
        }
    }
    to
}

// Puts keys below a number with 8,000 bytes, of which 8 stand in a page, until the store is full, and says how many.
fn fill_long(rt: &impl Abort, shelf: &mut Shelf, to: u16) -> u16 {
    for number in 0..to {
        if !is_put(rt, shelf, number, &[b'l'; 8000]) {
            return number;
        }
    }
    to
}

// The keys below a number have their values. A page that was read stays at hand for as many keys as stand in it.
fn are_there(rt: &impl Abort, shelf: &mut Shelf, alloc: Global, count: u16) {
    let mut staged = Staged::new(alloc);
    for number in 0..count {
        if number % 63 == 0 {
            staged.clear();
        }
        let value = [(number % 128) as u8; 1000];
        assert!(rt; shelf.holds_with(rt, &mut staged, &key_of(number), Some(&value)));
    }
    drop(staged);
}

// The keys below a number can be put.
fn fills(rt: &impl Abort, shelf: &mut Shelf, count: u16) {
    assert!(rt; fill(rt, shelf, count) == count);
}

#[test]
fn three_thousand_keys_in_twelve_frames(rt: HostRuntime) {
    let mut shelf = new_shelf(&rt, rt.alloc(), 4096, 4096);
    keeps_three_thousand_keys(&mut shelf, rt.alloc(), &rt);
    drop(shelf);
}

// Whether these pages have frames, and the ones beside them have none.
fn are_resident(stripe: &Stripe<Receipt>, first: u64, last: u64) -> bool {
    stripe.page(first.saturating_sub(1)).is_none()
        && stripe.page(first).is_some()
        && stripe.page(last).is_some()
        && stripe.page(last.saturating_add(1)).is_none()
}

// They take 48 pages, since 63 stand in each.
fn keeps_three_thousand_keys(shelf: &mut Shelf, alloc: Global, rt: &impl Abort) {
    fills(rt, shelf, 3000);
    assert!(rt; are_resident(&shelf.stripe, 36, 47));
    are_there(rt, shelf, alloc, 3000);
    has(rt, shelf, alloc, &key_of(3000), None);
}

// Values of the most bytes stand in a page each, and are read back from the device.
#[test]
fn values_of_the_most_bytes(rt: HostRuntime) {
    let mut shelf = new_shelf(&rt, rt.alloc(), 4096, 64);
    keeps_the_longest(&mut shelf, rt.alloc(), &rt);
    drop(shelf);
}

fn keeps_the_longest(shelf: &mut Shelf, alloc: Global, rt: &impl Abort) {
    for number in 0..20 {
        puts(rt, shelf, &key_of(number), Some(&[number as u8; 32_768]));
    }
    assert!(rt; shelf.stripe.page(0).is_none() && shelf.stripe.page(19).is_some());
    for number in 0..20 {
        has(
            rt,
            shelf,
            alloc,
            &key_of(number),
            Some(&[number as u8; 32_768]),
        );
    }
}

#[test]
fn a_full_store_still_reads(rt: HostRuntime) {
    let mut shelf = new_shelf(&rt, rt.alloc(), 4096, 64);
    reads_where_it_is_full(&mut shelf, rt.alloc(), &rt);
    drop(shelf);
}

fn reads_where_it_is_full(shelf: &mut Shelf, alloc: Global, rt: &impl Abort) {
    let count = fill(rt, shelf, 5000);
    assert!(rt; shelf.stripe.unreleased() == 64);
    assert!(rt; count >= 64 * 63 && count <= 76 * 63);
    are_there(rt, shelf, alloc, count);
}

// Whether this page is the next to be written.
fn is_sealed(stripe: &Stripe<Receipt>, number: u64) -> bool {
    matches!(stripe.sealed(), Some(page) if page == number)
}

#[test]
fn a_page_that_differs_in_one_byte_is_not_kept(rt: HostRuntime) {
    let mut shelf = new_shelf(&rt, rt.alloc(), 4096, 64);
    seals_page_0(&mut shelf, &rt);
    refuses_another_page(&mut shelf, rt.alloc(), &rt);
    drop(shelf);
}

fn seals_page_0(shelf: &mut Shelf, rt: &impl Abort) {
    fills(rt, shelf, 630);
    assert!(rt; is_sealed(&shelf.stripe, 0));
    assert!(rt; shelf.stripe.page(0).is_some());
}

// A copy of page 0.
fn copy_of_page_0(rt: &impl Abort, alloc: Global, stripe: &Stripe<Receipt>) -> Page {
    let mut copy = new_page(rt, alloc, 0);
    if let Some(page) = stripe.page(0) {
        copy.copy_from(page);
    }
    copy
}

// Page 0 with another byte.
fn another_page(rt: &impl Abort, alloc: Global, stripe: &Stripe<Receipt>) -> Page {
    let mut other = copy_of_page_0(rt, alloc, stripe);
    other.bytes_mut()[1000] ^= 1;
    other
}

// The receipt of this page is given back in place of being kept for page 0.
fn refuses_receipt(rt: &impl Abort, shelf: &mut Shelf, page: &Page) {
    let receipt = written(rt, &mut shelf.device, page);
    assert!(rt; shelf.stripe.take_place());
    assert!(rt; shelf.stripe.mark_flushed(0, page, receipt).is_err());
}

fn refuses_another_page(shelf: &mut Shelf, alloc: Global, rt: &impl Abort) {
    let other = another_page(rt, alloc, &shelf.stripe);
    refuses_receipt(rt, shelf, &other);
    assert!(rt; is_sealed(&shelf.stripe, 0));
    assert!(rt; !shelf.stripe.drop_oldest());
    drop(other);
}

#[test]
fn a_flushed_page_leaves_its_frame_and_the_log(rt: HostRuntime) {
    let mut shelf = new_shelf(&rt, rt.alloc(), 4096, 64);
    flushes(&mut shelf, &rt);
    drops(&mut shelf, &rt);
    cleans(&mut shelf, rt.alloc(), &rt);
    drop(shelf);
}

fn flushes(shelf: &mut Shelf, rt: &impl Abort) {
    fills(rt, shelf, 630);
    assert!(rt; shelf.flush(rt));
    assert!(rt; is_sealed(&shelf.stripe, 1));
    assert!(rt; shelf.stripe.receipt(0).is_some());
}

fn drops(shelf: &mut Shelf, rt: &impl Abort) {
    assert!(rt; shelf.stripe.drop_oldest());
    assert!(rt; shelf.stripe.page(0).is_none());
}

fn cleans(shelf: &mut Shelf, alloc: Global, rt: &impl Abort) {
    assert!(rt; shelf.clean(rt, alloc));
    assert!(rt; shelf.stripe.oldest() == 1);
    are_there(rt, shelf, alloc, 630);
}

// What a key should have: a length and a byte.
type Known = [Option<(usize, u8)>; 64];

// Gives a key so many times a byte.
fn put_bytes(rt: &impl Abort, shelf: &mut Shelf, key: &[u8], length: usize, byte: u8)
    requires { length < 6000 }
{
    let value = [byte; 6000];
    puts(rt, shelf, key, Some(&value[..length]));
}

// One step of a random run: a write, a deletion, a flush, a drop or a clean.
fn step(rt: &impl Abort, shelf: &mut Shelf, alloc: Global, known: &mut Known, random: u64) {
    let at = (random % 64) as usize;
    let key = key_of(at as u16);
    let length = (random / 64 % 6000) as usize;
    let byte = (random / 100_000 % 256) as u8;
    match random / 100_000_000 % 10 {
        0 => {
            puts(rt, shelf, &key, None);
            known[at] = None;
        }
        1 => {
            shelf.flush(rt);
        }
        2 => {
            shelf.stripe.drop_oldest();
        }
        3 => {
            shelf.clean(rt, alloc);
        }
        _ => {
            put_bytes(rt, shelf, &key, length, byte);
            known[at] = Some((length, byte));
        }
    }
}

// Whether a key has so many times a byte.
fn has_bytes(
    shelf: &mut Shelf,
    staged: &mut Staged<Receipt>,
    key: &[u8],
    length: usize,
    byte: u8,
) -> bool {
    let value = [byte; 6000];
    length <= 6000 && shelf.holds_by_pieces(staged, key, Some(&value[..length])) == Some(true)
}

// Whether a key has what it should.
fn has_known(
    shelf: &mut Shelf,
    staged: &mut Staged<Receipt>,
    key: &[u8],
    known: Option<(usize, u8)>,
) -> bool {
    match known {
        None => shelf.holds_by_pieces(staged, key, None) == Some(true),
        Some((length, byte)) => has_bytes(shelf, staged, key, length, byte),
    }
}

// Each key can be looked up, and has what it should.
fn is_known(rt: &impl Abort, shelf: &mut Shelf, alloc: Global, known: &Known) {
    let mut staged = Staged::new(alloc);
    for (at, entry) in known.iter().enumerate() {
        let key = key_of(at as u16);
        assert!(rt; has_known(shelf, &mut staged, &key, *entry), "key {at}");
    }
    drop(staged);
}

#[test]
fn a_random_run_reads_as_a_map(rt: HostRuntime) {
    let mut shelf = new_shelf(&rt, rt.alloc(), 4096, 64);
    runs_at_random(&mut shelf, rt.alloc(), &rt);
    drop(shelf);
}

fn runs_at_random(shelf: &mut Shelf, alloc: Global, rt: &impl Abort) {
    let mut known = [None; 64];
    let mut random: u64 = 7;
    for count in 0..6000 {
        random = random
            .wrapping_mul(6_364_136_223_846_793_005)
            .wrapping_add(1_442_695_040_888_963_407);
        step(rt, shelf, alloc, &mut known, random >> 20);
        if count % 500 == 499 {
            is_known(rt, shelf, alloc, &known);
        }
    }
    assert!(rt; shelf.stripe.oldest() > 20);
}

// Deletes the keys below a number, as far as there is room for it, and says how many.
fn deletes(shelf: &mut Shelf, count: u16) -> usize {
    let mut deleted = 0;
    for number in 0..count {
        if shelf.put(&key_of(number), None).is_ok() && deleted < 65_536 {
            deleted += 1;
        }
    }
    deleted
}

#[test]
fn a_full_store_can_be_cleaned(rt: HostRuntime) {
    let mut shelf = new_shelf(&rt, rt.alloc(), 4096, 64);
    cleans_where_it_is_full(&mut shelf, rt.alloc(), &rt);
    drop(shelf);
}

fn cleans_where_it_is_full(shelf: &mut Shelf, alloc: Global, rt: &impl Abort) {
    let count = fill_long(rt, shelf, 700);
    assert!(rt; shelf.stripe.is_full() && !shelf.stripe.take_place());
    let deleted = deletes(shelf, count);
    assert!(rt; deleted > 8);
    assert!(rt; shelf.clean(rt, alloc));
    assert!(rt; !shelf.stripe.is_full());
}

#[test]
fn a_page_without_a_live_record_wants_no_room(rt: HostRuntime) {
    let mut shelf = new_shelf(&rt, rt.alloc(), 4096, 64);
    weighs_nothing(&mut shelf, rt.alloc(), &rt);
    drop(shelf);
}

// A page is read.
fn stages(rt: &impl Abort, shelf: &mut Shelf, staged: &mut Staged<Receipt>, number: u64) {
    stage(rt, &shelf.stripe, &mut shelf.device, staged, number);
}

fn weighs_nothing(shelf: &mut Shelf, alloc: Global, rt: &impl Abort) {
    let mut staged = Staged::new(alloc);
    fills(rt, shelf, 1260);
    fills(rt, shelf, 63);
    assert!(rt; shelf.stripe.page(0).is_none());
    assert!(rt; shelf.stripe.weigh_oldest(&staged) == Weighed::Cold(0));
    stages(rt, shelf, &mut staged, 0);
    assert!(rt; shelf.stripe.weigh_oldest(&staged) == Weighed::Live(0));
    drop(staged);
}

#[test]
fn places_are_counted(rt: HostRuntime) {
    let mut shelf = new_shelf(&rt, rt.alloc(), 4096, 64);
    counts_places(&mut shelf, &rt);
    drop(shelf);
}

fn counts_places(shelf: &mut Shelf, rt: &impl Abort) {
    fills(rt, shelf, 630);
    assert!(rt; !shelf.stripe.has_spare_place());
    assert!(rt; shelf.stripe.take_place());
    assert!(rt; shelf.stripe.has_spare_place());
    shelf.stripe.free_place();
    assert!(rt; shelf.flush(rt));
    assert!(rt; shelf.stripe.unreleased() == 1 && !shelf.stripe.has_spare_place());
}

// A page is read once, and then staged, until the pages are let go.
#[test]
fn a_cold_page_is_read_once(rt: HostRuntime) {
    let mut shelf = new_shelf(&rt, rt.alloc(), 4096, 64);
    reads_once(&mut shelf, rt.alloc(), &rt);
    drop(shelf);
}

// The device is read so often until a key is found, which has this value.
fn is_read(
    rt: &impl Abort,
    shelf: &mut Shelf,
    staged: &mut Staged<Receipt>,
    key: &[u8],
    value: &[u8],
    reads: u64,
) {
    let before = shelf.device.calls();
    assert!(rt; shelf.holds_by_pieces(staged, key, Some(value)) == Some(true));
    assert!(rt; shelf.device.calls().wrapping_sub(before) == reads);
}

fn reads_once(shelf: &mut Shelf, alloc: Global, rt: &impl Abort) {
    let (key, value) = (key_of(0), [0; 1000]);
    fills(rt, shelf, 1260);
    let mut staged = Staged::new(alloc);
    is_read(rt, shelf, &mut staged, &key, &value, 1);
    is_read(rt, shelf, &mut staged, &key, &value, 0);
    staged.clear();
    assert!(rt; is_cold(&shelf.stripe, &staged, 0) && staged.rooms() == 1);
    is_read(rt, shelf, &mut staged, &key, &value, 1);
    drop(staged);
}

// Pages that are read one after the other take the memory of one. It stays where they are let go, and is that of two once two were read.
#[test]
fn cold_reads_take_the_memory_of_those_at_once(rt: HostRuntime) {
    let mut shelf = new_shelf(&rt, rt.alloc(), 4096, 64);
    takes_no_more(&mut shelf, rt.alloc(), &rt);
    drop(shelf);
}

fn takes_no_more(shelf: &mut Shelf, alloc: Global, rt: &impl Abort) {
    let mut staged = Staged::new(alloc);
    fills(rt, shelf, 1260);
    for _ in 0..100 {
        stages(rt, shelf, &mut staged, 0);
        assert!(rt; staged.rooms() == 1);
        staged.clear();
        assert!(rt; staged.rooms() == 1);
    }
    stages(rt, shelf, &mut staged, 0);
    stages(rt, shelf, &mut staged, 1);
    assert!(rt; staged.rooms() == 2);
    staged.clear();
    assert!(rt; staged.rooms() == 2);
    drop(staged);
}

// Whether the lookup of a key is cold.
fn is_cold<R: Shows>(stripe: &Stripe<R>, staged: &Staged<R>, number: u16) -> bool {
    let key = key_of(number);
    matches!(
        stripe.find_hashed(hash_of(&key), &key, staged),
        Lookup::Cold(_, _)
    )
}

// Gives a key a value over memory, by its hash.
fn put_hashed(
    stripe: &mut Stripe<MemoryReceipt>,
    device: &mut MemoryDevice,
    key: &[u8],
    value: Option<&[u8]>,
) -> Result<(), Fault> {
    if key.len() > KEY_BYTES_MAX || length_of(value) > VALUE_BYTES_MAX {
        return Err(Fault::StoreFull);
    }
    let weight = WEIGHT_OF_KEY + key.len() + length_of(value);
    let _room = stripe.reserve(weight, Purpose::Clean, device)?;
    stripe.install_one_hashed(hash_of(key), &OneWrite { key, value });
    Ok(())
}

// Puts keys of 1,000 bytes below a number over memory.
fn fills_memory(
    rt: &impl Abort,
    stripe: &mut Stripe<MemoryReceipt>,
    device: &mut MemoryDevice,
    count: u16,
) {
    for number in 0..count {
        let value = [(number % 128) as u8; 1000];
        assert!(rt; put_hashed(stripe, device, &key_of(number), Some(&value)).is_ok());
    }
}

#[test]
fn over_memory_no_lookup_is_cold(rt: HostRuntime) {
    let limits = Limits::new(1, 4096, 12, 4096, 1).expect(&rt, "the limits");
    let mut device = one_opening(&rt, rt.alloc());
    let mut stripe = Stripe::new(rt.alloc(), &limits).expect(&rt, "memory for a stripe");
    fills_memory(&rt, &mut stripe, &mut device, 3000);
    is_never_cold(&stripe, rt.alloc(), &rt);
    drop(stripe);
    drop(device);
}

// What a key has, where receipts lend their pages.
fn value_lent<'a, R: Shows>(
    stripe: &'a Stripe<R>,
    staged: &'a Staged<R>,
    key: &[u8],
) -> Option<&'a [u8]>
    requires { R.lends }
    ensures right { R.is_honest → AreRight staged.now → option_copied result ≡ contents (log_of stripe.now) key.now }
    ensures short { length (value_bytes (option_copied result)) ≤ VALUE_BYTES_MAX }
{
    match stripe.find(key, staged) {
        Lookup::Found(value) => Some(value),
        Lookup::Absent => None,
        Lookup::Cold(_, _) => unreachable!(),
    }
}

// What lives in the oldest page, where receipts lend their pages and it is not resident.
fn weight_lent<R: Shows>(stripe: &Stripe<R>, staged: &Staged<R>) -> Option<usize>
    requires { R.lends }
{
    match stripe.weigh_oldest(staged) {
        Weighed::Live(weight) => Some(weight),
        Weighed::Resident => None,
        Weighed::Cold(_) => unreachable!(),
    }
}

fn is_never_cold(stripe: &Stripe<MemoryReceipt>, alloc: Global, rt: &impl Abort) {
    let staged = Staged::new(alloc);
    assert!(rt; stripe.page(0).is_none());
    for number in 0..3001 {
        assert!(rt; value_lent(stripe, &staged, &key_of(number)).is_some() == (number < 3000));
    }
    assert!(rt; weight_lent(stripe, &staged).unwrap_or(0) > 65_000);
    drop(staged);
}

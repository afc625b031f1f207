// The records of a page.

ghost use Rattle.std.specs.Prelude.{◌≡◌, ◌<◌, ◌≤◌, ◌↔◌, ℕ, ◌+◌, ◌-◌, ◌*◌, ◌/◌, ◌%◌, ◌^◌, List, [], ◌∷◌, ◌++◌, length, drop, map, replicate, Option, IsTrue, IsOk, IsErr, IfOk, IsOkAnd, OnOk, OnErr, MatchResult, Contains, vec_len, vec_capacity};
ghost use Rattle.std.specs.Option.{option_copied};
ghost use Rattle.records.specs.Page.{number_of, used_end, with_end};
ghost use Rattle.records.specs.Fields.{u16_bytes, u32_bytes, u64_bytes};
ghost use Rattle.records.specs.Read.{shown};
ghost use Rattle.records.specs.Records.{Stored, IsKindFor, value_of_kind, kind_of, size_of, size_for, new_record, value_bytes, filled, head, spelling, fields_at, records_of, IsLaidOut, HasRoomAt, IsRecordAt, IsRecordBefore, HasPiece, with_value};

use crate::fields;
use crate::pages::{self, HEADER_SIZE, PAGE_SIZE, Page, Whole};
use std::error::Error;
use std::fmt;

/// The bytes of a record's header.
pub const RECORD_HEADER: usize = CAPACITY_AT + 4;

/// The longest key, in bytes.
pub const KEY_BYTES_MAX: usize = 512;

// Where the fields of a record's header stand, after the link at its front.
const HASH_AT: usize = 8;

const KEY_LENGTH_AT: usize = HASH_AT + 8;

const KIND_AT: usize = KEY_LENGTH_AT + 2;

const RECORD_FORM_AT: usize = KIND_AT + 1;

const VALUE_LENGTH_AT: usize = RECORD_FORM_AT + 1;

const CAPACITY_AT: usize = VALUE_LENGTH_AT + 4;

/// The bits of a value's length and of its capacity in a record's header.
const LENGTH_BITS: u32 = 32;

/// The form of the records that this crate writes.
const RECORD_FORM: u8 = 2;

/// The kind of a record with a value.
const VALUE: u8 = 1;

/// The kind of a tombstone.
const TOMBSTONE: u8 = 2;

/// A record as it lies in a page: its key and its value are lent from there.
#[derive(Clone, Copy, Debug)]
pub struct Record<'a> {
    /// The address of the next older record of the bucket, or 0.
    pub link: u64,
    /// The hash of the key.
    pub hash: u64,
    /// The key, of at most 512 bytes.
    pub key: &'a [u8],
    /// The value, or `None` for a tombstone.
    pub value: Option<&'a [u8]>,
    /// How long a value may be that takes the place of this one.
    pub capacity: usize,
}

impl Record<'_> {
    /// Whether the record is one of this key.
    #[inline]
    pub fn has_key(&self, key: &[u8]) -> bool
        ensures { IsTrue result ↔ (self.now.key.now ≡ key.now) }
    {
        fields::same_bytes(self.key, key)
    }
}

/// The page has no room left for the record.
#[derive(Clone, Copy, Debug, PartialEq, Eq)]
pub struct NoRoom;

/// No record can be read at the offset.
#[derive(Clone, Copy, Debug, PartialEq, Eq)]
pub struct NotARecord;

impl fmt::Display for NoRoom {
    fn fmt<W: fmt::Write>(&self, f: &mut fmt::Formatter<W>) -> fmt::Result {
        f.write_str("the page has no room for the record")
    }
}

impl fmt::Display for NotARecord {
    fn fmt<W: fmt::Write>(&self, f: &mut fmt::Formatter<W>) -> fmt::Result {
        f.write_str("no record can be read at this offset of the page")
    }
}

impl Error for NoRoom {}

impl Error for NotARecord {}

/// The bytes that a record takes whose key and value have these lengths: its header and both,
/// rounded up to a multiple of 8.
#[inline]
pub fn record_size(key_length: usize, value_length: usize) -> usize
    requires { RECORD_HEADER + key_length + value_length + 7 < 2 ^ 64 }
    ensures { result ≡ size_for key_length value_length }
{
    (RECORD_HEADER + key_length + value_length + 7) / 8 * 8
}

/// The record at an offset of a page, whose bytes may be any.
///
/// Refuses every offset of a page whose used end passes the page's end, an offset in the page's
/// header, at or past the used end or no multiple of 8, a form or kind that is not known, a key
/// length over 512, a value length over the capacity, a size that is no multiple of 8 or passes the
/// used end, and a tombstone with a value length above 0.
#[inline]
pub fn record_at(page: &Page, offset: usize) -> Result<Record<'_>, NotARecord>
    ensures exact { MatchResult result (λ r. IsRecordAt page.now offset × (shown r ≡ fields_at page.now offset)) (λ _. ¬ IsRecordAt page.now offset) }
    ensures found { IsLaidOut page.now → (r : Stored) → Contains (records_of page.now) (offset, r) → IsOkAnd result (λ x. shown x ≡ r) }
{
    let memory = page.memory();
    let end = page.used_end() as usize;
    if end > memory.len() {
        return Err(NotARecord);
    }
    record_in(memory, end, offset)
}

/// The record at an offset of a page, whose bytes may be any, without a look at the page's header: it lies far from most records.
///
/// It finds each record that [`record_at`] finds, and may find one behind the used part. It refuses an offset in the page's header or
/// no multiple of 8, a form or kind that is not known, a key length over 512, a value length over the capacity, a size that is no
/// multiple of 8 or passes the page's end, and a tombstone with a value length above 0.
#[inline]
pub fn record_there(page: &Page, offset: usize) -> Result<Record<'_>, NotARecord>
    ensures there { IsRecordAt page.now offset → IsOk result }
    ensures no_other { IsOk result → IsRecordBefore PAGE_SIZE page.now offset }
    ensures fields { IfOk result (λ r. shown r ≡ fields_at page.now offset) }
    ensures found { IsLaidOut page.now → (r : Stored) → Contains (records_of page.now) (offset, r) → IsOkAnd result (λ x. shown x ≡ r) }
{
    let memory = page.memory();
    record_in(memory, memory.len(), offset)
}

/// The record at an offset of a page of which only the bytes from there up to `end` are known. All other bytes of the page may be
/// any, those of its header too: none of them is read.
///
/// Refuses an `end` over `PAGE_SIZE`, an offset in the page's header, at or past `end` or no multiple of 8, a form or kind that is
/// not known, a key length over 512, a value length over the capacity, a size that is no multiple of 8 or passes `end`, and a
/// tombstone with a value length above 0. Of the records that this crate put into a page it so refuses those alone that pass
/// `end`: more of that page is to be read.
#[inline]
pub fn record_before(page: &Whole, end: usize, offset: usize) -> Result<Record<'_>, NotARecord>
    ensures exact { IsOk result ↔ IsRecordBefore end page.now offset }
    ensures fields { IfOk result (λ r. shown r ≡ fields_at page.now offset) }
    ensures found { (r : Stored) → HasPiece offset end page.now r → offset + size_of r ≤ end → IsOkAnd result (λ x. shown x ≡ r) }
    ensures refused { (r : Stored) → HasPiece offset end page.now r → end < offset + size_of r → IsErr result }
{
    if end > PAGE_SIZE {
        return Err(NotARecord);
    }
    record_in(page.bytes(), end, offset)
}

// The record that ends by `end` at an offset of a page's first bytes.
#[inline]
fn record_in(bytes: &[u8], end: usize, offset: usize) -> Result<Record<'_>, NotARecord>
    requires end { end ≤ length bytes.now }
    requires bound { length bytes.now ≤ PAGE_SIZE }
    ensures exact { IsOk result ↔ IsRecordBefore end bytes.now offset }
    ensures fields { IfOk result (λ r. shown r ≡ fields_at bytes.now offset) }
{
    if offset < HEADER_SIZE || offset % 8 != 0 {
        return Err(NotARecord);
    }
    if offset >= end || end - offset < RECORD_HEADER {
        return Err(NotARecord);
    }
    let key_length = fields::u16_at(bytes, offset + KEY_LENGTH_AT) as usize;
    let value_length = fields::u32_at(bytes, offset + VALUE_LENGTH_AT) as usize;
    let capacity = fields::u32_at(bytes, offset + CAPACITY_AT) as usize;
    let size = RECORD_HEADER + key_length + capacity;
    if key_length > KEY_BYTES_MAX
        || value_length > capacity
        || size % 8 != 0
        || size > end - offset
    {
        return Err(NotARecord);
    }
    if bytes[offset + RECORD_FORM_AT] != RECORD_FORM {
        return Err(NotARecord);
    }
    let key_end = offset + RECORD_HEADER + key_length;
    let value = value_of_kind(
        bytes[offset + KIND_AT],
        &bytes[key_end..key_end + value_length],
    )?;
    Ok(Record {
        link: fields::u64_at(bytes, offset),
        hash: fields::u64_at(bytes, offset + HASH_AT),
        key: &bytes[offset + RECORD_HEADER..key_end],
        value,
        capacity,
    })
}

/// Puts a record at the end of the page's used part, and answers its offset. `None` puts a
/// tombstone.
///
/// Refuses a record that does not fit, and the page is then unchanged. The page has to be laid out,
/// as `Page::new` and this module's calls leave it: so the bytes behind its used part are zero, and
/// only the record's own bytes and the end of the used part in the header are written.
#[inline]
pub fn put_record(
    page: &mut Page,
    link: u64,
    hash: u64,
    key: &[u8],
    value: Option<&[u8]>,
) -> Result<usize, NoRoom>
    requires laid_out { IsLaidOut page.old }
    requires key { length key.now ≤ KEY_BYTES_MAX }
    ensures refused { IsErr result ↔ (PAGE_SIZE < used_end page.old + size_for (length key.now) (length (value_bytes (option_copied value.entry)))) }
    ensures unchanged { OnErr result (page.new ≡ page.old) }
    ensures offset { IfOk result (λ offset. offset ≡ used_end page.old) }
    ensures appended { OnOk result (records_of page.new ≡ records_of page.old ++ (used_end page.old, new_record link hash key.now (option_copied value.entry)) ∷ []) }
    ensures end { OnOk result (used_end page.new ≡ used_end page.old + size_for (length key.now) (length (value_bytes (option_copied value.entry)))) }
    ensures number { number_of page.new ≡ number_of page.old }
    ensures laid_out { IsLaidOut page.new }
{
    let value_length = length_of(value);
    if value_length > PAGE_SIZE {
        return Err(NoRoom);
    }
    let end = page.used_end() as usize;
    let size = record_size(key.len(), value_length);
    if size > PAGE_SIZE - end {
        return Err(NoRoom);
    }
    if page.bytes.len() == end {
        append_record(&mut page.bytes, size, link, hash, key, value);
        return Ok(end);
    }
    let bytes = page.bytes_mut();
    bytes[pages::USED_END_AT..pages::PAGE_FORM_AT].copy_from_slice(
        &((end + size) as u32).to_le_bytes(),
    );
    write_record(&mut bytes[end..end + size], link, hash, key, value);
    Ok(end)
}

// Puts a record behind the bytes of a page's memory, with which its used part ends. Each byte of it is written once.
#[inline]
fn append_record(
    bytes: &mut Vec<u8>,
    size: usize,
    link: u64,
    hash: u64,
    key: &[u8],
    value: Option<&[u8]>,
)
    requires header { HEADER_SIZE ≤ vec_len bytes.old }
    requires room { vec_len bytes.old + size ≤ PAGE_SIZE }
    requires taken { PAGE_SIZE ≤ vec_capacity bytes.old }
    requires key { length key.now ≤ KEY_BYTES_MAX }
    requires size { RECORD_HEADER + length key.now + length (value_bytes (option_copied value)) ≤ size }
    ensures bytes { bytes.new.items ≡ with_end bytes.old.items (vec_len bytes.old + size)
        ++ spelling (record { link = link; hash = hash; key = key.now; value = option_copied value.entry; capacity = size - RECORD_HEADER - length key.now }) }
    ensures len { vec_len bytes.new ≡ vec_len bytes.old + size }
    ensures capacity { vec_capacity bytes.old ≤ vec_capacity bytes.new }
{
    let end = bytes.len() + size;
    bytes.as_mut_slice()[pages::USED_END_AT..pages::PAGE_FORM_AT].copy_from_slice(
        &(end as u32).to_le_bytes(),
    );
    let capacity = size - RECORD_HEADER - key.len();
    let mut head = [0; RECORD_HEADER];
    write_head(&mut head, link, hash, key.len(), value, capacity);
    pages::add(bytes, &head);
    pages::add(bytes, key);
    pages::add(bytes, bytes_of(value));
    pages::add(bytes, &pages::ZEROS[..capacity - length_of(value)]);
}

/// Puts another value, or with `None` a tombstone, into the record at `offset`, in place. The value
/// has to fit the record's capacity.
///
/// The link, the hash, the key and the capacity stay, and so do all other records. Of the bytes
/// behind the new value only those of a longer old one are written.
#[inline]
#[tactic(auto, using(crate::proofs::There::room_within))]
pub fn overwrite(page: &mut Page, offset: usize, value: Option<&[u8]>)
    requires laid_out { IsLaidOut page.old }
    requires fits { HasRoomAt (records_of page.old) offset (length (value_bytes (option_copied value))) }
    ensures changed { records_of page.new ≡ map (with_value offset (option_copied value.entry)) (records_of page.old) }
    ensures end { used_end page.new ≡ used_end page.old }
    ensures number { number_of page.new ≡ number_of page.old }
    ensures laid_out { IsLaidOut page.new }
{
    let bytes = page.bytes.as_mut_slice();
    let key_length = fields::u16_at(bytes, offset + KEY_LENGTH_AT) as usize;
    let old_length = fields::u32_at(bytes, offset + VALUE_LENGTH_AT) as usize;
    let capacity = fields::u32_at(bytes, offset + CAPACITY_AT) as usize;
    let end = offset + RECORD_HEADER + key_length + capacity;
    rewrite_value(&mut bytes[offset..end], key_length, old_length, value);
}

// What a record of this kind holds where these are the bytes of its value.
#[inline]
fn value_of_kind(kind: u8, bytes: &[u8]) -> Result<Option<&[u8]>, NotARecord>
    ensures { MatchResult result (λ value. IsKindFor kind (length bytes.now) × (option_copied value ≡ value_of_kind kind bytes.now)) (λ _. ¬ IsKindFor kind (length bytes.now)) }
{
    match kind {
        VALUE => Ok(Some(bytes)),
        TOMBSTONE if bytes.is_empty() => Ok(None),
        _ => Err(NotARecord),
    }
}

// The bytes of a value, none of a tombstone.
#[inline]
fn bytes_of(value: Option<&[u8]>) -> &[u8]
    ensures { result.now ≡ value_bytes (option_copied value.entry) }
{
    match value {
        Some(bytes) => bytes,
        None => &[],
    }
}

// The length of a value, 0 for a tombstone.
#[inline]
fn length_of(value: Option<&[u8]>) -> usize
    ensures { result ≡ length (value_bytes (option_copied value.entry)) }
{
    match value {
        Some(bytes) => bytes.len(),
        None => 0,
    }
}

// The kind of a record with this value.
#[inline]
fn kind_of(value: Option<&[u8]>) -> u8
    ensures { result ≡ kind_of (option_copied value.entry) }
{
    match value {
        Some(_) => VALUE,
        None => TOMBSTONE,
    }
}

// Writes a record into the bytes that it takes, all of which are zero.
#[inline]
#[tactic(auto, unfolding(crate::specs::Records::spelling))]
fn write_record(slot: &mut [u8], link: u64, hash: u64, key: &[u8], value: Option<&[u8]>)
    requires key { length key.now ≤ KEY_BYTES_MAX }
    requires value { RECORD_HEADER + length key.now + length (value_bytes (option_copied value)) ≤ length slot.old }
    requires size { length slot.old ≤ PAGE_SIZE }
    requires blank { slot.old ≡ replicate (length slot.old) 0 }
    ensures { slot.new ≡ spelling (record { link = link; hash = hash; key = key.now; value = option_copied value.entry; capacity = length slot.old - RECORD_HEADER - length key.now }) }
{
    let capacity = slot.len() - RECORD_HEADER - key.len();
    let (head, rest) = slot.split_at_mut(RECORD_HEADER);
    write_head(head, link, hash, key.len(), value, capacity);
    let (key_part, room) = rest.split_at_mut(key.len());
    key_part.copy_from_slice(key);
    write_value(room, value);
}

// Writes the header of a record whose key has this length.
#[inline]
#[tactic(auto, unfolding(crate::specs::Records::head, crate::specs::Fields::u64_bytes))]
fn write_head(
    slot: &mut [u8],
    link: u64,
    hash: u64,
    key_length: usize,
    value: Option<&[u8]>,
    capacity: usize,
)
    requires size { length slot.old ≡ RECORD_HEADER }
    requires key { key_length ≤ KEY_BYTES_MAX }
    requires value { length (value_bytes (option_copied value)) ≤ PAGE_SIZE }
    requires capacity { capacity ≤ PAGE_SIZE }
    ensures { slot.new ≡ head link hash key_length (kind_of (option_copied value.entry)) (length (value_bytes (option_copied value.entry))) capacity }
{
    let (addresses, lengths) = slot.split_at_mut(KEY_LENGTH_AT);
    write_addresses(addresses, link, hash);
    write_lengths(
        lengths,
        key_length as u16,
        kind_of(value),
        length_of(value) as u32,
        capacity as u32,
    );
}

// Writes the first two fields of a record.
#[inline]
#[tactic(auto, unfolding(crate::specs::Fields::u64_bytes))]
fn write_addresses(head: &mut [u8], link: u64, hash: u64)
    requires { length head.old ≡ KEY_LENGTH_AT }
    ensures { head.new ≡ u64_bytes link ++ u64_bytes hash }
{
    let (link_field, hash_field) = head.split_at_mut(HASH_AT);
    link_field.copy_from_slice(&link.to_le_bytes());
    hash_field.copy_from_slice(&hash.to_le_bytes());
}

// Writes the other fields of a record.
#[inline]
#[tactic(auto, unfolding(crate::specs::Fields::u16_bytes, crate::specs::Fields::u32_bytes))]
fn write_lengths(head: &mut [u8], key_length: u16, kind: u8, value_length: u32, capacity: u32)
    requires { length head.old ≡ RECORD_HEADER - KEY_LENGTH_AT }
    ensures { head.new ≡ u16_bytes key_length ++ (kind ∷ RECORD_FORM ∷ (u32_bytes value_length ++ u32_bytes capacity)) }
{
    let (key_field, rest) = head.split_at_mut(KIND_AT - KEY_LENGTH_AT);
    key_field.copy_from_slice(&key_length.to_le_bytes());
    let (kind_field, rest) = rest.split_at_mut(VALUE_LENGTH_AT - KIND_AT);
    kind_field.copy_from_slice(&[kind, RECORD_FORM]);
    let (value_field, capacity_field) = rest.split_at_mut(CAPACITY_AT - VALUE_LENGTH_AT);
    value_field.copy_from_slice(&value_length.to_le_bytes());
    capacity_field.copy_from_slice(&capacity.to_le_bytes());
}

// Writes a value, and leaves what follows it.
#[inline]
fn write_value(room: &mut [u8], value: Option<&[u8]>)
    requires { length (value_bytes (option_copied value)) ≤ length room.old }
    ensures { room.new ≡ value_bytes (option_copied value.entry) ++ drop (length (value_bytes (option_copied value.entry))) room.old }
{
    if let Some(bytes) = value {
        room[..bytes.len()].copy_from_slice(bytes);
    }
}

// Writes a value in place of one of `old_length` bytes, behind which all is zero.
#[inline]
fn replace_value(room: &mut [u8], old_length: usize, value: Option<&[u8]>)
    requires old { old_length ≤ length room.old }
    requires value { length (value_bytes (option_copied value)) ≤ length room.old }
    ensures { (old : Option (List ℕ)) → old_length ≡ length (value_bytes old) → room.old ≡ filled old (length room.old) → room.new ≡ filled (option_copied value.entry) (length room.old) }
{
    let length = length_of(value);
    write_value(room, value);
    if length < old_length {
        fields::fill_zeros(&mut room[length..old_length]);
    }
}

// Writes another value into the bytes of a record.
#[inline]
fn rewrite_value(slot: &mut [u8], key_length: usize, old_length: usize, value: Option<&[u8]>)
    requires size { length slot.old ≤ PAGE_SIZE }
    requires old { RECORD_HEADER + key_length + old_length ≤ length slot.old }
    requires value { RECORD_HEADER + key_length + length (value_bytes (option_copied value)) ≤ length slot.old }
    ensures { (r : Stored) → slot.old ≡ spelling r → length slot.old ≡ size_of r → key_length ≡ length r.key → old_length ≡ length (value_bytes r.value) → slot.new ≡ spelling (record r { value = option_copied value.entry }) }
{
    let (head, rest) = slot.split_at_mut(RECORD_HEADER);
    head[VALUE_LENGTH_AT..CAPACITY_AT].copy_from_slice(&(length_of(value) as u32).to_le_bytes());
    head[KIND_AT] = kind_of(value);
    replace_value(&mut rest[key_length..], old_length, value);
}

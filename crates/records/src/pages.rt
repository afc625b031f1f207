// A page and its header.

ghost use Rattle.std.specs.Prelude.{◌≡◌, ◌≤◌, ◌↔◌, ℕ, ◌+◌, ◌-◌, List, [], ◌++◌, length, replicate, IfOk, IsTrue, nat_eq};
ghost use Rattle.std.specs.Prelude.{vec_capacity, vec_len};
ghost use Rattle.std.specs.Cmp.Lexicographic.{pointwise, nat_list_eq_equiv};
ghost use Rattle.std.specs.Cmp;
ghost use Rattle.std.specs.Borrow.{sem};
ghost use Rattle.records.specs.Fields.{u32_at, u64_at};
ghost use Rattle.records.specs.Page.{header, empty_page, number_of, used_end, zero_page};
ghost use Rattle.records.specs.Memory.{bytes_of};
ghost use Rattle.records.specs.Records.{records_of, IsLaidOut};
ghost use Rattle.records.specs.Lends.{LendsBytes, with_bytes};

use crate::fields;
use std::alloc::{AllocError, Global};
use std::marker::Model;

/// The bytes of a page.
pub const PAGE_SIZE: usize = 65536;

/// The bytes of a page's header.
pub const HEADER_SIZE: usize = PAGE_FORM_AT + 4;

/// The bytes of a page's number, which stands at the front of its header.
pub const NUMBER_SIZE: usize = 8;

// Where the end of the used part and the form stand in a page's header, after the number.
pub(crate) const USED_END_AT: usize = NUMBER_SIZE;

pub(crate) const PAGE_FORM_AT: usize = USED_END_AT + 4;

/// The form of the pages that this crate writes.
const PAGE_FORM: u32 = 2;

/// Zeros: the bytes of a page behind those that lie in its memory.
pub(crate) static ZEROS: [u8; PAGE_SIZE] = [0; PAGE_SIZE];

/// A page: `PAGE_SIZE` bytes. A clause sees it as the list of its bytes.
///
/// It has memory of its own for all of them. `reset` and `put_record` touch no more of it than the bytes up to the end of the used part,
/// since those behind are zero; `bytes_mut`, `copy_from` and `Whole` touch all of it. A move of a page copies none of its bytes. Its memory
/// serves again: to fill it anew, write `reset` or `copy_from`.
#[derive(Drop)]
pub struct Page {
    /// Its first bytes: all of them, or those up to the end of its used part, or none. The others are zero, and their memory is taken.
    pub(crate) bytes: Vec<u8>,
}

impl Model for Page {
    ghost use Rattle.std.specs.Prelude.{ℕ, List};
    ghost use Rattle.std.specs.Prelude.{vec_capacity};
    ghost use Rattle.records.specs.Memory.{bytes_of, IsPageMemory};

    ghost Value = { List ℕ };

    ghost view = { λ p. bytes_of p.bytes.items };

    ghost invariant = { λ p. IsPageMemory p.bytes.items (vec_capacity p.bytes) };
}

impl PartialEq for Page {
    ghost eq = { pointwise nat_eq };

    ghost laws = { Cmp.partial_equiv_from_equiv nat_list_eq_equiv };

    fn eq(&self, other: &Page) -> bool {
        same_but_for_zeros(&self.bytes[..], &other.bytes[..])
    }
}

impl Eq for Page {
    ghost laws = { nat_list_eq_equiv };
}

impl Page {
    /// A page of zero bytes. Its memory is taken, and touched where the page is written, which takes none.
    ///
    /// # Errors
    ///
    /// No memory for `PAGE_SIZE` bytes.
    pub fn blank(alloc: Global) -> Result<Page, AllocError>
        ensures { IfOk result (λ page. page ≡ zero_page) }
    {
        let bytes = Vec::with_capacity(alloc, PAGE_SIZE)?;
        Ok(Page { bytes })
    }

    /// The page with this number and no record.
    ///
    /// # Errors
    ///
    /// No memory for `PAGE_SIZE` bytes.
    pub fn new(alloc: Global, number: u64) -> Result<Page, AllocError>
        ensures empty { IfOk result (λ page. page ≡ empty_page number) }
        ensures number { IfOk result (λ page. number_of page ≡ number) }
        ensures end { IfOk result (λ page. used_end page ≡ HEADER_SIZE) }
        ensures records { IfOk result (λ page. records_of page ≡ []) }
        ensures laid_out { IfOk result (λ page. IsLaidOut page) }
    {
        let mut page = Page::blank(alloc)?;
        page.reset(number);
        Ok(page)
    }

    /// A page with the bytes of this one.
    ///
    /// # Errors
    ///
    /// No memory for `PAGE_SIZE` bytes.
    pub fn try_clone(&self, alloc: Global) -> Result<Page, AllocError>
        ensures { IfOk result (λ copy. copy ≡ self.now) }
    {
        let mut bytes = Vec::with_capacity(alloc, PAGE_SIZE)?;
        add(&mut bytes, &self.bytes[..]);
        Ok(Page { bytes })
    }

    /// Makes this page what `Page::new(number)` gives, where it lies. Of its memory only the header is written.
    pub fn reset(&mut self, number: u64)
        ensures empty { self.new ≡ empty_page number }
        ensures number { number_of self.new ≡ number }
        ensures end { used_end self.new ≡ HEADER_SIZE }
        ensures records { records_of self.new ≡ [] }
        ensures laid_out { IsLaidOut self.new }
    {
        let mut head = [0; HEADER_SIZE];
        write_header(&mut head, number, HEADER_SIZE as u32);
        self.bytes.clear();
        add(&mut self.bytes, &head);
    }

    /// The page's bytes: those that lie in its memory, and the zeros behind them.
    #[inline]
    pub fn parts(&self) -> (&[u8], &[u8])
        ensures bytes { result.0.now ++ result.1.now ≡ self.now }
        ensures zeros { result.1.now ≡ replicate (length result.1.now) 0 }
        ensures size { length result.0.now + length result.1.now ≡ PAGE_SIZE }
    {
        let memory = &self.bytes[..];
        (memory, &ZEROS[memory.len()..])
    }

    /// The bytes that lie in the page's memory: the others are zero. Of a page whose used part ends in it all of that part lies there.
    #[inline]
    pub(crate) fn memory(&self) -> &[u8]
        ensures bytes { self.now ≡ bytes_of result.now }
        ensures bound { length result.now ≤ PAGE_SIZE }
        ensures used { used_end self.now ≤ PAGE_SIZE → used_end self.now ≤ length result.now }
    {
        &self.bytes[..]
    }

    /// The page's bytes, to which any bytes may be given. All of them lie in its memory then.
    #[inline]
    pub fn bytes_mut(&mut self) -> &mut [u8]
        ensures* writes_back { sem 𝓛 (LendsBytes self.entry result) }
        ensures bytes { result.now ≡ self.old }
        ensures size { length result.now ≡ PAGE_SIZE }
        ensures as_written { (written : List ℕ) → length written ≡ PAGE_SIZE → with_bytes self.old written ≡ written }
    {
        fill(&mut self.bytes);
        self.bytes.as_mut_slice()
    }

    /// Makes this page's bytes those of `other`. All of them lie in its memory then.
    #[inline]
    pub fn copy_from(&mut self, other: &Page)
        ensures { self.new ≡ other.now }
    {
        self.bytes.clear();
        add(&mut self.bytes, &other.bytes[..]);
        fill(&mut self.bytes);
    }

    /// The number in the page's header.
    #[inline]
    pub fn number(&self) -> u64
        ensures { result ≡ number_of self.now }
    {
        fields::u64_at(self.front(), 0)
    }

    /// Where the page's header says that its used part ends: for a laid-out page, where the next
    /// record goes.
    #[inline]
    pub fn used_end(&self) -> u32
        ensures { result ≡ used_end self.now }
    {
        fields::u32_at(self.front(), USED_END_AT)
    }

    // The page's first bytes, its header among them.
    #[inline]
    fn front(&self) -> &[u8]
        ensures number { u64_at result.now 0 ≡ number_of self.now }
        ensures end { u32_at result.now USED_END_AT ≡ used_end self.now }
        ensures size { HEADER_SIZE ≤ length result.now }
    {
        if self.bytes.is_empty() {
            return &ZEROS;
        }
        &self.bytes[..]
    }
}

/// A page all of whose bytes lie in memory, so that each part of them can be lent. A clause sees it as the list of its bytes.
#[derive(Drop)]
pub struct Whole {
    bytes: Vec<u8>,
}

impl Model for Whole {
    ghost use Rattle.std.specs.Prelude.{◌≡◌, ℕ, List, length};
    ghost use Rattle.records.specs.declared.pages.TheConstants.{PAGE_SIZE};

    ghost Value = { List ℕ };

    ghost view = { λ w. w.bytes.items };

    ghost invariant = { λ w. length w.bytes.items ≡ PAGE_SIZE };
}

impl Whole {
    /// This page, whose bytes are all put into its memory. That takes none.
    pub fn of(page: Page) -> Whole
        ensures { result ≡ page }
    {
        let Page { mut bytes } = page;
        fill(&mut bytes);
        Whole { bytes }
    }

    /// The page.
    pub fn into_page(self) -> Page
        ensures { result ≡ self }
    {
        Page { bytes: self.bytes }
    }

    /// The page's bytes.
    #[inline]
    pub fn bytes(&self) -> &[u8]
        ensures bytes { result.now ≡ self.now }
        ensures size { length result.now ≡ PAGE_SIZE }
    {
        &self.bytes[..]
    }
}

// Adds bytes to the memory of a page, which is taken.
#[inline]
pub(crate) fn add(bytes: &mut Vec<u8>, more: &[u8])
    requires { vec_len bytes.old + length more.now ≤ vec_capacity bytes.old }
    ensures items { bytes.new.items ≡ bytes.old.items ++ more.now }
    ensures len { vec_len bytes.new ≡ vec_len bytes.old + length more.now }
    ensures capacity { vec_capacity bytes.old ≤ vec_capacity bytes.new }
{
    let Ok(()) = bytes.extend_from_slice(more) else {
        unreachable!()
    };
}

// Puts all bytes of a page into its memory, which is taken.
#[inline]
fn fill(bytes: &mut Vec<u8>)
    requires size { vec_len bytes.old ≤ PAGE_SIZE }
    requires taken { PAGE_SIZE ≤ vec_capacity bytes.old }
    ensures same { bytes.new.items ≡ bytes_of bytes.old.items }
    ensures all { vec_len bytes.new ≡ PAGE_SIZE }
    ensures capacity { vec_capacity bytes.old ≤ vec_capacity bytes.new }
{
    let len = bytes.len();
    if len < PAGE_SIZE {
        add(bytes, &ZEROS[len..]);
    }
}

// Whether two pages have the same bytes, of which these lie in their memories.
fn same_but_for_zeros(a: &[u8], b: &[u8]) -> bool
    requires a { length a.now ≤ PAGE_SIZE }
    requires b { length b.now ≤ PAGE_SIZE }
    ensures { result ≡ pointwise nat_eq (bytes_of a.now) (bytes_of b.now) }
{
    if a.len() < b.len() {
        return goes_on_with_zeros(b, a);
    }
    goes_on_with_zeros(a, b)
}

// Whether the longer of two texts is the shorter one and zeros.
fn goes_on_with_zeros(long: &[u8], short: &[u8]) -> bool
    requires longer { length short.now ≤ length long.now }
    requires bound { length long.now ≤ PAGE_SIZE }
    ensures { IsTrue result ↔ (long.now ≡ short.now ++ replicate (length long.now - length short.now) 0) }
{
    let (front, rest) = long.split_at(short.len());
    front == short && rest == &ZEROS[..rest.len()]
}

// Writes a page's header.
#[inline]
#[tactic(auto, unfolding(crate::specs::Page::header, crate::specs::Fields::u32_bytes, crate::specs::Fields::u64_bytes))]
fn write_header(head: &mut [u8], number: u64, used: u32)
    requires { length head.old ≡ HEADER_SIZE }
    ensures { head.new ≡ header number used }
{
    let (number_field, rest) = head.split_at_mut(USED_END_AT);
    number_field.copy_from_slice(&number.to_le_bytes());
    let (used_field, form_field) = rest.split_at_mut(PAGE_FORM_AT - USED_END_AT);
    used_field.copy_from_slice(&used.to_le_bytes());
    form_field.copy_from_slice(&PAGE_FORM.to_le_bytes());
}

// Addresses in the log.

ghost use Rattle.std.specs.Prelude.{◌≡◌, ◌+◌, ◌*◌, ◌/◌, ◌%◌, ◌<◌, ◌^◌};

use records::PAGE_SIZE;
use std::marker::Model;

/// Where a record stands in the log: in the page of a number, at an offset. An address is a number, by which the links of the records
/// and the heads of the index name it.
#[derive(Clone, Copy, PartialEq, Eq, PartialOrd)]
pub(crate) struct Address(u64);

impl Model for Address {
    ghost use Rattle.std.specs.Prelude.{ℕ};

    ghost Value = { ℕ };

    ghost view = { λ a. a.0 };

    ghost inverse = { λ number. record { 0 = number } };
}

impl Address {
    /// The address of this number.
    #[inline]
    pub(crate) fn from_number(number: u64) -> Address
        ensures { result ≡ number }
    {
        Address(number)
    }

    /// The address at an offset of a page.
    #[inline]
    pub(crate) fn of(page: u64, offset: usize) -> Address
        requires { page * PAGE_SIZE + offset < 2 ^ 64 }
        ensures { result ≡ page * PAGE_SIZE + offset }
    {
        Address(page * PAGE_SIZE as u64 + offset as u64)
    }

    /// The address's number.
    #[inline]
    pub(crate) fn number(self) -> u64
        ensures { result ≡ self }
    {
        self.0
    }

    /// The number of its page.
    #[inline]
    pub(crate) fn page(self) -> u64
        ensures { result ≡ self / PAGE_SIZE }
    {
        self.0 / PAGE_SIZE as u64
    }

    /// Its offset in the page.
    #[inline]
    pub(crate) fn offset(self) -> usize
        ensures { result ≡ self % PAGE_SIZE }
    {
        (self.0 % PAGE_SIZE as u64) as usize
    }
}

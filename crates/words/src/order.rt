//! The order of byte strings, that of a dictionary: several bytes at a time, as numbers.

ghost use Rattle.std.specs.Prelude.{◌≡◌, ◌+◌, ◌<◌, ◌≤◌, length, min, take, drop};
ghost use Rattle.std.specs.Cmp.Lexicographic.{slice_cmp};
ghost use Rattle.std.specs.Ordering.{nat_cmp};

use std::cmp::Ordering;

/// Which of two byte strings comes first. The last eight bytes that both have may begin with some
/// that were compared before.
pub(crate) fn order(a: &[u8], b: &[u8]) -> Ordering
    ensures { result ≡ slice_cmp nat_cmp a.now b.now }
{
    let both = a.len().min(b.len());
    if both < 8 {
        return order_short(a, b, both);
    }
    let mut from = 0;
    while 8 <= both - from {
        let found = order_of_eight(&eight_at(a, from), &eight_at(b, from));
        if found.is_ne() {
            return found;
        }
        from += 8;
    }
    let last = order_of_eight(&eight_at(a, both - 8), &eight_at(b, both - 8));
    if last.is_ne() {
        return last;
    }
    a.len().cmp(&b.len())
}

/// The order of two byte strings of which one has less than eight bytes, and both have this many.
fn order_short(a: &[u8], b: &[u8], both: usize) -> Ordering
    requires both { both ≡ min (length a.now) (length b.now) }
    requires short { both < 8 }
    ensures { result ≡ slice_cmp nat_cmp a.now b.now }
{
    if both < 4 {
        return order_by_one(a, b);
    }
    let found = order_of_four(&four_at(a, 0), &four_at(b, 0));
    if found.is_ne() {
        return found;
    }
    let last = order_of_four(&four_at(a, both - 4), &four_at(b, both - 4));
    if last.is_ne() {
        return last;
    }
    a.len().cmp(&b.len())
}

/// The order of two byte strings, byte by byte.
fn order_by_one(mut a: &[u8], mut b: &[u8]) -> Ordering
    ensures { result ≡ slice_cmp nat_cmp a.now b.now }
{
    while let (Some((x, past_x)), Some((y, past_y))) = (a.split_first(), b.split_first()) {
        if *x != *y {
            return x.cmp(y);
        }
        a = past_x;
        b = past_y;
    }
    a.len().cmp(&b.len())
}

/// Which of two byte strings of this length comes first: that of the lesser number, where the first
/// byte is the highest.
fn order_of_eight(x: &[u8; 8], y: &[u8; 8]) -> Ordering
    ensures { result ≡ slice_cmp nat_cmp x.now y.now }
{
    u64::from_be_bytes(*x).cmp(&u64::from_be_bytes(*y))
}

/// Which of two strings of four bytes comes first, as [`order_of_eight`] says it of eight.
fn order_of_four(x: &[u8; 4], y: &[u8; 4]) -> Ordering
    ensures { result ≡ slice_cmp nat_cmp x.now y.now }
{
    u32::from_be_bytes(*x).cmp(&u32::from_be_bytes(*y))
}

/// The eight bytes from a place on.
fn eight_at(bytes: &[u8], from: usize) -> [u8; 8]
    requires { from + 8 ≤ length bytes.now }
    ensures { result ≡ take 8 (drop from bytes.now) }
{
    [
        bytes[from],
        bytes[from + 1],
        bytes[from + 2],
        bytes[from + 3],
        bytes[from + 4],
        bytes[from + 5],
        bytes[from + 6],
        bytes[from + 7],
    ]
}

/// The four bytes from a place on.
fn four_at(bytes: &[u8], from: usize) -> [u8; 4]
    requires { from + 4 ≤ length bytes.now }
    ensures { result ≡ take 4 (drop from bytes.now) }
{
    [
        bytes[from],
        bytes[from + 1],
        bytes[from + 2],
        bytes[from + 3],
    ]
}

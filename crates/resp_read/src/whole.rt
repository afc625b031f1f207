//! A request that stands whole in one piece, which is taken in one go.

ghost use Rattle.std.specs.Prelude.{◌≡◌, ◌≤◌, length, IsTrue};
ghost use Rattle.resp_read.specs.Looks.{BeginsWithWords, BeginsWithRequest};

use crate::lines::{Line, count_line};
use crate::look::{Look, look_in};
use std::alloc::Global;
use words::limits::WORDS_MAX;
use words::word::{Word, Words};

/// Takes the words of the request at the front of some bytes, of which `at` then tells how many bytes its
/// spelling has. It says whether it stands there whole, and there was memory for its words. On false,
/// `words` and `at` are unspecified.
#[inline(always)]
pub(crate) fn request_in(alloc: Global, bytes: &[u8], at: &mut usize, words: &mut Words) -> bool
    ensures { IsTrue result → BeginsWithRequest bytes.now words.new at.new }
{
    let Line::Number {
        value: count,
        width,
    } = count_line(bytes)
    else {
        return false;
    };
    let rest = &bytes[width..];
    let Look::Whole { start, long } = look_in(0, rest) else {
        return false;
    };
    let end = start + long;
    let Ok(name) = Word::from_slice(alloc, &rest[start..end]) else {
        return false;
    };
    words.restart(name);
    *at = width + end + 2;
    more_in(alloc, bytes, count, long, at, words)
}

/// Takes the words of a request of `count` words past its first, which has `size` bytes and ends before `at`.
/// It says whether they stand there whole, and there was memory for them; `at` is then where the last ends.
#[inline(always)]
fn more_in(
    alloc: Global,
    bytes: &[u8],
    count: usize,
    mut size: usize,
    at: &mut usize,
    words: &mut Words,
) -> bool
    requires count { (1 ≤ count) × (count ≤ WORDS_MAX) }
    requires first { length words.old ≡ 1 }
    requires taken { BeginsWithWords bytes.now count words.old at.old size }
    ensures { IsTrue result → BeginsWithRequest bytes.now words.new at.new }
{
    for _ in 1..count {
        let rest = &bytes[*at..];
        let Look::Whole { start, long } = look_in(size, rest) else {
            return false;
        };
        let end = start + long;
        let Ok(word) = Word::from_slice(alloc, &rest[start..end]) else {
            return false;
        };
        if let Err(_) = words.push(word) {
            return false;
        }
        *at += end + 2;
        size += long;
    }
    true
}

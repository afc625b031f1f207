//! What stands where a count or a word is due, in one piece or over several. Nothing is taken off.

ghost use Rattle.std.specs.Prelude.{◌≡◌, ◌≤◌, ◌<◌, ◌+◌, ◌^◌, length, take, drop, IfOk, IsOk};
ghost use Rattle.words.specs.declared.word.TheConstants.{WORD_INLINE};
ghost use Rattle.resp_read.specs.Lines.{TellsCount, BeginsWithLine};
ghost use Rattle.resp_read.specs.Looks.{TellsWord, TellsRest};
ghost use Rattle.resp_read.specs.Pieces.{joined};

use crate::lines::{DataEnd, Line, count_line, data_end, length_line};
use crate::pieces::{Pieces, least};
use memchr::memchr;
use std::alloc::Global;
use words::limits::{REQUEST_BYTES_MAX, WORD_BYTES_MAX};
use words::reply::ProtocolFault;
use words::word::{OutOfMemory, Word};

/// The most bytes that are looked at for a line which stands in several pieces. No line within the
/// limits has more than 8.
const LINE_BYTES: usize = 8;

/// What stands where a word is due.
#[derive(Clone, Copy)]
pub(crate) enum Look {
    /// A whole word: a length line of `start` bytes, `long` bytes, and their line end.
    Whole { start: usize, long: usize },
    /// A part of one.
    Part,
    /// None, and this is why.
    Faulty(ProtocolFault),
}

/// What stands where the rest of a request is due.
#[derive(Clone, Copy)]
pub(crate) enum Rest {
    /// All of it.
    Whole,
    /// A part of it.
    Part,
    /// Not it, and this is why.
    Faulty(ProtocolFault),
}

/// Looks at the line of a count at the front of the pieces.
#[inline]
pub(crate) fn look_at_count(alloc: Global, pieces: &Pieces) -> Line
    ensures { TellsCount (joined pieces.now) result }
{
    let oldest = pieces.oldest();
    match count_line(oldest) {
        Line::Number { value, width } => Line::Number { value, width },
        Line::Faulty(fault) => Line::Faulty(fault),
        Line::Part => {
            if pieces.held() == oldest.len() {
                return Line::Part;
            }
            count_across(alloc, pieces)
        }
    }
}

/// Looks at the line of a count that stands in several pieces, or has not come whole.
fn count_across(alloc: Global, pieces: &Pieces) -> Line
    ensures { TellsCount (joined pieces.now) result }
{
    let Ok(line) = pieces.gather(alloc, 0, least(pieces.held(), LINE_BYTES)) else {
        unreachable!()
    };
    count_line(line.as_slice())
}

/// Looks at the word at the front of some bytes, where those before it have `size` bytes.
#[inline]
pub(crate) fn look_in(size: usize, bytes: &[u8]) -> Look
    requires { size ≤ REQUEST_BYTES_MAX }
    ensures { TellsWord size bytes.now result }
{
    match length_line(size, bytes) {
        Line::Number { value, width } => match data_end(value, &bytes[width..]) {
            DataEnd::Whole => Look::Whole {
                start: width,
                long: value,
            },
            DataEnd::Part => Look::Part,
            DataEnd::Missing => Look::Faulty(ProtocolFault::MissingLineEnd),
        },
        Line::Part => Look::Part,
        Line::Faulty(fault) => Look::Faulty(fault),
    }
}

/// Looks at the word that is due past the first `at` bytes of the pieces, where those before it have
/// `size` bytes.
#[inline]
pub(crate) fn look_at_word(alloc: Global, pieces: &Pieces, at: usize, size: usize) -> Look
    requires within { at ≤ length (joined pieces.now) }
    requires room { size ≤ REQUEST_BYTES_MAX }
    ensures tells { TellsWord size (drop at (joined pieces.now)) result }
    ensures bound { length (joined pieces.now) < 2 ^ 64 }
{
    let oldest = pieces.oldest();
    if at >= oldest.len() {
        return word_across(alloc, pieces, at, size);
    }
    match look_in(size, &oldest[at..]) {
        Look::Whole { start, long } => Look::Whole { start, long },
        Look::Faulty(fault) => Look::Faulty(fault),
        Look::Part => {
            if pieces.held() == oldest.len() {
                return Look::Part;
            }
            word_across(alloc, pieces, at, size)
        }
    }
}

/// Looks at a word that stands in several pieces, or has not come whole. Where its length line ends in
/// the oldest piece, the line is read where it stands, up to the line end that is found.
fn word_across(alloc: Global, pieces: &Pieces, at: usize, size: usize) -> Look
    requires within { at ≤ length (joined pieces.now) }
    requires room { size ≤ REQUEST_BYTES_MAX }
    ensures { TellsWord size (drop at (joined pieces.now)) result }
{
    let oldest = pieces.oldest();
    if at >= oldest.len() {
        return line_across(alloc, pieces, at, size);
    }
    if let Some(end) = memchr(b'\n', &oldest[at..]) {
        if let Line::Number { value, width } = length_line(size, &oldest[at..at + end + 1]) {
            return end_across(alloc, pieces, at, size, width, value);
        }
    }
    line_across(alloc, pieces, at, size)
}

/// Looks at a word whose length line stands in several pieces, or has not come whole.
fn line_across(alloc: Global, pieces: &Pieces, at: usize, size: usize) -> Look
    requires within { at ≤ length (joined pieces.now) }
    requires room { size ≤ REQUEST_BYTES_MAX }
    ensures { TellsWord size (drop at (joined pieces.now)) result }
{
    let rest = pieces.held() - at;
    let Ok(line) = pieces.gather(alloc, at, least(rest, LINE_BYTES)) else {
        unreachable!()
    };
    match length_line(size, line.as_slice()) {
        Line::Number { value, width } => end_across(alloc, pieces, at, size, width, value),
        Line::Part => Look::Part,
        Line::Faulty(fault) => Look::Faulty(fault),
    }
}

/// Looks at the end of a word that stands in several pieces, or has not come whole: at its line end
/// alone.
fn end_across(
    alloc: Global,
    pieces: &Pieces,
    at: usize,
    size: usize,
    start: usize,
    long: usize,
) -> Look
    requires line { BeginsWithLine 36 long start (drop at (joined pieces.now)) }
    requires within { at ≤ length (joined pieces.now) }
    requires short { long ≤ WORD_BYTES_MAX }
    requires room { size + long ≤ REQUEST_BYTES_MAX }
    ensures { TellsWord size (drop at (joined pieces.now)) result }
{
    let rest = pieces.held() - at;
    let end = start + long;
    if rest <= end {
        return Look::Part;
    }
    let Ok(line_end) = pieces.gather(alloc, at + end, least(rest - end, 2)) else {
        unreachable!()
    };
    match data_end(0, line_end.as_slice()) {
        DataEnd::Whole => Look::Whole { start, long },
        DataEnd::Part => Look::Part,
        DataEnd::Missing => Look::Faulty(ProtocolFault::MissingLineEnd),
    }
}

/// A word of `long` bytes past the first `start`, whichever pieces they stand in. They are copied once,
/// into their place.
#[inline]
pub(crate) fn word_at(
    alloc: Global,
    pieces: &Pieces,
    start: usize,
    long: usize,
) -> Result<Word, OutOfMemory>
    requires { start + long ≤ length (joined pieces.now) }
    ensures bytes { IfOk result (λ word. word ≡ take long (drop start (joined pieces.now))) }
    ensures inline { long ≤ WORD_INLINE → IsOk result }
{
    let oldest = pieces.oldest();
    if start <= oldest.len() && long <= oldest.len() - start {
        return Word::from_slice(alloc, &oldest[start..start + long]);
    }
    let gathered = pieces.gather(alloc, start, long)?;
    Ok(Word::from_small_vec(gathered))
}

/// Looks at the `due` words past the first `at` bytes of the pieces, where those before them have
/// `size` bytes.
pub(crate) fn look_at_rest(
    alloc: Global,
    pieces: &Pieces,
    mut at: usize,
    due: usize,
    mut size: usize,
) -> Rest
    requires within { at ≤ length (joined pieces.now) }
    requires room { size ≤ REQUEST_BYTES_MAX }
    ensures { TellsRest due size (drop at (joined pieces.now)) result }
{
    for _ in 0..due {
        match look_at_word(alloc, pieces, at, size) {
            Look::Whole { start, long } => {
                at += start + long + 2;
                size += long;
            }
            Look::Part => return Rest::Part,
            Look::Faulty(fault) => return Rest::Faulty(fault),
        }
    }
    Rest::Whole
}

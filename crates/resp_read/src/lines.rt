//! The lines of a request: a sign, a number and a line end, and the line end after the bytes of a
//! word.

ghost use Rattle.std.specs.Prelude.{◌≡◌, ◌+◌, ◌<◌, ◌≤◌, ◌⊎◌, MatchOption};
ghost use Rattle.resp_read.specs.Lines.{TellsNumber, TellsCount, TellsLength, TellsDataEnd};

use words::limits::{REQUEST_BYTES_MAX, WORD_BYTES_MAX, WORDS_MAX};
use words::reply::ProtocolFault;

/// What stands where a line is due.
#[derive(Clone, Copy)]
pub(crate) enum Line {
    /// A whole line: the number that it spells, and how many bytes it has with its sign and its
    /// line end.
    Number { value: usize, width: usize },
    /// A part of one.
    Part,
    /// None, and this is why.
    Faulty(ProtocolFault),
}

/// What stands where the line end after the bytes of a word is due.
#[derive(Clone, Copy)]
pub(crate) enum DataEnd {
    /// The bytes and their line end.
    Whole,
    /// A part of them.
    Part,
    /// Another byte than one of the line end.
    Missing,
}

/// Reads the line of a count: `*`, a number from 1 to [`WORDS_MAX`] and a line end.
#[inline]
pub(crate) fn count_line(bytes: &[u8]) -> Line
    ensures { TellsCount bytes.now result }
{
    let digits = match bytes {
        [] => return Line::Part,
        [b'*', digits @ ..] => digits,
        _ => return Line::Faulty(ProtocolFault::ExpectedArray),
    };
    let mut count = 0;
    for (at, &byte) in digits.iter().enumerate() {
        let Some(digit) = digit_of(byte) else {
            if byte == b'\r' && at > 0 {
                return line_end(count, at + 3, &digits[at + 1..]);
            }
            return Line::Faulty(ProtocolFault::BadCount);
        };
        count = 10 * count + digit;
        if count == 0 || count > WORDS_MAX {
            return Line::Faulty(ProtocolFault::BadCount);
        }
    }
    Line::Part
}

/// Reads the line of a word's length where the words before it have `size` bytes: `$`, a number from
/// 0 to [`WORD_BYTES_MAX`] that keeps all words within [`REQUEST_BYTES_MAX`], and a line end.
#[inline]
pub(crate) fn length_line(size: usize, bytes: &[u8]) -> Line
    requires { size ≤ REQUEST_BYTES_MAX }
    ensures { TellsLength size bytes.now result }
{
    let digits = match bytes {
        [] => return Line::Part,
        [b'$', digits @ ..] => digits,
        _ => return Line::Faulty(ProtocolFault::ExpectedBulk),
    };
    let mut length = 0;
    for (at, &byte) in digits.iter().enumerate() {
        let Some(digit) = digit_of(byte) else {
            if byte == b'\r' && at > 0 {
                return line_end(length, at + 3, &digits[at + 1..]);
            }
            return Line::Faulty(ProtocolFault::BadLength);
        };
        if at > 0 && length == 0 {
            return Line::Faulty(ProtocolFault::BadLength);
        }
        length = 10 * length + digit;
        if length > WORD_BYTES_MAX {
            return Line::Faulty(ProtocolFault::BadLength);
        }
        if size + length > REQUEST_BYTES_MAX {
            return Line::Faulty(ProtocolFault::RequestTooLarge);
        }
    }
    Line::Part
}

/// Looks for the line end after `length` bytes of a word, whatever these are.
#[inline]
pub(crate) fn data_end(length: usize, bytes: &[u8]) -> DataEnd
    ensures { TellsDataEnd length bytes.now result }
{
    if bytes.len() <= length {
        return DataEnd::Part;
    }
    if bytes[length] != b'\r' {
        return DataEnd::Missing;
    }
    if bytes.len() == length + 1 {
        return DataEnd::Part;
    }
    if bytes[length + 1] != b'\n' {
        return DataEnd::Missing;
    }
    DataEnd::Whole
}

/// The number that an ASCII digit spells, or `None` where the byte is no digit.
#[inline(always)]
fn digit_of(byte: u8) -> Option<usize>
    ensures { MatchOption result ((byte < 48) ⊎ (57 < byte)) (λ digit. (digit ≤ 9) × (byte ≡ 48 + digit)) }
{
    match byte {
        b'0'..=b'9' => Some(usize::from(byte - b'0')),
        _ => None,
    }
}

/// Reads the end of a line whose sign, number and CR have `width - 1` bytes: an LF.
#[inline(always)]
fn line_end(value: usize, width: usize, rest: &[u8]) -> Line
    ensures { TellsNumber value width rest.now result }
{
    match rest {
        [] => Line::Part,
        [b'\n', ..] => Line::Number { value, width },
        _ => Line::Faulty(ProtocolFault::MissingLineEnd),
    }
}

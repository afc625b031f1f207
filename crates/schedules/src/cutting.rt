//! Cutting a text at a byte.

ghost use Rattle.std.specs.Prelude.{◌≡◌, false, MatchOption};
ghost use Rattle.schedules.specs.Lines.{has, IsCut};

use memchr::memchr;

/// The bytes before the first such byte and those after it, or `None` where there is none.
pub(crate) fn cut(byte: u8, text: &[u8]) -> Option<(&[u8], &[u8])>
    ensures { MatchOption result (has byte text.now ≡ false) (λ parts. IsCut byte text.now parts.0.now parts.1.now) }
{
    let at = memchr(byte, text)?;
    Some((&text[..at], &text[at + 1..]))
}

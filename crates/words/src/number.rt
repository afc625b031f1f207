//! Numbers as texts: 64-bit signed decimals.

ghost use Rattle.std.specs.Prelude.{◌≡◌};
ghost use Rattle.words.specs.Numbers.{number_of};

use itoa::Buffer;

/// The number that a text is: `0`, or an optional minus and digits without a leading zero, within the
/// range of 64 bits with a sign. `None` for every other text, `-0`, `+1` and `01` among them.
pub fn parse(text: &[u8]) -> Option<i64>
    ensures { result ≡ number_of text.now }
{
    let Ok(digits) = str::from_utf8(text) else {
        return None;
    };
    let Ok(number) = digits.parse::<i64>() else {
        return None;
    };
    if Buffer::new().format(number) == digits {
        Some(number)
    } else {
        None
    }
}

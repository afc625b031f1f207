//! Numbers of a schedule.

ghost use Rattle.std.specs.Prelude.{◌≤◌, ◌^◌};
ghost use Rattle.schedules.specs.Lines.{IsNumber};

use words::number::parse;

/// The number below `end` that a text spells in decimal, with no sign and no leading zero, or `None`
/// where it spells none.
pub(crate) fn number(text: &[u8], end: usize) -> Option<usize>
    requires { end ≤ 2 ^ 63 }
    ensures { IsNumber end text.now result }
{
    let number = usize::try_from(parse(text)?).ok()?;
    (number < end).then_some(number)
}

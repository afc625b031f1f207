//! Commands that count.

ghost use Rattle.std.specs.Prelude.{◌≡◌, [], ◌∷◌, ◌++◌, length, IfOk, OnOk, IsOk, Some};
ghost use Rattle.std.specs.Fmt.{signed_decimal};
ghost use Rattle.words.specs.Commands.{IsInline};
ghost use Rattle.words.specs.Answers as answers;
ghost use Rattle.words.specs.Answers.{answer};
ghost use Rattle.strings.specs.Overlays.{shown, HasRoom, NeedsNoMemory};

use crate::growing::refused;
use crate::overlay::Overlay;
use itoa::Buffer;
use std::alloc::Global;
use words::command::Command;
use words::number;
use words::reply::{CommandReply, Item, Refusal};
use words::word::{OutOfMemory, Word};

/// `INCRBY`
pub(crate) fn add(
    alloc: Global,
    overlay: &mut Overlay<'_>,
    key: &Word,
    number: i64,
) -> Result<CommandReply, OutOfMemory>
    ensures reply { IfOk result (λ reply. reply ≡ (answer (shown overlay.old) (Command.Add key.now number)).0) }
    ensures writes { OnOk result (overlay.new.writes ≡ overlay.old.writes ++ (answer (shown overlay.old) (Command.Add key.now number)).1) }
    ensures found { overlay.new.found ≡ overlay.old.found }
    ensures memory { NeedsNoMemory overlay.old (Command.Add key.now number) → IsOk result }
{
    let Some(old) = number_at(overlay, key) else {
        return Ok(refused(Refusal::NotAnInteger));
    };
    match old.checked_add(number) {
        Some(sum) => put_number(alloc, overlay, key, sum),
        None => Ok(refused(Refusal::Overflow)),
    }
}

/// `DECRBY`
pub(crate) fn subtract(
    alloc: Global,
    overlay: &mut Overlay<'_>,
    key: &Word,
    number: i64,
) -> Result<CommandReply, OutOfMemory>
    ensures reply { IfOk result (λ reply. reply ≡ (answer (shown overlay.old) (Command.Subtract key.now number)).0) }
    ensures writes { OnOk result (overlay.new.writes ≡ overlay.old.writes ++ (answer (shown overlay.old) (Command.Subtract key.now number)).1) }
    ensures found { overlay.new.found ≡ overlay.old.found }
    ensures memory { NeedsNoMemory overlay.old (Command.Subtract key.now number) → IsOk result }
{
    let Some(old) = number_at(overlay, key) else {
        return Ok(refused(Refusal::NotAnInteger));
    };
    match old.checked_sub(number) {
        Some(rest) => put_number(alloc, overlay, key, rest),
        None => Ok(refused(Refusal::Overflow)),
    }
}

/// The number that a key's value is, 0 where it is missing; `None` where it is no number.
fn number_at(overlay: &Overlay<'_>, key: &Word) -> Option<i64>
    ensures { result ≡ answers.number_at (shown overlay.now key.now) }
{
    match overlay.value(key.as_slice()) {
        Some(text) => number::parse(text),
        None => Some(0),
    }
}

/// Gives a key this number.
fn put_number(
    alloc: Global,
    overlay: &mut Overlay<'_>,
    key: &Word,
    number: i64,
) -> Result<CommandReply, OutOfMemory>
    ensures reply { IfOk result (λ reply. reply ≡ CommandReply.One (Item.Integer number)) }
    ensures writes { OnOk result (overlay.new.writes ≡ overlay.old.writes ++ (key.now, Some (signed_decimal number)) ∷ []) }
    ensures found { overlay.new.found ≡ overlay.old.found }
    ensures memory { HasRoom overlay.old → IsInline key.now → IsOk result }
{
    let mut buffer = Buffer::new();
    let text = Word::from_slice(alloc, buffer.format(number).as_bytes())?;
    overlay.write(alloc, key, Some(text))?;
    Ok(CommandReply::integer(number))
}

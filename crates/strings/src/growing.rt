//! Commands that make a longer value of the old one.

ghost use Rattle.std.specs.Prelude.{◌≡◌, ◌+◌, ◌≤◌, [], ◌∷◌, ◌++◌, ◌-◌, length, replicate, IfOk, OnOk, IsOk, Some};
ghost use Rattle.words.specs.declared.limits.TheConstants.{VALUE_BYTES_MAX};
ghost use Rattle.words.specs.Commands.{IsInline};
ghost use Rattle.words.specs.Answers as answers;
ghost use Rattle.words.specs.Answers.{answer, value_of};
ghost use Rattle.strings.specs.Overlays.{shown, HasRoom, NeedsNoMemory};

use crate::overlay::Overlay;
use crate::reading::bytes_at;
use smallvec::SmallVec;
use std::alloc::Global;
use words::command::Command;
use words::limits::VALUE_BYTES_MAX;
use words::reply::{CommandReply, Line, Refusal};
use words::word::{OutOfMemory, Word};

/// The reply of a refusal.
pub(crate) fn refused(refusal: Refusal) -> CommandReply
    ensures { result ≡ answers.line (Line.Refused refusal) }
{
    CommandReply::line(Line::Refused(refusal))
}

/// Gives a key a new value, and answers its length.
fn put(
    alloc: Global,
    overlay: &mut Overlay<'_>,
    key: &Word,
    value: Word,
) -> Result<CommandReply, OutOfMemory>
    ensures reply { IfOk result (λ reply. reply ≡ answers.number (length value)) }
    ensures writes { OnOk result (overlay.new.writes ≡ overlay.old.writes ++ (key.now, Some value) ∷ []) }
    ensures found { overlay.new.found ≡ overlay.old.found }
    ensures memory { HasRoom overlay.old → IsInline key.now → IsOk result }
{
    let size = value.as_slice().len() as i64;
    overlay.write(alloc, key, Some(value))?;
    Ok(CommandReply::integer(size))
}

/// Two texts, one after the other, in one allocation of their size at most.
fn joined(alloc: Global, front: &[u8], back: &[u8]) -> Result<Word, OutOfMemory>
    ensures bytes { IfOk result (λ word. word ≡ front.now ++ back.now) }
    ensures inline { IsInline (front.now ++ back.now) → IsOk result }
{
    let mut bytes: SmallVec<u8, 22> = SmallVec::with_capacity(alloc, front.len() + back.len())?;
    bytes.extend_from_slice(front)?;
    bytes.extend_from_slice(back)?;
    Ok(Word::from_small_vec(bytes))
}

/// `APPEND`
pub(crate) fn append(
    alloc: Global,
    overlay: &mut Overlay<'_>,
    key: &Word,
    value: &Word,
) -> Result<CommandReply, OutOfMemory>
    ensures reply { IfOk result (λ reply. reply ≡ (answer (shown overlay.old) (Command.Append key.now value.now)).0) }
    ensures writes { OnOk result (overlay.new.writes ≡ overlay.old.writes ++ (answer (shown overlay.old) (Command.Append key.now value.now)).1) }
    ensures found { overlay.new.found ≡ overlay.old.found }
    ensures memory { NeedsNoMemory overlay.old (Command.Append key.now value.now) → IsOk result }
{
    let old = bytes_at(overlay, key);
    let more = value.as_slice();
    if old.len() + more.len() > VALUE_BYTES_MAX {
        return Ok(refused(Refusal::StringTooLong));
    }
    let grown = joined(alloc, old, more)?;
    put(alloc, overlay, key, grown)
}

/// Fills bytes up to a length with zero bytes.
fn pad(bytes: &mut SmallVec<u8, 22>, len: usize) -> Result<(), OutOfMemory>
    requires { length bytes.old.items ≤ len }
    ensures bytes { OnOk result (bytes.new.items ≡ bytes.old.items ++ replicate (len - length bytes.old.items) 0) }
    ensures room { len ≤ bytes.old.capacity → IsOk result }
    ensures capacity { bytes.old.capacity ≤ bytes.new.capacity }
{
    bytes.resize(len, 0)
}

/// A value with these bytes from an offset on, zero bytes between its end and the offset. It is made in one
/// allocation of its size at most.
fn overlaid(alloc: Global, old: &[u8], offset: usize, more: &[u8]) -> Result<Word, OutOfMemory>
    requires { offset + length more.now ≤ VALUE_BYTES_MAX }
    ensures bytes { IfOk result (λ word. word ≡ answers.overlaid old.now offset more.now) }
    ensures inline { IsInline (answers.overlaid old.now offset more.now) → IsOk result }
{
    let past = offset + more.len();
    let mut bytes: SmallVec<u8, 22> = SmallVec::with_capacity(alloc, past.max(old.len()))?;
    overlay_on(&mut bytes, old, offset, more)?;
    Ok(Word::from_small_vec(bytes))
}

/// Makes that value in an empty vector.
fn overlay_on(
    bytes: &mut SmallVec<u8, 22>,
    old: &[u8],
    offset: usize,
    more: &[u8],
) -> Result<(), OutOfMemory>
    requires within { offset + length more.now ≤ VALUE_BYTES_MAX }
    requires empty { bytes.old.items ≡ [] }
    requires room { (offset + length more.now ≤ bytes.old.capacity) × (length old.now ≤ bytes.old.capacity) }
    ensures bytes { OnOk result (bytes.new.items ≡ answers.overlaid old.now offset more.now) }
    ensures succeeds { IsOk result }
{
    let past = offset + more.len();
    bytes.extend_from_slice(&old[..offset.min(old.len())])?;
    pad(bytes, offset)?;
    bytes.extend_from_slice(more)?;
    if past < old.len() {
        bytes.extend_from_slice(&old[past..])?;
    }
    Ok(())
}

/// `SETRANGE`
pub(crate) fn set_range(
    alloc: Global,
    overlay: &mut Overlay<'_>,
    key: &Word,
    offset: u64,
    value: &Word,
) -> Result<CommandReply, OutOfMemory>
    ensures reply { IfOk result (λ reply. reply ≡ (answer (shown overlay.old) (Command.SetRange key.now offset value.now)).0) }
    ensures writes { OnOk result (overlay.new.writes ≡ overlay.old.writes ++ (answer (shown overlay.old) (Command.SetRange key.now offset value.now)).1) }
    ensures found { overlay.new.found ≡ overlay.old.found }
    ensures memory { NeedsNoMemory overlay.old (Command.SetRange key.now offset value.now) → IsOk result }
{
    let old = bytes_at(overlay, key);
    let more = value.as_slice();
    if more.is_empty() {
        return Ok(CommandReply::integer(old.len() as i64));
    }
    let offset = offset as usize;
    if more.len() > VALUE_BYTES_MAX || offset > VALUE_BYTES_MAX - more.len() {
        return Ok(refused(Refusal::StringTooLong));
    }
    let grown = overlaid(alloc, old, offset, more)?;
    put(alloc, overlay, key, grown)
}

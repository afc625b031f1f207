//! Commands that set and delete.

ghost use Rattle.std.specs.Prelude.{◌≡◌, ◌-◌, ◌≤◌, [], ◌∷◌, ◌++◌, length, IfOk, OnOk, IsOk, option_copied, Some, None, if◌then◌else◌};
ghost use Rattle.words.specs.Commands.{IsInline};
ghost use Rattle.words.specs.Answers as answers;
ghost use Rattle.words.specs.Answers.{answer, deletions, writes_set};
ghost use Rattle.strings.specs.Overlays.{shown, HasRoom, AreInline, NeedsNoMemory};
ghost use Rattle.strings.specs.declared.writes.TheConstants.{WRITES_INLINE};

use crate::growing::refused;
use crate::overlay::Overlay;
use crate::reading::{copy, value_copy};
use std::alloc::Global;
use words::command::{Command, When};
use words::reply::{CommandReply, Line, Refusal};
use words::word::{OutOfMemory, Word};

/// `SET`
pub(crate) fn set(
    alloc: Global,
    overlay: &mut Overlay<'_>,
    key: &Word,
    value: &Word,
    when: When,
) -> Result<CommandReply, OutOfMemory>
    ensures reply { IfOk result (λ reply. reply ≡ (answer (shown overlay.old) (Command.Set key.now value.now when)).0) }
    ensures writes { OnOk result (overlay.new.writes ≡ overlay.old.writes ++ (answer (shown overlay.old) (Command.Set key.now value.now when)).1) }
    ensures found { overlay.new.found ≡ overlay.old.found }
    ensures memory { NeedsNoMemory overlay.old (Command.Set key.now value.now when) → IsOk result }
{
    if !allows(when, overlay.value(key.as_slice())) {
        return Ok(CommandReply::bulk(None));
    }
    write_copy(alloc, overlay, key, value)?;
    Ok(CommandReply::line(Line::Done))
}

/// `SETNX`
pub(crate) fn set_if_missing(
    alloc: Global,
    overlay: &mut Overlay<'_>,
    key: &Word,
    value: &Word,
) -> Result<CommandReply, OutOfMemory>
    ensures reply { IfOk result (λ reply. reply ≡ (answer (shown overlay.old) (Command.SetNx key.now value.now)).0) }
    ensures writes { OnOk result (overlay.new.writes ≡ overlay.old.writes ++ (answer (shown overlay.old) (Command.SetNx key.now value.now)).1) }
    ensures found { overlay.new.found ≡ overlay.old.found }
    ensures memory { NeedsNoMemory overlay.old (Command.SetNx key.now value.now) → IsOk result }
{
    if overlay.has(key.as_slice()) {
        return Ok(CommandReply::integer(0));
    }
    write_copy(alloc, overlay, key, value)?;
    Ok(CommandReply::integer(1))
}

/// `SET` with GET, and `GETSET`, which is always done
pub(crate) fn get_and_set(
    alloc: Global,
    overlay: &mut Overlay<'_>,
    key: &Word,
    value: &Word,
    when: When,
) -> Result<CommandReply, OutOfMemory>
    ensures reply { IfOk result (λ reply. reply ≡ answers.bulk (shown overlay.old key.now)) }
    ensures writes { OnOk result (overlay.new.writes ≡ overlay.old.writes ++ (answer (shown overlay.old) (Command.SetGet key.now value.now when)).1) }
    ensures found { overlay.new.found ≡ overlay.old.found }
    ensures memory { NeedsNoMemory overlay.old (Command.SetGet key.now value.now when) → IsOk result }
{
    let old = value_copy(alloc, overlay, key)?;
    if allows(when, overlay.value(key.as_slice())) {
        write_copy(alloc, overlay, key, value)?;
    }
    Ok(CommandReply::bulk(old))
}

/// `GETDEL`
pub(crate) fn get_and_delete(
    alloc: Global,
    overlay: &mut Overlay<'_>,
    key: &Word,
) -> Result<CommandReply, OutOfMemory>
    ensures reply { IfOk result (λ reply. reply ≡ (answer (shown overlay.old) (Command.GetDel key.now)).0) }
    ensures writes { OnOk result (overlay.new.writes ≡ overlay.old.writes ++ (answer (shown overlay.old) (Command.GetDel key.now)).1) }
    ensures found { overlay.new.found ≡ overlay.old.found }
    ensures memory { NeedsNoMemory overlay.old (Command.GetDel key.now) → IsOk result }
{
    let old = value_copy(alloc, overlay, key)?;
    if old.is_some() {
        overlay.write(alloc, key, None)?;
    }
    Ok(CommandReply::bulk(old))
}

/// `DEL`
pub(crate) fn delete(
    alloc: Global,
    overlay: &mut Overlay<'_>,
    keys: &[Word],
) -> Result<CommandReply, OutOfMemory>
    ensures reply { IfOk result (λ reply. reply ≡ answers.number (length (deletions (shown overlay.old) keys.now))) }
    ensures writes { OnOk result (overlay.new.writes ≡ overlay.old.writes ++ deletions (shown overlay.old) keys.now) }
    ensures found { overlay.new.found ≡ overlay.old.found }
    ensures memory { NeedsNoMemory overlay.old (Command.Del keys.now) → IsOk result }
{
    let mut count: usize = 0;
    for key in keys {
        if overlay.has(key.as_slice()) {
            overlay.write(alloc, key, None)?;
            count += 1;
        }
    }
    Ok(CommandReply::integer(count as i64))
}

/// `RENAME`
pub(crate) fn rename(
    alloc: Global,
    overlay: &mut Overlay<'_>,
    key: &Word,
    name: &Word,
) -> Result<CommandReply, OutOfMemory>
    ensures reply { IfOk result (λ reply. reply ≡ (answer (shown overlay.old) (Command.Rename key.now name.now)).0) }
    ensures writes { OnOk result (overlay.new.writes ≡ overlay.old.writes ++ (answer (shown overlay.old) (Command.Rename key.now name.now)).1) }
    ensures found { overlay.new.found ≡ overlay.old.found }
    ensures memory { NeedsNoMemory overlay.old (Command.Rename key.now name.now) → IsOk result }
{
    if !overlay.has(key.as_slice()) {
        return Ok(refused(Refusal::NoSuchKey));
    }
    if key.as_slice() == name.as_slice() {
        return Ok(CommandReply::line(Line::Done));
    }
    move_value(alloc, overlay, key, name)?;
    Ok(CommandReply::line(Line::Done))
}

/// `MSET`
pub(crate) fn set_all(
    alloc: Global,
    overlay: &mut Overlay<'_>,
    settings: &[(Word, Word)],
) -> Result<CommandReply, OutOfMemory>
    ensures reply { IfOk result (λ reply. reply ≡ answers.line Line.Done) }
    ensures writes { OnOk result (overlay.new.writes ≡ overlay.old.writes ++ writes_set settings.now) }
    ensures found { overlay.new.found ≡ overlay.old.found }
    ensures memory { AreInline (writes_set settings.now) → length (writes_set settings.now) ≤ WRITES_INLINE - length overlay.old.writes → IsOk result }
{
    write_all(alloc, overlay, settings)?;
    Ok(CommandReply::line(Line::Done))
}

/// `MSETNX`
pub(crate) fn set_all_if_missing(
    alloc: Global,
    overlay: &mut Overlay<'_>,
    settings: &[(Word, Word)],
) -> Result<CommandReply, OutOfMemory>
    ensures reply { IfOk result (λ reply. reply ≡ (answer (shown overlay.old) (Command.MSetNx settings.now)).0) }
    ensures writes { OnOk result (overlay.new.writes ≡ overlay.old.writes ++ (answer (shown overlay.old) (Command.MSetNx settings.now)).1) }
    ensures found { overlay.new.found ≡ overlay.old.found }
    ensures memory { NeedsNoMemory overlay.old (Command.MSetNx settings.now) → IsOk result }
{
    if any_there(overlay, settings) {
        return Ok(CommandReply::integer(0));
    }
    write_all(alloc, overlay, settings)?;
    Ok(CommandReply::integer(1))
}

/// Writes a copy of a value to a key.
fn write_copy(
    alloc: Global,
    overlay: &mut Overlay<'_>,
    key: &Word,
    value: &Word,
) -> Result<(), OutOfMemory>
    ensures writes { OnOk result (overlay.new.writes ≡ overlay.old.writes ++ (key.now, Some value.now) ∷ []) }
    ensures found { overlay.new.found ≡ overlay.old.found }
    ensures memory { HasRoom overlay.old → IsInline key.now → IsInline value.now → IsOk result }
{
    let value = copy(alloc, value)?;
    overlay.write(alloc, key, Some(value))
}

/// Whether a SET is done where its key has this value.
fn allows(when: When, value: Option<&[u8]>) -> bool
    ensures { result ≡ answers.allows when (option_copied value.entry) }
{
    match (when, value) {
        (When::Always, _) | (When::IfMissing, None) | (When::IfPresent, Some(_)) => true,
        (When::IfMissing, Some(_)) | (When::IfPresent, None) => false,
    }
}

/// Moves the value of a key to another name.
fn move_value(
    alloc: Global,
    overlay: &mut Overlay<'_>,
    key: &Word,
    name: &Word,
) -> Result<(), OutOfMemory>
    ensures writes { OnOk result (overlay.new.writes ≡ overlay.old.writes ++ (key.now, None) ∷ (name.now, shown overlay.old key.now) ∷ []) }
    ensures found { overlay.new.found ≡ overlay.old.found }
{
    let value = value_copy(alloc, overlay, key)?;
    overlay.write(alloc, key, None)?;
    overlay.write(alloc, name, value)
}

/// Writes settings.
fn write_all(
    alloc: Global,
    overlay: &mut Overlay<'_>,
    settings: &[(Word, Word)],
) -> Result<(), OutOfMemory>
    ensures writes { OnOk result (overlay.new.writes ≡ overlay.old.writes ++ writes_set settings.now) }
    ensures found { overlay.new.found ≡ overlay.old.found }
    ensures memory { AreInline (writes_set settings.now) → length (writes_set settings.now) ≤ WRITES_INLINE - length overlay.old.writes → IsOk result }
{
    for (key, value) in settings {
        write_copy(alloc, overlay, key, value)?;
    }
    Ok(())
}

/// Whether one of the settings' keys is there.
fn any_there(overlay: &Overlay<'_>, settings: &[(Word, Word)]) -> bool
    ensures { result ≡ answers.any_there (shown overlay.now) settings.now }
{
    for (key, _) in settings {
        if overlay.has(key.as_slice()) {
            return true;
        }
    }
    false
}

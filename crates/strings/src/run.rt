//! Commands, run on an overlay.

ghost use Rattle.std.specs.Prelude.{◌≡◌, [], ◌++◌, IfOk, OnOk, IsOk};
ghost use Rattle.words.specs.Answers.{answer};
ghost use Rattle.strings.specs.Kinds.{OnlyReads, MayWrite};
ghost use Rattle.strings.specs.Overlays.{shown, NeedsNoMemory};

use crate::counters::{add, subtract};
use crate::growing::{append, refused, set_range};
use crate::overlay::Overlay;
use crate::reading::{echo, exists, get, get_all, get_range, length};
use crate::writing::{
    delete, get_and_delete, get_and_set, rename, set, set_all, set_all_if_missing, set_if_missing,
};
use std::alloc::Global;
use words::command::{Command, When};
use words::reply::{CommandReply, Line};
use words::word::OutOfMemory;

/// What a command answers on the store that the overlay shows. The overlay gains the command's writes,
/// in order, after those that it has. It reads nothing else: a key that the overlay does not hold counts
/// as missing, so hold the command's keys first.
///
/// # Errors
///
/// [`OutOfMemory`] where a growth was refused. What was found stays then, and the overlay may have gained
/// some of the writes: give it up.
pub fn run(
    alloc: Global,
    command: &Command,
    overlay: &mut Overlay<'_>,
) -> Result<CommandReply, OutOfMemory>
    ensures reply { IfOk result (λ reply. reply ≡ (answer (shown overlay.old) command.now).0) }
    ensures writes { OnOk result (overlay.new.writes ≡ overlay.old.writes ++ (answer (shown overlay.old) command.now).1) }
    ensures found { overlay.new.found ≡ overlay.old.found }
    ensures memory { NeedsNoMemory overlay.old command.now → IsOk result }
{
    match command {
        Command::Ping(_)
        | Command::Echo(_)
        | Command::Get(_)
        | Command::StrLen(_)
        | Command::Exists(_)
        | Command::GetRange(_, _, _)
        | Command::MGet(_)
        | Command::Session(_)
        | Command::Bad(_) => read(alloc, command, overlay),
        Command::Set(_, _, _)
        | Command::SetGet(_, _, _)
        | Command::SetNx(_, _)
        | Command::GetSet(_, _)
        | Command::GetDel(_)
        | Command::Del(_)
        | Command::Append(_, _)
        | Command::SetRange(_, _, _)
        | Command::Add(_, _)
        | Command::Subtract(_, _)
        | Command::MSet(_)
        | Command::MSetNx(_)
        | Command::Rename(_, _) => change(alloc, command, overlay),
    }
}

/// What a command answers that only reads.
fn read(
    alloc: Global,
    command: &Command,
    overlay: &Overlay<'_>,
) -> Result<CommandReply, OutOfMemory>
    requires { OnlyReads command.now }
    ensures reply { IfOk result (λ reply. reply ≡ (answer (shown overlay.now) command.now).0) }
    ensures writes { (answer (shown overlay.now) command.now).1 ≡ [] }
    ensures memory { NeedsNoMemory overlay.now command.now → IsOk result }
{
    match command {
        Command::Ping(None) => Ok(CommandReply::line(Line::Pong)),
        Command::Ping(Some(text)) | Command::Echo(text) => echo(alloc, text),
        Command::Get(key) => get(alloc, overlay, key),
        Command::StrLen(key) => Ok(length(overlay, key)),
        Command::Exists(keys) => Ok(exists(overlay, keys.as_slice())),
        Command::GetRange(key, start, end) => get_range(alloc, overlay, key, *start, *end),
        Command::MGet(keys) => get_all(alloc, overlay, keys.as_slice()),
        Command::Session(_) => Ok(CommandReply::line(Line::Done)),
        Command::Bad(refusal) => Ok(refused(*refusal)),
        _ => unreachable!(),
    }
}

/// What a command answers that may write.
fn change(
    alloc: Global,
    command: &Command,
    overlay: &mut Overlay<'_>,
) -> Result<CommandReply, OutOfMemory>
    requires { MayWrite command.now }
    ensures reply { IfOk result (λ reply. reply ≡ (answer (shown overlay.old) command.now).0) }
    ensures writes { OnOk result (overlay.new.writes ≡ overlay.old.writes ++ (answer (shown overlay.old) command.now).1) }
    ensures found { overlay.new.found ≡ overlay.old.found }
    ensures memory { NeedsNoMemory overlay.old command.now → IsOk result }
{
    match command {
        Command::Set(key, value, when) => set(alloc, overlay, key, value, *when),
        Command::SetNx(key, value) => set_if_missing(alloc, overlay, key, value),
        Command::SetGet(key, value, when) => get_and_set(alloc, overlay, key, value, *when),
        Command::GetSet(key, value) => get_and_set(alloc, overlay, key, value, When::Always),
        Command::GetDel(key) => get_and_delete(alloc, overlay, key),
        Command::Del(keys) => delete(alloc, overlay, keys.as_slice()),
        Command::Append(key, value) => append(alloc, overlay, key, value),
        Command::SetRange(key, offset, value) => set_range(alloc, overlay, key, *offset, value),
        Command::Add(key, number) => add(alloc, overlay, key, *number),
        Command::Subtract(key, number) => subtract(alloc, overlay, key, *number),
        Command::MSet(settings) => set_all(alloc, overlay, settings.as_slice()),
        Command::MSetNx(settings) => set_all_if_missing(alloc, overlay, settings.as_slice()),
        Command::Rename(key, name) => rename(alloc, overlay, key, name),
        _ => unreachable!(),
    }
}

//! What commands answer, on what is found of their keys.

ghost use Rattle.std.specs.Prelude.{◌≡◌, ◌≤◌, ◌+◌, ◌∷◌, ◌++◌, [], length, OnOk, IfErr, IfOk, IsOk};
ghost use Rattle.std.specs.Bool.{OnTrue};
ghost use Rattle.std.specs.Option.{option_copied};
ghost use Rattle.words.specs.Store.{Bytes, empty, written};
ghost use Rattle.words.specs.Commands.{keys_of, keys_of_all};
ghost use Rattle.words.specs.Answers.{answer, answers};
ghost use Rattle.words.specs.Answers as answering;
ghost use Rattle.words.specs.Answers.{items_of};
ghost use Rattle.strings.specs.declared.found.TheConstants.{FOUND_INLINE};
ghost use Rattle.strings.specs.Overlays.{shown, NeedsNoMemory};
ghost use Rattle.transact.specs.Memory.{of_one_key};
ghost use Rattle.transact.specs.Tables.{joined};
ghost use Rattle.shards.specs.Shards.{shard_meaning, shard_store};
ghost use Rattle.hybrid.specs.Staging.{AreRight};
ghost use Rattle.plans.specs.Planning.{IsStillHeld, MayLookUp};
ghost use Rattle.plans.specs.Finding.{AnswersOn, AnswersOnIn, FindsInPlaceIn, HasMissedFor, LooksUpIn, MissedFor};
ghost use Rattle.plans.specs.Memory.{IfOneInPlace};

use crate::cells::{find_key, missed, stripe_at};
use crate::short::value_of;
use crate::stop::{Receipts, Stop};
use device::Shows;
use gates::Parts;
use hybrid::{Lookup, Staged};
use shards::shard::Shard;
use std::alloc::Global;
use strings::found::Findings;
use strings::keys::{key_at, key_count};
use strings::overlay::Overlay;
use strings::run::run;
use strings::writes::{Write, Writes};
use words::command::Command;
use words::hash::Hashed;
use words::reply::{CommandReply, Item};
use words::word::{OutOfMemory, Word};

/// Looks up the keys of a command, all of them, whichever of their pages are wanted.
pub(crate) fn find_command<R: Shows, P: Parts<Shard<R>>>(
    alloc: Global,
    parts: &mut P,
    command: &Command,
    staged: &Staged<R>,
    found: &mut Writes,
    cold: &mut Receipts<R>,
) -> Result<(), OutOfMemory>
    requires may { MayLookUp (P.is_open parts.old) (P.stripes_of parts.old) (P.part_of parts.old) (keys_of command.now) }
    ensures found { OnOk result (LooksUpIn R.is_steady P.stripes_of P.part_of parts.old (R.is_honest × AreRight staged.now)
        (keys_of command.now) staged.now (cold.old, found.old) (cold.new, found.new)) }
    ensures lent { R.lends → cold.new ≡ cold.old }
    ensures memory { (key : Bytes) → keys_of command.now ≡ key ∷ []
        → FindsInPlaceIn R.is_steady P.stripes_of P.part_of parts.old R.lends (R.is_honest × AreRight staged.now) key staged.now
        (length found.old) → found.old ≡ [] → IsOk result }
    ensures same { P.part_of parts.new ≡ P.part_of parts.old }
    ensures held { IsStillHeld P.is_open P.keeps parts.old parts.new }
{
    for place in 0..key_count(command) {
        find_key(alloc, parts, key_at(command, place), staged, found, cold)?;
    }
    Ok(())
}

/// Looks up the keys of these commands.
pub(crate) fn find_commands<R: Shows, P: Parts<Shard<R>>>(
    alloc: Global,
    parts: &mut P,
    commands: &[Command],
    staged: &Staged<R>,
    found: &mut Writes,
    cold: &mut Receipts<R>,
) -> Result<(), OutOfMemory>
    requires may { MayLookUp (P.is_open parts.old) (P.stripes_of parts.old) (P.part_of parts.old) (keys_of_all commands.now) }
    ensures found { OnOk result (LooksUpIn R.is_steady P.stripes_of P.part_of parts.old (R.is_honest × AreRight staged.now)
        (keys_of_all commands.now) staged.now (cold.old, found.old) (cold.new, found.new)) }
    ensures lent { R.lends → cold.new ≡ cold.old }
    ensures same { P.part_of parts.new ≡ P.part_of parts.old }
    ensures held { IsStillHeld P.is_open P.keeps parts.old parts.new }
{
    let mut left = commands;
    while let Some((command, others)) = left.split_first() {
        find_command(alloc, parts, command, staged, found, cold)?;
        left = others;
    }
    Ok(())
}

/// An empty list with room for so many, or with none where that was refused: then it grows.
pub(crate) fn room_for<T>(alloc: Global, count: usize) -> Vec<T>
    ensures { result.items ≡ [] }
{
    match Vec::with_capacity(alloc, count) {
        Ok(list) => list,
        Err(_) => Vec::new(alloc),
    }
}

/// Adds the values of these keys, as items. Each is copied once, from where it lies. False where a page is wanted, or memory:
/// the items are then some of them.
pub(crate) fn add_values<R: Shows, P: Parts<Shard<R>>>(
    alloc: Global,
    parts: &mut P,
    keys: &[Word],
    staged: &Staged<R>,
    items: &mut Vec<Item>,
) -> bool
    requires may { MayLookUp (P.is_open parts.old) (P.stripes_of parts.old) (P.part_of parts.old) keys.now }
    ensures items { OnTrue result (R.is_honest × AreRight staged.now → items.new.items ≡ items.old.items
        ++ items_of (joined (shard_meaning R.is_steady) (P.stripes_of parts.old) (P.part_of parts.old)) keys.now) }
    ensures same { P.part_of parts.new ≡ P.part_of parts.old }
    ensures held { IsStillHeld P.is_open P.keeps parts.old parts.new }
{
    let mut left = keys;
    while let Some((first, others)) = left.split_first() {
        let Ok(value) = value_of(alloc, parts, &Hashed::new(first), staged) else {
            return false;
        };
        let Ok(()) = items.push(Item::of(value)) else {
            return false;
        };
        left = others;
    }
    true
}

/// Shows what was found.
fn show<'a>(found: &'a [Write], shown: &mut Findings<'a>) -> Result<(), OutOfMemory>
    ensures shown { OnOk result (shown.new ≡ shown.old ++ found.entry.now) }
    ensures memory { length shown.old + length found.entry.now ≤ FOUND_INLINE → IsOk result }
{
    let mut left = found;
    while let Some((first, others)) = left.split_first() {
        let value = match first.value() {
            Some(value) => Some(value.as_slice()),
            None => None,
        };
        shown.push(first.key().as_slice(), value)?;
        left = others;
    }
    Ok(())
}

/// What a command answers and writes, where this was found of its keys.
pub(crate) fn answer_one(
    alloc: Global,
    found: &Writes,
    command: &Command,
) -> Result<(CommandReply, Writes), OutOfMemory>
    ensures answer { IfOk result (λ done. done ≡ answer (written empty found.now) command.now) }
    ensures memory { IfOneInPlace found.now command.now (IsOk result) }
{
    let mut overlay = Overlay::new(alloc);
    match answer_on(alloc, found, command, &mut overlay) {
        Ok(reply) => Ok((reply, overlay.writes)),
        Err(refused) => Err(refused),
    }
}

/// What a command that names this key alone answers and writes, where this was found of it.
fn answer_found(
    alloc: Global,
    key: &Word,
    value: Option<&[u8]>,
    command: &Command,
) -> Result<(CommandReply, Writes), OutOfMemory>
    ensures answer { IfOk result (λ done. done ≡ answer (written empty ((key.now, option_copied value.entry) ∷ [])) command.now) }
    ensures memory { NeedsNoMemory (of_one_key key.now (option_copied value.entry)) command.now → IsOk result }
{
    let mut overlay = Overlay::new(alloc);
    overlay.found.push(key.as_slice(), value)?;
    match run(alloc, command, &mut overlay) {
        Ok(reply) => Ok((reply, overlay.writes)),
        Err(refused) => Err(refused),
    }
}

/// What a command that names this key alone answers and writes, on the part of its stripe: the value is read where it lies.
fn answer_at<R: Shows>(
    alloc: Global,
    part: &Shard<R>,
    key: &Hashed,
    command: &Command,
    staged: &Staged<R>,
) -> Result<(CommandReply, Writes), Stop<R>>
    ensures answer { IfOk result (AnswersOn (R.is_honest × AreRight staged.now) (shard_store part.now) key.now command.now) }
    ensures stopped { IfErr result (MissedFor R.lends (R.is_honest × AreRight staged.now) part.now key.now command.now staged.now) }
{
    let value = match part.find(key, staged) {
        Lookup::Found(value) => Some(value),
        Lookup::Absent => None,
        Lookup::Cold(number, offset) => {
            return Err(missed(alloc, part, number, offset, staged));
        }
    };
    match answer_found(alloc, key.key(), value, command) {
        Ok(done) => Ok(done),
        Err(_) => Err(Stop::OutOfMemory),
    }
}

/// What a command that names this key alone answers and writes.
pub(crate) fn answer_key<R: Shows, P: Parts<Shard<R>>>(
    alloc: Global,
    parts: &mut P,
    key: &Hashed,
    command: &Command,
    staged: &Staged<R>,
) -> Result<(CommandReply, Writes), Stop<R>>
    requires one { keys_of command.now ≡ key.now ∷ [] }
    requires may { MayLookUp (P.is_open parts.old) (P.stripes_of parts.old) (P.part_of parts.old) (key.now ∷ []) }
    ensures answer { IfOk result (AnswersOnIn R.is_steady P.stripes_of P.part_of parts.old
        (R.is_honest × AreRight staged.now) key.now command.now) }
    ensures stopped { IfErr result (HasMissedFor R.is_steady P.stripes_of P.part_of parts.old
        R.lends (R.is_honest × AreRight staged.now) command.now staged.now) }
    ensures same { P.part_of parts.new ≡ P.part_of parts.old }
    ensures held { IsStillHeld P.is_open P.keeps parts.old parts.new }
{
    let stripe = stripe_at(&*parts, key);
    answer_at(alloc, parts.part(stripe), key, command, staged)
}

/// What a command answers and writes on an empty store, where nothing is looked up.
pub(crate) fn answer_unread(
    alloc: Global,
    command: &Command,
) -> Result<(CommandReply, Writes), OutOfMemory>
    ensures answer { IfOk result (λ done. done ≡ answer empty command.now) }
    ensures memory { NeedsNoMemory (record { found = []; writes = [] }) command.now → IsOk result }
{
    let mut overlay = Overlay::new(alloc);
    match run(alloc, command, &mut overlay) {
        Ok(reply) => Ok((reply, overlay.writes)),
        Err(refused) => Err(refused),
    }
}

/// What a command answers, where this was found of its keys. The overlay gains what was found and what the
/// command writes.
fn answer_on<'a>(
    alloc: Global,
    found: &'a Writes,
    command: &Command,
    overlay: &mut Overlay<'a>,
) -> Result<CommandReply, OutOfMemory>
    requires none { overlay.old.found ≡ [] }
    requires unwritten { overlay.old.writes ≡ [] }
    ensures answer { IfOk result (λ reply. (reply, overlay.new.writes) ≡ answer (written empty found.entry.now) command.now) }
    ensures memory { IfOneInPlace found.entry.now command.now (IsOk result) }
{
    show(found.as_slice(), &mut overlay.found)?;
    run(alloc, command, overlay)
}

/// What commands answer and write that run one after the other, where this was found of their keys.
pub(crate) fn answer_all(
    alloc: Global,
    found: &Writes,
    commands: &[Command],
) -> Result<(Vec<CommandReply>, Writes), OutOfMemory>
    ensures { IfOk result (λ done. (done.0.items, done.1) ≡ answers (written empty found.now) commands.now) }
{
    let mut overlay = Overlay::new(alloc);
    let mut replies = Vec::new(alloc);
    match answer_all_on(alloc, found, commands, &mut overlay, &mut replies) {
        Ok(()) => Ok((replies, overlay.writes)),
        Err(refused) => Err(refused),
    }
}

/// What commands answer that run one after the other, where this was found of their keys. The overlay
/// gains what was found and what the commands write.
fn answer_all_on<'a>(
    alloc: Global,
    found: &'a Writes,
    commands: &[Command],
    overlay: &mut Overlay<'a>,
    replies: &mut Vec<CommandReply>,
) -> Result<(), OutOfMemory>
    requires none { overlay.old.found ≡ [] }
    requires unwritten { overlay.old.writes ≡ [] }
    requires unanswered { replies.old.items ≡ [] }
    ensures { OnOk result ((replies.new.items, overlay.new.writes) ≡ answers (written empty found.entry.now) commands.now) }
{
    show(found.as_slice(), &mut overlay.found)?;
    run_all(alloc, commands, overlay, replies)
}

/// What commands answer one after the other. The overlay gains their writes.
fn run_all(
    alloc: Global,
    commands: &[Command],
    overlay: &mut Overlay<'_>,
    replies: &mut Vec<CommandReply>,
) -> Result<(), OutOfMemory>
    ensures replies { OnOk result (replies.new.items ≡ replies.old.items ++ (answers (shown overlay.old) commands.now).0) }
    ensures writes { OnOk result (overlay.new.writes ≡ overlay.old.writes ++ (answers (shown overlay.old) commands.now).1) }
{
    let mut left = commands;
    while let Some((command, others)) = left.split_first() {
        let reply = run(alloc, command, overlay)?;
        replies.push(reply)?;
        left = others;
    }
    Ok(())
}

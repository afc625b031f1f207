//! What commands answer and write that run one after the other, each on what its keys have where it lies. What one wrote the
//! next ones find.

ghost use Rattle.std.specs.Prelude.{◌≡◌, ℕ, [], ◌∷◌, None, Option, Some, false, if◌then◌else◌, slice_get, IfSome, IsSome, OnSome};
ghost use Rattle.std.specs.Option.{option_copied};
ghost use Rattle.words.specs.Briefs.{counting};
ghost use Rattle.words.specs.Store.{Bytes, Store, empty, written, writes_key};
ghost use Rattle.words.specs.declared.command.Command.TheVariants.{MGet};
ghost use Rattle.words.specs.Answers.{is_some, item_of};
ghost use Rattle.words.specs.Commands.{keys_of, keys_of_all};
ghost use Rattle.hybrid.specs.HybridLog.{HybridLog};
ghost use Rattle.hybrid.specs.Lookups.{IsInPlace};
ghost use Rattle.hybrid.specs.Staging.{AreRight};
ghost use Rattle.transact.specs.Tables.{joined};
ghost use Rattle.shards.specs.Shards.{shard_log, shard_meaning, shard_store};
ghost use Rattle.plans.specs.Placing.{IsPlaceIn, WasLookedUp, WasLookedUpIn, WereLookedUp, WereLookedUpIn};
ghost use Rattle.plans.specs.Planning.{IsStillHeld, MayLookUp};
ghost use Rattle.plans.specs.Running.{AsksPresence, HasRun, HasRunIn, HasRunOn, HasShownIn, HaveRunIn, IsFound, ReadsOne};
ghost use Rattle.plans.specs.Sizes.{AreSized};

use crate::cells::stripe_at;
use crate::find::room_for;
use crate::looks::{Looks, looks_of};
use crate::settling::{look_at, number_made, text_of};
use device::Shows;
use gates::Parts;
use hybrid::{Lookup, Spot, Staged};
use shards::shard::Shard;
use std::alloc::Global;
use std::mem;
use strings::found::Findings;
use strings::keys::{key_at, key_count};
use strings::overlay::Overlay;
use strings::run::run;
use strings::writes::{Write, Writes, writes_to};
use words::command::{Command, Count};
use words::hash::Hashed;
use words::locality::writes_named_keys;
use words::reply::{CommandReply, Item, Line};
use words::sequence::Sequence;
use words::word::Word;

/// A key that was looked up.
#[derive(Clone, Copy)]
pub(crate) struct Looked<'a> {
    pub(crate) key: &'a Word,
    /// Its stripe.
    pub(crate) stripe: usize,
    pub(crate) hash: u64,
    /// Where its newest record stands, if that may be written in place.
    pub(crate) spot: Option<Spot>,
}

/// What a command answers after these writes, where this was found of its keys. The writes gain its own. `None` where memory was
/// refused: the writes are then lost.
fn run_after(
    alloc: Global,
    found: Findings<'_>,
    command: &Command,
    writes: &mut Writes,
) -> Option<CommandReply>
    ensures { IfSome result (HasRun (written empty found.entry) command.now writes.old writes.new) }
{
    let mut overlay = Overlay {
        found,
        writes: mem::replace(writes, Writes::new(alloc)),
    };
    match run(alloc, command, &mut overlay) {
        Ok(reply) => {
            *writes = overlay.writes;
            Some(reply)
        }
        Err(_) => None,
    }
}

/// What a key has, where it lies. `None` where a page is wanted, which receipts do not lend.
pub(crate) fn value_at<'a, R: Shows>(
    part: &'a Shard<R>,
    key: &Hashed,
    staged: &'a Staged<R>,
) -> Option<Option<&'a [u8]>>
    ensures found { IfSome result (λ value. IsFound (R.is_honest × AreRight staged.entry.now)
        (shard_store part.entry.now) key.now (option_copied value)) }
    ensures lent { R.lends → IsSome result }
{
    match part.find(key, staged) {
        Lookup::Found(value) => Some(Some(value)),
        Lookup::Absent => Some(None),
        Lookup::Cold(_, _) => None,
    }
}

/// What a command that reads this key alone answers after these writes, on the part of its stripe, and where the key's newest record
/// stands, if it may be written in place: the value is read where it lies. `None` where a page is wanted, or memory: the writes are then
/// lost.
fn run_at<R: Shows>(
    alloc: Global,
    part: &Shard<R>,
    key: &Hashed,
    command: &Command,
    staged: &Staged<R>,
    writes: &mut Writes,
) -> Option<(CommandReply, Option<Spot>)>
    requires reads { ReadsOne key.now command.now }
    requires names { slice_get (keys_of command.now) 0 ≡ Some key.now }
    ensures ran { (store : Store) → store key.now ≡ shard_store part.now key.now
        → IfSome result (λ done. HasRunOn (R.is_honest × AreRight staged.now) store command.now writes.old writes.new done.0) }
    ensures place { IfSome result (λ done. IfSome done.1 (λ spot. IsInPlace (shard_log part.now) key.now spot.capacity spot.address)) }
{
    let (value, spot) = look_at(part, key, staged)?;
    match run_found(alloc, key, value, command, writes) {
        Some(reply) => Some((reply, spot)),
        None => None,
    }
}

/// What a command that reads this key alone answers after these writes, where the key has this. `None` where memory was refused: the
/// writes are then lost. One that counts what no write before it has changed is run by itself.
fn run_found(
    alloc: Global,
    key: &Hashed,
    value: Option<&[u8]>,
    command: &Command,
    writes: &mut Writes,
) -> Option<CommandReply>
    requires names { slice_get (keys_of command.now) 0 ≡ Some key.now }
    ensures { IfSome result (HasRun (written empty ((key.now, option_copied value.entry) ∷ [])) command.now writes.old writes.new) }
{
    match count_of(command) {
        Some(by) if !writes_to(writes.as_slice(), key.key()) => {
            run_count(alloc, key, by, value, writes)
        }
        _ => {
            let mut found = Findings::new(alloc);
            match found.push(key.key().as_slice(), value) {
                Ok(()) => run_after(alloc, found, command, writes),
                Err(_) => None,
            }
        }
    }
}

/// By how much a command counts, if it does.
fn count_of(command: &Command) -> Option<Count>
    ensures { IfSome result (λ by. (key : Bytes) → slice_get (keys_of command.now) 0 ≡ Some key → command.now ≡ counting by key) }
{
    match command {
        Command::Add(_, number) => Some(Count::Add(*number)),
        Command::Subtract(_, number) => Some(Count::Subtract(*number)),
        _ => None,
    }
}

/// What a command that counts answers after these writes, none of which is to its key, where the key has this. `None` where memory
/// was refused.
fn run_count(
    alloc: Global,
    key: &Hashed,
    by: Count,
    value: Option<&[u8]>,
    writes: &mut Writes,
) -> Option<CommandReply>
    requires apart { writes_key writes.old key.now ≡ false }
    ensures { IfSome result (HasRun (written empty ((key.now, option_copied value.entry) ∷ [])) (counting by key.now)
        writes.old writes.new) }
{
    match number_made(by, value) {
        Ok(number) => {
            let Ok(name) = key.key().clone() else {
                return None;
            };
            match writes.push(Write::new(name, Some(text_of(alloc, number)))) {
                Ok(()) => Some(CommandReply::integer(number)),
                Err(_) => None,
            }
        }
        Err(refusal) => Some(CommandReply::line(Line::Refused(refusal))),
    }
}

/// What a command that reads this key alone answers after these writes, and where the key's newest record stands, if it may be written
/// in place. `None` where a page is wanted, or memory: the writes are then lost.
pub(crate) fn run_key<R: Shows, P: Parts<Shard<R>>>(
    alloc: Global,
    parts: &mut P,
    key: &Hashed,
    command: &Command,
    staged: &Staged<R>,
    writes: &mut Writes,
) -> Option<(CommandReply, Option<Spot>)>
    requires reads { ReadsOne key.now command.now }
    requires names { slice_get (keys_of command.now) 0 ≡ Some key.now }
    requires may { MayLookUp (P.is_open parts.old) (P.stripes_of parts.old) (P.part_of parts.old) (key.now ∷ []) }
    ensures ran { IfSome result (λ done. HasRunIn R.is_steady P.stripes_of P.part_of parts.old
        (R.is_honest × AreRight staged.now) command.now writes.old writes.new done.0) }
    ensures place { IfSome result (λ done. IfSome done.1 (IsPlaceIn P.stripes_of P.part_of parts.old key.now)) }
    ensures same { P.part_of parts.new ≡ P.part_of parts.old }
    ensures held { IsStillHeld P.is_open P.keeps parts.old parts.new }
{
    let stripe = stripe_at(&*parts, key);
    run_at(alloc, parts.part(stripe), key, command, staged, writes)
}

/// Whether a key is there, on the part of its stripe, and where its newest record stands, if that may be written in place. `None` where a
/// page is wanted.
fn presence_at<R: Shows>(
    part: &Shard<R>,
    key: &Hashed,
    staged: &Staged<R>,
) -> Option<(bool, Option<Spot>)>
    ensures there { IfSome result (λ found. R.is_honest × AreRight staged.now → found.0 ≡ is_some (shard_store part.now key.now)) }
    ensures place { IfSome result (λ found. IfSome found.1 (λ spot. IsInPlace (shard_log part.now) key.now spot.capacity spot.address)) }
{
    let (value, spot) = look_at(part, key, staged)?;
    Some((value.is_some(), spot))
}

/// Whether a key is there, and what its lookup tells besides. `None` where a page is wanted.
fn look_up<'a, R: Shows, P: Parts<Shard<R>>>(
    parts: &mut P,
    key: &'a Word,
    staged: &Staged<R>,
) -> Option<(bool, Looked<'a>)>
    requires may { MayLookUp (P.is_open parts.old) (P.stripes_of parts.old) (P.part_of parts.old) (key.now ∷ []) }
    ensures there { IfSome result (λ found. R.is_honest × AreRight staged.now
        → found.0 ≡ is_some (joined (shard_meaning R.is_steady) (P.stripes_of parts.old) (P.part_of parts.old) key.entry.now)) }
    ensures looked { IfSome result (λ found. WasLookedUpIn P.stripes_of P.part_of parts.old found.1) }
    ensures same { P.part_of parts.new ≡ P.part_of parts.old }
    ensures held { IsStillHeld P.is_open P.keeps parts.old parts.new }
{
    let hashed = Hashed::new(key);
    let stripe = stripe_at(&*parts, &hashed);
    let (there, spot) = presence_at(parts.part(stripe), &hashed, staged)?;
    let looked = Looked {
        key,
        stripe,
        hash: hashed.hash(),
        spot,
    };
    Some((there, looked))
}

/// An empty value, for a key that is there.
fn stand_in(there: bool) -> Option<&'static [u8]>
    ensures { option_copied result ≡ (if there then Some [] else None) }
{
    if there { Some(b"") } else { None }
}

/// Keeps what a lookup told, if it is to be kept, and says whether there was memory for that.
fn is_kept<'a>(keeps: bool, looked: &mut Vec<Looked<'a>>, found: Looked<'a>) -> bool
    ensures { (n : ℕ) (logs : ℕ → Option HybridLog) → WereLookedUp n logs looked.old.items → WasLookedUp n logs found.entry
        → WereLookedUp n logs looked.new.items }
{
    if !keeps {
        return true;
    }
    match looked.push(found) {
        Ok(()) => true,
        Err(_) => false,
    }
}

/// Shows which keys of a command are there: an empty value stands for the one that a key has. What their lookups tell besides is kept, where
/// this is true. `None` where a page is wanted, or memory.
fn show_present<'a, R: Shows, P: Parts<Shard<R>>>(
    parts: &mut P,
    command: &'a Command,
    staged: &Staged<R>,
    keeps: bool,
    shown: &mut Findings<'a>,
    looked: &mut Vec<Looked<'a>>,
) -> Option<()>
    requires looked { WereLookedUpIn P.stripes_of P.part_of parts.old looked.old.items }
    requires may { MayLookUp (P.is_open parts.old) (P.stripes_of parts.old) (P.part_of parts.old) (keys_of command.now) }
    ensures shown { OnSome result (HasShownIn R.is_steady P.stripes_of P.part_of parts.old
        (R.is_honest × AreRight staged.now) (keys_of command.entry.now) shown.old shown.new) }
    ensures looked { OnSome result (WereLookedUpIn P.stripes_of P.part_of parts.old looked.new.items) }
    ensures same { P.part_of parts.new ≡ P.part_of parts.old }
    ensures held { IsStillHeld P.is_open P.keeps parts.old parts.new }
{
    for place in 0..key_count(command) {
        let key = key_at(command, place);
        let (there, found) = look_up(parts, key, staged)?;
        let Ok(()) = shown.push(key.as_slice(), stand_in(there)) else {
            return None;
        };
        if !is_kept(keeps, looked, found) {
            return None;
        }
    }
    Some(())
}

/// What a command answers after these writes that depends on which of its keys are there: no value is copied. What their lookups tell
/// besides is kept, where this is true. `None` where a page is wanted, or memory: the writes are then lost.
pub(crate) fn run_present<'a, R: Shows, P: Parts<Shard<R>>>(
    alloc: Global,
    parts: &mut P,
    command: &'a Command,
    staged: &Staged<R>,
    keeps: bool,
    writes: &mut Writes,
    looked: &mut Vec<Looked<'a>>,
) -> Option<CommandReply>
    requires looked { WereLookedUpIn P.stripes_of P.part_of parts.old looked.old.items }
    requires presence { AsksPresence command.now }
    requires may { MayLookUp (P.is_open parts.old) (P.stripes_of parts.old) (P.part_of parts.old) (keys_of command.now) }
    ensures ran { IfSome result (HasRunIn R.is_steady P.stripes_of P.part_of parts.old
        (R.is_honest × AreRight staged.now) command.now writes.old writes.new) }
    ensures looked { OnSome result (WereLookedUpIn P.stripes_of P.part_of parts.old looked.new.items) }
    ensures same { P.part_of parts.new ≡ P.part_of parts.old }
    ensures held { IsStillHeld P.is_open P.keeps parts.old parts.new }
{
    let mut shown = Findings::new(alloc);
    show_present(parts, command, staged, keeps, &mut shown, looked)?;
    run_after(alloc, shown, command, writes)
}

/// The value of a key after these writes, as an item, where this was found of the key. The one copy is made of it. `None` where
/// memory was refused. The writes stay.
fn item_after(alloc: Global, found: Findings<'_>, key: &[u8], writes: &mut Writes) -> Option<Item>
    ensures item { IfSome result (λ item. item ≡ item_of (written (written empty found.entry) writes.old key.entry.now)) }
    ensures same { writes.new ≡ writes.old }
{
    let overlay = Overlay {
        found,
        writes: mem::replace(writes, Writes::new(alloc)),
    };
    let item = match overlay.value(key) {
        Some(value) => match Word::from_slice(alloc, value) {
            Ok(value) => Some(Item::Bulk(value)),
            Err(_) => None,
        },
        None => Some(Item::Null),
    };
    *writes = overlay.writes;
    item
}

/// The value of a key after these writes, as an item, on the part of its stripe. `None` where a page is wanted, or memory.
fn item_at<R: Shows>(
    alloc: Global,
    part: &Shard<R>,
    key: &Hashed,
    staged: &Staged<R>,
    writes: &mut Writes,
) -> Option<Item>
    ensures item { (store : Store) → store key.now ≡ shard_store part.now key.now
        → IfSome result (λ item. R.is_honest × AreRight staged.now → item ≡ item_of (written store writes.old key.now)) }
    ensures same { writes.new ≡ writes.old }
{
    let value = value_at(part, key, staged)?;
    let mut found = Findings::new(alloc);
    match found.push(key.key().as_slice(), value) {
        Ok(()) => item_after(alloc, found, key.key().as_slice(), writes),
        Err(_) => None,
    }
}

/// The value of a key after these writes, as an item. `None` where a page is wanted, or memory.
fn item_next<R: Shows, P: Parts<Shard<R>>>(
    alloc: Global,
    parts: &mut P,
    key: &Word,
    staged: &Staged<R>,
    writes: &mut Writes,
) -> Option<Item>
    requires may { MayLookUp (P.is_open parts.old) (P.stripes_of parts.old) (P.part_of parts.old) (key.now ∷ []) }
    ensures item { IfSome result (λ item. R.is_honest × AreRight staged.now → item ≡ item_of (written
        (joined (shard_meaning R.is_steady) (P.stripes_of parts.old) (P.part_of parts.old)) writes.old key.now)) }
    ensures writes { writes.new ≡ writes.old }
    ensures same { P.part_of parts.new ≡ P.part_of parts.old }
    ensures held { IsStillHeld P.is_open P.keeps parts.old parts.new }
{
    let key = Hashed::new(key);
    let stripe = stripe_at(&*parts, &key);
    item_at(alloc, parts.part(stripe), &key, staged, writes)
}

/// What an MGET of these keys answers after these writes: the one copy is made of each value. `None` where a page is wanted, or
/// memory.
fn run_items<R: Shows, P: Parts<Shard<R>>>(
    alloc: Global,
    parts: &mut P,
    keys: &[Word],
    staged: &Staged<R>,
    writes: &mut Writes,
) -> Option<CommandReply>
    requires may { MayLookUp (P.is_open parts.old) (P.stripes_of parts.old) (P.part_of parts.old) keys.now }
    ensures ran { IfSome result (HasRunIn R.is_steady P.stripes_of P.part_of parts.old
        (R.is_honest × AreRight staged.now) (MGet keys.now) writes.old writes.new) }
    ensures same { P.part_of parts.new ≡ P.part_of parts.old }
    ensures held { IsStillHeld P.is_open P.keeps parts.old parts.new }
{
    let mut items = room_for(alloc, keys.len());
    let mut left = keys;
    while let Some((first, others)) = left.split_first() {
        let item = item_next(alloc, parts, first, staged, writes)?;
        let Ok(()) = items.push(item) else {
            return None;
        };
        left = others;
    }
    Some(CommandReply::Array(Sequence::from_vec(items)))
}

/// What a command answers after these writes: of one that reads nothing no key is looked up; one that reads one key has its value
/// where it lies; one that asks which keys are there has no value; of an MGET each value is copied once, into the reply. `None`
/// where a page is wanted, or memory: the writes are then lost.
pub(crate) fn run_next<R: Shows, P: Parts<Shard<R>>>(
    alloc: Global,
    parts: &mut P,
    command: &Command,
    staged: &Staged<R>,
    writes: &mut Writes,
) -> Option<CommandReply>
    requires may { MayLookUp (P.is_open parts.old) (P.stripes_of parts.old) (P.part_of parts.old) (keys_of command.now) }
    ensures ran { IfSome result (HasRunIn R.is_steady P.stripes_of P.part_of parts.old
        (R.is_honest × AreRight staged.now) command.now writes.old writes.new) }
    ensures same { P.part_of parts.new ≡ P.part_of parts.old }
    ensures held { IsStillHeld P.is_open P.keeps parts.old parts.new }
{
    match looks_of(command) {
        Looks::AtNothing => run_after(alloc, Findings::new(alloc), command, writes),
        Looks::AtValue(key) => {
            let key = Hashed::new(key);
            match run_key(alloc, parts, &key, command, staged, writes) {
                Some((reply, _spot)) => Some(reply),
                None => None,
            }
        }
        Looks::AtItems(keys) => run_items(alloc, parts, keys, staged, writes),
        Looks::AtPresence => {
            let mut none = Vec::new(alloc);
            run_present(alloc, parts, command, staged, false, writes, &mut none)
        }
    }
}

/// What commands answer and write that run one after the other, each on what its keys have where it lies. `None` where a page is
/// wanted, or memory.
pub(crate) fn answer_each<R: Shows, P: Parts<Shard<R>>>(
    alloc: Global,
    parts: &mut P,
    commands: &[Command],
    staged: &Staged<R>,
) -> Option<(Vec<CommandReply>, Writes)>
    requires may { MayLookUp (P.is_open parts.old) (P.stripes_of parts.old) (P.part_of parts.old) (keys_of_all commands.now) }
    requires sized { AreSized commands.now }
    ensures ran { IfSome result (λ done. HaveRunIn R.is_steady P.stripes_of P.part_of parts.old
        (R.is_honest × AreRight staged.now) commands.now done.0.items done.1) }
    ensures same { P.part_of parts.new ≡ P.part_of parts.old }
    ensures held { IsStillHeld P.is_open P.keeps parts.old parts.new }
{
    writes_named_keys();
    let mut replies = room_for(alloc, commands.len());
    let mut writes = Writes::new(alloc);
    let mut left = commands;
    while let Some((command, others)) = left.split_first() {
        let reply = run_next(alloc, parts, command, staged, &mut writes)?;
        let Ok(()) = replies.push(reply) else {
            return None;
        };
        left = others;
    }
    Some((replies, writes))
}

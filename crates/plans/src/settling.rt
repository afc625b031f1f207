//! Commands of one key, on what the key has where it lies: nothing is copied but a value that is answered, and one that the command
//! makes.

ghost use Rattle.std.specs.Prelude.{◌≡◌, ◌≤◌, ◌∷◌, ◌++◌, [], length, if◌then◌else◌, IfOk, IfSome, IsOk, IsSome, MatchOption, MatchResult, Some, false};
ghost use Rattle.std.specs.Fmt.{signed_decimal};
ghost use Rattle.std.specs.Option.{option_copied};
ghost use Rattle.words.specs.declared.limits.TheConstants.{VALUE_BYTES_MAX, WEIGHT_MAX};
ghost use Rattle.words.specs.declared.command.Command.TheVariants as command;
ghost use Rattle.words.specs.declared.reply.CommandReply.TheVariants.{One};
ghost use Rattle.words.specs.declared.reply.Item.TheVariants.{Integer};
ghost use Rattle.words.specs.declared.reply.Refusal.TheVariants as refusal;
ghost use Rattle.words.specs.Answers as answering;
ghost use Rattle.words.specs.Answers.{answer, item_of, value_of};
ghost use Rattle.words.specs.Bounds.{IsBounded};
ghost use Rattle.words.specs.Briefs.{commanded, counting};
ghost use Rattle.words.specs.Commands.{IsInline, set_with};
ghost use Rattle.words.specs.Store.{Bytes, Store};
ghost use Rattle.hybrid.specs.Lookups.{IsInPlace};
ghost use Rattle.hybrid.specs.Staging.{AreRight};
ghost use Rattle.transact.specs.Tables.{joined};
ghost use Rattle.shards.specs.Shards.{shard_log, shard_meaning, shard_store, weigh};
ghost use Rattle.plans.specs.Memory.{IsBriefOn};
ghost use Rattle.plans.specs.Settling.{IfGives, IfWrites, IsInlineOn, IsSettledIn, SettlesAs, changes};
ghost use Rattle.plans.specs.Planning.{IsStillHeld, MayLookUp};
ghost use Rattle.plans.specs.Sizes.{IsShort};

use crate::cells::stripe_at;
use device::Shows;
use gates::Parts;
use hybrid::{Lookup, Spot, Staged};
use itoa::Buffer;
use shards::shard::Shard;
use smallvec::SmallVec;
use std::alloc::Global;
use words::command::{Count, Verb, When};
use words::hash::Hashed;
use words::limits::VALUE_BYTES_MAX;
use words::locality::depends_on_named_keys;
use words::number;
use words::reply::{CommandReply, Line, Refusal, Reply};
use words::word::{OutOfMemory, Word};

/// What a command of one key comes to.
#[derive(Drop)]
pub struct Settled {
    /// What it answers.
    pub reply: Reply,
    /// What becomes of its key.
    pub change: Change,
    /// Where the key may be changed in place: its newest record stands there, and has room for the value that the key gets, if it gets one.
    pub spot: Option<Spot>,
}

/// What a command does to its key.
#[derive(Drop)]
pub enum Change {
    /// The key stays as it is.
    Nothing,
    /// It gets the value that the command was given.
    Given,
    /// It gets a value that the command made.
    Made(Word),
    /// It is deleted.
    Deleted,
}

/// What a command of this key comes to, and of this value, where it takes one. The key is looked up once. `None` where a page is
/// wanted, or memory: such a command is planned as others are. Where receipts lend their pages, one that takes no memory is settled.
pub fn settle<R: Shows, P: Parts<Shard<R>>>(
    alloc: Global,
    parts: &mut P,
    verb: Verb,
    key: &Hashed,
    value: &Word,
    staged: &Staged<R>,
) -> Option<Settled>
    requires may { MayLookUp (P.is_open parts.old) (P.stripes_of parts.old) (P.part_of parts.old) (key.now ∷ []) }
    requires bounded { IsBounded (commanded verb key.now value.now) }
    ensures settled { IfSome result (IsSettledIn R.is_steady P.stripes_of P.part_of parts.old
        (R.is_honest × AreRight staged.now) key.now value.now (commanded verb key.now value.now)) }
    ensures memory { R.lends → R.is_honest × AreRight staged.now
        → IsBriefOn (joined (shard_meaning R.is_steady) (P.stripes_of parts.old) (P.part_of parts.old)) (commanded verb key.now value.now)
        → IsSome result }
    ensures inline { R.lends → R.is_honest × AreRight staged.now
        → IsInlineOn (joined (shard_meaning R.is_steady) (P.stripes_of parts.old) (P.part_of parts.old)) (commanded verb key.now value.now)
        → IsSome result }
    ensures same { P.part_of parts.new ≡ P.part_of parts.old }
    ensures held { IsStillHeld P.is_open P.keeps parts.old parts.new }
{
    depends_on_named_keys();
    let stripe = stripe_at(&*parts, key);
    settle_at(alloc, parts.part(stripe), verb, key, value, staged)
}

/// What a command comes to, on the part of its key's stripe.
fn settle_at<R: Shows>(
    alloc: Global,
    part: &Shard<R>,
    verb: Verb,
    key: &Hashed,
    value: &Word,
    staged: &Staged<R>,
) -> Option<Settled>
    ensures answer { IfSome result (SettlesAs (R.is_honest × AreRight staged.now) (shard_store part.now key.now)
        (commanded verb key.now value.now) key.now value.now) }
    ensures memory { (store : Store) → store key.now ≡ shard_store part.now key.now → R.lends → R.is_honest × AreRight staged.now
        → IsInlineOn store (commanded verb key.now value.now) → IsSome result }
    ensures short { IsBounded (commanded verb key.now value.now)
        → IfSome result (λ settled. IfGives settled.change value.now (λ text. length text ≤ VALUE_BYTES_MAX)) }
    ensures spot { IfSome result (λ settled. IfSome settled.spot (λ spot. IfWrites settled.change value.now (λ text.
        IsInPlace (shard_log part.now) key.now (length text) spot.address))) }
{
    let (found, spot) = look_at(part, key, staged)?;
    let (reply, change) = settle_on(alloc, verb, value, found)?;
    let spot = fitting(&change, value, spot);
    Some(Settled {
        reply: Reply::Single(reply),
        change,
        spot,
    })
}

/// What a SET of this key and value comes to that is done under this condition, and answers the old value if it has the option for that.
/// The key is looked up once. It takes no memory, but for the old value where that is answered. `None` where a page is wanted, which
/// receipts do not lend, or memory.
pub fn settle_set<R: Shows, P: Parts<Shard<R>>>(
    alloc: Global,
    parts: &mut P,
    key: &Hashed,
    value: &Word,
    when: When,
    gets: bool,
    staged: &Staged<R>,
) -> Option<Settled>
    requires may { MayLookUp (P.is_open parts.old) (P.stripes_of parts.old) (P.part_of parts.old) (key.now ∷ []) }
    requires bounded { IsBounded (set_with key.now value.now (Some (when, gets))) }
    ensures settled { IfSome result (IsSettledIn R.is_steady P.stripes_of P.part_of parts.old
        (R.is_honest × AreRight staged.now) key.now value.now (set_with key.now value.now (Some (when, gets)))) }
    ensures lent { R.lends → gets ≡ false → IsSome result }
    ensures same { P.part_of parts.new ≡ P.part_of parts.old }
    ensures held { IsStillHeld P.is_open P.keeps parts.old parts.new }
{
    depends_on_named_keys();
    let stripe = stripe_at(&*parts, key);
    settle_set_at(alloc, parts.part(stripe), key, value, when, gets, staged)
}

/// What a SET under a condition comes to, on the part of its key's stripe.
fn settle_set_at<R: Shows>(
    alloc: Global,
    part: &Shard<R>,
    key: &Hashed,
    value: &Word,
    when: When,
    gets: bool,
    staged: &Staged<R>,
) -> Option<Settled>
    ensures answer { IfSome result (SettlesAs (R.is_honest × AreRight staged.now) (shard_store part.now key.now)
        (set_with key.now value.now (Some (when, gets))) key.now value.now) }
    ensures lent { R.lends → gets ≡ false → IsSome result }
    ensures short { length value.now ≤ VALUE_BYTES_MAX
        → IfSome result (λ settled. IfGives settled.change value.now (λ text. length text ≤ VALUE_BYTES_MAX)) }
    ensures spot { IfSome result (λ settled. IfSome settled.spot (λ spot. IfWrites settled.change value.now (λ text.
        IsInPlace (shard_log part.now) key.now (length text) spot.address))) }
{
    let (found, spot) = look_at(part, key, staged)?;
    let (reply, change) = set_on(alloc, when, gets, found)?;
    let spot = fitting(&change, value, spot);
    Some(Settled {
        reply: Reply::Single(reply),
        change,
        spot,
    })
}

/// What a SET answers and does under this condition, where its key has this. `None` where it answers the old value, and there is no memory
/// for a copy.
fn set_on(
    alloc: Global,
    when: When,
    gets: bool,
    found: Option<&[u8]>,
) -> Option<(CommandReply, Change)>
    ensures answer { (key value : Bytes) (store : Store) → store key ≡ option_copied found.entry → IfSome result (λ done.
        answer store (set_with key value (Some (when, gets))) ≡ (done.0, changes done.1 key value)) }
    ensures gives { (value : Bytes) → length value ≤ VALUE_BYTES_MAX
        → IfSome result (λ done. IfGives done.1 value (λ text. length text ≤ VALUE_BYTES_MAX)) }
    ensures memory { gets ≡ false → IsSome result }
{
    let done = allows(when, found);
    let change = if done { Change::Given } else { Change::Nothing };
    let reply = if gets {
        value_reply(alloc, found)?
    } else if done {
        CommandReply::line(Line::Done)
    } else {
        CommandReply::bulk(None)
    };
    Some((reply, change))
}

/// Whether a SET is done under this condition, where its key has this.
fn allows(when: When, found: Option<&[u8]>) -> bool
    ensures { result ≡ answering.allows when (option_copied found.entry) }
{
    match when {
        When::Always => true,
        When::IfMissing => found.is_none(),
        When::IfPresent => found.is_some(),
    }
}

/// What a key has, where it lies, and where its newest record stands, if it may be written in place. `None` where a page is wanted,
/// which receipts do not lend.
pub(crate) fn look_at<'a, R: Shows>(
    part: &'a Shard<R>,
    key: &Hashed,
    staged: &'a Staged<R>,
) -> Option<(Option<&'a [u8]>, Option<Spot>)>
    ensures found { IfSome result (λ has. R.is_honest × AreRight staged.entry.now
        → shard_store part.entry.now key.now ≡ option_copied has.0) }
    ensures short { IfSome result (λ has. IsShort (option_copied has.0)) }
    ensures place { IfSome result (λ has. IfSome has.1 (λ spot. IsInPlace (shard_log part.entry.now) key.now spot.capacity spot.address)) }
    ensures lent { R.lends → IsSome result }
{
    let (lookup, spot) = part.look(key, staged);
    match lookup {
        Lookup::Found(value) => Some((Some(value), spot)),
        Lookup::Absent => Some((None, spot)),
        Lookup::Cold(_, _) => None,
    }
}

/// The spot, if there is one, the key is changed, and the record there has room for that.
fn fitting(change: &Change, value: &Word, spot: Option<Spot>) -> Option<Spot>
    ensures { IfSome result (λ found. (spot ≡ Some found) × IfWrites change.now value.now (λ text. length text ≤ found.capacity)) }
{
    let spot = spot?;
    let size = match change {
        Change::Given => value.len(),
        Change::Made(text) => text.len(),
        Change::Deleted => 0,
        Change::Nothing => return None,
    };
    if size <= spot.capacity {
        Some(spot)
    } else {
        None
    }
}

/// What a command answers and does, where its key has this.
fn settle_on(
    alloc: Global,
    verb: Verb,
    value: &Word,
    found: Option<&[u8]>,
) -> Option<(CommandReply, Change)>
    ensures answer { (key : Bytes) (store : Store) → store key ≡ option_copied found.entry → IfSome result (λ done.
        answer store (commanded verb key value.now) ≡ (done.0, changes done.1 key value.now)) }
    ensures memory { (key : Bytes) (store : Store) → store key ≡ option_copied found.entry
        → IsInlineOn store (commanded verb key value.now) → IsSome result }
    ensures short { (key : Bytes) → IsBounded (commanded verb key value.now)
        → IfSome result (λ done. IfGives done.1 value.now (λ text. length text ≤ VALUE_BYTES_MAX)) }
{
    match verb {
        Verb::Count(by) => Some(counted(alloc, by, found)),
        Verb::SetNx => Some(set_missing(found)),
        Verb::GetSet => Some((value_reply(alloc, found)?, Change::Given)),
        Verb::Append => appended(alloc, found, value),
        Verb::GetDel => Some((value_reply(alloc, found)?, deletion(found))),
        Verb::StrLen => Some((size_reply(found), Change::Nothing)),
        Verb::Exists => Some((presence_reply(found), Change::Nothing)),
        Verb::Del => Some((presence_reply(found), deletion(found))),
    }
}

/// What a command that counts answers and does, where its key has this.
fn counted(alloc: Global, by: Count, found: Option<&[u8]>) -> (CommandReply, Change)
    ensures answer { (key value : Bytes) (store : Store) → store key ≡ option_copied found.entry
        → answer store (counting by key) ≡ (result.0, changes result.1 key value) }
    ensures short { (value : Bytes) → IfGives result.1 value (λ text. length text ≤ VALUE_BYTES_MAX) }
{
    match number_made(by, found) {
        Ok(number) => (
            CommandReply::integer(number),
            Change::Made(text_of(alloc, number)),
        ),
        Err(refusal) => refused(refusal),
    }
}

/// The number that a command that counts makes of what its key has.
///
/// # Errors
///
/// Why it is refused, and changes nothing.
pub(crate) fn number_made(by: Count, found: Option<&[u8]>) -> Result<i64, Refusal>
    ensures { (key : Bytes) (store : Store) → store key ≡ option_copied found.entry → MatchResult result
        (λ number. answer store (counting by key) ≡ (One (Integer number), (key, Some (signed_decimal number)) ∷ []))
        (λ refusal. answer store (counting by key) ≡ answering.refused refusal) }
{
    let Some(old) = number_in(found) else {
        return Err(Refusal::NotAnInteger);
    };
    match number_after(by, old) {
        Some(number) => Ok(number),
        None => Err(Refusal::Overflow),
    }
}

/// A refusal, which changes nothing.
fn refused(refusal: Refusal) -> (CommandReply, Change)
    ensures { result ≡ (answering.line (Line.Refused refusal), Change.Nothing) }
{
    (CommandReply::line(Line::Refused(refusal)), Change::Nothing)
}

/// The number that a key's value is, 0 where it is missing; `None` where it is no number.
fn number_in(found: Option<&[u8]>) -> Option<i64>
    ensures { result ≡ answering.number_at (option_copied found.entry) }
{
    match found {
        Some(text) => number::parse(text),
        None => Some(0),
    }
}

/// The number that a command that counts makes of this one; `None` where it is out of range.
fn number_after(by: Count, old: i64) -> Option<i64>
    ensures { (key : Bytes) (store : Store) → answering.number_at (store key) ≡ Some old → MatchOption result
        (answer store (counting by key) ≡ answering.refused refusal.Overflow)
        (λ number. answer store (counting by key) ≡ (One (Integer number), (key, Some (signed_decimal number)) ∷ [])) }
{
    match by {
        Count::Add(number) => old.checked_add(number),
        Count::Subtract(number) => old.checked_sub(number),
    }
}

/// The text of a number. It takes no memory.
pub(crate) fn text_of(alloc: Global, number: i64) -> Word
    ensures text { result ≡ signed_decimal number }
    ensures short { length result ≤ VALUE_BYTES_MAX }
{
    let mut buffer = Buffer::new();
    match Word::from_slice(alloc, buffer.format(number).as_bytes()) {
        Ok(text) => text,
        Err(_) => unreachable!(),
    }
}

/// What a SETNX answers and does, where its key has this.
fn set_missing(found: Option<&[u8]>) -> (CommandReply, Change)
    ensures answer { (key value : Bytes) (store : Store) → store key ≡ option_copied found.entry
        → answer store (command.SetNx key value) ≡ (result.0, changes result.1 key value) }
    ensures gives { (value : Bytes) → length value ≤ VALUE_BYTES_MAX → IfGives result.1 value (λ text. length text ≤ VALUE_BYTES_MAX) }
{
    match found {
        Some(_) => (CommandReply::integer(0), Change::Nothing),
        None => (CommandReply::integer(1), Change::Given),
    }
}

/// What an APPEND of these bytes answers and does, where its key has this. `None` where there is no memory for the new value.
fn appended(alloc: Global, found: Option<&[u8]>, more: &Word) -> Option<(CommandReply, Change)>
    ensures answer { (key : Bytes) (store : Store) → store key ≡ option_copied found.entry → IfSome result (λ done.
        answer store (command.Append key more.now) ≡ (done.0, changes done.1 key more.now)) }
    ensures memory { (key : Bytes) (store : Store) → store key ≡ option_copied found.entry
        → IsInlineOn store (command.Append key more.now) → IsSome result }
    ensures short { IfSome result (λ done. IfGives done.1 more.now (λ text. length text ≤ VALUE_BYTES_MAX)) }
{
    let old = bytes_of(found);
    let more = more.as_slice();
    if old.len() + more.len() > VALUE_BYTES_MAX {
        return Some(refused(Refusal::StringTooLong));
    }
    let Ok(text) = joined(alloc, old, more) else {
        return None;
    };
    Some((CommandReply::integer(text.len() as i64), Change::Made(text)))
}

/// Two texts, one after the other, in one allocation of their size at most.
fn joined(alloc: Global, front: &[u8], back: &[u8]) -> Result<Word, OutOfMemory>
    ensures bytes { IfOk result (λ word. word ≡ front.now ++ back.now) }
    ensures inline { IsInline (front.now ++ back.now) → IsOk result }
{
    let mut bytes: SmallVec<u8, 22> = SmallVec::with_capacity(alloc, front.len() + back.len())?;
    bytes.extend_from_slice(front)?;
    bytes.extend_from_slice(back)?;
    Ok(Word::from_small_vec(bytes))
}

/// The bytes of what a key has, none where it is missing.
fn bytes_of<'a>(found: Option<&'a [u8]>) -> &'a [u8]
    ensures { result.now ≡ value_of (option_copied found.entry) }
{
    match found {
        Some(value) => value,
        None => &[],
    }
}

/// What a key has, as a reply. `None` where there is no memory for a copy.
fn value_reply(alloc: Global, found: Option<&[u8]>) -> Option<CommandReply>
    ensures reply { IfSome result (λ reply. reply ≡ answering.bulk (option_copied found.entry)) }
    ensures memory { IsInline (value_of (option_copied found.entry)) → IsSome result }
{
    match found {
        Some(value) => match Word::from_slice(alloc, value) {
            Ok(value) => Some(CommandReply::bulk(Some(value))),
            Err(_) => None,
        },
        None => Some(CommandReply::bulk(None)),
    }
}

/// How long a value is that a key has, as a reply.
fn size_reply(found: Option<&[u8]>) -> CommandReply
    ensures { result ≡ answering.number (length (value_of (option_copied found.entry))) }
{
    CommandReply::integer(bytes_of(found).len() as i64)
}

/// How many keys are there of one that has this, as a reply.
fn presence_reply(found: Option<&[u8]>) -> CommandReply
    ensures { result ≡ answering.number (if answering.is_some (option_copied found.entry) then 1 else 0) }
{
    match found {
        Some(_) => CommandReply::integer(1),
        None => CommandReply::integer(0),
    }
}

/// The deletion of a key that has this, if it is there.
fn deletion(found: Option<&[u8]>) -> Change
    ensures { result ≡ (if answering.is_some (option_copied found.entry) then Change.Deleted else Change.Nothing) }
{
    match found {
        Some(_) => Change::Deleted,
        None => Change::Nothing,
    }
}

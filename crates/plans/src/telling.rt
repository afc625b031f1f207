//! What keys have, told as a reply spells it: each value is copied once, from where it lies.

ghost use Rattle.std.specs.Prelude.{◌≡◌, ◌+◌, ◌≤◌, ◌++◌, ◌∷◌, ◌↔◌, [], false, length, IfNone, IfSome, IsSome, IsTrue, vec_len, vec_capacity};
ghost use Rattle.std.specs.Bool.{OnTrue};
ghost use Rattle.words.specs.Answers.{item_of, items_of};
ghost use Rattle.words.specs.Commands.{keys_of_all};
ghost use Rattle.words.specs.Encoding.{encoding};
ghost use Rattle.words.specs.Session.{value_reply, values_reply};
ghost use Rattle.hybrid.specs.Staging.{AreRight};
ghost use Rattle.transact.specs.Tables as tables;
ghost use Rattle.transact.specs.Tables.{AreThere, joined};
ghost use Rattle.shards.specs.Shards.{shard_meaning, shard_store};
ghost use Rattle.plans.specs.Holding.{marks_of};
ghost use Rattle.plans.specs.Planning.{AreDue, IsStillHeld, IsValueIn, MayLookUp, asks_exec};
ghost use Rattle.plans.specs.Telling.{AreGets, AreValuesIn, gets_reply, is_get};

use crate::cells::stripe_at;
use crate::marks::any_marked;
use crate::running::value_at;
use device::Shows;
use gates::Parts;
use hybrid::Staged;
use resp_write::{Said, SaidAll, say_up_to};
use shards::shard::Shard;
use std::alloc::Global;
use words::bulks::Bulks;
use words::command::Command;
use words::hash::Hashed;
use words::locality::depends_on_named_keys;
use words::word::Word;

/// The bytes for which room is made for each value, before it is known how long they are.
const ROOM_OF_VALUE: usize = 64;

/// Tells what a key has, on the part of its stripe. False where a page is wanted, or memory.
fn tell_at<R: Shows>(part: &Shard<R>, key: &Hashed, staged: &Staged<R>, told: &mut Bulks) -> bool
    ensures { OnTrue result (R.is_honest × AreRight staged.now
        → told.new ≡ told.old ++ item_of (shard_store part.now key.now) ∷ []) }
{
    match value_at(part, key, staged) {
        Some(value) => told.push(value).is_ok(),
        None => false,
    }
}

/// Tells what a key has. False where a page is wanted, or memory.
fn tell<R: Shows, P: Parts<Shard<R>>>(
    parts: &mut P,
    key: &Word,
    staged: &Staged<R>,
    told: &mut Bulks,
) -> bool
    requires may { MayLookUp (P.is_open parts.old) (P.stripes_of parts.old) (P.part_of parts.old) (key.now ∷ []) }
    ensures told { OnTrue result (R.is_honest × AreRight staged.now → told.new ≡ told.old
        ++ item_of (joined (shard_meaning R.is_steady) (P.stripes_of parts.old) (P.part_of parts.old) key.now) ∷ []) }
    ensures same { P.part_of parts.new ≡ P.part_of parts.old }
    ensures held { IsStillHeld P.is_open P.keeps parts.old parts.new }
{
    let key = Hashed::new(key);
    let stripe = stripe_at(&*parts, &key);
    tell_at(parts.part(stripe), &key, staged, told)
}

/// What these keys have, as an MGET of them is due to be answered. `None` where a page is wanted, or memory: such an MGET is
/// planned as other commands are.
pub fn tell_values<R: Shows, P: Parts<Shard<R>>>(
    alloc: Global,
    parts: &mut P,
    keys: &[Word],
    staged: &Staged<R>,
) -> Option<Bulks>
    requires may { MayLookUp (P.is_open parts.old) (P.stripes_of parts.old) (P.part_of parts.old) keys.now }
    ensures values { IfSome result (AreValuesIn R.is_steady P.stripes_of P.part_of parts.old
        (R.is_honest × AreRight staged.now) keys.now) }
    ensures same { P.part_of parts.new ≡ P.part_of parts.old }
    ensures held { IsStillHeld P.is_open P.keeps parts.old parts.new }
{
    let mut told = Bulks::with_room(alloc, keys.len().saturating_mul(ROOM_OF_VALUE));
    let mut left = keys;
    while let Some((first, others)) = left.split_first() {
        if !tell(parts, first, staged, &mut told) {
            return None;
        }
        left = others;
    }
    Some(told)
}

/// Says what a key has, on the part of its stripe, if the buffer then holds at most `limit` bytes.
fn say_at<R: Shows>(
    part: &Shard<R>,
    key: &Hashed,
    staged: &Staged<R>,
    limit: usize,
    out: &mut Vec<u8>,
) -> Option<Said>
    requires room { limit ≤ vec_capacity out.old }
    requires held { vec_len out.old ≤ limit }
    ensures value { IfSome result (λ value. R.is_honest × AreRight staged.now → value ≡ shard_store part.now key.now) }
    ensures said { IfSome result (λ value. out.new.items ≡ out.old.items ++ encoding (value_reply value)) }
    ensures within { IsSome result → vec_len out.new ≤ limit }
    ensures unsaid { IfNone result (out.new.items ≡ out.old.items) }
    ensures room { R.lends → R.is_honest × AreRight staged.now
        → vec_len out.old + length (encoding (value_reply (shard_store part.now key.now))) ≤ limit → IsSome result }
    ensures capacity { vec_capacity out.old ≤ vec_capacity out.new }
{
    match value_at(part, key, staged) {
        Some(value) => say_up_to(value, limit, out),
        None => None,
    }
}

/// Says what a key has, as a GET of it is due to be answered: it is copied once, from where it lies to the end of the buffer. `None`
/// where a page is wanted, or the buffer has no room for it: it takes no memory.
pub fn say_value<R: Shows, P: Parts<Shard<R>>>(
    parts: &mut P,
    key: &Hashed,
    staged: &Staged<R>,
    out: &mut Vec<u8>,
) -> Option<Said>
    requires may { MayLookUp (P.is_open parts.old) (P.stripes_of parts.old) (P.part_of parts.old) (key.now ∷ []) }
    ensures value { IfSome result (IsValueIn R.is_steady P.stripes_of P.part_of parts.old (R.is_honest × AreRight staged.now) key.now) }
    ensures said { IfSome result (λ value. out.new.items ≡ out.old.items ++ encoding (value_reply value)) }
    ensures within { IsSome result → vec_len out.new ≤ vec_capacity out.old }
    ensures unsaid { IfNone result (out.new.items ≡ out.old.items) }
    ensures room { R.lends → R.is_honest × AreRight staged.now → vec_len out.old + length (encoding (value_reply
        (joined (shard_meaning R.is_steady) (P.stripes_of parts.old) (P.part_of parts.old) key.now))) ≤ vec_capacity out.old → IsSome result }
    ensures capacity { vec_capacity out.old ≤ vec_capacity out.new }
    ensures same { P.part_of parts.new ≡ P.part_of parts.old }
    ensures held { IsStillHeld P.is_open P.keeps parts.old parts.new }
{
    let limit = out.capacity();
    say_up_to_limit(parts, key, staged, limit, out)
}

/// Says what a key has, as [`say_value`] does, if the buffer then holds at most `limit` bytes.
#[inline(always)]
fn say_up_to_limit<R: Shows, P: Parts<Shard<R>>>(
    parts: &mut P,
    key: &Hashed,
    staged: &Staged<R>,
    limit: usize,
    out: &mut Vec<u8>,
) -> Option<Said>
    requires may { MayLookUp (P.is_open parts.old) (P.stripes_of parts.old) (P.part_of parts.old) (key.now ∷ []) }
    requires room { limit ≤ vec_capacity out.old }
    requires held { vec_len out.old ≤ limit }
    ensures value { IfSome result (IsValueIn R.is_steady P.stripes_of P.part_of parts.old (R.is_honest × AreRight staged.now) key.now) }
    ensures said { IfSome result (λ value. out.new.items ≡ out.old.items ++ encoding (value_reply value)) }
    ensures within { IsSome result → vec_len out.new ≤ limit }
    ensures unsaid { IfNone result (out.new.items ≡ out.old.items) }
    ensures room { R.lends → R.is_honest × AreRight staged.now → vec_len out.old + length (encoding (value_reply
        (joined (shard_meaning R.is_steady) (P.stripes_of parts.old) (P.part_of parts.old) key.now))) ≤ limit → IsSome result }
    ensures capacity { vec_capacity out.old ≤ vec_capacity out.new }
    ensures same { P.part_of parts.new ≡ P.part_of parts.old }
    ensures held { IsStillHeld P.is_open P.keeps parts.old parts.new }
{
    let stripe = stripe_at(&*parts, key);
    say_at(parts.part(stripe), key, staged, limit, out)
}

/// Says what these keys have, as an MGET of them is due to be answered: each value is copied once, from where it lies to the end of the
/// buffer. `None` where a page is wanted, or the buffer has no room for all: it takes no memory.
pub fn say_values<R: Shows, P: Parts<Shard<R>>>(
    parts: &mut P,
    keys: &[Word],
    staged: &Staged<R>,
    out: &mut Vec<u8>,
) -> Option<SaidAll>
    requires may { MayLookUp (P.is_open parts.old) (P.stripes_of parts.old) (P.part_of parts.old) keys.now }
    ensures values { IfSome result (AreValuesIn R.is_steady P.stripes_of P.part_of parts.old
        (R.is_honest × AreRight staged.now) keys.now) }
    ensures said { IfSome result (λ items. out.new.items ≡ out.old.items ++ encoding (values_reply items)) }
    ensures within { IsSome result → vec_len out.new ≤ vec_capacity out.old }
    ensures unsaid { IfNone result (out.new.items ≡ out.old.items) }
    ensures room { R.lends → R.is_honest × AreRight staged.now → vec_len out.old + length (encoding (values_reply
        (items_of (joined (shard_meaning R.is_steady) (P.stripes_of parts.old) (P.part_of parts.old)) keys.now))) ≤ vec_capacity out.old
        → IsSome result }
    ensures capacity { vec_capacity out.old ≤ vec_capacity out.new }
    ensures same { P.part_of parts.new ≡ P.part_of parts.old }
    ensures held { IsStillHeld P.is_open P.keeps parts.old parts.new }
{
    let (before, limit) = (out.len(), out.capacity());
    let Some(mut said) = SaidAll::begin(keys.len(), limit, out) else {
        return None;
    };
    let mut left = keys;
    while let Some((first, others)) = left.split_first() {
        let Some(value) = say_up_to_limit(parts, &Hashed::new(first), staged, limit, out) else {
            out.truncate(before);
            return None;
        };
        said.push(value);
        left = others;
    }
    Some(said)
}

/// Whether a command is a GET.
fn is_get(command: &Command) -> bool
    ensures { result ≡ is_get command.now }
{
    matches!(command, Command::Get(_))
}

/// Whether each of these commands is a GET.
pub fn are_gets(commands: &[Command]) -> bool
    ensures { IsTrue result ↔ AreGets commands.now }
{
    let mut left = commands;
    while let Some((first, others)) = left.split_first() {
        if !is_get(first) {
            return false;
        }
        left = others;
    }
    true
}

/// Says what a transaction of these GETs is due to be answered, of a session that watches these keys: each value is copied once, from where
/// it lies to the end of the buffer. `None` where a watched key was written, a page is wanted, or the buffer has no room for all: it takes
/// no memory.
pub fn say_gets<R: Shows, P: Parts<Shard<R>>>(
    parts: &mut P,
    commands: &[Command],
    watching: &[Word],
    staged: &Staged<R>,
    out: &mut Vec<u8>,
) -> Option<SaidAll>
    requires may { MayLookUp (P.is_open parts.old) (P.stripes_of parts.old) (P.part_of parts.old) (keys_of_all commands.now) }
    requires gets { AreGets commands.now }
    requires watching { AreThere (P.stripes_of parts.old) (P.part_of parts.old) watching.now }
    ensures due { IfSome result (λ items. AreDue (R.is_honest × AreRight staged.now)
        (asks_exec R.is_steady P.stripes_of P.holder_of P.part_of parts.old watching.now commands.now) (gets_reply items) []) }
    ensures said { IfSome result (λ items. out.new.items ≡ out.old.items ++ encoding (gets_reply items)) }
    ensures within { IsSome result → vec_len out.new ≤ vec_capacity out.old }
    ensures unsaid { IfNone result (out.new.items ≡ out.old.items) }
    ensures room { tables.any_marked (marks_of R.is_steady P.stripes_of P.part_of parts.old) (P.holder_of parts.old) watching.now ≡ false
        → R.lends → R.is_honest × AreRight staged.now → vec_len out.old + length (encoding (gets_reply
        (items_of (joined (shard_meaning R.is_steady) (P.stripes_of parts.old) (P.part_of parts.old)) (keys_of_all commands.now))))
        ≤ vec_capacity out.old → IsSome result }
    ensures capacity { vec_capacity out.old ≤ vec_capacity out.new }
    ensures same { P.part_of parts.new ≡ P.part_of parts.old }
    ensures held { IsStillHeld P.is_open P.keeps parts.old parts.new }
{
    depends_on_named_keys();
    if any_marked(parts, watching) {
        return None;
    }
    say_each(parts, commands, staged, out)
}

/// Says what these GETs find, one after the other, as [`say_gets`] does.
fn say_each<R: Shows, P: Parts<Shard<R>>>(
    parts: &mut P,
    commands: &[Command],
    staged: &Staged<R>,
    out: &mut Vec<u8>,
) -> Option<SaidAll>
    requires may { MayLookUp (P.is_open parts.old) (P.stripes_of parts.old) (P.part_of parts.old) (keys_of_all commands.now) }
    requires gets { AreGets commands.now }
    ensures values { IfSome result (λ items. R.is_honest × AreRight staged.now → items
        ≡ items_of (joined (shard_meaning R.is_steady) (P.stripes_of parts.old) (P.part_of parts.old)) (keys_of_all commands.now)) }
    ensures said { IfSome result (λ items. out.new.items ≡ out.old.items ++ encoding (values_reply items)) }
    ensures within { IsSome result → vec_len out.new ≤ vec_capacity out.old }
    ensures unsaid { IfNone result (out.new.items ≡ out.old.items) }
    ensures room { R.lends → R.is_honest × AreRight staged.now → vec_len out.old + length (encoding (values_reply
        (items_of (joined (shard_meaning R.is_steady) (P.stripes_of parts.old) (P.part_of parts.old)) (keys_of_all commands.now))))
        ≤ vec_capacity out.old → IsSome result }
    ensures capacity { vec_capacity out.old ≤ vec_capacity out.new }
    ensures same { P.part_of parts.new ≡ P.part_of parts.old }
    ensures held { IsStillHeld P.is_open P.keeps parts.old parts.new }
{
    let (start, limit) = (out.len(), out.capacity());
    let Some(mut said) = SaidAll::begin(commands.len(), limit, out) else {
        return None;
    };
    let mut left = commands;
    while let Some((first, others)) = left.split_first() {
        let Command::Get(key) = first else {
            unreachable!()
        };
        let Some(value) = say_up_to_limit(parts, &Hashed::new(key), staged, limit, out) else {
            out.truncate(start);
            return None;
        };
        said.push(value);
        left = others;
    }
    Some(said)
}

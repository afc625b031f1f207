//! Writes of a call that wait for nothing: each goes over what its key has, in place, or into the tail page of its stripe, which has room
//! for all that the call writes. Each command looks its keys up once, for what it answers and for where it writes; no room is made, and no
//! write looks for its record anew.

ghost use Rattle.std.specs.Prelude.{◌≡◌, ◌+◌, ◌≤◌, ⊤, ℕ, [], ◌∷◌, List, length, true, Option, Some, slice_get, IfNone, IfSome, IsSome, IsTrue, OnSome};
ghost use Rattle.records.specs.Records.{value_bytes};
ghost use Rattle.words.specs.Commands.{keys_of, keys_of_all, touches_keys};
ghost use Rattle.words.specs.Store.{Bytes, weight};
ghost use Rattle.words.specs.declared.limits.TheConstants.{WEIGHT_MAX};
ghost use Rattle.words.specs.Stripes as striping;
ghost use Rattle.hybrid.specs.HybridLog.{HybridLog};
ghost use Rattle.hybrid.specs.Staging.{AreRight};
ghost use Rattle.hybrid.specs.Writing.{AreFit};
ghost use Rattle.hybrid.specs.declared.stripe.find.Spot.{Spot};
ghost use Rattle.transact.specs.Plans.{keys_begun, keys_ended};
ghost use Rattle.transact.specs.Tables.{AreThere, keys_written, touches_and_clears};
ghost use Rattle.shards.specs.Rooms.{HaveGrown};
ghost use Rattle.shards.specs.Shards.{SameWaits, logs_of, weigh};
ghost use Rattle.plans.specs.Holding.{Becomes, BecomesFirst, BecomesWritten, GrowsFirst};
ghost use Rattle.plans.specs.Placing.{AllGoThere, AllGoThereIn, GoThereIn, GoesThereIn, HasTail, HaveTailsIn, HaveTargetsIn, IsPlacedIn, LeaveSpareIn};
ghost use Rattle.plans.specs.Placing.{WasLookedUp, WasLookedUpIn, WereLookedUp, WereLookedUpIn, targets_of, writes_of};
ghost use Rattle.plans.specs.Planning.{AreDue, IsStillHeld, MayLookUp, MayPlan, asks_call, asks_command, asks_exec};
ghost use Rattle.plans.specs.Reserving.{GrowsBy};
ghost use Rattle.plans.specs.Running.{HasRunIn, HaveRunIn, ReadsOne};
ghost use Rattle.plans.specs.Settling.{IsSpot, IsSpotIn};
ghost use Rattle.plans.specs.Sizes.{AreSized, IsSized};

use crate::cells::{append, has_tail, overwrite_at, stripe_at};
use crate::find::room_for;
use crate::hashed::HashedCall;
use crate::looks::{Looks, looks_of};
use crate::marks::{any_marked, end_watches};
use crate::running::{Looked, run_key, run_next, run_present};
use device::Shows;
use gates::Parts;
use hybrid::laws::growth_adds_up;
use hybrid::{Spot, Staged};
use shards::shard::Shard;
use std::alloc::Global;
use std::slice;
use strings::writes::{Write, Writes, writes_to};
use transact::call::Call;
use words::bounds::writes_are_bounded;
use words::command::Command;
use words::hash::Hashed;
use words::locality::{depends_on_named_keys, writes_named_keys};
use words::reply::{CommandReplies, CommandReply, Reply};
use words::word::Word;

/// What a call comes to whose writes wait for nothing. It borrows nothing.
#[derive(Drop)]
pub struct Placed {
    /// What the call is answered.
    pub reply: Reply,
    /// What it writes, and where.
    pub placing: Placing,
}

/// Writes, and where they go.
#[derive(Drop)]
pub struct Placing {
    /// The writes, in order.
    pub writes: Writes,
    /// Where each write goes, in the same order.
    pub targets: Vec<Target>,
}

/// Where a write goes: over the newest record of its key, or into the tail page of its stripe.
#[derive(Clone, Copy, Debug)]
pub struct Target {
    /// The stripe of its key.
    pub stripe: usize,
    /// The hash of its key.
    pub hash: u64,
    /// Where the newest record of its key stands, if that may be written in place and has room for what is written. Else the write goes to
    /// the tail.
    pub spot: Option<Spot>,
}

impl Placed {
    /// Makes the writes, and touches the marks of all sessions at the keys that are written, as [`Planned::install`] does. Where the
    /// call ends its session's watches, they are ended. It takes no memory and wants no room, and gives the reply.
    ///
    /// [`Planned::install`]: crate::planned::Planned::install
    pub fn install<R: Shows, P: Parts<Shard<R>>>(self, parts: &mut P, call: &HashedCall) -> Reply
        requires open { P.is_open parts.old }
        requires targets { AllGoThereIn P.stripes_of P.part_of parts.old (writes_of self.placing) (targets_of self.placing) }
        requires written { AreThere (P.stripes_of parts.old) (P.part_of parts.old) (keys_written (writes_of self.placing)) }
        requires fits { AreFit (writes_of self.placing) }
        requires there { AreThere (P.stripes_of parts.old) (P.part_of parts.old) (keys_ended call.now) }
        ensures became { Becomes R.is_steady P.stripes_of P.part_of parts.old parts.new (writes_of self.placing)
            (touches_and_clears (writes_of self.placing) (P.holder_of parts.old) (keys_ended call.now)) }
        ensures grown { HaveGrown (P.stripes_of parts.old) (writes_of self.placing) (logs_of (P.part_of parts.old))
            (logs_of (P.part_of parts.new)) }
        ensures reply { result ≡ self.reply }
        ensures waits { SameWaits (P.part_of parts.old) (P.part_of parts.new) }
        ensures held { IsStillHeld P.is_open P.keeps parts.old parts.new }
    {
        let Placed { reply, placing } = self;
        let asked = call.call();
        place_writes(parts, placing.writes.as_slice(), &placing.targets);
        end_watches(parts, asked);
        drop(placing);
        reply
    }
}

/// What a call comes to whose writes wait for nothing, as [`plan`] finds it: a transaction, a `DEL` of several keys, an `MSETNX`, a `RENAME` or
/// a `SETRANGE`. Nothing is changed. `None` for each other call; where a write goes to the tail and the tail page of its stripe has no
/// room for all that the call writes; where a page is wanted, or memory; and where a watched key was written, or the writes weigh too much.
///
/// [`plan`]: crate::plan::plan
pub fn place<R: Shows, P: Parts<Shard<R>>>(
    alloc: Global,
    parts: &mut P,
    call: &HashedCall,
    staged: &Staged<R>,
) -> Option<Placed>
    requires may { MayPlan (P.is_open parts.old) (P.stripes_of parts.old) (P.part_of parts.old) call.now }
    ensures placed { IfSome result (IsPlacedIn P.stripes_of P.part_of parts.old (AreDue (R.is_honest × AreRight staged.now)
        (asks_call R.is_steady P.stripes_of P.holder_of P.part_of parts.old call.now))) }
    ensures unwatched { OnSome result (keys_begun call.now ≡ []) }
    ensures same { P.part_of parts.new ≡ P.part_of parts.old }
    ensures held { IsStillHeld P.is_open P.keeps parts.old parts.new }
{
    writes_are_bounded();
    match call.call() {
        Call::One(command) => {
            if writes_by_lookups(command) {
                place_one(alloc, parts, command, staged)
            } else {
                None
            }
        }
        Call::Exec(commands, watching) => {
            place_exec(alloc, parts, commands.as_slice(), watching.keys(), staged)
        }
        Call::Watch(_) | Call::Forget(_) => None,
    }
}

/// Whether a command writes by what it finds, and has no way of its own.
fn writes_by_lookups(command: &Command) -> bool
    ensures { IsTrue result → touches_keys command.now ≡ true }
{
    match command {
        Command::Del(keys) => keys.as_slice().len() > 1,
        Command::MSetNx(_) | Command::SetRange(_, _, _) | Command::Rename(_, _) => true,
        _ => false,
    }
}

/// What a command comes to, as [`place`] has it.
fn place_one<R: Shows, P: Parts<Shard<R>>>(
    alloc: Global,
    parts: &mut P,
    command: &Command,
    staged: &Staged<R>,
) -> Option<Placed>
    requires may { MayLookUp (P.is_open parts.old) (P.stripes_of parts.old) (P.part_of parts.old) (keys_of command.now) }
    requires touches { touches_keys command.now ≡ true }
    requires sized { IsSized command.now }
    ensures placed { IfSome result (IsPlacedIn P.stripes_of P.part_of parts.old (AreDue (R.is_honest × AreRight staged.now)
        (asks_command R.is_steady P.stripes_of P.part_of parts.old command.now))) }
    ensures same { P.part_of parts.new ≡ P.part_of parts.old }
    ensures held { IsStillHeld P.is_open P.keeps parts.old parts.new }
{
    depends_on_named_keys();
    writes_named_keys();
    let mut placing = nothing_placed(alloc);
    let reply = place_next(alloc, parts, command, staged, &mut placing)?;
    if !have_tails(parts, &placing) {
        return None;
    }
    Some(Placed {
        reply: Reply::Single(reply),
        placing,
    })
}

/// What a transaction of a session comes to that watches these keys, as [`place`] has it.
fn place_exec<R: Shows, P: Parts<Shard<R>>>(
    alloc: Global,
    parts: &mut P,
    commands: &[Command],
    watching: &[Word],
    staged: &Staged<R>,
) -> Option<Placed>
    requires may { MayLookUp (P.is_open parts.old) (P.stripes_of parts.old) (P.part_of parts.old) (keys_of_all commands.now) }
    requires sized { AreSized commands.now }
    requires watching { AreThere (P.stripes_of parts.old) (P.part_of parts.old) watching.now }
    ensures placed { IfSome result (IsPlacedIn P.stripes_of P.part_of parts.old (AreDue (R.is_honest × AreRight staged.now)
        (asks_exec R.is_steady P.stripes_of P.holder_of P.part_of parts.old watching.now commands.now))) }
    ensures same { P.part_of parts.new ≡ P.part_of parts.old }
    ensures held { IsStillHeld P.is_open P.keeps parts.old parts.new }
{
    depends_on_named_keys();
    if any_marked(parts, watching) {
        return None;
    }
    let (replies, placing) = place_each(alloc, parts, commands, staged)?;
    if !have_tails(parts, &placing) {
        return None;
    }
    Some(Placed {
        reply: Reply::Array(CommandReplies::from_vec(replies)),
        placing,
    })
}

/// No writes. It takes no memory.
fn nothing_placed(alloc: Global) -> Placing
    ensures writes { writes_of result ≡ [] }
    ensures targets { targets_of result ≡ [] }
{
    Placing {
        writes: Writes::new(alloc),
        targets: Vec::new(alloc),
    }
}

/// Whether these writes are light, and go there: the tail page of each stripe where one goes to the tail has room for all of them, and the
/// frames are left there that a call keeps back which gives a value.
fn have_tails<R: Shows, P: Parts<Shard<R>>>(parts: &mut P, placing: &Placing) -> bool
    requires open { P.is_open parts.old }
    requires there { AreThere (P.stripes_of parts.old) (P.part_of parts.old) (keys_written (writes_of placing.now)) }
    requires targets { HaveTargetsIn P.stripes_of P.part_of parts.old (writes_of placing.now) (targets_of placing.now) }
    ensures light { IsTrue result → weight (writes_of placing.now) ≤ WEIGHT_MAX }
    ensures targets { IsTrue result → AllGoThereIn P.stripes_of P.part_of parts.old (writes_of placing.now) (targets_of placing.now) }
    ensures left { IsTrue result → LeaveSpareIn P.stripes_of P.part_of parts.old (writes_of placing.now) (targets_of placing.now) }
    ensures same { P.part_of parts.new ≡ P.part_of parts.old }
    ensures held { IsStillHeld P.is_open P.keeps parts.old parts.new }
{
    match placing.writes.weight() {
        Some(weight) => each_has_tail(parts, weight, placing.writes.as_slice(), &placing.targets),
        None => false,
    }
}

/// Whether what weighs so much has room in the tail page of the stripe of each of these writes that goes to the tail.
fn each_has_tail<R: Shows, P: Parts<Shard<R>>>(
    parts: &mut P,
    weight: usize,
    writes: &[Write],
    targets: &[Target],
) -> bool
    requires open { P.is_open parts.old }
    requires there { AreThere (P.stripes_of parts.old) (P.part_of parts.old) (keys_written writes.now) }
    requires targets { HaveTargetsIn P.stripes_of P.part_of parts.old writes.now targets.now }
    requires light { weight ≤ WEIGHT_MAX }
    ensures tails { IsTrue result → HaveTailsIn P.stripes_of P.part_of parts.old weight writes.now targets.now }
    ensures left { IsTrue result → LeaveSpareIn P.stripes_of P.part_of parts.old writes.now targets.now }
    ensures same { P.part_of parts.new ≡ P.part_of parts.old }
    ensures held { IsStillHeld P.is_open P.keeps parts.old parts.new }
{
    let mut left = writes;
    let mut at = targets;
    while let Some((_first, others)) = left.split_first() {
        let Some((target, further)) = at.split_first() else {
            unreachable!()
        };
        if target.spot.is_none() && !has_tail(parts, target.stripe, weight) {
            return false;
        }
        left = others;
        at = further;
    }
    true
}

/// What commands answer and write that run one after the other, as [`answer_each`] has it, and where each write goes.
///
/// [`answer_each`]: crate::running::answer_each
fn place_each<R: Shows, P: Parts<Shard<R>>>(
    alloc: Global,
    parts: &mut P,
    commands: &[Command],
    staged: &Staged<R>,
) -> Option<(Vec<CommandReply>, Placing)>
    requires may { MayLookUp (P.is_open parts.old) (P.stripes_of parts.old) (P.part_of parts.old) (keys_of_all commands.now) }
    requires sized { AreSized commands.now }
    ensures ran { IfSome result (λ done. HaveRunIn R.is_steady P.stripes_of P.part_of parts.old
        (R.is_honest × AreRight staged.now) commands.now done.0.items (writes_of done.1)) }
    ensures targets { IfSome result (λ done. HaveTargetsIn P.stripes_of P.part_of parts.old (writes_of done.1) (targets_of done.1)) }
    ensures same { P.part_of parts.new ≡ P.part_of parts.old }
    ensures held { IsStillHeld P.is_open P.keeps parts.old parts.new }
{
    writes_named_keys();
    let mut replies = room_for(alloc, commands.len());
    let mut placing = nothing_placed(alloc);
    let mut left = commands;
    while let Some((command, others)) = left.split_first() {
        let reply = place_next(alloc, parts, command, staged, &mut placing)?;
        let Ok(()) = replies.push(reply) else {
            return None;
        };
        left = others;
    }
    Some((replies, placing))
}

/// What a command answers after these writes, as [`run_next`] has it, and where its own go. What its lookups tell serves its writes. `None`
/// where a page is wanted, or memory: the writes are then lost.
fn place_next<R: Shows, P: Parts<Shard<R>>>(
    alloc: Global,
    parts: &mut P,
    command: &Command,
    staged: &Staged<R>,
    placing: &mut Placing,
) -> Option<CommandReply>
    requires may { MayLookUp (P.is_open parts.old) (P.stripes_of parts.old) (P.part_of parts.old) (keys_of command.now) }
    requires written { AreThere (P.stripes_of parts.old) (P.part_of parts.old) (keys_written (writes_of placing.old)) }
    requires targets { HaveTargetsIn P.stripes_of P.part_of parts.old (writes_of placing.old) (targets_of placing.old) }
    ensures ran { IfSome result (HasRunIn R.is_steady P.stripes_of P.part_of parts.old
        (R.is_honest × AreRight staged.now) command.now (writes_of placing.old) (writes_of placing.new)) }
    ensures written { OnSome result (AreThere (P.stripes_of parts.old) (P.part_of parts.old) (keys_written (writes_of placing.new))) }
    ensures targets { OnSome result (HaveTargetsIn P.stripes_of P.part_of parts.old (writes_of placing.new) (targets_of placing.new)) }
    ensures same { P.part_of parts.new ≡ P.part_of parts.old }
    ensures held { IsStillHeld P.is_open P.keeps parts.old parts.new }
{
    writes_named_keys();
    match looks_of(command) {
        Looks::AtValue(key) => {
            let (reply, looked) = run_value(
                alloc,
                parts,
                key,
                command,
                staged,
                &mut placing.writes,
            )?;
            add_targets(
                parts,
                placing.writes.as_slice(),
                slice::from_ref(&looked),
                &mut placing.targets,
            )?;
            Some(reply)
        }
        Looks::AtPresence => {
            let mut looked = Vec::new(alloc);
            let reply = run_present(
                alloc,
                parts,
                command,
                staged,
                true,
                &mut placing.writes,
                &mut looked,
            )?;
            add_targets(
                parts,
                placing.writes.as_slice(),
                &looked,
                &mut placing.targets,
            )?;
            drop(looked);
            Some(reply)
        }
        Looks::AtNothing | Looks::AtItems(_) => {
            let reply = run_next(alloc, parts, command, staged, &mut placing.writes)?;
            add_targets(parts, placing.writes.as_slice(), &[], &mut placing.targets)?;
            Some(reply)
        }
    }
}

/// What a command that reads this key alone answers after these writes, as [`run_key`] has it, and what the lookup of the key tells.
/// `None` where a page is wanted, or memory: the writes are then lost.
fn run_value<'a, R: Shows, P: Parts<Shard<R>>>(
    alloc: Global,
    parts: &mut P,
    key: &'a Word,
    command: &Command,
    staged: &Staged<R>,
    writes: &mut Writes,
) -> Option<(CommandReply, Looked<'a>)>
    requires reads { ReadsOne key.now command.now }
    requires names { slice_get (keys_of command.now) 0 ≡ Some key.now }
    requires may { MayLookUp (P.is_open parts.old) (P.stripes_of parts.old) (P.part_of parts.old) (key.now ∷ []) }
    ensures ran { IfSome result (λ done. HasRunIn R.is_steady P.stripes_of P.part_of parts.old
        (R.is_honest × AreRight staged.now) command.now writes.old writes.new done.0) }
    ensures looked { IfSome result (λ done. WasLookedUpIn P.stripes_of P.part_of parts.old done.1) }
    ensures same { P.part_of parts.new ≡ P.part_of parts.old }
    ensures held { IsStillHeld P.is_open P.keeps parts.old parts.new }
{
    let hashed = Hashed::new(key);
    let stripe = stripe_at(&*parts, &hashed);
    let (reply, spot) = run_key(alloc, parts, &hashed, command, staged, writes)?;
    let looked = Looked {
        key,
        stripe,
        hash: hashed.hash(),
        spot,
    };
    Some((reply, looked))
}

/// Finds where these writes go, of which the first are known. A key that was looked up is not looked up anew. `None` where memory is
/// wanted.
fn add_targets<R: Shows, P: Parts<Shard<R>>>(
    parts: &mut P,
    writes: &[Write],
    looked: &[Looked<'_>],
    targets: &mut Vec<Target>,
) -> Option<()>
    requires open { P.is_open parts.old }
    requires there { AreThere (P.stripes_of parts.old) (P.part_of parts.old) (keys_written writes.now) }
    requires looked { WereLookedUpIn P.stripes_of P.part_of parts.old looked.now }
    requires first { GoThereIn P.stripes_of P.part_of parts.old writes.now targets.old.items }
    ensures all { OnSome result (HaveTargetsIn P.stripes_of P.part_of parts.old writes.now targets.new.items) }
    ensures same { P.part_of parts.new ≡ P.part_of parts.old }
    ensures held { IsStillHeld P.is_open P.keeps parts.old parts.new }
{
    let mut from = 0;
    while let Some(write) = writes.get(targets.len()) {
        let (target, next) = target_for(parts, write, looked, from);
        let Ok(()) = targets.push(target) else {
            return None;
        };
        from = next;
    }
    Some(())
}

/// Where a write goes, by the first of these keys from this one on that is its own, or by a lookup, and where the keys behind that one begin.
fn target_for<R: Shows, P: Parts<Shard<R>>>(
    parts: &mut P,
    write: &Write,
    looked: &[Looked<'_>],
    from: usize,
) -> (Target, usize)
    requires open { P.is_open parts.old }
    requires there { IsSome (P.part_of parts.old (striping.stripe_of (P.stripes_of parts.old) write.now.0)) }
    requires looked { WereLookedUpIn P.stripes_of P.part_of parts.old looked.now }
    ensures target { GoesThereIn P.stripes_of P.part_of parts.old write.now result.0 }
    ensures same { P.part_of parts.new ≡ P.part_of parts.old }
    ensures held { IsStillHeld P.is_open P.keeps parts.old parts.new }
{
    let size = size_of(write);
    match look_for(looked, from, write.key()) {
        Some((found, next)) => (target_with(&found, size), next),
        None => {
            let found = look_up_key(parts, write.key());
            (target_with(&found, size), from)
        }
    }
}

/// The first of the keys that were looked up, from this one on, that is this key, and where those behind it begin.
fn look_for<'a>(looked: &[Looked<'a>], from: usize, key: &Word) -> Option<(Looked<'a>, usize)>
    ensures key { IfSome result (λ found. found.0.key.now ≡ key.now) }
    ensures among { (n : ℕ) (logs : ℕ → Option HybridLog) → WereLookedUp n logs looked.now
        → IfSome result (λ found. WasLookedUp n logs found.0) }
{
    let mut at = from;
    while let Some(found) = looked.get(at) {
        if found.key.as_slice() == key.as_slice() {
            return Some((*found, at + 1));
        }
        at += 1;
    }
    None
}

/// Where a write to a key that was looked up goes, which gives it a value of so many bytes.
fn target_with(looked: &Looked<'_>, size: usize) -> Target
    ensures stripe { result.stripe ≡ looked.now.stripe }
    ensures hash { result.hash ≡ looked.now.hash }
    ensures spot { IfSome result.spot (λ spot. (looked.now.spot ≡ Some spot) × (size ≤ spot.capacity)) }
{
    let spot = match looked.spot {
        Some(spot) if size <= spot.capacity => Some(spot),
        Some(_) => None,
        None => None,
    };
    Target {
        stripe: looked.stripe,
        hash: looked.hash,
        spot,
    }
}

/// Looks a key up for the spot alone: in the mutable part, and no page is wanted.
fn look_up_key<'a, R: Shows, P: Parts<Shard<R>>>(parts: &mut P, key: &'a Word) -> Looked<'a>
    requires open { P.is_open parts.old }
    requires there { IsSome (P.part_of parts.old (striping.stripe_of (P.stripes_of parts.old) key.now)) }
    ensures key { result.key.now ≡ key.entry.now }
    ensures looked { WasLookedUpIn P.stripes_of P.part_of parts.old result }
    ensures same { P.part_of parts.new ≡ P.part_of parts.old }
    ensures held { IsStillHeld P.is_open P.keeps parts.old parts.new }
{
    let hashed = Hashed::new(key);
    let stripe = stripe_at(&*parts, &hashed);
    let spot = parts.part(stripe).spot(&hashed);
    Looked {
        key,
        stripe,
        hash: hashed.hash(),
        spot,
    }
}

/// How long the value is that a write gives, 0 where it deletes.
fn size_of(write: &Write) -> usize
    ensures { result ≡ length (value_bytes write.now.1) }
{
    match write.value() {
        Some(value) => value.len(),
        None => 0,
    }
}

/// Makes writes that go there, in order. One that a later one hides is passed over. It takes no memory and wants no room.
fn place_writes<R: Shows, P: Parts<Shard<R>>>(parts: &mut P, writes: &[Write], targets: &[Target])
    requires open { P.is_open parts.old }
    requires targets { AllGoThereIn P.stripes_of P.part_of parts.old writes.now targets.now }
    requires there { AreThere (P.stripes_of parts.old) (P.part_of parts.old) (keys_written writes.now) }
    requires fits { AreFit writes.now }
    ensures became { BecomesWritten R.is_steady P.stripes_of P.part_of parts.old parts.new writes.now }
    ensures grown { HaveGrown (P.stripes_of parts.old) writes.now (logs_of (P.part_of parts.old)) (logs_of (P.part_of parts.new)) }
    ensures waits { SameWaits (P.part_of parts.old) (P.part_of parts.new) }
    ensures held { IsStillHeld P.is_open P.keeps parts.old parts.new }
{
    growth_adds_up();
    let mut left = writes;
    let mut at = targets;
    while let Some((first, others)) = left.split_first() {
        let Some((target, further)) = at.split_first() else {
            unreachable!()
        };
        place_before(parts, first, others, target, further);
        left = others;
        at = further;
    }
}

/// Makes a write that goes there before these others, or passes it over where one of them is to its key. The others still go where they do.
fn place_before<R: Shows, P: Parts<Shard<R>>>(
    parts: &mut P,
    next: &Write,
    others: &[Write],
    target: &Target,
    further: &[Target],
)
    requires open { P.is_open parts.old }
    requires targets { AllGoThereIn P.stripes_of P.part_of parts.old (next.now ∷ others.now) (target.now ∷ further.now) }
    requires there { IsSome (P.part_of parts.old (striping.stripe_of (P.stripes_of parts.old) next.now.0)) }
    requires fits { AreFit (next.now ∷ []) }
    ensures became { BecomesFirst R.is_steady P.stripes_of P.part_of parts.old parts.new next.now others.now }
    ensures still { (keys : List Bytes) → AreThere (P.stripes_of parts.old) (P.part_of parts.old) keys
        → AreThere (P.stripes_of parts.old) (P.part_of parts.new) keys }
    ensures grown { GrowsFirst P.stripes_of P.part_of parts.old parts.new next.now others.now }
    ensures targets { AllGoThere (P.stripes_of parts.old) (logs_of (P.part_of parts.new)) others.now further.now }
    ensures waits { SameWaits (P.part_of parts.old) (P.part_of parts.new) }
    ensures held { IsStillHeld P.is_open P.keeps parts.old parts.new }
{
    growth_adds_up();
    let _ = further;
    if writes_to(others, next.key()) {
        return;
    }
    place_at(parts, next, target);
}

/// Makes a write that goes there. Writes of other keys go where they went, and where it goes over a record, that is still its key's newest.
fn place_at<R: Shows, P: Parts<Shard<R>>>(parts: &mut P, write: &Write, target: &Target)
    requires open { P.is_open parts.old }
    requires target { GoesThereIn P.stripes_of P.part_of parts.old write.now target.now }
    requires tail { IfNone target.now.spot (HasTail (logs_of (P.part_of parts.old)) (striping.stripe_of (P.stripes_of parts.old) write.now.0)
        (weigh write.now)) }
    requires there { IsSome (P.part_of parts.old (striping.stripe_of (P.stripes_of parts.old) write.now.0)) }
    requires fits { AreFit (write.now ∷ []) }
    ensures became { BecomesWritten R.is_steady P.stripes_of P.part_of parts.old parts.new (write.now ∷ []) }
    ensures grown { GrowsBy (P.stripes_of parts.old) write.now (P.part_of parts.old) (P.part_of parts.new) }
    ensures spots { (other text : Bytes) (at : Spot) → (other ≡ write.now.0 → ⊥) → IsSpotIn P.stripes_of P.part_of parts.old other text at
        → IsSpot (P.stripes_of parts.old) (logs_of (P.part_of parts.new)) other text at }
    ensures place { IfSome target.now.spot (IsSpot (P.stripes_of parts.old) (logs_of (P.part_of parts.new)) write.now.0
        (value_bytes write.now.1)) }
    ensures tails { (stripe weight : ℕ) → HasTail (logs_of (P.part_of parts.old)) stripe (weigh write.now + weight)
        → HasTail (logs_of (P.part_of parts.new)) stripe weight }
    ensures waits { SameWaits (P.part_of parts.old) (P.part_of parts.new) }
    ensures held { IsStillHeld P.is_open P.keeps parts.old parts.new }
{
    match target.spot {
        Some(spot) => overwrite_at(parts, target.stripe, write.key(), spot, write.value()),
        None => append(
            parts,
            target.stripe,
            target.hash,
            write.key(),
            write.value(),
        ),
    }
}

//! What a call comes to, before its commit.

ghost use Rattle.std.specs.Prelude.{◌≡◌, [], ◌∷◌, true, IfOk, IfErr, IfSome};
ghost use Rattle.words.specs.declared.command.Command.TheVariants as asked;
ghost use Rattle.words.specs.declared.history.Operation.TheVariants.{Watch};
ghost use Rattle.words.specs.Commands.{keys_of, keys_of_all, touches_keys};
ghost use Rattle.words.specs.History.{too_much};
ghost use Rattle.hybrid.specs.Staging.{AreRight};
ghost use Rattle.hybrid.specs.Writing.{AreFit};
ghost use Rattle.transact.specs.Plans.{keys_begun};
ghost use Rattle.transact.specs.Tables.{AreThere, keys_written};
ghost use Rattle.plans.specs.declared.stop.Stop.TheVariants.{OutOfMemory};
ghost use Rattle.shards.specs.Devices.{StillServes};
ghost use Rattle.shards.specs.Receipts.{kept_by};
ghost use Rattle.shards.specs.Shards.{SameLogs, SameWaits, shard_meaning};
ghost use Rattle.plans.specs.Planning.{AreDue, AreSettled, CameOfPlan, HasAnswered, HasMissedIn, HasPlanned, HasStopped};
ghost use Rattle.plans.specs.Planning.{HaveFailed, IsPlanOfWatch, IsStillHeld, IsUnmarked, MayLookUp, MayPlan, StillStands};
ghost use Rattle.plans.specs.Reserving.{StopsMaking};
ghost use Rattle.plans.specs.Planning.{asks_call, asks_command, asks_commands, asks_copied, asks_exec, asks_get};
ghost use Rattle.plans.specs.Finding.{ReadsNothing};
ghost use Rattle.plans.specs.Sizes.{AreSized, IsSized};
ghost use Rattle.plans.specs.Holding.{AreMarkedFor};

use crate::find::{
    add_values, answer_all, answer_key, answer_one, answer_unread, find_command, find_commands,
    room_for,
};
use crate::hashed::HashedCall;
use crate::marks::{any_marked, begin_all, clear_all};
use crate::planned::Planned;
use crate::room::reserve_all;
use crate::running::{answer_each, run_next};
use crate::short::value_of;
use crate::stop::{Receipts, Stop};
use device::{Device, Shows};
use gates::Parts;
use hybrid::Staged;
use shards::shard::Shard;
use std::alloc::Global;
use strings::writes::Writes;
use transact::call::Call;
use words::bounds::writes_are_bounded;
use words::command::{Command, Keys};
use words::hash::Hashed;
use words::locality::{depends_on_named_keys, writes_named_keys};
use words::reply::{CommandReplies, CommandReply, Line, Refusal, Reply};
use words::sequence::Sequence;
use words::word::Word;

/// Plans a call of a session: finds what it answers and writes, and makes room for its writes and its marks. No
/// value is changed, and of the marks only those are added that the call begins. Over an honest device, where
/// what is staged is right, the plan is the one that is due after each history whose store the parts are of.
/// Where receipts lend their pages, no page is wanted.
///
/// # Errors
///
/// A [`Stop`]. Values and marks are then as they were.
pub fn plan<R: Shows, D: Device<Receipt = R>, P: Parts<Shard<R>>>(
    alloc: Global,
    parts: &mut P,
    call: &HashedCall,
    staged: &Staged<R>,
    device: &mut D,
) -> Result<Planned, Stop<R>>
    requires may { MayPlan (P.is_open parts.old) (P.stripes_of parts.old) (P.part_of parts.old) call.now }
    ensures planned { IfOk result (HasPlanned D.wrote (kept_by R.identity R.shown)
        (AreDue (R.is_honest × AreRight staged.now) (asks_call R.is_steady P.stripes_of P.holder_of P.part_of parts.old call.now))
        (P.stripes_of parts.old) (P.part_of parts.old, device.old) (P.part_of parts.new, device.new)) }
    ensures marks { AreMarkedFor R.is_steady P.stripes_of P.holder_of P.part_of parts.old parts.new (keys_begun call.now) result }
    ensures stopped { IfErr result (HasStopped D.wrote (kept_by R.identity R.shown) R.lends (R.is_honest × AreRight staged.now)
        (asks_call R.is_steady P.stripes_of P.holder_of P.part_of parts.old call.now)
        (P.stripes_of parts.old) staged.now (P.part_of parts.old, device.old) (P.part_of parts.new, device.new)) }
    ensures stands { StillStands (StillServes D.serves D.releases) (P.part_of parts.old, device.old) (P.part_of parts.new, device.new) }
    ensures failed { HaveFailed result (D.failures device.old) (D.failures device.new) }
    ensures held { IsStillHeld P.is_open P.keeps parts.old parts.new }
{
    writes_are_bounded();
    match call.call() {
        Call::One(command) => plan_one(alloc, parts, command, call.key.as_ref(), staged, device),
        Call::Watch(keys) => plan_watch(alloc, parts, keys),
        Call::Exec(commands, watching) => plan_exec(
            alloc,
            parts,
            commands.as_slice(),
            watching.keys(),
            staged,
            device,
        ),
        Call::Forget(_) => unreachable!(),
    }
}

/// Plans a command, which may be given with the one key that it names.
fn plan_one<R: Shows, D: Device<Receipt = R>, P: Parts<Shard<R>>>(
    alloc: Global,
    parts: &mut P,
    command: &Command,
    key: Option<&Hashed>,
    staged: &Staged<R>,
    device: &mut D,
) -> Result<Planned, Stop<R>>
    requires may { MayLookUp (P.is_open parts.old) (P.stripes_of parts.old) (P.part_of parts.old) (keys_of command.now) }
    requires key { IfSome key (λ key. keys_of command.now ≡ key.now ∷ []) }
    requires touches { touches_keys command.now ≡ true }
    requires sized { IsSized command.now }
    ensures { CameOfPlan D.wrote D.serves D.releases D.failures R.identity R.shown R.is_steady R.is_honest R.lends
        P.is_open P.keeps P.stripes_of P.part_of staged.now (asks_command R.is_steady P.stripes_of P.part_of parts.old command.now)
        (parts.old, device.old) (parts.new, device.new) result }
{
    match command {
        Command::Get(key) => plan_get(alloc, parts, key, staged),
        Command::MGet(keys) => {
            plan_values(alloc, parts, command, keys.as_slice(), staged, device)
        }
        Command::MSet(_) => plan_unread(alloc, parts, command, staged, device),
        _ => match key {
            Some(key) => plan_key(alloc, parts, command, key, staged, device),
            None => plan_several(alloc, parts, command, staged, device),
        },
    }
}

/// Plans a GET: its reply is the one copy that is made of the value.
fn plan_get<R: Shows, P: Parts<Shard<R>>>(
    alloc: Global,
    parts: &mut P,
    key: &Word,
    staged: &Staged<R>,
) -> Result<Planned, Stop<R>>
    requires may { MayLookUp (P.is_open parts.old) (P.stripes_of parts.old) (P.part_of parts.old) (key.now ∷ []) }
    ensures answered { IfOk result (HasAnswered (R.is_honest × AreRight staged.now)
        (asks_get R.is_steady P.stripes_of P.part_of parts.old key.now)) }
    ensures stopped { IfErr result (HasMissedIn R.is_steady P.stripes_of P.part_of parts.old
        R.lends (R.is_honest × AreRight staged.now) key.now staged.now) }
    ensures same { P.part_of parts.new ≡ P.part_of parts.old }
    ensures held { IsStillHeld P.is_open P.keeps parts.old parts.new }
{
    let key = Hashed::new(key);
    match value_of(alloc, parts, &key, staged) {
        Ok(value) => Ok(answered(alloc, Reply::value(value))),
        Err(stop) => Err(stop),
    }
}

/// Plans a command that names this key alone, on its value where it lies.
fn plan_key<R: Shows, D: Device<Receipt = R>, P: Parts<Shard<R>>>(
    alloc: Global,
    parts: &mut P,
    command: &Command,
    key: &Hashed,
    staged: &Staged<R>,
    device: &mut D,
) -> Result<Planned, Stop<R>>
    requires one { keys_of command.now ≡ key.now ∷ [] }
    requires may { MayLookUp (P.is_open parts.old) (P.stripes_of parts.old) (P.part_of parts.old) (keys_of command.now) }
    requires touches { touches_keys command.now ≡ true }
    requires sized { IsSized command.now }
    ensures { CameOfPlan D.wrote D.serves D.releases D.failures R.identity R.shown R.is_steady R.is_honest R.lends
        P.is_open P.keeps P.stripes_of P.part_of staged.now (asks_copied R.is_steady P.stripes_of P.part_of parts.old command.now)
        (parts.old, device.old) (parts.new, device.new) result }
{
    depends_on_named_keys();
    writes_named_keys();
    match answer_key(alloc, parts, key, command, staged) {
        Ok((reply, writes)) => settle(alloc, parts, Reply::Single(reply), writes, device),
        Err(stop) => Err(stop),
    }
}

/// Plans a command on what its keys have where it lies, as far as it wants that. Where a page is wanted, or memory, it is planned on
/// copies.
fn plan_several<R: Shows, D: Device<Receipt = R>, P: Parts<Shard<R>>>(
    alloc: Global,
    parts: &mut P,
    command: &Command,
    staged: &Staged<R>,
    device: &mut D,
) -> Result<Planned, Stop<R>>
    requires may { MayLookUp (P.is_open parts.old) (P.stripes_of parts.old) (P.part_of parts.old) (keys_of command.now) }
    requires touches { touches_keys command.now ≡ true }
    requires sized { IsSized command.now }
    ensures { CameOfPlan D.wrote D.serves D.releases D.failures R.identity R.shown R.is_steady R.is_honest R.lends
        P.is_open P.keeps P.stripes_of P.part_of staged.now (asks_copied R.is_steady P.stripes_of P.part_of parts.old command.now)
        (parts.old, device.old) (parts.new, device.new) result }
{
    depends_on_named_keys();
    writes_named_keys();
    let mut writes = Writes::new(alloc);
    if let Some(reply) = run_next(alloc, parts, command, staged, &mut writes) {
        return settle(alloc, parts, Reply::Single(reply), writes, device);
    }
    drop(writes);
    plan_copied(alloc, parts, command, staged, device)
}

/// Plans a command on copies of the values of its keys.
fn plan_copied<R: Shows, D: Device<Receipt = R>, P: Parts<Shard<R>>>(
    alloc: Global,
    parts: &mut P,
    command: &Command,
    staged: &Staged<R>,
    device: &mut D,
) -> Result<Planned, Stop<R>>
    requires may { MayLookUp (P.is_open parts.old) (P.stripes_of parts.old) (P.part_of parts.old) (keys_of command.now) }
    requires touches { touches_keys command.now ≡ true }
    requires sized { IsSized command.now }
    ensures { CameOfPlan D.wrote D.serves D.releases D.failures R.identity R.shown R.is_steady R.is_honest R.lends
        P.is_open P.keeps P.stripes_of P.part_of staged.now (asks_copied R.is_steady P.stripes_of P.part_of parts.old command.now)
        (parts.old, device.old) (parts.new, device.new) result }
{
    depends_on_named_keys();
    writes_named_keys();
    let mut found = Writes::new(alloc);
    let mut cold = Receipts::new(alloc);
    let Ok(()) = find_command(alloc, parts, command, staged, &mut found, &mut cold) else {
        return Err(Stop::OutOfMemory);
    };
    if !cold.is_empty() {
        return Err(Stop::Cold(cold));
    }
    let Ok((reply, writes)) = answer_one(alloc, &found, command) else {
        return Err(Stop::OutOfMemory);
    };
    drop(found);
    settle(alloc, parts, Reply::Single(reply), writes, device)
}

/// Plans a MGET of these keys: its items are the one copy that is made of each value. Where a page is wanted, or memory, it is
/// planned as other commands are.
fn plan_values<R: Shows, D: Device<Receipt = R>, P: Parts<Shard<R>>>(
    alloc: Global,
    parts: &mut P,
    command: &Command,
    keys: &[Word],
    staged: &Staged<R>,
    device: &mut D,
) -> Result<Planned, Stop<R>>
    requires is { command.now ≡ asked.MGet keys.now }
    requires may { MayLookUp (P.is_open parts.old) (P.stripes_of parts.old) (P.part_of parts.old) (keys_of command.now) }
    requires touches { touches_keys command.now ≡ true }
    requires sized { IsSized command.now }
    ensures { CameOfPlan D.wrote D.serves D.releases D.failures R.identity R.shown R.is_steady R.is_honest R.lends
        P.is_open P.keeps P.stripes_of P.part_of staged.now (asks_copied R.is_steady P.stripes_of P.part_of parts.old command.now)
        (parts.old, device.old) (parts.new, device.new) result }
{
    let mut items = room_for(alloc, keys.len());
    if add_values(alloc, parts, keys, staged, &mut items) {
        let reply = CommandReply::Array(Sequence::from_vec(items));
        return Ok(answered(alloc, Reply::Single(reply)));
    }
    drop(items);
    plan_copied(alloc, parts, command, staged, device)
}

/// Plans a command that answers and writes the same whatever its keys have: none of them is looked up, and no page is wanted.
fn plan_unread<R: Shows, D: Device<Receipt = R>, P: Parts<Shard<R>>>(
    alloc: Global,
    parts: &mut P,
    command: &Command,
    staged: &Staged<R>,
    device: &mut D,
) -> Result<Planned, Stop<R>>
    requires unread { ReadsNothing command.now }
    requires may { MayLookUp (P.is_open parts.old) (P.stripes_of parts.old) (P.part_of parts.old) (keys_of command.now) }
    requires touches { touches_keys command.now ≡ true }
    requires sized { IsSized command.now }
    ensures { CameOfPlan D.wrote D.serves D.releases D.failures R.identity R.shown R.is_steady R.is_honest R.lends
        P.is_open P.keeps P.stripes_of P.part_of staged.now (asks_copied R.is_steady P.stripes_of P.part_of parts.old command.now)
        (parts.old, device.old) (parts.new, device.new) result }
{
    writes_named_keys();
    let Ok((reply, writes)) = answer_unread(alloc, command) else {
        return Err(Stop::OutOfMemory);
    };
    settle(alloc, parts, Reply::Single(reply), writes, device)
}

/// Plans the commands of a transaction none of whose watched keys was written, each on what its keys have where it lies. Where a page
/// is wanted, or memory, they are planned on copies.
fn plan_all<R: Shows, D: Device<Receipt = R>, P: Parts<Shard<R>>>(
    alloc: Global,
    parts: &mut P,
    commands: &[Command],
    staged: &Staged<R>,
    device: &mut D,
) -> Result<Planned, Stop<R>>
    requires may { MayLookUp (P.is_open parts.old) (P.stripes_of parts.old) (P.part_of parts.old) (keys_of_all commands.now) }
    requires sized { AreSized commands.now }
    ensures { CameOfPlan D.wrote D.serves D.releases D.failures R.identity R.shown R.is_steady R.is_honest R.lends
        P.is_open P.keeps P.stripes_of P.part_of staged.now (asks_commands R.is_steady P.stripes_of P.part_of parts.old commands.now)
        (parts.old, device.old) (parts.new, device.new) result }
{
    depends_on_named_keys();
    if let Some((replies, writes)) = answer_each(alloc, parts, commands, staged) {
        let reply = Reply::Array(CommandReplies::from_vec(replies));
        return settle(alloc, parts, reply, writes, device);
    }
    plan_all_copied(alloc, parts, commands, staged, device)
}

/// Plans the commands of a transaction none of whose watched keys was written, on copies of the values of all their keys.
fn plan_all_copied<R: Shows, D: Device<Receipt = R>, P: Parts<Shard<R>>>(
    alloc: Global,
    parts: &mut P,
    commands: &[Command],
    staged: &Staged<R>,
    device: &mut D,
) -> Result<Planned, Stop<R>>
    requires may { MayLookUp (P.is_open parts.old) (P.stripes_of parts.old) (P.part_of parts.old) (keys_of_all commands.now) }
    requires sized { AreSized commands.now }
    ensures { CameOfPlan D.wrote D.serves D.releases D.failures R.identity R.shown R.is_steady R.is_honest R.lends
        P.is_open P.keeps P.stripes_of P.part_of staged.now (asks_commands R.is_steady P.stripes_of P.part_of parts.old commands.now)
        (parts.old, device.old) (parts.new, device.new) result }
{
    depends_on_named_keys();
    writes_named_keys();
    let mut found = Writes::new(alloc);
    let mut cold = Receipts::new(alloc);
    let Ok(()) = find_commands(alloc, parts, commands, staged, &mut found, &mut cold) else {
        return Err(Stop::OutOfMemory);
    };
    if !cold.is_empty() {
        return Err(Stop::Cold(cold));
    }
    let Ok((replies, writes)) = answer_all(alloc, &found, commands) else {
        return Err(Stop::OutOfMemory);
    };
    drop(found);
    let reply = Reply::Array(CommandReplies::from_vec(replies));
    settle(alloc, parts, reply, writes, device)
}

/// Plans a transaction of a session that watches these keys. One that is dirty is null, and looks nothing up.
#[inline(never)]
fn plan_exec<R: Shows, D: Device<Receipt = R>, P: Parts<Shard<R>>>(
    alloc: Global,
    parts: &mut P,
    commands: &[Command],
    watching: &[Word],
    staged: &Staged<R>,
    device: &mut D,
) -> Result<Planned, Stop<R>>
    requires may { MayLookUp (P.is_open parts.old) (P.stripes_of parts.old) (P.part_of parts.old) (keys_of_all commands.now) }
    requires sized { AreSized commands.now }
    requires watching { AreThere (P.stripes_of parts.old) (P.part_of parts.old) watching.now }
    ensures { CameOfPlan D.wrote D.serves D.releases D.failures R.identity R.shown R.is_steady R.is_honest R.lends
        P.is_open P.keeps P.stripes_of P.part_of staged.now
        (asks_exec R.is_steady P.stripes_of P.holder_of P.part_of parts.old watching.now commands.now)
        (parts.old, device.old) (parts.new, device.new) result }
{
    if any_marked(parts, watching) {
        return Ok(answered(alloc, Reply::NullArray));
    }
    plan_all(alloc, parts, commands, staged, device)
}

/// A plan that writes nothing and begins no watch.
fn answered(alloc: Global, reply: Reply) -> Planned
    ensures reply { result.reply ≡ reply }
    ensures writes { result.writes ≡ [] }
    ensures begun { result.begun ≡ [] }
{
    Planned {
        reply,
        writes: Writes::new(alloc),
        begun: Keys::from_vec(Vec::new(alloc)),
    }
}

/// The plan of a call that answers and writes this, unless its writes weigh too much.
fn settle<R: Shows, D: Device<Receipt = R>, P: Parts<Shard<R>>>(
    alloc: Global,
    parts: &mut P,
    reply: Reply,
    writes: Writes,
    device: &mut D,
) -> Result<Planned, Stop<R>>
    requires may { MayLookUp (P.is_open parts.old) (P.stripes_of parts.old) (P.part_of parts.old) (keys_written writes) }
    requires fits { AreFit writes }
    ensures planned { IfOk result (HasPlanned D.wrote (kept_by R.identity R.shown) (AreSettled reply writes)
        (P.stripes_of parts.old) (P.part_of parts.old, device.old) (P.part_of parts.new, device.new)) }
    ensures unmarked { IsUnmarked (shard_meaning R.is_steady) (P.stripes_of parts.old) (P.part_of parts.old) (P.part_of parts.new) result }
    ensures stopped { IfErr result (StopsMaking D.wrote (kept_by R.identity R.shown) (P.stripes_of parts.old) writes
        (P.part_of parts.old, device.old) (P.part_of parts.new, device.new)) }
    ensures stands { StillStands (StillServes D.serves D.releases) (P.part_of parts.old, device.old) (P.part_of parts.new, device.new) }
    ensures failed { HaveFailed result (D.failures device.old) (D.failures device.new) }
    ensures held { IsStillHeld P.is_open P.keeps parts.old parts.new }
{
    if writes.weight().is_none() {
        return Ok(refused(alloc, reply, writes));
    }
    match reserve_all(parts, writes.as_slice(), device) {
        Ok(()) => Ok(Planned {
            reply,
            writes,
            begun: Keys::from_vec(Vec::new(alloc)),
        }),
        Err(stop) => Err(let_go(reply, writes, stop)),
    }
}

/// The plan of a call whose writes weigh too much: it answers the line of it, and writes nothing.
fn refused(alloc: Global, reply: Reply, writes: Writes) -> Planned
    ensures reply { result.reply ≡ too_much }
    ensures writes { result.writes ≡ [] }
    ensures begun { result.begun ≡ [] }
{
    drop(reply);
    drop(writes);
    answered(alloc, Reply::line(Line::Refused(Refusal::WritesTooMuch)))
}

/// Lets a reply and writes go where a plan is not made.
fn let_go<R: Shows>(reply: Reply, writes: Writes, stop: Stop<R>) -> Stop<R>
    ensures { result ≡ stop }
{
    drop(reply);
    drop(writes);
    stop
}

/// Plans a watch: the session watches the keys from here on. It looks nothing up.
fn plan_watch<R: Shows, P: Parts<Shard<R>>>(
    alloc: Global,
    parts: &mut P,
    keys: &Keys,
) -> Result<Planned, Stop<R>>
    requires open { P.is_open parts.old }
    requires there { AreThere (P.stripes_of parts.old) (P.part_of parts.old) keys.now }
    ensures planned { IfOk result (IsPlanOfWatch keys.now) }
    ensures marks { AreMarkedFor R.is_steady P.stripes_of P.holder_of P.part_of parts.old parts.new keys.now result }
    ensures stop { IfErr result (λ stop. stop ≡ OutOfMemory) }
    ensures same { SameLogs (P.part_of parts.old) (P.part_of parts.new) × SameWaits (P.part_of parts.old) (P.part_of parts.new) }
    ensures held { IsStillHeld P.is_open P.keeps parts.old parts.new }
{
    let mut begun = Vec::new(alloc);
    if let Err(_) = begin_all(parts, keys.as_slice(), &mut begun) {
        clear_all(parts, begun.as_slice());
        return Err(Stop::OutOfMemory);
    }
    let mut planned = answered(alloc, Reply::line(Line::Done));
    planned.begun = Keys::from_vec(begun);
    Ok(planned)
}

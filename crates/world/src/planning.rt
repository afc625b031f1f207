//! A call of a client is planned over the stripes that the client holds.

ghost use Rattle.std.specs.Prelude.{◌≡◌, ◌<◌, None, IfErr, IfOk, OnOk, [], length, true};
ghost use Rattle.hybrid.specs.Staging.{AreRight};
ghost use Rattle.plans.specs.Reading.{AreServed};
ghost use Rattle.plans.specs.Sizes.{IsPlaced};
ghost use Rattle.shards.specs.Rooms.{AreRoomy};
ghost use Rattle.plans.specs.Stops.{IfCold, IfFull};
ghost use Rattle.plans.specs.Stops as plans;
ghost use Rattle.hybrid.specs.Writing.{AreFit};
ghost use Rattle.transact.specs.Plans.{IsEntry, keys_ended};
ghost use Rattle.transact.specs.Tables.{AreThere};
ghost use Rattle.transact.specs.Submits.{stripes_asked};
ghost use Rattle.world_log.specs.Freeing.{HasStepped};
ghost use Rattle.world_log.specs.Places.{Serves, identity};
ghost use Rattle.world_log.specs.PlanLaws.{IsColdIn, logs_lent};
ghost use Rattle.world_log.specs.Stripes.{acts_for, holders_of, lent};
ghost use Rattle.world_log.specs.WorldLogs.{IsWorldLog};
ghost use Rattle.world_log.specs.declared.logs.WorldLog as logs;
ghost use Rattle.world_model.specs.Enabled.{first_missing};
ghost use Rattle.world_model.specs.Places.{Each};
ghost use Rattle.world_model.specs.Planning as rounds;
ghost use Rattle.world.specs.Planning as planning;
ghost use Rattle.world.specs.Planning.{HasArranged, HasCleared, HasEnded, HasMet, HasNamed, HasPlanned, HasPut, HasRun, IsReadFor, KeepsDesk};

use crate::desk::{Desk, Plan};
use crate::laws::plan_laws;
use hybrid::Staged;
use plans::hashed::{HashedCall, key_of};
use plans::marks::forget;
use plans::plan::plan;
use plans::planned::Planned;
use plans::reading::plan_reading;
use plans::stop::{Receipts, Stop};
use std::alloc::Global;
use transact::call::{Call, Watching};
use words::reply::Reply;
use world_log::{Stopped, WorldLog, WorldReceipt};

/// After so many rounds of reading, a plan reads pages itself.
pub(crate) const ROUNDS: u8 = 3;

/// Whether a call looks keys up.
pub(crate) fn looks_up(call: &Call) -> bool
    ensures { result ≡ planning.looks_up call.now }
{
    match call {
        Call::One(_) => true,
        Call::Exec(..) => true,
        Call::Watch(_) => false,
        Call::Forget(_) => false,
    }
}

/// Plans a call of a client that holds all of its stripes, and names the pages that are wanted for it.
fn plan_naming(
    alloc: Global,
    log: &mut WorldLog,
    client: usize,
    call: &Call,
    staged: &Staged<WorldReceipt>,
) -> Result<Planned, Stop<WorldReceipt>>
    requires log { IsWorldLog log.old }
    requires entry { IsEntry call.now }
    requires place { IsPlaced call.now }
    requires all { first_missing (holders_of log.old.stripes) client (stripes_asked (length (holders_of log.old.stripes)) call.now) ≡ None }
    requires right { AreRight staged.now }
    ensures planned { IfOk result (λ planned. HasPlanned log.old client call.now planned log.new) }
    ensures cold { IfErr result (λ stop. IfCold stop (λ receipts. HasNamed log.old client call.now staged.now receipts log.new)) }
    ensures full { IfErr result (λ stop. IfFull stop (λ stripe. HasMet log.old client call.now stripe log.new)) }
{
    log.stripes.act_for(client);
    let hashed = HashedCall {
        call,
        key: key_of(call),
    };
    match plan(alloc, &mut log.stripes, &hashed, staged, &mut log.device) {
        Ok(planned) => Ok(planned),
        Err(stop) => Err(stop),
    }
}

/// The same, where the pages that are wanted are read.
fn plan_with_reads(
    alloc: Global,
    log: &mut WorldLog,
    client: usize,
    call: &Call,
    staged: &mut Staged<WorldReceipt>,
) -> Result<Planned, Stop<WorldReceipt>>
    requires log { IsWorldLog log.old }
    requires entry { IsEntry call.now }
    requires place { IsPlaced call.now }
    requires all { first_missing (holders_of log.old.stripes) client (stripes_asked (length (holders_of log.old.stripes)) call.now) ≡ None }
    requires right { AreRight staged.old }
    requires served { AreServed Serves identity log.old.device (logs_lent (acts_for log.old.stripes client)) }
    ensures planned { IfOk result (λ planned. HasPlanned log.old client call.now planned log.new) }
    ensures never_cold { IfErr result (λ stop. IfCold stop (λ receipts. ⊥)) }
    ensures full { IfErr result (λ stop. IfFull stop (λ stripe. HasMet log.old client call.now stripe log.new)) }
    ensures right { AreRight staged.new }
{
    plan_laws();
    log.stripes.act_for(client);
    let hashed = HashedCall {
        call,
        key: key_of(call),
    };
    match plan_reading(alloc, &mut log.stripes, &hashed, staged, &mut log.device) {
        Ok(planned) => Ok(planned),
        Err(stop) => Err(stop),
    }
}

/// Plans a call of a client that holds all of its stripes. Pages that are wanted are named, and after some
/// rounds read.
fn plan_call(
    alloc: Global,
    log: &mut WorldLog,
    client: usize,
    call: &Call,
    desk: &mut Desk,
) -> Result<Planned, Stop<WorldReceipt>>
    requires log { IsWorldLog log.old }
    requires entry { IsEntry call.now }
    requires place { IsPlaced call.now }
    requires all { first_missing (holders_of log.old.stripes) client (stripes_asked (length (holders_of log.old.stripes)) call.now) ≡ None }
    requires right { AreRight desk.old.staged }
    requires served { AreServed Serves identity log.old.device (logs_lent (acts_for log.old.stripes client)) }
    ensures planned { IfOk result (λ planned. HasPlanned log.old client call.now planned log.new) }
    ensures cold { IfErr result (λ stop. IfCold stop (λ receipts. HasNamed log.old client call.now desk.old.staged receipts log.new × (desk.old.fetched < rounds.ROUNDS))) }
    ensures full { IfErr result (λ stop. IfFull stop (λ stripe. HasMet log.old client call.now stripe log.new)) }
    ensures same { desk.new ≡ record desk.old { staged = desk.new.staged } }
    ensures right { AreRight desk.new.staged }
{
    if desk.fetched < ROUNDS {
        return match plan_naming(alloc, log, client, call, &desk.staged) {
            Ok(planned) => Ok(planned),
            Err(stop) => Err(stop),
        };
    }
    match plan_with_reads(alloc, log, client, call, &mut desk.staged) {
        Ok(planned) => Ok(planned),
        Err(stop) => Err(stop),
    }
}

/// Plans a call of a client that took the last of its stripes, and keeps what it comes to. Before it meets a full stripe, it
/// releases what it can there while clients have these stays.
pub(crate) fn arrange(
    alloc: Global,
    log: &mut WorldLog,
    client: usize,
    call: &Call,
    desk: &mut Desk,
    stays: &[Option<u64>],
) -> Result<(), Stopped>
    requires log { IsWorldLog log.old }
    requires entry { IsEntry call.now }
    requires place { IsPlaced call.now }
    requires all { first_missing (holders_of log.old.stripes) client (stripes_asked (length (holders_of log.old.stripes)) call.now) ≡ None }
    requires right { AreRight desk.old.staged }
    requires served { (mid : logs.WorldLog) → HasStepped stays.now log.old mid → AreServed Serves identity mid.device (logs_lent (acts_for mid.stripes client)) }
    ensures { OnOk result (HasArranged log.old client call.now stays.now desk.old log.new desk.new) }
{
    plan_laws();
    match plan_call(alloc, log, client, call, desk) {
        Ok(planned) => {
            desk.plan = Plan::Made(planned);
            Ok(())
        }
        Err(Stop::Cold(receipts)) => {
            desk.due = with_keepers(alloc, log, client, receipts)?;
            Ok(())
        }
        Err(Stop::StoreFull(stripe)) => {
            free_and_plan(alloc, log, client, call, desk, stays, stripe)
        }
        Err(Stop::OutOfMemory) | Err(Stop::DeviceFault) => Err(Stopped),
    }
}

/// A plan met a full stripe: what can be released there is released, and where that was a place at least, the call is
/// planned again, with what it reads.
fn free_and_plan(
    alloc: Global,
    log: &mut WorldLog,
    client: usize,
    call: &Call,
    desk: &mut Desk,
    stays: &[Option<u64>],
    stripe: usize,
) -> Result<(), Stopped>
    requires log { IsWorldLog log.old }
    requires entry { IsEntry call.now }
    requires place { IsPlaced call.now }
    requires all { first_missing (holders_of log.old.stripes) client (stripes_asked (length (holders_of log.old.stripes)) call.now) ≡ None }
    requires within { stripe < length (holders_of log.old.stripes) }
    requires right { AreRight desk.old.staged }
    requires served { (mid : logs.WorldLog) → HasStepped stays.now log.old mid → AreServed Serves identity mid.device (logs_lent (acts_for mid.stripes client)) }
    ensures { OnOk result (HasEnded client call.now stays.now log.new desk.new log.old stripe desk.old) }
{
    plan_laws();
    let released = log.free_places(alloc, stripe, stays)?;
    if !released {
        desk.plan = Plan::Full;
        return Ok(());
    }
    match plan_with_reads(alloc, log, client, call, &mut desk.staged) {
        Ok(planned) => {
            desk.plan = Plan::Made(planned);
            Ok(())
        }
        Err(Stop::StoreFull(next)) => { free_and_plan(alloc, log, client, call, desk, stays, next) }
        Err(Stop::Cold(_)) => unreachable!(),
        Err(Stop::OutOfMemory) | Err(Stop::DeviceFault) => Err(Stopped),
    }
}

/// Each of these receipts with the stripe that keeps it.
fn with_keepers(
    alloc: Global,
    log: &WorldLog,
    client: usize,
    receipts: Receipts<WorldReceipt>,
) -> Result<Vec<(usize, WorldReceipt)>, Stopped>
    requires log { IsWorldLog log.now }
    requires cold { plans.Each (IsColdIn log.now) receipts }
    ensures kept { IfOk result (λ due. Each (IsReadFor log.now client) due.items) }
    ensures count { IfOk result (λ due. length due.items ≡ length receipts) }
{
    let mut receipts = receipts;
    let mut due = Vec::new(alloc);
    while let Some(wanted) = receipts.pop() {
        let receipt = wanted.receipt;
        let Some(stripe) = log.stripes.keeper_of(client, receipt.place()) else {
            return Err(Stopped);
        };
        let Ok(()) = due.push((stripe, receipt)) else {
            return Err(Stopped);
        };
    }
    Ok(due)
}

/// Plans and installs a call of a client that holds all of its stripes, and that writes nothing and looks no key
/// up in them.
pub(crate) fn run(
    alloc: Global,
    log: &mut WorldLog,
    client: usize,
    call: &Call,
) -> Result<Reply, Stopped>
    requires log { IsWorldLog log.old }
    requires entry { IsEntry call.now }
    requires place { IsPlaced call.now }
    requires all { first_missing (holders_of log.old.stripes) client (stripes_asked (length (holders_of log.old.stripes)) call.now) ≡ None }
    ensures run { IfOk result (λ reply. HasRun log.old client call.now reply log.new) }
{
    log.stripes.act_for(client);
    let staged = Staged::new(alloc);
    let hashed = HashedCall {
        call,
        key: key_of(call),
    };
    let Ok(planned) = plan(alloc, &mut log.stripes, &hashed, &staged, &mut log.device) else {
        return Err(Stopped);
    };
    if !planned.writes.as_slice().is_empty() {
        return Err(Stopped);
    }
    Ok(planned.install(&mut log.stripes, &hashed))
}

/// Installs a plan of a client that holds all stripes of its call.
pub(crate) fn install(log: &mut WorldLog, client: usize, call: &Call, planned: Planned) -> Reply
    requires log { IsWorldLog log.old }
    requires looks { planning.looks_up call.now ≡ true }
    requires all { first_missing (holders_of log.old.stripes) client (stripes_asked (length (holders_of log.old.stripes)) call.now) ≡ None }
    requires room { AreRoomy (length (holders_of log.old.stripes)) (logs_lent (acts_for log.old.stripes client)) planned.writes }
    requires fits { AreFit planned.writes }
    ensures reply { result ≡ planned.reply }
    ensures put { HasPut log.old client call.now planned log.new }
{
    log.stripes.act_for(client);
    let hashed = HashedCall {
        call,
        key: key_of(call),
    };
    planned.install(&mut log.stripes, &hashed)
}

/// Ends the watches that a call ends, whose client holds all of its stripes.
pub(crate) fn end_watches(log: &mut WorldLog, client: usize, call: &Call)
    requires log { IsWorldLog log.old }
    requires all { first_missing (holders_of log.old.stripes) client (stripes_asked (length (holders_of log.old.stripes)) call.now) ≡ None }
    ensures { HasCleared log.old client (keys_ended call.now) log.new }
{
    match call {
        Call::One(_) => log.stripes.act_for(client),
        Call::Watch(_) => log.stripes.act_for(client),
        Call::Exec(_, watching) => forget_watched(log, client, watching),
        Call::Forget(watching) => forget_watched(log, client, watching),
    }
}

/// A client, which holds all stripes of these keys, watches none of them any more.
pub(crate) fn forget_watched(log: &mut WorldLog, client: usize, watching: &Watching)
    requires log { IsWorldLog log.old }
    requires there { AreThere (length (holders_of log.old.stripes)) (lent (acts_for log.old.stripes client)) watching.now }
    ensures { HasCleared log.old client watching.now log.new }
{
    log.stripes.act_for(client);
    forget(&mut log.stripes, watching);
}

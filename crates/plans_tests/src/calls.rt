//! Calls over the stripes of a store: planned, and then installed or undone.

ghost use Rattle.std.specs.Prelude.{◌≡◌, IfOk, IsTrue, true};
ghost use Rattle.words.specs.Bounds.{AreBounded, IsBounded};
ghost use Rattle.words.specs.Commands.{MayBeQueued, touches_keys};
ghost use Rattle.words.specs.History.{MayAllBeQueued};
ghost use Rattle.hybrid.specs.Writing.{AreFit};
ghost use Rattle.transact.specs.Plans.{IsEntry};
ghost use Rattle.shards.specs.Rooms.{AreRoomy};
ghost use Rattle.shards.specs.Shards.{logs_of};
ghost use Rattle.plans.specs.Sizes.{IsPlaced};
ghost use Rattle.plans_tests.specs.Held.{IsFew, count_of, part_at};

use crate::held::Store;
use device::Device;
use hybrid::Staged;
use plans::hashed::{HashedCall, key_of};
use plans::placing::place;
use plans::plan::plan;
use plans::planned::Planned;
use plans::reading::{plan_reading, read_all};
use plans::stop::Stop;
use std::alloc::Global;
use transact::call::Call;
use words::command::Command;
use words::reply::Reply;

/// Whether a command names a key.
fn names_key(command: &Command) -> bool
    ensures touches { result ≡ touches_keys command.now }
    ensures queued { result ≡ true → MayBeQueued command.now }
{
    !matches!(
        command,
        Command::Ping(_) | Command::Echo(_) | Command::Session(_) | Command::Bad(_)
    )
}

/// Whether a command has its place in a history: it names a key, and is within the limits.
fn has_place(command: &Command) -> bool
    ensures { result ≡ true → IsTrue (touches_keys command.now) × MayBeQueued command.now × IsBounded command.now }
{
    names_key(command) && command.is_bounded()
}

/// Whether each of these commands has its place in a history.
fn all_have_place(commands: &[Command]) -> bool
    ensures { result ≡ true → MayAllBeQueued commands.now × AreBounded commands.now }
{
    match commands {
        [] => true,
        [command, others @ ..] => has_place(command) && all_have_place(others),
    }
}

/// Whether a call can be planned: it comes to an entry, and is within the limits.
fn can_be_planned(call: &Call) -> bool
    ensures { result ≡ true → IsEntry call.now × IsPlaced call.now }
{
    match call {
        Call::One(command) => has_place(command),
        Call::Watch(_) => true,
        Call::Exec(commands, _) => all_have_place(commands.as_slice()),
        Call::Forget(_) => false,
    }
}

/// Plans a call: it plans, reads what is wanted, and then reads while it plans.
fn plan_call<D: Device>(
    alloc: Global,
    store: &mut Store<D>,
    call: &HashedCall,
) -> Result<Planned, Stop<D::Receipt>>
    requires few { IsFew store.old.stripes }
    requires entry { IsEntry call.now }
    requires place { IsPlaced call.now }
    ensures room { IfOk result (λ planned. AreRoomy (count_of store.new.stripes) (logs_of (part_at store.new.stripes)) planned.writes) }
    ensures fits { IfOk result (λ planned. AreFit planned.writes) }
    ensures few { IsFew store.new.stripes }
{
    let mut staged = Staged::new(alloc);
    match plan(alloc, &mut store.stripes, call, &staged, &mut store.device) {
        Err(Stop::Cold(receipts)) => read_all(receipts, &mut staged, &mut store.device)?,
        planned => return planned,
    }
    plan_reading(
        alloc,
        &mut store.stripes,
        call,
        &mut staged,
        &mut store.device,
    )
}

/// Runs a call. One that cannot be planned is answered as want of memory.
pub fn submit<D: Device>(
    alloc: Global,
    store: &mut Store<D>,
    seat: u64,
    call: &Call,
) -> Result<Reply, Stop<D::Receipt>> {
    store.stripes.holder = seat;
    if !store.stripes.are_few() || !can_be_planned(call) {
        return Err(Stop::OutOfMemory);
    }
    let hashed = HashedCall {
        call,
        key: key_of(call),
    };
    match plan_call(alloc, store, &hashed) {
        Ok(planned) => Ok(planned.install(&mut store.stripes, &hashed)),
        Err(stop) => Err(stop),
    }
}

/// Runs a call whose writes wait for nothing, in one round with no page staged. `None` for each other call: nothing has changed then.
pub fn submit_placed<D: Device>(
    alloc: Global,
    store: &mut Store<D>,
    seat: u64,
    call: &Call,
) -> Option<Reply> {
    store.stripes.holder = seat;
    if !store.stripes.are_few() || !can_be_planned(call) {
        return None;
    }
    let staged = Staged::new(alloc);
    let hashed = HashedCall {
        call,
        key: key_of(call),
    };
    let placed = place(alloc, &mut store.stripes, &hashed, &staged)?;
    Some(placed.install(&mut store.stripes, &hashed))
}

/// Runs a call in one round with no page staged, and tells its reply, or how many pages it wants.
pub fn submit_once<D: Device>(
    alloc: Global,
    store: &mut Store<D>,
    seat: u64,
    call: &Call,
) -> Result<Reply, usize> {
    store.stripes.holder = seat;
    if !store.stripes.are_few() || !can_be_planned(call) {
        return Err(0);
    }
    let staged = Staged::new(alloc);
    let hashed = HashedCall {
        call,
        key: key_of(call),
    };
    match plan(
        alloc,
        &mut store.stripes,
        &hashed,
        &staged,
        &mut store.device,
    ) {
        Ok(planned) => Ok(planned.install(&mut store.stripes, &hashed)),
        Err(Stop::Cold(receipts)) => Err(receipts.len()),
        Err(_) => Err(0),
    }
}

/// Plans a call, and undoes the plan. It tells whether the plan was made.
pub fn undo<D: Device>(alloc: Global, store: &mut Store<D>, seat: u64, call: &Call) -> bool {
    store.stripes.holder = seat;
    if !store.stripes.are_few() || !can_be_planned(call) {
        return false;
    }
    let staged = Staged::new(alloc);
    let hashed = HashedCall {
        call,
        key: key_of(call),
    };
    match plan(
        alloc,
        &mut store.stripes,
        &hashed,
        &staged,
        &mut store.device,
    ) {
        Ok(planned) => {
            planned.undo(&mut store.stripes);
            true
        }
        Err(_) => false,
    }
}

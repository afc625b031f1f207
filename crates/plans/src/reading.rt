//! Pages that a plan wants are read while the stripes are held.

ghost use Rattle.std.specs.Prelude.{◌≡◌, ◌+◌, ◌≤◌, ⊤, [], ◌∷◌, IfOk, IfErr, OnOk, length};
ghost use Rattle.words.specs.declared.command.Command.TheVariants.{Get};
ghost use Rattle.transact.specs.declared.call.Call.TheVariants.{One};
ghost use Rattle.hybrid.specs.Reading.{HasRead};
ghost use Rattle.hybrid.specs.Staging.{AreRight};
ghost use Rattle.transact.specs.Plans.{keys_begun};
ghost use Rattle.shards.specs.Devices.{IsReadAlone, StillServes};
ghost use Rattle.plans.specs.Planning.{AreDue, AreMade, FoundFull, HasPlanned, HaveFailed, IsFullFor, IsReady, IsStillHeld, IsValueIn};
ghost use Rattle.plans.specs.Planning.{MatchStop, MayLookUp, MayPlan, StillStands, TakesMemory, asks_call, asks_get};
ghost use Rattle.plans.specs.Lacking.{KeepRoom};
ghost use Rattle.plans.specs.Reserving.{LacksRoomToPlan};
ghost use Rattle.plans.specs.Reading.{AfterReads, AreRead, CameOfReads, HasMore, MissesUnread};
ghost use Rattle.plans.specs.Reading.{ReadsRight, ServesEach, StaysRight, StopsUnread};
ghost use Rattle.shards.specs.Receipts.{kept_by};
ghost use Rattle.shards.specs.Rooms.{LeaveFrames};
ghost use Rattle.shards.specs.Shards.{SameLogs, SameWaits, logs_of};
ghost use Rattle.plans.specs.Stops.{IfCold};
ghost use Rattle.plans.specs.Holding.{AreMarkedFor, NeedsMemory};

use crate::hashed::HashedCall;
use crate::plan::plan;
use crate::planned::Planned;
use crate::short::value_of;
use crate::stop::{Receipts, Stop, Wanted};
use device::{Device, Shows};
use gates::Parts;
use hybrid::Staged;
use hybrid::laws::reading_ends;
use shards::shard::Shard;
use std::alloc::Global;
use words::hash::Hashed;
use words::word::Word;

/// What is done about pages that are wanted while stripes are held.
#[derive(Clone, Copy)]
pub enum WhenCold {
    /// They are read meanwhile.
    Reads,
    /// A plan stops that wants some.
    Stops,
}

/// Reads what is wanted of a page, and stages it: a piece with the record, or the whole page if a piece of it was read before. Where the device
/// serves the receipt, what is staged stays right.
///
/// # Errors
///
/// [`Stop::DeviceFault`] where the read failed, [`Stop::OutOfMemory`] where there is no memory for the page.
fn read_one<R: Shows, D: Device<Receipt = R>>(
    wanted: Wanted<R>,
    staged: &mut Staged<R>,
    device: &mut D,
) -> Result<(), Stop<R>>
    ensures staged { OnOk result (HasRead (kept_by R.identity R.shown wanted.receipt) staged.old staged.new) }
    ensures right { D.serves device.old wanted.receipt → AreRight staged.old → AreRight staged.new }
    ensures still_served { (r : R) → D.serves device.old r → D.serves device.new r }
    ensures grows { HasMore staged.old staged.new }
    ensures device { IsReadAlone D.serves D.releases D.writes device.old device.new }
    ensures came { CameOfReads result (D.failures device.old) (D.failures device.new) }
    ensures once { D.reads device.new ≤ D.reads device.old + 1 }
{
    staged.read_at(wanted.receipt, wanted.offset, device)?;
    Ok(())
}

/// Reads what is wanted of the pages of receipts, each once, and stages it. Where the device serves the receipts, what is staged stays right.
///
/// # Errors
///
/// As of one page. Some may have been staged.
pub fn read_all<R: Shows, D: Device<Receipt = R>>(
    receipts: Receipts<R>,
    staged: &mut Staged<R>,
    device: &mut D,
) -> Result<(), Stop<R>>
    ensures staged { OnOk result (AreRead receipts staged.old staged.new) }
    ensures right { ServesEach D.serves R.identity device.old receipts → AreRight staged.old → AreRight staged.new }
    ensures still_served { (r : R) → D.serves device.old r → D.serves device.new r }
    ensures grows { HasMore staged.old staged.new }
    ensures device { IsReadAlone D.serves D.releases D.writes device.old device.new }
    ensures came { CameOfReads result (D.failures device.old) (D.failures device.new) }
    ensures once { D.reads device.new ≤ D.reads device.old + length receipts }
{
    reading_ends();
    let mut receipts = receipts;
    while let Some(wanted) = receipts.pop() {
        read_one(wanted, staged, device)?;
    }
    Ok(())
}

/// A copy of the value of a key. The pages that are wanted for it are read meanwhile, while the stripes are held. It never
/// answers [`Stop::Cold`]. The value is right, where each receipt that is kept of a page of the parts is served by the
/// device, as it is now.
///
/// # Errors
///
/// A [`Stop`]: [`Stop::OutOfMemory`] or [`Stop::DeviceFault`].
pub fn read_value<R: Shows, D: Device<Receipt = R>, P: Parts<Shard<R>>>(
    alloc: Global,
    parts: &mut P,
    key: &Hashed,
    staged: &mut Staged<R>,
    device: &mut D,
) -> Result<Option<Word>, Stop<R>>
    requires may { MayLookUp (P.is_open parts.old) (P.stripes_of parts.old) (P.part_of parts.old) (key.now ∷ []) }
    ensures value { IfOk result (IsValueIn R.is_steady P.stripes_of P.part_of parts.old
        (ReadsRight D.serves R.identity R.is_honest staged.old device.old (P.part_of parts.old)) key.now) }
    ensures right { StaysRight D.serves R.identity device.old (P.part_of parts.old) staged.old staged.new }
    ensures stopped { IfErr result (λ stop. MatchStop stop (λ receipts. ⊤)
        (TakesMemory R.lends (R.is_honest × AreRight staged.old) (P.stripes_of parts.old)
        (asks_get R.is_steady P.stripes_of P.part_of parts.old key.now) staged.old (logs_of (P.part_of parts.old)))
        ⊤ (λ stripe. ⊥)) }
    ensures never_cold { IfErr result (λ stop. IfCold stop (λ receipts. ⊥)) }
    ensures same { P.part_of parts.new ≡ P.part_of parts.old }
    ensures failed { HaveFailed result (D.failures device.old) (D.failures device.new) }
    ensures held { IsStillHeld P.is_open P.keeps parts.old parts.new }
{
    reading_ends();
    loop {
        match value_of(alloc, parts, key, staged) {
            Ok(value) => return Ok(value),
            Err(Stop::Cold(receipts)) => {
                if let Err(stop) = read_all(receipts, staged, device) {
                    return Err(stop);
                }
            }
            Err(stop) => return Err(stop),
        }
    }
}

/// Plans a call, and reads the pages that are wanted for it meanwhile. It never answers [`Stop::Cold`]. The plan
/// is right, where each receipt that is kept of a page of the parts is served by the device, as it is now.
///
/// # Errors
///
/// A [`Stop`]. Values and marks are then as they were.
pub fn plan_reading<R: Shows, D: Device<Receipt = R>, P: Parts<Shard<R>>>(
    alloc: Global,
    parts: &mut P,
    call: &HashedCall,
    staged: &mut Staged<R>,
    device: &mut D,
) -> Result<Planned, Stop<R>>
    requires may { MayPlan (P.is_open parts.old) (P.stripes_of parts.old) (P.part_of parts.old) call.now }
    ensures planned { IfOk result (λ planned. AfterReads D.serves D.releases D.writes device.old
        (λ read. HasPlanned D.wrote (kept_by R.identity R.shown)
        (AreDue (ReadsRight D.serves R.identity R.is_honest staged.old device.old (P.part_of parts.old))
        (asks_call R.is_steady P.stripes_of P.holder_of P.part_of parts.old call.now))
        (P.stripes_of parts.old) (P.part_of parts.old, read) (P.part_of parts.new, device.new) planned)) }
    ensures marks { AreMarkedFor R.is_steady P.stripes_of P.holder_of P.part_of parts.old parts.new (keys_begun call.now) result }
    ensures stopped { IfErr result (λ stop. MatchStop stop (λ receipts. ⊤)
        (TakesMemory R.lends (R.is_honest × AreRight staged.old) (P.stripes_of parts.old)
        (asks_call R.is_steady P.stripes_of P.holder_of P.part_of parts.old call.now) staged.old (logs_of (P.part_of parts.old))
        × SameLogs (P.part_of parts.old) (P.part_of parts.new))
        ⊤
        (λ stripe. AfterReads D.serves D.releases D.writes device.old
        (λ read. FoundFull D.wrote (kept_by R.identity R.shown)
        (AreMade (ReadsRight D.serves R.identity R.is_honest staged.old device.old (P.part_of parts.old))
        (asks_call R.is_steady P.stripes_of P.holder_of P.part_of parts.old call.now))
        (P.stripes_of parts.old) (P.part_of parts.old, read) (P.part_of parts.new, device.new) stripe))) }
    ensures never_cold { IfErr result (λ stop. IfCold stop (λ receipts. ⊥)) }
    ensures pages { HasMore staged.old staged.new
        × StaysRight D.serves R.identity device.old (P.part_of parts.old) staged.old staged.new }
    ensures stands { StillStands (StillServes D.serves D.releases) (P.part_of parts.old, device.old) (P.part_of parts.new, device.new) }
    ensures failed { HaveFailed result (D.failures device.old) (D.failures device.new) }
    ensures held { IsStillHeld P.is_open P.keeps parts.old parts.new }
{
    reading_ends();
    loop {
        match plan(alloc, parts, call, staged, device) {
            Ok(planned) => return Ok(planned),
            Err(Stop::Cold(receipts)) => {
                if let Err(stop) = read_all(receipts, staged, device) {
                    return Err(stop);
                }
            }
            Err(stop) => return Err(stop),
        }
    }
}

/// Plans a call over a steady device. The pages that it wants are read meanwhile, while the stripes are held, or it stops if it
/// wants any.
///
/// # Errors
///
/// A [`Stop`]: [`Stop::Cold`] only where pages may not be read. Values and marks are then as they were.
pub fn plan_staged<R: Shows, D: Device<Receipt = R>, P: Parts<Shard<R>>>(
    alloc: Global,
    parts: &mut P,
    call: &HashedCall,
    staged: &mut Staged<R>,
    cold: WhenCold,
    device: &mut D,
) -> Result<Planned, Stop<R>>
    requires may { MayPlan (P.is_open parts.old) (P.stripes_of parts.old) (P.part_of parts.old) call.now }
    ensures right { R.is_steady → AreRight staged.old → AreRight staged.new }
    ensures ready { IfOk result (IsReady (AreDue (R.is_steady × AreRight staged.old)
        (asks_call R.is_steady P.stripes_of P.holder_of P.part_of parts.old call.now)) (P.stripes_of parts.old) (P.part_of parts.new)) }
    ensures left { IfOk result (λ planned. LeaveFrames (P.stripes_of parts.old) planned.writes
        (logs_of (P.part_of parts.old)) (logs_of (P.part_of parts.new))) }
    ensures lacks { IfErr result (LacksRoomToPlan cold (AreMade (R.is_steady × AreRight staged.old)
        (asks_call R.is_steady P.stripes_of P.holder_of P.part_of parts.old call.now)) (P.stripes_of parts.old)
        (P.part_of parts.old) (P.part_of parts.new)) }
    ensures marks { AreMarkedFor R.is_steady P.stripes_of P.holder_of P.part_of parts.old parts.new (keys_begun call.now) result }
    ensures stopped { IfErr result (λ stop. MatchStop stop
        (λ receipts. StopsUnread cold R.lends (P.part_of parts.old, device.old) (P.part_of parts.new, device.new))
        (NeedsMemory R.is_steady P.stripes_of P.part_of parts.old (R.is_steady × AreRight staged.old) R.lends call.now)
        ⊤
        (IsFullFor (R.is_steady × AreRight staged.old) (asks_call R.is_steady P.stripes_of P.holder_of P.part_of parts.old call.now)
        (P.stripes_of parts.old) (P.part_of parts.new))) }
    ensures waits { SameWaits (P.part_of parts.old) (P.part_of parts.new) }
    ensures rooms { KeepRoom (logs_of (P.part_of parts.old)) (logs_of (P.part_of parts.new)) }
    ensures failed { HaveFailed result (D.failures device.old) (D.failures device.new) }
    ensures held { IsStillHeld P.is_open P.keeps parts.old parts.new }
{
    match cold {
        WhenCold::Reads => plan_reading(alloc, parts, call, staged, device),
        WhenCold::Stops => plan(alloc, parts, call, staged, device),
    }
}

/// A copy of the value of a key, over a steady device. The pages that are wanted for it are read meanwhile, while the stripes
/// are held, or it stops if one is wanted.
///
/// # Errors
///
/// A [`Stop`], but for [`Stop::StoreFull`]; [`Stop::Cold`] only where pages may not be read.
pub fn value_staged<R: Shows, D: Device<Receipt = R>, P: Parts<Shard<R>>>(
    alloc: Global,
    parts: &mut P,
    key: &Hashed,
    staged: &mut Staged<R>,
    cold: WhenCold,
    device: &mut D,
) -> Result<Option<Word>, Stop<R>>
    requires may { MayLookUp (P.is_open parts.old) (P.stripes_of parts.old) (P.part_of parts.old) (key.now ∷ []) }
    ensures right { R.is_steady → AreRight staged.old → AreRight staged.new }
    ensures value { IfOk result (IsValueIn R.is_steady P.stripes_of P.part_of parts.old (R.is_steady × AreRight staged.old) key.now) }
    ensures stopped { IfErr result (λ stop. MatchStop stop (λ receipts. MissesUnread cold R.lends device.old device.new)
        (NeedsMemory R.is_steady P.stripes_of P.part_of parts.old (R.is_steady × AreRight staged.old) R.lends (One (Get key.now)))
        ⊤ (λ stripe. ⊥)) }
    ensures same { P.part_of parts.new ≡ P.part_of parts.old }
    ensures failed { HaveFailed result (D.failures device.old) (D.failures device.new) }
    ensures held { IsStillHeld P.is_open P.keeps parts.old parts.new }
{
    match cold {
        WhenCold::Reads => read_value(alloc, parts, key, staged, device),
        WhenCold::Stops => value_of(alloc, parts, key, staged),
    }
}

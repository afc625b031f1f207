//! The short way of a SET with an option: its key is looked up once, for the condition, the old value and the write.

ghost use Rattle.std.specs.Prelude.{◌≡◌, IfOk, OnErr, Some};
ghost use Rattle.words.specs.Commands.{set_with};
ghost use Rattle.transact.specs.declared.call.Call.TheVariants.{One};
ghost use Rattle.gates.specs.Helds.{held_stripes};
ghost use Rattle.engine.specs.Calls.{promises_of};
ghost use Rattle.engine.specs.Entering.{AreReady, HasEntered, IsPlanned, MayBegin, WasCold, own_answer};
ghost use Rattle.engine.specs.Stops.{HasHeardIn};
ghost use Rattle.plans.specs.declared.reading.WhenCold.TheVariants.{Stops};

use crate::enter::{Entered, enter};
use crate::one::{Does, Doing, enter_settled};
use crate::site::Site;
use device::{Device, Shows};
use gates::{Held, Latch};
use plans::hands::Hands;
use plans::hashed::HashedCall;
use plans::reading::WhenCold;
use plans::settling::settle_set;
use plans::stop::Receipts;
use shards::retires::Retires;
use shards::shard::Shard;
use transact::call::{Answer, Call};
use words::command::{Command, When};
use words::hash::Hashed;
use words::word::Word;

/// Runs a SET with an option over the parts that are held: looks its key up, makes room for what it writes, if it is not written in place,
/// commits its one entry, and copies the value into the page. Where its condition is not met, it writes nothing. Where a page is wanted, or
/// memory, it is planned, as is any other call.
///
/// # Errors
///
/// As [`enter`].
pub(crate) fn enter_set_if<L: Latch, R: Shows, D: Device<Receipt = R>, S: Retires>(
    site: &Site<L, R>,
    held: &mut Held<'_, Shard<R>>,
    device: &mut D,
    hands: &mut Hands<R, S>,
    call: &HashedCall,
    cold: WhenCold,
) -> Result<Entered<Answer>, Receipts<R>>
    requires begin { MayBegin R.is_steady call.now held.old }
    requires hands { AreReady (S.is_of site.now.epochs.now) R.is_steady hands.old }
    requires planned { IsPlanned call.now }
    ensures hands { AreReady (S.is_of site.now.epochs.now) R.is_steady hands.new }
    ensures heard { HasHeardIn own_answer result (S.knows hands.old.own) (S.knows hands.new.own) }
    ensures entered { IfOk result (HasEntered (promises_of R.is_steady R.lends (held_stripes held.old)) call.now own_answer
        (held.old, D.failures device.old) (held.new, D.failures device.new)) }
    ensures cold { OnErr result (WasCold R.is_steady R.lends call.now
        (held.old, D.failures device.old) (held.new, D.failures device.new)) }
    ensures outside { OnErr result (cold ≡ Stops) }
{
    let Call::One(command) = call.call() else {
        return enter(site, held, device, hands, call, cold);
    };
    match command {
        Command::Set(key, value, when) => {
            enter_setting(
                site, held, device, hands, call, key, value, *when, false, cold,
            )
        }
        Command::SetGet(key, value, when) => {
            enter_setting(
                site, held, device, hands, call, key, value, *when, true, cold,
            )
        }
        _ => enter(site, held, device, hands, call, cold),
    }
}

/// Runs a SET of this key and value under this condition, which answers the old value where it gets that, as [`enter_set_if`] does.
///
/// # Errors
///
/// As [`enter`].
fn enter_setting<L: Latch, R: Shows, D: Device<Receipt = R>, S: Retires>(
    site: &Site<L, R>,
    held: &mut Held<'_, Shard<R>>,
    device: &mut D,
    hands: &mut Hands<R, S>,
    call: &HashedCall,
    key: &Word,
    value: &Word,
    when: When,
    gets: bool,
    cold: WhenCold,
) -> Result<Entered<Answer>, Receipts<R>>
    requires is { call.now ≡ One (set_with key.now value.now (Some (when, gets))) }
    requires begin { MayBegin R.is_steady call.now held.old }
    requires hands { AreReady (S.is_of site.now.epochs.now) R.is_steady hands.old }
    requires planned { IsPlanned call.now }
    ensures hands { AreReady (S.is_of site.now.epochs.now) R.is_steady hands.new }
    ensures heard { HasHeardIn own_answer result (S.knows hands.old.own) (S.knows hands.new.own) }
    ensures entered { IfOk result (HasEntered (promises_of R.is_steady R.lends (held_stripes held.old)) call.now own_answer
        (held.old, D.failures device.old) (held.new, D.failures device.new)) }
    ensures cold { OnErr result (WasCold R.is_steady R.lends call.now
        (held.old, D.failures device.old) (held.new, D.failures device.new)) }
    ensures outside { OnErr result (cold ≡ Stops) }
{
    let key = &Hashed::new(key);
    match settle_set(hands.alloc, held, key, value, when, gets, &hands.staged) {
        Some(settled) => {
            let own = &mut hands.own;
            let doing = Doing {
                key,
                value,
                does: Does::Set(when, gets),
            };
            Ok(enter_settled(site, held, device, own, &doing, settled))
        }
        None => enter(site, held, device, hands, call, cold),
    }
}

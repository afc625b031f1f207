//! The evictor's step: a page that has a receipt leaves its frame.

ghost use Rattle.std.specs.Prelude.{◌≡◌, ◌<◌, [], ◌∷◌, IfOk, IfErr};
ghost use Rattle.gates.specs.Passes.{IsResting, WasBusy, known, stripes_of};
ghost use Rattle.gates.specs.declared.view.Work.TheVariants.{Evict};
ghost use Rattle.background.specs.Visits.{Visited, told};

use crate::cells::evict_at;
use device::Shows;
use gates::{Gates, Pass, Report, Work};
use shards::shard::Shard;
use std::sync::Wait;
use transact::call::Busy;

/// Drops the oldest resident page of a stripe from its frame, where it has a receipt, and says whether it did. It waits
/// where another pass holds the stripe. It takes no memory and makes no entry, and no key and no mark changes.
pub fn evict_one<R: Shows, W: Wait>(
    rt: &W,
    gates: &Gates<Shard<R>>,
    pass: &mut Pass<Shard<R>>,
    stripe: usize,
) -> bool
    requires own { IsResting R.is_steady gates.now pass.old }
    requires below { stripe < stripes_of gates.now }
    ensures own { IsResting R.is_steady gates.now pass.new }
    ensures told { Visited (stripe ∷ []) (told Evict stripe result) (known pass.old) (known pass.new) }
{
    let mut held = gates.take_one(rt, pass, stripe);
    if evict_at(&mut held, stripe) {
        held.give(&Report::Done(stripe as u64, Work::Evict));
        true
    } else {
        held.give(&Report::Idle(stripe as u64, Work::Evict));
        false
    }
}

/// The same as [`evict_one`], with one try of the stripe in place of waiting.
///
/// # Errors
///
/// [`Busy`] where the stripe's word was read as another pass's. Nothing was changed then; what the pass has seen may have
/// grown.
pub fn try_evict_one<R: Shows>(
    gates: &Gates<Shard<R>>,
    pass: &mut Pass<Shard<R>>,
    stripe: usize,
) -> Result<bool, Busy>
    requires own { IsResting R.is_steady gates.now pass.old }
    requires below { stripe < stripes_of gates.now }
    ensures own { IsResting R.is_steady gates.now pass.new }
    ensures told { IfOk result (λ done. Visited [] (told Evict stripe done) (known pass.old) (known pass.new)) }
    ensures stripe { IfErr result (λ busy. busy.stripe ≡ stripe) }
    ensures busy { IfErr result (λ busy. WasBusy busy.stripe (known pass.old) (known pass.new)) }
{
    if !gates.try_take_one(pass, stripe) {
        return Err(Busy { stripe });
    }
    let mut held = gates.hold_one(pass, stripe);
    if evict_at(&mut held, stripe) {
        held.give(&Report::Done(stripe as u64, Work::Evict));
        Ok(true)
    } else {
        held.give(&Report::Idle(stripe as u64, Work::Evict));
        Ok(false)
    }
}

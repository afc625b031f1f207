//! The passes of a new engine.

ghost use Rattle.std.specs.Prelude.{◌≡◌, ℕ, All, IfOk, Some, [], vec_len};
ghost use Rattle.gates.specs.Passes.{AreNew};
ghost use Rattle.epoch.specs.Seats.{IsOutside};
ghost use Rattle.epoch.specs.declared.epochs.EpochSeat.{EpochSeat};
ghost use Rattle.plans.specs.declared.hands.Hands.{Hands};
ghost use Rattle.engine.specs.Passes.{AreDealt};

use crate::pass::Pass;
use device::{Device, Shows};
use epoch::{EpochSeat, Epochs};
use gates::Gates;
use hybrid::Staged;
use plans::hands::Hands;
use records::Page;
use shards::shard::Shard;
use std::alloc::Global;
use words::word::OutOfMemory;

/// Gives each pass of the gates one of the openings of the device, in order, and a seat of the epochs.
///
/// # Errors
///
/// [`OutOfMemory`] where there is no memory for the list or a page for each pass.
pub(crate) fn deal<R: Shows, D: Device<Receipt = R>>(
    alloc: Global,
    gates: &Gates<Shard<R>>,
    epochs: &Epochs,
    passes: Vec<gates::Pass<Shard<R>>>,
    seats: Vec<EpochSeat>,
    openings: Vec<D>,
) -> Result<Vec<Pass<D>>, OutOfMemory>
    requires count { vec_len passes ≡ vec_len openings }
    requires seats { vec_len seats ≡ vec_len openings }
    requires new { AreNew R.is_steady gates.now 0 passes.items }
    requires outside { All (IsOutside epochs.now) seats.items }
    ensures { IfOk result (λ dealt. AreDealt R.is_steady gates.now epochs.now 0 dealt.items openings.items) }
{
    // Only the clauses name these.
    let _ = gates;
    let _ = epochs;
    let mut passes = passes;
    let mut seats = seats;
    let mut openings = openings;
    let mut dealt = Vec::with_capacity(alloc, passes.len())?;
    while let Some(gates) = passes.pop() {
        let Some(device) = openings.pop() else {
            unreachable!()
        };
        let Some(seat) = seats.pop() else {
            unreachable!()
        };
        let pass = pass_of(alloc, gates, device, seat)?;
        dealt.insert(0, pass)?;
    }
    Ok(dealt)
}

/// A pass of an engine, with no page staged.
///
/// # Errors
///
/// [`OutOfMemory`] where there is no memory for the page that it reads into.
fn pass_of<R: Shows, D: Device<Receipt = R>>(
    alloc: Global,
    gates: gates::Pass<Shard<R>>,
    device: D,
    seat: EpochSeat,
) -> Result<Pass<D>, OutOfMemory>
    ensures gates { IfOk result (λ pass. pass.gates ≡ gates) }
    ensures device { IfOk result (λ pass. pass.device ≡ device) }
    ensures hands { IfOk result (λ pass. (hands : Hands R EpochSeat) × (pass.hands ≡ Some hands)
        × (hands.own ≡ seat) × (hands.staged ≡ [])) }
{
    let page = Page::blank(alloc)?;
    let hands = Hands {
        alloc,
        staged: Staged::new(alloc),
        own: seat,
    };
    Ok(Pass {
        gates,
        device,
        hands: Some(hands),
        page,
    })
}

//! Looks at a stripe: whether there is work for the evictor and the cleaner.

ghost use Rattle.std.specs.Prelude.{◌≡◌, ◌+◌, ◌<◌, [], ◌∷◌, IsSome};
ghost use Rattle.gates.specs.Background.{IsSeen};
ghost use Rattle.gates.specs.Passes.{IsResting, known, stripes_of};
ghost use Rattle.gates.specs.declared.view.Look.TheVariants.{FewerExpected, FewerFree, HalfUsed, Used};
ghost use Rattle.gates.specs.declared.view.Note.TheVariants.{Seen};
ghost use Rattle.hybrid.specs.declared.stripe.TheConstants.{CALL_PAGES, CLEAN_PAGES};
ghost use Rattle.shards.specs.Shards.{shard_pages};
ghost use Rattle.background.specs.Looks.{Answers};
ghost use Rattle.background.specs.Steps.{IsStillHeld, SeenAt, SteppedAt};
ghost use Rattle.background.specs.Visits.{Visited};

use device::Shows;
use gates::{Gates, Look, Parts, Pass, Report};
use hybrid::{CALL_PAGES, CLEAN_PAGES};
use shards::shard::Shard;
use std::sync::Wait;

/// What is looked at.
#[derive(Clone, Copy, Debug)]
enum Kind {
    /// Whether half of the places are used.
    HalfUsed,
    /// How many are.
    Used,
    /// Whether fewer frames are free than a call can open pages.
    FewerFree,
    /// Whether fewer are free or may be had than values leave.
    FewerExpected,
}

/// Whether at least half of a stripe's places on the device are taken and not released. It waits where another pass holds the
/// stripe.
pub fn is_half_used<R: Shows, W: Wait>(
    rt: &W,
    gates: &Gates<Shard<R>>,
    pass: &mut Pass<Shard<R>>,
    stripe: usize,
) -> bool
    requires own { IsResting R.is_steady gates.now pass.old }
    requires below { stripe < stripes_of gates.now }
    ensures own { IsResting R.is_steady gates.now pass.new }
    ensures told { Visited (stripe ∷ []) (Seen stripe (HalfUsed result) ∷ []) (known pass.old) (known pass.new) }
{
    let Look::HalfUsed(found) = look(rt, gates, pass, stripe, Kind::HalfUsed) else {
        unreachable!()
    };
    found
}

/// How many of a stripe's places on the device are taken and not released. It waits where another pass holds the stripe.
pub fn used_places<R: Shows, W: Wait>(
    rt: &W,
    gates: &Gates<Shard<R>>,
    pass: &mut Pass<Shard<R>>,
    stripe: usize,
) -> usize
    requires own { IsResting R.is_steady gates.now pass.old }
    requires below { stripe < stripes_of gates.now }
    ensures own { IsResting R.is_steady gates.now pass.new }
    ensures told { Visited (stripe ∷ []) (Seen stripe (Used result) ∷ []) (known pass.old) (known pass.new) }
{
    let Look::Used(found) = look(rt, gates, pass, stripe, Kind::Used) else {
        unreachable!()
    };
    found as usize
}

/// Whether fewer frames of a stripe are free than pages that a call can open. It waits where another pass holds the stripe.
pub fn is_short_of_frames<R: Shows, W: Wait>(
    rt: &W,
    gates: &Gates<Shard<R>>,
    pass: &mut Pass<Shard<R>>,
    stripe: usize,
) -> bool
    requires own { IsResting R.is_steady gates.now pass.old }
    requires below { stripe < stripes_of gates.now }
    ensures own { IsResting R.is_steady gates.now pass.new }
    ensures told { Visited (stripe ∷ []) (Seen stripe (FewerFree CALL_PAGES result) ∷ []) (known pass.old) (known pass.new) }
{
    let Look::FewerFree(_count, found) = look(rt, gates, pass, stripe, Kind::FewerFree) else {
        unreachable!()
    };
    found
}

/// Whether fewer frames of a stripe than values leave are free or may be had: a deletion has opened the page that is left for it.
/// It waits where another pass holds the stripe.
pub fn lacks_spare_frames<R: Shows, W: Wait>(
    rt: &W,
    gates: &Gates<Shard<R>>,
    pass: &mut Pass<Shard<R>>,
    stripe: usize,
) -> bool
    requires own { IsResting R.is_steady gates.now pass.old }
    requires below { stripe < stripes_of gates.now }
    ensures own { IsResting R.is_steady gates.now pass.new }
    ensures told { Visited (stripe ∷ []) (Seen stripe (FewerExpected (CLEAN_PAGES + 1) result) ∷ []) (known pass.old) (known pass.new) }
{
    let Look::FewerExpected(_count, found) = look(rt, gates, pass, stripe, Kind::FewerExpected)
    else {
        unreachable!()
    };
    found
}

/// Takes a stripe, looks at it, and gives it back.
fn look<R: Shows, W: Wait>(
    rt: &W,
    gates: &Gates<Shard<R>>,
    pass: &mut Pass<Shard<R>>,
    stripe: usize,
    kind: Kind,
) -> Look
    requires own { IsResting R.is_steady gates.now pass.old }
    requires below { stripe < stripes_of gates.now }
    ensures own { IsResting R.is_steady gates.now pass.new }
    ensures answers { Answers kind result }
    ensures told { Visited (stripe ∷ []) (Seen stripe result ∷ []) (known pass.old) (known pass.new) }
{
    let mut held = gates.take_one(rt, pass, stripe);
    let seen = look_at(&mut held, stripe, kind);
    held.give(&Report::Seen(stripe as u64, seen));
    seen
}

/// Looks at a stripe that is held.
fn look_at<R: Shows, P: Parts<Shard<R>>>(parts: &mut P, stripe: usize, kind: Kind) -> Look
    requires open { P.is_open parts.old }
    requires there { IsSome (P.part_of parts.old stripe) }
    ensures answers { Answers kind result }
    ensures stepped { SteppedAt R.is_steady P.part_of stripe parts.old parts.new (SeenAt result) }
    ensures still { IsStillHeld P.is_open P.keeps parts.old parts.new }
{
    seen_of(parts.part(stripe), kind)
}

/// What is seen of a stripe.
fn seen_of<R: Shows>(part: &Shard<R>, kind: Kind) -> Look
    ensures answers { Answers kind result }
    ensures seen { IsSeen result (shard_pages part.now) }
{
    match kind {
        Kind::HalfUsed => Look::HalfUsed(part.is_half_used()),
        Kind::Used => Look::Used(part.used_places() as u64),
        Kind::FewerFree => Look::FewerFree(CALL_PAGES as u64, part.is_short_of_frames()),
        Kind::FewerExpected => {
            Look::FewerExpected(CLEAN_PAGES as u64 + 1, part.lacks_spare_frames())
        }
    }
}

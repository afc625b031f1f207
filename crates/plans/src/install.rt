//! Writes that are made after a commit.

ghost use Rattle.std.specs.Prelude.{◌∷◌};
ghost use Rattle.hybrid.specs.Log.{Fits};
ghost use Rattle.hybrid.specs.Writing.{AreFit};
ghost use Rattle.shards.specs.declared.shard.Shard.{Shard};
ghost use Rattle.shards.specs.Rooms.{AreRoomy, HaveGrown};
ghost use Rattle.shards.specs.Shards.{SameWaits, logs_of};
ghost use Rattle.plans.specs.Planning.{IsStillHeld};
ghost use Rattle.plans.specs.Holding.{BecomesFirst, BecomesWritten, GrowsFirst};

use crate::cells::write;
use device::Shows;
use gates::Parts;
use hybrid::laws::growth_adds_up;
use shards::shard::Shard;
use strings::writes::{Write, writes_to};
use words::hash::Hashed;

/// Makes a write before these others, or passes it over where one of them is to its key. A key whose hash is known is not hashed.
fn write_before<R: Shows, P: Parts<Shard<R>>>(
    parts: &mut P,
    next: &Write,
    others: &[Write],
    known: Option<&Hashed>,
)
    requires open { P.is_open parts.old }
    requires room { AreRoomy (P.stripes_of parts.old) (logs_of (P.part_of parts.old)) (next.now ∷ others.now) }
    requires fits { Fits next.now.0 next.now.1 }
    ensures room { AreRoomy (P.stripes_of parts.old) (logs_of (P.part_of parts.new)) others.now }
    ensures became { BecomesFirst R.is_steady P.stripes_of P.part_of parts.old parts.new next.now others.now }
    ensures grown { GrowsFirst P.stripes_of P.part_of parts.old parts.new next.now others.now }
    ensures waits { SameWaits (P.part_of parts.old) (P.part_of parts.new) }
    ensures held { IsStillHeld P.is_open P.keeps parts.old parts.new }
{
    growth_adds_up();
    if writes_to(others, next.key()) {
        return;
    }
    write(parts, next, known);
}

/// Makes writes for which there is room, in order. One that a later one hides is passed over. A key whose hash is known is not
/// hashed. It takes no memory.
pub(crate) fn make_writes<R: Shows, P: Parts<Shard<R>>>(
    parts: &mut P,
    writes: &[Write],
    known: Option<&Hashed>,
)
    requires open { P.is_open parts.old }
    requires room { AreRoomy (P.stripes_of parts.old) (logs_of (P.part_of parts.old)) writes.now }
    requires fits { AreFit writes.now }
    ensures became { BecomesWritten R.is_steady P.stripes_of P.part_of parts.old parts.new writes.now }
    ensures grown { HaveGrown (P.stripes_of parts.old) writes.now (logs_of (P.part_of parts.old)) (logs_of (P.part_of parts.new)) }
    ensures waits { SameWaits (P.part_of parts.old) (P.part_of parts.new) }
    ensures held { IsStillHeld P.is_open P.keeps parts.old parts.new }
{
    growth_adds_up();
    let mut left = writes;
    while let Some((first, others)) = left.split_first() {
        write_before(parts, first, others, known);
        left = others;
    }
}

//! A plan that was made, and how it is carried out.

ghost use Rattle.std.specs.Prelude.{◌≡◌};
ghost use Rattle.hybrid.specs.Writing.{AreFit};
ghost use Rattle.transact.specs.Plans.{keys_ended};
ghost use Rattle.transact.specs.Tables.{AreThere, touches_and_clears};
ghost use Rattle.shards.specs.declared.shard.Shard.{Shard};
ghost use Rattle.shards.specs.Rooms.{AreRoomy, HaveGrown};
ghost use Rattle.shards.specs.Shards.{SameLogs, SameWaits, logs_of};
ghost use Rattle.plans.specs.Planning.{IsStillHeld};
ghost use Rattle.plans.specs.Holding.{Becomes, EndsWatches, TakesBack};

use crate::hashed::HashedCall;
use crate::install::make_writes;
use crate::marks::{clear_all, end_watches};
use device::Shows;
use gates::Parts;
use shards::shard::Shard;
use strings::writes::Writes;
use words::command::Keys;
use words::reply::Reply;

/// What a call comes to: its reply, its writes, for which there is room, and the keys that its session began to
/// watch for it. It borrows nothing.
#[derive(Debug, Drop)]
pub struct Planned {
    /// What the call is answered.
    pub reply: Reply,
    /// What it writes.
    pub writes: Writes,
    /// The keys that its session did not watch before, and has watched since the plan.
    pub begun: Keys,
}

impl Planned {
    /// Makes the writes, and touches the marks of all sessions at the keys that are written. Where the call ends
    /// its session's watches, they are ended. It takes no memory, and gives the reply.
    pub fn install<R: Shows, P: Parts<Shard<R>>>(self, parts: &mut P, call: &HashedCall) -> Reply
        requires open { P.is_open parts.old }
        requires room { AreRoomy (P.stripes_of parts.old) (logs_of (P.part_of parts.old)) self.writes }
        requires fits { AreFit self.writes }
        requires there { AreThere (P.stripes_of parts.old) (P.part_of parts.old) (keys_ended call.now) }
        ensures became { Becomes R.is_steady P.stripes_of P.part_of parts.old parts.new self.writes
            (touches_and_clears self.writes (P.holder_of parts.old) (keys_ended call.now)) }
        ensures grown { HaveGrown (P.stripes_of parts.old) self.writes (logs_of (P.part_of parts.old)) (logs_of (P.part_of parts.new)) }
        ensures reply { result ≡ self.reply }
        ensures waits { SameWaits (P.part_of parts.old) (P.part_of parts.new) }
        ensures held { IsStillHeld P.is_open P.keeps parts.old parts.new }
    {
        let Planned {
            reply,
            writes,
            begun: _,
        } = self;
        let asked = call.call();
        make_writes(parts, writes.as_slice(), call.key.as_ref());
        end_watches(parts, asked);
        drop(writes);
        reply
    }

    /// Takes back the marks that were added for the plan. After the plan alone, values and marks are then as
    /// before it. It takes no memory.
    pub fn undo<R: Shows, P: Parts<Shard<R>>>(self, parts: &mut P)
        requires open { P.is_open parts.old }
        requires there { AreThere (P.stripes_of parts.old) (P.part_of parts.old) self.begun }
        ensures became { EndsWatches R.is_steady P.stripes_of P.holder_of P.part_of parts.old parts.new self.begun }
        ensures undone { TakesBack R.is_steady P.stripes_of P.holder_of P.part_of parts.old parts.new self.begun }
        ensures logs { SameLogs (P.part_of parts.old) (P.part_of parts.new) }
        ensures waits { SameWaits (P.part_of parts.old) (P.part_of parts.new) }
        ensures held { IsStillHeld P.is_open P.keeps parts.old parts.new }
    {
        clear_all(parts, self.begun.as_slice());
    }
}

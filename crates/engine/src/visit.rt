//! The visit of a call that reads outside its stripes: a stay of its seat in the epochs, and the pages that it reads in it.

ghost use Rattle.std.specs.Prelude.{◌≡◌, ◌+◌, ◌<◌, [], false, IfErr, IfOk, OnErr, OnOk};
ghost use Rattle.epoch.specs.Seats.{IsInside, IsOutside};
ghost use Rattle.gates.specs.Helds.{gates_of, held_stripes, known_to};
ghost use Rattle.gates.specs.Passes.{IsResting, known};
ghost use Rattle.gates.specs.declared.report.Report.TheVariants.{Nothing};
ghost use Rattle.hybrid.specs.Staging.{AreRight};
ghost use Rattle.plans.specs.Reading.{CameOfReads};
ghost use Rattle.engine.specs.Calls.{promises_of};
ghost use Rattle.engine.specs.Entering.{HasEntered, MayBeGiven, MayBegin, WasCold, given};
ghost use Rattle.engine.specs.Stops.{HasHeardIn};
ghost use Rattle.engine.specs.Visits.{IsVisit};

use crate::enter::Entered;
use crate::rounds::Enters;
use crate::site::Site;
use device::{Device, Shows};
use epoch::{EpochSeat, Epochs, Inside};
use gates::{Held, Latch, Report};
use plans::hands::Hands;
use plans::reading::{WhenCold, read_all};
use plans::stop::{Receipts, Stop};
use shards::shard::Shard;
use std::sync::Wait;

/// How often a call gives its stripes back to read the pages that it wants: a page may lead to another one, and the stripes may
/// change meanwhile. After that it reads while it holds them.
pub(crate) const ROUNDS: usize = 3;

/// The visit of a call: a stay of its seat, and the pages that it has read in it. It begins while the stripes are held of which
/// pages are read first, and goes on until the call is answered. Nobody else has its stay or its pages, and its one way out is its
/// end, which lets the pages go. So no call leaves its stay between two rounds, none reads before it has one, and no page that was
/// read in one stay counts in the next.
pub(crate) struct Visit<R: Shows> {
    hands: Hands<R, Inside>,
    /// How often its call gave its stripes back, and read.
    rounds: usize,
}

impl<R: Shows> Visit<R> {
    ghost use Rattle.epoch.specs.Seats as seats;
    ghost use Rattle.epoch.specs.Seats.{IsOutside, KnowsTheSame};
    ghost use Rattle.engine.specs.Visits.{IsNewVisit, IsVisit, view_of};

    /// Begins a visit by a stay of this seat, in which no page was read yet.
    pub(crate) fn begin<T: Wait>(rt: &T, epochs: &Epochs, hands: Hands<R, EpochSeat>) -> Visit<R>
        requires outside { IsOutside epochs.now hands.own }
        ensures new { IsNewVisit epochs.now result }
        ensures same { KnowsTheSame (seats.known hands.own) (view_of result) }
    {
        let Hands { alloc, staged, own } = hands;
        let mut pages = staged;
        pages.clear();
        let hands = Hands {
            alloc,
            staged: pages,
            own: epochs.enter(rt, own),
        };
        Visit { hands, rounds: 0 }
    }

    /// Enters a call over the stripes that are held, with the pages of the visit. Those that are wanted and not read yet are read
    /// meanwhile in the last round alone.
    ///
    /// # Errors
    ///
    /// Those of [`Enters::enter`].
    pub(crate) fn enter<A, E: Enters<A>, L: Latch, D: Device<Receipt = R>>(
        &mut self,
        call: &E,
        site: &Site<L, R>,
        held: &mut Held<'_, Shard<R>>,
        device: &mut D,
    ) -> Result<Entered<A>, Receipts<R>>
        requires visit { IsVisit R.is_steady site.now.epochs.now self.old }
        requires begin { MayBegin R.is_steady (E.call_of call.now) held.old }
        ensures visit { IsVisit R.is_steady site.now.epochs.now self.new }
        ensures same { self.new.rounds ≡ self.old.rounds }
        ensures heard { HasHeardIn E.says result (view_of self.old) (view_of self.new) }
        ensures entered { IfOk result (HasEntered (promises_of R.is_steady R.lends (held_stripes held.old)) (E.call_of call.now) E.says
            (held.old, D.failures device.old) (held.new, D.failures device.new)) }
        ensures cold { OnErr result (WasCold R.is_steady R.lends (E.call_of call.now)
            (held.old, D.failures device.old) (held.new, D.failures device.new)) }
        ensures more { OnErr result (self.old.rounds < ROUNDS) }
    {
        let cold = if self.rounds < ROUNDS {
            WhenCold::Stops
        } else {
            WhenCold::Reads
        };
        call.enter(site, held, device, &mut self.hands, cold)
    }

    /// Gives all stripes back, and reads the pages of these receipts while nobody waits for them. The stay goes on meanwhile: so no
    /// place of these receipts is used anew before.
    ///
    /// # Errors
    ///
    /// A [`Stop`]: [`Stop::OutOfMemory`] or [`Stop::DeviceFault`]. Some pages may have been read.
    pub(crate) fn read<D: Device<Receipt = R>>(
        &mut self,
        held: Held<'_, Shard<R>>,
        device: &mut D,
        receipts: Receipts<R>,
    ) -> Result<(), Stop<R>>
        requires more { self.old.rounds < ROUNDS }
        requires may { MayBeGiven R.is_steady false Nothing held held }
        requires right { R.is_steady → AreRight self.old.hands.staged }
        ensures rests { IsResting R.is_steady (gates_of held.entry) held.exit.1.0.now }
        ensures known { known held.exit.1.0.now ≡ given false Nothing (known_to held.entry) }
        ensures right { R.is_steady → AreRight self.new.hands.staged }
        ensures same { self.new.hands.own ≡ self.old.hands.own }
        ensures round { self.new.rounds ≡ self.old.rounds + 1 }
        ensures came { CameOfReads result (D.failures device.old) (D.failures device.new) }
    {
        held.give(&Report::Nothing);
        self.rounds += 1;
        read_all(receipts, &mut self.hands.staged, device)
    }

    /// Ends the visit and its stay, and lets its pages go.
    pub(crate) fn end(self, epochs: &Epochs) -> Hands<R, EpochSeat>
        requires stay { IsInside epochs.now self.hands.own }
        ensures outside { IsOutside epochs.now result.own }
        ensures same { KnowsTheSame (view_of self) (seats.known result.own) }
        ensures none { result.staged ≡ [] }
    {
        let Visit { hands, rounds: _ } = self;
        let Hands {
            alloc,
            mut staged,
            own,
        } = hands;
        staged.clear();
        Hands {
            alloc,
            staged,
            own: epochs.leave(own),
        }
    }
}

//! The rounds of a call: it is entered over the stripes that are held, and anew after each read outside, until it is answered.

ghost use Rattle.std.specs.Prelude.{◌≡◌, ◌+◌, IfErr, IfNone, IfOk, IfSome, OnErr, OnOk, OnSome};
ghost use Rattle.gates.specs.Passes.{IsResting, known, stripes_of};
ghost use Rattle.engine.specs.Answers.{IsAnswered};
ghost use Rattle.engine.specs.Calls.{promises_of};
ghost use Rattle.engine.specs.Entering.{AreStripesOf, HasWaited, MaySubmit};
ghost use Rattle.engine.specs.Passes.{HasHands, OfSeat, OfSeats, know};
ghost use Rattle.engine.specs.Stops.{HasHeardWith};
ghost use Rattle.engine.specs.Visits.{IsVisit, view_of};
ghost use Rattle.shards.specs.Heard.{HasHeard};

use crate::enter::{Entered, give_back, told_of};
use crate::site::Site;
use crate::visit::Visit;
use device::{Device, Shows};
use epoch::EpochSeat;
use gates::{Held, Latch, Pass, Refused, Sorted};
use plans::hands::Hands;
use plans::laws::stripes_hold_keys;
use plans::reading::WhenCold;
use plans::stop::Receipts;
use shards::retires::Retires;
use shards::shard::Shard;
use std::sync::Wait;
use words::reply::Fault;

/// A call, and the stripes of its keys.
#[derive(Drop)]
pub(crate) struct Asking<'a, E> {
    pub(crate) call: &'a E,
    pub(crate) wanted: &'a Sorted,
}

/// A call that is entered in each round anew, until one answers it with an `A`.
pub(crate) trait Enters<A> {
    ghost use Rattle.std.specs.Prelude.{◌≡◌, IfOk, OnErr};
    ghost use Rattle.gates.specs.Passes.{IsResting, known, stripes_of};
    ghost use Rattle.gates.specs.Helds.{held_stripes};
    ghost use Rattle.plans.specs.declared.reading.WhenCold.TheVariants.{Stops};
    ghost use Rattle.transact.specs.declared.call.Answer.{Answer};
    ghost use Rattle.transact.specs.declared.call.Answer.TheVariants as answer;
    ghost use Rattle.transact.specs.declared.call.Call.{Call};
    ghost use Rattle.transact.specs.Plans.{EndsAll, IsEntry};
    ghost use Rattle.transact.specs.Submits.{asked_for};
    ghost use Rattle.engine.specs.Calls.{promises_of};
    ghost use Rattle.engine.specs.Entering.{AreReady, AreStripesOf, HasEntered, MayBegin, WasAbandoned, WasCold};
    ghost use Rattle.engine.specs.Stops.{HasHeardIn};

    /// The call that it stands for.
    ghost call_of: { Self → Call };

    /// The answer of a call that an `A` stands for.
    ghost says: { A → Answer };

    /// Does what the call asks, over the stripes that are held. Pages that are wanted and not staged are read meanwhile,
    /// or it stops.
    ///
    /// # Errors
    ///
    /// Copies of the receipts of the pages that are wanted, where they may not be read: nothing has changed then.
    fn enter<L: Latch, R: Shows, D: Device<Receipt = R>, S: Retires>(
        &self,
        site: &Site<L, R>,
        held: &mut Held<'_, Shard<R>>,
        device: &mut D,
        hands: &mut Hands<R, S>,
        cold: WhenCold,
    ) -> Result<Entered<A>, Receipts<R>>
        requires begin { MayBegin R.is_steady (call_of self.now) held.old }
        requires hands { AreReady (S.is_of site.now.epochs.now) R.is_steady hands.old }
        ensures hands { AreReady (S.is_of site.now.epochs.now) R.is_steady hands.new }
        ensures heard { HasHeardIn says result (S.knows hands.old.own) (S.knows hands.new.own) }
        ensures entered { IfOk result (HasEntered (promises_of R.is_steady R.lends (held_stripes held.old)) (call_of self.now) says
            (held.old, D.failures device.old) (held.new, D.failures device.new)) }
        ensures cold { OnErr result (WasCold R.is_steady R.lends (call_of self.now)
            (held.old, D.failures device.old) (held.new, D.failures device.new)) }
        ensures outside { OnErr result (cold ≡ Stops) };

    /// Answers by a fault that came while nothing was held.
    fn fail<T: Wait, L: Latch, R: Shows>(
        &self,
        rt: &T,
        site: &Site<L, R>,
        pass: &mut Pass<Shard<R>>,
        wanted: &Sorted,
        fault: Fault,
    ) -> A
        requires rests { IsResting R.is_steady site.now.gates.now pass.old }
        requires entry { IsEntry (call_of self.now) }
        requires ends { EndsAll (call_of self.now) (known pass.old).watched }
        requires wanted { AreStripesOf (stripes_of site.now.gates.now) (call_of self.now) wanted.now }
        ensures rests { IsResting R.is_steady site.now.gates.now pass.new }
        ensures answer { says result ≡ answer.Fault fault }
        ensures known { WasAbandoned wanted.now (asked_for (call_of self.now)) (known pass.old) (known pass.new) };
}

/// Runs a call of a pass over the gates in rounds, until one answers it. It waits where others hold its stripes. If it wants
/// pages, it gives its stripes back, reads outside and enters anew, at most three times; then it reads while it holds them. From
/// the first page that it wants until the answer it has a stay.
pub(crate) fn run<A, E: Enters<A>, T: Wait, L: Latch, R: Shows, D: Device<Receipt = R>>(
    rt: &T,
    site: &Site<L, R>,
    pass: &mut Pass<Shard<R>>,
    device: &mut D,
    hands: &mut Option<Hands<R, EpochSeat>>,
    asking: &Asking<E>,
) -> A
    requires may { MaySubmit R.is_steady site.now.gates.now (E.call_of asking.now.call.now) pass.old }
    requires hands { HasHands site.now.epochs.now hands.old }
    requires wanted { AreStripesOf (stripes_of site.now.gates.now) (E.call_of asking.now.call.now) asking.now.wanted.now }
    ensures rests { IsResting R.is_steady site.now.gates.now pass.new }
    ensures hands { HasHands site.now.epochs.now hands.new }
    ensures heard { OfSeats (HasHeardWith (known pass.old) (known pass.new)) hands.old hands.new }
    ensures answered { IsAnswered (promises_of R.is_steady R.lends (stripes_of site.now.gates.now)) asking.now.wanted.now
        (E.call_of asking.now.call.now) (E.says result) (know (known pass.old) (D.failures device.old))
        (know (known pass.new) (D.failures device.new)) }
{
    match first_round(rt, site, pass, device, hands, asking) {
        Ok(answer) => answer,
        Err(visit) => {
            let mut visit = visit;
            let answer = later_rounds(rt, site, pass, device, &mut visit, asking);
            *hands = Some(visit.end(site.epochs));
            answer
        }
    }
}

/// The first round: the call in one hold of its stripes. If it wants pages, a visit begins, the stripes are given back, and the
/// pages are read while nobody waits for them.
///
/// # Errors
///
/// The visit, where pages were read and there is no answer yet.
fn first_round<A, E: Enters<A>, T: Wait, L: Latch, R: Shows, D: Device<Receipt = R>>(
    rt: &T,
    site: &Site<L, R>,
    pass: &mut Pass<Shard<R>>,
    device: &mut D,
    hands: &mut Option<Hands<R, EpochSeat>>,
    asking: &Asking<E>,
) -> Result<A, Visit<R>>
    requires may { MaySubmit R.is_steady site.now.gates.now (E.call_of asking.now.call.now) pass.old }
    requires hands { HasHands site.now.epochs.now hands.old }
    requires wanted { AreStripesOf (stripes_of site.now.gates.now) (E.call_of asking.now.call.now) asking.now.wanted.now }
    ensures rests { IsResting R.is_steady site.now.gates.now pass.new }
    ensures hands { OnOk result (HasHands site.now.epochs.now hands.new) }
    ensures heard { OnOk result (OfSeats (HasHeardWith (known pass.old) (known pass.new)) hands.old hands.new) }
    ensures answered { IfOk result (λ answer. IsAnswered (promises_of R.is_steady R.lends (stripes_of site.now.gates.now))
        asking.now.wanted.now (E.call_of asking.now.call.now) (E.says answer) (know (known pass.old) (D.failures device.old))
        (know (known pass.new) (D.failures device.new))) }
    ensures visit { IfErr result (IsVisit R.is_steady site.now.epochs.now) }
    ensures begun { IfErr result (λ visit. OfSeat (λ before. HasHeard before (view_of visit)) hands.old) }
    ensures waited { OnErr result (HasWaited asking.now.wanted.now (known pass.old, D.failures device.old)
        (known pass.new, D.failures device.new)) }
{
    stripes_hold_keys::<R>();
    let gates = site.gates;
    let Some(mut own) = hands.take() else {
        unreachable!()
    };
    let (call, wanted) = (asking.call, asking.wanted);
    let mut held = (&*gates).take(rt, &mut *pass, &*wanted);
    match call.enter(site, &mut held, device, &mut own, WhenCold::Stops) {
        Ok(entered) => {
            own.staged.clear();
            *hands = Some(own);
            let Entered {
                answer,
                ends,
                report,
            } = entered;
            give_back(held, ends, &report);
            Ok(answer)
        }
        Err(receipts) => {
            let mut visit = Visit::begin(rt, site.epochs, own);
            match visit.read(held, device, receipts) {
                Ok(()) => Err(visit),
                Err(stop) => {
                    *hands = Some(visit.end(site.epochs));
                    let fault = told_of(stop, Refused::NONE).fault;
                    Ok(call.fail(rt, site, pass, wanted, fault))
                }
            }
        }
    }
}

/// Runs a call in the rounds after its first one, until one answers it.
fn later_rounds<A, E: Enters<A>, T: Wait, L: Latch, R: Shows, D: Device<Receipt = R>>(
    rt: &T,
    site: &Site<L, R>,
    pass: &mut Pass<Shard<R>>,
    device: &mut D,
    visit: &mut Visit<R>,
    asking: &Asking<E>,
) -> A
    requires may { MaySubmit R.is_steady site.now.gates.now (E.call_of asking.now.call.now) pass.old }
    requires wanted { AreStripesOf (stripes_of site.now.gates.now) (E.call_of asking.now.call.now) asking.now.wanted.now }
    requires visit { IsVisit R.is_steady site.now.epochs.now visit.old }
    ensures visit { IsVisit R.is_steady site.now.epochs.now visit.new }
    ensures heard { HasHeardWith (known pass.old) (known pass.new) (view_of visit.old) (view_of visit.new) }
    ensures rests { IsResting R.is_steady site.now.gates.now pass.new }
    ensures answered { IsAnswered (promises_of R.is_steady R.lends (stripes_of site.now.gates.now)) asking.now.wanted.now
        (E.call_of asking.now.call.now) (E.says result) (know (known pass.old) (D.failures device.old))
        (know (known pass.new) (D.failures device.new)) }
{
    'rounds: loop {
        if let Some(answer) = later_round(rt, site, pass, device, visit, asking) {
            return answer;
        }
    }
}

/// One more round. Pages that are wanted are read while the stripes are held in the last round alone; else outside, and there is
/// no answer yet.
fn later_round<A, E: Enters<A>, T: Wait, L: Latch, R: Shows, D: Device<Receipt = R>>(
    rt: &T,
    site: &Site<L, R>,
    pass: &mut Pass<Shard<R>>,
    device: &mut D,
    visit: &mut Visit<R>,
    asking: &Asking<E>,
) -> Option<A>
    requires may { MaySubmit R.is_steady site.now.gates.now (E.call_of asking.now.call.now) pass.old }
    requires wanted { AreStripesOf (stripes_of site.now.gates.now) (E.call_of asking.now.call.now) asking.now.wanted.now }
    requires visit { IsVisit R.is_steady site.now.epochs.now visit.old }
    ensures visit { IsVisit R.is_steady site.now.epochs.now visit.new }
    ensures heard { HasHeard (view_of visit.old) (view_of visit.new) }
    ensures told { OnSome result (HasHeardWith (known pass.old) (known pass.new) (view_of visit.old) (view_of visit.new)) }
    ensures rests { IsResting R.is_steady site.now.gates.now pass.new }
    ensures answered { IfSome result (λ answer. IsAnswered (promises_of R.is_steady R.lends (stripes_of site.now.gates.now))
        asking.now.wanted.now (E.call_of asking.now.call.now) (E.says answer) (know (known pass.old) (D.failures device.old))
        (know (known pass.new) (D.failures device.new))) }
    ensures waited { IfNone result (HasWaited asking.now.wanted.now (known pass.old, D.failures device.old)
        (known pass.new, D.failures device.new)) }
    ensures round { IfNone result (visit.new.rounds ≡ visit.old.rounds + 1) }
{
    stripes_hold_keys::<R>();
    let gates = site.gates;
    let (call, wanted) = (asking.call, asking.wanted);
    let mut held = (&*gates).take(rt, &mut *pass, &*wanted);
    match visit.enter(call, site, &mut held, device) {
        Ok(entered) => {
            let Entered {
                answer,
                ends,
                report,
            } = entered;
            give_back(held, ends, &report);
            Some(answer)
        }
        Err(receipts) => match visit.read(held, device, receipts) {
            Ok(()) => None,
            Err(stop) => {
                let fault = told_of(stop, Refused::NONE).fault;
                Some(call.fail(rt, site, pass, wanted, fault))
            }
        },
    }
}

//! Any call of a pass over the gates.

ghost use Rattle.std.specs.Prelude.{◌≡◌, ◌<◌, [], IfErr, IfOk};
ghost use Rattle.gates.specs.Sets.{times};
ghost use Rattle.gates.specs.Passes.{IsResting, WasBusy, known, stripes_of};
ghost use Rattle.transact.specs.Plans.{EndsAll, IsEntry};
ghost use Rattle.transact.specs.Submits.{asked_for, stripes_asked};
ghost use Rattle.engine.specs.Answers.{IsAnswered};
ghost use Rattle.engine.specs.Calls.{promises_of};
ghost use Rattle.engine.specs.Entering.{AreStripesOf, MaySubmit, WasAbandoned};
ghost use Rattle.engine.specs.Passes.{HasHands, OfSeats, know};
ghost use Rattle.engine.specs.Stops.{HasHeardWith};

use crate::enter::{Entered, enter_at_once, enter_call, give_back, refuse};
use crate::rounds::{Asking, Enters, run};
use crate::site::Site;
use device::{Device, Shows};
use epoch::EpochSeat;
use gates::{Held, Latch, Pass, Report, Sorted};
use plans::hands::Hands;
use plans::hashed::{HashedCall, key_of};
use plans::laws::stripes_hold_keys;
use plans::reading::WhenCold;
use plans::stop::Receipts;
use shards::retires::Retires;
use shards::shard::Shard;
use std::sync::Wait;
use transact::call::{Answer, Busy, Call};
use words::reply::Fault;

impl Enters<Answer> for HashedCall<'_> {
    ghost use Rattle.transact.specs.declared.call.Call.{Call};
    ghost use Rattle.engine.specs.Entering.{own_answer};

    ghost call_of = { λ (call : Call). call };

    ghost says = { own_answer };

    fn enter<L: Latch, R: Shows, D: Device<Receipt = R>, S: Retires>(
        &self,
        site: &Site<L, R>,
        held: &mut Held<'_, Shard<R>>,
        device: &mut D,
        hands: &mut Hands<R, S>,
        cold: WhenCold,
    ) -> Result<Entered<Answer>, Receipts<R>> {
        enter_call(site, held, device, hands, self, cold)
    }

    fn fail<T: Wait, L: Latch, R: Shows>(
        &self,
        rt: &T,
        site: &Site<L, R>,
        pass: &mut Pass<Shard<R>>,
        wanted: &Sorted,
        fault: Fault,
    ) -> Answer {
        abandon(rt, site, pass, wanted, self, fault)
    }
}

/// Runs a call of a pass over the gates, whole or not at all, and lets it go. It waits where others hold its stripes. Where
/// it wants pages, it gives its stripes back, reads outside and plans anew, at most three times; then it reads while it holds
/// them. The latch is told where the stripes of a call are held whose commit is next.
#[inline(never)]
pub(crate) fn submit<T: Wait, L: Latch, R: Shows, D: Device<Receipt = R>>(
    rt: &T,
    site: &Site<L, R>,
    pass: &mut Pass<Shard<R>>,
    device: &mut D,
    hands: &mut Option<Hands<R, EpochSeat>>,
    call: Call,
) -> Answer
    requires may { MaySubmit R.is_steady site.now.gates.now call pass.old }
    requires hands { HasHands site.now.epochs.now hands.old }
    ensures rests { IsResting R.is_steady site.now.gates.now pass.new }
    ensures hands { HasHands site.now.epochs.now hands.new }
    ensures heard { OfSeats (HasHeardWith (known pass.old) (known pass.new)) hands.old hands.new }
    ensures answered { IsAnswered (promises_of R.is_steady R.lends (stripes_of site.now.gates.now))
        (stripes_asked (stripes_of site.now.gates.now) call) call result
        (know (known pass.old) (D.failures device.old)) (know (known pass.new) (D.failures device.new)) }
{
    let hashed = HashedCall {
        call: &call,
        key: key_of(&call),
    };
    let wanted = hashed.stripes(site.gates.stripes());
    let asking = Asking {
        call: &hashed,
        wanted: &wanted,
    };
    let answer = run(rt, site, pass, device, hands, &asking);
    call.spend();
    answer
}

/// Does a call as [`submit`] does, with one try of each stripe in place of waiting. Where all are free, the
/// pass is told of none that it was another's.
///
/// # Errors
///
/// [`Busy`] with a stripe of the call whose word was read as another pass's, and the call. Nothing is held
/// and nothing was changed then; what the pass has seen may have grown.
pub(crate) fn try_submit<L: Latch, R: Shows, D: Device<Receipt = R>>(
    site: &Site<L, R>,
    pass: &mut Pass<Shard<R>>,
    device: &mut D,
    hands: &mut Option<Hands<R, EpochSeat>>,
    call: Call,
) -> Result<Answer, (Busy, Call)>
    requires may { MaySubmit R.is_steady site.now.gates.now call pass.old }
    requires hands { HasHands site.now.epochs.now hands.old }
    ensures rests { IsResting R.is_steady site.now.gates.now pass.new }
    ensures hands { HasHands site.now.epochs.now hands.new }
    ensures heard { OfSeats (HasHeardWith (known pass.old) (known pass.new)) hands.old hands.new }
    ensures answered { IfOk result (λ answer. IsAnswered (promises_of R.is_steady R.lends (stripes_of site.now.gates.now)) [] call answer
        (know (known pass.old) (D.failures device.old)) (know (known pass.new) (D.failures device.new))) }
    ensures stripe { IfErr result (λ refusal. 0 < times refusal.0.stripe (stripes_asked (stripes_of site.now.gates.now) call)) }
    ensures busy { IfErr result (λ refusal. WasBusy refusal.0.stripe (known pass.old) (known pass.new)) }
    ensures no_call { IfErr result (λ refusal. D.failures device.new ≡ D.failures device.old) }
    ensures back { IfErr result (λ refusal. refusal.1 ≡ call) }
{
    stripes_hold_keys::<R>();
    let gates = site.gates;
    let hashed = HashedCall {
        call: &call,
        key: key_of(&call),
    };
    let wanted = hashed.stripes(gates.stripes());
    match gates.try_take(pass, &wanted) {
        Ok(()) => {
            let Some(mut taken) = hands.take() else {
                unreachable!()
            };
            let mut held = gates.hold(pass, &wanted);
            let Entered {
                answer,
                ends,
                report,
            } = enter_at_once(site, &mut held, device, &mut taken, &hashed);
            taken.staged.clear();
            *hands = Some(taken);
            give_back(held, ends, &report);
            call.spend();
            Ok(answer)
        }
        Err(stripe) => Err((Busy { stripe }, call)),
    }
}

/// Answers a call by a fault that came while it held nothing. The watches of a transaction end all the same, so its stripes
/// are taken once more.
fn abandon<T: Wait, L: Latch, R: Shows>(
    rt: &T,
    site: &Site<L, R>,
    pass: &mut Pass<Shard<R>>,
    wanted: &Sorted,
    call: &HashedCall,
    fault: Fault,
) -> Answer
    requires rests { IsResting R.is_steady site.now.gates.now pass.old }
    requires entry { IsEntry call.now }
    requires ends { EndsAll call.now (known pass.old).watched }
    requires wanted { AreStripesOf (stripes_of site.now.gates.now) call.now wanted.now }
    ensures rests { IsResting R.is_steady site.now.gates.now pass.new }
    ensures answer { result ≡ Answer.Fault fault }
    ensures known { WasAbandoned wanted.now (asked_for call.now) (known pass.old) (known pass.new) }
{
    stripes_hold_keys::<R>();
    let gates = site.gates;
    let mut held = gates.take(rt, pass, wanted);
    let Entered {
        answer,
        ends,
        report,
    } = refuse(&mut held, call, fault, Report::Nothing);
    give_back(held, ends, &report);
    answer
}

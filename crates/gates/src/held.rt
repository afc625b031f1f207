//! Stripes that a pass holds.

ghost use Rattle.std.specs.Prelude.{◌≡◌, ◌+◌, ◌<◌, ◌≤◌, ◌++◌, ◌∷◌, ◌↔◌, [], ℕ, true, false, length};
ghost use Rattle.std.specs.Prelude.{IsTrue, IsFalse, IfOk, IfErr, OnErr, OnOk, IsSome, Some, MatchResult};

use crate::asks::Asks;
use crate::gates::{CommitsWornOut, Gates, Pass};
use crate::order::Order;
use crate::part::{Part, Parts};
use crate::report::Report;
use crate::rule::{Ending, Stay};
use crate::says::Says;
use crate::sorted::Sorted;
use crossbeam_utils::Backoff;
use std::marker::Brand;
use std::sync::Wait;

/// Stripes that a pass holds. It has to be given back, and until then the pass can take nothing else.
pub struct Held<'a, T: Part> {
    pub(crate) gates: &'a Gates<T>,
    pub(crate) pass: &'a mut Pass<T>,
    pub(crate) order: Order,
    pub(crate) committed: bool,
}

impl<T: Part> Gates<T> {
    ghost use Rattle.std.specs.Bool.{OnFalse, OnTrue};
    ghost use Rattle.gates.specs.Sets.{times, AreBelow};
    ghost use Rattle.gates.specs.Passes.{stripes_of, known, parts_in, taken_in, stripes_in, AllFit, IsHolding, IsResting, MayEnd, WasBusy};
    ghost use Rattle.gates.specs.Helds.{HasHeld, HasTaken, IsTakenSince, IsToldNothingSince, MayTake, TookAll, TookOneMore};
    ghost use Rattle.atomic_table.specs.Table.{rest};
    ghost use Rattle.gates.specs.Plays.{kept};
    ghost use Rattle.gates.specs.Background.{notes_of};

    /// Takes a stripe that the pass does not have, and waits where another has it.
    #[inline]
    fn take_stripe<R: Wait>(&self, rt: &R, pass: &mut Pass<T>, stripe: usize)
        requires { MayTake T.meaning self.now stripe pass.old }
        ensures { TookOneMore T.meaning self.now stripe pass.old pass.new }
    {
        let taken = self.try_stripe(pass, stripe);
        if !taken {
            self.wait_stripe(rt, pass, stripe);
        }
    }

    /// Takes a stripe that another pass was seen to have, once that pass has given it back.
    #[cold]
    fn wait_stripe<R: Wait>(&self, rt: &R, pass: &mut Pass<T>, stripe: usize)
        requires { MayTake T.meaning self.now stripe pass.old }
        ensures { TookOneMore T.meaning self.now stripe pass.old pass.new }
    {
        let backoff = Backoff::new();
        for _ in rt.forever() {
            backoff.snooze();
            if self.try_stripe(pass, stripe) {
                return;
            }
        }
        unreachable!()
    }

    /// Gives back the first part, and tells this. The report is for contracts alone.
    #[inline]
    fn give_telling<E: Ending>(&self, pass: &mut Pass<T>, stripe: usize, report: &Report)
        requires told { E.told ≡ notes_of report.now }
        requires holding { IsHolding T.meaning.trusted self.now pass.old }
        requires ends { MayEnd E.ends (stripes_of self.now) (parts_in pass.old) (known pass.old).watched }
        requires first { (part : T) × (parts_in pass.old ≡ (stripe, part) ∷ rest (parts_in pass.old)) }
        requires fit { AllFit T.meaning (stripes_of self.now) (kept E.ends [] (known pass.old)) (taken_in pass.old) (parts_in pass.old) }
        ensures holding { IsHolding T.meaning.trusted self.now pass.new }
        ensures known { known pass.new ≡ kept E.ends (notes_of report.now) (known pass.old) }
        ensures others { parts_in pass.new ≡ rest (parts_in pass.old) }
        ensures fit { AllFit T.meaning (stripes_of self.now) (known pass.new) (taken_in pass.new) (parts_in pass.new) }
    {
        // It is for contracts alone.
        let _ = report;
        self.give_first::<E>(pass, stripe);
    }

    /// Gives back all parts, in this order.
    #[inline]
    fn give_all(&self, pass: &mut Pass<T>, mut order: Order)
        requires holding { IsHolding T.meaning.trusted self.now pass.old }
        requires order { stripes_in pass.old ≡ order }
        requires fit { AllFit T.meaning (stripes_of self.now) (known pass.old) (taken_in pass.old) (parts_in pass.old) }
        ensures resting { IsResting T.meaning.trusted self.now pass.new }
        ensures known { known pass.new ≡ known pass.old }
    {
        while let Some(stripe) = order.first() {
            self.give_first::<Stay>(pass, stripe);
            order.pop();
        }
    }

    /// Takes stripes, in rising order, with one try each. The pass has them then, and [`Gates::hold`] lends them.
    ///
    /// # Errors
    ///
    /// The first stripe whose word was read as another pass's. The pass has none then.
    pub fn try_take(&self, pass: &mut Pass<T>, stripes: &Sorted) -> Result<(), usize>
        requires own { IsResting T.meaning.trusted self.now pass.old }
        requires known { AreBelow (stripes_of self.now) stripes.now }
        ensures ok { OnOk result (TookAll T.meaning self.now stripes.now pass.old pass.new) }
        ensures busy { IfErr result (λ stripe. IsResting T.meaning.trusted self.now pass.new
            × (0 < times stripe stripes.now) × WasBusy stripe (known pass.old) (known pass.new)) }
    {
        stripes.rises();
        let mut left = stripes.again();
        let mut taken = Sorted::none();
        while let Some((stripe, others)) = left.split_first() {
            if !self.try_stripe(pass, stripe) {
                self.give_all(pass, Order::of(taken));
                return Err(stripe);
            }
            taken = taken.with(stripe);
            left = others;
        }
        Ok(())
    }

    /// What the pass has taken, which is these stripes.
    pub fn hold<'a>(&'a self, pass: &'a mut Pass<T>, stripes: &Sorted) -> Held<'a, T>
        requires holding { IsHolding T.meaning.trusted self.now pass.old }
        requires all { stripes_in pass.old ≡ stripes.now }
        ensures held { HasHeld T.meaning.trusted self.now pass.entry result }
        // What was taken with one try each is taken from before the tries on, and the pass was told nothing.
        ensures taken { IsTakenSince T.meaning self.now stripes.now pass.entry result }
        ensures told { IsToldNothingSince T.meaning self.now stripes.now pass.old result }
    {
        let order = Order::of(stripes.again());
        Held {
            gates: self,
            pass,
            order,
            committed: false,
        }
    }

    /// The set of one stripe.
    #[inline]
    fn set_of(&self, stripe: usize) -> Sorted
        requires { stripe < stripes_of self.now }
        ensures { result ≡ stripe ∷ [] }
    {
        // It is below 64, as each stripe is.
        let _stripes = self.stripes();
        Sorted::none().with(stripe)
    }

    /// Takes one stripe with one try, as [`Gates::try_take`] does, and says whether it did. [`Gates::hold_one`] lends it then.
    pub fn try_take_one(&self, pass: &mut Pass<T>, stripe: usize) -> bool
        requires own { IsResting T.meaning.trusted self.now pass.old }
        requires below { stripe < stripes_of self.now }
        ensures taken { OnTrue result (TookAll T.meaning self.now (stripe ∷ []) pass.old pass.new) }
        ensures rests { OnFalse result (IsResting T.meaning.trusted self.now pass.new) }
        ensures busy { OnFalse result (WasBusy stripe (known pass.old) (known pass.new)) }
    {
        let wanted = self.set_of(stripe);
        match self.try_take(pass, &wanted) {
            Ok(()) => true,
            Err(_stripe) => false,
        }
    }

    /// What the pass has taken, which is this stripe.
    pub fn hold_one<'a>(&'a self, pass: &'a mut Pass<T>, stripe: usize) -> Held<'a, T>
        requires holding { IsHolding T.meaning.trusted self.now pass.old }
        requires below { stripe < stripes_of self.now }
        requires all { stripes_in pass.old ≡ stripe ∷ [] }
        ensures held { HasHeld T.meaning.trusted self.now pass.entry result }
        // As of [`Gates::hold`].
        ensures taken { IsTakenSince T.meaning self.now (stripe ∷ []) pass.entry result }
        ensures told { IsToldNothingSince T.meaning self.now (stripe ∷ []) pass.old result }
    {
        let wanted = self.set_of(stripe);
        self.hold(pass, &wanted)
    }

    /// Takes one stripe, as [`Gates::take`] does.
    #[inline]
    pub fn take_one<'a, R: Wait>(
        &'a self,
        rt: &R,
        pass: &'a mut Pass<T>,
        stripe: usize,
    ) -> Held<'a, T>
        requires own { IsResting T.meaning.trusted self.now pass.old }
        requires below { stripe < stripes_of self.now }
        ensures { HasTaken T.meaning self.now (stripe ∷ []) pass.entry result }
    {
        let wanted = self.set_of(stripe);
        self.take(rt, pass, &wanted)
    }

    /// Takes stripes, in rising order, and waits where others hold them.
    #[inline]
    pub fn take<'a, R: Wait>(
        &'a self,
        rt: &R,
        pass: &'a mut Pass<T>,
        stripes: &Sorted,
    ) -> Held<'a, T>
        requires own { IsResting T.meaning.trusted self.now pass.old }
        requires known { AreBelow (stripes_of self.now) stripes.now }
        ensures { HasTaken T.meaning self.now stripes.now pass.entry result }
    {
        stripes.rises();
        let mut left = stripes.again();
        while let Some((stripe, others)) = left.split_first() {
            self.take_stripe(rt, pass, stripe);
            left = others;
        }
        Held {
            gates: self,
            pass,
            order: Order::of(stripes.again()),
            committed: false,
        }
    }
}

impl<'a, T: Part> Held<'a, T> {
    ghost use Rattle.words.specs.History.{HasPlace, due, keys_named, keys_of_pairs};
    ghost use Rattle.gates.specs.Plays.{kept};
    ghost use Rattle.gates.specs.Background.{IsToldOf, notes_of};
    ghost use Rattle.gates.specs.Passes.{stripes_of, known, AllFit, IsResting, KeysHeld};
    ghost use Rattle.gates.specs.Helds.{IsOpen, held_parts, held_taken, gates_of, known_to, number_of};
    ghost use Rattle.gates.specs.Helds.{operation_asked, has_committed, HasCommitted};

    /// Commits one entry of the pass, what a call asks and what it is answered, and says its position in
    /// the history. A transaction goes by all that the pass watches. The reply has to be the one that is
    /// due behind all that the pass has seen, and the keys to be of held stripes. The call and the reply
    /// are for the proof alone.
    ///
    /// # Errors
    ///
    /// [`CommitsWornOut`] where the commit word was read at 2^62 or more. Nothing was committed.
    #[inline]
    pub fn commit<C: Asks, S: Says>(&mut self, call: &C, reply: &S) -> Result<u64, CommitsWornOut>
        requires open { IsOpen T.meaning.trusted self.old }
        requires once { has_committed self.old ≡ false }
        requires place { HasPlace (operation_asked self.old (C.asked call.now)) }
        requires due { T.meaning.trusted → S.said reply.now ≡ due (known_to self.old).seen (operation_asked self.old (C.asked call.now)) }
        requires keys { KeysHeld (stripes_of (gates_of self.old)) (held_parts self.old)
            (keys_named (operation_asked self.old (C.asked call.now))) }
        ensures { HasCommitted T.meaning.trusted self.old
            (operation_asked self.old (C.asked call.now)) (S.said reply.now) self.new result }
    {
        let place = self
            .gates
            .commit_as::<Brand, C, S>(&mut *self.pass, call, reply)?;
        self.committed = true;
        Ok(place)
    }

    /// The number of the pass.
    pub fn number(&self) -> u64
        ensures { result ≡ number_of self.now }
    {
        self.pass.number
    }

    /// Gives all stripes back. Each part has to fit: it reads as its part of what the history leaves
    /// that the pass has seen, its marks say which of the pass's watched keys were written in it, and for
    /// others they are as they were taken, touched at the keys that were written since. The report has to
    /// be true of the parts as they were taken and as they are given; it becomes a note of the pass.
    #[inline]
    pub fn give(self, report: &Report)
        requires open { IsOpen T.meaning.trusted self }
        requires told { IsToldOf T.meaning (held_taken self) (held_parts self) report.now }
        requires fit { AllFit T.meaning (stripes_of (gates_of self)) (known_to self) (held_taken self) (held_parts self) }
        ensures pass { IsResting T.meaning.trusted (gates_of self.entry) self.exit.1.0.now }
        ensures known { known self.exit.1.0.now ≡ kept false (notes_of report.now) (known_to self.entry) }
    {
        let Held {
            gates,
            pass,
            mut order,
            committed: _,
        } = self;
        let Some(stripe) = order.first() else {
            gates.give_all(pass, order);
            return;
        };
        gates.give_telling::<Brand>(pass, stripe, report);
        order.pop();
        gates.give_all(pass, order);
    }

    /// Gives all stripes back, as [`Held::give`] does, and the pass watches nothing more. The stripes of
    /// all watched keys have to be held, and no part to have marks of the pass.
    #[inline]
    pub fn forget(self, report: &Report)
        requires open { IsOpen T.meaning.trusted self }
        requires told { IsToldOf T.meaning (held_taken self) (held_parts self) report.now }
        requires keys { KeysHeld (stripes_of (gates_of self)) (held_parts self) (keys_of_pairs (known_to self).watched) }
        requires fit { AllFit T.meaning (stripes_of (gates_of self)) (kept true [] (known_to self)) (held_taken self) (held_parts self) }
        ensures pass { IsResting T.meaning.trusted (gates_of self.entry) self.exit.1.0.now }
        ensures known { known self.exit.1.0.now ≡ kept true (notes_of report.now) (known_to self.entry) }
    {
        let Held {
            gates,
            pass,
            mut order,
            committed: _,
        } = self;
        let Some(first) = order.first() else {
            gates.give_all(pass, order);
            return;
        };
        gates.give_telling::<Brand>(pass, first, report);
        order.pop();
        gates.give_all(pass, order);
    }
}

impl<'a, T: Part> Held<'a, T> {
    ghost use Rattle.std.specs.Borrow.{sem, Lends};
    ghost use mir.Syntax.{named};
    ghost use Rattle.gates.specs.contracts.held.Held.{the_row};
    ghost use Rattle.gates.specs.Sets.{part_at};
    ghost use Rattle.gates.specs.Helds.{IsOpen, held_parts};
    ghost use Rattle.gates.specs.Lending.{brought, held_with, with_part};

    /// Turns the seat round until this stripe's part is in front.
    fn bring(&mut self, stripe: usize)
        requires open { IsOpen T.meaning.trusted self.old }
        requires there { IsSome (part_at (held_parts self.old) stripe) }
        ensures { self.new ≡ held_with self.old (brought stripe (held_parts self.old)) }
    {
        while let Some(first) = self.order.first() {
            if first == stripe {
                break;
            }
            self.order.turn();
            self.pass.seat.turn();
        }
    }

    /// Lends the part of a stripe.
    fn lend(&mut self, stripe: usize) -> &mut T
        requires open { IsOpen T.meaning.trusted self.old }
        requires there { IsSome (part_at (held_parts self.old) stripe) }
        ensures* writes_back { sem 𝓛 (Lends (the_row (record { mir = named 1; lft = [] }) T.row T.Part) T.row
            self.entry result (with_part self.old stripe)) }
        ensures value { part_at (held_parts self.old) stripe ≡ Some result.now }
    {
        self.bring(stripe);
        let shared = &self.gates.table.shared;
        let pass = &mut *self.pass;
        let seat = &mut pass.seat;
        seat.slot_mut(shared, stripe)
    }
}

impl<'a, T: Part> Parts<T> for Held<'a, T> {
    ghost use Rattle.gates.specs.Sets.{part_at};
    ghost use Rattle.gates.specs.Helds.{IsOpen, held_parts, held_stripes, number_of};
    ghost use Rattle.gates.specs.Helds.{SameHold, same_as_it, same_by_both, few_held, stripes_stay, holder_stays};
    ghost use Rattle.gates.specs.Lending as lending;

    ghost stripes_of = { held_stripes };

    ghost holder_of = { number_of };

    ghost part_of = { λ held stripe. part_at (held_parts held) stripe };

    ghost with_part = { lending.with_part };

    ghost is_open = { IsOpen T.meaning.trusted };

    ghost keeps = { SameHold };

    fn stripes(&self) -> usize {
        self.gates.stripes()
    }

    fn holder(&self) -> u64 {
        self.pass.number
    }

    ghost are_few = { few_held };

    ghost same_stripes = { stripes_stay };

    ghost same_holder = { holder_stays };

    ghost keeps_same = { same_as_it };

    ghost keeps_both = { same_by_both };

    fn part(&mut self, stripe: usize) -> &mut T {
        self.lend(stripe)
    }

    fn only(&self) -> Option<usize> {
        self.order.only()
    }
}

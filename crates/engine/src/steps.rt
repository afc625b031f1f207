//! The steps of the threads that work in the background: at one stripe each, by a pass, which is told what a step came to.
//! None makes an entry in the history, and no key and no mark changes.

ghost use Rattle.std.specs.Prelude.{◌≡◌, ◌+◌, ◌<◌, [], ◌∷◌, IfErr, IfOk};
ghost use Rattle.gates.specs.declared.view.Look.TheVariants.{FewerExpected, FewerFree, HalfUsed, Used};
ghost use Rattle.gates.specs.declared.view.Note.TheVariants as note;
ghost use Rattle.hybrid.specs.declared.stripe.TheConstants.{CALL_PAGES, CLEAN_PAGES};
ghost use Rattle.background.specs.Visits.{HasWritten};
ghost use Rattle.engine.specs.Passes.{Rests, stripe_count};
ghost use Rattle.engine.specs.Steps.{CleanedBy, EvictedBy, FlushedBy, FoundBusyBy, VisitedBy};

use crate::{Engine, Pass};
use background::at::At;
use background::clean::{clean_one, try_clean_one};
use background::evict::{evict_one, try_evict_one};
use background::flush::{flush_one, try_flush_one};
use background::look::{is_half_used, is_short_of_frames, lacks_spare_frames, used_places};
use device::Device;
use plans::hands::Hands;
use std::sync::Wait;
use transact::call::Busy;
use words::reply::Fault;

impl<D: Device> Engine<D> {
    /// How many stripes the store has.
    pub fn stripes(&self) -> usize
        ensures { result ≡ stripe_count self.now }
    {
        self.gates.stripes()
    }

    /// The flusher's step at a stripe: its oldest read-only page without a receipt is written to the device while nobody
    /// waits for the stripe, and its receipt is kept. Where no place may be taken, each place of the stripe that can be released is
    /// released first. False where no page waits for that. It may wait for calls of other passes.
    ///
    /// # Errors
    ///
    /// [`Fault::DeviceFault`] where the write failed, [`Fault::StoreFull`] where no place may be taken for the page, and none can be
    /// released.
    pub fn flush_one<T: Wait>(
        &self,
        rt: &T,
        pass: &mut Pass<D>,
        stripe: usize,
    ) -> Result<bool, Fault>
        requires rests { Rests D.Receipt.is_steady self.now pass.old }
        requires below { stripe < stripe_count self.now }
        ensures rests { Rests D.Receipt.is_steady self.now pass.new }
        ensures flushed { FlushedBy D.failures (stripe ∷ []) stripe result pass.old pass.new }
        ensures writes { HasWritten result (D.writes pass.old.device) (D.writes pass.new.device) }
    {
        let Some(mut hands) = pass.hands.take() else {
            unreachable!()
        };
        let at = At {
            gates: &self.gates,
            epochs: &self.epochs,
            stripe,
        };
        let result = flush_one(
            rt,
            &at,
            &mut pass.gates,
            &mut pass.device,
            &mut hands.own,
            &mut pass.page,
        );
        pass.hands = Some(hands);
        result
    }

    /// The same as [`flush_one`](Engine::flush_one) without waiting. The page is written while the stripe is held.
    ///
    /// # Errors
    ///
    /// [`Busy`] where the stripe's word was read as another pass's: nothing was changed then. Else the faults of `flush_one`.
    pub fn try_flush_one(
        &self,
        pass: &mut Pass<D>,
        stripe: usize,
    ) -> Result<Result<bool, Fault>, Busy>
        requires rests { Rests D.Receipt.is_steady self.now pass.old }
        requires below { stripe < stripe_count self.now }
        ensures rests { Rests D.Receipt.is_steady self.now pass.new }
        ensures flushed { IfOk result (λ done. FlushedBy D.failures [] stripe done pass.old pass.new) }
        ensures writes { IfOk result (λ done. HasWritten done (D.writes pass.old.device) (D.writes pass.new.device)) }
        ensures busy { IfErr result (λ busy. (busy.stripe ≡ stripe) × FoundBusyBy stripe pass.old pass.new) }
        ensures not_asked { IfErr result (λ busy. pass.new.device ≡ pass.old.device) }
    {
        let Some(mut hands) = pass.hands.take() else {
            unreachable!()
        };
        let at = At {
            gates: &self.gates,
            epochs: &self.epochs,
            stripe,
        };
        let result = try_flush_one(
            &at,
            &mut pass.gates,
            &mut pass.device,
            &mut hands.own,
            &mut pass.page,
        );
        pass.hands = Some(hands);
        result
    }

    /// The evictor's step at a stripe: its oldest resident page leaves its frame, where its receipt is kept; false where none
    /// is. It may wait for calls of other passes. It has no fault.
    ///
    /// # Errors
    ///
    /// None.
    pub fn evict_one<T: Wait>(
        &self,
        rt: &T,
        pass: &mut Pass<D>,
        stripe: usize,
    ) -> Result<bool, Fault>
        requires rests { Rests D.Receipt.is_steady self.now pass.old }
        requires below { stripe < stripe_count self.now }
        ensures rests { Rests D.Receipt.is_steady self.now pass.new }
        ensures evicted { EvictedBy (stripe ∷ []) stripe result pass.old pass.new }
        ensures device { pass.new.device ≡ pass.old.device }
    {
        Ok(evict_one(rt, &self.gates, &mut pass.gates, stripe))
    }

    /// The same as [`evict_one`](Engine::evict_one) without waiting.
    ///
    /// # Errors
    ///
    /// [`Busy`] where the stripe's word was read as another pass's: nothing was changed then.
    pub fn try_evict_one(
        &self,
        pass: &mut Pass<D>,
        stripe: usize,
    ) -> Result<Result<bool, Fault>, Busy>
        requires rests { Rests D.Receipt.is_steady self.now pass.old }
        requires below { stripe < stripe_count self.now }
        ensures rests { Rests D.Receipt.is_steady self.now pass.new }
        ensures evicted { IfOk result (λ step. EvictedBy [] stripe step pass.old pass.new) }
        ensures busy { IfErr result (λ busy. (busy.stripe ≡ stripe) × FoundBusyBy stripe pass.old pass.new) }
        ensures device { pass.new.device ≡ pass.old.device }
    {
        match try_evict_one(&self.gates, &mut pass.gates, stripe) {
            Ok(done) => Ok(Ok(done)),
            Err(busy) => Err(busy),
        }
    }

    /// The cleaner's step at a stripe, the first of these that can be done: the oldest drained place is released, the oldest
    /// retired one is drained, the oldest unlinked one is retired, or the oldest page leaves the log, once its live records
    /// were copied to the tail. False where nothing can be done. It may wait for calls of other passes.
    ///
    /// # Errors
    ///
    /// [`Fault::OutOfMemory`] where there is no memory for a page that is read, so not where receipts lend their pages;
    /// [`Fault::DeviceFault`] where a call of the device failed; [`Fault::StoreFull`] where what lives in the oldest page has no
    /// room, and no place can be released.
    pub fn clean_one<T: Wait>(
        &self,
        rt: &T,
        pass: &mut Pass<D>,
        stripe: usize,
    ) -> Result<bool, Fault>
        requires rests { Rests D.Receipt.is_steady self.now pass.old }
        requires below { stripe < stripe_count self.now }
        ensures rests { Rests D.Receipt.is_steady self.now pass.new }
        ensures cleaned { CleanedBy D.Receipt.lends D.failures (stripe ∷ []) stripe result pass.old pass.new }
    {
        let Some(hands) = pass.hands.take() else {
            unreachable!()
        };
        let Hands {
            alloc,
            mut staged,
            own,
        } = hands;
        let at = At {
            gates: &self.gates,
            epochs: &self.epochs,
            stripe,
        };
        let (result, own) = clean_one(rt, &at, &mut pass.gates, &mut pass.device, own, &mut staged);
        staged.clear();
        pass.hands = Some(Hands { alloc, staged, own });
        result
    }

    /// The same as [`clean_one`](Engine::clean_one) without waiting. Pages that are wanted are read while the stripe is held.
    ///
    /// # Errors
    ///
    /// [`Busy`] where the stripe's word was read as another pass's: nothing was changed then. Else the faults of `clean_one`.
    pub fn try_clean_one(
        &self,
        pass: &mut Pass<D>,
        stripe: usize,
    ) -> Result<Result<bool, Fault>, Busy>
        requires rests { Rests D.Receipt.is_steady self.now pass.old }
        requires below { stripe < stripe_count self.now }
        ensures rests { Rests D.Receipt.is_steady self.now pass.new }
        ensures cleaned { IfOk result (λ done. CleanedBy D.Receipt.lends D.failures [] stripe done pass.old pass.new) }
        ensures busy { IfErr result (λ busy. (busy.stripe ≡ stripe) × FoundBusyBy stripe pass.old pass.new) }
        ensures not_asked { IfErr result (λ busy. pass.new.device ≡ pass.old.device) }
    {
        let Some(hands) = pass.hands.take() else {
            unreachable!()
        };
        let Hands {
            alloc,
            mut staged,
            mut own,
        } = hands;
        let at = At {
            gates: &self.gates,
            epochs: &self.epochs,
            stripe,
        };
        let result = try_clean_one(
            &at,
            &mut pass.gates,
            &mut pass.device,
            &mut own,
            &mut staged,
        );
        staged.clear();
        pass.hands = Some(Hands { alloc, staged, own });
        result
    }

    /// Whether at least half of a stripe's places on the device are taken and not released: the cleaner works there. It may
    /// wait for calls of other passes.
    pub fn half_used<T: Wait>(&self, rt: &T, pass: &mut Pass<D>, stripe: usize) -> bool
        requires rests { Rests D.Receipt.is_steady self.now pass.old }
        requires below { stripe < stripe_count self.now }
        ensures rests { Rests D.Receipt.is_steady self.now pass.new }
        ensures told { VisitedBy (stripe ∷ []) (note.Seen stripe (HalfUsed result) ∷ []) pass.old pass.new }
        ensures device { pass.new.device ≡ pass.old.device }
    {
        is_half_used(rt, &self.gates, &mut pass.gates, stripe)
    }

    /// How many of a stripe's places on the device are taken and not released. It may wait for calls of other passes.
    pub fn used_places<T: Wait>(&self, rt: &T, pass: &mut Pass<D>, stripe: usize) -> usize
        requires rests { Rests D.Receipt.is_steady self.now pass.old }
        requires below { stripe < stripe_count self.now }
        ensures rests { Rests D.Receipt.is_steady self.now pass.new }
        ensures told { VisitedBy (stripe ∷ []) (note.Seen stripe (Used result) ∷ []) pass.old pass.new }
        ensures device { pass.new.device ≡ pass.old.device }
    {
        used_places(rt, &self.gates, &mut pass.gates, stripe)
    }

    /// Whether fewer frames of a stripe are free than pages that a call can open: the evictor works there. It may wait for
    /// calls of other passes.
    pub fn short_of_frames<T: Wait>(&self, rt: &T, pass: &mut Pass<D>, stripe: usize) -> bool
        requires rests { Rests D.Receipt.is_steady self.now pass.old }
        requires below { stripe < stripe_count self.now }
        ensures rests { Rests D.Receipt.is_steady self.now pass.new }
        ensures told { VisitedBy (stripe ∷ []) (note.Seen stripe (FewerFree CALL_PAGES result) ∷ []) pass.old pass.new }
        ensures device { pass.new.device ≡ pass.old.device }
    {
        is_short_of_frames(rt, &self.gates, &mut pass.gates, stripe)
    }

    /// Whether fewer frames of a stripe than values leave are free or may be had: a deletion has opened the page that is left
    /// for it, and the next that wants one finds none before a page is cleaned. It may wait for calls of other passes.
    pub fn lacks_spare_frames<T: Wait>(&self, rt: &T, pass: &mut Pass<D>, stripe: usize) -> bool
        requires rests { Rests D.Receipt.is_steady self.now pass.old }
        requires below { stripe < stripe_count self.now }
        ensures rests { Rests D.Receipt.is_steady self.now pass.new }
        ensures told { VisitedBy (stripe ∷ []) (note.Seen stripe (FewerExpected (CLEAN_PAGES + 1) result) ∷ []) pass.old pass.new }
        ensures device { pass.new.device ≡ pass.old.device }
    {
        lacks_spare_frames(rt, &self.gates, &mut pass.gates, stripe)
    }
}

//! The stripes of the world: what each stores, on its log, and who holds it.

ghost use Rattle.std.specs.Prelude.{◌≡◌, ◌<◌, [], IfOk, IfSome, Some, None, length, replicate, get_or, is_none, ℕ, IfNone, IsFalse, IsTrue};
ghost use Rattle.gates.specs.Sets.{AreBelow};
ghost use Rattle.transact.specs.Submits.{stripes_asked};
ghost use Rattle.transact.specs.Plans.{stripes_with};
ghost use Rattle.world_model.specs.Enabled.{first_missing, holds, holds_none};
ghost use Rattle.world_log.specs.Lanes.{AreNewLanes};
ghost use Rattle.world_log.specs.Stripes.{IsEven, IsKeeper, acts_for, holders_of, with_holder};

use crate::lanes::Lane;
use crate::shelves::WorldReceipt;
use crate::stopped::Stopped;
use gates::{Parts, Sorted};
use shards::shard::Shard;
use std::alloc::Global;
use transact::call::{Call, Watching};
use transact::stripes::{keys_of, stripes_of_keys};
use words::limits::Limits;

/// What each stripe stores, on its log; the client that holds it, if one does; and the client that acts, to
/// which the parts are lent of the stripes that it holds, and no others.
#[derive(Drop)]
pub struct Stripes<S> {
    pub(crate) lanes: Vec<Lane<S>>,
    pub(crate) holders: Vec<Option<usize>>,
    pub(crate) acting: usize,
}

impl<S> Parts<S> for Stripes<S> {
    ghost use Rattle.world_log.specs.Stripes.{acting_in, count_in, lent, with_part, IsFew, KeepsLanes};
    ghost use Rattle.world_log.specs.KeepLaws.{count_stays, actor_stays, keeps_itself, keeps_both};

    ghost stripes_of = { count_in };

    ghost holder_of = { acting_in };

    ghost part_of = { lent };

    ghost with_part = { with_part };

    ghost is_open = { IsFew };

    ghost keeps = { KeepsLanes };

    fn stripes(&self) -> usize {
        self.holders.len()
    }

    fn holder(&self) -> u64 {
        self.acting as u64
    }

    ghost are_few = { λ stripes few. few };

    ghost same_stripes = { count_stays };

    ghost same_holder = { actor_stays };

    ghost keeps_same = { keeps_itself };

    ghost keeps_both = { keeps_both };

    fn part(&mut self, stripe: usize) -> &mut S {
        let lane = &mut self.lanes[stripe];
        &mut lane.shard
    }

    fn only(&self) -> Option<usize> {
        None
    }
}

impl Stripes<Shard<WorldReceipt>> {
    /// Stripes that store nothing and that nobody holds.
    pub(crate) fn new(
        alloc: Global,
        limits: &Limits,
    ) -> Result<Stripes<Shard<WorldReceipt>>, Stopped>
        ensures lanes { IfOk result (λ made. AreNewLanes limits.now.stripes limits.now.frames limits.now.places made.lanes.items) }
        ensures holders { IfOk result (λ made. holders_of made ≡ replicate limits.now.stripes None) }
    {
        let lanes = new_lanes(alloc, limits)?;
        let Ok(holders) = vec![in alloc; None; limits.stripes] else {
            return Err(Stopped);
        };
        Ok(Stripes {
            lanes,
            holders,
            acting: 0,
        })
    }

    /// How many there are.
    pub fn count(&self) -> usize
        ensures { result ≡ length (holders_of self.now) }
    {
        self.holders.len()
    }

    /// From now on this client acts.
    pub fn act_for(&mut self, client: usize)
        ensures { self.new ≡ acts_for self.old client }
    {
        self.acting = client;
    }

    /// Whether a client holds none of them.
    pub fn has_none_of(&self, client: usize) -> bool
        ensures { result ≡ holds_none client (holders_of self.now) }
    {
        holds_nothing(client, self.holders.as_slice())
    }

    /// Whether a client holds a stripe.
    pub fn is_held_by(&self, client: usize, stripe: usize) -> bool
        ensures { result ≡ holds (holders_of self.now) client stripe }
    {
        match self.holders.get(stripe) {
            Some(holder) => *holder == Some(client),
            None => false,
        }
    }

    /// Whether nobody holds a stripe.
    pub fn is_free(&self, stripe: usize) -> bool
        ensures { result ≡ is_none (get_or (holders_of self.now) stripe None) }
    {
        match self.holders.get(stripe) {
            Some(holder) => holder.is_none(),
            None => true,
        }
    }

    /// A client takes a stripe.
    pub fn take(&mut self, stripe: usize, client: usize)
        requires within { stripe < length (holders_of self.old) }
        ensures { self.new ≡ with_holder self.old stripe (Some client) }
    {
        self.holders[stripe] = Some(client);
    }

    /// A stripe is given back.
    pub fn give(&mut self, stripe: usize)
        requires within { stripe < length (holders_of self.old) }
        ensures { self.new ≡ with_holder self.old stripe None }
    {
        self.holders[stripe] = None;
    }

    /// A stripe that a client holds, whose log keeps a receipt of this place for a page that is not resident.
    pub fn keeper_of(&self, client: usize, place: u64) -> Option<usize>
        ensures kept { IfSome result (IsKeeper self.now client place) }
        ensures none { IfNone result ((stripe : ℕ) → IsKeeper self.now client place stripe → ⊥) }
    {
        for stripe in 0..self.lanes.len() {
            if self.is_keeper(client, place, stripe) {
                return Some(stripe);
            }
        }
        None
    }

    /// Whether this is such a stripe.
    fn is_keeper(&self, client: usize, place: u64, stripe: usize) -> bool
        requires within { stripe < length self.now.lanes.items }
        ensures kept { IsTrue result → IsKeeper self.now client place stripe }
        ensures other { IsFalse result → IsKeeper self.now client place stripe → ⊥ }
    {
        self.is_held_by(client, stripe) && self.lanes[stripe].keeps_away(place)
    }

    /// The first stripe that a client's open call needs and that it does not hold.
    pub fn next_for(&self, client: usize, call: &Call) -> Option<usize>
        requires even { IsEven self.now }
        ensures next { result ≡ first_missing (holders_of self.now) client (stripes_asked (length (holders_of self.now)) call.now) }
        ensures within { IfSome result (λ stripe. stripe < length (holders_of self.now)) }
    {
        self.missing(client, keys_of(call, self.holders.len()))
    }

    /// The same of a call that forgets what a client watched.
    pub fn next_to_forget(&self, client: usize, watching: &Watching) -> Option<usize>
        requires even { IsEven self.now }
        ensures next { result ≡ first_missing (holders_of self.now) client (stripes_with (length (holders_of self.now)) [] watching.now) }
        ensures within { IfSome result (λ stripe. stripe < length (holders_of self.now)) }
    {
        self.missing(client, stripes_of_keys(watching.keys(), self.holders.len()))
    }

    /// The first of these stripes that a client does not hold.
    fn missing(&self, client: usize, stripes: Sorted) -> Option<usize>
        requires below { AreBelow (length self.now.holders.items) stripes }
        ensures first { result ≡ first_missing self.now.holders.items client stripes }
        ensures within { IfSome result (λ stripe. stripe < length self.now.holders.items) }
    {
        let Some((stripe, others)) = stripes.split_first() else {
            return None;
        };
        if self.is_held_by(client, stripe) {
            return self.missing(client, others);
        }
        Some(stripe)
    }
}

/// So many stripes that store nothing.
fn new_lanes(alloc: Global, limits: &Limits) -> Result<Vec<Lane<Shard<WorldReceipt>>>, Stopped>
    ensures { IfOk result (λ lanes. AreNewLanes limits.now.stripes limits.now.frames limits.now.places lanes.items) }
{
    let mut lanes = Vec::new(alloc);
    for _ in 0..limits.stripes {
        let lane = Lane::new(alloc, limits)?;
        let Ok(_) = lanes.push(lane) else {
            return Err(Stopped);
        };
    }
    Ok(lanes)
}

/// Whether a client holds none of these stripes.
fn holds_nothing(client: usize, holders: &[Option<usize>]) -> bool
    ensures { result ≡ holds_none client holders.now }
{
    match holders {
        [] => true,
        [holder, others @ ..] => *holder != Some(client) && holds_nothing(client, others),
    }
}

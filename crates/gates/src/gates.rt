//! Gates over the parts of a store, and the passes that take them.

ghost use Rattle.std.specs.Prelude.{◌≡◌, ◌+◌, ◌*◌, ◌^◌, ◌<◌, ◌≤◌, ◌++◌, ◌∷◌, [], ℕ, true, false, length, map};
ghost use Rattle.std.specs.Prelude.{IsTrue, IsFalse, IfOk, OnOk, OnErr, vec_len, vec_capacity, MatchBool};
ghost use Rattle.gates.specs.Rule.{word_of};

use crate::asks::Asks;
use crate::laws::laws;
use crate::part::Part;
use crate::rule::{Arm, Commit, Ending, Give, Keep, Leave, Meet, OneHistory, Together, Told, Try};
use crate::says::Says;
use crate::view::View;
use atomic_table::{Refused, Seat, Table};
use std::alloc::{AllocError, Global};
use thiserror::Error;
use words::word::OutOfMemory;

/// The table's word that counts commits.
const COMMITS: usize = 0;

/// A commit is refused where the commit word is this or more.
const COMMITS_LIMIT: u64 = 1 << 62;

/// The words between the word of one stripe and that of the next: they lie on cache lines of their own.
const STRIDE: usize = 16;

/// The parts of a store, one a stripe, which passes take and give back.
#[derive(Drop)]
pub struct Gates<T: Part> {
    pub(crate) table: Table<T, View<T>, u64, OneHistory, Global>,
    ghost sized: { table.shared.table_id.words ≡ word_of table.shared.table_id.slots },
    ghost small: { (1 ≤ table.shared.table_id.slots) × (table.shared.table_id.slots ≤ 64) },
}

/// The right to take stripes, for one thread at a time. It has a number, by which the entries of its
/// calls are known in the history.
pub struct Pass<T> {
    pub(crate) number: u64,
    /// Whether a commit needs no look at the commit word first.
    pub(crate) armed: bool,
    pub(crate) seat: Seat<T, View<T>>,
}

impl<T> Pass<T> {
    ghost use Rattle.gates.specs.Passes.{pass_number};

    /// The number of the pass.
    pub fn number(&self) -> u64
        ensures { result ≡ pass_number self.now }
    {
        self.number
    }
}

impl<T> Drop for Pass<T> {
    fn drop(self) {
        let Pass {
            number: _,
            armed: _,
            seat: _,
        } = self;
    }
}

/// No more commits are made: the commit word was read at 2^62 or more.
#[derive(Clone, Copy, Debug, PartialEq, Eq, Error)]
#[error("commit numbers are used up")]
pub struct CommitsWornOut;

/// The table's word of a stripe.
fn word_index(stripe: usize) -> usize
    requires { stripe ≤ 64 }
    ensures { result ≡ word_of stripe }
{
    STRIDE * (stripe + 1)
}

impl<T: Part> Gates<T> {
    ghost use Rattle.gates.specs.declared.view.Note.{Note};
    ghost use Rattle.gates.specs.declared.view.Note.TheVariants.{Busy, Worn};
    ghost use Rattle.gates.specs.Sets.{times};
    ghost use Rattle.gates.specs.Passes.{stripes_of, known, parts_in, taken_in, AllFit, IsHolding, IsResting, WasTold, MayEnd};
    ghost use Rattle.gates.specs.Passes.{AreAsTaken, Committed, KeysHeld, Learned, id_of, AreNew, entry_asked};
    ghost use Rattle.gates.specs.Helds.{MayTake, TookAtOnce, WasRefused};
    ghost use Rattle.gates.specs.Plays.{AreEmpty, unmet, kept};
    ghost use Rattle.atomic_table.specs.Table.{rest};
    ghost use Rattle.words.specs.History.{HasPlace, due, keys_named};
    ghost use Rattle.words.specs.Session.{operation_of};

    /// Gates over these parts, one a stripe, each of which reads as empty, and their passes, numbered 0,
    /// 1, 2 and so on, which have seen nothing.
    ///
    /// # Errors
    ///
    /// [`OutOfMemory`] where there is no memory for the words or the list of passes.
    pub fn new(
        alloc: Global,
        parts: Vec<T>,
        passes: usize,
    ) -> Result<(Gates<T>, Vec<Pass<T>>), OutOfMemory>
    where
        T: Drop,
        requires some { 1 ≤ vec_len parts }
        requires most { vec_len parts ≤ 64 }
        requires few { passes < 2 ^ 62 }
        requires empty { AreEmpty T.meaning parts.items }
        ensures stripes { IfOk result (λ made. stripes_of made.0 ≡ vec_len parts) }
        ensures count { IfOk result (λ made. vec_len made.1 ≡ passes) }
        ensures passes { IfOk result (λ made. AreNew T.meaning.trusted made.0 0 made.1.items) }
    {
        let words = vec![in alloc; 0u64; word_index(parts.len())]?;
        let dealt = Vec::with_capacity(alloc, passes)?;
        match Table::new(alloc, words.as_slice(), parts, &(passes as u64)) {
            Ok((table, seat)) => {
                let gates = Gates { table };
                let dealt = gates.deal(seat, dealt, passes);
                Ok((gates, dealt))
            }
            Err(Refused { slots: _ }) => Err(AllocError),
        }
    }

    /// Deals out a seat's passes.
    fn deal(&self, seat: Seat<T, View<T>>, mut dealt: Vec<Pass<T>>, passes: usize) -> Vec<Pass<T>>
        requires table { seat.table_id ≡ id_of self.now }
        requires all { seat.me ≡ (unmet passes, []) }
        requires none { dealt.items ≡ [] }
        requires room { passes ≤ vec_capacity dealt }
        requires few { passes < 2 ^ 62 }
        ensures count { vec_len result ≡ passes }
        ensures passes { AreNew T.meaning.trusted self.now 0 result.items }
    {
        let mut others = seat;
        for number in 0..passes {
            let mut seat = others;
            others = self.table.shared.split_seat::<Keep>(&mut seat);
            dealt.push_reserved(Pass {
                number: number as u64,
                armed: false,
                seat,
            });
        }
        dealt
    }

    /// Both passes have then seen one history, which begins with what each had seen, and has the
    /// entries of each.
    pub fn meet<'a>(&'a self, first: &'a mut Pass<T>, second: &'a mut Pass<T>)
        requires first { IsResting T.meaning.trusted self.now first.old }
        requires second { IsResting T.meaning.trusted self.now second.old }
        ensures first { IsResting T.meaning.trusted self.now first.new }
        ensures second { IsResting T.meaning.trusted self.now second.new }
        ensures one { (known first.new).seen ≡ (known second.new).seen }
        ensures first_learned { Learned (known first.old) (known first.new) }
        ensures second_learned { Learned (known second.old) (known second.new) }
        ensures first_told { (known first.new).notes ≡ (known first.old).notes }
        ensures second_told { (known second.new).notes ≡ (known second.old).notes }
    {
        laws();
        let shared = &self.table.shared;
        let theirs = shared.split_seat::<Leave>(&mut second.seat);
        shared.join_seat::<Together>(&mut first.seat, theirs);
        shared.load::<Meet>(&mut first.seat, word_index(0));
        second.seat = shared.split_seat::<Keep>(&mut first.seat);
        first.armed = false;
        second.armed = false;
    }

    /// How many stripes there are: from 1 to 64.
    pub fn stripes(&self) -> usize
        ensures count { result ≡ stripes_of self.now }
        ensures some { 1 ≤ result }
        ensures most { result ≤ 64 }
    {
        self.table.slot_count()
    }

    /// Gives back the first part, which is this stripe's.
    #[inline]
    pub(crate) fn give_first<E: Ending>(&self, pass: &mut Pass<T>, stripe: usize)
        requires holding { IsHolding T.meaning.trusted self.now pass.old }
        requires ends { MayEnd E.ends (stripes_of self.now) (parts_in pass.old) (known pass.old).watched }
        requires first { (part : T) × (parts_in pass.old ≡ (stripe, part) ∷ rest (parts_in pass.old)) }
        requires fit { AllFit T.meaning (stripes_of self.now) (kept E.ends E.told (known pass.old)) (taken_in pass.old) (parts_in pass.old) }
        ensures holding { IsHolding T.meaning.trusted self.now pass.new }
        ensures known { known pass.new ≡ kept E.ends E.told (known pass.old) }
        ensures others { parts_in pass.new ≡ rest (parts_in pass.old) }
        ensures fit { AllFit T.meaning (stripes_of self.now) (known pass.new) (taken_in pass.new) (parts_in pass.new) }
    {
        laws();
        let word = word_index(stripe);
        self.table.shared.store::<Give<E>>(&mut pass.seat, word, 0);
    }

    /// Looks at the commit word where the pass may not add to it yet.
    fn arm(&self, pass: &mut Pass<T>) -> Result<(), CommitsWornOut>
        requires { IsHolding T.meaning.trusted self.now pass.old }
        ensures holding { IsHolding T.meaning.trusted self.now pass.new }
        ensures parts { parts_in pass.new ≡ parts_in pass.old }
        ensures taken { taken_in pass.new ≡ taken_in pass.old }
        ensures number { pass.new.number ≡ pass.old.number }
        ensures ok { OnOk result ((pass.new.armed ≡ true) × (known pass.new ≡ known pass.old)) }
        ensures worn { OnErr result (WasTold Worn (known pass.old) (known pass.new)) }
    {
        laws();
        if pass.armed {
            return Ok(());
        }
        if self.table.shared.load::<Arm>(&mut pass.seat, COMMITS) >= COMMITS_LIMIT {
            return Err(CommitsWornOut);
        }
        pass.armed = true;
        Ok(())
    }

    /// Commits the entry that is picked.
    #[inline]
    pub(crate) fn commit_as<E: Told, C: Asks, S: Says>(
        &self,
        pass: &mut Pass<T>,
        call: &C,
        reply: &S,
    ) -> Result<u64, CommitsWornOut>
        requires holding { IsHolding T.meaning.trusted self.now pass.old }
        requires told { E.entry ≡ entry_asked (known pass.old) (C.asked call.now) (S.said reply.now) }
        requires place { HasPlace E.entry.operation }
        requires due { T.meaning.trusted → S.said reply.now ≡ due (known pass.old).seen E.entry.operation }
        requires keys { KeysHeld (stripes_of self.now) (parts_in pass.old) (keys_named E.entry.operation) }
        ensures holding { IsHolding T.meaning.trusted self.now pass.new }
        ensures parts { parts_in pass.new ≡ parts_in pass.old }
        ensures taken { taken_in pass.new ≡ taken_in pass.old }
        ensures number { pass.new.number ≡ pass.old.number }
        ensures ok { IfOk result (λ place.
            Committed (stripes_of self.now) (parts_in pass.old) E.entry place (known pass.old) (known pass.new)) }
        ensures worn { OnErr result (WasTold Worn (known pass.old) (known pass.new)) }
    {
        laws();
        self.arm(pass)?;
        let shared = &self.table.shared;
        let place = shared.fetch_add::<Commit<E>>(&mut pass.seat, COMMITS, 1);
        pass.armed = place < COMMITS_LIMIT;
        Ok(place)
    }

    /// One try of a stripe that the pass does not have. Its part comes last.
    #[inline]
    pub(crate) fn try_stripe(&self, pass: &mut Pass<T>, stripe: usize) -> bool
        requires { MayTake T.meaning self.now stripe pass.old }
        ensures holding { IsHolding T.meaning.trusted self.now pass.new }
        ensures fit { AllFit T.meaning (stripes_of self.now) (known pass.new) (taken_in pass.new) (parts_in pass.new) }
        ensures lent { AreAsTaken (taken_in pass.new) (parts_in pass.new) }
        ensures taken { IsTrue result → TookAtOnce stripe pass.old pass.new }
        ensures missed { IsFalse result → WasRefused stripe pass.old pass.new }
    {
        laws();
        let word = word_index(stripe);
        let mine = pass.number + 1;
        let found = self
            .table
            .shared
            .compare_exchange::<Try>(&mut pass.seat, word, 0, mine);
        if found != 0 {
            return false;
        }
        pass.seat.turn();
        true
    }
}

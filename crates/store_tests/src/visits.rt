//! One background step at a stripe, over any parts that have pages.

ghost use Rattle.std.specs.Prelude.{◌≡◌, ◌<◌, ℕ, IsSome};
ghost use Rattle.gates.specs.Background.{IsIdle, IsSpent, IsStep};
ghost use Rattle.gates.specs.Pages.{IsFull};
ghost use Rattle.gates.specs.Passes.{IsResting, known, stripes_of};
ghost use Rattle.gates.specs.declared.view.Work.TheVariants.{Evict};
ghost use Rattle.store_tests.specs.Visits.{HasStepped, MatchOutcome, Visited, told};

use gates::{Gates, Part, Parts, Pass, Refused, Report, Sorted, Work};
use std::sync::Wait;

/// What a step came to.
#[derive(Clone, Copy, Debug)]
pub enum Outcome {
    /// It was done.
    Done,
    /// There was nothing to do.
    Idle,
    /// It wanted a place where none may be taken, and none could be released, but for what the epochs refused.
    Full(Refused),
}

/// Parts that have pages, of which the oldest resident one may leave its frame.
pub trait Paged: Part {
    ghost use Rattle.words.specs.Store.{Bytes};
    ghost use Rattle.store_tests.specs.Visits.{MatchOutcome};

    /// One step. What the part stands for stays, where its premise holds.
    fn evict(&mut self) -> Outcome
        ensures store { Self.meaning.trusted → (key : Bytes) → Self.meaning.store self.new key ≡ Self.meaning.store self.old key }
        ensures marks { Self.meaning.marks self.new ≡ Self.meaning.marks self.old }
        ensures says { MatchOutcome result (IsStep Evict (Self.meaning.pages self.old) (Self.meaning.pages self.new)) (IsIdle Evict (Self.meaning.pages self.new)) (λ refused. IsFull (Self.meaning.pages self.new) × IsSpent refused (Self.meaning.pages self.old) (Self.meaning.pages self.new)) };
}

/// One step at a stripe of the parts that are held.
fn evict_at<T: Paged, P: Parts<T>>(parts: &mut P, stripe: usize) -> Outcome
    requires open { P.is_open parts.old }
    requires there { IsSome (P.part_of parts.old stripe) }
    ensures stepped { HasStepped T.meaning stripe (P.part_of parts.old) (P.part_of parts.new) (λ was now. MatchOutcome result (IsStep Evict was now) (IsIdle Evict now) (λ refused. IsFull now × IsSpent refused was now)) }
    ensures open { P.is_open parts.new }
    ensures keeps { P.keeps parts.old parts.new }
{
    parts.part(stripe).evict()
}

/// One step at a stripe by a pass, which is told what it came to: it adds no entry, and leaves what each
/// part stands for.
pub fn evict_one<T: Paged, W: Wait>(
    rt: &W,
    gates: &Gates<T>,
    pass: &mut Pass<T>,
    stripe: usize,
) -> Outcome
    requires own { IsResting T.meaning.trusted gates.now pass.old }
    requires below { stripe < stripes_of gates.now }
    ensures own { IsResting T.meaning.trusted gates.now pass.new }
    ensures told { Visited stripe (told result stripe) (known pass.old) (known pass.new) }
{
    let _stripes = gates.stripes();
    let wanted = Sorted::none().with(stripe);
    let mut held = gates.take(rt, pass, &wanted);
    let outcome = evict_at(&mut held, stripe);
    match outcome {
        Outcome::Done => held.give(&Report::Done(stripe as u64, Work::Evict)),
        Outcome::Idle => held.give(&Report::Idle(stripe as u64, Work::Evict)),
        Outcome::Full(refused) => held.give(&Report::Full(stripe as u64, refused)),
    }
    outcome
}

//! Passes of one and of two threads over parts with no key.

ghost use Rattle.std.specs.Prelude.{◌≡◌, ◌<◌, ◌≤◌, vec_len};
ghost use Rattle.gates.specs.Passes.{stripes_of};
ghost use Rattle.gates.specs.Plays.{AreEmpty};
ghost use Rattle.gates.specs.Sets.{AreBelow};
ghost use Rattle.store_tests.specs.Nothing.{nothing, Rests};

use gates::part::replace;
use gates::{Asks, Gates, Part, Pass, Report, Sorted};
use std::alloc::Global;
use std::process::Abort;
use std::sync::Wait;
use std::thread::{Threads, join};
use words::reply::Line;

/// How many calls each of two threads makes.
const CALLS: usize = 1_000;

/// A part with no key. Its number tells it from other parts.
#[derive(Drop)]
struct Blank {
    number: usize,
}

impl Part for Blank {
    ghost use Rattle.store_tests.specs.Nothing.{nothing};

    ghost meaning = { nothing };
}

/// A call that begins to watch no key. It leaves each part as it is, and is answered that it was done.
#[derive(Drop)]
struct Idle;

impl Asks for Idle {
    ghost use Rattle.std.specs.Prelude.{[]};
    ghost use Rattle.words.specs.Session.{Watch};

    ghost asked = { λ idle. Watch [] };
}

/// So many parts with no key, numbered 0, 1, 2 and so on.
#[tactic(auto, using(crate::proofs::Lasts::empty_snoc))]
fn parts(rt: &impl Abort, alloc: Global, count: usize) -> Vec<Blank>
    ensures count { vec_len result ≡ count }
    ensures empty { AreEmpty nothing result.items }
{
    let mut parts = Vec::new(alloc);
    for number in 0..count {
        parts
            .push(Blank { number })
            .expect(rt, "memory for the parts");
    }
    parts
}

/// Gates over such parts, each with the number of its stripe, and two passes.
#[tactic(auto, using(crate::proofs::Lasts::new_last))]
fn opened(
    rt: &impl Abort,
    alloc: Global,
    stripes: usize,
) -> (Gates<Blank>, Pass<Blank>, Pass<Blank>)
    requires { (1 ≤ stripes) × (stripes ≤ 64) }
    ensures stripes { stripes_of result.0 ≡ stripes }
    ensures resting { Rests result.0 result.1 × Rests result.0 result.2 }
{
    let parts = parts(rt, alloc, stripes);
    let (gates, mut passes) = Gates::new(alloc, parts, 2).expect(rt, "memory for the gates");
    let second = passes.pop().expect(rt, "a second pass");
    let first = passes.pop().expect(rt, "a first pass");
    drop(passes);
    (gates, first, second)
}

/// Takes stripes, commits one call, and gives them back. The position of the call, if it was committed.
fn commit_one<R: Wait>(
    rt: &R,
    gates: &Gates<Blank>,
    pass: &mut Pass<Blank>,
    stripes: &Sorted,
) -> Option<u64>
    requires own { Rests gates.now pass.old }
    requires known { AreBelow (stripes_of gates.now) stripes.now }
    ensures { Rests gates.now pass.new }
{
    let mut held = gates.take(rt, pass, stripes);
    let place = held.commit(&Idle, &Line::Done).ok();
    held.give(&Report::Nothing);
    place
}

/// All calls of one thread, each on one stripe, and on all stripes in turn.
fn commit_many<R: Wait>(rt: &R, gates: &Gates<Blank>, mut pass: Pass<Blank>) -> Pass<Blank>
    requires { Rests gates.now pass }
    ensures { Rests gates.now result }
{
    let stripes = gates.stripes();
    for n in 0..CALLS {
        commit_one(rt, gates, &mut pass, &Sorted::none().with(n % stripes));
    }
    pass
}

/// Two threads make their calls, and their passes meet. The position of the next call, once both are
/// done.
fn commit_both<R: Abort + Threads + Wait + Sync>(
    rt: &R,
    alloc: Global,
    stripes: usize,
) -> Option<u64>
    requires { (1 ≤ stripes) × (stripes ≤ 64) }
{
    let (gates, one, two) = opened(rt, alloc, stripes);
    let shared = &gates;
    let (mut first, mut second) = join(
        rt,
        move || -> Pass<Blank>
            requires { Rests shared.now one }
            ensures { Rests shared.entry.now result }
        { commit_many(rt, shared, one) },
        move || -> Pass<Blank>
            requires { Rests shared.now two }
            ensures { Rests shared.entry.now result }
        { commit_many(rt, shared, two) },
    );
    gates.meet(&mut first, &mut second);
    let next = commit_one(rt, &gates, &mut second, &Sorted::none().with(0));
    drop(second);
    drop(first);
    drop(gates);
    next
}

#[test]
fn two_threads_commit_on_one_stripe_and_on_several(rt: HostRuntime) {
    let all = Some(2 * CALLS as u64);
    assert!(rt; commit_both(&rt, rt.alloc(), 1) == all);
    assert!(rt; commit_both(&rt, rt.alloc(), 16) == all);
}

/// Whether calls of two passes have the positions 0, 1 and 2, on one stripe and on another.
fn are_in_turn<R: Wait>(
    rt: &R,
    gates: &Gates<Blank>,
    first: &mut Pass<Blank>,
    second: &mut Pass<Blank>,
) -> bool
    requires first { Rests gates.now first.old }
    requires second { Rests gates.now second.old }
    requires stripes { stripes_of gates.now ≡ 64 }
{
    let twelve = Sorted::none().with(12);
    let five = Sorted::none().with(5);
    let zero = commit_one(rt, gates, first, &twelve);
    let one = commit_one(rt, gates, second, &twelve);
    let two = commit_one(rt, gates, first, &five);
    zero == Some(0) && one == Some(1) && two == Some(2)
}

/// Puts a part in the place of the one of stripe 12. The old one.
fn exchange<R: Wait>(rt: &R, gates: &Gates<Blank>, pass: &mut Pass<Blank>, part: Blank) -> Blank
    requires own { Rests gates.now pass.old }
    requires stripes { stripes_of gates.now ≡ 64 }
    ensures { Rests gates.now pass.new }
{
    let mut held = gates.take(rt, pass, &Sorted::none().with(12));
    let old = replace(&mut held, 12, part);
    held.give(&Report::Nothing);
    old
}

/// Whether the part of stripe 12 that is taken is the one that was put there last: at first its own, and
/// then another, and its own again.
fn is_put_back<R: Wait>(rt: &R, gates: &Gates<Blank>, pass: &mut Pass<Blank>) -> bool
    requires own { Rests gates.now pass.old }
    requires stripes { stripes_of gates.now ≡ 64 }
{
    let old = exchange(rt, gates, pass, Blank { number: 70 });
    let number = old.number;
    let new = exchange(rt, gates, pass, old);
    let again = exchange(rt, gates, pass, Blank { number: 71 });
    number == 12 && new.number == 70 && again.number == 12
}

/// All stripe numbers.
fn all() -> Sorted
    ensures { AreBelow 64 result }
{
    let mut all = Sorted::none();
    for n in 0..64 {
        all = all.with(63 - n);
    }
    all
}

/// The stripe of these that another pass holds, found by one try of each. All are given back.
fn busy_one(gates: &Gates<Blank>, pass: &mut Pass<Blank>, stripes: &Sorted) -> Option<usize>
    requires own { Rests gates.now pass.old }
    requires known { AreBelow (stripes_of gates.now) stripes.now }
    ensures { Rests gates.now pass.new }
{
    match gates.try_take(pass, stripes) {
        Ok(()) => {
            gates.hold(pass, stripes).give(&Report::Nothing);
            None
        }
        Err(stripe) => Some(stripe),
    }
}

/// The stripe of these that is busy while the first pass holds stripes.
fn busy_beside<R: Wait>(
    rt: &R,
    gates: &Gates<Blank>,
    first: &mut Pass<Blank>,
    taken: &Sorted,
    second: &mut Pass<Blank>,
    tried: &Sorted,
) -> Option<usize>
    requires first { Rests gates.now first.old }
    requires taken { AreBelow (stripes_of gates.now) taken.now }
    requires second { Rests gates.now second.old }
    requires tried { AreBelow (stripes_of gates.now) tried.now }
    ensures first { Rests gates.now first.new }
    ensures second { Rests gates.now second.new }
{
    let held = gates.take(rt, first, taken);
    let busy = busy_one(gates, second, tried);
    held.give(&Report::Nothing);
    busy
}

/// Whether stripe 12 alone is busy, as long as it is held.
fn is_busy_as_held<R: Wait>(
    rt: &R,
    gates: &Gates<Blank>,
    first: &mut Pass<Blank>,
    second: &mut Pass<Blank>,
) -> bool
    requires first { Rests gates.now first.old }
    requires second { Rests gates.now second.old }
    requires stripes { stripes_of gates.now ≡ 64 }
{
    let held = Sorted::none().with(12);
    let both = Sorted::none().with(5).with(12);
    let five = Sorted::none().with(5);
    let busy = busy_beside(rt, gates, first, &held, second, &both);
    let free = busy_beside(rt, gates, first, &held, second, &five);
    let after = busy_one(gates, second, &both);
    busy == Some(12) && free.is_none() && after.is_none()
}

/// Whether a call of the second pass on stripe 5 is made while the first holds stripe 12.
fn is_made_beside<R: Wait>(
    rt: &R,
    gates: &Gates<Blank>,
    first: &mut Pass<Blank>,
    second: &mut Pass<Blank>,
) -> bool
    requires first { Rests gates.now first.old }
    requires second { Rests gates.now second.old }
    requires stripes { stripes_of gates.now ≡ 64 }
{
    let held = gates.take(rt, first, &Sorted::none().with(12));
    let place = commit_one(rt, gates, second, &Sorted::none().with(5));
    held.give(&Report::Nothing);
    place == Some(0)
}

/// Whether all stripes are free while the empty set is held.
fn is_free_beside_none<R: Wait>(
    rt: &R,
    gates: &Gates<Blank>,
    first: &mut Pass<Blank>,
    second: &mut Pass<Blank>,
) -> bool
    requires first { Rests gates.now first.old }
    requires second { Rests gates.now second.old }
    requires stripes { stripes_of gates.now ≡ 64 }
{
    busy_beside(rt, gates, first, &Sorted::none(), second, &all()).is_none()
}

/// Whether the set has the numbers from 0 to 63, which come out in this order.
fn has_each_in_order(set: &Sorted) -> bool {
    let mut left = set.again();
    for n in 0..64 {
        let Some((stripe, others)) = left.split_first() else {
            return false;
        };
        if stripe != n {
            return false;
        }
        left = others;
    }
    left.split_first().is_none()
}

#[test]
fn a_set_has_each_number_in_order(rt: HostRuntime) {
    assert!(rt; has_each_in_order(&all()));
}

/// Whether all stripes are held at once, and free afterwards.
fn are_all_held<R: Wait>(
    rt: &R,
    gates: &Gates<Blank>,
    first: &mut Pass<Blank>,
    second: &mut Pass<Blank>,
) -> bool
    requires first { Rests gates.now first.old }
    requires second { Rests gates.now second.old }
    requires stripes { stripes_of gates.now ≡ 64 }
{
    let last = Sorted::none().with(63);
    let busy = busy_beside(rt, gates, first, &all(), second, &last);
    let after = busy_one(gates, second, &all());
    busy == Some(63) && after.is_none()
}

/// What is tried with two passes over gates of 64 stripes.
#[derive(Clone, Copy)]
enum Trial {
    Turns,
    Exchanges,
    Busy,
    Beside,
    Nothing,
    All,
}

/// Whether the trial turns out as it has to.
fn turns_out<R: Wait>(
    rt: &R,
    gates: &Gates<Blank>,
    first: &mut Pass<Blank>,
    second: &mut Pass<Blank>,
    trial: Trial,
) -> bool
    requires first { Rests gates.now first.old }
    requires second { Rests gates.now second.old }
    requires stripes { stripes_of gates.now ≡ 64 }
{
    match trial {
        Trial::Turns => are_in_turn(rt, gates, first, second),
        Trial::Exchanges => is_put_back(rt, gates, first),
        Trial::Busy => is_busy_as_held(rt, gates, first, second),
        Trial::Beside => is_made_beside(rt, gates, first, second),
        Trial::Nothing => is_free_beside_none(rt, gates, first, second),
        Trial::All => are_all_held(rt, gates, first, second),
    }
}

/// The trial turns out as it has to, over gates of its own.
fn goes<R: Abort + Wait>(rt: &R, alloc: Global, trial: Trial) {
    let (gates, mut first, mut second) = opened(rt, alloc, 64);
    assert!(rt; turns_out(rt, &gates, &mut first, &mut second, trial));
    drop(second);
    drop(first);
    drop(gates);
}

#[test]
fn calls_of_two_passes_have_positions_in_turn(rt: HostRuntime) {
    goes(&rt, rt.alloc(), Trial::Turns);
}

#[test]
fn a_part_is_replaced_and_put_back(rt: HostRuntime) {
    goes(&rt, rt.alloc(), Trial::Exchanges);
}

#[test]
fn a_held_stripe_is_busy_and_another_is_free(rt: HostRuntime) {
    goes(&rt, rt.alloc(), Trial::Busy);
}

#[test]
fn a_held_stripe_does_not_stop_another(rt: HostRuntime) {
    goes(&rt, rt.alloc(), Trial::Beside);
}

#[test]
fn the_empty_set_holds_nothing(rt: HostRuntime) {
    goes(&rt, rt.alloc(), Trial::Nothing);
}

#[test]
fn all_stripes_are_taken_at_once(rt: HostRuntime) {
    goes(&rt, rt.alloc(), Trial::All);
}

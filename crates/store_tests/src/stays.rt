//! Stays and retirements of one thread and of three.

ghost use Rattle.std.specs.Prelude.{◌≡◌, IfSome};
ghost use Rattle.epoch.specs.Seats.{IsOutside, drained_epoch, drained_of, id_of, named_by, retired_epoch, retired_of};

use epoch::epochs::{Drained, EpochSeat, Epochs, EpochsName, Retired, Wraps};
use std::alloc::Global;
use std::process::Abort;
use std::sync::Wait;
use std::thread::{Threads, join};

/// How often a reader enters and leaves.
const STAYS: u64 = 10_000;

/// How many values the cleaner retires.
const RETIREMENTS: u64 = 1_000;

/// How often the cleaner tries to drain an epoch.
const TRIES: u64 = 10_000_000;

/// Epochs with three seats.
fn opened(rt: &impl Abort, alloc: Global) -> (Epochs, EpochSeat, EpochSeat, EpochSeat)
    ensures { IsOutside result.0 result.1 × IsOutside result.0 result.2 × IsOutside result.0 result.3 }
{
    let (epochs, mut seats) = Epochs::new(alloc, 3).expect(rt, "memory for the epochs");
    let third = seats.pop().expect(rt, "a third seat");
    let second = seats.pop().expect(rt, "a second seat");
    let first = seats.pop().expect(rt, "a first seat");
    drop(seats);
    (epochs, first, second, third)
}

/// What became of a retirement.
#[derive(Clone, Copy, Debug, PartialEq, Eq)]
struct Course {
    /// The epoch of its stamp.
    stamp: u64,
    /// Whether its epoch was drained at the first try, and at the second.
    drained: (bool, bool),
    /// The value that came back.
    value: Option<u64>,
}

/// The value, where its epoch is drained.
fn value_of(retired: Retired<u64>, drained: Option<Drained>) -> Option<u64>
    requires epoch { IfSome drained (λ d. drained_epoch d ≡ retired_epoch retired) }
    requires of { IfSome drained (λ d. drained_of d ≡ retired_of retired) }
{
    let drained = drained?;
    Some(retired.into_value(&drained))
}

/// One seat stays while another retires, and leaves after the first try to drain.
fn retire_beside_a_stay<R: Abort + Wait>(
    rt: &R,
    epochs: &Epochs,
    reader: EpochSeat,
    cleaner: &mut EpochSeat,
) -> Course
    requires reader { IsOutside epochs.now reader }
    requires cleaner { IsOutside epochs.now cleaner.old }
{
    let inside = epochs.enter(rt, reader);
    let retired = epochs.retire(cleaner, 7).expect(rt, "an epoch");
    let stamp = retired.epoch();
    let early = epochs.drained(cleaner, stamp).is_some();
    drop(epochs.leave(inside));
    let late = epochs.drained(cleaner, stamp);
    Course {
        stamp,
        drained: (early, late.is_some()),
        value: value_of(retired, late),
    }
}

/// One seat enters after another has retired, and before it drains.
fn retire_before_a_stay<R: Abort + Wait>(
    rt: &R,
    epochs: &Epochs,
    reader: EpochSeat,
    cleaner: &mut EpochSeat,
) -> Course
    requires reader { IsOutside epochs.now reader }
    requires cleaner { IsOutside epochs.now cleaner.old }
{
    let retired = epochs.retire(cleaner, 8).expect(rt, "an epoch");
    let stamp = retired.epoch();
    let mut inside = epochs.enter(rt, reader);
    let mut drained = epochs.drained(cleaner, stamp);
    if let Some(drained) = &mut drained {
        epochs.compare(&mut inside, drained);
    }
    let again = epochs.drained(cleaner, stamp).is_some();
    drop(epochs.leave(inside));
    Course {
        stamp,
        drained: (drained.is_some(), again),
        value: value_of(retired, drained),
    }
}

/// The same as [`retire_beside_a_stay`], where the retirement drains its own epoch.
fn drain_itself_beside_a_stay<R: Abort + Wait>(
    rt: &R,
    epochs: &Epochs,
    reader: EpochSeat,
    cleaner: &mut EpochSeat,
) -> Course
    requires reader { IsOutside epochs.now reader }
    requires cleaner { IsOutside epochs.now cleaner.old }
{
    let inside = epochs.enter(rt, reader);
    let mut retired = epochs.retire(cleaner, 7).expect(rt, "an epoch");
    let early = retired.drained().is_some();
    drop(epochs.leave(inside));
    let late = retired.drained();
    Course {
        stamp: retired.epoch(),
        drained: (early, late.is_some()),
        value: value_of(retired, late),
    }
}

/// The same as [`retire_before_a_stay`], where the retirement drains its own epoch.
fn drain_itself_before_a_stay<R: Abort + Wait>(
    rt: &R,
    epochs: &Epochs,
    reader: EpochSeat,
    cleaner: &mut EpochSeat,
) -> Course
    requires reader { IsOutside epochs.now reader }
    requires cleaner { IsOutside epochs.now cleaner.old }
{
    let mut retired = epochs.retire(cleaner, 8).expect(rt, "an epoch");
    let mut inside = epochs.enter(rt, reader);
    let mut drained = retired.drained();
    if let Some(drained) = &mut drained {
        epochs.compare(&mut inside, drained);
    }
    let again = retired.drained().is_some();
    drop(epochs.leave(inside));
    Course {
        stamp: retired.epoch(),
        drained: (drained.is_some(), again),
        value: value_of(retired, drained),
    }
}

/// A seat retires inside a stay of its own, and enters anew after the first try to drain.
fn retire_inside_a_stay<R: Abort + Wait>(rt: &R, epochs: &Epochs, seat: EpochSeat) -> Course
    requires { IsOutside epochs.now seat }
{
    let mut inside = epochs.enter(rt, seat);
    let retired = epochs.retire_inside(&mut inside, 9).expect(rt, "an epoch");
    let stamp = retired.epoch();
    let early = epochs.drained_inside(&mut inside, stamp).is_some();
    let mut inside = epochs.enter(rt, epochs.leave(inside));
    let late = epochs.drained_inside(&mut inside, stamp);
    drop(epochs.leave(inside));
    Course {
        stamp,
        drained: (early, late.is_some()),
        value: value_of(retired, late),
    }
}

/// How one seat retires and drains while another stays.
#[derive(Clone, Copy)]
enum Order {
    /// [`retire_beside_a_stay`]
    Beside,
    /// [`retire_before_a_stay`]
    Before,
    /// [`drain_itself_beside_a_stay`]
    ItselfBeside,
    /// [`drain_itself_before_a_stay`]
    ItselfBefore,
}

/// What becomes of a retirement in this order.
fn course_of<R: Abort + Wait>(
    rt: &R,
    epochs: &Epochs,
    reader: EpochSeat,
    cleaner: &mut EpochSeat,
    order: Order,
) -> Course
    requires reader { IsOutside epochs.now reader }
    requires cleaner { IsOutside epochs.now cleaner.old }
{
    match order {
        Order::Beside => retire_beside_a_stay(rt, epochs, reader, cleaner),
        Order::Before => retire_before_a_stay(rt, epochs, reader, cleaner),
        Order::ItselfBeside => drain_itself_beside_a_stay(rt, epochs, reader, cleaner),
        Order::ItselfBefore => drain_itself_before_a_stay(rt, epochs, reader, cleaner),
    }
}

/// Whether a value comes back in this order, with epochs of its own, where its epoch was drained so.
fn comes_back<R: Abort + Wait>(
    rt: &R,
    alloc: Global,
    order: Order,
    drained: (bool, bool),
    value: u64,
) -> bool {
    let (epochs, reader, mut cleaner, other) = opened(rt, alloc);
    let course = course_of(rt, &epochs, reader, &mut cleaner, order);
    drop(other);
    drop(cleaner);
    drop(epochs);
    let wanted = Course {
        stamp: 1,
        drained,
        value: Some(value),
    };
    course == wanted
}

#[test]
fn a_stay_keeps_its_epoch_until_it_ends(rt: HostRuntime) {
    assert!(rt; comes_back(&rt, rt.alloc(), Order::Beside, (false, true), 7));
}

#[test]
fn a_stay_after_the_advance_keeps_nothing(rt: HostRuntime) {
    assert!(rt; comes_back(&rt, rt.alloc(), Order::Before, (true, true), 8));
}

#[test]
fn a_retirement_waits_for_a_stay(rt: HostRuntime) {
    assert!(rt; comes_back(&rt, rt.alloc(), Order::ItselfBeside, (false, true), 7));
}

#[test]
fn a_retirement_waits_for_no_later_stay(rt: HostRuntime) {
    assert!(rt; comes_back(&rt, rt.alloc(), Order::ItselfBefore, (true, true), 8));
}

#[test]
fn the_own_stay_counts(rt: HostRuntime) {
    let (epochs, seat, second, third) = opened(&rt, rt.alloc());
    let course = retire_inside_a_stay(&rt, &epochs, seat);
    let wanted = Course {
        stamp: 1,
        drained: (false, true),
        value: Some(9),
    };
    assert!(rt; course == wanted);
    drop(third);
    drop(second);
    drop(epochs);
}

/// A value in a wrapper, retired, beside the name of its epochs.
#[derive(Drop)]
struct Kept {
    name: EpochsName,
    retired: Retired<Wrapped>,
    ghost own: { retired_of retired ≡ named_by name },
}

/// A value in a wrapper.
#[derive(Drop)]
struct Wrapped {
    value: u64,
}

impl Wraps for Wrapped {
    type Inner = u64;

    ghost inner = { λ wrapped. wrapped.value };

    fn into_inner(self) -> u64 {
        let Wrapped { value } = self;
        value
    }
}

/// Retires a value in a wrapper, and keeps it.
fn keep(rt: &impl Abort, epochs: &Epochs, seat: &mut EpochSeat, value: u64) -> Kept
    requires { IsOutside epochs.now seat.old }
    ensures outside { IsOutside epochs.now seat.new }
    ensures name { named_by result.name ≡ id_of epochs.now }
{
    let retired = epochs
        .retire(seat, Wrapped { value })
        .ok()
        .expect(rt, "an epoch");
    Kept {
        name: epochs.name(),
        retired,
    }
}

/// Drains the epoch of what was kept, by the epochs of its name.
fn come_back(epochs: &Epochs, seat: &mut EpochSeat, kept: Kept) -> Option<u64>
    requires outside { IsOutside epochs.now seat.old }
    requires name { named_by kept.name ≡ id_of epochs.now }
{
    let Kept { name: _, retired } = kept;
    let drained = epochs.drained(seat, retired.epoch());
    value_of(retired.into_inner(), drained)
}

/// Keeps a value, and takes it back.
fn keep_and_come_back(rt: &impl Abort, epochs: &Epochs, seat: EpochSeat, value: u64) -> Option<u64>
    requires { IsOutside epochs.now seat }
{
    let mut seat = seat;
    let kept = keep(rt, epochs, &mut seat, value);
    come_back(epochs, &mut seat, kept)
}

#[test]
fn what_is_kept_beside_a_name_comes_back(rt: HostRuntime) {
    let (epochs, seat, second, third) = opened(&rt, rt.alloc());
    assert!(rt; keep_and_come_back(&rt, &epochs, seat, 7) == Some(7));
    drop(third);
    drop(second);
    drop(epochs);
}

/// A value in a wrapper, retired by epochs that are gone with their seats.
fn outlives_its_epochs(rt: &impl Abort, alloc: Global, value: u64) -> Retired<Wrapped> {
    let (epochs, mut seat, second, third) = opened(rt, alloc);
    let retired = epochs
        .retire(&mut seat, Wrapped { value })
        .ok()
        .expect(rt, "an epoch");
    drop(third);
    drop(second);
    drop(seat);
    drop(epochs);
    retired
}

/// Takes the wrapper off, and drains its own epoch.
fn unwrapped_alone(retired: Retired<Wrapped>) -> Option<u64> {
    let mut retired = retired.into_inner();
    let drained = retired.drained();
    value_of(retired, drained)
}

fn moves_to_a_thread<T: Send>(_value: &T) {}

#[test]
fn a_retirement_outlives_its_epochs(rt: HostRuntime) {
    let retired = outlives_its_epochs(&rt, rt.alloc(), 7);
    moves_to_a_thread(&retired);
    assert!(rt; unwrapped_alone(retired) == Some(7));
}

/// Enters and leaves many times.
fn stay_often<R: Wait>(rt: &R, epochs: &Epochs, seat: EpochSeat) -> EpochSeat
    requires { IsOutside epochs.now seat }
    ensures { IsOutside epochs.now result }
{
    let mut seat = seat;
    for _ in 0..STAYS {
        let inside = epochs.enter(rt, seat);
        seat = epochs.leave(inside);
    }
    seat
}

/// Two readers, each in a thread of its own.
fn readers<R: Threads + Wait + Sync>(rt: &R, epochs: &Epochs, one: EpochSeat, two: EpochSeat)
    requires one { IsOutside epochs.now one }
    requires two { IsOutside epochs.now two }
{
    let (_one, _two) = join(
        rt,
        move || -> EpochSeat
            requires { IsOutside epochs.now one }
            ensures { IsOutside epochs.entry.now result }
        { stay_often(rt, epochs, one) },
        move || -> EpochSeat
            requires { IsOutside epochs.now two }
            ensures { IsOutside epochs.entry.now result }
        { stay_often(rt, epochs, two) },
    );
}

/// Tries to drain an epoch until it is drained.
fn drain(epochs: &Epochs, seat: &mut EpochSeat, e: u64) -> Option<Drained>
    requires { IsOutside epochs.now seat.old }
    ensures outside { IsOutside epochs.now seat.new }
    ensures epoch { IfSome result (λ drained. drained_epoch drained ≡ e) }
    ensures of { IfSome result (λ drained. drained_of drained ≡ id_of epochs.now) }
{
    for _ in 0..TRIES {
        if let Some(drained) = epochs.drained(seat, e) {
            return Some(drained);
        }
    }
    None
}

/// Retires value after value, and says how many came back.
fn retire_often(epochs: &Epochs, seat: EpochSeat) -> u64
    requires { IsOutside epochs.now seat }
{
    let mut seat = seat;
    let mut done = 0;
    for n in 0..RETIREMENTS {
        let Ok(retired) = epochs.retire(&mut seat, n) else {
            break;
        };
        let drained = drain(epochs, &mut seat, retired.epoch());
        if value_of(retired, drained) == Some(n) {
            done += 1;
        }
    }
    done
}

/// Two readers, and a cleaner beside them.
fn three_threads<R: Threads + Wait + Sync>(
    rt: &R,
    epochs: &Epochs,
    one: EpochSeat,
    two: EpochSeat,
    three: EpochSeat,
) -> u64
    requires one { IsOutside epochs.now one }
    requires two { IsOutside epochs.now two }
    requires three { IsOutside epochs.now three }
{
    let (_readers, done) = join(
        rt,
        move ||
            requires { IsOutside epochs.now one × IsOutside epochs.now two }
        { readers(rt, epochs, one, two) },
        move || -> u64
            requires { IsOutside epochs.now three }
        { retire_often(epochs, three) },
    );
    done
}

#[test]
fn two_threads_stay_while_a_third_retires(rt: HostRuntime) {
    let (epochs, one, two, three) = opened(&rt, rt.alloc());
    assert!(rt; three_threads(&rt, &epochs, one, two, three) == RETIREMENTS);
    drop(epochs);
}

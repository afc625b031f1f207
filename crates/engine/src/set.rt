//! The short way of a SET without an option, whose key and value stay the caller's.

ghost use Rattle.std.specs.Prelude.{◌≡◌, [], ℕ, Some, false, IfErr};
ghost use Rattle.words.specs.declared.command.Command.TheVariants as command;
ghost use Rattle.words.specs.declared.command.When.TheVariants.{Always};
ghost use Rattle.words.specs.declared.history.Operation.TheVariants.{Run};
ghost use Rattle.words.specs.Bounds.{IsBounded};
ghost use Rattle.words.specs.History.{History, due, keys_named, too_much};
ghost use Rattle.words.specs.Session.{line_reply};
ghost use Rattle.gates.specs.Passes.{AreAsTaken, IsResting, KeysHeld, known, stripes_of};
ghost use Rattle.gates.specs.Helds.{HasCommitted, IsOpen, gates_of, has_committed, held_parts, held_stripes, held_taken};
ghost use Rattle.gates.specs.Helds.{known_to, operation_asked};
ghost use Rattle.gates.specs.declared.report.Report.TheVariants.{Nothing};
ghost use Rattle.transact.specs.Calls.{answer_of};
ghost use Rattle.transact.specs.Plans.{IsPlan};
ghost use Rattle.transact.specs.Submits.{asked_for, stripes_asked};
ghost use Rattle.engine.specs.Answers.{IsAnswered};
ghost use Rattle.engine.specs.Calls.{promises_of};
ghost use Rattle.engine.specs.Entering.{MayBeGiven, MayEnter, asks_set, given, line_came_to, own_answer, setting_call};
ghost use Rattle.engine.specs.Memory.{set_call};
ghost use Rattle.engine.specs.Passes.{HasHands, OfSeats, know};
ghost use Rattle.engine.specs.Stops.{HasHeardFor, HasHeardWith, IfLacking};
ghost use Rattle.gates.specs.Sets.{part_at};
ghost use Rattle.plans.specs.Reserving.{LacksRoomToPut};

use crate::enter::{Stopped, told_of};
use crate::site::Site;
use device::{Device, Shows};
use epoch::EpochSeat;
use gates::{Asks, CommitsWornOut, Held, Latch, Pass, Point, Report};
use plans::freeing::reserve_freeing;
use plans::hands::Hands;
use plans::laws::{stripes_hold_keys, writes_install_a_command};
use plans::short::install_put;
use shards::retires::Retires;
use shards::shard::Shard;
use std::sync::Wait;
use transact::stripes::stripe_of_key;
use transact::weight::weighs_too_much;
use words::hash::Hashed;
use words::reply::{Fault, Line, Refusal};
use words::word::Word;

/// A SET without an option.
#[derive(Drop)]
pub(crate) struct Setting<'a> {
    pub(crate) key: &'a Hashed<'a>,
    pub(crate) value: &'a Word,
}

impl Asks for Setting<'_> {
    ghost use Rattle.engine.specs.Entering.{setting_asked};

    ghost asked = { setting_asked };
}

/// Runs a SET without an option of a pass over the gates. Its value is copied into the store. It is answered by a line.
///
/// # Errors
///
/// The fault that a call is answered which is not done.
pub(crate) fn submit_set<T: Wait, L: Latch, R: Shows, D: Device<Receipt = R>>(
    rt: &T,
    site: &Site<L, R>,
    pass: &mut Pass<Shard<R>>,
    device: &mut D,
    hands: &mut Option<Hands<R, EpochSeat>>,
    setting: &Setting,
) -> Result<Line, Fault>
    requires rests { IsResting R.is_steady site.now.gates.now pass.old }
    requires hands { HasHands site.now.epochs.now hands.old }
    requires place { IsBounded (command.Set setting.now.key.now setting.now.value.now Always) }
    ensures rests { IsResting R.is_steady site.now.gates.now pass.new }
    ensures hands { HasHands site.now.epochs.now hands.new }
    ensures heard { OfSeats (HasHeardWith (known pass.old) (known pass.new)) hands.old hands.new }
    ensures answered { IsAnswered (promises_of R.is_steady R.lends (stripes_of site.now.gates.now))
        (stripes_asked (stripes_of site.now.gates.now) (setting_call setting.now)) (setting_call setting.now) (answer_of result)
        (know (known pass.old) (D.failures device.old)) (know (known pass.new) (D.failures device.new)) }
{
    stripes_hold_keys::<R>();
    let gates = site.gates;
    let (key, value) = (setting.key, setting.value);
    let wanted = stripe_of_key(key, gates.stripes());
    let Some(mut taken) = hands.take() else {
        unreachable!()
    };
    let mut held = gates.take(rt, pass, &wanted);
    let (answer, report) = enter_set(site, &mut held, device, &mut taken.own, key, value);
    *hands = Some(taken);
    held.give(&report);
    answer
}

/// Runs a SET without an option over the parts that are held: makes room for its key and value, commits its one entry, and
/// copies them into the page. It looks nothing up, and takes no memory. A value that weighs too much is refused by the
/// reply. Beside the answer it gives what is told where the stripes are given back.
pub(crate) fn enter_set<L: Latch, R: Shows, D: Device<Receipt = R>, S: Retires>(
    site: &Site<L, R>,
    held: &mut Held<'_, Shard<R>>,
    device: &mut D,
    own: &mut S,
    key: &Hashed,
    value: &Word,
) -> (Result<Line, Fault>, Report)
    requires may { MayEnter R.is_steady (set_call key.now value.now) held.old }
    requires lent { AreAsTaken (held_taken held.old) (held_parts held.old) }
    requires place { IsBounded (command.Set key.now value.now Always) }
    requires is { S.is_of site.now.epochs.now own.old }
    ensures is { S.is_of site.now.epochs.now own.new }
    ensures heard { HasHeardFor own_answer (line_came_to result.0 result.1) (S.knows own.old) (S.knows own.new) }
    ensures lacks { IfErr result.0 (λ fault. IfLacking fault (LacksRoomToPut (held_stripes held.old) (key.now, Some value.now)
        (part_at (held_parts held.old)) (part_at (held_parts held.new)))) }
    ensures back { MayBeGiven R.is_steady false result.1 held.old held.new }
    ensures answered { IsAnswered (promises_of R.is_steady R.lends (held_stripes held.old)) [] (set_call key.now value.now)
        (answer_of result.0) (know (known_to held.old) (D.failures device.old))
        (know (given false result.1 (known_to held.new)) (D.failures device.new)) }
{
    writes_install_a_command::<R>();
    if weighs_too_much(key.key(), value) {
        return (refuse_set(site.latch, held, key, value), Report::Nothing);
    }
    let epochs = site.epochs;
    if let Err(halt) = reserve_freeing(held, key, Some(value), epochs, own, device) {
        let Stopped { fault, report } = told_of(halt.stop, halt.refused);
        return (Err(fault), report);
    }
    match commit_line(site.latch, held, key, value, Line::Done) {
        Ok(_) => {
            install_put(held, key, Some(value));
            (Ok(Line::Done), Report::Nothing)
        }
        Err(_) => (Err(Fault::CommitsWornOut), Report::Nothing),
    }
}

/// Commits a SET whose value weighs too much: it writes nothing.
fn refuse_set<L: Latch, R: Shows>(
    latch: &L,
    held: &mut Held<'_, Shard<R>>,
    key: &Hashed,
    value: &Word,
) -> Result<Line, Fault>
    requires may { MayEnter R.is_steady (set_call key.now value.now) held.old }
    requires place { IsBounded (command.Set key.now value.now Always) }
    requires due { (seen : History) → IsPlan seen (Run (command.Set key.now value.now Always)) too_much [] }
    ensures back { MayBeGiven R.is_steady false Nothing held.old held.new }
    ensures worn { IfErr result (λ fault. fault ≡ Fault.CommitsWornOut) }
    ensures answered { (failures : ℕ) → IsAnswered (promises_of R.is_steady R.lends (held_stripes held.old)) []
        (set_call key.now value.now) (answer_of result) (know (known_to held.old) failures) (know (known_to held.new) failures) }
{
    writes_install_a_command::<R>();
    let line = Line::Refused(Refusal::WritesTooMuch);
    match commit_line(latch, held, key, value, line) {
        Ok(_) => Ok(line),
        Err(_) => Err(Fault::CommitsWornOut),
    }
}

/// Commits a SET that is answered by a line. The latch is told directly before.
fn commit_line<L: Latch, R: Shows>(
    latch: &L,
    held: &mut Held<'_, Shard<R>>,
    key: &Hashed,
    value: &Word,
    line: Line,
) -> Result<u64, CommitsWornOut>
    requires open { IsOpen R.is_steady held.old }
    requires once { has_committed held.old ≡ false }
    requires place { IsBounded (command.Set key.now value.now Always) }
    requires due { R.is_steady → line_reply line ≡ due (known_to held.old).seen (asks_set held.old key.now value.now) }
    requires keys { KeysHeld (stripes_of (gates_of held.old)) (held_parts held.old) (keys_named (asks_set held.old key.now value.now)) }
    ensures { HasCommitted R.is_steady held.old (asks_set held.old key.now value.now) (line_reply line) held.new result }
{
    latch.at(held.number(), Point::Holding);
    held.commit(&Setting { key, value }, &line)
}

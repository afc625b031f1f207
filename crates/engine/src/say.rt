//! Calls that only read and say their reply themselves: where what their keys have lies near, it is copied once, to where the reply goes.

ghost use Rattle.std.specs.Prelude.{◌≡◌, ◌≤◌, ◌++◌, ℕ, [], false, IfNone, IfSome, IsSome, OnSome, vec_len, vec_capacity};
ghost use Rattle.words.specs.Bounds.{IsBounded};
ghost use Rattle.words.specs.Encoding.{encoding};
ghost use Rattle.gates.specs.Passes.{IsResting, known, stripes_of};
ghost use Rattle.gates.specs.Helds.{IsOpen, SameHold, held_parts, held_stripes, known_to};
ghost use Rattle.gates.specs.Sets.{part_at};
ghost use Rattle.gates.specs.declared.report.Report.TheVariants.{Nothing};
ghost use Rattle.hybrid.specs.Staging.{AreRight};
ghost use Rattle.engine.specs.Calls.{promises_of};
ghost use Rattle.engine.specs.Entering.{AreStripesOf, HasWaited, MayBeGiven, MayEnter};
ghost use Rattle.engine.specs.Got.{IsSpokenIn, WasSpoken, speaking_call, speaking_command, spoken_answer, spoken_reply, spoken_text};
ghost use Rattle.engine.specs.Passes.{HasHands};
ghost use Rattle.engine.specs.Stops.{HasHeardWith, TellsFull};
ghost use Rattle.epoch.specs.declared.view.View.{View};

use crate::enter::give_back;
use crate::site::Site;
use device::Shows;
use epoch::EpochSeat;
use gates::{Asks, Held, Latch, Pass, Point, Report, Says, Sorted};
use hybrid::Staged;
use plans::hands::Hands;
use plans::laws::{stripes_hold_keys, writes_install_a_command};
use plans::telling::{say_value, say_values};
use resp_write::{Said, SaidAll};
use shards::shard::Shard;
use std::sync::Wait;
use words::hash::Hashed;
use words::reply::Fault;
use words::word::Word;

/// A reply that was appended to the buffer of its caller.
#[derive(Drop)]
pub enum Spoken {
    /// That to a GET.
    Value(Said),
    /// That to an MGET.
    Values(SaidAll),
    /// That to a transaction of GETs.
    Gets(SaidAll),
}

/// A call that only reads.
#[derive(Drop)]
pub(crate) enum Speaking<'a> {
    /// A GET.
    Key(&'a Hashed<'a>),
    /// An MGET.
    Keys(&'a [Word]),
}

impl Asks for Speaking<'_> {
    ghost use Rattle.engine.specs.Got.{speaking_asked};

    ghost asked = { speaking_asked };
}

/// What such a call has said.
#[derive(Drop)]
pub(crate) struct Saying<'a> {
    pub(crate) spoken: &'a Spoken,
}

impl Says for Saying<'_> {
    ghost use Rattle.engine.specs.Got.{saying_reply};

    ghost said = { saying_reply };
}

/// Runs a call that only reads in one hold of its stripes, if what its keys have lies near and the buffer has room for the reply. `None`
/// otherwise: it was not answered then.
#[inline(always)]
pub(crate) fn say_at_once<T: Wait, L: Latch, R: Shows>(
    rt: &T,
    site: &Site<L, R>,
    pass: &mut Pass<Shard<R>>,
    hands: &Option<Hands<R, EpochSeat>>,
    call: &Speaking,
    wanted: &Sorted,
    out: &mut Vec<u8>,
) -> Option<Result<Spoken, Fault>>
    requires rests { IsResting R.is_steady site.now.gates.now pass.old }
    requires hands { HasHands site.now.epochs.now hands.now }
    requires place { IsBounded (speaking_command call.now) }
    requires wanted { AreStripesOf (stripes_of site.now.gates.now) (speaking_call call.now) wanted.now }
    ensures rests { IsResting R.is_steady site.now.gates.now pass.new }
    ensures heard { (view : View) → OnSome result (HasHeardWith (known pass.old) (known pass.new) view view) }
    ensures answered { WasSpoken (promises_of R.is_steady R.lends (stripes_of site.now.gates.now)) wanted.now call.now result
        (known pass.old) (known pass.new) }
    ensures waited { (failures : ℕ) → IfNone result (HasWaited wanted.now (known pass.old, failures) (known pass.new, failures)) }
    ensures said { IfSome result (λ spoken. out.new.items ≡ out.old.items ++ spoken_text spoken) }
    ensures unsaid { IfNone result (out.new.items ≡ out.old.items) }
    ensures within { vec_len out.new ≤ vec_capacity out.old }
{
    stripes_hold_keys::<R>();
    let Some(own) = hands else { unreachable!() };
    let gates = site.gates;
    let mut held = (&*gates).take(rt, &mut *pass, &*wanted);
    let spoken = enter_spoken(site, &mut held, call, &own.staged, out);
    give_back(held, false, &Report::Nothing);
    spoken
}

/// Runs a call that only reads over the parts that are held, if what its keys have lies near and the buffer has room for the reply:
/// appends it, and commits the one entry. `None` otherwise: nothing has changed then.
#[inline(always)]
fn enter_spoken<L: Latch, R: Shows>(
    site: &Site<L, R>,
    held: &mut Held<'_, Shard<R>>,
    call: &Speaking,
    staged: &Staged<R>,
    out: &mut Vec<u8>,
) -> Option<Result<Spoken, Fault>>
    requires may { MayEnter R.is_steady (speaking_call call.now) held.old }
    requires place { IsBounded (speaking_command call.now) }
    requires right { R.is_steady → AreRight staged.now }
    ensures back { MayBeGiven R.is_steady false Nothing held.old held.new }
    ensures answered { WasSpoken (promises_of R.is_steady R.lends (held_stripes held.old)) [] call.now result
        (known_to held.old) (known_to held.new) }
    ensures full { IfSome result (λ spoken. TellsFull (spoken_answer spoken) Nothing) }
    ensures untold { IfNone result (known_to held.new ≡ known_to held.old) }
    ensures said { IfSome result (λ spoken. out.new.items ≡ out.old.items ++ spoken_text spoken) }
    ensures unsaid { IfNone result (out.new.items ≡ out.old.items) }
    ensures within { vec_len out.new ≤ vec_capacity out.old }
{
    writes_install_a_command::<R>();
    let before = out.len();
    let Some(spoken) = say(held, call, staged, out) else {
        return None;
    };
    site.latch.at(held.number(), Point::Holding);
    match held.commit(call, &Saying { spoken: &spoken }) {
        Ok(_) => Some(Ok(spoken)),
        Err(_) => {
            out.truncate(before);
            Some(Err(Fault::CommitsWornOut))
        }
    }
}

/// Says what the keys of such a call have, if it lies near and the buffer has room for the reply.
#[inline(always)]
fn say<R: Shows>(
    held: &mut Held<'_, Shard<R>>,
    call: &Speaking,
    staged: &Staged<R>,
    out: &mut Vec<u8>,
) -> Option<Spoken>
    requires may { MayEnter R.is_steady (speaking_call call.now) held.old }
    ensures due { IfSome result (IsSpokenIn R.is_steady (R.is_honest × AreRight staged.now) call.now held.old) }
    ensures said { IfSome result (λ spoken. out.new.items ≡ out.old.items ++ encoding (spoken_reply spoken)) }
    ensures within { IsSome result → vec_len out.new ≤ vec_capacity out.old }
    ensures unsaid { IfNone result (out.new.items ≡ out.old.items) }
    ensures capacity { vec_capacity out.old ≤ vec_capacity out.new }
    ensures same { part_at (held_parts held.new) ≡ part_at (held_parts held.old) }
    ensures is_open { IsOpen R.is_steady held.new }
    ensures held { SameHold held.old held.new }
{
    match call {
        Speaking::Key(key) => match say_value(held, key, staged, out) {
            Some(said) => Some(Spoken::Value(said)),
            None => None,
        },
        Speaking::Keys(keys) => match say_values(held, keys, staged, out) {
            Some(said) => Some(Spoken::Values(said)),
            None => None,
        },
    }
}

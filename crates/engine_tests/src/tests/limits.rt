//! Engines at both ends of the range of each limit, and a store of more pages than the frames and places that an engine has where
//! nothing else is asked for.

ghost use Rattle.std.specs.Prelude.{⊤};
ghost use Rattle.engine.specs.Passes.{Rests};

use device::MemoryDevice;
use engine::{Engine, Pass};
use engine_harness::calls::sets_to;
use engine_harness::ends::{end_pass, end_word};
use engine_harness::engines::with_pass;
use engine_harness::filling::{fill, key_of};
use engine_harness::reading::gets;
use gates::Open;
use std::alloc::Global;
use std::process::Abort;
use std::sync::Wait;
use words::limits::{FRAMES_DEFAULT, Limits, PLACES_DEFAULT};
use words::word::Word;

/// Stripes, buckets, frames, places and clients: each of them at either end of its range, and those of a store larger than the
/// defaults. All at their most would take a gigabyte.
const SIZES: &[[usize; 5]] = &[
    [1, 1, 12, 64, 1],
    [64, 1, 12, 64, 1],
    [1, 65_536, 12, 65_536, 1],
    [1, 1, 256, 64, 64],
    [1, 65_536, 128, 8_192, 4],
    [64, 65_536, 12, 64, 64],
];

/// Whether a key is set to itself, and read then.
fn is_kept<R: Wait>(
    rt: &R,
    engine: &Engine<MemoryDevice>,
    pass: &mut Pass<MemoryDevice>,
    key: &Word,
) -> bool
    requires { Rests ⊤ engine.now pass.old }
    ensures { Rests ⊤ engine.now pass.new }
{
    if !sets_to(rt, engine, pass, key, key, &Open) {
        return false;
    }
    gets(rt, engine, pass, key, &[key.as_slice()], &Open)
}

/// How many of so many keys are set to a value and read then.
fn keeps<R: Wait>(
    rt: &R,
    alloc: Global,
    engine: &Engine<MemoryDevice>,
    pass: &mut Pass<MemoryDevice>,
    count: usize,
) -> Option<usize>
    requires { Rests ⊤ engine.now pass.old }
{
    let mut kept = 0usize;
    for number in 0..count {
        let key = key_of(alloc, number)?;
        if is_kept(rt, engine, pass, &key) {
            kept = kept.saturating_add(1);
        }
        end_word(key);
    }
    Some(kept)
}

/// How many of 100 keys an engine of these sizes keeps.
fn kept_of<R: Abort + Wait>(rt: &R, alloc: Global, sizes: &[usize; 5]) -> Option<usize> {
    let [stripes, buckets, frames, places, clients] = *sizes;
    let limits = Limits::new(stripes, buckets, frames, places, clients).expect(rt, "limits");
    let (engine, mut pass) = with_pass(alloc, &limits).expect(rt, "memory for an engine");
    let kept = keeps(rt, alloc, &engine, &mut pass, 100);
    end_pass(pass);
    engine.end();
    kept
}

#[test]
fn engines_at_both_ends_of_each_range(rt: HostRuntime) {
    for sizes in SIZES {
        assert!(rt; kept_of(&rt, rt.alloc(), sizes) == Some(100), "{sizes:?}");
    }
}

/// How many pages a store of the defaults holds at most: those that have frames and those that have places.
const PAGES: usize = FRAMES_DEFAULT + PLACES_DEFAULT;

/// A value of which a page holds one.
const VALUE: [u8; 32_760] = [b'v'; 32_760];

/// Whether the key of this number has the value. `None` where there was no memory.
fn has_key<R: Wait>(
    rt: &R,
    alloc: Global,
    engine: &Engine<MemoryDevice>,
    pass: &mut Pass<MemoryDevice>,
    number: usize,
) -> Option<bool>
    requires { Rests ⊤ engine.now pass.old }
    ensures { Rests ⊤ engine.now pass.new }
{
    let key = key_of(alloc, number)?;
    let has = gets(rt, engine, pass, &key, &[&VALUE], &Open);
    end_word(key);
    Some(has)
}

/// How many of these keys have the value, one of each hundred, until one has not.
fn finds<R: Wait>(
    rt: &R,
    alloc: Global,
    engine: &Engine<MemoryDevice>,
    pass: &mut Pass<MemoryDevice>,
    hundreds: usize,
) -> Option<usize>
    requires { Rests ⊤ engine.now pass.old }
{
    for number in 0..hundreds {
        if !has_key(rt, alloc, engine, pass, number.saturating_mul(100))? {
            return Some(number);
        }
    }
    Some(hundreds)
}

/// How many of so many keys can be set at a store of these limits, and how many of one in each hundred of them are read then.
fn stored_and_found<R: Abort + Wait>(
    rt: &R,
    alloc: Global,
    limits: &Limits,
    count: usize,
) -> (usize, Option<usize>) {
    let (engine, mut pass) = with_pass(alloc, limits).expect(rt, "memory for an engine");
    let stored = fill(rt, alloc, &engine, &mut pass, &VALUE, count).unwrap_or(0);
    let found = finds(rt, alloc, &engine, &mut pass, stored / 100);
    end_pass(pass);
    engine.end();
    (stored, found)
}

/// More pages than a store of the defaults holds, in one stripe.
#[test]
fn a_store_of_more_pages_than_the_defaults_hold(rt: HostRuntime) {
    let limits = Limits::new(1, 65_536, 128, 8_192, 1).expect(&rt, "limits");
    let count = PAGES + 72;
    let (stored, found) = stored_and_found(&rt, rt.alloc(), &limits, count);
    assert!(rt; stored == count, "{stored}");
    assert!(rt; found == Some(42), "{found:?}");
}

//! Keys that fill pages. A page has 63 records of them with the value of these tests, and of 12 frames 4 are mutable. So 630 keys
//! fill 10 pages, of which 6 wait to be written.

ghost use Rattle.engine.specs.Passes.{Rests};

use crate::calls::sets_to;
use device::Device;
use engine::{Engine, Pass};
use gates::Open;
use std::alloc::Global;
use std::sync::Wait;
use words::word::Word;

/// How many keys are set.
pub const KEYS: usize = 630;

/// The value of these tests.
pub const VALUE: [u8; 1000] = [b'v'; 1000];

/// Keys that are set in turn to a value: the one with the first number, those behind it, and the first again.
#[derive(Clone, Copy)]
pub struct Turn<'a> {
    pub first: usize,
    pub keys: usize,
    pub value: &'a [u8],
}

impl<'a> Turn<'a> {
    /// The number of the key that is set once so many were set.
    pub fn key(self, count: usize) -> usize {
        let behind = count.checked_rem(self.keys).unwrap_or(0);
        self.first.saturating_add(behind)
    }
}

/// The key of this number, below 10,000. `None` where there was no memory.
pub fn key_of(alloc: Global, number: usize) -> Option<Word> {
    let text = [
        b'k',
        b'0' + (number / 1000 % 10) as u8,
        b'0' + (number / 100 % 10) as u8,
        b'0' + (number / 10 % 10) as u8,
        b'0' + (number % 10) as u8,
    ];
    Word::from_slice(alloc, &text).ok()
}

/// Whether the key of this number can be set to a value. `None` where there was no memory.
fn sets_key<R: Wait, D: Device>(
    rt: &R,
    alloc: Global,
    engine: &Engine<D>,
    pass: &mut Pass<D>,
    number: usize,
    value: &Word,
) -> Option<bool>
    requires rests { Rests D.Receipt.is_steady engine.now pass.old }
    ensures rests { Rests D.Receipt.is_steady engine.now pass.new }
{
    let key = key_of(alloc, number)?;
    let is_set = sets_to(rt, engine, pass, &key, value, &Open);
    drop(key);
    Some(is_set)
}

/// How many of so many settings in turn are done, until one is not. `None` where there was no memory.
fn fill_with<R: Wait, D: Device>(
    rt: &R,
    alloc: Global,
    engine: &Engine<D>,
    pass: &mut Pass<D>,
    value: &Word,
    turn: Turn<'_>,
    count: usize,
) -> Option<usize>
    requires rests { Rests D.Receipt.is_steady engine.now pass.old }
    ensures rests { Rests D.Receipt.is_steady engine.now pass.new }
{
    for number in 0..count {
        if !sets_key(rt, alloc, engine, pass, turn.key(number), value)? {
            return Some(number);
        }
    }
    Some(count)
}

/// How many of so many settings in turn are done, until one is not. `None` where there was no memory.
pub fn fill_in_turn<R: Wait, D: Device>(
    rt: &R,
    alloc: Global,
    engine: &Engine<D>,
    pass: &mut Pass<D>,
    turn: Turn<'_>,
    count: usize,
) -> Option<usize>
    requires rests { Rests D.Receipt.is_steady engine.now pass.old }
    ensures rests { Rests D.Receipt.is_steady engine.now pass.new }
{
    let value = Word::from_slice(alloc, turn.value).ok()?;
    let count = fill_with(rt, alloc, engine, pass, &value, turn, count);
    drop(value);
    count
}

/// How many of so many keys can be set to a value, one after the other, until one can not. `None` where there was no memory.
pub fn fill<R: Wait, D: Device>(
    rt: &R,
    alloc: Global,
    engine: &Engine<D>,
    pass: &mut Pass<D>,
    value: &[u8],
    count: usize,
) -> Option<usize>
    requires rests { Rests D.Receipt.is_steady engine.now pass.old }
    ensures rests { Rests D.Receipt.is_steady engine.now pass.new }
{
    let turn = Turn {
        first: 0,
        keys: count,
        value,
    };
    fill_in_turn(rt, alloc, engine, pass, turn, count)
}

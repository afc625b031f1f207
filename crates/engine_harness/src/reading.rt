//! GETs that are asked in several ways.

ghost use Rattle.engine.specs.Passes.{Rests};

use crate::calls::answer_of;
use crate::trying::tried_answer;
use device::Device;
use engine::{Engine, Pass};
use gates::{Latch, Open};
use std::alloc::Global;
use std::sync::Wait;
use transact::call::Answer;
use words::limits::KEY_BYTES_MAX;
use words::reply::{CommandReply, Item, Reply};
use words::word::Word;

/// A way in which a GET is asked. The first two have rounds of their own.
#[derive(Clone, Copy)]
pub enum Way {
    /// As the server asks a plain GET that it could not say at once.
    Get,
    /// As any call.
    Submit,
    /// As a call that does not wait.
    Try,
}

/// Whether a value is one of these.
fn is_among(value: &[u8], values: &[&[u8]]) -> bool {
    for one in values {
        if *one == value {
            return true;
        }
    }
    false
}

/// Whether a key within the limits has one of these values, by [`Engine::get`].
pub fn gets<R: Wait, L: Latch, D: Device>(
    rt: &R,
    engine: &Engine<D>,
    pass: &mut Pass<D>,
    key: &Word,
    values: &[&[u8]],
    latch: &L,
) -> bool
    requires rests { Rests D.Receipt.is_steady engine.now pass.old }
    ensures rests { Rests D.Receipt.is_steady engine.now pass.new }
{
    if key.len() > KEY_BYTES_MAX {
        return false;
    }
    match engine.get(rt, pass, key, latch) {
        Ok(Some(word)) => {
            let is_one = is_among(word.as_slice(), values);
            drop(word);
            is_one
        }
        Ok(None) | Err(_) => false,
    }
}

/// The same of the key of a GET. False also where there was no memory for the key.
fn gets_asked<R: Wait, D: Device>(
    rt: &R,
    alloc: Global,
    engine: &Engine<D>,
    pass: &mut Pass<D>,
    get: &str,
    values: &[&[u8]],
) -> bool
    requires rests { Rests D.Receipt.is_steady engine.now pass.old }
    ensures rests { Rests D.Receipt.is_steady engine.now pass.new }
{
    let Some((_, key)) = get.split_once(' ') else {
        return false;
    };
    let Ok(key) = Word::from_slice(alloc, key.as_bytes()) else {
        return false;
    };
    let is_one = gets(rt, engine, pass, &key, values, &Open);
    drop(key);
    is_one
}

/// Whether a GET was answered by one of these values. The answer is let go then.
fn is_one_of(answer: Option<Answer>, values: &[&[u8]]) -> bool {
    let is_one = match &answer {
        Some(Answer::Reply(Reply::Single(CommandReply::One(Item::Bulk(word))))) => {
            is_among(word.as_slice(), values)
        }
        _ => false,
    };
    drop(answer);
    is_one
}

impl Way {
    /// Whether a GET that is asked this way is answered by one of these values.
    pub fn reads<R: Wait, D: Device>(
        self,
        rt: &R,
        alloc: Global,
        engine: &Engine<D>,
        pass: &mut Pass<D>,
        get: &str,
        values: &[&[u8]],
    ) -> bool
        requires rests { Rests D.Receipt.is_steady engine.now pass.old }
        ensures rests { Rests D.Receipt.is_steady engine.now pass.new }
    {
        match self {
            Way::Get => gets_asked(rt, alloc, engine, pass, get, values),
            Way::Submit => is_one_of(answer_of(rt, alloc, &Open, engine, pass, get), values),
            Way::Try => is_one_of(tried_answer(alloc, engine, pass, get), values),
        }
    }
}

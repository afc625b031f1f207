//! Random requests.

use crate::dice::Dice;
use crate::random::Mood;
use bytes::Bytes;
use itoa::Buffer;
use std::alloc::Global;

/// The keys, by their last byte.
const KEYS: [u8; 64] = *b"0123456789abcdefghijklmnopqrstuvwxyzABCDEFGHIJKLMNOPQRSTUVWXYZ-+";

/// How many of the first of them are asked for as often as all together.
const OFTEN: usize = 8;

/// A value of this many bytes or more has a page for itself.
const LARGE: usize = 32_731;

/// How many lengths a large value may have, and a small one.
const LARGE_LENGTHS: usize = 20;

const SMALL_LENGTHS: usize = 8_000;

/// A random request: a GET, an MGET of two keys, a DEL, a WATCH, a SET of a random value, an MSET of two small ones; or
/// the four of a transaction with a SET and a GET. Where logs grow, a SET three of four times.
pub(crate) fn request(alloc: Global, dice: &mut Dice, mood: Mood) -> Option<Bytes> {
    let mut text = Vec::new(alloc);
    let kinds = match mood {
        Mood::Grows => 32,
        Mood::Cleans => 12,
    };
    match dice.below(kinds) {
        0 => add_one_key(&mut text, dice, b"*2\r\n$3\r\nDEL\r\n")?,
        1 | 2 => add_one_key(&mut text, dice, b"*2\r\n$3\r\nGET\r\n")?,
        3 => {
            add_one_key(&mut text, dice, b"*3\r\n$4\r\nMGET\r\n")?;
            add_key(&mut text, dice)?;
        }
        4 => add_one_key(&mut text, dice, b"*2\r\n$5\r\nWATCH\r\n")?,
        5 => add_mset(&mut text, dice)?,
        6 | 7 => add_transaction(&mut text, dice)?,
        _ => add_set(&mut text, dice)?,
    }
    Bytes::from_vec(text).ok()
}

/// Adds a MULTI, a SET, a GET and an EXEC.
fn add_transaction(text: &mut Vec<u8>, dice: &mut Dice) -> Option<()> {
    add(text, b"*1\r\n$5\r\nMULTI\r\n")?;
    add_set(text, dice)?;
    add_one_key(text, dice, b"*2\r\n$3\r\nGET\r\n")?;
    add(text, b"*1\r\n$4\r\nEXEC\r\n")
}

/// Adds a SET.
fn add_set(text: &mut Vec<u8>, dice: &mut Dice) -> Option<()> {
    add_one_key(text, dice, b"*3\r\n$3\r\nSET\r\n")?;
    add_value(text, dice)
}

/// Adds an MSET.
fn add_mset(text: &mut Vec<u8>, dice: &mut Dice) -> Option<()> {
    add_one_key(text, dice, b"*5\r\n$4\r\nMSET\r\n")?;
    add_small_value(text, dice)?;
    add_key(text, dice)?;
    add_small_value(text, dice)
}

/// Adds this front of a request, and a random key.
fn add_one_key(text: &mut Vec<u8>, dice: &mut Dice, front: &[u8]) -> Option<()> {
    add(text, front)?;
    add_key(text, dice)
}

/// Adds a random key.
fn add_key(text: &mut Vec<u8>, dice: &mut Dice) -> Option<()> {
    let count = if dice.below(2) == 0 { OFTEN } else { 64 };
    add(text, b"$2\r\nk")?;
    add(text, &[KEYS[dice.below(count)]])?;
    add(text, b"\r\n")
}

/// Adds a random value, of three times two a large one.
fn add_value(text: &mut Vec<u8>, dice: &mut Dice) -> Option<()> {
    if dice.below(3) == 0 {
        return add_small_value(text, dice);
    }
    let count = LARGE + dice.below(LARGE_LENGTHS);
    add_bulk(text, letter(dice), count)
}

/// Adds a random value that is not large.
fn add_small_value(text: &mut Vec<u8>, dice: &mut Dice) -> Option<()> {
    let count = dice.below(SMALL_LENGTHS);
    add_bulk(text, letter(dice), count)
}

/// A random letter.
fn letter(dice: &mut Dice) -> u8 {
    b'a' + dice.below(26) as u8
}

/// Adds a bulk string of so many bytes, all of them this one.
fn add_bulk(text: &mut Vec<u8>, byte: u8, count: usize) -> Option<()> {
    add(text, b"$")?;
    add(text, Buffer::new().format(count).as_bytes())?;
    add(text, b"\r\n")?;
    for _ in 0..count {
        text.push(byte).ok()?;
    }
    add(text, b"\r\n")
}

/// Adds bytes to a text.
fn add(text: &mut Vec<u8>, bytes: &[u8]) -> Option<()> {
    text.extend_from_slice(bytes).ok()
}

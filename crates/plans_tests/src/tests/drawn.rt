//! Calls that are drawn by a generator of numbers.

ghost use Rattle.std.specs.Prelude.{◌<◌};

use super::{Both, away, both_of, have_flushed, memory, run_both};
use device::Device;
use std::alloc::Global;
use std::process::Abort;

/// Numbers as a linear congruential generator draws them (Knuth, "MMIX").
#[derive(Drop)]
struct Draw {
    state: u64,
}

impl Draw {
    /// The next number, below `count`.
    fn below(&mut self, count: u64) -> u64
        requires { 0 < count }
        ensures { result < count }
    {
        self.state = self
            .state
            .wrapping_mul(6_364_136_223_846_793_005)
            .wrapping_add(1_442_695_040_888_963_407);
        (self.state >> 33) % count
    }
}

/// What a line is filled with.
#[derive(Drop)]
struct Texts {
    /// A key of forty, in place of `@`.
    key: String,
    /// Another, in place of `&`.
    other: String,
    /// A value of one letter, again and again, in place of `$`.
    value: String,
    /// A number, in place of `#`.
    number: String,
}

/// The lines. A key that begins with `n` has a number.
const LINES: [&str; 25] = [
    "GET @",
    "GET &",
    "DEL @ & @",
    "APPEND @ $",
    "INCR n@",
    "INCRBY n@ #",
    "MSET @ $ & # @ #",
    "MSET @ $ & $",
    "MGET @ & key:0 key:1 key:2 n@",
    "MGET n@ & @",
    "EXISTS @ &",
    "GETDEL @",
    "SETRANGE @ # $",
    "STRLEN @",
    "GETSET @ $",
    "MSETNX @ $ & #",
    "GETRANGE @ 3 40",
    "SET @ $",
    "SET & $",
    "SET @ # NX",
    "SET @ $ GET",
    "SET & # get XX",
    "RENAME @ &",
    "RENAME n@ n&",
    "RENAME @ @",
];

/// A key of forty.
fn draw_key(alloc: Global, draw: &mut Draw) -> Option<String> {
    let number = draw.below(40);
    format!(in alloc; "key:{number}").ok()
}

/// A number below 12,000.
fn draw_number(alloc: Global, draw: &mut Draw) -> Option<String> {
    let number = draw.below(12_000);
    format!(in alloc; "{number}").ok()
}

/// How long a value is: mostly some thousand bytes, and now and then the most that a value may have, 32,768.
fn draw_length(draw: &mut Draw) -> u64 {
    match draw.below(40) {
        0 => 32_768,
        1 | 2 => 1 + draw.below(32_000),
        _ => 1 + draw.below(3600),
    }
}

/// A value of one letter, again and again.
fn draw_value(alloc: Global, draw: &mut Draw) -> Option<String> {
    let letter = b'a' + draw.below(26) as u8;
    let mut value = String::new(alloc);
    for _ in 0..draw_length(draw) {
        value.push(letter as char).ok()?;
    }
    Some(value)
}

/// What a line is filled with.
fn draw_texts(alloc: Global, draw: &mut Draw) -> Option<Texts> {
    Some(Texts {
        key: draw_key(alloc, draw)?,
        other: draw_key(alloc, draw)?,
        value: draw_value(alloc, draw)?,
        number: draw_number(alloc, draw)?,
    })
}

/// A line with its texts in their places.
fn fill(line: &mut String, form: &str, texts: &Texts) -> Option<()> {
    for letter in form.chars() {
        match letter {
            '@' => line.push_str(texts.key.as_str()).ok()?,
            '&' => line.push_str(texts.other.as_str()).ok()?,
            '$' => line.push_str(texts.value.as_str()).ok()?,
            '#' => line.push_str(texts.number.as_str()).ok()?,
            _ => line.push(letter).ok()?,
        }
    }
    Some(())
}

/// One more line.
fn draw_line(alloc: Global, draw: &mut Draw, lines: &mut String) -> Option<()> {
    let texts = draw_texts(alloc, draw)?;
    let form = LINES[draw.below(25) as usize];
    let filled = fill(lines, form, &texts);
    drop(texts);
    filled
}

/// One line, or up to five.
fn draw_lines(alloc: Global, draw: &mut Draw) -> Option<String> {
    let mut lines = String::new(alloc);
    draw_line(alloc, draw, &mut lines)?;
    if draw.below(8) == 0 {
        for _ in 0..1 + draw.below(4) {
            lines.push('\n').ok()?;
            draw_line(alloc, draw, &mut lines)?;
        }
    }
    Some(lines)
}

/// Runs so many drawn calls on both, some of them transactions.
fn run_drawn<D: Device>(
    rt: &impl Abort,
    alloc: Global,
    both: &mut Both<D>,
    seed: u64,
    count: usize,
) -> Option<()> {
    let mut draw = Draw { state: seed };
    for _ in 0..count {
        let lines = draw_lines(alloc, &mut draw)?;
        let is_same = run_both(alloc, both, lines.as_str());
        assert!(rt; is_same, "{lines}");
    }
    Some(())
}

/// Whether a key has the same in both.
fn agrees_at<D: Device>(alloc: Global, both: &mut Both<D>, number: u64) -> bool {
    let Ok(line) = format!(in alloc; "MGET key:{number} nkey:{number}") else {
        return false;
    };
    run_both(alloc, both, line.as_str())
}

/// Whether each key has the same in both.
fn agree<D: Device>(alloc: Global, both: &mut Both<D>) -> bool {
    for number in 0..40 {
        if !agrees_at(alloc, both, number) {
            return false;
        }
    }
    true
}

/// Runs so many drawn calls on both; then each key has the same in both, and pages of each stripe have left their frames.
fn run_and_compare<D: Device>(
    rt: &impl Abort,
    alloc: Global,
    mut both: Both<D>,
    seed: u64,
    count: usize,
) {
    let is_drawn = run_drawn(rt, alloc, &mut both, seed, count).is_some();
    assert!(rt; is_drawn);
    let is_same = agree(alloc, &mut both);
    assert!(rt; is_same);
    let flushed = have_flushed(&mut both.store);
    assert!(rt; flushed);
}

#[test]
fn drawn_calls_on_one_stripe(rt: HostRuntime) {
    let alloc = rt.alloc();
    let device = memory(alloc).expect(&rt, "memory for a device");
    let both = both_of(alloc, 1, 5_000, device).expect(&rt, "memory for a store");
    run_and_compare(&rt, alloc, both, 1, 2500);
}

#[test]
fn drawn_calls_on_three_stripes(rt: HostRuntime) {
    let alloc = rt.alloc();
    let device = memory(alloc).expect(&rt, "memory for a device");
    let both = both_of(alloc, 3, 5_000, device).expect(&rt, "memory for a store");
    run_and_compare(&rt, alloc, both, 3, 2500);
}

#[test]
fn drawn_calls_on_one_stripe_that_is_read(rt: HostRuntime) {
    let alloc = rt.alloc();
    let device = away(alloc).expect(&rt, "memory for a device");
    let both = both_of(alloc, 1, 5_000, device).expect(&rt, "memory for a store");
    run_and_compare(&rt, alloc, both, 5, 700);
}

#[test]
fn drawn_calls_on_three_stripes_that_are_read(rt: HostRuntime) {
    let alloc = rt.alloc();
    let device = away(alloc).expect(&rt, "memory for a device");
    let both = both_of(alloc, 3, 5_000, device).expect(&rt, "memory for a store");
    run_and_compare(&rt, alloc, both, 7, 2800);
}

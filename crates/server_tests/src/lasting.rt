//! What a server keeps up over time: each of its stripes is cleaned, its file does not grow, and a while without any client ends
//! nothing.

use crate::client::{
    OK, QUIT, answers, answers_words, connect, is_at_end, with_file, with_options,
};
use crate::overwriting::overwrites_often;
use crate::pages::options;
use gates::Open;
use options::{DeviceKind, Options};
use std::fs;
use std::net::{Net, TcpStream};
use std::rt::Clock;
use std::sync::Wait;
use std::thread::sleep;
use std::time::Duration;
use words::limits::{BUCKETS_DEFAULT, FRAMES_MIN};

/// How often all keys are written. They take ten times as many pages then as a stripe has places.
const ROUNDS: u32 = 32;

/// How often all keys of two stripes are written. Each stripe takes more than twice as many pages then as it has places.
const ROUNDS_OF_TWO: u32 = 16;

/// The options of a server with two stripes of 12 frames and 64 places each, for one connection.
fn two_stripes() -> Option<Options> {
    Options::new(
        0,
        1,
        2,
        BUCKETS_DEFAULT,
        FRAMES_MIN,
        64,
        1,
        DeviceKind::Memory,
    )
}

/// Writes all keys again and again, and says whether they have their values in the end.
fn overwrites<R>(rt: &R, port: u16) -> Option<bool>
where
    R: AllocGlobal + Clock + Net<Stream = TcpStream> + Wait,
{
    overwrites_often(rt, port, ROUNDS)
}

/// Writes all keys of two stripes again and again, and says whether they have their values in the end.
fn overwrites_two<R>(rt: &R, port: u16) -> Option<bool>
where
    R: AllocGlobal + Clock + Net<Stream = TcpStream> + Wait,
{
    overwrites_often(rt, port, ROUNDS_OF_TWO)
}

/// The keys of a piece lie in both stripes, so neither of them may stay full.
#[test]
fn each_stripe_of_two_stays_inside_its_places(rt: HostRuntime) {
    let outcome = with_options(&rt, &Open, two_stripes(), overwrites_two);
    assert!(rt; outcome.is_well(1));
    drop(outcome);
}

/// The bytes of a file of 64 pages.
const LENGTH_MAX: u64 = 64 * 65_536;

/// Ten times as many pages are written as the stripe has places. Each place that comes back is used again, so the file has no
/// more pages than that.
#[test]
fn a_file_that_is_overwritten_for_long_does_not_grow(rt: HostRuntime) {
    let path = "does_not_grow.pages";
    let outcome = with_file(&rt, options(64, 1, 1), path, overwrites);
    assert!(rt; outcome.is_well(1));
    let length = fs::metadata(&rt, path).expect(&rt, "the file").len();
    assert!(rt; 0 < length && length <= LENGTH_MAX, "{length}");
    assert!(rt; fs::remove_file(&rt, path).is_ok());
    drop(outcome);
}

/// How often all keys are written after the lull. That takes twice as many pages as there are places.
const ROUNDS_AFTER: u32 = 7;

/// A client sets a key and quits.
fn sets_and_quits<R>(rt: &R, port: u16) -> Option<bool>
where
    R: AllocGlobal + Net<Stream = TcpStream>,
{
    let stream = connect(rt, port)?;
    let told = answers_words(rt.alloc(), &stream, &["SET", "k", "v"], OK)
        && answers(&stream, QUIT, OK)
        && is_at_end(&stream);
    drop(stream);
    Some(told)
}

/// A client comes and goes, nobody is there for a while, and then another one overwrites the store.
fn overwrites_after_a_lull<R>(rt: &R, port: u16) -> Option<bool>
where
    R: AllocGlobal + Clock + Net<Stream = TcpStream> + Wait,
{
    let told = sets_and_quits(rt, port)?;
    sleep(rt, Duration::from_millis(300));
    Some(told && overwrites_often(rt, port, ROUNDS_AFTER)?)
}

/// The threads of the background go on where nobody is served for a while.
#[test]
fn a_store_is_cleaned_after_a_lull(rt: HostRuntime) {
    let outcome = with_options(&rt, &Open, options(64, 1, 2), overwrites_after_a_lull);
    assert!(rt; outcome.is_well(2));
    drop(outcome);
}

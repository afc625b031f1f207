//! Runs of `replay` beside the one that is stored with it, each on the words of a command line: what is
//! printed, and then the exit status. One is traced. The last is a schedule of some 20,000 events.

use anyhow::Result;
use schedules::{Shown, Until, run_schedule};
use std::alloc::{AllocError, Global};
use std::io;
use streams::Noted;

/// A schedule that runs, two with a bad line, one that is not there, an option that there is not, and the help.
const WORDS: [&str; 6] = [
    "watched.schedule",
    "bad.schedule",
    "empty.schedule",
    "absent.schedule",
    "--colour",
    "--help",
];

/// Prints each run.
pub(crate) fn replay_each(rt: &HostRuntime) -> Result<()> {
    for word in WORDS {
        let code = replaying::answer(rt, &["replay", word]);
        println!(rt; "{word}: {code:?}")?;
    }
    let code = replaying::answer(rt, &["replay", "--trace", "watched.schedule"]);
    println!(rt; "traced: {code:?}")?;
    let schedule = long(rt.alloc(), 20_000)?;
    let mut reader = Noted::new(schedule.as_slice());
    let mut writer = Noted::new(io::writer(rt));
    let ran = run_schedule(
        rt.alloc(),
        Shown::Report,
        Until::Done,
        &mut reader,
        &mut writer,
    );
    println!(rt; "20,000 events: {ran:?}")?;
    Ok(())
}

/// A schedule of so many events that are not enabled, and then a client's `PING`.
fn long(alloc: Global, count: usize) -> Result<Vec<u8>, AllocError> {
    let mut text = Vec::from_slice(alloc, b"world 1 1 12\n")?;
    for _ in 0..count {
        text.extend_from_slice(b"commit 0\n")?;
    }
    text.extend_from_slice(b"piece 0 2a310d0a24340d0a50494e470d0a\n")?;
    Ok(text)
}

//! Running a schedule: it is read whole, run, and what each client was told is written.

ghost use Rattle.std.specs.Prelude.{◌≡◌, IfOk, IfErr, OnOk, List, ℕ, MatchResult};
ghost use Rattle.std.specs.Io.KnownBytes.{Appends, Consumes, IsAtEnd};
ghost use Rattle.streams.specs.Streams.{stream_of, told_of, IsSent};
ghost use Rattle.world_model.specs.Told.{Headline};
ghost use Rattle.world.specs.Tables.{IsWorld, state_of};
ghost use Rattle.schedules.specs.Runs.{AreLinesOf, HasEnded, IsFault, IsReport, IsReported, IsRun, IsShown, IsTraceOf, IsWhole, ReadTold, ReaderTold, writer_told};

use crate::fault::ReplayFault;
use crate::report::report_of;
use crate::schedule::{ParseFault, Schedule, parse};
use crate::traces::traced;
use crate::until::Until;
use std::alloc::{AllocError, Global};
use std::io::{Read, Write};
use streams::{Input, Noted};
use words::word::OutOfMemory;
use world::World;

/// What is written of a run.
#[derive(Clone, Copy, Debug, PartialEq, Eq)]
pub enum Shown {
    /// What each client was told, and how many entries the history has, as [`replay`] gives it.
    Report,
    /// A line for each event, and then the report, as [`trace`] gives it.
    Trace,
}

/// How many bytes are read at a time.
const ROOM: usize = 4_096;

/// Reads all that a reader has left.
fn read_all<R: Read>(alloc: Global, reader: &mut Noted<R>) -> Result<Vec<u8>, ReplayFault>
    ensures read { (text : List ℕ)
        × Consumes (R.remaining (stream_of reader.old)) (R.remaining (stream_of reader.new)) text
        × IfOk result (λ whole. whole.items ≡ text) }
    ensures end { OnOk result (IsAtEnd (R.remaining (stream_of reader.new))) }
    ensures told { ReadTold result (told_of reader.old) (told_of reader.new) }
{
    let mut text = Vec::new(alloc);
    let mut room = [0; ROOM];
    loop {
        match reader.read(&mut room) {
            Input::Bytes(count) => {
                if text.extend_from_slice(&room[..count]).is_err() {
                    return Err(ReplayFault::OutOfMemory);
                }
            }
            Input::End => return Ok(text),
            Input::Failure => return Err(ReplayFault::CannotRead),
        }
    }
}

/// Runs a schedule, and reports it.
fn outcome(alloc: Global, until: Until, schedule: &Schedule) -> Result<Vec<u8>, OutOfMemory>
    ensures { IfOk result (λ report. IsReported until schedule.now.limits schedule.now.events.items report.items) }
{
    let world = World::new(alloc, &schedule.limits)?;
    let Ok(world) = world.run(schedule.events.as_slice()) else {
        return Err(AllocError);
    };
    let world = ended(world, until)?;
    let report = report_of(alloc, &world);
    world.end();
    report
}

/// Does what is done behind a schedule's events.
fn ended(world: World, until: Until) -> Result<World, OutOfMemory>
    requires world { IsWorld world }
    requires headline { Headline (state_of world) }
    ensures ended { IfOk result (λ next. HasEnded until (state_of world) (state_of next)) }
    ensures headline { IfOk result (λ next. Headline (state_of next)) }
    ensures world { IfOk result IsWorld }
{
    match until {
        Until::Done => Ok(world),
        Until::Rest => match world.finish() {
            Ok(next) => Ok(next),
            Err(_) => Err(AllocError),
        },
    }
}

/// Runs the schedule that a text is, until then, and reports it: a line for each client, from client 0, with its
/// number, a colon and all that was written to it in lower-case hexadecimal; and last a line with the number of
/// entries of the history.
///
/// # Errors
///
/// The number of the schedule's first bad line, or want of memory, whichever is met first. Nothing is run
/// where a line is bad.
pub fn replay(alloc: Global, until: Until, text: &[u8]) -> Result<Vec<u8>, ReplayFault>
    ensures { MatchResult result (λ report. IsReport until text.now report.items) (IsFault text.now) }
{
    show(alloc, Shown::Report, until, text)
}

/// Runs the schedule that a text is, until then, and traces it: a line for each event, and then the report. The line of
/// an event has the number of its line in the schedule, counted from 1, that line, and then, each after ` | `, whether the
/// event was `enabled` or `not enabled`; where its client was told something by it, `told` and that in lower-case
/// hexadecimal; and where it added an entry to the history, `entry` and the entry's position, counted from 0. Events
/// that were done behind the schedule's are numbered as if they stood there.
///
/// # Errors
///
/// As [`replay`].
pub fn trace(alloc: Global, until: Until, text: &[u8]) -> Result<Vec<u8>, ReplayFault>
    ensures { MatchResult result (λ lines. IsTraceOf until text.now lines.items) (IsFault text.now) }
{
    show(alloc, Shown::Trace, until, text)
}

/// Runs the schedule that a text is, and gives what is to be shown of it.
fn show(alloc: Global, shown: Shown, until: Until, text: &[u8]) -> Result<Vec<u8>, ReplayFault>
    ensures { MatchResult result (λ lines. IsShown shown until text.now lines.items) (IsFault text.now) }
{
    match parse(alloc, text) {
        Ok(schedule) => match lines_of(alloc, shown, until, &schedule) {
            Ok(lines) => Ok(lines),
            Err(_) => Err(ReplayFault::OutOfMemory),
        },
        Err(fault) => match fault {
            ParseFault::BadLine(number) => Err(ReplayFault::BadLine(number)),
            ParseFault::OutOfMemory => Err(ReplayFault::OutOfMemory),
        },
    }
}

/// Runs a schedule, and gives what is to be shown of it.
fn lines_of(
    alloc: Global,
    shown: Shown,
    until: Until,
    schedule: &Schedule,
) -> Result<Vec<u8>, OutOfMemory>
    ensures { IfOk result (λ lines. AreLinesOf shown until schedule.now.limits schedule.now.events.items lines.items) }
{
    match shown {
        Shown::Report => outcome(alloc, until, schedule),
        Shown::Trace => traced(alloc, until, schedule),
    }
}

/// Writes a report, and has the writer pass it on.
fn send<W: Write>(writer: &mut Noted<W>, report: &[u8]) -> Result<(), ReplayFault>
    ensures sent { IsSent (W.contents (stream_of writer.old)) (W.contents (stream_of writer.new)) result report.now }
    ensures told { told_of writer.new ≡ writer_told result (told_of writer.old) }
    ensures fault { IfErr result (λ fault. fault ≡ ReplayFault.CannotWrite) }
{
    if writer.write_all(report).is_err() || writer.flush().is_err() {
        return Err(ReplayFault::CannotWrite);
    }
    Ok(())
}

/// Reads a schedule to its end, runs it until then, and writes what is to be shown of it. It is read whole before a line
/// is judged.
///
/// # Errors
///
/// What was met first of a failed read, a bad line, want of memory and a failed write. Nothing is written
/// before the last of these.
pub fn run_schedule<R: Read, W: Write>(
    alloc: Global,
    shown: Shown,
    until: Until,
    reader: &mut Noted<R>,
    writer: &mut Noted<W>,
) -> Result<(), ReplayFault>
    // A text was read, and this was written of it.
    ensures ran { (text written : List ℕ)
        × Consumes (R.remaining (stream_of reader.old)) (R.remaining (stream_of reader.new)) text
        × Appends (W.contents (stream_of writer.old)) (W.contents (stream_of writer.new)) written
        × IsRun shown until text written result }
    // The text is all that the reader had left.
    ensures whole { IsWhole result (IsAtEnd (R.remaining (stream_of reader.new))) }
    // A fault of a stream comes only where the stream told it, and always there.
    ensures reader_told { ReaderTold result (told_of reader.old) (told_of reader.new) }
    ensures writer_told { told_of writer.new ≡ writer_told result (told_of writer.old) }
{
    let text = read_all(alloc, reader)?;
    match show(alloc, shown, until, text.as_slice()) {
        Ok(report) => send(writer, report.as_slice()),
        Err(fault) => Err(fault),
    }
}

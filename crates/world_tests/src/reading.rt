//! Reading and running schedules, over streams in memory.

use crate::tests::add;
use schedules::{
    PIECE_BYTES_MAX, ParseFault, ReplayFault, Shown, Until, parse, replay, run_schedule, trace,
};
use std::alloc::Global;
use std::io;
use std::io::{ErrorKind, Read, Write};
use std::process::Abort;
use streams::{Noted, Told};

/// `SET a 1` of the one client and `GET a` of the other, which asks for the stripe too early first.
const SET_AND_GET: &[u8] = b"world 2 16 12
piece 0 2a330d0a24330d0a5345540d0a24310d0a610d0a24310d0a310d0a
piece 1 2a320d0a24330d0a4745540d0a24310d0a610d0a
take 0 12
take 1 12
commit 0
give 0 12
take 1 12
commit 1
give 1 12
";

/// What the two clients are told by that.
const SET_AND_GET_REPORT: &[u8] = b"0:2b4f4b0d0a
1:24310d0a310d0a
entries 2
";

/// That schedule with an event of pages, places or the epoch before each line. None of these is enabled.
const WITH_LATER_EVENTS: &[u8] = b"world 2 16 12
fetch 0
piece 0 2a330d0a24330d0a5345540d0a24310d0a610d0a24310d0a310d0a
copy 12
piece 1 2a320d0a24330d0a4745540d0a24310d0a610d0a
write 12
take 0 12
install 12
take 1 12
drop 12
commit 0
unlink 12
give 0 12
retire 12
take 1 12
drain 12
commit 1
release 12 ff
give 1 12
fetch 1
";

/// Lines of releases, some of which show the same byte. None is enabled.
const RELEASES: &[u8] = b"world 1 2 12
release 0 ff
release 1 00
release 1 ff
release 0 01
release 0 00
release 0 ff
";

/// Their trace, as it is written by hand.
const RELEASES_TRACE: &[u8] = b"\
2 release 0 ff | not enabled
3 release 1 00 | not enabled
4 release 1 ff | not enabled
5 release 0 01 | not enabled
6 release 0 00 | not enabled
7 release 0 ff | not enabled
0:
entries 0
";

/// `WATCH a` of the one client, `SET a 1` of the other, then `MULTI` and `EXEC` in one piece.
const WATCH_AND_EXEC: &[u8] = b"world 2 16 12
piece 0 2a320d0a24350d0a57415443480d0a24310d0a610d0a
take 0 12
commit 0
give 0 12
piece 1 2a330d0a24330d0a5345540d0a24310d0a610d0a24310d0a310d0a
take 1 12
commit 1
give 1 12
piece 0 2a310d0a24350d0a4d554c54490d0a2a310d0a24340d0a455845430d0a
take 0 12
commit 0
give 0 12
";

/// What the two clients are told by that: the transaction is not done.
const WATCH_AND_EXEC_REPORT: &[u8] = b"0:2b4f4b0d0a2b4f4b0d0a2a2d310d0a
1:2b4f4b0d0a
entries 3
";

/// The trace of [`SET_AND_GET`], as it is written by hand.
const SET_AND_GET_TRACE: &[u8] = b"\
2 piece 0 2a330d0a24330d0a5345540d0a24310d0a610d0a24310d0a310d0a | enabled
3 piece 1 2a320d0a24330d0a4745540d0a24310d0a610d0a | enabled
4 take 0 12 | enabled
5 take 1 12 | not enabled
6 commit 0 | enabled | told 2b4f4b0d0a | entry 0
7 give 0 12 | enabled
8 take 1 12 | enabled
9 commit 1 | enabled | told 24310d0a310d0a | entry 1
10 give 1 12 | enabled
0:2b4f4b0d0a
1:24310d0a310d0a
entries 2
";

/// The trace of the schedule with the watched key. `MULTI` is answered in the event that feeds it.
const WATCH_AND_EXEC_TRACE: &[u8] = b"\
2 piece 0 2a320d0a24350d0a57415443480d0a24310d0a610d0a | enabled
3 take 0 12 | enabled
4 commit 0 | enabled | told 2b4f4b0d0a | entry 0
5 give 0 12 | enabled
6 piece 1 2a330d0a24330d0a5345540d0a24310d0a610d0a24310d0a310d0a | enabled
7 take 1 12 | enabled
8 commit 1 | enabled | told 2b4f4b0d0a | entry 1
9 give 1 12 | enabled
10 piece 0 2a310d0a24350d0a4d554c54490d0a2a310d0a24340d0a455845430d0a | enabled | told 2b4f4b0d0a
11 take 0 12 | enabled
12 commit 0 | enabled | told 2a2d310d0a | entry 2
13 give 0 12 | enabled
0:2b4f4b0d0a2b4f4b0d0a2a2d310d0a
1:2b4f4b0d0a
entries 3
";

/// The trace of the schedule with an event of pages, places or the epoch before each line.
const WITH_LATER_EVENTS_TRACE: &[u8] = b"\
2 fetch 0 | not enabled
3 piece 0 2a330d0a24330d0a5345540d0a24310d0a610d0a24310d0a310d0a | enabled
4 copy 12 | not enabled
5 piece 1 2a320d0a24330d0a4745540d0a24310d0a610d0a | enabled
6 write 12 | not enabled
7 take 0 12 | enabled
8 install 12 | not enabled
9 take 1 12 | not enabled
10 drop 12 | not enabled
11 commit 0 | enabled | told 2b4f4b0d0a | entry 0
12 unlink 12 | not enabled
13 give 0 12 | enabled
14 retire 12 | not enabled
15 take 1 12 | enabled
16 drain 12 | not enabled
17 commit 1 | enabled | told 24310d0a310d0a | entry 1
18 release 12 ff | not enabled
19 give 1 12 | enabled
20 fetch 1 | not enabled
0:2b4f4b0d0a
1:24310d0a310d0a
entries 2
";

/// A reader over bytes in memory.
#[derive(Drop)]
struct Source<'a> {
    bytes: &'a [u8],
    /// Whether it fails where the bytes are at their end.
    fails: bool,
}

impl<'a> Source<'a> {
    /// A reader of these bytes, which does not fail.
    fn of(bytes: &'a [u8]) -> Source<'a> {
        Source {
            bytes,
            fails: false,
        }
    }
}

impl Read for Source<'_> {
    /// Gives seven bytes at most.
    fn read(&mut self, buffer: &mut [u8]) -> io::Result<usize> {
        let count = self.bytes.len().min(7).min(buffer.len());
        if count == 0 && self.fails {
            return Err(ErrorKind::ConnectionReset.into());
        }
        let bytes = self.bytes;
        let (front, back) = bytes.split_at(count);
        buffer[..count].copy_from_slice(front);
        self.bytes = back;
        Ok(count)
    }
}

/// A writer into memory, which takes so many bytes and then fails.
#[derive(Drop)]
struct Sink {
    text: Vec<u8>,
    takes: usize,
    /// How many bytes it held when it was last told to pass them on.
    flushed: usize,
}

impl Sink {
    fn new(alloc: Global, takes: usize) -> Sink {
        Sink {
            text: Vec::new(alloc),
            takes,
            flushed: 0,
        }
    }
}

impl Write for Sink {
    fn write(&mut self, bytes: &[u8]) -> io::Result<usize> {
        let count = bytes.len().min(self.takes);
        if count == 0 {
            return Err(ErrorKind::BrokenPipe.into());
        }
        self.takes -= count;
        self.text.extend_from_slice(&bytes[..count])?;
        Ok(count)
    }

    fn flush(&mut self) -> io::Result<()> {
        self.flushed = self.text.len();
        Ok(())
    }
}

/// What came of running a schedule over streams in memory.
#[derive(Drop)]
struct Outcome {
    result: Result<(), ReplayFault>,
    reader_told: Told,
    writer_told: Told,
    sink: Sink,
}

impl Outcome {
    /// Runs the schedule of a reader, for a writer that takes so many bytes and then fails.
    fn of(alloc: Global, source: Source<'_>, takes: usize) -> Outcome {
        Outcome::showing(alloc, Shown::Report, source, takes)
    }

    /// Runs the schedule, of which the report or a trace is written.
    fn showing(alloc: Global, shown: Shown, source: Source<'_>, takes: usize) -> Outcome {
        let mut reader = Noted::new(source);
        let mut writer = Noted::new(Sink::new(alloc, takes));
        let result = run_schedule(alloc, shown, Until::Done, &mut reader, &mut writer);
        let writer_told = writer.told();
        Outcome {
            result,
            reader_told: reader.told(),
            writer_told,
            sink: writer.into_inner(),
        }
    }

    /// Whether this report was printed, and passed on.
    fn is_report(&self, report: &[u8]) -> bool {
        let told = self.reader_told == Told::End && self.writer_told == Told::Nothing;
        let printed = self.sink.text.as_slice() == report && self.sink.flushed == report.len();
        self.result == Ok(()) && told && printed
    }

    /// Whether it ended with this fault, and nothing was printed.
    fn is_fault(&self, fault: ReplayFault) -> bool {
        self.result == Err(fault) && self.sink.text.is_empty()
    }

    /// Whether the writer failed, and just so many bytes of the report were printed.
    fn is_cut(&self, report: &[u8], takes: usize) -> bool {
        let text = self.sink.text.as_slice();
        let printed = report.starts_with(text) && text.len() == takes;
        let told = self.writer_told == Told::Failure;
        self.result == Err(ReplayFault::CannotWrite) && told && printed
    }
}

/// Whether the schedule prints this report, and passes it on.
fn prints(alloc: Global, schedule: &[u8], report: &[u8]) -> bool {
    let outcome = Outcome::of(alloc, Source::of(schedule), usize::MAX);
    let is_so = outcome.is_report(report);
    drop(outcome);
    is_so
}

/// Whether the schedule has this trace, and passes it on.
fn is_traced(alloc: Global, schedule: &[u8], lines: &[u8]) -> bool {
    let outcome = Outcome::showing(alloc, Shown::Trace, Source::of(schedule), usize::MAX);
    let is_so = outcome.is_report(lines);
    drop(outcome);
    is_so
}

/// Whether this line is the first bad one of the text, and nothing is printed.
fn is_bad_at(alloc: Global, text: &[u8], number: usize) -> bool {
    let parsed = parse(alloc, text).err() == Some(ParseFault::BadLine(number));
    let outcome = Outcome::of(alloc, Source::of(text), usize::MAX);
    let is_so = outcome.is_fault(ReplayFault::BadLine(number));
    drop(outcome);
    parsed && is_so
}

/// A schedule of one piece of so many bytes.
fn piece_of(rt: &impl Abort, alloc: Global, count: usize) -> Vec<u8> {
    let mut text = Vec::new(alloc);
    add(rt, &mut text, b"world 1 1 12\npiece 0 ");
    for _ in 0..count {
        add(rt, &mut text, b"0a");
    }
    add(rt, &mut text, b"\n");
    text
}

#[test]
fn a_set_is_seen_by_a_get(rt: HostRuntime) {
    assert!(rt; prints(rt.alloc(), SET_AND_GET, SET_AND_GET_REPORT));
}

#[test]
fn a_watched_key_that_was_written_stops_a_transaction(rt: HostRuntime) {
    assert!(rt; prints(rt.alloc(), WATCH_AND_EXEC, WATCH_AND_EXEC_REPORT));
}

#[test]
fn later_events_are_read_and_never_enabled(rt: HostRuntime) {
    assert!(rt; prints(rt.alloc(), WITH_LATER_EVENTS, SET_AND_GET_REPORT));
}

#[test]
fn a_set_and_a_get_are_traced(rt: HostRuntime) {
    assert!(rt; is_traced(rt.alloc(), SET_AND_GET, SET_AND_GET_TRACE));
}

#[test]
fn a_transaction_that_is_stopped_is_traced(rt: HostRuntime) {
    assert!(rt; is_traced(rt.alloc(), WATCH_AND_EXEC, WATCH_AND_EXEC_TRACE));
}

#[test]
fn later_events_are_traced_as_not_enabled(rt: HostRuntime) {
    assert!(rt; is_traced(rt.alloc(), WITH_LATER_EVENTS, WITH_LATER_EVENTS_TRACE));
}

/// Lines of the same byte share a page, and each line shows its own byte.
#[test]
fn each_release_shows_its_byte(rt: HostRuntime) {
    assert!(rt; is_traced(rt.alloc(), RELEASES, RELEASES_TRACE));
}

/// A trace without events is the report, and a bad line is told in place of a trace.
#[test]
fn a_trace_without_events(rt: HostRuntime) {
    assert!(rt; is_traced(rt.alloc(), b"world 2 1 12\n", b"0:\n1:\nentries 0\n"));
    let bad = trace(rt.alloc(), Until::Done, b"world 2 1 12\nclose 0\nclose 2\n");
    assert!(rt; bad.err() == Some(ReplayFault::BadLine(3)));
}

#[test]
fn a_schedule_without_events(rt: HostRuntime) {
    assert!(rt; prints(rt.alloc(), b"world 3 1 256\n", b"0:\n1:\n2:\nentries 0\n"));
}

/// A pipelined `PING` and a fault are answered in one piece, and a client that was closed hears no more.
#[test]
fn a_closed_client_hears_no_more(rt: HostRuntime) {
    let schedule = b"world 1 64 12
piece 0 2a310d0a24340d0a50494e470d0a
close 0
piece 0 2a310d0a24340d0a50494e470d0a
close 0
take 0 63
commit 0
give 0 63
";
    assert!(rt;
        prints(
            rt.alloc(),
            schedule.as_slice(),
            b"0:2b504f4e470d0a\nentries 0\n"
        )
    );
}

/// Each way in which a first line is bad, with strokes between them.
const FIRST_LINES: &str =
    "|\n|world 2 16 12|world 2 16\n|world 2 16 12 4096\n|world 2 16 12 \n| world 2 16 12\n|\
    world  2 16 12\n|world\t2 16 12\n|World 2 16 12\n|world 2 16 12\r\n|world 0 16 12\n|\
    world 65 16 12\n|world 2 0 12\n|world 2 65 12\n|world 2 16 11\n|world 2 16 257\n|\
    world 02 16 12\n|world +2 16 12\n|world -2 16 12\n|world 2 16 0xc\n|\
    world 18446744073709551618 16 12\n|close 0\nworld 2 16 12\n";

/// Each way in which a later line is bad, with strokes between them.
const LATER_LINES: &str =
    "\n|close 0|close 0\r\n|close\n|close \n|close 0 \n| close 0\n|close  0\n|\
    close 0 0\n|close 2\n|close 00\n|close 01\n|close +1\n|close -0\n|close x\n|\
    Close 0\n|open 0\n|world 2 16 12\n|fetch 2\n|commit 2\n|take 0\n|take 2 0\n|\
    take 0 16\n|take 0 0 0\n|give 2 0\n|give 0 16\n|copy 16\n|write 16\n|install 16\n|\
    drop 16\n|unlink 16\n|retire 16\n|drain 16\n|release 16 00\n|release 0\n|\
    release 0 0\n|release 0 000\n|release 0 0000\n|release 0 FF\n|release 0 fg\n|\
    piece 0\n|piece 0 \n|piece 2 00\n|piece 0 0\n|piece 0 000\n|piece 0 0A\n|\
    piece 0 0g\n|piece 0 00 00\n|piece 0 00\r\n";

#[test]
fn first_lines_that_are_bad(rt: HostRuntime) {
    for text in FIRST_LINES.split('|') {
        assert!(rt; is_bad_at(rt.alloc(), text.as_bytes(), 1), "{text:?}");
    }
}

/// Whether this line is a bad one as the third.
fn is_bad_as_third(rt: &impl Abort, alloc: Global, line: &str) -> bool {
    let mut text = Vec::new(alloc);
    add(rt, &mut text, b"world 2 16 12\nclose 1\n");
    add(rt, &mut text, line.as_bytes());
    let is_so = is_bad_at(alloc, text.as_slice(), 3);
    drop(text);
    is_so
}

#[test]
fn later_lines_that_are_bad(rt: HostRuntime) {
    for line in LATER_LINES.split('|') {
        assert!(rt; is_bad_as_third(&rt, rt.alloc(), line), "{line:?}");
    }
}

/// The first of two bad lines is named, and nothing was run before it.
#[test]
fn the_first_bad_line_is_named(rt: HostRuntime) {
    let text = b"world 1 1 12\nclose 0\nclose 0\nclose 1\nclose 2\nclose 0";
    assert!(rt; is_bad_at(rt.alloc(), text.as_slice(), 4));
}

#[test]
fn a_piece_has_at_most_65536_bytes(rt: HostRuntime) {
    let longest = piece_of(&rt, rt.alloc(), PIECE_BYTES_MAX);
    assert!(rt; parse(rt.alloc(), longest.as_slice()).is_ok());
    drop(longest);
    let longer = piece_of(&rt, rt.alloc(), PIECE_BYTES_MAX + 1);
    assert!(rt; is_bad_at(rt.alloc(), longer.as_slice(), 2));
    drop(longer);
}

/// Whether a reader that fails after these bytes is told of, and nothing is printed.
fn is_failure_told(alloc: Global, bytes: &[u8]) -> bool {
    let outcome = Outcome::of(alloc, Source { bytes, fails: true }, usize::MAX);
    let told = outcome.reader_told == Told::Failure;
    let is_so = outcome.is_fault(ReplayFault::CannotRead);
    drop(outcome);
    told && is_so
}

/// A reader that fails is told of, whatever was read before, and nothing is printed.
#[test]
fn a_reader_that_fails(rt: HostRuntime) {
    assert!(rt; is_failure_told(rt.alloc(), b""));
    assert!(rt; is_failure_told(rt.alloc(), b"close"));
    assert!(rt; is_failure_told(rt.alloc(), SET_AND_GET));
}

/// Whether a writer that fails after so many bytes is told of, and has these of the report.
fn is_cut_at(alloc: Global, takes: usize) -> bool {
    let outcome = Outcome::of(alloc, Source::of(SET_AND_GET), takes);
    let is_so = outcome.is_cut(SET_AND_GET_REPORT, takes);
    drop(outcome);
    is_so
}

/// A writer that fails is told of, and a beginning of the report is printed.
#[test]
fn a_writer_that_fails(rt: HostRuntime) {
    for takes in 0..SET_AND_GET_REPORT.len() {
        assert!(rt; is_cut_at(rt.alloc(), takes), "{takes}");
    }
}

/// Whether a schedule was reported, or memory was wanted.
fn is_report_or_out_of_memory(replayed: &Result<Vec<u8>, ReplayFault>, lines: &[u8]) -> bool {
    match replayed {
        Ok(report) => report.as_slice() == lines,
        Err(fault) => *fault == ReplayFault::OutOfMemory,
    }
}

/// Where an allocation is refused (`rt try --test --fail-alloc`), a schedule is reported or memory was wanted.
#[test]
fn a_refused_allocation(rt: HostRuntime) {
    let replayed = replay(rt.alloc(), Until::Done, SET_AND_GET);
    assert!(rt; is_report_or_out_of_memory(&replayed, SET_AND_GET_REPORT));
    drop(replayed);
}

/// Where an allocation is refused, a schedule is traced or memory was wanted.
#[test]
fn a_refused_allocation_of_a_trace(rt: HostRuntime) {
    let traced = trace(rt.alloc(), Until::Done, SET_AND_GET);
    assert!(rt; is_report_or_out_of_memory(&traced, SET_AND_GET_TRACE));
    drop(traced);
}

/// A fault has this text.
fn has_text(rt: &impl Abort, alloc: Global, fault: ReplayFault, text: &str) {
    let shown = format!(in alloc; "{fault}").expect(rt, "memory for a text");
    assert!(rt; shown.as_str() == text, "{text}");
    drop(shown);
}

#[test]
fn faults_have_texts(rt: HostRuntime) {
    let alloc = rt.alloc();
    has_text(&rt, alloc, ReplayFault::CannotRead, "cannot read");
    has_text(&rt, alloc, ReplayFault::BadLine(1), "line 1: bad event");
    has_text(&rt, alloc, ReplayFault::BadLine(120), "line 120: bad event");
    has_text(&rt, alloc, ReplayFault::OutOfMemory, "out of memory");
}

/// Whether a fault has this status, and is told or not.
fn has_status(fault: ReplayFault, status: u8, is_told: bool) -> bool {
    fault.status() == status && fault.is_told() == is_told
}

#[test]
fn a_bad_line_has_its_own_status(rt: HostRuntime) {
    assert!(rt; has_status(ReplayFault::CannotRead, 1, true));
    assert!(rt; has_status(ReplayFault::BadLine(3), 2, true));
    assert!(rt; has_status(ReplayFault::OutOfMemory, 1, true));
    assert!(rt; has_status(ReplayFault::CannotWrite, 1, false));
}

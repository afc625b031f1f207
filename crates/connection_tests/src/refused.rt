//! Requests where an allocation is refused.
//!
//! Each of these is meant for runs with each allocation refused in turn (`tools/refused/tests`). Then each request has its
//! reply or the out-of-memory line, and what follows goes by that.

ghost use Rattle.std.specs.Prelude.{◌≡◌, []};
ghost use Rattle.engine.specs.Passes.{knows, Rests};

use crate::failing::failing;
use crate::hostile::STREAMS;
use crate::keys::repeated;
use crate::requests::{add_reply, add_request, add_word};
use crate::talks::{Outcome, Source, engine_over, memory, narrow, talk_to, wide};
use connection::Ended;
use device::Device;
use engine::{Engine, Pass};
use std::alloc::{AllocError, Global};
use std::io;
use std::process::Abort;
use std::sync::Wait;

/// Whether a connection may have come to this: to one of the texts, or to a beginning of one where the connection ended
/// out of memory. All texts end so.
fn may_be(outcome: &Outcome, texts: &[&[u8]], ended: Ended) -> bool {
    let text = outcome.text.as_slice();
    match outcome.ended {
        Ended::NoMemory => texts.iter().any(|whole| whole.starts_with(text)),
        other => other == ended && texts.iter().any(|whole| *whole == text),
    }
}

/// Serves a connection over an engine. The writer has room for all that is said, so that it takes no memory.
fn talk_with_room<D: Device>(
    rt: &impl Wait,
    alloc: Global,
    input: &[u8],
    engine: &Engine<D>,
    pass: Pass<D>,
) -> Result<Outcome, AllocError>
    requires rests { Rests D.Receipt.is_steady engine.now pass }
    requires watches { (knows D.failures pass).watched ≡ [] }
{
    let writer = Vec::with_capacity(alloc, 16_384)?;
    let (_pass, text, ended) = talk_to(rt, alloc, Source::new(input), writer, engine, pass);
    Ok(Outcome { text, ended })
}

/// Serves a connection over a new engine in memory.
fn run(rt: &impl Wait, alloc: Global, input: &[u8]) -> Result<Outcome, AllocError> {
    let limits = narrow();
    let (engine, pass, _other) = engine_over(alloc, &limits, memory(alloc, &limits)?)?;
    talk_with_room(rt, alloc, input, &engine, pass)
}

/// Asserts that a connection over a new engine comes to one of these texts. Where there is no memory for the engine
/// there is none.
fn check<R: Abort + Wait>(rt: &R, alloc: Global, input: &[u8], texts: &[&[u8]], ended: Ended) {
    let Ok(outcome) = run(rt, alloc, input) else {
        return;
    };
    assert!(rt;
        may_be(&outcome, texts, ended),
        "{:?} {:?}",
        outcome.ended,
        outcome.text
    );
}

/// Several keys at once.
const SEVERAL: &[u8] =
    b"*5\r\n$4\r\nMSET\r\n$1\r\na\r\n$1\r\n1\r\n$1\r\na\r\n$1\r\n2\r\n*3\r\n$4\r\nMGET\r\n$1\r\na\r\n$1\r\nz\r\n*5\r\n$6\r\nMSETNX\r\n$1\r\na\r\n$1\r\n3\r\n$1\r\ny\r\n$1\r\n4\r\n*2\r\n$6\r\nEXISTS\r\n$1\r\ny\r\n";

/// What may be said to them.
const SEVERAL_ANSWERS: &[&[u8]] = &[
    b"+OK\r\n*2\r\n$1\r\n2\r\n$-1\r\n:0\r\n:0\r\n",
    b"-OOM out of memory\r\n*2\r\n$-1\r\n$-1\r\n:1\r\n:1\r\n",
    b"+OK\r\n-OOM out of memory\r\n:0\r\n:0\r\n",
    b"+OK\r\n*2\r\n$1\r\n2\r\n$-1\r\n-OOM out of memory\r\n:0\r\n",
    b"+OK\r\n*2\r\n$1\r\n2\r\n$-1\r\n:0\r\n-OOM out of memory\r\n",
];

#[test]
fn several_keys_with_each_allocation_refused(rt: HostRuntime) {
    check(&rt, rt.alloc(), SEVERAL, SEVERAL_ANSWERS, Ended::EndOfInput);
}

/// The largest request: MSET of three values of 32,768 bytes and one of 32,760, so that its words have 131,072 bytes
/// together. Then EXISTS of two of its keys.
fn largest(alloc: Global) -> io::Result<Vec<u8>> {
    let mut input = repeated(alloc, b"*9\r\n$4\r\nMSET\r\n", 1, b"")?;
    for key in b"abc" {
        input.extend_from_slice(&[b'$', b'1', b'\r', b'\n', *key])?;
        input.extend_from_slice(b"\r\n$32768\r\n")?;
        input.extend_from_slice(&[b'x'; 32_768])?;
        input.extend_from_slice(b"\r\n")?;
    }
    input.extend_from_slice(b"$1\r\nf\r\n$32760\r\n")?;
    input.extend_from_slice(&[b'x'; 32_760])?;
    input.extend_from_slice(b"\r\n*3\r\n$6\r\nEXISTS\r\n$1\r\na\r\n$1\r\nf\r\n")?;
    Ok(input)
}

/// What may be said to that.
const LARGEST_ANSWERS: &[&[u8]] = &[
    b"+OK\r\n:2\r\n",
    b"-OOM out of memory\r\n:0\r\n",
    b"+OK\r\n-OOM out of memory\r\n",
];

#[test]
fn the_largest_request_with_each_allocation_refused(rt: HostRuntime) {
    let Ok(input) = largest(rt.alloc()) else {
        return;
    };
    check(&rt, rt.alloc(), &input, LARGEST_ANSWERS, Ended::EndOfInput);
}

/// MSET of five values of 8,192 bytes and one of 7,898. Then EXISTS of two of its keys.
fn six(alloc: Global) -> io::Result<Vec<u8>> {
    let mut input = repeated(alloc, b"*13\r\n$4\r\nMSET\r\n", 1, b"")?;
    for key in ["a", "b", "c", "d", "e"] {
        add_word(alloc, &mut input, key, 0)?;
        add_word(alloc, &mut input, "#", 8_192)?;
    }
    add_word(alloc, &mut input, "f", 0)?;
    add_word(alloc, &mut input, "#", 7_898)?;
    add_request(alloc, &mut input, "EXISTS a f", 0)?;
    Ok(input)
}

#[test]
fn six_values_with_each_allocation_refused(rt: HostRuntime) {
    let Ok(input) = six(rt.alloc()) else {
        return;
    };
    check(&rt, rt.alloc(), &input, LARGEST_ANSWERS, Ended::EndOfInput);
}

/// Requests that want no memory but for their own words: those of a session, and those that are refused.
const LINES: &[u8] =
    b"*1\r\n$5\r\nMULTI\r\n*1\r\n$5\r\nMULTI\r\n*2\r\n$5\r\nWATCH\r\n$1\r\nk\r\n*1\r\n$7\r\nDISCARD\r\n\
    *1\r\n$7\r\nUNWATCH\r\n*1\r\n$4\r\nEXEC\r\n*1\r\n$7\r\nDISCARD\r\n*1\r\n$4\r\nNOPE\r\n*1\r\n$3\r\nGET\r\n\
    *4\r\n$3\r\nSET\r\n$1\r\nk\r\n$1\r\nv\r\n$2\r\nEX\r\n*3\r\n$6\r\nINCRBY\r\n$1\r\nk\r\n$1\r\nx\r\n\
    *4\r\n$8\r\nSETRANGE\r\n$1\r\nk\r\n$2\r\n-1\r\n$1\r\nx\r\n*1\r\n$5\r\nMULTI\r\n*1\r\n$4\r\nNOPE\r\n*1\r\n$4\r\nEXEC\r\n\
    *1\r\n$4\r\nPING\r\n*1\r\n$4\r\nQUIT\r\n";

/// What is said to them, whatever allocation is refused.
const LINES_ANSWER: &[u8] = b"+OK\r\n-ERR MULTI inside MULTI\r\n-ERR WATCH inside MULTI\r\n+OK\r\n\
    +OK\r\n-ERR EXEC without MULTI\r\n-ERR DISCARD without MULTI\r\n-ERR unknown command\r\n-ERR wrong number of arguments\r\n\
    -ERR syntax error\r\n-ERR value is not an integer or out of range\r\n\
    -ERR offset is out of range\r\n+OK\r\n-ERR unknown command\r\n\
    -EXECABORT transaction discarded because of earlier errors\r\n+PONG\r\n+OK\r\n";

#[test]
fn lines_and_sessions_with_each_allocation_refused(rt: HostRuntime) {
    check(&rt, rt.alloc(), LINES, &[LINES_ANSWER], Ended::Quit);
}

/// Requests with a semicolon between two, and what may be said to them: each has its reply or the out-of-memory line, and
/// what follows goes by that. A value has so many bytes.
struct Refused {
    requests: &'static str,
    size: usize,
    replies: &'static [&'static str],
}

/// The input of such requests.
fn input_of(alloc: Global, refused: &Refused) -> io::Result<Vec<u8>> {
    let mut input = Vec::new(alloc);
    for request in refused.requests.split(';') {
        add_request(alloc, &mut input, request, refused.size)?;
    }
    Ok(input)
}

/// Whether a connection may have come to one of these replies.
fn may_be_said(alloc: Global, outcome: &Outcome, replies: &[&str]) -> io::Result<bool> {
    for reply in replies {
        let mut text = Vec::new(alloc);
        add_reply(alloc, &mut text, reply, 0)?;
        if may_be(outcome, &[text.as_slice()], Ended::EndOfInput) {
            return Ok(true);
        }
    }
    Ok(false)
}

/// Asserts that a connection over a new engine comes to one of them.
fn check_refused<R: Abort + Wait>(rt: &R, alloc: Global, refused: &Refused) {
    let Ok(input) = input_of(alloc, refused) else {
        return;
    };
    let Ok(outcome) = run(rt, alloc, &input) else {
        return;
    };
    let Ok(is_said) = may_be_said(alloc, &outcome, refused.replies) else {
        return;
    };
    assert!(rt;
        is_said,
        "{}: {:?} {:?}",
        refused.requests, outcome.ended, outcome.text
    );
}

/// Lines that a command finds as it runs.
const FOUND: &[Refused] = &[
    // A stored value that is no number.
    Refused {
        requests: "SET a x;INCR a;GET a",
        size: 0,
        replies: &[
            "+OK,-ERR value is not an integer or out of range,$1,x",
            "-OOM out of memory,:1,$1,1",
            "+OK,-OOM out of memory,$1,x",
            "+OK,-ERR value is not an integer or out of range,-OOM out of memory",
        ],
    },
    // A sum that is too large.
    Refused {
        requests: "SET n 9223372036854775807;INCR n;STRLEN n",
        size: 0,
        replies: &[
            "+OK,-ERR increment or decrement would overflow,:19",
            "-OOM out of memory,:1,:1",
            "+OK,-OOM out of memory,:19",
            "+OK,-ERR increment or decrement would overflow,-OOM out of memory",
        ],
    },
    // A value that would be too long.
    Refused {
        requests: "SET k v;SETRANGE k 32768 x;APPEND k #;STRLEN k",
        size: 32_768,
        replies: &[
            "+OK,-ERR string is too long,-ERR string is too long,:1",
            "-OOM out of memory,-ERR string is too long,:32768,:32768",
            "+OK,-OOM out of memory,-ERR string is too long,:1",
            "+OK,-ERR string is too long,-OOM out of memory,:1",
            "+OK,-ERR string is too long,-ERR string is too long,-OOM out of memory",
        ],
    },
    // A key that is missing.
    Refused {
        requests: "RENAME a b;EXISTS b",
        size: 0,
        replies: &[
            "-ERR no such key,:0",
            "-OOM out of memory,:0",
            "-ERR no such key,-OOM out of memory",
        ],
    },
    // A key that is too long, alone and in a transaction.
    Refused {
        requests: "GET #;WATCH #;MULTI;GET #;EXEC",
        size: 513,
        replies: &[
            "-ERR key is too long,-ERR key is too long,+OK,+QUEUED,*1,-ERR key is too long",
            "-ERR key is too long,-ERR key is too long,+OK,-OOM out of memory,\
            -EXECABORT transaction discarded because of earlier errors",
            "-ERR key is too long,-ERR key is too long,+OK,+QUEUED,-OOM out of memory",
        ],
    },
];

#[test]
fn lines_that_a_command_finds_with_each_allocation_refused(rt: HostRuntime) {
    for refused in FOUND {
        check_refused(&rt, rt.alloc(), refused);
    }
}

/// Transactions that are too large: as they are queued, and as they run.
const LARGE: &[Refused] = &[
    // 131,072 bytes of words, and then four more.
    Refused {
        requests: "MULTI;ECHO #;ECHO #;ECHO #;ECHO #;PING;EXEC",
        size: 32_764,
        replies: &[
            "+OK,+QUEUED,+QUEUED,+QUEUED,+QUEUED,-ERR transaction is too large,\
            -EXECABORT transaction discarded because of earlier errors",
            "+OK,-OOM out of memory,+QUEUED,+QUEUED,+QUEUED,+QUEUED,\
            -EXECABORT transaction discarded because of earlier errors",
            "+OK,+QUEUED,-OOM out of memory,+QUEUED,+QUEUED,+QUEUED,\
            -EXECABORT transaction discarded because of earlier errors",
            "+OK,+QUEUED,+QUEUED,-OOM out of memory,+QUEUED,+QUEUED,\
            -EXECABORT transaction discarded because of earlier errors",
            "+OK,+QUEUED,+QUEUED,+QUEUED,-OOM out of memory,+QUEUED,\
            -EXECABORT transaction discarded because of earlier errors",
        ],
    },
    // Writes that weigh 196,609.
    Refused {
        requests: "MULTI;SETRANGE a 32767 x;SETRANGE b 32767 x;SETRANGE c 32767 x;SETRANGE d 32767 x;SETRANGE e 32767 x;\
            SETRANGE f 32474 x;EXEC;EXISTS a f",
        size: 0,
        replies: &[
            "+OK,+QUEUED,+QUEUED,+QUEUED,+QUEUED,+QUEUED,+QUEUED,-ERR command writes too much,:0",
            "+OK,-OOM out of memory,+QUEUED,+QUEUED,+QUEUED,+QUEUED,+QUEUED,\
            -EXECABORT transaction discarded because of earlier errors,:0",
            "+OK,+QUEUED,-OOM out of memory,+QUEUED,+QUEUED,+QUEUED,+QUEUED,\
            -EXECABORT transaction discarded because of earlier errors,:0",
            "+OK,+QUEUED,+QUEUED,-OOM out of memory,+QUEUED,+QUEUED,+QUEUED,\
            -EXECABORT transaction discarded because of earlier errors,:0",
            "+OK,+QUEUED,+QUEUED,+QUEUED,-OOM out of memory,+QUEUED,+QUEUED,\
            -EXECABORT transaction discarded because of earlier errors,:0",
            "+OK,+QUEUED,+QUEUED,+QUEUED,+QUEUED,-OOM out of memory,+QUEUED,\
            -EXECABORT transaction discarded because of earlier errors,:0",
            "+OK,+QUEUED,+QUEUED,+QUEUED,+QUEUED,+QUEUED,-OOM out of memory,\
            -EXECABORT transaction discarded because of earlier errors,:0",
            "+OK,+QUEUED,+QUEUED,+QUEUED,+QUEUED,+QUEUED,+QUEUED,-OOM out of memory,:0",
            "+OK,+QUEUED,+QUEUED,+QUEUED,+QUEUED,+QUEUED,+QUEUED,-ERR command writes too much,-OOM out of memory",
        ],
    },
];

#[test]
fn lines_of_large_transactions_with_each_allocation_refused(rt: HostRuntime) {
    for refused in LARGE {
        check_refused(&rt, rt.alloc(), refused);
    }
}

/// 128 keys are watched, of two letters each and eight at once, and then one more.
fn watches(alloc: Global) -> io::Result<Vec<u8>> {
    let mut input = Vec::new(alloc);
    for letter in b'a'..=b'p' {
        repeated_watch(&mut input, letter)?;
    }
    add_request(alloc, &mut input, "WATCH more", 0)?;
    Ok(input)
}

/// A WATCH of eight keys that begin with this letter.
fn repeated_watch(input: &mut Vec<u8>, letter: u8) -> io::Result<()> {
    input.extend_from_slice(b"*9\r\n$5\r\nWATCH\r\n")?;
    for digit in b'0'..b'8' {
        input.extend_from_slice(&[b'$', b'2', b'\r', b'\n', letter, digit, b'\r', b'\n'])?;
    }
    Ok(())
}

/// What is said to them where the WATCH with this number is refused, or none. Then there is room for one more.
fn watched(alloc: Global, refused: u32) -> io::Result<Vec<u8>> {
    let mut text = Vec::new(alloc);
    for number in 0..16 {
        let line = if number == refused {
            "-OOM out of memory"
        } else {
            "+OK"
        };
        add_reply(alloc, &mut text, line, 0)?;
    }
    let line = match refused {
        0..16 => "+OK",
        16 => "-OOM out of memory",
        _ => "-ERR too many watched keys",
    };
    add_reply(alloc, &mut text, line, 0)?;
    Ok(text)
}

/// Whether a connection may have come to what is said where one of the WATCHes is refused, or none.
fn may_be_watched(alloc: Global, outcome: &Outcome) -> io::Result<bool> {
    for refused in 0..18 {
        let text = watched(alloc, refused)?;
        if may_be(outcome, &[text.as_slice()], Ended::EndOfInput) {
            return Ok(true);
        }
    }
    Ok(false)
}

#[test]
fn too_many_watches_with_each_allocation_refused(rt: HostRuntime) {
    let Ok(input) = watches(rt.alloc()) else {
        return;
    };
    let Ok(outcome) = run(&rt, rt.alloc(), &input) else {
        return;
    };
    let Ok(is_said) = may_be_watched(rt.alloc(), &outcome) else {
        return;
    };
    assert!(rt; is_said, "{:?} {:?}", outcome.ended, outcome.text);
}

/// Each of these lines is said, whatever allocation is refused, unless the connection ends out of memory.
#[test]
fn faults_of_the_protocol_with_each_allocation_refused(rt: HostRuntime) {
    for &(input, text, ended) in STREAMS {
        check(&rt, rt.alloc(), input, &[text], ended);
    }
}

/// Four words of 32,768 bytes, and one more.
fn too_large(alloc: Global) -> io::Result<Vec<u8>> {
    let mut input = repeated(alloc, b"*5\r\n", 1, b"")?;
    for _ in 0..4 {
        input.extend_from_slice(b"$32768\r\n")?;
        input.extend_from_slice(&[b'x'; 32_768])?;
        input.extend_from_slice(b"\r\n")?;
    }
    input.extend_from_slice(b"$1")?;
    Ok(input)
}

#[test]
fn a_request_that_is_too_large_with_each_allocation_refused(rt: HostRuntime) {
    let Ok(input) = too_large(rt.alloc()) else {
        return;
    };
    let text = b"-ERR Protocol error: request too large\r\n".as_slice();
    check(&rt, rt.alloc(), &input, &[text], Ended::ProtocolFault);
}

/// SETs of so many keys to the longest value, each of which takes a page.
fn long_sets(alloc: Global, count: u32) -> io::Result<Vec<u8>> {
    let mut input = Vec::new(alloc);
    for number in 0..count {
        let request = format!(in alloc; "SET k{number} #")?;
        add_request(alloc, &mut input, request.as_str(), 32_768)?;
    }
    Ok(input)
}

/// The lines that may be said to a SET.
const SAID: [&[u8]; 4] = [
    b"+OK\r\n",
    b"-FULL store is full\r\n",
    b"-IOERR device fault\r\n",
    b"-OOM out of memory\r\n",
];

/// Which of these lines a text begins with, and what comes after it.
fn first_said(text: &[u8]) -> Option<(usize, &[u8])> {
    for (index, line) in SAID.iter().enumerate() {
        if let Some(rest) = text.strip_prefix(*line) {
            return Some((index, rest));
        }
    }
    None
}

/// How often each of these lines is said. `None` where something else is.
fn said_often(text: &[u8]) -> Option<[u32; 4]> {
    let mut counts = [0u32; 4];
    let mut rest = text;
    for _ in 0..text.len() {
        if rest.is_empty() {
            return Some(counts);
        }
        let (index, after) = first_said(rest)?;
        if let Some(count) = counts.get_mut(index) {
            *count = count.saturating_add(1);
        }
        rest = after;
    }
    Some(counts)
}

/// What 16 SETs come to over a device whose first call fails. A page takes memory there, and one that finds none is a
/// fault of the device too.
fn over_failing(rt: &impl Wait, alloc: Global) -> io::Result<Outcome> {
    let limits = wide();
    let input = long_sets(alloc, 16)?;
    let (engine, pass, _other) = engine_over(alloc, &limits, failing(alloc, &limits, 0)?)?;
    Ok(talk_with_room(rt, alloc, &input, &engine, pass)?)
}

/// Whether so many lines were said where the device fails once, and memory is refused once at most.
fn fault_is_said(ended: Ended, counts: Option<[u32; 4]>) -> bool {
    let Some(counts) = counts else {
        return false;
    };
    if ended == Ended::NoMemory {
        return counts[1] == 0;
    }
    ended == Ended::EndOfInput
        && (counts == [15, 0, 1, 0] || counts == [14, 0, 2, 0] || counts == [14, 0, 1, 1])
}

#[test]
fn a_fault_of_the_device_with_each_allocation_refused(rt: HostRuntime) {
    let Ok(outcome) = over_failing(&rt, rt.alloc()) else {
        return;
    };
    let counts = said_often(&outcome.text);
    assert!(rt;
        fault_is_said(outcome.ended, counts),
        "{:?} {:?}",
        outcome.ended,
        outcome.text
    );
}

/// What 80 SETs come to in a store of 76 pages. Six are left to deletions and to the cleaner, and a SET of the longest value
/// is reckoned to need two.
fn over_full(rt: &impl Wait, alloc: Global) -> io::Result<Outcome> {
    let input = long_sets(alloc, 80)?;
    Ok(run(rt, alloc, &input)?)
}

/// Whether so many lines were said where the store fills, and memory is refused once at most.
fn full_is_said(ended: Ended, counts: Option<[u32; 4]>) -> bool {
    let Some(counts) = counts else {
        return false;
    };
    if ended == Ended::NoMemory {
        return counts[0] <= 69;
    }
    ended == Ended::EndOfInput
        && (counts == [69, 11, 0, 0] || counts == [69, 10, 1, 0] || counts == [69, 10, 0, 1])
}

#[test]
fn a_full_store_with_each_allocation_refused(rt: HostRuntime) {
    let Ok(outcome) = over_full(&rt, rt.alloc()) else {
        return;
    };
    let counts = said_often(&outcome.text);
    assert!(rt;
        full_is_said(outcome.ended, counts),
        "{:?} {:?}",
        outcome.ended,
        outcome.text
    );
}

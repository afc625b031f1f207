//! Sessions whose calls are answered by hand: each line of the table of modes, the limits of transactions
//! and watches, and what is answered out of memory.

ghost use Rattle.std.specs.Prelude.{◌≡◌, IfOk, IfSome, true};
ghost use Rattle.words.specs.Bounds.{IsBounded};
ghost use Rattle.words.specs.Commands.{command_of};

use session::modes::{AnySession, Called, Closed, Session, Step};
use std::alloc::Global;
use std::process::Abort;
use transact::call::{Answer, Call, Watching};
use words::command::Command;
use words::history::Commands;
use words::limits::WORDS_MAX;
use words::reply::{CommandReply, Fault, Item, Line, Refusal, Reply};
use words::word::{Word, Words};

/// A session that talks.
enum Talking {
    Open(AnySession),
    Closed(Session<Closed>),
}

/// What the calls of a talk are answered.
#[derive(Clone, Copy)]
enum Given {
    Done,
    Null,
    Full,
}

impl Given {
    fn answer(self) -> Answer {
        match self {
            Given::Done => Answer::Reply(Reply::line(Line::Done)),
            Given::Null => Answer::Reply(Reply::NullArray),
            Given::Full => Answer::Fault(Fault::StoreFull),
        }
    }
}

/// The words of a request, and what they are, where there is memory for them.
fn read(alloc: Global, request: &[u8]) -> Option<(Words, Result<Command, Refusal>)>
    ensures of { IfSome result (λ read. read.1 ≡ command_of read.0) }
    ensures bounded { IfSome result (λ read. IfOk read.1 IsBounded) }
{
    let words = match words_of(alloc, request) {
        Some(words) => words,
        None => return None,
    };
    match Command::of(alloc, &words) {
        Ok(command) if is_bounded(&command) => Some((words, command)),
        _ => None,
    }
}

/// Whether words make no command beyond the limits.
fn is_bounded(command: &Result<Command, Refusal>) -> bool
    ensures { result ≡ true → IfOk command.now IsBounded }
{
    match command {
        Ok(command) => command.is_bounded(),
        Err(_) => true,
    }
}

/// The words of a text with one space between each two.
fn words_of(alloc: Global, text: &[u8]) -> Option<Words> {
    let mut words = None;
    for part in text.split(|byte| *byte == b' ') {
        let Ok(word) = Word::from_slice(alloc, part) else {
            return None;
        };
        words = Some(with_word(alloc, words, word)?);
    }
    words
}

/// One word more, where there is room for it.
fn with_word(alloc: Global, words: Option<Words>, word: Word) -> Option<Words> {
    match words {
        None => Some(Words::one(alloc, word)),
        Some(words) => added(words, word),
    }
}

/// These words and one more, where there is room for it.
fn added(mut words: Words, word: Word) -> Option<Words> {
    if push_word(&mut words, word) {
        Some(words)
    } else {
        None
    }
}

/// Adds a word, and answers whether there was room for it.
fn push_word(words: &mut Words, word: Word) -> bool {
    if words.as_slice().len() >= WORDS_MAX {
        return false;
    }
    words.push(word).is_ok()
}

/// Notes a text. The notes have room for it.
fn note(notes: &mut Vec<u8>, text: &[u8]) {
    let _ = notes.extend_from_slice(text);
}

/// Notes the last two digits of a number.
fn note_number(notes: &mut Vec<u8>, number: usize) {
    note(
        notes,
        &[b'0' + (number / 10 % 10) as u8, b'0' + (number % 10) as u8],
    );
}

/// Notes a reply and the end of a line.
fn note_reply(notes: &mut Vec<u8>, reply: &Reply) {
    let text = match reply {
        Reply::Single(CommandReply::One(Item::Line(line))) => line.text(),
        Reply::Single(CommandReply::One(Item::Bulk(text))) => text.as_slice(),
        Reply::NullArray => b"(null)".as_slice(),
        _ => b"(another reply)".as_slice(),
    };
    note(notes, text);
    note(notes, b"\n");
}

/// Notes what a call is, and a number.
fn note_count(notes: &mut Vec<u8>, what: &[u8], count: usize) {
    note(notes, what);
    note_number(notes, count);
    note(notes, b" ");
}

/// How many keys these watches were.
fn count_of(watching: Watching) -> usize {
    let keys = watching.into_keys();
    keys.as_slice().len()
}

/// Notes a transaction: how many commands it runs, and how many watched keys it goes by.
fn note_exec(notes: &mut Vec<u8>, commands: Commands, watching: Watching) {
    note_count(notes, b"exec ", commands.as_slice().len());
    drop(commands);
    note_count(notes, b"watching ", count_of(watching));
}

/// Notes a call: of what kind it is, and how many commands and keys it has.
fn note_call(notes: &mut Vec<u8>, call: Call) {
    match call {
        Call::One(command) => {
            drop(command);
            note(notes, b"run ");
        }
        Call::Watch(keys) => {
            note_count(notes, b"watch ", keys.as_slice().len());
            drop(keys);
        }
        Call::Exec(commands, watching) => note_exec(notes, commands, watching),
        Call::Forget(watching) => note_count(notes, b"forget ", count_of(watching)),
    }
}

/// Notes a call, which is answered so, and the reply to it.
fn answer(call: Call, called: Called, given: Given, notes: &mut Vec<u8>) -> Talking {
    note_call(notes, call);
    let (reply, session) = called.resume(given.answer());
    note_last(notes, reply);
    Talking::Open(AnySession::Idle(session))
}

/// Notes a reply, and lets it go.
fn note_last(notes: &mut Vec<u8>, reply: Reply) {
    note_reply(notes, &reply);
}

/// What a session does with a request, whose calls are answered so.
fn ask(
    alloc: Global,
    session: AnySession,
    request: &[u8],
    given: Given,
    notes: &mut Vec<u8>,
) -> Talking {
    let Some((words, command)) = read(alloc, request) else {
        note(notes, b"(no memory for the request)\n");
        return Talking::Open(session);
    };
    match session.step(words, command) {
        Step::Says(reply, session) => {
            note_last(notes, reply);
            Talking::Open(session)
        }
        Step::Closes(reply, session) => {
            note_last(notes, reply);
            Talking::Closed(session)
        }
        Step::OutOfMemory(session) => {
            note(notes, b"(no memory)\n");
            Talking::Open(session)
        }
        Step::Calls(call, called) => answer(call, called, given, notes),
    }
}

/// What a session does with the next requests, each a line of text.
fn ask_all(
    alloc: Global,
    session: AnySession,
    text: &[u8],
    given: Given,
    notes: &mut Vec<u8>,
) -> Talking {
    let mut talking = Talking::Open(session);
    for request in text.split(|byte| *byte == b';') {
        talking = match talking {
            Talking::Open(session) => ask(alloc, session, request, given, notes),
            Talking::Closed(session) => {
                note(notes, b"(closed)\n");
                Talking::Closed(session)
            }
        };
    }
    talking
}

/// Ends the session, and notes the call that it makes then.
fn end(talking: Talking, notes: &mut Vec<u8>) {
    let call = match talking {
        Talking::Open(session) => session.close(),
        Talking::Closed(session) => session.close(),
    };
    if let Some(call) = call {
        note_call(notes, call);
    }
    note(notes, b"end");
}

/// An empty list with room for notes, tried again where there was no memory.
fn room(rt: &impl Abort, alloc: Global) -> Vec<u8> {
    if let Ok(notes) = Vec::with_capacity(alloc, 16_384) {
        return notes;
    }
    Vec::with_capacity(alloc, 16_384).expect(rt, "memory for a text")
}

/// What a new session says to requests between which stand semicolons.
fn talk(rt: &impl Abort, alloc: Global, text: &[u8], given: Given) -> Vec<u8> {
    let mut notes = room(rt, alloc);
    let session = AnySession::Idle(Session::new(alloc));
    let talking = ask_all(alloc, session, text, given, &mut notes);
    end(talking, &mut notes);
    notes
}

/// Requests, what their calls are answered, and what is said and asked.
type Row = (&'static [u8], Given, &'static [u8]);

/// Rows of the idle mode.
const IDLE: [Row; 6] = [
    (
        b"PING;PING hi;ECHO x;GET a;NOPE;GET;EXEC;DISCARD;SET a 1 NX XX",
        Given::Done,
        b"+PONG\nhi\nx\nrun +OK\n-ERR unknown command\n-ERR wrong number of arguments\n\
          -ERR EXEC without MULTI\n-ERR DISCARD without MULTI\n-ERR syntax error\nend",
    ),
    (b"QUIT;PING", Given::Done, b"+OK\n(closed)\nend"),
    (
        b"WATCH a b a;WATCH b c;UNWATCH;UNWATCH;QUIT",
        Given::Done,
        b"watch 03 +OK\nwatch 02 +OK\nforget 03 +OK\n+OK\n+OK\nend",
    ),
    (
        b"WATCH a b;PING;QUIT",
        Given::Done,
        b"watch 02 +OK\n+PONG\n+OK\nforget 02 end",
    ),
    (
        b"WATCH a;GET a;UNWATCH",
        Given::Full,
        b"watch 01 -FULL store is full\nrun -FULL store is full\n+OK\nend",
    ),
    (
        b"MULTI;EXEC;EXEC",
        Given::Null,
        b"+OK\nexec 00 watching 00 (null)\n-ERR EXEC without MULTI\nend",
    ),
];

/// Rows of a transaction that is queued.
const QUEUEING: [Row; 7] = [
    (
        b"MULTI;MULTI;WATCH k;EXEC;EXEC;DISCARD",
        Given::Done,
        b"+OK\n-ERR MULTI inside MULTI\n-ERR WATCH inside MULTI\nexec 00 watching 00 +OK\n\
          -ERR EXEC without MULTI\n-ERR DISCARD without MULTI\nend",
    ),
    (
        b"WATCH a;MULTI;UNWATCH;ECHO hi;SET a 1 NX XX;EXEC;EXEC",
        Given::Done,
        b"watch 01 +OK\n+OK\n+QUEUED\n+QUEUED\n+QUEUED\nexec 03 watching 01 +OK\n\
          -ERR EXEC without MULTI\nend",
    ),
    (
        b"MULTI;SET a 1;DISCARD;GET a;EXEC",
        Given::Done,
        b"+OK\n+QUEUED\n+OK\nrun +OK\n-ERR EXEC without MULTI\nend",
    ),
    (
        b"WATCH a;MULTI;SET a 1;DISCARD;EXEC",
        Given::Done,
        b"watch 01 +OK\n+OK\n+QUEUED\nforget 01 +OK\n-ERR EXEC without MULTI\nend",
    ),
    (
        b"MULTI;SET a 1;QUIT;EXEC",
        Given::Done,
        b"+OK\n+QUEUED\n+OK\n(closed)\nend",
    ),
    (
        b"WATCH a b;MULTI;SET a 1;QUIT",
        Given::Done,
        b"watch 02 +OK\n+OK\n+QUEUED\n+OK\nforget 02 end",
    ),
    (
        b"MULTI;NOPE;EXEC;GET a",
        Given::Done,
        b"+OK\n-ERR unknown command\n-EXECABORT transaction discarded because of earlier errors\n\
          run +OK\nend",
    ),
];

/// Rows of a transaction that is spoiled.
const SPOILED: [Row; 4] = [
    (
        b"MULTI;GET;SET a 1;EXEC;GET a",
        Given::Done,
        b"+OK\n-ERR wrong number of arguments\n+QUEUED\n\
          -EXECABORT transaction discarded because of earlier errors\nrun +OK\nend",
    ),
    (
        b"WATCH a;MULTI;EXEC x;MULTI;WATCH b;UNWATCH;SET a 1;GET;PING;EXEC;EXEC",
        Given::Done,
        b"watch 01 +OK\n+OK\n-ERR wrong number of arguments\n-ERR MULTI inside MULTI\n\
          -ERR WATCH inside MULTI\n+QUEUED\n+QUEUED\n-ERR wrong number of arguments\n+QUEUED\n\
          forget 01 -EXECABORT transaction discarded because of earlier errors\n\
          -ERR EXEC without MULTI\nend",
    ),
    (
        b"WATCH a;MULTI;GET;DISCARD;EXEC",
        Given::Done,
        b"watch 01 +OK\n+OK\n-ERR wrong number of arguments\nforget 01 +OK\n\
          -ERR EXEC without MULTI\nend",
    ),
    (
        b"WATCH a;MULTI;GET;QUIT;EXEC",
        Given::Done,
        b"watch 01 +OK\n+OK\n-ERR wrong number of arguments\n+OK\n(closed)\nforget 01 end",
    ),
];

/// Sees that each row is said so by a new session.
fn check_rows(rt: &impl Abort, alloc: Global, rows: &[Row]) {
    for (place, (requests, given, said)) in rows.iter().enumerate() {
        assert!(rt; is_said(rt, alloc, requests, *given, said), "at {place}");
    }
}

/// Whether a new session says this to these requests.
fn is_said(rt: &impl Abort, alloc: Global, requests: &[u8], given: Given, said: &[u8]) -> bool {
    let notes = talk(rt, alloc, requests, given);
    notes.as_slice() == said
}

#[test]
fn requests_of_an_idle_session(rt: HostRuntime) {
    check_rows(&rt, rt.alloc(), &IDLE);
}

#[test]
fn requests_in_a_transaction(rt: HostRuntime) {
    check_rows(&rt, rt.alloc(), &QUEUEING);
}

#[test]
fn requests_in_a_spoiled_transaction(rt: HostRuntime) {
    check_rows(&rt, rt.alloc(), &SPOILED);
}

/// Whether a session that watches says this where its EXEC is answered so.
fn is_exec_said(rt: &impl Abort, alloc: Global, given: Given, said: &[u8]) -> bool {
    let notes = exec_of_watched(rt, alloc, given);
    notes.as_slice() == said
}

/// What a session that watches says to a transaction whose EXEC is answered so.
fn exec_of_watched(rt: &impl Abort, alloc: Global, given: Given) -> Vec<u8> {
    let mut notes = room(rt, alloc);
    let session = AnySession::Idle(Session::new(alloc));
    let talking = match ask_all(
        alloc,
        session,
        b"WATCH a;MULTI;GET a",
        Given::Done,
        &mut notes,
    ) {
        Talking::Open(session) => ask_all(alloc, session, b"EXEC;UNWATCH", given, &mut notes),
        closed => closed,
    };
    end(talking, &mut notes);
    notes
}

#[test]
fn nothing_is_watched_after_exec(rt: HostRuntime) {
    let null = b"watch 01 +OK\n+OK\n+QUEUED\nexec 01 watching 01 (null)\n+OK\nend";
    assert!(rt; is_exec_said(&rt, rt.alloc(), Given::Null, null));
    let full = b"watch 01 +OK\n+OK\n+QUEUED\nexec 01 watching 01 -FULL store is full\n+OK\nend";
    assert!(rt; is_exec_said(&rt, rt.alloc(), Given::Full, full));
}

/// A first text, another one so many times, and a last one.
fn repeated(
    rt: &impl Abort,
    alloc: Global,
    first: &[u8],
    text: &[u8],
    count: usize,
    last: &[u8],
) -> Vec<u8> {
    let mut all = Vec::with_capacity(alloc, 131_072).expect(rt, "memory for a text");
    note(&mut all, first);
    for _ in 0..count {
        note(&mut all, text);
    }
    note(&mut all, last);
    all
}

/// Whether what is said to a text, another one so many times, and a last one ends so.
fn ends_so(
    rt: &impl Abort,
    alloc: Global,
    first: &[u8],
    text: &[u8],
    count: usize,
    last: &[u8],
    end: &[u8],
) -> bool {
    let requests = repeated(rt, alloc, first, text, count, last);
    let said = talk(rt, alloc, &requests, Given::Done);
    said.as_slice().ends_with(end)
}

/// Whether so many of these requests are queued and run, and this one is not queued after them.
fn is_most(
    rt: &impl Abort,
    alloc: Global,
    request: &[u8],
    count: usize,
    more: &[u8],
    run: &[u8],
) -> bool {
    let too_large = b"+QUEUED\n-ERR transaction is too large\n\
          -EXECABORT transaction discarded because of earlier errors\nend";
    ends_so(rt, alloc, b"MULTI;", request, count, b"EXEC", run)
        && ends_so(rt, alloc, b"MULTI;", request, count, more, too_large)
}

#[test]
fn a_transaction_of_too_many_commands(rt: HostRuntime) {
    let run = b"+QUEUED\nexec 28 watching 00 +OK\nend";
    assert!(rt; is_most(&rt, rt.alloc(), b"PING;", 128, b"PING;EXEC", run));
}

/// The end of what is said where a transaction of 8 requests is run.
const RUN: &[u8] = b"+QUEUED\nexec 08 watching 00 +OK\nend";

/// Whether 8 requests of a first text and another one so many times are queued and run, and these are not
/// queued after them.
fn are_most(
    rt: &impl Abort,
    alloc: Global,
    first: &[u8],
    text: &[u8],
    count: usize,
    more: &[u8],
) -> bool {
    let request = repeated(rt, alloc, first, text, count, b";");
    is_most(rt, alloc, &request, 8, more, RUN)
}

/// A transaction of 8 requests of 128 words each is as large as one may be.
#[test]
fn a_transaction_of_too_many_words(rt: HostRuntime) {
    assert!(rt; are_most(&rt, rt.alloc(), b"MGET", b" k", 127, b"UNWATCH;EXEC"));
}

/// A transaction of 8 requests of 16,384 bytes each, their names counted, is as large as one may be.
#[test]
fn a_transaction_of_too_many_bytes(rt: HostRuntime) {
    assert!(rt; are_most(&rt, rt.alloc(), b"ECHO ", b"x", 16_380, b"PING;EXEC"));
}

/// A WATCH of so many keys, of two bytes each, and a last text.
fn watch_of(rt: &impl Abort, alloc: Global, count: u8, last: &[u8]) -> Vec<u8> {
    let mut request = Vec::with_capacity(alloc, 16_384).expect(rt, "memory for a text");
    note(&mut request, b"WATCH");
    for key in 0..count {
        note(&mut request, &[b' ', b'k', 128 | key]);
    }
    note(&mut request, last);
    request
}

/// Whether this is said to a WATCH of so many keys, and a last text.
fn is_watch_said(rt: &impl Abort, alloc: Global, count: u8, last: &[u8], said: &[u8]) -> bool {
    let requests = watch_of(rt, alloc, count, last);
    is_said(rt, alloc, &requests, Given::Done, said)
}

#[test]
fn too_many_watched_keys(rt: HostRuntime) {
    let more = b";WATCH k\x80 x1 x1;WATCH k\x81 x1;WATCH x2;WATCH k\x80 x3 x1";
    let said = b"watch 27 +OK\nwatch 03 +OK\nwatch 02 +OK\n-ERR too many watched keys\n\
          -ERR too many watched keys\nforget 28 end";
    assert!(rt; is_watch_said(&rt, rt.alloc(), 127, more, said));
}

/// A key of 512 bytes is watched. One of 513 bytes is refused.
#[test]
fn too_long_watched_keys(rt: HostRuntime) {
    let longest = b"watch 02 +OK\nforget 02 +OK\nend";
    assert!(rt;
        ends_so(
            &rt,
            rt.alloc(),
            b"WATCH a ",
            b"k",
            512,
            b";UNWATCH",
            longest
        )
    );
    let too_long = b"-ERR key is too long\n+OK\nend";
    assert!(rt;
        ends_so(
            &rt,
            rt.alloc(),
            b"WATCH a ",
            b"k",
            513,
            b";UNWATCH",
            too_long
        )
    );
}

#[test]
fn a_long_key_is_not_looked_at_in_a_transaction(rt: HostRuntime) {
    let inside = b"+OK\n-ERR WATCH inside MULTI\nexec 00 watching 00 +OK\nend";
    assert!(rt;
        ends_so(
            &rt,
            rt.alloc(),
            b"MULTI;WATCH ",
            b"k",
            513,
            b";EXEC",
            inside
        )
    );
}

/// What is said to `WATCH a;MULTI;SET a 1;SET b 2;EXEC;EXEC` with memory for all, and where there is none
/// for the request of WATCH, for its key, or for the queue. Which comes is up to the allocator.
const WANTS: [&[u8]; 4] = [
    b"watch 01 +OK\n+OK\n+QUEUED\n+QUEUED\nexec 02 watching 01 +OK\n-ERR EXEC without MULTI\nend",
    b"(no memory for the request)\n+OK\n+QUEUED\n+QUEUED\nexec 02 watching 00 +OK\n\
      -ERR EXEC without MULTI\nend",
    b"(no memory)\n+OK\n+QUEUED\n+QUEUED\nexec 02 watching 00 +OK\n-ERR EXEC without MULTI\nend",
    b"watch 01 +OK\n+OK\n(no memory)\n+QUEUED\n\
      forget 01 -EXECABORT transaction discarded because of earlier errors\n\
      -ERR EXEC without MULTI\nend",
];

/// Whether what is said to these requests is one of those texts.
fn is_one_said(rt: &impl Abort, alloc: Global, requests: &[u8], texts: &[&[u8]]) -> bool {
    let said = talk(rt, alloc, requests, Given::Done);
    is_among(said.as_slice(), texts)
}

/// Whether a text is one of those.
fn is_among(text: &[u8], texts: &[&[u8]]) -> bool {
    for other in texts {
        if *other == text {
            return true;
        }
    }
    false
}

#[test]
fn want_of_memory_spoils_or_is_answered(rt: HostRuntime) {
    let requests = b"WATCH a;MULTI;SET a 1;SET b 2;EXEC;EXEC";
    assert!(rt; is_one_said(&rt, rt.alloc(), requests, &WANTS));
}

//! The bytes of replies of each form, by the tables of lines and of the protocol.

use resp_write::{encode, encode_line_within, encode_value_within, encode_within, send};
use std::alloc::Global;
use std::io;
use std::io::{ErrorKind, Write};
use std::process::Abort;
use streams::{Noted, WriteFault};
use words::reply::{
    CommandReply, Fault, Item, Line, ProtocolFault, Refusal, Reply, TransactionError,
};
use words::sequence::Sequence;
use words::word::Word;

/// A writer into memory, which takes at most three bytes at a time, and so many in all.
#[derive(Drop)]
struct Paper {
    text: Vec<u8>,
    room: usize,
}

impl Write for Paper {
    fn write(&mut self, bytes: &[u8]) -> io::Result<usize> {
        if self.room == 0 {
            return Err(ErrorKind::BrokenPipe.into());
        }
        let count = bytes.len().min(3).min(self.room);
        self.text.extend_from_slice(&bytes[..count])?;
        self.room -= count;
        Ok(count)
    }

    fn flush(&mut self) -> io::Result<()> {
        Ok(())
    }
}

/// Whether a reply is encoded so into an empty buffer.
fn encodes(rt: &impl Abort, alloc: Global, reply: &Reply, text: &[u8]) -> bool {
    let mut out = Vec::new(alloc);
    encode(reply, &mut out).expect(rt, "memory for a reply");
    out.as_slice() == text
}

/// Whether a reply is encoded so into a buffer with just the room for it, and then no more.
fn encodes_within(rt: &impl Abort, alloc: Global, reply: &Reply, text: &[u8]) -> bool {
    let mut out = Vec::with_capacity(alloc, text.len()).expect(rt, "memory for a text");
    let first = encode_within(reply, &mut out);
    let second = encode_within(reply, &mut out);
    first && !second && out.as_slice() == text
}

/// Whether a line is encoded so into a buffer with just the room for it, and then no more.
fn line_goes_within(rt: &impl Abort, alloc: Global, line: Line, text: &[u8]) -> bool {
    let mut out = Vec::with_capacity(alloc, text.len()).expect(rt, "memory for a text");
    let first = encode_line_within(line, &mut out);
    let second = encode_line_within(line, &mut out);
    first && !second && out.as_slice() == text
}

/// Whether what a GET found is encoded so into a buffer with just the room for it, and then no more.
fn value_goes_within(rt: &impl Abort, alloc: Global, value: &Option<Word>, text: &[u8]) -> bool {
    let mut out = Vec::with_capacity(alloc, text.len()).expect(rt, "memory for a text");
    let first = encode_value_within(value, &mut out);
    let second = encode_value_within(value, &mut out);
    first && !second && out.as_slice() == text
}

/// Whether a reply is sent so where so many bytes are taken: all of it, or what has room.
fn sends(alloc: Global, reply: &Reply, text: &[u8], room: usize) -> bool {
    let mut writer = Noted::new(Paper {
        text: Vec::new(alloc),
        room,
    });
    let wanted = if room < text.len() {
        Err(WriteFault)
    } else {
        Ok(())
    };
    let result = send(reply, &mut writer);
    let taken = writer.into_inner().text;
    result == wanted && taken.len() == room && text.starts_with(&taken)
}

/// Whether a reply has these bytes: in an empty buffer, in one with room for them, and sent. Where a
/// byte of room is wanting it is not encoded, and a writer that fails has a beginning of it.
fn has_bytes(rt: &impl Abort, alloc: Global, reply: Reply, text: &[u8]) -> bool {
    shows(rt, alloc, &reply, text)
}

fn shows(rt: &impl Abort, alloc: Global, reply: &Reply, text: &[u8]) -> bool {
    let mut has = encodes(rt, alloc, reply, text) && encodes_within(rt, alloc, reply, text);
    for room in 0..=text.len() {
        has = has && sends(alloc, reply, text, room);
    }
    has
}

/// A bulk string.
fn bulk(rt: &impl Abort, alloc: Global, text: &[u8]) -> Item {
    Item::Bulk(Word::from_slice(alloc, text).expect(rt, "memory for a word"))
}

/// Lines of what is done or refused.
const ANSWERS: [(Line, &[u8]); 13] = [
    (Line::Done, b"+OK\r\n"),
    (Line::Pong, b"+PONG\r\n"),
    (Line::Queued, b"+QUEUED\r\n"),
    (
        Line::Refused(Refusal::UnknownCommand),
        b"-ERR unknown command\r\n",
    ),
    (
        Line::Refused(Refusal::WrongArity),
        b"-ERR wrong number of arguments\r\n",
    ),
    (Line::Refused(Refusal::Syntax), b"-ERR syntax error\r\n"),
    (
        Line::Refused(Refusal::NotAnInteger),
        b"-ERR value is not an integer or out of range\r\n",
    ),
    (
        Line::Refused(Refusal::Overflow),
        b"-ERR increment or decrement would overflow\r\n",
    ),
    (
        Line::Refused(Refusal::OffsetOutOfRange),
        b"-ERR offset is out of range\r\n",
    ),
    (
        Line::Refused(Refusal::StringTooLong),
        b"-ERR string is too long\r\n",
    ),
    (
        Line::Refused(Refusal::KeyTooLong),
        b"-ERR key is too long\r\n",
    ),
    (
        Line::Refused(Refusal::WritesTooMuch),
        b"-ERR command writes too much\r\n",
    ),
    (Line::Refused(Refusal::NoSuchKey), b"-ERR no such key\r\n"),
];

#[test]
fn answers_and_refusals(rt: HostRuntime) {
    for (line, text) in &ANSWERS {
        let has = has_bytes(&rt, rt.alloc(), Reply::line(*line), text);
        assert!(rt; has, "{line:?}");
    }
}

#[test]
fn lines_without_a_reply(rt: HostRuntime) {
    for (line, text) in &ANSWERS {
        assert!(rt; line_goes_within(&rt, rt.alloc(), *line, text), "{line:?}");
    }
}

/// Lines of requests that do not fit their session's transaction.
const MISPLACED: [(Line, &[u8]); 7] = [
    (
        Line::Misplaced(TransactionError::NestedMulti),
        b"-ERR MULTI inside MULTI\r\n",
    ),
    (
        Line::Misplaced(TransactionError::WatchInsideMulti),
        b"-ERR WATCH inside MULTI\r\n",
    ),
    (
        Line::Misplaced(TransactionError::ExecWithoutMulti),
        b"-ERR EXEC without MULTI\r\n",
    ),
    (
        Line::Misplaced(TransactionError::DiscardWithoutMulti),
        b"-ERR DISCARD without MULTI\r\n",
    ),
    (
        Line::Misplaced(TransactionError::TransactionAborted),
        b"-EXECABORT transaction discarded because of earlier errors\r\n",
    ),
    (
        Line::Misplaced(TransactionError::TransactionTooLarge),
        b"-ERR transaction is too large\r\n",
    ),
    (
        Line::Misplaced(TransactionError::TooManyWatchedKeys),
        b"-ERR too many watched keys\r\n",
    ),
];

#[test]
fn transaction_errors(rt: HostRuntime) {
    for (line, text) in &MISPLACED {
        let has = has_bytes(&rt, rt.alloc(), Reply::line(*line), text);
        assert!(rt; has, "{line:?}");
    }
}

/// Lines of what the server could not answer, and of bytes that are no requests.
const FAULTS: [(Line, &[u8]); 10] = [
    (Line::Faulty(Fault::OutOfMemory), b"-OOM out of memory\r\n"),
    (Line::Faulty(Fault::DeviceFault), b"-IOERR device fault\r\n"),
    (Line::Faulty(Fault::StoreFull), b"-FULL store is full\r\n"),
    (
        Line::Faulty(Fault::CommitsWornOut),
        b"-WORN commit numbers are used up\r\n",
    ),
    (
        Line::Malformed(ProtocolFault::ExpectedArray),
        b"-ERR Protocol error: expected '*'\r\n",
    ),
    (
        Line::Malformed(ProtocolFault::BadCount),
        b"-ERR Protocol error: bad count\r\n",
    ),
    (
        Line::Malformed(ProtocolFault::ExpectedBulk),
        b"-ERR Protocol error: expected '$'\r\n",
    ),
    (
        Line::Malformed(ProtocolFault::BadLength),
        b"-ERR Protocol error: bad length\r\n",
    ),
    (
        Line::Malformed(ProtocolFault::MissingLineEnd),
        b"-ERR Protocol error: missing line end\r\n",
    ),
    (
        Line::Malformed(ProtocolFault::RequestTooLarge),
        b"-ERR Protocol error: request too large\r\n",
    ),
];

#[test]
fn faults(rt: HostRuntime) {
    for (line, text) in &FAULTS {
        let has = has_bytes(&rt, rt.alloc(), Reply::line(*line), text);
        assert!(rt; has, "{line:?}");
    }
}

/// Integers, with the least and the greatest.
const INTEGERS: [(i64, &[u8]); 5] = [
    (0, b":0\r\n"),
    (32_768, b":32768\r\n"),
    (-1, b":-1\r\n"),
    (i64::MIN, b":-9223372036854775808\r\n"),
    (i64::MAX, b":9223372036854775807\r\n"),
];

#[test]
fn integers(rt: HostRuntime) {
    for (number, text) in INTEGERS {
        let reply = Reply::Single(CommandReply::integer(number));
        let has = has_bytes(&rt, rt.alloc(), reply, text);
        assert!(rt; has, "{number}");
    }
}

/// Bulk strings: an empty one, and one that looks like the beginning of a request.
const BULKS: [(&[u8], &[u8]); 3] = [
    (b"", b"$0\r\n\r\n"),
    (b"a\r\n*1", b"$5\r\na\r\n*1\r\n"),
    (b"twelve bytes", b"$12\r\ntwelve bytes\r\n"),
];

#[test]
fn bulk_strings(rt: HostRuntime) {
    for (bytes, text) in BULKS {
        let reply = Reply::Single(CommandReply::One(bulk(&rt, rt.alloc(), bytes)));
        let has = has_bytes(&rt, rt.alloc(), reply, text);
        assert!(rt; has, "{bytes:?}");
    }
}

#[test]
fn values_without_a_reply(rt: HostRuntime) {
    for (bytes, text) in BULKS {
        let value = Some(Word::from_slice(rt.alloc(), bytes).expect(&rt, "memory for a word"));
        assert!(rt;
            value_goes_within(&rt, rt.alloc(), &value, text),
            "{bytes:?}"
        );
    }
    assert!(rt; value_goes_within(&rt, rt.alloc(), &None, b"$-1\r\n"));
}

/// A value of the most bytes, 32,768.
fn longest(rt: &impl Abort, alloc: Global) -> Reply {
    let value = bulk(rt, alloc, &[b'x'; 32_768]);
    Reply::Single(CommandReply::One(value))
}

fn encoded_len(rt: &impl Abort, alloc: Global, reply: &Reply) -> usize {
    let mut out = Vec::new(alloc);
    encode(reply, &mut out).expect(rt, "memory for a reply");
    out.len()
}

#[test]
fn the_longest_bulk_string(rt: HostRuntime) {
    let reply = longest(&rt, rt.alloc());
    let len = encoded_len(&rt, rt.alloc(), &reply);
    assert!(rt; len == 32_778);
    drop(reply);
}

/// No such key.
#[test]
fn a_null(rt: HostRuntime) {
    let reply = Reply::Single(CommandReply::bulk(None));
    let has = has_bytes(&rt, rt.alloc(), reply, b"$-1\r\n");
    assert!(rt; has);
}

/// A transaction that was not run.
#[test]
fn a_null_array(rt: HostRuntime) {
    let has = has_bytes(&rt, rt.alloc(), Reply::NullArray, b"*-1\r\n");
    assert!(rt; has);
}

/// An array of a bulk string and a null, as MGET answers it.
fn values(rt: &impl Abort, alloc: Global) -> CommandReply {
    let mut items = Vec::with_capacity(alloc, 2).expect(rt, "memory for two items");
    items
        .push(bulk(rt, alloc, b"2"))
        .expect(rt, "memory for one more");
    items.push(Item::Null).expect(rt, "memory for one more");
    CommandReply::Array(Sequence::from_vec(items))
}

#[test]
fn an_array_of_values(rt: HostRuntime) {
    let reply = Reply::Single(values(&rt, rt.alloc()));
    let has = has_bytes(&rt, rt.alloc(), reply, b"*2\r\n$1\r\n2\r\n$-1\r\n");
    assert!(rt; has);
}

/// A transaction whose commands answered a line, an array and a number.
fn transaction(rt: &impl Abort, alloc: Global) -> Reply {
    let mut replies = Vec::with_capacity(alloc, 3).expect(rt, "memory for three replies");
    replies
        .push(CommandReply::line(Line::Done))
        .expect(rt, "memory for one more");
    replies
        .push(values(rt, alloc))
        .expect(rt, "memory for one more");
    replies
        .push(CommandReply::integer(-7))
        .expect(rt, "memory for one more");
    Reply::Array(Sequence::from_vec(replies))
}

#[test]
fn an_array_of_arrays(rt: HostRuntime) {
    let text = b"*3\r\n+OK\r\n*2\r\n$1\r\n2\r\n$-1\r\n:-7\r\n";
    let reply = transaction(&rt, rt.alloc());
    let has = has_bytes(&rt, rt.alloc(), reply, text);
    assert!(rt; has);
}

/// A transaction without a command.
#[test]
fn an_empty_array(rt: HostRuntime) {
    let reply = Reply::Array(Sequence::from_vec(Vec::new(rt.alloc())));
    let has = has_bytes(&rt, rt.alloc(), reply, b"*0\r\n");
    assert!(rt; has);
}

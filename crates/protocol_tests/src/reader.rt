//! What the reader gives for streams whose requests and faults are known from outside.

use bytes::Bytes;
use resp_read::{ReadFault, Reader};
use std::alloc::Global;
use std::process::Abort;
use words::reply::ProtocolFault;
use words::word::{Word, Words};

/// What a reader gave: each request as its words with a `,` after each and then a `;`, and the text of
/// the first fault.
#[derive(Drop)]
struct Log {
    reader: Reader,
    text: Vec<u8>,
    faulty: bool,
}

impl Log {
    fn new(alloc: Global) -> Log {
        Log {
            reader: Reader::new(alloc),
            text: Vec::new(alloc),
            faulty: false,
        }
    }

    fn write(&mut self, rt: &impl Abort, words: &Words) {
        for word in words.as_slice() {
            self.add(rt, word.as_slice());
            self.add(rt, b",");
        }
        self.add(rt, b";");
    }

    fn add(&mut self, rt: &impl Abort, text: &[u8]) {
        self.text
            .extend_from_slice(text)
            .expect(rt, "memory for the log");
    }

    /// Notes the fault, if it is the first.
    fn note(&mut self, rt: &impl Abort, fault: ReadFault) {
        if self.faulty {
            return;
        }
        self.faulty = true;
        match fault {
            ReadFault::Protocol(fault) => self.add(rt, fault.text()),
            ReadFault::OutOfMemory => self.add(rt, b"no memory"),
        }
    }

    /// Notes what is given next, and says whether it was a request.
    fn step(&mut self, rt: &impl Abort) -> bool {
        match self.reader.next() {
            Ok(Some(words)) => {
                self.write(rt, &words);
                drop(words);
                true
            }
            Ok(None) => false,
            Err(fault) => {
                self.note(rt, fault);
                false
            }
        }
    }

    /// Feeds a piece, and notes what is given then.
    fn feed(&mut self, rt: &impl Abort, piece: &[u8]) {
        let copy = Bytes::copy_from_slice(*self.text.allocator(), piece).expect(
            rt,
            "memory for a copy of a piece",
        );
        assert!(rt; self.reader.feed(copy).is_ok(), "memory for a piece");
        for _ in 0..=piece.len() {
            if !self.step(rt) {
                return;
            }
        }
    }
}

/// Feeds the stream in pieces of this size.
fn feed_in_pieces(rt: &impl Abort, log: &mut Log, stream: &[u8], size: usize) {
    for piece in stream.chunks(size.max(1)) {
        log.feed(rt, piece);
    }
}

/// Feeds the stream cut in two at this place.
fn feed_in_two(rt: &impl Abort, log: &mut Log, stream: &[u8], at: usize) {
    let at = at.min(stream.len());
    log.feed(rt, &stream[..at]);
    log.feed(rt, &stream[at..]);
}

/// How a stream is cut.
#[derive(Clone, Copy)]
enum Cut {
    /// In pieces of this size.
    Pieces(usize),
    /// In two at this place.
    Two(usize),
}

/// Feeds the stream, and asserts what the reader has given.
fn check_log(rt: &impl Abort, log: &mut Log, stream: &[u8], cut: Cut, given: &[u8]) {
    match cut {
        Cut::Pieces(size) => {
            feed_in_pieces(rt, log, stream, size);
            assert!(rt; log.text.as_slice() == given, "in pieces of {size}");
        }
        Cut::Two(at) => {
            feed_in_two(rt, log, stream, at);
            assert!(rt; log.text.as_slice() == given, "cut at {at}");
        }
    }
}

/// Asserts what a reader gives for the stream that is cut so.
fn check_cut(rt: &impl Abort, alloc: Global, stream: &[u8], cut: Cut, given: &[u8]) {
    let mut log = Log::new(alloc);
    check_log(rt, &mut log, stream, cut, given);
    drop(log);
}

/// Asserts what a reader gives for the stream that is cut in two, at every place.
fn check_each_cut(rt: &impl Abort, alloc: Global, stream: &[u8], given: &[u8]) {
    for at in 0..stream.len() {
        check_cut(rt, alloc, stream, Cut::Two(at), given);
    }
}

/// Asserts what a reader gives for the stream as one piece, in pieces of 1, 2, 3 and 7 bytes, and cut in
/// two at every place.
fn check(rt: &impl Abort, alloc: Global, stream: &[u8], given: &[u8]) {
    for size in [1, 2, 3, 7, stream.len()] {
        check_cut(rt, alloc, stream, Cut::Pieces(size), given);
    }
    check_each_cut(rt, alloc, stream, given);
}

#[test]
fn ping(rt: HostRuntime) {
    check(&rt, rt.alloc(), b"*1\r\n$4\r\nPING\r\n", b"PING,;");
}

#[test]
fn set_then_get_in_any_pieces(rt: HostRuntime) {
    check(
        &rt,
        rt.alloc(),
        b"*3\r\n$3\r\nSET\r\n$1\r\nk\r\n$5\r\nhello\r\n*2\r\n$3\r\nGET\r\n$1\r\nk\r\n*1\r\n$4\r\nPI",
        b"SET,k,hello,;GET,k,;",
    );
}

/// A value that looks like the beginning of a request.
#[test]
fn a_value_with_line_ends_in_any_pieces(rt: HostRuntime) {
    check(
        &rt,
        rt.alloc(),
        b"*3\r\n$3\r\nSET\r\n$1\r\nk\r\n$5\r\na\r\n*1\r\n*2\r\n$3\r\nGET\r\n$1\r\nk\r\n",
        b"SET,k,a\r\n*1,;GET,k,;",
    );
}

#[test]
fn length_with_leading_zero(rt: HostRuntime) {
    check(
        &rt,
        rt.alloc(),
        b"*1\r\n$04\r\nPING\r\n",
        b"-ERR Protocol error: bad length",
    );
}

/// Streams with the text of the fault that stands in each.
const FAULTS: &[(&[u8], &[u8])] = &[
    (b"PING\r\n", b"-ERR Protocol error: expected '*'"),
    (b"\r\n", b"-ERR Protocol error: expected '*'"),
    (b"*0", b"-ERR Protocol error: bad count"),
    (b"*-1", b"-ERR Protocol error: bad count"),
    (b"*+1", b"-ERR Protocol error: bad count"),
    (b"*01", b"-ERR Protocol error: bad count"),
    (b"*\r", b"-ERR Protocol error: bad count"),
    (b"*129", b"-ERR Protocol error: bad count"),
    (b"*1a", b"-ERR Protocol error: bad count"),
    (b"*1\r\r", b"-ERR Protocol error: missing line end"),
    (b"*1\r\n+", b"-ERR Protocol error: expected '$'"),
    (b"*1\r\n$-1", b"-ERR Protocol error: bad length"),
    (b"*1\r\n$+1", b"-ERR Protocol error: bad length"),
    (b"*1\r\n$\r", b"-ERR Protocol error: bad length"),
    (b"*1\r\n$00", b"-ERR Protocol error: bad length"),
    (b"*1\r\n$32769", b"-ERR Protocol error: bad length"),
    (b"*1\r\n$4\n", b"-ERR Protocol error: bad length"),
    (b"*1\r\n$4\r4", b"-ERR Protocol error: missing line end"),
    (
        b"*1\r\n$4\r\nPINGx",
        b"-ERR Protocol error: missing line end",
    ),
    (
        b"*1\r\n$4\r\nPING\rx",
        b"-ERR Protocol error: missing line end",
    ),
    (
        b"*1\r\n$1\r\na\r\n*2\r\n$1\r\nb\r\n*",
        b"a,;-ERR Protocol error: expected '$'",
    ),
    (
        b"*1\r\n$0\r\n\r\n\n",
        b",;-ERR Protocol error: expected '*'",
    ),
];

#[test]
fn each_place_has_its_fault(rt: HostRuntime) {
    for &(stream, given) in FAULTS {
        check(&rt, rt.alloc(), stream, given);
    }
}

#[test]
fn a_part_of_a_request_gives_nothing(rt: HostRuntime) {
    let stream = b"*2\r\n$4\r\nECHO\r\n$10\r\n0123456789\r\n";
    for end in 0..stream.len() {
        check(&rt, rt.alloc(), &stream[..end], b"");
    }
    check(&rt, rt.alloc(), stream, b"ECHO,0123456789,;");
}

/// So many times this text, after and before others.
fn repeated(
    rt: &impl Abort,
    alloc: Global,
    before: &[u8],
    text: &[u8],
    count: u32,
    after: &[u8],
) -> Vec<u8> {
    let mut all = before.to_vec(alloc).expect(rt, "memory for a text");
    for _ in 0..count {
        all.extend_from_slice(text).expect(rt, "memory for a text");
    }
    all.extend_from_slice(after).expect(rt, "memory for a text");
    all
}

#[test]
fn the_most_words(rt: HostRuntime) {
    let alloc = rt.alloc();
    let stream = repeated(&rt, alloc, b"*128\r\n", b"$2\r\nab\r\n", 128, b"");
    let given = repeated(&rt, alloc, b"", b"ab,", 128, b";");
    check(&rt, alloc, &stream, &given);
    drop(given);
    drop(stream);
}

/// Four words of 32,768 bytes, which have as many as the words of a request may have, and what stands
/// after them.
fn five_words(rt: &impl Abort, alloc: Global, last: &[u8]) -> Vec<u8> {
    let word = repeated(rt, alloc, b"$32768\r\n", b"wwwwwwww", 4096, b"\r\n");
    repeated(rt, alloc, b"*5\r\n", &word, 4, last)
}

/// Asserts what a reader gives for the long stream, in pieces, and cut in two at every place of the lines
/// and their neighbourhood and at some in between: one place among the bytes of a word is like another.
fn check_long(rt: &impl Abort, alloc: Global, stream: &[u8], given: &[u8]) {
    for size in [1, 2, 3, 7, 16_384] {
        check_cut(rt, alloc, stream, Cut::Pieces(size), given);
    }
    for at in 0..stream.len() {
        if at % 32_778 < 16 || at % 32_778 > 32_768 || at % 4_093 == 0 {
            check_cut(rt, alloc, stream, Cut::Two(at), given);
        }
    }
}

#[test]
fn five_words_that_pass_the_most_bytes(rt: HostRuntime) {
    let alloc = rt.alloc();
    let stream = five_words(&rt, alloc, b"$1");
    check_long(
        &rt,
        alloc,
        &stream,
        b"-ERR Protocol error: request too large",
    );
    drop(stream);
}

#[test]
fn five_words_of_the_most_bytes(rt: HostRuntime) {
    let alloc = rt.alloc();
    let word = repeated(&rt, alloc, b"", b"wwwwwwww", 4096, b",");
    let given = repeated(&rt, alloc, b"", &word, 4, b",;");
    let stream = five_words(&rt, alloc, b"$0\r\n\r\n");
    check_cut(&rt, alloc, &stream, Cut::Pieces(16_384), &given);
    drop(stream);
    drop(given);
    drop(word);
}

/// 128 words of 1,024 bytes, each of a byte of its own, with texts around each.
fn longest(rt: &impl Abort, alloc: Global, first: &[u8], before: &[u8], after: &[u8]) -> Vec<u8> {
    let mut all = first.to_vec(alloc).expect(rt, "memory for a text");
    for byte in 0..128_u8 {
        all.extend_from_slice(before)
            .expect(rt, "memory for a text");
        all.extend_from_slice(&[byte; 1024])
            .expect(rt, "memory for a text");
        all.extend_from_slice(after).expect(rt, "memory for a text");
    }
    all
}

/// A request has no more words, and no more bytes in all of them.
#[test]
fn the_longest_request_is_given_however_it_is_cut(rt: HostRuntime) {
    let alloc = rt.alloc();
    let stream = longest(&rt, alloc, b"*128\r\n", b"$1024\r\n", b"\r\n");
    let mut given = longest(&rt, alloc, b"", b"", b",");
    given.push(b';').expect(&rt, "memory for one more");
    check_each_cut(&rt, alloc, &stream, &given);
    drop(given);
    drop(stream);
}

/// Asserts which pieces a reader keeps, from the oldest on.
fn check_kept(rt: &impl Abort, reader: &Reader, kept: &[&[u8]]) {
    for (index, &piece) in kept.iter().enumerate() {
        assert!(rt; reader.piece(index) == Some(piece), "piece {index}");
    }
    assert!(rt; reader.piece(kept.len()).is_none());
}

/// Feeds these bytes as a piece.
fn feed(rt: &impl Abort, reader: &mut Reader, piece: &'static [u8]) {
    assert!(rt;
        reader.feed(Bytes::from_static(piece)).is_ok(),
        "memory for a piece"
    );
}

/// Feeds four pieces, one of them empty.
fn feed_four(rt: &impl Abort, reader: &mut Reader) {
    check_kept(rt, reader, &[]);
    for piece in [b"*".as_slice(), b"2", b"", b"\r\n$3\r\nGET\r\n$1\r\nk\r"] {
        feed(rt, reader, piece);
    }
    check_kept(rt, reader, &[b"*", b"2", b"\r\n$3\r\nGET\r\n$1\r\nk\r"]);
}

#[test]
fn pieces_stay_as_they_were_fed(rt: HostRuntime) {
    let mut reader = Reader::new(rt.alloc());
    feed_four(&rt, &mut reader);
    drop(reader);
}

/// Whether the reader waits for more.
fn waits(reader: &mut Reader) -> bool {
    matches!(reader.next(), Ok(None))
}

/// Whether the reader gives a request.
fn gives(reader: &mut Reader) -> bool {
    matches!(reader.next(), Ok(Some(_)))
}

/// Asserts that the reader waits, with these pieces.
fn check_waits(rt: &impl Abort, reader: &mut Reader, kept: &[&[u8]]) {
    assert!(rt; waits(reader));
    check_kept(rt, reader, kept);
}

/// The count and the first word are kept as words, the second word stays with its length line.
fn feed_two_requests(rt: &impl Abort, reader: &mut Reader) {
    feed(rt, reader, b"*2\r\n$3\r\nGET\r\n$5\r\nhe");
    check_waits(rt, reader, &[b"$5\r\nhe"]);
    feed(rt, reader, b"llo\r");
    check_waits(rt, reader, &[b"$5\r\nhe", b"llo\r"]);
    feed(rt, reader, b"\n*1\r\n$4");
    assert!(rt; gives(reader));
    check_kept(rt, reader, &[b"*1\r\n$4"]);
}

#[test]
fn whole_words_are_taken_off_and_parts_are_not(rt: HostRuntime) {
    let mut reader = Reader::new(rt.alloc());
    feed_two_requests(&rt, &mut reader);
    drop(reader);
}

/// A long word is taken off too. Where memory is refused for it once (`rt try --test --fail-alloc`) the reader
/// tells it, and takes the word off when it is asked again.
fn wait_after_a_long_word(rt: &impl Abort, reader: &mut Reader) {
    feed(
        rt,
        reader,
        b"*3\r\n$3\r\nSET\r\n$26\r\nabcdefghijklmnopqrstuvwxyz\r\n$5\r\nhe",
    );
    assert!(rt; waits(reader));
    if reader.lacks_memory() {
        check_kept(
            rt,
            reader,
            &[b"$26\r\nabcdefghijklmnopqrstuvwxyz\r\n$5\r\nhe"],
        );
        assert!(rt; waits(reader));
    }
    assert!(rt; !reader.lacks_memory());
    check_kept(rt, reader, &[b"$5\r\nhe"]);
}

#[test]
fn long_words_are_taken_off_while_more_is_due(rt: HostRuntime) {
    let mut reader = Reader::new(rt.alloc());
    wait_after_a_long_word(&rt, &mut reader);
    drop(reader);
}

/// Every byte once, after and before others.
fn every_byte(rt: &impl Abort, alloc: Global, before: &[u8], after: &[u8]) -> Vec<u8> {
    let mut all = before.to_vec(alloc).expect(rt, "memory for a text");
    for byte in 0..=255_u8 {
        all.push(byte).expect(rt, "memory for one more");
    }
    all.extend_from_slice(after).expect(rt, "memory for a text");
    all
}

#[test]
fn data_of_line_ends_and_every_byte(rt: HostRuntime) {
    let alloc = rt.alloc();
    let stream = every_byte(&rt, alloc, b"*2\r\n$4\r\n\r\n\r\n\r\n$256\r\n", b"\r\n");
    let given = every_byte(&rt, alloc, b"\r\n\r\n,", b",;");
    check(&rt, alloc, &stream, &given);
    drop(given);
    drop(stream);
}

/// The fault that the reader answers.
fn fault_of(reader: &mut Reader) -> Option<ReadFault> {
    match reader.next() {
        Ok(_) => None,
        Err(fault) => Some(fault),
    }
}

/// Asserts that each piece leaves the fault as it is.
fn feed_after_fault(rt: &impl Abort, reader: &mut Reader) {
    let fault = Some(ReadFault::Protocol(ProtocolFault::BadLength));
    for piece in [
        b"*1\r\n$-".as_slice(),
        b"1\r\n",
        b"",
        b"*1\r\n$4\r\nPING\r\n",
    ] {
        feed(rt, reader, piece);
        assert!(rt; fault_of(reader) == fault);
        assert!(rt; fault_of(reader) == fault);
    }
}

#[test]
fn a_fault_stays(rt: HostRuntime) {
    let mut reader = Reader::new(rt.alloc());
    feed_after_fault(&rt, &mut reader);
    drop(reader);
}

/// The words of the request that is cut below.
const CUT_WORDS: &[&[u8]] = &[
    b"a",
    b"abcdefghijklmnopqrstuvwxyz",
    b"c",
    b"",
    b"e",
    b"012345678901234567890123456789",
];

/// Whether these are the words that are wanted.
fn are(words: &Words, wanted: &[&[u8]]) -> bool {
    let mut same = words.as_slice().len() == wanted.len();
    for (word, &bytes) in words.as_slice().iter().zip(wanted) {
        same = same && word.as_slice() == bytes;
    }
    same
}

/// What a reader gives that was fed the request that is cut below.
#[derive(Clone, Copy, PartialEq, Eq)]
enum Given {
    Words,
    NoMemory,
    Another,
}

fn given_by(reader: &mut Reader) -> Given {
    match reader.next() {
        Ok(Some(words)) if are(&words, CUT_WORDS) => Given::Words,
        Err(ReadFault::OutOfMemory) => Given::NoMemory,
        _ => Given::Another,
    }
}

/// Asserts that the reader gives the words at once, or after memory was refused for them once.
fn check_given(rt: &impl Abort, reader: &mut Reader) {
    let mut given = given_by(reader);
    if given == Given::NoMemory {
        given = given_by(reader);
    }
    assert!(rt; given == Given::Words);
}

/// Feeds a piece, and once more where it came back.
fn feed_again(rt: &impl Abort, reader: &mut Reader, piece: &'static [u8]) {
    match reader.feed(Bytes::from_static(piece)) {
        Ok(()) => {}
        Err(_) => feed(rt, reader, piece),
    }
}

/// Asserts that the reader waits before each piece, and feeds it.
fn feed_while_waiting(rt: &impl Abort, reader: &mut Reader, pieces: &[&'static [u8]]) {
    for &piece in pieces {
        assert!(rt; waits(reader));
        feed_again(rt, reader, piece);
    }
}

/// Each allocation may fail once (`rt try --test --fail-alloc`). While a part of the request is there the
/// reader waits all the same, since the words can stay in the pieces; where it is whole the same call
/// then succeeds.
#[test]
fn a_refused_allocation_changes_nothing(rt: HostRuntime) {
    let mut reader = Reader::new(rt.alloc());
    let pieces: &[&'static [u8]] = &[
        b"*6\r\n$1\r\na\r\n$26\r\nabcdefghijklmnopqrstuvwxyz\r\n$1\r\nc\r\n$0\r\n\r\n$1\r\n",
        b"e\r\n$30\r\n012345678901234",
        b"567890123456789\r\n",
    ];
    feed_while_waiting(&rt, &mut reader, pieces);
    check_given(&rt, &mut reader);
    drop(reader);
}

/// A request of one piece takes as much memory, and its reader is unchanged where that is refused.
#[test]
fn a_refused_allocation_of_a_whole_request(rt: HostRuntime) {
    let mut reader = Reader::new(rt.alloc());
    let piece: &'static [u8] =
        b"*6\r\n$1\r\na\r\n$26\r\nabcdefghijklmnopqrstuvwxyz\r\n$1\r\nc\r\n$0\r\n\r\n$1\r\ne\r\n$30\r\n012345678901234567890123456789\r\n";
    feed_while_waiting(&rt, &mut reader, &[piece]);
    check_given(&rt, &mut reader);
    check_waits(&rt, &mut reader, &[]);
    drop(reader);
}

/// Feeds a piece and asks the reader with these words, which are used again. Whether it gives the words that
/// are wanted, or none where none are.
fn gives_into(
    rt: &impl Abort,
    reader: &mut Reader,
    words: &mut Words,
    piece: &'static [u8],
    wanted: &[&[u8]],
) -> bool {
    feed_again(rt, reader, piece);
    match reader.next_into(words) {
        Ok(true) => are(words, wanted),
        Ok(false) => wanted.is_empty(),
        Err(_) => panic!(rt; "a fault"),
    }
}

/// A request of many words, then one of few, a part, its rest with a part, and the rest of that: each piece with
/// the words that the reader then gives.
const ONE_AFTER_ANOTHER: &[(&[u8], &[&[u8]])] = &[
    (
        b"*6\r\n$1\r\na\r\n$26\r\nabcdefghijklmnopqrstuvwxyz\r\n$1\r\nc\r\n$0\r\n\r\n$1\r\ne\r\n$30\r\n012345678901234567890123456789\r\n",
        CUT_WORDS,
    ),
    (b"*2\r\n$3\r\nGET\r\n$1\r\nk\r\n", &[b"GET", b"k"]),
    (b"*3\r\n$3\r\nSET\r\n$1\r\nk", &[]),
    (
        b"\r\n$2\r\nvw\r\n*1\r\n$4\r\nPING\r\n",
        &[b"SET", b"k", b"vw"],
    ),
    (b"*1\r\n", &[b"PING"]),
];

/// Whether the reader gives the words of each piece, all into the same.
fn gives_one_after_another(rt: &impl Abort, reader: &mut Reader, words: &mut Words) -> bool {
    for (piece, wanted) in ONE_AFTER_ANOTHER {
        if !gives_into(rt, reader, words, piece, wanted) {
            return false;
        }
    }
    true
}

#[test]
fn words_are_used_again(rt: HostRuntime) {
    let alloc = rt.alloc();
    let mut reader = Reader::new(alloc);
    let mut words = Words::one(alloc, Word::empty(alloc));
    assert!(rt; gives_one_after_another(&rt, &mut reader, &mut words));
    drop(words);
    drop(reader);
}

//! Words, requests and commands past their inline room, each command of the table with ample memory,
//! the order of words, and limits at the ends of their ranges.

ghost use Rattle.std.specs.Prelude.{◌<◌, ◌≤◌};

use std::alloc::Global;
use std::cmp::Ordering;
use std::process::Abort;
use words::command::{Brief, Command, Count, SessionCommand, Verb, When};
use words::limits::{Limits, WORDS_MAX};
use words::reply::Refusal;
use words::word::{Word, Words};

/// The request of these words.
fn request(rt: &impl Abort, alloc: Global, words: &[&[u8]]) -> Words {
    let Some((name, arguments)) = words.split_first() else {
        return Words::one(alloc, Word::empty(alloc));
    };
    let mut request = Words::one(
        alloc,
        Word::from_slice(alloc, name).expect(rt, "memory for a word"),
    );
    for argument in arguments {
        if request.as_slice().len() < WORDS_MAX {
            request
                .push(Word::from_slice(alloc, argument).expect(rt, "memory for a word"))
                .expect(rt, "memory for a request");
        }
    }
    request
}

/// What words are.
type Read = Result<Command, Refusal>;

/// Whether what this request is is as `fits` says.
fn request_reads(rt: &impl Abort, alloc: Global, request: &Words, fits: fn(&Read) -> bool) -> bool
    requires { IsAlwaysCallable fits }
{
    let read = Command::of(alloc, request).expect(rt, "memory for the command");
    let is_fit = fits(&read);
    if let Ok(command) = read {
        drop(command);
    }
    is_fit
}

/// Whether what these words are is as `fits` says.
fn reads(rt: &impl Abort, alloc: Global, words: &[&[u8]], fits: fn(&Read) -> bool) -> bool
    requires { IsAlwaysCallable fits }
{
    let request = request(rt, alloc, words);
    request_reads(rt, alloc, &request, fits)
}

/// Whether a word is this text.
fn is(word: &Word, text: &[u8]) -> bool {
    word.as_slice() == text
}

/// Whether the words are these, in this order.
fn are(words: &[Word], texts: &[&[u8]]) -> bool {
    if words.len() != texts.len() {
        return false;
    }
    for (word, text) in words.iter().zip(texts) {
        if !is(word, text) {
            return false;
        }
    }
    true
}

/// Whether the settings are these pairs, in this order.
fn are_settings(settings: &[(Word, Word)], texts: &[(&[u8], &[u8])]) -> bool {
    if settings.len() != texts.len() {
        return false;
    }
    for ((key, value), (key_text, value_text)) in settings.iter().zip(texts) {
        if !is(key, key_text) || !is(value, value_text) {
            return false;
        }
    }
    true
}

#[test]
fn a_word_past_its_inline_room(rt: HostRuntime) {
    let bytes = [7u8; 23];
    let word = Word::from_slice(rt.alloc(), &bytes).expect(&rt, "memory for a word");
    assert!(rt; word.clone().expect(&rt, "memory for a word") == word);
    assert!(rt; word.len() == 23);
    drop(word);
}

/// MSET of two short keys: five words.
#[test]
fn a_request_past_its_inline_room(rt: HostRuntime) {
    let words = request(&rt, rt.alloc(), &[b"MSET", b"a", b"1", b"b", b"2"]);
    assert!(rt; are(words.as_slice(), &[b"MSET", b"a", b"1", b"b", b"2"]));
    drop(words);
}

fn is_get(read: &Read) -> bool {
    matches!(read, Ok(Command::Get(key)) if is(key, b"k"))
}

fn is_set(read: &Read) -> bool {
    matches!(read, Ok(Command::Set(key, value, When::IfPresent)) if is(key, b"k") && is(value, b"v"))
}

fn is_set_get(read: &Read) -> bool {
    matches!(read, Ok(Command::SetGet(key, value, When::IfMissing)) if is(key, b"k") && is(value, b"v"))
}

fn is_rename(read: &Read) -> bool {
    matches!(read, Ok(Command::Rename(key, name)) if is(key, b"k") && is(name, b"n"))
}

fn is_get_del(read: &Read) -> bool {
    matches!(read, Ok(Command::GetDel(key)) if is(key, b"k"))
}

fn is_str_len(read: &Read) -> bool {
    matches!(read, Ok(Command::StrLen(key)) if is(key, b"k"))
}

fn is_set_nx(read: &Read) -> bool {
    matches!(read, Ok(Command::SetNx(key, value)) if is(key, b"k") && is(value, b"v"))
}

fn is_get_set(read: &Read) -> bool {
    matches!(read, Ok(Command::GetSet(key, value)) if is(key, b"k") && is(value, b"v"))
}

fn is_append(read: &Read) -> bool {
    matches!(read, Ok(Command::Append(key, value)) if is(key, b"k") && is(value, b"v"))
}

fn is_set_range(read: &Read) -> bool {
    matches!(read, Ok(Command::SetRange(key, 5, value)) if is(key, b"k") && is(value, b"v"))
}

fn is_get_range(read: &Read) -> bool {
    matches!(read, Ok(Command::GetRange(key, 1, -2)) if is(key, b"k"))
}

fn is_incr(read: &Read) -> bool {
    matches!(read, Ok(Command::Add(key, 1)) if is(key, b"k"))
}

fn is_decr(read: &Read) -> bool {
    matches!(read, Ok(Command::Subtract(key, 1)) if is(key, b"k"))
}

fn is_incr_by(read: &Read) -> bool {
    matches!(read, Ok(Command::Add(key, -7)) if is(key, b"k"))
}

fn is_decr_by(read: &Read) -> bool {
    matches!(read, Ok(Command::Subtract(key, 7)) if is(key, b"k"))
}

fn is_exists(read: &Read) -> bool {
    matches!(read, Ok(Command::Exists(keys)) if are(keys.as_slice(), &[b"a", b"b", b"a"]))
}

fn is_del(read: &Read) -> bool {
    matches!(read, Ok(Command::Del(keys)) if are(keys.as_slice(), &[b"a"]))
}

fn is_m_get(read: &Read) -> bool {
    matches!(read, Ok(Command::MGet(keys)) if are(keys.as_slice(), &[b"a", b"z"]))
}

fn is_m_set(read: &Read) -> bool {
    matches!(read, Ok(Command::MSet(settings)) if are_settings(settings.as_slice(), &[(b"a", b"1"), (b"b", b"2")]))
}

fn is_m_set_nx(read: &Read) -> bool {
    matches!(read, Ok(Command::MSetNx(settings)) if are_settings(settings.as_slice(), &[(b"a", b"1")]))
}

fn is_ping(read: &Read) -> bool {
    matches!(read, Ok(Command::Ping(None)))
}

fn is_ping_with_text(read: &Read) -> bool {
    matches!(read, Ok(Command::Ping(Some(text))) if is(text, b"hi"))
}

fn is_echo(read: &Read) -> bool {
    matches!(read, Ok(Command::Echo(text)) if is(text, b"hi"))
}

fn is_multi(read: &Read) -> bool {
    matches!(read, Ok(Command::Session(SessionCommand::Multi)))
}

fn is_exec(read: &Read) -> bool {
    matches!(read, Ok(Command::Session(SessionCommand::Exec)))
}

fn is_discard(read: &Read) -> bool {
    matches!(read, Ok(Command::Session(SessionCommand::Discard)))
}

fn is_watch(read: &Read) -> bool {
    matches!(read, Ok(Command::Session(SessionCommand::Watch(keys))) if are(keys.as_slice(), &[b"a", b"b"]))
}

fn is_unwatch(read: &Read) -> bool {
    matches!(read, Ok(Command::Session(SessionCommand::Unwatch)))
}

fn is_quit(read: &Read) -> bool {
    matches!(read, Ok(Command::Session(SessionCommand::Quit)))
}

fn is_unknown_name(read: &Read) -> bool {
    matches!(read, Err(Refusal::UnknownCommand))
}

fn is_too_few_words(read: &Read) -> bool {
    matches!(read, Err(Refusal::WrongArity))
}

fn is_no_option(read: &Read) -> bool {
    matches!(read, Ok(Command::Bad(Refusal::Syntax)))
}

#[test]
fn one_key(rt: HostRuntime) {
    assert!(rt; reads(&rt, rt.alloc(), &[b"gEt", b"k"], is_get));
    assert!(rt; reads(&rt, rt.alloc(), &[b"GETDEL", b"k"], is_get_del));
    assert!(rt; reads(&rt, rt.alloc(), &[b"STRLEN", b"k"], is_str_len));
}

#[test]
fn values(rt: HostRuntime) {
    assert!(rt; reads(&rt, rt.alloc(), &[b"sEt", b"k", b"v", b"xX"], is_set));
    assert!(rt;
        reads(
            &rt,
            rt.alloc(),
            &[b"SET", b"k", b"v", b"gEt", b"nX"],
            is_set_get
        )
    );
    assert!(rt; reads(&rt, rt.alloc(), &[b"SETNX", b"k", b"v"], is_set_nx));
    assert!(rt; reads(&rt, rt.alloc(), &[b"GETSET", b"k", b"v"], is_get_set));
    assert!(rt; reads(&rt, rt.alloc(), &[b"APPEND", b"k", b"v"], is_append));
}

#[test]
fn ranges(rt: HostRuntime) {
    assert!(rt;
        reads(
            &rt,
            rt.alloc(),
            &[b"SETRANGE", b"k", b"5", b"v"],
            is_set_range
        )
    );
    assert!(rt;
        reads(
            &rt,
            rt.alloc(),
            &[b"GETRANGE", b"k", b"1", b"-2"],
            is_get_range
        )
    );
}

#[test]
fn counters(rt: HostRuntime) {
    assert!(rt; reads(&rt, rt.alloc(), &[b"INCR", b"k"], is_incr));
    assert!(rt; reads(&rt, rt.alloc(), &[b"DECR", b"k"], is_decr));
    assert!(rt; reads(&rt, rt.alloc(), &[b"INCRBY", b"k", b"-7"], is_incr_by));
    assert!(rt; reads(&rt, rt.alloc(), &[b"DECRBY", b"k", b"7"], is_decr_by));
}

#[test]
fn several_keys(rt: HostRuntime) {
    assert!(rt; reads(&rt, rt.alloc(), &[b"EXISTS", b"a", b"b", b"a"], is_exists));
    assert!(rt; reads(&rt, rt.alloc(), &[b"DEL", b"a"], is_del));
    assert!(rt; reads(&rt, rt.alloc(), &[b"MGET", b"a", b"z"], is_m_get));
    assert!(rt; reads(&rt, rt.alloc(), &[b"WATCH", b"a", b"b"], is_watch));
    assert!(rt; reads(&rt, rt.alloc(), &[b"rename", b"k", b"n"], is_rename));
}

#[test]
fn settings(rt: HostRuntime) {
    assert!(rt;
        reads(
            &rt,
            rt.alloc(),
            &[b"MSET", b"a", b"1", b"b", b"2"],
            is_m_set
        )
    );
    assert!(rt; reads(&rt, rt.alloc(), &[b"MSETNX", b"a", b"1"], is_m_set_nx));
}

#[test]
fn texts(rt: HostRuntime) {
    assert!(rt; reads(&rt, rt.alloc(), &[b"PING"], is_ping));
    assert!(rt; reads(&rt, rt.alloc(), &[b"PING", b"hi"], is_ping_with_text));
    assert!(rt; reads(&rt, rt.alloc(), &[b"ECHO", b"hi"], is_echo));
}

#[test]
fn sessions(rt: HostRuntime) {
    assert!(rt; reads(&rt, rt.alloc(), &[b"MULTI"], is_multi));
    assert!(rt; reads(&rt, rt.alloc(), &[b"EXEC"], is_exec));
    assert!(rt; reads(&rt, rt.alloc(), &[b"DISCARD"], is_discard));
}

#[test]
fn ends(rt: HostRuntime) {
    assert!(rt; reads(&rt, rt.alloc(), &[b"UNWATCH"], is_unwatch));
    assert!(rt; reads(&rt, rt.alloc(), &[b"QUIT"], is_quit));
}

#[test]
fn refusals(rt: HostRuntime) {
    assert!(rt; reads(&rt, rt.alloc(), &[b"FLUSHALL"], is_unknown_name));
    assert!(rt; reads(&rt, rt.alloc(), &[b"GET"], is_too_few_words));
    assert!(rt; reads(&rt, rt.alloc(), &[b"SET", b"k", b"v", b"EX"], is_no_option));
}

/// How many words of each kind stand among the option words of a SET.
#[derive(Clone, Copy)]
struct Counts {
    get: u32,
    nx: u32,
    xx: u32,
    other: u32,
}

impl Counts {
    /// One word more.
    fn add(&mut self, option: &[u8]) {
        if option == b"GET".as_slice() || option == b"gEt".as_slice() {
            self.get = self.get.saturating_add(1);
        } else if option == b"NX".as_slice() || option == b"nX".as_slice() {
            self.nx = self.nx.saturating_add(1);
        } else if option == b"XX".as_slice() || option == b"xx".as_slice() {
            self.xx = self.xx.saturating_add(1);
        } else {
            self.other = self.other.saturating_add(1);
        }
    }

    /// Whether what a SET with these words is goes by how many there are of each kind.
    fn fit(self, read: &Read) -> bool {
        let when = match (self.nx, self.xx) {
            (0, 0) => When::Always,
            (1, 0) => When::IfMissing,
            (0, 1) => When::IfPresent,
            _ => return is_no_option(read),
        };
        match (self.get, self.other, read) {
            (0, 0, Ok(Command::Set(key, value, done))) => {
                *done == when && is(key, b"k") && is(value, b"v")
            }
            (1, 0, Ok(Command::SetGet(key, value, done))) => {
                *done == when && is(key, b"k") && is(value, b"v")
            }
            (0 | 1, 0, _) => false,
            _ => is_no_option(read),
        }
    }
}

/// Words that may stand among the options of a SET.
const OPTIONS: [&[u8]; 8] = [b"GET", b"gEt", b"NX", b"nX", b"XX", b"xx", b"EX", b""];

/// Whether a SET with so many option words, those that the digits of a number to base 8 name, is what it is to be.
fn takes_options(rt: &impl Abort, alloc: Global, number: usize, count: usize) -> bool {
    let mut words = request(rt, alloc, &[b"SET", b"k", b"v"]);
    let mut counts = Counts {
        get: 0,
        nx: 0,
        xx: 0,
        other: 0,
    };
    let mut rest = number;
    for _ in 0..count {
        let option = OPTIONS[rest % 8];
        rest /= 8;
        counts.add(option);
        if words.as_slice().len() < WORDS_MAX {
            words
                .push(Word::from_slice(alloc, option).expect(rt, "memory for a word"))
                .expect(rt, "memory for a request");
        }
    }
    let read = Command::of(alloc, &words).expect(rt, "memory for the command");
    let is_fit = counts.fit(&read);
    if let Ok(command) = read {
        drop(command);
    }
    is_fit
}

/// Each list of up to four option words, of 4,681.
#[test]
fn option_words_of_set(rt: HostRuntime) {
    for (count, lists) in [(0, 1), (1, 8), (2, 64), (3, 512), (4, 4_096)] {
        for number in 0..lists {
            assert!(rt;
                takes_options(&rt, rt.alloc(), number, count),
                "{number} {count}"
            );
        }
    }
}

/// Which of the commands that are asked most these words are.
fn brief(rt: &impl Abort, alloc: Global, words: &[&[u8]]) -> Brief {
    let request = request(rt, alloc, words);
    Brief::of(&request)
}

/// Those that are asked most, in any case, and requests that are like them.
#[test]
fn briefs(rt: HostRuntime) {
    let rows: [(&[&[u8]], Brief); 45] = [
        (&[b"GET", b"k"], Brief::Get),
        (&[b"get", b"k"], Brief::Get),
        (&[b"GET", &[b'k'; 512]], Brief::Get),
        (&[b"GET", &[b'k'; 513]], Brief::Other),
        (&[b"GET", b"k", b"l"], Brief::Other),
        (&[b"sEt", b"k", b"v"], Brief::Set),
        (&[b"SET", &[b'k'; 513], b"v"], Brief::Other),
        (&[b"SET", b"k", b"v", b"NX"], Brief::Other),
        (&[b"INCR", b"k"], Brief::One(Verb::Count(Count::Add(1)))),
        (
            &[b"decr", b"k"],
            Brief::One(Verb::Count(Count::Subtract(1))),
        ),
        (
            &[b"INCRBY", b"k", b"-5"],
            Brief::One(Verb::Count(Count::Add(-5))),
        ),
        (
            &[b"DecrBy", b"k", b"-9223372036854775808"],
            Brief::One(Verb::Count(Count::Subtract(-9_223_372_036_854_775_808))),
        ),
        (&[b"INCRBY", b"k", b"01"], Brief::Other),
        (&[b"DECRBY", b"k", b"x"], Brief::Other),
        (&[b"INCR", &[b'k'; 513]], Brief::Other),
        (&[b"INCR", b"k", b"1"], Brief::Other),
        (&[b"INCRBY", b"k"], Brief::Other),
        (&[b"MGET", b"k"], Brief::Values),
        (&[b"mget", b"k", b"l"], Brief::Values),
        (&[b"MGET", b"k", b"k", b"l", b""], Brief::Values),
        (&[b"MGET"], Brief::Other),
        (&[b"MGET", &[b'k'; 513]], Brief::Other),
        (&[b"MGET", b"k", &[b'k'; 513]], Brief::Other),
        (&[b"MGET", b"k", b"l", &[b'k'; 513]], Brief::Other),
        (&[b"SETNX", b"k", b"v"], Brief::One(Verb::SetNx)),
        (&[b"getset", b"k", b"v"], Brief::One(Verb::GetSet)),
        (&[b"APPEND", b"k", b""], Brief::One(Verb::Append)),
        (&[b"APPEND", &[b'k'; 513], b"v"], Brief::Other),
        (&[b"APPEND", b"k"], Brief::Other),
        (&[b"GetDel", b"k"], Brief::One(Verb::GetDel)),
        (&[b"STRLEN", b"k"], Brief::One(Verb::StrLen)),
        (&[b"STRLEN", &[b'k'; 513]], Brief::Other),
        (&[b"EXISTS", b"k"], Brief::One(Verb::Exists)),
        (&[b"EXISTS", b"k", b"l"], Brief::Other),
        (&[b"del", b"k"], Brief::One(Verb::Del)),
        (&[b"DEL", b"k", b"l"], Brief::Other),
        (&[b"MSET", b"k", b"v"], Brief::Settings),
        (&[b"mset", b"k", b"v", b"k", &[b'v'; 600]], Brief::Settings),
        (&[b"MSET", b"k"], Brief::Other),
        (&[b"MSET", b"k", b"v", b"l"], Brief::Other),
        (&[b"MSET", b"k", b"v", &[b'k'; 513], b"v"], Brief::Other),
        (&[b"MSETNX", b"k", b"v"], Brief::Other),
        (&[b"ping"], Brief::Ping),
        (&[b"PING", b"text"], Brief::Other),
        (&[b"EXEC"], Brief::Other),
    ];
    for (words, wanted) in rows {
        assert!(rt; brief(&rt, rt.alloc(), words) == wanted, "{wanted:?}");
    }
}

/// Each number at both ends of its range, and one past each.
#[test]
fn limits_at_the_ends_of_their_ranges(rt: HostRuntime) {
    let cases = [
        (1, 1, 12, 64, 1, true),
        (64, 65_536, 256, 65_536, 64, true),
        (0, 1, 12, 64, 1, false),
        (65, 1, 12, 64, 1, false),
        (1, 0, 12, 64, 1, false),
        (1, 65_537, 12, 64, 1, false),
        (1, 1, 11, 64, 1, false),
        (1, 1, 257, 64, 1, false),
        (1, 1, 12, 63, 1, false),
        (1, 1, 12, 65_537, 1, false),
        (1, 1, 12, 64, 0, false),
        (1, 1, 12, 64, 65, false),
    ];
    for (stripes, buckets, frames, places, clients, fits) in cases {
        let limits = Limits::new(stripes, buckets, frames, places, clients);
        assert!(rt;
            limits.is_some() == fits,
            "{stripes} {buckets} {frames} {places} {clients}"
        );
    }
}

/// How two texts stand, byte by byte.
fn order_of(a: &[u8], b: &[u8]) -> Ordering {
    for (x, y) in a.iter().zip(b) {
        if x != y {
            return x.cmp(y);
        }
    }
    a.len().cmp(&b.len())
}

/// Whether the words of two texts stand as the texts do, either way round.
fn stand_alike(rt: &impl Abort, alloc: Global, a: &[u8], b: &[u8]) -> bool {
    let x = Word::from_slice(alloc, a).expect(rt, "memory for a word");
    let y = Word::from_slice(alloc, b).expect(rt, "memory for a word");
    x.cmp(&y) == order_of(a, b) && y.cmp(&x) == order_of(b, a)
}

/// Whether words stand as their texts do where these have one beginning, then a lesser and a greater
/// byte, and past these the greatest and the least.
fn differ_at(
    rt: &impl Abort,
    alloc: Global,
    place: usize,
    length: usize,
    lesser: u8,
    greater: u8,
) -> bool
    requires { (place < length) × (length ≤ 24) }
{
    let mut a = [0xff; 24];
    let mut b = [0; 24];
    a[..place].fill(b'k');
    b[..place].fill(b'k');
    a[place] = lesser;
    b[place] = greater;
    stand_alike(rt, alloc, &a[..length], &b[..length]) && stand_alike(rt, alloc, &a, &b[..length])
}

/// Whether words of this length differ as their texts do, at each place, and where one text is the beginning of the
/// other.
fn differ_within(rt: &impl Abort, alloc: Global, length: usize) -> bool
    requires { length ≤ 24 }
{
    let text = [b'k'; 24];
    for place in 0..length {
        if !differ_at(rt, alloc, place, length, 0x7f, 0x80)
            || !differ_at(rt, alloc, place, length, 0x80, 0xff)
            || !stand_alike(rt, alloc, &text[..place], &text[..length])
        {
            return false;
        }
    }
    stand_alike(rt, alloc, &text[..length], &text[..length])
}

/// Lengths on either side of each multiple of four and eight.
#[test]
fn words_stand_as_their_bytes_do(rt: HostRuntime) {
    for length in 0..25 {
        assert!(rt; differ_within(&rt, rt.alloc(), length), "{length}");
    }
}

//! Worked commands, each list of them on one overlay: a line each, with what it is answered.

use std::alloc::{AllocError, Global};
use std::process::Abort;
use strings::overlay::Overlay;
use strings::run::run;
use words::command::Command;
use words::limits::WORDS_MAX;
use words::reply::{CommandReply, Item};
use words::word::{OutOfMemory, Word, Words};

/// Adds a word to a request, which is refused where it has its most words already.
fn add_word(alloc: Global, words: &mut Words, text: &str) -> Result<(), OutOfMemory> {
    if words.as_slice().len() >= WORDS_MAX {
        return Err(AllocError);
    }
    let word = Word::from_slice(alloc, text.as_bytes())?;
    Ok(words.push(word)?)
}

/// Adds words to a request, set apart by one space each.
fn add_words(alloc: Global, words: &mut Words, texts: &str) -> Result<(), OutOfMemory> {
    for text in texts.split(' ') {
        add_word(alloc, words, text)?;
    }
    Ok(())
}

/// Notes a text.
fn note(text: &mut Vec<u8>, more: &[u8]) -> Result<(), OutOfMemory> {
    Ok(text.extend_from_slice(more)?)
}

/// Notes a number.
fn note_number(alloc: Global, text: &mut Vec<u8>, number: i64) -> Result<(), OutOfMemory> {
    let digits = format!(in alloc; ":{number}")?;
    note(text, digits.as_bytes())
}

/// Notes an item, without line ends and lengths.
fn note_item(alloc: Global, text: &mut Vec<u8>, item: &Item) -> Result<(), OutOfMemory> {
    let (mark, bytes) = match item {
        Item::Line(line) => (b"".as_slice(), line.text()),
        Item::Integer(number) => return note_number(alloc, text, *number),
        Item::Bulk(word) => (b"$".as_slice(), word.as_slice()),
        Item::Null => (b"".as_slice(), b"null".as_slice()),
    };
    note(text, mark)?;
    note(text, bytes)
}

/// Notes a reply: its items, one after the other.
fn note_reply(alloc: Global, text: &mut Vec<u8>, reply: &CommandReply) -> Result<(), OutOfMemory> {
    match reply {
        CommandReply::One(item) => note_item(alloc, text, item),
        CommandReply::Array(items) => {
            for item in items.as_slice() {
                note_item(alloc, text, item)?;
            }
            Ok(())
        }
    }
}

/// Runs a command, and notes what it is answered.
fn note_run(
    alloc: Global,
    text: &mut Vec<u8>,
    overlay: &mut Overlay<'_>,
    command: &Command,
) -> Result<(), OutOfMemory> {
    let reply = run(alloc, command, overlay)?;
    note_reply(alloc, text, &reply)
}

/// Runs the command of a request, and notes what it is answered.
fn note_answer(
    alloc: Global,
    text: &mut Vec<u8>,
    overlay: &mut Overlay<'_>,
    words: &Words,
) -> Result<(), OutOfMemory> {
    let command = Command::of(alloc, words)?;
    let noted = match &command {
        Ok(command) => note_run(alloc, text, overlay, command),
        Err(_) => note(text, b"(no command)"),
    };
    drop(command);
    noted
}

/// Adds words to a request, runs it, and notes what it is answered.
fn note_request(
    alloc: Global,
    text: &mut Vec<u8>,
    overlay: &mut Overlay<'_>,
    words: &mut Words,
    others: &str,
) -> Result<(), OutOfMemory> {
    add_words(alloc, words, others)?;
    note_answer(alloc, text, overlay, words)
}

/// Runs a request of this name and other words, and notes what it is answered.
fn note_named(
    alloc: Global,
    text: &mut Vec<u8>,
    overlay: &mut Overlay<'_>,
    name: &str,
    others: &str,
) -> Result<(), OutOfMemory> {
    let mut words = Words::one(alloc, Word::from_slice(alloc, name.as_bytes())?);
    note_request(alloc, text, overlay, &mut words, others)
}

/// Whether a request is answered as its line says.
fn is_answered(rt: &impl Abort, alloc: Global, overlay: &mut Overlay<'_>, line: &str) -> bool {
    let Some((request, due)) = line.split_once(" -> ") else {
        return false;
    };
    let Some((name, others)) = request.split_once(' ') else {
        return false;
    };
    let mut text = Vec::new(alloc);
    note_named(alloc, &mut text, overlay, name, others).expect(rt, "memory for the request");
    let is_due = text.as_slice() == due.as_bytes();
    drop(text);
    is_due
}

/// Runs the requests of some lines one after the other: each is answered as its line says.
fn run_lines(rt: &impl Abort, alloc: Global, overlay: &mut Overlay<'_>, lines: &str) {
    for line in lines.split('\n') {
        assert!(rt; is_answered(rt, alloc, overlay, line), "{line}");
    }
}

/// Runs the requests of some lines where no key was there.
fn run_anew(rt: &impl Abort, alloc: Global, lines: &str) {
    let mut overlay = Overlay::new(alloc);
    run_lines(rt, alloc, &mut overlay, lines);
    drop(overlay);
}

#[test]
fn missing_and_present_keys(rt: HostRuntime) {
    let lines =
        "GET m -> null\nSET m v XX -> null\nSET m v NX XX -> -ERR syntax error\nSETNX m v -> :1\nSETNX m w -> :0\n\
        gEt k -> null\nSET k v nx -> +OK\nSET k w Xx -> +OK\nGETDEL k -> $w\nGETSET k u -> null\nGETSET k t -> $u";
    run_anew(&rt, rt.alloc(), lines);
}

#[test]
fn set_range_past_the_end(rt: HostRuntime) {
    let lines =
        "SETRANGE k 5 Hi -> :7\nGET k -> $\0\0\0\0\0Hi\nSETRANGE j 3  -> :0\nEXISTS j -> :0\nSETRANGE k 1 ab -> :7\n\
        GET k -> $\0ab\0\0Hi\nSETRANGE k -1 x -> -ERR offset is out of range\nSETRANGE k 32768 x -> -ERR string is too long\n\
        SETRANGE k z x -> -ERR value is not an integer or out of range\nSETRANGE k 32767 x -> :32768";
    run_anew(&rt, rt.alloc(), lines);
}

#[test]
fn numbers_at_the_edges(rt: HostRuntime) {
    let lines =
        "SET n 9223372036854775807 -> +OK\nINCR n -> -ERR increment or decrement would overflow\n\
        GET n -> $9223372036854775807\nSET a -0 -> +OK\nINCR a -> -ERR value is not an integer or out of range\nSET a -1 -> +OK\n\
        DECRBY a -9223372036854775808 -> :9223372036854775807\nGET a -> $9223372036854775807\nINCRBY b 5 -> :5";
    run_anew(&rt, rt.alloc(), lines);
}

#[test]
fn append_to_the_longest_value(rt: HostRuntime) {
    let lines =
        "SETRANGE k 32766 z -> :32767\nAPPEND k x -> :32768\nAPPEND k y -> -ERR string is too long\nSTRLEN k -> :32768\n\
        GETRANGE k -2 -1 -> $zx\nSET k Hello -> +OK\nGETRANGE k 1 -2 -> $ell\nGETRANGE k 0 -6 -> $\nGETRANGE k -100 100 -> $Hello";
    run_anew(&rt, rt.alloc(), lines);
}

#[test]
fn repeated_keys(rt: HostRuntime) {
    let lines =
        "SET a 1 -> +OK\nDEL a a -> :1\nSET b 1 -> +OK\nEXISTS b b -> :2\nMSET a 1 a 2 -> +OK\nMGET a z -> $2null\n\
        MSETNX a 3 y 4 -> :0\nEXISTS y -> :0\nMSETNX y 4 y 5 -> :1\nGET y -> $5\nPING hi -> $hi\nECHO hi -> $hi";
    run_anew(&rt, rt.alloc(), lines);
}

#[test]
fn renamed_keys(rt: HostRuntime) {
    let lines =
        "SET a 1 -> +OK\nRENAME a b -> +OK\nMGET a b -> null$1\nRENAME a b -> -ERR no such key\nRENAME a a -> -ERR no such key\n\
        RENAME b b -> +OK\nGET b -> $1\nSET c 2 -> +OK\nRENAME c b -> +OK\nMGET b c -> $2null\nSET d  -> +OK\n\
        RENAME d e -> +OK\nMGET d e -> null$";
    run_anew(&rt, rt.alloc(), lines);
}

#[test]
fn set_and_old_values(rt: HostRuntime) {
    let lines =
        "SET a 1 GET -> null\nSET a 2 get -> $1\nSET a 3 GET NX -> $2\nGET a -> $2\nSET a 4 GET GET -> -ERR syntax error\n\
        SET m v XX GET -> null\nGET m -> null\nSET m v nx gEt -> null\nSET m w GET xX -> $v\nGET m -> $w";
    run_anew(&rt, rt.alloc(), lines);
}

/// Runs requests to the heaviest writes that there may be, and one more.
fn run_to_the_limit(rt: &impl Abort, alloc: Global, overlay: &mut Overlay<'_>) {
    let lines =
        "SET a 1 -> +OK\nSETRANGE a 32767 x -> :32768\nSETRANGE b 32767 x -> :32768\nSETRANGE c 32767 x -> :32768\n\
        SETRANGE d 32767 x -> :32768\nSETRANGE e 32767 x -> :32768\nSETRANGE f 32473 x -> :32474";
    run_lines(rt, alloc, overlay, lines);
    assert!(rt; overlay.writes.weight() == Some(196_608));
    run_lines(rt, alloc, overlay, "APPEND f x -> :32475");
    assert!(rt; overlay.writes.weight().is_none());
}

#[test]
fn weight_at_the_limit(rt: HostRuntime) {
    let mut overlay = Overlay::new(rt.alloc());
    run_to_the_limit(&rt, rt.alloc(), &mut overlay);
    drop(overlay);
}

/// Runs requests where a value of one key was found, and that another is missing.
fn run_two_found(rt: &impl Abort, alloc: Global, overlay: &mut Overlay<'static>) {
    overlay
        .found
        .push(b"a", Some(b"old"))
        .expect(rt, "memory for a value");
    overlay
        .found
        .push(b"b", None)
        .expect(rt, "memory for a value");
    let lines = "MGET a b -> $oldnull\nDEL a b -> :1\nGET a -> null\nSET b 2 -> +OK";
    run_lines(rt, alloc, overlay, lines);
}

/// Runs a RENAME where a value of its key was found, and that its new name is missing.
fn run_found_renamed(rt: &impl Abort, alloc: Global, overlay: &mut Overlay<'static>) {
    overlay
        .found
        .push(b"a", Some(b"old"))
        .expect(rt, "memory for a value");
    overlay
        .found
        .push(b"b", None)
        .expect(rt, "memory for a value");
    let lines =
        "RENAME a a -> +OK\nRENAME b a -> -ERR no such key\nRENAME a b -> +OK\nMGET a b -> null$old";
    run_lines(rt, alloc, overlay, lines);
}

/// How many writes there are.
fn count_of_writes(overlay: Overlay<'_>) -> usize {
    let Overlay { found: _, writes } = overlay;
    writes.into_small_vec().len()
}

#[test]
fn found_values(rt: HostRuntime) {
    let mut overlay = Overlay::new(rt.alloc());
    run_two_found(&rt, rt.alloc(), &mut overlay);
    assert!(rt; count_of_writes(overlay) == 2);
}

/// A RENAME that is done writes both keys, and none else does.
#[test]
fn found_values_renamed(rt: HostRuntime) {
    let mut overlay = Overlay::new(rt.alloc());
    run_found_renamed(&rt, rt.alloc(), &mut overlay);
    assert!(rt; count_of_writes(overlay) == 2);
}

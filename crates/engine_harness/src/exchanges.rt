//! Requests as texts, and whether they are answered as is due.

ghost use Rattle.std.specs.Prelude.{◌≡◌, IfSome, IsTrue, true};
ghost use Rattle.words.specs.Bounds.{IsBounded};
ghost use Rattle.words.specs.Commands.{touches_keys};

use std::alloc::Global;
use transact::call::Answer;
use words::command::Command;
use words::limits::WORDS_MAX;
use words::number;
use words::reply::{CommandReply, Fault, Item, Reply};
use words::word::{Word, Words};

/// A request, its words set apart by one space each, and what it is answered.
#[derive(Clone, Copy)]
pub struct Exchange<'a> {
    pub request: &'a str,
    pub due: &'a str,
}

/// The exchange of a line, as `request -> what it is answered`.
pub fn exchange_of(line: &str) -> Option<Exchange<'_>> {
    let (request, due) = line.split_once(" -> ")?;
    Some(Exchange { request, due })
}

/// How a request was answered.
#[derive(Clone, Copy, PartialEq, Eq)]
pub enum Outcome {
    /// With what is due.
    Due,
    /// With `-OOM out of memory`.
    OutOfMemory,
    /// With something else.
    Other,
}

/// Adds a word to a request, where it has room for one. `None` where there was no memory.
fn add_word(alloc: Global, words: &mut Words, text: &str) -> Option<()> {
    let word = Word::from_slice(alloc, text.as_bytes()).ok()?;
    if words.as_slice().len() < WORDS_MAX {
        words.push(word).ok()
    } else {
        drop(word);
        Some(())
    }
}

/// Adds words to a request. `None` where there was no memory.
fn add_words(alloc: Global, words: &mut Words, texts: &str) -> Option<()> {
    for text in texts.split(' ') {
        add_word(alloc, words, text)?;
    }
    Some(())
}

/// The words of a request. `None` where there was no memory.
pub(crate) fn words_of(alloc: Global, request: &str) -> Option<Words> {
    let (name, others) = request.split_once(' ')?;
    let name = Word::from_slice(alloc, name.as_bytes()).ok()?;
    let mut words = Words::one(alloc, name);
    match add_words(alloc, &mut words, others) {
        Some(()) => Some(words),
        None => {
            drop(words);
            None
        }
    }
}

/// The command of a request. `None` where there was no memory, or where it is no command.
fn command_of(alloc: Global, request: &str) -> Option<Command> {
    let words = words_of(alloc, request)?;
    let command = Command::of(alloc, &words);
    drop(words);
    command.ok()?.ok()
}

/// Whether a command has its place in a history: it names a key, and is within the limits.
fn has_place(command: &Command) -> bool
    ensures { result ≡ true → IsTrue (touches_keys command.now) × IsBounded command.now }
{
    names_key(command) && command.is_bounded()
}

/// Whether a command names a key.
fn names_key(command: &Command) -> bool
    ensures { result ≡ touches_keys command.now }
{
    !matches!(
        command,
        Command::Ping(_) | Command::Echo(_) | Command::Session(_) | Command::Bad(_)
    )
}

/// This command, where it has its place in a history.
pub fn placed(command: Command) -> Option<Command>
    ensures { IfSome result (λ command. IsTrue (touches_keys command) × IsBounded command) }
{
    Some(command).filter(|command| has_place(command))
}

/// The command of a request, where it has its place in a history. `None` also where there was no memory.
pub fn keyed(alloc: Global, request: &str) -> Option<Command>
    ensures { IfSome result (λ command. IsTrue (touches_keys command) × IsBounded command) }
{
    placed(command_of(alloc, request)?)
}

/// Whether an item is the one of this text: a line, `:` and a number, `$` and a value, or `null`.
fn is_item(item: &Item, text: &[u8]) -> bool {
    match (item, text) {
        (Item::Line(line), _) => line.text() == text,
        (Item::Integer(number), [b':', digits @ ..]) => number::parse(digits) == Some(*number),
        (Item::Bulk(word), [b'$', bytes @ ..]) => word.as_slice() == bytes,
        (Item::Null, _) => text == b"null".as_slice(),
        _ => false,
    }
}

/// Whether items are those of these texts, which are set apart by one space each.
fn are_items(items: &[Item], texts: &str) -> bool {
    let mut others = items;
    for text in texts.split(' ') {
        let Some((item, rest)) = others.split_first() else {
            return false;
        };
        if !is_item(item, text.as_bytes()) {
            return false;
        }
        others = rest;
    }
    others.is_empty()
}

/// Whether an answer is the one that is due, or out of memory.
fn outcome_of(answer: &Answer, due: &str) -> Outcome {
    let is_due = match answer {
        Answer::Fault(Fault::OutOfMemory) => return Outcome::OutOfMemory,
        Answer::Reply(Reply::Single(CommandReply::One(item))) => is_item(item, due.as_bytes()),
        Answer::Reply(Reply::Single(CommandReply::Array(items))) => {
            are_items(items.as_slice(), due)
        }
        _ => false,
    };
    if is_due { Outcome::Due } else { Outcome::Other }
}

/// Whether an answer is the one that is due, or out of memory. It is let go then.
pub fn compare(answer: Answer, due: &str) -> Outcome {
    let outcome = outcome_of(&answer, due);
    drop(answer);
    outcome
}

/// Whether an answer is a reply. It is let go then.
pub fn is_reply(answer: Answer) -> bool {
    let is_reply = matches!(&answer, Answer::Reply(_));
    drop(answer);
    is_reply
}

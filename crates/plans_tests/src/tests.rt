//! Calls over log stripes and over a plain map: the same replies, and the same at the end.

use crate::calls::{submit, submit_placed};
use crate::held::{Store, Stripes};
use device::{Device, Faulty, MemoryDevice};
use shards::shard::Shard;
use std::alloc::Global;
use std::collections::BTreeMap;
use strings::keys::{key_at, key_count};
use strings::overlay::Overlay;
use strings::run::run;
use strings::writes::{Write, Writes};
use transact::call::{Call, Watching};
use words::command::Command;
use words::history::Commands;
use words::limits::{Limits, WORDS_MAX};
use words::reply::{CommandReply, Item, Reply};
use words::word::{Word, Words};

mod drawn;
mod freeing;
mod full;
mod placing;
mod sizes;
mod stops;

/// A plain map.
type Plain = BTreeMap<Word, Word>;

/// The stripes of a store, so many of 12 frames each.
fn shards_of<D: Device>(
    alloc: Global,
    count: usize,
    places: usize,
) -> Option<Vec<Shard<D::Receipt>>> {
    let limits = Limits::new(count, 256, 12, places, 4)?;
    let mut shards = Vec::new(alloc);
    for _ in 0..count {
        let shard = Shard::new(alloc, &limits).ok()?;
        shards.push(shard).ok()?;
    }
    Some(shards)
}

/// A store of so many stripes over this device.
fn store_of<D: Device>(alloc: Global, count: usize, places: usize, device: D) -> Option<Store<D>> {
    let shards = shards_of::<D>(alloc, count, places)?;
    Some(Store {
        stripes: Stripes { shards, holder: 0 },
        device,
    })
}

/// An opening of memory, whose receipts lend their pages.
fn memory(alloc: Global) -> Option<MemoryDevice> {
    let mut openings = MemoryDevice::openings(alloc, 1).ok()?;
    openings.pop()
}

/// An opening of memory whose receipts lend nothing, so that each page is read.
fn away(alloc: Global) -> Option<Faulty<MemoryDevice>> {
    Some(Faulty::new(memory(alloc)?, Vec::new(alloc)))
}

/// Adds words to a request. `None` where there was no memory.
fn add_words(alloc: Global, words: &mut Words, texts: &str) -> Option<()> {
    for text in texts.split(' ') {
        let word = Word::from_slice(alloc, text.as_bytes()).ok()?;
        if words.as_slice().len() < WORDS_MAX {
            words.push(word).ok()?;
        }
    }
    Some(())
}

/// The words of a line, set apart by one space each.
fn words_of(alloc: Global, line: &str) -> Option<Words> {
    let (name, others) = line.split_once(' ')?;
    let name = Word::from_slice(alloc, name.as_bytes()).ok()?;
    let mut words = Words::one(alloc, name);
    add_words(alloc, &mut words, others)?;
    Some(words)
}

/// The command of a line. `None` where there was no memory, or where it is no command.
fn command_of(alloc: Global, line: &str) -> Option<Command> {
    let words = words_of(alloc, line)?;
    let command = Command::of(alloc, &words).ok()?.ok();
    drop(words);
    command
}

/// The commands of these lines.
fn commands_of(alloc: Global, lines: &str) -> Option<Commands> {
    let mut commands = Vec::new(alloc);
    for line in lines.split('\n') {
        let command = command_of(alloc, line)?;
        commands.push(command).ok()?;
    }
    Some(Commands::from_vec(commands))
}

/// Lets a call go.
fn let_go(call: Call) {
    match call {
        Call::One(command) => drop(command),
        Call::Watch(keys) => drop(keys),
        Call::Exec(commands, watching) => {
            drop(commands);
            drop(watching.into_keys());
        }
        Call::Forget(watching) => drop(watching.into_keys()),
    }
}

/// What a call is answered, whose writes are placed where they wait for nothing, and else planned. `None` where it was not planned.
fn answer_to<D: Device>(
    alloc: Global,
    store: &mut Store<D>,
    seat: u64,
    call: Call,
) -> Option<Reply> {
    let told = match submit_placed(alloc, store, seat, &call) {
        Some(reply) => Some(reply),
        None => submit(alloc, store, seat, &call).ok(),
    };
    let_go(call);
    told
}

/// What was found of the keys of a command is shown to it.
fn show_plain<'a>(plain: &'a Plain, command: &'a Command, overlay: &mut Overlay<'a>) -> Option<()> {
    for place in 0..key_count(command) {
        let key = key_at(command, place);
        let value = match plain.get(key) {
            Some(value) => Some(value.as_slice()),
            None => None,
        };
        overlay.found.push(key.as_slice(), value).ok()?;
    }
    Some(())
}

/// What a command answers on a plain map, and what it writes.
fn answer_plain(alloc: Global, plain: &Plain, command: &Command) -> Option<(CommandReply, Writes)> {
    let mut overlay = Overlay::new(alloc);
    show_plain(plain, command, &mut overlay)?;
    let reply = run(alloc, command, &mut overlay).ok()?;
    Some((reply, overlay.writes))
}

/// Makes a write in a plain map.
fn apply(plain: &mut Plain, write: Write) -> Option<()> {
    let (key, value) = write.into_parts();
    match value {
        Some(value) => drop(plain.insert(key, value).ok()?),
        None => drop(plain.remove(&key)),
    }
    Some(())
}

/// Runs a command on a plain map.
fn run_plain(alloc: Global, plain: &mut Plain, command: &Command) -> Option<CommandReply> {
    let (reply, writes) = answer_plain(alloc, plain, command)?;
    for write in writes.into_small_vec() {
        apply(plain, write)?;
    }
    Some(reply)
}

/// Runs commands on a plain map, one after the other.
fn run_all_plain(
    alloc: Global,
    plain: &mut Plain,
    commands: &[Command],
) -> Option<Vec<CommandReply>> {
    let mut replies = Vec::new(alloc);
    for command in commands {
        let reply = run_plain(alloc, plain, command)?;
        replies.push(reply).ok()?;
    }
    Some(replies)
}

/// Whether two items are the same.
fn is_same_item(one: &Item, other: &Item) -> bool {
    match (one, other) {
        (Item::Line(one), Item::Line(other)) => one.text() == other.text(),
        (Item::Integer(one), Item::Integer(other)) => one == other,
        (Item::Bulk(one), Item::Bulk(other)) => one.as_slice() == other.as_slice(),
        (Item::Null, Item::Null) => true,
        _ => false,
    }
}

/// Whether two lists of items are the same.
fn are_same_items(ones: &[Item], others: &[Item]) -> bool {
    if ones.len() != others.len() {
        return false;
    }
    for (one, other) in ones.iter().zip(others) {
        if !is_same_item(one, other) {
            return false;
        }
    }
    true
}

/// Whether two replies of a command are the same.
fn is_same(one: &CommandReply, other: &CommandReply) -> bool {
    match (one, other) {
        (CommandReply::One(one), CommandReply::One(other)) => is_same_item(one, other),
        (CommandReply::Array(ones), CommandReply::Array(others)) => {
            are_same_items(ones.as_slice(), others.as_slice())
        }
        _ => false,
    }
}

/// Whether two lists of replies are the same.
fn are_same(ones: &[CommandReply], others: &[CommandReply]) -> bool {
    if ones.len() != others.len() {
        return false;
    }
    for (one, other) in ones.iter().zip(others) {
        if !is_same(one, other) {
            return false;
        }
    }
    true
}

/// Whether a reply is the one of this line, as its text has it.
fn is_line(reply: &Reply, text: &str) -> bool {
    match reply {
        Reply::Single(CommandReply::One(Item::Line(line))) => line.text() == text.as_bytes(),
        _ => false,
    }
}

/// Whether a call's reply is the one reply of a command.
fn is_single(told: &Reply, due: &CommandReply) -> bool {
    match told {
        Reply::Single(told) => is_same(told, due),
        _ => false,
    }
}

/// Whether a call's reply is the replies of a transaction's commands.
fn is_array(told: &Reply, due: &[CommandReply]) -> bool {
    match told {
        Reply::Array(told) => are_same(told.as_slice(), due),
        _ => false,
    }
}

/// What the command of a line is answered.
fn answer_line<D: Device>(alloc: Global, store: &mut Store<D>, line: &str) -> Option<Reply> {
    let command = command_of(alloc, line)?;
    answer_to(alloc, store, 0, Call::One(command))
}

/// What the commands of lines are answered as one transaction.
fn answer_lines<D: Device>(alloc: Global, store: &mut Store<D>, lines: &str) -> Option<Reply> {
    let commands = commands_of(alloc, lines)?;
    answer_to(alloc, store, 0, Call::Exec(commands, Watching::none(alloc)))
}

/// What the command of a line is due to be answered.
fn due_line(alloc: Global, plain: &mut Plain, line: &str) -> Option<CommandReply> {
    let command = command_of(alloc, line)?;
    let due = run_plain(alloc, plain, &command);
    drop(command);
    due
}

/// What the commands of lines are due to be answered.
fn due_lines(alloc: Global, plain: &mut Plain, lines: &str) -> Option<Vec<CommandReply>> {
    let commands = commands_of(alloc, lines)?;
    let due = run_all_plain(alloc, plain, commands.as_slice());
    drop(commands);
    due
}

/// A store, and a plain map.
#[derive(Drop)]
struct Both<D: Device> {
    store: Store<D>,
    plain: Plain,
}

/// A store of so many stripes over this device, and a plain map.
fn both_of<D: Device>(alloc: Global, count: usize, places: usize, device: D) -> Option<Both<D>> {
    let store = store_of(alloc, count, places, device)?;
    Some(Both {
        store,
        plain: BTreeMap::new(alloc),
    })
}

/// Runs the command of a line on both, and tells whether both answer the same.
fn run_one_both<D: Device>(alloc: Global, both: &mut Both<D>, line: &str) -> Option<bool> {
    let due = due_line(alloc, &mut both.plain, line)?;
    let told = answer_line(alloc, &mut both.store, line)?;
    let is_same = is_single(&told, &due);
    drop(told);
    drop(due);
    Some(is_same)
}

/// Runs the commands of lines on both, as one transaction on the store, and tells whether both answer the same.
fn run_all_both<D: Device>(alloc: Global, both: &mut Both<D>, lines: &str) -> Option<bool> {
    let due = due_lines(alloc, &mut both.plain, lines)?;
    let told = answer_lines(alloc, &mut both.store, lines)?;
    let is_same = is_array(&told, due.as_slice());
    drop(told);
    drop(due);
    Some(is_same)
}

/// Runs a line on both; several lines are a transaction. It tells whether both answer the same.
fn run_both<D: Device>(alloc: Global, both: &mut Both<D>, lines: &str) -> bool {
    let is_same = if lines.contains('\n') {
        run_all_both(alloc, both, lines)
    } else {
        run_one_both(alloc, both, lines)
    };
    is_same == Some(true)
}

/// Whether a page of each stripe has left its frame, and a receipt of it is kept.
fn have_flushed<D: Device>(store: &mut Store<D>) -> bool {
    for stripe in 0..store.stripes.shards.len() {
        if store.stripes.shards[stripe].receipt(0).is_none() {
            return false;
        }
    }
    true
}

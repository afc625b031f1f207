//! What each client of a world was told, beside a plain map.

ghost use Rattle.std.specs.Prelude.{◌<◌, length};
ghost use Rattle.world.specs.Tables.{state_of};

use crate::plain::Plain;
use crate::told::{Told, Waits};
use crate::watches::Watches;
use std::alloc::Global;
use words::history::{Entry, Operation};
use words::reply::Reply;
use world::World;

/// How many entries a history has, how many of them are transactions that were not done, and how many calls were
/// refused beside them.
#[derive(Clone, Copy)]
pub(crate) struct Sums {
    pub(crate) entries: usize,
    pub(crate) undone: usize,
    pub(crate) refused: usize,
}

impl Sums {
    /// Whether so many commits came to these: each is an entry or was refused, but for those by which clients ended that
    /// watched something, one a client at most.
    pub(crate) fn are_of(&self, commits: u64, clients: usize) -> bool {
        let told = (self.entries as u64).saturating_add(self.refused as u64);
        told <= commits && commits <= told.saturating_add(clients as u64)
    }

    /// Whether so many calls were asked for, and each is an entry or was refused.
    pub(crate) fn are_all(&self, calls: u64) -> bool {
        (self.entries as u64).saturating_add(self.refused as u64) == calls
    }
}

/// The sums of a world in which all is as a plain map has it, where calls may wait or none. `None` where it is not, and
/// where there was no memory.
pub(crate) fn compared(alloc: Global, world: &World, waits: Waits) -> Option<Sums> {
    let mut refused: usize = 0;
    for client in 0..world.clients() {
        let count = compared_of(alloc, world, client, waits)?;
        refused = refused.checked_add(count)?;
    }
    let history = world.history();
    Some(Sums {
        entries: history.len(),
        undone: history.iter().filter(|entry| is_undone(entry)).count(),
        refused,
    })
}

/// Whether an entry is a transaction that was not done.
fn is_undone(entry: &Entry) -> bool {
    matches!(entry.reply, Reply::NullArray)
}

/// How many calls of one client were refused.
fn compared_of(alloc: Global, world: &World, client: usize, waits: Waits) -> Option<usize>
    requires { client < length (state_of world.now).clients }
{
    let mut plain = Plain::new(alloc);
    let mut watches = Watches::new(alloc);
    let mut told = Told::new(world.output(client));
    for entry in world.history() {
        let due = plain.reply(entry)?;
        if entry.session == client as u64 {
            watch(entry, plain.position(), &mut watches, &mut told)?;
            told.take(due.as_slice())?;
        }
        plain.go_on();
    }
    told.end(waits)
}

/// What a client watches from its entry at this position on. `None` where its transaction goes by other watches than it
/// had.
fn watch(entry: &Entry, position: u64, watches: &mut Watches, told: &mut Told<'_>) -> Option<()> {
    if told.take_refusals() {
        watches.clear();
    }
    match &entry.operation {
        Operation::Run(_) => Some(()),
        Operation::Watch(keys) => watches.add(keys.as_slice(), position),
        Operation::Exec(_, pairs) => {
            let same = watches.are(pairs.as_slice());
            watches.clear();
            told.take_queued()?;
            same.then_some(())
        }
    }
}

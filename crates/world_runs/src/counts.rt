//! How often each kind of event was enabled.

use std::fmt;
use std::fmt::{Display, Formatter};
use world_model::Event;

/// How often each kind of event was enabled.
#[derive(Clone, Copy)]
pub(crate) struct Counts {
    piece: u64,
    close: u64,
    take: u64,
    fetch: u64,
    commit: u64,
    give: u64,
    copy: u64,
    write: u64,
    install: u64,
    evict: u64,
    unlink: u64,
    retire: u64,
    drain: u64,
    release: u64,
}

impl Counts {
    /// None was.
    pub(crate) fn new() -> Counts {
        Counts {
            piece: 0,
            close: 0,
            take: 0,
            fetch: 0,
            commit: 0,
            give: 0,
            copy: 0,
            write: 0,
            install: 0,
            evict: 0,
            unlink: 0,
            retire: 0,
            drain: 0,
            release: 0,
        }
    }

    /// Counts an event that was enabled.
    pub(crate) fn add(&mut self, event: &Event) {
        let count = self.of(event);
        *count = count.saturating_add(1);
    }

    /// How many calls were committed.
    pub(crate) fn commits(&self) -> u64 {
        self.commit
    }

    /// How many requests were fed; each is a call, or a transaction.
    pub(crate) fn pieces(&self) -> u64 {
        self.piece
    }

    /// Whether each kind was enabled at least once.
    pub(crate) fn are_all_there(&self) -> bool {
        let counts = [
            self.piece,
            self.close,
            self.take,
            self.fetch,
            self.commit,
            self.give,
            self.copy,
            self.write,
            self.install,
            self.evict,
            self.unlink,
            self.retire,
            self.drain,
            self.release,
        ];
        counts.iter().all(|count| *count > 0)
    }

    /// How often events of the same kind as this were enabled.
    fn of(&mut self, event: &Event) -> &mut u64 {
        match event {
            Event::Piece(..) => &mut self.piece,
            Event::Close(_) => &mut self.close,
            Event::Take(..) => &mut self.take,
            Event::Fetch(_) => &mut self.fetch,
            Event::Commit(_) => &mut self.commit,
            Event::Give(..) => &mut self.give,
            Event::Copy(_) => &mut self.copy,
            Event::Write(_) => &mut self.write,
            Event::Install(_) => &mut self.install,
            Event::Drop(_) => &mut self.evict,
            Event::Unlink(_) => &mut self.unlink,
            Event::Retire(_) => &mut self.retire,
            Event::Drain(_) => &mut self.drain,
            Event::Release(..) => &mut self.release,
        }
    }
}

impl Display for Counts {
    fn fmt<W: fmt::Write>(&self, f: &mut Formatter<W>) -> fmt::Result {
        write!(
            f,
            "piece {}, close {}, take {}, fetch {}, commit {}, give {}, ",
            self.piece, self.close, self.take, self.fetch, self.commit, self.give
        )?;
        write!(
            f,
            "copy {}, write {}, install {}, drop {}, unlink {}, retire {}, drain {}, release {}",
            self.copy,
            self.write,
            self.install,
            self.evict,
            self.unlink,
            self.retire,
            self.drain,
            self.release
        )
    }
}

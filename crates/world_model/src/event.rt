//! The events of the world.

ghost use Rattle.std.specs.Prelude.{◌≡◌};

use crate::shown_page::ShownPage;
use bytes::Bytes;

/// One atomic step of one actor. Clients and stripes are numbered from 0. An event that is not enabled
/// changes nothing. Those up to [`Give`](Event::Give) are of a client, which then advances; the others are
/// of a stripe.
#[derive(Drop)]
pub enum Event {
    /// These bytes reach a client's session, as the next piece of its input.
    Piece(usize, Bytes),
    /// A client's input is at its end.
    Close(usize),
    /// A client takes a stripe for its open call, and plans the call where it is the last.
    Take(usize, usize),
    /// A client reads the pages that its open call lacks.
    Fetch(usize),
    /// A client's open call is committed.
    Commit(usize),
    /// A client gives a stripe back.
    Give(usize, usize),
    /// The flusher copies the oldest sealed page of a stripe.
    Copy(usize),
    /// The flusher writes the page that it copied.
    Write(usize),
    /// The flusher gives a stripe the receipt of the page that it wrote.
    Install(usize),
    /// The evictor drops the oldest resident page of a stripe from its frame.
    Drop(usize),
    /// The cleaner unlinks the oldest page of a stripe.
    Unlink(usize),
    /// The oldest unlinked place of a stripe is retired.
    Retire(usize),
    /// The oldest retired place of a stripe is drained.
    Drain(usize),
    /// The oldest drained place of a stripe is released: from now on, a read of it shows this page.
    Release(usize, ShownPage),
}

impl Event {
    ghost use Rattle.world_model.specs.Actors.{actor};

    /// The client whose event it is, if it is one's.
    pub fn actor(&self) -> Option<usize>
        ensures { result ≡ actor self.now }
    {
        match self {
            Event::Piece(client, _) => Some(*client),
            Event::Close(client) => Some(*client),
            Event::Take(client, _) => Some(*client),
            Event::Fetch(client) => Some(*client),
            Event::Commit(client) => Some(*client),
            Event::Give(client, _) => Some(*client),
            _ => None,
        }
    }
}

//! The store that a connection asks, for as long as its client hears what is answered.
//!
//! A request is put to the store through an [`OpenStore`] alone, and [`Store::open`] alone gives one: only while no write
//! to the client has failed. What it gives holds the writer, so nothing is written before it is let go. Once a write has
//! failed, the store is asked for nothing more than to forget what the session watches.

ghost use Rattle.std.specs.Prelude.{◌≡◌, []};
ghost use Rattle.streams.specs.Streams.{told_of};
ghost use Rattle.engine.specs.Passes.{knows, Rests};
ghost use Rattle.connection.specs.Conversations.{Went};
ghost use Rattle.connection.specs.Served.{Attends, IsHeard};

use crate::client::Client;
use device::Device;
use engine::{Engine, Pass};
use gates::Latch;
use std::sync::Wait;
use streams::Noted;

/// The store that a connection's requests are put to, and what its calls need to wait for others.
#[derive(Drop)]
pub(crate) struct Store<'r, 'l, 'e, T: Wait, L: Latch, D: Device> {
    rt: &'r T,
    latch: &'l L,
    engine: &'e Engine<D>,
}

/// The store while it is open to a request.
#[derive(Drop)]
pub(crate) struct OpenStore<'a, T: Wait, L: Latch, D: Device> {
    /// By what a call waits.
    pub(crate) rt: &'a T,
    /// Which pass goes first where two meet.
    pub(crate) latch: &'a L,
    pub(crate) engine: &'a Engine<D>,
}

impl<'r, 'l, 'e, T: Wait, L: Latch, D: Device> Store<'r, 'l, 'e, T, L, D> {
    /// The store of this engine. A call waits by `rt`, and `latch` says which pass goes first where two meet.
    pub(crate) fn new(rt: &'r T, latch: &'l L, engine: &'e Engine<D>) -> Store<'r, 'l, 'e, T, L, D>
        ensures { result.engine.now ≡ engine.now }
    {
        Store { rt, latch, engine }
    }

    /// Opens the store to a request of the client that is written to here, which hears what it is answered.
    #[inline]
    pub(crate) fn open<'s, W>(&'s self, writer: &'s Noted<W>) -> OpenStore<'s, T, L, D>
        requires { IsHeard (told_of writer.now) }
        ensures { result.engine.now ≡ self.now.engine.now }
    {
        OpenStore {
            rt: &*self.rt,
            latch: &*self.latch,
            engine: &*self.engine,
        }
    }
}

/// Ends a client, and what it watches.
pub(crate) fn forget<T: Wait, L: Latch, D: Device>(
    store: &Store<T, L, D>,
    client: Client,
    pass: &mut Pass<D>,
)
    requires rests { Rests D.Receipt.is_steady store.now.engine.now pass.old }
    requires attends { Attends (knows D.failures pass.old) client }
    ensures rests { Rests D.Receipt.is_steady store.now.engine.now pass.new }
    ensures watches { (knows D.failures pass.new).watched ≡ [] }
    ensures went { Went (knows D.failures pass.old) (knows D.failures pass.new) [] }
    ensures no_failure { (knows D.failures pass.new).failures ≡ (knows D.failures pass.old).failures }
{
    if let Some(call) = client.close() {
        // A call that ends watches cannot fail, and is told nothing.
        let _ = store.engine.submit_with(store.rt, pass, call, store.latch);
    }
}

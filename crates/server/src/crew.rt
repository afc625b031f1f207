//! The threads that are started, and what each is there for.

ghost use Rattle.std.specs.Prelude.{◌≡◌, [], IfErr, IfOk, length};
ghost use Rattle.engine.specs.Passes.{knows, Rests, stripe_count};
ghost use Rattle.upkeep.specs.Rounds.{duty_of, laps_of, places_of};

use crate::fault::ServerFault;
use crate::working::{Shared, work};
use crossbeam_channel::{Sender, bounded};
use device::Device;
use duties::{Chores, work_in_background};
use engine::{Engine, Pass};
use gates::Latch;
use options::Options;
use sockets::{LEAVING_MAX, Leaving, Serving, close_all};
use std::marker::Model;
use std::rt::Clock;
use std::snapshot::Snapshot;
use std::sync::Wait;
use std::thread::Scope;

/// The threads that were started beside the one that accepts. To a contract it is how many there are of each kind.
///
/// Only the functions here note a thread, each after it has started one. So no caller can say that there is one which was not
/// started. The notes are not stored.
#[derive(Drop)]
pub(crate) struct Crew {
    last: Started,
}

// A thread and those that were started before it.
#[derive(Drop)]
enum Started {
    Nobody,
    Closer(Snapshot<Started>),
    Worker(Snapshot<Started>),
    Background(Snapshot<Chores>, Snapshot<Started>),
}

impl Model for Crew {
    ghost use Rattle.server.specs.Crew.{Numbers, numbers_in};

    ghost Value = { Numbers };

    ghost view = { λ c. numbers_in c.last };
}

impl Crew {
    ghost use Rattle.server.specs.Crew.{nobody, with_closer, with_worker, with_background};

    /// Nobody was started yet.
    pub(crate) fn new() -> Crew
        ensures { result ≡ nobody }
    {
        Crew {
            last: Started::Nobody,
        }
    }

    /// Starts the thread that closes connections, and gives what they are handed over by.
    pub(crate) fn start_closer<'s, 'e, R: AllocGlobal + Clock + Wait + Sync>(
        &mut self,
        rt: &'s R,
        scope: &Scope<'s, &'e ()>,
    ) -> Result<Sender<Leaving>, ServerFault>
        ensures fault { IfErr result (λ fault. fault ≡ ServerFault.OutOfMemory) }
        ensures started { IfOk result (λ _. self.new ≡ with_closer self.old) }
    {
        let all = Vec::with_capacity(rt.alloc(), LEAVING_MAX)?;
        let (closer, handed) = bounded(rt.alloc(), LEAVING_MAX)?;
        scope.spawn(move || close_all(rt, &handed, all))?;
        let earlier = Snapshot::of(&self.last);
        self.last = Started::Closer(earlier);
        Ok(closer)
    }

    /// Starts a thread for these chores with this pass.
    pub(crate) fn start_chores<'s, 'e, R, D>(
        &mut self,
        rt: &'s R,
        scope: &Scope<'s, &'e ()>,
        options: &Options,
        engine: &'s Engine<D>,
        pass: Pass<D>,
        chores: Chores,
        serving: &'s Serving,
    ) -> Result<(), ServerFault>
    where
        R: AllocGlobal + Clock + Wait + Sync,
        D: Device + Send + Sync,
        D::Receipt: Send + Sync,
        requires rests { Rests D.Receipt.is_steady engine.now pass }
        requires laps { length (laps_of chores) ≡ stripe_count engine.now }
        requires places { places_of chores ≡ options.now.places }
        ensures fault { IfErr result (λ fault. fault ≡ ServerFault.OutOfMemory) }
        ensures started { IfOk result (λ _. self.new ≡ with_background (duty_of chores) self.old) }
    {
        let kept = Snapshot::of(&chores);
        scope.spawn(
            move ||
                requires rests { Rests D.Receipt.is_steady engine.now pass }
                requires laps { length (laps_of chores) ≡ stripe_count engine.now }
            {
                work_in_background(rt, engine, pass, chores, serving);
            },
        )?;
        let earlier = Snapshot::of(&self.last);
        self.last = Started::Background(kept, earlier);
        Ok(())
    }

    /// Starts the thread of one worker, with this way to hand over to the closer.
    pub(crate) fn start_worker<'s, 'e, 'a, R, L, D>(
        &mut self,
        rt: &'s R,
        scope: &Scope<'s, &'e ()>,
        shared: &'s Shared<'a, L, D>,
        pass: Pass<D>,
        closer: Sender<Leaving>,
    ) -> Result<(), ServerFault>
    where
        R: AllocGlobal + Clock + Wait + Sync,
        L: Latch + Sync,
        D: Device + Send + Sync,
        D::Receipt: Send + Sync,
        requires rests { Rests D.Receipt.is_steady shared.now.engine.now pass }
        requires watches { (knows D.failures pass).watched ≡ [] }
        ensures fault { IfErr result (λ fault. fault ≡ ServerFault.OutOfMemory) }
        ensures started { IfOk result (λ _. self.new ≡ with_worker self.old) }
    {
        scope.spawn(
            move ||
                requires rests { Rests D.Receipt.is_steady shared.now.engine.now pass }
                requires watches { (knows D.failures pass).watched ≡ [] }
            {
                // It gives its pass back, which nobody wants any more.
                let _ = work(rt, shared, pass, &closer);
            },
        )?;
        let earlier = Snapshot::of(&self.last);
        self.last = Started::Worker(earlier);
        Ok(())
    }
}

//! A server: the thread that accepts, one for each worker, one that closes, and up to three that work in the background.

ghost use Rattle.std.specs.Prelude.{◌≡◌, ◌≢◌, ◌≤◌, ◌<◌, ◌+◌, ◌↔◌, [], false, Err, IfErr, IfOk, IsTrue, All, length, vec_len};
ghost use Rattle.engine.specs.Passes.{knows, Rests, stripe_count};
ghost use Rattle.upkeep.specs.Rounds.{duty_of, laps_of, places_of};
ghost use Rattle.server.specs.Crew.{nobody, with_background, with_workers, HasBackground, IsManned};
ghost use Rattle.engine.specs.declared.TheConstants.{BACKGROUND_PASSES};

use crate::accepting::{Door, accept_all};
use crate::crew::Crew;
use crate::ending_list::Endings;
use crate::fault::ServerFault;
use crate::working::Shared;
use crossbeam_channel::{Sender, bounded};
use device::{Device, Shows};
use duties::{Background, Chores};
use engine::{BACKGROUND_PASSES, Engine, Pass};
use gates::Latch;
use options::Options;
use sockets::{Accepted, Leaving, Serving};
use std::net::TcpListener;
use std::rt::Clock;
use std::sync::Wait;
use std::thread;
use std::thread::{Scope, Threads};

/// How many openings of its device a server with these options wants: one for each worker, and one for each thread that works
/// in the background.
pub fn opening_count(options: &Options) -> usize
    ensures { result ≡ options.now.workers + BACKGROUND_PASSES }
{
    options.workers + BACKGROUND_PASSES
}

/// Serves connections over one store: as many as the options say are accepted, and each is served by a
/// worker until it ends. One for which no worker is free, or comes free within 100 milliseconds, reads
/// `-ERR max number of clients reached` and is closed; it counts too. The latch is told where each call is.
/// How each connection that was served ended goes to `endings`. It answers `Ok` when the last has ended.
///
/// The pages of the store that have left their frames lie on the device of these openings, of which there are as many as
/// [`opening_count`] says: each worker has one of its own, and so has each of the threads that work in the background. The cleaner
/// gives places back. The flusher writes pages to the device, and the evictor drops them from their frames; they are not started
/// where receipts hold their pages, since there is nothing to write then. These threads end with the last worker. What the
/// options say of a device is the caller's to heed.
///
/// # Errors
///
/// [`ServerFault::CannotAccept`] where the listener gives no further connection, once those that were
/// accepted have ended, and [`ServerFault::OutOfMemory`] where there is no memory for the store or for the
/// threads, before the first is accepted.
pub fn run_workers<R, L, D>(
    rt: &R,
    listener: TcpListener,
    options: &Options,
    openings: Vec<D>,
    latch: &L,
    endings: &Endings,
) -> Result<(), ServerFault>
where
    R: AllocGlobal + Clock + Threads + Wait + Sync,
    L: Latch + Sync,
    D: Device + Send + Sync,
    D::Receipt: Send + Sync,
    requires openings { vec_len openings ≡ options.now.workers + BACKGROUND_PASSES }
    ensures listens { IfErr result (λ fault. fault ≢ ServerFault.CannotListen) }
    ensures opened { IfErr result (λ fault. fault ≢ ServerFault.CannotOpenDevice) }
{
    let (engine, passes) = Engine::new(rt.alloc(), &options.limits(), openings)?;
    let served = serve_all(rt, listener, options, latch, endings, &engine, passes);
    engine.end();
    served
}

/// Serves by an engine and its passes. It returns when all threads have ended.
fn serve_all<R, L, D>(
    rt: &R,
    listener: TcpListener,
    options: &Options,
    latch: &L,
    endings: &Endings,
    engine: &Engine<D>,
    passes: Vec<Pass<D>>,
) -> Result<(), ServerFault>
where
    R: AllocGlobal + Clock + Threads + Wait + Sync,
    L: Latch + Sync,
    D: Device + Send + Sync,
    D::Receipt: Send + Sync,
    requires rest { All (Rests D.Receipt.is_steady engine.now) passes.items }
    requires watch { All (λ pass. (knows D.failures pass).watched ≡ []) passes.items }
    requires passes { vec_len passes ≡ options.now.workers + BACKGROUND_PASSES }
    ensures listens { IfErr result (λ fault. fault ≢ ServerFault.CannotListen) }
    ensures opened { IfErr result (λ fault. fault ≢ ServerFault.CannotOpenDevice) }
{
    let serving = Serving::new(rt);
    let (to_workers, for_workers) = bounded(rt.alloc(), 0)?;
    let shared = Shared {
        latch,
        endings,
        engine,
        serving: &serving,
        handed: for_workers,
    };
    run_threads(rt, &shared, listener, options, passes, to_workers)
}

/// Starts the threads, and accepts connections for them. It returns when all have ended.
fn run_threads<'a, R, L, D>(
    rt: &R,
    shared: &Shared<'a, L, D>,
    listener: TcpListener,
    options: &Options,
    passes: Vec<Pass<D>>,
    to_workers: Sender<Accepted<'a>>,
) -> Result<(), ServerFault>
where
    R: AllocGlobal + Clock + Threads + Wait + Sync,
    L: Latch + Sync,
    D: Device + Send + Sync,
    D::Receipt: Send + Sync,
    requires rest { All (Rests D.Receipt.is_steady shared.now.engine.now) passes.items }
    requires watch { All (λ pass. (knows D.failures pass).watched ≡ []) passes.items }
    requires passes { vec_len passes ≡ options.now.workers + BACKGROUND_PASSES }
    ensures listens { IfErr result (λ fault. fault ≢ ServerFault.CannotListen) }
    ensures opened { IfErr result (λ fault. fault ≢ ServerFault.CannotOpenDevice) }
{
    thread::scope(
        thread::scope_env(),
        rt,
        move |scope| -> Result<(), ServerFault>
            requires rest { All (Rests D.Receipt.is_steady shared.now.engine.now) passes.items }
            requires watch { All (λ pass. (knows D.failures pass).watched ≡ []) passes.items }
            requires passes { vec_len passes ≡ options.now.workers + BACKGROUND_PASSES }
            ensures listens { IfErr result (λ fault. fault ≢ ServerFault.CannotListen) }
            ensures opened { IfErr result (λ fault. fault ≢ ServerFault.CannotOpenDevice) }
        {
            let came = start_and_accept(
                rt,
                scope,
                shared,
                &mut Door::new(&listener),
                options,
                passes,
                to_workers,
            );
            drop(listener);
            shared.serving.close();
            came
        },
    )
}

/// Starts the other threads, and accepts connections for the workers.
fn start_and_accept<'s, 'e, 'a, R, L, D>(
    rt: &'s R,
    scope: &Scope<'s, &'e ()>,
    shared: &'s Shared<'a, L, D>,
    door: &mut Door,
    options: &Options,
    passes: Vec<Pass<D>>,
    to_workers: Sender<Accepted<'a>>,
) -> Result<(), ServerFault>
where
    R: AllocGlobal + Clock + Wait + Sync,
    L: Latch + Sync,
    D: Device + Send + Sync,
    D::Receipt: Send + Sync,
    requires door { door.old.failed ≡ false }
    requires closed { door.old.came ≡ 0 }
    requires rest { All (Rests D.Receipt.is_steady shared.now.engine.now) passes.items }
    requires watch { All (λ pass. (knows D.failures pass).watched ≡ []) passes.items }
    requires passes { vec_len passes ≡ options.now.workers + BACKGROUND_PASSES }
    ensures listens { IfErr result (λ fault. fault ≢ ServerFault.CannotListen) }
    ensures opened { IfErr result (λ fault. fault ≢ ServerFault.CannotOpenDevice) }
    ensures cause { IsTrue door.new.failed ↔ (result ≡ Err ServerFault.CannotAccept) }
    ensures all { IfOk result (λ _. door.new.came ≡ options.now.accept) }
    ensures most { door.new.came ≤ options.now.accept }
{
    let mut crew = Crew::new();
    let to_closer = start_threads(rt, scope, shared, &mut crew, options, passes)?;
    accept_all(rt, door, options, shared, &crew, to_workers, to_closer)
}

/// Starts the threads beside the one that accepts: the closer, those that work in the background, and as many workers as the options
/// say. Gives what the closer is handed connections over by.
fn start_threads<'s, 'e, 'a, R, L, D>(
    rt: &'s R,
    scope: &Scope<'s, &'e ()>,
    shared: &'s Shared<'a, L, D>,
    crew: &mut Crew,
    options: &Options,
    passes: Vec<Pass<D>>,
) -> Result<Sender<Leaving>, ServerFault>
where
    R: AllocGlobal + Clock + Wait + Sync,
    L: Latch + Sync,
    D: Device + Send + Sync,
    D::Receipt: Send + Sync,
    requires rest { All (Rests D.Receipt.is_steady shared.now.engine.now) passes.items }
    requires watch { All (λ pass. (knows D.failures pass).watched ≡ []) passes.items }
    requires passes { vec_len passes ≡ options.now.workers + BACKGROUND_PASSES }
    requires nobody { crew.old ≡ nobody }
    ensures fault { IfErr result (λ fault. fault ≡ ServerFault.OutOfMemory) }
    ensures manned { IfOk result (λ _. IsManned options.now.workers D.Receipt.lends crew.new) }
{
    let to_closer = crew.start_closer(rt, scope)?;
    let passes = start_background(rt, scope, shared, crew, options, passes)?;
    start_workers(rt, scope, shared, crew, passes, options.workers, &to_closer)?;
    Ok(to_closer)
}

/// Starts the threads that work in the background, each with one of the last passes, and gives the others back. They work until
/// serving is over. Where receipts hold their pages, a page leaves its frame as it is, by the call that needs the frame: then the
/// cleaner alone is started.
fn start_background<'s, 'e, 'a, R, L, D>(
    rt: &'s R,
    scope: &Scope<'s, &'e ()>,
    shared: &'s Shared<'a, L, D>,
    crew: &mut Crew,
    options: &Options,
    passes: Vec<Pass<D>>,
) -> Result<Vec<Pass<D>>, ServerFault>
where
    R: AllocGlobal + Clock + Wait + Sync,
    L: Latch + Sync,
    D: Device + Send + Sync,
    D::Receipt: Send + Sync,
    requires rest { All (Rests D.Receipt.is_steady shared.now.engine.now) passes.items }
    requires watch { All (λ pass. (knows D.failures pass).watched ≡ []) passes.items }
    requires enough { BACKGROUND_PASSES ≤ vec_len passes }
    ensures rest { IfOk result (λ others. All (Rests D.Receipt.is_steady shared.now.engine.now) others.items) }
    ensures watch { IfOk result (λ others. All (λ pass. (knows D.failures pass).watched ≡ []) others.items) }
    ensures count { IfOk result (λ others. vec_len passes ≤ vec_len others + BACKGROUND_PASSES) }
    ensures fault { IfErr result (λ fault. fault ≡ ServerFault.OutOfMemory) }
    ensures started { IfOk result (λ _. HasBackground D.Receipt.lends crew.old crew.new) }
{
    let all = Background::new(rt.alloc(), shared.engine.stripes(), options.places)?;
    let passes = start_chores(rt, scope, shared, crew, options, passes, all.cleaner)?;
    if D::Receipt::hold_pages() {
        return Ok(passes);
    }
    let passes = start_chores(rt, scope, shared, crew, options, passes, all.evictor)?;
    start_chores(rt, scope, shared, crew, options, passes, all.flusher)
}

/// Starts a thread for these chores, with the last pass, and gives the others back.
fn start_chores<'s, 'e, 'a, R, L, D>(
    rt: &'s R,
    scope: &Scope<'s, &'e ()>,
    shared: &'s Shared<'a, L, D>,
    crew: &mut Crew,
    options: &Options,
    mut passes: Vec<Pass<D>>,
    chores: Chores,
) -> Result<Vec<Pass<D>>, ServerFault>
where
    R: AllocGlobal + Clock + Wait + Sync,
    L: Latch + Sync,
    D: Device + Send + Sync,
    D::Receipt: Send + Sync,
    requires rest { All (Rests D.Receipt.is_steady shared.now.engine.now) passes.items }
    requires watch { All (λ pass. (knows D.failures pass).watched ≡ []) passes.items }
    requires some { 0 < vec_len passes }
    requires laps { length (laps_of chores) ≡ stripe_count shared.now.engine.now }
    requires places { places_of chores ≡ options.now.places }
    ensures rest { IfOk result (λ others. All (Rests D.Receipt.is_steady shared.now.engine.now) others.items) }
    ensures watch { IfOk result (λ others. All (λ pass. (knows D.failures pass).watched ≡ []) others.items) }
    ensures count { IfOk result (λ others. vec_len others + 1 ≡ vec_len passes) }
    ensures fault { IfErr result (λ fault. fault ≡ ServerFault.OutOfMemory) }
    ensures started { IfOk result (λ _. crew.new ≡ with_background (duty_of chores) crew.old) }
{
    let Some(pass) = passes.pop() else {
        unreachable!()
    };
    crew.start_chores(
        rt,
        scope,
        options,
        shared.engine,
        pass,
        chores,
        shared.serving,
    )?;
    Ok(passes)
}

/// Starts so many workers, each with a pass of its own and a way of its own to hand over to the closer. Further passes are dropped.
fn start_workers<'s, 'e, 'a, R, L, D>(
    rt: &'s R,
    scope: &Scope<'s, &'e ()>,
    shared: &'s Shared<'a, L, D>,
    crew: &mut Crew,
    mut passes: Vec<Pass<D>>,
    count: usize,
    closer: &Sender<Leaving>,
) -> Result<(), ServerFault>
where
    R: AllocGlobal + Clock + Wait + Sync,
    L: Latch + Sync,
    D: Device + Send + Sync,
    D::Receipt: Send + Sync,
    requires rest { All (Rests D.Receipt.is_steady shared.now.engine.now) passes.items }
    requires watch { All (λ pass. (knows D.failures pass).watched ≡ []) passes.items }
    requires enough { count ≤ vec_len passes }
    ensures fault { IfErr result (λ fault. fault ≡ ServerFault.OutOfMemory) }
    ensures started { IfOk result (λ _. crew.new ≡ with_workers count crew.old) }
{
    passes.truncate(count);
    while let Some(pass) = passes.pop() {
        match closer.clone() {
            Ok(closer) => crew.start_worker(rt, scope, shared, pass, closer)?,
            Err(error) => return Err(error.into()),
        }
    }
    Ok(())
}

//! What a server is started with: the numbers and the device that its command line comes to.
//!
//! It stands below the server and the command line, so that neither has to wait for the other to be proved. Options outside
//! their ranges cannot be made.
#![tactic(auto)]

ghost use Rattle.std.specs.Prelude.{◌≡◌, ◌≤◌, ◌↔◌, IsSome, IfSome};
ghost use Rattle.words.specs.Sizes.{HasNumbers};
ghost use Rattle.words.specs.declared.limits.TheConstants.{STRIPES_MAX, BUCKETS_MAX, FRAMES_MIN, FRAMES_MAX, PLACES_MIN, PLACES_MAX, CLIENTS_MAX};
ghost use Rattle.options.specs.declared.TheConstants.{ACCEPT_MAX};

use words::limits::Limits;

/// The most connections that a server can be told to accept.
pub const ACCEPT_MAX: u32 = 1_000_000;

/// Where a store keeps the pages that have left their frames.
#[derive(Debug, Drop, PartialEq, Eq)]
pub enum DeviceKind {
    /// In memory.
    Memory,
    /// In the file at this path. It is scratch space: it is created or emptied as the server starts.
    File(String),
}

/// What a server is started with. Each number is in its range, by the constants of `words::limits`.
#[derive(Debug, Drop, PartialEq, Eq)]
pub struct Options {
    /// The port of 127.0.0.1 that is listened on. 0 stands for a free one that the system picks.
    pub port: u16,
    /// How many connections are accepted in all, 1 to [`ACCEPT_MAX`].
    pub accept: u32,
    /// Stripes of the store, 1 to `STRIPES_MAX`.
    pub stripes: usize,
    /// Buckets of each stripe's index, 1 to `BUCKETS_MAX`.
    pub buckets: usize,
    /// Frames of each stripe, `FRAMES_MIN` to `FRAMES_MAX`.
    pub frames: usize,
    /// Places of each stripe on the device, `PLACES_MIN` to `PLACES_MAX`.
    pub places: usize,
    /// Workers, each of whom serves one connection at a time, 1 to `CLIENTS_MAX`.
    pub workers: usize,
    /// What keeps the pages that have left their frames.
    pub device: DeviceKind,
    pub ghost accept_in_range: { (1 ≤ accept) × (accept ≤ ACCEPT_MAX) },
    pub ghost stripes_in_range: { (1 ≤ stripes) × (stripes ≤ STRIPES_MAX) },
    pub ghost buckets_in_range: { (1 ≤ buckets) × (buckets ≤ BUCKETS_MAX) },
    pub ghost frames_in_range: { (FRAMES_MIN ≤ frames) × (frames ≤ FRAMES_MAX) },
    pub ghost places_in_range: { (PLACES_MIN ≤ places) × (places ≤ PLACES_MAX) },
    pub ghost workers_in_range: { (1 ≤ workers) × (workers ≤ CLIENTS_MAX) },
}

impl Options {
    ghost use Rattle.options.specs.Settings.{AreInRange, HasSettings};

    /// These options, or `None` exactly where a number but `port` is out of its range.
    pub fn new(
        port: u16,
        accept: u32,
        stripes: usize,
        buckets: usize,
        frames: usize,
        places: usize,
        workers: usize,
        device: DeviceKind,
    ) -> Option<Options>
        ensures in_range { IsSome result ↔ AreInRange accept stripes buckets frames places workers }
        ensures numbers { IfSome result (λ options. HasSettings options port accept stripes buckets frames places workers device) }
    {
        if !(1..=ACCEPT_MAX).contains(&accept) {
            return None;
        }
        let limits = Limits::new(stripes, buckets, frames, places, workers)?;
        Some(Options {
            port,
            accept,
            stripes: limits.stripes,
            buckets: limits.buckets,
            frames: limits.frames,
            places: limits.places,
            workers: limits.clients,
            device,
        })
    }

    /// The limits of the store that is served: these numbers, and a client for each worker.
    pub fn limits(&self) -> Limits
        ensures { HasNumbers result self.now.stripes self.now.buckets self.now.frames self.now.places self.now.workers }
    {
        Limits {
            stripes: self.stripes,
            buckets: self.buckets,
            frames: self.frames,
            places: self.places,
            clients: self.workers,
        }
    }
}

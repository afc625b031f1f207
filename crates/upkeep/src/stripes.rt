//! The stripes of a store, as a thread of the background has to do with them.

ghost use Rattle.std.specs.Prelude.{◌≡◌, ◌≤◌, ◌<◌, ℕ, List, ◌∷◌, ◌++◌};
ghost use Rattle.upkeep.specs.Events.{stepped};
ghost use Rattle.upkeep.specs.declared.stripes.Event.{Event};

/// What a thread of the background does at a stripe.
#[derive(Clone, Copy, Debug, PartialEq, Eq)]
pub enum Duty {
    /// It writes pages that wait for that to the device.
    Flush,
    /// It drops pages that were written from their frames, where frames are short.
    Evict,
    /// It brings places nearer to their release, where half of them are used.
    Clean,
}

/// What a step at a stripe came to.
#[derive(Clone, Copy, Debug, PartialEq, Eq)]
pub enum Outcome {
    /// It was done.
    Done,
    /// There was nothing to do.
    Idle,
    /// The stripe is full.
    Full,
    /// A call of the device failed, or there was no memory.
    Fault,
}

/// What a thread was told of a stripe, by the stripe's number. It exists in contracts alone: no value of this type is made.
pub enum Event {
    /// Whether half of its places are used.
    HalfUsed(u64, bool),
    /// How many of its places are used.
    Used(u64, u64),
    /// Whether it is short of frames.
    Short(u64, bool),
    /// Whether a deletion has opened the page that is left for it.
    Opened(u64, bool),
    /// A step found it full.
    Full(u64),
    /// A step of this duty had nothing to do.
    Idle(u64, Duty),
    /// A step of this duty was done.
    Done(u64, Duty),
}

/// The stripes of a store: what is seen of each, and the steps at it.
pub trait Stripes {
    // It may be asked.
    ghost is_ready: { Self → Type 0 };

    // How many stripes there are.
    ghost count: { Self → ℕ };

    // What was told of them so far, the newest first.
    ghost events: { Self → List Event };

    // How many calls of the device have failed.
    ghost failures: { Self → ℕ };

    /// How many stripes there are.
    fn stripes(&self) -> usize
        requires { is_ready self.now }
        ensures { result ≡ count self.now };

    /// Whether at least half of a stripe's places are used: the cleaner works there.
    fn is_half_used(&mut self, stripe: usize) -> bool
        requires ready { is_ready self.old }
        requires below { stripe < count self.old }
        ensures ready { is_ready self.new }
        ensures count { count self.new ≡ count self.old }
        ensures told { events self.new ≡ Event.HalfUsed stripe result ∷ events self.old }
        ensures failures { failures self.new ≡ failures self.old };

    /// How many of a stripe's places are used.
    fn used_places(&mut self, stripe: usize) -> usize
        requires ready { is_ready self.old }
        requires below { stripe < count self.old }
        ensures ready { is_ready self.new }
        ensures count { count self.new ≡ count self.old }
        ensures told { events self.new ≡ Event.Used stripe result ∷ events self.old }
        ensures failures { failures self.new ≡ failures self.old };

    /// Whether a stripe is short of frames: the evictor works there.
    fn is_short_of_frames(&mut self, stripe: usize) -> bool
        requires ready { is_ready self.old }
        requires below { stripe < count self.old }
        ensures ready { is_ready self.new }
        ensures count { count self.new ≡ count self.old }
        ensures told { events self.new ≡ Event.Short stripe result ∷ events self.old }
        ensures failures { failures self.new ≡ failures self.old };

    /// Whether a deletion has opened the page of a stripe that is left for it.
    fn is_opened(&mut self, stripe: usize) -> bool
        requires ready { is_ready self.old }
        requires below { stripe < count self.old }
        ensures ready { is_ready self.new }
        ensures count { count self.new ≡ count self.old }
        ensures told { events self.new ≡ Event.Opened stripe result ∷ events self.old }
        ensures failures { failures self.new ≡ failures self.old };

    /// One step of a duty at a stripe. Where the flusher's step meets a fault, a call of the device has failed.
    fn step(&mut self, duty: Duty, stripe: usize) -> Outcome
        requires ready { is_ready self.old }
        requires below { stripe < count self.old }
        ensures ready { is_ready self.new }
        ensures count { count self.new ≡ count self.old }
        ensures told { events self.new ≡ stepped stripe duty result ++ events self.old }
        ensures more { failures self.old ≤ failures self.new }
        ensures fault { duty ≡ Duty.Flush → result ≡ Outcome.Fault → failures self.old < failures self.new };
}
